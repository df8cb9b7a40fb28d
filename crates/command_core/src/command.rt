//! The commands that the broker carries out, one after another.

ghost use Rattle.std.specs.Prelude.{◌≡◌, Option, ◌≤◌, length};
ghost use Rattle.command_core.specs.Commands.{IsCommand};

use crate::destination::{Dest, HeaderText};
use crate::fault::Fault;
use crate::sending::Sending;
use std::marker::Model;

/// How a session ends.
#[derive(Clone, Copy)]
pub enum End {
    /// The client said DISCONNECT.
    Bye,
    /// The connection is gone.
    Lost,
    /// The client did what it may not do, and is told so.
    Bad(Fault),
}

/// What a session asks the broker for.
#[derive(Drop)]
pub enum Op {
    /// It begins, for a client that may have named itself for durable subscriptions.
    Open {
        client_id: Option<HeaderText>,
    },
    /// A message goes out.
    Send(Sending),
    /// A subscription begins, under an id of the session's own. With a name, which is not empty and comes only with a
    /// topic, it is a durable one: its messages are kept under that name while nobody listens.
    Subscribe {
        id: HeaderText,
        destination: Dest,
        mode: AckMode,
        durable: Option<HeaderText>,
    },
    /// The subscription of that id ends. With a name, the durable subscription of that name is given up. At least one
    /// of them is there.
    Unsubscribe {
        id: Option<HeaderText>,
        durable: Option<HeaderText>,
    },
    /// The delivery of that number is acknowledged.
    Ack(u64),
    /// The delivery of that number is refused.
    Nack(u64),
    /// The members of a transaction are carried out in their order, all of them or none.
    Commit(Members),
    /// Nothing: it stands for a frame that does nothing yet but asks for a receipt.
    Note,
    /// It ends.
    End(End),
}

impl From<Member> for Op {
    ghost use Rattle.std.specs.Prelude.{◌≡◌};
    ghost use Rattle.command_core.specs.Operations.{op_of};

    ghost from_gives = { λ member r. r ≡ op_of member };

    fn from(member: Member) -> Op {
        match member {
            Member::Send(sending) => Op::Send(sending),
            Member::Ack(delivery) => Op::Ack(delivery),
            Member::Nack(delivery) => Op::Nack(delivery),
        }
    }
}

/// A command: which session asks for what, and the receipt that it asks for with it. Contracts see it as these three.
/// An Open has the session 0, since the broker gives the session its number. No receipt goes with an Open (STOMP 1.2,
/// "Header receipt") or with the end of a lost connection. A client's name and a durable one are not empty. A durable
/// name comes only with a topic, and what ends a subscription has an id or a name.
#[derive(Drop)]
pub struct Command {
    session: u64,
    op: Op,
    receipt: Option<HeaderText>,
}

impl Model for Command {
    ghost use Rattle.command_core.specs.Commands.{CommandValue, IsCommand};

    ghost Value = { CommandValue };

    ghost view = { λ a. record { session = a.session; op = a.op; receipt = a.receipt } };

    ghost invariant = { λ a. IsCommand (record { session = a.session; op = a.op; receipt = a.receipt }) };
}

impl Command {
    /// No memory is taken.
    pub fn new(session: u64, op: Op, receipt: Option<HeaderText>) -> Command
        requires { IsCommand (record { session = session; op = op; receipt = receipt }) }
        ensures { result ≡ record { session = session; op = op; receipt = receipt } }
    {
        Command {
            session,
            op,
            receipt,
        }
    }

    /// The number of the session that it belongs to. An Open, which makes the session, has 0.
    pub fn session(&self) -> u64
        ensures value { result ≡ self.now.session }
        ensures form { IsCommand self.now }
    {
        self.session
    }

    /// What is to be done.
    pub fn op(&self) -> &Op
        ensures value { result.now ≡ self.now.op }
        ensures form { IsCommand self.now }
    {
        &self.op
    }

    /// The text that a RECEIPT brings back, if one was asked for (header `receipt`).
    pub fn receipt(&self) -> &Option<HeaderText>
        ensures value { result.now ≡ self.now.receipt }
        ensures form { IsCommand self.now }
    {
        &self.receipt
    }

    /// The session, the operation and the receipt, which move: no memory is taken.
    pub fn into_parts(self) -> (u64, Op, Option<HeaderText>)
        ensures value { self ≡ record { session = result.0; op = result.1; receipt = result.2 } }
        ensures form { IsCommand self }
    {
        (self.session, self.op, self.receipt)
    }
}

/// How the messages of a subscription are acknowledged (STOMP 1.2, "SUBSCRIBE ack Header").
#[derive(Clone, Copy)]
pub enum AckMode {
    /// `auto`: a message counts as received once it is sent.
    Auto,
    /// `client`: an acknowledgement counts for its delivery and for all earlier ones of the subscription.
    Client,
    /// `client-individual`: an acknowledgement counts for its delivery alone.
    ClientIndividual,
}

/// What may be a part of a transaction (STOMP 1.2, "BEGIN").
#[derive(Drop)]
pub enum Member {
    /// A message goes out.
    Send(Sending),
    /// The delivery of that number is acknowledged.
    Ack(u64),
    /// The delivery of that number is refused.
    Nack(u64),
}

/// The members of a transaction, in their order: at most 64. Contracts see the list of them.
#[derive(Drop)]
pub struct Members {
    all: Vec<Member>,
}

impl Model for Members {
    ghost use Rattle.std.specs.Prelude.{◌≤◌, List, length};
    ghost use Rattle.command_core.specs.declared.command.Member.{Member};

    ghost Value = { List Member };

    ghost view = { λ a. a.all.items };

    ghost invariant = { λ a. length a.all.items ≤ 64 };
}

impl Members {
    /// At most 64 members, which move: no memory is taken.
    pub fn new(all: Vec<Member>) -> Members
        requires { length all.items ≤ 64 }
        ensures { result ≡ all.items }
    {
        Members { all }
    }

    /// The members in their order, at most 64.
    pub fn as_slice(&self) -> &[Member]
        ensures value { result.now ≡ self.now }
        ensures form { length self.now ≤ 64 }
    {
        self.all.as_slice()
    }

    /// The members, which move: no memory is taken.
    pub fn into_vec(self) -> Vec<Member>
        ensures value { result.items ≡ self }
        ensures form { length self ≤ 64 }
    {
        self.all
    }
}
