//! How far the conversation of one connection with the broker has come.

ghost use Rattle.std.specs.Prelude.{◌≡◌, Some, cond, true, false, ◌≢◌, ◌⊎◌};
ghost use Rattle.clients.specs.Progress.{MayBe, after, is_farewell, is_last, number_in, over, role_of, session_of};
ghost use Rattle.clients.specs.Stages.{Executes, given_up, lost, parted, rested, stopped};
ghost use Rattle.clients.specs.declared.progress.Stage.TheVariants.{Running, GivingUp, Leaving};

use crate::turned::Ended;
use command_core::{Command, End, Op};

/// What a command is to its session.
#[derive(Clone, Copy)]
pub enum Role {
    /// It begins the session.
    Opens,
    /// It goes on with it.
    Talks,
    /// It ends it.
    Ends,
}

impl Role {
    /// The role of an operation.
    pub fn of(op: &Op) -> Role
        ensures { result ≡ role_of op.now }
    {
        match op {
            Op::Open { .. } => Role::Opens,
            Op::End(_) => Role::Ends,
            _ => Role::Talks,
        }
    }
}

/// How far the conversation of a connection with the broker has come: which commands of its session were appended.
#[derive(Clone, Copy, PartialEq, Eq)]
pub enum Progress {
    /// None.
    New,
    /// The Open with that ticket, which is the session's number, and no End.
    Open(u64),
    /// Nothing more of the session with that number is appended: it has ended, or its client was told an ERROR.
    Ended(u64),
    /// None, and none will be.
    Gone,
}

impl Progress {
    // The session's number, as a command of that role has it: an Open has none yet.
    pub(crate) fn session(self, role: Role) -> u64
        ensures { result ≡ session_of self role }
    {
        match (self, role) {
            (_, Role::Opens) => 0,
            (Progress::Open(number), _) => number,
            (_, _) => 0,
        }
    }

    // Whether a command of its session in that role may be the next. A session's acts come in this order; here it is made sure of.
    pub(crate) fn admits(self, role: Role) -> bool
        ensures yes { result ≡ true → MayBe self role }
        ensures no { result ≡ false → MayBe self role → ⊥ }
    {
        match self {
            Progress::New => role == Role::Opens,
            Progress::Open(_) => role != Role::Opens,
            Progress::Ended(_) | Progress::Gone => false,
        }
    }

    // How far it has come with a command of that role and ticket.
    pub(crate) fn after(self, role: Role, ticket: u64) -> Progress
        ensures { result ≡ after self role ticket }
    {
        match role {
            Role::Opens => Progress::Open(ticket),
            Role::Talks => self,
            Role::Ends => self.over(),
        }
    }

    // The progress once nothing more is appended.
    pub(crate) fn over(self) -> Progress
        ensures { result ≡ over self }
    {
        match self {
            Progress::New | Progress::Gone => Progress::Gone,
            Progress::Open(number) | Progress::Ended(number) => Progress::Ended(number),
        }
    }

    /// The number of the session, once it has one.
    pub fn number(self) -> Option<u64>
        ensures { result ≡ number_in self }
    {
        match self {
            Progress::New | Progress::Gone => None,
            Progress::Open(number) | Progress::Ended(number) => Some(number),
        }
    }
}

// Whether its RECEIPT is the last frame: the client says that its session ends, and asks for a receipt (STOMP 1.2, "DISCONNECT").
pub(crate) fn is_last(command: &Command) -> bool
    ensures { result ≡ is_last command.now }
{
    is_farewell(command.op()) && command.receipt().is_some()
}

// The number of the command whose RECEIPT is the last frame, once one was appended with that ticket.
pub(crate) fn last_after(last_receipt: Option<u64>, is_last: bool, ticket: u64) -> Option<u64>
    ensures { result ≡ cond is_last (Some ticket) last_receipt }
{
    if is_last { Some(ticket) } else { last_receipt }
}

// Whether the client says that its session ends.
fn is_farewell(op: &Op) -> bool
    ensures { result ≡ is_farewell op.now }
{
    matches!(op, Op::End(End::Bye))
}

/// What is to be done with a connection.
#[derive(Clone, Copy, PartialEq, Eq)]
pub enum Stage {
    /// Its client is heard, what the client asks for is appended, and what may leave is sent.
    Running,
    /// It is given up, and to be closed. What was asked for before is still appended, and then its loss: the broker hears of
    /// that before the link is closed.
    GivingUp,
    /// Its link is to be closed; it ends in that way.
    Closing(Ended),
    /// Its link has said that it closes, and the peer's close is waited for; it ends in that way.
    Parting(Ended),
    /// Its link is over. What was asked for before is still appended, and then its loss.
    Leaving,
    /// It has ended.
    Over(Ended),
}

impl Stage {
    /// Whether what was asked for is still to be appended.
    pub fn executes(self) -> bool
        ensures yes { result ≡ true → Executes self }
        ensures no { result ≡ false → Executes self → ⊥ }
    {
        matches!(self, Stage::Running | Stage::GivingUp | Stage::Leaving)
    }

    // Whether the loss of the connection is the last thing that is asked for.
    pub(crate) fn is_lost(self) -> bool
        ensures yes { result ≡ true → (self ≡ GivingUp) ⊎ (self ≡ Leaving) }
        ensures no { result ≡ false → (self ≢ GivingUp) × (self ≢ Leaving) }
    {
        matches!(self, Stage::GivingUp | Stage::Leaving)
    }

    // The stage after the end of its link.
    pub(crate) fn lost(self) -> Stage
        ensures { result ≡ lost self }
    {
        match self {
            Stage::Running | Stage::GivingUp | Stage::Leaving => Stage::Leaving,
            Stage::Closing(Ended::Bye | Ended::Bad) => Stage::Over(Ended::Lost),
            Stage::Closing(ended) | Stage::Parting(ended) | Stage::Over(ended) => {
                Stage::Over(ended)
            }
        }
    }

    // The stage once it is given up.
    pub(crate) fn given_up(self) -> Stage
        ensures { result ≡ given_up self }
    {
        match self {
            Stage::Running => Stage::GivingUp,
            stage => stage,
        }
    }

    // The stage once the broker takes nothing more.
    pub(crate) fn stopped(self) -> Stage
        ensures { result ≡ stopped self }
    {
        match self {
            Stage::Running | Stage::GivingUp | Stage::Leaving => Stage::Closing(Ended::Stopped),
            stage => stage,
        }
    }

    // The stage once its link has said that it closes.
    pub(crate) fn parted(self) -> Stage
        ensures { result ≡ parted self }
    {
        match self {
            Stage::Closing(ended) => Stage::Parting(ended),
            stage => stage,
        }
    }

    // The stage once nothing that was asked for is left to be done.
    pub(crate) fn rested(self) -> Stage
        ensures { result ≡ rested self }
    {
        match self {
            Stage::GivingUp => Stage::Closing(Ended::Lost),
            Stage::Leaving => Stage::Over(Ended::Lost),
            stage => stage,
        }
    }
}
