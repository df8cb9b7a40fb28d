//! Subscriptions.

use crate::durable_name::DurableName;
use crate::limits::WINDOW;
use command_core::{AckMode, Dest, HeaderText};
use line_core::{Flight, Line, Message};

/// A subscription of a session (STOMP 1.2, "SUBSCRIBE").
#[derive(Drop)]
pub struct Subscription {
    /// The number of the session.
    pub session: u64,
    /// The name that the session gave it.
    pub id: HeaderText,
    /// The queue or topic whose messages it gets.
    pub destination: Dest,
    /// How it acknowledges them (header `ack`).
    pub mode: AckMode,
    /// The durable name under which its messages are kept, if it has one; the destination is a topic then.
    pub durable: Option<DurableName>,
    /// What waits for it, if it is one of a topic with no durable name. The messages of a queue wait in the queue's
    /// line, and those of a durable name in the name's.
    pub line: Line,
    /// What was delivered and is not acknowledged, by the number of the delivery. Nothing with `auto`.
    pub unacknowledged: Flight<Message>,
}

impl Subscription {
    ghost use Rattle.std.specs.Prelude.{◌≡◌};
    ghost use Rattle.broker_state.specs.HandOut.{has_room};
    ghost use Rattle.broker_state.specs.Waiting.{is_own};

    /// Whether it may have one more delivery: with `auto` always, else while fewer than 16 are unacknowledged.
    pub fn has_room(&self) -> bool
        ensures { result ≡ has_room self.now }
    {
        match self.mode {
            AckMode::Auto => true,
            AckMode::Client | AckMode::ClientIndividual => self.unacknowledged.len() < WINDOW,
        }
    }

    /// Whether it has a line of its own: one of a topic with no durable name.
    pub fn has_own_line(&self) -> bool
        ensures { result ≡ is_own self.now }
    {
        self.durable.is_none() && !self.destination.is_queue()
    }
}
