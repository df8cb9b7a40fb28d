//! What a turn of a connection came to.

ghost use Rattle.claim_core.specs.Seats.{SessionSeatValue};
ghost use Rattle.clients.specs.TurnAnswers.{Appended, Grows};

/// What a turn of a connection came to, and what it waits for.
#[derive(Clone, Copy)]
pub struct Turned {
    /// A command was put into the ring.
    pub appended: bool,
    /// Something came from its client.
    pub heard: bool,
    pub next: Next,
}

/// What a connection waits for before its next turn.
#[derive(Clone, Copy)]
pub enum Next {
    /// Nothing: there may be more to do at once.
    Go,
    /// Bytes of its client, or a ring of its bell.
    Read,
    /// That its socket takes bytes again. Until then it no longer hears its client.
    Write,
    /// A mark over this one: its next command has no room yet.
    Room(u64),
    /// A mark over this one: the number of its next output, or the mark when its turns began, if commands of others go before its next.
    Mark(u64),
    /// Memory, which was refused.
    Memory,
    /// Its peer's close. If something was heard, there may be more to hear at once.
    Close,
    /// It has ended.
    Over(Ended),
}

/// Why a connection is over.
#[derive(Clone, Copy, Debug, PartialEq, Eq)]
pub enum Ended {
    /// It was closed after the client's DISCONNECT.
    Bye,
    /// It is gone, or was given up.
    Lost,
    /// It was closed once an ERROR was sent.
    Bad,
    /// It was closed because the broker takes nothing more.
    Stopped,
}

/// What an act came to, or another part of a turn.
#[derive(Clone, Copy)]
pub enum Outcome {
    /// A command was appended, and more may be done at once.
    Appended,
    /// No command was appended, and more may be done at once.
    Done,
    /// The window is full at that mark; the entry waits for room.
    Room(u64),
    /// Memory was refused; the next turn tries again.
    Memory,
    /// Nothing is left to be done.
    Rest,
}

// Whether a command was appended by that step, or before.
pub(crate) fn also_appended(appended: bool, step: Outcome) -> bool
    ensures { (s t u : SessionSeatValue) → Appended appended s t → Grows step t u → Appended result s u }
{
    match step {
        Outcome::Appended => true,
        _ => appended,
    }
}
