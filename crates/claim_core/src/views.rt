//! What a place holds, and what a seat at the table knows.

ghost use Rattle.std.specs.Prelude.{Option, None};
ghost use Rattle.command_core.specs.Commands.{CommandValue};

use atomic_table::{Seat, Shared, TableRule};
use command_core::{Command, Entry};
use std::marker::Brand;

/// What a ring was made with: its first ticket, how many seats sessions may have, and how many commands of each may
/// wait for the mark. This is the key of the table.
#[derive(Drop)]
pub struct Limits {
    pub base: u64,
    pub seats: u64,
    pub window: u64,
}

/// What a session's seat knows: its own commands with their tickets, and the ticket that it has claimed and not made
/// ready. It also knows the mark that it read last, and whether it found the ring stopped when it last looked. No value
/// of this type is ever made; contracts read the array as a list of any length.
pub struct Claimer {
    pub own: [(u64, Command); 0],
    pub pending: Option<u64>,
    pub seen: u64,
    pub stopped: bool,
}

/// What the flusher's seat knows: the first ticket, the commands that it has taken, whether it holds a place now, and
/// the mark. It also knows whether it has stopped the ring, how many seats it has dealt, and those that it has taken
/// back.
pub struct Owner {
    pub base: u64,
    pub taken: [Command; 0],
    pub held: bool,
    pub published: u64,
    pub stopped: bool,
    pub count: u64,
    pub joined: [Claimer; 0],
}

/// What a seat knows. A seat that was taken back is spent.
pub enum View {
    Owns(Owner),
    Claims(Claimer),
    Spent,
}

/// The rule of the ring, which each step keeps.
pub struct Claiming;

impl<B> TableRule<Option<Entry<B>>, View, Limits> for Claiming {
    ghost use Rattle.claim_core.specs.Rule.{RingRule, first_view};

    ghost holds = { λ key. RingRule key };

    ghost first = { λ key. first_view key };
}

/// The words and places of a ring, as steps reach them.
pub type Board<B> = Shared<Option<Entry<B>>, View, Limits, Claiming>;

/// A seat at the table.
pub type TableSeat<B> = Seat<Option<Entry<B>>, View>;

/// The command that one call of a claim is for. It is in that call's proof alone.
pub trait ForCommand {
    ghost command: { Option CommandValue };
}

impl ForCommand for Brand {
    ghost command = { None };
}
