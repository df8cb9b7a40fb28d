//! A command that is ready for the journal.

ghost use Rattle.std.specs.Prelude.{◌≡◌, IfOk, IfErr};
ghost use Rattle.command_core.specs.Spellings.{Spells};

use crate::command::Command;
use crate::encoding::encode;
use std::alloc::Global;
use std::marker::Model;

/// A command with its record, which is made before the command gets its place in the journal, so that nothing can fail in
/// between. With an Open may come an outbox: the box that the outputs of its session go to. Contracts see the command and
/// that box.
#[derive(Drop)]
pub struct Entry<B> {
    command: Command,
    bytes: Vec<u8>,
    outbox: Option<B>,
}

impl<B> Model for Entry<B> {
    ghost use Rattle.command_core.specs.Entries.{EntryValue};
    ghost use Rattle.command_core.specs.Spellings.{Spells};

    ghost Value = { EntryValue B };

    ghost view = { λ a. record { command = a.command; outbox = a.outbox } };

    ghost invariant = { λ a. Spells a.bytes.items a.command };
}

impl<B> Entry<B> {
    /// The command with its record. If memory for the record is refused, command and box come back.
    pub fn new(
        alloc: Global,
        command: Command,
        outbox: Option<B>,
    ) -> Result<Entry<B>, (Command, Option<B>)>
        ensures ok { IfOk result (λ entry. entry ≡ record { command = command; outbox = outbox }) }
        ensures back { IfErr result (λ back. back ≡ (command, outbox)) }
    {
        match encode(alloc, &command) {
            Ok(bytes) => Ok(Entry {
                command,
                bytes,
                outbox,
            }),
            Err(_) => Err((command, outbox)),
        }
    }

    /// The command.
    pub fn command(&self) -> &Command
        ensures { result.now ≡ self.now.command }
    {
        &self.command
    }

    /// The record of the command.
    pub fn bytes(&self) -> &[u8]
        ensures { Spells result.now self.now.command }
    {
        &self.bytes
    }

    /// The box that the outputs go to of the session that the command opens.
    pub fn outbox(&self) -> &Option<B>
        ensures { result.now ≡ self.now.outbox }
    {
        &self.outbox
    }

    /// The command and the box, which move: no memory is taken.
    pub fn into_parts(self) -> (Command, Option<B>)
        ensures { self ≡ record { command = result.0; outbox = result.1 } }
    {
        (self.command, self.outbox)
    }
}
