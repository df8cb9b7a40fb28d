//! A link in memory.

ghost use Rattle.std.specs.Prelude.{◌≡◌, [], map, false};
ghost use Rattle.ws_core.specs.Memory.{remembered};

use crate::link::{CloseReason, Link, LinkFault, Outgoing, Received};
use claim_core::Released;
use frame_core::write_frame;
use session_core::Notice;
use std::alloc::Global;
use std::collections::VecDeque;
use std::marker::Model;
use std::snapshot::Snapshot;

/// A link that gives the messages it was made with, and keeps what it sends. Nothing waits in it, and its peer closes as soon as
/// it is ended. Contracts see the messages still to be received, those that were sent, the bytes of those that were received, and
/// whether the link is over.
#[derive(Drop)]
pub struct MemLink {
    // All messages that it was made with.
    all: Snapshot<Vec<Vec<u8>>>,
    coming: VecDeque<Vec<u8>>,
    sent: Vec<Vec<u8>>,
    over: bool,
}

impl Model for MemLink {
    ghost use Rattle.std.specs.Prelude.{map};
    ghost use Rattle.ws_core.specs.Memory.{IsRest, Remembered, joined_before, remembered};

    ghost Value = { Remembered };

    ghost view = { λ a. remembered (map (λ v. v.items) a.coming.items) (map (λ v. v.items) a.sent.items)
        (joined_before (map (λ v. v.items) a.all.value.items) (map (λ v. v.items) a.coming.items)) a.over };

    ghost invariant = { λ a. IsRest (map (λ v. v.items) a.all.value.items) (map (λ v. v.items) a.coming.items) };
}

impl MemLink {
    ghost use Rattle.std.specs.Prelude.{◌≡◌, OnOk, OnErr, IfErr};
    ghost use Rattle.ws_core.specs.Memory.{with_sent};

    /// A link that is to receive these messages in their order, and then nothing. No memory is taken.
    pub fn new(alloc: Global, messages: Vec<Vec<u8>>) -> MemLink
        ensures { result ≡ remembered (map (λ v. v.items) messages.items) [] [] false }
    {
        let all = Snapshot::of(&messages);
        MemLink {
            all,
            coming: VecDeque::from(messages),
            sent: Vec::new(alloc),
            over: false,
        }
    }

    /// The messages that were sent, in their order.
    pub fn sent(&self) -> &[Vec<u8>]
        ensures { map (λ v. v.items) result.now ≡ self.now.sent }
    {
        &self.sent
    }

    // Keeps the bytes of a frame as one message.
    fn keep(&mut self, bytes: Vec<u8>) -> Result<(), LinkFault>
        ensures ok { OnOk result (self.new ≡ with_sent self.old bytes.items) }
        ensures refused { OnErr result (self.new ≡ self.old) }
        ensures memory { IfErr result (λ fault. fault ≡ LinkFault.Memory) }
    {
        match self.sent.push(bytes) {
            Ok(()) => Ok(()),
            Err(_) => Err(LinkFault::Memory),
        }
    }
}

impl Outgoing for MemLink {
    ghost use Rattle.std.specs.Prelude.{◌≡◌, Some, Err, OnOk, OnErr, IfOk, IfErr, IsOk, false, true};
    ghost use Rattle.frame_core.specs.Written.{written};
    ghost use Rattle.ws_core.specs.Memory.{Forgoes, with_sent};

    ghost sent = { λ a. Some a.sent };

    ghost received = { λ a. Some a.received };

    ghost refuses = { Forgoes };

    ghost flushes = { λ old new. new ≡ old };

    fn send(&mut self, alloc: Global, released: &Released) -> Result<(), LinkFault>
        ensures ok { OnOk result ((self.old.over ≡ false) × (self.new ≡ with_sent self.old (written released.now.frame))) }
        ensures refused { OnErr result (self.new ≡ self.old) }
        ensures gone { self.old.over ≡ true → result ≡ Err LinkFault.Gone }
        ensures memory { self.old.over ≡ false → IfErr result (λ fault. fault ≡ LinkFault.Memory) }
    {
        if self.over {
            return Err(LinkFault::Gone);
        }
        let written = released.write(alloc).map_err(|_| LinkFault::Memory)?;
        let bytes = Vec::from_slice(alloc, written.bytes.as_slice()).map_err(
            |_| LinkFault::Memory,
        )?;
        self.keep(bytes)
    }

    fn flush(&mut self) -> Result<bool, LinkFault>
        ensures same { self.new ≡ self.old }
        ensures gone { self.old.over ≡ true → result ≡ Err LinkFault.Gone }
        ensures first { self.old.over ≡ false → IsOk result }
        ensures all { IfOk result (λ all. all ≡ true) }
    {
        if self.over {
            return Err(LinkFault::Gone);
        }
        Ok(true)
    }

    fn waits(&self) -> bool
        ensures { result ≡ false }
    {
        false
    }
}

impl Link for MemLink {
    ghost use Rattle.std.specs.Prelude.{◌≡◌, Err, OnOk, OnErr, IsOk, IfErr, true, false};
    ghost use Rattle.frame_core.specs.Written.{written};
    ghost use Rattle.ws_core.specs.Memory.{Recalls, with_sent, ended};

    ghost pings = { λ old new. (old.over ≡ false) × (new ≡ old) };

    fn receive(&mut self, _alloc: Global) -> Received
        ensures { Recalls self.old self.new result }
    {
        if self.over {
            return Received::Closed;
        }
        let Some(message) = self.coming.pop_front() else {
            return Received::Nothing;
        };
        Received::Bytes(message)
    }

    fn send_direct(&mut self, alloc: Global, notice: &Notice) -> Result<(), LinkFault>
        ensures ok { OnOk result ((self.old.over ≡ false) × (self.new ≡ with_sent self.old (written notice.now))) }
        ensures refused { OnErr result (self.new ≡ self.old) }
        ensures gone { self.old.over ≡ true → result ≡ Err LinkFault.Gone }
        ensures memory { self.old.over ≡ false → IfErr result (λ fault. fault ≡ LinkFault.Memory) }
    {
        if self.over {
            return Err(LinkFault::Gone);
        }
        let bytes = write_frame(alloc, notice.frame()).map_err(|_| LinkFault::Memory)?;
        self.keep(bytes)
    }

    fn ping(&mut self) -> Result<(), LinkFault>
        ensures same { self.new ≡ self.old }
        ensures gone { self.old.over ≡ true → result ≡ Err LinkFault.Gone }
        ensures first { self.old.over ≡ false → IsOk result }
    {
        if self.over {
            return Err(LinkFault::Gone);
        }
        Ok(())
    }

    fn held(&self) -> u64
        ensures { result ≡ 0 }
    {
        0
    }

    fn end(&mut self, _reason: CloseReason) -> Result<(), LinkFault>
        ensures ok { OnOk result (self.new ≡ ended self.old) }
        ensures refused { IfErr result (λ fault. (fault ≡ LinkFault.Gone) × (self.new ≡ self.old)) }
        ensures over { OnErr result (self.old.over ≡ true) }
        ensures first { self.old.over ≡ false → IsOk result }
    {
        if self.over {
            return Err(LinkFault::Gone);
        }
        self.over = true;
        Ok(())
    }
}
