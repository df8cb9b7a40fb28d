//! A disk in memory.

ghost use Rattle.std.specs.Prelude.{◌≡◌, ◌+◌, ◌≤◌, ◌↔◌, false, length, take, drop, IfOk, IsTrue, OnOk, OnErr, ⊤, ℕ, List, Option};
ghost use Rattle.std.proofs.Common.{inl};
ghost use Rattle.disk_core.specs.Images.{Frees, IsImage, Only, Torn, Within};
ghost use Rattle.disk_core.specs.declared.call.Call.TheVariants.{Read, Write, Sync};
ghost use Rattle.disk_core.specs.Memory.{Ages, Memory, Fails, fresh, after_crash, called, restarted_with, synced, written, HadSince, only_now, reads_image};
ghost use Rattle.disk_core.specs.Spans.{IsCover};

use crate::call::{Call, fail, record, tell};
use crate::span::{Span, add, is_image, overwrite, put_all_back, release_all};
use crate::{DeviceFault, Disk};
use std::alloc::{AllocError, Global};
use std::marker::Model;

/// A disk in memory, which is honest and can be crashed.
///
/// A clause sees it as a `Memory`: its content, what each unsynced byte held at the last sync, and the same for each
/// sync before. It also has the calls that were asked for, and the failures.
///
/// It takes three bytes for each byte of its size, made by `new`. It also keeps its history, so that its images since
/// each moment are real data. Each sync adds a record: the ranges that were written before it, and what they held at
/// the sync before. That takes 16 bytes a range, and two for each byte of a range. So the history is bounded by the
/// calls since `new` or the last crash, and the bytes that they wrote.
///
/// A read or a write costs time in its own bytes, and a sync or a crash in the bytes written since the last sync. The
/// cost of growing the lists, and of freeing the history at a crash, is shared out among the calls that made them. (If
/// memory for the list of ranges was refused, the next sync or crash goes over the whole disk.)
///
/// It records each call, so that a test can see what was asked for, in which order, and can stop the disk at each call.
///
/// If memory is refused, for the record too, the call answers a `DeviceFault`. A crash takes no memory.
#[derive(Drop)]
pub struct MemDisk {
    alloc: Global,
    bytes: Vec<u8>,
    // Of each byte that was written since the last sync, what it held then.
    held: Vec<Option<u8>>,
    // The ranges that these lie in. There is room for at least one.
    written: Vec<Span>,
    // What was held at each sync since the start.
    past: Vec<Epoch>,
    // The calls that it was asked for since the start.
    calls: Vec<Call>,
    failures: u64,
}

impl Model for MemDisk {
    ghost use Rattle.std.specs.Prelude.{ℕ, List, Option};
    ghost use Rattle.disk_core.specs.Memory.{Memory};
    ghost use Rattle.disk_core.specs.Kept.{IsKept};

    ghost Value = { Memory };

    ghost view = { λ a. record { content = a.bytes.items; held = a.held.items; past = a.past.items; calls = a.calls.items; failures = a.failures } };

    ghost invariant = { λ a. IsKept a.bytes.items a.held.items a.written };
}

impl MemDisk {
    /// A disk of `size` zeros, all of them stable. It fails only if memory is refused.
    pub fn new(alloc: Global, size: u64) -> Result<MemDisk, AllocError>
        ensures fresh { IfOk result (λ disk. disk ≡ fresh size) }
        ensures only { IfOk result (λ disk. Only disk.content (IsImage disk.content disk.held)) }
    {
        let size = size as usize;
        let mut bytes = Vec::new(alloc);
        bytes.resize(size, 0)?;
        let mut held = Vec::new(alloc);
        held.resize(size, None)?;
        Ok(MemDisk {
            alloc,
            bytes,
            held,
            written: Vec::with_capacity(alloc, 1)?,
            past: Vec::new(alloc),
            calls: Vec::new(alloc),
            failures: 0,
        })
    }

    /// Stops the disk and starts it again: each unsynced byte becomes the fill, or without one what it held at the last
    /// sync. It takes no memory. The history from before it is forgotten, and the clock starts anew.
    pub fn crash(&mut self, fill: Option<u8>)
        ensures crashed { self.new ≡ after_crash fill self.old }
        ensures image { IsImage self.old.content self.old.held self.new.content }
        ensures only { Only self.new.content (IsImage self.new.content self.new.held) }
    {
        put_all_back(&self.written, &mut self.bytes, &mut self.held, fill);
        self.written.clear();
        self.past.clear();
        self.calls.clear();
    }

    /// Stops the disk and starts it again with these bytes, if they are one of its images; if not, nothing changes. It
    /// takes no memory.
    pub fn crash_to(&mut self, image: &[u8]) -> bool
        ensures image { IsTrue result ↔ IsImage self.old.content self.old.held image.now }
        ensures crashed { IsTrue result → self.new ≡ restarted_with image.now self.old }
        ensures same { result ≡ false → self.new ≡ self.old }
    {
        if !is_image(&self.bytes, &self.held, image) {
            return false;
        }
        put_all_back(&self.written, &mut self.bytes, &mut self.held, None);
        self.bytes.copy_from_slice(image);
        self.written.clear();
        self.past.clear();
        self.calls.clear();
        true
    }

    /// The calls that it was asked for since it was made or crashed, in their order. A call that failed is among them
    /// only if there was memory to record it.
    pub fn calls(&self) -> &[Call]
        ensures { result.now ≡ self.now.calls }
    {
        &self.calls
    }
}

impl Disk for MemDisk {
    ghost content = { λ d. d.content };

    ghost images = { λ d. IsImage d.content d.held };

    ghost moment = { λ d. length d.past };

    ghost images_since = { HadSince };

    ghost failures = { λ d. d.failures };

    ghost honest = { λ _. ⊤ };

    ghost reads = { λ d _. reads_image d };

    ghost sizes = { λ d c _ image. image.size };

    ghost counts_now = { λ d t c _ image. inl image };

    ghost only_now = { only_now };

    fn size(&self) -> u64 {
        self.bytes.len() as u64
    }

    fn read_at(&mut self, at: u64, into: &mut [u8]) -> Result<(), DeviceFault>
        requires { at + length into.old ≤ length self.old.content }
        ensures ok { OnOk result (self.new ≡ called (Read at (length into.old)) self.old) }
        ensures bytes { OnOk result (into.new ≡ take (length into.old) (drop at self.old.content)) }
        ensures err { OnErr result (Fails (Read at (length into.old)) self.old self.new) }
    {
        let call = Call::Read {
            at,
            len: into.len() as u64,
        };
        tell(record(&mut self.calls, call), &mut self.failures)?;
        let at = at as usize;
        into.copy_from_slice(&self.bytes[at..at + into.len()]);
        Ok(())
    }

    fn write_at(&mut self, at: u64, bytes: &[u8]) -> Result<(), DeviceFault>
        requires { at + length bytes.now ≤ length self.old.content }
        ensures ok { OnOk result (self.new ≡ called (Write at (length bytes.now)) (written at bytes.now self.old)) }
        ensures err { OnErr result (Fails (Write at (length bytes.now)) (written at bytes.now self.old) self.new) }
        ensures content { Torn at (length bytes.now) self.old.content self.new.content }
        ensures images { Frees at (length bytes.now)
            (IsImage self.old.content self.old.held) (IsImage self.new.content self.new.held) }
        ensures time { Ages self.old self.new }
    {
        let call = Call::Write {
            at,
            len: bytes.len() as u64,
        };
        let recorded = record(&mut self.calls, call);
        let at = at as usize;
        overwrite(&mut self.bytes, &mut self.held, at, bytes);
        let span = Span {
            at,
            len: bytes.len(),
        };
        let listed = add(&mut self.written, span, self.bytes.len()).is_ok();
        tell(recorded && listed, &mut self.failures)
    }

    fn sync(&mut self) -> Result<(), DeviceFault>
        ensures ok { OnOk result (self.new ≡ called Sync (synced self.old)) }
        ensures err { OnErr result (Fails Sync self.old self.new) }
        ensures images { Within
            (IsImage self.new.content self.new.held) (IsImage self.old.content self.old.held) }
        ensures time { Ages self.old self.new }
    {
        if !record(&mut self.calls, Call::Sync) {
            return fail(&mut self.failures);
        }
        let Ok(epoch) = Epoch::of(self.alloc, &self.written, &self.held) else {
            return fail(&mut self.failures);
        };
        if self.past.push(epoch).is_err() {
            return fail(&mut self.failures);
        }
        release_all(&self.written, &mut self.held);
        self.written.clear();
        Ok(())
    }
}

/// For each byte that was unsynced when a sync came, what it held at the sync before.
#[derive(Drop)]
pub struct Epoch {
    size: usize,
    spans: Vec<Span>,
    // What is held in each range, one after another.
    parts: Vec<Option<u8>>,
}

impl Model for Epoch {
    ghost use Rattle.std.specs.Prelude.{ℕ, List, Option};
    ghost use Rattle.disk_core.specs.Epochs.{placed};
    ghost use Rattle.disk_core.specs.Memory.{none_held};

    ghost Value = { List (Option ℕ) };

    ghost view = { λ a. placed a.spans.items a.parts.items (none_held a.size) };
}

impl Epoch {
    /// Copies what is held in these ranges, which is all that is held.
    pub(crate) fn of(
        alloc: Global,
        spans: &[Span],
        held: &[Option<u8>],
    ) -> Result<Epoch, AllocError>
        requires { IsCover spans.now held.now }
        ensures { IfOk result (λ epoch. epoch ≡ held.now) }
    {
        let mut parts = Vec::new(alloc);
        for span in spans {
            parts.extend_from_slice(&held[span.at..span.at + span.len])?;
        }
        Ok(Epoch {
            size: held.len(),
            spans: Vec::from_slice(alloc, spans)?,
            parts,
        })
    }
}
