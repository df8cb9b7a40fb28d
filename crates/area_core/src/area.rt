//! The live area of a journal.

ghost use Rattle.std.specs.Prelude.{◌≡◌, ◌+◌, ◌*◌, ◌%◌, ◌<◌, ◌≤◌, ◌^◌, ◌↔◌, IsTrue};
ghost use Rattle.area_core.specs.Areas.{number};
ghost use Rattle.area_core.specs.Journals.{is_odd, other, start};

use crate::batch::{block_of, records_len};
use crate::closing::next_closed;
use crate::pieces::Pieces;
use crate::put::{COUNTED, put, put_behind_gate};
use crate::{AreaFault, Version};
use command_core::Entry;
use disk_core::Disk;
use std::alloc::Global;

/// The live area of a journal, with the place of its first closed gate. It does not hold the disk.
#[derive(Drop)]
pub struct Area {
    // The version that its first byte gives.
    pub(crate) version: Version,
    pub(crate) size: u64,
    pub(crate) selector: u8,
    // Where the first closed gate is, counted from the area's first byte.
    pub(crate) gate: u64,
    // How long the snapshot last written into the other area is.
    pub(crate) written: u64,
    pub(crate) broken: bool,
    ghost within: { gate + 1 ≤ size },
    ghost idle: { written + 9 ≤ size },
    ghost most: { 32 + 2 * size < 2 ^ 64 },
}

impl Area {
    ghost use Rattle.std.specs.Prelude.{◌≢◌, ◌+◌, ◌*◌, ◌≤◌, [], length, OnOk, ◌<◌, ◌^◌, ◌≡◌, OnErr, IsErrOf};
    ghost use Rattle.disk_core.specs.Calls.{Lasts, Throughout};
    ghost use Rattle.area_core.specs.Areas.{commands};
    ghost use Rattle.area_core.specs.Calls.{Adds, Breaks, InPlace, RefusesBlock, BreaksWhole, InPlaceTo, IsReady, NeedsNothing, Overwrites, WritesClosed, WritesNext, Switches, WritesIdle};
    ghost use Rattle.area_core.specs.Steps.{IsBeforeOrAfter, HasNoRoom};
    ghost use Rattle.area_core.specs.Closing.{closing};
    ghost use Rattle.area_core.specs.Switches.{KeepsRest, IsSwitching, IsWriting};

    // Where it begins on the disk.
    pub(crate) fn begins(&self) -> u64
        ensures { result ≡ start self.now.size (is_odd self.now.selector) }
    {
        if self.selector % 2 == 1 {
            32 + self.size
        } else {
            32
        }
    }

    // Where the other area begins.
    pub(crate) fn idle_begins(&self) -> u64
        ensures { result ≡ start self.now.size (other (is_odd self.now.selector)) }
    {
        if self.selector % 2 == 1 {
            32
        } else {
            32 + self.size
        }
    }

    /// The place on the disk of the first byte of its snapshot.
    pub fn snapshot_place(&self) -> u64
        ensures { result ≡ start self.now.size (is_odd self.now.selector) + 8 }
    {
        self.begins() + 8
    }

    /// Whether a block of `records` bytes of records fits, with the gate after it.
    pub fn fits(&self, records: u64) -> bool
        ensures { IsTrue result ↔ (self.now.gate + 10 + records ≤ self.now.size) }
    {
        let left = self.size - self.gate;
        left >= 10 && records <= left - 10
    }

    /// The number of its version, which its first byte gives: 1 or 2.
    pub fn version(&self) -> u8
        ensures { result ≡ number self.now.version }
    {
        self.version.number()
    }

    /// Its version, which its first byte gives.
    pub fn told_version(&self) -> Version
        ensures { result ≡ self.now.version }
    {
        self.version
    }

    /// Which of the two areas it is: 0 or 1.
    pub fn number(&self) -> u8
        ensures { result ≡ self.now.selector % 2 }
    {
        self.selector % 2
    }

    /// How many bytes each of the two areas has.
    pub fn size(&self) -> u64
        ensures { result ≡ self.now.size }
    {
        self.size
    }

    /// Whether a step has failed; every later one is then refused.
    pub fn is_broken(&self) -> bool
        ensures { result ≡ self.now.broken }
    {
        self.broken
    }

    /// How many of its bytes are used: those up to its first closed gate, and that gate.
    pub fn used(&self) -> u64
        ensures { result ≡ self.now.gate + 1 }
    {
        self.gate + 1
    }

    /// Adds the commands of a batch, as one block.
    ///
    /// A stop at any moment leaves the old commands, or the old ones and then all of the new. After a refusal every
    /// later call answers `Broken`.
    pub fn append<B, D: Disk>(
        &mut self,
        alloc: Global,
        disk: &mut D,
        batch: &[Entry<B>],
    ) -> Result<(), AreaFault>
        requires some { batch.now ≢ [] }
        requires room { 32 + 2 * self.old.size ≤ length (D.content disk.old) }
        ensures any_moment { Throughout D.Disk disk.old disk.new
            (IsBeforeOrAfter (D.images disk.old) self.old (commands batch.now)) }
        ensures adds { OnOk result (Adds D.Disk self.old self.new disk.old disk.new (commands batch.now)) }
        ensures refuses { RefusesBlock self.old disk.old disk.new (commands batch.now) result }
        ensures breaks { Breaks D.Disk self.old self.new disk.old disk.new result }
        ensures place { InPlace self.old self.new }
        ensures lasts { Lasts D.Disk disk.old disk.new }
    {
        if self.broken {
            return Err(AreaFault::Broken);
        }
        self.broken = true;
        let Some(records) = records_len(batch) else {
            return Err(AreaFault::Full);
        };
        if !self.fits(records) {
            return Err(AreaFault::Full);
        }
        let block = block_of(alloc, batch, records)?;
        let gate = self.begins() + self.gate;
        put_behind_gate(disk, gate, &block)?;
        self.gate += 9 + records;
        self.broken = false;
        Ok(())
    }

    /// Writes a piece into the area that is not live, from its offset `at` on: one call of the disk, without a sync. A stop at any moment
    /// leaves every other byte as it was. It takes no memory.
    pub fn write_piece<D: Disk>(
        &mut self,
        disk: &mut D,
        at: u64,
        piece: &[u8],
    ) -> Result<(), AreaFault>
        requires room { 32 + 2 * self.old.size ≤ length (D.content disk.old) }
        requires within { at + length piece.now ≤ self.old.size }
        ensures outside { Throughout D.Disk disk.old disk.new (KeepsRest (D.images disk.old) self.old) }
        ensures overwrites { D.honest disk.old →
            Overwrites self.old at piece.now (D.content disk.old) (D.content disk.new) result }
        ensures needs { NeedsNothing result }
        ensures breaks { Breaks D.Disk self.old self.new disk.old disk.new result }
        ensures place { InPlaceTo self.old self.new }
        ensures lasts { Lasts D.Disk disk.old disk.new }
    {
        if self.broken {
            return Err(AreaFault::Broken);
        }
        self.broken = true;
        disk.write_at(self.idle_begins() + at, piece)?;
        self.broken = false;
        Ok(())
    }

    // Writes the next piece of a snapshot, once `at` bytes are written, and answers how many bytes the piece has.
    fn write_next<D: Disk, P: Pieces>(
        &mut self,
        alloc: Global,
        disk: &mut D,
        pieces: &mut P,
        at: u64,
        total: u64,
    ) -> Result<u64, AreaFault>
        requires ready { IsReady self.old (D.content disk.old) }
        requires seven { total < 2 ^ 56 }
        requires within { at + length (closing at total (P.coming pieces.old)) ≤ self.old.size }
        ensures outside { Throughout D.Disk disk.old disk.new (KeepsRest (D.images disk.old) self.old) }
        ensures next { WritesNext D.Disk self.old disk.old disk.new at total (P.coming pieces.old) (P.coming pieces.new) result }
        ensures breaks { BreaksWhole D.Disk self.new disk.old disk.new result }
        ensures place { InPlaceTo self.old self.new }
        ensures lasts { Lasts D.Disk disk.old disk.new }
    {
        match next_closed(alloc, pieces, at, total) {
            Ok(piece) => {
                self.write_piece(disk, at, &piece)?;
                Ok(piece.len() as u64)
            }
            Err(refused) => {
                self.broken = true;
                Err(AreaFault::Memory(refused))
            }
        }
    }

    // Writes the snapshot into the area that is not live, from its first byte on, between the area's first word and a closed gate.
    pub(crate) fn write_closed<D: Disk, P: Pieces>(
        &mut self,
        alloc: Global,
        disk: &mut D,
        pieces: &mut P,
    ) -> Result<(), AreaFault>
        requires ready { IsReady self.old (D.content disk.old) }
        requires fits { length (P.coming pieces.old) + 9 ≤ self.old.size }
        requires seven { length (P.coming pieces.old) < 2 ^ 56 }
        ensures outside { Throughout D.Disk disk.old disk.new (KeepsRest (D.images disk.old) self.old) }
        ensures content { D.honest disk.old → OnOk result (
            WritesClosed self.old (P.coming pieces.old) (D.content disk.old) (D.content disk.new)) }
        ensures breaks { BreaksWhole D.Disk self.new disk.old disk.new result }
        ensures place { InPlaceTo self.old self.new }
        ensures lasts { Lasts D.Disk disk.old disk.new }
    {
        let total = pieces.len();
        let mut at = 0;
        while at < total + 9 {
            at += self.write_next(alloc, disk, pieces, at, total)?;
        }
        Ok(())
    }

    /// Writes a snapshot into the area that is not live, which is then of the second version, whatever it was before. It writes pieces of
    /// 65,536 bytes, each by one call of the disk, and then syncs. A stop at any moment leaves every byte outside that area as it was, and
    /// so the live area too. `Full` comes before the first call, if the snapshot doesn't fit or has 2^56 bytes or more. If memory is
    /// refused, some pieces may have been written.
    pub fn write_snapshot<D: Disk, P: Pieces>(
        &mut self,
        alloc: Global,
        disk: &mut D,
        snapshot: &mut P,
    ) -> Result<(), AreaFault>
        requires room { 32 + 2 * self.old.size ≤ length (D.content disk.old) }
        ensures any_moment { Throughout D.Disk disk.old disk.new
            (IsWriting (D.images disk.old) self.old) }
        ensures writes { OnOk result (WritesIdle D.Disk self.new disk.old disk.new (P.coming snapshot.old)) }
        ensures full { IsErrOf result AreaFault.Full →
            HasNoRoom self.old.size (length (P.coming snapshot.old)) × (disk.new ≡ disk.old) }
        ensures breaks { Breaks D.Disk self.old self.new disk.old disk.new result }
        ensures place { InPlaceTo self.old self.new }
        ensures lasts { Lasts D.Disk disk.old disk.new }
    {
        if self.broken {
            return Err(AreaFault::Broken);
        }
        let size = snapshot.len();
        if size > self.size - 9 || size >= COUNTED {
            self.broken = true;
            return Err(AreaFault::Full);
        }
        self.write_closed(alloc, disk, snapshot)?;
        self.broken = true;
        disk.sync()?;
        self.written = size;
        self.broken = false;
        Ok(())
    }

    /// Makes the other area, which has the snapshot last written, the live one. The selector goes up by one, and from 255 to 0.
    ///
    /// A stop at any moment leaves every byte but the selector as it was. So both areas stay as they are, and one of them is live. It takes
    /// no memory.
    pub fn switch<D: Disk>(&mut self, disk: &mut D) -> Result<(), AreaFault>
        requires room { 32 + 2 * self.old.size ≤ length (D.content disk.old) }
        ensures any_moment { Throughout D.Disk disk.old disk.new
            (IsSwitching (D.images disk.old) self.old) }
        ensures switches { OnOk result (Switches D.Disk self.old self.new disk.old disk.new) }
        ensures size { self.new.size ≡ self.old.size }
        ensures version { OnErr result (self.new.version ≡ self.old.version) }
        ensures needs { NeedsNothing result }
        ensures breaks { Breaks D.Disk self.old self.new disk.old disk.new result }
        ensures lasts { Lasts D.Disk disk.old disk.new }
    {
        if self.broken {
            return Err(AreaFault::Broken);
        }
        self.broken = true;
        let selector = self.selector.wrapping_add(1);
        put(disk, 16, &[selector])?;
        self.selector = selector;
        self.version = Version::Two;
        self.gate = 8 + self.written;
        self.broken = false;
        Ok(())
    }
}
