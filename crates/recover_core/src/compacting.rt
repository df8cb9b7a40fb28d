//! A store is compacted.

ghost use Rattle.std.specs.Prelude.{◌≡◌, ◌+◌, ◌≤◌, ◌↔◌, IsTrue, OnOk, false, true};
ghost use Rattle.disk_core.specs.Calls.{Lasts, Throughout};
ghost use Rattle.area_core.specs.Calls.{IsReady};
ghost use Rattle.recover_core.specs.Calls.{BreaksOrKeeps, CompactBreaks, Compacts, HasRoomFor, IsCompacting, KeepsKind, KeepsOpened, StandsUnbroken, WritesState};
ghost use Rattle.recover_core.specs.Compactions.{HasNoRoomFor, IsWritingState};
ghost use Rattle.recover_core.specs.Stores.{disk_of, is_broken, size_of, used_of};

use crate::snapshot::Snapshot;
use crate::store::Store;
use area_core::{Area, AreaFault};
use broker_core::Broker;
use disk_core::Disk;
use snapshot_core::state_len;
use std::alloc::Global;

// Fewer sessions, or subscriptions, than this can be counted in four bytes.
const MOST_COUNTED: usize = 1 << 32;

// Whether a snapshot of the broker's state fits into an area of `size` bytes, with its length before it and a gate after it.
pub(crate) fn has_room_for(broker: &Broker, size: u64) -> bool
    requires whole { broker.now.broken ≡ false }
    requires least { 9 ≤ size }
    ensures yes { result ≡ true → HasRoomFor size broker.now.state }
    ensures no { result ≡ false → HasNoRoomFor size broker.now.state }
{
    broker.sessions().len() < MOST_COUNTED
        && broker.subscription_count() < MOST_COUNTED
        && state_len(broker) <= size - 9
}

// Writes a snapshot of the broker's state into the area that is not live, and makes that one live.
pub(crate) fn write_state<D: Disk>(
    alloc: Global,
    disk: &mut D,
    area: &mut Area,
    broker: &Broker,
) -> Result<(), AreaFault>
    requires ready { IsReady area.old (D.content disk.old) }
    requires whole { broker.now.broken ≡ false }
    requires room { HasRoomFor area.old.size broker.now.state }
    ensures any_moment { Throughout D.Disk disk.old disk.new (IsWritingState (D.images disk.old) area.old broker.now.state) }
    ensures writes { OnOk result (WritesState D.Disk area.old area.new disk.old disk.new broker.now.state) }
    ensures breaks { BreaksOrKeeps D.Disk area.old area.new disk.old disk.new result }
    ensures kind { KeepsKind area.old area.new }
    ensures lasts { Lasts D.Disk disk.old disk.new }
{
    let mut snapshot = Snapshot::of(alloc, broker)?;
    area.write_snapshot(alloc, disk, &mut snapshot)?;
    area.switch(disk)
}

impl<D: Disk> Store<D> {
    /// Whether a block of `records` bytes of records fits into the live area with the gate after it.
    pub fn fits(&self, records: u64) -> bool
        ensures { IsTrue result ↔ (used_of self.now + 9 + records ≤ size_of self.now) }
    {
        self.area.fits(records)
    }

    /// Whether a snapshot of the broker's state fits into an area.
    pub fn fits_state(&self, broker: &Broker) -> bool
        requires whole { broker.now.broken ≡ false }
        ensures yes { result ≡ true → HasRoomFor (size_of self.now) broker.now.state }
        ensures no { result ≡ false → HasNoRoomFor (size_of self.now) broker.now.state }
    {
        has_room_for(broker, self.area.size())
    }

    /// Makes room again: writes a snapshot of the state as it is, its sessions included, into the area that is not live, and makes that
    /// area live. The broker must have the state that the store stands for.
    ///
    /// A stop at any moment leaves a disk that stands for that state. While the snapshot is written, every byte outside the idle area
    /// stays; while the areas are switched, both stand for the state. `Full` means that no snapshot of the state fits into an area; the
    /// store stays as it was. If memory is refused, the disk is as it was, or the store is broken. A broken store answers `Broken` to every
    /// later call.
    pub fn compact(&mut self, alloc: Global, broker: &Broker) -> Result<(), AreaFault>
        requires whole { broker.now.broken ≡ false }
        requires stands { StandsUnbroken D.Disk self.old broker.now.state }
        ensures any_moment { is_broken self.old ≡ false →
            Throughout D.Disk (disk_of self.old) (disk_of self.new) (IsCompacting D.Disk self.old broker.now.state) }
        ensures compacts { OnOk result (Compacts D.Disk self.old self.new broker.now.state) }
        ensures breaks { CompactBreaks D.Disk self.old self.new broker.now.state result }
        ensures keeps { KeepsOpened self.old self.new }
        ensures lasts { Lasts D.Disk (disk_of self.old) (disk_of self.new) }
    {
        if self.area.is_broken() {
            return Err(AreaFault::Broken);
        }
        if !has_room_for(broker, self.area.size()) {
            return Err(AreaFault::Full);
        }
        write_state(alloc, &mut self.disk, &mut self.area, broker)
    }
}
