//! A journal is made that stands for a broker's state.

ghost use Rattle.std.specs.Prelude.{◌≡◌, ◌⊎◌, ◌+◌, ◌*◌, ◌<◌, IsErrOf, OnOk, false, length};
ghost use Rattle.disk_core.specs.Calls.{Lasts, Throughout};
ghost use Rattle.disk_core.specs.Images.{Only};
ghost use Rattle.area_core.specs.Making.{IsMakeCaused, IsMaking};
ghost use Rattle.recover_core.specs.Compactions.{HasNoRoomFor};
ghost use Rattle.recover_core.specs.Standing.{StandFor, Stands};

use crate::compacting::has_room_for;
use crate::snapshot::Snapshot;
use area_core::{MakeFault, make};
use broker_core::Broker;
use disk_core::Disk;
use std::alloc::Global;

/// Makes the disk a journal with areas of `area_bytes` bytes, at least 4,096, that stands for a broker's state, its sessions included. What
/// the disk held is lost.
///
/// The journal's name is written last, once all else is synced. So if nothing was unsynced before, a stop at any moment leaves what no call
/// opens as a journal, or the whole journal.
///
/// `TooSmall`, and `Full` if no snapshot of the state fits into an area, come before anything is written. After another fault the disk may
/// hold anything.
pub fn make_holding<D: Disk>(
    alloc: Global,
    disk: &mut D,
    area_bytes: u64,
    broker: &Broker,
) -> Result<(), MakeFault>
    requires whole { broker.now.broken ≡ false }
    ensures any_moment { Only (D.content disk.old) (D.images disk.old) → Throughout D.Disk disk.old disk.new
        (IsMaking (D.content disk.old) (λ c. Stands c broker.now.state)) }
    ensures makes { D.honest disk.old → OnOk result (StandFor (D.images disk.new) broker.now.state) }
    ensures small { IsErrOf result MakeFault.TooSmall →
        ((area_bytes < 4096) ⊎ (length (D.content disk.old) < 32 + 2 * area_bytes)) × (disk.new ≡ disk.old) }
    ensures full { IsErrOf result MakeFault.Full → HasNoRoomFor area_bytes broker.now.state × (disk.new ≡ disk.old) }
    ensures cause { IsMakeCaused (D.failures disk.old) (D.failures disk.new) result }
    ensures lasts { Lasts D.Disk disk.old disk.new }
{
    if area_bytes < LEAST_AREA {
        return Err(MakeFault::TooSmall);
    }
    if !has_room_for(broker, area_bytes) {
        return Err(MakeFault::Full);
    }
    let mut snapshot = Snapshot::of(alloc, broker)?;
    make(alloc, disk, area_bytes, &mut snapshot)
}

// The least length of an area, in bytes.
const LEAST_AREA: u64 = 4_096;
