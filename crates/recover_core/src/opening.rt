//! Opening a journal.

ghost use Rattle.std.specs.Prelude.{◌≡◌, false, IfErr, IfOk, OnOk};
ghost use Rattle.disk_core.specs.Calls.{Lasts, Throughout};
ghost use Rattle.disk_core.specs.Images.{Only};
ghost use Rattle.area_core.specs.Calls.{IsReady};
ghost use Rattle.broker_core.specs.Operations.{restarted};
ghost use Rattle.recover_core.specs.Opened.{HandsBack, IsOpening, IsRestarting, Opens, OpensArea, RefusesRestart, RefusesToOpen, RefusesToRead, Restarts};
ghost use Rattle.recover_core.specs.Opens.{HasRead, IsUnwritten};
ghost use Rattle.recover_core.specs.Reads.{IsLoaded};
ghost use Rattle.recover_core.specs.Told.{IsOpenCaused};

use crate::OpenFault;
use crate::reading::read_state;
use crate::snapshot::Snapshot;
use crate::store::Store;
use area_core::Area;
use broker_core::{Broker, BrokerFault};
use disk_core::Disk;
use std::alloc::{AllocError, Global};

// Ends all sessions of the broker.
fn restart(alloc: Global, broker: &mut Broker) -> Result<(), AllocError>
    requires whole { broker.old.broken ≡ false }
    ensures state { OnOk result (broker.new.state ≡ restarted broker.old.state) }
    ensures whole { OnOk result (broker.new.broken ≡ false) }
{
    match broker.restart(alloc) {
        Ok(()) => Ok(()),
        Err(BrokerFault::Memory(refused)) => Err(refused),
        Err(BrokerFault::Broken) => Err(AllocError),
    }
}

// Writes what a restart leaves of the broker into the area that is not live, and makes that area live.
fn write_restarted<D: Disk>(
    alloc: Global,
    disk: &mut D,
    area: &mut Area,
    broker: &mut Broker,
) -> Result<(), OpenFault>
    requires ready { IsReady area.old (D.content disk.old) }
    requires whole { broker.old.broken ≡ false }
    ensures any_moment { Throughout D.Disk disk.old disk.new (IsRestarting (D.images disk.old) area.old broker.old.state) }
    ensures ok { OnOk result (Restarts D.Disk area.old area.new disk.old disk.new broker.old.state broker.new) }
    ensures size { area.new.size ≡ area.old.size }
    ensures err { IfErr result (RefusesRestart area.old.size broker.old.state disk.old disk.new) }
    ensures cause { IsOpenCaused (D.failures disk.old) (D.failures disk.new) result }
    ensures lasts { Lasts D.Disk disk.old disk.new }
{
    restart(alloc, broker)?;
    let mut snapshot = Snapshot::new(alloc, broker)?;
    area.write_snapshot(alloc, disk, &mut snapshot)?;
    area.switch(disk)?;
    Ok(())
}

// Makes what was written before stable, and reads the state that the disk stands for. Nothing is written.
fn read_synced<D: Disk>(alloc: Global, disk: &mut D) -> Result<(Area, Broker), OpenFault>
    ensures read { D.honest disk.old → IfOk result (λ r. HasRead r.0 r.1.state (D.content disk.old)) }
    ensures only { D.honest disk.old → OnOk result (Only (D.content disk.old) (D.images disk.new)) }
    ensures unwritten { D.honest disk.old → IsUnwritten D.Disk disk.old disk.new }
    ensures loaded { IfOk result (λ r. IsLoaded r.0 r.1 (D.content disk.new)) }
    ensures refuses { IfErr result (RefusesToRead D.Disk disk.old) }
    ensures cause { IsOpenCaused (D.failures disk.old) (D.failures disk.new) result }
    ensures lasts { Lasts D.Disk disk.old disk.new }
{
    disk.sync()?;
    read_state(alloc, disk)
}

// Reads the state, writes what a restart leaves of it into the other area, and makes that area live.
fn open_area<D: Disk>(alloc: Global, disk: &mut D) -> Result<(Area, Broker), OpenFault>
    ensures any_moment { Throughout D.Disk disk.old disk.new (IsOpening (D.images disk.old)) }
    ensures opens { IfOk result (λ opened. OpensArea D.Disk disk.old disk.new opened.0 opened.1) }
    ensures refuses { IfErr result (RefusesToOpen D.Disk disk.old disk.new) }
    ensures cause { IsOpenCaused (D.failures disk.old) (D.failures disk.new) result }
    ensures lasts { Lasts D.Disk disk.old disk.new }
{
    let (mut area, mut broker) = read_synced(alloc, disk)?;
    match write_restarted(alloc, disk, &mut area, &mut broker) {
        Ok(()) => Ok((area, broker)),
        Err(fault) => Err(fault),
    }
}

/// Opens a journal of either version. It reads the state that the disk stands for, with the blocks by the rule of the live area's version,
/// and ends its sessions. Then it writes what is left into the other area as the second version, and makes that area live.
///
/// If each image of an honest disk stood for a state, a stop at any moment leaves one that restarts as one of these. After Ok the live area
/// has the snapshot of the state alone, and is of the second version. The name and the version in the header stay as they are at every
/// moment. A refusal hands the disk back, and it may be opened again. If what was read is the reason, nothing was written at any moment; a
/// snapshot that does not fit is such a reason.
pub fn open<D: Disk>(alloc: Global, disk: D) -> Result<Store<D>, (D, OpenFault)>
    ensures opens { IfOk result (Opens D.Disk disk) }
    ensures hands_back { IfErr result (λ back. HandsBack D.Disk disk back.0 back.1) }
{
    let mut disk = disk;
    match open_area(alloc, &mut disk) {
        Ok((area, broker)) => Ok(Store {
            disk,
            area,
            opened: Some(broker),
        }),
        Err(fault) => Err((disk, fault)),
    }
}
