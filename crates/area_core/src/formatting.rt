//! A disk is formatted as a journal.

ghost use Rattle.std.specs.Prelude.{◌≡◌, ◌⊎◌, ◌+◌, ◌*◌, ◌<◌, ◌≤◌, ◌↔◌, ◌++◌, [], IfOk, IsErrOf, IsTrue, OnOk, length, replicate, ◌^◌, OnErr};
ghost use Rattle.disk_core.specs.Calls.{Lasts, Throughout};
ghost use Rattle.disk_core.specs.Images.{Only, patched};
ghost use Rattle.area_core.specs.Areas.{first_snapshot, closed_snapshot};
ghost use Rattle.area_core.specs.Calls.{Formats};
ghost use Rattle.area_core.specs.Journals.{Reads, digits, header};
ghost use Rattle.area_core.specs.Making.{IsMaking, IsMakeCaused, Makes, RefusesToMake};
ghost use Rattle.area_core.specs.Steps.{IsBeforeWriting, IsFormatCaused};
ghost use Rattle.area_core.specs.declared.version.Version.TheVariants.{Two};
ghost use Rattle.area_core.specs.Puts.{IsStable, IsTorn};

use crate::naming::{begin, end};
use crate::pieces::Pieces;
use crate::put::{COUNTED, closed_snapshot, put};
use crate::{Area, AreaFault, FormatFault, Version};
use disk_core::{DeviceFault, Disk};
use std::alloc::{AllocError, Global};

// How the version is spelled in a journal's name.
fn digits_of(version: Version) -> &'static [u8]
    ensures { result.now ≡ digits version }
{
    match version {
        Version::One => b"01",
        Version::Two => b"02",
    }
}

/// The 32 bytes of the header of a journal with areas of `area_bytes` bytes. Its name has that version, and its selector makes the first
/// area live.
pub fn header_of(alloc: Global, version: Version, area_bytes: u64) -> Result<Vec<u8>, AllocError>
    ensures { IfOk result (λ bytes. bytes.items ≡ header version area_bytes ++ replicate 16 0) }
{
    let mut out = Vec::with_capacity(alloc, 32)?;
    out.extend_from_slice(b"STOMPJ")?;
    out.extend_from_slice(digits_of(version))?;
    out.extend_from_slice(&area_bytes.to_be_bytes())?;
    out.extend_from_slice(&[0; 16])?;
    Ok(out)
}

// Whether a disk of so many bytes has room for a header and two areas of `area_bytes` bytes, at least 4,096.
pub(crate) fn has_areas(all: u64, area_bytes: u64) -> bool
    ensures { IsTrue result ↔ ((4096 ≤ area_bytes) × (32 + 2 * area_bytes ≤ all)) }
{
    area_bytes >= 4096 && all >= 32 && area_bytes <= (all - 32) / 2
}

/// Makes the disk an empty journal of the second version with two areas of `area_bytes` bytes each, at least 4,096. What the disk held is
/// lost.
///
/// The name in the first eight bytes is written last, once all else is synced; a name that is there is taken away first. So if nothing was
/// unsynced before, a stop at any moment leaves what no call opens as a journal, or the whole journal.
///
/// `TooSmall` and `Memory` come before anything is written. After `Device` the disk may hold anything.
pub fn format<D: Disk>(alloc: Global, disk: &mut D, area_bytes: u64) -> Result<(), FormatFault>
    ensures any_moment { Only (D.content disk.old) (D.images disk.old) → Throughout D.Disk disk.old disk.new
        (IsMaking (D.content disk.old) (Reads Two area_bytes 0 first_snapshot [])) }
    ensures formats { OnOk result (Formats D.Disk disk.old disk.new area_bytes) }
    ensures small { IsErrOf result FormatFault.TooSmall →
        (area_bytes < 4096) ⊎ (length (D.content disk.old) < 32 + 2 * area_bytes) }
    ensures fits { OnOk result ((4096 ≤ area_bytes) × (32 + 2 * area_bytes ≤ length (D.content disk.old))) }
    ensures same { IsBeforeWriting result (disk.new ≡ disk.old) }
    ensures cause { IsFormatCaused (D.failures disk.old) (D.failures disk.new) result }
    ensures lasts { Lasts D.Disk disk.old disk.new }
{
    if !has_areas(disk.size(), area_bytes) {
        return Err(FormatFault::TooSmall);
    }
    let front = closed_snapshot(alloc, Version::Two, &[0; 32])?;
    begin(disk, area_bytes)?;
    put(disk, 32, &front)?;
    end(disk)?;
    Ok(())
}

/// Why a disk was not made a journal.
#[derive(Debug, Drop)]
pub enum MakeFault {
    /// The areas would have fewer than 4,096 bytes each, or more than the disk has.
    TooSmall,
    /// The snapshot doesn't fit into an area with the gate after it.
    Full,
    /// The disk failed.
    Device,
    /// Memory was refused.
    Memory(AllocError),
}

impl From<AllocError> for MakeFault {
    ghost use Rattle.std.specs.Prelude.{◌≡◌};
    ghost use Rattle.area_core.specs.declared.formatting.MakeFault.TheVariants.{Memory};

    ghost from_gives = { λ refused fault. fault ≡ Memory refused };

    fn from(refused: AllocError) -> MakeFault {
        MakeFault::Memory(refused)
    }
}

impl From<DeviceFault> for MakeFault {
    ghost use Rattle.std.specs.Prelude.{◌≡◌};
    ghost use Rattle.area_core.specs.declared.formatting.MakeFault.TheVariants.{Device};

    ghost from_gives = { λ refused fault. fault ≡ Device };

    fn from(_refused: DeviceFault) -> MakeFault {
        MakeFault::Device
    }
}

/// Makes the disk a journal of the second version with two areas of `area_bytes` bytes each, at least 4,096. The first is live, and has
/// this snapshot. What the disk held is lost. It writes pieces of 65,536 bytes, each by one call of the disk.
///
/// The name in the first eight bytes is written last, once all else is synced; a name that is there is taken away first. So if nothing was
/// unsynced before, a stop at any moment leaves what no call opens as a journal, or the whole journal.
///
/// `TooSmall` and `Full` come before anything is written. After another fault the disk may hold anything.
pub fn make<D: Disk, P: Pieces>(
    alloc: Global,
    disk: &mut D,
    area_bytes: u64,
    snapshot: &mut P,
) -> Result<(), MakeFault>
    ensures any_moment { Only (D.content disk.old) (D.images disk.old) → Throughout D.Disk disk.old disk.new
        (IsMaking (D.content disk.old) (Reads Two area_bytes 0 (P.coming snapshot.old) [])) }
    ensures makes { D.honest disk.old → OnOk result (Makes D.Disk disk.new area_bytes (P.coming snapshot.old)) }
    ensures refuses { RefusesToMake D.Disk disk.old disk.new area_bytes (P.coming snapshot.old) result }
    ensures cause { IsMakeCaused (D.failures disk.old) (D.failures disk.new) result }
    ensures lasts { Lasts D.Disk disk.old disk.new }
{
    if !has_areas(disk.size(), area_bytes) {
        return Err(MakeFault::TooSmall);
    }
    let count = snapshot.len();
    if count > area_bytes - 9 || count >= COUNTED {
        return Err(MakeFault::Full);
    }
    begin(disk, area_bytes)?;
    write_first(alloc, disk, area_bytes, snapshot)?;
    end(disk)?;
    Ok(())
}

// Writes a snapshot into the first area, and syncs.
fn write_first<D: Disk, P: Pieces>(
    alloc: Global,
    disk: &mut D,
    area_bytes: u64,
    snapshot: &mut P,
) -> Result<(), MakeFault>
    requires room { 32 + 2 * area_bytes ≤ length (D.content disk.old) }
    requires fits { length (P.coming snapshot.old) + 9 ≤ area_bytes }
    requires seven { length (P.coming snapshot.old) < 2 ^ 56 }
    requires most { 32 + 2 * area_bytes < 2 ^ 64 }
    ensures any_moment { Throughout D.Disk disk.old disk.new (IsTorn 32 area_bytes (D.images disk.old)) }
    ensures stable { D.honest disk.old →
        OnOk result (IsStable D.Disk disk.new (patched 32 (closed_snapshot Two (P.coming snapshot.old)) (D.content disk.old))) }
    ensures small { IsErrOf result MakeFault.TooSmall → ⊥ }
    ensures full { IsErrOf result MakeFault.Full → ⊥ }
    ensures cause { IsMakeCaused (D.failures disk.old) (D.failures disk.new) result }
    ensures lasts { Lasts D.Disk disk.old disk.new }
{
    // The first area is the one to be written: the other one is the live one here.
    let mut area = Area {
        version: Version::Two,
        size: area_bytes,
        selector: 1,
        gate: 8,
        written: 0,
        broken: false,
    };
    match area.write_closed(alloc, disk, snapshot) {
        Ok(()) => {
            disk.sync()?;
            Ok(())
        }
        Err(AreaFault::Memory(refused)) => Err(MakeFault::Memory(refused)),
        Err(_) => Err(MakeFault::Device),
    }
}
