//! Bytes that are written and made stable.

ghost use Rattle.std.specs.Prelude.{◌≡◌, ◌+◌, ◌++◌, ◌<◌, ◌≤◌, ◌^◌, [], ◌∷◌, length, OnOk, IfOk};
ghost use Rattle.std.specs.Int.{w64, to_be_bytes};
ghost use Rattle.disk_core.specs.Calls.{Lasts, Throughout};
ghost use Rattle.disk_core.specs.Faults.{HasCause};
ghost use Rattle.disk_core.specs.Images.{patched, Within};
ghost use Rattle.area_core.specs.Areas.{closed, closed_snapshot, word_of};
ghost use Rattle.area_core.specs.Puts.{IsGated, IsStable, IsTorn};

use crate::Version;
use disk_core::{DeviceFault, Disk};
use std::alloc::{AllocError, Global};

// A length of fewer than these fits into seven bytes.
pub(crate) const COUNTED: u64 = 1 << 56;

// Writes bytes and syncs. Whenever the disk stops, only their range differs from what it might have left before the
// call.
pub(crate) fn put<D: Disk>(disk: &mut D, at: u64, bytes: &[u8]) -> Result<(), DeviceFault>
    requires { at + length bytes.now ≤ length (D.content disk.old) }
    ensures any_moment { Throughout D.Disk disk.old disk.new
        (IsTorn at (length bytes.now) (D.images disk.old)) }
    ensures torn { D.honest disk.old →
        Within (D.images disk.new) (IsTorn at (length bytes.now) (D.images disk.old)) }
    ensures stable { D.honest disk.old →
        OnOk result (IsStable D.Disk disk.new (patched at bytes.now (D.content disk.old))) }
    ensures cause { HasCause (D.failures disk.old) (D.failures disk.new) result }
    ensures lasts { Lasts D.Disk disk.old disk.new }
{
    disk.write_at(at, bytes)?;
    disk.sync()
}

// Writes bytes behind a gate, and then opens the gate; each is made stable.
pub(crate) fn put_behind_gate<D: Disk>(
    disk: &mut D,
    gate: u64,
    bytes: &[u8],
) -> Result<(), DeviceFault>
    requires fits { gate + 1 + length bytes.now ≤ length (D.content disk.old) }
    requires small { gate + 1 < 2 ^ 64 }
    ensures any_moment { Throughout D.Disk disk.old disk.new
        (IsGated gate bytes.now (D.content disk.old) (D.images disk.old)) }
    ensures stable { D.honest disk.old → OnOk result (
        IsStable D.Disk disk.new (patched gate (1 ∷ []) (patched (gate + 1) bytes.now (D.content disk.old)))) }
    ensures cause { HasCause (D.failures disk.old) (D.failures disk.new) result }
    ensures lasts { Lasts D.Disk disk.old disk.new }
{
    put(disk, gate + 1, bytes)?;
    put(disk, gate, &[1])
}

// The word that an area of that version begins with, if its snapshot has `count` bytes.
pub(crate) fn word_of(version: Version, count: u64) -> u64
    requires { count < 2 ^ 63 }
    ensures { result ≡ word_of version count }
{
    version.highest() as u64 * COUNTED + count
}

// This word in eight bytes, the bytes, and a closed gate.
fn closed_behind(alloc: Global, word: u64, bytes: &[u8]) -> Result<Vec<u8>, AllocError>
    ensures { IfOk result (λ v. v.items ≡ (to_be_bytes w64 word ++ bytes.now) ++ 0 ∷ []) }
{
    let mut out = Vec::with_capacity(alloc, bytes.len().saturating_add(9))?;
    out.extend_from_slice(&word.to_be_bytes())?;
    out.extend_from_slice(bytes)?;
    out.push(0)?;
    Ok(out)
}

/// An area of that version with this snapshot, from its first byte up to a closed gate.
pub fn closed_snapshot(
    alloc: Global,
    version: Version,
    snapshot: &[u8],
) -> Result<Vec<u8>, AllocError>
    ensures { IfOk result (λ v. v.items ≡ closed_snapshot version snapshot.now) }
{
    closed_behind(alloc, word_of(version, snapshot.len() as u64), snapshot)
}

/// The number of the bytes, in eight bytes, then the bytes, and a closed gate.
pub fn closed(alloc: Global, bytes: &[u8]) -> Result<Vec<u8>, AllocError>
    ensures { IfOk result (λ v. v.items ≡ closed bytes.now) }
{
    closed_behind(alloc, bytes.len() as u64, bytes)
}
