//! The header of a journal, and single ranges of a disk.

ghost use Rattle.std.specs.Prelude.{◌≡◌, ◌↔◌, ◌+◌, ◌*◌, ◌≤◌, ◌<◌, ◌^◌, IfErr, IfOk, IsTrue, OnOk, codes, drop, length, take};
ghost use Rattle.std.specs.Int.{w64, to_be_bytes};
ghost use Rattle.disk_core.specs.Faults.{HasCause};
ghost use Rattle.area_core.specs.Damage.{IsHeaderTold, IsOfDevice, IsReadCaused};
ghost use Rattle.area_core.specs.Journals.{AreDigits, IsJournal};
ghost use Rattle.area_core.specs.Reading.{ReadsOnly};

use crate::ReadFault;
use disk_core::{DeviceFault, Disk};
use std::alloc::Global;

// Reads a range.
pub(crate) fn fetch<D: Disk>(disk: &mut D, at: u64, into: &mut [u8]) -> Result<(), DeviceFault>
    requires { at + length into.old ≤ length (D.content disk.old) }
    ensures bytes { D.honest disk.old →
        OnOk result (into.new ≡ take (length into.old) (drop at (D.content disk.old))) }
    ensures reads { ReadsOnly D.Disk disk.old disk.new }
    ensures cause { HasCause (D.failures disk.old) (D.failures disk.new) result }
{
    disk.read_at(at, into)
}

// The number that eight bytes spell.
fn number_of(bytes: &[u8; 8]) -> u64
    ensures { bytes.now ≡ to_be_bytes w64 result }
{
    u64::from_be_bytes(*bytes)
}

// The number in the eight bytes at a place.
pub(crate) fn fetch_number<D: Disk>(disk: &mut D, at: u64) -> Result<u64, DeviceFault>
    requires { at + 8 ≤ length (D.content disk.old) }
    ensures number { D.honest disk.old →
        IfOk result (λ n. take 8 (drop at (D.content disk.old)) ≡ to_be_bytes w64 n) }
    ensures reads { ReadsOnly D.Disk disk.old disk.new }
    ensures cause { HasCause (D.failures disk.old) (D.failures disk.new) result }
{
    let mut bytes = [0; 8];
    fetch(disk, at, &mut bytes)?;
    Ok(number_of(&bytes))
}

// Whether the bytes are those wanted.
pub(crate) fn are(bytes: &[u8], wanted: &[u8]) -> bool
    ensures { IsTrue result ↔ bytes.now ≡ wanted.now }
{
    bytes == wanted
}

// Whether these are the digits of a version.
fn are_digits(bytes: &[u8; 2]) -> bool
    ensures { IsTrue result ↔ AreDigits bytes.now }
{
    are(bytes, b"01") || are(bytes, b"02")
}

// The `count` bytes from a place on.
pub(crate) fn fetch_bytes<D: Disk>(
    alloc: Global,
    disk: &mut D,
    at: u64,
    count: u64,
) -> Result<Vec<u8>, ReadFault>
    requires { at + count ≤ length (D.content disk.old) }
    ensures bytes { D.honest disk.old →
        IfOk result (λ v. take count (drop at (D.content disk.old)) ≡ v.items) }
    ensures length { IfOk result (λ v. length v.items ≡ count) }
    ensures refused { IfErr result IsOfDevice }
    ensures reads { ReadsOnly D.Disk disk.old disk.new }
    ensures cause { IsReadCaused (D.failures disk.old) (D.failures disk.new) result }
{
    let mut bytes = vec![in alloc; 0; count as usize]?;
    fetch(disk, at, &mut bytes)?;
    Ok(bytes)
}

// The length of an area, and the selector.
pub(crate) fn header<D: Disk>(disk: &mut D) -> Result<(u64, u8), ReadFault>
    ensures journal { D.honest disk.old → IfOk result (λ r. IsJournal r.0 r.1 (D.content disk.old)) }
    ensures refused { D.honest disk.old → IfErr result (λ fault. IsHeaderTold fault (D.content disk.old)) }
    ensures least { IfOk result (λ r. 4096 ≤ r.0) }
    ensures most { IfOk result (λ r. 32 + 2 * r.0 < 2 ^ 64) }
    ensures room { IfOk result (λ r. 32 + 2 * r.0 ≤ length (D.content disk.new)) }
    ensures reads { ReadsOnly D.Disk disk.old disk.new }
    ensures cause { IsReadCaused (D.failures disk.old) (D.failures disk.new) result }
{
    let all = disk.size();
    if all < 32 {
        return Err(ReadFault::NotAJournal);
    }
    let mut name = [0; 6];
    fetch(disk, 0, &mut name)?;
    if !are(&name, b"STOMPJ") {
        return Err(ReadFault::NotAJournal);
    }
    let mut version = [0; 2];
    fetch(disk, 6, &mut version)?;
    if !are_digits(&version) {
        return Err(ReadFault::UnknownVersion);
    }
    let size = fetch_number(disk, 8)?;
    if size < 4096 || size > (all - 32) / 2 {
        return Err(ReadFault::TooSmall);
    }
    let mut selector = [0];
    fetch(disk, 16, &mut selector)?;
    Ok((size, selector[0]))
}
