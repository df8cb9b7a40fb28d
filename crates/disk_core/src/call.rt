//! The calls that a disk is asked for.

ghost use Rattle.std.specs.Prelude.{◌≡◌, ◌++◌, ◌∷◌, [], false, IsTrue, IsErr, is_ok, ◌+◌, ◌≤◌, length, None, OnOk};
ghost use Rattle.disk_core.specs.Faults.{IsOneMore, HasCause};
ghost use Rattle.disk_core.specs.Calls.{Lasts, Throughout};
ghost use Rattle.disk_core.specs.Images.{Only};
ghost use Rattle.disk_core.specs.Publish.{published, IsAllOrNothing, IsPublished};

use crate::Disk;
use thiserror::Error;

/// A call of a disk, with its range of bytes.
#[derive(Clone, Copy, PartialEq, Eq)]
pub enum Call {
    /// `len` bytes were read, from the offset `at` on.
    Read { at: u64, len: u64 },
    /// `len` bytes were written, from the offset `at` on.
    Write { at: u64, len: u64 },
    /// All that was written was made stable.
    Sync,
}

// Adds a call to those before it, unless memory is refused.
pub(crate) fn record(calls: &mut Vec<Call>, call: Call) -> bool
    ensures yes { IsTrue result → calls.new.items ≡ calls.old.items ++ call ∷ [] }
    ensures no { result ≡ false → calls.new.items ≡ calls.old.items }
{
    calls.push(call).is_ok()
}

/// A call of a device failed. The call says what that leaves.
#[derive(Clone, Copy, Debug, PartialEq, Eq, Error)]
#[error("device failed")]
pub struct DeviceFault;

// A failure, which is counted. The count stays at the end of its type.
pub(crate) fn fail(failures: &mut u64) -> Result<(), DeviceFault>
    ensures fails { IsErr result }
    ensures counted { IsOneMore failures.old failures.new }
{
    *failures = failures.saturating_add(1);
    Err(DeviceFault)
}

// What became of a call, from whether it was done.
pub(crate) fn tell(done: bool, failures: &mut u64) -> Result<(), DeviceFault>
    ensures variant { is_ok result ≡ done }
    ensures cause { HasCause failures.old failures.new result }
{
    if done { Ok(()) } else { fail(failures) }
}

/// Writes a payload behind a closed flag, and then opens the flag.
///
/// The flag is the disk's first byte, and is open if it is 1. Whenever the disk stops, it has all
/// of the payload or nothing; after `Ok` it has the payload.
pub fn publish<D: Disk>(disk: &mut D, payload: &[u8]) -> Result<(), DeviceFault>
    requires room { 1 + length payload.now ≤ length (D.content disk.old) }
    requires synced { D.honest disk.old → Only (D.content disk.old) (D.images disk.old) }
    requires closed { D.honest disk.old →
        published (length payload.now) (D.content disk.old) ≡ None }
    ensures any_moment { Throughout D.Disk disk.old disk.new (IsAllOrNothing (length payload.now) payload.now) }
    ensures published { D.honest disk.old → OnOk result (IsPublished (D.images disk.new) payload.now) }
    ensures cause { HasCause (D.failures disk.old) (D.failures disk.new) result }
    ensures lasts { Lasts D.Disk disk.old disk.new }
{
    disk.write_at(1, payload)?;
    disk.sync()?;
    disk.write_at(0, &[1])?;
    disk.sync()
}
