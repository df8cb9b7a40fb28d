//! The contract of a disk.
ghost use Rattle.std.specs.Prelude.{◌≡◌, ◌+◌, ◌≤◌, ℕ, List, length, take, drop, OnOk, OnErr};
ghost use Rattle.disk_core.specs.Faults.{HasCause};
ghost use Rattle.disk_core.specs.Images.{patched, Torn, Frees, Same, Within, Only};
ghost use Rattle.disk_core.specs.Lasting.{Remains};
ghost use Rattle.disk_core.specs.Moments.{Passes};

use crate::DeviceFault;

/// A disk of a fixed size, read and written in ranges of bytes.
///
/// A stop (a crash, a loss of power) leaves one of the disk's images. Between two syncs a written
/// range may hold any bytes after a stop: writes may be torn, lost, or land in any order. Bytes
/// outside it stay. After a sync that succeeds, a stop leaves what a read gives. A stop within a
/// write is a stop after it, with its range unsynced.
///
/// Only an honest disk promises the clauses on content and images; every disk promises those on
/// sizes and failures. Every call that fails adds one to the failures, and nothing else does. The
/// count is a `u64`, and stays at its end.
pub trait Disk {
    /// The bytes that a read gives.
    ghost content: { Self → List ℕ };

    /// The bytes that a stop at this moment may leave.
    ghost images: { Self → List ℕ → Type 0 };

    /// The disk's clock, which goes on with its calls and never goes back.
    ghost moment: { Self → ℕ };

    /// What a stop might have left at some moment from that one on, during a call or between two.
    ghost images_since: { Self → ℕ → List ℕ → Type 0 };

    /// How many calls have failed, up to the end of a `u64`.
    ghost failures: { Self → ℕ };

    /// The disk keeps to what is said of its content and its images.
    ghost honest: { Self → Type 0 };

    /// The number of bytes.
    fn size(&self) -> u64
        ensures { result ≡ length (content self.now) };

    /// Reads a range, which lies within the disk. A read that fails changes nothing but what it
    /// reads into.
    fn read_at(&mut self, at: u64, into: &mut [u8]) -> Result<(), DeviceFault>
        requires { at + length into.old ≤ length (content self.old) }
        ensures bytes { honest self.old →
            OnOk result (into.new ≡ take (length into.old) (drop at (content self.old))) }
        ensures content { honest self.old → content self.new ≡ content self.old }
        ensures images { honest self.old → Same (images self.old) (images self.new) }
        ensures time { honest self.old → Passes moment images_since images self.old self.new }
        ensures cause { HasCause (failures self.old) (failures self.new) result }
        ensures lasts { Remains content honest self.old self.new };

    /// Writes a range, which lies within the disk. Until a sync succeeds the range is unsynced,
    /// even if the write fails. After a failure it may read as anything, and the rest stays.
    fn write_at(&mut self, at: u64, bytes: &[u8]) -> Result<(), DeviceFault>
        requires { at + length bytes.now ≤ length (content self.old) }
        ensures written { honest self.old →
            OnOk result (content self.new ≡ patched at bytes.now (content self.old)) }
        ensures content { honest self.old →
            Torn at (length bytes.now) (content self.old) (content self.new) }
        ensures images { honest self.old →
            Frees at (length bytes.now) (images self.old) (images self.new) }
        ensures time { honest self.old → Passes moment images_since images self.old self.new }
        ensures cause { HasCause (failures self.old) (failures self.new) result }
        ensures lasts { Remains content honest self.old self.new };

    /// Makes all that was written stable. A sync that fails makes nothing stable and changes
    /// nothing.
    fn sync(&mut self) -> Result<(), DeviceFault>
        ensures stable { honest self.old → OnOk result (Only (content self.old) (images self.new)) }
        ensures failed { honest self.old → OnErr result (Same (images self.old) (images self.new)) }
        ensures content { honest self.old → content self.new ≡ content self.old }
        ensures images { honest self.old → Within (images self.new) (images self.old) }
        ensures time { honest self.old → Passes moment images_since images self.old self.new }
        ensures cause { HasCause (failures self.old) (failures self.new) result }
        ensures lasts { Remains content honest self.old self.new };

    /// What a read gives is one of the images.
    ghost reads: { (disk : Self) → honest disk → images disk (content disk) };

    /// Each image has the disk's size.
    ghost sizes: { (disk : Self) (c : List ℕ) → honest disk → images disk c → length c ≡ length (content disk) };

    /// A moment's images are among those since an earlier moment.
    ghost counts_now: { (disk : Self) (t : ℕ) (c : List ℕ) → t ≤ moment disk → images disk c → images_since disk t c };

    /// Since now, there are no images but now's.
    ghost only_now: { (disk : Self) (c : List ℕ) → images_since disk (moment disk) c → images disk c };
}
