//! A disk that fails from a chosen call on.

ghost use Rattle.std.specs.Prelude.{◌≡◌, ◌+◌, ◌-◌, ◌<◌, ◌≤◌, ◌↔◌, length, IsTrue, ◌⊎◌, MatchBool, Option, Some, None};
ghost use Rattle.disk_core.specs.Calls.{ReadsAt, Syncs, WritesAt};
ghost use Rattle.disk_core.specs.Faults.{HasCause, IsOneMore};
ghost use Rattle.disk_core.specs.Images.{patched};

use crate::call::fail;
use crate::{DeviceFault, Disk};

/// A disk that passes a number of calls on, and fails every later one.
///
/// Each read, write and sync is a call. A write that fails in this way may have begun: it is passed
/// on, and its range is written and unsynced. A read or a sync that fails in this way does nothing.
#[derive(Drop)]
pub struct FuseDisk<D> {
    disk: D,
    left: u64,
    // The failures that are not the disk's own.
    failed: u64,
}

impl<D: Disk> FuseDisk<D> {
    ghost use Rattle.disk_core.specs.Fuse.{fused, calls_left, all_failures};

    /// A fuse over a disk, which passes the first `calls` on.
    pub fn new(disk: D, calls: u64) -> FuseDisk<D>
        ensures disk { fused result ≡ disk }
        ensures calls { calls_left result ≡ calls }
        ensures failures { all_failures D.failures result ≡ D.failures disk }
    {
        FuseDisk {
            disk,
            left: calls,
            failed: 0,
        }
    }

    /// The disk below, as the calls left it.
    pub fn into_inner(self) -> D
        ensures { result ≡ fused self }
    {
        let FuseDisk {
            disk,
            left: _,
            failed: _,
        } = self;
        disk
    }
}

// Whether one more call passes; if so, it is spent.
fn spend(left: &mut u64) -> bool
    ensures passes { IsTrue result ↔ (0 < left.old) }
    ensures spent { left.new ≡ left.old - 1 }
{
    if *left == 0 {
        return false;
    }
    *left -= 1;
    true
}

impl<D: Disk> Disk for FuseDisk<D> {
    ghost use Rattle.disk_core.specs.Fuse.{Burns, fused, calls_left, all_failures};

    ghost content = { λ f. D.content f.disk };

    ghost images = { λ f. D.images f.disk };

    ghost moment = { λ f. D.moment f.disk };

    ghost images_since = { λ f. D.images_since f.disk };

    ghost failures = { λ f. D.failures f.disk + f.failed };

    ghost honest = { λ f. D.honest f.disk };

    ghost reads = { λ f. D.reads f.disk };

    ghost sizes = { λ f. D.sizes f.disk };

    ghost counts_now = { λ f. D.counts_now f.disk };

    ghost only_now = { λ f. D.only_now f.disk };

    fn size(&self) -> u64 {
        self.disk.size()
    }

    fn read_at(&mut self, at: u64, into: &mut [u8]) -> Result<(), DeviceFault>
        requires { at + length into.old ≤ length (D.content (fused self.old)) }
        ensures reads { ReadsAt D.Disk at into.old into.new (fused self.old) (fused self.new) result }
        ensures cause { HasCause (all_failures D.failures self.old) (all_failures D.failures self.new) result }
        ensures burns { Burns D.failures self.old self.new result }
        ensures nothing { calls_left self.old ≡ 0 → fused self.new ≡ fused self.old }
    {
        if !spend(&mut self.left) {
            // Nothing is read.
            return fail(&mut self.failed);
        }
        self.disk.read_at(at, into)
    }

    fn write_at(&mut self, at: u64, bytes: &[u8]) -> Result<(), DeviceFault>
        requires { at + length bytes.now ≤ length (D.content (fused self.old)) }
        ensures writes { WritesAt D.Disk at bytes.now (fused self.old) (fused self.new) result }
        ensures cause { HasCause (all_failures D.failures self.old) (all_failures D.failures self.new) result }
        ensures burns { Burns D.failures self.old self.new result }
    {
        if !spend(&mut self.left) {
            // It fails, but it may have begun.
            self.disk.write_at(at, bytes)?;
            return fail(&mut self.failed);
        }
        self.disk.write_at(at, bytes)
    }

    fn sync(&mut self) -> Result<(), DeviceFault>
        ensures syncs { Syncs D.Disk (fused self.old) (fused self.new) result }
        ensures cause { HasCause (all_failures D.failures self.old) (all_failures D.failures self.new) result }
        ensures burns { Burns D.failures self.old self.new result }
        ensures nothing { calls_left self.old ≡ 0 → fused self.new ≡ fused self.old }
    {
        if !spend(&mut self.left) {
            // Nothing becomes stable.
            return fail(&mut self.failed);
        }
        self.disk.sync()
    }
}

/// A disk of which a single call fails, once; every other is passed on.
///
/// Each read, write and sync is a call, and they are counted from 0. A write that fails in this way
/// may have begun: it is passed on, and its range is written and unsynced. A read or a sync that
/// fails in this way does nothing. A call that is passed on may also fail in the disk below.
#[derive(Drop)]
pub struct FailOnce<D> {
    disk: D,
    // The number of the call that fails, until it has.
    due: Option<u64>,
    // The calls that were made. The count stays at the end of its type.
    made: u64,
    // The failures that are not the disk's own.
    failed: u64,
}

impl<D: Disk> FailOnce<D> {
    ghost use Rattle.disk_core.specs.FailOnce.{below, due, calls_made, all_failures};

    /// A disk whose call number `call` fails; the first has the number 0.
    pub fn new(disk: D, call: u64) -> FailOnce<D>
        ensures disk { below result ≡ disk }
        ensures due { due result ≡ Some call }
        ensures calls { calls_made result ≡ 0 }
        ensures failures { all_failures D.failures result ≡ D.failures disk }
    {
        FailOnce {
            disk,
            due: Some(call),
            made: 0,
            failed: 0,
        }
    }

    /// How many calls were made, the failed one included, up to the end of a `u64`. It is the
    /// number of the next.
    pub fn made(&self) -> u64
        ensures { result ≡ calls_made self.now }
    {
        self.made
    }

    /// Whether the call has failed, so that every later one is passed on.
    pub fn has_failed(&self) -> bool
        ensures { IsTrue result ↔ due self.now ≡ None }
    {
        self.due.is_none()
    }

    /// The disk below, as the calls left it.
    pub fn into_inner(self) -> D
        ensures { result ≡ below self }
    {
        let FailOnce {
            disk,
            due: _,
            made: _,
            failed: _,
        } = self;
        disk
    }
}

// Counts a call, and answers whether it is the one that fails. If so, no later one is.
fn is_due(due: &mut Option<u64>, made: &mut u64) -> bool
    ensures is { IsTrue result ↔ due.old ≡ Some made.old }
    ensures once { MatchBool result (due.new ≡ None) (due.new ≡ due.old) }
    ensures counted { IsOneMore made.old made.new }
{
    let is_due = *due == Some(*made);
    *made = made.saturating_add(1);
    if is_due {
        *due = None;
    }
    is_due
}

impl<D: Disk> Disk for FailOnce<D> {
    ghost use Rattle.disk_core.specs.FailOnce.{FailsDue, below, due, calls_made, all_failures};

    ghost content = { λ f. D.content f.disk };

    ghost images = { λ f. D.images f.disk };

    ghost moment = { λ f. D.moment f.disk };

    ghost images_since = { λ f. D.images_since f.disk };

    ghost failures = { λ f. D.failures f.disk + f.failed };

    ghost honest = { λ f. D.honest f.disk };

    ghost reads = { λ f. D.reads f.disk };

    ghost sizes = { λ f. D.sizes f.disk };

    ghost counts_now = { λ f. D.counts_now f.disk };

    ghost only_now = { λ f. D.only_now f.disk };

    fn size(&self) -> u64 {
        self.disk.size()
    }

    fn read_at(&mut self, at: u64, into: &mut [u8]) -> Result<(), DeviceFault>
        requires { at + length into.old ≤ length (D.content (below self.old)) }
        ensures reads { ReadsAt D.Disk at into.old into.new (below self.old) (below self.new) result }
        ensures cause { HasCause (all_failures D.failures self.old) (all_failures D.failures self.new) result }
        ensures fails { FailsDue D.failures self.old self.new result }
        ensures nothing { due self.old ≡ Some (calls_made self.old) → below self.new ≡ below self.old }
    {
        if is_due(&mut self.due, &mut self.made) {
            return fail(&mut self.failed);
        }
        self.disk.read_at(at, into)
    }

    fn write_at(&mut self, at: u64, bytes: &[u8]) -> Result<(), DeviceFault>
        requires { at + length bytes.now ≤ length (D.content (below self.old)) }
        ensures writes { WritesAt D.Disk at bytes.now (below self.old) (below self.new) result }
        ensures cause { HasCause (all_failures D.failures self.old) (all_failures D.failures self.new) result }
        ensures fails { FailsDue D.failures self.old self.new result }
        ensures begun { D.honest (below self.old) → due self.old ≡ Some (calls_made self.old) →
            (D.content (below self.new) ≡ patched at bytes.now (D.content (below self.old)))
            ⊎ IsOneMore (D.failures (below self.old)) (D.failures (below self.new)) }
    {
        if is_due(&mut self.due, &mut self.made) {
            // It fails, but it may have begun.
            self.disk.write_at(at, bytes)?;
            return fail(&mut self.failed);
        }
        self.disk.write_at(at, bytes)
    }

    fn sync(&mut self) -> Result<(), DeviceFault>
        ensures syncs { Syncs D.Disk (below self.old) (below self.new) result }
        ensures cause { HasCause (all_failures D.failures self.old) (all_failures D.failures self.new) result }
        ensures fails { FailsDue D.failures self.old self.new result }
        ensures nothing { due self.old ≡ Some (calls_made self.old) → below self.new ≡ below self.old }
    {
        if is_due(&mut self.due, &mut self.made) {
            // Nothing becomes stable.
            return fail(&mut self.failed);
        }
        self.disk.sync()
    }
}
