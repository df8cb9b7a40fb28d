//! A journal on a disk of its own.

ghost use Rattle.std.specs.Prelude.{◌≡◌, ◌+◌, ◌*◌, ◌≤◌, false, length};
ghost use Rattle.area_core.specs.Areas.{number};
ghost use Rattle.recover_core.specs.Sound.{IsSound};

use area_core::{Area, AreaFault};
use broker_core::Broker;
use command_core::Entry;
use disk_core::{Disk, FuseDisk};
use std::alloc::Global;

/// An opened journal, with the disk that it stands on. Its live area is of the second version. Until a step fails, each image of
/// the disk has the area that is held.
#[derive(Drop)]
pub struct Store<D: Disk> {
    pub(crate) disk: D,
    pub(crate) area: Area,
    // The broker of the state that was opened, until it is handed out.
    pub(crate) opened: Option<Broker>,
    ghost version: { number area.version ≡ 2 },
    ghost room: { 32 + 2 * area.size ≤ length (D.Disk.content disk) },
    ghost sound: { D.Disk.honest disk → area.broken ≡ false → IsSound (D.Disk.images disk) area },
}

impl<D: Disk> Store<D> {
    ghost use Rattle.std.specs.Prelude.{◌≡◌, ◌≢◌, [], None, OnOk};
    ghost use Rattle.disk_core.specs.Calls.{Lasts};
    ghost use Rattle.disk_core.specs.Fuse.{calls_left, fused};
    ghost use Rattle.area_core.specs.Areas.{commands};
    ghost use Rattle.recover_core.specs.Calls.{KeepsOpened, StandsThroughout, StoreAdds, StoreBreaks, StoreRefuses};
    ghost use Rattle.recover_core.specs.Stores.{disk_of, is_broken, opened_by, size_of, used_of};

    /// The broker of the state that was opened; the first call hands it out.
    pub fn broker(&mut self) -> Option<Broker>
        ensures broker { result ≡ opened_by self.old }
        ensures once { opened_by self.new ≡ None }
        ensures same { (disk_of self.new ≡ disk_of self.old) × (is_broken self.new ≡ is_broken self.old) }
        ensures place { (size_of self.new ≡ size_of self.old) × (used_of self.new ≡ used_of self.old) }
    {
        self.opened.take()
    }

    /// The disk that the journal stands on.
    pub fn disk(&self) -> &D
        ensures { result.now ≡ disk_of self.now }
    {
        &self.disk
    }

    /// How many bytes each of the journal's two areas has.
    pub fn size(&self) -> u64
        ensures { result ≡ size_of self.now }
    {
        self.area.size()
    }

    /// How many bytes of the live area are used: those up to its first closed gate, and that gate.
    pub fn used(&self) -> u64
        ensures { result ≡ used_of self.now }
    {
        self.area.used()
    }

    /// Makes the commands of a batch durable, all or none, in one block.
    ///
    /// A stop at any moment leaves the state before all of them, or the state after. `Full` means that the block with the gate after it
    /// does not fit into the area. After any refusal every later call answers `Broken` and changes nothing.
    pub fn append<B>(&mut self, alloc: Global, batch: &[Entry<B>]) -> Result<(), AreaFault>
        requires some { batch.now ≢ [] }
        ensures any_moment { StandsThroughout D.Disk self.old self.new (commands batch.now) }
        ensures adds { OnOk result (StoreAdds D.Disk self.old self.new (commands batch.now)) }
        ensures refuses { StoreRefuses D.Disk self.old self.new (commands batch.now) result }
        ensures breaks { StoreBreaks D.Disk self.old self.new result }
        ensures keeps { KeepsOpened self.old self.new }
        ensures lasts { Lasts D.Disk (disk_of self.old) (disk_of self.new) }
    {
        if self.area.is_broken() {
            return Err(AreaFault::Broken);
        }
        self.area.append(alloc, &mut self.disk, batch)
    }

    /// The disk, as it is.
    pub fn into_disk(self) -> D
        ensures { result ≡ disk_of self }
    {
        self.disk
    }

    /// The same store over a disk that passes `calls` more calls on and then fails.
    pub fn fuse(self, calls: u64) -> Store<FuseDisk<D>>
        ensures disk { fused (disk_of result) ≡ disk_of self }
        ensures calls { calls_left (disk_of result) ≡ calls }
        ensures size { size_of result ≡ size_of self }
        ensures used { used_of result ≡ used_of self }
        ensures whole { is_broken result ≡ is_broken self }
        ensures opened { opened_by result ≡ opened_by self }
    {
        Store {
            disk: FuseDisk::new(self.disk, calls),
            area: self.area,
            opened: self.opened,
        }
    }
}
