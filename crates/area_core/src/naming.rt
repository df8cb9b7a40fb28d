//! A journal's name, without which no call opens a disk: it is written last.

ghost use Rattle.std.specs.Prelude.{◌≡◌, ◌+◌, ◌*◌, ◌≤◌, ◌↔◌, ◌++◌, [], ℕ, List, IfOk, IsTrue, OnOk, codes, drop, length, replicate, take};
ghost use Rattle.std.specs.Int.{w64, to_be_bytes};
ghost use Rattle.disk_core.specs.Calls.{Lasts, Throughout};
ghost use Rattle.disk_core.specs.Faults.{HasCause};
ghost use Rattle.disk_core.specs.Images.{Only, patched};
ghost use Rattle.area_core.specs.Damage.{IsNoJournal};
ghost use Rattle.area_core.specs.Journals.{Reads};
ghost use Rattle.area_core.specs.Making.{IsBegun, IsMaking, IsNamed, IsUnnamed, IsUnnaming};
ghost use Rattle.area_core.specs.Puts.{IsStable};
ghost use Rattle.area_core.specs.Reading.{ReadsOnly};
ghost use Rattle.area_core.specs.declared.version.Version.TheVariants.{Two};

use crate::header::{are, fetch};
use crate::put::put;
use disk_core::{DeviceFault, Disk};

// Whether a disk has the name of a journal.
fn is_named<D: Disk>(disk: &mut D) -> Result<bool, DeviceFault>
    requires { 32 ≤ length (D.content disk.old) }
    ensures named { D.honest disk.old → IfOk result (λ named. IsTrue named ↔ IsNamed (D.content disk.old)) }
    ensures reads { ReadsOnly D.Disk disk.old disk.new }
    ensures cause { HasCause (D.failures disk.old) (D.failures disk.new) result }
{
    let mut name = [0; 6];
    fetch(disk, 0, &mut name)?;
    Ok(are(&name, b"STOMPJ"))
}

// Takes the name of a journal from a disk that has one.
fn unname<D: Disk>(disk: &mut D) -> Result<(), DeviceFault>
    requires { 32 ≤ length (D.content disk.old) }
    ensures any_moment { Only (D.content disk.old) (D.images disk.old) →
        Throughout D.Disk disk.old disk.new (IsUnnaming (D.content disk.old)) }
    ensures unnamed { D.honest disk.old → OnOk result (IsNoJournal (D.content disk.new)) }
    ensures only { D.honest disk.old → Only (D.content disk.old) (D.images disk.old) → OnOk result (Only (D.content disk.new) (D.images disk.new)) }
    ensures cause { HasCause (D.failures disk.old) (D.failures disk.new) result }
    ensures lasts { Lasts D.Disk disk.old disk.new }
{
    if is_named(disk)? {
        return put(disk, 0, &[0; 8]);
    }
    Ok(())
}

// A header behind its name: the length of an area, the selector 0, and zeros.
fn rest_of(area_bytes: u64) -> [u8; 24]
    ensures { result ≡ to_be_bytes w64 area_bytes ++ replicate 16 0 }
{
    let [a, b, c, d, e, f, g, h] = area_bytes.to_be_bytes();
    [
        a, b, c, d, e, f, g, h, 0, 0, 0, 0, 0, 0, 0, 0, 0, 0, 0, 0, 0, 0, 0, 0,
    ]
}

// Takes the name of a journal from a disk, and writes the rest of a header.
pub(crate) fn begin<D: Disk>(disk: &mut D, area_bytes: u64) -> Result<(), DeviceFault>
    requires { 32 ≤ length (D.content disk.old) }
    ensures any_moment { Only (D.content disk.old) (D.images disk.old) →
        Throughout D.Disk disk.old disk.new (IsUnnaming (D.content disk.old)) }
    ensures begun { D.honest disk.old → OnOk result (IsBegun D.Disk disk.new area_bytes) }
    ensures cause { HasCause (D.failures disk.old) (D.failures disk.new) result }
    ensures lasts { Lasts D.Disk disk.old disk.new }
{
    unname(disk)?;
    put(disk, 8, &rest_of(area_bytes))
}

// Gives a disk that has all else of a journal its name.
pub(crate) fn end<D: Disk>(disk: &mut D) -> Result<(), DeviceFault>
    requires { 32 ≤ length (D.content disk.old) }
    ensures any_moment { (size : ℕ) (snapshot before : List ℕ) → Only (D.content disk.old) (D.images disk.old) → IsUnnamed size snapshot (D.content disk.old)
        → Throughout D.Disk disk.old disk.new (IsMaking before (Reads Two size 0 snapshot [])) }
    ensures stable { D.honest disk.old → OnOk result (IsStable D.Disk disk.new (patched 0 (codes "STOMPJ02") (D.content disk.old))) }
    ensures cause { HasCause (D.failures disk.old) (D.failures disk.new) result }
    ensures lasts { Lasts D.Disk disk.old disk.new }
{
    put(disk, 0, b"STOMPJ02")
}
