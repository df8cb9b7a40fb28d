//! A copy of a journal.

ghost use Rattle.std.specs.Prelude.{◌≡◌, ◌≢◌, IfErr, IfOk, OnOk, false};
ghost use Rattle.disk_core.specs.Calls.{Lasts, Throughout};
ghost use Rattle.disk_core.specs.Images.{Only};
ghost use Rattle.area_core.specs.Making.{IsMaking};
ghost use Rattle.area_core.specs.Reading.{Quiet};
ghost use Rattle.journal_files.specs.Copies.{Copies, IsCopy, IsUntouchedBy, fault_of};
ghost use Rattle.recover_core.specs.Standing.{Stands};

use crate::journal_files::ShowFault;
use area_core::{FormatFault, MakeFault};
use broker_core::Broker;
use disk_core::Disk;
use recover_core::{make_holding, stored_broker};
use std::alloc::Global;
use std::{error, fmt};

/// Why a journal was not copied.
#[derive(Debug, Drop)]
pub enum CopyFault {
    /// The journal could not be read.
    Read(ShowFault),
    /// What it holds does not fit into an area of the copy.
    Full,
    /// The copy could not be made.
    Format(FormatFault),
}

/// The text for the user.
impl fmt::Display for CopyFault {
    ghost use Rattle.std.specs.Prelude.{Some};
    ghost use Rattle.journal_files.specs.Copies.{copy_text};

    ghost output = { λ fault. Some (copy_text fault) };

    fn fmt<W: fmt::Write>(&self, f: &mut fmt::Formatter<W>) -> fmt::Result {
        match self {
            CopyFault::Read(fault) => write!(f, "{fault}"),
            CopyFault::Full => f.write_str("the copy is too small for what the journal holds"),
            CopyFault::Format(fault) => write!(f, "{fault}"),
        }
    }
}

impl error::Error for CopyFault {}

/// Makes a disk a journal with areas of `area_bytes` bytes that stands for what another journal stands for, its open sessions included. The
/// other one is only read, and may be that of a running server. What the copy's disk held is lost.
///
/// The copy's name is written last, once all else is synced. So if nothing of its disk was unsynced before, a stop at any moment leaves
/// what no call opens as a journal, or the whole copy. If the journal can't be read, or the copy is too small, nothing was written; after
/// another refusal the copy's disk may hold anything.
pub fn copy<D: Disk, E: Disk>(
    alloc: Global,
    from: &mut D,
    to: &mut E,
    area_bytes: u64,
) -> Result<(), CopyFault>
    ensures any_moment { D.honest from.old → Only (E.content to.old) (E.images to.old) → Throughout E.Disk to.old to.new
        (IsMaking (E.content to.old) (IsCopy (D.content from.old))) }
    ensures copies { D.honest from.old → E.honest to.old → OnOk result (Copies (D.content from.old) (E.images to.new)) }
    ensures same { IfErr result (λ fault. IsUntouchedBy fault (to.new ≡ to.old)) }
    ensures quiet { D.honest from.old → Quiet D.Disk from.old from.new }
    ensures lasts { Lasts E.Disk to.old to.new }
{
    let broker = match steady_broker(alloc, from) {
        Ok(broker) => broker,
        Err(fault) => return Err(CopyFault::Read(fault)),
    };
    match make_holding(alloc, to, area_bytes, &broker) {
        Ok(()) => Ok(()),
        Err(fault) => Err(fault_of(fault)),
    }
}

// What refuses a copy that is not made.
fn fault_of(fault: MakeFault) -> CopyFault
    ensures { result ≡ fault_of fault }
{
    match fault {
        MakeFault::Full => CopyFault::Full,
        MakeFault::TooSmall => CopyFault::Format(FormatFault::TooSmall),
        MakeFault::Device => CopyFault::Format(FormatFault::Device),
        MakeFault::Memory(refused) => CopyFault::Format(FormatFault::Memory(refused)),
    }
}

/// How often a journal is read anew whose server has compacted it meanwhile.
const LOOKS: u32 = 100;

/// Where a journal says which of its areas is live.
const SELECTOR: u64 = 16;

/// The broker of the state that a journal stands for, its sessions included. If the live area changed while it was read, since the journal's
/// server compacted it, it is read again. `Busy` comes if that happens 100 times. The disk is only read.
pub(crate) fn steady_broker<D: Disk>(alloc: Global, disk: &mut D) -> Result<Broker, ShowFault>
    ensures stands { D.honest disk.old → IfOk result (λ broker. Stands (D.content disk.old) broker.state) }
    ensures whole { IfOk result (λ broker. broker.broken ≡ false) }
    ensures fault { IfErr result (λ fault. fault ≢ ShowFault.Output) }
    ensures quiet { D.honest disk.old → Quiet D.Disk disk.old disk.new }
{
    for _look in 0..LOOKS {
        let before = selector(disk);
        let read = stored_broker(alloc, disk);
        if selector(disk) == before {
            return match read {
                Ok(broker) => Ok(broker),
                Err(fault) => Err(ShowFault::Read(fault)),
            };
        }
        drop(read);
    }
    Err(ShowFault::Busy)
}

// Which area is live, or nothing if that can't be read.
fn selector<D: Disk>(disk: &mut D) -> Option<u8>
    ensures quiet { D.honest disk.old → Quiet D.Disk disk.old disk.new }
    ensures honest { D.honest disk.old → D.honest disk.new }
{
    if disk.size() <= SELECTOR {
        return None;
    }
    let mut selector = [0; 1];
    match disk.read_at(SELECTOR, &mut selector) {
        Ok(()) => Some(selector[0]),
        Err(_) => None,
    }
}
