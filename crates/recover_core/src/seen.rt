//! What a journal shows of itself.

ghost use Rattle.std.specs.Prelude.{◌≤◌, ◌^◌, IfErr, IfOk};
ghost use Rattle.area_core.specs.Reading.{ReadsOnly};
ghost use Rattle.recover_core.specs.Seen.{IsSeen};
ghost use Rattle.recover_core.specs.Told.{IsOfReading, IsOpenCaused, IsStateRefused};

use crate::OpenFault;
use crate::reading::read_state;
use broker_state::Held;
use disk_core::Disk;
use std::alloc::Global;

/// What a journal shows of itself.
#[derive(Drop)]
pub struct Seen {
    /// The version of its live area: 1 or 2. Opening a journal makes it 2.
    pub version: u8,
    /// Which of its two areas is live: 0 or 1.
    pub area: u8,
    /// How many bytes of the live area are used: those up to its first closed gate, and that gate.
    pub used: u64,
    /// How many commands have been carried out.
    pub count: u64,
    /// What the state holds, with the sessions as they were: none has ended.
    pub held: Held,
}

/// Reads what a journal shows of itself. Nothing is written, and no session ends.
///
/// The faults are those of opening before anything is written. `Read`: the disk is no journal or is damaged, the disk failed, or memory was
/// refused. `CountTooLarge`: its state comes after more than 2^61 commands. `Area`: memory was refused while its commands were carried out
/// again.
pub fn read<D: Disk>(alloc: Global, disk: &mut D) -> Result<Seen, OpenFault>
    ensures seen { D.honest disk.old → IfOk result (λ seen. IsSeen seen (D.content disk.old)) }
    ensures small { IfOk result (λ seen. seen.count ≤ 2 ^ 61) }
    ensures refused { D.honest disk.old → IfErr result (λ fault. IsStateRefused fault (D.content disk.old)) }
    ensures kind { IfErr result IsOfReading }
    ensures reads { ReadsOnly D.Disk disk.old disk.new }
    ensures cause { IsOpenCaused (D.failures disk.old) (D.failures disk.new) result }
{
    let (area, broker) = read_state(alloc, disk)?;
    Ok(Seen {
        version: area.version(),
        area: area.number(),
        used: area.used(),
        count: broker.count(),
        held: broker.held(),
    })
}
