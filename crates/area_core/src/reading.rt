//! An area is read, from its snapshot on.

ghost use Rattle.std.specs.Prelude.{◌≡◌, ◌+◌, ◌*◌, ◌≤◌, ◌<◌, ◌^◌, [], false, length, take, drop, IfErr, IfOk, OnErr};
ghost use Rattle.std.specs.Int.{w64, to_be_bytes};
ghost use Rattle.area_core.specs.Areas.{word_of};
ghost use Rattle.area_core.specs.Damage.{IsBlockTold, IsFrontTold, IsLengthTold, IsReadCaused, IsWordTold};
ghost use Rattle.area_core.specs.Held.{LiesOn, gate_at};
ghost use Rattle.area_core.specs.Reading.{GoesOn, IsPast, MovesGate, ReadsNext, ReadsOnly};

use crate::batch::commands_of;
use crate::header::{fetch, fetch_bytes, fetch_number, header};
use crate::put::COUNTED;
use crate::{Area, ReadFault, Version};
use command_core::Command;
use disk_core::Disk;
use std::alloc::Global;

// The version of the area of `size` bytes that begins at that place, and how many bytes its snapshot has. It reports an unknown version
// before it looks whether the snapshot fits.
fn first_word<D: Disk>(disk: &mut D, at: u64, size: u64) -> Result<(Version, u64), ReadFault>
    requires room { at + 8 ≤ length (D.content disk.old) }
    requires least { 9 ≤ size }
    ensures told { D.honest disk.old →
        IfOk result (λ r. take 8 (drop at (D.content disk.old)) ≡ to_be_bytes w64 (word_of r.0 r.1)) }
    ensures seven { IfOk result (λ r. r.1 < 2 ^ 56) }
    ensures fits { IfOk result (λ r. r.1 + 9 ≤ size) }
    ensures refused { D.honest disk.old → IfErr result (λ fault. IsWordTold fault at size (D.content disk.old)) }
    ensures reads { ReadsOnly D.Disk disk.old disk.new }
    ensures cause { IsReadCaused (D.failures disk.old) (D.failures disk.new) result }
{
    let word = fetch_number(disk, at)?;
    let Some(version) = Version::of(word / COUNTED) else {
        return Err(ReadFault::Damaged(at));
    };
    let length = word % COUNTED;
    if length > size - 9 {
        return Err(ReadFault::Damaged(at));
    }
    Ok((version, length))
}

impl Area {
    /// The live area at its first gate, before any block is read, and the bytes of its snapshot. Nothing is written.
    pub fn front<D: Disk>(alloc: Global, disk: &mut D) -> Result<(Area, Vec<u8>), ReadFault>
        ensures front { D.honest disk.old →
            IfOk result (λ r. IsPast r.0 r.1.items [] (D.content disk.old)) }
        ensures refused { D.honest disk.old → IfErr result (λ fault. IsFrontTold fault (D.content disk.old)) }
        ensures whole { IfOk result (λ r. r.0.broken ≡ false) }
        ensures least { IfOk result (λ r. 4096 ≤ r.0.size) }
        ensures room { IfOk result (λ r. 32 + 2 * r.0.size ≤ length (D.content disk.new)) }
        ensures reads { ReadsOnly D.Disk disk.old disk.new }
        ensures cause { IsReadCaused (D.failures disk.old) (D.failures disk.new) result }
    {
        let (size, selector) = header(disk)?;
        let mut area = Area {
            version: Version::Two,
            size,
            selector,
            gate: 8,
            written: 0,
            broken: false,
        };
        let base = area.begins();
        let (version, length) = first_word(disk, base, size)?;
        let snapshot = fetch_bytes(alloc, disk, base + 8, length)?;
        area.version = version;
        area.gate = 8 + length;
        Ok((area, snapshot))
    }

    // How many bytes the records behind the gate at that place of the disk have. The gate is open.
    fn block_len<D: Disk>(&self, disk: &mut D, at: u64) -> Result<u64, ReadFault>
        requires room { LiesOn self.now (D.content disk.old) }
        requires place { at ≡ gate_at self.now }
        ensures told { D.honest disk.old →
            IfOk result (λ n. take 8 (drop (at + 1) (D.content disk.old)) ≡ to_be_bytes w64 n) }
        ensures some { IfOk result (λ n. 1 ≤ n) }
        ensures fits { IfOk result (λ n. self.now.gate + 10 + n ≤ self.now.size) }
        ensures refused { D.honest disk.old → IfErr result (λ fault. IsLengthTold fault self.now (D.content disk.old)) }
        ensures reads { ReadsOnly D.Disk disk.old disk.new }
        ensures cause { IsReadCaused (D.failures disk.old) (D.failures disk.new) result }
    {
        let left = self.size - self.gate;
        if left < 10 {
            return Err(ReadFault::Damaged(at + 1));
        }
        let count = fetch_number(disk, at + 1)?;
        if count == 0 || count > left - 10 {
            return Err(ReadFault::Damaged(at + 1));
        }
        Ok(count)
    }

    /// The commands of the next block, or `None` at the first closed gate. Nothing is written. After a refusal the area is where it was.
    pub fn next_block<D: Disk>(
        &mut self,
        alloc: Global,
        disk: &mut D,
    ) -> Result<Option<Vec<Command>>, ReadFault>
        requires room { LiesOn self.old (D.content disk.old) }
        ensures block { D.honest disk.old →
            IfOk result (ReadsNext (λ commands. commands.items) self.old self.new (D.content disk.old)) }
        ensures refused { D.honest disk.old → IfErr result (λ fault. IsBlockTold fault self.old (D.content disk.old)) }
        ensures same { OnErr result (self.new ≡ self.old) }
        ensures grows { IfOk result (MovesGate self.old self.new) }
        ensures place { GoesOn self.old self.new }
        ensures reads { ReadsOnly D.Disk disk.old disk.new }
        ensures cause { IsReadCaused (D.failures disk.old) (D.failures disk.new) result }
    {
        let at = self.begins() + self.gate;
        let mut gate = [0];
        fetch(disk, at, &mut gate)?;
        if gate[0] != 1 {
            return Ok(None);
        }
        let count = self.block_len(disk, at)?;
        let bytes = fetch_bytes(alloc, disk, at + 9, count)?;
        let commands = commands_of(alloc, &bytes, at + 9)?;
        self.gate += 9 + count;
        Ok(Some(commands))
    }
}
