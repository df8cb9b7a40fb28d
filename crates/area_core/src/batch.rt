//! The records of a batch of commands.

ghost use Rattle.std.specs.Prelude.{◌≡◌, ◌≤◌, ◌^◌, ◌++◌, IfSome, None, OnOk, IfOk, length, ◌+◌, ◌<◌, IfErr, take, ℕ};
ghost use Rattle.std.specs.List.{AllByRecursion};
ghost use Rattle.command_core.specs.Commands.{CommandValue};
ghost use Rattle.command_core.specs.Spellings.{Spells};
ghost use Rattle.area_core.specs.Areas.{HasRecord, closed, commands, records};
ghost use Rattle.area_core.specs.Damage.{IsRecordRead, IsRecordTold, told_of};

use crate::ReadFault;
use command_core::{Command, DecodeFault, Entry, decode};
use std::alloc::{AllocError, Global};

// How many bytes the records have, or `None` if that number does not fit into eight bytes.
pub(crate) fn records_len<B>(batch: &[Entry<B>]) -> Option<u64>
    ensures some { IfSome result (λ total. total ≡ length (records (commands batch.now))) }
    ensures form { IfSome result (λ _. AllByRecursion HasRecord (commands batch.now)) }
    ensures none { result ≡ None → 2 ^ 64 ≤ length (records (commands batch.now)) }
{
    let mut total: u64 = 0;
    for entry in batch {
        total = total.checked_add(entry.bytes().len() as u64)?;
    }
    Some(total)
}

fn put_records<B>(out: &mut Vec<u8>, batch: &[Entry<B>]) -> Result<(), AllocError>
    ensures { OnOk result (out.new.items ≡ out.old.items ++ records (commands batch.now)) }
{
    for entry in batch {
        out.extend_from_slice(entry.bytes())?;
    }
    Ok(())
}

// The number of bytes of the records, the records, and a closed gate. The room is made once.
pub(crate) fn block_of<B>(
    alloc: Global,
    batch: &[Entry<B>],
    total: u64,
) -> Result<Vec<u8>, AllocError>
    requires { total ≡ length (records (commands batch.now)) }
    ensures { IfOk result (λ bytes. bytes.items ≡ closed (records (commands batch.now))) }
{
    let mut out = Vec::with_capacity(alloc, (total as usize).saturating_add(9))?;
    out.extend_from_slice(&total.to_be_bytes())?;
    put_records(&mut out, batch)?;
    out.push(0)?;
    Ok(out)
}

// Reads the record that begins the bytes, adds its command to those before it, and answers how long it is.
fn read_record(
    alloc: Global,
    bytes: &[u8],
    commands: &mut Vec<Command>,
) -> Result<usize, DecodeFault>
    ensures read { IfOk result (λ size. IsRecordRead bytes.now size commands.old.items commands.new.items) }
    ensures none { IfErr result (λ fault. fault ≡ DecodeFault.NoSpelling
        → (c : CommandValue) (n : ℕ) → Spells (take n bytes.now) c → ⊥) }
{
    let (command, size) = decode(alloc, bytes)?;
    commands.push(command).map_err(AllocError::from)?;
    Ok(size)
}

// The fault if no record that begins at that place was read.
fn told(fault: DecodeFault, at: u64) -> ReadFault
    ensures { result ≡ told_of fault at }
{
    match fault {
        DecodeFault::NoSpelling => ReadFault::Damaged(at),
        DecodeFault::Memory(refused) => ReadFault::Memory(refused),
    }
}

// The commands whose records these bytes are, one after another. If some of the bytes are no record, `Damaged` names the first of them,
// counted from that place on.
pub(crate) fn commands_of(
    alloc: Global,
    bytes: &[u8],
    place: u64,
) -> Result<Vec<Command>, ReadFault>
    requires { place + length bytes.now < 2 ^ 64 }
    ensures whole { IfOk result (λ commands. bytes.now ≡ records commands.items) }
    ensures each { IfOk result (λ commands. AllByRecursion HasRecord commands.items) }
    ensures refused { IfErr result (λ fault. IsRecordTold fault place bytes.now) }
{
    let mut commands = Vec::new(alloc);
    let mut rest = bytes;
    while !rest.is_empty() {
        match read_record(alloc, rest, &mut commands) {
            Ok(size) => (_, rest) = rest.split_at(size),
            Err(fault) => {
                let offset = bytes.len() - rest.len();
                return Err(told(fault, place + offset as u64));
            }
        }
    }
    Ok(commands)
}
