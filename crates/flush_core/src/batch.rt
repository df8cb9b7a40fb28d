//! How wide a block is, and which of the entries that wait go into one.

ghost use Rattle.std.specs.Prelude.{◌≡◌, ◌+◌, ◌-◌, ◌<◌, ◌≤◌, List, take, IfOk, length, ℕ};
ghost use Rattle.disk_core.specs.Calls.{Lasts};
ghost use Rattle.command_core.specs.Commands.{CommandValue};
ghost use Rattle.area_core.specs.Areas.{commands, records};
ghost use Rattle.recover_core.specs.Calls.{StandsThroughout};
ghost use Rattle.recover_core.specs.Stores.{disk_of, size_of};
ghost use Rattle.flush_core.specs.FlusherCalls.{AddsFirst, RefusesFirst};
ghost use Rattle.flush_core.specs.Room.{Fits, IsTooLong};

use area_core::AreaFault;
use command_core::Entry;
use disk_core::Disk;
use recover_core::Store;
use std::alloc::Global;

// What a block has beside its records: eight bytes of their length, and the closed gate after them.
const BESIDE_RECORDS: u64 = 9;

// How many bytes the records of a block may have that fits after `used` bytes of an area of that size; 0 if no block fits.
fn records_room(size: u64, used: u64) -> u64
    ensures fits { (cs : List CommandValue) → 0 < result → length (records cs) ≤ result → Fits size used cs }
    ensures long { (cs : List CommandValue) → result < length (records cs) → IsTooLong size used cs }
    ensures room { result ≡ size - used - 9 }
{
    size.saturating_sub(used).saturating_sub(BESIDE_RECORDS)
}

// How many of the entries, from the first on, have records of at most `room` bytes together.
fn count_within<B>(room: u64, batch: &[Entry<B>]) -> usize
    ensures within { result ≤ length batch.now }
    ensures fits { length (records (take result (commands batch.now))) ≤ room }
    ensures more { result < length batch.now → room < length (records (take (result + 1) (commands batch.now))) }
{
    let mut left = room;
    let mut count = 0;
    for entry in batch {
        let Some(less) = left.checked_sub(entry.bytes().len() as u64) else {
            return count;
        };
        left = less;
        count += 1;
    }
    count
}

/// How many of the entries, from the first on, have a block that fits after `used` bytes of an area of that size; 1 if not even the first
/// has.
pub(crate) fn count_fitting<B>(size: u64, used: u64, batch: &[Entry<B>]) -> usize
    ensures within { result ≤ length batch.now }
    ensures some { 0 < length batch.now → 0 < result }
    ensures one { IsTooLong size used (take result (commands batch.now)) → IsTooLong size used (take 1 (commands batch.now)) }
    ensures more { result < length batch.now → IsTooLong size used (take (result + 1) (commands batch.now)) }
{
    let room = records_room(size, used);
    count_within(room, batch).max(1).min(batch.len())
}

/// `bytes` less the bytes of the records of these entries.
pub(crate) fn bytes_without<B>(bytes: u64, batch: &[Entry<B>]) -> u64
    ensures { result ≡ bytes - length (records (commands batch.now)) }
{
    let mut left = bytes;
    for entry in batch {
        left = left.saturating_sub(entry.bytes().len() as u64);
    }
    left
}

/// Makes the first `count` entries durable, in one block, and takes out and answers those after them. `Full` and `Memory` leave the disk as
/// it was.
pub(crate) fn append_first<D: Disk, B: Drop>(
    alloc: Global,
    journal: &mut Store<D>,
    batch: &mut Vec<Entry<B>>,
    count: usize,
) -> Result<Vec<Entry<B>>, AreaFault>
    requires some { 0 < count }
    requires within { count ≤ length batch.old.items }
    ensures any_moment { StandsThroughout D.Disk journal.old journal.new (commands (take count batch.old.items)) }
    ensures adds { IfOk result (λ rest. AddsFirst D.Disk journal.old journal.new batch.old.items batch.new.items rest.items count) }
    ensures refuses { RefusesFirst D.Disk journal.old journal.new (take count batch.old.items) result }
    ensures size { size_of journal.new ≡ size_of journal.old }
    ensures lasts { Lasts D.Disk (disk_of journal.old) (disk_of journal.new) }
{
    let rest = match batch.split_off(count) {
        Ok(rest) => rest,
        Err(refused) => return Err(AreaFault::Memory(refused)),
    };
    match journal.append(alloc, batch) {
        Ok(()) => Ok(rest),
        Err(fault) => {
            drop(rest);
            Err(fault)
        }
    }
}

/// How wide a flusher's blocks are: two numbers that the program chooses, with a type to stand for them. Both must be at least 1; otherwise
/// a flusher takes no command.
pub trait Width {
    /// How many commands a block has at most.
    const COMMANDS: usize;

    /// A block whose records have this many bytes takes no further command.
    const BYTES: u64;

    ghost COMMANDS: { ℕ };

    ghost BYTES: { ℕ };
}
