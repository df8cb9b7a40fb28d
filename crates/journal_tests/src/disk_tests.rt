//! Disks of six bytes in memory that are written, synced, read and stopped, some of whose calls fail.

use crate::journal_steps::{FILLS, FailingCalls, expect, expect_none, is_text};
use disk_core::{
    Call, DeviceCause, DeviceFault, Disk, FailOnce, FileAt, FileDisk, FuseDisk, MemDisk, OpenError,
    publish,
};
use std::alloc::Global;
use std::fs;

// After it nothing is unsynced.
const CRASHED: [DiskTrial<'static>; 1] = [(
    FailingCalls::None,
    &[],
    &[
        DiskStep::Write(2, &[5, 6]),
        DiskStep::Read([0, 0, 5, 6, 0, 0]),
        DiskStep::Fill,
        DiskStep::ReadFilled([0, 0, 0, 0, 0, 0], 2, 4),
        DiskStep::Stop(Some(0x55)),
        DiskStep::ReadFilled([0, 0, 0, 0, 0, 0], 2, 4),
    ],
)];

const SYNCED: [DiskTrial<'static>; 1] = [(
    FailingCalls::None,
    &[],
    &[
        DiskStep::Write(2, &[5, 6]),
        DiskStep::Sync,
        DiskStep::Fill,
        DiskStep::Read([0, 0, 5, 6, 0, 0]),
    ],
)];

// The fourth call is the sync that fails.
const FAILED_SYNC: [DiskTrial<'static>; 1] = [(
    FailingCalls::After(3),
    &[
        DiskStep::Write(2, &[5, 6]),
        DiskStep::Sync,
        DiskStep::Write(3, &[7, 8]),
        DiskStep::Sync,
    ],
    &[
        DiskStep::Read([0, 0, 5, 7, 8, 0]),
        DiskStep::Fill,
        DiskStep::ReadFilled([0, 0, 5, 6, 0, 0], 3, 5),
    ],
)];

// Some of the writes overlap, some are empty, and some reach the end of the disk.
const RANGES: [DiskTrial<'static>; 1] = [(
    FailingCalls::None,
    &[],
    &[
        DiskStep::Write(0, &[1, 2, 3]),
        DiskStep::Sync,
        DiskStep::Write(0, &[4, 4]),
        DiskStep::Write(1, &[5, 5]),
        DiskStep::Write(5, &[9]),
        DiskStep::Write(6, &[]),
        DiskStep::Write(3, &[]),
        DiskStep::Read([4, 5, 5, 0, 0, 9]),
        DiskStep::Stop(None),
        DiskStep::Read([1, 2, 3, 0, 0, 0]),
        DiskStep::Write(5, &[9]),
        DiskStep::Sync,
        DiskStep::Stop(Some(0x37)),
        DiskStep::Read([1, 2, 3, 0, 0, 9]),
    ],
)];

const CALLED: &[Call] = &[
    Call::Write { at: 0, len: 1 },
    Call::Sync,
    Call::Write { at: 1, len: 2 },
    Call::Read { at: 0, len: 6 },
];

// One byte is synced and two more are written. Then the disk stops at an image, if it may, and nothing is unsynced; if not, the two bytes
// still are.
const STOPS: [DiskTrial<'static>; 4] = [
    (
        FailingCalls::None,
        &[],
        &[
            DiskStep::Write(0, &[1]),
            DiskStep::Sync,
            DiskStep::Write(1, &[2, 2]),
            DiskStep::Look,
            DiskStep::Called(CALLED),
            DiskStep::StopAt(&[1, 9, 0, 0, 0, 0], true),
            DiskStep::Read([1, 9, 0, 0, 0, 0]),
            DiskStep::Stop(None),
            DiskStep::Read([1, 9, 0, 0, 0, 0]),
        ],
    ),
    (
        FailingCalls::None,
        &[],
        &[
            DiskStep::Write(0, &[1]),
            DiskStep::Sync,
            DiskStep::Write(1, &[2, 2]),
            DiskStep::Look,
            DiskStep::Called(CALLED),
            DiskStep::StopAt(&[1, 8, 9, 0, 0, 0], true),
            DiskStep::Read([1, 8, 9, 0, 0, 0]),
            DiskStep::Stop(None),
            DiskStep::Read([1, 8, 9, 0, 0, 0]),
        ],
    ),
    (
        FailingCalls::None,
        &[],
        &[
            DiskStep::Write(0, &[1]),
            DiskStep::Sync,
            DiskStep::Write(1, &[2, 2]),
            DiskStep::Look,
            DiskStep::Called(CALLED),
            DiskStep::StopAt(&[7, 8, 9, 0, 0, 0], false),
            DiskStep::Read([1, 2, 2, 0, 0, 0]),
            DiskStep::Stop(None),
            DiskStep::Read([1, 0, 0, 0, 0, 0]),
        ],
    ),
    (
        FailingCalls::None,
        &[],
        &[
            DiskStep::Write(0, &[1]),
            DiskStep::Sync,
            DiskStep::Write(1, &[2, 2]),
            DiskStep::Look,
            DiskStep::Called(CALLED),
            DiskStep::StopAt(&[1, 8, 9, 0, 0], false),
            DiskStep::Read([1, 2, 2, 0, 0, 0]),
            DiskStep::Stop(None),
            DiskStep::Read([1, 0, 0, 0, 0, 0]),
        ],
    ),
];

// A write, a sync, a write, a sync and a read.
const FIVE: &[DiskStep<'static>] = &[
    DiskStep::Write(0, &[1, 1]),
    DiskStep::Sync,
    DiskStep::Write(1, &[2, 2]),
    DiskStep::Sync,
    DiskStep::Look,
];

// What is left of the five calls after a crash: if both writes are stable, if the first is, and if none is.
const BOTH: &[DiskStep<'static>] = &[
    DiskStep::Fill,
    DiskStep::ReadFilled([1, 2, 2, 0, 0, 0], 0, 0),
];

const FIRST: &[DiskStep<'static>] = &[
    DiskStep::Fill,
    DiskStep::ReadFilled([1, 1, 0, 0, 0, 0], 1, 3),
];

const NEITHER: &[DiskStep<'static>] = &[
    DiskStep::Fill,
    DiskStep::ReadFilled([0, 0, 0, 0, 0, 0], 0, 3),
];

// Of the five calls the first k pass.
const LEFT_BY_FUSE: [DiskTrial<'static>; 6] = [
    (FailingCalls::After(0), FIVE, NEITHER),
    (FailingCalls::After(1), FIVE, NEITHER),
    (FailingCalls::After(2), FIVE, FIRST),
    (FailingCalls::After(3), FIVE, FIRST),
    (FailingCalls::After(4), FIVE, BOTH),
    (FailingCalls::After(5), FIVE, BOTH),
];

// Of the five calls one fails, or none. The second sync makes both writes stable, the first only the first write.
const LEFT_BY_FAILURE: [DiskTrial<'static>; 6] = [
    (FailingCalls::Once(0), FIVE, BOTH),
    (FailingCalls::Once(1), FIVE, BOTH),
    (FailingCalls::Once(2), FIVE, BOTH),
    (FailingCalls::Once(3), FIVE, FIRST),
    (FailingCalls::Once(4), FIVE, BOTH),
    (FailingCalls::Once(5), FIVE, BOTH),
];

// A call that fails writes the fifth byte, which is then as unsynced as a byte that was written.
const FAILED_WRITE: [DiskTrial<'static>; 1] = [(
    FailingCalls::Once(0),
    &[DiskStep::Write(4, &[9])],
    &[
        DiskStep::Fill,
        DiskStep::ReadFilled([0, 0, 0, 0, 0, 0], 4, 5),
    ],
)];

const SOME: [u8; 6] = [0, 5, 6, 0, 0, 9];

const PLACES: [u64; 6] = [0, 4_095, 5_000, 8_191, 11_990, 5_000];

const FOUND: [(u64, u8); 6] = [
    (0, 1),
    (4_095, 2),
    (5_000, 6),
    (8_191, 4),
    (11_990, 5),
    (6_000, 0),
];

const COPY: &str = "journal_tests_disk_copy";

const FOLDER: &str = "journal_tests_disk";

const PATH: &str = "journal_tests_disk/disk";

const KEPT: [(&str, FileStep); 5] = [
    (FOLDER, FileStep::RemoveFolder(false)),
    (FOLDER, FileStep::MakeFolder),
    (
        PATH,
        FileStep::Does(FileUse::Create(6), FileWork::WriteSome),
    ),
    (PATH, FileStep::Does(FileUse::Open, FileWork::FindSome)),
    (FOLDER, FileStep::RemoveFolder(true)),
];

const OTHER_FOLDER: &str = "journal_tests_no_disk";

const OTHER_PATH: &str = "journal_tests_no_disk/disk";

const NO_DISK: [(&str, FileStep); 6] = [
    (OTHER_FOLDER, FileStep::RemoveFolder(false)),
    (OTHER_FOLDER, FileStep::MakeFolder),
    (OTHER_PATH, FileStep::Told(FileUse::Open, FileTold::Refused)),
    (
        OTHER_PATH,
        FileStep::Told(FileUse::Create(u64::MAX), FileTold::Refused),
    ),
    (
        OTHER_PATH,
        FileStep::Told(FileUse::Create(6), FileTold::Opened),
    ),
    (
        OTHER_PATH,
        FileStep::Told(FileUse::Create(6), FileTold::Exists),
    ),
];

const LOCKED: &str = "journal_tests_disk_locked";

const LOCKS: [(&str, FileStep); 6] = [
    (LOCKED, FileStep::Remove(false)),
    (LOCKED, FileStep::Told(FileUse::Lock, FileTold::Refused)),
    (LOCKED, FileStep::Told(FileUse::Create(6), FileTold::Opened)),
    (
        LOCKED,
        FileStep::Does(FileUse::Lock, FileWork::LeaveTheRest),
    ),
    (LOCKED, FileStep::Told(FileUse::Lock, FileTold::Opened)),
    (LOCKED, FileStep::Remove(true)),
];

const SHORT: &str = "journal_tests_disk_cut";

const CUT: [(&str, FileStep); 3] = [
    (SHORT, FileStep::Remove(false)),
    (SHORT, FileStep::Does(FileUse::Create(6), FileWork::Cut)),
    (SHORT, FileStep::Remove(true)),
];

const NAMELESS_FOLDER: &str = "journal_tests_disk_nameless";

const NAMELESS: &str = "journal_tests_disk_nameless/disk";

const WITHOUT_A_NAME: [(&str, FileStep); 5] = [
    (NAMELESS_FOLDER, FileStep::RemoveFolder(false)),
    (NAMELESS_FOLDER, FileStep::MakeFolder),
    (
        NAMELESS,
        FileStep::Told(FileUse::Create(6), FileTold::Opened),
    ),
    (NAMELESS, FileStep::Does(FileUse::Lock, FileWork::LoseName)),
    (NAMELESS_FOLDER, FileStep::RemoveFolder(true)),
];

const LOST: &str = "journal_tests_disk_lost";

const LOST_FILES: [(&str, FileStep); 7] = [
    (LOST, FileStep::Remove(false)),
    (LOST, FileStep::Told(FileUse::Create(64), FileTold::Opened)),
    (LOST, FileStep::Does(FileUse::Lock, FileWork::BeReplaced)),
    (LOST, FileStep::Does(FileUse::Lock, FileWork::BeOverwritten)),
    (LOST, FileStep::Does(FileUse::Lock, FileWork::WriteSome)),
    (LOST, FileStep::Does(FileUse::Lock, FileWork::LoseName)),
    (LOST, FileStep::Told(FileUse::Lock, FileTold::Refused)),
];

const FAR: &str = "journal_tests_disk_far";

const FAR_WRITES: [(&str, FileStep); 4] = [
    (FAR, FileStep::Remove(false)),
    (
        FAR,
        FileStep::Does(FileUse::Create(12_000), FileWork::WriteEach),
    ),
    (FAR, FileStep::Does(FileUse::Open, FileWork::FindEach)),
    (FAR, FileStep::Remove(true)),
];

// A step with a disk of six bytes.
#[derive(Clone, Copy)]
enum DiskStep<'a> {
    // These bytes are written, from there on.
    Write(u64, &'a [u8]),
    Sync,
    // It is read, whatever it has.
    Look,
    // It is read, and has these bytes.
    Read([u8; 6]),
    // It stops, and its unsynced bytes become that.
    Stop(Option<u8>),
    // It stops with the fill of the trial.
    Fill,
    // It is read, and has these bytes; but from the one place up to the other the fill of the trial, if it has one.
    ReadFilled([u8; 6], usize, usize),
    // It stops at this image, if it may.
    StopAt(&'a [u8], bool),
    // It was asked for these calls.
    Called(&'a [Call]),
}

// Which calls fail of a new disk, with which the first steps are made, and the steps that are then made with the disk below. That is tried
// with each fill.
type DiskTrial<'a> = (FailingCalls, &'a [DiskStep<'a>], &'a [DiskStep<'a>]);

pub(crate) fn write<D: Disk>(disk: &mut D, at: u64, bytes: &[u8]) -> Result<(), DeviceFault> {
    let size = disk.size();
    if at > size || bytes.len() as u64 > size - at {
        return Err(DeviceFault);
    }
    disk.write_at(at, bytes)
}

// The content of a disk of six bytes.
pub(crate) fn read<D: Disk>(disk: &mut D) -> Result<[u8; 6], DeviceFault> {
    let mut bytes = [0xee; 6];
    if disk.size() != 6 {
        return Err(DeviceFault);
    }
    disk.read_at(0, &mut bytes)?;
    Ok(bytes)
}

// Makes a call, and answers whether it passes and comes to what it should.
fn calls<D: Disk>(disk: &mut D, step: DiskStep<'_>) -> bool {
    match step {
        DiskStep::Write(at, bytes) => write(disk, at, bytes).is_ok(),
        DiskStep::Sync => disk.sync().is_ok(),
        DiskStep::Look => read(disk).is_ok(),
        DiskStep::Read(wanted) => read(disk) == Ok(wanted),
        _ => false,
    }
}

// The bytes, with the fill from one place up to another.
fn filled(bytes: [u8; 6], from: usize, to: usize, fill: Option<u8>) -> [u8; 6] {
    let mut bytes = bytes;
    for (place, byte) in bytes.iter_mut().enumerate() {
        if place >= from && place < to {
            *byte = fill.unwrap_or(*byte);
        }
    }
    bytes
}

fn makes(disk: &mut MemDisk, step: DiskStep<'_>, fill: Option<u8>) -> bool {
    match step {
        DiskStep::Stop(fill) => {
            disk.crash(fill);
            true
        }
        DiskStep::Fill => {
            disk.crash(fill);
            true
        }
        DiskStep::ReadFilled(wanted, from, to) => read(disk) == Ok(filled(wanted, from, to, fill)),
        DiskStep::StopAt(image, may_be) => disk.crash_to(image) == may_be,
        DiskStep::Called(calls) => disk.calls() == calls,
        call => calls(disk, call),
    }
}

fn makes_all(disk: &mut MemDisk, steps: &[DiskStep<'_>], fill: Option<u8>) -> bool {
    for step in steps {
        if !makes(disk, *step, fill) {
            return false;
        }
    }
    true
}

// Whether the call of that number passes.
fn passes(failing: FailingCalls, number: u64) -> bool {
    match failing {
        FailingCalls::After(passed) | FailingCalls::OnceOpen(passed) => number < passed,
        FailingCalls::Once(call) => number != call,
        FailingCalls::None => true,
    }
}

// Whether those calls fail that should, and no others.
fn fails_where<D: Disk>(disk: &mut D, failing: FailingCalls, steps: &[DiskStep<'_>]) -> bool {
    for (number, step) in steps.iter().enumerate() {
        if calls(disk, *step) != passes(failing, number as u64) {
            return false;
        }
    }
    true
}

fn fuses(slot: MemDisk, passed: u64, steps: &[DiskStep<'_>]) -> (MemDisk, bool) {
    let mut fuse = FuseDisk::new(slot, passed);
    let is_right = fails_where(&mut fuse, FailingCalls::After(passed), steps);
    (fuse.into_inner(), is_right)
}

fn fails_once(slot: MemDisk, call: u64, steps: &[DiskStep<'_>]) -> (MemDisk, bool) {
    let mut disk = FailOnce::new(slot, call);
    let is_right = fails_where(&mut disk, FailingCalls::Once(call), steps);
    let count = steps.len() as u64;
    let is_counted = disk.made() == count && disk.has_failed() == (call < count);
    (disk.into_inner(), is_right && is_counted)
}

// Whether all comes as it should of a trial with this fill. Where no call fails, all steps are the others.
fn plays(
    alloc: Global,
    failing: FailingCalls,
    first: &[DiskStep<'_>],
    then: &[DiskStep<'_>],
    fill: Option<u8>,
) -> bool {
    let Ok(disk) = MemDisk::new(alloc, 6) else {
        return false;
    };
    let (mut disk, is_right) = match failing {
        FailingCalls::After(passed) => fuses(disk, passed, first),
        FailingCalls::Once(call) => fails_once(disk, call, first),
        _ => (disk, first.is_empty()),
    };
    let is_so = makes_all(&mut disk, then, fill);
    drop(disk);
    is_right && is_so
}

fn plays_with_each(
    alloc: Global,
    failing: FailingCalls,
    first: &[DiskStep<'_>],
    then: &[DiskStep<'_>],
) -> bool {
    for fill in FILLS {
        if !plays(alloc, failing, first, then, fill) {
            return false;
        }
    }
    true
}

// The first of the trials of which something else comes.
fn first_wrong(alloc: Global, trials: &[DiskTrial<'_>]) -> Option<usize> {
    for (place, (failing, first, then)) in trials.iter().enumerate() {
        if !plays_with_each(alloc, *failing, first, then) {
            return Some(place);
        }
    }
    None
}

#[test]
fn a_crash_fills_what_was_written_since_the_last_sync(rt: HostRuntime) {
    expect_none(&rt, first_wrong(rt.alloc(), &CRASHED));
}

#[test]
fn a_crash_leaves_what_was_synced(rt: HostRuntime) {
    expect_none(&rt, first_wrong(rt.alloc(), &SYNCED));
}

#[test]
fn a_failed_sync_makes_nothing_stable(rt: HostRuntime) {
    expect_none(&rt, first_wrong(rt.alloc(), &FAILED_SYNC));
}

#[test]
fn ranges_may_overlap_be_empty_and_end_the_disk(rt: HostRuntime) {
    expect_none(&rt, first_wrong(rt.alloc(), &RANGES));
}

// Each call may be refused memory.
fn keeps_to_the_model(disk: &mut MemDisk) -> bool {
    let _ = write(disk, 0, &[1, 1]);
    let synced = disk.sync().is_ok();
    let _ = write(disk, 1, &[2, 2]);
    let _ = write(disk, 5, &[3]);
    disk.crash(Some(0x37));
    let first = if synced { 1 } else { 0x37 };
    read(disk) == Ok([first, 0x37, 0x37, 0, 0, 0x37])
}

// A disk for which memory is refused is not made.
fn is_kept_to(alloc: Global) -> bool {
    match MemDisk::new(alloc, 6) {
        Ok(mut disk) => {
            let is_right = keeps_to_the_model(&mut disk);
            drop(disk);
            is_right
        }
        Err(_) => true,
    }
}

// `rt try --test --fail-alloc N` runs it with the Nth allocation refused.
#[test]
fn a_call_that_is_refused_memory_keeps_to_the_model(rt: HostRuntime) {
    expect(&rt, is_kept_to(rt.alloc()));
}

#[test]
fn a_stop_leaves_an_image_and_nothing_else(rt: HostRuntime) {
    expect_none(&rt, first_wrong(rt.alloc(), &STOPS));
}

#[test]
fn a_fuse_passes_so_many_calls(rt: HostRuntime) {
    expect_none(&rt, first_wrong(rt.alloc(), &LEFT_BY_FUSE));
}

#[test]
fn a_single_call_fails_and_every_other_passes(rt: HostRuntime) {
    expect_none(&rt, first_wrong(rt.alloc(), &LEFT_BY_FAILURE));
}

#[test]
fn a_write_that_fails_leaves_its_range_unsynced(rt: HostRuntime) {
    expect_none(&rt, first_wrong(rt.alloc(), &FAILED_WRITE));
}

// Whether a payload that was published over a disk that fails after k calls is there as a whole or not at all. It is published, and then
// there, only if no call fails.
fn is_all_or_nothing(alloc: Global, k: u64, fill: Option<u8>) -> bool {
    let Ok(disk) = MemDisk::new(alloc, 6) else {
        return false;
    };
    let mut fuse = FuseDisk::new(disk, k);
    let done = publish(&mut fuse, &[7, 8, 9]).is_ok();
    let mut disk = fuse.into_inner();
    disk.crash(fill);
    let bytes = read(&mut disk);
    drop(disk);
    match bytes {
        Ok(bytes) => {
            let is_there = bytes == [1, 7, 8, 9, 0, 0];
            done == (k == 4) && (is_there || bytes[0] != 1 && !done)
        }
        Err(_) => false,
    }
}

// The first number of calls after which it is otherwise.
fn first_torn(alloc: Global) -> Option<u64> {
    for at in 0..20_u64 {
        if !is_all_or_nothing(alloc, at / 4, FILLS[(at % 4) as usize]) {
            return Some(at / 4);
        }
    }
    None
}

#[test]
fn a_payload_is_there_as_a_whole_or_not_at_all(rt: HostRuntime) {
    expect(&rt, first_torn(rt.alloc()).is_none());
}

// How a file becomes a disk.
#[derive(Clone, Copy)]
enum FileUse {
    // It is made, with so many bytes.
    Create(u64),
    Open,
    Lock,
}

// What comes of that.
#[derive(Clone, Copy, PartialEq, Eq)]
enum FileTold {
    Opened,
    Exists,
    Locked,
    // The system refuses it.
    Refused,
    Other,
}

// What is done with the disk.
#[derive(Clone, Copy)]
enum FileWork {
    // Three bytes are written and synced, or found.
    WriteSome,
    FindSome,
    // Ten bytes are written and synced in each place, or found.
    WriteEach,
    FindEach,
    // The same file is locked, which is refused, and opened without a lock, which is not.
    LeaveTheRest,
    // The file is cut short, and what was cut is not read.
    Cut,
    // The file is removed, and no later sync succeeds, also not one after another.
    LoseName,
    // A copy is renamed over it, with the same end.
    BeReplaced,
    // Other bytes are written over it, and neither a look nor a write succeeds.
    BeOverwritten,
}

// A step with a path.
#[derive(Clone, Copy)]
enum FileStep {
    MakeFolder,
    // A folder or a file is removed. This says whether it has to be there.
    RemoveFolder(bool),
    Remove(bool),
    // The file becomes a disk, or why it does not.
    Told(FileUse, FileTold),
    // It does, and with the disk this is done.
    Does(FileUse, FileWork),
}

fn disk_at(rt: &HostRuntime, path: &str, how: FileUse) -> Result<FileDisk, OpenError> {
    match how {
        FileUse::Create(size) => FileDisk::create(rt, path, size),
        FileUse::Open => FileDisk::open(rt, path),
        FileUse::Lock => FileDisk::open_locked(rt.alloc(), FileAt { host: *rt, path }),
    }
}

fn told(rt: &HostRuntime, path: &str, how: FileUse) -> FileTold {
    match disk_at(rt, path, how) {
        Ok(disk) => {
            drop(disk);
            FileTold::Opened
        }
        Err(OpenError::Exists) => FileTold::Exists,
        Err(OpenError::Locked) => FileTold::Locked,
        Err(OpenError::System(error)) => {
            drop(error);
            FileTold::Refused
        }
        Err(OpenError::NotAFile) => FileTold::Other,
    }
}

// Three bytes, synced.
fn write_some(disk: &mut FileDisk) -> bool {
    write(disk, 1, &[5, 6]).is_ok() && write(disk, 5, &[9]).is_ok() && disk.sync().is_ok()
}

// Ten bytes in each place, each the number of the turn.
fn write_each(disk: &mut FileDisk) -> bool {
    for (turn, at) in PLACES.iter().enumerate() {
        if write(disk, *at, &[turn as u8 + 1; 10]).is_err() || disk.sync().is_err() {
            return false;
        }
    }
    true
}

fn finds_each(disk: &mut FileDisk) -> bool {
    for (at, wanted) in FOUND {
        let mut bytes = [0xee; 10];
        let is_read = disk.size() == 12_000 && disk.read_at(at, &mut bytes).is_ok();
        if !is_read || bytes != [wanted; 10] {
            return false;
        }
    }
    true
}

// Whether the file is opened beside this disk, and has the three bytes.
fn finds_some(rt: &HostRuntime, path: &str) -> bool {
    match FileDisk::open(rt, path) {
        Ok(mut disk) => {
            let found = read(&mut disk);
            drop(disk);
            found == Ok(SOME)
        }
        Err(error) => {
            drop(error);
            false
        }
    }
}

// What a disk with the lock of its file leaves to others: the file is not locked twice, and can be opened without the lock.
fn leaves_the_rest(rt: &HostRuntime, path: &str, disk: &mut FileDisk) -> bool {
    told(rt, path, FileUse::Lock) == FileTold::Locked
        && write_some(disk)
        && finds_some(rt, path)
        && disk.size() == 6
}

// Whether nothing is written any more, for that cause.
fn has_failed(disk: &mut FileDisk, cause: DeviceCause) -> bool {
    !write_some(disk)
        && !write_some(disk)
        && disk.look() == Err(cause)
        && disk.cause() == Some(cause)
}

// Whether all was well so far.
fn is_well(disk: &mut FileDisk) -> bool {
    write_some(disk) && disk.look() == Ok(()) && disk.cause() == None
}

fn is_removed(rt: &HostRuntime, path: &str, disk: &mut FileDisk) -> bool {
    is_well(disk) && fs::remove_file(rt, path).is_ok() && has_failed(disk, DeviceCause::Removed)
}

fn is_replaced(rt: &HostRuntime, path: &str, disk: &mut FileDisk) -> bool {
    is_well(disk)
        && fs::copy(rt, path, COPY).is_ok()
        && fs::rename(rt, COPY, path).is_ok()
        && has_failed(disk, DeviceCause::Replaced)
}

fn is_overwritten(rt: &HostRuntime, path: &str, disk: &mut FileDisk) -> bool {
    is_well(disk)
        && fs::write(rt, path, [7; 64].as_slice()).is_ok()
        && has_failed(disk, DeviceCause::Overwritten)
}

fn does(rt: &HostRuntime, path: &str, disk: &mut FileDisk, work: FileWork) -> bool {
    match work {
        FileWork::WriteSome => write_some(disk),
        FileWork::FindSome => read(disk) == Ok(SOME),
        FileWork::WriteEach => write_each(disk),
        FileWork::FindEach => finds_each(disk),
        FileWork::LeaveTheRest => leaves_the_rest(rt, path, disk),
        FileWork::Cut => {
            fs::write(rt, path, b"abc".as_slice()).is_ok() && read(disk) == Err(DeviceFault)
        }
        FileWork::LoseName => is_removed(rt, path, disk),
        FileWork::BeReplaced => is_replaced(rt, path, disk),
        FileWork::BeOverwritten => is_overwritten(rt, path, disk),
    }
}

// Whether the file becomes a disk with which that is done. Its lock is there for as long as the disk is, and no longer.
fn is_done(rt: &HostRuntime, path: &str, how: FileUse, work: FileWork) -> bool {
    match disk_at(rt, path, how) {
        Ok(mut disk) => {
            let is_done = does(rt, path, &mut disk, work);
            drop(disk);
            is_done
        }
        Err(error) => {
            drop(error);
            false
        }
    }
}

fn makes_in_file(rt: &HostRuntime, path: &str, step: FileStep) -> bool {
    match step {
        FileStep::MakeFolder => fs::create_dir(rt, path).is_ok(),
        FileStep::RemoveFolder(has_to) => fs::remove_dir_all(rt, path).is_ok() || !has_to,
        FileStep::Remove(has_to) => fs::remove_file(rt, path).is_ok() || !has_to,
        FileStep::Told(how, wanted) => told(rt, path, how) == wanted,
        FileStep::Does(how, work) => is_done(rt, path, how, work),
    }
}

fn first_wrong_in_file(rt: &HostRuntime, steps: &[(&str, FileStep)]) -> Option<usize> {
    for (place, (path, step)) in steps.iter().enumerate() {
        if !makes_in_file(rt, path, *step) {
            return Some(place);
        }
    }
    None
}

#[test]
fn a_file_keeps_what_was_written(rt: HostRuntime) {
    expect_none(&rt, first_wrong_in_file(&rt, &KEPT));
}

// What opening the path says.
fn says(rt: &HostRuntime, alloc: Global, path: &str, wanted: &str) -> bool {
    let Err(error) = FileDisk::open(rt, path) else {
        return false;
    };
    let text = format!(in alloc; "{error}");
    drop(error);
    is_text(text, wanted)
}

#[test]
fn a_file_that_is_no_disk_is_not_opened(rt: HostRuntime) {
    let wrong = first_wrong_in_file(&rt, &NO_DISK);
    let is_said = says(&rt, rt.alloc(), OTHER_FOLDER, "cannot open");
    let is_removed = makes_in_file(&rt, OTHER_FOLDER, FileStep::RemoveFolder(true));
    expect_none(&rt, wrong);
    expect(&rt, is_said && is_removed);
}

#[test]
fn a_file_has_one_disk_with_its_lock(rt: HostRuntime) {
    expect_none(&rt, first_wrong_in_file(&rt, &LOCKS));
}

#[test]
fn a_file_that_is_cut_short_fails(rt: HostRuntime) {
    let wrong = first_wrong_in_file(&rt, &CUT);
    let text = format!(in rt.alloc(); "{DeviceFault}");
    let is_said = is_text(text, "device failed");
    expect_none(&rt, wrong);
    expect(&rt, is_said);
}

#[test]
fn a_file_without_a_name_is_synced_no_more(rt: HostRuntime) {
    expect_none(&rt, first_wrong_in_file(&rt, &WITHOUT_A_NAME));
}

#[test]
fn a_file_that_is_replaced_or_overwritten_fails(rt: HostRuntime) {
    expect_none(&rt, first_wrong_in_file(&rt, &LOST_FILES));
}

#[test]
fn a_file_keeps_each_of_many_writes_in_its_place(rt: HostRuntime) {
    expect_none(&rt, first_wrong_in_file(&rt, &FAR_WRITES));
}
