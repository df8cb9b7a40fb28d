ghost use Rattle.std.specs.Prelude.{◌≤◌, length};

use crate::damage_tests::{RESTARTED as RESTARTED_OF_OLD, old_journal};
use crate::journal_steps::{
    FailingCalls, JournalImage, JournalStep, OPEN, SEND, SIZE, SUBSCRIBE, StoreWork, Told, add_all,
    expect, expect_none, first_wrong, is_text, opened, play, push_sending, shows, told_of_format,
};
use area_core::{AreaFault, ReadFault, an_image_has_one_reading, format};
use broker_core::Broker;
use disk_core::{Call, Disk, FileDisk, MemDisk};
use recover_core::{
    OpenFault, Store, an_image_stands_for_one_state, open, restarts_fit_large_areas,
};
use snapshot_core::encode_state;
use std::alloc::{AllocError, Global};
use std::fs;
use std::fs::File;
use std::rt::Files;

const OPENING: (JournalStep<'static>, Told) = (
    JournalStep::Open(FailingCalls::None, StoreWork::Nothing),
    Told::Done,
);

const STOP: (JournalStep<'static>, Told) = (JournalStep::Stop(None), Told::Done);

const FORMAT: (JournalStep<'static>, Told) = (JournalStep::Format(4_096, u64::MAX), Told::Done);

const BATCHES: [&[&[u8]]; 3] = [&[OPEN, SEND], &[SEND], &[SEND]];

// An empty journal has a snapshot of 32 bytes. Four commands that leave three messages in a queue have one of 141: 32, then 16 for the
// queue's name and how many messages it has, and 31 for each message.
const OPENINGS: [(JournalStep<'static>, Told); 9] = [
    FORMAT,
    STOP,
    OPENING,
    (
        JournalStep::Opened(&[Call::Write { at: 4_128, len: 41 }]),
        Told::Done,
    ),
    FORMAT,
    (
        JournalStep::Open(FailingCalls::None, StoreWork::Add(&BATCHES)),
        Told::Done,
    ),
    STOP,
    OPENING,
    (
        JournalStep::Opened(&[Call::Write { at: 32, len: 150 }]),
        Told::Done,
    ),
];

// A snapshot of 90,138 bytes has 90,147 with its length and a gate.
const PIECES: [Call; 2] = [
    Call::Write {
        at: 262_176,
        len: 65_536,
    },
    Call::Write {
        at: 327_712,
        len: 24_611,
    },
];

const BEGINNING: [(JournalStep<'static>, Told); 2] = [
    (JournalStep::Format(262_144, u64::MAX), Told::Done),
    OPENING,
];

const THEN: [Then; 5] = [
    Then::Again,
    Then::Stop(None),
    Then::Stop(Some(0x00)),
    Then::Stop(Some(0x01)),
    Then::Stop(Some(0x37)),
];

// The restart of the state after that block: three commands, one delivery, and in `/queue/q` the message of command 1, which
// was not acknowledged.
const STOPPED_RESTART: &[u8] = b"\0\0\0\0\0\0\0\x03\0\0\0\0\0\0\0\x01\
\0\0\0\0\0\0\0\0\
\0\0\0\x01\0\0\0\x08/queue/q\
\0\0\0\x01\0\0\0\0\0\0\0\x01\0\0\0\0\0\0\0\x08/queue/q\0\0\0\0\0\x01x\
\0\0\0\0";

const STOPPED_BATCHES: [&[&[u8]]; 1] = [&[OPEN, SEND, SUBSCRIBE]];

// A step that changes nothing.
const REST: JournalStep<'static> = JournalStep::Has(0, b"STOMPJ0");

const STOPPED_OPENING: JournalStep<'static> = JournalStep::Open(
    FailingCalls::None,
    StoreWork::Nothing,
);

// After a fault the store is broken, and no longer touches the disk.
const FAILING: [(JournalStep<'static>, Told); 3] = [
    (JournalStep::Format(4_096, u64::MAX), Told::Done),
    (
        JournalStep::Open(FailingCalls::OnceOpen(1), StoreWork::AddAgain(&[OPEN])),
        Told::Broken,
    ),
    (
        JournalStep::Open(FailingCalls::None, StoreWork::Look),
        Told::Holds(0, 0),
    ),
];

// A journal whose first area is live: the empty state, a block of an Open and a SEND of `x` to `/queue/q`, and two of a SEND each.
const JOURNAL: &[u8] = b"STOMPJ02\0\0\0\0\0\0\x10\0\0\0\0\0\0\0\0\0\0\0\0\0\0\0\0\0\
\x02\0\0\0\0\0\0\x20\0\0\0\0\0\0\0\0\0\0\0\0\0\0\0\0\0\0\0\0\0\0\0\0\0\0\0\0\0\0\0\0\
\x01\0\0\0\0\0\0\0\x28\
\0\0\0\0\0\0\0\0\0\x01\0\
\0\0\0\0\0\0\0\0\0\x02\0\0\0\x08/queue/q\0\0\0\0\0\x01x\
\x01\0\0\0\0\0\0\0\x1d\
\0\0\0\0\0\0\0\0\0\x02\0\0\0\x08/queue/q\0\0\0\0\0\x01x\
\x01\0\0\0\0\0\0\0\x1d\
\0\0\0\0\0\0\0\0\0\x02\0\0\0\x08/queue/q\0\0\0\0\0\x01x\
\0";

// The restart of the journal of four commands: three messages in `/queue/q`.
const REFUSED_RESTART: &[u8] = b"\0\0\0\0\0\0\0\x04\0\0\0\0\0\0\0\0\
\0\0\0\0\
\0\0\0\0\
\0\0\0\x01\0\0\0\x08/queue/q\0\0\0\x03\
\0\0\0\0\0\0\0\x01\0\0\0\0\0\0\0\x08/queue/q\0\0\0\0\0\x01x\
\0\0\0\0\0\0\0\x02\0\0\0\0\0\0\0\x08/queue/q\0\0\0\0\0\x01x\
\0\0\0\0\0\0\0\x03\0\0\0\0\0\0\0\x08/queue/q\0\0\0\0\0\x01x\
\0\0\0\0";

#[test]
fn the_laws_ask_for_nothing() {
    an_image_has_one_reading();
    an_image_stands_for_one_state();
    restarts_fit_large_areas();
}

#[test]
fn each_refusal_to_open_has_its_text(rt: HostRuntime) {
    let reads = format!(in rt.alloc();
        "{}; {}; {}; {}; {}; {}",
        OpenFault::Read(ReadFault::NotAJournal),
        OpenFault::Read(ReadFault::Damaged(4_136)),
        OpenFault::Read(ReadFault::Device),
        OpenFault::Read(ReadFault::UnknownVersion),
        OpenFault::Read(ReadFault::TooSmall),
        OpenFault::Read(ReadFault::Memory(AllocError)),
    );
    expect(
        &rt,
        is_text(
            reads,
            "J1 not a journal; J2 damaged at 4136; J3 device failed; J7 unknown version; J8 disk too small; no memory",
        ),
    );
    let others = format!(in rt.alloc();
        "{}; {}; {}; {}; {}",
        OpenFault::CountTooLarge,
        OpenFault::Area(AreaFault::Device),
        OpenFault::Area(AreaFault::Full),
        OpenFault::Area(AreaFault::Broken),
        OpenFault::Area(AreaFault::Memory(AllocError)),
    );
    expect(
        &rt,
        is_text(
            others,
            "J5 count too large; J3 device failed; J4 journal full; J6 store broken; no memory",
        ),
    );
}

#[test]
fn opening_syncs_reads_writes_and_switches(rt: HostRuntime) {
    expect_none(&rt, play(rt.alloc(), SIZE as u64, &OPENINGS));
}

// Makes the snapshot after four commands, of which the last three were this SEND to `/queue/q`. A message is its command's number, its
// place among that command's messages, and what follows the record's first ten bytes. Those ten are a session, no receipt, and the
// operation.
fn push_three(snapshot: &mut Vec<u8>, record: &[u8]) -> Result<(), AllocError> {
    let sent = record.get(10..).unwrap_or(b"no SEND");
    snapshot.extend_from_slice(b"\0\0\0\0\0\0\0\x04\0\0\0\0\0\0\0\0\0\0\0\0\0\0\0\0")?;
    snapshot.extend_from_slice(b"\0\0\0\x01\0\0\0\x08/queue/q\0\0\0\x03")?;
    for number in 1..4u64 {
        snapshot.extend_from_slice(&number.to_be_bytes())?;
        snapshot.extend_from_slice(b"\0\0\0\0")?;
        snapshot.extend_from_slice(sent)?;
    }
    snapshot.extend_from_slice(b"\0\0\0\0")
}

// Opens the journal. A session opens and sends this record, and then twice more.
fn with_three(alloc: Global, disk: MemDisk, record: &[u8]) -> (MemDisk, Told) {
    match open(alloc, disk) {
        Ok(mut store) => {
            let added = add_all(alloc, &mut store, &[&[OPEN, record], &[record], &[record]]);
            (store.into_disk(), added)
        }
        Err((disk, fault)) => {
            drop(fault);
            (disk, Told::Other)
        }
    }
}

// The next opening of the journal writes that snapshot in two pieces. The one after that reads it.
fn is_written(alloc: Global, disk: &mut MemDisk, snapshot: &[u8]) -> bool {
    let steps = [
        (JournalStep::Stop(None), Told::Done),
        (
            JournalStep::Open(FailingCalls::None, StoreWork::Nothing),
            Told::Done,
        ),
        (JournalStep::Opened(&PIECES), Told::Done),
        (
            JournalStep::Open(FailingCalls::None, StoreWork::Compare(snapshot)),
            Told::Done,
        ),
    ];
    first_wrong(alloc, disk, &steps).is_none()
}

// Whether that is so with three messages of that record, after the journal was opened twice.
fn is_large(alloc: Global, record: &[u8], snapshot: &[u8]) -> bool {
    let Ok(mut disk) = MemDisk::new(alloc, 524_320) else {
        return false;
    };
    let wrong = first_wrong(alloc, &mut disk, &BEGINNING);
    let (mut disk, added) = with_three(alloc, disk, record);
    let is_right = is_written(alloc, &mut disk, snapshot);
    drop(disk);
    wrong.is_none() && added == Told::Done && is_right
}

// Whether that is so with bodies of 30,000 bytes, which make a snapshot of 90,138. With its length and a gate it has 90,147 bytes.
fn are_pieces_read(alloc: Global) -> bool {
    let mut record = Vec::new(alloc);
    let mut snapshot = Vec::new(alloc);
    let is_made = push_sending(&mut record, 30_000).is_ok()
        && push_three(&mut snapshot, record.as_slice()).is_ok()
        && snapshot.len() == 90_138;
    let is_right = is_large(alloc, record.as_slice(), snapshot.as_slice());
    drop(snapshot);
    drop(record);
    is_made && is_right
}

// No memory is refused here, so no opening is either.
#[test]
fn a_snapshot_over_65_536_bytes_is_written_in_pieces_and_opens(rt: HostRuntime) {
    expect(&rt, are_pieces_read(rt.alloc()));
}

// Which journal is opened.
#[derive(Clone, Copy)]
pub(crate) enum Given {
    // One with a block after the snapshot of the empty state, in the area of that number.
    Area(u8),
    // The one that an older program wrote.
    Old,
}

// Why it may not be opened.
#[derive(Clone, Copy)]
pub(crate) enum Cause {
    // The disk stops after so many calls.
    Stop,
    // A single call fails.
    Failure,
}

// What becomes of the disk before it is opened again.
#[derive(Clone, Copy)]
enum Then {
    // It is as it was.
    Again,
    // It stops, and its unsynced bytes become that.
    Stop(Option<u8>),
}

// How the journal is made, what it shows, and what is left of it. Each opening writes into the other area; the first writes into area 1.
fn making(given: Given, old: &JournalImage) -> ([JournalStep<'_>; 3], [u64; 6], &'static [u8]) {
    let format = JournalStep::Format(4_096, u64::MAX);
    let add = JournalStep::Open(FailingCalls::None, StoreWork::Add(&STOPPED_BATCHES));
    match given {
        Given::Area(0) => (
            [format, STOPPED_OPENING, add],
            [2, 0, 119, 3, 1, 9],
            STOPPED_RESTART,
        ),
        Given::Area(_) => ([format, REST, add], [2, 1, 119, 3, 1, 9], STOPPED_RESTART),
        Given::Old => (
            [JournalStep::Write(old), REST, REST],
            [1, 1, 412, 9, 3, 45],
            RESTARTED_OF_OLD,
        ),
    }
}

// Whether the state is left after such an opening of the journal. It may have to open.
fn is_left(
    alloc: Global,
    given: Given,
    old: &JournalImage,
    failing: FailingCalls,
    has_to: bool,
    then: Then,
) -> bool {
    let (made, shown, left) = making(given, old);
    let then = match then {
        Then::Again => REST,
        Then::Stop(fill) => JournalStep::Stop(fill),
    };
    let compare = JournalStep::Open(FailingCalls::None, StoreWork::Compare(left));
    let steps = [
        (made[0], Told::Done),
        (made[1], Told::Done),
        (made[2], Told::Done),
        (JournalStep::Shows(shown), Told::Done),
        (JournalStep::Attempt(failing, has_to), Told::Done),
        (then, Told::Done),
        (compare, Told::Done),
    ];
    play(alloc, SIZE as u64, &steps).is_none()
}

// Whether the state is left if that call is where the opening ends, whatever becomes of the disk then.
fn is_left_by(
    alloc: Global,
    given: Given,
    old: &JournalImage,
    cause: Cause,
    call: u64,
    has_to: bool,
) -> bool {
    let (failing, thens) = match cause {
        Cause::Stop => (FailingCalls::After(call), &THEN[1..]),
        Cause::Failure => (FailingCalls::Once(call), &THEN[..]),
    };
    for then in thens {
        if !is_left(alloc, given, old, failing, has_to, *then) {
            return false;
        }
    }
    true
}

// The first call at which the state is lost. Opening a journal with one block takes fewer than twenty calls, whichever of its areas is
// live, and opening the one with nine blocks takes about forty.
pub(crate) fn first_lost(alloc: Global, given: Given, cause: Cause) -> Option<usize> {
    let old = old_journal();
    let (calls, enough) = match given {
        Given::Area(_) => (24, 20),
        Given::Old => (44, 43),
    };
    for call in 0..calls {
        if !is_left_by(alloc, given, &old, cause, call as u64, call >= enough) {
            return Some(call);
        }
    }
    None
}

// A stop at each call of opening leaves the same state, whichever area is live and whatever the unsynced bytes are.
#[test]
fn a_stop_at_each_call_of_opening_leaves_the_state(rt: HostRuntime) {
    expect_none(&rt, first_lost(rt.alloc(), Given::Area(0), Cause::Stop));
    expect_none(&rt, first_lost(rt.alloc(), Given::Area(1), Cause::Stop));
}

#[test]
fn a_store_that_failed_stays_broken(rt: HostRuntime) {
    expect_none(&rt, play(rt.alloc(), SIZE as u64, &FAILING));
}

// Whether the file becomes a disk with a journal that takes two commands.
fn is_added(rt: &impl Files<File = File>, alloc: Global, path: &str) -> bool {
    match FileDisk::create(rt, path, SIZE as u64) {
        Ok(mut disk) => {
            let formatted = told_of_format(format(alloc, &mut disk, 4_096));
            let (disk, added) = opened(alloc, disk, StoreWork::Add(&[&[OPEN, SEND]]));
            drop(disk);
            formatted == Told::Done && added == Told::Done
        }
        Err(error) => {
            drop(error);
            false
        }
    }
}

// Whether the journal in the file shows them.
fn is_shown(rt: &impl Files<File = File>, alloc: Global, path: &str) -> bool {
    match FileDisk::open(rt, path) {
        Ok(mut disk) => {
            let is_shown = shows(alloc, &mut disk, &[2, 1, 90, 2, 1, 9]);
            drop(disk);
            is_shown
        }
        Err(error) => {
            drop(error);
            false
        }
    }
}

// No contract knows what a file holds.
#[test]
fn a_store_over_a_file_is_opened_again(rt: HostRuntime) {
    let path = "journal_tests_stopped_file";
    let _ = fs::remove_file(&rt, path);
    let is_right = is_added(&rt, rt.alloc(), path) && is_shown(&rt, rt.alloc(), path);
    expect(&rt, is_right && fs::remove_file(&rt, path).is_ok());
}

fn journal(alloc: Global) -> Option<MemDisk> {
    let mut disk = MemDisk::new(alloc, SIZE as u64).ok()?;
    match disk.write_at(0, JOURNAL) {
        Ok(()) => Some(disk),
        Err(_) => None,
    }
}

// Whether the broker has that state; `None` if memory is refused for its snapshot.
fn is_restarted(alloc: Global, broker: &Broker) -> Option<bool> {
    if broker.is_broken()
        || broker.sessions().len() > 1_000
        || broker.subscription_count() > 1_000
    {
        return Some(false);
    }
    match encode_state(alloc, broker) {
        Ok(snapshot) => {
            let is_same = snapshot.as_slice() == REFUSED_RESTART;
            drop(snapshot);
            Some(is_same)
        }
        Err(_) => None,
    }
}

fn is_opened(alloc: Global, store: &mut Store<MemDisk>) -> Option<bool> {
    match store.broker() {
        Some(broker) => {
            let seen = is_restarted(alloc, &broker);
            drop(broker);
            seen
        }
        None => Some(false),
    }
}

// What comes of opening the disk: whether it has that state, or `None` if there was no memory for its snapshot. If it was not opened, the
// disk, and whether the reason was that memory was refused, the disk's own included.
fn opens(alloc: Global, disk: MemDisk) -> Result<Option<bool>, (MemDisk, bool)> {
    match open(alloc, disk) {
        Ok(mut store) => {
            let seen = is_opened(alloc, &mut store);
            drop(store);
            Ok(seen)
        }
        Err((disk, fault)) => {
            let is_want = matches!(
                fault,
                OpenFault::Read(ReadFault::Memory(_) | ReadFault::Device)
                    | OpenFault::Area(AreaFault::Memory(_) | AreaFault::Device)
            );
            drop(fault);
            Err((disk, is_want))
        }
    }
}

// What the script beside the gate reads. A journal that was not opened because memory was refused is opened the next time.
fn word_of_opening(alloc: Global) -> &'static str {
    let Some(disk) = journal(alloc) else {
        return "unseen";
    };
    match opens(alloc, disk) {
        Ok(Some(true)) => "whole",
        Ok(Some(false)) => "wrong",
        Ok(None) => "unseen",
        Err((disk, is_want)) => match opens(alloc, disk) {
            Ok(Some(true)) if is_want => "refused",
            _ => "wrong",
        },
    }
}

#[test]
fn a_journal_for_which_memory_is_refused_is_opened_the_next_time(rt: HostRuntime) {
    let seen = word_of_opening(rt.alloc());
    let is_printed = println!(rt; "{seen}").is_ok();
    expect(&rt, is_printed && seen != "wrong");
}

// Whichever area is live.
#[test]
fn a_journal_of_which_a_call_fails_is_opened_the_next_time(rt: HostRuntime) {
    expect_none(&rt, first_lost(rt.alloc(), Given::Area(0), Cause::Failure));
    expect_none(&rt, first_lost(rt.alloc(), Given::Area(1), Cause::Failure));
}

#[test]
fn an_older_journal_of_which_a_call_fails_keeps_its_state(rt: HostRuntime) {
    expect_none(&rt, first_lost(rt.alloc(), Given::Old, Cause::Failure));
}
