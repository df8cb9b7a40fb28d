use crate::journal_steps::{
    JournalImage, SIZE, Told, disk_of, empty_image, expect, expect_none, push_record, push_sending,
    put, told_of_area, told_of_reading,
};
use area_core::{Area, LentBytes};
use command_core::Entry;
use disk_core::{Call, Disk, FuseDisk, MemDisk};
use std::alloc::Global;
use std::mem;

// The snapshot of a new journal.
const FIRST: [u8; 32] = [0; 32];

// The live area of a new journal, as it is read.
const NEW: AreaStep<'static> = AreaStep::Shows(0, 41, 2, 40);

// What a block that fills the area asks of the disk.
const FILLING: [Call; 4] = [
    Call::Write { at: 73, len: 4_055 },
    Call::Sync,
    Call::Write { at: 72, len: 1 },
    Call::Sync,
];

const FILLED: [Visit<'static>; 3] = [
    Visit {
        snapshot: &FIRST,
        passed: u64::MAX,
        steps: &[
            (AreaStep::Next(0), Told::Done),
            (NEW, Told::Done),
            (AreaStep::Fits(4_046, true), Told::Done),
            (AreaStep::Fits(4_047, false), Told::Done),
        ],
        calls: None,
    },
    Visit {
        snapshot: &FIRST,
        passed: u64::MAX,
        steps: &[
            (AreaStep::Append(4_018), Told::Done),
            (AreaStep::Shows(0, 4_096, 2, 40), Told::Done),
        ],
        calls: Some(&FILLING),
    },
    Visit {
        snapshot: &FIRST,
        passed: u64::MAX,
        steps: &[
            (AreaStep::Next(1), Told::Done),
            (AreaStep::Next(0), Told::Done),
        ],
        calls: None,
    },
];

const OVERFILLED: [Visit<'static>; 2] = [
    Visit {
        snapshot: &FIRST,
        passed: u64::MAX,
        steps: &[
            (AreaStep::Append(4_019), Told::Full),
            (AreaStep::IsBroken, Told::Done),
            (AreaStep::Append(4_019), Told::Broken),
        ],
        calls: Some(&[]),
    },
    Visit {
        snapshot: &FIRST,
        passed: u64::MAX,
        steps: &[(AreaStep::Next(0), Told::Done)],
        calls: None,
    },
];

const SWITCH: (AreaStep<'static>, Told) = (AreaStep::Switch, Told::Done);

const SELECT: Call = Call::Write { at: 16, len: 1 };

const NO_BLOCK: (AreaStep<'static>, Told) = (AreaStep::Next(0), Told::Done);

// A selector, and two visits. In the first a snapshot is written into the area that the selector does not name: it lies between its length
// and a closed gate, then come a sync, the selector and a sync. In the second that area is live, with that snapshot and no block.
const MOVES: [(u8, [Visit<'static>; 2]); 4] = [
    // A selector of the first area, and the longest snapshot, which fills the second.
    (
        0,
        [
            Visit {
                snapshot: &FIRST,
                passed: u64::MAX,
                steps: &[(AreaStep::Write(&[0x5a; 4_087]), Told::Done), SWITCH],
                calls: Some(&[
                    Call::Write {
                        at: 4_128,
                        len: 4_096,
                    },
                    Call::Sync,
                    SELECT,
                    Call::Sync,
                ]),
            },
            Visit {
                snapshot: &[0x5a; 4_087],
                passed: u64::MAX,
                steps: &[
                    (AreaStep::Selects(1), Told::Done),
                    NO_BLOCK,
                    (AreaStep::Shows(1, 4_096, 2, 4_136), Told::Done),
                ],
                calls: None,
            },
        ],
    ),
    // One of the second area. Unless it was written, that has a snapshot of no bytes.
    (
        1,
        [
            Visit {
                snapshot: &[],
                passed: u64::MAX,
                steps: &[(AreaStep::Write(&[0x5a; 32]), Told::Done), SWITCH],
                calls: Some(&[
                    Call::Write { at: 32, len: 41 },
                    Call::Sync,
                    SELECT,
                    Call::Sync,
                ]),
            },
            Visit {
                snapshot: &[0x5a; 32],
                passed: u64::MAX,
                steps: &[
                    (AreaStep::Selects(2), Told::Done),
                    NO_BLOCK,
                    (AreaStep::Shows(0, 41, 2, 40), Told::Done),
                ],
                calls: None,
            },
        ],
    ),
    (
        0x7a,
        [
            Visit {
                snapshot: &FIRST,
                passed: u64::MAX,
                steps: &[(AreaStep::Write(&[0x5a]), Told::Done), SWITCH],
                calls: Some(&[
                    Call::Write { at: 4_128, len: 10 },
                    Call::Sync,
                    SELECT,
                    Call::Sync,
                ]),
            },
            Visit {
                snapshot: &[0x5a],
                passed: u64::MAX,
                steps: &[
                    (AreaStep::Selects(0x7b), Told::Done),
                    NO_BLOCK,
                    (AreaStep::Shows(1, 10, 2, 4_136), Told::Done),
                ],
                calls: None,
            },
        ],
    ),
    // No selector is greater.
    (
        255,
        [
            Visit {
                snapshot: &[],
                passed: u64::MAX,
                steps: &[(AreaStep::Write(&[]), Told::Done), SWITCH],
                calls: Some(&[
                    Call::Write { at: 32, len: 9 },
                    Call::Sync,
                    SELECT,
                    Call::Sync,
                ]),
            },
            Visit {
                snapshot: &[],
                passed: u64::MAX,
                steps: &[
                    (AreaStep::Selects(0), Told::Done),
                    NO_BLOCK,
                    (AreaStep::Shows(0, 9, 2, 40), Told::Done),
                ],
                calls: None,
            },
        ],
    ),
];

const TOO_LONG: [Visit<'static>; 1] = [Visit {
    snapshot: &FIRST,
    passed: u64::MAX,
    steps: &[
        (AreaStep::Write(&[0x5a; 4_088]), Told::Full),
        (AreaStep::Write(&[]), Told::Broken),
        (AreaStep::IsBroken, Told::Done),
        (AreaStep::Switch, Told::Broken),
    ],
    calls: Some(&[]),
}];

const FAILS_TO_WRITE: &[(AreaStep<'static>, Told)] = &[
    (AreaStep::Write(&FIRST), Told::Device),
    (AreaStep::Switch, Told::Broken),
    (AreaStep::IsBroken, Told::Done),
    (AreaStep::Write(&[]), Told::Broken),
];

const FAILS_TO_SWITCH: &[(AreaStep<'static>, Told)] = &[
    (AreaStep::Write(&FIRST), Told::Done),
    (AreaStep::Switch, Told::Device),
    (AreaStep::IsBroken, Told::Done),
    (AreaStep::Write(&[]), Told::Broken),
    (AreaStep::Switch, Told::Broken),
];

const PASSES: &[(AreaStep<'static>, Told)] = &[
    (AreaStep::Write(&FIRST), Told::Done),
    (AreaStep::Switch, Told::Done),
];

// What comes of a move, by how many calls pass.
const PASSED: [&[(AreaStep<'static>, Told)]; 5] = [
    FAILS_TO_WRITE,
    FAILS_TO_WRITE,
    FAILS_TO_SWITCH,
    FAILS_TO_SWITCH,
    PASSES,
];

const VERSIONS: [Named<'static>; 8] = [
    (b"01", 0, (Told::Done, 1)),
    (b"01", 2, (Told::Done, 2)),
    (b"02", 0, (Told::Done, 1)),
    (b"02", 2, (Told::Done, 2)),
    (b"02", 1, (Told::Damaged(32), 0)),
    (b"01", 3, (Told::Damaged(32), 0)),
    (b"02", 4, (Told::Damaged(32), 0)),
    (b"02", 255, (Told::Damaged(32), 0)),
];

const UNKNOWN: (Told, u8) = (Told::UnknownVersion, 0);

const NAMES: [Named<'static>; 6] = [
    (b"00", 2, UNKNOWN),
    (b"01", 2, (Told::Done, 2)),
    (b"02", 2, (Told::Done, 2)),
    (b"03", 2, UNKNOWN),
    (b"12", 2, UNKNOWN),
    (b"21", 2, UNKNOWN),
];

const FROM_OLD: [Visit<'static>; 2] = [
    Visit {
        snapshot: &FIRST,
        passed: u64::MAX,
        steps: &[
            (AreaStep::Shows(0, 41, 1, 40), Told::Done),
            (AreaStep::Write(&[0x5a; 7]), Told::Done),
            (AreaStep::Switch, Told::Done),
            (AreaStep::Shows(1, 16, 2, 4_136), Told::Done),
        ],
        calls: None,
    },
    Visit {
        snapshot: &[0x5a; 7],
        passed: u64::MAX,
        steps: &[
            (AreaStep::Selects(1), Told::Done),
            (AreaStep::Next(0), Told::Done),
            (AreaStep::Shows(1, 16, 2, 4_136), Told::Done),
        ],
        calls: None,
    },
];

// The block's closing gate is the last byte of the area.
#[test]
fn a_block_of_4046_bytes_fills_a_new_area_of_4096(rt: HostRuntime) {
    expect(&rt, visits(rt.alloc(), &empty_image(), &FILLED));
}

// The area is broken, and the disk is not touched.
#[test]
fn a_block_of_4047_bytes_breaks_a_new_area_of_4096(rt: HostRuntime) {
    expect(&rt, visits(rt.alloc(), &empty_image(), &OVERFILLED));
}

// Whether all comes so of a journal with that selector.
fn moves(alloc: Global, selector: u8, both: &[Visit<'_>]) -> bool {
    let mut image = empty_image();
    put(&mut image, 16, &[selector]);
    visits(alloc, &image, both)
}

fn first_wrong_move(alloc: Global) -> Option<usize> {
    for (place, (selector, both)) in MOVES.iter().enumerate() {
        if !moves(alloc, *selector, both) {
            return Some(place);
        }
    }
    None
}

#[test]
fn a_snapshot_goes_into_the_other_area_which_is_then_live(rt: HostRuntime) {
    expect_none(&rt, first_wrong_move(rt.alloc()));
}

// Both steps are then refused, and the disk is not touched.
#[test]
fn a_snapshot_that_is_too_long_breaks_the_area(rt: HostRuntime) {
    expect(&rt, visits(rt.alloc(), &empty_image(), &TOO_LONG));
}

// Whether that comes of a move while so many calls pass.
fn comes_of(alloc: Global, passed: u64, steps: &[(AreaStep<'_>, Told)]) -> bool {
    let visited = [Visit {
        snapshot: &FIRST,
        passed,
        steps,
        calls: None,
    }];
    visits(alloc, &empty_image(), &visited)
}

// After how many calls something else comes of it.
fn first_wrong_failure(alloc: Global) -> Option<usize> {
    for (passed, steps) in PASSED.iter().enumerate() {
        if !comes_of(alloc, passed as u64, steps) {
            return Some(passed);
        }
    }
    None
}

// Each of its four calls may be the one that fails: two of writing, and two of switching. After a failure nothing more is done.
#[test]
fn a_snapshot_fails_where_its_disk_fails(rt: HostRuntime) {
    expect_none(&rt, first_wrong_failure(rt.alloc()));
}

// The digits in the name, the byte that the live area begins with, and the version that this gives, or that the area's first word
// is damaged.
type Named<'a> = (&'a [u8; 2], u8, (Told, u8));

// A new journal whose name has these digits, and whose live area begins with this byte.
fn image_with(digits: &[u8; 2], first: u8) -> JournalImage {
    let mut image = empty_image();
    put(&mut image, 6, digits);
    put(&mut image, 32, &[first]);
    image
}

// Whether the front of such a journal gives that version, or that refusal.
fn gives(alloc: Global, digits: &[u8; 2], first: u8, wanted: (Told, u8)) -> bool {
    let (told, version) = told_front(alloc, &image_with(digits, first));
    told == wanted.0 && version == wanted.1
}

fn first_wrong_version(alloc: Global, rows: &[Named<'_>]) -> Option<usize> {
    for (place, (digits, first, wanted)) in rows.iter().enumerate() {
        if !gives(alloc, digits, *first, *wanted) {
            return Some(place);
        }
    }
    None
}

// The name does not decide the version.
#[test]
fn an_area_tells_its_version_itself(rt: HostRuntime) {
    expect_none(&rt, first_wrong_version(rt.alloc(), &VERSIONS));
}

#[test]
fn a_name_with_other_digits_is_of_another_version(rt: HostRuntime) {
    expect_none(&rt, first_wrong_version(rt.alloc(), &NAMES));
}

// The first area of a new journal becomes one of the first version. What is written after that is of the second.
#[test]
fn a_snapshot_is_written_as_the_second_version(rt: HostRuntime) {
    expect(&rt, visits(rt.alloc(), &image_with(b"02", 0), &FROM_OLD));
}

// A step with the live area.
#[derive(Clone, Copy)]
pub(crate) enum AreaStep<'a> {
    // This snapshot is written into the other area.
    Write(&'a [u8]),
    // The other area becomes the live one.
    Switch,
    // A batch of a SEND whose body has so many bytes is added.
    Append(u32),
    // The next block is read: it has so many commands, and none if there is no block.
    Next(usize),
    // Its number, how much of it is used, its version, and where its snapshot stands.
    Shows(u8, u64, u8, u64),
    // Whether records of so many bytes fit.
    Fits(u64, bool),
    // A step has failed, so that the area is broken.
    IsBroken,
    // The disk's byte 16, which selects the area.
    Selects(u8),
}

// The live area is read, and has this snapshot. Then steps are made while so many calls of the disk pass.
#[derive(Clone, Copy)]
pub(crate) struct Visit<'a> {
    pub(crate) snapshot: &'a [u8],
    pub(crate) passed: u64,
    pub(crate) steps: &'a [(AreaStep<'a>, Told)],
    // What the steps ask of the disk, if that is looked at.
    pub(crate) calls: Option<&'a [Call]>,
}

// Fills a batch with a SEND whose body has so many bytes.
fn fill(alloc: Global, batch: &mut Vec<Entry<()>>, body: u32) -> bool {
    let mut record = Vec::new(alloc);
    let is_full = push_sending(&mut record, body).is_ok()
        && push_record(alloc, batch, record.as_slice());
    drop(record);
    is_full
}

fn append<D: Disk>(alloc: Global, disk: &mut D, area: &mut Area, batch: &[Entry<()>]) -> Told {
    if batch.is_empty() || area.size() != 4_096 || disk.size() != SIZE as u64 {
        return Told::Other;
    }
    told_of_area(area.append(alloc, disk, batch))
}

fn append_sending<D: Disk>(alloc: Global, disk: &mut D, area: &mut Area, body: u32) -> Told {
    let mut batch = Vec::new(alloc);
    let mut told = Told::Other;
    if fill(alloc, &mut batch, body) {
        told = append(alloc, disk, area, batch.as_slice());
    }
    drop(batch);
    told
}

// Whether the next block has so many commands.
fn is_next<D: Disk>(alloc: Global, disk: &mut D, area: &mut Area, count: usize) -> bool {
    if area.size() != 4_096 || disk.size() != SIZE as u64 {
        return false;
    }
    match area.next_block(alloc, disk) {
        Ok(Some(commands)) => {
            let is_right = commands.len() == count;
            drop(commands);
            is_right
        }
        Ok(None) => count == 0,
        Err(_) => false,
    }
}

fn selector<D: Disk>(disk: &mut D) -> Option<u8> {
    let mut byte = [0];
    if disk.size() < 32 || disk.read_at(16, &mut byte).is_err() {
        return None;
    }
    Some(byte[0])
}

fn done_if(is_right: bool) -> Told {
    if is_right { Told::Done } else { Told::Other }
}

// What is seen without a call of the disk.
fn is_seen(area: &Area, step: AreaStep<'_>) -> bool {
    match step {
        AreaStep::Shows(number, used, version, place) => {
            area.number() == number
                && area.used() == used
                && area.version() == version
                && area.snapshot_place() == place
        }
        AreaStep::Fits(bytes, fits) => area.fits(bytes) == fits,
        AreaStep::IsBroken => area.is_broken(),
        _ => false,
    }
}

fn make<D: Disk>(alloc: Global, disk: &mut D, area: &mut Area, step: AreaStep<'_>) -> Told {
    if area.size() != 4_096 || disk.size() != SIZE as u64 {
        return Told::Other;
    }
    match step {
        AreaStep::Write(snapshot) => {
            told_of_area(area.write_snapshot(alloc, disk, &mut LentBytes::new(alloc, snapshot)))
        }
        AreaStep::Switch => told_of_area(area.switch(disk)),
        AreaStep::Append(body) => append_sending(alloc, disk, area, body),
        AreaStep::Next(count) => done_if(is_next(alloc, disk, area, count)),
        AreaStep::Selects(byte) => done_if(selector(disk) == Some(byte)),
        seen => done_if(is_seen(area, seen)),
    }
}

fn first_wrong<D: Disk>(
    alloc: Global,
    disk: &mut D,
    area: &mut Area,
    steps: &[(AreaStep<'_>, Told)],
) -> Option<usize> {
    for (place, (step, wanted)) in steps.iter().enumerate() {
        if make(alloc, disk, area, *step) != *wanted {
            return Some(place);
        }
    }
    None
}

// The live area, if it has that snapshot.
fn area_with(alloc: Global, disk: &mut MemDisk, wanted: &[u8]) -> Option<Area> {
    match Area::front(alloc, disk) {
        Ok((area, snapshot)) => {
            let is_same = snapshot.as_slice() == wanted;
            drop(snapshot);
            if is_same {
                return Some(area);
            }
            drop(area);
            None
        }
        Err(_) => None,
    }
}

// Makes the steps over a disk that passes so many calls.
fn play_while(alloc: Global, slot: &mut MemDisk, area: &mut Area, visit: Visit<'_>) -> bool {
    let Ok(nothing) = MemDisk::new(alloc, 0) else {
        return false;
    };
    let mut fuse = FuseDisk::new(mem::replace(slot, nothing), visit.passed);
    let wrong = first_wrong(alloc, &mut fuse, area, visit.steps);
    drop(mem::replace(slot, fuse.into_inner()));
    wrong.is_none()
}

fn play(alloc: Global, disk: &mut MemDisk, visit: Visit<'_>) -> bool {
    let Some(mut area) = area_with(alloc, disk, visit.snapshot) else {
        return false;
    };
    // What was called before is forgotten; nothing is unsynced.
    disk.crash(None);
    let is_right = play_while(alloc, disk, &mut area, visit);
    drop(area);
    match visit.calls {
        Some(calls) => is_right && disk.calls() == calls,
        None => is_right,
    }
}

fn play_all(alloc: Global, disk: &mut MemDisk, visits: &[Visit<'_>]) -> bool {
    for visit in visits {
        if !play(alloc, disk, *visit) {
            return false;
        }
    }
    true
}

// Whether all comes as it should at a disk with this image.
pub(crate) fn visits(alloc: Global, image: &JournalImage, visits: &[Visit<'_>]) -> bool {
    let Some(mut disk) = disk_of(alloc, image, 0) else {
        return false;
    };
    let is_right = play_all(alloc, &mut disk, visits);
    drop(disk);
    is_right
}

// What the live area's front gives: its version, or why it is not read.
pub(crate) fn told_front(alloc: Global, image: &JournalImage) -> (Told, u8) {
    let Some(mut disk) = disk_of(alloc, image, 0) else {
        return (Told::Other, 0);
    };
    let told = match Area::front(alloc, &mut disk) {
        Ok((area, snapshot)) => {
            drop(snapshot);
            (Told::Done, area.version())
        }
        Err(fault) => (told_of_reading(&fault), 0),
    };
    drop(disk);
    told
}
