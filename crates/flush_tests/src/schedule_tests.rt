//! Single schedules: tables of events, and whether each is possible when it comes.

ghost use Rattle.std.specs.Prelude.{◌≤◌};

use crate::compacting_tests::{
    first_wrong_pieces, first_wrong_selector, is_fourth_refused, is_room_as_told, pass_a_hundred,
};
use crate::step_tests::{first_wrong_break, first_wrong_step, is_gathered_twice};
use crate::stop_tests::{first_wrong_in_batches, first_wrong_in_compaction, first_wrong_stop};
use crate::trials::{Findings, expect_none, send_to};
use command_core::{Command, Op, decode};
use frame_core::Bytes;
use std::alloc::{AllocError, Global};
use world_core::{Call, CallKind, CallList, Event, World};

const READ: Pick = Pick::Device(Call {
    list: CallList::Append,
    kind: CallKind::Read,
    ok: true,
});

const WRITE: Pick = Pick::Device(Call {
    list: CallList::Append,
    kind: CallKind::Write,
    ok: true,
});

const SYNC: Pick = Pick::Device(Call {
    list: CallList::Append,
    kind: CallKind::Sync,
    ok: true,
});

const FAILING_SYNC: Pick = Pick::Device(Call {
    list: CallList::Append,
    kind: CallKind::Sync,
    ok: false,
});

const COPY: Pick = Pick::Device(Call {
    list: CallList::Snapshot,
    kind: CallKind::Write,
    ok: true,
});

const COPY_SYNC: Pick = Pick::Device(Call {
    list: CallList::Snapshot,
    kind: CallKind::Sync,
    ok: true,
});

const SWITCH: Pick = Pick::Device(Call {
    list: CallList::Switch,
    kind: CallKind::Write,
    ok: true,
});

const SWITCH_SYNC: Pick = Pick::Device(Call {
    list: CallList::Switch,
    kind: CallKind::Sync,
    ok: true,
});

const OPEN_SYNC: Pick = Pick::Device(Call {
    list: CallList::Open,
    kind: CallKind::Sync,
    ok: true,
});

// The gate of a block with one command is written.
const WRITE_ONE: [(Pick, bool); 8] = [
    (Pick::Claim(0), true),
    (Pick::Take, false),
    (Pick::Ready(0), true),
    (Pick::Take, true),
    (Pick::Raise(1), false),
    (WRITE, true),
    (SYNC, true),
    (WRITE, true),
];

const RELEASE_ONE: [(Pick, bool); 7] = [
    (Pick::Raise(1), false),
    (SYNC, true),
    (Pick::Raise(1), true),
    (Pick::Release(0, 0), false),
    (Pick::Look(0), true),
    (Pick::Release(0, 0), true),
    (Pick::Numbers([0, 1, 1, 1, 1]), true),
];

// What a stop makes the gate, and the base that is then opened.
const OPENED: [[(Pick, bool); 3]; 3] = [
    [
        (Pick::Crash(FIRST_GATE, 1), true),
        (Pick::OpenAll, true),
        (Pick::Numbers([1; 5]), true),
    ],
    [
        (Pick::Crash(FIRST_GATE, 0), true),
        (Pick::OpenAll, true),
        (Pick::Numbers([0; 5]), true),
    ],
    [
        (Pick::Crash(FIRST_GATE, 0x37), true),
        (Pick::OpenAll, true),
        (Pick::Numbers([0; 5]), true),
    ],
];

// A stop cannot leave another byte before the gate or after it.
const CRASHES: [(Pick, bool); 2] = [
    (Pick::Crash(FIRST_GATE + 1, 0x37), false),
    (Pick::Crash(FIRST_GATE - 1, 0x37), false),
];

const CLAIM_FOUR: [(Pick, bool); 12] = [
    (Pick::Claim(0), true),
    (Pick::Claim(0), false),
    (Pick::Ready(0), true),
    (Pick::Claim(0), true),
    (Pick::Claim(0), false),
    (Pick::Ready(0), true),
    (Pick::Claim(0), true),
    (Pick::Claim(0), false),
    (Pick::Ready(0), true),
    (Pick::Claim(0), true),
    (Pick::Claim(0), false),
    (Pick::Ready(0), true),
];

const CLAIM_MORE: [(Pick, bool); 4] = [
    (Pick::Claim(0), false),
    (Pick::Claim(1), true),
    (Pick::Claim(63), true),
    (Pick::Claim(64), false),
];

// After a call that fails, only opening goes on. Sessions may look and release until then.
const FAIL: [(Pick, bool); 8] = [
    (FAILING_SYNC, true),
    (SYNC, false),
    (WRITE, false),
    (Pick::Claim(1), true),
    (Pick::OpenAll, true),
    (Pick::Numbers([1; 5]), true),
    (READ, false),
    (Pick::Stop, true),
];

// A snapshot is synced before the switch, which comes right after it, while sessions claim.
const COMPACT: [(Pick, bool); 13] = [
    (SWITCH, false),
    (COPY, true),
    (SWITCH, false),
    (OPEN_SYNC, false),
    (Pick::Claim(1), true),
    (COPY_SYNC, true),
    (COPY_SYNC, false),
    (SWITCH, true),
    (COPY, false),
    (WRITE, false),
    (SWITCH_SYNC, true),
    (SWITCH_SYNC, false),
    (SWITCH, false),
];

// A block may come between a snapshot and its switch; the switch may then not come.
const APPEND_BEHIND_A_COPY: [(Pick, bool); 6] = [
    (COPY, true),
    (COPY_SYNC, true),
    (Pick::Ready(1), true),
    (Pick::Take, true),
    (WRITE, true),
    (SWITCH, false),
];

const STORE_ONE: [(Pick, bool); 6] = [
    (Pick::Ready(0), true),
    (Pick::Take, true),
    (WRITE, true),
    (SYNC, true),
    (WRITE, true),
    (SYNC, true),
];

// An opening may begin between the two pieces, but not after the second.
const TWO_PIECES: [(Pick, bool); 7] = [
    (COPY, true),
    (COPY_SYNC, false),
    (COPY, true),
    (COPY, false),
    (OPEN_SYNC, false),
    (COPY_SYNC, true),
    (SWITCH, true),
];

const BROKEN_OFF: [(Pick, bool); 5] = [
    (SWITCH_SYNC, true),
    (COPY, true),
    (OPEN_SYNC, true),
    (COPY, false),
    (Pick::Claim(0), false),
];

const CLAIM_LONG: [(Pick, bool); 8] = [
    (Pick::Claim(0), true),
    (Pick::Ready(0), true),
    (Pick::ClaimLong, true),
    (Pick::Ready(0), true),
    (Pick::ClaimLong, true),
    (Pick::Ready(0), true),
    (Pick::ClaimLong, true),
    (Pick::Ready(0), true),
];

// Two of three long SENDs fit beside what is there; the third doesn't, neither with them nor alone.
const CUT: [(Pick, bool); 10] = [
    (Pick::Take, true),
    (Pick::Take, true),
    (Pick::Take, true),
    (Pick::Take, true),
    (WRITE, true),
    (SYNC, true),
    (WRITE, true),
    (SYNC, true),
    (WRITE, false),
    (Pick::Numbers([0, 4, 4, 3, 0]), true),
];

/// The bytes of an area.
pub(crate) const AREA: usize = 4_096;

/// Where the second area, which is live at first, begins.
pub(crate) const SECOND: usize = 32 + AREA;

/// The gate after the first snapshot, which has 32 bytes after its length.
pub(crate) const FIRST_GATE: usize = SECOND + 40;

// A session opens, listens to `/queue/q` as `s`, sends a message there, is handed it, and refuses it.
pub(crate) const RECORDS: [&[u8]; 4] = [
    b"\0\0\0\0\0\0\0\0\0\x01\0",
    b"\0\0\0\0\0\0\0\0\0\x03\0\0\0\x01s\0\0\0\x08/queue/q\x01\0",
    b"\0\0\0\0\0\0\0\0\0\x02\0\0\0\x08/queue/q\0\0\0\0\0\x01x",
    b"\0\0\0\0\0\0\0\0\0\x06\0\0\0\0\0\0\0\0",
];

// The disk of the first version that these are in, up to its last byte that is not zero, or a closed gate after it.
const OLD_DISK: &[u8] = b"STOMPJ01\0\0\0\0\0\0\x10\0\
\0\0\0\0\0\0\0\0\0\0\0\0\0\0\0\0\
\0\0\0\0\0\0\0\x20\
\0\0\0\0\0\0\0\0\0\0\0\0\0\0\0\0\0\0\0\0\0\0\0\0\0\0\0\0\0\0\0\0\
\x01\0\0\0\0\0\0\0\x57\
\0\0\0\0\0\0\0\0\0\x01\0\
\0\0\0\0\0\0\0\0\0\x03\0\0\0\x01s\0\0\0\x08/queue/q\x01\0\
\0\0\0\0\0\0\0\0\0\x02\0\0\0\x08/queue/q\0\0\0\0\0\x01x\
\0\0\0\0\0\0\0\0\0\x06\0\0\0\0\0\0\0\0\
\0";

/// How many bytes that are.
pub(crate) const OLD_LEN: usize = 169;

#[test]
fn a_command_is_released_once_it_is_stored_and_seen(rt: HostRuntime) {
    expect_none(&rt, play(rt.alloc(), 4_096, &[&WRITE_ONE, &RELEASE_ONE]));
}

fn first_wrong_gate(alloc: Global) -> Option<u64> {
    for (place, opening) in OPENED.iter().enumerate() {
        if play(alloc, 4_096, &[&WRITE_ONE, opening]).is_some() {
            return Some(place as u64);
        }
    }
    None
}

#[test]
fn the_gate_decides_what_is_opened(rt: HostRuntime) {
    expect_none(&rt, first_wrong_gate(rt.alloc()));
}

#[test]
fn a_stop_leaves_what_is_synced(rt: HostRuntime) {
    expect_none(&rt, play(rt.alloc(), 4_096, &[&WRITE_ONE, &CRASHES]));
}

#[test]
fn a_seat_has_sixteen_commands_that_it_has_not_seen(rt: HostRuntime) {
    let four = &CLAIM_FOUR[..];
    let parts = [four, four, four, four, &CLAIM_MORE[..]];
    expect_none(&rt, play(rt.alloc(), 4_096, &parts));
}

#[test]
fn after_a_failure_the_journal_is_opened(rt: HostRuntime) {
    expect_none(&rt, play(rt.alloc(), 4_096, &[&WRITE_ONE, &FAIL]));
}

#[test]
fn a_switch_comes_right_behind_a_snapshot_that_is_synced(rt: HostRuntime) {
    let parts = [
        &WRITE_ONE[..],
        &RELEASE_ONE[..],
        &COMPACT[..],
        &APPEND_BEHIND_A_COPY[..],
    ];
    expect_none(&rt, play(rt.alloc(), 4_096, &parts));
}

// A snapshot that holds two SENDs of 60,000 bytes has two pieces.
#[test]
fn an_opening_may_begin_between_two_pieces(rt: HostRuntime) {
    let (short, long) = ([(Pick::Claim(0), true)], [(Pick::ClaimLong, true)]);
    let parts = [
        &short[..],
        &STORE_ONE[..],
        &long[..],
        &STORE_ONE[..],
        &long[..],
        &STORE_ONE[..],
        &TWO_PIECES[..],
        &BROKEN_OFF[..],
    ];
    expect_none(&rt, play(rt.alloc(), 262_144, &parts));
}

#[test]
fn a_block_has_the_longest_part_that_fits(rt: HostRuntime) {
    expect_none(&rt, play(rt.alloc(), 131_072, &[&CLAIM_LONG, &CUT]));
}

/// An event in short. A crash leaves this byte at a place.
#[derive(Clone, Copy)]
pub(crate) enum Pick {
    Look(usize),
    Claim(usize),
    Ready(usize),
    Take,
    Device(Call),
    Raise(u64),
    Release(usize, u64),
    Stop,
    Crash(usize, u8),
    Open,
    /// For written schedules: the first session claims for a SEND with a body of 60,000 bytes.
    ClaimLong,
    /// All calls of opening come, and its end.
    OpenAll,
    /// Nothing happens, and these are the base and the numbers that are claimed, taken, stored and under the mark next.
    Numbers([u64; 5]),
    /// Nothing happens, and the disk begins with so many bytes of the old one.
    Front(usize),
    /// Nothing happens, and the disk has this byte at a place.
    Byte(usize, u8),
}

/// An Open without a client's name. Its record has 11 bytes.
pub(crate) fn claim(world: &mut World, seat: usize) -> Result<bool, AllocError> {
    let open = Command::new(0, Op::Open { client_id: None }, None);
    world.apply(Event::Claim(seat, open))
}

fn claim_long(alloc: Global, world: &mut World) -> Result<bool, AllocError> {
    match send_to(alloc, "/queue/q", 60_000) {
        Some(send) => world.apply(Event::Claim(0, send)),
        None => Err(AllocError),
    }
}

fn call(world: &mut World, list: CallList, kind: CallKind) -> Result<bool, AllocError> {
    world.apply(Event::Device(Call {
        list,
        kind,
        ok: true,
    }))
}

pub(crate) fn append(world: &mut World, kind: CallKind) -> Result<bool, AllocError> {
    call(world, CallList::Append, kind)
}

/// All calls of opening, and its end; true if each of them is possible.
pub(crate) fn open(world: &mut World) -> Result<bool, AllocError> {
    for kind in [
        CallKind::Sync,
        CallKind::Read,
        CallKind::Write,
        CallKind::Sync,
        CallKind::Write,
        CallKind::Sync,
    ] {
        if !call(world, CallList::Open, kind)? {
            return Ok(false);
        }
    }
    world.apply(Event::Open)
}

// The disk, with this byte at a place.
fn image_of(alloc: Global, world: &World, at: usize, byte: u8) -> Result<Event, AllocError> {
    let mut image = Vec::from_slice(alloc, world.content())?;
    if at < image.len() {
        image[at] = byte;
    }
    Ok(Event::Crash(Bytes::new(image)))
}

fn crash(alloc: Global, world: &mut World, at: usize, byte: u8) -> Result<bool, AllocError> {
    let crash = image_of(alloc, world, at, byte)?;
    world.apply(crash)
}

fn has_front(content: &[u8], len: usize) -> bool {
    match (content.get(..len), OLD_DISK.get(..len)) {
        (Some(front), Some(wanted)) => front == wanted && content.len() == 8_224,
        _ => false,
    }
}

/// The base and the numbers that are claimed, taken, stored and under the mark next.
pub(crate) fn numbers(world: &World) -> [u64; 5] {
    [
        world.base(),
        world.claimed(),
        world.taken(),
        world.stored(),
        world.mark(),
    ]
}

// What only written schedules have.
fn apply_written(alloc: Global, world: &mut World, pick: Pick) -> Result<bool, AllocError> {
    match pick {
        Pick::ClaimLong => claim_long(alloc, world),
        Pick::OpenAll => open(world),
        Pick::Numbers(wanted) => Ok(numbers(world) == wanted),
        Pick::Front(len) => Ok(has_front(world.content(), len)),
        Pick::Byte(at, byte) => Ok(world.content().get(at) == Some(&byte)),
        _ => Ok(false),
    }
}

/// Lets an event happen if it is possible, and answers whether it was.
pub(crate) fn apply(alloc: Global, world: &mut World, pick: Pick) -> Result<bool, AllocError> {
    match pick {
        Pick::Look(j) => world.apply(Event::Look(j)),
        Pick::Claim(j) => claim(world, j),
        Pick::Ready(j) => world.apply(Event::Ready(j)),
        Pick::Take => world.apply(Event::Take),
        Pick::Device(call) => world.apply(Event::Device(call)),
        Pick::Raise(n) => world.apply(Event::Raise(n)),
        Pick::Release(j, n) => world.apply(Event::Release(j, n)),
        Pick::Stop => world.apply(Event::Stop),
        Pick::Crash(at, byte) => crash(alloc, world, at, byte),
        Pick::Open => world.apply(Event::Open),
        _ => apply_written(alloc, world, pick),
    }
}

// Whether the event is possible just if it has to be.
fn is_so(alloc: Global, world: &mut World, pick: Pick, possible: bool) -> bool {
    match apply(alloc, world, pick) {
        Ok(answer) => answer == possible,
        Err(_) => false,
    }
}

// A part of a schedule: events, and whether each is possible when it comes.
fn goes_by(alloc: Global, world: &mut World, part: &[(Pick, bool)]) -> bool {
    for (pick, possible) in part {
        if !is_so(alloc, world, *pick, *possible) {
            return false;
        }
    }
    true
}

// The first of the parts, one after another, that goes otherwise.
fn first_wrong_schedule(
    alloc: Global,
    world: &mut World,
    parts: &[&[(Pick, bool)]],
) -> Option<u64> {
    for (place, part) in parts.iter().enumerate() {
        if !goes_by(alloc, world, part) {
            return Some(place as u64);
        }
    }
    None
}

/// Plays a schedule of these parts in a world whose areas have so many bytes. It answers with the place of the first that goes otherwise.
pub(crate) fn play(alloc: Global, bytes: u64, parts: &[&[(Pick, bool)]]) -> Option<u64>
    requires { (4096 ≤ bytes) × (bytes ≤ 1048576) }
{
    match World::new(alloc, bytes) {
        Ok(mut world) => {
            let wrong = first_wrong_schedule(alloc, &mut world, parts);
            drop(world);
            wrong
        }
        Err(_) => Some(0),
    }
}

/// The same in the world that begins with the commands of these records, which have to fit.
pub(crate) fn play_old(alloc: Global, records: &[&[u8]], events: &[(Pick, bool)]) -> bool {
    match old_world(alloc, records, 1) {
        Some(Some(mut world)) => {
            let is_right = goes_by(alloc, &mut world, events);
            drop(world);
            is_right
        }
        _ => false,
    }
}

fn read_one(alloc: Global, commands: &mut Vec<Command>, record: &[u8]) -> bool {
    match decode(alloc, record) {
        Ok((command, _)) => commands.push(command).is_ok(),
        Err(_) => false,
    }
}

fn read_all(alloc: Global, commands: &mut Vec<Command>, records: &[&[u8]]) -> bool {
    for record in records {
        if !read_one(alloc, commands, record) {
            return false;
        }
    }
    true
}

fn read_often(alloc: Global, commands: &mut Vec<Command>, records: &[&[u8]], times: u32) -> bool {
    for _ in 0..times {
        if !read_all(alloc, commands, records) {
            return false;
        }
    }
    true
}

/// A world that begins with a journal of the first version, with the commands of these records so many times; none if they don't fit.
/// Nothing if memory is refused, or a record is none.
pub(crate) fn old_world(alloc: Global, records: &[&[u8]], times: u32) -> Option<Option<World>> {
    let mut commands = Vec::new(alloc);
    let mut made = None;
    if read_often(alloc, &mut commands, records, times) {
        made = World::new_v1(alloc, 4_096, &commands).ok();
    }
    drop(commands);
    made
}

/// Which series is tried.
#[derive(Clone, Copy)]
pub(crate) enum Series {
    /// How compactions are written, and what any selector shows.
    Pieces,
    AnySelector,
    /// A call of two batches fails, alone or with all after it.
    FailingBatches,
    StoppedBatches,
    /// A call of a compaction fails, alone or with all after it.
    FailingCompaction,
    StoppedCompactions,
    /// The area is nearly full, filled again and again, or full.
    Room,
    Hundred,
    Full,
    /// The steps of a turn, what is gathered twice, and a disk that fails within a step.
    Steps,
    GatherTwice,
    Breaks,
}

fn wrong_unless(is_right: bool) -> Option<u64> {
    if is_right { None } else { Some(0) }
}

fn first_wrong_in(alloc: Global, findings: &mut Findings, series: Series) -> Option<u64> {
    match series {
        Series::Pieces => first_wrong_pieces(alloc, findings),
        Series::AnySelector => first_wrong_selector(alloc, findings),
        Series::FailingBatches => first_wrong_in_batches(alloc, findings, true),
        Series::StoppedBatches => first_wrong_in_batches(alloc, findings, false),
        Series::FailingCompaction => first_wrong_in_compaction(alloc, findings, 2, 2, true),
        Series::StoppedCompactions => first_wrong_stop(alloc, findings),
        Series::Room => wrong_unless(is_room_as_told(alloc, findings)),
        Series::Hundred => wrong_unless(pass_a_hundred(alloc, findings)),
        Series::Full => wrong_unless(is_fourth_refused(alloc, findings)),
        Series::Steps => first_wrong_step(alloc, findings),
        Series::GatherTwice => wrong_unless(is_gathered_twice(alloc, findings)),
        Series::Breaks => first_wrong_break(alloc, findings),
    }
}

/// The first trial of the series of which something else comes than should.
pub(crate) fn first_wrong(alloc: Global, series: Series) -> Option<u64> {
    let mut findings = Findings::new(alloc);
    let wrong = first_wrong_in(alloc, &mut findings, series);
    drop(findings);
    wrong
}
