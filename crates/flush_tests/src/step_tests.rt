//! The steps of a turn, one by one; and what they answer once one has failed.

ghost use Rattle.std.specs.Prelude.{◌≡◌, IsTrue, true};

use crate::schedule_tests::{Series, first_wrong};
use crate::trials::{
    Beginning, CALM, FIRST_SEND, Findings, LAST_SEND, SECOND_SEND, TestFlusher, TestRing, TestSeat,
    Trial, append, append_send, calls_before, expect, expect_none, try_out,
};
use claim_core::{NotYet, Refused};
use command_core::{Out, connected_reply};
use disk_core::{Call, Disk};
use flush_core::FlushFault;
use std::alloc::{AllocError, Global};

// Two sessions are open and have sent three messages.
const SENT: Trial = Trial {
    beginning: Beginning::Sent,
    ..CALM
};

// The block of the three stands after that of both Opens, in the second area: length, records and the next gate; a sync; its
// own gate; a sync.
const BLOCK: [Call; 4] = [
    Call::Write {
        at: 4_200,
        len: 101,
    },
    Call::Sync,
    Call::Write { at: 4_199, len: 1 },
    Call::Sync,
];

const NOT_YET: Leaving = [Some(Err(NotYet(2))), Some(Err(NotYet(2)))];

const LEFT: Leaving = [Some(Ok(4)), Some(Err(NotYet(5)))];

// How many calls of the disk some steps take, and what is seen then.
const STEPS: [(usize, Deed); 7] = [
    (0, Deed::Steps(0, [0, 2, 0, 2], NOT_YET)),
    (0, Deed::Steps(1, [3, 2, 0, 2], NOT_YET)),
    (4, Deed::Steps(2, [3, 2, 0, 2], NOT_YET)),
    (4, Deed::Steps(3, [3, 5, 0, 2], NOT_YET)),
    (4, Deed::Steps(4, [3, 5, 1, 5], LEFT)),
    (4, Deed::Steps(5, [0, 5, 1, 5], LEFT)),
    (4, Deed::Steps(6, [0, 5, 1, 5], LEFT)),
];

// Whether the calls after those are so many of the block, and no other.
fn are_of_block(calls: &[Call], before: usize, count: usize) -> bool {
    match (calls.get(before..), BLOCK.get(..count)) {
        (Some(made), Some(wanted)) => made == wanted,
        _ => false,
    }
}

/// The place of the first of those rows of which something else comes.
pub(crate) fn first_wrong_step(alloc: Global, findings: &mut Findings) -> Option<u64> {
    try_out(alloc, SENT, findings);
    let (begun, before) = (findings.begun, findings.calls.len());
    for (place, (calls, deed)) in STEPS.iter().enumerate() {
        try_out(
            alloc,
            Trial {
                deed: *deed,
                ..SENT
            },
            findings,
        );
        let is_done = begun && findings.done == Some(true);
        if !is_done || !are_of_block(&findings.calls, before, *calls) {
            return Some(place as u64);
        }
    }
    None
}

#[test]
fn each_step_of_a_turn_does_its_part_alone(rt: HostRuntime) {
    expect_none(&rt, first_wrong(rt.alloc(), Series::Steps));
}

/// Whether what is gathered twice is one batch.
pub(crate) fn is_gathered_twice(alloc: Global, findings: &mut Findings) -> bool {
    let trial = Trial {
        deed: Deed::GatherTwice,
        ..SENT
    };
    try_out(alloc, trial, findings);
    findings.done == Some(true)
}

#[test]
fn a_second_gather_takes_more_while_a_batch_waits(rt: HostRuntime) {
    expect_none(&rt, first_wrong(rt.alloc(), Series::GatherTwice));
}

/// Each of the four calls of a block may be the one that fails, in both ways. Answers the first that leaves something else.
pub(crate) fn first_wrong_break(alloc: Global, findings: &mut Findings) -> Option<u64> {
    let before = calls_before(alloc, SENT, findings);
    for turn in 0..8_u64 {
        let trial = Trial {
            deed: Deed::Break(turn % 2 == 1),
            passed: before.saturating_add(turn / 2),
            ..SENT
        };
        try_out(alloc, trial, findings);
        if !findings.is(false, 2) {
            return Some(turn / 2);
        }
    }
    None
}

#[test]
fn a_flusher_whose_disk_fails_stays_broken(rt: HostRuntime) {
    expect_none(&rt, first_wrong(rt.alloc(), Series::Breaks));
}

// Whether the faults have these texts.
fn are_told(alloc: Global) -> bool {
    let faults = format!(in alloc;
        "{}; {}; {}; {}",
        FlushFault::Device,
        FlushFault::Full,
        FlushFault::Broken,
        FlushFault::Memory(AllocError),
    );
    match faults {
        Ok(text) => {
            let is_same = text.as_str()
                == "J3 device failed; J4 journal full; J6 store broken; no memory";
            drop(text);
            is_same
        }
        Err(_) => false,
    }
}

#[test]
fn each_fault_has_its_text(rt: HostRuntime) {
    expect(&rt, are_told(rt.alloc()));
}

/// Whether outputs of the commands 4 and 5 leave.
pub(crate) type Leaving = [Option<Result<u64, NotYet>>; 2];

/// What is done.
#[derive(Clone, Copy)]
pub(crate) enum Deed {
    /// Nothing.
    Nothing,
    /// So many steps are made: the four of a turn, and the first two of another. Then it is seen how many commands `gather` took last, how
    /// many the broker has executed, how many outputs are handed out, the mark, and which outputs leave.
    Steps(u32, [u64; 4], Leaving),
    /// Three commands are gathered, and one more before they are stored.
    GatherTwice,
    /// What the three have sent is stored, in a turn or in a step of its own; the disk fails, and then each step is refused.
    Break(bool),
    /// Both sessions send in turn, which is one batch; and the first sends once more, which is another.
    TwoBatches,
    /// The journal is compacted. This says whether memory may be refused.
    Compact(bool),
    /// What the last compaction won is asked for twice, and that is answered.
    AskWon([Option<u64>; 2]),
    /// A message of 1,000 bytes is refused since the journal is full.
    Overfill,
}

fn make_steps<D: Disk>(
    alloc: Global,
    ring: &TestRing,
    flusher: &mut TestFlusher<D>,
    steps: u32,
) -> Result<u64, FlushFault>
    requires ring { flusher.old.seat.ring ≡ ring.now }
    requires executed { flusher.old.executed ≡ flusher.old.stored }
{
    if steps == 0 {
        return Ok(0);
    }
    let taken = flusher.gather(ring)?;
    if steps == 1 {
        return Ok(taken);
    }
    flusher.store(alloc, ring)?;
    if steps == 2 {
        return Ok(taken);
    }
    flusher.settle(alloc, ring)?;
    if steps == 3 {
        return Ok(taken);
    }
    flusher.publish(ring);
    if steps == 4 {
        return Ok(taken);
    }
    let more = flusher.gather(ring)?;
    if steps > 5 {
        flusher.store(alloc, ring)?;
    }
    Ok(more)
}

// The number of an output of that command, if it may leave.
fn leave(
    alloc: Global,
    ring: &TestRing,
    seat: &mut TestSeat,
    number: u64,
) -> Option<Result<u64, NotYet>>
    requires { seat.old.ring ≡ ring.now }
    ensures { seat.new.ring ≡ ring.now }
{
    let frame = connected_reply(alloc, 0).ok()?;
    let out = Out::new(alloc, number, 0, frame).ok()?;
    match ring.release(seat, out) {
        Ok(released) => Some(Ok(released.number())),
        Err((_, not_yet)) => Some(Err(not_yet)),
    }
}

fn leaving(alloc: Global, ring: &TestRing, first: &mut TestSeat, second: &mut TestSeat) -> Leaving
    requires { (first.old.ring ≡ ring.now) × (second.old.ring ≡ ring.now) }
    ensures { first.new.ring ≡ ring.now }
{
    let fourth = leave(alloc, ring, first, 4);
    let fifth = leave(alloc, ring, second, 5);
    [fourth, fifth]
}

// What is seen after some steps, before outputs leave.
fn see<D: Disk>(
    alloc: Global,
    ring: &TestRing,
    first: &mut TestSeat,
    flusher: &mut TestFlusher<D>,
    steps: u32,
) -> Option<[u64; 4]>
    requires seat { first.old.ring ≡ ring.now }
    requires flusher { (flusher.old.seat.ring ≡ ring.now) × (flusher.old.executed ≡ flusher.old.stored) }
    ensures { first.new.ring ≡ ring.now }
{
    let Ok(taken) = make_steps(alloc, ring, flusher, steps) else {
        return None;
    };
    let outs = flusher.take_left();
    let left = outs.len() as u64;
    drop(outs);
    Some([taken, flusher.broker().count(), left, ring.look(first)])
}

fn gather_twice<D: Disk>(
    alloc: Global,
    ring: &TestRing,
    first: &mut TestSeat,
    flusher: &mut TestFlusher<D>,
) -> Option<bool>
    requires seat { first.old.ring ≡ ring.now }
    requires flusher { (flusher.old.seat.ring ≡ ring.now) × (flusher.old.executed ≡ flusher.old.stored) }
    ensures { first.new.ring ≡ ring.now }
{
    let Ok(3) = flusher.gather(ring) else {
        return None;
    };
    let Some(Ok(5)) = append(alloc, ring, first, FIRST_SEND) else {
        return None;
    };
    let Ok(1) = flusher.gather(ring) else {
        return None;
    };
    flusher.store(alloc, ring).ok()?;
    flusher.settle(alloc, ring).ok()?;
    flusher.publish(ring);
    if flusher.mark() == 6 {
        Some(true)
    } else {
        None
    }
}

// Whether the disk fails, in a turn or in a step of its own.
fn fails<D: Disk>(
    alloc: Global,
    ring: &TestRing,
    flusher: &mut TestFlusher<D>,
    in_a_turn: bool,
) -> bool
    requires ring { flusher.old.seat.ring ≡ ring.now }
    requires executed { flusher.old.executed ≡ flusher.old.stored }
    ensures { IsTrue result → (flusher.new.seat.ring ≡ ring.now) × (flusher.new.broken ≡ true) }
{
    if in_a_turn {
        return matches!(flusher.turn(alloc, ring), Err(FlushFault::Device));
    }
    let Ok(3) = flusher.gather(ring) else {
        return false;
    };
    matches!(flusher.store(alloc, ring), Err(FlushFault::Device))
}

// Whether each step is refused.
fn is_refused<D: Disk>(alloc: Global, ring: &TestRing, flusher: &mut TestFlusher<D>) -> bool
    requires ring { flusher.old.seat.ring ≡ ring.now }
    requires broken { flusher.old.broken ≡ true }
{
    let Err(FlushFault::Broken) = flusher.gather(ring) else {
        return false;
    };
    let Err(FlushFault::Broken) = flusher.store(alloc, ring) else {
        return false;
    };
    let Err(FlushFault::Broken) = flusher.settle(alloc, ring) else {
        return false;
    };
    matches!(flusher.turn(alloc, ring), Err(FlushFault::Broken))
}

fn flush_two<D: Disk>(
    alloc: Global,
    ring: &TestRing,
    first: &mut TestSeat,
    second: &mut TestSeat,
    flusher: &mut TestFlusher<D>,
) -> Option<bool>
    requires seats { (first.old.ring ≡ ring.now) × (second.old.ring ≡ ring.now) }
    requires flusher { (flusher.old.seat.ring ≡ ring.now) × (flusher.old.executed ≡ flusher.old.stored) }
    ensures { first.new.ring ≡ ring.now }
{
    let x = append(alloc, ring, first, FIRST_SEND);
    let y = append(alloc, ring, second, SECOND_SEND);
    if x != Some(Ok(2)) || y != Some(Ok(3)) {
        return None;
    }
    match flusher.turn(alloc, ring) {
        Ok(2) => {}
        Err(FlushFault::Device) => return Some(false),
        _ => return None,
    }
    let Some(Ok(4)) = append(alloc, ring, first, LAST_SEND) else {
        return None;
    };
    match flusher.turn(alloc, ring) {
        Ok(1) => Some(true),
        Err(FlushFault::Device) => Some(false),
        _ => None,
    }
}

fn compact<D: Disk>(
    alloc: Global,
    ring: &TestRing,
    flusher: &mut TestFlusher<D>,
    may_lack_memory: bool,
) -> Option<bool>
    requires { (flusher.old.seat.ring ≡ ring.now) × (flusher.old.executed ≡ flusher.old.stored) }
{
    match flusher.compact(alloc, ring) {
        Ok(()) => Some(true),
        Err(FlushFault::Device) => Some(false),
        Err(FlushFault::Memory(_)) if may_lack_memory => Some(false),
        Err(_) => None,
    }
}

fn overfill<D: Disk>(
    alloc: Global,
    ring: &TestRing,
    first: &mut TestSeat,
    flusher: &mut TestFlusher<D>,
) -> Option<bool>
    requires seat { first.old.ring ≡ ring.now }
    requires flusher { (flusher.old.seat.ring ≡ ring.now) × (flusher.old.executed ≡ flusher.old.stored) }
    ensures { first.new.ring ≡ ring.now }
{
    let Some(Ok(5)) = append_send(alloc, ring, first, 1_000) else {
        return None;
    };
    match flusher.turn(alloc, ring) {
        Err(FlushFault::Full) => Some(false),
        _ => None,
    }
}

/// Does it, and answers whether that was done or came to a failure that it may. Nothing if something else came.
pub(crate) fn act<D: Disk>(
    alloc: Global,
    ring: &TestRing,
    first: &mut TestSeat,
    second: &mut TestSeat,
    flusher: &mut TestFlusher<D>,
    deed: Deed,
) -> Option<bool>
    requires seats { (first.old.ring ≡ ring.now) × (second.old.ring ≡ ring.now) }
    requires flusher { (flusher.old.seat.ring ≡ ring.now) × (flusher.old.executed ≡ flusher.old.stored) }
    ensures { first.new.ring ≡ ring.now }
{
    match deed {
        Deed::Nothing => Some(true),
        Deed::Steps(steps, seen, left) => {
            let is_seen = see(alloc, ring, first, flusher, steps) == Some(seen);
            let has_left = leaving(alloc, ring, first, second) == left;
            if is_seen && has_left {
                Some(true)
            } else {
                None
            }
        }
        Deed::GatherTwice => gather_twice(alloc, ring, first, flusher),
        Deed::Break(in_a_turn) => {
            let is_broken = fails(alloc, ring, flusher, in_a_turn)
                && is_refused(alloc, ring, flusher);
            let is_seen = ring.look(second) == flusher.mark();
            if is_broken && is_seen {
                Some(false)
            } else {
                None
            }
        }
        Deed::TwoBatches => flush_two(alloc, ring, first, second, flusher),
        Deed::Compact(may_lack_memory) => compact(alloc, ring, flusher, may_lack_memory),
        Deed::AskWon(wanted) => {
            let won = [flusher.take_won(), flusher.take_won()];
            if won == wanted { Some(true) } else { None }
        }
        Deed::Overfill => overfill(alloc, ring, first, flusher),
    }
}

/// How many commands are durable, executed and published, unless these are of different numbers. If the deed was done, the ring has to go on.
/// If not, the flusher has to be broken, and its ring stopped.
pub(crate) fn count_durable<D: Disk>(
    alloc: Global,
    ring: &TestRing,
    first: &mut TestSeat,
    flusher: &TestFlusher<D>,
    done: bool,
) -> Option<u64>
    requires { first.old.ring ≡ ring.now }
{
    let mark = ring.look(first);
    let answer = append(alloc, ring, first, FIRST_SEND);
    let wanted = if done {
        Ok(mark)
    } else {
        Err(Refused::Stopped)
    };
    let is_so = answer == Some(wanted) && flusher.is_broken() != done;
    if is_so && flusher.mark() == mark && flusher.broker().count() == mark {
        Some(mark)
    } else {
        None
    }
}
