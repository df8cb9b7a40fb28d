//! Every schedule of a small bound: two sessions with a command each, and a flusher that takes twice and stores once. One of the sessions
//! claims and is ready at once. A stop comes after each device call. It leaves unsynced bytes as they were before, or makes all of them one
//! of three bytes.

use crate::schedule_tests::{Series, append, claim, first_wrong, open};
use crate::step_tests::Deed;
use crate::trials::{
    Beginning, CALM, FILLS, Findings, Trial, calls_before, expect, expect_none, try_out,
};
use frame_core::Bytes;
use std::alloc::{AllocError, Global};
use world_core::{CallKind, Event, World};

// How many beginnings of schedules end with a device call.
const STOPS: u64 = 559;

const TWO_BATCHES: Trial = Trial {
    deed: Deed::TwoBatches,
    ..CALM
};

// The snapshots of the states in which both sessions have ended. They are after the two Opens; after the first batch, of which
// `x` and `y` wait in `/queue/q`; and after the second, with `z`.
const OPENS: &[u8] = b"\0\0\0\0\0\0\0\x02\0\0\0\0\0\0\0\0\
\0\0\0\0\0\0\0\0\0\0\0\0\0\0\0\0";

const FIRST_BATCH: &[u8] = b"\0\0\0\0\0\0\0\x04\0\0\0\0\0\0\0\0\
\0\0\0\0\0\0\0\0\0\0\0\x01\0\0\0\x08/queue/q\0\0\0\x02\
\0\0\0\0\0\0\0\x02\0\0\0\0\0\0\0\x08/queue/q\0\0\0\0\0\x01x\
\0\0\0\0\0\0\0\x03\0\0\0\0\0\0\0\x08/queue/q\0\0\0\0\0\x01y\
\0\0\0\0";

const BOTH_BATCHES: &[u8] = b"\0\0\0\0\0\0\0\x05\0\0\0\0\0\0\0\0\
\0\0\0\0\0\0\0\0\0\0\0\x01\0\0\0\x08/queue/q\0\0\0\x03\
\0\0\0\0\0\0\0\x02\0\0\0\0\0\0\0\x08/queue/q\0\0\0\0\0\x01x\
\0\0\0\0\0\0\0\x03\0\0\0\0\0\0\0\x08/queue/q\0\0\0\0\0\x01y\
\0\0\0\0\0\0\0\x04\0\0\0\0\0\0\0\x08/queue/q\0\0\0\0\0\x01z\
\0\0\0\0";

/// How many messages there are, and in how many pieces their snapshot is written.
pub(crate) const SNAPSHOTS: [(u32, u64); 3] = [(0, 1), (2, 2), (4, 3)];

// Who is next, nine times: session 0, which has two turns, session 1, which has one, or the flusher, which has six.
type Turns = [u8; 9];

// The turns of a number, a digit of three for each.
fn turns_of(number: u32) -> Turns {
    let mut turns = [0; 9];
    let mut rest = number;
    for turn in turns.iter_mut() {
        *turn = (rest % 3) as u8;
        rest /= 3;
    }
    turns
}

// How many turns one has.
fn turns_for(turns: &[u8], one: u8) -> usize {
    let mut count = 0_usize;
    for turn in turns {
        if *turn == one {
            count = count.saturating_add(1);
        }
    }
    count
}

// Whether turns do not fall. Of all ends after the same beginning, one does not.
fn is_rising(turns: &[u8]) -> bool {
    let mut last = 0;
    for turn in turns {
        if *turn < last {
            return false;
        }
        last = *turn;
    }
    true
}

// How far a schedule is.
#[derive(Clone, Copy)]
struct SoFar {
    // The turns that session 0 and the flusher have had.
    done: [usize; 2],
    // Whether a block's gate is written and not synced.
    gated: bool,
}

// Keeps the bytes that a sync left.
fn keep(world: &World, synced: &mut Vec<u8>) -> Result<(), AllocError> {
    synced.clear();
    synced.extend_from_slice(world.content())
}

// A turn of the flusher, of which one is a single event.
fn flusher(
    world: &mut World,
    synced: &mut Vec<u8>,
    gated: &mut bool,
    step: usize,
) -> Result<(), AllocError> {
    match step {
        0 | 1 => {
            world.apply(Event::Take)?;
        }
        2 => {
            append(world, CallKind::Write)?;
        }
        4 => *gated = append(world, CallKind::Write)?,
        _ => {
            append(world, CallKind::Sync)?;
            keep(world, synced)?;
            *gated = false;
        }
    }
    Ok(())
}

// A turn of session 0.
fn session(world: &mut World, step: usize) -> Result<bool, AllocError> {
    match step {
        0 => claim(world, 0),
        _ => world.apply(Event::Ready(0)),
    }
}

// Takes a turn, and answers whether it was possible.
fn take_turn(
    world: &mut World,
    synced: &mut Vec<u8>,
    so_far: &mut SoFar,
    turn: u8,
) -> Result<bool, AllocError> {
    let [own, flushed] = so_far.done;
    match turn {
        0 => {
            so_far.done = [own.saturating_add(1), flushed];
            session(world, own)
        }
        1 => Ok(claim(world, 1)? && world.apply(Event::Ready(1))?),
        _ => {
            so_far.done = [own, flushed.saturating_add(1)];
            flusher(world, synced, &mut so_far.gated, flushed)?;
            Ok(true)
        }
    }
}

// The first and the last place where the disk differs from what the last sync left.
fn unsynced(content: &[u8], synced: &[u8]) -> (usize, usize) {
    let mut from = content.len();
    let mut to = 0;
    for (i, old) in synced.iter().enumerate() {
        if i < content.len() && content[i] != *old {
            from = from.min(i);
            to = i;
        }
    }
    (from, to)
}

// The disk after a stop: what is unsynced, and what lies between, becomes the fill, or what was there.
fn image(
    alloc: Global,
    content: &[u8],
    synced: &[u8],
    fill: Option<u8>,
) -> Result<Vec<u8>, AllocError> {
    let (from, to) = unsynced(content, synced);
    let mut image = Vec::from_slice(alloc, content)?;
    for (i, old) in synced.iter().enumerate() {
        if i >= from && i <= to && i < image.len() {
            image[i] = fill.unwrap_or(*old);
        }
    }
    Ok(image)
}

// Whether the world stops at this image, and opens with so many commands.
fn opens(world: &mut World, image: Vec<u8>, wanted: u64) -> bool {
    let stopped = world.apply(Event::Crash(Bytes::new(image)));
    let seen = world.apply(Event::Look(0));
    let opened = open(world);
    matches!(stopped, Ok(true))
        && matches!(seen, Ok(false))
        && matches!(opened, Ok(true))
        && world.base() == wanted
}

// Stops and opens: all that is stored is there, and so is a block whose gate is not synced, if the gate is 1.
fn stops(alloc: Global, world: &mut World, synced: &[u8], gated: bool, fill: Option<u8>) -> bool {
    let wanted = if gated && fill == Some(1) {
        world.taken()
    } else {
        world.stored()
    };
    match image(alloc, world.content(), synced, fill) {
        Ok(image) => opens(world, image, wanted),
        Err(_) => false,
    }
}

// Runs these turns, each of which has to be possible.
fn run_turns(world: &mut World, synced: &mut Vec<u8>, so_far: &mut SoFar, turns: &[u8]) -> bool {
    for turn in turns {
        if !matches!(take_turn(world, synced, so_far, *turn), Ok(true)) {
            return false;
        }
    }
    true
}

// Runs these turns and stops. It answers whether anything was unsynced then; nothing if something else came than should.
fn run_and_stop(
    alloc: Global,
    world: &mut World,
    synced: &mut Vec<u8>,
    turns: &[u8],
    fill: Option<u8>,
) -> Option<bool> {
    let mut so_far = SoFar {
        done: [0; 2],
        gated: false,
    };
    keep(world, synced).ok()?;
    if !run_turns(world, synced, &mut so_far, turns) {
        return None;
    }
    let unsynced = world.content() != synced.as_slice();
    if stops(alloc, world, synced, so_far.gated, fill) {
        Some(unsynced)
    } else {
        None
    }
}

fn check(alloc: Global, synced: &mut Vec<u8>, turns: &[u8], fill: Option<u8>) -> Option<bool> {
    match World::new(alloc, 4_096) {
        Ok(mut world) => {
            let unsynced = run_and_stop(alloc, &mut world, synced, turns, fill);
            drop(world);
            unsynced
        }
        Err(_) => None,
    }
}

// Stops after these turns with each fill, if anything is unsynced then.
fn check_fills(alloc: Global, synced: &mut Vec<u8>, turns: &[u8]) -> Option<()> {
    if check(alloc, synced, turns, None)? {
        for fill in [0, 1, 0x37] {
            check(alloc, synced, turns, Some(fill))?;
        }
    }
    Some(())
}

// Stops after each device call of a schedule, unless another with the same beginning does, and counts the stops.
fn check_each(alloc: Global, synced: &mut Vec<u8>, turns: &Turns) -> Option<u64> {
    let mut stops = 0_u64;
    for end in 1..10 {
        if turns_for(&turns[..end], 2) < 3 || turns[end - 1] != 2 || !is_rising(&turns[end..]) {
            continue;
        }
        check_fills(alloc, synced, &turns[..end])?;
        stops = stops.saturating_add(1);
    }
    Some(stops)
}

fn check_all(alloc: Global, synced: &mut Vec<u8>) -> Option<u64> {
    let mut stops = 0_u64;
    for number in 0..19_683 {
        let turns = turns_of(number);
        if turns_for(&turns, 0) == 2 && turns_for(&turns, 1) == 1 {
            stops = stops.saturating_add(check_each(alloc, synced, &turns)?);
        }
    }
    Some(stops)
}

fn count_stops(alloc: Global) -> Option<u64> {
    let mut synced = Vec::new(alloc);
    let stops = check_all(alloc, &mut synced);
    drop(synced);
    stops
}

#[test]
fn a_stop_leaves_all_that_is_stored(rt: HostRuntime) {
    expect(&rt, count_stops(rt.alloc()) == Some(STOPS));
}

// A call of that number fails, alone or with all after it; then all stops.
fn failing(trial: Trial, call: u64, alone: bool, fill: Option<u8>) -> Trial {
    if alone {
        Trial {
            failing: call,
            fill,
            ..trial
        }
    } else {
        Trial {
            passed: call,
            fill,
            ..trial
        }
    }
}

// A block is written and synced, and then its gate is. If that call of the eight fails, so many commands are durable.
fn durable_of(call: u64) -> u64 {
    match call {
        0..=3 => 2,
        4..=7 => 4,
        _ => 5,
    }
}

// What is opened if that call fails and the unsynced bytes are the fill. A block is in if its gate was to be written and is 1.
// Each has the commands under the mark.
fn left_of(call: u64, fill: Option<u8>) -> &'static [u8] {
    let is_gate_open = call % 4 >= 2 && fill == Some(1);
    match (call, is_gate_open) {
        (0..=3, false) => OPENS,
        (0..=3, true) | (4..=7, false) => FIRST_BATCH,
        _ => BOTH_BATCHES,
    }
}

/// The first call of two batches that leaves something else if it fails, alone or with all after it.
pub(crate) fn first_wrong_in_batches(
    alloc: Global,
    findings: &mut Findings,
    alone: bool,
) -> Option<u64> {
    let before = calls_before(alloc, TWO_BATCHES, findings);
    let begun = findings.begun;
    for turn in 0..36_u64 {
        let (call, fill) = (turn / 4, FILLS[(turn % 4) as usize]);
        let trial = failing(TWO_BATCHES, before.saturating_add(call), alone, fill);
        try_out(alloc, trial, findings);
        let is_left = findings.opened.as_slice() == left_of(call, fill);
        if !begun || !findings.is(call > 7, durable_of(call)) || !is_left {
            return Some(call);
        }
    }
    None
}

#[test]
fn a_call_that_fails_within_two_batches_leaves_all_that_was_released(rt: HostRuntime) {
    expect_none(&rt, first_wrong(rt.alloc(), Series::FailingBatches));
}

#[test]
fn a_stop_within_two_batches_leaves_all_that_was_released(rt: HostRuntime) {
    expect_none(&rt, first_wrong(rt.alloc(), Series::StoppedBatches));
}

/// The compaction of a journal with so many messages of 40,000 bytes. An area has room for four of them.
pub(crate) fn compaction_of(messages: u32) -> Trial {
    Trial {
        area: 262_144,
        beginning: Beginning::Held(messages),
        deed: Deed::Compact(false),
        ..CALM
    }
}

/// The first call of such a compaction that leaves something else if it fails, alone or with all after it. Its calls are a write for each
/// piece, a sync, the selector's write, and a sync.
pub(crate) fn first_wrong_in_compaction(
    alloc: Global,
    findings: &mut Findings,
    messages: u32,
    pieces: u64,
    alone: bool,
) -> Option<u64> {
    let trial = compaction_of(messages);
    let before = calls_before(alloc, trial, findings);
    let begun = findings.begun;
    findings.keep();
    for turn in 0..28_u64 {
        let (call, fill) = (turn / 4, FILLS[(turn % 4) as usize]);
        let trial = failing(trial, before.saturating_add(call), alone, fill);
        try_out(alloc, trial, findings);
        let is_done = findings.is(
            call >= pieces.saturating_add(3),
            u64::from(messages).saturating_add(3),
        );
        if !begun || !is_done || !findings.is_stored() || !findings.is_opened_as_kept() {
            return Some(call);
        }
    }
    None
}

#[test]
fn a_call_that_fails_within_a_compaction_leaves_the_state(rt: HostRuntime) {
    expect_none(&rt, first_wrong(rt.alloc(), Series::FailingCompaction));
}

/// The same of a compaction of each length, with all after it.
pub(crate) fn first_wrong_stop(alloc: Global, findings: &mut Findings) -> Option<u64> {
    for (messages, pieces) in SNAPSHOTS {
        let wrong = first_wrong_in_compaction(alloc, findings, messages, pieces, false);
        if wrong.is_some() {
            return wrong;
        }
    }
    None
}

#[test]
fn a_stop_at_each_call_of_a_compaction_leaves_the_state(rt: HostRuntime) {
    expect_none(&rt, first_wrong(rt.alloc(), Series::StoppedCompactions));
}

// What the script beside the gate reads.
fn said_of(findings: &Findings) -> &'static str {
    if !findings.begun {
        return "unseen";
    }
    // A state that could not be spelled can't be compared.
    let is_spelled = !findings.state.is_empty() && !findings.stored.is_empty();
    let is_kept = if is_spelled {
        Some(findings.is_stored())
    } else {
        None
    };
    match (findings.done, findings.count, is_kept) {
        (Some(true), Some(2), Some(true)) => "whole",
        (Some(false), Some(2), Some(true)) => "refused",
        // Refused after it: for an entry or a snapshot.
        (Some(true), None, Some(true)) | (Some(true), Some(2), None) => "unseen",
        _ => "wrong",
    }
}

fn compact_it(alloc: Global) -> &'static str {
    let trial = Trial {
        deed: Deed::Compact(true),
        ..CALM
    };
    let mut findings = Findings::new(alloc);
    try_out(alloc, trial, &mut findings);
    let said = said_of(&findings);
    drop(findings);
    said
}

#[test]
fn a_compaction_for_which_memory_is_refused_leaves_the_state(rt: HostRuntime) {
    let seen = compact_it(rt.alloc());
    let is_printed = println!(rt; "{seen}").is_ok();
    expect(&rt, is_printed && seen != "wrong");
}
