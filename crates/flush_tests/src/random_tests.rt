//! Random events, wrong ones among them, against a world that is computed slowly.
ghost use Rattle.std.specs.Prelude.{◌≢◌};

use crate::schedule_tests::{AREA, Pick, RECORDS, apply, numbers, old_world};
use crate::slow_world::SlowWorld;
use crate::trials::expect_none;
use std::alloc::{AllocError, Global};
use world_core::{Call, CallKind, CallList, World};

// The next number of a fixed row.
fn next(seed: &mut u64) -> u64 {
    *seed = seed
        .wrapping_mul(6_364_136_223_846_793_005)
        .wrapping_add(1_442_695_040_888_963_407);
    *seed / 4_294_967_296
}

// Whether it is so this time: once in `times` times.
fn once_in(seed: &mut u64, times: u64) -> bool
    requires { times ≢ 0 }
{
    next(seed) % times == 0
}

fn pick_call(seed: &mut u64, running: bool) -> Call {
    let list = if once_in(seed, 12) {
        CallList::Snapshot
    } else if once_in(seed, 6) {
        CallList::Switch
    } else if running && !once_in(seed, 60) {
        CallList::Append
    } else {
        CallList::Open
    };
    let kind = match next(seed) % 3 {
        0 => CallKind::Read,
        1 => CallKind::Write,
        _ => CallKind::Sync,
    };
    Call {
        list,
        kind,
        ok: !once_in(seed, 50),
    }
}

// A byte of the disk: an unsynced one, or any.
fn pick_place(seed: &mut u64, slow: &SlowWorld) -> usize {
    if once_in(seed, 4) {
        return (next(seed) % (32 + 2 * AREA as u64)) as usize;
    }
    slow.unsynced.0.saturating_add((next(seed) % 20) as usize)
}

fn choose(seed: &mut u64, slow: &SlowWorld) -> Pick {
    let seat = (next(seed) % 4) as usize;
    match next(seed) % 40 {
        0..=2 => Pick::Look(seat),
        3..=7 => Pick::Claim(seat),
        8..=12 => Pick::Ready(seat),
        13..=16 => Pick::Take,
        17..=32 => Pick::Device(pick_call(seed, slow.is_running())),
        33 | 34 => Pick::Raise(slow.mark.saturating_add(next(seed) % 4)),
        35 => Pick::Release(seat, slow.mark.saturating_sub(next(seed) % 3)),
        36 => Pick::Stop,
        37 if once_in(seed, 10) => Pick::Crash(pick_place(seed, slow), (next(seed) % 3) as u8),
        38 => Pick::Look(64),
        _ => Pick::Open,
    }
}

fn apply_slowly(slow: &mut SlowWorld, pick: Pick) -> Result<bool, AllocError> {
    match pick {
        Pick::Claim(j) => slow.claim(j),
        Pick::Look(j) => Ok(slow.look(j)),
        Pick::Ready(j) => Ok(slow.ready(j)),
        Pick::Take => Ok(slow.take()),
        Pick::Device(call) => Ok(slow.device(call)),
        Pick::Raise(n) => Ok(slow.raise(n)),
        Pick::Release(j, n) => Ok(slow.release(j, n)),
        Pick::Stop => Ok(slow.stop()),
        Pick::Crash(at, byte) => Ok(slow.crash(at, byte)),
        Pick::Open => Ok(slow.open()),
        _ => Ok(false),
    }
}

// Whether an event came to the same in both worlds. The disks are compared after an event that may have changed them.
fn are_same(world: &World, slow: &SlowWorld, may_write: bool) -> bool {
    let slow_numbers = [
        slow.base,
        slow.claimed(),
        slow.taken,
        slow.stored,
        slow.mark,
    ];
    numbers(world) == slow_numbers && (!may_write || world.content() == slow.content.as_slice())
}

// Applies an event in both worlds, and answers whether it was possible; nothing if they differ.
fn take_step(alloc: Global, world: &mut World, slow: &mut SlowWorld, pick: Pick) -> Option<bool> {
    let wanted = apply_slowly(slow, pick).ok()?;
    let answer = apply(alloc, world, pick).ok()?;
    let may_write = answer && matches!(pick, Pick::Device(_) | Pick::Crash(_, _));
    if answer == wanted && are_same(world, slow, may_write) {
        Some(answer)
    } else {
        None
    }
}

// The first event, from that beginning of the row on, after which the worlds differ; or `events` if too few of so many were possible.
fn first_wrong(
    alloc: Global,
    world: &mut World,
    slow: &mut SlowWorld,
    from: u64,
    events: u64,
) -> Option<u64> {
    let mut seed = from;
    let mut possible = 0_u64;
    for step in 0..events {
        let pick = choose(&mut seed, slow);
        match take_step(alloc, world, slow, pick) {
            Some(true) => possible = possible.saturating_add(1),
            Some(false) => {}
            None => return Some(step),
        }
    }
    if possible > events / 10 && slow.base > 0 {
        None
    } else {
        Some(events)
    }
}

// The same in this world and a slow one, after a life that had so many commands and crashed, if any.
fn first_apart(
    alloc: Global,
    world: World,
    crashed: Option<u64>,
    from: u64,
    events: u64,
) -> Option<u64> {
    let mut world = world;
    let mut slow = SlowWorld::new(alloc);
    let begun = match crashed {
        Some(count) => slow.begin_crashed(world.content(), count),
        None => slow.begin(world.content()),
    };
    let mut wrong = Some(0);
    if begun.is_ok() {
        wrong = first_wrong(alloc, &mut world, &mut slow, from, events);
    }
    drop(slow);
    drop(world);
    wrong
}

fn first_wrong_of_new(alloc: Global) -> Option<u64> {
    match World::new(alloc, 4_096) {
        Ok(world) => first_apart(alloc, world, None, 20_251_123, 100_000),
        Err(_) => Some(0),
    }
}

#[test]
fn random_events_do_what_the_description_says(rt: HostRuntime) {
    expect_none(&rt, first_wrong_of_new(rt.alloc()));
}

fn first_wrong_of_old(alloc: Global) -> Option<u64> {
    match old_world(alloc, &RECORDS[..1], 3) {
        Some(Some(world)) => first_apart(alloc, world, Some(3), 20_261_126, 20_000),
        _ => Some(0),
    }
}

// A journal of the first version with three commands in a block.
#[test]
fn random_events_go_on_from_the_first_version(rt: HostRuntime) {
    expect_none(&rt, first_wrong_of_old(rt.alloc()));
}
