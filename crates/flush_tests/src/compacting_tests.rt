//! How a compaction is written, and what a stop within its switch leaves.

use crate::schedule_tests::{OLD_LEN, Pick, RECORDS, Series, first_wrong, old_world, play_old};
use crate::step_tests::Deed;
use crate::stop_tests::{SNAPSHOTS, compaction_of};
use crate::trials::{
    Beginning, CALM, Findings, Trial, calls_before, expect, expect_none, send_to, try_out,
};
use command_core::Op;
use disk_core::Call;
use std::alloc::{AllocError, Global};
use std::cmp::min;
use work_share::{Costs, Sample, WIDEST};

// A piece has at most so many bytes.
const PIECE: u64 = 65_536;

// What follows the pieces.
const SWITCH: [Call; 3] = [Call::Sync, Call::Write { at: 16, len: 1 }, Call::Sync];

// The last of seven desks: the budget holds the dear commands of all others.
const LAST: usize = 6;

// Nothing is possible but to open the journal, and the numbers go on from the four.
const OPENED: [(Pick, bool); 11] = [
    (Pick::Front(OLD_LEN), true),
    (Pick::Numbers([4, 4, 4, 4, 4]), true),
    (Pick::Look(0), false),
    (Pick::Claim(0), false),
    (Pick::Take, false),
    (Pick::Stop, false),
    (Pick::Open, false),
    (Pick::OpenAll, true),
    (Pick::Numbers([4, 4, 4, 4, 4]), true),
    (Pick::Claim(0), true),
    (Pick::Numbers([4, 5, 4, 4, 4]), true),
];

const WITHOUT_BLOCK: [(Pick, bool); 4] = [
    (Pick::Front(72), true),
    (Pick::Byte(72, 0), true),
    (Pick::OpenAll, true),
    (Pick::Numbers([0, 0, 0, 0, 0]), true),
];

const CRASHED: [(Pick, bool); 3] = [
    (Pick::Crash(8_224, 0), true),
    (Pick::OpenAll, true),
    (Pick::Numbers([4, 4, 4, 4, 4]), true),
];

// The write of the piece of that number of so many bytes, from the first area's start on.
fn piece(number: usize, whole: u64) -> Call {
    let done = (number as u64).saturating_mul(PIECE);
    Call::Write {
        at: done.saturating_add(32),
        len: min(whole.saturating_sub(done), PIECE),
    }
}

// Whether these calls write so many bytes in so many pieces, sync once, and switch.
fn are_in_pieces(calls: &[Call], whole: u64, pieces: usize) -> bool {
    match (calls.get(..pieces), calls.get(pieces..)) {
        (Some(written), Some(switched)) => {
            let is_in_pieces = written
                .iter()
                .enumerate()
                .all(|(number, call)| *call == piece(number, whole));
            is_in_pieces && switched == &SWITCH[..]
        }
        _ => false,
    }
}

// The state has a length of eight bytes before it and a gate after it.
fn is_in_pieces(alloc: Global, findings: &mut Findings, messages: u32, pieces: u64) -> bool {
    let _ = calls_before(alloc, compaction_of(messages), findings);
    let before = findings.calls.len();
    try_out(alloc, compaction_of(messages), findings);
    let whole = (findings.state.len() as u64).saturating_add(9);
    let is_told = match findings.calls.get(before..) {
        Some(calls) => are_in_pieces(calls, whole, pieces as usize),
        None => false,
    };
    findings.done == Some(true) && is_told
}

/// How many messages a compaction has that is not written in its pieces.
pub(crate) fn first_wrong_pieces(alloc: Global, findings: &mut Findings) -> Option<u64> {
    for (messages, pieces) in SNAPSHOTS {
        if !is_in_pieces(alloc, findings, messages, pieces) {
            return Some(u64::from(messages));
        }
    }
    None
}

#[test]
fn a_compaction_is_written_in_pieces(rt: HostRuntime) {
    expect_none(&rt, first_wrong(rt.alloc(), Series::Pieces));
}

// What is shown, but not how much is used.
fn shown_but_used(shown: Option<[u64; 5]>) -> Option<[u64; 4]> {
    let [version, area, _, count, held] = shown?;
    Some([version, area, count, held])
}

/// The opening formatted area 0 and wrote area 1, so the first compaction writes area 0. A stop between the selector's write and its
/// sync leaves any byte there: an even one names area 0, an odd one area 1. Answers the first of which something else is shown.
pub(crate) fn first_wrong_selector(alloc: Global, findings: &mut Findings) -> Option<u64> {
    let trial = compaction_of(0);
    let before = calls_before(alloc, trial, findings);
    for (selector, area) in [(0x7a_u8, 0), (0x7b, 1)] {
        let trial = Trial {
            passed: before.saturating_add(3),
            fill: Some(selector),
            ..trial
        };
        try_out(alloc, trial, findings);
        if shown_but_used(findings.shown) != Some([2, area, 3, 0]) {
            return Some(u64::from(selector));
        }
    }
    None
}

#[test]
fn a_stop_with_any_selector_shows_the_same(rt: HostRuntime) {
    expect_none(&rt, first_wrong(rt.alloc(), Series::AnySelector));
}

// So many messages passed, and that is what the last compaction won. Answers what is shown then, if the compaction won that.
fn shown_after(
    alloc: Global,
    findings: &mut Findings,
    sends: u32,
    won: Option<u64>,
) -> Option<[u64; 5]> {
    let trial = Trial {
        beginning: Beginning::Passed(sends),
        deed: Deed::AskWon([won, None]),
        ..CALM
    };
    try_out(alloc, trial, findings);
    if findings.is(true, u64::from(sends).saturating_add(2)) {
        findings.shown
    } else {
        None
    }
}

/// Each block has nine bytes besides its record of 1,028. The opening's snapshot has 32 bytes, and the one with a session and its
/// subscription 72, each with nine more. So three fit, and the fourth compacts first. The session's opening and subscription are 40 bytes
/// in one block: before the fourth message 41 + 49 + 3 * 1,037 bytes are used. Answers whether that is so.
pub(crate) fn is_room_as_told(alloc: Global, findings: &mut Findings) -> bool {
    let three = shown_after(alloc, findings, 3, None);
    let four = shown_after(alloc, findings, 4, Some(3_201 - 81));
    three == Some([2, 1, 3_201, 5, 0]) && four == Some([2, 0, 1_118, 6, 0])
}

#[test]
fn a_block_that_does_not_fit_compacts_first(rt: HostRuntime) {
    expect_none(&rt, first_wrong(rt.alloc(), Series::Room));
}

/// Whether a hundred messages pass.
pub(crate) fn pass_a_hundred(alloc: Global, findings: &mut Findings) -> bool {
    let trial = Trial {
        beginning: Beginning::Passed(100),
        ..CALM
    };
    try_out(alloc, trial, findings);
    match findings.shown {
        Some(shown) => shown[3] == 102,
        None => false,
    }
}

#[test]
fn a_hundred_messages_pass_the_smallest_area(rt: HostRuntime) {
    expect_none(&rt, first_wrong(rt.alloc(), Series::Hundred));
}

/// A queue that nobody takes from has room for three messages of 1,000 bytes in the smallest area, and the fourth is refused. Answers
/// whether that is so.
pub(crate) fn is_fourth_refused(alloc: Global, findings: &mut Findings) -> bool {
    let trial = Trial {
        beginning: Beginning::Stuck(3),
        deed: Deed::Overfill,
        ..CALM
    };
    try_out(alloc, trial, findings);
    let used = (findings.state.len() as u64).saturating_add(9);
    findings.is(false, 5) && findings.is_stored() && findings.shown == Some([2, 0, used, 5, 3])
}

#[test]
fn a_state_that_leaves_no_room_is_told_and_kept(rt: HostRuntime) {
    expect_none(&rt, first_wrong(rt.alloc(), Series::Full));
}

// Such a command reached so many. If these are 10,000, the next is taken for one with 4,096 copies, which cost over 16 ms.
fn carry_out(costs: &Costs, op: &Op, outs: u64) -> Result<(), AllocError> {
    let audiences = costs.audiences()?;
    audiences.carried_out(Sample::of(op), outs);
    drop(audiences);
    Ok(())
}

// All other desks have a dear command under way, and the last one waits with that of client 7. Then none goes before it.
fn is_last_in_line(costs: &Costs, op: &Op) -> bool {
    for desk in 0..LAST {
        if costs.window(desk, 1, op, 0) != WIDEST {
            return false;
        }
        drop(costs.appended(desk, 1, desk as u64, 0));
    }
    costs.window(LAST, 7, op, 0) == 0 && costs.waits(LAST) && costs.window(0, 1, op, 1) == 0
}

// It waits until its client leaves, and not another.
fn leaves(costs: &Costs, op: &Op) -> bool {
    drop(costs.leave(LAST, 8));
    let waited = costs.waits(LAST);
    drop(costs.leave(LAST, 7));
    waited && !costs.waits(LAST) && costs.window(0, 1, op, 1) == WIDEST
}

// It goes once one of the others is done: a neighbour at its desk does not go on its number, and does not take it away.
fn goes(costs: &Costs, op: &Op, cheap: &Op) -> bool {
    let neighbour = costs.window(LAST, 8, op, 1);
    let other = costs.window(LAST, 8, cheap, 1);
    drop(costs.appended(LAST, 8, 100, 1));
    let waited = costs.waits(LAST);
    let window = costs.window(LAST, 7, op, 1);
    drop(costs.appended(LAST, 7, 101, 1));
    neighbour == 0 && other == WIDEST && waited && window == WIDEST && !costs.waits(LAST)
}

// Also if it costs little by then: its number is cleared all the same.
fn goes_cheaply(costs: &Costs, op: &Op) -> bool {
    for _send in 0..200u32 {
        if carry_out(costs, op, 0).is_err() {
            return false;
        }
    }
    let window = costs.window(LAST, 7, op, 0);
    drop(costs.appended(LAST, 7, 100, 0));
    window == WIDEST && !costs.waits(LAST)
}

// Whether the line ends in each of these ways.
fn ends(alloc: Global, op: &Op, cheap: &Op, way: u32) -> bool {
    let Ok(costs) = Costs::new(alloc, LAST + 1) else {
        return false;
    };
    let is_right = carry_out(&costs, op, 10_000).is_ok()
        && is_last_in_line(&costs, op)
        && match way {
            0 => leaves(&costs, op),
            1 => goes(&costs, op, cheap),
            _ => goes_cheaply(&costs, op),
        };
    drop(costs);
    is_right
}

fn ends_each_way(alloc: Global) -> bool {
    let (Some(send), Some(cheap)) = (send_to(alloc, "/topic/a", 0), send_to(alloc, "/queue/b", 0))
    else {
        return false;
    };
    let mut is_right = true;
    for way in 0..3u32 {
        is_right &= ends(alloc, send.op(), cheap.op(), way);
    }
    drop(send);
    drop(cheap);
    is_right
}

/// Else a desk whose client has left, or whose command has gone, would let the dear commands of all others wait for ever.
#[test]
fn a_desk_leaves_the_line_with_its_client_or_its_command(rt: HostRuntime) {
    expect(&rt, ends_each_way(rt.alloc()));
}

#[test]
fn new_v1_opens(rt: HostRuntime) {
    expect(&rt, play_old(rt.alloc(), &RECORDS, &OPENED));
}

// With no commands there is no block.
#[test]
fn a_journal_of_the_first_version_may_have_no_block(rt: HostRuntime) {
    expect(&rt, play_old(rt.alloc(), &[], &WITHOUT_BLOCK));
}

// A crash may leave any bytes in place of what was written and not synced, and the four stay.
#[test]
fn a_crash_before_opening_leaves_the_four(rt: HostRuntime) {
    expect(&rt, play_old(rt.alloc(), &RECORDS, &CRASHED));
}

// Whether so many Opens fit.
fn fit(alloc: Global, count: u32) -> Option<bool> {
    let world = old_world(alloc, &RECORDS[..1], count)?;
    let fit = world.is_some();
    drop(world);
    Some(fit)
}

// An Open has 11 bytes, so 367 of them fit after a gate at 40 into an area of 4,096 bytes, and 368 do not.
#[test]
fn commands_that_do_not_fit_make_no_world(rt: HostRuntime) {
    expect(&rt, fit(rt.alloc(), 367) == Some(true));
    expect(&rt, fit(rt.alloc(), 368) == Some(false));
}
