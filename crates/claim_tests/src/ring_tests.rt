ghost use Rattle.std.specs.Prelude.{◌≡◌, ◌≤◌, ◌*◌, ◌^◌, All};

use crate::box_tests::MANY;
use claim_core::{FlushSeat, NotYet, Refused, Ring, RingEnd, SessionSeat};
use command_core::{Command, Entry, Op, Out, connected_reply};
use frame_core::{Bytes, Frame, Headers, Verb};
use outbox_core::{Bell, BoxSize, Boxes, OutTaker, Taken, outbox};
use std::alloc::{AllocError, Global};
use std::cell::{Cell, RefCell};
use std::process::Abort;
use std::sync::Wait;
use std::test::Fail;
use std::thread::{self, Threads};

// A box of one output.
const ONE: BoxSize = BoxSize {
    outputs: 1,
    bytes: u64::MAX,
};

const THREADS: [Threading; 3] = [Threading::One, Threading::Two, Threading::Four];

// What the bells of some boxes did: how often they rang, how often they noted that they will, and how things stood at
// the first ring.
#[derive(Drop)]
struct Heard {
    rings: Cell<u64>,
    notes: Cell<u64>,
    notes_at_first: Cell<u64>,
    waited_at_first: Cell<u64>,
    // The takers of the boxes.
    takers: RefCell<Vec<OutTaker>>,
}

impl Heard {
    fn new(alloc: Global) -> Heard {
        Heard {
            rings: Cell::new(0),
            notes: Cell::new(0),
            notes_at_first: Cell::new(0),
            waited_at_first: Cell::new(0),
            takers: RefCell::new(Vec::new(alloc)),
        }
    }
}

// Notes how things stand at the first ring, and how often it rings.
#[derive(Drop)]
struct Noting<'a> {
    heard: &'a Heard,
    rings: &'a Cell<u64>,
}

impl Bell for Noting<'_> {
    fn ring(&self) {
        if self.heard.rings.get() == 0 {
            self.heard.notes_at_first.set(self.heard.notes.get());
            self.heard.waited_at_first.set(waiting(&self.heard.takers));
        }
        self.heard.rings.set(self.heard.rings.get().wrapping_add(1));
        self.rings.set(self.rings.get().wrapping_add(1));
    }

    fn note(&self) {
        self.heard.notes.set(self.heard.notes.get().wrapping_add(1));
    }
}

// How many outputs the last taker finds, up to 100.
fn waiting(takers: &RefCell<Vec<OutTaker>>) -> u64 {
    let Ok(mut takers) = takers.try_borrow_mut() else {
        return 0;
    };
    match takers.last_mut() {
        Some(taker) => count(taker),
        None => 0,
    }
}

fn count(taker: &mut OutTaker) -> u64 {
    for found in 0..100u64 {
        let Taken::Item(_) = taker.next() else {
            return found;
        };
    }
    100
}

// An output to a session.
fn to(alloc: Global, session: u64) -> Result<Out, AllocError> {
    let frame = Frame {
        verb: Verb::Message,
        headers: Headers::new(Vec::new(alloc)),
        body: Bytes::new(Vec::new(alloc)),
    };
    Out::new(alloc, 9, session, frame)
}

fn to_each(alloc: Global, sessions: &[u64]) -> Result<Vec<Out>, AllocError> {
    let mut outs = Vec::new(alloc);
    for session in sessions {
        outs.push(to(alloc, *session)?)?;
    }
    Ok(outs)
}

// Keeps a box of that size for a session, whose bell counts its rings in `rings`.
fn keep<'a>(
    alloc: Global,
    boxes: &mut Boxes<Noting<'a>>,
    session: u64,
    size: BoxSize,
    heard: &'a Heard,
    rings: &'a Cell<u64>,
) -> Result<(), Fail> {
    let (sender, taker) = outbox(alloc, Noting { heard, rings }, size)?;
    boxes.keep(session, sender)?;
    match heard.takers.try_borrow_mut() {
        Ok(mut takers) => Ok(takers.push(taker)?),
        Err(_) => Err(Fail::from("a taker is in use")),
    }
}

// Gives an output to each of these sessions.
fn give(
    rt: &impl Abort,
    alloc: Global,
    boxes: &mut Boxes<Noting<'_>>,
    left: &mut Vec<Out>,
    sessions: &[u64],
) -> Result<(), AllocError> {
    let outs = to_each(alloc, sessions)?;
    assert!(rt; left.len() <= 8 && outs.len() <= 8 && left.capacity() >= 16);
    boxes.give_all(outs, left);
    Ok(())
}

fn counts_of(rings: &[Cell<u64>; 4]) -> [u64; 4] {
    [
        rings[0].get(),
        rings[1].get(),
        rings[2].get(),
        rings[3].get(),
    ]
}

// Keeps a box of 512 outputs for each of four sessions.
fn keep_four<'a>(
    alloc: Global,
    boxes: &mut Boxes<Noting<'a>>,
    heard: &'a Heard,
    rings: &'a [Cell<u64>; 4],
) -> Result<(), Fail> {
    keep(alloc, boxes, 1, MANY, heard, &rings[0])?;
    keep(alloc, boxes, 2, MANY, heard, &rings[1])?;
    keep(alloc, boxes, 3, MANY, heard, &rings[2])?;
    keep(alloc, boxes, 4, MANY, heard, &rings[3])
}

// The outputs to eight, one of which has no box; then to two; then two boxes are let go.
fn give_twice_and_let_go(
    rt: &impl Abort,
    alloc: Global,
    boxes: &mut Boxes<Noting<'_>>,
    left: &mut Vec<Out>,
    rings: &[Cell<u64>; 4],
) -> Result<[[u64; 4]; 3], AllocError> {
    left.reserve(16)?;
    give(rt, alloc, boxes, left, &[1, 4, 2, 1, 7, 4, 2, 4])?;
    let first = counts_of(rings);
    give(rt, alloc, boxes, left, &[3, 4])?;
    let second = counts_of(rings);
    boxes.let_go(&[1, 4]);
    Ok([first, second, counts_of(rings)])
}

#[test]
fn each_box_that_was_given_something_is_rung_once_after_all_have_theirs(
    rt: HostRuntime,
) -> Result<(), Fail> {
    let heard = Heard::new(rt.alloc());
    let rings = [Cell::new(0), Cell::new(0), Cell::new(0), Cell::new(0)];
    let mut boxes = Boxes::new(rt.alloc());
    let mut left = Vec::new(rt.alloc());
    let kept = keep_four(rt.alloc(), &mut boxes, &heard, &rings);
    let given = give_twice_and_let_go(&rt, rt.alloc(), &mut boxes, &mut left, &rings);
    let without_box = left.len();
    drop(left);
    drop(boxes);
    kept?;
    assert_eq!(rt; given?, [[1, 1, 0, 1], [1, 1, 1, 2], [2, 1, 1, 3]]);
    assert_eq!(rt; without_box, 1);
    assert_eq!(rt;
        (heard.notes_at_first.get(), heard.waited_at_first.get()),
        (3, 3)
    );
    assert_eq!(rt; counts_of(&rings), [2, 2, 2, 3]);
    Ok(())
}

fn expect_one_ring<'a>(
    rt: &impl Abort,
    alloc: Global,
    boxes: &mut Boxes<Noting<'a>>,
    left: &mut Vec<Out>,
    heard: &'a Heard,
    rings: &'a Cell<u64>,
) -> Result<(), Fail> {
    left.reserve(16)?;
    keep(alloc, boxes, 1, ONE, heard, rings)?;
    give(rt, alloc, boxes, left, &[1, 1, 1])?;
    assert_eq!(rt; (rings.get(), heard.waited_at_first.get()), (1, 1));
    give(rt, alloc, boxes, left, &[1, 1])?;
    assert_eq!(rt; (rings.get(), waiting(&heard.takers)), (1, 0));
    Ok(())
}

#[test]
fn a_box_that_is_cut_within_a_batch_is_rung_once_and_never_again(
    rt: HostRuntime,
) -> Result<(), Fail> {
    let heard = Heard::new(rt.alloc());
    let rings = Cell::new(0);
    let mut boxes = Boxes::new(rt.alloc());
    let mut left = Vec::new(rt.alloc());
    let done = expect_one_ring(&rt, rt.alloc(), &mut boxes, &mut left, &heard, &rings);
    drop(left);
    drop(boxes);
    done
}

// An entry that acknowledges that delivery.
fn entry(alloc: Global, delivery: u64) -> Option<Entry<()>> {
    Entry::new(alloc, Command::new(7, Op::Ack(delivery), None), None).ok()
}

// Which delivery an entry acknowledges.
fn delivery(entry: &Entry<()>) -> Option<u64> {
    match entry.command().op() {
        Op::Ack(delivery) => Some(*delivery),
        _ => None,
    }
}

// A CONNECTED that comes from the command of that number.
fn output(alloc: Global, number: u64) -> Result<Out, AllocError> {
    let frame = connected_reply(alloc, 3)?;
    Out::new(alloc, number, 3, frame)
}

/// What an append answered, with the delivery of the entry if that came back.
#[derive(Clone, Copy, Debug, PartialEq, Eq)]
pub enum Answer {
    NoMemory,
    Ticket(u64),
    Back(Refused, Option<u64>),
}

/// Appends an entry that acknowledges that delivery.
pub fn append<const SEATS: usize, const WINDOW: usize, const PLACES: usize>(
    alloc: Global,
    ring: &Ring<(), SEATS, WINDOW, PLACES>,
    seat: &mut SessionSeat<(), WINDOW>,
    number: u64,
) -> Answer
    requires { seat.old.ring ≡ ring.now }
    ensures { seat.new.ring ≡ ring.now }
{
    let Some(entry) = entry(alloc, number) else {
        return Answer::NoMemory;
    };
    match ring.append(seat, entry) {
        Ok(ticket) => Answer::Ticket(ticket),
        Err((back, refused)) => Answer::Back(refused, delivery(&back)),
    }
}

// Takes an entry, and answers which delivery it acknowledges.
fn take<const SEATS: usize, const WINDOW: usize, const PLACES: usize>(
    ring: &Ring<(), SEATS, WINDOW, PLACES>,
    flush: &mut FlushSeat<()>,
) -> Option<u64>
    requires { flush.old.ring ≡ ring.now }
    ensures { flush.new.ring ≡ ring.now }
{
    match ring.take(flush) {
        Some(entry) => delivery(&entry),
        None => None,
    }
}

// Raises the mark to what was taken, and answers it.
fn publish<const SEATS: usize, const WINDOW: usize, const PLACES: usize>(
    ring: &Ring<(), SEATS, WINDOW, PLACES>,
    flush: &mut FlushSeat<()>,
) -> u64
    requires { flush.old.ring ≡ ring.now }
    ensures { flush.new.ring ≡ ring.now }
{
    let next = flush.next();
    ring.raise(flush, next);
    next
}

// The number of an output of that command, if it may leave, or the mark that it waits under.
fn release<const SEATS: usize, const WINDOW: usize, const PLACES: usize>(
    alloc: Global,
    ring: &Ring<(), SEATS, WINDOW, PLACES>,
    seat: &mut SessionSeat<(), WINDOW>,
    number: u64,
) -> Option<Result<u64, NotYet>>
    requires { seat.old.ring ≡ ring.now }
    ensures { seat.new.ring ≡ ring.now }
{
    let out = output(alloc, number).ok()?;
    match ring.release(seat, out) {
        Ok(released) => Some(Ok(released.number())),
        Err((_, not_yet)) => Some(Err(not_yet)),
    }
}

/// What a session, another one or the flusher does, and what is to come of it.
#[derive(Clone, Copy)]
pub enum RingStep {
    /// The session appends an entry that acknowledges this delivery.
    Append(u64, Answer),
    /// It appends eight, each of which gets its own delivery for a ticket: this one and the next seven.
    AppendEight(u64),
    /// An output of this command leaves the session, or must wait.
    Release(u64, Result<u64, NotYet>),
    /// The other session sees this mark.
    Look(u64),
    /// The flusher takes the entry of this delivery, or finds none.
    Take(Option<u64>),
    /// It takes eight, of this delivery and the next seven, and finds no more.
    TakeEight(u64),
    /// It raises the mark to what it took, which is this.
    Publish(u64),
    /// It stops the ring.
    Stop,
}

fn appends_eight<const SEATS: usize, const WINDOW: usize, const PLACES: usize>(
    alloc: Global,
    ring: &Ring<(), SEATS, WINDOW, PLACES>,
    seat: &mut SessionSeat<(), WINDOW>,
    first: u64,
) -> bool
    requires { seat.old.ring ≡ ring.now }
    ensures { seat.new.ring ≡ ring.now }
{
    for i in 0..8u64 {
        let ticket = first.saturating_add(i);
        if append(alloc, ring, seat, ticket) != Answer::Ticket(ticket) {
            return false;
        }
    }
    true
}

fn takes_eight<const SEATS: usize, const WINDOW: usize, const PLACES: usize>(
    ring: &Ring<(), SEATS, WINDOW, PLACES>,
    flush: &mut FlushSeat<()>,
    first: u64,
) -> bool
    requires { flush.old.ring ≡ ring.now }
    ensures { flush.new.ring ≡ ring.now }
{
    for i in 0..8u64 {
        if take(ring, flush) != Some(first.saturating_add(i)) {
            return false;
        }
    }
    take(ring, flush).is_none()
}

// Whether what came of the step is what should.
fn is_done<const SEATS: usize, const WINDOW: usize, const PLACES: usize>(
    alloc: Global,
    ring: &Ring<(), SEATS, WINDOW, PLACES>,
    seat: &mut SessionSeat<(), WINDOW>,
    other: &mut SessionSeat<(), WINDOW>,
    flush: &mut FlushSeat<()>,
    step: RingStep,
) -> bool
    requires { (seat.old.ring ≡ ring.now) × (other.old.ring ≡ ring.now) × (flush.old.ring ≡ ring.now) }
    ensures { (seat.new.ring ≡ ring.now) × (other.new.ring ≡ ring.now) × (flush.new.ring ≡ ring.now) }
{
    match step {
        RingStep::Append(delivery, wanted) => append(alloc, ring, seat, delivery) == wanted,
        RingStep::AppendEight(first) => appends_eight(alloc, ring, seat, first),
        RingStep::Release(number, wanted) => release(alloc, ring, seat, number) == Some(wanted),
        RingStep::Look(wanted) => ring.look(other) == wanted,
        RingStep::Take(wanted) => take(ring, flush) == wanted,
        RingStep::TakeEight(first) => takes_eight(ring, flush, first),
        RingStep::Publish(wanted) => publish(ring, flush) == wanted,
        RingStep::Stop => {
            ring.stop(flush);
            true
        }
    }
}

// The place of the first step of which something else came.
fn first_wrong<const SEATS: usize, const WINDOW: usize, const PLACES: usize>(
    alloc: Global,
    ring: &Ring<(), SEATS, WINDOW, PLACES>,
    seat: &mut SessionSeat<(), WINDOW>,
    other: &mut SessionSeat<(), WINDOW>,
    flush: &mut FlushSeat<()>,
    steps: &[RingStep],
) -> Option<usize>
    requires { (seat.old.ring ≡ ring.now) × (other.old.ring ≡ ring.now) × (flush.old.ring ≡ ring.now) }
{
    for (place, step) in steps.iter().enumerate() {
        if !is_done(alloc, ring, seat, other, flush, *step) {
            return Some(place);
        }
    }
    None
}

// The same for two of the seats of a ring.
fn first_wrong_of_two<const SEATS: usize, const WINDOW: usize, const PLACES: usize>(
    alloc: Global,
    ring: &Ring<(), SEATS, WINDOW, PLACES>,
    seats: &mut Vec<SessionSeat<(), WINDOW>>,
    flush: &mut FlushSeat<()>,
    steps: &[RingStep],
) -> Option<usize>
    requires { All (λ seat. seat.ring ≡ ring.now) seats.old.items × (flush.old.ring ≡ ring.now) }
{
    match (seats.pop(), seats.pop()) {
        (Some(mut seat), Some(mut other)) => first_wrong(
            alloc, ring, &mut seat, &mut other, flush, steps,
        ),
        _ => Some(0),
    }
}

/// Makes these steps at a new ring, whose first ticket is `base`.
pub fn play<const SEATS: usize, const WINDOW: usize, const PLACES: usize>(
    rt: &impl Abort,
    alloc: Global,
    base: u64,
    steps: &[RingStep],
) -> Result<(), AllocError>
    requires limits { (1 ≤ SEATS) × (1 ≤ WINDOW) × (1 ≤ PLACES) × (SEATS * WINDOW ≤ PLACES) × (PLACES ≤ 4096) }
    requires base { base ≤ 2 ^ 61 }
{
    let (ring, mut seats, mut flush) = Ring::<(), SEATS, WINDOW, PLACES>::new(alloc, base)?;
    let wrong = first_wrong_of_two(alloc, &ring, &mut seats, &mut flush, steps);
    assert_eq!(rt; wrong, None);
    Ok(())
}

#[test]
fn a_window_opens_again_when_the_mark_rises(rt: HostRuntime) -> Result<(), Fail> {
    let steps = [
        RingStep::AppendEight(0),
        RingStep::Append(8, Answer::Back(Refused::Busy(0), Some(8))),
        RingStep::TakeEight(0),
        RingStep::Look(0),
        RingStep::Publish(8),
        RingStep::Look(8),
        RingStep::Append(8, Answer::Ticket(8)),
    ];
    play::<32, 8, 256>(&rt, rt.alloc(), 0, &steps)?;
    Ok(())
}

// Rounds of eight entries that are taken and published: the 33rd begins in the place in which the first did.
#[test]
fn tickets_go_round_the_256_places(rt: HostRuntime) -> Result<(), Fail> {
    let mut steps = [RingStep::Stop; 99];
    for round in 0..33usize {
        let first = round as u64 * 8;
        steps[3 * round] = RingStep::AppendEight(first);
        steps[3 * round + 1] = RingStep::TakeEight(first);
        steps[3 * round + 2] = RingStep::Publish(first + 8);
    }
    play::<32, 8, 256>(&rt, rt.alloc(), 0, &steps)?;
    Ok(())
}

#[test]
fn an_output_leaves_once_its_number_is_under_the_mark(rt: HostRuntime) -> Result<(), Fail> {
    let steps = [
        RingStep::Append(5, Answer::Ticket(0)),
        RingStep::Take(Some(5)),
        RingStep::Release(0, Err(NotYet(0))),
        RingStep::Publish(1),
        RingStep::Release(0, Ok(0)),
        RingStep::Release(1, Err(NotYet(1))),
    ];
    play::<2, 2, 4>(&rt, rt.alloc(), 0, &steps)?;
    Ok(())
}

#[test]
fn a_small_ring_has_windows_of_its_own(rt: HostRuntime) -> Result<(), Fail> {
    let steps = [
        RingStep::Append(70, Answer::Ticket(0)),
        RingStep::Append(71, Answer::Ticket(1)),
        RingStep::Append(72, Answer::Back(Refused::Busy(0), Some(72))),
        RingStep::Take(Some(70)),
        RingStep::Take(Some(71)),
        RingStep::Publish(2),
        RingStep::Append(72, Answer::Ticket(2)),
        RingStep::Append(73, Answer::Ticket(3)),
        RingStep::Take(Some(72)),
        RingStep::Take(Some(73)),
        RingStep::Publish(4),
        RingStep::Append(74, Answer::Ticket(4)),
    ];
    play::<2, 2, 4>(&rt, rt.alloc(), 0, &steps)?;
    Ok(())
}

#[test]
fn tickets_end_where_the_mark_is_two_to_the_60(rt: HostRuntime) -> Result<(), Fail> {
    let steps = [
        RingStep::Append(5, Answer::Back(Refused::Exhausted, Some(5))),
        RingStep::Stop,
        RingStep::Append(6, Answer::Back(Refused::Stopped, Some(6))),
    ];
    play::<32, 8, 256>(&rt, rt.alloc(), 1 << 60, &steps)?;
    Ok(())
}

#[test]
fn tickets_pass_two_to_the_60_while_the_mark_is_under_it(rt: HostRuntime) -> Result<(), Fail> {
    let steps = [
        RingStep::Append(5, Answer::Ticket(1_152_921_504_606_846_975)),
        RingStep::Append(6, Answer::Ticket(1_152_921_504_606_846_976)),
    ];
    play::<32, 8, 256>(&rt, rt.alloc(), (1 << 60) - 1, &steps)?;
    Ok(())
}

#[test]
fn a_ring_with_no_seats_out_ends_where_it_began(rt: HostRuntime) -> Result<(), Fail> {
    let (ring, seats, flush) = Ring::<(), 2, 2, 4>::new(rt.alloc(), 9)?;
    let end = ring.close(seats, flush)?;
    let same = RingEnd {
        base: 9,
        claimed: 9,
        taken: 9,
        mark: 9,
    };
    assert!(rt; end == same);
    Ok(())
}

fn count_one(counts: &mut [u8], ticket: u64) {
    if let Some(count_one) = counts.get_mut(ticket as usize) {
        *count_one = count_one.saturating_add(1);
    }
}

// Appends as many entries as the window takes, counts their tickets, and answers whether one more is refused as busy at mark 0.
fn fill<const SEATS: usize, const WINDOW: usize, const PLACES: usize>(
    alloc: Global,
    ring: &Ring<(), SEATS, WINDOW, PLACES>,
    seat: &mut SessionSeat<(), WINDOW>,
    counts: &mut [u8],
) -> bool
    requires { seat.old.ring ≡ ring.now }
    ensures { seat.new.ring ≡ ring.now }
{
    for number in 0..WINDOW as u64 {
        if let Answer::Ticket(ticket) = append(alloc, ring, seat, number) {
            count_one(counts, ticket);
        }
    }
    append(alloc, ring, seat, 99) == Answer::Back(Refused::Busy(0), Some(99))
}

// How often each ticket came at these seats, or nothing unless every seat was then busy at mark 0.
fn fill_all<const SEATS: usize, const WINDOW: usize, const PLACES: usize>(
    alloc: Global,
    ring: &Ring<(), SEATS, WINDOW, PLACES>,
    seats: &mut [SessionSeat<(), WINDOW>],
) -> Option<[u8; PLACES]>
    requires { All (λ seat. seat.ring ≡ ring.now) seats.old }
{
    let mut counts = [0; PLACES];
    let mut all_busy = true;
    for place in 0..seats.len() {
        all_busy = fill(alloc, ring, &mut seats[place], &mut counts) && all_busy;
    }
    if all_busy { Some(counts) } else { None }
}

fn sum_of<const PLACES: usize>(
    ones: Option<[u8; PLACES]>,
    others: Option<[u8; PLACES]>,
) -> Option<[u8; PLACES]> {
    let (mut sum, others) = (ones?, others?);
    for (sum, other) in sum.iter_mut().zip(others.iter()) {
        *sum = sum.saturating_add(*other);
    }
    Some(sum)
}

// The same, half of the seats in one thread, and the other half in another.
fn fill_in_two_threads<
    R: Threads + Wait + Sync,
    const SEATS: usize,
    const WINDOW: usize,
    const PLACES: usize,
>(
    rt: &R,
    alloc: Global,
    ring: &Ring<(), SEATS, WINDOW, PLACES>,
    seats: &mut [SessionSeat<(), WINDOW>],
) -> Option<[u8; PLACES]>
    requires { All (λ seat. seat.ring ≡ ring.now) seats.old }
{
    let (ones, others) = seats.split_at_mut(seats.len() / 2);
    let (ones, others) = thread::join(
        rt,
        || -> Option<[u8; PLACES]>
            requires { All (λ seat. seat.ring ≡ ring.now) ones.now }
        { fill_all(alloc, ring, ones) },
        || -> Option<[u8; PLACES]>
            requires { All (λ seat. seat.ring ≡ ring.now) others.now }
        { fill_all(alloc, ring, others) },
    );
    sum_of(ones, others)
}

// The same, a quarter in each of four threads.
fn fill_in_four_threads<
    R: Threads + Wait + Sync,
    const SEATS: usize,
    const WINDOW: usize,
    const PLACES: usize,
>(
    rt: &R,
    alloc: Global,
    ring: &Ring<(), SEATS, WINDOW, PLACES>,
    seats: &mut [SessionSeat<(), WINDOW>],
) -> Option<[u8; PLACES]>
    requires { All (λ seat. seat.ring ≡ ring.now) seats.old }
{
    let (ones, others) = seats.split_at_mut(seats.len() / 2);
    let (ones, others) = thread::join(
        rt,
        || -> Option<[u8; PLACES]>
            requires { All (λ seat. seat.ring ≡ ring.now) ones.now }
        { fill_in_two_threads(rt, alloc, ring, ones) },
        || -> Option<[u8; PLACES]>
            requires { All (λ seat. seat.ring ≡ ring.now) others.now }
        { fill_in_two_threads(rt, alloc, ring, others) },
    );
    sum_of(ones, others)
}

// In how many threads seats are filled.
#[derive(Clone, Copy)]
enum Threading {
    One,
    Two,
    Four,
}

// Whether all seats of a new ring get each ticket once.
fn each_ticket_comes_once<
    R: Threads + Wait + Sync,
    const SEATS: usize,
    const WINDOW: usize,
    const PLACES: usize,
>(rt: &R, alloc: Global, threads: Threading) -> Result<bool, AllocError>
    requires limits { (1 ≤ SEATS) × (1 ≤ WINDOW) × (1 ≤ PLACES) × (SEATS * WINDOW ≤ PLACES) × (PLACES ≤ 4096) }
{
    let (ring, mut seats, _flush) = Ring::<(), SEATS, WINDOW, PLACES>::new(alloc, 0)?;
    let all = seats.as_mut_slice();
    let counts = match threads {
        Threading::One => fill_all(alloc, &ring, all),
        Threading::Two => fill_in_two_threads(rt, alloc, &ring, all),
        Threading::Four => fill_in_four_threads(rt, alloc, &ring, all),
    };
    Ok(counts.is_some_and(|counts| counts.iter().all(|count_one| *count_one == 1)))
}

#[test]
fn thirty_two_seats_of_eight_get_each_of_256_tickets_once(rt: HostRuntime) -> Result<(), Fail> {
    for threads in THREADS {
        let once = each_ticket_comes_once::<_, 32, 8, 256>(&rt, rt.alloc(), threads)?;
        assert!(rt; once);
    }
    Ok(())
}

#[test]
fn the_brokers_64_seats_of_sixteen_get_each_of_1024_tickets_once(
    rt: HostRuntime,
) -> Result<(), Fail> {
    for threads in THREADS {
        let once = each_ticket_comes_once::<_, 64, 16, 1_024>(&rt, rt.alloc(), threads)?;
        assert!(rt; once);
    }
    Ok(())
}
