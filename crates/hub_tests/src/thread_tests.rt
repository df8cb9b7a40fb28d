//! Threads that append at many seats while a flusher turns.

ghost use Rattle.std.specs.Prelude.{◌≡◌, ◌≤◌, ◌<◌, IfSome, false, length};
ghost use Rattle.hub_tests.specs.Parties.{AreAt, AreTogether};

use crate::hubs::{
    AREA, Endless, Free, HubFlusher, HubRing, HubSeat, Party, Pause, SMALL_AREA, Shut, Turnstile,
    close, is_front, link_of, new_party, next_over, numbers,
};
use crate::script_tests::{CONNECT, SEND_X};
use claim_core::Refused;
use command_core::{Command, Dest, Entry, Op, Sending};
use engine_core::{Closed, Ended, Gate, flush_loop, worker};
use frame_core::{Bytes, Headers};
use outbox_core::{OutSender, Silent};
use std::alloc::Global;
use std::mem;
use std::process::Abort;
use std::sync::Wait;
use std::sync::atomic::{AtomicBool, Ordering};
use std::thread::{self, Threads, join_mut};
use std::time::{Clock, Duration};
use ws_core::MemLink;

// How often the worker may turn, and the flusher behind it.
const TURNS: u64 = 20_000;

const FLUSHES: u64 = 10;

// What comes first and then at each read, and how many commands are appended: none of ends of lines; and of an Open and SENDs
// as many as a window lets in, since no flusher runs.
const READERS: [(&[&[u8]], &[u8], u64); 4] = [
    (&[], b"\n", 0),
    (&[CONNECT], b"\n", 1),
    (&[CONNECT], b"\r\n\n", 1),
    (&[CONNECT], SEND_X, 16),
];

const PAIR_TURNS: u64 = 10_000;

const SEND: &[u8] = b"SEND\ndestination:/queue/a\nreceipt:r1\n\nhi\0";

const DISCONNECT: &[u8] = b"DISCONNECT\nreceipt:r2\n\n\0";

const RECEIPT: &[u8] = b"RECEIPT\nreceipt-id:r1\n\n\0";

const LAST_RECEIPT: &[u8] = b"RECEIPT\nreceipt-id:r2\n\n\0";

// An entry that acknowledges that delivery, for a session that isn't open.
fn entry(alloc: Global, delivery: u64) -> Option<Entry<OutSender<Silent>>> {
    Entry::new(alloc, Command::new(7, Op::Ack(delivery), None), None).ok()
}

// Tries to append the entry that is kept. It is kept on where the window is full.
fn try_kept(
    ring: &HubRing,
    seat: &mut HubSeat,
    kept: &mut Option<Entry<OutSender<Silent>>>,
) -> Option<u64>
    requires { seat.old.ring ≡ ring.now }
    ensures { seat.new.ring ≡ seat.old.ring }
{
    match ring.append(seat, kept.take()?) {
        Ok(ticket) => Some(ticket),
        Err((back, Refused::Busy(_))) => {
            drop(mem::replace(kept, Some(back)));
            None
        }
        Err(refused) => {
            drop(refused);
            None
        }
    }
}

// Appends the entry that is kept, and waits for as long as the window is full.
fn append<R: Clock>(
    rt: &R,
    ring: &HubRing,
    seat: &mut HubSeat,
    kept: &mut Option<Entry<OutSender<Silent>>>,
) -> Option<u64>
    requires { seat.old.ring ≡ ring.now }
    ensures { seat.new.ring ≡ seat.old.ring }
{
    for _ in 0..20_000u32 {
        let ticket = try_kept(ring, seat, kept);
        if kept.is_none() {
            return ticket;
        }
        thread::sleep(rt, Duration::from_millis(1));
    }
    None
}

// Appends the entry of that delivery, waits for as long as the window is full, and answers whether its ticket is over the last one of the
// seat.
fn append_next<R: Clock>(
    rt: &R,
    alloc: Global,
    ring: &HubRing,
    seat: &mut HubSeat,
    last: &mut Option<u64>,
    delivery: u64,
) -> bool
    requires { seat.old.ring ≡ ring.now }
    ensures { seat.new.ring ≡ seat.old.ring }
{
    let mut kept = entry(alloc, delivery);
    let ticket = append(rt, ring, seat, &mut kept);
    drop(kept);
    let rose = ticket.is_some() && *last < ticket;
    *last = ticket;
    rose
}

// The same at one of up to sixteen seats.
fn append_at<R: Clock>(
    rt: &R,
    alloc: Global,
    ring: &HubRing,
    seats: &mut [HubSeat],
    last: &mut [Option<u64>; 16],
    place: usize,
    delivery: u64,
) -> bool
    requires at { AreAt ring.now seats.old }
    requires place { (place < length seats.old) × (length seats.old ≤ 16) }
    ensures at { AreAt ring.now seats.new }
    ensures count { length seats.new ≡ length seats.old }
{
    append_next(
        rt,
        alloc,
        ring,
        &mut seats[place],
        &mut last[place],
        delivery,
    )
}

// The same at each of them.
fn append_round<R: Clock>(
    rt: &R,
    alloc: Global,
    ring: &HubRing,
    seats: &mut [HubSeat],
    last: &mut [Option<u64>; 16],
    delivery: u64,
) -> bool
    requires at { AreAt ring.now seats.old }
    requires few { length seats.old ≤ 16 }
    ensures at { AreAt ring.now seats.new }
    ensures count { length seats.new ≡ length seats.old }
{
    for place in 0..seats.len() {
        if !append_at(rt, alloc, ring, seats, last, place, delivery) {
            return false;
        }
    }
    true
}

// Goes round up to sixteen seats a thousand times, and notes it if a ticket of one of them did not rise.
fn append_all<R: Clock>(
    rt: &R,
    alloc: Global,
    ring: &HubRing,
    seats: &mut [HubSeat],
    rose: &AtomicBool,
)
    requires at { AreAt ring.now seats.old }
    requires few { length seats.old ≤ 16 }
    ensures at { AreAt ring.now seats.new }
    ensures count { length seats.new ≡ length seats.old }
{
    let mut last = [None; 16];
    for i in 0..1_000u64 {
        if !append_round(rt, alloc, ring, seats, &mut last, i) {
            rose.store(false, Ordering::SeqCst);
            return;
        }
    }
}

// The same at up to 64 seats, a fourth of them in a thread.
fn append_in_four<R: Threads + Clock + Sync>(
    rt: &R,
    alloc: Global,
    ring: &HubRing,
    seats: &mut [HubSeat],
    rose: &AtomicBool,
)
    requires at { AreAt ring.now seats.old }
    requires few { length seats.old ≤ 64 }
    ensures { AreAt ring.now seats.new }
{
    let share = seats.len().div_ceil(4).max(1);
    thread::for_each_chunk_mut(
        rt,
        seats,
        share,
        &|_, part: &mut [HubSeat]|
            requires { AreAt ring.now part.now × (length part.now ≤ 16) }
            ensures { AreAt ring.entry.now part.exit.now × (length part.exit.now ≡ length part.entry.now) }
        { append_all(rt, alloc, ring, part, rose) },
    );
}

// Makes a turn, and compacts the journal after it if that is asked for and the mark has risen. Answers the mark, and nothing after a fault.
fn turn_once<P: Gate>(
    alloc: Global,
    ring: &HubRing,
    flusher: &mut HubFlusher,
    pace: &P,
    before: u64,
    compacts: bool,
) -> Option<u64>
    requires ring { flusher.old.seat.ring ≡ ring.now }
    requires executed { flusher.old.broken ≡ false → flusher.old.executed ≡ flusher.old.stored }
    ensures ring { flusher.new.seat.ring ≡ flusher.old.seat.ring }
    ensures seats { flusher.new.seat.seats ≡ flusher.old.seat.seats }
    ensures executed { IfSome result (λ _. flusher.new.broken ≡ false → flusher.new.executed ≡ flusher.new.stored) }
{
    let Ok(mark) = flush_loop(alloc, ring, flusher, pace, 1) else {
        return None;
    };
    if !compacts || mark <= before {
        return Some(mark);
    }
    match flusher.compact(alloc, ring) {
        Ok(()) => Some(mark),
        Err(_) => None,
    }
}

// Turns until so many commands are published. Where that is asked for, the journal is compacted after each batch.
fn flush_to<P: Gate>(
    alloc: Global,
    ring: &HubRing,
    flusher: &mut HubFlusher,
    pace: &P,
    wanted: u64,
    compacts: bool,
)
    requires ring { flusher.old.seat.ring ≡ ring.now }
    requires executed { flusher.old.broken ≡ false → flusher.old.executed ≡ flusher.old.stored }
    ensures ring { flusher.new.seat.ring ≡ flusher.old.seat.ring }
    ensures seats { flusher.new.seat.seats ≡ flusher.old.seat.seats }
{
    let mut before = flusher.mark();
    for _ in 0..20_000u32 {
        let Some(mark) = turn_once(alloc, ring, flusher, pace, before, compacts) else {
            return;
        };
        if wanted <= mark {
            return;
        }
        before = mark;
    }
}

// All threads, and the flusher until so many commands are published.
fn append_and_flush<R: Threads + Clock + Sync>(
    rt: &R,
    alloc: Global,
    party: &mut Party,
    wanted: u64,
    compacts: bool,
    rose: &AtomicBool,
)
    requires together { AreTogether (length party.old.seats.items) party.old.hub party.old.seats.items party.old.flusher }
    requires few { length party.old.seats.items ≤ 64 }
    requires executed { party.old.flusher.executed ≡ party.old.flusher.stored }
    ensures { AreTogether (length party.new.seats.items) party.new.hub party.new.seats.items party.new.flusher }
{
    let ring = party.hub.ring();
    let seats = party.seats.as_mut_slice();
    let flusher = &mut party.flusher;
    join_mut(
        rt,
        &mut ||
            requires { AreAt ring.now seats.now × (length seats.now ≤ 64) }
        { append_in_four(rt, alloc, ring, seats, rose) },
        &mut || flush_to(alloc, ring, flusher, &Pause { rt }, wanted, compacts),
    );
}

// Whether the tickets of each of so many seats rose, and the numbers at the end.
fn run<R: Threads + Clock + Sync>(
    rt: &R,
    alloc: Global,
    count: usize,
    compacts: bool,
) -> Option<(bool, [u64; 4])>
    requires { count ≤ 64 }
{
    let mut party = new_party(alloc, AREA, count)?;
    let wanted = count as u64 * 1_000;
    let rose = AtomicBool::new(true);
    append_and_flush(rt, alloc, &mut party, wanted, compacts, &rose);
    let all_rose = rose.load(Ordering::SeqCst);
    drop(rose);
    match close(party) {
        Some(closed) => {
            let numbers = numbers(&closed);
            drop(closed);
            Some((all_rose, numbers))
        }
        None => None,
    }
}

// What comes of as many thousands of commands as there are seats.
fn all(thousands: u64) -> Option<(bool, [u64; 4])>
    requires { thousands ≤ 64 }
{
    let end = thousands * 1_000;
    Some((true, [0, end, end, end]))
}

#[test]
fn two_threads_and_a_flusher_close_with_2000_commands(rt: HostRuntime) {
    assert_eq!(rt; run(&rt, rt.alloc(), 2, false), all(2));
}

#[test]
fn they_do_with_a_compaction_after_each_batch(rt: HostRuntime) {
    assert_eq!(rt; run(&rt, rt.alloc(), 2, true), all(2));
}

#[test]
fn four_threads_of_sixteen_seats_close_with_64000_commands(rt: HostRuntime) {
    assert_eq!(rt; run(&rt, rt.alloc(), 64, false), all(64));
}

// What sends a body of so many bytes.
fn sending(alloc: Global, bytes: usize) -> Option<Sending>
    requires { bytes ≤ 65536 }
{
    let body = Vec::from_elem(alloc, b'x', bytes).ok()?;
    match Dest::read(alloc, "/queue/q") {
        Ok(destination) => Some(Sending::new(
            destination,
            Headers::new(Vec::new(alloc)),
            Bytes::new(body),
        )),
        Err(_) => None,
    }
}

// An entry that sends so many bytes, for a session that isn't open.
fn entry_of(alloc: Global, bytes: usize) -> Option<Entry<OutSender<Silent>>>
    requires { bytes ≤ 65536 }
{
    match sending(alloc, bytes) {
        Some(sending) => Entry::new(alloc, Command::new(7, Op::Send(sending), None), None).ok(),
        None => None,
    }
}

// Appends one.
fn append_bytes(alloc: Global, ring: &HubRing, seat: &mut HubSeat, bytes: usize) -> Option<u64>
    requires seat { seat.old.ring ≡ ring.now }
    requires short { bytes ≤ 65536 }
    ensures { seat.new.ring ≡ seat.old.ring }
{
    match entry_of(alloc, bytes) {
        Some(entry_of) => ring.append(seat, entry_of).ok(),
        None => None,
    }
}

// Ends the hub of a party, and answers its numbers with the first of the hub that is opened behind it.
fn close_and_open(alloc: Global, party: Party) -> Option<([u64; 4], u64)>
    requires { AreTogether 1 party.hub party.seats.items party.flusher }
{
    match close(party) {
        Some(closed) => {
            let Closed {
                base,
                claimed,
                taken,
                mark,
                disk,
            } = closed;
            match next_over(alloc, disk) {
                Some(next) => Some(([base, claimed, taken, mark], next)),
                None => None,
            }
        }
        None => None,
    }
}

// Two commands are published, though not while the pace is shut; a third is taken, and a fourth waits, whose ticket is the
// answer.
fn stop_within_a_turn<R: Abort>(
    rt: &R,
    alloc: Global,
    ring: &HubRing,
    seat: &mut HubSeat,
    flusher: &mut HubFlusher,
) -> Option<u64>
    requires seat { seat.old.ring ≡ ring.now }
    requires flusher { (flusher.old.seat.ring ≡ ring.now) × (flusher.old.executed ≡ flusher.old.stored) }
    ensures seat { seat.new.ring ≡ seat.old.ring }
    ensures flusher { (flusher.new.seat.ring ≡ flusher.old.seat.ring) × (flusher.new.seat.seats ≡ flusher.old.seat.seats) }
{
    append_bytes(alloc, ring, seat, 1)?;
    append_bytes(alloc, ring, seat, 1)?;
    let Ok(0) = flush_loop(alloc, ring, flusher, &Shut, 3) else {
        return None;
    };
    flush_loop(alloc, ring, flusher, &Free, 1).ok()?;
    append_bytes(alloc, ring, seat, 1)?;
    // Of a flusher that can't, nothing is known.
    flusher.gather(ring).expect(rt, "commands are gathered");
    append_bytes(alloc, ring, seat, 1)
}

// One command is published, and the block of the next doesn't fit, whose ticket is the answer.
fn break_flusher(
    alloc: Global,
    ring: &HubRing,
    seat: &mut HubSeat,
    flusher: &mut HubFlusher,
) -> Option<u64>
    requires seat { seat.old.ring ≡ ring.now }
    requires flusher { (flusher.old.seat.ring ≡ ring.now) × (flusher.old.executed ≡ flusher.old.stored) }
    ensures seat { seat.new.ring ≡ seat.old.ring }
    ensures flusher { (flusher.new.seat.ring ≡ flusher.old.seat.ring) × (flusher.new.seat.seats ≡ flusher.old.seat.seats) }
{
    append_bytes(alloc, ring, seat, 1)?;
    flush_loop(alloc, ring, flusher, &Free, 1).ok()?;
    let ticket = append_bytes(alloc, ring, seat, 4_096)?;
    match flush_loop(alloc, ring, flusher, &Free, 1) {
        Ok(_) => None,
        Err(_) => Some(ticket),
    }
}

// One of the two.
fn play_party<R: Abort>(rt: &R, alloc: Global, party: &mut Party, breaks: bool) -> bool
    requires together { AreTogether 1 party.old.hub party.old.seats.items party.old.flusher }
    requires executed { party.old.flusher.executed ≡ party.old.flusher.stored }
    ensures { AreTogether 1 party.new.hub party.new.seats.items party.new.flusher }
{
    let ring = party.hub.ring();
    if breaks {
        break_flusher(alloc, ring, &mut party.seats[0], &mut party.flusher).is_some()
    } else {
        stop_within_a_turn(rt, alloc, ring, &mut party.seats[0], &mut party.flusher).is_some()
    }
}

// The numbers of a hub that is closed then, and the first one of the next.
fn run_party<R: Abort>(rt: &R, alloc: Global, breaks: bool) -> Option<([u64; 4], u64)> {
    match new_party(alloc, SMALL_AREA, 1) {
        Some(mut party) => {
            let played = play_party(rt, alloc, &mut party, breaks);
            let came = close_and_open(alloc, party);
            if played { came } else { None }
        }
        None => None,
    }
}

#[test]
fn a_flusher_closes_between_its_steps_and_broken(rt: HostRuntime) {
    assert_eq!(rt; run_party(&rt, rt.alloc(), false), Some(([0, 4, 3, 2], 2)));
    assert_eq!(rt; run_party(&rt, rt.alloc(), true), Some(([0, 2, 2, 1], 1)));
}

// How the worker ends, and how many messages it has sent.
fn serve(
    alloc: Global,
    ring: &HubRing,
    seat: &mut HubSeat,
    texts: &[&[u8]],
    bytes: &'static [u8],
) -> Option<(Ended, usize)>
    requires { seat.old.ring ≡ ring.now }
    ensures { seat.new.ring ≡ ring.now }
{
    match link_of(alloc, texts) {
        Some(link) => {
            let mut link = Endless { link, bytes };
            let ended = worker(alloc, ring, seat, &mut link, &Silent, &Free, TURNS);
            let sent = link.link.sent().len();
            drop(link);
            Some((ended, sent))
        }
        None => None,
    }
}

// The same, and how many commands were appended.
fn serve_and_flush(
    alloc: Global,
    party: &mut Party,
    texts: &[&[u8]],
    bytes: &'static [u8],
) -> Option<(Ended, usize, u64)>
    requires together { AreTogether 1 party.old.hub party.old.seats.items party.old.flusher }
    requires executed { party.old.flusher.executed ≡ party.old.flusher.stored }
    ensures { AreTogether 1 party.new.hub party.new.seats.items party.new.flusher }
{
    let ring = party.hub.ring();
    let (ended, sent) = serve(alloc, ring, &mut party.seats[0], texts, bytes)?;
    match flush_loop(alloc, ring, &mut party.flusher, &Free, FLUSHES) {
        Ok(appended) => Some((ended, sent, appended)),
        Err(_) => None,
    }
}

// That of a new party.
fn run_endless(
    alloc: Global,
    texts: &[&[u8]],
    bytes: &'static [u8],
) -> Option<(Ended, usize, u64)> {
    match new_party(alloc, SMALL_AREA, 1) {
        Some(mut party) => {
            let ran = serve_and_flush(alloc, &mut party, texts, bytes);
            drop(close(party));
            ran
        }
        None => None,
    }
}

// The first reader of which something else comes.
fn first_wrong(alloc: Global) -> Option<usize> {
    for (place, (texts, bytes, appended)) in READERS.iter().enumerate() {
        if run_endless(alloc, *texts, *bytes) != Some((Ended::Turns, 0, *appended)) {
            return Some(place);
        }
    }
    None
}

#[test]
fn a_reader_that_never_ends_ends_by_its_turns(rt: HostRuntime) {
    assert_eq!(rt; first_wrong(rt.alloc()), None);
}

// Whether the link got the receipts of a session, behind its CONNECTED.
fn has_receipts(link: &MemLink) -> bool {
    match link.sent() {
        [_, receipts @ ..] => {
            receipts.len() == 2 && is_front(receipts, &[RECEIPT, LAST_RECEIPT])
        }
        [] => false,
    }
}

// How a worker ended, where its link got what it should.
fn serve_pair<R: Clock>(
    alloc: Global,
    ring: &HubRing,
    seat: &mut HubSeat,
    pace: &Turnstile<R>,
) -> Option<Ended>
    requires { seat.old.ring ≡ ring.now }
    ensures { seat.new.ring ≡ ring.now }
{
    match link_of(alloc, &[CONNECT, SEND, DISCONNECT]) {
        Some(mut link) => {
            let ended = worker(alloc, ring, seat, &mut link, &Silent, pace, PAIR_TURNS);
            let right = has_receipts(&link);
            drop(link);
            if right { Some(ended) } else { None }
        }
        None => None,
    }
}

// A worker serves; then the other may go on.
fn work<R: Clock>(
    alloc: Global,
    ring: &HubRing,
    seat: &mut HubSeat,
    pace: &Turnstile<R>,
    then: &AtomicBool,
) -> Option<Ended>
    requires { seat.old.ring ≡ ring.now }
    ensures { seat.new.ring ≡ ring.now }
{
    let ended = serve_pair(alloc, ring, seat, pace);
    then.store(true, Ordering::SeqCst);
    ended
}

fn flush<R: Clock>(
    alloc: Global,
    ring: &HubRing,
    flusher: &mut HubFlusher,
    pace: &Turnstile<R>,
) -> Option<u64>
    requires { (flusher.old.seat.ring ≡ ring.now) × (flusher.old.executed ≡ flusher.old.stored) }
    ensures { (flusher.new.seat.ring ≡ ring.now) × (flusher.new.seat.seats ≡ flusher.old.seat.seats) }
{
    flush_loop(alloc, ring, flusher, pace, PAIR_TURNS).ok()
}

// Both workers.
fn work_both<R: Threads + Wait + Clock + Sync>(
    rt: &R,
    alloc: Global,
    ring: &HubRing,
    seats: &mut [HubSeat],
    pace: &Turnstile<R>,
) -> (Option<Ended>, Option<Ended>)
    requires { AreAt ring.now seats.old × (length seats.old ≡ 2) }
    ensures { AreAt ring.now seats.new }
{
    let (first, second) = seats.split_at_mut(1);
    join_mut(
        rt,
        &mut || -> Option<Ended>
            requires { AreAt ring.now first.now × (0 < length first.now) }
        { work(alloc, ring, &mut first[0], pace, &pace.finished) },
        &mut || -> Option<Ended>
            requires { AreAt ring.now second.now × (0 < length second.now) }
        { work(alloc, ring, &mut second[0], pace, &pace.opened) },
    )
}

// Both workers, and the flusher: how the workers ended, and the mark at the end.
fn work_and_flush<R: Threads + Wait + Clock + Sync>(
    rt: &R,
    alloc: Global,
    party: &mut Party,
    pace: &Turnstile<R>,
) -> ((Option<Ended>, Option<Ended>), Option<u64>)
    requires together { AreTogether 2 party.old.hub party.old.seats.items party.old.flusher }
    requires executed { party.old.flusher.executed ≡ party.old.flusher.stored }
    ensures { AreTogether 2 party.new.hub party.new.seats.items party.new.flusher }
{
    let ring = party.hub.ring();
    let seats = party.seats.as_mut_slice();
    let flusher = &mut party.flusher;
    join_mut(
        rt,
        &mut || -> (Option<Ended>, Option<Ended>)
            requires { AreAt ring.now seats.now × (length seats.now ≡ 2) }
        { work_both(rt, alloc, ring, seats, pace) },
        &mut || -> Option<u64>
            requires { (flusher.now.seat.ring ≡ ring.now) × (flusher.now.executed ≡ flusher.now.stored) }
        { flush(alloc, ring, flusher, pace) },
    )
}

fn run_pair<R: Threads + Wait + Clock + Sync>(
    rt: &R,
    alloc: Global,
) -> Option<((Option<Ended>, Option<Ended>), Option<u64>)> {
    match new_party(alloc, AREA, 2) {
        Some(mut party) => {
            let pace = Turnstile {
                rt,
                opened: AtomicBool::new(false),
                finished: AtomicBool::new(false),
            };
            let ran = work_and_flush(rt, alloc, &mut party, &pace);
            drop(pace);
            drop(close(party));
            Some(ran)
        }
        None => None,
    }
}

#[test]
fn two_sessions_at_once(rt: HostRuntime) {
    let ran = run_pair(&rt, rt.alloc());
    assert_eq!(rt; ran, Some(((Some(Ended::Bye), Some(Ended::Bye)), Some(6))));
}
