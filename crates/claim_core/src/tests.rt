ghost use Rattle.std.specs.Prelude.{◌≡◌, ◌%◌, ◌<◌, ◌^◌, [], ◌∷◌, None, Some, false, All};
ghost use Rattle.claim_core.specs.declared.views.View.TheVariants.{Claims};
ghost use Rattle.claim_core.specs.Seats.{new_session};
ghost use Rattle.claim_core.specs.Steps.{claimer};

use crate::ring::Ring;
use crate::seats::{FlushSeat, SessionSeat};
use crate::steps::{claim, ready};
use crate::views::TableSeat;
use command_core::{Command, Entry, Op};
use std::alloc::Global;
use std::test::Fail;

type SmallRing = Ring<(), 2, 2, 4>;

type SmallSeat = SessionSeat<(), 2>;

fn entry(alloc: Global, delivery: u64) -> Option<Entry<()>> {
    Entry::new(alloc, Command::new(7, Op::Ack(delivery), None), None).ok()
}

fn delivery_of(entry: &Entry<()>) -> Option<u64> {
    match entry.command().op() {
        Op::Ack(delivery) => Some(*delivery),
        _ => None,
    }
}

// The delivery that the taken entry acknowledges.
fn take(ring: &SmallRing, flush: &mut FlushSeat<()>) -> Option<u64>
    requires { flush.old.ring ≡ ring.now }
    ensures { flush.new.ring ≡ ring.now }
{
    match ring.take(flush) {
        Some(entry) => {
            let delivery = delivery_of(&entry);
            drop(entry);
            delivery
        }
        None => None,
    }
}

// Appends for the first of these seats.
fn append(alloc: Global, ring: &SmallRing, seats: &mut [SmallSeat], delivery: u64) -> Option<u64>
    requires { All (λ seat. seat.ring ≡ ring.now) seats.old }
{
    match seats.first_mut() {
        Some(seat) => append_for(alloc, ring, seat, delivery),
        None => None,
    }
}

fn append_for<const SEATS: usize, const WINDOW: usize, const PLACES: usize>(
    alloc: Global,
    ring: &Ring<(), SEATS, WINDOW, PLACES>,
    seat: &mut SessionSeat<(), WINDOW>,
    delivery: u64,
) -> Option<u64>
    requires { seat.old.ring ≡ ring.now }
    ensures { seat.new.ring ≡ ring.now }
{
    match entry(alloc, delivery) {
        Some(entry) => ring.append(seat, entry).ok(),
        None => None,
    }
}

// Claims a ticket for the entry and leaves it pending.
fn begin(ring: &SmallRing, seat: SmallSeat, entry: &Entry<()>) -> (u64, TableSeat<()>)
    requires ring { seat.ring ≡ ring.now }
    requires new { (seat.own ≡ []) × (seat.seen ≡ 0) × (seat.stopped ≡ false) }
    ensures ring { result.1.table_id ≡ ring.now }
    ensures pending { result.1.me ≡ (Claims (claimer ((result.0, entry.now.command) ∷ []) (Some result.0) 0 false), (result.0 % 4, None) ∷ []) }
    ensures low { result.0 < 2 ^ 62 }
{
    let mut table_seat = seat.into_table_seat();
    let ticket = claim(&ring.table.shared, &mut table_seat, entry);
    (ticket, table_seat)
}

// Makes the pending entry ready.
fn finish(ring: &SmallRing, mut table_seat: TableSeat<()>, ticket: u64, entry: Entry<()>)
    requires ring { table_seat.table_id ≡ ring.now }
    requires pending { table_seat.me ≡ (Claims (claimer ((ticket, entry.command) ∷ []) (Some ticket) 0 false), (ticket % 4, None) ∷ []) }
    requires low { ticket < 2 ^ 62 }
{
    ready(
        &ring.table.shared,
        &mut table_seat,
        ticket,
        (ticket % 4) as usize,
        entry,
    );
}

// The ticket of another seat's entry, and what is taken: once while the first entry is not ready, and twice after.
fn play(
    alloc: Global,
    ring: &SmallRing,
    seat: SmallSeat,
    first: Entry<()>,
    others: &mut [SmallSeat],
    flush: &mut FlushSeat<()>,
) -> [Option<u64>; 4]
    requires seat { seat ≡ new_session ring.now 0 seat.number }
    requires others { All (λ other. other ≡ new_session ring.now 0 other.number) others.old }
    requires flush { flush.old.ring ≡ ring.now }
{
    let (ticket, table_seat) = begin(ring, seat, &first);
    let appended = append(alloc, ring, others, 71);
    let early = take(ring, flush);
    finish(ring, table_seat, ticket, first);
    let taken = take(ring, flush);
    [appended, early, taken, take(ring, flush)]
}

// The same, with the first entry.
fn play_first(
    alloc: Global,
    ring: &SmallRing,
    seat: SmallSeat,
    others: &mut [SmallSeat],
    flush: &mut FlushSeat<()>,
) -> Option<[Option<u64>; 4]>
    requires seat { seat ≡ new_session ring.now 0 seat.number }
    requires others { All (λ other. other ≡ new_session ring.now 0 other.number) others.old }
    requires flush { flush.old.ring ≡ ring.now }
{
    match entry(alloc, 70) {
        Some(first) => Some(play(alloc, ring, seat, first, others, flush)),
        None => None,
    }
}

// The same, with the last of these seats.
fn play_with(
    alloc: Global,
    ring: &SmallRing,
    seats: &mut Vec<SmallSeat>,
    flush: &mut FlushSeat<()>,
) -> Option<[Option<u64>; 4]>
    requires seats { All (λ seat. seat ≡ new_session ring.now 0 seat.number) seats.old.items }
    requires flush { flush.old.ring ≡ ring.now }
{
    match seats.pop() {
        Some(seat) => play_first(alloc, ring, seat, seats.as_mut_slice(), flush),
        None => None,
    }
}

// The same, at a new ring.
fn play_anew(alloc: Global) -> Option<[Option<u64>; 4]> {
    match SmallRing::new(alloc, 0) {
        Ok((ring, mut seats, mut flush)) => play_with(alloc, &ring, &mut seats, &mut flush),
        Err(_) => None,
    }
}

#[test]
fn an_entry_that_is_not_ready_holds_up_the_next(rt: HostRuntime) -> Result<(), Fail> {
    let played = play_anew(rt.alloc());
    assert_eq!(rt; played, Some([Some(1), None, Some(70), Some(71)]));
    Ok(())
}

// Appends an entry, which is taken and published.
fn go_on<const SEATS: usize, const WINDOW: usize, const PLACES: usize>(
    alloc: Global,
    ring: &Ring<(), SEATS, WINDOW, PLACES>,
    seat: &mut SessionSeat<(), WINDOW>,
    flush: &mut FlushSeat<()>,
) -> bool
    requires { (seat.old.ring ≡ ring.now) × (flush.old.ring ≡ ring.now) }
    ensures { (seat.new.ring ≡ ring.now) × (flush.new.ring ≡ ring.now) }
{
    let appended = append_for(alloc, ring, seat, 1).is_some();
    drop(ring.take(flush));
    let mark = flush.next();
    ring.raise(flush, mark);
    appended
}

// One round: an entry in each of the places.
fn go_round<const SEATS: usize, const WINDOW: usize, const PLACES: usize>(
    alloc: Global,
    ring: &Ring<(), SEATS, WINDOW, PLACES>,
    seat: &mut SessionSeat<(), WINDOW>,
    flush: &mut FlushSeat<()>,
) -> bool
    requires { (seat.old.ring ≡ ring.now) × (flush.old.ring ≡ ring.now) }
    ensures { (seat.new.ring ≡ ring.now) × (flush.new.ring ≡ ring.now) }
{
    for _ in 0..PLACES {
        if !go_on(alloc, ring, seat, flush) {
            return false;
        }
    }
    true
}

// The word of the first place before and after the next ticket is claimed, and that ticket.
fn words_at_the_second_round<const SEATS: usize, const WINDOW: usize, const PLACES: usize>(
    alloc: Global,
    ring: &Ring<(), SEATS, WINDOW, PLACES>,
    seat: &mut SessionSeat<(), WINDOW>,
) -> (u64, Option<u64>, u64)
    requires { seat.old.ring ≡ ring.now }
{
    let free = ring.table.shared.peek(3);
    let ticket = append_for(alloc, ring, seat, 1);
    (free, ticket, ring.table.shared.peek(3))
}

// Those words of a new ring, after one round of a seat.
fn words_of_a_new_ring<const SEATS: usize, const WINDOW: usize, const PLACES: usize>(
    alloc: Global,
    ring: Ring<(), SEATS, WINDOW, PLACES>,
    mut seats: Vec<SessionSeat<(), WINDOW>>,
    mut flush: FlushSeat<()>,
) -> Option<(u64, Option<u64>, u64)>
    requires { All (λ seat. seat.ring ≡ ring) seats.items × (flush.ring ≡ ring) }
{
    let mut seat = seats.pop()?;
    if go_round(alloc, &ring, &mut seat, &mut flush) {
        Some(words_at_the_second_round(alloc, &ring, &mut seat))
    } else {
        None
    }
}

#[test]
fn ticket_256_lands_on_the_first_place(rt: HostRuntime) -> Result<(), Fail> {
    let (ring, seats, flush) = Ring::<(), 32, 8, 256>::new(rt.alloc(), 0)?;
    let words = words_of_a_new_ring(rt.alloc(), ring, seats, flush);
    assert_eq!(rt; words, Some((768, Some(256), 769)));
    Ok(())
}

// A place is free for its first ticket t as 3 t, and ready as 3 t + 1. So with four places ticket 4 takes its word from 12 to 13.
#[test]
fn ticket_4_of_four_places_lands_on_the_first(rt: HostRuntime) -> Result<(), Fail> {
    let (ring, seats, flush) = SmallRing::new(rt.alloc(), 0)?;
    let words = words_of_a_new_ring(rt.alloc(), ring, seats, flush);
    assert_eq!(rt; words, Some((12, Some(4), 13)));
    Ok(())
}
