//! The ring: the calls that sessions and the flusher make.

ghost use Rattle.std.specs.Prelude.{◌≡◌, ◌<◌, ◌≤◌, MatchOption, IfOk, IfErr, ℕ, ◌+◌, ◌*◌, ◌^◌, OnOk, All, [], length, slice_get, vec_capacity, Some, List, IsOk};
ghost use Rattle.command_core.specs.Commands.{CommandValue};
ghost use Rattle.claim_core.specs.Appends.{Appends, Refuses};
ghost use Rattle.claim_core.specs.Endings.{Agree, Ends};
ghost use Rattle.claim_core.specs.Seats.{with_seen, with_taken, with_mark, when_stopped, next_ticket, SessionSeatValue, new_session, new_flushing};
ghost use Rattle.claim_core.specs.Laid.{IsLaid};

use crate::refusals::{NotYet, Refused};
use crate::released::Released;
use crate::seats::{FlushSeat, SessionSeat};
use crate::views::{Claiming, Limits, View};
use atomic_table::Table;
use command_core::{Entry, Out};
use std::alloc::{AllocError, Global};
use std::marker::Model;

// From this mark on nothing more is claimed, so that no number of the ring overflows its word.
const FAR: u64 = 1 << 60;

/// A claim buffer of `PLACES` places, for `SEATS` sessions' seats and one flusher. Each session may have `WINDOW`
/// commands that are not under the mark. No call waits for another, and none but `new` takes memory.
///
/// From the moment of its claim a command has its ticket, which is its number in the order of all commands. Contracts see which ring it is.
#[derive(Drop)]
pub struct Ring<B, const SEATS: usize, const WINDOW: usize, const PLACES: usize> {
    pub(crate) table: Table<Option<Entry<B>>, View, Limits, Claiming, Global>,
}

impl<B, const SEATS: usize, const WINDOW: usize, const PLACES: usize> Model
    for Ring<B, SEATS, WINDOW, PLACES> {
    ghost use Rattle.atomic_table.specs.Seated.{TableId, table_id_coded};
    ghost use Rattle.claim_core.specs.Seats.{IsRing};

    ghost Value = { TableId };

    ghost coded = { table_id_coded };

    ghost view = { λ a. a.table.shared.table_id };

    ghost invariant = { λ a. IsRing SEATS WINDOW PLACES a.table.shared.table_id a.table.shared.key };
}

impl<B, const SEATS: usize, const WINDOW: usize, const PLACES: usize> Ring<
    B,
    SEATS,
    WINDOW,
    PLACES,
> {
    /// Claims the next ticket for the entry, makes the entry ready, and answers the ticket. If it refuses, the entry comes back and nothing
    /// was claimed. `Stopped` comes before `Exhausted`, and `Exhausted` before `Busy`.
    pub fn append(
        &self,
        seat: &mut SessionSeat<B, WINDOW>,
        entry: Entry<B>,
    ) -> Result<u64, (Entry<B>, Refused)>
        requires { seat.old.ring ≡ self.now }
        ensures ok { IfOk result (λ ticket. Appends WINDOW seat.old seat.new ticket entry.command) }
        ensures refused { IfErr result (λ back. (back.0 ≡ entry) × Refuses WINDOW seat.old seat.new back.1) }
    {
        self.append_within(seat, entry, WINDOW)
    }

    /// The same with a smaller window, for a seat that may have fewer commands under way just now.
    pub fn append_within(
        &self,
        seat: &mut SessionSeat<B, WINDOW>,
        entry: Entry<B>,
        window: usize,
    ) -> Result<u64, (Entry<B>, Refused)>
        requires ring { seat.old.ring ≡ self.now }
        requires window { window ≤ WINDOW }
        ensures ok { IfOk result (λ ticket. Appends window seat.old seat.new ticket entry.command) }
        ensures refused { IfErr result (λ back. (back.0 ≡ entry) × Refuses window seat.old seat.new back.1) }
    {
        let board = &self.table.shared;
        if seat.finds_stop(board) {
            return Err((entry, Refused::Stopped));
        }
        let mark = seat.read_mark(board);
        if mark >= FAR {
            return Err((entry, Refused::Exhausted));
        }
        if !seat.has_room(window) {
            return Err((entry, Refused::Busy(mark)));
        }
        Ok(seat.put(board, PLACES as u64, entry))
    }

    /// Reads the mark: every number under it is published.
    pub fn look(&self, seat: &mut SessionSeat<B, WINDOW>) -> u64
        requires { seat.old.ring ≡ self.now }
        ensures seen { seat.new ≡ with_seen seat.old result }
        ensures no_less { seat.old.seen ≤ result }
    {
        seat.read_mark(&self.table.shared)
    }

    /// Reads the mark, and lets the output leave if its number is under it. Otherwise the output comes back with that mark.
    pub fn release(
        &self,
        seat: &mut SessionSeat<B, WINDOW>,
        out: Out,
    ) -> Result<Released, (Out, NotYet)>
        requires { seat.old.ring ≡ self.now }
        ensures seen { seat.new ≡ with_seen seat.old seat.new.seen }
        ensures no_less { seat.old.seen ≤ seat.new.seen }
        ensures released { IfOk result (λ released. (released ≡ out) × (out.number < seat.new.seen)) }
        ensures not_yet { IfErr result (λ back. (back.0 ≡ out) × (back.1.0 ≡ seat.new.seen) × (seat.new.seen ≤ out.number)) }
    {
        let board = &self.table.shared;
        let mark = seat.read_mark(board);
        Released::under(mark, out)
    }

    /// Takes the entry of the next ticket; `None` if it isn't ready at this moment.
    pub fn take(&self, seat: &mut FlushSeat<B>) -> Option<Entry<B>>
        requires { seat.old.ring ≡ self.now }
        ensures { MatchOption result (seat.new ≡ seat.old) (λ entry. seat.new ≡ with_taken seat.old entry.command) }
    {
        seat.pick(&self.table.shared, PLACES as u64)
    }

    /// Raises the mark, which publishes every number under it. The mark may neither fall nor pass what was taken.
    pub fn raise(&self, seat: &mut FlushSeat<B>, mark: u64)
        requires ring { seat.old.ring ≡ self.now }
        requires mark { (seat.old.published ≤ mark) × (mark ≤ next_ticket seat.old) }
        ensures { seat.new ≡ with_mark seat.old mark }
    {
        seat.raise_to(&self.table.shared, mark);
    }

    /// Brings a session's seat beside the flusher's, for a caller that has both. Both stay as they are, and contracts then know that they
    /// speak of one history. If the flusher has taken a ticket of the seat's own, it took the command that the seat has there.
    pub fn beside(&self, seat: &mut SessionSeat<B, WINDOW>, flush: &mut FlushSeat<B>)
        requires flush { flush.old.ring ≡ self.now }
        requires seat { seat.old.ring ≡ self.now }
        ensures seat { seat.new ≡ seat.old }
        ensures flush { flush.new ≡ flush.old }
        ensures agree { Agree seat.old flush.old }
    {
        flush.compare(&self.table.shared, seat);
    }

    /// Stops the ring, for good: an `append` that reads this refuses.
    pub fn stop(&self, seat: &mut FlushSeat<B>)
        requires { seat.old.ring ≡ self.now }
        ensures { seat.new ≡ when_stopped seat.old }
    {
        seat.stop_ring(&self.table.shared);
    }

    // The ring with the flusher's seat, before the sessions' seats are dealt.
    fn bare(
        alloc: Global,
        base: u64,
    ) -> Result<(Ring<B, SEATS, WINDOW, PLACES>, FlushSeat<B>), AllocError>
        requires { (0 < PLACES) × (PLACES ≤ 4096) × (SEATS * WINDOW ≤ PLACES) × (base ≤ 2 ^ 61) }
        ensures { IfOk result (λ r. r.1 ≡ new_flushing r.0 base 0) }
    {
        let mut words = lay(alloc, base, PLACES)?;
        let limits = Limits {
            base,
            seats: SEATS as u64,
            window: WINDOW as u64,
        };
        let (table, table_seat) = Table::vacant(alloc, words.as_mut_slice(), PLACES, &limits)?;
        Ok((Ring { table }, FlushSeat::new(table_seat, base)))
    }

    // All seats of sessions, in the order of their numbers, into a list with room for them.
    fn deal_all(
        &self,
        alloc: Global,
        flush: &mut FlushSeat<B>,
        seats: &mut Vec<SessionSeat<B, WINDOW>>,
    ) -> Result<(), AllocError>
        requires flush { flush.old ≡ new_flushing self.now flush.old.base 0 }
        requires seats { (seats.old.items ≡ []) × (SEATS ≤ vec_capacity seats.old) × (SEATS ≤ 4096) }
        ensures flush { OnOk result (flush.new ≡ new_flushing self.now flush.old.base SEATS) }
        ensures seats { OnOk result ((length seats.new.items ≡ SEATS) × All (λ seat. seat ≡ new_session self.now flush.old.base seat.number) seats.new.items
            × ((k : ℕ) (seat : SessionSeatValue) → slice_get seats.new.items k ≡ Some seat → seat.number ≡ k)) }
    {
        let board = &self.table.shared;
        for number in 0..SEATS {
            seats.push_reserved(flush.deal(alloc, board, number as u32)?);
        }
        Ok(())
    }
}

// The words of a ring of `places` places, whose first ticket is `base`.
fn lay(alloc: Global, base: u64, places: usize) -> Result<Vec<u64>, AllocError>
    requires { (0 < places) × (places ≤ 4096) × (base ≤ 2 ^ 61) }
    ensures { IfOk result (λ words. IsLaid words.items places base places) }
{
    let mut words = Vec::from_elem(alloc, 0u64, places + 3)?;
    let row = words.as_mut_slice();
    row[0] = base;
    row[1] = base;
    for i in 0..places {
        let ticket = base + i as u64;
        row[(ticket % places as u64) as usize + 3] = 3 * ticket;
    }
    Ok(words)
}

impl<B: Drop, const SEATS: usize, const WINDOW: usize, const PLACES: usize> Ring<
    B,
    SEATS,
    WINDOW,
    PLACES,
> {
    /// Makes a ring, whose first ticket is `base`, with all its seats; those of sessions are in the order of their
    /// numbers. `SEATS`, `WINDOW` and `PLACES` are each at least 1. There is a place for every command that seats may
    /// have waiting, and there are 4,096 places at most. If memory is refused, nothing is left.
    pub fn new(
        alloc: Global,
        base: u64,
    ) -> Result<
        (
            Ring<B, SEATS, WINDOW, PLACES>,
            Vec<SessionSeat<B, WINDOW>>,
            FlushSeat<B>,
        ),
        AllocError,
    >
        requires limits { (1 ≤ SEATS) × (1 ≤ WINDOW) × (1 ≤ PLACES) × (SEATS * WINDOW ≤ PLACES) × (PLACES ≤ 4096) }
        requires base { base ≤ 2 ^ 61 }
        ensures flush { IfOk result (λ made. made.2 ≡ new_flushing made.0 base SEATS) }
        ensures count { IfOk result (λ made. length made.1.items ≡ SEATS) }
        ensures seats { IfOk result (λ made. All (λ seat. seat ≡ new_session made.0 base seat.number) made.1.items) }
        ensures numbers { IfOk result (λ made. (k : ℕ) (seat : SessionSeatValue) → slice_get made.1.items k ≡ Some seat → seat.number ≡ k) }
    {
        let mut seats = Vec::with_capacity(alloc, SEATS)?;
        let (ring, mut flush) = match Ring::bare(alloc, base) {
            Ok(made) => made,
            Err(refused) => return Err(refused),
        };
        match ring.deal_all(alloc, &mut flush, &mut seats) {
            Ok(()) => Ok((ring, seats, flush)),
            Err(refused) => Err(refused),
        }
    }

    /// Ends the ring, with its flusher's seat and all of its sessions' seats. Entries that were not taken are dropped. It takes no memory,
    /// so the answer is always `Ok`.
    ///
    /// Contracts then know the one history of the ring, which is the commands of all tickets. Each seat's own commands are a part of it,
    /// and those that the flusher took are its beginning.
    pub fn close(
        self,
        seats: Vec<SessionSeat<B, WINDOW>>,
        flush: FlushSeat<B>,
    ) -> Result<RingEnd, AllocError>
        requires flush { flush.ring ≡ self }
        requires seats { All (λ seat. seat.ring ≡ self) seats.items }
        requires all { length seats.items ≡ flush.seats }
        ensures ok { IsOk result }
        ensures ended { IfOk result (λ end. (log : List CommandValue) × Ends seats.items flush log end) }
    {
        Ok(flush.gather_all(&self.table.shared, seats))
    }
}

/// What a ring was at its end. Each field is a ticket, which is the number of a command.
#[derive(Clone, Copy, PartialEq, Eq)]
pub struct RingEnd {
    /// The first ticket of the ring.
    pub base: u64,
    /// The ticket after the last that was claimed.
    pub claimed: u64,
    /// The ticket after the last that the flusher took.
    pub taken: u64,
    /// The mark: every number under it is published.
    pub mark: u64,
}
