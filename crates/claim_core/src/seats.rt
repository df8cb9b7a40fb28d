//! The seats of a ring, which make the steps at it.

ghost use Rattle.std.specs.Prelude.{◌≡◌, ◌+◌, ◌<◌, ◌≤◌, ◌^◌, false, List, [], length, nat_lt, All, IfOk, OnOk, MatchOption};
ghost use Rattle.command_core.specs.Commands.{CommandValue};
ghost use Rattle.claim_core.specs.declared.views.View.TheVariants.{Owns, Claims};
ghost use Rattle.claim_core.specs.Endings.{Agree, Ends};
ghost use Rattle.claim_core.specs.Rule.{far};
ghost use Rattle.claim_core.specs.Steps.{IsAt, IsLast, owning};
ghost use Rattle.claim_core.specs.Seats.{waiting, with_seen, with_stop, with_own, next_ticket, with_taken, with_mark, when_stopped, with_seat, new_session, new_flushing, claimer_from};

use crate::ring::RingEnd;
use crate::steps::{
    claim, deal, free, gather, hand_back, hold, load_mark, load_stop, load_tail, raise, ready,
    stand_in, stop,
};
use crate::views::{Board, TableSeat};
use command_core::Entry;
use std::alloc::{AllocError, Global};
use std::marker::Model;
use std::mem;

/// The seat of one session at a ring. Once made, it takes no more memory. Contracts see its ring, its number, its own
/// commands with their tickets, and the mark that it read last. They also see whether its last append found the ring
/// stopped.
#[derive(Drop)]
pub struct SessionSeat<B, const WINDOW: usize> {
    pub(crate) table_seat: TableSeat<B>,
    // Its own tickets that are not under the mark that it read last.
    waits: Vec<u64>,
    number: u32,
}

impl<B, const WINDOW: usize> Model for SessionSeat<B, WINDOW> {
    ghost use Rattle.std.specs.Prelude.{vec_capacity};
    ghost use Rattle.claim_core.specs.Seats.{SessionSeatValue, session_value, IsSession};

    ghost Value = { SessionSeatValue };

    ghost view = { λ a. session_value a.table_seat.table_id a.number a.table_seat.me.0 };

    ghost invariant = { λ a. IsSession WINDOW a.table_seat.me a.waits.items (vec_capacity a.waits) };
}

impl<B, const WINDOW: usize> SessionSeat<B, WINDOW> {
    /// Which of the ring's seats it is, counted from 0.
    pub fn number(&self) -> u32
        ensures { result ≡ self.now.number }
    {
        self.number
    }

    // The seat at the table, to be taken back.
    pub(crate) fn into_table_seat(self) -> TableSeat<B>
        ensures ring { result.table_id ≡ self.ring }
        ensures knows { result.me ≡ (Claims (claimer_from self), []) }
    {
        self.table_seat
    }

    // Whether the flusher has stopped the ring.
    pub(crate) fn finds_stop(&mut self, board: &Board<B>) -> bool
        requires fits { IsAt self.old.ring board.now.table_id }
        ensures { self.new ≡ with_stop self.old result }
    {
        load_stop(board, &mut self.table_seat) == 1
    }

    // Reads the mark, and lets the open tickets under it go.
    pub(crate) fn read_mark(&mut self, board: &Board<B>) -> u64
        requires fits { IsAt self.old.ring board.now.table_id }
        ensures seen { self.new ≡ with_seen self.old result }
        ensures no_less { self.old.seen ≤ result }
    {
        let mark = load_mark(board, &mut self.table_seat);
        self.waits.retain(|ticket| *ticket >= mark);
        mark
    }

    // Whether fewer of its own commands than so many wait for the mark.
    pub(crate) fn has_room(&self, window: usize) -> bool
        ensures { result ≡ nat_lt (waiting self.now) window }
    {
        self.waits.len() < window
    }

    // Claims the next ticket for the entry, and makes it ready.
    pub(crate) fn put(&mut self, board: &Board<B>, places: u64, entry: Entry<B>) -> u64
        requires fits { IsAt self.old.ring board.now.table_id }
        requires places { (board.now.table_id.slots ≡ places) × (0 < places) × (places ≤ 4096) }
        requires room { (board.now.key.window ≡ WINDOW) × (waiting self.old < WINDOW) × (self.old.seen < far) }
        ensures added { self.new ≡ with_own self.old result entry.command }
        ensures unseen { self.old.seen ≤ result }
        ensures last { IsLast result self.old.own }
    {
        let ticket = claim(board, &mut self.table_seat, &entry);
        let place = (ticket % places) as usize;
        ready(board, &mut self.table_seat, ticket, place, entry);
        self.waits.push_reserved(ticket);
        ticket
    }
}

/// The seat of the flusher, which takes the entries and raises the mark. Contracts see its ring, the ring's first
/// ticket, the commands that it has taken, and the mark. They also see whether it has stopped the ring, and how many
/// sessions' seats there are.
#[derive(Drop)]
pub struct FlushSeat<B> {
    table_seat: TableSeat<B>,
    base: u64,
    // The ticket after those taken.
    next: u64,
    mark: u64,
}

impl<B> Model for FlushSeat<B> {
    ghost use Rattle.claim_core.specs.Seats.{FlushSeatValue, flush_value, IsFlush};

    ghost Value = { FlushSeatValue };

    ghost view = { λ a. flush_value a.table_seat.table_id a.table_seat.me.0 };

    ghost invariant = { λ a. IsFlush a.table_seat.me a.base a.next a.mark };
}

impl<B> FlushSeat<B> {
    // The seat of a new ring, which has dealt none.
    pub(crate) fn new(table_seat: TableSeat<B>, base: u64) -> FlushSeat<B>
        requires { (table_seat.me ≡ (Owns (owning base [] false base false 0 []), [])) × (base ≤ 2 ^ 61) }
        ensures { result ≡ new_flushing table_seat.table_id base 0 }
    {
        FlushSeat {
            table_seat,
            base,
            next: base,
            mark: base,
        }
    }

    // One more session's seat, with that number.
    pub(crate) fn deal<const WINDOW: usize>(
        &mut self,
        alloc: Global,
        board: &Board<B>,
        number: u32,
    ) -> Result<SessionSeat<B, WINDOW>, AllocError>
        requires fits { IsAt self.old.ring board.now.table_id }
        requires few { self.old.seats < board.now.key.seats }
        ensures counted { OnOk result (self.new ≡ with_seat self.old) }
        ensures dealt { IfOk result (λ seat. seat ≡ new_session self.old.ring self.old.base number) }
    {
        let waits = Vec::with_capacity(alloc, WINDOW)?;
        let table_seat = deal(board, &mut self.table_seat);
        Ok(SessionSeat {
            table_seat,
            waits,
            number,
        })
    }

    /// The ticket after those taken, which comes next.
    pub fn next(&self) -> u64
        ensures next { result ≡ next_ticket self.now }
        ensures mark { self.now.published ≤ result }
        ensures most { result ≤ 2 ^ 62 }
    {
        self.next
    }

    /// The mark: every number under it is published.
    pub fn mark(&self) -> u64
        ensures mark { result ≡ self.now.published }
        ensures base { self.now.base ≤ result }
    {
        self.mark
    }

    // Takes the next entry if it is ready.
    pub(crate) fn pick(&mut self, board: &Board<B>, places: u64) -> Option<Entry<B>>
        requires fits { IsAt self.old.ring board.now.table_id }
        requires places { (board.now.table_id.slots ≡ places) × (0 < places) × (places ≤ 4096) }
        ensures { MatchOption result (self.new ≡ self.old) (λ entry. self.new ≡ with_taken self.old entry.command) }
    {
        let ticket = self.next;
        let place = (ticket % places) as usize;
        if hold(board, &mut self.table_seat, ticket, place) != 3 * ticket + 1 {
            return None;
        }
        let entry = board.exchange(&mut self.table_seat, place, None);
        free(board, &mut self.table_seat, ticket, place, places);
        self.next = ticket + 1;
        entry
    }

    pub(crate) fn raise_to(&mut self, board: &Board<B>, mark: u64)
        requires fits { IsAt self.old.ring board.now.table_id }
        requires mark { (self.old.published ≤ mark) × (mark ≤ next_ticket self.old) }
        ensures { self.new ≡ with_mark self.old mark }
    {
        raise(board, &mut self.table_seat, mark);
        self.mark = mark;
    }

    pub(crate) fn stop_ring(&mut self, board: &Board<B>)
        requires fits { IsAt self.old.ring board.now.table_id }
        ensures { self.new ≡ when_stopped self.old }
    {
        stop(board, &mut self.table_seat);
    }

    // Takes a session's seat back, learns what is known of both, and hands it out again.
    pub(crate) fn compare<const WINDOW: usize>(
        &mut self,
        board: &Board<B>,
        seat: &mut SessionSeat<B, WINDOW>,
    )
        requires fits { IsAt self.old.ring board.now.table_id }
        requires seat { seat.old.ring ≡ board.now.table_id }
        ensures seat { seat.new ≡ seat.old }
        ensures flush { self.new ≡ self.old }
        ensures agree { Agree seat.old self.old }
    {
        let nobody = stand_in(board, &mut self.table_seat);
        let table_seat = mem::replace(&mut seat.table_seat, nobody);
        gather(board, &mut self.table_seat, table_seat);
        let _tail = load_tail(board, &mut self.table_seat);
        seat.table_seat = hand_back(board, &mut self.table_seat);
    }

    // Takes all sessions' seats back and reads the next ticket.
    pub(crate) fn gather_all<const WINDOW: usize>(
        self,
        board: &Board<B>,
        seats: Vec<SessionSeat<B, WINDOW>>,
    ) -> RingEnd
        requires fits { IsAt self.ring board.now.table_id }
        requires seats { All (λ seat. seat.ring ≡ board.now.table_id) seats.items }
        requires all { length seats.items ≡ self.seats }
        ensures { (log : List CommandValue) × Ends seats.items self log result }
    {
        let FlushSeat {
            mut table_seat,
            base,
            next,
            mark,
        } = self;
        for seat in seats {
            gather(board, &mut table_seat, seat.into_table_seat());
        }
        RingEnd {
            base,
            claimed: load_tail(board, &mut table_seat),
            taken: next,
            mark,
        }
    }
}
