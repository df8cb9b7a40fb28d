//! What a session's seat knows.

ghost use Rattle.std.specs.Prelude.{◌≡◌, ◌++◌, [], ◌∷◌, nat_le, count_by, OnOk, OnErr, map, replicate, IfOk};
ghost use Rattle.world_core.specs.Events.{last_of, open_of};

use std::alloc::{AllocError, Global};
use std::marker::Model;

/// Numbers of commands, rising.
#[derive(Drop)]
pub struct Tickets {
    tickets: Vec<u64>,
}

impl Model for Tickets {
    ghost use Rattle.std.specs.Prelude.{List, ℕ};

    ghost Value = { List ℕ };

    ghost view = { λ a. a.tickets.items };
}

/// A session's seat: its own numbers in this life, and the mark that it saw last.
#[derive(Drop)]
pub struct Seat {
    /// The numbers of its commands, in their order.
    pub own: Tickets,
    /// The mark that it read last.
    pub seen: u64,
}

impl Tickets {
    fn new(alloc: Global) -> Tickets
        ensures { result ≡ [] }
    {
        Tickets {
            tickets: Vec::new(alloc),
        }
    }

    pub(crate) fn last(&self) -> Option<u64>
        ensures { result ≡ last_of self.now }
    {
        last_in(self.tickets.as_slice())
    }

    pub(crate) fn add(&mut self, ticket: u64) -> Result<(), AllocError>
        ensures ok { OnOk result (self.new ≡ self.old ++ ticket ∷ []) }
        ensures err { OnErr result (self.new ≡ self.old) }
    {
        self.tickets.push(ticket)?;
        Ok(())
    }

    fn clear(&mut self)
        ensures { self.new ≡ [] }
    {
        self.tickets.clear();
    }

    // How many tickets are not under a number.
    fn count_from(&self, least: u64) -> usize
        ensures { result ≡ count_by (nat_le least) self.now }
    {
        count_in(self.tickets.as_slice(), least)
    }
}

fn last_in(tickets: &[u64]) -> Option<u64>
    ensures { result ≡ last_of tickets.now }
{
    if tickets.is_empty() {
        return None;
    }
    Some(tickets[tickets.len() - 1])
}

fn count_in(tickets: &[u64], least: u64) -> usize
    ensures { result ≡ count_by (nat_le least) tickets.now }
{
    let mut count = 0;
    for ticket in tickets {
        if least <= *ticket {
            count += 1;
        }
    }
    count
}

impl Seat {
    fn new(alloc: Global, seen: u64) -> Seat
        ensures { result ≡ record { own = []; seen = seen } }
    {
        Seat {
            own: Tickets::new(alloc),
            seen,
        }
    }

    // How many of its commands are not under the mark that it saw.
    pub(crate) fn open(&self) -> usize
        ensures { result ≡ open_of self.now }
    {
        self.own.count_from(self.seen)
    }
}

// Each seat begins anew, with a mark that it has seen.
pub(crate) fn renew(seats: &mut [Seat], seen: u64)
    ensures { seats.new ≡ map (λ _. record { own = []; seen = seen }) seats.old }
{
    for seat in seats.iter_mut() {
        seat.own.clear();
        seat.seen = seen;
    }
}

// `count` seats, which have seen that mark.
pub(crate) fn seats(alloc: Global, count: usize, seen: u64) -> Result<Vec<Seat>, AllocError>
    ensures { IfOk result (λ all. all.items ≡ replicate count (record { own = []; seen = seen })) }
{
    let mut all = Vec::new(alloc);
    for i in 0..count {
        all.push(Seat::new(alloc, seen))?;
    }
    Ok(all)
}
