//! The lines in which a desk's clients stand.

ghost use Rattle.std.specs.Prelude.{◌≡◌, ◌+◌, [], ◌∷◌, None, IfOk, MatchOption, length, ◌<◌, ◌≤◌, IfSome, slice_get, cond};
ghost use Rattle.clients.specs.Lines.{is_over, IsLine, joined, joined_first, may_join, waiting, waiting_first, without_first};
ghost use Rattle.clients.specs.Turns.{woken, going_on, let_in, after_let_in, settled};
ghost use Rattle.clients.specs.declared.wakers.TheConstants.{CLIENTS};

use crate::turned::{Next, Turned};
use crate::wakers::CLIENTS;
use std::alloc::{AllocError, Global};
use std::collections::VecDeque;
use std::marker::Model;

/// The lines in which a desk's clients stand, by their numbers.
#[derive(Drop)]
pub struct Lines {
    // Clients that have a turn next.
    pub(crate) ready: ClientLine,
    // Clients that go on by themselves: they have one after those that something has woken.
    pub(crate) again: ClientLine,
    // Clients that found the window full, in the order in which they were refused.
    pub(crate) room: Waiting,
    // Clients that wait for the mark alone: their next output does, or commands of others go before theirs.
    pub(crate) outputs: Waiting,
    // The client that was let in to room, while its turn lasts.
    pub(crate) let_in: Option<usize>,
}

impl Lines {
    ghost use Rattle.std.specs.Prelude.{◌||◌};
    ghost use Rattle.clients.specs.Turns.{IsNobody};

    /// Nobody stands in any.
    pub(crate) fn new(alloc: Global) -> Result<Lines, AllocError>
        ensures { IfOk result IsNobody }
    {
        Ok(Lines {
            ready: ClientLine::new(alloc)?,
            again: ClientLine::new(alloc)?,
            room: Waiting::new(alloc)?,
            outputs: Waiting::new(alloc)?,
            let_in: None,
        })
    }

    /// How many stand in line for a turn.
    pub fn count_ready(&self) -> usize
        ensures { result ≡ length self.now.ready }
    {
        self.ready.len()
    }

    /// How many go on by themselves.
    pub fn count_again(&self) -> usize
        ensures { result ≡ length self.now.again }
    {
        self.again.len()
    }

    /// How many wait for the mark: for room, or for their next output to come under it.
    pub fn count_waiting(&self) -> usize
        ensures { result ≡ length self.now.room.line + length self.now.outputs.line }
    {
        self.room.len() + self.outputs.len()
    }

    /// Whether a client is let in at this mark.
    pub fn is_over(&self, mark: u64) -> bool
        ensures { result ≡ (is_over mark self.now.room || is_over mark self.now.outputs) }
    {
        self.room.is_over(mark) || self.outputs.is_over(mark)
    }

    /// Has a client stand in line for a turn, after all others. A client that stands there, or that goes on by itself, keeps its place.
    pub fn wake(&mut self, client: usize)
        ensures { self.new ≡ woken client self.old }
    {
        if self.again.takes(client) {
            self.ready.join(client);
        }
    }

    /// That client goes on by itself, unless it stands in line for a turn.
    pub(crate) fn go_on(&mut self, client: usize)
        ensures { self.new ≡ going_on client self.old }
    {
        if self.ready.takes(client) {
            self.again.join(client);
        }
    }

    /// The first that stands in line for a turn. It stands there no more.
    pub(crate) fn next(&mut self) -> Option<usize>
        ensures first { MatchOption result ((self.old.ready ≡ []) × (self.new.ready ≡ [])) (λ client. self.old.ready ≡ client ∷ self.new.ready) }
        ensures rest { self.new ≡ record self.old { ready = self.new.ready; let_in = None } }
    {
        self.let_in = None;
        self.ready.next()
    }

    /// The first that goes on by itself. It stands there no more.
    pub(crate) fn next_again(&mut self) -> Option<usize>
        ensures first { MatchOption result ((self.old.again ≡ []) × (self.new.again ≡ [])) (λ client. self.old.again ≡ client ∷ self.new.again) }
        ensures rest { self.new ≡ record self.old { again = self.new.again; let_in = None } }
    {
        self.let_in = None;
        self.again.next()
    }

    /// The client that is let in at this mark: the first that waits for room, or else the first whose output waits. It waits no
    /// more.
    pub(crate) fn let_in(&mut self, mark: u64) -> Option<usize>
        ensures who { result ≡ let_in mark self.old }
        ensures after { self.new ≡ after_let_in mark self.old }
    {
        self.let_in = self.room.next(mark);
        if self.let_in.is_some() {
            self.let_in
        } else {
            self.outputs.next(mark)
        }
    }

    /// What comes of a client's turn.
    pub(crate) fn settle(&mut self, client: usize, turned: Turned)
        ensures { self.new ≡ settled client turned self.old }
    {
        let was_let_in = self.let_in.take() == Some(client);
        match turned.next {
            Next::Go => self.go_on(client),
            Next::Close if turned.heard => self.go_on(client),
            Next::Room(mark) if was_let_in && !turned.appended => {
                self.room.join_first(client, mark);
            }
            Next::Room(mark) => self.room.join(client, mark),
            Next::Mark(mark) => self.outputs.join(client, mark),
            Next::Read | Next::Write | Next::Close | Next::Memory | Next::Over(_) => {}
        }
    }
}

/// A line of clients, by their numbers. Each stands in it once at most, so the room that is made for it at the beginning is
/// enough. Contracts see it as a list, the first one first.
#[derive(Drop)]
pub struct ClientLine {
    order: VecDeque<usize>,
    // Whether each client stands there, by its number.
    stands: Vec<bool>,
}

impl Model for ClientLine {
    ghost use Rattle.std.specs.Prelude.{List, ℕ};
    ghost use Rattle.std.specs.VecDeque.{deque_capacity};
    ghost use Rattle.clients.specs.KeptLines.{IsKept};

    ghost Value = { List ℕ };

    ghost view = { λ a. a.order.items };

    ghost invariant = { λ a. IsKept a.order.items a.stands.items (deque_capacity a.order) };
}

impl ClientLine {
    /// Nobody stands there.
    pub fn new(alloc: Global) -> Result<ClientLine, AllocError>
        ensures { IfOk result (λ line. line ≡ []) }
    {
        let order = VecDeque::with_capacity(alloc, CLIENTS)?;
        let stands = Vec::from_elem(alloc, false, CLIENTS)?;
        Ok(ClientLine { order, stands })
    }

    /// How many stand there.
    pub fn len(&self) -> usize
        ensures count { result ≡ length self.now }
        ensures line { IsLine self.now }
        ensures most { result ≤ CLIENTS }
    {
        self.order.len()
    }

    /// The first one.
    pub fn first(&self) -> Option<usize>
        ensures first { result ≡ slice_get self.now 0 }
        ensures client { IfSome result (λ client. client < CLIENTS) }
    {
        front_of(&self.order)
    }

    /// Whether that client may join: there is that number, and it does not stand there yet.
    pub fn takes(&self, client: usize) -> bool
        ensures { result ≡ may_join client self.now }
    {
        client < CLIENTS && !self.stands[client]
    }

    /// A client joins, behind all others. A client that stands there keeps its place.
    pub fn join(&mut self, client: usize)
        ensures { self.new ≡ joined client self.old }
    {
        if self.takes(client) {
            self.stands[client] = true;
            self.order.push_back_reserved(client);
        }
    }

    /// A client joins, before all others. A client that stands there keeps its place.
    pub fn join_first(&mut self, client: usize)
        ensures { self.new ≡ joined_first client self.old }
    {
        if self.takes(client) {
            self.stands[client] = true;
            self.order.push_front_reserved(client);
        }
    }

    /// The first one leaves, if there is one.
    pub fn next(&mut self) -> Option<usize>
        ensures { MatchOption result ((self.old ≡ []) × (self.new ≡ [])) (λ client. self.old ≡ client ∷ self.new) }
    {
        let client = self.order.pop_front()?;
        self.stands[client] = false;
        Some(client)
    }
}

// The first number of a line.
fn front_of(order: &VecDeque<usize>) -> Option<usize>
    ensures { result ≡ slice_get order.now.items 0 }
{
    order.front().copied()
}

/// A line of clients that wait for a mark, each for one over its own. It moves only at its front: nobody goes on before the first.
#[derive(Drop)]
pub struct Waiting {
    line: ClientLine,
    // The mark over which each waits for one, or waited last, by the clients' numbers.
    marks: Vec<u64>,
}

impl Model for Waiting {
    ghost use Rattle.std.specs.Prelude.{◌≡◌, length};
    ghost use Rattle.clients.specs.Lines.{WaitingValue};
    ghost use Rattle.clients.specs.declared.wakers.TheConstants.{CLIENTS};

    ghost Value = { WaitingValue };

    ghost view = { λ a. record { line = a.line; marks = a.marks.items } };

    ghost invariant = { λ a. length a.marks.items ≡ CLIENTS };
}

impl Waiting {
    /// Nobody waits.
    pub fn new(alloc: Global) -> Result<Waiting, AllocError>
        ensures { IfOk result (λ waiting. waiting.line ≡ []) }
    {
        let line = ClientLine::new(alloc)?;
        let marks = Vec::from_elem(alloc, 0, CLIENTS)?;
        Ok(Waiting { line, marks })
    }

    /// How many wait.
    pub fn len(&self) -> usize
        ensures count { result ≡ length self.now.line }
        ensures line { IsLine self.now.line }
        ensures most { result ≤ CLIENTS }
    {
        self.line.len()
    }

    /// Whether the first is to go on at this mark.
    pub fn is_over(&self, mark: u64) -> bool
        ensures { result ≡ is_over mark self.now }
    {
        match self.line.first() {
            Some(first) => self.marks[first] < mark,
            None => false,
        }
    }

    /// A client waits for a mark over this, behind all others. One that waits keeps its place and its mark.
    pub fn join(&mut self, client: usize, mark: u64)
        ensures { self.new ≡ waiting client mark self.old }
    {
        if self.line.takes(client) {
            self.marks[client] = mark;
            self.line.join(client);
        }
    }

    /// A client waits for a mark over this, before all others. One that waits keeps its place and its mark.
    pub fn join_first(&mut self, client: usize, mark: u64)
        ensures { self.new ≡ waiting_first client mark self.old }
    {
        if self.line.takes(client) {
            self.marks[client] = mark;
            self.line.join_first(client);
        }
    }

    /// The first goes on, if the mark is over its: it waits no more.
    pub fn next(&mut self, mark: u64) -> Option<usize>
        ensures first { result ≡ cond (is_over mark self.old) (slice_get self.old.line 0) None }
        ensures rest { self.new ≡ cond (is_over mark self.old) (without_first self.old) self.old }
    {
        if self.is_over(mark) {
            self.line.next()
        } else {
            None
        }
    }
}
