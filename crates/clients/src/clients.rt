//! The clients of a desk.

ghost use Rattle.std.specs.Prelude.{◌≡◌, ◌<◌, ◌≤◌, ◌∷◌, [], None, false, IfOk, IfSome, IsNone, MatchOption, Some, OnOk, OnErr, option_map, slice_set, cond, min, nat_lt, ◌+◌, ◌-◌, true};
ghost use Rattle.std.specs.Option.{option_copied};
ghost use Rattle.clients.specs.declared.wakers.TheConstants.{CLIENTS};
ghost use Rattle.clients.specs.declared.timers.TheConstants.{NEVER};
ghost use Rattle.clients.specs.Schedules.{begun, is_greeted, is_seated, ComesDue, IsWaitedFor, LooksBy, OthersStay, Parts, client_at, has_more, heard_greeting, is_short, moment_of, parts_now, state_at, waited_by, woken_short};
ghost use Rattle.clients.specs.Deadlines.{fresh};
ghost use Rattle.clients.specs.Timers.{IsDue as IsTimerDue, IsNotDue, looked_through};
ghost use Rattle.clients.specs.Outlooks.{awaits_mark, is_ready, longest_wait};

use crate::deadlines::{Deadlines, Due, Opening};
use crate::lines::Lines;
use crate::read_budget::{Flow, ReadBudget, Reported};
use crate::timers::{NEVER, Timers};
use crate::turned::{Next, Turned};
use crate::wakers::{CLIENTS, SHORTAGE};
use mio::net::TcpStream;
use slab::Slab;
use std::alloc::{AllocError, Global};
use std::marker::Model;
use std::mem;
use ws_core::{Farewell, Greeting};

/// For how many milliseconds a worker waits at most before it looks again. Nobody waits for this to end. It bounds what counts of a pause of the
/// whole process: no round counts for more than this and a second.
const LONGEST_SLEEP: u64 = 2_000;

/// The same while its server ends, or while all clients together hold more memory than they may: then it looks whether it has waited for its
/// clients long enough, or whether one of its own holds most.
const LONGEST_LOOK: u64 = 250;

/// Where a client is.
#[derive(Drop)]
pub enum ClientState {
    /// Its handshake is under way.
    Greeting(Greeting<ReadBudget<TcpStream>>),
    /// It was refused, and what comes of it is dropped.
    Refused(Farewell<ReadBudget<TcpStream>>),
    /// It sits at its desk, at the place that its number names.
    Seated,
    /// Its handshake or its end is going on just now, or it is gone.
    Away,
}

/// A client of a worker.
#[derive(Drop)]
pub struct Scheduled {
    pub(crate) state: ClientState,
    pub(crate) deadlines: Deadlines,
    // Whether memory was refused in its last turn.
    pub(crate) is_short: bool,
}

impl Scheduled {
    ghost use Rattle.clients.specs.Deadlines.{IsDue};
    ghost use Rattle.clients.specs.Schedules.{done_by};

    /// Whether it sits at its desk.
    pub fn is_seated(&self) -> bool
        ensures { result ≡ is_seated self.now.state }
    {
        match self.state {
            ClientState::Seated => true,
            ClientState::Greeting(_) | ClientState::Refused(_) | ClientState::Away => false,
        }
    }

    /// Whether its handshake is under way.
    pub fn is_greeted(&self) -> bool
        ensures { result ≡ is_greeted self.now.state }
    {
        match self.state {
            ClientState::Greeting(_) => true,
            ClientState::Refused(_) | ClientState::Seated | ClientState::Away => false,
        }
    }

    // Where the client is whose turn begins. Its handshake, or its end, is taken out, to go on.
    fn begin_turn(&mut self) -> ClientState
        ensures whose { result ≡ self.old.state }
        ensures begins { self.new ≡ begun self.old }
    {
        self.is_short = false;
        match self.state {
            ClientState::Seated => ClientState::Seated,
            _ => mem::replace(&mut self.state, ClientState::Away),
        }
    }

    // The poll reported this of its socket.
    fn note_report(&mut self, reported: Reported, now: u64)
        ensures { self.new ≡ heard_greeting reported now self.old }
    {
        if let ClientState::Greeting(greeting) = &self.state {
            greeting.stream().note_report(reported);
            if !matches!(reported, Reported::Nothing) {
                self.deadlines.heard(now);
            }
        }
    }

    // Begins to wait, and answers the moment at which that is to be looked at: any later one has been set before.
    fn wait(&mut self, next: Next, is_unread: bool, now: u64) -> u64
        ensures deadlines { self.new ≡ record self.old { deadlines = waited_by next is_unread now self.old.deadlines } }
        ensures moment { LooksBy (waited_by next is_unread now self.old.deadlines) now result }
    {
        match next {
            Next::Write => self.deadlines.held_up(now),
            Next::Close => {
                self.deadlines.freed(now);
                self.deadlines.parting(now);
            }
            _ if is_unread => self.deadlines.unread(),
            _ => self.deadlines.freed(now),
        }
        match self.deadlines.due(Opening::Open, now) {
            Due::In(millis) => now.saturating_add(millis),
            Due::Write | Due::Ping | Due::GivenUp => now,
        }
    }

    // What is due of it. A ping counts as sent.
    fn come_due(&mut self, progress: Opening, now: u64) -> Due
        ensures due { IsDue progress self.old.deadlines now result }
        ensures done { self.new ≡ record self.old { deadlines = done_by result now self.old.deadlines } }
    {
        let due = self.deadlines.due(progress, now);
        if let Due::Ping = due {
            self.deadlines.pinged(now);
        }
        due
    }
}

/// The clients of a desk, by their numbers, which also name their places there; their lines; and when each is to be looked at.
///
/// A number may stand in a line though its client has gone. Then there is a turn for which nobody is there, or in which the client that has
/// the number now finds nothing.
#[derive(Drop)]
pub struct Clients {
    pub(crate) all: Slab<Scheduled>,
    // No client has had a number that is not under this.
    pub(crate) reach: usize,
    /// Where they stand in line.
    pub lines: Lines,
    pub(crate) timers: Timers,
    // When clients to which memory was refused are to try again.
    pub(crate) retry: u64,
}

impl Clients {
    ghost use Rattle.slab.specs.Slab.{Updates};
    ghost use Rattle.clients.specs.Schedules.{Admits, Begins, IsEmpty, Removes, client_at, state_at};
    ghost use Rattle.clients.specs.Turns.{after_let_in, gone_on, let_in, settled, woken};

    /// None yet.
    pub fn new(alloc: Global) -> Result<Clients, AllocError>
        ensures { IfOk result IsEmpty }
    {
        Ok(Clients {
            all: Slab::new(alloc),
            reach: 0,
            lines: Lines::new(alloc)?,
            timers: Timers::new(alloc, CLIENTS)?,
            retry: NEVER,
        })
    }

    /// The number of the next client; `None` if there are as many as there may be.
    pub fn next_number(&self) -> Option<usize>
        ensures number { IfSome result (λ number. (number ≡ self.now.all.vacant_key) × (number < CLIENTS)) }
        ensures full { IsNone result → CLIENTS ≤ self.now.all.vacant_key }
    {
        let number = self.all.vacant_key();
        if number < CLIENTS { Some(number) } else { None }
    }

    /// Takes a client in, under the next number, as a guest if the server was full when it came. It has a turn next. If memory is refused, nothing has changed but how many have room.
    pub fn admit(
        &mut self,
        greeting: Greeting<ReadBudget<TcpStream>>,
        is_guest: bool,
        now: u64,
    ) -> Result<(), AllocError>
        ensures ok { OnOk result (Admits now self.old self.new (record { state = ClientState.Greeting greeting; deadlines = fresh is_guest now; is_short = false })) }
        ensures err { OnErr result (self.new ≡ record self.old { all = record self.old.all { capacity = self.new.all.capacity } }) }
    {
        let client = Scheduled {
            state: ClientState::Greeting(greeting),
            deadlines: Deadlines::new(is_guest, now),
            is_short: false,
        };
        let number = self.all.insert(client)?;
        self.reach = self.reach.max(number.saturating_add(1));
        self.timers.set(number, now);
        self.lines.wake(number);
        Ok(())
    }

    /// Lets a client go. Once there is none, no room is kept for any.
    pub fn remove(&mut self, number: usize)
        ensures { Removes self.old self.new number }
    {
        drop(self.all.try_remove(number));
        if self.all.is_empty() {
            self.all.shrink_to_fit();
        }
        self.timers.set(number, NEVER);
    }

    /// The client of that number.
    pub fn get(&self, number: usize) -> Option<&Scheduled>
        ensures { option_copied result ≡ client_at number self.now }
    {
        self.all.get(number)
    }

    /// No client has had a number that is not under this.
    pub fn reach(&self) -> usize
        ensures { result ≡ self.now.reach }
    {
        self.reach
    }

    /// A client whose moment to be looked at has come. It has none until `come_due` sets one.
    pub fn take_due(&mut self, now: u64) -> Option<usize>
        ensures due { IfSome result (λ client. IsTimerDue now client self.old.timers.all × (self.new ≡ record self.old { timers = record self.old.timers { all = slice_set self.old.timers.all client NEVER } })) }
        ensures none { IsNone result → IsNotDue now self.old.timers.all × (self.new ≡ record self.old { timers = looked_through now self.old.timers }) }
    {
        self.timers.take_due(now)
    }

    /// The next client that has a turn, and where it is. It stands in line no more.
    pub fn next(&mut self) -> Option<(usize, ClientState)>
        ensures none { IsNone result → self.old.lines.ready ≡ [] }
        ensures first { IfSome result (λ turn. self.old.lines.ready ≡ turn.0 ∷ self.new.lines.ready) }
        ensures rest { self.new.lines ≡ record self.old.lines { ready = self.new.lines.ready; let_in = None } }
        ensures whose { IfSome result (λ turn. turn.1 ≡ state_at turn.0 self.old) }
        ensures begins { IfSome result (λ turn. Begins turn.0 self.old self.new) }
        ensures nobody { IsNone result → self.new ≡ record self.old { lines = self.new.lines } }
    {
        let number = self.lines.next()?;
        Some((number, self.begin_turn(number)))
    }

    /// The next client that goes on by itself, and where it is. It stands in line no more.
    pub fn next_again(&mut self) -> Option<(usize, ClientState)>
        ensures none { IsNone result → self.old.lines.again ≡ [] }
        ensures first { IfSome result (λ turn. self.old.lines.again ≡ turn.0 ∷ self.new.lines.again) }
        ensures rest { self.new.lines ≡ record self.old.lines { again = self.new.lines.again; let_in = None } }
        ensures whose { IfSome result (λ turn. turn.1 ≡ state_at turn.0 self.old) }
        ensures begins { IfSome result (λ turn. Begins turn.0 self.old self.new) }
        ensures nobody { IsNone result → self.new ≡ record self.old { lines = self.new.lines } }
    {
        let number = self.lines.next_again()?;
        Some((number, self.begin_turn(number)))
    }

    /// The client that is let in at this mark, and where it is: the first that waits for room, or else the first whose output waits. It has
    /// a turn before all that stand in line for one, and waits no more.
    pub fn let_in(&mut self, mark: u64) -> Option<(usize, ClientState)>
        ensures who { option_map (λ turn. turn.0) result ≡ let_in mark self.old.lines }
        ensures after { self.new.lines ≡ after_let_in mark self.old.lines }
        ensures whose { IfSome result (λ turn. turn.1 ≡ state_at turn.0 self.old) }
        ensures begins { IfSome result (λ turn. Begins turn.0 self.old self.new) }
        ensures nobody { IsNone result → self.new ≡ record self.old { lines = self.new.lines } }
    {
        let number = self.lines.let_in(mark)?;
        Some((number, self.begin_turn(number)))
    }

    // Where the client is whose turn begins.
    fn begin_turn(&mut self, number: usize) -> ClientState
        ensures whose { result ≡ state_at number self.old }
        ensures begins { Begins number self.old self.new }
        ensures rest { self.new ≡ record self.old { all = self.new.all } }
    {
        match self.all.get_mut(number) {
            Some(client) => client.begin_turn(),
            None => ClientState::Away,
        }
    }

    /// A client is now in that state. It goes on by itself if more of its bytes may be there.
    pub fn stand(&mut self, number: usize, state: ClientState, has_rest: bool)
        ensures there { MatchOption (client_at number self.old) (self.new.all ≡ self.old.all) (λ client. Updates self.old.all self.new.all number (Some (record client { state = state }))) }
        ensures rest { self.new ≡ record self.old { all = self.new.all; lines = gone_on has_rest number self.old.lines } }
    {
        self.place(number, state);
        self.go_on(number, has_rest);
    }

    // A client is now in that state.
    fn place(&mut self, number: usize, state: ClientState)
        ensures there { MatchOption (client_at number self.old) (self.new.all ≡ self.old.all) (λ client. Updates self.old.all self.new.all number (Some (record client { state = state }))) }
        ensures rest { self.new ≡ record self.old { all = self.new.all } }
    {
        let Some(client) = self.all.get_mut(number) else {
            drop(state);
            return;
        };
        drop(mem::replace(&mut client.state, state));
    }

    // Has a client go on by itself if its last turn left bytes that may be there.
    pub(crate) fn go_on(&mut self, number: usize, has_rest: bool)
        ensures { self.new ≡ record self.old { lines = gone_on has_rest number self.old.lines } }
    {
        if has_rest {
            self.lines.go_on(number);
        }
    }

    /// The poll reported this of a client's socket. It stands in line for a turn; its stream takes it if its handshake is under way. Answers
    /// whether it sits at the desk: then its stream is to take it there.
    pub fn note_report(&mut self, number: usize, reported: Reported, now: u64) -> bool
        ensures client { client_at number self.new ≡ option_map (heard_greeting reported now) (client_at number self.old) }
        ensures others { OthersStay number self.old self.new }
        ensures rest { self.new ≡ record self.old { all = self.new.all; lines = woken number self.old.lines } }
        ensures seated { result ≡ is_seated (state_at number self.old) }
    {
        self.lines.wake(number);
        match self.all.get_mut(number) {
            Some(client) => {
                client.note_report(reported, now);
                client.is_seated()
            }
            None => false,
        }
    }

    /// Has clients to which memory was refused stand in line, once they are to try again.
    pub fn retry(&mut self, now: u64) -> Retried
        ensures clients { self.new ≡ cond (nat_lt now self.old.retry) self.old (record self.old { lines = woken_short self.old.reach self.old self.old.lines; retry = NEVER }) }
        ensures at { result ≡ now }
    {
        if now < self.retry {
            return Retried { at: now };
        }
        self.retry = NEVER;
        for number in 0..self.reach {
            if self.is_short(number) {
                self.lines.wake(number);
            }
        }
        Retried { at: now }
    }

    // Whether memory was refused in a client's last turn.
    fn is_short(&self, number: usize) -> bool
        ensures { result ≡ is_short (client_at number self.now) }
    {
        match self.all.get(number) {
            Some(client) => client.is_short,
            None => false,
        }
    }

    /// A moment before which no client's comes, and nobody tries again for memory.
    pub fn until(&self) -> u64
        ensures { result ≡ min self.now.timers.earliest self.now.retry }
    {
        self.timers.earliest().min(self.retry)
    }

    /// What is to come of a client that had a turn and has not ended, and whose stream reports this. If `is_unread`, nothing is read from it,
    /// since a command of it waits for room: then its silence doesn't count.
    pub fn settle(&mut self, number: usize, turned: Turned, flow: Flow, is_unread: bool, now: u64)
        ensures lines { self.new.lines ≡ gone_on (has_more flow.has_rest turned.next (client_at number self.old)) number (settled number turned self.old.lines) }
        ensures rest { IsWaitedFor number turned is_unread flow.taken now self.old self.new }
    {
        let has_more = self.has_more(number, flow.has_rest, turned.next);
        self.lines.settle(number, turned);
        self.await_client(number, turned, is_unread, flow.taken, now);
        self.go_on(number, has_more);
    }

    // Whether more of a client's bytes may be there, which the poll reports no more, after a turn that came to this. While the client
    // was to be closed, nothing of it was read.
    fn has_more(&self, number: usize, has_rest: bool, next: Next) -> bool
        ensures { result ≡ has_more has_rest next (client_at number self.now) }
    {
        match next {
            Next::Read | Next::Mark(_) => has_rest,
            Next::Close => has_rest || self.parts_now(number),
            _ => false,
        }
    }

    /// A client was refused. From now on it is waited for as one whose close is.
    pub fn part(&mut self, number: usize, farewell: Farewell<ReadBudget<TcpStream>>, now: u64)
        ensures { MatchOption (client_at number self.old) (self.new ≡ self.old) (λ client. Parts number farewell now self.old self.new client) }
    {
        let Some(client) = self.all.get_mut(number) else {
            drop(farewell);
            return;
        };
        drop(mem::replace(&mut client.state, ClientState::Refused(farewell)));
        client.deadlines.parting(now);
        self.timers.set(number, now);
        self.lines.go_on(number);
    }

    // Whether a client's close was not waited for until now.
    fn parts_now(&self, number: usize) -> bool
        ensures { result ≡ parts_now (client_at number self.now) }
    {
        match self.all.get(number) {
            Some(client) => !client.deadlines.is_parting(),
            None => false,
        }
    }

    // Begins to wait for what a client is waited for after a turn.
    fn await_client(&mut self, number: usize, turned: Turned, is_unread: bool, taken: u64, now: u64)
        ensures lines { self.new.lines ≡ self.old.lines }
        ensures rest { IsWaitedFor number turned is_unread taken now self.old self.new }
    {
        let Some(client) = self.all.get_mut(number) else {
            return;
        };
        if turned.heard {
            client.deadlines.heard(now);
        }
        client.deadlines.took(taken, now);
        client.is_short = matches!(turned.next, Next::Memory);
        let at = client.wait(turned.next, is_unread, now);
        self.timers.set_earlier(number, at);
        if let Next::Memory = turned.next {
            self.retry = self.retry.min(now.saturating_add(SHORTAGE));
        }
    }

    /// What is due of a client whose moment has come and which has come so far, and where it is. Each ping counts as sent, and its next
    /// moment is set, unless it is to be given up.
    pub fn come_due(&mut self, number: usize, progress: Opening, now: u64) -> Due
        ensures none { MatchOption (client_at number self.old) ((result ≡ Due.In NEVER) × (self.new ≡ self.old)) (λ _. Unit {0}) }
        ensures due { MatchOption (client_at number self.old) (Unit {0}) (ComesDue number progress now result self.old self.new) }
    {
        let Some(client) = self.all.get_mut(number) else {
            return Due::In(NEVER);
        };
        let due = client.come_due(progress, now);
        let then = client.deadlines.due(progress, now);
        self.timers.set(number, moment_of(then, now));
        due
    }

    /// Whether a client stands in line for a turn, or goes on by itself.
    pub fn is_ready(&self) -> bool
        ensures { result ≡ is_ready self.now }
    {
        self.lines.count_ready() > 0 || self.lines.count_again() > 0
    }

    /// Whether a client waits for the mark.
    pub fn awaits_mark(&self) -> bool
        ensures { result ≡ awaits_mark self.now }
    {
        self.lines.count_waiting() > 0
    }
}

/// Clients to which memory was refused were looked through at that moment. Only `Clients::retry` makes one, so whoever has it has called that.
/// Contracts see the moment.
#[derive(Drop)]
pub struct Retried {
    at: u64,
}

impl Model for Retried {
    ghost use Rattle.std.specs.Prelude.{ℕ};

    ghost Value = { ℕ };

    ghost view = { λ a. a.at };
}

// When a client is to be looked at of which this is due. If something is done, that is after its next turn.
fn moment_of(due: Due, now: u64) -> u64
    ensures { result ≡ moment_of due now }
{
    match due {
        Due::In(millis) => now.saturating_add(millis),
        Due::Write | Due::Ping => now.saturating_add(1),
        Due::GivenUp => NEVER,
    }
}

/// What a worker sees before it waits.
#[derive(Clone, Copy)]
pub struct Outlook {
    /// Whether there is something to do at once: a client is ready or is let in, or the worker's bell was rung.
    pub is_wanted: bool,
    /// Whether it looks again soon.
    pub looks_soon: bool,
    /// A moment before which nothing is due.
    pub due: u64,
}

impl Outlook {
    /// For how many milliseconds the worker waits at most at this moment. Anyone who has something for it from then on wakes it.
    pub fn longest_wait(&self, now: u64) -> u64
        ensures wait { result ≡ longest_wait self.now now }
        ensures waits { self.now.is_wanted ≡ false → 0 < result }
        ensures due { result ≤ self.now.due - now + 1 }
    {
        if self.is_wanted {
            return 0;
        }
        let longest = if self.looks_soon {
            LONGEST_LOOK
        } else {
            LONGEST_SLEEP
        };
        longest.min(self.due.saturating_sub(now).saturating_add(1))
    }
}
