//! What the desks of a worker do in a round.

ghost use Rattle.std.specs.Prelude.{◌≡◌};
ghost use Rattle.server_core.specs.Sweeps.{Follows};
ghost use Rattle.server_core.specs.declared.sweep.Sweep.TheVariants.{Begin, End, Part, Pass};

use crate::service::Service;
use clients::Retried;
use mio::Registry;
use std::marker::Model;
use std::sync::Wait;
use std::time::Clock;

/// What a worker has each of its desks do in a round, one after another.
#[derive(Clone, Copy)]
pub(crate) enum Sweep {
    /// A round begins at that moment: a desk finds out which of its clients are ready, and gives a turn to those that the mark lets in. It
    /// has whether the doorbell was rung.
    Begin { was_rung: bool, now: u64 },
    /// Each client that stands in line now has its turns.
    Pass,
    /// Each that went on by itself when the round began has its turns, and what is due of clients is done.
    End,
    /// A desk begins to part with its clients.
    Part,
}

/// What a desk has done last in a round. Only the functions here make one, so nobody else can claim that a desk did its part. Contracts see what it was.
#[derive(Drop)]
pub(crate) struct Swept {
    last: Sweep,
}

impl Model for Swept {
    ghost use Rattle.server_core.specs.declared.sweep.Sweep.{Sweep};

    ghost Value = { Sweep };

    ghost view = { λ a. a.last };
}

impl Swept {
    /// Nothing yet: as if a round had just begun.
    pub(crate) fn new() -> Swept {
        Swept {
            last: Sweep::Begin {
                was_rung: false,
                now: 0,
            },
        }
    }

    // A round has begun, in which clients that lacked memory were looked through.
    fn begun(was_rung: bool, now: u64, retried: Retried) -> Swept
        requires { retried ≡ now }
        ensures { result ≡ Begin was_rung now }
    {
        drop(retried);
        Swept {
            last: Sweep::Begin { was_rung, now },
        }
    }
}

impl<R: Wait + Clock + Drop> Service<'_, R> {
    /// Does its part of a round. New clients' sockets are registered there.
    pub(crate) fn sweep(&mut self, registry: &Registry, sweep: Sweep)
        requires follows { Follows self.old.swept sweep }
        ensures shared { self.new.shared ≡ self.old.shared }
        ensures swept { self.new.swept ≡ sweep }
    {
        self.swept = match sweep {
            Sweep::Begin { was_rung, now } => self.begin(registry, was_rung, now),
            Sweep::Pass => self.pass(),
            Sweep::End => self.end_round(),
            Sweep::Part => self.part_with_all(),
        };
    }

    // Begins a round at that moment.
    fn begin(&mut self, registry: &Registry, was_rung: bool, now: u64) -> Swept
        ensures shared { self.new.shared ≡ self.old.shared }
        ensures swept { result ≡ Begin was_rung now }
    {
        self.now = now;
        self.going_on = self.clients.lines.count_again();
        if was_rung {
            self.take_calls(registry);
        }
        let retried = self.clients.retry(now);
        self.let_in();
        Swept::begun(was_rung, now, retried)
    }

    // Gives each client that stands in line now its turns. After each of them, those that are let in have theirs, so that a client that
    // never waits does not fill the window before them.
    fn pass(&mut self) -> Swept
        ensures shared { self.new.shared ≡ self.old.shared }
        ensures swept { result ≡ Pass }
    {
        for _client in 0..self.clients.lines.count_ready() {
            if let Some((number, standing)) = self.clients.next() {
                self.give_turn(number, standing);
                self.give_way();
            }
            self.let_in();
        }
        Swept { last: Sweep::Pass }
    }

    // The same for each client that went on by itself when the round began. What this round's turns leave to be done is the next round's:
    // whom the poll reports then comes first.
    fn pass_again(&mut self)
        ensures shared { self.new.shared ≡ self.old.shared }
    {
        for _client in 0..self.going_on {
            if let Some((number, standing)) = self.clients.next_again() {
                self.give_turn(number, standing);
                self.give_way();
            }
            self.let_in();
        }
    }

    // Ends a round. What has come from a client was read before it is looked which of them took too long.
    fn end_round(&mut self) -> Swept
        ensures shared { self.new.shared ≡ self.old.shared }
        ensures swept { result ≡ End }
    {
        self.pass_again();
        self.look_at_timers();
        self.give_way();
        Swept { last: Sweep::End }
    }

    // Begins to part with all clients: each has a turn, in which what may still leave is sent.
    fn part_with_all(&mut self) -> Swept
        ensures shared { self.new.shared ≡ self.old.shared }
        ensures swept { result ≡ Part }
    {
        self.parting = true;
        for number in 0..self.clients.reach() {
            self.clients.lines.wake(number);
        }
        self.mailbox.ring();
        Swept { last: Sweep::Part }
    }
}
