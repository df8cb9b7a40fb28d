//! The workers of a server.

ghost use Rattle.std.specs.Prelude.{◌≡◌, IfErr, IfOk, length, ◌+◌, ◌≤◌, ◌<◌, OnOk};
ghost use Rattle.std.specs.Arc.{arc_value};
ghost use Rattle.event_log.specs.Faults.{IsNotStarted};
ghost use Rattle.claim_core.specs.declared.limits.TheConstants.{SEATS};
ghost use Rattle.server_core.specs.Serving.{AreBack, count_mailboxes};

use crate::event_loop::EventLoop;
use crate::fittings::{ServerRing, ServerSeat, Shared};
use claim_core::SEATS;
use clients::Clients;
use event_log::ServeFault;
use mio::{Events, Poll, Token};
use std::alloc::{AllocError, Global};
use std::io::ErrorKind;
use std::marker::Model;
use std::net::Net;
use std::snapshot::Snapshot;
use std::sync::{Arc, Wait};
use std::thread::{Promise, PromisedHandle, Threads};
use std::time::Clock;
use std::{io, thread};
use wakeups::{Doorbell, Mailbox};

/// The token by which a worker's poll reports that its doorbell was rung. Tokens of sockets come from their desks' and clients' numbers.
const BELL: Token = Token(usize::MAX);

/// How many sockets one look at the poll reports at most; it reports the others the next time.
const EVENTS: usize = 256;

/// A worker of a server, which serves the clients of several desks, with a seat at each.
#[derive(Drop)]
pub(crate) struct Worker<R: Drop> {
    pub(crate) shared: Arc<Shared<R>>,
    pub(crate) seats: Vec<ServerSeat>,
    pub(crate) setup: WorkerSetup,
}

impl<R: Drop> Model for Worker<R> {
    ghost use Rattle.std.specs.Arc.{arc_value};
    ghost use Rattle.server_core.specs.Serving.{AreAt, WorkerValue};

    ghost Value = { WorkerValue };

    ghost view = { λ a. record { ring = (arc_value a.shared).ring; seats = a.seats.items } };

    ghost invariant = { λ a. AreAt (arc_value a.shared).ring a.seats.items };
}

impl<R: Wait + Clock + Drop> Worker<R> {
    /// Serves the clients that are handed to it, until the server ends: then it parts with them, and its seats come back.
    pub(crate) fn run(self, alloc: Global) -> Vec<ServerSeat>
        ensures { AreBack self.ring (length self.seats) result.items }
    {
        let Worker {
            shared,
            seats,
            setup,
        } = self;
        let mut rounds = EventLoop::new(alloc, &shared, seats, setup);
        for _round in shared.rt.forever() {
            if rounds.is_over() {
                break;
            }
            rounds.round();
        }
        rounds.into_seats()
    }
}

/// What is known of the seats that come back from a worker: they are of its ring, and as many as it was given.
#[derive(Drop)]
pub(crate) struct SeatsBack {
    ring: Snapshot<ServerRing>,
    seats: Snapshot<Vec<ServerSeat>>,
}

impl Promise<Vec<ServerSeat>> for SeatsBack {
    ghost use Rattle.std.specs.Prelude.{length};
    ghost use Rattle.server_core.specs.Serving.{AreBack};

    ghost kept_by = { λ promise seats. AreBack promise.ring.value (length promise.seats.value.items) seats.items };
}

/// The thread of a worker.
pub(crate) type WorkerThread = PromisedHandle<Vec<ServerSeat>, SeatsBack>;

/// Starts a worker in a thread of its own. `Threads` if the system starts no more: then its seats are lost.
pub(crate) fn start<R>(rt: &R, alloc: Global, worker: Worker<R>) -> Result<WorkerThread, ServeFault>
where
    R: Threads + Wait + Clock + Drop + Send + Sync + 'static,
    ensures ring { IfOk result (λ thread. thread.promise.ring.value ≡ worker.ring) }
    ensures seats { IfOk result (λ thread. thread.promise.seats.value.items ≡ worker.seats) }
    ensures refused { IfErr result IsNotStarted }
{
    let promise = SeatsBack {
        ring: Snapshot::of(&worker.shared.ring),
        seats: Snapshot::of(&worker.seats),
    };
    match thread::spawn_with(rt, promise, move || worker.run(alloc)) {
        Ok(thread) => Ok(thread),
        Err(refused) => {
            drop(refused);
            Err(ServeFault::Threads)
        }
    }
}

/// What a worker waits on, and what others see of its desks.
#[derive(Drop)]
pub(crate) struct WorkerSetup {
    pub(crate) poll: Poll,
    pub(crate) bell: Arc<Doorbell>,
    /// One for each of its desks.
    pub(crate) mailboxes: Vec<Arc<Mailbox>>,
}

impl WorkerSetup {
    // The setup of a worker that has no desk yet.
    fn new(alloc: Global, net: &impl Net) -> io::Result<WorkerSetup>
        ensures { IfOk result (λ setup. length setup.mailboxes.items ≡ 0) }
    {
        let poll = Poll::new(net)?;
        let bell = Doorbell::new(poll.registry(), BELL)?;
        Ok(WorkerSetup {
            poll,
            bell: Arc::new(alloc, bell)?,
            mailboxes: Vec::new(alloc),
        })
    }

    // The worker has one more desk, of that number, whose mailbox is the answer too.
    fn add_desk(&mut self, alloc: Global, desk: usize) -> Result<Arc<Mailbox>, AllocError>
        ensures { OnOk result (length self.new.mailboxes.items ≡ length self.old.mailboxes.items + 1) }
    {
        let mailbox = Mailbox::new(alloc, self.bell.clone()?, desk)?;
        let mailbox = Arc::new(alloc, mailbox)?;
        self.mailboxes.push(mailbox.clone()?)?;
        Ok(mailbox)
    }
}

/// The room for what a worker's poll reports of its clients. Its worker makes it, and no other thread ever has it.
pub(crate) fn room_for_events(alloc: Global) -> Result<Events<Global>, AllocError> {
    Events::with_capacity(alloc, EVENTS)
}

/// What the workers wait on: a setup for each of them, and a desk for each seat; desks are dealt out in turn. `mailboxes` are those of all
/// desks, so that neighbours there have different workers. `Threads` if the system refuses what a worker waits on.
pub(crate) fn man(
    alloc: Global,
    net: &impl Net,
    workers: usize,
    setups: &mut Vec<WorkerSetup>,
    mailboxes: &mut Vec<Arc<Mailbox>>,
) -> Result<(), ServeFault>
    requires workers { 0 < workers }
    requires none { length setups.old.items ≡ 0 }
    ensures workers { OnOk result (length setups.new.items ≡ workers) }
    ensures desks { OnOk result (count_mailboxes setups.new.items ≡ SEATS) }
{
    for _worker in 0..workers {
        add_setup(alloc, net, setups)?;
    }
    for desk in 0..SEATS {
        add_desk(
            alloc,
            setups.as_mut_slice(),
            desk % workers,
            desk,
            mailboxes,
        )?;
    }
    Ok(())
}

fn add_setup(alloc: Global, net: &impl Net, setups: &mut Vec<WorkerSetup>) -> Result<(), ServeFault>
    ensures count { OnOk result (length setups.new.items ≡ length setups.old.items + 1) }
    ensures desks { OnOk result (count_mailboxes setups.new.items ≡ count_mailboxes setups.old.items) }
{
    let setup = match WorkerSetup::new(alloc, net) {
        Ok(setup) => setup,
        Err(error) if error.kind() == ErrorKind::OutOfMemory => return Err(ServeFault::Memory),
        Err(_) => return Err(ServeFault::Threads),
    };
    match setups.push(setup) {
        Ok(()) => Ok(()),
        Err(_) => Err(ServeFault::Memory),
    }
}

// The worker at that place has one more desk, of that number.
fn add_desk(
    alloc: Global,
    setups: &mut [WorkerSetup],
    worker: usize,
    desk: usize,
    mailboxes: &mut Vec<Arc<Mailbox>>,
) -> Result<(), ServeFault>
    requires { worker < length setups.old }
    ensures count { length setups.new ≡ length setups.old }
    ensures desks { OnOk result (count_mailboxes setups.new ≡ count_mailboxes setups.old + 1) }
{
    match setups[worker].add_desk(alloc, desk) {
        Ok(mailbox) => match mailboxes.push(mailbox) {
            Ok(()) => Ok(()),
            Err(_) => Err(ServeFault::Memory),
        },
        Err(_) => Err(ServeFault::Memory),
    }
}
