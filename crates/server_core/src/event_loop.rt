//! What a worker does: it waits for the clients of its desks, and serves them in turn.

ghost use Rattle.std.specs.Prelude.{◌≡◌, ◌<◌, ◌≤◌, ◌+◌, [], IfOk, length, vec_len, vec_capacity, ◌*◌, ◌-◌, ◌^◌, min};
ghost use Rattle.std.specs.List.{All};
ghost use Rattle.atomic_table.specs.Seated.{TableId};
ghost use Rattle.mio.specs.Events.{items};
ghost use Rattle.mio.specs.declared.event.event.Event.{Event};
ghost use Rattle.clients.specs.declared.wakers.TheConstants.{CLIENTS};
ghost use Rattle.server_core.specs.Serving.{AreAt, AreBack, AreServed};
ghost use Rattle.server_core.specs.Waits.{first_due, is_anybody_let_in, is_anybody_ready, is_mark_awaited, wait_of};
ghost use Rattle.server_core.specs.Reporting.{IsReported};
ghost use Rattle.server_core.specs.Sweeps.{HasBegun, HaveAllDone, MayAllDo};
ghost use Rattle.server_core.specs.declared.sweep.Sweep.TheVariants.{End, Part};

use crate::fittings::{ServerSeat, Shared};
use crate::service::Service;
use crate::serving::has_parted;
use crate::sweep::Sweep;
use crate::worker::{WorkerSetup, room_for_events};
use clients::{CLIENTS, Clients, Outlook, Watch, reported_by};
use mio::event::Event;
use mio::{Events, Poll, Registry, Token};
use std::alloc::{AllocError, Global};
use std::marker::Model;
use std::sync::{Arc, Wait};
use std::thread;
use std::time::{Clock, Duration};
use wakeups::{Doorbell, Mailbox};

/// For how many milliseconds a worker rests before it tries again, if memory was refused to it before it had begun.
const SHORTAGE: u64 = 20;

/// A worker at work: the desks that it serves, and what it waits on. Contracts see the ring, and how many seats it has.
#[derive(Drop)]
pub(crate) struct EventLoop<'a, R: Drop> {
    shared: &'a Shared<R>,
    bell: Arc<Doorbell>,
    poll: Poll,
    events: Events<Global>,
    services: Vec<Service<'a, R>>,
    // Seats that no desk has, and room for all the others.
    seats: Vec<ServerSeat>,
    watch: Watch,
    // The moment of this round, in milliseconds of the watch.
    now: u64,
    // Since when it parts with its clients, once the server ends.
    parting: Option<u64>,
}

impl<'a, R: Drop> Model for EventLoop<'a, R> {
    ghost use Rattle.std.specs.Prelude.{◌≤◌, ◌+◌, vec_len, vec_capacity};
    ghost use Rattle.server_core.specs.Serving.{AreAt, AreServed, LoopValue};

    ghost Value = { LoopValue };

    ghost view = { λ a. record { ring = a.shared.now.ring; count = vec_len a.services + vec_len a.seats } };

    ghost invariant = { λ a. AreServed a.shared.now.ring a.services.items × AreAt a.shared.now.ring a.seats.items × (vec_len a.services + vec_len a.seats ≤ vec_capacity a.seats) };
}

impl<'a, R: Wait + Clock + Drop> EventLoop<'a, R> {
    /// The loop of the worker with these seats and this setup. If memory is refused, it tries again in a while.
    pub(crate) fn new(
        alloc: Global,
        shared: &'a Shared<R>,
        seats: Vec<ServerSeat>,
        setup: WorkerSetup,
    ) -> EventLoop<'a, R>
        requires { AreAt shared.now.ring seats.items }
        ensures { result ≡ record { ring = shared.now.ring; count = vec_len seats } }
    {
        let WorkerSetup {
            poll,
            bell,
            mailboxes,
        } = setup;
        let (mut seats, mut mailboxes) = (seats, mailboxes);
        let Room {
            events,
            clients,
            services,
        } = room_for(alloc, &shared.rt, seats.len());
        let (mut clients, mut services) = (clients, services);
        add_services(
            alloc,
            shared,
            &mut services,
            &mut seats,
            &mut mailboxes,
            &mut clients,
        );
        drop(mailboxes);
        drop(clients);
        let now = shared.moment();
        EventLoop {
            shared,
            bell,
            poll,
            events,
            services,
            seats,
            watch: Watch::new(now),
            now,
            parting: None,
        }
    }

    /// The seats, with all that was done at them. Clients that are left are let go.
    pub(crate) fn into_seats(self) -> Vec<ServerSeat>
        ensures { AreBack self.entry.ring self.entry.count result.items }
    {
        let EventLoop {
            shared: _,
            bell,
            poll,
            events,
            services,
            seats,
            watch: _,
            now: _,
            parting: _,
        } = self;
        drop(events);
        drop(poll);
        drop(bell);
        let (mut seats, mut services) = (seats, services);
        for _desk in 0..services.len() {
            take_back(&mut services, &mut seats);
        }
        drop(services);
        seats
    }

    /// Whether the server has ended for it: if it parts with its clients, and has none any more, or has waited for them long enough.
    pub(crate) fn is_over(&self) -> bool {
        let has_clients = self.parting.is_some() && have_clients(&self.services);
        has_parted(self.parting, self.now, has_clients)
    }

    /// Waits until there is something to do, gives each ready client its turns, and then looks which clients took too long. What has
    /// come from a client is read before that.
    pub(crate) fn round(&mut self)
        ensures { self.new ≡ self.old }
    {
        self.wait();
        let begin = Sweep::Begin {
            was_rung: self.bell.wakes_up().takes_calls(),
            now: self.now,
        };
        report_events(&self.events, &mut self.services, self.now);
        serve_all(&mut self.services, self.poll.registry(), begin);
        if self.parting.is_none() && self.shared.wakeups.has_end_begun() {
            self.parting = Some(self.now);
            part_all(&mut self.services, self.poll.registry());
        }
    }

    // Waits for its sockets and its bell, unless a client is ready.
    fn wait(&mut self)
        ensures { self.new ≡ self.old }
    {
        let demand = demand_of(&self.services);
        let awaits = demand.awaits_mark;
        let watching = self.shared.wakeups.begin_to_wait(&self.bell, awaits);
        let was_rung = !demand.is_ready && !self.bell.falls_asleep().waits();
        let looks_soon = self.parting.is_some() || self.shared.memory.is_over();
        let longest = longest_wait(
            &self.services,
            &demand,
            watching.mark(),
            was_rung,
            looks_soon,
            self.now,
        );
        let _ = self
            .poll
            .poll(&mut self.events, Some(Duration::from_millis(longest)));
        self.shared.wakeups.end_to_wait(&self.bell, watching);
        self.watch.go_on(self.shared.moment(), longest);
        self.now = self.watch.now();
    }
}

// Whether one of these desks has a client.
fn have_clients<R: Wait + Clock + Drop>(services: &[Service<'_, R>]) -> bool {
    for service in services {
        if service.mailbox.clients() > 0 {
            return true;
        }
    }
    false
}

// What the desks of a worker need before it waits.
#[derive(Clone, Copy)]
struct Demand {
    // Whether a client is ready.
    is_ready: bool,
    // Whether a client waits for the mark.
    awaits_mark: bool,
    // A moment before which nothing is due.
    due: u64,
}

// What these desks need, by one look at each.
fn demand_of<R: Wait + Clock + Drop>(services: &[Service<'_, R>]) -> Demand
    ensures ready { result.is_ready ≡ is_anybody_ready services.now }
    ensures awaits { result.awaits_mark ≡ is_mark_awaited services.now }
    ensures due { result.due ≡ first_due services.now }
{
    let mut demand = Demand {
        is_ready: false,
        awaits_mark: false,
        due: u64::MAX,
    };
    for service in services {
        demand.is_ready |= service.clients.is_ready();
        demand.awaits_mark |= service.clients.awaits_mark();
        demand.due = demand.due.min(service.clients.until());
    }
    demand
}

// For how many milliseconds the worker of these desks, which need this, waits at most, at this mark and this moment, by whether its bell was
// rung and whether it looks again soon.
fn longest_wait<R: Wait + Clock + Drop>(
    services: &[Service<'_, R>],
    demand: &Demand,
    mark: u64,
    was_rung: bool,
    looks_soon: bool,
    now: u64,
) -> u64
    requires ready { demand.now.is_ready ≡ is_anybody_ready services.now }
    requires due { demand.now.due ≡ first_due services.now }
    ensures { result ≡ wait_of services.now mark was_rung looks_soon now }
{
    let outlook = Outlook {
        is_wanted: was_rung || demand.is_ready || is_anybody_let_in(services, mark),
        looks_soon,
        due: demand.due,
    };
    outlook.longest_wait(now)
}

// Whether this mark lets a client of one of these desks in.
fn is_anybody_let_in<R: Wait + Clock + Drop>(services: &[Service<'_, R>], mark: u64) -> bool
    ensures { result ≡ is_anybody_let_in mark services.now }
{
    for service in services {
        if service.clients.lines.is_over(mark) {
            return true;
        }
    }
    false
}

/// The room that a worker needs, which it makes itself: no other thread ever has it.
#[derive(Drop)]
struct Room<'a, R: Drop> {
    events: Events<Global>,
    // The clients of each desk: there are none yet.
    clients: Vec<Clients>,
    // Room for the services of all desks.
    services: Vec<Service<'a, R>>,
}

impl<'a, R: Drop> Room<'a, R> {
    // The room of a worker with that number of desks.
    fn new(alloc: Global, desks: usize) -> Result<Room<'a, R>, AllocError>
        ensures { IfOk result (λ room. (room.services.items ≡ []) × (desks ≤ vec_capacity room.services)) }
    {
        let mut clients = Vec::with_capacity(alloc, desks)?;
        for _desk in 0..desks {
            clients.push(Clients::new(alloc)?)?;
        }
        Ok(Room {
            events: room_for_events(alloc)?,
            clients,
            services: Vec::with_capacity(alloc, desks)?,
        })
    }
}

// The room of a worker with that number of desks. If memory is refused for it, it tries again in a while.
fn room_for<'a, R: Wait + Clock + Drop>(alloc: Global, rt: &R, desks: usize) -> Room<'a, R>
    ensures { (result.services.items ≡ []) × (desks ≤ vec_capacity result.services) }
{
    for _attempt in rt.forever() {
        match Room::new(alloc, desks) {
            Ok(room) => return room,
            Err(_) => thread::sleep(rt, Duration::from_millis(SHORTAGE)),
        }
    }
    unreachable!()
}

// Each seat has a desk, for as long as there are mailboxes and clients.
fn add_services<'a, R: Wait + Clock + Drop>(
    alloc: Global,
    shared: &'a Shared<R>,
    services: &mut Vec<Service<'a, R>>,
    seats: &mut Vec<ServerSeat>,
    mailboxes: &mut Vec<Arc<Mailbox>>,
    clients: &mut Vec<Clients>,
)
    requires at { AreAt shared.now.ring seats.old.items }
    requires none { services.old.items ≡ [] }
    requires room { vec_len seats.old ≤ vec_capacity services.old }
    ensures at { AreAt shared.now.ring seats.new.items }
    ensures served { AreServed shared.now.ring services.new.items }
    ensures count { vec_len services.new + vec_len seats.new ≡ vec_len seats.old }
    ensures room { vec_capacity seats.new ≡ vec_capacity seats.old }
{
    for _desk in 0..seats.len() {
        let Some(mailbox) = mailboxes.pop() else {
            break;
        };
        match clients.pop() {
            Some(its) => add_service(alloc, shared, services, seats, mailbox, its),
            None => {
                drop(mailbox);
                break;
            }
        }
    }
}

// The last seat has a desk with this mailbox and these clients.
fn add_service<'a, R: Wait + Clock + Drop>(
    alloc: Global,
    shared: &'a Shared<R>,
    services: &mut Vec<Service<'a, R>>,
    seats: &mut Vec<ServerSeat>,
    mailbox: Arc<Mailbox>,
    clients: Clients,
)
    requires some { 0 < vec_len seats.old }
    requires at { AreAt shared.now.ring seats.old.items }
    requires room { vec_len services.old + vec_len seats.old ≤ vec_capacity services.old }
    ensures at { AreAt shared.now.ring seats.new.items }
    ensures served { AreServed shared.now.ring services.old.items → AreServed shared.now.ring services.new.items }
    ensures count { vec_len services.new ≡ vec_len services.old + 1 }
    ensures one { vec_len seats.old ≡ vec_len seats.new + 1 }
    ensures room { (vec_capacity services.new ≡ vec_capacity services.old) × (vec_capacity seats.new ≡ vec_capacity seats.old) }
{
    let number = services.len();
    let seat = seats.pop().unwrap();
    services.push_reserved(Service::new(alloc, shared, seat, mailbox, number, clients));
}

// The seat of the last desk comes back.
fn take_back<R: Wait + Clock + Drop>(
    services: &mut Vec<Service<'_, R>>,
    seats: &mut Vec<ServerSeat>,
)
    requires some { 0 < vec_len services.old }
    requires room { vec_len services.old + vec_len seats.old ≤ vec_capacity seats.old }
    ensures count { vec_len seats.new ≡ vec_len seats.old + 1 }
    ensures one { vec_len services.old ≡ vec_len services.new + 1 }
    ensures room { vec_capacity seats.new ≡ vec_capacity seats.old }
    ensures served { (ring : TableId) → AreServed ring services.old.items → AreServed ring services.new.items }
    ensures at { (ring : TableId) → AreServed ring services.old.items → AreAt ring seats.old.items → AreAt ring seats.new.items }
{
    let service = services.pop().unwrap();
    seats.push_reserved(service.into_seat());
}

/// Has each client stand in line of whose socket the poll reported something, and notes that at its stream.
pub(crate) fn report_events<R: Wait + Clock + Drop>(
    events: &Events<Global>,
    services: &mut Vec<Service<'_, R>>,
    now: u64,
)
    ensures reported { All (λ (event : Event). IsReported services.new.items event) (items events.now) }
    ensures ring { (ring : TableId) → AreServed ring services.old.items → AreServed ring services.new.items }
    ensures count { vec_len services.new ≡ vec_len services.old }
{
    for event in events.iter() {
        report_event(event, services, now);
    }
}

// Does so for one of these reports. Who stood in line before that stands there still.
fn report_event<R: Wait + Clock + Drop>(event: &Event, services: &mut Vec<Service<'_, R>>, now: u64)
    ensures reported { IsReported services.new.items event.now }
    ensures others { (other : Event) → IsReported services.old.items other → IsReported services.new.items other }
    ensures ring { (ring : TableId) → AreServed ring services.old.items → AreServed ring services.new.items }
    ensures count { vec_len services.new ≡ vec_len services.old }
{
    let (desk, client) = client_of(event.token());
    if desk < services.len() {
        services[desk].note_report(client, reported_by(event), now);
    }
}

/// Has all desks begin a round so, and then do the rest of it.
pub(crate) fn serve_all<R: Wait + Clock + Drop>(
    services: &mut Vec<Service<'_, R>>,
    registry: &Registry,
    begin: Sweep,
)
    requires begins { HasBegun begin }
    ensures done { HaveAllDone End services.new.items }
    ensures ring { (ring : TableId) → AreServed ring services.old.items → AreServed ring services.new.items }
    ensures count { vec_len services.new ≡ vec_len services.old }
{
    sweep_all(services, registry, begin);
    sweep_all(services, registry, Sweep::Pass);
    sweep_all(services, registry, Sweep::End);
}

/// Has all desks part with their clients.
pub(crate) fn part_all<R: Wait + Clock + Drop>(
    services: &mut Vec<Service<'_, R>>,
    registry: &Registry,
)
    ensures done { HaveAllDone Part services.new.items }
    ensures ring { (ring : TableId) → AreServed ring services.old.items → AreServed ring services.new.items }
    ensures count { vec_len services.new ≡ vec_len services.old }
{
    sweep_all(services, registry, Sweep::Part);
}

// Has each desk do this, one after another.
fn sweep_all<R: Wait + Clock + Drop>(
    services: &mut Vec<Service<'_, R>>,
    registry: &Registry,
    sweep: Sweep,
)
    requires follows { MayAllDo sweep services.old.items }
    ensures done { HaveAllDone sweep services.new.items }
    ensures ring { (ring : TableId) → AreServed ring services.old.items → AreServed ring services.new.items }
    ensures count { vec_len services.new ≡ vec_len services.old }
{
    for desk in 0..services.len() {
        services[desk].sweep(registry, sweep);
    }
}

/// The desk and the client that the poll reports by this token.
pub(crate) fn client_of(token: Token) -> (usize, usize)
    ensures client { result.1 < CLIENTS }
    ensures both { result.0 * CLIENTS + result.1 ≡ token.0 }
{
    (token.0 / CLIENTS, token.0 % CLIENTS)
}

/// The token by which the poll reports that client.
pub(crate) fn token_of(desk: usize, client: usize) -> Token
    ensures { result.0 ≡ min (desk * CLIENTS + client) (2 ^ 64 - 1) }
{
    Token(desk.saturating_mul(CLIENTS).saturating_add(client))
}
