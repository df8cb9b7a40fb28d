//! A desk of a worker, and how its clients are served.

ghost use Rattle.std.specs.Prelude.{◌≡◌, ◌≤◌, true, ◌<◌, IfSome, None, slice_index_or};
ghost use Rattle.clients.specs.Turns.{woken};
ghost use Rattle.clients.specs.Schedules.{client_at, is_greeted, is_seated, state_at};
ghost use Rattle.clients.specs.Desks.{seated_at};
ghost use Rattle.clients.specs.Holdings.{HeldAt};
ghost use Rattle.wakeups.specs.Sums.{counted};
ghost use Rattle.clients.specs.declared.wakers.TheConstants.{CLIENTS};
ghost use Rattle.work_share.specs.Loads.{number_of};
ghost use Rattle.ws_core.specs.Links.{IsCounted};
ghost use Rattle.server_core.specs.declared.acceptor.TheConstants.{NEW_CLIENTS};
ghost use Rattle.server_core.specs.Keeping.{GivesUp, Keeps};
ghost use Rattle.server_core.specs.Turns.{why_given_up, goes_on, together, waits};

use crate::acceptor::{NEW_CLIENTS, may_more_wait};
use crate::event_loop::token_of;
use crate::fittings::{ServerRing, ServerSeat, Shared};
use crate::sweep::Swept;
use clients::{
    ClientState, Clients, Cut, Desk, Due, Flow, Framed, Next, Opening, ReadBudget, Reported, Turned,
};
use event_log::Kind;
use mio::net::TcpStream;
use mio::{Interest, Registry, Token};
use std::alloc::Global;
use std::io;
use std::sync::{Arc, Wait};
use std::time::Clock;
use wakeups::{
    Account, Arrival, BITS, Called, ClientWaker, ClientWakers, Holdings, Mailbox, WORDS,
};
use work_share::Noted;
use ws_core::{Farewell, Greeted, Greeting, Outgoing, Received, Refusal, Vacancy, WsLink};

/// How many turns a client has one after another at most.
const TURNS: u32 = 8;

pub(crate) type ClientDesk = Desk<ClientWaker, WsLink<ReadBudget<TcpStream>>>;

/// A desk of a worker, and its clients.
#[derive(Drop)]
pub(crate) struct Service<'a, R: Drop> {
    pub(crate) alloc: Global,
    pub(crate) shared: &'a Shared<R>,
    pub(crate) mailbox: Arc<Mailbox>,
    // Which of its worker's desks it is: its clients' sockets are registered so.
    number: usize,
    pub(crate) desk: ClientDesk,
    pub(crate) clients: Clients,
    // The moment of this round, in milliseconds of the worker's watch.
    pub(crate) now: u64,
    pub(crate) account: Account,
    // How many of its clients went on by themselves when this round began.
    pub(crate) going_on: usize,
    // Whether it parts with its clients, since the server ends.
    pub(crate) parting: bool,
    // What it has done last in a round.
    pub(crate) swept: Swept,
    ghost at_ring: { desk.seat.ring ≡ shared.now.ring },
}

impl<'a, R: Wait + Clock + Drop> Service<'a, R> {
    ghost use Rattle.std.specs.Prelude.{◌≡◌, true, ◌<◌, IfSome, None, slice_index_or};
    ghost use Rattle.clients.specs.Schedules.{client_at, is_greeted, is_seated, state_at};
    ghost use Rattle.clients.specs.Desks.{seated_at};
    ghost use Rattle.clients.specs.Holdings.{HeldAt};
    ghost use Rattle.wakeups.specs.Sums.{counted};
    ghost use Rattle.clients.specs.declared.wakers.TheConstants.{CLIENTS};
    ghost use Rattle.work_share.specs.Loads.{number_of};
    ghost use Rattle.ws_core.specs.Links.{IsCounted};
    ghost use Rattle.server_core.specs.Keeping.{GivesUp, Keeps};

    /// The service at the desk of this seat, with this mailbox, and with this number among its worker's desks.
    pub(crate) fn new(
        alloc: Global,
        shared: &'a Shared<R>,
        seat: ServerSeat,
        mailbox: Arc<Mailbox>,
        number: usize,
        clients: Clients,
    ) -> Service<'a, R>
        requires { seat.ring ≡ shared.now.ring }
        ensures { result.shared.now ≡ shared.now }
    {
        Service {
            alloc,
            shared,
            mailbox,
            number,
            desk: Desk::new(alloc, seat, shared.desk_bytes),
            clients,
            now: 0,
            account: Account::new(),
            going_on: 0,
            parting: false,
            swept: Swept::new(),
        }
    }

    /// The seat, with all that was done at it. Clients that are left are let go.
    pub(crate) fn into_seat(self) -> ServerSeat
        ensures { result.ring ≡ self.entry.shared.now.ring }
    {
        let Service {
            alloc: _,
            shared: _,
            mailbox,
            number: _,
            desk,
            clients,
            now: _,
            account,
            going_on: _,
            parting: _,
            swept,
        } = self;
        drop(swept);
        drop(account);
        drop(clients);
        drop(mailbox);
        desk.into_seat()
    }

    /// The poll reported this of a client's socket.
    pub(crate) fn note_report(&mut self, number: usize, reported: Reported, now: u64)
        ensures shared { self.new.shared ≡ self.old.shared }
        ensures lines { self.new.clients.lines ≡ woken number self.old.clients.lines }
    {
        if self.clients.note_report(number, reported, now)
            && let Some(link) = self.desk.link(number)
        {
            link.stream().note_report(reported);
        }
    }

    // Finds out for whom the bell was rung: new clients, or those that it has.
    pub(crate) fn take_calls(&mut self, registry: &Registry)
        ensures shared { self.new.shared ≡ self.old.shared }
    {
        for word in 0..WORDS {
            let called = self.mailbox.take_calls(word);
            wake_called(&mut self.clients, called);
        }
        self.take_in(registry);
    }

    // Takes in the clients that were handed to it. If there may be more, its worker does not sleep before it has taken in those too.
    fn take_in(&mut self, registry: &Registry)
        ensures shared { self.new.shared ≡ self.old.shared }
    {
        let taken = self.take_some_in(registry);
        if may_more_wait(taken) {
            self.mailbox.ring();
        }
    }

    // Takes in some of the clients that were handed to it, and answers how many.
    fn take_some_in(&mut self, registry: &Registry) -> u32
        ensures shared { self.new.shared ≡ self.old.shared }
        ensures most { result ≤ NEW_CLIENTS }
    {
        for taken in 0..NEW_CLIENTS {
            let Some((arrival, counted)) = self.mailbox.next(&self.shared.rt) else {
                return taken;
            };
            let is_in = self.register(registry, arrival).is_ok();
            self.mailbox.settle(counted, is_in);
        }
        NEW_CLIENTS
    }

    // Takes a client in. If there is no room for it, if the system refuses to have its socket watched, or if the server ends, the socket is closed.
    fn register(&mut self, registry: &Registry, arrival: Arrival) -> io::Result<()>
        ensures shared { self.new.shared ≡ self.old.shared }
    {
        if self.parting {
            drop(arrival);
            return Err(io::Error::from(io::ErrorKind::ConnectionAborted));
        }
        let Some(number) = self.clients.next_number() else {
            drop(arrival);
            return Err(io::Error::from(io::ErrorKind::OutOfMemory));
        };
        let Arrival { socket, vacancy } = arrival;
        let stream = watched(registry, socket, token_of(self.number, number))?;
        let stream = ReadBudget::new(self.alloc, stream);
        let origins = self.shared.origins.clone()?;
        let is_guest = !matches!(vacancy, Vacancy::Any);
        let greeting = Greeting::begin(self.alloc, stream, origins, vacancy);
        self.clients.admit(greeting, is_guest, self.now)?;
        Ok(())
    }

    /// Sees that all clients keep to their memory. One that is evicted has a turn at once, in which what it took is given back. This is done
    /// after each turn that may have read from a client: else a round of many would take far more.
    pub(crate) fn give_way(&mut self)
        ensures shared { self.new.shared ≡ self.old.shared }
    {
        if let Some(number) = self.keep_to_memory() {
            self.turn(number);
        }
    }

    /// Gives a turn to those that the mark lets in, each once at most. The mark is the ring's own: it rises before the wakeups report it,
    /// and by the same mark others find room. Once none will be published, the wakeups' is over every mark.
    pub(crate) fn let_in(&mut self)
        ensures shared { self.new.shared ≡ self.old.shared }
    {
        for _client in 0..self.clients.lines.count_waiting() {
            let mark = self.desk.look(&self.shared.ring);
            let mark = mark.max(self.shared.wakeups.mark());
            match self.clients.let_in(mark) {
                Some((number, standing)) => self.give_turn(number, standing),
                None => return,
            }
        }
    }

    /// Gives a client a turn, if it is there.
    pub(crate) fn give_turn(&mut self, number: usize, standing: ClientState)
        ensures shared { self.new.shared ≡ self.old.shared }
    {
        match standing {
            ClientState::Seated => self.turn(number),
            ClientState::Greeting(greeting) => self.greet(number, greeting),
            ClientState::Refused(farewell) => self.drop_some(number, farewell),
            ClientState::Away => {}
        }
    }

    /// Goes on with a client's handshake. Once it has its WebSocket, it sits at the desk.
    pub(crate) fn greet(&mut self, number: usize, greeting: Greeting<ReadBudget<TcpStream>>)
        ensures shared { self.new.shared ≡ self.old.shared }
    {
        match greeting.greet(self.alloc) {
            Greeted::Waits(greeting) if self.parting => {
                drop(greeting);
                self.leave(number);
            }
            Greeted::Waits(greeting) => {
                let (has_rest, held) = (greeting.stream().flow().has_rest, greeting.held());
                self.clients
                    .stand(number, ClientState::Greeting(greeting), has_rest);
                self.count(number, held);
            }
            Greeted::Accepted(link) => {
                let framed = link.stream().count_frames();
                self.seat(number, link, framed);
            }
            Greeted::Refused(refusal, stream) => {
                self.shared.wakeups.log().count(kind_of(refusal));
                self.count(number, 0);
                self.clients.part(number, Farewell::new(stream), self.now);
            }
            Greeted::Failed(_) => self.leave(number),
        }
    }

    // Seats a client at the desk, of whose stream frames are counted.
    fn seat(&mut self, number: usize, link: WsLink<ReadBudget<TcpStream>>, framed: Framed)
        requires { framed ≡ true }
        ensures shared { self.new.shared ≡ self.old.shared }
    {
        drop(framed);
        match self.desk.admit(self.alloc, number, link) {
            Ok(()) => self.clients.stand(number, ClientState::Seated, true),
            Err(_) => self.leave(number),
        }
    }

    /// Drops some of what comes of a client that was refused. Once the server ends, it is not waited for.
    pub(crate) fn drop_some(&mut self, number: usize, farewell: Farewell<ReadBudget<TcpStream>>)
        ensures shared { self.new.shared ≡ self.old.shared }
    {
        let mut farewell = farewell;
        let more = match farewell.go_on() {
            Received::Skipped => true,
            Received::Nothing if !self.parting => false,
            _ => {
                drop(farewell);
                self.leave(number);
                return;
            }
        };
        self.clients
            .stand(number, ClientState::Refused(farewell), more);
    }

    /// Counts that a client holds `holds` bytes. If by this all clients hold more than they may, each worker looks whether it is one of its
    /// own that holds most.
    pub(crate) fn count(&mut self, number: usize, holds: u64)
        ensures account { self.new.account ≡ counted number holds self.old.account }
        ensures its { number < CLIENTS → slice_index_or self.new.account number 0 ≡ holds }
        ensures shared { self.new.shared ≡ self.old.shared }
        ensures desk { self.new.desk ≡ self.old.desk }
    {
        let total = self.shared.memory.total();
        let has_passed = self.account.count(total, &self.mailbox, number, holds);
        if has_passed {
            self.shared.wakeups.ring_all();
        }
    }

    /// Counts what is kept for a client at the desk.
    pub(crate) fn count_held(&mut self, number: usize)
        ensures counts { number < CLIENTS → HeldAt (IsCounted (λ stream. stream.given)) (seated_at self.new.desk.places number) (slice_index_or self.new.account number 0) }
        ensures shared { self.new.shared ≡ self.old.shared }
        ensures desk { self.new.desk ≡ self.old.desk }
    {
        let holds = self.desk.held(number);
        self.count(number, holds);
    }

    /// If all clients hold more than they may, evicts the one that holds most, if it is one of its own. Answers which it was.
    pub(crate) fn keep_to_memory(&mut self) -> Option<usize>
        ensures shared { self.new.shared ≡ self.old.shared }
        ensures most { Keeps self.old.shared.now.memory self.old.account self.new.account result }
    {
        if self.shared.memory.is_over() {
            self.evict_most()
        } else {
            None
        }
    }

    // Evicts the client that holds most of all, if it is one of its own. The workers look again if all clients still hold more than they may.
    fn evict_most(&mut self) -> Option<usize>
        ensures shared { self.new.shared ≡ self.old.shared }
        ensures most { Keeps self.old.shared.now.memory self.old.account self.new.account result }
    {
        let holdings = self.shared.memory.holdings(self.mailbox.desk());
        let evicted = self.give_up(&holdings);
        if evicted.is_some() && self.shared.memory.is_over() {
            self.shared.wakeups.ring_all();
        }
        evicted
    }

    // Evicts the client that is given up by what is known of all clients, if it is one of its own. It counts for nothing from then on.
    fn give_up(&mut self, holdings: &Holdings) -> Option<usize>
        ensures shared { self.new.shared ≡ self.old.shared }
        ensures most { GivesUp holdings.now self.old.account self.new.account result }
    {
        let number = holdings.given_up(self.account.bytes())?;
        self.evict(number);
        Some(number)
    }

    // Evicts a client.
    fn evict(&mut self, number: usize)
        ensures shared { self.new.shared ≡ self.old.shared }
        ensures account { self.new.account ≡ counted number 0 self.old.account }
    {
        if is_greeted(&self.clients, number) {
            self.shared.wakeups.log().count(Kind::TookMost);
            self.leave(number);
            return;
        }
        self.count(number, 0);
        if is_seated(&self.clients, number) {
            self.shared.wakeups.log().count(Kind::TookMost);
            self.desk.evict(self.alloc, number);
        }
    }

    /// Lets a client go, which holds nothing from then on.
    pub(crate) fn leave(&mut self, number: usize)
        ensures shared { self.new.shared ≡ self.old.shared }
        ensures account { self.new.account ≡ counted number 0 self.old.account }
        ensures gone { client_at number self.new.clients ≡ None }
    {
        let left = self.shared.costs.leave(self.mailbox.desk(), number as u64);
        self.depart(number, left);
    }

    // Lets a client go that stands in line no more.
    fn depart(&mut self, number: usize, left: Option<Noted>)
        requires left { IfSome left (λ load. number_of number load ≡ 0) }
        ensures shared { self.new.shared ≡ self.old.shared }
        ensures account { self.new.account ≡ counted number 0 self.old.account }
        ensures gone { client_at number self.new.clients ≡ None }
    {
        drop(left);
        self.count(number, 0);
        self.clients.remove(number);
        self.mailbox.leaves();
    }
}

// Has the clients stand in line that were called for.
fn wake_called(clients: &mut Clients, mut called: Called) {
    for _call in 0..BITS {
        match called.next() {
            Some(number) => clients.lines.wake(number),
            None => return,
        }
    }
}

// The socket, which never blocks, and on which the poll reports by this token.
fn watched(
    registry: &Registry,
    socket: std::net::TcpStream,
    token: Token,
) -> io::Result<TcpStream> {
    socket.set_nodelay(true)?;
    socket.set_nonblocking(true)?;
    let mut stream = TcpStream::from_std(socket);
    registry.register(&mut stream, token, Interest::READABLE | Interest::WRITABLE)?;
    Ok(stream)
}

// What is counted of a refusal.
fn kind_of(refusal: Refusal) -> Kind {
    match refusal {
        Refusal::Malformed => Kind::Malformed,
        Refusal::OtherProtocol => Kind::OtherProtocol,
        Refusal::Foreign => Kind::Foreign,
        Refusal::Method => Kind::Method,
        Refusal::NoUpgrade => Kind::NoUpgrade,
        Refusal::Version => Kind::Version,
        Refusal::TooLarge => Kind::TooLarge,
        Refusal::Full => Kind::Full,
    }
}

/// Whether that one of a desk's clients sits there.
pub(crate) fn is_seated(clients: &Clients, number: usize) -> bool
    ensures { result ≡ is_seated (state_at number clients.now) }
{
    match clients.get(number) {
        Some(client) => client.is_seated(),
        None => false,
    }
}

/// Whether the handshake of that one is under way.
pub(crate) fn is_greeted(clients: &Clients, number: usize) -> bool
    ensures { result ≡ is_greeted (state_at number clients.now) }
{
    match clients.get(number) {
        Some(client) => client.is_greeted(),
        None => false,
    }
}

impl<R: Wait + Clock + Drop> Service<'_, R> {
    ghost use Rattle.std.specs.Prelude.{◌≡◌};
    ghost use Rattle.server_core.specs.Turns.{why_given_up, goes_on, together, waits};

    /// Does what is due of clients.
    pub(crate) fn look_at_timers(&mut self)
        ensures shared { self.new.shared ≡ self.old.shared }
    {
        for _due in 0..self.clients.reach() {
            match self.clients.take_due(self.now) {
                Some(number) => self.come_due(number),
                None => return,
            }
        }
    }

    fn come_due(&mut self, number: usize)
        ensures shared { self.new.shared ≡ self.old.shared }
    {
        if is_seated(&self.clients, number) {
            self.come_due_seated(number);
        } else {
            self.come_due_unseated(number);
        }
    }

    // Does what is due of a client at the desk.
    fn come_due_seated(&mut self, number: usize)
        ensures shared { self.new.shared ≡ self.old.shared }
    {
        let progress = if self.desk.is_open(number) {
            Opening::Open
        } else {
            Opening::Unopened
        };
        match self.clients.come_due(number, progress, self.now) {
            Due::Ping => self.desk.ping(number),
            // Its turn writes what waits.
            Due::Write => self.clients.lines.wake(number),
            Due::GivenUp => {
                let kind = why_given_up(progress, takes_nothing(&self.desk, number));
                self.shared.wakeups.log().count(kind);
                self.desk.lose(number);
                self.clients.lines.wake(number);
            }
            Due::In(_) => {}
        }
    }

    // Does what is due of a client that does not sit at the desk, if it is there.
    fn come_due_unseated(&mut self, number: usize)
        ensures shared { self.new.shared ≡ self.old.shared }
    {
        let due = self.clients.come_due(number, Opening::Greeting, self.now);
        if matches!(due, Due::GivenUp) {
            if is_greeted(&self.clients, number) {
                self.shared.wakeups.log().count(Kind::Unopened);
            }
            self.leave(number);
        }
    }

    /// Gives a client at the desk its turns.
    pub(crate) fn turn(&mut self, number: usize)
        ensures shared { self.new.shared ≡ self.old.shared }
    {
        let mark = self.desk.look(&self.shared.ring);
        let wakers = ClientWakers {
            mailbox: &self.mailbox,
            client: number,
            costs: &self.shared.costs,
            mark,
            log: self.shared.wakeups.log(),
        };
        let was_full = is_full(&self.desk, number);
        let desk = &mut self.desk;
        let Some(turned) = take_turns(self.alloc, &self.shared.ring, desk, &wakers) else {
            return;
        };
        let turned = wakers.since(turned);
        if turned.appended {
            self.shared.wakeups.wake_flusher();
        }
        // At once: its client may keep its connection for as long as its close is waited for.
        if !was_full && is_full(&self.desk, number) {
            self.shared.wakeups.log().count(Kind::LongNames);
        }
        match turned.next {
            Next::Over(_) => {
                drop(self.desk.dismiss(number));
                self.leave(number);
            }
            _ => self.settle(number, turned),
        }
    }

    // What comes of the turns of a client that has not ended: what it waits for, and what it holds.
    fn settle(&mut self, number: usize, turned: Turned)
        ensures shared { self.new.shared ≡ self.old.shared }
    {
        let flow = flow_of(&self.desk, number);
        let is_unread = self.desk.awaits_room(number);
        self.clients
            .settle(number, turned, flow, is_unread, self.now);
        self.count_held(number);
        // One that has nothing more to do at once is sent the close.
        if self.parting && waits(turned.next) {
            self.desk.give_up(number);
            self.clients.lines.wake(number);
        }
    }
}

// Whether the link of a client at the desk takes nothing of what waits for it.
fn takes_nothing(desk: &ClientDesk, number: usize) -> bool {
    match desk.link(number) {
        Some(link) => link.waits(),
        None => false,
    }
}

// Why a client that has come so far is given up, by whether it takes nothing of what waits for it.
fn why_given_up(progress: Opening, takes_nothing: bool) -> Kind
    ensures { result ≡ why_given_up progress takes_nothing }
{
    match progress {
        Opening::Open if takes_nothing => Kind::TakesNothing,
        Opening::Open => Kind::Silent,
        Opening::Greeting | Opening::Unopened => Kind::Unopened,
    }
}

// Whether a client has nothing more to do at once.
fn waits(next: Next) -> bool
    ensures { result ≡ waits next }
{
    match next {
        Next::Go | Next::Write | Next::Close | Next::Over(_) => false,
        Next::Read | Next::Room(_) | Next::Mark(_) | Next::Memory => true,
    }
}

// Whether acts of a client at the desk were cut off, since its names have no room beside the others'.
fn is_full(desk: &ClientDesk, number: usize) -> bool {
    matches!(desk.cut(number), Cut::Full(_))
}

// What the stream of a client at the desk reports.
fn flow_of(desk: &ClientDesk, number: usize) -> Flow {
    match desk.link(number) {
        Some(link) => link.stream().flow(),
        None => Flow {
            taken: 0,
            has_rest: false,
        },
    }
}

// Whether a client has another turn at once, after one that came to this: if it put a command into the ring and left more to do.
fn goes_on(turned: Turned) -> bool
    ensures { result ≡ goes_on turned }
{
    turned.appended && matches!(turned.next, Next::Go)
}

// What turns came to and one more: something was read or appended if either did so, and what the last one waits for.
fn together(turns: Turned, last: Turned) -> Turned
    ensures { result ≡ together turns last }
{
    Turned {
        appended: turns.appended || last.appended,
        heard: turns.heard || last.heard,
        next: last.next,
    }
}

// The turns of the client of those wakers. After each that put a command into the ring and left more to do, it has another, up to `TURNS`.
// So what its link has read already comes into one block. `None` if there is no client.
fn take_turns(
    alloc: Global,
    ring: &ServerRing,
    desk: &mut ClientDesk,
    wakers: &ClientWakers<'_>,
) -> Option<Turned>
    requires { desk.old.seat.ring ≡ ring.now }
    ensures { desk.new.seat.ring ≡ desk.old.seat.ring }
{
    let mut last = desk.turn(alloc, ring, wakers.client, wakers)?;
    let mut turns = last;
    for _turn in 1..TURNS {
        if !goes_on(last) {
            break;
        }
        let Some(turned) = desk.turn(alloc, ring, wakers.client, wakers) else {
            break;
        };
        turns = together(turns, turned);
        last = turned;
    }
    Some(turns)
}
