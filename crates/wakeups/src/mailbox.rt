//! What others know of a worker's desk: where its clients come in, and which were called for.

ghost use Rattle.std.specs.Prelude.{◌≡◌, ◌≤◌, Bool, IfOk, ◌<◌, ◌*◌, ◌-◌, ◌^◌, IfSome, IsNone, min};
ghost use Rattle.std.specs.Arc.{arc_value};
ghost use Rattle.claim_core.specs.declared.limits.TheConstants.{WINDOW};
ghost use Rattle.clients.specs.declared.wakers.TheConstants.{CLIENTS};
ghost use Rattle.wakeups.specs.Bells.{called_by, called_for};
ghost use Rattle.wakeups.specs.Rooms.{since};
ghost use Rattle.wakeups.specs.Called.{IsBitOf, IsNextCall};

use crate::doorbell::Doorbell;
use crate::log_thread::LogThread;
use crate::memory::DeskHolds;
use crate::wakeups::since;
use clients::{CLIENTS, Turned, Wakers};
use command_core::Op;
use crossbeam_queue::ArrayQueue;
use event_log::Kind;
use flush_core::code_of;
use frame_core::first;
use outbox_core::Bell;
use session_core::Notice;
use std::alloc::{AllocError, Global};
use std::net::TcpStream;
use std::sync::atomic::{AtomicU64, Ordering};
use std::sync::{Arc, Wait};
use work_share::Costs;
use ws_core::Vacancy;

/// How many sockets wait at most to be looked at by one desk's worker.
const ARRIVALS: usize = 512;

/// How many clients have their bits in one word.
pub const BITS: usize = 64;

/// In how many words the bits of all clients are.
pub const WORDS: usize = 8;

const _: () = prove!(BITS * WORDS == CLIENTS);

/// A socket that was just accepted, and whether its client is answered that the server is full.
#[derive(Drop)]
pub struct Arrival {
    /// Its socket.
    pub socket: TcpStream,
    /// Whom the server has a place for.
    pub vacancy: Vacancy,
}

/// A client that counts at a desk, since it was handed to that. It can't be let go: `Mailbox::settle` takes it, and what became of the client.
pub struct Counted {
    desk: usize,
}

/// What others know of a worker's desk.
#[derive(Drop)]
pub struct Mailbox {
    // What wakes the worker, which has other desks too.
    bell: Arc<Doorbell>,
    // Which clients were called for since the worker looked.
    calls: Calls,
    arrivals: ArrayQueue<Arrival>,
    // How many clients were handed to the desk and are still there.
    clients: AtomicU64,
    // The number of the desk among all, and the most bytes that one of its clients holds.
    desk: usize,
    most: AtomicU64,
}

impl Mailbox {
    /// The mailbox of the desk of that number, whose worker this wakes.
    pub fn new(alloc: Global, bell: Arc<Doorbell>, desk: usize) -> Result<Mailbox, AllocError> {
        Ok(Mailbox {
            bell,
            calls: Calls::new(),
            arrivals: ArrayQueue::new(alloc, ARRIVALS)?,
            clients: AtomicU64::new(0),
            desk,
            most: AtomicU64::new(0),
        })
    }

    /// Has the worker look once more before it sleeps.
    pub fn ring(&self) {
        drop(self.bell.ring());
    }

    /// How many clients the desk has, counting those that its worker has not looked at yet.
    pub fn clients(&self) -> u64 {
        self.clients.load(Ordering::SeqCst)
    }

    /// The number of the desk among all.
    pub fn desk(&self) -> usize {
        self.desk
    }

    /// How many clients it has, and the most bytes that one of them holds.
    pub(crate) fn holds(&self) -> DeskHolds {
        DeskHolds {
            clients: self.clients(),
            most: self.most.load(Ordering::SeqCst),
        }
    }

    /// Reports the most bytes that one of its clients holds, unless that was reported last.
    pub(crate) fn report_most(&self, reported: &mut u64, most: u64)
        ensures { reported.new ≡ most }
    {
        if *reported != most {
            self.most.store(most, Ordering::SeqCst);
            *reported = most;
        }
    }

    /// Hands the desk a client. If too many wait for its worker already, the socket is closed.
    pub fn hand<R: Wait>(&self, rt: &R, arrival: Arrival) {
        self.clients.fetch_add(1, Ordering::SeqCst);
        let counted = Counted { desk: self.desk };
        match self.arrivals.push(rt, arrival) {
            Ok(()) => {
                self.settle(counted, true);
                drop(self.bell.ring());
            }
            Err(refused) => {
                drop(refused);
                self.settle(counted, false);
            }
        }
    }

    /// The next client that was handed to the desk, at which it counts.
    pub fn next<R: Wait>(&self, rt: &R) -> Option<(Arrival, Counted)> {
        let arrival = self.arrivals.pop(rt)?;
        Some((arrival, Counted { desk: self.desk }))
    }

    /// A client that counts at the desk is taken in, or else has left.
    pub fn settle(&self, counted: Counted, is_in: bool) {
        let Counted { desk: _ } = counted;
        if !is_in {
            self.leaves();
        }
    }

    /// A client has left the desk.
    pub fn leaves(&self) {
        self.clients.fetch_sub(1, Ordering::SeqCst);
    }

    /// Takes the calls of one word of clients. There are `WORDS` of these words.
    pub fn take_calls(&self, word: usize) -> Called {
        self.calls.take(word)
    }
}

/// How many clients the desks of these mailboxes have.
pub(crate) fn count_clients(mailboxes: &[Arc<Mailbox>]) -> u64 {
    let mut total = 0u64;
    for mailbox in mailboxes {
        total = total.saturating_add(mailbox.clients());
    }
    total
}

/// What calls a worker from afar for one of a desk's clients: the outbox of a session has one.
#[derive(Drop)]
pub struct ClientWaker {
    mailbox: Arc<Mailbox>,
    client: usize,
}

impl Bell for ClientWaker {
    // The worker finds all clients of a batch by the first ring.
    fn note(&self) {
        self.mailbox.calls.call(self.client);
    }

    fn ring(&self) {
        self.note();
        drop(self.mailbox.bell.ring());
    }
}

/// Makes the wakers of one client of a desk.
#[derive(Drop)]
pub struct ClientWakers<'a> {
    /// The desk's mailbox.
    pub mailbox: &'a Arc<Mailbox>,
    /// The client.
    pub client: usize,
    /// What commands cost: how many it may have under way.
    pub costs: &'a Costs,
    /// The mark when its turns began.
    pub mark: u64,
    /// What counts ERRORs and clients that are evicted.
    pub log: &'a Arc<LogThread>,
}

impl ClientWakers<'_> {
    /// What the turns came to. A client that waits for room does so over the mark when they began: others whose commands it waited for may
    /// have had theirs published since. If it waits for others, it doesn't stand before its neighbours.
    pub fn since(&self, turned: Turned) -> Turned
        ensures same { (result.appended ≡ turned.appended) × (result.heard ≡ turned.heard) }
        ensures next { (waits : Bool) × (result.next ≡ since waits self.now.mark turned.next) }
    {
        let waits = self.costs.waits(self.mailbox.desk);
        Turned {
            next: since(turned.next, waits, self.mark),
            ..turned
        }
    }
}

impl Wakers<ClientWaker> for ClientWakers<'_> {
    fn bell(&self) -> Result<ClientWaker, AllocError>
        ensures { IfOk result (λ waker. called_by waker ≡ called_for self.now) }
    {
        Ok(ClientWaker {
            mailbox: self.mailbox.clone()?,
            client: self.client,
        })
    }

    fn window(&self, op: &Op) -> usize
        ensures { result ≤ WINDOW }
    {
        let client = self.client as u64;
        self.costs.window(self.mailbox.desk, client, op, self.mark)
    }

    fn appended(&self, ticket: u64) {
        let client = self.client as u64;
        let desk = self.mailbox.desk;
        drop(self.costs.appended(desk, client, ticket, self.mark));
    }

    fn answered(&self, notice: &Notice) {
        if let Some(message) = first(notice.frame(), "message") {
            self.log.count_notice(code_of(message));
        }
    }

    fn cut(&self) {
        self.log.count(Kind::FullOutbox);
    }
}

/// Which clients of a desk were called for since it looked: a bit for each, by their numbers. So a look costs as much as there
/// were calls, and a glance at each word.
#[derive(Drop)]
pub(crate) struct Calls {
    words: [AtomicU64; WORDS],
}

impl Calls {
    /// Nobody called.
    pub(crate) fn new() -> Calls {
        Calls {
            words: [
                AtomicU64::new(0),
                AtomicU64::new(0),
                AtomicU64::new(0),
                AtomicU64::new(0),
                AtomicU64::new(0),
                AtomicU64::new(0),
                AtomicU64::new(0),
                AtomicU64::new(0),
            ],
        }
    }

    /// Calls for a client.
    pub(crate) fn call(&self, client: usize) {
        if client < CLIENTS {
            let (word, bit) = bit_of(client);
            self.words[word].fetch_or(bit, Ordering::SeqCst);
        }
    }

    /// Takes the calls of one word: they count no more.
    pub(crate) fn take(&self, word: usize) -> Called {
        let bits = if word < WORDS && self.words[word].load(Ordering::SeqCst) != 0 {
            self.words[word].swap(0, Ordering::SeqCst)
        } else {
            0
        };
        called_in(word, bits)
    }
}

// The word of a client, and its bit there.
fn bit_of(client: usize) -> (usize, u64)
    requires { client < CLIENTS }
    ensures word { result.0 < WORDS }
    ensures bit { IsBitOf client result.0 result.1 }
{
    (client / BITS, 1 << (client % BITS))
}

// The calls that were taken of that word, which had these bits.
fn called_in(word: usize, bits: u64) -> Called
    ensures { result ≡ record { first = min (word * BITS) (2 ^ 64 - 1); bits = bits } }
{
    Called {
        first: word.saturating_mul(BITS),
        bits,
    }
}

/// The calls that were taken of one word.
#[derive(Drop)]
pub struct Called {
    /// The client of the lowest bit.
    pub first: usize,
    /// A bit for each client that was called for.
    pub bits: u64,
}

impl Called {
    /// The next client that was called for, which is not answered again; `None` if there is none.
    pub fn next(&mut self) -> Option<usize>
        ensures some { IfSome result (IsNextCall self.old self.new) }
        ensures none { IsNone result → (self.old.bits ≡ 0) × (self.new ≡ self.old) }
    {
        if self.bits == 0 {
            return None;
        }
        let place = self.bits.trailing_zeros();
        self.bits -= 1 << place;
        Some(self.first.saturating_add(place as usize))
    }
}
