//! Where clients come in, and how they are handed to desks.

ghost use Rattle.std.specs.Prelude.{◌≡◌, ◌⊎◌, ◌-◌, ◌^◌, [], None, Some, IfSome, IsNone, min, sum, ◌≤◌, ◌↔◌, IsTrue};
ghost use Rattle.server_core.specs.Handing.{IsFewest, comes_to, vacancy};

use claim_core::SEATS;
use event_log::{Kind, ServeFault, Unopened};
use std::net::{Ipv4Addr, Net, SocketAddr, SocketAddrV4, TcpListener, TcpStream};
use std::sync::{Arc, Wait};
use std::time::{Clock, Duration};
use std::{io, thread};
use wakeups::{Arrival, Ending, LogThread, Mailbox};
use ws_core::Vacancy;

/// For how many milliseconds nobody is accepted after accepting a client has failed.
const REST: u64 = 20;

/// How many places a full server has for pings. Until it is known that one is none, a client has such a place, for two seconds at most.
const KEPT: u64 = 16;

/// How many more it then answers that it is full, pings too. Descriptors are left for all of these.
const ANSWERED: u64 = 4;

/// How many new clients a desk takes in at most before those that it has are served.
pub(crate) const NEW_CLIENTS: u32 = 64;

/// Where clients come in, the mailboxes of the desks that get them, and how many clients the server takes.
#[derive(Drop)]
pub(crate) struct Acceptor<R> {
    rt: R,
    listener: TcpListener,
    mailboxes: Vec<Arc<Mailbox>>,
    most_clients: u64,
    ending: Arc<Ending>,
    log: Arc<LogThread>,
}

impl<R> Acceptor<R> {
    /// Where clients come in by this listener.
    pub(crate) fn new(
        rt: R,
        listener: TcpListener,
        mailboxes: Vec<Arc<Mailbox>>,
        most_clients: u64,
        ending: Arc<Ending>,
        log: Arc<LogThread>,
    ) -> Acceptor<R> {
        Acceptor {
            rt,
            listener,
            mailboxes,
            most_clients,
            ending,
            log,
        }
    }

    /// How many clients the server takes.
    pub(crate) fn most_clients(&self) -> u64 {
        self.most_clients
    }

    /// The mailboxes of the desks.
    pub(crate) fn mailboxes(&self) -> &[Arc<Mailbox>] {
        self.mailboxes.as_slice()
    }
}

/// Opens the port at 127.0.0.1. `Port` if the system refuses it. So many clients may wait there as the system lets: the standard library's
/// listener has room for 128, and the others would try again after a second.
pub(crate) fn listen<R: Net>(net: &R, port: u16) -> Result<TcpListener, ServeFault> {
    let address = SocketAddr::V4(SocketAddrV4::new(Ipv4Addr::LOCALHOST, port));
    match bind(net, address) {
        Ok(listener) => Ok(listener),
        Err(error) => Err(ServeFault::Port(Unopened::by(error.kind()))),
    }
}

// The port as a listener that waits for clients.
fn bind<R: Net>(net: &R, address: SocketAddr) -> io::Result<TcpListener> {
    let listener = TcpListener::from(mio::net::TcpListener::bind(net, address)?);
    listener.set_nonblocking(false)?;
    Ok(listener)
}

impl<R: Wait + Clock> Acceptor<R> {
    /// Accepts clients and hands each to the desk that has the fewest, until the server is asked to end. A client that comes then
    /// is let go. The first one after the server has ended ends this call too.
    pub(crate) fn accept_all(&self) {
        for _client in self.rt.forever() {
            match self.listener.accept() {
                Ok((socket, _)) => match self.comes_to() {
                    Coming::HandedOut => self.hand_out(socket),
                    Coming::LetGo => drop(socket),
                    Coming::Last => {
                        drop(socket);
                        return;
                    }
                },
                Err(_) => {
                    self.log.count(Kind::NotAccepted);
                    thread::sleep(&self.rt, Duration::from_millis(REST));
                }
            }
        }
    }

    // What becomes of a client that comes at this moment.
    fn comes_to(&self) -> Coming {
        let (is_asked, has_begun) = (self.ending.is_asked(), self.ending.has_begun());
        comes_to(is_asked, has_begun)
    }

    // Hands a client to the desk that has the fewest. If as many are there as the server takes, all but a ping are only answered that. If many
    // are answered so just now, its socket is closed.
    fn hand_out(&self, socket: TcpStream) {
        let mut counts = [0u64; SEATS];
        count(&self.mailboxes, &mut counts);
        let desks = self.mailboxes.len().min(SEATS);
        let Some((at, vacancy)) = place_for(&counts[..desks], self.most_clients) else {
            self.log.count(Kind::Full);
            drop(socket);
            return;
        };
        self.mailboxes[at].hand(&self.rt, Arrival { socket, vacancy });
    }
}

// Counts the clients of each desk.
fn count(mailboxes: &[Arc<Mailbox>], counts: &mut [u64; SEATS]) {
    for (mailbox, count) in mailboxes.iter().zip(counts.iter_mut()) {
        *count = mailbox.clients();
    }
}

/// What becomes of a client that has just come.
#[derive(Clone, Copy)]
pub(crate) enum Coming {
    /// It is handed to a desk.
    HandedOut,
    /// It is let go, since the server was asked to end.
    LetGo,
    /// It is let go, and no more are accepted, since the server has ended.
    Last,
}

/// What becomes of a client that has just come, by whether the server was asked to end, and whether its workers part with their clients.
pub(crate) fn comes_to(is_asked: bool, has_begun: bool) -> Coming
    ensures { result ≡ comes_to is_asked has_begun }
{
    match (is_asked, has_begun) {
        (false, _) => Coming::HandedOut,
        (true, false) => Coming::LetGo,
        (true, true) => Coming::Last,
    }
}

/// The desk that gets a client, and whom the server has a place for, by how many clients each desk has and how many the server takes;
/// `None` if it has none for anybody, not even to answer.
pub(crate) fn place_for(counts: &[u64], most_clients: u64) -> Option<(usize, Vacancy)>
    ensures desk { IfSome result (λ place. IsFewest counts.now place.0) }
    ensures whom { IfSome result (λ place. vacancy (min (sum counts.now) (2 ^ 64 - 1)) most_clients ≡ Some place.1) }
    ensures none { IsNone result → (counts.now ≡ []) ⊎ (vacancy (min (sum counts.now) (2 ^ 64 - 1)) most_clients ≡ None) }
{
    let at = fewest(counts)?;
    let vacancy = vacancy(total(counts), most_clients)?;
    Some((at, vacancy))
}

// How many clients these are together.
fn total(counts: &[u64]) -> u64
    ensures { result ≡ min (sum counts.now) (2 ^ 64 - 1) }
{
    let mut total = 0u64;
    for count in counts {
        total = total.saturating_add(*count);
    }
    total
}

// Whom a server has a place for that has `clients`, and takes `most`; `None` if nobody is even answered.
fn vacancy(clients: u64, most: u64) -> Option<Vacancy>
    ensures { result ≡ vacancy clients most }
{
    if clients < most {
        Some(Vacancy::Any)
    } else if clients - most < KEPT {
        Some(Vacancy::Ping)
    } else if clients - most < KEPT + ANSWERED {
        Some(Vacancy::Nobody)
    } else {
        None
    }
}

// The place of the least of these counts, the first of several; `None` if there are none.
fn fewest(counts: &[u64]) -> Option<usize>
    ensures fewest { IfSome result (IsFewest counts.now) }
    ensures none { IsNone result → counts.now ≡ [] }
{
    let mut least = *counts.first()?;
    let mut at = 0;
    for (place, count) in counts.iter().enumerate() {
        if *count < least {
            least = *count;
            at = place;
        }
    }
    Some(at)
}

/// Whether more may wait, once `taken` were taken in.
pub(crate) fn may_more_wait(taken: u32) -> bool
    ensures { IsTrue result ↔ (NEW_CLIENTS ≤ taken) }
{
    taken >= NEW_CLIENTS
}
