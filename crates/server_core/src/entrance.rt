//! Where clients come into a server: what is opened before its journal.

ghost use Rattle.std.specs.Prelude.{◌≡◌, ◌≤◌, ◌<◌, IfOk, length};
ghost use Rattle.claim_core.specs.declared.limits.TheConstants.{SEATS};
ghost use Rattle.server_core.specs.Serving.{count_mailboxes};
ghost use Rattle.server_core.specs.declared.serving.TheConstants.{MOST_CLIENTS, MOST_MEMORY};

use crate::acceptor::listen;
use crate::serving::{MOST_CLIENTS, MOST_MEMORY};
use crate::worker::{WorkerSetup, man};
use claim_core::SEATS;
use event_log::ServeFault;
use std::alloc::{AllocError, Global};
use std::net::{Net, TcpListener, TcpStream};
use std::sync::Arc;
use wakeups::{Doorbell, Mailbox};

/// Which clients a server takes, how many, how many threads serve them, and how much memory they may hold.
#[derive(Drop)]
pub struct Reception {
    /// The origins whose pages are served; all, if none is named.
    pub origins: Vec<Vec<u8>>,
    /// How many clients it takes at a time. One more is answered 503.
    pub most_clients: u64,
    /// How many threads serve them: one at least, and 64 at most, whatever stands here.
    pub threads: usize,
    /// How many bytes they may hold together: what waits to be sent to them, and what they have not finished. Beyond that the client
    /// that holds most is given up.
    pub memory: u64,
}

impl Reception {
    /// The reception of a server that takes as many clients as one can, and lets them hold 1 GiB together.
    pub fn new(origins: Vec<Vec<u8>>, threads: usize) -> Reception
        ensures { result ≡ record { origins = origins; most_clients = MOST_CLIENTS; threads = threads; memory = MOST_MEMORY } }
    {
        Reception {
            origins,
            most_clients: MOST_CLIENTS,
            threads,
            memory: MOST_MEMORY,
        }
    }
}

/// An open port, the pages that it serves, and what the workers wait on that will have its clients.
#[derive(Drop)]
pub(crate) struct Entrance {
    pub(crate) listener: TcpListener,
    pub(crate) port: u16,
    pub(crate) origins: Arc<Vec<Vec<u8>>>,
    pub(crate) most_clients: u64,
    pub(crate) memory: u64,
    pub(crate) mailboxes: Vec<Arc<Mailbox>>,
    // One for each worker.
    pub(crate) setups: Vec<WorkerSetup>,
    ghost manned: { count_mailboxes setups.items ≡ SEATS },
}

impl Entrance {
    /// Opens the port at 127.0.0.1. `Port` if the system refuses it, `Threads` if it refuses what workers wait on.
    pub(crate) fn open<R: Net<Listener = TcpListener, Stream = TcpStream>>(
        alloc: Global,
        net: &R,
        port: u16,
        reception: Reception,
    ) -> Result<Entrance, ServeFault>
        ensures { IfOk result (λ entrance. entrance.port ≡ port) }
    {
        match listen(net, port) {
            Ok(listener) => Entrance::man(alloc, net, port, reception, listener),
            Err(fault) => {
                drop(reception);
                Err(fault)
            }
        }
    }

    // The same, of a port that is open.
    fn man<R: Net>(
        alloc: Global,
        net: &R,
        port: u16,
        reception: Reception,
        listener: TcpListener,
    ) -> Result<Entrance, ServeFault>
        ensures { IfOk result (λ entrance. entrance.port ≡ port) }
    {
        let Reception {
            origins,
            most_clients,
            threads,
            memory,
        } = reception;
        let Ok(origins) = Arc::new(alloc, origins) else {
            drop(listener);
            return Err(ServeFault::Memory);
        };
        let mut setups = Vec::new(alloc);
        let mut mailboxes = Vec::new(alloc);
        match man(
            alloc,
            net,
            threads.clamp(1, SEATS),
            &mut setups,
            &mut mailboxes,
        ) {
            Ok(()) => Ok(Entrance {
                listener,
                port,
                origins,
                most_clients,
                memory,
                mailboxes,
                setups,
            }),
            Err(fault) => {
                drop(setups);
                drop(mailboxes);
                drop(origins);
                drop(listener);
                Err(fault)
            }
        }
    }
}

/// The mailboxes once more, for others that share them.
pub(crate) fn mailboxes_again(
    alloc: Global,
    mailboxes: &[Arc<Mailbox>],
) -> Result<Vec<Arc<Mailbox>>, AllocError> {
    let mut again = Vec::new(alloc);
    for mailbox in mailboxes {
        again.push(mailbox.clone()?)?;
    }
    Ok(again)
}

/// The bells of the workers.
pub(crate) fn bells_of(
    alloc: Global,
    setups: &[WorkerSetup],
) -> Result<Vec<Arc<Doorbell>>, AllocError> {
    let mut bells = Vec::new(alloc);
    for setup in setups {
        bells.push(setup.bell.clone()?)?;
    }
    Ok(bells)
}
