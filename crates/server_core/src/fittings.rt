//! What the threads of a server share, and how it is put together.

ghost use Rattle.std.specs.Prelude.{◌≡◌, IfOk, IfSome};
ghost use Rattle.std.specs.Arc.{arc_value};

use crate::acceptor::Acceptor;
use crate::entrance::{Entrance, bells_of, mailboxes_again};
use crate::serving::ServerFlusher;
use crate::worker::WorkerSetup;
use claim_core::{BrokerRing, BrokerSeat, SEATS};
use engine_core::desk_bytes;
use event_log::ServeFault;
use outbox_core::OutSender;
use std::alloc::Global;
use std::net::TcpListener;
use std::sync::{Arc, Wait};
use std::time::Clock;
use wakeups::{ClientWaker, Ending, LogThread, Mailbox, Memory, Wakeups};
use work_share::Costs;

// What asks a server to end, and what reports to its operator.
#[derive(Drop)]
struct Signals {
    ending: Arc<Ending>,
    log: Arc<LogThread>,
}

impl Signals {
    fn new(alloc: Global) -> Result<Signals, ServeFault> {
        let log = shared_by(alloc, LogThread::new(alloc)?)?;
        let ending = shared_by(alloc, Ending::new())?;
        Ok(Signals { ending, log })
    }

    // The same once more, for another who shares them.
    fn again(&self) -> Result<Signals, ServeFault> {
        let log = self.log.clone()?;
        let ending = self.ending.clone()?;
        Ok(Signals { ending, log })
    }
}

// What the flusher and the workers wait on.
fn wakeups_of<R: Wait + Clone + Drop>(
    alloc: Global,
    rt: &R,
    setups: &[WorkerSetup],
    mark: u64,
    signals: &Signals,
) -> Result<Wakeups<R>, ServeFault> {
    let bells = bells_of(alloc, setups)?;
    let rt = rt.clone()?;
    let Signals { ending, log } = signals.again()?;
    Ok(Wakeups::new(rt, mark, ending, log, bells))
}

// What commands cost. The flusher counts from now on how many listen to each topic.
fn costs_of(alloc: Global, flusher: &mut ServerFlusher) -> Result<Costs, ServeFault>
    ensures { flusher.new ≡ flusher.old }
{
    let costs = Costs::new(alloc, SEATS)?;
    flusher.count_audiences(costs.audiences()?);
    Ok(costs)
}

// What the threads share besides the ring and the origins, and the signals for where clients come in.
#[derive(Drop)]
struct Fittings<R> {
    rt: R,
    wakeups: Wakeups<R>,
    memory: Memory,
    costs: Costs,
    signals: Signals,
}

// What the threads of a server share that is entered there, but for the ring and the origins. Its flusher counts from now on how many listen
// to each topic.
fn fit_out<R: Wait + Clone + Drop>(
    alloc: Global,
    rt: &R,
    entrance: &Entrance,
    flusher: &mut ServerFlusher,
) -> Result<Fittings<R>, ServeFault>
    ensures { flusher.new ≡ flusher.old }
{
    let rt_of_all = rt.clone()?;
    let signals = Signals::new(alloc)?;
    let wakeups = wakeups_of(alloc, rt, &entrance.setups, flusher.mark(), &signals)?;
    let mailboxes = mailboxes_again(alloc, &entrance.mailboxes)?;
    let costs = costs_of(alloc, flusher)?;
    Ok(Fittings {
        rt: rt_of_all,
        wakeups,
        memory: Memory::new(entrance.memory, mailboxes),
        costs,
        signals,
    })
}

// Where clients come in.
fn acceptor_of<R: Wait + Clone + Drop>(
    alloc: Global,
    rt: &R,
    listener: TcpListener,
    mailboxes: Vec<Arc<Mailbox>>,
    most_clients: u64,
    signals: Signals,
) -> Result<Arc<Acceptor<R>>, ServeFault> {
    let rt = rt.clone()?;
    let Signals { ending, log } = signals;
    let acceptor = Acceptor::new(rt, listener, mailboxes, most_clients, ending, log);
    shared_by(alloc, acceptor)
}

/// What the threads share, where clients come in, and what the workers wait on.
pub(crate) fn share<R: Wait + Clone + Drop>(
    alloc: Global,
    rt: &R,
    ring: ServerRing,
    entrance: Entrance,
    flusher: &mut ServerFlusher,
) -> Result<(Arc<Shared<R>>, Arc<Acceptor<R>>, Vec<WorkerSetup>), ServeFault>
    ensures ring { IfOk result (λ shares. (arc_value shares.0).ring ≡ ring) }
    ensures setups { IfOk result (λ shares. shares.2 ≡ entrance.setups) }
    ensures flusher { flusher.new ≡ flusher.old }
{
    match fit_out(alloc, rt, &entrance, flusher) {
        Ok(fittings) => share_all(alloc, rt, ring, entrance, fittings, flusher.size()),
        Err(fault) => {
            drop(entrance);
            drop(ring);
            Err(fault)
        }
    }
}

// The same with these fittings, over a journal whose size is given.
fn share_all<R: Wait + Clone + Drop>(
    alloc: Global,
    rt: &R,
    ring: ServerRing,
    entrance: Entrance,
    fittings: Fittings<R>,
    area: u64,
) -> Result<(Arc<Shared<R>>, Arc<Acceptor<R>>, Vec<WorkerSetup>), ServeFault>
    ensures ring { IfOk result (λ shares. (arc_value shares.0).ring ≡ ring) }
    ensures setups { IfOk result (λ shares. shares.2 ≡ entrance.setups) }
{
    let Entrance {
        listener,
        port: _,
        origins,
        most_clients,
        memory: _,
        mailboxes,
        setups,
    } = entrance;
    let acceptor = acceptor_of(
        alloc,
        rt,
        listener,
        mailboxes,
        most_clients,
        fittings.signals,
    );
    let shared = Shared {
        rt: fittings.rt,
        ring,
        origins,
        wakeups: fittings.wakeups,
        memory: fittings.memory,
        costs: fittings.costs,
        desk_bytes: desk_bytes(SEATS as u64, most_clients, area),
    };
    match (shared_by(alloc, shared), acceptor) {
        (Ok(shared), Ok(acceptor)) => Ok((shared, acceptor, setups)),
        (shared, acceptor) => {
            drop(acceptor);
            drop(shared);
            drop(setups);
            Err(ServeFault::Memory)
        }
    }
}

// The value, for several threads.
fn shared_by<T: Drop>(alloc: Global, value: T) -> Result<Arc<T>, ServeFault>
    ensures { IfOk result (λ shared. arc_value shared ≡ value) }
{
    match Arc::new(alloc, value) {
        Ok(shared) => Ok(shared),
        Err(_) => Err(ServeFault::Memory),
    }
}

pub(crate) type ServerRing = BrokerRing<OutSender<ClientWaker>>;

pub(crate) type ServerSeat = BrokerSeat<OutSender<ClientWaker>>;

/// What the threads of a server share.
#[derive(Drop)]
pub struct Shared<R> {
    pub(crate) rt: R,
    pub(crate) ring: ServerRing,
    /// The origins whose pages are served; all, if none is named.
    pub(crate) origins: Arc<Vec<Vec<u8>>>,
    pub(crate) wakeups: Wakeups<R>,
    pub(crate) memory: Memory,
    pub(crate) costs: Costs,
    /// How many bytes the sessions of a desk may have together in a snapshot of the broker.
    pub(crate) desk_bytes: u64,
}

impl<R: Clock> Shared<R> {
    /// The moment, in milliseconds of the clock; 0 if it can't be read.
    pub(crate) fn moment(&self) -> u64 {
        match self.rt.monotonic() {
            Ok(time) => u64::try_from(time.as_millis()).unwrap_or(0),
            Err(_) => 0,
        }
    }
}

impl<R: Drop> Shared<R> {
    /// The ring, if nobody shares it any more. All else goes.
    pub(crate) fn into_ring(shared: Arc<Shared<R>>) -> Option<ServerRing>
        ensures { IfSome result (λ ring. ring ≡ (arc_value shared).ring) }
    {
        match Arc::try_unwrap(shared) {
            Ok(shared) => Some(shared.ring_alone()),
            Err(shared) => {
                drop(shared);
                None
            }
        }
    }

    fn ring_alone(self) -> ServerRing
        ensures { result ≡ self.ring }
    {
        let Shared {
            rt,
            ring,
            origins,
            wakeups,
            memory,
            costs,
            desk_bytes: _,
        } = self;
        drop(rt);
        drop(origins);
        drop(wakeups);
        drop(memory);
        drop(costs);
        ring
    }
}
