//! The journal that the commands of a script are kept in, and how they get there.

ghost use Rattle.std.specs.Prelude.{◌≡◌, ◌≤◌, ◌^◌, IfErr, IfOk, IfSome, IsNone, IsSome, OnErr, OnOk, false, true, ◌+◌, ℕ, [], ◌∷◌, ◌++◌, Ok};
ghost use Rattle.broker_core.specs.States.{held_messages};
ghost use Rattle.disk_core.specs.Fuse.{calls_left, fused};
ghost use Rattle.disk_core.specs.Images.{IsImage};
ghost use Rattle.recover_core.specs.Opens.{IsRestartOf};
ghost use Rattle.recover_core.specs.Standing.{StandFor, Stands};
ghost use Rattle.recover_core.specs.Stores.{disk_of, is_broken, opened_by};
ghost use Rattle.recover_core.specs.Told.{IsCausedBy as IsOpenCausedBy, IsOpenTold};
ghost use Rattle.flush_core.specs.declared.faults.FlushFault.TheVariants.{Broken};
ghost use Rattle.command_core.specs.Commands.{CommandValue};
ghost use Rattle.engine_core.specs.Faults.{IsWantOfMemory, IsOfRing};
ghost use Rattle.engine_core.specs.Journals.{IsMade, DiskFails, KeepsRecorded, Records, RefusesToRecord};
ghost use Rattle.engine_core.specs.Placed.{IsReadBy, commands_of, ArePlaced, AreSeatsOf, IsOwn};

use crate::command_queue::{ScriptBox, ScriptFlusher, ScriptRing, ScriptSeat, Waiting, go};
use area_core::AreaFault;
use broker_core::Broker;
use claim_core::{Refused, Released};
use command_core::{Entry, Out};
use disk_core::{Disk, FuseDisk, MemDisk};
use flush_core::{FlushFault, Flusher};
use outbox_core::Silent;
use recover_core::{OpenFault, Store};
use std::alloc::{AllocError, Global};
use std::marker::Model;
use std::mem;

/// An opened journal with its ring, whose seats are all here, and the broker after its commands. Contracts see the broker's state, whether
/// it is durable, the disk, and the seats, one for each connection. If it is durable, whatever a stop leaves of the disk stands for it.
/// Once a step has failed it is not, and the journal takes nothing more.
#[derive(Drop)]
pub struct Journal<D: Disk> {
    ring: ScriptRing,
    seats: Vec<ScriptSeat>,
    flusher: ScriptFlusher<D>,
    // False once a step has failed.
    whole: bool,
}

impl<D: Disk> Model for Journal<D> {
    ghost use Rattle.std.specs.Prelude.{◌≡◌, true};
    ghost use Rattle.engine_core.specs.Journals.{JournalValue, IsAtRest};

    ghost Value = { JournalValue D };

    ghost view = { λ a. record { state = a.flusher.broker.state; durable = a.whole; disk = a.flusher.disk; seats = a.seats.items } };

    ghost invariant = { λ a. a.whole ≡ true → IsAtRest a.ring a.seats.items a.flusher };
}

impl Journal<MemDisk> {
    /// Opens the journal of a disk. Its state is the restart of the one that the disk stood for. A disk that is not opened comes back.
    pub fn open(alloc: Global, disk: MemDisk) -> Result<Journal<MemDisk>, (MemDisk, OpenFault)>
        ensures stood { IfOk result (λ journal. IsRestartOf disk.content journal.state) }
        ensures durable { IfOk result (λ journal. journal.durable ≡ true) }
        ensures small { IfOk result (λ journal. journal.state.count ≤ 2 ^ 61) }
        ensures stands { IfOk result (λ journal. Stands journal.disk.content journal.state) }
        ensures calm { IfOk result (λ journal. journal.disk.failures ≡ disk.failures) }
        ensures refused { IfErr result (λ back. IsOpenTold back.1 disk.content) }
        ensures cause { IfErr result (λ back. IsOpenCausedBy back.1 disk.failures back.0.failures) }
    {
        match recover_core::open(alloc, disk) {
            Ok(store) => with_broker(alloc, store),
            Err(back) => Err(back),
        }
    }
}

impl<D: Disk> Journal<D> {
    /// How many commands were carried out.
    pub fn count(&self) -> u64
        ensures { result ≡ self.now.state.count }
    {
        self.flusher.broker().count()
    }

    /// How many messages are held. `None` once a step has failed.
    pub fn held(&self) -> Option<u64>
        ensures held { IfSome result (λ messages. messages ≡ held_messages self.now.state) }
        ensures some { self.now.durable ≡ true → IsSome result }
    {
        if !self.whole || self.flusher.is_broken() {
            return None;
        }
        Some(self.flusher.broker().held().messages)
    }

    /// Whether no step has failed.
    pub fn is_durable(&self) -> bool
        ensures { result ≡ self.now.durable }
    {
        self.whole
    }

    /// Has waiting commands go through the ring: each is appended by its connection's seat, and made durable and carried out
    /// in the flusher's turns. Answers their outputs, in order, or `None` if a call of the disk failed. Whatever a stop then
    /// leaves of the disk stands for the state after a prefix of these commands.
    ///
    /// After a call that failed, and after a fault, the journal is not durable, and takes nothing more. `Full` comes if the block of some
    /// of the commands has no room after those before, and `Memory` if memory was refused. `Broken` comes if a step failed before, or if
    /// the ring does not take a command: its connection has no seat, or a full window; or if the turns do not take all that was appended.
    /// `Device` comes instead of `None` if the flusher took what no seat here has appended; that never happens if all seats are here.
    pub fn record(
        &mut self,
        alloc: Global,
        waiting: Vec<Waiting>,
    ) -> Result<Option<Vec<Out>>, FlushFault>
        ensures records { IfOk result (λ outs. IfSome outs (λ outs. Records D.Disk self.old self.new (commands_of waiting.items) outs.items)) }
        ensures stopped { IfOk result (λ outs. IsNone outs → DiskFails D.Disk self.old self.new) }
        ensures keeps { OnOk result (KeepsRecorded D.Disk self.old self.new waiting.items) }
        ensures refuses { RefusesToRecord D.Disk self.old self.new (commands_of waiting.items) result }
    {
        if !self.whole {
            drop(waiting);
            return Err(FlushFault::Broken);
        }
        self.whole = false;
        match go(
            alloc,
            &self.ring,
            &mut self.seats,
            &mut self.flusher,
            waiting,
        ) {
            Ok(true) => {
                self.whole = true;
                Ok(Some(self.flusher.take_left()))
            }
            Ok(false) => Ok(None),
            Err(fault) => Err(fault),
        }
    }

    /// Lets an output leave by its connection's seat, which has read a mark over its number. `Broken` if a step has failed, if the
    /// connection has no seat, or if the seat reads a mark that isn't over the output's number. No contract rules the last out, even for an
    /// output that `record` answered. After `Broken` the journal is not durable, and takes nothing more.
    pub fn release(&mut self, connection: u8, out: Out) -> Result<Released, FlushFault>
        ensures same { OnOk result (self.new ≡ record self.old { seats = self.new.seats }) }
        ensures seat { OnOk result (IsReadBy connection out.number self.old.seats self.new.seats) }
        ensures durable { OnOk result (self.old.durable ≡ true) }
        ensures released { IfOk result (λ released. released ≡ out) }
        ensures refused { IfErr result (λ fault. fault ≡ Broken) }
        ensures failed { OnErr result (self.new ≡ record self.old { durable = false; seats = self.new.seats }) }
    {
        let place = connection as usize;
        if !mem::replace(&mut self.whole, false) || place >= self.seats.len() {
            return Err(FlushFault::Broken);
        }
        match self.ring.release(&mut self.seats[place], out) {
            Ok(released) => {
                self.whole = true;
                Ok(released)
            }
            Err(_) => Err(FlushFault::Broken),
        }
    }

    /// The same journal over a disk that passes `calls` more calls and then fails.
    pub fn fuse(self, calls: u64) -> Journal<FuseDisk<D>>
        ensures disk { fused result.disk ≡ self.disk }
        ensures calls { calls_left result.disk ≡ calls }
        ensures state { result.state ≡ self.state }
        ensures durable { result.durable ≡ self.durable }
    {
        let Journal {
            ring,
            seats,
            flusher,
            whole,
        } = self;
        Journal {
            ring,
            seats,
            flusher: flusher.fuse(calls),
            whole,
        }
    }

    /// The disk, as its calls left it.
    pub fn into_disk(self) -> D
        ensures disk { result ≡ self.disk }
        ensures stands { self.durable ≡ true → D.honest result → StandFor (D.images result) self.state }
    {
        let Journal { flusher, .. } = self;
        flusher.into_disk()
    }
}

// The journal of a store that was just opened. The store's disk comes back if memory is refused.
fn with_broker(
    alloc: Global,
    store: Store<MemDisk>,
) -> Result<Journal<MemDisk>, (MemDisk, OpenFault)>
    requires opened { IsSome (opened_by store) }
    requires stands { IfSome (opened_by store) (λ broker. StandFor (IsImage (disk_of store).content (disk_of store).held) broker.state × (broker.broken ≡ false) × (broker.state.count ≤ 2 ^ 61)) }
    requires whole { is_broken store ≡ false }
    ensures made { IfOk result (λ journal. IfSome (opened_by store) (λ broker. IsMade broker.state (disk_of store) journal)) }
    ensures refused { IfErr result (λ back. IsWantOfMemory back.1 × (back.0 ≡ disk_of store)) }
{
    let mut store = store;
    let broker = store.broker().unwrap();
    with_ring(alloc, store, broker)
}

// The journal of a store and the broker of the state that it stands for, with a new ring, whose base is the broker's count.
fn with_ring(
    alloc: Global,
    store: Store<MemDisk>,
    broker: Broker,
) -> Result<Journal<MemDisk>, (MemDisk, OpenFault)>
    requires stands { StandFor (IsImage (disk_of store).content (disk_of store).held) broker.state }
    requires broker { (broker.broken ≡ false) × (broker.state.count ≤ 2 ^ 61) }
    requires whole { is_broken store ≡ false }
    ensures made { IfOk result (IsMade broker.state (disk_of store)) }
    ensures refused { IfErr result (λ back. IsWantOfMemory back.1 × (back.0 ≡ disk_of store)) }
{
    match ScriptRing::new(alloc, broker.count()) {
        Ok((ring, seats, seat)) => Ok(Journal {
            ring,
            seats,
            flusher: Flusher::new(alloc, store, broker, seat),
            whole: true,
        }),
        Err(refused) => {
            drop(broker);
            let fault = OpenFault::Area(AreaFault::Memory(refused));
            Err((store.into_disk(), fault))
        }
    }
}

/// Appends waiting commands, each with the seat of its connection. The first has this ticket, and each the next one.
///
/// `Broken` if there is no such seat, or if the ring refuses a command or gives it another ticket. Tests show that the ring does neither
/// to a caller that has all of its seats and flushes before a seat's window is full.
pub fn append_all(
    alloc: Global,
    ring: &ScriptRing,
    seats: &mut Vec<ScriptSeat>,
    first: u64,
    waiting: Vec<Waiting>,
) -> Result<(), FlushFault>
    requires { AreSeatsOf ring.now seats.old.items }
    ensures seats { AreSeatsOf ring.now seats.new.items }
    ensures placed { OnOk result (ArePlaced first seats.new.items waiting.items) }
    ensures fault { IfErr result IsOfRing }
{
    let mut next = first;
    for command in waiting {
        next = append_one(alloc, ring, seats, next, command)?;
    }
    Ok(())
}

// Appends one command, which has this ticket; answers the next one.
fn append_one(
    alloc: Global,
    ring: &ScriptRing,
    seats: &mut Vec<ScriptSeat>,
    ticket: u64,
    waiting: Waiting,
) -> Result<u64, FlushFault>
    requires { AreSeatsOf ring.now seats.old.items }
    ensures seats { AreSeatsOf ring.now seats.new.items }
    ensures next { IfOk result (λ next. next ≡ ticket + 1) }
    ensures placed { OnOk result (IsOwn seats.new.items waiting.connection ticket waiting.command) }
    ensures fault { IfErr result IsOfRing }
    ensures others { OnOk result ((place t : ℕ) (c : CommandValue) → IsOwn seats.old.items place t c → IsOwn seats.new.items place t c) }
{
    let Waiting {
        connection,
        command,
    } = waiting;
    let entry = match Entry::new(alloc, command, None) {
        Ok(entry) => entry,
        Err(refused) => {
            drop(refused);
            return Err(FlushFault::Memory(AllocError));
        }
    };
    let place = connection as usize;
    if place >= seats.len() {
        drop(entry);
        return Err(FlushFault::Broken);
    }
    match append_at(ring, &mut seats[place], ticket, entry) {
        Ok(next) => Ok(next),
        Err(fault) => Err(fault),
    }
}

// Appends one entry with a seat, if it has this ticket; answers the next one.
fn append_at(
    ring: &ScriptRing,
    seat: &mut ScriptSeat,
    ticket: u64,
    entry: Entry<ScriptBox>,
) -> Result<u64, FlushFault>
    requires { seat.old.ring ≡ ring.now }
    ensures ring { seat.new.ring ≡ seat.old.ring }
    ensures next { IfOk result (λ next. next ≡ ticket + 1) }
    ensures fault { IfErr result IsOfRing }
    ensures own { OnOk result (seat.new.own ≡ seat.old.own ++ (ticket, entry.command) ∷ []) }
{
    let Some(next) = ticket.checked_add(1) else {
        drop(entry);
        return Err(FlushFault::Broken);
    };
    match ticket_of(ring.append(seat, entry)) {
        Some(got) => {
            if got != ticket {
                return Err(FlushFault::Broken);
            }
            Ok(next)
        }
        None => Err(FlushFault::Broken),
    }
}

// The ticket that an append answered. An entry that was handed back is let go.
fn ticket_of(answer: Result<u64, (Entry<ScriptBox>, Refused)>) -> Option<u64>
    ensures { IfSome result (λ ticket. answer ≡ Ok ticket) }
{
    match answer {
        Ok(ticket) => Some(ticket),
        Err(refused) => {
            drop(refused);
            None
        }
    }
}
