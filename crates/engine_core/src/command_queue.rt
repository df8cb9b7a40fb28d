//! The queue between the connections and the broker: what waits for the next flush, and what a flush prints.

ghost use Rattle.std.specs.Prelude.{◌≡◌, ◌≢◌, ◌++◌, ◌<◌, ◌≤◌, ◌^◌, OnOk, IfOk, IfErr, string_bytes, nat_eq, count_by, ◌+◌, length, false, true, ℕ, IsErrOf};
ghost use Rattle.frame_core.specs.Writable.{Writable};
ghost use Rattle.command_core.specs.Commands.{Fits};
ghost use Rattle.command_core.specs.Operations.{IsOp};
ghost use Rattle.recover_core.specs.Standing.{Stands};
ghost use Rattle.flush_core.specs.declared.faults.FlushFault.TheVariants.{Full};
ghost use Rattle.engine_core.specs.Faults.{IsCausedBy, IsOutOfStep, IsStopCaused};
ghost use Rattle.engine_core.specs.Going.{HasFilled, HasGoneOn, HasGoneSomeWay, IsIdle};
ghost use Rattle.engine_core.specs.Journals.{GoesThrough, IsFull};
ghost use Rattle.engine_core.specs.Placed.{AgreeAll, AreSeatsOf, commands_of};

use crate::fault::QueueFault;
use crate::journal::{Journal, append_all};
use crate::printing::print_outs;
use claim_core::{BrokerRing, BrokerSeat, WINDOW};
use command_core::{Command, HeaderText, Op};
use disk_core::{Disk, MemDisk};
use flush_core::{FlushFault, Flusher, Width};
use outbox_core::{OutSender, Silent};
use std::alloc::Global;
use std::collections::BTreeMap;
use std::marker::Model;
use std::mem;

/// From this count on no command is taken.
const LAST_COUNT: u64 = 1 << 60;

/// How many commands a block of a script's journal has at most.
pub const BATCH: usize = 32;

/// A block of a script's journal whose records have as many bytes takes no further command.
pub const BATCH_BYTES: u64 = 262_144;

/// The queue. Contracts see the commands that wait, which connection opened which session, the broker's state as it was last
/// flushed, and the journal's disk.
#[derive(Drop)]
pub struct CommandQueue {
    waiting: Vec<Waiting>,
    openers: BTreeMap<u64, u8>,
    journal: Journal<MemDisk>,
}

impl Model for CommandQueue {
    ghost use Rattle.std.specs.Prelude.{◌≡◌, ◌+◌, ◌≤◌, ◌^◌, length, true};
    ghost use Rattle.engine_core.specs.Queues.{QueueOnDisk};

    ghost Value = { QueueOnDisk };

    ghost view = { λ a. record { queue = record { waiting = a.waiting.items; openers = a.openers.entries; state = a.journal.state; durable = a.journal.durable }; disk = a.journal.disk } };

    ghost invariant = { λ a. a.journal.durable ≡ true → a.journal.state.count + length a.waiting.items ≤ 2 ^ 62 };
}

impl CommandQueue {
    ghost use Rattle.std.specs.Prelude.{[]};
    ghost use Rattle.engine_core.specs.OfQueue.{IsMemory};
    ghost use Rattle.engine_core.specs.Refusals.{RefusesCommand, RefusesFlush};
    ghost use Rattle.engine_core.specs.StepFaults.{IsStepTold};
    ghost use Rattle.engine_core.specs.Queues.{IsNumbered, StaysCalm, flushed, flush_text, with_room, room_text, CountsTooFar, number_for, as_command, is_full, with_command};

    /// A queue in which nothing waits, over a journal that was just opened. No memory is taken.
    pub fn over(alloc: Global, journal: Journal<MemDisk>) -> CommandQueue
        requires { journal.state.count ≤ 2 ^ 62 }
        ensures { result ≡ record { queue = record { waiting = []; openers = []; state = journal.state; durable = journal.durable }; disk = journal.disk } }
    {
        CommandQueue {
            waiting: Vec::new(alloc),
            openers: BTreeMap::new(alloc),
            journal,
        }
    }

    /// Makes what waits durable, has the broker carry it out, and adds a line for each output to the text.
    pub fn flush(&mut self, alloc: Global, text: &mut String) -> Result<(), QueueFault>
        ensures state { OnOk result (self.new.queue ≡ flushed self.old.queue) }
        ensures calm { OnOk result (StaysCalm self.old self.new) }
        ensures text { OnOk result (string_bytes text.new ≡ string_bytes text.old ++ flush_text self.old.queue) }
        ensures refuses { IfErr result (RefusesFlush self.old self.new) }
    {
        let waiting = mem::replace(&mut self.waiting, Vec::new(alloc));
        match self.journal.record(alloc, waiting) {
            Ok(Some(outs)) => print_outs(alloc, &mut self.journal, &self.openers, outs, text),
            Ok(None) => Err(QueueFault::Storing(FlushFault::Device)),
            Err(fault) => Err(QueueFault::Storing(fault)),
        }
    }

    /// What waits, and the journal.
    pub fn into_parts(self) -> (Vec<Waiting>, Journal<MemDisk>)
        ensures waiting { result.0.items ≡ self.queue.waiting }
        ensures journal { (result.1.state ≡ self.queue.state) × (result.1.durable ≡ self.queue.durable) × (result.1.disk ≡ self.disk) }
    {
        let CommandQueue {
            waiting,
            journal,
            ..
        } = self;
        (waiting, journal)
    }

    /// The disk, as an error if the journal failed. What waits is dropped.
    pub fn into_disk(self) -> Result<MemDisk, MemDisk>
        ensures stands { IfOk result (λ disk. (disk ≡ self.disk) × Stands disk.content self.queue.state) }
        ensures failed { IfErr result (λ disk. (disk ≡ self.disk) × (self.queue.durable ≡ false)) }
    {
        let (_waiting, journal) = self.into_parts();
        let is_durable = journal.is_durable();
        let disk = journal.into_disk();
        if is_durable { Ok(disk) } else { Err(disk) }
    }

    /// Whether as many commands of the connection wait as may. That is as many as its seat at the ring may have that are not
    /// under the mark.
    fn is_full(&self, connection: u8) -> bool
        ensures { result ≡ is_full connection self.now.queue }
    {
        count_of(self.waiting.as_slice(), connection) >= WINDOW
    }

    /// Takes an operation of a connection, whose session has this number, as a command. Flushes first if as many commands of
    /// the connection wait as may. Answers the number of the connection's session.
    pub fn submit(
        &mut self,
        alloc: Global,
        connection: u8,
        number: u64,
        op: Op,
        receipt: Option<HeaderText>,
        text: &mut String,
    ) -> Result<u64, QueueFault>
        requires { Fits op 0 receipt × IsOp op }
        ensures number { IfOk result (λ n. n ≡ number_for op number (with_room connection self.old.queue)) }
        ensures queue { OnOk result (self.new.queue ≡ as_command connection op receipt number (with_room connection self.old.queue)) }
        ensures calm { OnOk result (StaysCalm self.old self.new) }
        ensures text { OnOk result (string_bytes text.new ≡ string_bytes text.old ++ room_text connection self.old.queue) }
        ensures counts { OnOk result (CountsTooFar connection self.old.queue → ⊥) }
        ensures refuses { IfErr result (RefusesCommand connection self.old self.new) }
    {
        match self.make_room(alloc, connection, text) {
            Ok(()) => self.add(connection, number, op, receipt),
            Err(fault) => {
                drop(receipt);
                drop(op);
                Err(fault)
            }
        }
    }

    // Flushes first if as many commands of the connection wait as may; then one more may be counted.
    fn make_room(
        &mut self,
        alloc: Global,
        connection: u8,
        text: &mut String,
    ) -> Result<(), QueueFault>
        ensures queue { OnOk result (self.new.queue ≡ with_room connection self.old.queue) }
        ensures calm { OnOk result (StaysCalm self.old self.new) }
        ensures text { OnOk result (string_bytes text.new ≡ string_bytes text.old ++ room_text connection self.old.queue) }
        ensures durable { OnOk result (self.new.queue.durable ≡ true) }
        ensures few { OnOk result (self.new.queue.state.count < 2 ^ 60) }
        ensures refuses { IfErr result (RefusesCommand connection self.old self.new) }
    {
        if self.is_full(connection) {
            self.flush(alloc, text)?;
        }
        self.count_more()
    }

    // Whether one more command may be counted.
    fn count_more(&self) -> Result<(), QueueFault>
        ensures durable { OnOk result (self.now.queue.durable ≡ true) }
        ensures few { OnOk result (self.now.queue.state.count < 2 ^ 60) }
        ensures err { IfErr result (λ fault. fault ≡ QueueFault.CountTooLarge → 2 ^ 60 ≤ self.now.queue.state.count) }
        ensures room { IfErr result (λ fault. fault ≢ QueueFault.Storing FlushFault.Full) }
        ensures told { IfErr result (IsStepTold self.now.disk.failures self.now.queue.durable self.now.disk.failures) }
    {
        if !self.journal.is_durable() {
            return Err(QueueFault::Storing(FlushFault::Broken));
        }
        let is_too_far = self.journal.count() >= LAST_COUNT;
        if is_too_far {
            return Err(QueueFault::CountTooLarge);
        }
        Ok(())
    }

    // Has an operation wait as a command; answers the number of the connection's session.
    fn add(
        &mut self,
        connection: u8,
        number: u64,
        op: Op,
        receipt: Option<HeaderText>,
    ) -> Result<u64, QueueFault>
        requires form { Fits op 0 receipt × IsOp op }
        requires durable { self.old.queue.durable ≡ true }
        requires few { self.old.queue.state.count < 2 ^ 60 }
        ensures number { IfOk result (λ n. n ≡ number_for op number self.old.queue) }
        ensures queue { OnOk result (self.new.queue ≡ as_command connection op receipt number self.old.queue) }
        ensures disk { self.new.disk ≡ self.old.disk }
        ensures memory { IfErr result IsMemory }
    {
        match self.number_session(connection, number, &op) {
            Ok((number, session)) => {
                match self.push(connection, Command::new(session, op, receipt)) {
                    Ok(()) => Ok(number),
                    Err(fault) => Err(fault),
                }
            }
            Err(fault) => {
                drop(receipt);
                drop(op);
                Err(fault)
            }
        }
    }

    // The number of the connection's session once the operation is a command, and the session that the command names. An Open
    // names none, and its session gets the command's number.
    fn number_session(
        &mut self,
        connection: u8,
        number: u64,
        op: &Op,
    ) -> Result<(u64, u64), QueueFault>
        requires few { self.old.queue.state.count < 2 ^ 60 }
        ensures numbers { IfOk result (IsNumbered connection op.now number self.old.queue self.new.queue) }
        ensures same { (self.new.queue.durable ≡ self.old.queue.durable) × (self.new.queue.state ≡ self.old.queue.state) × (self.new.disk ≡ self.old.disk) }
        ensures memory { IfErr result IsMemory }
    {
        let Op::Open { .. } = op else {
            return Ok((number, number));
        };
        let next = self.journal.count() + self.waiting.len() as u64;
        self.openers.insert(next, connection)?;
        Ok((next, 0))
    }

    // Has a command wait.
    fn push(&mut self, connection: u8, command: Command) -> Result<(), QueueFault>
        requires few { self.old.queue.state.count < 2 ^ 60 }
        ensures queue { OnOk result (self.new.queue ≡ with_command connection command self.old.queue) }
        ensures disk { self.new.disk ≡ self.old.disk }
        ensures memory { IfErr result IsMemory }
    {
        let waiting = Waiting {
            connection,
            command,
        };
        match self.waiting.push(waiting) {
            Ok(()) => Ok(()),
            Err(refused) => Err(QueueFault::from(refused)),
        }
    }
}

fn count_of(waiting: &[Waiting], connection: u8) -> usize
    ensures { result ≡ count_by (λ w. nat_eq w.connection connection) waiting.now }
{
    waiting
        .iter()
        .filter(|w| w.connection == connection)
        .count()
}

/// A command that waits for the next flush, and the connection that it came from.
#[derive(Drop)]
pub struct Waiting {
    /// The connection's number, which is the place of its seat.
    pub connection: u8,
    /// What it asks for.
    pub command: Command,
}

// A script has no outboxes: what goes to its connections stays with the flusher until it is taken.
pub(crate) type ScriptBox = OutSender<Silent>;

pub(crate) type ScriptRing = BrokerRing<ScriptBox>;

pub(crate) type ScriptSeat = BrokerSeat<ScriptBox>;

/// How wide the blocks of a script's journal are.
pub struct ScriptWidth;

impl Width for ScriptWidth {
    const COMMANDS: usize = BATCH;

    const BYTES: u64 = BATCH_BYTES;

    ghost COMMANDS = { 32 };

    ghost BYTES = { 262144 };
}

/// The flusher of a script.
pub type ScriptFlusher<D> = Flusher<D, Silent, ScriptWidth>;

// Turns until `count` commands are taken, stored, carried out and published.
//
// `Full` if the next command's block doesn't fit after a fresh snapshot, or no such snapshot fits. `Broken` if `count` turns take
// others than these, or if a session has a box. No session has one if its commands are all in the ring, without boxes.
fn take_all<D: Disk>(
    alloc: Global,
    ring: &ScriptRing,
    flusher: &mut ScriptFlusher<D>,
    count: u64,
) -> Result<(), FlushFault>
    requires ring { flusher.old.seat.ring ≡ ring.now }
    requires idle { IsIdle flusher.old }
    ensures taken { OnOk result (HasGoneOn flusher.old flusher.new count) }
    ensures fallen { IfErr result (λ fault. HasGoneSomeWay flusher.old flusher.new) }
    ensures full { D.honest flusher.old.disk → IsErrOf result Full → HasFilled flusher.old flusher.new (D.content flusher.new.disk) }
    ensures calm { OnOk result (D.failures flusher.new.disk ≡ D.failures flusher.old.disk) }
    ensures cause { IfErr result (IsCausedBy (D.failures flusher.old.disk) (D.failures flusher.new.disk)) }
{
    let end = flusher.mark().saturating_add(count);
    for _turn in 0..count {
        if flusher.mark() >= end {
            break;
        }
        flusher.turn(alloc, ring)?;
        if !flusher.has_no_box() {
            return Err(FlushFault::Broken);
        }
    }
    if flusher.mark() != end || flusher.next() != end {
        return Err(FlushFault::Broken);
    }
    Ok(())
}

// Turns until `count` commands are taken, and answers whether they are; they are not if the disk fails.
fn take_until_stop<D: Disk>(
    alloc: Global,
    ring: &ScriptRing,
    flusher: &mut ScriptFlusher<D>,
    count: u64,
) -> Result<bool, FlushFault>
    requires ring { flusher.old.seat.ring ≡ ring.now }
    requires idle { IsIdle flusher.old }
    ensures all { IfOk result (λ all. all ≡ true → HasGoneOn flusher.old flusher.new count) }
    ensures way { HasGoneSomeWay flusher.old flusher.new }
    ensures full { D.honest flusher.old.disk → IsErrOf result Full → HasFilled flusher.old flusher.new (D.content flusher.new.disk) }
    ensures cause { IsStopCaused (D.failures flusher.old.disk) (D.failures flusher.new.disk) result }
{
    match take_all(alloc, ring, flusher, count) {
        Ok(()) => Ok(true),
        Err(FlushFault::Device) => Ok(false),
        Err(FlushFault::Full) => Err(FlushFault::Full),
        Err(FlushFault::Broken) => Err(FlushFault::Broken),
        Err(FlushFault::Memory(refused)) => Err(FlushFault::Memory(refused)),
    }
}

// The fault if more was taken than waited: that the disk failed, or one that is not the disk's.
fn out_of_step(went: Result<bool, FlushFault>) -> FlushFault
    ensures kind { IsOutOfStep result }
    ensures cause { (before now : ℕ) → IsStopCaused before now went → IsCausedBy before now result }
{
    match went {
        Ok(false) | Err(FlushFault::Device) => FlushFault::Device,
        Ok(true) => FlushFault::Broken,
        Err(FlushFault::Full | FlushFault::Broken | FlushFault::Memory(_)) => FlushFault::Broken,
    }
}

/// Has waiting commands go into the ring and through the flusher, and answers whether all did. If the disk fails, only the first so
/// many of them did. If a block has no room, the journal is compacted. `Full` comes if the next command's block still has none then.
///
/// No more is taken than waited if all seats of the ring are here. Else the fault is `Device` if the disk failed, and `Broken` if not.
pub fn go<D: Disk>(
    alloc: Global,
    ring: &ScriptRing,
    seats: &mut Vec<ScriptSeat>,
    flusher: &mut ScriptFlusher<D>,
    waiting: Vec<Waiting>,
) -> Result<bool, FlushFault>
    requires ring { flusher.old.seat.ring ≡ ring.now }
    requires seats { AreSeatsOf ring.now seats.old.items }
    requires idle { IsIdle flusher.old }
    ensures seats { AreSeatsOf ring.now seats.new.items }
    ensures goes { IfOk result (GoesThrough D.Disk flusher.old flusher.new seats.new.items waiting.items) }
    ensures full { D.honest flusher.old.disk → IsErrOf result Full →
        IsFull flusher.old.broker.state (commands_of waiting.items) (D.content flusher.new.disk) }
    ensures cause { IsStopCaused (D.failures flusher.old.disk) (D.failures flusher.new.disk) result }
{
    let first = flusher.next();
    let count = waiting.len() as u64;
    append_all(alloc, ring, seats, first, waiting)?;
    let went = take_until_stop(alloc, ring, flusher, count);
    if flusher.next().saturating_sub(first) > count {
        return Err(out_of_step(went));
    }
    compare_all(ring, seats, flusher);
    went
}

/// Brings each seat beside the flusher's. Nothing changes.
pub fn compare_all<D: Disk>(
    ring: &ScriptRing,
    seats: &mut Vec<ScriptSeat>,
    flusher: &mut ScriptFlusher<D>,
)
    requires ring { flusher.old.seat.ring ≡ ring.now }
    requires seats { AreSeatsOf ring.now seats.old.items }
    ensures flusher { flusher.new ≡ flusher.old }
    ensures seats { seats.new.items ≡ seats.old.items }
    ensures agree { AgreeAll flusher.old.seat seats.old.items }
{
    for place in 0..seats.len() {
        flusher.beside(ring, &mut seats[place]);
    }
}
