//! Hubs over journals in memory.

ghost use Rattle.std.specs.Prelude.{◌≡◌, ◌≤◌, ◌<◌, ◌+◌, ◌++◌, [], List, IfSome, length, vec_len, vec_capacity};
ghost use Rattle.command_core.specs.Commands.{CommandValue};
ghost use Rattle.engine_core.specs.Closings.{shown};
ghost use Rattle.flush_core.specs.Flusher.{Flushed};
ghost use Rattle.engine_core.specs.Hubs.{IsWhole};
ghost use Rattle.world_core.specs.Schedules.{Holds};
ghost use Rattle.hub_tests.specs.Parties.{AreAt, AreTogether};

use crate::script_tests::{Awaited, Row};
use area_core::format;
use claim_core::{BrokerRing, BrokerSeat, Released};
use clients::Wakers;
use disk_core::MemDisk;
use engine_core::{Closed, Gate, Hub};
use outbox_core::{OutSender, Silent};
use session_core::Notice;
use std::alloc::{AllocError, Global};
use std::cell::Cell;
use std::sync::atomic::{AtomicBool, AtomicU64, Ordering};
use std::thread;
use std::time::{Clock, Duration};
use ws_core::{CloseReason, Link, LinkFault, MemLink, Outgoing, Received};

/// The bytes of a roomy area.
pub const AREA: u64 = 262_144;

/// The bytes of the smallest area.
pub const SMALL_AREA: u64 = 4_096;

/// Never.
pub const NO_SHORTAGE: Shortage = Shortage {
    bells: 0,
    sends: 0,
    errors: 0,
    ends: 0,
};

/// A line in which connection 0 receives a CONNECT.
pub const CONNECT: &str = "0 CONNECT%0Aaccept-version:1.2%0A%0A%00";

/// A line in which connection 0 sends a message and asks for a receipt.
pub const SEND_WITH_RECEIPT: &str = "0 SEND%0Adestination:/queue/a%0Areceipt:r1%0A%0Ahi%00";

pub type MemHub = Hub<MemDisk, Silent>;

pub type HubRing = BrokerRing<OutSender<Silent>>;

pub type HubSeat = BrokerSeat<OutSender<Silent>>;

pub type HubFlusher = engine_core::HubFlusher<MemDisk, Silent>;

/// A hub, the seats that it has handed out, and its flusher. Tests own these here alone, and lend them. A party is closed and never
/// dropped, since each value that is dropped has a proof.
pub struct Party {
    pub hub: MemHub,
    pub seats: Vec<HubSeat>,
    pub flusher: HubFlusher,
}

/// The disk of an empty journal with areas of so many bytes.
pub fn new_disk(alloc: Global, area_bytes: u64) -> Option<MemDisk>
    requires { (4096 ≤ area_bytes) × (area_bytes ≤ 262144) }
{
    let mut disk = MemDisk::new(alloc, 32 + 2 * area_bytes).ok()?;
    match format(alloc, &mut disk, area_bytes) {
        Ok(()) => Some(disk),
        Err(_) => None,
    }
}

/// The party with so many seats at an empty journal with areas of so many bytes.
pub fn new_party(alloc: Global, area_bytes: u64, count: usize) -> Option<Party>
    requires { (4096 ≤ area_bytes) × (area_bytes ≤ 262144) × (count ≤ 64) }
    ensures together { IfSome result (λ party. AreTogether count party.hub party.seats.items party.flusher) }
    ensures executed { IfSome result (λ party. party.flusher.executed ≡ party.flusher.stored) }
{
    match new_disk(alloc, area_bytes) {
        Some(disk) => party_over(alloc, disk, count),
        None => None,
    }
}

/// The party with so many seats at the journal of that disk.
pub fn party_over(alloc: Global, disk: MemDisk, count: usize) -> Option<Party>
    requires { count ≤ 64 }
    ensures together { IfSome result (λ party. AreTogether count party.hub party.seats.items party.flusher) }
    ensures executed { IfSome result (λ party. party.flusher.executed ≡ party.flusher.stored) }
{
    let Ok(seats) = Vec::with_capacity(alloc, count) else {
        drop(disk);
        return None;
    };
    match Hub::open(alloc, disk) {
        Ok(hub) => Some(handed_out(hub, seats, count)),
        Err(refused) => {
            drop(refused);
            drop(seats);
            None
        }
    }
}

fn handed_out(hub: MemHub, seats: Vec<HubSeat>, count: usize) -> Party
    requires whole { (f : Flushed _) × IsWhole hub f }
    requires room { (seats.items ≡ []) × (count ≤ vec_capacity seats) × (count ≤ 64) }
    ensures together { AreTogether count result.hub result.seats.items result.flusher }
    ensures executed { result.flusher.executed ≡ result.flusher.stored }
{
    let (mut hub, mut seats) = (hub, seats);
    let flusher = hub.flusher().unwrap();
    take_seats(&mut hub, &mut seats, count);
    Party {
        hub,
        seats,
        flusher,
    }
}

// Takes the next seats into room that is there.
fn take_seats(hub: &mut MemHub, seats: &mut Vec<HubSeat>, count: usize)
    requires enough { count ≤ length hub.old.seats }
    requires room { (seats.old.items ≡ []) × (count ≤ vec_capacity seats.old) }
    ensures count { length seats.new.items ≡ count }
    ensures left { count + length hub.new.seats ≡ length hub.old.seats }
    ensures at { AreAt hub.old.ring seats.new.items }
    ensures same { hub.new.ring ≡ hub.old.ring }
{
    for _taken in 0..count {
        take_seat(hub, seats);
    }
}

fn take_seat(hub: &mut MemHub, seats: &mut Vec<HubSeat>)
    requires some { 0 < length hub.old.seats }
    requires room { vec_len seats.old < vec_capacity seats.old }
    ensures left { length hub.new.seats + 1 ≡ length hub.old.seats }
    ensures count { length seats.new.items ≡ length seats.old.items + 1 }
    ensures at { AreAt hub.old.ring seats.old.items → AreAt hub.old.ring seats.new.items }
    ensures same { (hub.new.ring ≡ hub.old.ring) × (vec_capacity seats.new ≡ vec_capacity seats.old) }
{
    seats.push_reserved(hub.seat().unwrap());
}

/// Ends the hub of a party. What is promised of the world shown, with the disk in memory for its disk, is known then.
pub fn close(party: Party) -> Option<Closed<MemDisk>>
    requires { AreTogether (length party.seats.items) party.hub party.seats.items party.flusher }
    ensures holds { IfSome result (λ closed. (history : List CommandValue)
        × Holds (shown history (party.hub.seats ++ party.seats.items) party.flusher
        (record { size = party.flusher.size; content = closed.disk.content; held = closed.disk.held }))) }
{
    let Party {
        hub,
        seats,
        flusher,
    } = party;
    match hub.close(seats, flusher) {
        Ok(closed) => Some(closed),
        Err(_) => None,
    }
}

/// The number behind all commands that a disk stands for.
pub fn next_over(alloc: Global, disk: MemDisk) -> Option<u64> {
    match party_over(alloc, disk, 0) {
        Some(party) => {
            let next = party.flusher.next();
            drop(close(party));
            Some(next)
        }
        None => None,
    }
}

/// Its numbers: the first, the next, the one after those taken, and the mark.
pub fn numbers(closed: &Closed<MemDisk>) -> [u64; 4] {
    [closed.base, closed.claimed, closed.taken, closed.mark]
}

/// A link whose messages are these texts.
pub fn link_of(alloc: Global, texts: &[&[u8]]) -> Option<MemLink> {
    link_of_rounds(alloc, texts, &[], 0)
}

/// A link whose messages are these texts, and behind them those of a round, so many times.
pub fn link_of_rounds(
    alloc: Global,
    texts: &[&[u8]],
    round: &[&[u8]],
    rounds: u32,
) -> Option<MemLink> {
    let mut messages = Vec::new(alloc);
    match push_rounds(alloc, &mut messages, texts, round, rounds) {
        Ok(()) => Some(MemLink::new(alloc, messages)),
        Err(_) => None,
    }
}

fn push_rounds(
    alloc: Global,
    messages: &mut Vec<Vec<u8>>,
    texts: &[&[u8]],
    round: &[&[u8]],
    rounds: u32,
) -> Result<(), AllocError> {
    push_all(alloc, messages, texts)?;
    for _ in 0..rounds {
        push_all(alloc, messages, round)?;
    }
    Ok(())
}

fn push_all(alloc: Global, messages: &mut Vec<Vec<u8>>, texts: &[&[u8]]) -> Result<(), AllocError> {
    for text in texts {
        push_text(alloc, messages, text)?;
    }
    Ok(())
}

fn push_text(alloc: Global, messages: &mut Vec<Vec<u8>>, text: &[u8]) -> Result<(), AllocError> {
    messages.reserve(1)?;
    messages.push_reserved(Vec::from_slice(alloc, text)?);
    Ok(())
}

/// Whether each message is the text in its place.
pub fn is_front(sent: &[Vec<u8>], texts: &[&[u8]]) -> bool {
    sent.len() <= texts.len()
        && sent
            .iter()
            .zip(texts)
            .all(|(message, text)| message.as_slice() == *text)
}

/// How often memory is refused to a worker: for the bell of an outbox, for a send, for an ERROR that is told at once, and for
/// the close.
#[derive(Clone, Copy)]
pub struct Shortage {
    pub bells: u64,
    pub sends: u64,
    pub errors: u64,
    pub ends: u64,
}

impl Shortage {
    /// Whether it is refused at all.
    pub fn is_any(self) -> bool {
        self.bells != 0 || self.sends != 0 || self.errors != 0 || self.ends != 0
    }
}

// Whether it is refused this time.
fn is_refused(left: &Cell<u64>) -> bool {
    let now = left.get();
    left.set(now.saturating_sub(1));
    now != 0
}

/// Bells that do nothing, and are refused at first.
#[derive(Drop)]
pub struct Scarce {
    pub left: Cell<u64>,
}

impl Wakers<Silent> for Scarce {
    fn bell(&self) -> Result<Silent, AllocError> {
        if is_refused(&self.left) {
            return Err(AllocError);
        }
        Ok(Silent)
    }
}

/// A link in memory that keeps the code with which it is closed. Behind its messages nothing comes, or its peer has closed;
/// where it breaks it is gone at the first send. At first it refuses sends, ERRORs and its close for want of memory.
#[derive(Drop)]
pub struct ScriptedLink {
    pub link: MemLink,
    pub closes: bool,
    pub breaks: bool,
    pub code: Option<u16>,
    pub short_sends: Cell<u64>,
    pub short_errors: Cell<u64>,
    pub short_ends: Cell<u64>,
}

impl Outgoing for ScriptedLink {
    fn send(&mut self, alloc: Global, released: &Released) -> Result<(), LinkFault> {
        if self.breaks {
            return Err(LinkFault::Gone);
        }
        if is_refused(&self.short_sends) {
            return Err(LinkFault::Memory);
        }
        self.link.send(alloc, released)
    }

    fn flush(&mut self) -> Result<bool, LinkFault> {
        self.link.flush()
    }

    fn waits(&self) -> bool {
        false
    }
}

impl Link for ScriptedLink {
    fn receive(&mut self, alloc: Global) -> Received {
        match self.link.receive(alloc) {
            Received::Nothing => if self.closes {
                Received::Closed
            } else {
                Received::Nothing
            },
            received => received,
        }
    }

    fn send_direct(&mut self, alloc: Global, notice: &Notice) -> Result<(), LinkFault> {
        if is_refused(&self.short_errors) {
            return Err(LinkFault::Memory);
        }
        self.link.send_direct(alloc, notice)
    }

    fn ping(&mut self) -> Result<(), LinkFault> {
        self.link.ping()
    }

    fn held(&self) -> u64 {
        0
    }

    fn end(&mut self, reason: CloseReason) -> Result<(), LinkFault> {
        if is_refused(&self.short_ends) {
            return Err(LinkFault::Memory);
        }
        self.code = Some(reason.code());
        self.link.end(reason)
    }
}

/// A link whose reader never ends: behind the messages of the one below each read gives these bytes.
#[derive(Drop)]
pub struct Endless {
    pub link: MemLink,
    pub bytes: &'static [u8],
}

impl Outgoing for Endless {
    fn send(&mut self, alloc: Global, released: &Released) -> Result<(), LinkFault> {
        self.link.send(alloc, released)
    }

    fn flush(&mut self) -> Result<bool, LinkFault> {
        self.link.flush()
    }

    fn waits(&self) -> bool {
        self.link.waits()
    }
}

impl Link for Endless {
    fn receive(&mut self, alloc: Global) -> Received {
        match self.link.receive(alloc) {
            Received::Nothing => match Vec::from_slice(alloc, self.bytes) {
                Ok(bytes) => Received::Bytes(bytes),
                Err(_) => Received::Closed,
            },
            received => received,
        }
    }

    fn send_direct(&mut self, alloc: Global, notice: &Notice) -> Result<(), LinkFault> {
        self.link.send_direct(alloc, notice)
    }

    fn ping(&mut self) -> Result<(), LinkFault> {
        self.link.ping()
    }

    fn held(&self) -> u64 {
        0
    }

    fn end(&mut self, reason: CloseReason) -> Result<(), LinkFault> {
        self.link.end(reason)
    }
}

/// Lets each turn pass.
#[derive(Drop)]
pub struct Free;

impl Gate for Free {
    fn pass(&self, _worker: u32, _turn: u64) -> bool {
        true
    }
}

/// Lets no turn pass.
#[derive(Drop)]
pub struct Shut;

impl Gate for Shut {
    fn pass(&self, _worker: u32, _turn: u64) -> bool {
        false
    }
}

/// Lets each turn pass after a millisecond.
#[derive(Clone, Copy)]
pub struct Pause<'a, R> {
    pub rt: &'a R,
}

impl<R: Clock> Gate for Pause<'_, R> {
    fn pass(&self, _worker: u32, _turn: u64) -> bool {
        thread::sleep(self.rt, Duration::from_millis(1));
        true
    }
}

/// Holds up worker 0 until it is opened. Each turn sleeps a millisecond; once it is closed for the flusher that turns no more.
#[derive(Drop)]
pub struct Turnstile<'a, R> {
    pub rt: &'a R,
    pub opened: AtomicBool,
    pub finished: AtomicBool,
}

impl<R: Clock> Gate for Turnstile<'_, R> {
    fn pass(&self, worker: u32, _turn: u64) -> bool {
        if self.finished.load(Ordering::SeqCst) {
            return false;
        }
        thread::sleep(self.rt, Duration::from_millis(1));
        worker != 0 || self.opened.load(Ordering::SeqCst)
    }
}

/// The pace of worker 0 and of a flusher, which notes what it hears. Each turn sleeps a millisecond. The flusher is held up
/// until it is let go, or the worker has found its window full, or awaits a mark, or has ended; then that one turns no more. A
/// worker whose window is full is held up until the mark has risen, or will rise no more.
#[derive(Drop)]
pub struct Noting<'a, R> {
    rt: &'a R,
    row: &'a Row,
    waits: AtomicBool,
    flushes: AtomicBool,
    ended: AtomicBool,
    appended: AtomicBool,
    full: AtomicBool,
    stopped: AtomicBool,
    short: AtomicBool,
    mark: AtomicU64,
    begun: AtomicBool,
    beside: AtomicBool,
}

impl<'a, R> Noting<'a, R> {
    /// That of a row.
    pub fn new(rt: &'a R, row: &'a Row) -> Noting<'a, R> {
        Noting {
            rt,
            row,
            waits: AtomicBool::new(false),
            flushes: AtomicBool::new(row.flushes),
            ended: AtomicBool::new(false),
            appended: AtomicBool::new(false),
            full: AtomicBool::new(false),
            stopped: AtomicBool::new(false),
            short: AtomicBool::new(false),
            mark: AtomicU64::new(0),
            begun: AtomicBool::new(false),
            beside: AtomicBool::new(false),
        }
    }

    /// The worker has ended.
    pub fn end(&self) {
        self.ended.store(true, Ordering::SeqCst);
    }

    /// Whether it heard that commands were appended, that the window was full, and that the flusher has stopped; and the mark
    /// that it heard of last.
    pub fn heard(&self) -> ([bool; 3], u64) {
        let appended = self.appended.load(Ordering::SeqCst);
        let full = self.full.load(Ordering::SeqCst);
        let stopped = self.stopped.load(Ordering::SeqCst);
        ([appended, full, stopped], self.mark.load(Ordering::SeqCst))
    }

    /// Whether the flusher had a turn once the worker had begun. Where no thread can be made, the worker begins behind all turns of the
    /// flusher.
    pub fn was_beside(&self) -> bool {
        self.beside.load(Ordering::SeqCst)
    }

    /// Whether it heard that memory was refused.
    pub fn was_short(&self) -> bool {
        self.short.load(Ordering::SeqCst)
    }
}

impl<R: Clock> Noting<'_, R> {
    // Lets the flusher go, waits for the mark, for ten seconds at most, and holds the flusher up again where that is asked for.
    fn await_mark(&self, awaited: Awaited) {
        self.flushes.store(true, Ordering::SeqCst);
        for _ in 0..10_000u32 {
            if self.mark.load(Ordering::SeqCst) >= awaited.mark {
                self.flushes.store(!awaited.holds, Ordering::SeqCst);
                return;
            }
            thread::sleep(self.rt, Duration::from_millis(1));
        }
    }

    // Whether the flusher's turn is taken.
    fn lets_flush(&self) -> bool {
        if self.ended.load(Ordering::SeqCst) {
            return true;
        }
        thread::sleep(self.rt, Duration::from_millis(1));
        if self.begun.load(Ordering::SeqCst) {
            self.beside.store(true, Ordering::SeqCst);
        }
        self.flushes.load(Ordering::SeqCst)
    }
}

impl<R: Clock> Gate for Noting<'_, R> {
    fn pass(&self, worker: u32, turn: u64) -> bool {
        if worker == u32::MAX {
            return self.lets_flush();
        }
        self.begun.store(true, Ordering::SeqCst);
        if self.ended.load(Ordering::SeqCst) {
            return false;
        }
        thread::sleep(self.rt, Duration::from_millis(1));
        match self.row.awaits {
            Some(awaited) if worker == 0 && turn == awaited.turn => self.await_mark(awaited),
            _ => {}
        }
        worker == 0 && !self.row.shut && !self.waits.load(Ordering::SeqCst)
    }

    fn appended(&self, _worker: u32) {
        self.appended.store(true, Ordering::SeqCst);
    }

    fn wait_for_mark(&self, _worker: u32, mark: u64) {
        self.full.store(true, Ordering::SeqCst);
        self.waits.store(true, Ordering::SeqCst);
        self.flushes.store(true, Ordering::SeqCst);
        // What it waits for may have been heard before.
        if self.mark.load(Ordering::SeqCst) > mark || self.stopped.load(Ordering::SeqCst) {
            self.waits.store(false, Ordering::SeqCst);
        }
    }

    fn wait_for_memory(&self, _worker: u32) {
        self.short.store(true, Ordering::SeqCst);
    }

    fn published(&self, mark: u64) {
        self.mark.store(mark, Ordering::SeqCst);
        self.waits.store(false, Ordering::SeqCst);
    }

    fn stopped(&self) {
        self.stopped.store(true, Ordering::SeqCst);
        self.waits.store(false, Ordering::SeqCst);
    }
}

/// A text in parts, each so many times.
pub type Parts = &'static [(&'static str, usize)];

fn put_times(text: &mut Vec<u8>, part: &str, times: usize) -> Result<(), AllocError> {
    for _ in 0..times {
        text.extend_from_slice(part.as_bytes())?;
    }
    Ok(())
}

/// Adds the text of the parts.
pub fn put_parts(text: &mut Vec<u8>, parts: Parts) -> Result<(), AllocError> {
    for (part, times) in parts {
        put_times(text, part, *times)?;
    }
    Ok(())
}
