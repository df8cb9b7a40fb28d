//! A server: how its threads begin, serve and end.

ghost use Rattle.std.specs.Prelude.{◌≡◌, ◌≢◌, ◌+◌, [], true, length, IfErr, IfOk, OnErr, OnOk, ◌<◌, ◌≤◌, vec_capacity, vec_len, IfSome, ◌↔◌, IsTrue};
ghost use Rattle.std.specs.Arc.{arc_value};
ghost use Rattle.std.specs.Io.KnownBytes.{Appends};
ghost use Rattle.disk_core.specs.File.{file_cause};
ghost use Rattle.event_log.specs.Faults.{IsNotStarted};
ghost use Rattle.atomic_table.specs.Seated.{TableId};
ghost use Rattle.claim_core.specs.declared.limits.TheConstants.{SEATS};
ghost use Rattle.server_core.specs.Serving.{AreAt, HasEnded, IsReady, IsNewHub, IsOpened, IsEnd, announced, failed, unopened, AreAllAt, IsClosed, IsStaffed, count_mailboxes};
ghost use Rattle.server_core.specs.Farewells.{HasParted};

use crate::acceptor::Acceptor;
use crate::descriptors::{clients_within, descriptors_allowed};
use crate::entrance::{Entrance, Reception, mailboxes_again};
use crate::fittings::{ServerRing, ServerSeat, Shared, share};
use crate::last_rounds::LastRounds;
use crate::looks::Looks;
use crate::reporter::Reporter;
use crate::worker::{Worker, WorkerSetup, WorkerThread, start};
use claim_core::SEATS;
use clients::SESSION_BYTES;
use disk_core::{Disk, FileAt, FileDisk, OpenError};
use engine_core::{Closed, Gate, HELD_BYTES, Hub, HubFlusher, SeatRoom, compact_last, flush_loop};
use event_log::{Event, Form, ServeFault, Start};
use flush_core::FlushFault;
use recover_core::OpenFault;
use std::alloc::{AllocError, Global};
use std::fs::{File, Files};
use std::io::{ErrorKind, Write};
use std::marker::Model;
use std::net::{Net, TcpListener, TcpStream};
use std::sync::{Arc, Wait};
use std::thread;
use std::thread::{Threads, join_promised};
use std::time::Clock;
use wakeups::{ClientWaker, Ending, LogThread};

/// How many clients a server takes at a time.
pub const MOST_CLIENTS: u64 = 16_384;

/// How many bytes its clients may hold together, by default.
pub const MOST_MEMORY: u64 = 1_073_741_824;

/// For how many milliseconds a worker waits at most, once the server ends, for clients to take what is theirs and to close.
const LONGEST_FAREWELL: u64 = 2_000;

pub(crate) type ServerHub = Hub<FileDisk, ClientWaker>;

pub(crate) type ServerFlusher = HubFlusher<FileDisk, ClientWaker>;

/// Why a server serves no more.
#[derive(Debug, Drop)]
pub enum ServeEnd {
    /// It was asked to end, and its ring is stopped. What was claimed by then is stored, as tests show.
    Asked,
    /// A fault.
    Fault(ServeFault),
}

/// A server whose journal and port are open. It is the flusher, and has the seats of its workers until they are started.
#[derive(Drop)]
pub struct Server<R: Drop> {
    pub(crate) shared: Arc<Shared<R>>,
    pub(crate) port: u16,
    pub(crate) acceptor: Arc<Acceptor<R>>,
    pub(crate) seats: Vec<ServerSeat>,
    // One for each worker that was not started, with as many desks as there are seats.
    pub(crate) setups: Vec<WorkerSetup>,
    // Where the seats of workers that have ended come back to.
    pub(crate) room: SeatRoom<ClientWaker>,
    pub(crate) flusher: ServerFlusher,
    pub(crate) workers: Vec<WorkerThread>,
}

impl<R: Drop> Model for Server<R> {
    ghost use Rattle.std.specs.Arc.{arc_value};
    ghost use Rattle.server_core.specs.Serving.{KeepsServer, ServerValue, server};

    ghost Value = { ServerValue };

    ghost view = { λ a. server a.port (arc_value a.shared).ring a.seats.items a.flusher };

    ghost invariant = { λ a. KeepsServer (server a.port (arc_value a.shared).ring a.seats.items a.flusher) a.setups.items a.room a.workers.items };
}

impl<R> Server<R>
where
    R: Files<File = File> + Net<Listener = TcpListener, Stream = TcpStream> + Wait + Clone + Drop,
{
    /// Opens the port at 127.0.0.1, and then the journal in the file `at` a path, whose lock the server has from then on until its flusher is gone. It
    /// takes as many clients at a time as `reception` has, or as the process may have descriptors for, if these are fewer. `Port` if the
    /// port can't be opened, `Threads` if the system refuses what workers wait on, and `Memory` if memory is refused. `File` if the file
    /// can't be opened, or another server has its lock: then nothing of it is read or written. `Opening` if the journal is refused: what
    /// opening a journal leaves is stated there. A refusal keeps no lock.
    pub fn open(
        alloc: Global,
        rt: &R,
        at: FileAt<'_>,
        port: u16,
        reception: Reception,
    ) -> Result<Server<R>, ServeFault>
        ensures { IfOk result (IsOpened port) }
    {
        let mut reception = reception;
        let limit = descriptors_allowed(alloc, rt);
        reception.most_clients = clients_within(limit, reception.most_clients);
        match Entrance::open(alloc, rt, port, reception) {
            Ok(entrance) => Server::behind(alloc, rt, at, entrance),
            Err(fault) => Err(fault),
        }
    }

    // A server that is entered there.
    fn behind(
        alloc: Global,
        rt: &R,
        at: FileAt<'_>,
        entrance: Entrance,
    ) -> Result<Server<R>, ServeFault>
        ensures { IfOk result (IsOpened entrance.port) }
    {
        match open_hub(alloc, at) {
            Ok(hub) => Server::over(alloc, rt, hub, entrance),
            Err(fault) => {
                drop(entrance);
                Err(fault)
            }
        }
    }
}

impl<R: Wait + Clone + Drop> Server<R> {
    // The same, over a hub that was just opened.
    fn over(
        alloc: Global,
        rt: &R,
        hub: ServerHub,
        entrance: Entrance,
    ) -> Result<Server<R>, ServeFault>
        requires { IsNewHub hub }
        ensures { IfOk result (IsOpened entrance.port) }
    {
        let mut hub = hub;
        let mut seats = Vec::new(alloc);
        match add_seats(&mut seats, &mut hub) {
            Ok(()) => {}
            Err(fault) => {
                drop(seats);
                drop(hub);
                drop(entrance);
                return Err(fault);
            }
        }
        let mut flusher = hub.flusher().unwrap();
        let (ring, room) = hub.into_ring();
        let port = entrance.port;
        match share(alloc, rt, ring, entrance, &mut flusher) {
            Ok((shared, acceptor, setups)) => Ok(Server {
                shared,
                port,
                acceptor,
                seats,
                setups,
                room,
                flusher,
                workers: Vec::new(alloc),
            }),
            Err(fault) => {
                drop(seats);
                drop(room);
                drop(flusher);
                Err(fault)
            }
        }
    }
}

impl<R: Wait + Clock + Drop> Server<R> {
    /// Writes `listening` and the port, and flushes until the server is asked to end, or a step fails: then the flusher is broken. The
    /// ring is stopped in both cases, and nothing more is acknowledged. `Output` if the line can't be written: then nothing has changed.
    pub fn run<W: Write>(&mut self, alloc: Global, writer: &mut W) -> ServeEnd
        ensures end { IsEnd self.old self.new result }
        ensures written { result ≢ ServeEnd.Fault ServeFault.Output → Appends (W.contents writer.old) (W.contents writer.new) (announced self.old.port) }
    {
        let port = self.port;
        if writeln!(writer, "listening {port}").is_err() || writer.flush().is_err() {
            return ServeEnd::Fault(ServeFault::Output);
        }
        self.report_start();
        let mut looks = Looks::new();
        match flush(alloc, &self.shared, &mut self.flusher, &mut looks) {
            Ok(()) => ServeEnd::Asked,
            Err(FlushFault::Device) => {
                let cause = looks.cause(self.flusher.disk().cause());
                ServeEnd::Fault(ServeFault::Device(cause))
            }
            Err(fault) => ServeEnd::Fault(ServeFault::Flushing(fault)),
        }
    }

    // Reports to the operator what the server starts with, and whether its journal may be too small.
    fn report_start(&self) {
        let clients = self.acceptor.most_clients();
        let area = self.flusher.size();
        let start = Start {
            area,
            messages: self.flusher.broker().held().messages,
            clients,
            memory: self.shared.memory.budget(),
        };
        let (log, rt) = (self.shared.wakeups.log(), &self.shared.rt);
        log.note(rt, Event::Started(start));
        let needed = clients
            .max(SEATS as u64)
            .saturating_mul(SESSION_BYTES)
            .saturating_add(HELD_BYTES);
        if area < needed {
            log.note(rt, Event::Small { area, needed });
        }
    }

    /// What asks the server to end, in good order. `Memory` if memory is refused.
    pub fn ender(&self) -> Result<Ender, ServeFault>
        ensures { IfErr result (λ fault. fault ≡ ServeFault.Memory) }
    {
        match self.shared.wakeups.ending() {
            Ok(ending) => Ok(Ender { ending }),
            Err(_) => Err(ServeFault::Memory),
        }
    }
}

/// Asks a server to end in good order: what is claimed is stored, and clients are notified.
#[derive(Drop)]
pub struct Ender {
    ending: Arc<Ending>,
}

impl Ender {
    /// Asks it.
    pub fn ask(&self) {
        self.ending.ask();
    }
}

// The hub over the journal in a file, whose lock its disk has.
fn open_hub(alloc: Global, at: FileAt<'_>) -> Result<ServerHub, ServeFault>
    ensures { IfOk result IsNewHub }
{
    let disk = match FileDisk::open_locked(alloc, at) {
        Ok(disk) => disk,
        Err(error) => return Err(unopened_file(error)),
    };
    match Hub::open(alloc, disk) {
        Ok(hub) => Ok(hub),
        Err((disk, fault)) => Err(unopened(&disk, fault)),
    }
}

// Why a file was not opened.
fn unopened_file(error: OpenError) -> ServeFault {
    match &error {
        OpenError::System(error) if error.kind() == ErrorKind::OutOfMemory => ServeFault::Memory,
        _ => ServeFault::File(error),
    }
}

// Why a journal was not opened; of a disk that failed, its cause.
fn unopened(disk: &FileDisk, fault: OpenFault) -> ServeFault
    ensures { result ≡ unopened (file_cause disk.now) fault }
{
    match disk.cause() {
        Some(cause) => ServeFault::Device(cause),
        None => ServeFault::Opening(fault),
    }
}

// Adds all seats of a hub, the first one first.
fn add_seats(seats: &mut Vec<ServerSeat>, hub: &mut ServerHub) -> Result<(), ServeFault>
    requires all { length hub.old.seats ≡ SEATS }
    ensures rest { hub.new ≡ record hub.old { seats = hub.new.seats } }
    ensures count { OnOk result (length seats.new.items ≡ length seats.old.items + SEATS) }
    ensures none { OnOk result (hub.new.seats ≡ []) }
    ensures seats { AreAt hub.old.ring seats.old.items → OnOk result (AreAt hub.old.ring seats.new.items) }
{
    for _seat in 0..SEATS {
        match add_seat(seats, hub) {
            Ok(()) => {}
            Err(fault) => return Err(fault),
        }
    }
    Ok(())
}

// Adds the hub's next seat, if there is one.
fn add_seat(seats: &mut Vec<ServerSeat>, hub: &mut ServerHub) -> Result<(), ServeFault>
    ensures rest { hub.new ≡ record hub.old { seats = hub.new.seats } }
    ensures count { hub.old.seats ≢ [] → OnOk result ((length seats.new.items ≡ length seats.old.items + 1) × (length hub.old.seats ≡ length hub.new.seats + 1)) }
    ensures seats { AreAt hub.old.ring seats.old.items → OnOk result (AreAt hub.old.ring seats.new.items) }
{
    let Some(seat) = hub.seat() else {
        return Ok(());
    };
    match seats.push(seat) {
        Ok(()) => Ok(()),
        Err(_) => Err(ServeFault::Memory),
    }
}

// Flushes until the server was asked to end and nothing that was claimed is left, and then stops the ring; or until a step or a look fails.
fn flush<R: Wait + Clock + Drop>(
    alloc: Global,
    shared: &Shared<R>,
    flusher: &mut ServerFlusher,
    looks: &mut Looks,
) -> Result<(), FlushFault>
    requires { IsReady shared.now.ring flusher.old }
    ensures ends { HasEnded shared.now.ring flusher.old flusher.new }
    ensures fails { IfErr result (λ _. flusher.new.broken ≡ true) }
{
    let mut last = LastRounds::new();
    let mut reporter = Reporter::new(alloc, shared.moment());
    for _round in shared.rt.forever() {
        match flush_once(alloc, shared, flusher, looks) {
            Ok(mark) if is_last(shared, &mut last, mark) => {
                drop(reporter);
                return flush_last(alloc, shared, flusher);
            }
            Ok(mark) => reporter.report(alloc, shared, flusher, mark),
            Err(fault) => {
                drop(reporter);
                return Err(fault);
            }
        }
    }
    unreachable!()
}

// Looks at the journal's file if that is due, and makes a turn. Answers the mark.
fn flush_once<R: Wait + Clock + Drop>(
    alloc: Global,
    shared: &Shared<R>,
    flusher: &mut ServerFlusher,
    looks: &mut Looks,
) -> Result<u64, FlushFault>
    requires { IsReady shared.now.ring flusher.old }
    ensures ready { IsReady shared.now.ring flusher.new }
    ensures seats { flusher.new.seat.seats ≡ flusher.old.seat.seats }
    ensures stops { OnErr result ((flusher.new.broken ≡ true) × (flusher.new.seat.stopped ≡ true)) }
{
    look_if_due(shared, flusher, looks)?;
    flush_loop(alloc, &shared.ring, flusher, &shared.wakeups, 1)
}

// Looks at the journal's file, if that is due. If it is lost, the flusher has failed, and the workers are woken.
fn look_if_due<R: Wait + Clock + Drop>(
    shared: &Shared<R>,
    flusher: &mut ServerFlusher,
    looks: &mut Looks,
) -> Result<(), FlushFault>
    requires { flusher.old.seat.ring ≡ shared.now.ring }
    ensures ok { OnOk result (flusher.new ≡ flusher.old) }
    ensures err { OnErr result (flusher.new ≡ failed flusher.old) }
{
    if !looks.is_due(shared.moment()) {
        return Ok(());
    }
    match flusher.disk().look() {
        Ok(()) => Ok(()),
        Err(cause) => {
            looks.note(cause);
            flusher.fail(&shared.ring);
            shared.wakeups.stopped();
            Err(FlushFault::Device)
        }
    }
}

// Compacts what is worth it before the server ends, and stops the ring.
fn flush_last<R: Wait + Clock + Drop>(
    alloc: Global,
    shared: &Shared<R>,
    flusher: &mut ServerFlusher,
) -> Result<(), FlushFault>
    requires { IsReady shared.now.ring flusher.old }
    ensures ends { HasEnded shared.now.ring flusher.old flusher.new }
    ensures fails { IfErr result (λ _. flusher.new.broken ≡ true) }
{
    shared.wakeups.log().note(&shared.rt, Event::Ending);
    let compacted = compact_last(alloc, &shared.ring, flusher);
    flusher.stop(&shared.ring);
    compacted
}

// Whether the server was asked to end, and all that was claimed by then is published.
fn is_last<R>(shared: &Shared<R>, last: &mut LastRounds, mark: u64) -> bool {
    let (is_asked, took) = (shared.wakeups.is_asked_to_end(), shared.wakeups.has_taken());
    last.is_last(is_asked, mark, took)
}

impl<R> Server<R>
where
    R: Threads + Wait + Clock + Clone + Drop + Send + Sync + 'static,
{
    /// Starts all workers, each in a thread of its own, with all seats, and a thread that accepts clients and hands them to workers.
    /// `Threads` if the system starts no more, and `Memory` if memory is refused: those that were started go on.
    pub fn start_workers(&mut self, rt: &R, alloc: Global) -> Result<(), ServeFault>
        ensures all { OnOk result (self.new.seats ≡ []) }
        ensures same { self.new ≡ record self.old { seats = self.new.seats } }
        ensures refused { IfErr result IsNotStarted }
    {
        start_all(
            rt,
            alloc,
            &self.shared,
            &mut self.seats,
            &mut self.setups,
            &mut self.workers,
        )?;
        self.start_accepting(rt)
    }

    // Starts the thread that accepts clients.
    fn start_accepting(&self, rt: &R) -> Result<(), ServeFault>
        ensures { IfErr result IsNotStarted }
    {
        let acceptor = self.acceptor.clone().map_err(|_| ServeFault::Memory)?;
        match thread::spawn(rt, move || acceptor.accept_all()) {
            Ok(_) => Ok(()),
            Err(_) => Err(ServeFault::Threads),
        }
    }

    /// Starts the thread that reports to an operator what happens, a line each in that form, and first what the server starts with. No other
    /// thread waits for it. If the writer takes nothing, up to 64 lines wait, and more are left out and counted. `Threads` if the system starts no
    /// more, and `Memory` if memory is refused: then nothing was written.
    pub fn start_log_thread<W: Write + Drop + Send + 'static>(
        &self,
        rt: &R,
        alloc: Global,
        form: Form,
        writer: W,
    ) -> Result<(), ServeFault>
        ensures { IfErr result IsNotStarted }
    {
        let log: Result<Arc<LogThread>, AllocError> = self.shared.wakeups.log().clone();
        let mailboxes = mailboxes_again(alloc, self.acceptor.mailboxes());
        let its: Result<R, AllocError> = rt.clone();
        let (Ok(log), Ok(mailboxes), Ok(its)) = (log, mailboxes, its) else {
            drop(writer);
            return Err(ServeFault::Memory);
        };
        let mut writer = writer;
        match thread::spawn(rt, move || {
            log.run(alloc, &its, form, mailboxes.as_slice(), &mut writer)
        }) {
            Ok(_) => Ok(()),
            Err(_) => Err(ServeFault::Threads),
        }
    }
}

// Starts a worker for each setup.
fn start_all<R>(
    rt: &R,
    alloc: Global,
    shared: &Arc<Shared<R>>,
    seats: &mut Vec<ServerSeat>,
    setups: &mut Vec<WorkerSetup>,
    workers: &mut Vec<WorkerThread>,
) -> Result<(), ServeFault>
where
    R: Threads + Wait + Clock + Clone + Drop + Send + Sync + 'static,
    requires staffed { IsStaffed (arc_value shared.now).ring seats.old.items setups.old.items workers.old.items }
    ensures all { OnOk result (seats.new.items ≡ []) }
    ensures count { OnOk result (length workers.new.items ≡ length workers.old.items + length setups.old.items) }
    ensures staffed { IsStaffed (arc_value shared.now).ring seats.new.items setups.new.items workers.new.items }
    ensures refused { IfErr result IsNotStarted }
{
    for _worker in 0..setups.len() {
        start_one(rt, alloc, shared, seats, setups, workers)?;
    }
    Ok(())
}

// Starts the worker of the last setup, with a seat for each of its desks. A refusal loses these seats, or changes nothing.
fn start_one<R>(
    rt: &R,
    alloc: Global,
    shared: &Arc<Shared<R>>,
    seats: &mut Vec<ServerSeat>,
    setups: &mut Vec<WorkerSetup>,
    workers: &mut Vec<WorkerThread>,
) -> Result<(), ServeFault>
where
    R: Threads + Wait + Clock + Clone + Drop + Send + Sync + 'static,
    requires some { setups.old.items ≢ [] }
    requires staffed { IsStaffed (arc_value shared.now).ring seats.old.items setups.old.items workers.old.items }
    ensures one { OnOk result (length setups.old.items ≡ length setups.new.items + 1) }
    ensures count { OnOk result (length workers.new.items ≡ length workers.old.items + 1) }
    ensures staffed { IsStaffed (arc_value shared.now).ring seats.new.items setups.new.items workers.new.items }
    ensures refused { IfErr result IsNotStarted }
{
    if workers.reserve(1).is_err() {
        return Err(ServeFault::Memory);
    }
    let Ok(shared) = shared.clone() else {
        return Err(ServeFault::Memory);
    };
    let Ok(room) = Vec::with_capacity(alloc, seats.len()) else {
        return Err(ServeFault::Memory);
    };
    let worker = last_worker(shared, room, seats, setups);
    match start(rt, alloc, worker) {
        Ok(thread) => {
            workers.push_reserved(thread);
            Ok(())
        }
        Err(fault) => Err(fault),
    }
}

// The worker of the last setup, with a seat for each of its desks, in room that is there.
fn last_worker<R>(
    shared: Arc<Shared<R>>,
    room: Vec<ServerSeat>,
    seats: &mut Vec<ServerSeat>,
    setups: &mut Vec<WorkerSetup>,
) -> Worker<R>
where
    R: Drop,
    requires some { setups.old.items ≢ [] }
    requires at { AreAt (arc_value shared).ring seats.old.items }
    requires desks { count_mailboxes setups.old.items ≡ length seats.old.items }
    requires room { (room.items ≡ []) × (length seats.old.items ≤ vec_capacity room) }
    ensures one { length setups.old.items ≡ length setups.new.items + 1 }
    ensures desks { count_mailboxes setups.new.items ≡ length seats.new.items }
    ensures at { AreAt (arc_value shared).ring seats.new.items }
    ensures ring { result.ring ≡ (arc_value shared).ring }
{
    let mut its = room;
    let setup = setups.pop().unwrap();
    move_last(seats, &mut its, setup.mailboxes.len());
    Worker {
        shared,
        seats: its,
        setup,
    }
}

// Moves the last `count` seats into room that is there.
fn move_last(seats: &mut Vec<ServerSeat>, its: &mut Vec<ServerSeat>, count: usize)
    requires enough { count ≤ length seats.old.items }
    requires room { (its.old.items ≡ []) × (count ≤ vec_capacity its.old) }
    ensures count { length seats.new.items + count ≡ length seats.old.items }
    ensures rest { (ring : TableId) → AreAt ring seats.old.items → AreAt ring seats.new.items }
    ensures moved { (ring : TableId) → AreAt ring seats.old.items → AreAt ring its.new.items }
{
    for _seat in 0..count {
        move_one(seats, its);
    }
}

// Moves the last seat into room that is there.
fn move_one(seats: &mut Vec<ServerSeat>, its: &mut Vec<ServerSeat>)
    requires some { seats.old.items ≢ [] }
    requires room { vec_len its.old < vec_capacity its.old }
    ensures count { length seats.old.items ≡ length seats.new.items + 1 }
    ensures more { vec_len its.new ≡ vec_len its.old + 1 }
    ensures room { vec_capacity its.new ≡ vec_capacity its.old }
    ensures rest { (ring : TableId) → AreAt ring seats.old.items → AreAt ring seats.new.items }
    ensures moved { (ring : TableId) → AreAt ring seats.old.items → AreAt ring its.old.items → AreAt ring its.new.items }
{
    let seat = seats.pop().unwrap();
    its.push_reserved(seat);
}

impl<R: Threads + Wait + Drop> Server<R> {
    /// Ends the server. Its workers notify their clients that the broker stops, for some seconds at most, and what the operator reads is
    /// written, if that takes less than half a second. Their seats come back to the hub, which is closed with them and the flusher. Then
    /// the disk goes, with its lock. `None` if memory was refused for that, or not all workers had started; the server has ended all the
    /// same.
    pub fn close(self, rt: &R) -> Option<Closed<FileDisk>>
        ensures { IfSome result (IsClosed ⟦<FileDisk as Disk>⟧.honest ⟦<FileDisk as Disk>⟧.images self.flusher) }
    {
        let Server {
            shared,
            port: _,
            acceptor,
            seats,
            setups,
            room,
            flusher,
            workers,
        } = self;
        shared.wakeups.end();
        shared.wakeups.log().await_written(rt);
        shared.wakeups.log().end();
        drop(acceptor);
        drop(setups);
        match join_promised(rt, workers) {
            Ok(back) => finish(shared, room, seats, back, flusher),
            Err(_) => {
                drop(shared);
                drop(seats);
                drop(room);
                drop(flusher);
                None
            }
        }
    }
}

// Closes the hub of a ring that nobody shares any more, if all seats have come back.
fn finish<R: Drop>(
    shared: Arc<Shared<R>>,
    room: SeatRoom<ClientWaker>,
    seats: Vec<ServerSeat>,
    back: Vec<Vec<ServerSeat>>,
    flusher: ServerFlusher,
) -> Option<Closed<FileDisk>>
    requires flusher { flusher.seat.ring ≡ (arc_value shared).ring }
    requires seats { AreAt (arc_value shared).ring seats.items }
    requires back { AreAllAt (arc_value shared).ring back.items }
    requires room { room.seats.items ≡ [] }
    requires all { flusher.seat.seats ≡ SEATS }
    ensures { IfSome result (IsClosed ⟦<FileDisk as Disk>⟧.honest ⟦<FileDisk as Disk>⟧.images flusher) }
{
    let mut all = seats;
    let joined = join_all(&mut all, back);
    match Shared::into_ring(shared) {
        Some(ring) if joined.is_ok() && all.len() == SEATS => close(ring, room, all, flusher),
        ring => {
            drop(ring);
            drop(room);
            drop(all);
            drop(flusher);
            None
        }
    }
}

// Adds the seats that have come back. If memory is refused, the rest is let go.
fn join_all(all: &mut Vec<ServerSeat>, back: Vec<Vec<ServerSeat>>) -> Result<(), AllocError>
    ensures { (ring : TableId) → AreAt ring all.old.items → AreAllAt ring back.items → AreAt ring all.new.items }
{
    for seats in back {
        let mut seats = seats;
        let joined = all.append(&mut seats);
        drop(seats);
        joined?;
    }
    Ok(())
}

fn close(
    ring: ServerRing,
    room: SeatRoom<ClientWaker>,
    seats: Vec<ServerSeat>,
    flusher: ServerFlusher,
) -> Option<Closed<FileDisk>>
    requires flusher { flusher.seat.ring ≡ ring }
    requires seats { AreAt ring seats.items }
    requires room { room.seats.items ≡ [] }
    requires all { length seats.items ≡ flusher.seat.seats }
    ensures { IfSome result (IsClosed ⟦<FileDisk as Disk>⟧.honest ⟦<FileDisk as Disk>⟧.images flusher) }
{
    let hub: ServerHub = Hub::again(ring, room);
    match hub.close(seats, flusher) {
        Ok(closed) => Some(closed),
        Err((disk, _)) => {
            drop(disk);
            None
        }
    }
}

/// Whether a worker that parts with its clients since then, or doesn't yet, has ended at this moment, by whether it has clients.
pub(crate) fn has_parted(since: Option<u64>, now: u64, has_clients: bool) -> bool
    ensures { IsTrue result ↔ HasParted since now has_clients }
{
    match since {
        Some(since) => !has_clients || now.saturating_sub(since) >= LONGEST_FAREWELL,
        None => false,
    }
}
