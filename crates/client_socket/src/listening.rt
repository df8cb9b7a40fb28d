//! Listening over one connection after another.

ghost use Rattle.std.specs.Prelude.{◌≡◌, ◌≤◌, ◌-◌, ◌↔◌, IfErr, IfSome, None, OnOk, ℕ, min, true};
ghost use Rattle.std.specs.Io.KnownBytes.{Appends};
ghost use Rattle.client_core.specs.Texts.{may_pass};
ghost use Rattle.client_socket.specs.Inputs.{again_line, held_line};
ghost use Rattle.client_core.specs.Talks.{IsOfPeer};
ghost use Rattle.std.specs.Duration.{as_nanos};
ghost use Rattle.client_socket.specs.Waits.{patience_from};

use crate::calls::{HOST, connect};
use crate::web_peer::{PATIENCE_SECONDS, WebPeer};
use client_core::{Address, Cause, ClientFault, Course, Listener, Peer, Plan, Printed, Step};
use frame_core::{Fed, FrameReader, Text, first};
use std::alloc::{AllocError, Global};
use std::collections::VecDeque;
use std::io::Write;
use std::net::{Net, TcpStream};
use std::random::RandomSource;
use std::time::{Clock, Duration, Instant};
use std::{io, thread};

/// How many seconds it pauses before it connects again.
pub const PAUSE_SECONDS: u64 = 1;

/// Where one listens, and what for, perhaps with a `client-id`.
#[derive(Clone, Copy)]
pub struct Ear<'a, R> {
    pub rt: &'a R,
    pub alloc: Global,
    pub address: Address<'a>,
    pub client: Option<&'a str>,
    pub plan: Plan<'a>,
}

/// Listens as the plan has it, and writes what comes. If the server goes once it listened, that is told to `errors`, and it connects
/// again each second, until the server is there. A durable name that another session has is waited for.
pub fn listen<R, W: Write, E: Write>(
    ear: &Ear<'_, R>,
    writer: &mut W,
    errors: &mut E,
) -> Result<(), ClientFault>
where
    R: Net<Stream = TcpStream> + Clock + RandomSource + Clone + Drop,
{
    let mut patience = match Patience::new(ear.rt, ear.plan.timeout) {
        Ok(patience) => patience,
        Err(cause) => return Err(unheard(cause)),
    };
    let mut course = Course::new(&ear.plan);
    let mut siege = Siege::new();
    let mut ids = Ids::new(ear.alloc, ear.plan.count);
    for _connection in 0..u64::MAX {
        let (count, ended) = listen_once(ear, course.left, &mut patience, &mut ids, writer);
        let Err(fault) = ended else {
            course = course.after(count, Step::Close);
            if course.left == 0 {
                return Ok(());
            }
            // Some came a second time, after a connection was lost: they don't count.
            continue;
        };
        course = course.after(count, fault.step);
        if !siege.goes_on(ear.rt, &fault, errors) {
            if !course.goes_on(&fault) {
                return Err(fault);
            }
            if fault.step.is_of_session() {
                drop(tell_again(&fault, errors));
            }
        }
        drop(fault);
        if let Err(cause) = patience.pause(ear.rt, Duration::from_secs(PAUSE_SECONDS)) {
            return Err(unheard(cause));
        }
    }
    Err(unheard(Cause::Silent))
}

// Listens over one connection for so many messages. Answers how many of those that were shown count, too.
fn listen_once<R, W: Write>(
    ear: &Ear<'_, R>,
    count: u64,
    patience: &mut Patience,
    ids: &mut Ids,
    writer: &mut W,
) -> (u64, Result<(), ClientFault>)
where
    R: Net<Stream = TcpStream> + Clock + RandomSource + Clone + Drop,
{
    let mut peer = match connect(ear.rt, ear.alloc, ear.address, "/") {
        Ok(peer) => peer,
        Err(fault) => return (0, Err(fault)),
    };
    ids.begin();
    let mut shown = Shown {
        clock: ear.rt,
        peer: &mut peer,
        writer,
        patience,
        ids,
        count: 0,
    };
    let plan = Plan { count, ..ear.plan };
    let listened = client_core::listen(ear.alloc, HOST, ear.client, &plan, &mut shown);
    let count = shown.count;
    drop(peer);
    (count, listened)
}

// Tells that the connection is gone, and is made again.
fn tell_again<E: Write>(fault: &ClientFault, errors: &mut E) -> io::Result<()>
    ensures { OnOk result (Appends (E.contents errors.old) (E.contents errors.new) (again_line fault.now)) }
{
    writeln!(errors, "stompd: {fault}; connecting again")
}

/// The wait for a durable name that another session has: since when.
#[derive(Drop)]
pub struct Siege {
    since: Option<Instant>,
}

impl Siege {
    /// None has it.
    pub fn new() -> Siege {
        Siege { since: None }
    }

    /// Whether this fault may pass, so that it is tried again. The first time that is told to `errors`.
    pub fn goes_on<C: Clock, E: Write>(
        &mut self,
        clock: &C,
        fault: &ClientFault,
        errors: &mut E,
    ) -> bool
        ensures { result ≡ true → (waited : ℕ) × (may_pass waited fault.now ≡ true) }
    {
        let waited = match &self.since {
            Some(since) => seconds_since(clock, since),
            None => 0,
        };
        if !fault.may_pass(waited) {
            self.since = None;
            return false;
        }
        if self.since.is_none() {
            let Ok(now) = Instant::now(clock) else {
                return false;
            };
            self.since = Some(now);
            drop(tell_held(fault, errors));
        }
        true
    }
}

// How many seconds have passed; the most there are if the system does not tell.
fn seconds_since<C: Clock>(clock: &C, since: &Instant) -> u64 {
    match since.elapsed(clock) {
        Ok(passed) => passed.as_secs(),
        Err(_) => u64::MAX,
    }
}

// Tells that a durable name is waited for.
fn tell_held<E: Write>(fault: &ClientFault, errors: &mut E) -> io::Result<()>
    ensures { OnOk result (Appends (E.contents errors.old) (E.contents errors.new) (held_line fault.now)) }
{
    writeln!(
        errors,
        "stompd: {fault}; waiting up to 90 s for another session to end"
    )
}

fn unheard(cause: Cause) -> ClientFault {
    ClientFault {
        step: Step::Message,
        cause,
    }
}

/// A peer, where its messages are shown, how many of those that were shown count, and how long none may come.
#[derive(Drop)]
pub struct Shown<'a, 'b, R, W> {
    pub clock: &'a R,
    pub peer: &'a mut WebPeer<R>,
    pub writer: &'b mut W,
    pub patience: &'b mut Patience,
    pub ids: &'b mut Ids,
    pub count: u64,
}

/// The `message-id`s of the messages that came and are not shown yet, and those that were printed last.
#[derive(Drop)]
pub struct Ids {
    alloc: Global,
    printed: Printed,
    reader: FrameReader,
    coming: VecDeque<Text>,
    // Nothing is noted of a listener that counts nothing.
    is_counted: bool,
}

impl Ids {
    fn new(alloc: Global, count: u64) -> Ids {
        Ids {
            alloc,
            printed: Printed::new(alloc),
            reader: FrameReader::new(alloc),
            coming: VecDeque::new(alloc),
            is_counted: count < u64::MAX,
        }
    }

    // Nothing has come over a new connection.
    fn begin(&mut self) {
        self.reader = FrameReader::new(self.alloc);
        self.coming.clear();
    }

    // Notes what comes. A message without an id has an empty one.
    fn come(&mut self, piece: &[u8]) -> Result<(), Cause>
        ensures { IfErr result IsOfPeer }
    {
        if !self.is_counted {
            return Ok(());
        }
        match self.read(piece) {
            Ok(()) => Ok(()),
            Err(_) => Err(Cause::Memory),
        }
    }

    fn read(&mut self, piece: &[u8]) -> Result<(), AllocError> {
        let Ok(Fed { frames, fault: _ }) = self.reader.feed(self.alloc, piece) else {
            return Err(AllocError);
        };
        for frame in frames.as_slice() {
            let id = Text::copy(self.alloc, first(frame, "message-id").unwrap_or(""))?;
            self.coming.push_back(id)?;
        }
        drop(frames);
        Ok(())
    }

    // Notes that the next one is shown, and answers whether it counts: it was not shown before.
    fn counts(&mut self) -> Result<bool, Cause>
        ensures { IfErr result IsOfPeer }
    {
        match self.coming.pop_front() {
            Some(id) if !id.as_str().is_empty() => match self.printed.note(id) {
                Ok(counts) => Ok(counts),
                Err(_) => Err(Cause::Memory),
            },
            _ => Ok(true),
        }
    }
}

impl<R: Clock + RandomSource + Drop, W: Write> Peer for Shown<'_, '_, R, W> {
    fn say(&mut self, frame: &[u8]) -> Result<(), Cause> {
        self.peer.say(frame)
    }

    fn hear(&mut self) -> Result<Vec<u8>, Cause> {
        self.peer.hear()
    }

    fn renew(&mut self) {
        self.peer.renew();
    }

    fn close(&mut self) -> Result<(), Cause> {
        self.peer.close()
    }
}

impl<R: Clock + RandomSource + Drop, W: Write> Listener for Shown<'_, '_, R, W> {
    fn wait(&mut self) -> Result<Vec<u8>, Cause> {
        let piece = wait_for(self.clock, self.patience, self.peer)?;
        match self.ids.come(piece.as_slice()) {
            Ok(()) => Ok(piece),
            Err(cause) => {
                drop(piece);
                Err(cause)
            }
        }
    }

    fn show(&mut self, text: &[u8]) -> Result<(), Cause> {
        if self.writer.write_all(text).is_err() || self.writer.flush().is_err() {
            return Err(Cause::Output);
        }
        if self.ids.counts()? {
            self.count = self.count.saturating_add(1);
        }
        self.patience.renew(self.clock);
        Ok(())
    }
}

/// The next bytes of what the peer says, for which it may take its time, as far as patience goes.
pub fn wait_for<R: Clock + RandomSource + Drop>(
    clock: &R,
    patience: &Patience,
    peer: &mut WebPeer<R>,
) -> Result<Vec<u8>, Cause>
    ensures cause { IfErr result IsOfPeer }
{
    let most = Duration::from_secs(PATIENCE_SECONDS);
    let limit = patience.part_of(clock, most)?;
    peer.begin_for(limit)?;
    match peer.hear() {
        Err(Cause::Late) if limit < most => Err(Cause::Quiet),
        Err(Cause::Late) => Err(Cause::Silent),
        heard => heard,
    }
}

/// Since when no message has come, and for how long it may be so.
#[derive(Drop)]
pub struct Patience {
    since: Instant,
    limit: Option<Duration>,
}

impl Patience {
    /// It begins now, and lasts for so many seconds, or without end.
    pub fn new<C: Clock>(clock: &C, seconds: Option<u64>) -> Result<Patience, Cause>
        ensures { IfErr result IsOfPeer }
    {
        match Instant::now(clock) {
            Ok(since) => Ok(Patience {
                since,
                limit: seconds.map(Duration::from_secs),
            }),
            Err(_) => Err(Cause::System),
        }
    }

    /// A message has come: it begins anew. If the system does not tell the time, it goes on.
    pub fn renew<C: Clock>(&mut self, clock: &C)
        ensures { self.new.limit ≡ self.old.limit }
    {
        let now = match Instant::now(clock) {
            Ok(now) => Some(now),
            Err(_) => None,
        };
        self.begin_at(now);
    }

    // It begins at that time, if there is one, and lasts as long as before.
    fn begin_at(&mut self, now: Option<Instant>)
        ensures { self.new ≡ patience_from now self.old }
    {
        if let Some(now) = now {
            self.since = now;
        }
    }

    /// So long, or what is left if that is less; `Quiet` if nothing is.
    pub fn part_of<C: Clock>(&self, clock: &C, most: Duration) -> Result<Duration, Cause>
        ensures { IfErr result IsOfPeer }
    {
        let Some(limit) = self.limit else {
            return Ok(most);
        };
        let Ok(passed) = self.since.elapsed(clock) else {
            return Err(Cause::System);
        };
        match left_of(limit, passed, most) {
            Some(left) => Ok(left),
            None => Err(Cause::Quiet),
        }
    }

    /// Waits for so long, if that is left, else for what is left.
    pub fn pause<C: Clock>(&self, clock: &C, most: Duration) -> Result<(), Cause>
        ensures { IfErr result IsOfPeer }
    {
        thread::sleep(clock, self.part_of(clock, most)?);
        Ok(())
    }
}

// What is left of a limit once so long has passed, or `most` if that is less; nothing once the limit is reached.
fn left_of(limit: Duration, passed: Duration, most: Duration) -> Option<Duration>
    ensures none { result ≡ None ↔ as_nanos limit ≤ as_nanos passed }
    ensures left { IfSome result (λ left. as_nanos left ≡ min (as_nanos limit - as_nanos passed) (as_nanos most)) }
{
    match limit.checked_sub(passed) {
        Some(left) if left.is_zero() => None,
        Some(left) => Some(left.min(most)),
        None => None,
    }
}
