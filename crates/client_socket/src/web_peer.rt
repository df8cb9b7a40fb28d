//! A peer over a WebSocket, whose reads and writes end with the step.

ghost use Rattle.std.specs.Prelude.{◌≡◌, ◌≢◌, ◌≤◌, ◌↔◌, IfErr, IfOk, IsTrue, length};
ghost use Rattle.std.specs.Io.{ReadsAtMost};
ghost use Rattle.std.specs.IoError.{error_kind};
ghost use Rattle.client_core.specs.Talks.{IsOfPeer};

use client_core::{Cause, Peer};
use std::alloc::{AllocError, Global};
use std::io;
use std::io::{ErrorKind, Read, Write};
use std::net::TcpStream;
use std::random::RandomSource;
use std::time::{Clock, Duration, Instant};
use tungstenite::{CloseCode, CloseFrame, Error, Message, RandomKeys, Utf8Bytes, WebSocket};
use websocket::error::ProtocolError;

/// The peer at the other end of a WebSocket. Each step may take five seconds.
#[derive(Drop)]
pub struct WebPeer<R> {
    pub socket: WebSocket<Timed<R>, RandomKeys<R>>,
    pub alloc: Global,
}

impl<R: Clock + RandomSource + Drop> Peer for WebPeer<R> {
    fn say(&mut self, frame: &[u8]) -> Result<(), Cause> {
        self.begin(STEP_SECONDS)?;
        match message_of(self.alloc, frame) {
            Ok(message) => done(self.socket.send(message)),
            Err(_) => Err(Cause::Memory),
        }
    }

    fn hear(&mut self) -> Result<Vec<u8>, Cause> {
        match self.socket.read() {
            Ok(message) => {
                let piece = piece_of(self.alloc, &message);
                drop(message);
                piece
            }
            Err(error) => {
                let cause = cause_of(&error);
                drop(error);
                Err(cause)
            }
        }
    }

    fn renew(&mut self) {
        drop(self.begin(STEP_SECONDS));
    }

    // What the peer still says before its own close was not asked for, and is dropped.
    fn close(&mut self) -> Result<(), Cause> {
        self.begin(STEP_SECONDS)?;
        done(self.socket.close(Some(farewell())))?;
        for _message in 0..u64::MAX {
            match self.hear() {
                Ok(piece) => drop(piece),
                Err(Cause::Closed(_)) => return Ok(()),
                Err(cause) => return Err(cause),
            }
        }
        Err(Cause::Late)
    }
}

impl<R: Clock + Drop> WebPeer<R> {
    /// Begins a step, which may take so many seconds.
    pub fn begin(&mut self, seconds: u64) -> Result<(), Cause>
        ensures { IfErr result IsOfPeer }
    {
        self.begin_for(Duration::from_secs(seconds))
    }

    /// Begins a step, which may take so long.
    pub fn begin_for(&mut self, limit: Duration) -> Result<(), Cause>
        ensures { IfErr result IsOfPeer }
    {
        match self.socket.get_mut().begin(limit) {
            Ok(()) => Ok(()),
            Err(_) => Err(Cause::System),
        }
    }
}

// What a call of the WebSocket came to.
fn done(called: Result<(), Error>) -> Result<(), Cause>
    ensures { IfErr result IsOfPeer }
{
    match called {
        Ok(()) => Ok(()),
        Err(error) => {
            let cause = cause_of(&error);
            drop(error);
            Err(cause)
        }
    }
}

// What a message has of the STOMP stream. A close without a code counts as 1005 (RFC 6455, section 7.1.5).
fn piece_of(alloc: Global, message: &Message) -> Result<Vec<u8>, Cause>
    ensures { IfErr result IsOfPeer }
{
    match message {
        Message::Text(text) => owned(alloc, text.as_str().as_bytes()),
        Message::Binary(bytes) => owned(alloc, bytes.as_slice()),
        Message::Ping(_) | Message::Pong(_) => Ok(Vec::new(alloc)),
        Message::Close(Some(frame)) => Err(Cause::Closed(u16::from(frame.code))),
        Message::Close(None) => Err(Cause::Closed(1005)),
    }
}

fn owned(alloc: Global, bytes: &[u8]) -> Result<Vec<u8>, Cause>
    ensures { IfErr result IsOfPeer }
{
    match bytes.to_vec(alloc) {
        Ok(bytes) => Ok(bytes),
        Err(_) => Err(Cause::Memory),
    }
}

fn farewell() -> CloseFrame {
    CloseFrame {
        code: CloseCode::Normal,
        reason: Utf8Bytes::new(),
    }
}

// A frame as a message: text if it is UTF-8.
fn message_of(alloc: Global, frame: &[u8]) -> Result<Message, AllocError> {
    match str::from_utf8(frame) {
        Ok(text) => Message::text(alloc, text),
        Err(_) => Message::binary(alloc, frame),
    }
}

/// How many seconds a step may take.
pub const STEP_SECONDS: u64 = 5;

/// How many seconds the next message may take. A server pings each 20 seconds.
pub const PATIENCE_SECONDS: u64 = 90;

/// A socket whose reads and writes fail once the time of its step has passed: with `WouldBlock` if they waited until then, else
/// with `TimedOut`. So a peer that says one byte after another gets no more time.
///
/// Once a write finds that the connection has ended, the next ones are `WouldBlock`: so a WebSocket, which tries to write what it could
/// not before each read, still reads what came before the end.
#[derive(Drop)]
pub struct Timed<R> {
    socket: TcpStream,
    clock: R,
    began: Instant,
    limit: Duration,
    // Whether a write found that the connection has ended.
    is_cut: bool,
}

impl<R: Clock + Drop> Timed<R> {
    /// That socket, whose step begins now.
    pub fn new(clock: R, socket: TcpStream) -> io::Result<Timed<R>>
        ensures { IfOk result (λ timed. (timed.socket ≡ socket) × (timed.clock ≡ clock)) }
    {
        let began = Instant::now(&clock)?;
        Ok(Timed {
            socket,
            clock,
            began,
            limit: Duration::from_secs(STEP_SECONDS),
            is_cut: false,
        })
    }

    /// Begins another step, which may take so long.
    pub fn begin(&mut self, limit: Duration) -> io::Result<()>
        ensures { self.new ≡ record self.old { began = self.new.began; limit = self.new.limit } }
    {
        self.began = Instant::now(&self.clock)?;
        self.limit = limit;
        Ok(())
    }

    // Reads, however often the program is stopped and goes on: that interrupts a read with a time limit.
    fn read_through(&mut self, buf: &mut [u8]) -> io::Result<usize>
        ensures bound { ReadsAtMost result buf.new }
        ensures through { IfErr result (λ error. error_kind error ≢ ErrorKind.Interrupted) }
    {
        for _stop in 0..u64::MAX {
            match self.read_once(buf) {
                Err(error) if is_interrupted(&error) => drop(error),
                read => return read,
            }
        }
        Err(io::Error::from(ErrorKind::TimedOut))
    }

    fn read_once(&mut self, buf: &mut [u8]) -> io::Result<usize>
        ensures { ReadsAtMost result buf.new }
    {
        let left = self.left()?;
        self.socket.set_read_timeout(Some(left))?;
        self.socket.read(buf)
    }

    // Writes, however often the program is stopped and goes on.
    fn write_through(&mut self, buf: &[u8]) -> io::Result<usize>
        ensures bound { IfOk result (λ count. count ≤ length buf.now) }
        ensures through { IfErr result (λ error. error_kind error ≢ ErrorKind.Interrupted) }
    {
        for _stop in 0..u64::MAX {
            match self.write_once(buf) {
                Err(error) if is_interrupted(&error) => drop(error),
                written => return written,
            }
        }
        Err(io::Error::from(ErrorKind::TimedOut))
    }

    fn write_once(&mut self, buf: &[u8]) -> io::Result<usize>
        ensures { IfOk result (λ count. count ≤ length buf.now) }
    {
        let left = self.left()?;
        self.socket.set_write_timeout(Some(left))?;
        self.socket.write(buf)
    }

    // What is left of the step's time. The system takes no time of zero.
    fn left(&self) -> io::Result<Duration> {
        let passed = self.began.elapsed(&self.clock)?;
        match self.limit.checked_sub(passed) {
            Some(left) if !left.is_zero() => Ok(left),
            _ => Err(io::Error::from(ErrorKind::TimedOut)),
        }
    }
}

impl<R: Clock + Drop> Read for Timed<R> {
    fn read(&mut self, buf: &mut [u8]) -> io::Result<usize> {
        self.read_through(buf)
    }
}

impl<R: Clock + Drop> Write for Timed<R> {
    fn write(&mut self, buf: &[u8]) -> io::Result<usize> {
        if self.is_cut {
            return Err(io::Error::from(ErrorKind::WouldBlock));
        }
        match self.write_through(buf) {
            Ok(count) => Ok(count),
            Err(error) => {
                self.is_cut = is_end(error.kind());
                Err(error)
            }
        }
    }

    fn flush(&mut self) -> io::Result<()> {
        self.socket.flush()
    }
}

// Whether a signal ended the call, which is then made again.
fn is_interrupted(error: &io::Error) -> bool
    ensures { IsTrue result ↔ (error_kind error.now ≡ ErrorKind.Interrupted) }
{
    error.kind() == ErrorKind::Interrupted
}

// Whether the connection has ended.
fn is_end(kind: ErrorKind) -> bool {
    matches!(
        kind,
        ErrorKind::BrokenPipe | ErrorKind::ConnectionReset | ErrorKind::ConnectionAborted
    )
}

/// Why a call of the WebSocket failed.
pub fn cause_of(error: &Error) -> Cause
    ensures { IsOfPeer result }
{
    match error {
        Error::Io(error) => cause_by(error.kind()),
        Error::OutOfMemory => Cause::Memory,
        Error::Http(response) => Cause::Status(response.status().as_u16()),
        Error::Protocol(ProtocolError::ResetWithoutClosingHandshake) => Cause::Ended,
        Error::ConnectionClosed | Error::AlreadyClosed | Error::HandshakeIncomplete => Cause::Ended,
        _ => Cause::NotWebSocket,
    }
}

/// Why a call of the system failed. That no way leads to a server may pass. A read or write of a socket whose time is over is `WouldBlock`.
pub fn cause_by(kind: ErrorKind) -> Cause
    ensures { IsOfPeer result }
{
    match kind {
        ErrorKind::WouldBlock | ErrorKind::TimedOut => Cause::Late,
        ErrorKind::ConnectionRefused => Cause::Unserved,
        ErrorKind::ConnectionReset | ErrorKind::ConnectionAborted | ErrorKind::BrokenPipe =>
            Cause::Ended,
        ErrorKind::NetworkUnreachable
        | ErrorKind::HostUnreachable
        | ErrorKind::NetworkDown
        | ErrorKind::AddrNotAvailable => Cause::Unreached,
        ErrorKind::OutOfMemory => Cause::Memory,
        _ => Cause::System,
    }
}
