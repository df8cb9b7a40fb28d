//! Messages from a stream.

ghost use Rattle.std.specs.Prelude.{◌≡◌, ◌≢◌, ◌≤◌, ◌↔◌, [], IfErr, IfOk, IfSome, IsTrue, OnOk, length};
ghost use Rattle.client_socket.specs.Inputs.{IsLineFault, IsNoBody, IsUnsent};
ghost use Rattle.client_socket.specs.Waits.{IsLong};

use crate::calls::open;
use crate::web_peer::WebPeer;
use client_core::{Address, ClientFault, Input, Outgoing, Turn, Window, hear_receipts};
use frame_core::FrameReader;
use std::alloc::Global;
use std::io;
use std::io::{BufRead, BufReader, Read};
use std::net::{Net, TcpStream};
use std::random::RandomSource;
use std::time::{Clock, Duration, Instant};

/// How many bytes a body may have (docs/PROTOCOL.md, "Limits").
pub const BODY_BYTES: u64 = 65_536;

// How many bytes are read ahead of lines.
const INPUT_BYTES: usize = 65_536;

// After how many seconds of waiting for a line a connection is made anew: its pings were not answered meanwhile.
const IDLE_SECONDS: u64 = 10;

/// Why messages from a stream were not sent.
#[derive(Drop)]
pub enum InputFault {
    /// The stream has no byte, and no body was given.
    NoBody,
    /// A body has more than 65,536 bytes.
    TooLong,
    /// A read failed.
    Input,
    /// Memory was refused.
    Memory,
    /// This message was not sent, for that cause.
    Client(ClientFault),
}

/// All of a stream, as one body.
pub fn body_of<I: Read + Drop>(alloc: Global, input: I) -> Result<Vec<u8>, InputFault>
    ensures body { IfOk result (λ body. (body.items ≢ []) × (length body.items ≤ 65536)) }
    ensures whole { IfOk result (λ body. IfSome (I.remaining input) (λ all. body.items ≡ all)) }
    ensures refused { IfErr result (λ fault. IfSome (I.remaining input) (IsNoBody fault)) }
{
    let mut body = Vec::new(alloc);
    match input.take(BODY_BYTES + 1).read_to_end(&mut body) {
        Ok(0) => Err(InputFault::NoBody),
        Ok(_) if body.len() as u64 > BODY_BYTES => Err(InputFault::TooLong),
        Ok(_) => Ok(body),
        Err(_) => Err(InputFault::Input),
    }
}

/// Where messages go, and what is the same of all.
#[derive(Drop)]
pub struct Way<'a, R> {
    pub rt: &'a R,
    pub alloc: Global,
    pub address: Address<'a>,
    pub destination: &'a str,
    pub headers: &'a [(&'a str, &'a str)],
}

// A connection, and the beginning of a frame that it may have brought.
#[derive(Drop)]
struct Link<R> {
    peer: WebPeer<R>,
    reader: FrameReader,
}

/// What became of the lines of a stream.
#[derive(Drop)]
pub struct Sent {
    /// How many were surely taken: of all of these the RECEIPTs have come, and not of the next.
    pub taken: u64,
    /// How many more were sent after these. The server may have taken each of them, or not.
    pub unsure: u64,
    /// Why no more were sent; `Ok` if all were taken.
    pub ended: Result<(), InputFault>,
}

/// Sends each line of a stream as a message, in their order. Up to 16 are under way, of which no RECEIPT has come yet; one that is read is
/// sent at once, if fewer are. How the last session ends changes nothing.
pub fn send_lines<R, I>(way: &Way<'_, R>, input: I) -> Sent
where
    R: Net<Stream = TcpStream> + Clock + RandomSource + Clone + Drop,
    I: Read + Drop,
    ensures fault { IfErr result.ended IsLineFault }
    ensures all { OnOk result.ended (result.unsure ≡ 0) }
{
    let mut window = Window::new(way.alloc);
    let ended = match BufReader::with_capacity(way.alloc, INPUT_BYTES, input) {
        Ok(reader) => send_input(way, reader, &mut window),
        Err(_) => Err(InputFault::Memory),
    };
    let (taken, sent) = (window.taken(), window.sent());
    drop(window);
    Sent {
        taken,
        unsure: sent.saturating_sub(taken),
        ended,
    }
}

// Sends all lines, and ends the session.
fn send_input<R, I>(
    way: &Way<'_, R>,
    reader: BufReader<I>,
    window: &mut Window,
) -> Result<(), InputFault>
where
    R: Net<Stream = TcpStream> + Clock + RandomSource + Clone + Drop,
    I: Read + Drop,
    ensures fault { IfErr result IsLineFault }
    ensures all { OnOk result (window.new.owed ≡ []) }
{
    let mut reader = reader;
    let mut link = None;
    let ended = send_all(way, &mut reader, window, &mut link);
    drop(reader);
    match (&ended, link) {
        (Ok(()), Some(open)) => leave(way.alloc, open),
        (_, link) => drop(link),
    }
    ended
}

// Sends lines and hears RECEIPTs, as the window has it, until each line has its RECEIPT and no more are to come.
fn send_all<R, I>(
    way: &Way<'_, R>,
    reader: &mut BufReader<I>,
    window: &mut Window,
    link: &mut Option<Link<R>>,
) -> Result<(), InputFault>
where
    R: Net<Stream = TcpStream> + Clock + RandomSource + Clone + Drop,
    I: Read + Drop,
    ensures fault { IfErr result IsLineFault }
    ensures all { OnOk result (window.new.owed ≡ []) }
{
    let mut over = None;
    for _turn in 0..u64::MAX {
        match window.turn(input_of(reader, over.is_some())) {
            Turn::Send => over = send_next(way, reader, window, link)?,
            Turn::Hear => hear_next(way, window, link)?,
            Turn::End => return over.unwrap_or(Ok(())),
        }
    }
    drop(over);
    Err(InputFault::Input)
}

// What there is of the next line.
fn input_of<I: Read + Drop>(reader: &BufReader<I>, is_over: bool) -> Input {
    if is_over {
        return Input::Ended;
    }
    if reader.buffer().contains(&b'\n') {
        return Input::AtHand;
    }
    Input::Awaited
}

// Sends the next line. If there is none, it answers why: the stream has ended, or what comes is no line.
fn send_next<R, I>(
    way: &Way<'_, R>,
    reader: &mut BufReader<I>,
    window: &mut Window,
    link: &mut Option<Link<R>>,
) -> Result<Option<Result<(), InputFault>>, InputFault>
where
    R: Net<Stream = TcpStream> + Clock + RandomSource + Clone + Drop,
    I: Read + Drop,
    ensures fault { IfErr result IsLineFault }
    ensures over { IfOk result (λ over. IfSome over (λ ended. IfErr ended IsLineFault)) }
{
    let began = Instant::now(way.rt);
    let line = match next_line(way.alloc, reader) {
        Ok(Some(line)) => line,
        Ok(None) => return Ok(Some(Ok(()))),
        Err(fault) => return Ok(Some(Err(fault))),
    };
    if window.under_way() == 0 && is_stale(way.rt, began) {
        drop(link.take());
    }
    let sent = send_line(way, window, link, line.as_slice());
    drop(line);
    match sent {
        Ok(()) => Ok(None),
        Err(fault) => Err(InputFault::Client(fault)),
    }
}

/// Whether it was waited so long that pings may not have been answered.
pub fn is_stale<C: Clock>(clock: &C, began: io::Result<Instant>) -> bool {
    let Ok(began) = began else {
        return is_long(None);
    };
    match began.elapsed(clock) {
        Ok(waited) => is_long(Some(waited)),
        Err(_) => is_long(None),
    }
}

// The same of how long it was waited, if that is known.
fn is_long(waited: Option<Duration>) -> bool
    ensures { IsTrue result ↔ IsLong waited }
{
    match waited {
        Some(waited) => waited >= Duration::from_secs(IDLE_SECONDS),
        None => true,
    }
}

// Sends a line over the connection that there is, or a new one.
fn send_line<R>(
    way: &Way<'_, R>,
    window: &mut Window,
    link: &mut Option<Link<R>>,
    body: &[u8],
) -> Result<(), ClientFault>
where
    R: Net<Stream = TcpStream> + Clock + RandomSource + Clone + Drop,
    ensures { IfErr result IsUnsent }
{
    if link.is_none() {
        *link = Some(Link {
            peer: open(way.rt, way.alloc, way.address, None)?,
            reader: FrameReader::new(way.alloc),
        });
    }
    let message = Outgoing {
        destination: way.destination,
        headers: way.headers,
        body,
    };
    match link {
        Some(Link { peer, reader }) => {
            client_core::send_line(way.alloc, window, &message, reader, peer)
        }
        None => Ok(()),
    }
}

// Hears the next bytes over the connection that there is.
fn hear_next<R>(
    way: &Way<'_, R>,
    window: &mut Window,
    link: &mut Option<Link<R>>,
) -> Result<(), InputFault>
where
    R: Clock + RandomSource + Drop,
    ensures { IfErr result IsLineFault }
{
    let Some(Link { peer, reader }) = link else {
        return Err(InputFault::Input);
    };
    match hear_receipts(way.alloc, window, reader, peer) {
        Ok(()) => Ok(()),
        Err(fault) => Err(InputFault::Client(fault)),
    }
}

// Ends the session of the last connection, as far as the server goes along with that: each line has its RECEIPT.
fn leave<R: Clock + RandomSource + Drop>(alloc: Global, link: Link<R>) {
    let Link { peer, reader } = link;
    drop(reader);
    let mut peer = peer;
    drop(client_core::leave(alloc, &mut peer));
    drop(peer);
}

// The next line without its end.
fn next_line<I: Read + Drop>(
    alloc: Global,
    reader: &mut BufReader<I>,
) -> Result<Option<Vec<u8>>, InputFault>
    ensures line { IfOk result (λ line. IfSome line (λ line. length line.items ≤ 65536)) }
    ensures refused { IfErr result IsLineFault }
{
    let mut line = Vec::new(alloc);
    match reader.take(BODY_BYTES + 1).read_until(b'\n', &mut line) {
        Ok(0) => return Ok(None),
        Ok(_) => {}
        Err(_) => return Err(InputFault::Input),
    }
    if line.as_slice().ends_with(b"\n") {
        line.truncate(line.len() - 1);
    }
    if line.len() as u64 > BODY_BYTES {
        return Err(InputFault::TooLong);
    }
    Ok(Some(line))
}
