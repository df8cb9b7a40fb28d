//! What is done with a link, and what that shows.

ghost use Rattle.std.specs.Prelude.{◌≡◌};
ghost use Rattle.frame_core.specs.Writable.{Writable};

use crate::desk::driver::REQUEST;
use crate::desk::wire::Wire;
use claim_core::{Released, Ring, SessionSeat};
use command_core::Out;
use frame_core::{Bytes, Frame, Headers, Verb, writable};
use std::alloc::{AllocError, Global};
use std::io::ErrorKind;
use ws_core::{CloseReason, Link, LinkFault, Outgoing, Received, WsLink};

/// What is done with a link. After what it shows stands what was written, and | if the stream's writing side was shut.
#[derive(Clone, Copy)]
pub enum Do {
    /// One read, which shows bytes between < and >, a dash for what is skipped, a point for nothing, x for a link that has failed, and ! for a
    /// closed one.
    Hear,
    /// An ERROR with no headers and this body is sent. It shows k, or m and g for a fault, or w if the stream doesn't take all.
    Send(&'static [u8]),
    /// The same with a body of so many bytes.
    SendLong(usize),
    /// It shows t if nothing waits any more, else f, or m and g for a fault.
    Flush,
    /// A ping and an end show k, or m and g for a fault.
    Ping,
    End(CloseReason),
    /// So many bytes after the request are open.
    Open(usize),
    /// The stream takes so many bytes more, and then it would block.
    Take(usize),
    /// Each write fails with this from now on.
    Break(ErrorKind),
    /// A read that finds nothing open is refused with this from now on.
    Refuse(ErrorKind),
    /// A write takes at most so many bytes from now on, and writes are counted.
    Sip(usize),
    /// Shows = if so many writes took something since, else ~.
    Writes(u64),
    /// The same of the bytes that were read after the request.
    Reads(usize),
    /// The same of the reads that were refused.
    Refusals(u64),
}

fn put_received(shown: &mut Vec<u8>, received: &Received) -> Result<(), AllocError> {
    let mark = match received {
        Received::Bytes(bytes) => return put_between(shown, bytes.as_slice()),
        Received::Skipped => b'-',
        Received::Nothing => b'.',
        Received::Failed => b'x',
        Received::Closed => b'!',
    };
    shown.extend_from_slice(&[mark])
}

fn put_between(shown: &mut Vec<u8>, bytes: &[u8]) -> Result<(), AllocError> {
    shown.extend_from_slice(b"<")?;
    shown.extend_from_slice(bytes)?;
    shown.extend_from_slice(b">")
}

fn mark_of(done: Result<(), LinkFault>) -> u8 {
    match done {
        Ok(()) => b'k',
        Err(LinkFault::Memory) => b'm',
        Err(LinkFault::Gone) => b'g',
    }
}

// The mark of a flush, or ? if something waits though it says otherwise.
fn mark_of_flush(flushed: Result<bool, LinkFault>, waits: bool) -> u8 {
    match flushed {
        Ok(all) if all == waits => b'?',
        Ok(true) => b't',
        Ok(false) => b'f',
        Err(LinkFault::Memory) => b'm',
        Err(LinkFault::Gone) => b'g',
    }
}

fn hear(alloc: Global, link: &mut WsLink<&Wire>, shown: &mut Vec<u8>) -> Result<(), AllocError> {
    let received = link.receive(alloc);
    let done = put_received(shown, &received);
    drop(received);
    done
}

fn error(alloc: Global, body: Vec<u8>) -> Frame {
    Frame {
        verb: Verb::Error,
        headers: Headers::new(Vec::new(alloc)),
        body: Bytes::new(body),
    }
}

// The ERROR with this body, as one that may leave: its number is under the first mark of the ring.
fn release(
    alloc: Global,
    ring: &Ring<(), 1, 1, 1>,
    seat: &mut SessionSeat<(), 1>,
    body: Vec<u8>,
) -> Option<Released>
    requires { seat.old.ring ≡ ring.now }
    ensures { seat.new.ring ≡ seat.old.ring }
{
    let frame = error(alloc, body);
    if !writable(&frame) {
        return None;
    }
    let out = Out::new(alloc, 0, 0, frame).ok()?;
    ring.release(seat, out).ok()
}

// The same at a ring of its own.
fn released(alloc: Global, body: Vec<u8>) -> Option<Released> {
    let (ring, mut seats, flush) = Ring::<(), 1, 1, 1>::new(alloc, 1).ok()?;
    let released = match seats.first_mut() {
        Some(seat) => release(alloc, &ring, seat, body),
        None => None,
    };
    // A ring that is closed drops nothing here, and each drop has a proof.
    let _ = ring.close(seats, flush);
    released
}

// The mark of what comes of a send, or ? if there is no frame to send.
fn send(alloc: Global, link: &mut WsLink<&Wire>, body: Vec<u8>) -> u8 {
    let Some(released) = released(alloc, body) else {
        return b'?';
    };
    let done = link.send(alloc, &released);
    drop(released);
    if done.is_ok() && link.waits() {
        b'w'
    } else {
        mark_of(done)
    }
}

// What is done with the stream alone shows nothing, or whether so much was done there.
fn watch(wire: &Wire, one: Do) -> Option<bool> {
    match one {
        Do::Open(count) => wire.open.set(REQUEST.len().saturating_add(count)),
        Do::Take(count) => wire.room.set(count),
        Do::Break(error) => wire.broken.set(Some(error)),
        Do::Refuse(error) => wire.refusal.set(error),
        Do::Sip(gulp) => {
            wire.gulp.set(gulp);
            wire.writes.set(0);
        }
        Do::Writes(count) => return Some(wire.writes.get() == count),
        Do::Reads(count) => return Some(wire.at.get() == REQUEST.len().saturating_add(count)),
        Do::Refusals(count) => return Some(wire.refused.get() == count),
        _ => {}
    }
    None
}

/// Adds to what is shown what this shows.
pub fn act(
    alloc: Global,
    wire: &Wire,
    link: &mut WsLink<&Wire>,
    one: Do,
    shown: &mut Vec<u8>,
) -> Result<(), AllocError> {
    let mark = match one {
        Do::Hear => return hear(alloc, link, shown),
        Do::Send(body) => send(alloc, link, Vec::from_slice(alloc, body)?),
        Do::SendLong(length) => send(alloc, link, vec![in alloc; b'a'; length]?),
        Do::Flush => {
            let flushed = link.flush();
            mark_of_flush(flushed, link.waits())
        }
        Do::Ping => mark_of(link.ping()),
        Do::End(reason) => mark_of(link.end(reason)),
        other => match watch(wire, other) {
            Some(true) => b'=',
            Some(false) => b'~',
            None => return Ok(()),
        },
    };
    shown.extend_from_slice(&[mark])
}
