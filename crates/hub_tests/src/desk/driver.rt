//! Does what a row says with a client, and tells whether that comes of it. Memory has one owner, and all else borrows.

use crate::desk::acts::{Do, act};
use crate::desk::feeds::{Feed, letter, put_feeds, put_request};
use crate::desk::wire::Wire;
use std::alloc::{AllocError, Global};
use std::cell::RefCell;
use std::sync::Arc;
use ws_core::{Greeted, Greeting, Refusal, Vacancy, WsLink};

/// The request of RFC 6455, section 1.2, with no subprotocol.
pub const REQUEST: &str =
    "GET /chat HTTP/1.1\r\nHost: server.example.com\r\nUpgrade: websocket\r\nConnection: Upgrade\r\nSec-WebSocket-Key: dGhlIHNhbXBsZSBub25jZQ==\r\nOrigin: http://example.com\r\nSec-WebSocket-Version: 13\r\n\r\n";

/// A client, and the stream that leads to it.
#[derive(Clone, Copy)]
pub struct Visitor<'a> {
    /// What it asks for at first, with one read, where the first text is replaced by the second.
    pub request: &'a str,
    pub edit: (&'a str, &'a str),
    /// What follows, at most so many bytes with each read.
    pub feeds: &'a [Feed<'a>],
    pub step: usize,
    /// How far the stream is open, how many bytes it takes, and how many of them a write takes.
    pub open: usize,
    pub room: usize,
    pub gulp: usize,
    /// Whether only pages of `http://a.example` and of `null` are served.
    pub is_choosy: bool,
    /// Whom there is a place for.
    pub vacancy: Vacancy,
    /// What is done with its link, if the first call of its handshake accepts it.
    pub acts: &'a [Do],
}

/// A client that any server accepts at once.
pub const VISITOR: Visitor<'static> = Visitor {
    request: REQUEST,
    edit: ("", ""),
    feeds: &[],
    step: usize::MAX,
    open: usize::MAX,
    room: usize::MAX,
    gulp: usize::MAX,
    is_choosy: false,
    vacancy: Vacancy::Any,
    acts: &[],
};

/// What is to come of a client. A handshake that waits has the mark of a point; + is for a client that is accepted, - for one that is refused,
/// f for one that is told that the server is full, and ! if the handshake has failed.
#[derive(Clone, Copy)]
pub enum Want<'a> {
    /// A mark at the first call, and what is written then.
    Hears(u8, &'a str),
    /// The same, and how many bytes are read.
    Reads(u8, &'a str, usize),
    /// The handshake waits once so many bytes are written. Then the stream is open and takes all: a mark, and all that is written.
    Waits(usize, u8, &'a str),
    /// What its acts show.
    Shows(&'a [u8]),
    /// How many bytes they show.
    ShowsMany(usize),
    /// They show so many letters in pieces of 1,024, and a dash, each between two marks.
    ShowsPieces(usize),
}

// What a handshake has come to: its marks at the first call and at the last, and how many bytes were written at the first.
#[derive(Clone, Copy)]
struct Outcome {
    first: u8,
    last: u8,
    front: usize,
}

fn origins(alloc: Global, is_choosy: bool) -> Result<Arc<Vec<Vec<u8>>>, AllocError> {
    let mut served = Vec::new(alloc);
    let done = if is_choosy {
        put_origins(alloc, &mut served)
    } else {
        Ok(())
    };
    match done {
        Ok(()) => Ok(Arc::new(alloc, served)?),
        Err(refused) => Err(refused),
    }
}

fn put_origins(alloc: Global, served: &mut Vec<Vec<u8>>) -> Result<(), AllocError> {
    served.reserve(2)?;
    served.push_reserved(Vec::from_slice(alloc, b"http://a.example")?);
    served.push_reserved(Vec::from_slice(alloc, b"null")?);
    Ok(())
}

// Adds to what is shown what each act shows of that link, and what is written then.
fn go_on(
    alloc: Global,
    wire: &Wire,
    link: &mut WsLink<&Wire>,
    acts: &[Do],
    shown: &mut Vec<u8>,
) -> Result<(), AllocError> {
    for one in acts {
        act(alloc, wire, link, *one, shown)?;
        wire.move_output(shown)?;
    }
    Ok(())
}

// The mark of a handshake. If it has a link, acts are done with that.
fn finish(
    alloc: Global,
    wire: &Wire,
    greeted: Greeted<&Wire>,
    acts: &[Do],
    shown: &mut Vec<u8>,
) -> Result<u8, AllocError> {
    match greeted {
        Greeted::Accepted(link) => {
            let mut link = link;
            let done = go_on(alloc, wire, &mut link, acts, shown);
            drop(link);
            match done {
                Ok(()) => Ok(b'+'),
                Err(refused) => Err(refused),
            }
        }
        Greeted::Waits(_greeting) => Ok(b'.'),
        Greeted::Refused(Refusal::Full, _wire) => Ok(b'f'),
        Greeted::Refused(_refusal, _wire) => Ok(b'-'),
        Greeted::Failed(_fault) => Ok(b'!'),
    }
}

// Its handshake, and what is done then.
fn greet(
    alloc: Global,
    wire: &Wire,
    visitor: &Visitor,
    shown: &mut Vec<u8>,
) -> Result<Outcome, AllocError> {
    let origins = origins(alloc, visitor.is_choosy)?;
    let greeted = Greeting::begin(alloc, wire, origins, visitor.vacancy).greet(alloc);
    let moved = wire.move_output(shown);
    let front = shown.len();
    let (first, last) = match greeted {
        Greeted::Waits(greeting) => {
            wire.open.set(usize::MAX);
            wire.room.set(usize::MAX);
            (
                Ok(b'.'),
                finish(alloc, wire, greeting.greet(alloc), &[], shown),
            )
        }
        greeted => {
            let mark = finish(alloc, wire, greeted, visitor.acts, shown);
            (mark, mark)
        }
    };
    moved?;
    wire.move_output(shown)?;
    Ok(Outcome {
        first: first?,
        last: last?,
        front,
    })
}

// Whether these are so many letters in pieces, and a dash.
fn is_in_pieces(shown: &[u8], length: usize) -> bool {
    let Some(pieces) = shown.strip_suffix(b"<->") else {
        return false;
    };
    let mut place = 0usize;
    for piece in pieces.chunks(1_026) {
        if !is_piece(piece, place) {
            return false;
        }
        place = place.saturating_add(piece.len().saturating_sub(2));
    }
    place == length
}

// Whether a piece has the letters from that place on.
fn is_piece(piece: &[u8], place: usize) -> bool {
    let Some(letters) = piece.strip_prefix(b"<") else {
        return false;
    };
    let Some(letters) = letters.strip_suffix(b">") else {
        return false;
    };
    for (i, found) in letters.iter().enumerate() {
        if *found != letter(place.saturating_add(i)) {
            return false;
        }
    }
    true
}

fn is_met(want: &Want, wire: &Wire, outcome: Outcome, shown: &[u8]) -> bool {
    let (said, acted) = shown.split_at(outcome.front.min(shown.len()));
    match *want {
        Want::Hears(mark, text) => outcome.first == mark && said == text.as_bytes(),
        Want::Reads(mark, text, count) => {
            outcome.first == mark && said == text.as_bytes() && wire.at.get() == count
        }
        Want::Waits(front, mark, text) => {
            outcome.first == b'.'
                && outcome.front == front
                && outcome.last == mark
                && shown == text.as_bytes()
        }
        Want::Shows(bytes) => acted == bytes,
        Want::ShowsMany(count) => acted.len() == count,
        Want::ShowsPieces(length) => is_in_pieces(acted, length),
    }
}

// Whether that comes of a client, whose bytes these become.
fn is_shown(
    alloc: Global,
    visitor: &Visitor,
    want: &Want,
    input: &mut Vec<u8>,
    output: &RefCell<Vec<u8>>,
    shown: &mut Vec<u8>,
) -> Result<bool, AllocError> {
    put_request(input, visitor.request, visitor.edit)?;
    let head = input.len();
    put_feeds(input, visitor.feeds)?;
    let wire = Wire::new(input.as_slice(), head, visitor.step, output);
    wire.open.set(visitor.open);
    wire.room.set(visitor.room);
    wire.gulp.set(visitor.gulp);
    let outcome = greet(alloc, &wire, visitor, shown)?;
    Ok(is_met(want, &wire, outcome, shown.as_slice()))
}

/// Whether that comes of a client; `None` if memory is refused.
pub fn is_right(alloc: Global, visitor: &Visitor, want: &Want) -> Option<bool> {
    let mut input = Vec::new(alloc);
    let output = RefCell::new(Vec::new(alloc));
    let mut shown = Vec::new(alloc);
    let right = is_shown(alloc, visitor, want, &mut input, &output, &mut shown);
    drop(shown);
    drop(output);
    drop(input);
    right.ok()
}

/// The first of these of which something else comes; `None` if memory is refused.
pub fn first_wrong(alloc: Global, rows: &[(Visitor, Want)]) -> Option<Option<usize>> {
    for (i, (visitor, want)) in rows.iter().enumerate() {
        if !is_right(alloc, visitor, want)? {
            return Some(Some(i));
        }
    }
    Some(None)
}

/// What follows the request of a client that is accepted, what is done with its link, and what comes of that.
pub type Talk = (&'static [Feed<'static>], &'static [Do], Want<'static>);

/// The first of these of which something else comes, if a read gives at most so many bytes behind the request; `None` if memory is refused.
pub fn first_wrong_talk(alloc: Global, talks: &[Talk], step: usize) -> Option<Option<usize>> {
    for (i, (feeds, acts, want)) in talks.iter().enumerate() {
        let visitor = Visitor {
            feeds: *feeds,
            acts: *acts,
            step,
            ..VISITOR
        };
        if !is_right(alloc, &visitor, want)? {
            return Some(Some(i));
        }
    }
    Some(None)
}
