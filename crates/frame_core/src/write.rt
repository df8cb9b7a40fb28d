//! How a frame is written, and which frames can be.

ghost use Rattle.std.specs.Prelude.{◌≡◌, ◌↔◌, ◌++◌, IsTrue, IfOk, OnOk, length, ◌<◌, codes, MatchOption, decimal, ◌≢◌};
ghost use Rattle.escape_core.specs.Escapes.{escaped};
ghost use Rattle.frame_core.specs.Writable.{HasNoNul, IsOneLine, IsHeader, IsRawHeader, Writable, first_of};
ghost use Rattle.frame_core.specs.Written.{written, written_header, IsText};
ghost use Rattle.frame_core.specs.Spelling.{Spells, IsWithinLimits};
ghost use Rattle.frame_core.specs.Streams.{IsReadFirst};
ghost use Rattle.std.specs.List.{AllByRecursion, flat_map};

use crate::frame::{Frame, Verb, first};
use crate::text::Text;
use escape_core::{escape, is_plain};
use itoa::Buffer;
use std::alloc::{AllocError, Global};

/// Whether no NUL stands in it.
fn has_no_nul(text: &[u8]) -> bool
    ensures { IsTrue result ↔ HasNoNul text.now }
{
    text.iter().all(|b| *b != 0)
}

/// Whether no CR and no LF stands in it.
fn is_one_line(text: &[u8]) -> bool
    ensures { IsTrue result ↔ IsOneLine text.now }
{
    text.iter().all(|b| *b != b'\n' && *b != b'\r')
}

fn has_no_colon(text: &[u8]) -> bool
    ensures { IsTrue result ↔ AllByRecursion (λ b. b ≢ 58) text.now }
{
    text.iter().all(|b| *b != b':')
}

/// Whether a header can be written with escapes.
fn is_header(name: &Text, value: &Text) -> bool
    ensures { IsTrue result ↔ IsHeader (name.now, value.now) }
{
    let name = name.as_str().as_bytes();
    !name.is_empty() && has_no_nul(name) && has_no_nul(value.as_str().as_bytes())
}

/// Whether a header can be written as it is.
fn is_raw_header(name: &Text, value: &Text) -> bool
    ensures { IsTrue result ↔ IsRawHeader (name.now, value.now) }
{
    let name = name.as_str().as_bytes();
    is_one_line(name) && has_no_colon(name) && is_one_line(value.as_str().as_bytes())
}

fn are_headers(headers: &[(Text, Text)]) -> bool
    ensures { IsTrue result ↔ AllByRecursion IsHeader headers.now }
{
    for (name, value) in headers {
        if !is_header(name, value) {
            return false;
        }
    }
    true
}

fn are_raw_headers(headers: &[(Text, Text)]) -> bool
    ensures { IsTrue result ↔ AllByRecursion IsRawHeader headers.now }
{
    for (name, value) in headers {
        if !is_raw_header(name, value) {
            return false;
        }
    }
    true
}

/// Whether the body's length is announced in decimal, or isn't announced and no NUL stands in the body.
fn has_end(frame: &Frame) -> bool
    ensures { IsTrue result ↔ MatchOption (first_of (codes "content-length") frame.now.headers)
        (HasNoNul frame.now.body)
        (λ text. text ≡ decimal (length frame.now.body)) }
{
    let body = frame.body.as_slice();
    match first(frame, "content-length") {
        None => has_no_nul(body),
        Some(text) => Buffer::new().format(body.len()) == text,
    }
}

/// Whether the frame can be written so that it is read again. Each header has a name, and no NUL stands in a name or
/// value. Under CONNECT, STOMP and CONNECTED no name or value has a CR or LF, and no name has a colon. A body stands
/// only on SEND, MESSAGE and ERROR. The first `content-length` is the body's length in decimal, or there is none and no
/// NUL stands in the body. It takes no memory.
pub fn writable(frame: &Frame) -> bool
    ensures { IsTrue result ↔ Writable frame.now }
{
    let headers = frame.headers.as_slice();
    are_headers(headers)
        && (!frame.verb.is_raw() || are_raw_headers(headers))
        && (frame.verb.has_body() || frame.body.as_slice().is_empty())
        && has_end(frame)
}

/// At least as many bytes as the frame has when it is written.
fn room(frame: &Frame) -> usize {
    let mut room = frame.body.as_slice().len().saturating_add(16);
    for (name, value) in frame.headers.as_slice() {
        let texts = name.as_str().len().saturating_add(value.as_str().len());
        room = room
            .saturating_add(texts.saturating_mul(2))
            .saturating_add(2);
    }
    room
}

/// Appends a text with its escapes.
fn write_escaped(alloc: Global, bytes: &mut Vec<u8>, text: &str) -> Result<(), AllocError>
    ensures { OnOk result (bytes.new.items ≡ bytes.old.items ++ escaped text.now) }
{
    let text = text.as_bytes();
    if is_plain(text) {
        bytes.extend_from_slice(text)?;
        return Ok(());
    }
    bytes.extend_from_slice(escape(alloc, text)?.as_slice())?;
    Ok(())
}

/// Appends a header line, as it stands in a frame of that command.
pub fn write_header(
    alloc: Global,
    bytes: &mut Vec<u8>,
    verb: Verb,
    name: &str,
    value: &str,
) -> Result<(), AllocError>
    ensures line { OnOk result (bytes.new.items ≡ bytes.old.items ++ written_header verb (name.now, value.now)) }
    ensures text { OnOk result (IsText (name.now, value.now)) }
{
    if verb.is_raw() {
        bytes.extend_from_slice(name.as_bytes())?;
        bytes.push(b':')?;
        bytes.extend_from_slice(value.as_bytes())?;
    } else {
        write_escaped(alloc, bytes, name)?;
        bytes.push(b':')?;
        write_escaped(alloc, bytes, value)?;
    }
    bytes.push(b'\n')?;
    Ok(())
}

/// Appends header lines, as they stand in a frame of that command.
pub fn write_headers(
    alloc: Global,
    bytes: &mut Vec<u8>,
    verb: Verb,
    headers: &[(Text, Text)],
) -> Result<(), AllocError>
    ensures lines { OnOk result (bytes.new.items ≡ bytes.old.items ++ flat_map (written_header verb) headers.now) }
    ensures texts { OnOk result (AllByRecursion IsText headers.now) }
{
    for (name, value) in headers {
        write_header(alloc, bytes, verb, name.as_str(), value.as_str())?;
    }
    Ok(())
}

/// The bytes of a frame that can be written (STOMP 1.2, "Augmented BNF"). Lines end with LF, and no EOL stands after
/// the NUL. A CR, LF, colon or backslash of a name or value is escaped unless the command is CONNECT, STOMP or
/// CONNECTED. Within the reader's limits they are read again as the frame, whatever follows them. If memory is refused,
/// that is the error.
pub fn write_frame(alloc: Global, frame: &Frame) -> Result<Vec<u8>, AllocError>
    requires { Writable frame.now }
    ensures bytes { IfOk result (λ bytes. bytes.items ≡ written frame.now) }
    ensures spells { IfOk result (λ bytes. Spells bytes.items frame.now) }
    ensures again { IfOk result (λ bytes.
        IsWithinLimits bytes.items frame.now → IsReadFirst bytes.items frame.now) }
{
    let mut bytes = Vec::with_capacity(alloc, room(frame))?;
    bytes.extend_from_slice(frame.verb.name().as_bytes())?;
    bytes.push(b'\n')?;
    write_headers(alloc, &mut bytes, frame.verb, frame.headers.as_slice())?;
    bytes.push(b'\n')?;
    bytes.extend_from_slice(frame.body.as_slice())?;
    bytes.push(0)?;
    Ok(bytes)
}
