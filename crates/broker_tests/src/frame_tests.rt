//! Frames that are read in pieces and written. What a client's streams come to is tried by `tests/scripts.py`.

use command_core::{DecodeFault, DestFault, Fault, fault_text, is_header_text};
use escape_core::{EscapeFault, escape, is_defined, unescape};
use frame_core::{
    Bytes, Fed, FeedFault, Frame, FrameFault, FrameReader, Headers, Text, Verb, first, read_pieces,
    writable, write_frame,
};
use line_core::SettleFault;
use session_core::SessionFault;
use std::alloc::{AllocError, Global};
use std::fs;
use std::test::Fail;
use tx_core::TxFault;

// A stream in its pieces: two frames, the second of which has a header with an escape and a body with a NUL, and a fault.
const PIECES: [&[u8]; 4] = [
    b"\r\nACK\nid:0\n\n",
    b"\0SEND\nk:a\\cb\ncontent-len",
    b"gth:3\n\na\0b",
    b"\0\nBEGIN\n\nx",
];

// A SEND of 48 bytes, whose body has a NUL.
const SENT: &[u8] = b"SEND\ndestination:/queue/a\ncontent-length:3\n\na\0b\0";

// Frames with one header, and how they are written; nothing if they can't be.
const WRITTEN: [(Verb, &str, &str, &[u8], &[u8]); 13] = [
    (
        Verb::Message,
        "a\n",
        "b\r:\\",
        b"text",
        b"MESSAGE\na\\n:b\\r\\c\\\\\n\ntext\0",
    ),
    (
        Verb::Connected,
        "a",
        ":b\\",
        b"",
        b"CONNECTED\na::b\\\n\n\0",
    ),
    (Verb::Connect, "a", "b\\c", b"", b"CONNECT\na:b\\c\n\n\0"),
    (Verb::Stomp, "a", "b\\c", b"", b"STOMP\na:b\\c\n\n\0"),
    (
        Verb::Send,
        "content-length",
        "1",
        b"\0",
        b"SEND\ncontent-length:1\n\n\0\0",
    ),
    (Verb::Send, "content-length", "01", b"\0", b""),
    (Verb::Send, "a", "b", b"\0", b""),
    (Verb::Ack, "a", "b", b"x", b""),
    (Verb::Message, "", "b", b"", b""),
    (Verb::Message, "a", "b\0", b"", b""),
    (Verb::Connected, "a:", "b", b"", b""),
    (Verb::Connected, "a", "b\n", b"", b""),
    (Verb::Stomp, "a", "b\r", b"", b""),
];

// Texts and how they are written in a header (STOMP 1.2, "Value Encoding").
const ESCAPED: [(&[u8], &[u8]); 4] = [
    (b"", b""),
    (b"\r\n:\\", b"\\r\\n\\c\\\\"),
    (b"a:b\\n", b"a\\cb\\\\n"),
    (b"\0\xff t", b"\0\xff t"),
];

// The texts of the faults, by their codes from 1 on.
const TEXTS: [&str; 20] = [
    "E1 malformed frame",
    "E2 frame too large",
    "E3 undefined escape",
    "E4 unknown command",
    "E5 missing header",
    "E6 only version 1.2 is spoken",
    "E7 frame not expected here",
    "E8 bad destination",
    "E9 subscription id in use",
    "E10 unknown subscription id",
    "E11 unknown acknowledgement id",
    "E12 no room for the message",
    "E13 durable subscription without client-id",
    "E14 durable subscription unknown, in use or of another topic",
    "E15 transaction already begun",
    "E16 transaction not begun",
    "E17 transaction too large",
    "E18 too many subscriptions or transactions",
    "E19 body not allowed",
    "E20 bad header value",
];

const FRAME_FAULTS: [FrameFault; 6] = [
    FrameFault::Malformed,
    FrameFault::TooLarge,
    FrameFault::UndefinedEscape,
    FrameFault::UnknownCommand,
    FrameFault::BodyNotAllowed,
    FrameFault::BadHeaderValue,
];

fn pieces(alloc: Global) -> Result<Vec<Vec<u8>>, AllocError> {
    let mut pieces = Vec::new(alloc);
    for piece in &PIECES {
        pieces.push(Vec::from_slice(alloc, piece)?)?;
    }
    Ok(pieces)
}

// Whether these are the two frames and the fault.
fn are_right(fed: &Fed) -> bool {
    let fault = fed.fault == Some(FrameFault::BodyNotAllowed);
    match fed.frames.as_slice() {
        [ack, sent] => {
            let is_sent = first(sent, "k") == Some("a:b")
                && sent.body.as_slice() == b"a\0b".as_slice();
            fault && first(ack, "id") == Some("0") && is_sent
        }
        _ => false,
    }
}

#[test]
fn a_stream_in_pieces_gives_its_frames_and_its_fault(rt: HostRuntime) -> Result<(), Fail> {
    let pieces = pieces(rt.alloc())?;
    let fed = read_pieces(rt.alloc(), pieces.as_slice());
    drop(pieces);
    let fed = fed?;
    let is_right = are_right(&fed);
    drop(fed);
    assert!(rt; is_right);
    Ok(())
}

// How many calls in turn, each of which has a byte of the SEND, give nothing before one gives its frame.
fn calls_before(alloc: Global, reader: &mut FrameReader) -> Result<Option<usize>, FeedFault> {
    let mut calls: usize = 0;
    for byte in SENT {
        let fed = reader.feed(alloc, &[*byte])?;
        let is_nothing = fed.frames.is_empty() && fed.fault.is_none();
        let is_sent = match fed.frames.as_slice() {
            [sent] => fed.fault.is_none() && sent.body.as_slice() == b"a\0b".as_slice(),
            _ => false,
        };
        drop(fed);
        if is_sent {
            return Ok(Some(calls));
        }
        if !is_nothing {
            return Ok(None);
        }
        calls = calls.saturating_add(1);
    }
    Ok(None)
}

#[test]
fn a_frame_comes_with_its_last_byte(rt: HostRuntime) -> Result<(), Fail> {
    let mut reader = FrameReader::new(rt.alloc());
    let calls = calls_before(rt.alloc(), &mut reader);
    drop(reader);
    assert_eq!(rt; calls?, Some(47));
    Ok(())
}

fn header(alloc: Global, name: &str, value: &str) -> Result<(Text, Text), AllocError> {
    let name = String::from_str(alloc, name)?;
    let value = String::from_str(alloc, value)?;
    Ok((Text::new(name), Text::new(value)))
}

// A frame with one header.
fn frame_with(
    alloc: Global,
    verb: Verb,
    name: &str,
    value: &str,
    body: &[u8],
) -> Result<Frame, AllocError> {
    let body = Bytes::new(Vec::from_slice(alloc, body)?);
    let mut headers = Vec::with_capacity(alloc, 1)?;
    let header = header(alloc, name, value)?;
    headers.push(header)?;
    Ok(Frame {
        verb,
        headers: Headers::new(headers),
        body,
    })
}

fn is_written(alloc: Global, frame: &Frame, expected: &[u8]) -> Result<bool, AllocError> {
    if writable(frame) {
        Ok(write_frame(alloc, frame)?.as_slice() == expected)
    } else {
        Ok(expected.is_empty())
    }
}

// Whether a frame with one header has it, and is written so.
fn is_written_with(
    alloc: Global,
    verb: Verb,
    header: (&str, &str),
    body: &[u8],
    expected: &[u8],
) -> Result<bool, AllocError> {
    let frame = frame_with(alloc, verb, header.0, header.1, body)?;
    let is_written = is_written(alloc, &frame, expected);
    let has_header = first(&frame, header.0) == Some(header.1);
    drop(frame);
    Ok(is_written? && has_header)
}

#[test]
fn frames_are_written_or_can_not_be(rt: HostRuntime) -> Result<(), Fail> {
    for (verb, name, value, body, expected) in &WRITTEN {
        assert!(rt; is_written_with(rt.alloc(), *verb, (*name, *value), body, expected)?);
    }
    Ok(())
}

// The reader takes so many thousand ends of lines. Answers whether it gave nothing.
fn read_ends(alloc: Global, reader: &mut FrameReader, thousands: u32) -> Result<bool, FeedFault> {
    for _ in 0..thousands {
        let fed = reader.feed(alloc, &[b'\n'; 1_000])?;
        let is_nothing = fed.frames.is_empty() && fed.fault.is_none();
        drop(fed);
        if !is_nothing {
            return Ok(false);
        }
    }
    Ok(true)
}

// The most address space, in kB, that a process has had, as its status tells it.
fn peak_in(status: &str) -> Option<u64> {
    for line in status.lines() {
        if let Some(rest) = line.strip_prefix("VmPeak:") {
            return rest.trim_end_matches("kB").trim().parse::<u64>().ok();
        }
    }
    None
}

// If a byte of each were kept, four million would be.
#[test]
fn four_million_ends_of_lines_take_no_memory(rt: HostRuntime) -> Result<(), Fail> {
    let mut reader = FrameReader::new(rt.alloc());
    let first = read_ends(rt.alloc(), &mut reader, 1);
    let status = fs::read_to_string(&rt, "/proc/self/status")?;
    let before = peak_in(status.as_str());
    drop(status);
    let rest = read_ends(rt.alloc(), &mut reader, 4_000);
    drop(reader);
    let status = fs::read_to_string(&rt, "/proc/self/status")?;
    let after = peak_in(status.as_str());
    drop(status);
    assert!(rt; first? && rest?);
    let (Some(before), Some(after)) = (before, after) else {
        panic!(rt; "the process has no status")
    };
    assert!(rt;
        after.saturating_sub(before) < 2_000,
        "{before} kB and {after} kB"
    );
    Ok(())
}

fn means(alloc: Global, written: &[u8], text: &[u8]) -> Result<bool, EscapeFault> {
    Ok(unescape(alloc, written)?.as_slice() == text)
}

#[test]
fn texts_are_written_with_their_escapes_and_read_again(rt: HostRuntime) -> Result<(), Fail> {
    for (text, written) in &ESCAPED {
        assert!(rt; escape(rt.alloc(), text)?.as_slice() == *written);
        assert!(rt; is_defined(written) && means(rt.alloc(), written, text)?);
    }
    Ok(())
}

#[test]
fn other_escapes_are_undefined(rt: HostRuntime) {
    for written in [b"\\".as_slice(), b"a\\t", b"\\C", b"a\\\\\\"].as_slice() {
        assert!(rt; !is_defined(*written));
        assert!(rt; means(rt.alloc(), *written, b"") == Err(EscapeFault::Undefined));
    }
}

// Whether the text is that of the fault of this code, and also what the fault shows.
fn is_told(alloc: Global, code: u8, text: &str) -> Result<bool, Fail> {
    match Fault::from_code(code) {
        None => Ok(false),
        Some(fault) => {
            let shown = format!(in alloc; "{fault}")?;
            Ok(fault.code() == code && fault_text(fault) == text && shown.as_str() == text)
        }
    }
}

#[test]
fn each_fault_has_its_text(rt: HostRuntime) -> Result<(), Fail> {
    for (code, text) in (1..21).zip(TEXTS.as_slice()) {
        assert!(rt; is_told(rt.alloc(), code, *text)?);
    }
    Ok(())
}

#[test]
fn faults_of_the_stream_have_the_same_texts(rt: HostRuntime) -> Result<(), Fail> {
    for fault in &FRAME_FAULTS {
        let shown = format!(in rt.alloc(); "{fault}")?;
        assert!(rt; fault_text(Fault::from(*fault)) == shown.as_str());
        assert!(rt; fault.code() == Fault::from(*fault).code());
    }
    Ok(())
}

#[test]
fn other_refusals_have_their_texts(rt: HostRuntime) -> Result<(), Fail> {
    let shown = format!(in rt.alloc();
        "{}, {}, {}, {}, {}, {}, {}, {}, {}, {}, {}, {}, {}",
        EscapeFault::Undefined,
        EscapeFault::Memory,
        FeedFault::Failed,
        FeedFault::Memory,
        SessionFault::Failed,
        SessionFault::Memory,
        DecodeFault::NoSpelling,
        DestFault::Bad,
        SettleFault::Unknown,
        TxFault::Begun,
        TxFault::NotBegun,
        TxFault::TooLarge,
        TxFault::TooMany
    )?;
    let texts = "undefined escape, no memory, failed before, no memory, session failed, no memory, \
         bytes that spell nothing, bad destination, unknown delivery, transaction already begun, \
         transaction not begun, transaction too large, too many transactions";
    assert!(rt; shown.as_str() == texts);
    Ok(())
}

fn letters(alloc: Global, count: u32) -> Result<String, AllocError> {
    let mut text = String::new(alloc);
    for _ in 0..count {
        text.push('q')?;
    }
    Ok(text)
}

#[test]
fn the_text_of_a_header_has_no_nul_and_a_limit(rt: HostRuntime) -> Result<(), Fail> {
    assert!(rt; is_header_text("") && is_header_text("a:b") && !is_header_text("a\0b"));
    for (count, is_text) in [(8_192, true), (8_193, false)] {
        let text = letters(rt.alloc(), count)?;
        let is_right = is_header_text(text.as_str()) == is_text;
        drop(text);
        assert!(rt; is_right);
    }
    Ok(())
}
