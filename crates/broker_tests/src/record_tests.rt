//! Records of commands.

use broker_core::Broker;
use command_core::{
    Command, DecodeFault, Dest, DestFault, HeaderText, Op, Out, Sending, decode, encode,
    lists_are_read_as_they_are_spelled, parts_are_read_as_they_are_spelled,
};
use frame_core::{Bytes, Headers, Text};
use std::alloc::{AllocError, Global};
use std::test::Fail;

// Session 0, receipt `r1`, a Send to `/queue/a` with no headers and the body `hi`.
const GREETING: &[u8] = b"\0\0\0\0\0\0\0\0\x01\0\0\0\x02r1\x02\0\0\0\x08/queue/a\0\0\0\0\0\x02hi";

// A record of each kind of operation, and of each of its forms. Beside each byte stands what comes of it if it is one
// greater: `.` another record (which may be shorter), and `x` none.
const RECORDS: [(&[u8], &str); 23] = [
    // Open, of nobody and of `me`.
    (b"\0\0\0\0\0\0\0\0\0\x01\0", "xxxxxxxxxxx"),
    (
        b"\0\0\0\0\0\0\0\0\0\x01\x01\0\0\0\x02me",
        "xxxxxxxxxxxxxxx..",
    ),
    // Send, with the header `k` of value `v` and no body.
    (GREETING, "........xxxxx..xxxxxxxxxxxx.xxxxxx.."),
    (
        b"\0\0\0\0\0\0\0\x05\0\x02\0\0\0\x08/topic/t\0\x01\0\0\0\x01k\0\0\0\x01v\0\0\0\0",
        "........xxxxxxxxxxxxx.xxxxxx.xxxx.xxxx",
    ),
    // Subscribe under `s`, with each mode and the durable name `d`.
    (
        b"\0\0\0\0\0\0\0\x05\0\x03\0\0\0\x01s\0\0\0\x08/topic/t\x02\x01\0\0\0\x01d",
        "........xxxxxx.xxxxxxxxxxx.xxxxxx.",
    ),
    (
        b"\0\0\0\0\0\0\0\x05\0\x03\0\0\0\x01s\0\0\0\x08/queue/q\x01\0",
        "........xxxxxx.xxxxxxxxxxx..x",
    ),
    (
        b"\0\0\0\0\0\0\0\x05\0\x03\0\0\0\0\0\0\0\x08/queue/q\0\0",
        "........xxxxxxxxxxxxxxxxx..x",
    ),
    // Unsubscribe by an id, by an empty one, by a name and by both.
    (
        b"\0\0\0\0\0\0\0\x05\0\x04\x01\0\0\0\x01s\0",
        "........xxxxxxx.x",
    ),
    (
        b"\0\0\0\0\0\0\0\x05\0\x04\x01\0\0\0\0\0",
        "........xxxxxxxx",
    ),
    (
        b"\0\0\0\0\0\0\0\x05\0\x04\0\x01\0\0\0\x01d",
        "........xxxxxxxx.",
    ),
    (
        b"\0\0\0\0\0\0\0\x05\0\x04\x01\0\0\0\x01s\x01\0\0\0\x01d",
        "........x.xxxx..xxxxx.",
    ),
    // Ack of 258 and Nack of 2^64 - 1.
    (
        b"\0\0\0\0\0\0\0\x05\0\x05\0\0\0\0\0\0\x01\x02",
        "........x.........",
    ),
    (
        b"\0\0\0\0\0\0\0\x05\0\x06\xff\xff\xff\xff\xff\xff\xff\xff",
        "........xx........",
    ),
    // Commit of nothing, of an Ack and a Nack, and of a Send.
    (b"\0\0\0\0\0\0\0\x05\0\x07\0\0", "........x.xx"),
    (
        b"\0\0\0\0\0\0\0\x05\0\x07\0\x02\x05\0\0\0\0\0\0\0\x03\x06\0\0\0\0\0\0\0\x04",
        "........x.xx.........x........",
    ),
    (
        b"\0\0\0\0\0\0\0\x05\0\x07\0\x01\x02\0\0\0\x08/queue/a\0\0\0\0\0\x02hi",
        "........x.xxxxxxxxxxxxxx.xxxxxx..",
    ),
    // Note, without and with a receipt.
    (b"\0\0\0\0\0\0\0\x05\0\x08", "........xx"),
    (b"\0\0\0\0\0\0\0\x05\x01\0\0\0\0\x08", "........xxxxxx"),
    (
        b"\0\0\0\0\0\0\0\x05\x01\0\0\0\x02\xc3\xa9\x08",
        "........xxxxx..x",
    ),
    // End: Bye, Lost, and Bad with the first and the last fault.
    (b"\0\0\0\0\0\0\0\x05\0\x09\0", "........xx."),
    (b"\0\0\0\0\0\0\0\x05\0\x09\x01", "........xxx"),
    (b"\0\0\0\0\0\0\0\x05\0\x09\x02\x01", "........xxx."),
    (
        b"\0\0\0\0\0\0\0\x05\x01\0\0\0\x01r\x09\x02\x14",
        "........xxxxx.xxx",
    ),
];

const REFUSED: [&[u8]; 28] = [
    // Kinds that no operation has.
    b"\0\0\0\0\0\0\0\0\0\0",
    b"\0\0\0\0\0\0\0\0\0\x0a",
    // A receipt that is neither there nor absent, with a NUL, and not in UTF-8.
    b"\0\0\0\0\0\0\0\x05\x02\0\0\0\x01r\x08",
    b"\0\0\0\0\0\0\0\x05\x01\0\0\0\x01\0\x08",
    b"\0\0\0\0\0\0\0\x05\x01\0\0\0\x01\xff\x08",
    // An Open of a session, with a receipt, and of an empty name.
    b"\0\0\0\0\0\0\0\x05\0\x01\0",
    b"\0\0\0\0\0\0\0\0\x01\0\0\0\x01r\x01\0",
    b"\0\0\0\0\0\0\0\0\0\x01\x01\0\0\0\0",
    // A Send to no destination, with a header that isn't kept, and with one of no name.
    b"\0\0\0\0\0\0\0\x05\0\x02\0\0\0\x07/queue/\0\0\0\0\0\0",
    b"\0\0\0\0\0\0\0\x05\0\x02\0\0\0\x08/queue/q\0\x01\0\0\0\x07receipt\0\0\0\x01v\0\0\0\0",
    b"\0\0\0\0\0\0\0\x05\0\x02\0\0\0\x08/queue/q\0\x01\0\0\0\0\0\0\0\x01v\0\0\0\0",
    // A Subscribe with no mode, to no destination, with an empty name, and with a name on a queue.
    b"\0\0\0\0\0\0\0\x05\0\x03\0\0\0\x01s\0\0\0\x08/topic/t\x03\0",
    b"\0\0\0\0\0\0\0\x05\0\x03\0\0\0\x01s\0\0\0\x08/Topic/t\0\0",
    b"\0\0\0\0\0\0\0\x05\0\x03\0\0\0\x01s\0\0\0\x08/topic/t\0\x01\0\0\0\0",
    b"\0\0\0\0\0\0\0\x05\0\x03\0\0\0\x01s\0\0\0\x08/queue/q\0\x01\0\0\0\x01d",
    // An Unsubscribe by nothing, and by an empty name.
    b"\0\0\0\0\0\0\0\x05\0\x04\0\0",
    b"\0\0\0\0\0\0\0\x05\0\x04\0\x01\0\0\0\0",
    // A Commit of a Note.
    b"\0\0\0\0\0\0\0\x05\0\x07\0\x01\x08",
    // An End of no kind, of no fault and of one too many, and a receipt of a lost connection.
    b"\0\0\0\0\0\0\0\x05\0\x09\x03",
    b"\0\0\0\0\0\0\0\x05\0\x09\x02\0",
    b"\0\0\0\0\0\0\0\x05\0\x09\x02\x15",
    b"\0\0\0\0\0\0\0\x05\x01\0\0\0\x01r\x09\x01",
    // A receipt longer than what there is, and counts as great as they can be: of a receipt, a destination, headers, a
    // body and members.
    b"\0\0\0\0\0\0\0\x05\x01\0\0\0\x03r\x08",
    b"\0\0\0\0\0\0\0\x05\x01\xff\xff\xff\xffr\x08",
    b"\0\0\0\0\0\0\0\x05\0\x02\xff\xff\xff\xff/queue/q\0\0\0\0\0\0",
    b"\0\0\0\0\0\0\0\x05\0\x02\0\0\0\x08/queue/q\xff\xff\0\0\0\x01k\0\0\0\x01v\0\0\0\0",
    b"\0\0\0\0\0\0\0\x05\0\x02\0\0\0\x08/queue/q\0\0\xff\xff\xff\xffhi",
    b"\0\0\0\0\0\0\0\x05\0\x07\xff\xff\x05\0\0\0\0\0\0\0\x03",
];

// So many pieces between a front and a back, and whether they are a record.
const LIMITS: [(&[u8], &[u8], usize, &[u8], bool); 8] = [
    (
        b"\0\0\0\0\0\0\0\x05\0\x07\0\x40",
        b"\x05\0\0\0\0\0\0\0\x03",
        64,
        b"",
        true,
    ),
    (
        b"\0\0\0\0\0\0\0\x05\0\x07\0\x41",
        b"\x05\0\0\0\0\0\0\0\x03",
        65,
        b"",
        false,
    ),
    (
        b"\0\0\0\0\0\0\0\x05\0\x02\0\0\0\x08/queue/q\0\x40",
        b"\0\0\0\x01k\0\0\0\x01v",
        64,
        b"\0\0\0\0",
        true,
    ),
    (
        b"\0\0\0\0\0\0\0\x05\0\x02\0\0\0\x08/queue/q\0\x41",
        b"\0\0\0\x01k\0\0\0\x01v",
        65,
        b"\0\0\0\0",
        false,
    ),
    (
        b"\0\0\0\0\0\0\0\x05\0\x02\0\0\0\x08/queue/q\0\0\0\x01\0\0",
        b"\0",
        65_536,
        b"",
        true,
    ),
    (
        b"\0\0\0\0\0\0\0\x05\0\x02\0\0\0\x08/queue/q\0\0\0\x01\0\x01",
        b"\0",
        65_537,
        b"",
        false,
    ),
    (
        b"\0\0\0\0\0\0\0\x05\x01\0\0\x20\0",
        b"r",
        8192,
        b"\x08",
        true,
    ),
    (
        b"\0\0\0\0\0\0\0\x05\x01\0\0\x20\x01",
        b"r",
        8193,
        b"\x08",
        false,
    ),
];

/// Session 0 opens.
pub const OPEN: &[u8] = b"\0\0\0\0\0\0\0\0\0\x01\0";

/// It subscribes to `/queue/q` as `s`, in `client` mode.
pub const LISTEN: &[u8] = b"\0\0\0\0\0\0\0\0\0\x03\0\0\0\x01s\0\0\0\x08/queue/q\x01\0";

/// It sends `hi` there.
pub const SEND: &[u8] = b"\0\0\0\0\0\0\0\0\0\x02\0\0\0\x08/queue/q\0\0\0\0\0\x02hi";

/// It refuses delivery 0.
pub const NACK: &[u8] = b"\0\0\0\0\0\0\0\0\0\x06\0\0\0\0\0\0\0\0";

// How long the record is that begins the bytes and is written as it stands there; none if no record does.
fn record_at(alloc: Global, bytes: &[u8]) -> Result<Option<usize>, AllocError> {
    let read = decode(alloc, bytes);
    let length = length_of(alloc, &read, bytes);
    drop(read);
    length
}

fn length_of(
    alloc: Global,
    read: &Result<(Command, usize), DecodeFault>,
    bytes: &[u8],
) -> Result<Option<usize>, AllocError> {
    match read {
        Ok((command, length)) => match bytes.get(..*length) {
            Some(record) if is_written(alloc, command, record)? => Ok(Some(*length)),
            _ => Ok(Some(usize::MAX)),
        },
        Err(DecodeFault::NoSpelling) => Ok(None),
        Err(DecodeFault::Memory(refused)) => Err(*refused),
    }
}

fn is_written(alloc: Global, command: &Command, record: &[u8]) -> Result<bool, AllocError> {
    let bytes = encode(alloc, command)?;
    let is_same = bytes.as_slice() == record;
    drop(bytes);
    Ok(is_same)
}

// Whether the record is read, with other bytes after it, and no front of it is.
fn is_read_whole(alloc: Global, record: &[u8]) -> Result<bool, AllocError> {
    for length in 0..record.len() {
        if record_at(alloc, &record[..length])?.is_some() {
            return Ok(false);
        }
    }
    let bytes = filled(alloc, record, b"\x01\0", 1, b"")?;
    let length = record_at(alloc, bytes.as_slice());
    drop(bytes);
    Ok(length? == Some(record.len()))
}

// Whether the bytes give what the marks say, with each byte one greater.
fn bears_marks(alloc: Global, bytes: &mut [u8], marks: &str) -> Result<bool, AllocError> {
    for (at, mark) in marks.as_bytes().iter().enumerate() {
        let Some(was) = bytes.get(at).copied() else {
            return Ok(false);
        };
        bytes[at] = was.wrapping_add(1);
        if record_at(alloc, bytes)?.is_some() != (*mark == b'.') {
            return Ok(false);
        }
        bytes[at] = was;
    }
    Ok(marks.len() == bytes.len())
}

fn bears_its_marks(alloc: Global, record: &[u8], marks: &str) -> Result<bool, AllocError> {
    let mut bytes = Vec::from_slice(alloc, record)?;
    let is_right = bears_marks(alloc, bytes.as_mut_slice(), marks);
    drop(bytes);
    is_right
}

#[test]
fn each_byte_of_a_record_is_read(rt: HostRuntime) -> Result<(), Fail> {
    for (record, marks) in &RECORDS {
        assert!(rt; is_read_whole(rt.alloc(), record)?);
        assert!(rt; bears_its_marks(rt.alloc(), record, marks)?);
    }
    Ok(())
}

#[test]
fn nothing_else_is_read(rt: HostRuntime) -> Result<(), Fail> {
    for bytes in &REFUSED {
        assert!(rt; record_at(rt.alloc(), bytes)?.is_none());
    }
    Ok(())
}

fn filled(
    alloc: Global,
    front: &[u8],
    piece: &[u8],
    count: usize,
    back: &[u8],
) -> Result<Vec<u8>, AllocError> {
    let mut bytes = Vec::from_slice(alloc, front)?;
    for _ in 0..count {
        bytes.extend_from_slice(piece)?;
    }
    bytes.extend_from_slice(back)?;
    Ok(bytes)
}

#[test]
fn records_have_their_limits(rt: HostRuntime) -> Result<(), Fail> {
    for (front, piece, count, back, is_record) in &LIMITS {
        let bytes = filled(rt.alloc(), front, piece, *count, back)?;
        assert!(rt; record_at(rt.alloc(), bytes.as_slice())?.is_some() == *is_record);
    }
    Ok(())
}

// `r1` as the text of a header.
fn r1(alloc: Global) -> Result<HeaderText, AllocError> {
    let text = String::from_str(alloc, "r1")?;
    Ok(HeaderText::new(Text::new(text)))
}

// `hi` to `/queue/a`.
fn greeting(alloc: Global) -> Result<Sending, DestFault> {
    let body = Bytes::new(Vec::from_slice(alloc, b"hi")?);
    match Dest::read(alloc, "/queue/a") {
        Ok(destination) => Ok(Sending::new(destination, Headers::new(Vec::new(alloc)), body)),
        Err(fault) => {
            drop(body);
            Err(fault)
        }
    }
}

// That command.
fn greeting_command(alloc: Global) -> Result<Command, Fail> {
    let sending = greeting(alloc)?;
    match r1(alloc) {
        Ok(receipt) => Ok(Command::new(0, Op::Send(sending), Some(receipt))),
        Err(refused) => {
            drop(sending);
            Err(Fail::from(refused))
        }
    }
}

#[test]
fn a_command_is_written_as_its_record(rt: HostRuntime) -> Result<(), Fail> {
    let command = greeting_command(rt.alloc())?;
    let is_right = is_written(rt.alloc(), &command, GREETING);
    drop(command);
    assert!(rt; is_right?);
    Ok(())
}

#[test]
fn the_laws_of_spelling_ask_for_nothing() {
    parts_are_read_as_they_are_spelled();
    lists_are_read_as_they_are_spelled::<u8>();
}

/// Carries the command of a record out, if the broker can count one more.
pub fn execute(alloc: Global, broker: &mut Broker, record: &[u8]) -> Result<Vec<Out>, Fail> {
    if broker.count() >= 10_000 {
        return Err(Fail::from("too many commands"));
    }
    let (command, _) = decode(alloc, record)?;
    Ok(broker.step(alloc, command)?)
}

/// Carries out all.
pub fn execute_all(alloc: Global, broker: &mut Broker, records: &[&[u8]]) -> Result<(), Fail> {
    for record in records {
        let _outs = execute(alloc, broker, record)?;
    }
    Ok(())
}

/// Whether all that is answered is an ERROR with that text.
pub fn is_error(outs: &[Out], text: &str) -> bool {
    match outs {
        [out] => out.error() == Some(text),
        _ => false,
    }
}
