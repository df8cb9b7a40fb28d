//! Calls whose memory is refused. In an ordinary run nothing is refused, and each call gives its whole answer.
//! `tests/program/no_memory.py` has each growth refused in turn, and reads what these tests say of it.

use broker_core::{Broker, BrokerFault};
use command_core::{DecodeFault, End, Op, decode, encode};
use frame_core::{FeedFault, FrameReader};
use session_core::{Act, Session, SessionFault};
use snapshot_core::{decode_state, encode_state};
use std::alloc::{AllocError, Global};
use std::test::Fail;

// Commands, and how many outputs each gives. `anna` opens a session, and listens to a topic under a durable name, and to a queue. A
// message goes to each and is handed out. She refuses the first, which is kept, and is told so. A transaction sends another, which is
// handed out, and acknowledges the second. What she has of the queue goes back as she leaves it, and her session ends.
const COMMANDS: [(&[u8], usize); 9] = [
    (b"\0\0\0\0\0\0\0\0\0\x01\x01\0\0\0\x04anna", 1),
    (
        b"\0\0\0\0\0\0\0\0\0\x03\0\0\0\x01d\0\0\0\x08/topic/t\x01\x01\0\0\0\x01n",
        0,
    ),
    (
        b"\0\0\0\0\0\0\0\0\0\x03\0\0\0\x01s\0\0\0\x08/queue/q\x01\0",
        0,
    ),
    (
        b"\0\0\0\0\0\0\0\0\0\x02\0\0\0\x08/queue/q\0\0\0\0\0\x01x",
        1,
    ),
    (
        b"\0\0\0\0\0\0\0\0\0\x02\0\0\0\x08/topic/t\0\0\0\0\0\x01y",
        1,
    ),
    (b"\0\0\0\0\0\0\0\0\x01\0\0\0\x01r\x06\0\0\0\0\0\0\0\0", 1),
    (
        b"\0\0\0\0\0\0\0\0\0\x07\0\x02\x02\0\0\0\x08/queue/q\0\0\0\0\0\x01z\x05\0\0\0\0\0\0\0\x01",
        1,
    ),
    (b"\0\0\0\0\0\0\0\0\0\x04\x01\0\0\0\x01s\0", 0),
    (b"\0\0\0\0\0\0\0\0\0\x09\0", 0),
];

// The snapshot after five commands and one delivery. It has the session 0 of `anna`; `reader` of `anna`, for which `hi` waits; and
// `x` in `/queue/q`. It has two subscriptions of session 0, of which one has `y` unacknowledged.
const SNAPSHOT: &[u8] = b"\0\0\0\0\0\0\0\x05\0\0\0\0\0\0\0\x01\
\0\0\0\x01\0\0\0\0\0\0\0\0\x01\0\0\0\x04anna\
\0\0\0\x01\0\0\0\x04anna\0\0\0\x06reader\0\0\0\x0b/topic/news\
\0\0\0\x01\0\0\0\0\0\0\0\x03\0\0\0\0\0\0\0\x0b/topic/news\0\x01\0\0\0\x01k\0\0\0\x01v\0\0\0\x02hi\
\0\0\0\x01\0\0\0\x08/queue/q\
\0\0\0\x01\0\0\0\0\0\0\0\x02\0\0\0\0\0\0\0\x08/queue/q\0\0\0\0\0\x01x\
\0\0\0\x02\0\0\0\0\0\0\0\0\0\0\0\x01s\0\0\0\x0b/queue/jobs\x01\0\
\0\0\0\x01\0\0\0\0\0\0\0\0\0\0\0\0\0\0\0\x01\0\0\0\0\0\0\0\x0b/queue/jobs\0\0\0\0\0\x01y\
\0\0\0\0\0\0\0\0\0\0\0\x01t\0\0\0\x08/topic/t\0\0\0\0\0\0\0\0\0\0";

// Its restart: no session, and `y` in `/queue/jobs`.
const RESTARTED: &[u8] = b"\0\0\0\0\0\0\0\x05\0\0\0\0\0\0\0\x01\
\0\0\0\0\
\0\0\0\x01\0\0\0\x04anna\0\0\0\x06reader\0\0\0\x0b/topic/news\
\0\0\0\x01\0\0\0\0\0\0\0\x03\0\0\0\0\0\0\0\x0b/topic/news\0\x01\0\0\0\x01k\0\0\0\x01v\0\0\0\x02hi\
\0\0\0\x02\0\0\0\x0b/queue/jobs\
\0\0\0\x01\0\0\0\0\0\0\0\x01\0\0\0\0\0\0\0\x0b/queue/jobs\0\0\0\0\0\x01y\
\0\0\0\x08/queue/q\
\0\0\0\x01\0\0\0\0\0\0\0\x02\0\0\0\0\0\0\0\x08/queue/q\0\0\0\0\0\x01x\
\0\0\0\0";

// Two frames, with a header that has an escape and a body that has a NUL, and the front of a third; cut within the first.
const PIECES: (&[u8], &[u8]) = (
    b"SEND\ndestination:/queue/a\nk:a\\cb\ncont",
    b"ent-length:3\n\na\0b\0\nCONNECT\naccept-version:1.2\n\n\0SEND\nk:v",
);

// What an open session hears: a durable subscription, a transaction, and a fault of the stream.
const ASKED: &[u8] = b"SUBSCRIBE\ndestination:/topic/t\nid:s\nactivemq.subscriptionName:n\n\n\0\
BEGIN\ntransaction:t\n\n\0ACK\nid:3\ntransaction:t\nreceipt:r\n\n\0\
SEND\ndestination:/queue/a\ntransaction:t\nk:v\n\nhi\0COMMIT\ntransaction:t\nreceipt:r2\n\n\0\
SEND\n:value\n";

// A subscription, a note, a transaction, the session's end, and a close.
const ACTS: usize = 5;

const CONNECT: &[u8] = b"CONNECT\naccept-version:1.2\n\n\0";

// The record of a transaction of session 0 that sends `hi` with a header and acknowledges delivery 3, and asks for a receipt.
const RECORD: &[u8] = b"\0\0\0\0\0\0\0\0\x01\0\0\0\x02r1\x07\0\x02\
\x02\0\0\0\x08/queue/q\0\x01\0\0\0\x01k\0\0\0\x01v\0\0\0\x02hi\
\x05\0\0\0\0\0\0\0\x03";

// What is seen of a call.
#[derive(Clone, Copy, PartialEq, Eq)]
enum Seen {
    // It gave its whole answer.
    Whole,
    // It was refused memory, said so, and left what it should.
    Refused,
    // Memory was refused before it or after it.
    Unseen,
    // It answered or left something else.
    Wrong,
}

// What the script beside the gate reads.
fn word_of(seen: Seen) -> &'static str {
    match seen {
        Seen::Whole => "whole",
        Seen::Refused => "refused",
        Seen::Unseen => "unseen",
        Seen::Wrong => "wrong",
    }
}

fn seen_if(is_right: bool, seen: Seen) -> Seen {
    if is_right { seen } else { Seen::Wrong }
}

// Whether a broker that was refused memory holds nothing but its count, and stays so.
fn has_broken(alloc: Global, broker: &mut Broker, count: u64) -> bool {
    let holds_nothing = broker.is_broken() && broker.held().messages == 0;
    let again = matches!(broker.restart(alloc), Err(BrokerFault::Broken));
    holds_nothing && again && broker.count() == count
}

fn step_one(alloc: Global, broker: &mut Broker, record: &[u8], outputs: usize) -> Seen {
    let count = broker.count();
    if count >= 1 << 62 {
        return Seen::Wrong;
    }
    match decode(alloc, record) {
        Ok((command, _)) => match broker.step(alloc, command) {
            Ok(outs) => seen_if(outs.len() == outputs, Seen::Whole),
            Err(BrokerFault::Memory(_)) => seen_if(has_broken(alloc, broker, count), Seen::Refused),
            Err(BrokerFault::Broken) => Seen::Wrong,
        },
        Err(DecodeFault::Memory(_)) => Seen::Unseen,
        Err(DecodeFault::NoSpelling) => Seen::Wrong,
    }
}

// Then two messages are held: `x` of the dead ones, and `z`. Three were handed out.
fn step_all(alloc: Global) -> Seen {
    let mut broker = Broker::new(alloc);
    let mut seen = Seen::Whole;
    for (record, outputs) in COMMANDS {
        if seen == Seen::Whole {
            seen = step_one(alloc, &mut broker, record, outputs);
        }
    }
    let ends = (
        broker.count(),
        broker.held().messages,
        broker.next_delivery(),
    );
    drop(broker);
    if seen == Seen::Whole {
        seen = seen_if(ends == (9, 2, 3), Seen::Whole);
    }
    seen
}

#[test]
fn a_broker_that_is_refused_memory_holds_nothing_but_its_count(
    rt: HostRuntime,
) -> Result<(), Fail> {
    let seen = step_all(rt.alloc());
    println!(rt; "{}", word_of(seen))?;
    assert!(rt; seen != Seen::Wrong);
    Ok(())
}

// The snapshot of a broker, which is whole and small.
fn snapshot(alloc: Global, broker: &Broker) -> Result<Option<Vec<u8>>, AllocError> {
    if broker.is_broken()
        || broker.sessions().len() > 1_000
        || broker.subscription_count() > 1_000
    {
        return Ok(None);
    }
    Ok(Some(encode_state(alloc, broker)?))
}

// Whether that is its snapshot; nothing if memory is refused.
fn has_snapshot(alloc: Global, broker: &Broker, wanted: &[u8]) -> Option<bool> {
    match snapshot(alloc, broker) {
        Ok(Some(bytes)) => {
            let is_same = bytes.as_slice() == wanted;
            drop(bytes);
            Some(is_same)
        }
        Ok(None) => Some(false),
        Err(_) => None,
    }
}

fn seen_of(has_snapshot: Option<bool>) -> Seen {
    match has_snapshot {
        Some(is_right) => seen_if(is_right, Seen::Whole),
        None => Seen::Unseen,
    }
}

fn restart(alloc: Global, broker: &mut Broker) -> Seen {
    match broker.restart(alloc) {
        Ok(()) => seen_of(has_snapshot(alloc, broker, RESTARTED)),
        Err(BrokerFault::Memory(_)) => seen_if(has_broken(alloc, broker, 5), Seen::Refused),
        Err(BrokerFault::Broken) => Seen::Wrong,
    }
}

fn decode_and_restart(alloc: Global) -> Seen {
    match decode_state(alloc, SNAPSHOT) {
        Ok(mut broker) => {
            let seen = restart(alloc, &mut broker);
            drop(broker);
            seen
        }
        Err(DecodeFault::Memory(_)) => Seen::Unseen,
        Err(DecodeFault::NoSpelling) => Seen::Wrong,
    }
}

#[test]
fn a_broker_whose_restart_is_refused_memory_holds_nothing(rt: HostRuntime) -> Result<(), Fail> {
    let seen = decode_and_restart(rt.alloc());
    println!(rt; "{}", word_of(seen))?;
    assert!(rt; seen != Seen::Wrong);
    Ok(())
}

fn decode_snapshot(alloc: Global) -> Seen {
    match decode_state(alloc, SNAPSHOT) {
        Ok(broker) => {
            let is_right = broker.count() == 5 && broker.held().messages == 3;
            drop(broker);
            seen_if(is_right, Seen::Whole)
        }
        Err(DecodeFault::Memory(_)) => seen_if(
            decode_state(alloc, SNAPSHOT).is_ok(),
            Seen::Refused,
        ),
        Err(DecodeFault::NoSpelling) => Seen::Wrong,
    }
}

#[test]
fn a_snapshot_for_which_memory_is_refused_is_not_called_damaged(
    rt: HostRuntime,
) -> Result<(), Fail> {
    let seen = decode_snapshot(rt.alloc());
    println!(rt; "{}", word_of(seen))?;
    assert!(rt; seen != Seen::Wrong);
    Ok(())
}

// The snapshot is written again if memory was refused for it.
fn encode_broker(alloc: Global) -> Seen {
    match decode_state(alloc, SNAPSHOT) {
        Ok(broker) => {
            let first = has_snapshot(alloc, &broker, SNAPSHOT);
            let again = has_snapshot(alloc, &broker, SNAPSHOT);
            drop(broker);
            match (first, again) {
                (None, again) => seen_if(again == Some(true), Seen::Refused),
                (Some(is_right), _) => seen_if(is_right, Seen::Whole),
            }
        }
        Err(DecodeFault::Memory(_)) => Seen::Unseen,
        Err(DecodeFault::NoSpelling) => Seen::Wrong,
    }
}

#[test]
fn a_state_for_whose_snapshot_memory_is_refused_is_whole(rt: HostRuntime) -> Result<(), Fail> {
    let seen = encode_broker(rt.alloc());
    println!(rt; "{}", word_of(seen))?;
    assert!(rt; seen != Seen::Wrong);
    Ok(())
}

// What is seen of a piece, which should give so many frames. Once memory was refused, the reader has failed.
fn feed(alloc: Global, reader: &mut FrameReader, piece: &[u8], frames: usize) -> Seen {
    match reader.feed(alloc, piece) {
        Ok(fed) => {
            let is_right = fed.frames.len() == frames && fed.fault.is_none();
            drop(fed);
            seen_if(is_right, Seen::Whole)
        }
        Err(FeedFault::Memory) => {
            let next = reader.feed(alloc, b"\n");
            seen_if(matches!(next, Err(FeedFault::Failed)), Seen::Refused)
        }
        Err(FeedFault::Failed) => Seen::Wrong,
    }
}

fn feed_both(alloc: Global) -> Seen {
    let mut reader = FrameReader::new(alloc);
    let first = feed(alloc, &mut reader, PIECES.0, 0);
    let seen = if first == Seen::Whole {
        feed(alloc, &mut reader, PIECES.1, 2)
    } else {
        first
    };
    drop(reader);
    seen
}

#[test]
fn a_reader_that_is_refused_memory_has_failed(rt: HostRuntime) -> Result<(), Fail> {
    let seen = feed_both(rt.alloc());
    println!(rt; "{}", word_of(seen))?;
    assert!(rt; seen != Seen::Wrong);
    Ok(())
}

// Whether the session, which was refused memory, has failed, and ends if its connection is lost: the broker was asked to open it.
fn has_failed(alloc: Global, session: &mut Session) -> bool {
    let next = session.feed(alloc, b"\n");
    let has_failed = matches!(next, Err(SessionFault::Failed));
    drop(next);
    let act = session.lost();
    let is_end = matches!(&act, Some(Act::Do(Op::End(End::Lost), None)));
    drop(act);
    has_failed && is_end
}

// What is seen of a session that was opened.
fn ask(alloc: Global, session: &mut Session) -> Seen {
    match session.feed(alloc, ASKED) {
        Ok(acts) => {
            let is_right = acts.len() == ACTS;
            drop(acts);
            seen_if(is_right, Seen::Whole)
        }
        Err(SessionFault::Memory) => seen_if(has_failed(alloc, session), Seen::Refused),
        Err(SessionFault::Failed) => Seen::Wrong,
    }
}

fn open_and_ask(alloc: Global) -> Seen {
    let mut session = Session::new(alloc);
    let opened = session.feed(alloc, CONNECT).is_ok();
    let seen = if opened {
        ask(alloc, &mut session)
    } else {
        Seen::Unseen
    };
    drop(session);
    seen
}

#[test]
fn a_session_that_is_refused_memory_has_failed(rt: HostRuntime) -> Result<(), Fail> {
    let seen = open_and_ask(rt.alloc());
    println!(rt; "{}", word_of(seen))?;
    assert!(rt; seen != Seen::Wrong);
    Ok(())
}

fn decode_record(alloc: Global) -> Seen {
    match decode(alloc, RECORD) {
        Ok((command, length)) => {
            drop(command);
            seen_if(length == RECORD.len(), Seen::Whole)
        }
        // It reads no other bytes for it: they spell the command still.
        Err(DecodeFault::Memory(_)) => seen_if(decode(alloc, RECORD).is_ok(), Seen::Refused),
        Err(DecodeFault::NoSpelling) => Seen::Wrong,
    }
}

#[test]
fn a_record_for_which_memory_is_refused_is_not_called_damaged(rt: HostRuntime) -> Result<(), Fail> {
    let seen = decode_record(rt.alloc());
    println!(rt; "{}", word_of(seen))?;
    assert!(rt; seen != Seen::Wrong);
    Ok(())
}

fn encode_record(alloc: Global) -> Seen {
    let Ok((command, _)) = decode(alloc, RECORD) else {
        return Seen::Unseen;
    };
    let first = encode(alloc, &command);
    let again = encode(alloc, &command);
    drop(command);
    let is_again = matches!(&again, Ok(bytes) if bytes.as_slice() == RECORD);
    drop(again);
    match first {
        Ok(bytes) if bytes.as_slice() == RECORD => {
            // The second may be the one that was refused.
            drop(bytes);
            Seen::Whole
        }
        Ok(_) => Seen::Wrong,
        Err(_) => seen_if(is_again, Seen::Refused),
    }
}

#[test]
fn a_command_for_whose_record_memory_is_refused_is_whole(rt: HostRuntime) -> Result<(), Fail> {
    let seen = encode_record(rt.alloc());
    println!(rt; "{}", word_of(seen))?;
    assert!(rt; seen != Seen::Wrong);
    Ok(())
}
