ghost use Rattle.std.specs.Prelude.{◌≡◌};
ghost use Rattle.hub_tests.specs.Parties.{AreTogether};

use crate::hubs::{
    AREA, Free, HubFlusher, HubRing, HubSeat, NO_SHORTAGE, Noting, Party, SMALL_AREA, Scarce,
    ScriptedLink, Shortage, close, is_front, link_of, link_of_rounds, new_disk, new_party,
    next_over,
};
use disk_core::MemDisk;
use engine_core::{Closed, Ended, Gate, ScriptFault, flush_loop, run_script, worker};
use flush_core::FlushFault;
use outbox_core::Silent;
use std::alloc::Global;
use std::cell::Cell;
use std::sync::Wait;
use std::test::Fail;
use std::thread::{Threads, join_mut};
use std::time::Clock;

const ROWS: [Row; 10] = [
    // More commands than the window lets in, and a DISCONNECT that asks for a receipt.
    Row {
        texts: &[CONNECT, TWENTY_RECEIPTED, LAST_WORD],
        ended: Ended::Bye,
        code: Some(1000),
        sent: ALL_RECEIPTS,
        appended: Some(22),
        heard: [true, true, false],
        ..SILENT
    },
    // A DISCONNECT that asks for none: what is still to be sent is not waited for.
    Row {
        texts: &[CONNECT, DISCONNECT],
        ended: Ended::Bye,
        code: Some(1000),
        appended: Some(2),
        heard: [true, false, false],
        ..SILENT
    },
    // One with a receipt at once.
    Row {
        texts: &[CONNECT, LAST_WORD],
        flushes: true,
        ended: Ended::Bye,
        code: Some(1000),
        sent: &[CONNECTED, LAST_RECEIPT],
        appended: Some(2),
        heard: [true, false, false],
        ..SILENT
    },
    // A frame that a new session may not send.
    Row {
        texts: &[SEND_X],
        ended: Ended::Bad,
        code: Some(1002),
        sent: &[NOT_EXPECTED],
        ..SILENT
    },
    // The peer closes.
    Row {
        texts: &[CONNECT],
        closes: true,
        ended: Ended::Lost,
        appended: Some(2),
        heard: [true, false, false],
        ..SILENT
    },
    // The link is gone while commands wait: they are appended, and behind them that the connection is lost.
    Row {
        texts: &[CONNECT, TWENTY_SENDS],
        breaks: true,
        ended: Ended::Lost,
        appended: Some(22),
        heard: [true, true, false],
        ..SILENT
    },
    // The outbox is cut: what is in it is sent, that the connection is lost is appended, and the link is closed. An Open and
    // fifteen subscriptions are a window, which takes three turns, since one does eight acts; and sixteen transactions are
    // another window, whose outputs are 15,360 messages; the last transaction waits for room.
    Row {
        texts: &[CONNECT, FIFTEEN_SUBSCRIBERS],
        round: TRANSACTION,
        rounds: 17,
        ended: Ended::Lost,
        code: Some(1001),
        overflows: true,
        appended: Some(34),
        heard: [true, true, false],
        awaits: Some(Awaited {
            turn: 3,
            mark: 16,
            holds: true,
        }),
        ..SILENT
    },
    // The turns are used up.
    Row {
        texts: &[CONNECT],
        turns: 3,
        appended: Some(1),
        heard: [true, false, false],
        ..SILENT
    },
    // No turn is taken.
    Row {
        texts: &[CONNECT],
        turns: 3,
        shut: true,
        ..SILENT
    },
    // The journal is full while the window is. Its Open is published before: else the block would be cut behind that.
    Row {
        texts: &[CONNECT, LONG_HEAD, LONG_BODY, LONG_END, TWENTY_SENDS],
        ended: Ended::Stopped,
        code: Some(1001),
        sent: &[CONNECTED],
        appended: None,
        heard: [true, true, true],
        awaits: Some(Awaited {
            turn: 1,
            mark: 1,
            holds: true,
        }),
        ..SILENT
    },
];

// A subscriber that acknowledges a message twice. Its worker has 2,000 turns of a millisecond.
pub const TWICE: Row = Row {
    texts: SUBSCRIBER,
    turns: 2_000,
    flushes: true,
    ended: Ended::Bad,
    code: Some(1002),
    sent: THREE_MESSAGES,
    appended: Some(7),
    heard: [true, false, false],
    ..SILENT
};

// Five commands are published before the third turn, and there are three.
const AT_ONCE: Row = Row {
    texts: &[CONNECT, FIVE_SENDS],
    turns: 3,
    sent: FIVE_RECEIPTS,
    appended: Some(6),
    heard: [true, false, false],
    awaits: Some(Awaited {
        turn: 2,
        mark: 6,
        holds: false,
    }),
    ..SILENT
};

// Memory is refused for an outbox, two sends and a close, and for an ERROR that is told at once.
const SCARCE: [Row; 2] = [
    Row {
        texts: &[CONNECT, LAST_WORD],
        flushes: true,
        ended: Ended::Bye,
        code: Some(1000),
        sent: &[CONNECTED, LAST_RECEIPT],
        appended: Some(2),
        heard: [true, false, false],
        shortage: Shortage {
            bells: 2,
            sends: 2,
            errors: 0,
            ends: 1,
        },
        ..SILENT
    },
    Row {
        texts: &[SEND_X],
        ended: Ended::Bad,
        code: Some(1002),
        sent: &[NOT_EXPECTED],
        shortage: Shortage {
            bells: 0,
            sends: 0,
            errors: 2,
            ends: 1,
        },
        ..SILENT
    },
];

// A subscriber that acknowledges a message twice.
const SCRIPT: &[u8] = b"0 CONNECT%0Aaccept-version:1.2%0A%0A%00
0 SUBSCRIBE%0Aid:s%0Adestination:/queue/q%0Aack:client%0A%0A%00
0 SEND%0Adestination:/queue/q%0A%0Ax%00
0 SEND%0Adestination:/queue/q%0A%0Ay%00
0 SEND%0Adestination:/queue/q%0A%0Az%00
flush
0 ACK%0Aid:1%0A%0A%00
0 ACK%0Aid:1%0Areceipt:r9%0A%0A%00
flush
open
";

const PRINTED: &[u8] = b"0 CONNECTED%0Aversion:1.2%0Asession:0%0Aheart-beat:0,0%0A%0A%00
0 MESSAGE%0Asubscription:s%0Amessage-id:2.0%0Adestination:/queue/q%0Aack:0%0Acontent-length:1%0A%0Ax%00
0 MESSAGE%0Asubscription:s%0Amessage-id:3.0%0Adestination:/queue/q%0Aack:1%0Acontent-length:1%0A%0Ay%00
0 MESSAGE%0Asubscription:s%0Amessage-id:4.0%0Adestination:/queue/q%0Aack:2%0Acontent-length:1%0A%0Az%00
0 ERROR%0Amessage:E11 unknown acknowledgement id%0Areceipt-id:r9%0A%0A%00
open 7 1
";

// More turns than are needed, of a millisecond each where a pace sleeps.
const REFUSED_TURNS: u64 = 20;

const PACED_TURNS: u64 = 500;

/// More turns than any of them needs.
pub const TURNS: u64 = 5_000;

/// A client that says nothing.
pub const SILENT: Row = Row {
    texts: &[],
    round: &[],
    rounds: 0,
    closes: false,
    breaks: false,
    turns: TURNS,
    shut: false,
    flushes: false,
    ended: Ended::Turns,
    code: None,
    sent: &[],
    overflows: false,
    appended: Some(0),
    heard: [false, false, false],
    awaits: None,
    shortage: NO_SHORTAGE,
};

pub const CONNECT: &[u8] = b"CONNECT\naccept-version:1.2\n\n\0";

pub const SUBSCRIBE: &[u8] = b"SUBSCRIBE\nid:s\ndestination:/queue/q\nack:client\n\n\0";

pub const SEND_X: &[u8] = b"SEND\ndestination:/queue/q\n\nx\0";

pub const SEND_Y: &[u8] = b"SEND\ndestination:/queue/q\n\ny\0";

pub const SEND_Z: &[u8] = b"SEND\ndestination:/queue/q\n\nz\0";

pub const ACK: &[u8] = b"ACK\nid:1\n\n\0";

pub const ACK_AGAIN: &[u8] = b"ACK\nid:1\nreceipt:r9\n\n\0";

/// One message with twenty frames, each with a receipt: more than a window.
pub const TWENTY_RECEIPTED: &[u8] = b"SEND\ndestination:/topic/a\nreceipt:a\n\n\0\
SEND\ndestination:/topic/a\nreceipt:b\n\n\0\
SEND\ndestination:/topic/a\nreceipt:c\n\n\0\
SEND\ndestination:/topic/a\nreceipt:d\n\n\0\
SEND\ndestination:/topic/a\nreceipt:e\n\n\0\
SEND\ndestination:/topic/a\nreceipt:f\n\n\0\
SEND\ndestination:/topic/a\nreceipt:g\n\n\0\
SEND\ndestination:/topic/a\nreceipt:h\n\n\0\
SEND\ndestination:/topic/a\nreceipt:i\n\n\0\
SEND\ndestination:/topic/a\nreceipt:j\n\n\0\
SEND\ndestination:/topic/a\nreceipt:k\n\n\0\
SEND\ndestination:/topic/a\nreceipt:l\n\n\0\
SEND\ndestination:/topic/a\nreceipt:m\n\n\0\
SEND\ndestination:/topic/a\nreceipt:n\n\n\0\
SEND\ndestination:/topic/a\nreceipt:o\n\n\0\
SEND\ndestination:/topic/a\nreceipt:p\n\n\0\
SEND\ndestination:/topic/a\nreceipt:q\n\n\0\
SEND\ndestination:/topic/a\nreceipt:r\n\n\0\
SEND\ndestination:/topic/a\nreceipt:s\n\n\0\
SEND\ndestination:/topic/a\nreceipt:t\n\n\0";

/// One message with five frames: with an Open they are fewer than a window.
pub const FIVE_SENDS: &[u8] = b"SEND\ndestination:/topic/a\nreceipt:a\n\n\0\
SEND\ndestination:/topic/a\nreceipt:b\n\n\0\
SEND\ndestination:/topic/a\nreceipt:c\n\n\0\
SEND\ndestination:/topic/a\nreceipt:d\n\n\0\
SEND\ndestination:/topic/a\nreceipt:e\n\n\0";

/// One message with twenty frames: more than a window.
pub const TWENTY_SENDS: &[u8] = b"SEND\ndestination:/topic/a\n\n\0SEND\ndestination:/topic/a\n\n\0\
SEND\ndestination:/topic/a\n\n\0SEND\ndestination:/topic/a\n\n\0\
SEND\ndestination:/topic/a\n\n\0SEND\ndestination:/topic/a\n\n\0\
SEND\ndestination:/topic/a\n\n\0SEND\ndestination:/topic/a\n\n\0\
SEND\ndestination:/topic/a\n\n\0SEND\ndestination:/topic/a\n\n\0\
SEND\ndestination:/topic/a\n\n\0SEND\ndestination:/topic/a\n\n\0\
SEND\ndestination:/topic/a\n\n\0SEND\ndestination:/topic/a\n\n\0\
SEND\ndestination:/topic/a\n\n\0SEND\ndestination:/topic/a\n\n\0\
SEND\ndestination:/topic/a\n\n\0SEND\ndestination:/topic/a\n\n\0\
SEND\ndestination:/topic/a\n\n\0SEND\ndestination:/topic/a\n\n\0";

/// One message with fifteen frames: with an Open they are a window.
pub const FIFTEEN_SUBSCRIBERS: &[u8] = b"SUBSCRIBE\nid:1\ndestination:/topic/a\n\n\0\
SUBSCRIBE\nid:2\ndestination:/topic/a\n\n\0\
SUBSCRIBE\nid:3\ndestination:/topic/a\n\n\0\
SUBSCRIBE\nid:4\ndestination:/topic/a\n\n\0\
SUBSCRIBE\nid:5\ndestination:/topic/a\n\n\0\
SUBSCRIBE\nid:6\ndestination:/topic/a\n\n\0\
SUBSCRIBE\nid:7\ndestination:/topic/a\n\n\0\
SUBSCRIBE\nid:8\ndestination:/topic/a\n\n\0\
SUBSCRIBE\nid:9\ndestination:/topic/a\n\n\0\
SUBSCRIBE\nid:10\ndestination:/topic/a\n\n\0\
SUBSCRIBE\nid:11\ndestination:/topic/a\n\n\0\
SUBSCRIBE\nid:12\ndestination:/topic/a\n\n\0\
SUBSCRIBE\nid:13\ndestination:/topic/a\n\n\0\
SUBSCRIBE\nid:14\ndestination:/topic/a\n\n\0\
SUBSCRIBE\nid:15\ndestination:/topic/a\n\n\0";

pub const BEGIN: &[u8] = b"BEGIN\ntransaction:t\n\n\0";

/// A fourth of a transaction's members.
pub const MEMBERS: &[u8] =
    b"SEND\ndestination:/topic/a\ntransaction:t\n\n\0SEND\ndestination:/topic/a\ntransaction:t\n\n\0\
SEND\ndestination:/topic/a\ntransaction:t\n\n\0SEND\ndestination:/topic/a\ntransaction:t\n\n\0\
SEND\ndestination:/topic/a\ntransaction:t\n\n\0SEND\ndestination:/topic/a\ntransaction:t\n\n\0\
SEND\ndestination:/topic/a\ntransaction:t\n\n\0SEND\ndestination:/topic/a\ntransaction:t\n\n\0\
SEND\ndestination:/topic/a\ntransaction:t\n\n\0SEND\ndestination:/topic/a\ntransaction:t\n\n\0\
SEND\ndestination:/topic/a\ntransaction:t\n\n\0SEND\ndestination:/topic/a\ntransaction:t\n\n\0\
SEND\ndestination:/topic/a\ntransaction:t\n\n\0SEND\ndestination:/topic/a\ntransaction:t\n\n\0\
SEND\ndestination:/topic/a\ntransaction:t\n\n\0SEND\ndestination:/topic/a\ntransaction:t\n\n\0";

pub const COMMIT: &[u8] = b"COMMIT\ntransaction:t\n\n\0";

/// A transaction of 64 messages.
pub const TRANSACTION: &[&[u8]] = &[BEGIN, MEMBERS, MEMBERS, MEMBERS, MEMBERS, COMMIT];

/// A frame in three messages, whose record no area has room for.
pub const LONG_HEAD: &[u8] = b"SEND\ndestination:/topic/a\n\n";

pub const LONG_BODY: &[u8] = &[b'x'; 4_096];

pub const LONG_END: &[u8] = b"\0";

pub const DISCONNECT: &[u8] = b"DISCONNECT\n\n\0";

pub const LAST_WORD: &[u8] = b"DISCONNECT\nreceipt:z\n\n\0";

pub const CONNECTED: &[u8] = b"CONNECTED\nversion:1.2\nsession:0\nheart-beat:0,0\n\n\0";

pub const MESSAGE_X: &[u8] =
    b"MESSAGE\nsubscription:s\nmessage-id:2.0\ndestination:/queue/q\nack:0\ncontent-length:1\n\nx\0";

pub const MESSAGE_Y: &[u8] =
    b"MESSAGE\nsubscription:s\nmessage-id:3.0\ndestination:/queue/q\nack:1\ncontent-length:1\n\ny\0";

pub const MESSAGE_Z: &[u8] =
    b"MESSAGE\nsubscription:s\nmessage-id:4.0\ndestination:/queue/q\nack:2\ncontent-length:1\n\nz\0";

pub const UNKNOWN_ID: &[u8] = b"ERROR\nmessage:E11 unknown acknowledgement id\nreceipt-id:r9\n\n\0";

pub const NOT_EXPECTED: &[u8] = b"ERROR\nmessage:E7 frame not expected here\n\n\0";

pub const LAST_RECEIPT: &[u8] = b"RECEIPT\nreceipt-id:z\n\n\0";

pub const FIVE_RECEIPTS: &[&[u8]] = &[
    CONNECTED,
    b"RECEIPT\nreceipt-id:a\n\n\0",
    b"RECEIPT\nreceipt-id:b\n\n\0",
    b"RECEIPT\nreceipt-id:c\n\n\0",
    b"RECEIPT\nreceipt-id:d\n\n\0",
    b"RECEIPT\nreceipt-id:e\n\n\0",
];

pub const ALL_RECEIPTS: &[&[u8]] = &[
    CONNECTED,
    b"RECEIPT\nreceipt-id:a\n\n\0",
    b"RECEIPT\nreceipt-id:b\n\n\0",
    b"RECEIPT\nreceipt-id:c\n\n\0",
    b"RECEIPT\nreceipt-id:d\n\n\0",
    b"RECEIPT\nreceipt-id:e\n\n\0",
    b"RECEIPT\nreceipt-id:f\n\n\0",
    b"RECEIPT\nreceipt-id:g\n\n\0",
    b"RECEIPT\nreceipt-id:h\n\n\0",
    b"RECEIPT\nreceipt-id:i\n\n\0",
    b"RECEIPT\nreceipt-id:j\n\n\0",
    b"RECEIPT\nreceipt-id:k\n\n\0",
    b"RECEIPT\nreceipt-id:l\n\n\0",
    b"RECEIPT\nreceipt-id:m\n\n\0",
    b"RECEIPT\nreceipt-id:n\n\n\0",
    b"RECEIPT\nreceipt-id:o\n\n\0",
    b"RECEIPT\nreceipt-id:p\n\n\0",
    b"RECEIPT\nreceipt-id:q\n\n\0",
    b"RECEIPT\nreceipt-id:r\n\n\0",
    b"RECEIPT\nreceipt-id:s\n\n\0",
    b"RECEIPT\nreceipt-id:t\n\n\0",
    LAST_RECEIPT,
];

/// What the subscriber gets that acknowledges a message twice.
pub const THREE_MESSAGES: &[&[u8]] = &[CONNECTED, MESSAGE_X, MESSAGE_Y, MESSAGE_Z, UNKNOWN_ID];

/// A subscriber that acknowledges a message twice.
pub const SUBSCRIBER: &[&[u8]] = &[CONNECT, SUBSCRIBE, SEND_X, SEND_Y, SEND_Z, ACK, ACK_AGAIN];

#[test]
fn worker_like_script(rt: HostRuntime) {
    assert_eq!(rt; first_wrong_row(&rt, rt.alloc(), &[TWICE]), None);
}

#[test]
fn each_connection_ends_as_it_should(rt: HostRuntime) {
    assert_eq!(rt; first_wrong_row(&rt, rt.alloc(), &ROWS), None);
}

#[test]
fn all_that_may_leave_is_sent_in_one_turn(rt: HostRuntime) {
    assert_eq!(rt; first_wrong_row(&rt, rt.alloc(), &[AT_ONCE]), None);
}

#[test]
fn what_memory_was_refused_for_is_done_in_a_later_turn(rt: HostRuntime) {
    assert_eq!(rt; first_wrong_row(&rt, rt.alloc(), &SCARCE), None);
}

// Whether its text is one of the two that it may report: of memory, and of the device if the growth was the disk's.
fn is_want(alloc: Global, fault: &ScriptFault) -> bool {
    match format!(in alloc; "{fault}") {
        Ok(text) => {
            let is_want = text.as_str() == "no memory" || text.as_str() == "J3 device failed";
            drop(text);
            is_want
        }
        Err(_) => false,
    }
}

// What the script beside the gate reads of one that has ended, and has written these bytes.
fn word_of_ended(alloc: Global, ended: &Result<(), ScriptFault>, written: &[u8]) -> &'static str {
    match ended {
        Ok(()) if written == PRINTED => "whole",
        Err(fault) if is_want(alloc, fault) && PRINTED.starts_with(written) => "refused",
        _ => "wrong",
    }
}

fn word_of_written(alloc: Global, disk: MemDisk, written: &mut Vec<u8>) -> &'static str {
    let mut reader = SCRIPT;
    let (disk, ended) = run_script(alloc, &mut reader, written, disk);
    drop(disk);
    let word = word_of_ended(alloc, &ended, written.as_slice());
    drop(ended);
    word
}

// The room of what it prints is made before.
fn word_of_script(alloc: Global) -> &'static str {
    let Ok(mut written) = Vec::<u8>::with_capacity(alloc, 4_096) else {
        return "unseen";
    };
    let word = match new_disk(alloc, SMALL_AREA) {
        Some(disk) => word_of_written(alloc, disk, &mut written),
        None => "unseen",
    };
    drop(written);
    word
}

#[test]
fn a_script_that_is_refused_memory_prints_a_front_of_what_it_would(
    rt: HostRuntime,
) -> Result<(), Fail> {
    let seen = word_of_script(rt.alloc());
    println!(rt; "{seen}")?;
    assert!(rt; seen != "wrong");
    Ok(())
}

// A worker on this thread that hears four commands. Answers whether it appended them; memory that was refused to it is asked for
// again.
fn append_four(alloc: Global, ring: &HubRing, seat: &mut HubSeat) -> bool
    requires { seat.old.ring ≡ ring.now }
    ensures { seat.new.ring ≡ ring.now }
{
    match link_of(alloc, &[CONNECT, SUBSCRIBE, SEND_X, SEND_Y]) {
        Some(mut link) => {
            let ended = worker(alloc, ring, seat, &mut link, &Silent, &Free, REFUSED_TURNS);
            drop(link);
            ended == Ended::Turns
        }
        None => false,
    }
}

// How a worker that asks to open a session ends.
fn open_another(alloc: Global, ring: &HubRing, seat: &mut HubSeat) -> Option<Ended>
    requires { seat.old.ring ≡ ring.now }
    ensures { seat.new.ring ≡ ring.now }
{
    let mut link = link_of(alloc, &[CONNECT])?;
    let ended = worker(alloc, ring, seat, &mut link, &Silent, &Free, REFUSED_TURNS);
    drop(link);
    Some(ended)
}

// How many commands the disk of a closed hub stands for, once its unsynced bytes are lost.
fn count_of(alloc: Global, closed: Closed<MemDisk>) -> Option<u64> {
    let Closed {
        base: _,
        claimed: _,
        taken: _,
        mark: _,
        disk,
    } = closed;
    let mut disk = disk;
    disk.crash(None);
    next_over(alloc, disk)
}

// What came of the loop, whether the flusher is broken, the mark, and how another worker ends then.
type Sight = (Flushed, bool, u64, Option<Ended>);

fn see_four(alloc: Global, party: &mut Party) -> Option<Sight>
    requires together { AreTogether 2 party.old.hub party.old.seats.items party.old.flusher }
    requires executed { party.old.flusher.executed ≡ party.old.flusher.stored }
    ensures { AreTogether 2 party.new.hub party.new.seats.items party.new.flusher }
{
    let ring = party.hub.ring();
    if !append_four(alloc, ring, &mut party.seats[0]) {
        return None;
    }
    let flushed = flush(alloc, ring, &mut party.flusher, &Free, REFUSED_TURNS);
    let is_broken = party.flusher.is_broken();
    let mark = party.flusher.mark();
    let ended = open_another(alloc, ring, &mut party.seats[1]);
    Some((flushed, is_broken, mark, ended))
}

// What is seen, and how many commands are on the disk.
fn flush_four(alloc: Global) -> Option<(Sight, Option<u64>)> {
    match new_party(alloc, SMALL_AREA, 2) {
        Some(mut party) => {
            let seen = see_four(alloc, &mut party);
            let count = match close(party) {
                Some(closed) => count_of(alloc, closed),
                None => None,
            };
            match seen {
                Some(seen) => Some((seen, count)),
                None => None,
            }
        }
        None => None,
    }
}

// What the script beside the gate reads. A worker whose session was refused memory appends fewer, and behind them the session's
// end.
fn word_of_flush(alloc: Global) -> &'static str {
    match flush_four(alloc) {
        None => "unseen",
        Some(((Flushed::To(4), false, 4, Some(Ended::Turns)), Some(4))) => "whole",
        Some(((Flushed::To(mark), false, same, ended), count)) => {
            let is_right = mark == same
                && (ended.is_none() || ended == Some(Ended::Turns) || ended == Some(Ended::Lost))
                && (count.is_none() || count == Some(mark));
            if is_right { "unseen" } else { "wrong" }
        }
        Some(((Flushed::Refused, true, mark, ended), count)) => {
            let holds = match count {
                Some(count) => mark <= count && count <= 4,
                None => false,
            };
            if holds && ended == Some(Ended::Stopped) {
                "refused"
            } else {
                "wrong"
            }
        }
        Some(_) => "wrong",
    }
}

#[test]
fn a_flusher_that_is_refused_memory_stops_and_loses_nothing(rt: HostRuntime) -> Result<(), Fail> {
    let seen = word_of_flush(rt.alloc());
    println!(rt; "{seen}")?;
    assert!(rt; seen != "wrong");
    Ok(())
}

// What the script beside the gate reads. A worker asks again for what memory was refused for, so that all comes out as ever; its
// session can't, and is told as lost. What was sent is a front of what should be.
fn word_of(worked: &Worked, flushed: Flushed, was_beside: bool) -> &'static str {
    if !worked.is_front {
        return "wrong";
    }
    match (worked.ended, flushed) {
        (Ended::Bad, Flushed::To(7)) if worked.sent == 5 => "whole",
        (Ended::Lost, Flushed::To(_)) => "refused",
        // All was appended before the flusher stopped, so that what is still to come does not come. A worker that stalls beside a
        // flusher that goes on is wrong.
        (Ended::Stopped | Ended::Lost | Ended::Bad | Ended::Turns, Flushed::Refused) => "unseen",
        // The thread of the worker was refused memory, so that it began once the flusher's turns were used up: nothing is published, and
        // nothing is sent.
        (Ended::Turns, Flushed::To(0)) if worked.sent == 0 && !was_beside => "unseen",
        _ => "wrong",
    }
}

fn word_of_work<R: Threads + Wait + Clock + Sync>(rt: &R, alloc: Global) -> &'static str {
    let row = Row {
        turns: PACED_TURNS,
        ..TWICE
    };
    let pace = Noting::new(rt, &row);
    let word = match run(rt, alloc, &row, &pace, PACED_TURNS) {
        Some((worked, flushed)) => word_of(&worked, flushed, pace.was_beside()),
        None => "unseen",
    };
    drop(pace);
    word
}

#[test]
fn a_worker_that_is_refused_memory_sends_nothing_else(rt: HostRuntime) -> Result<(), Fail> {
    let seen = word_of_work(&rt, rt.alloc());
    println!(rt; "{seen}")?;
    assert!(rt; seen != "wrong");
    Ok(())
}

/// A turn of a worker that is taken once every number under a mark is published.
#[derive(Clone, Copy)]
pub struct Awaited {
    pub turn: u64,
    pub mark: u64,
    pub holds: bool,
}

/// What a client sends, each text one message, and behind them a round of texts, so many times; whether its connection is
/// closed behind them, or breaks at the first send; how often its worker may turn, and whether that is held up; whether the
/// flusher turns from the beginning, or once the window is full, or once the worker has come to a turn that awaits a mark; and
/// how often memory is refused. Then what is to come of it: how the worker ends, if it does, with which code it closes, what it sends (or
/// whether its outbox overflows: then the journal is roomy, and the messages are counted), how many commands were appended
/// where the journal has room for them, and what the pace hears (commands, a full window, a flusher that stopped; and that
/// memory was refused).
#[derive(Clone, Copy)]
pub struct Row {
    pub texts: &'static [&'static [u8]],
    pub round: &'static [&'static [u8]],
    pub rounds: u32,
    pub closes: bool,
    pub breaks: bool,
    pub turns: u64,
    pub shut: bool,
    pub flushes: bool,
    pub ended: Ended,
    pub code: Option<u16>,
    pub sent: &'static [&'static [u8]],
    pub overflows: bool,
    pub appended: Option<u64>,
    pub heard: [bool; 3],
    pub awaits: Option<Awaited>,
    pub shortage: Shortage,
}

fn scripted(alloc: Global, row: &Row) -> Option<ScriptedLink> {
    match link_of_rounds(alloc, row.texts, row.round, row.rounds) {
        Some(link) => Some(ScriptedLink {
            link,
            closes: row.closes,
            breaks: row.breaks,
            code: None,
            short_sends: Cell::new(row.shortage.sends),
            short_errors: Cell::new(row.shortage.errors),
            short_ends: Cell::new(row.shortage.ends),
        }),
        None => None,
    }
}

/// What came of a worker: how it ended, with which code it closed its link, how many messages it sent, and whether each of them is the one
/// that should stand in its place.
#[derive(Clone, Copy)]
pub struct Worked {
    pub ended: Ended,
    pub code: Option<u16>,
    pub sent: usize,
    pub is_front: bool,
}

/// What came of the flusher's loop: the mark, or that it was refused memory, the disk's own among it, or failed otherwise.
#[derive(Clone, Copy, PartialEq, Eq)]
pub enum Flushed {
    To(u64),
    Refused,
    Otherwise,
}

// A worker over the link of a row.
fn serve<R: Clock>(
    alloc: Global,
    ring: &HubRing,
    seat: &mut HubSeat,
    row: &Row,
    pace: &Noting<R>,
) -> Option<Worked>
    requires { seat.old.ring ≡ ring.now }
    ensures { seat.new.ring ≡ ring.now }
{
    let mut link = scripted(alloc, row)?;
    let bells = Scarce {
        left: Cell::new(row.shortage.bells),
    };
    let ended = worker(alloc, ring, seat, &mut link, &bells, pace, row.turns);
    let (sent, code) = (link.link.sent().len(), link.code);
    let is_front = is_front(link.link.sent(), row.sent);
    drop(link);
    Some(Worked {
        ended,
        code,
        sent,
        is_front,
    })
}

// The same, and the flusher hears that it is over.
fn work<R: Clock>(
    alloc: Global,
    ring: &HubRing,
    seat: &mut HubSeat,
    row: &Row,
    pace: &Noting<R>,
) -> Option<Worked>
    requires { seat.old.ring ≡ ring.now }
    ensures { seat.new.ring ≡ ring.now }
{
    let worked = serve(alloc, ring, seat, row, pace);
    pace.end();
    worked
}

/// What comes of so many turns of a flusher.
pub fn flush<P: Gate>(
    alloc: Global,
    ring: &HubRing,
    flusher: &mut HubFlusher,
    pace: &P,
    turns: u64,
) -> Flushed
    requires { (flusher.old.seat.ring ≡ ring.now) × (flusher.old.executed ≡ flusher.old.stored) }
    ensures { (flusher.new.seat.ring ≡ ring.now) × (flusher.new.seat.seats ≡ flusher.old.seat.seats) }
{
    match flush_loop(alloc, ring, flusher, pace, turns) {
        Ok(mark) => Flushed::To(mark),
        Err(FlushFault::Memory(_) | FlushFault::Device) => Flushed::Refused,
        Err(_) => Flushed::Otherwise,
    }
}

// The worker in one thread and the flusher, which has so many turns, in another.
fn work_and_flush<R: Threads + Wait + Clock + Sync>(
    rt: &R,
    alloc: Global,
    party: &mut Party,
    row: &Row,
    pace: &Noting<R>,
    turns: u64,
) -> (Option<Worked>, Flushed)
    requires together { AreTogether 1 party.old.hub party.old.seats.items party.old.flusher }
    requires executed { party.old.flusher.executed ≡ party.old.flusher.stored }
    ensures { AreTogether 1 party.new.hub party.new.seats.items party.new.flusher }
{
    let ring = party.hub.ring();
    let seat = &mut party.seats[0];
    let flusher = &mut party.flusher;
    join_mut(
        rt,
        &mut || -> Option<Worked>
            requires { seat.now.ring ≡ ring.now }
        { work(alloc, ring, seat, row, pace) },
        &mut || -> Flushed
            requires { (flusher.now.seat.ring ≡ ring.now) × (flusher.now.executed ≡ flusher.now.stored) }
        { flush(alloc, ring, flusher, pace, turns) },
    )
}

/// What comes of the worker of a row, and of a flusher that has so many turns. `None` if memory was refused before they began.
pub fn run<R: Threads + Wait + Clock + Sync>(
    rt: &R,
    alloc: Global,
    row: &Row,
    pace: &Noting<R>,
    turns: u64,
) -> Option<(Worked, Flushed)> {
    let area_bytes = if row.overflows { AREA } else { SMALL_AREA };
    match new_party(alloc, area_bytes, 1) {
        Some(mut party) => {
            let (worked, flushed) = work_and_flush(rt, alloc, &mut party, row, pace, turns);
            drop(close(party));
            Some((worked?, flushed))
        }
        None => None,
    }
}

// Whether the worker ended as it should, and sent what it should: where the outbox overflows, CONNECTED, and then the 4,608 outputs that it
// has room for.
fn is_done(worked: &Worked, row: &Row) -> bool {
    let is_sent = if row.overflows {
        worked.sent == 1 + 4_608
    } else {
        worked.is_front && worked.sent == row.sent.len()
    };
    is_sent && worked.ended == row.ended && worked.code == row.code
}

// Whether the flusher published what was appended, or failed if the journal has no room for it.
fn is_flushed(flushed: Flushed, row: &Row) -> bool {
    match row.appended {
        Some(count) => flushed == Flushed::To(count),
        None => flushed == Flushed::Otherwise,
    }
}

// The mark that the pace hears of last: over all that was appended, or the awaited one if the flusher failed behind it.
fn last_mark(row: &Row) -> u64 {
    match (row.appended, row.awaits) {
        (Some(count), _) => count,
        (None, Some(awaited)) => awaited.mark,
        (None, None) => 0,
    }
}

// Whether a row comes out so.
//
// The mark at the end is the number of commands that were appended, since the flusher turns once more when the worker has
// ended.
fn is_right<R: Threads + Wait + Clock + Sync>(rt: &R, alloc: Global, row: &Row) -> bool {
    let pace = Noting::new(rt, row);
    let right = match run(rt, alloc, row, &pace, TURNS) {
        Some((worked, flushed)) => {
            is_done(&worked, row)
                && is_flushed(flushed, row)
                && pace.heard() == (row.heard, last_mark(row))
                && pace.was_short() == row.shortage.is_any()
        }
        None => false,
    };
    drop(pace);
    right
}

/// The place of the first row that comes out otherwise.
pub fn first_wrong_row<R: Threads + Wait + Clock + Sync>(
    rt: &R,
    alloc: Global,
    rows: &[Row],
) -> Option<usize> {
    for (place, row) in rows.iter().enumerate() {
        if !is_right(rt, alloc, row) {
            return Some(place);
        }
    }
    None
}
