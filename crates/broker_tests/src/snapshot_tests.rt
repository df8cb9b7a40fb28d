use crate::record_tests::execute;
use broker_core::Broker;
use command_core::DecodeFault;
use snapshot_core::{decode_state, encode_state};
use std::alloc::{AllocError, Global};
use std::test::Fail;

// The snapshot of a broker.
fn snapshot(alloc: Global, broker: &Broker) -> Result<Vec<u8>, Fail> {
    if broker.is_broken() {
        return Err(Fail::from("a broken broker"));
    }
    if broker.sessions().len() > 1_000 || broker.subscription_count() > 1_000 {
        return Err(Fail::from("more than the test made"));
    }
    Ok(encode_state(alloc, broker)?)
}

// The snapshot after the commands of these records, and that of the last one so many times.
fn snapshot_of(
    alloc: Global,
    broker: &mut Broker,
    records: &[&[u8]],
    times: usize,
    last: &[u8],
) -> Result<Vec<u8>, Fail> {
    for record in records {
        let _outs = execute(alloc, broker, record)?;
    }
    for _ in 0..times {
        let _outs = execute(alloc, broker, last)?;
    }
    snapshot(alloc, broker)
}

// Whether the snapshot of a new broker after them is these bytes.
fn snapshot_is(
    alloc: Global,
    records: &[&[u8]],
    times: usize,
    last: &[u8],
    bytes: &[u8],
) -> Result<bool, Fail> {
    let mut broker = Broker::new(alloc);
    let written = snapshot_of(alloc, &mut broker, records, times, last);
    drop(broker);
    let written = written?;
    let is_same = written.as_slice() == bytes;
    drop(written);
    Ok(is_same)
}

// Whether the state that the bytes are read as is written so; nothing if they are read as none.
fn written_again(alloc: Global, bytes: &[u8]) -> Result<Option<bool>, Fail> {
    match decode_state(alloc, bytes) {
        Ok(broker) => {
            let written = snapshot(alloc, &broker);
            drop(broker);
            let written = written?;
            let is_same = written.as_slice() == bytes;
            drop(written);
            Ok(Some(is_same))
        }
        Err(DecodeFault::NoSpelling) => Ok(None),
        Err(DecodeFault::Memory(refused)) => Err(Fail::from(refused)),
    }
}

fn is_no_state(alloc: Global, bytes: &[u8]) -> Result<bool, Fail> {
    Ok(written_again(alloc, bytes)?.is_none())
}

// Whether the bytes are read as a state that is written so.
fn goes_both_ways(alloc: Global, bytes: &[u8]) -> Result<bool, Fail> {
    Ok(written_again(alloc, bytes)? == Some(true))
}

#[test]
fn the_first_state_is_32_zero_bytes(rt: HostRuntime) -> Result<(), Fail> {
    let alloc = rt.alloc();
    let zeros = [0; 33];
    assert!(rt; snapshot_is(alloc, &[], 0, &[], &zeros[..32])?);
    assert!(rt; goes_both_ways(alloc, &zeros[..32])?);
    assert!(rt; is_no_state(alloc, &zeros)?);
    assert!(rt; is_no_state(alloc, &zeros[..31])?);
    Ok(())
}

// Two sessions, of which the second one's client is `c`. It listens to `/topic/t` as `d` under the durable name `n`, the
// first one as `p`, and to `/queue/q` as `q`; each has one delivery to acknowledge. `m` is bound to `/topic/u`, where a
// message waits though nobody listens. Three wait so in `/queue/w`, two of them sent in a transaction.
const COMMANDS: [&[u8]; 12] = [
    b"\0\0\0\0\0\0\0\0\0\x01\0",
    b"\0\0\0\0\0\0\0\0\0\x01\x01\0\0\0\x01c",
    b"\0\0\0\0\0\0\0\x01\0\x03\0\0\0\x01d\0\0\0\x08/topic/t\x01\x01\0\0\0\x01n",
    b"\0\0\0\0\0\0\0\0\0\x03\0\0\0\x01p\0\0\0\x08/topic/t\x02\0",
    b"\0\0\0\0\0\0\0\0\0\x03\0\0\0\x01q\0\0\0\x08/queue/q\x01\0",
    b"\0\0\0\0\0\0\0\0\0\x02\0\0\0\x08/queue/q\0\x01\0\0\0\x01k\0\0\0\x01v\0\0\0\x01a",
    b"\0\0\0\0\0\0\0\0\0\x02\0\0\0\x08/topic/t\0\0\0\0\0\x01b",
    b"\0\0\0\0\0\0\0\x01\0\x03\0\0\0\x01e\0\0\0\x08/topic/u\0\x01\0\0\0\x01m",
    b"\0\0\0\0\0\0\0\x01\0\x04\x01\0\0\0\x01e\0",
    b"\0\0\0\0\0\0\0\0\0\x02\0\0\0\x08/topic/u\0\0\0\0\0\x01x",
    b"\0\0\0\0\0\0\0\0\0\x02\0\0\0\x08/queue/w\0\0\0\0\0\x01y",
    b"\0\0\0\0\0\0\0\0\0\x07\0\x02\x02\0\0\0\x08/queue/w\0\0\0\0\0\x01z\x02\0\0\0\x08/queue/w\0\0\0\0\0\x01!",
];

// The snapshot after them, part by part. Beside each byte stands what comes of it if it is one greater: `.` another state,
// and `x` none, as with `#`, which stands beside counts.
const STATE: [(&[u8], &str); 66] = [
    // How many commands were carried out, and the next delivery.
    (b"\0\0\0\0\0\0\0\x0c", "........"),
    (b"\0\0\0\0\0\0\0\x03", "........"),
    // The sessions 0 and 1: another number is not under the count, or not that of a subscription's.
    (b"\0\0\0\x02", "####"),
    (b"\0\0\0\0\0\0\0\0\0", "xxxxxxxxx"),
    (b"\0\0\0\0\0\0\0\x01\x01\0\0\0\x01c", "xxxxxxxxxxxxxx"),
    // The durable names: `m` with a message, which may have any number under the count, and any place.
    (b"\0\0\0\x02", "####"),
    (b"\0\0\0\x01c\0\0\0\x01m", "xxxxxxxxxx"),
    (b"\0\0\0\x08/topic/u", "xxxxxxxxxxxx"),
    (b"\0\0\0\x01", "####"),
    (b"\0\0\0\0\0\0\0\x09\0\0\0\0", "xxxxxxx....."),
    (b"\0\0\0\x08/topic/u", "xxxxxxxxxxxx"),
    (b"\0\0", "xx"),
    (b"\0\0\0\x01x", "xxxx."),
    // `n` with no message.
    (b"\0\0\0\x01c\0\0\0\x01n", "xxxxxxxxxx"),
    (b"\0\0\0\x08/topic/t", "xxxxxxxxxxxx"),
    (b"\0\0\0\0", "####"),
    // `/queue/w` with three messages, by rising number.
    (b"\0\0\0\x01", "####"),
    (b"\0\0\0\x08/queue/w", "xxxxxxxxxxxx"),
    (b"\0\0\0\x03", "####"),
    (b"\0\0\0\0\0\0\0\x0a\0\0\0\0", "xxxxxxxx...."),
    (b"\0\0\0\x08/queue/w", "xxxxxxxxxxxx"),
    (b"\0\0", "xx"),
    (b"\0\0\0\x01y", "xxxx."),
    (b"\0\0\0\0\0\0\0\x0b\0\0\0\0", "xxxxxxxxxxxx"),
    (b"\0\0\0\x08/queue/w", "xxxxxxxxxxxx"),
    (b"\0\0", "xx"),
    (b"\0\0\0\x01z", "xxxx."),
    (b"\0\0\0\0\0\0\0\x0b\0\0\0\x01", "xxxxxxxx...."),
    (b"\0\0\0\x08/queue/w", "xxxxxxxxxxxx"),
    (b"\0\0", "xx"),
    (b"\0\0\0\x01!", "xxxx."),
    // The subscriptions, first those that were served longest ago. `q` may be one of the other session.
    (b"\0\0\0\x03", "####"),
    (b"\0\0\0\0\0\0\0\0", "xxxxxxx."),
    (b"\0\0\0\x01q", "xxxx."),
    (b"\0\0\0\x08/queue/q", "xxxxxxxxxxxx"),
    (b"\x01\0", ".x"),
    (b"\0\0\0\x01", "####"),
    (b"\0\0\0\0\0\0\0\0", "xxxxxxxx"),
    (b"\0\0\0\0\0\0\0\x05\0\0\0\0", "xxxxxxx....."),
    (b"\0\0\0\x08/queue/q", "xxxxxxxxxxxx"),
    (b"\0\x01", "xx"),
    (b"\0\0\0\x01k", "xxxx."),
    (b"\0\0\0\x01v", "xxxx."),
    (b"\0\0\0\x01a", "xxxx."),
    // `d`, under the durable name `n`.
    (b"\0\0\0\0\0\0\0\x01", "xxxxxxxx"),
    (b"\0\0\0\x01d", "xxxx."),
    (b"\0\0\0\x08/topic/t", "xxxxxxxxxxxx"),
    (b"\x01\x01", ".x"),
    (b"\0\0\0\x01n", "xxxxx"),
    (b"\0\0\0\x01", "####"),
    (b"\0\0\0\0\0\0\0\x01", "xxxxxxxx"),
    (b"\0\0\0\0\0\0\0\x06\0\0\0\0", "xxxxxxx....."),
    (b"\0\0\0\x08/topic/t", "xxxxxxxxxxxx"),
    (b"\0\0", "xx"),
    (b"\0\0\0\x01b", "xxxx."),
    // `p`, whose id may not be `q`, with an empty line of its own.
    (b"\0\0\0\0\0\0\0\0", "xxxxxxx."),
    (b"\0\0\0\x01p", "xxxxx"),
    (b"\0\0\0\x08/topic/t", "xxxxxxxxxxxx"),
    (b"\x02\0", "xx"),
    (b"\0\0\0\0", "####"),
    (b"\0\0\0\x01", "####"),
    (b"\0\0\0\0\0\0\0\x02", "xxxxxxxx"),
    (b"\0\0\0\0\0\0\0\x06\0\0\0\0", "xxxxxxx....."),
    (b"\0\0\0\x08/topic/t", "xxxxxxxxxxxx"),
    (b"\0\0", "xx"),
    (b"\0\0\0\x01b", "xxxx."),
];

// The bytes that a test reads.
#[derive(Clone, Copy)]
enum Spelled {
    // The state of every part.
    All,
    // The same, with 2^32 - 1 in place of the part of that number, which is a count.
    WithCount(usize),
    // Session 0 has a subscription of `/topic/t` with so many deliveries to acknowledge, of the commands from 2 on, and the next message in
    // its own line.
    OwnLine(u32),
    // Session 0, and in `/queue/q` the messages of the 4,096 commands from 1 on.
    FullQueue,
}

fn put(bytes: &mut Vec<u8>, spelled: Spelled) -> Result<(), AllocError> {
    match spelled {
        Spelled::All => put_parts(bytes, usize::MAX),
        Spelled::WithCount(place) => put_parts(bytes, place),
        Spelled::OwnLine(deliveries) => put_own_line(bytes, deliveries),
        Spelled::FullQueue => put_full_queue(bytes),
    }
}

// The parts, of which the one at that place is as great as it can be.
fn put_parts(bytes: &mut Vec<u8>, place: usize) -> Result<(), AllocError> {
    for (at, (part, _)) in STATE.iter().enumerate() {
        if at == place {
            bytes.extend_from_slice(&u32::MAX.to_be_bytes())?;
        } else {
            bytes.extend_from_slice(part)?;
        }
    }
    Ok(())
}

fn bytes_of(alloc: Global, what: Spelled) -> Result<Vec<u8>, AllocError> {
    let mut bytes = Vec::new(alloc);
    match put(&mut bytes, what) {
        Ok(()) => Ok(bytes),
        Err(refused) => {
            drop(bytes);
            Err(refused)
        }
    }
}

// Whether the bytes are the snapshot of a new broker after these records, and go both ways.
fn is_spelled_after(
    alloc: Global,
    what: Spelled,
    records: &[&[u8]],
    times: usize,
    last: &[u8],
) -> Result<bool, Fail> {
    let bytes = bytes_of(alloc, what)?;
    let is_so = is_after(alloc, records, times, last, bytes.as_slice());
    drop(bytes);
    is_so
}

fn is_after(
    alloc: Global,
    records: &[&[u8]],
    times: usize,
    last: &[u8],
    bytes: &[u8],
) -> Result<bool, Fail> {
    Ok(snapshot_is(alloc, records, times, last, bytes)? && goes_both_ways(alloc, bytes)?)
}

// Whether the bytes are no state.
fn spells_none(alloc: Global, what: Spelled) -> Result<bool, Fail> {
    let bytes = bytes_of(alloc, what)?;
    let is_none = is_no_state(alloc, bytes.as_slice());
    drop(bytes);
    is_none
}

#[test]
fn a_state_of_every_part_is_written_and_read(rt: HostRuntime) -> Result<(), Fail> {
    assert!(rt; is_spelled_after(rt.alloc(), Spelled::All, &COMMANDS, 0, &[])?);
    Ok(())
}

// Whether the bytes with that one greater are what a mark says: a state that is written so, or none.
fn is_marked_so(alloc: Global, bytes: &mut [u8], at: usize, mark: u8) -> Result<bool, Fail> {
    let Some(byte) = bytes.get_mut(at) else {
        return Err(Fail::from("a mark of no byte"));
    };
    let was = *byte;
    *byte = was.wrapping_add(1);
    let is_so = if mark == b'.' {
        goes_both_ways(alloc, bytes)?
    } else {
        is_no_state(alloc, bytes)?
    };
    if let Some(byte) = bytes.get_mut(at) {
        *byte = was;
    }
    Ok(is_so)
}

// The first byte that gives something other than the marks say, or how many bytes are marked.
fn marked(alloc: Global, bytes: &mut [u8]) -> Result<usize, Fail> {
    let mut at = 0_usize;
    for (_, marks) in &STATE {
        for mark in marks.as_bytes() {
            if !is_marked_so(alloc, bytes, at, *mark)? {
                return Ok(at);
            }
            at = at.wrapping_add(1);
        }
    }
    Ok(at)
}

#[test]
fn each_byte_of_a_state_is_read(rt: HostRuntime) -> Result<(), Fail> {
    let mut bytes = bytes_of(rt.alloc(), Spelled::All)?;
    let length = bytes.len();
    let count = marked(rt.alloc(), bytes.as_mut_slice());
    drop(bytes);
    assert_eq!(rt; count?, length);
    Ok(())
}

// Whether no front of the bytes is a state, and they are none with a byte more.
fn is_whole(alloc: Global, bytes: &mut Vec<u8>) -> Result<bool, Fail> {
    for length in 0..bytes.len() {
        if !is_no_state(alloc, &bytes[..length])? {
            return Ok(false);
        }
    }
    bytes.push(0)?;
    is_no_state(alloc, bytes.as_slice())
}

#[test]
fn a_part_of_a_state_is_none(rt: HostRuntime) -> Result<(), Fail> {
    let mut bytes = bytes_of(rt.alloc(), Spelled::All)?;
    let is_whole = is_whole(rt.alloc(), &mut bytes);
    drop(bytes);
    assert!(rt; is_whole?);
    Ok(())
}

#[test]
fn a_count_takes_no_room_before_its_items_are_read(rt: HostRuntime) -> Result<(), Fail> {
    for (place, (_, beside)) in STATE.iter().enumerate() {
        if *beside == "####" {
            assert!(rt; spells_none(rt.alloc(), Spelled::WithCount(place))?);
        }
    }
    Ok(())
}

// Each breaks one rule of a state; what is right beside it stands above.
const NO_STATES: [&[u8]; 12] = [
    // A session that falls, and one that is not under the count.
    b"\0\0\0\0\0\0\0\x02\0\0\0\0\0\0\0\0\0\0\0\x02\0\0\0\0\0\0\0\x01\0\0\0\0\0\0\0\0\0\0\0\0\0\0\0\0\0\0\0\0\0\0",
    b"\0\0\0\0\0\0\0\x01\0\0\0\0\0\0\0\0\0\0\0\x01\0\0\0\0\0\0\0\x01\0\0\0\0\0\0\0\0\0\0\0\0\0",
    // A client with an empty name.
    b"\0\0\0\0\0\0\0\x01\0\0\0\0\0\0\0\0\0\0\0\x01\0\0\0\0\0\0\0\0\x01\0\0\0\0\0\0\0\0\0\0\0\0\0\0\0\0",
    // Deliveries over 2^63.
    b"\0\0\0\0\0\0\0\0\x80\0\0\0\0\0\0\x01\0\0\0\0\0\0\0\0\0\0\0\0\0\0\0\0",
    // A durable name of an empty client, an empty one, and one that is bound to a queue.
    b"\0\0\0\0\0\0\0\0\0\0\0\0\0\0\0\0\0\0\0\0\0\0\0\x01\0\0\0\0\0\0\0\x01n\0\0\0\x08/topic/t\0\0\0\0\0\0\0\0\0\0\0\0",
    b"\0\0\0\0\0\0\0\0\0\0\0\0\0\0\0\0\0\0\0\0\0\0\0\x01\0\0\0\x01c\0\0\0\0\0\0\0\x08/topic/t\0\0\0\0\0\0\0\0\0\0\0\0",
    b"\0\0\0\0\0\0\0\0\0\0\0\0\0\0\0\0\0\0\0\0\0\0\0\x01\0\0\0\x01c\0\0\0\x01n\0\0\0\x08/queue/t\0\0\0\0\0\0\0\0\0\0\0\0",
    // A queue with no message, and one that is a topic.
    b"\0\0\0\0\0\0\0\x01\0\0\0\0\0\0\0\0\0\0\0\0\0\0\0\0\0\0\0\x01\0\0\0\x08/queue/q\0\0\0\0\0\0\0\0",
    b"\0\0\0\0\0\0\0\x01\0\0\0\0\0\0\0\0\0\0\0\0\0\0\0\0\0\0\0\x01\0\0\0\x08/topic/q\0\0\0\x01\0\0\0\0\0\0\0\0\0\0\0\0\0\0\0\x08/topic/q\0\0\0\0\0\0\0\0\0\0",
    // A subscription that could take the message that waits for it: one of a queue, and one of a topic.
    b"\0\0\0\0\0\0\0\x01\0\0\0\0\0\0\0\0\0\0\0\x01\0\0\0\0\0\0\0\0\0\0\0\0\0\0\0\0\x01\0\0\0\x08/queue/q\0\0\0\x01\0\0\0\0\0\0\0\0\0\0\0\0\0\0\0\x08/queue/q\0\0\0\0\0\0\0\0\0\x01\0\0\0\0\0\0\0\0\0\0\0\x01s\0\0\0\x08/queue/q\x01\0\0\0\0\0",
    b"\0\0\0\0\0\0\0\x01\0\0\0\0\0\0\0\0\0\0\0\x01\0\0\0\0\0\0\0\0\0\0\0\0\0\0\0\0\0\0\0\0\x01\0\0\0\0\0\0\0\0\0\0\0\x01s\0\0\0\x08/topic/t\x01\0\0\0\0\x01\0\0\0\0\0\0\0\0\0\0\0\0\0\0\0\x08/topic/t\0\0\0\0\0\0\0\0\0\0",
    // One with `auto` and something to acknowledge.
    b"\0\0\0\0\0\0\0\x01\0\0\0\0\0\0\0\x01\0\0\0\x01\0\0\0\0\0\0\0\0\0\0\0\0\0\0\0\0\0\0\0\0\x01\0\0\0\0\0\0\0\0\0\0\0\x01s\0\0\0\x08/queue/q\0\0\0\0\0\x01\0\0\0\0\0\0\0\0\0\0\0\0\0\0\0\0\0\0\0\0\0\0\0\x08/queue/q\0\0\0\0\0\0",
];

// The same with the rule kept, if it is not a byte of the state of every part.
const STATES: [&[u8]; 6] = [
    b"\0\0\0\0\0\0\0\x02\0\0\0\0\0\0\0\0\0\0\0\x02\0\0\0\0\0\0\0\0\0\0\0\0\0\0\0\0\x01\0\0\0\0\0\0\0\0\0\0\0\0\0",
    b"\0\0\0\0\0\0\0\0\x80\0\0\0\0\0\0\0\0\0\0\0\0\0\0\0\0\0\0\0\0\0\0\0",
    b"\0\0\0\0\0\0\0\0\0\0\0\0\0\0\0\0\0\0\0\0\0\0\0\x01\0\0\0\x01c\0\0\0\x01n\0\0\0\x08/topic/t\0\0\0\0\0\0\0\0\0\0\0\0",
    b"\0\0\0\0\0\0\0\x01\0\0\0\0\0\0\0\0\0\0\0\0\0\0\0\0\0\0\0\x01\0\0\0\x08/queue/q\0\0\0\x01\0\0\0\0\0\0\0\0\0\0\0\0\0\0\0\x08/queue/q\0\0\0\0\0\0\0\0\0\0",
    b"\0\0\0\0\0\0\0\x01\0\0\0\0\0\0\0\x01\0\0\0\x01\0\0\0\0\0\0\0\0\0\0\0\0\0\0\0\0\0\0\0\0\x01\0\0\0\0\0\0\0\0\0\0\0\x01s\0\0\0\x08/queue/q\x01\0\0\0\0\x01\0\0\0\0\0\0\0\0\0\0\0\0\0\0\0\0\0\0\0\0\0\0\0\x08/queue/q\0\0\0\0\0\0",
    b"\0\0\0\0\0\0\0\x01\0\0\0\0\0\0\0\x01\0\0\0\x01\0\0\0\0\0\0\0\0\0\0\0\0\0\0\0\0\0\0\0\0\x01\0\0\0\0\0\0\0\0\0\0\0\x01s\0\0\0\x08/topic/t\x01\0\0\0\0\0\0\0\0\x01\0\0\0\0\0\0\0\0\0\0\0\0\0\0\0\0\0\0\0\0\0\0\0\x08/topic/t\0\0\0\0\0\0",
];

#[test]
fn what_breaks_a_rule_is_no_state(rt: HostRuntime) -> Result<(), Fail> {
    for bytes in &NO_STATES {
        assert!(rt; is_no_state(rt.alloc(), bytes)?);
    }
    for bytes in &STATES {
        assert!(rt; goes_both_ways(rt.alloc(), bytes)?);
    }
    Ok(())
}

// A message of the command of that number to `/topic/t`, with no headers and the body `m`.
fn put_message(bytes: &mut Vec<u8>, command: u64) -> Result<(), AllocError> {
    bytes.extend_from_slice(&command.to_be_bytes())?;
    bytes.extend_from_slice(b"\0\0\0\0\0\0\0\x08/topic/t\0\0\0\0\0\x01m")
}

fn put_own_line(bytes: &mut Vec<u8>, deliveries: u32) -> Result<(), AllocError> {
    bytes.extend_from_slice(b"\0\0\0\0\0\0\0\x13\0\0\0\0\0\0\0\x10")?;
    bytes.extend_from_slice(b"\0\0\0\x01\0\0\0\0\0\0\0\0\0\0\0\0\0\0\0\0\0\0\0\0\x01")?;
    bytes.extend_from_slice(b"\0\0\0\0\0\0\0\0\0\0\0\x01s\0\0\0\x08/topic/t\x01\0")?;
    bytes.extend_from_slice(b"\0\0\0\x01")?;
    put_message(bytes, 18)?;
    bytes.extend_from_slice(&deliveries.to_be_bytes())?;
    for number in 0..deliveries {
        let delivery = u64::from(number);
        bytes.extend_from_slice(&delivery.to_be_bytes())?;
        put_message(bytes, 2 + delivery)?;
    }
    Ok(())
}

// A session, and its subscription; and a message to it.
const LISTENING: [&[u8]; 2] = [
    b"\0\0\0\0\0\0\0\0\0\x01\0",
    b"\0\0\0\0\0\0\0\0\0\x03\0\0\0\x01s\0\0\0\x08/topic/t\x01\0",
];

const MESSAGE: &[u8] = b"\0\0\0\0\0\0\0\0\0\x02\0\0\0\x08/topic/t\0\0\0\0\0\x01m";

#[test]
fn messages_wait_where_sixteen_are_not_acknowledged(rt: HostRuntime) -> Result<(), Fail> {
    let sixteen = Spelled::OwnLine(16);
    assert!(rt; is_spelled_after(rt.alloc(), sixteen, &LISTENING, 17, MESSAGE)?);
    // One less, and the message could be handed out.
    assert!(rt; spells_none(rt.alloc(), Spelled::OwnLine(15))?);
    Ok(())
}

// A message to `/queue/q`, with no headers and no body.
const QUEUED: &[u8] = b"\0\0\0\0\0\0\0\0\0\x02\0\0\0\x08/queue/q\0\0\0\0\0\0";

fn put_full_queue(bytes: &mut Vec<u8>) -> Result<(), AllocError> {
    bytes.extend_from_slice(b"\0\0\0\0\0\0\x10\x01\0\0\0\0\0\0\0\0")?;
    bytes.extend_from_slice(b"\0\0\0\x01\0\0\0\0\0\0\0\0\0\0\0\0\0")?;
    bytes.extend_from_slice(b"\0\0\0\x01\0\0\0\x08/queue/q\0\0\x10\0")?;
    for command in 1..4097_u64 {
        bytes.extend_from_slice(&command.to_be_bytes())?;
        bytes.extend_from_slice(b"\0\0\0\0\0\0\0\x08/queue/q\0\0\0\0\0\0")?;
    }
    bytes.extend_from_slice(b"\0\0\0\0")
}

#[test]
fn a_queue_of_4096_messages_goes_both_ways(rt: HostRuntime) -> Result<(), Fail> {
    let opened = &LISTENING[..1];
    assert!(rt; is_spelled_after(rt.alloc(), Spelled::FullQueue, opened, 4096, QUEUED)?);
    Ok(())
}
