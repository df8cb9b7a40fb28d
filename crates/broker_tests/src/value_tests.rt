//! What a broker does where no script reaches: bytes up to the limit, the rule of the first version, and what a restart keeps.

use crate::record_tests::{LISTEN, NACK, OPEN, SEND, execute, execute_all, is_error};
use broker_core::Broker;
use broker_state::{DurableName, GivenName, Parts};
use command_core::{Command, Dest, HeaderText, Op, Sending, decode, is_header_text};
use frame_core::{Bytes, Headers, Text};
use line_core::{Line, Message, MessageNumber};
use std::alloc::Global;
use std::collections::BTreeMap;
use std::test::Fail;

// Session 0 subscribes to `/queue/q`, one acknowledgement for each message.
const LISTEN_ONE_BY_ONE: &[u8] = b"\0\0\0\0\0\0\0\0\0\x03\0\0\0\x01s\0\0\0\x08/queue/q\x02\0";

// It refuses delivery 1.
const NACK_OTHER: &[u8] = b"\0\0\0\0\0\0\0\0\0\x06\0\0\0\0\0\0\0\x01";

// In a transaction it refuses delivery 0 and acknowledges delivery 1, and the other way round.
const NACK_AND_ACK: &[u8] =
    b"\0\0\0\0\0\0\0\0\0\x07\0\x02\x06\0\0\0\0\0\0\0\0\x05\0\0\0\0\0\0\0\x01";

const ACK_AND_NACK: &[u8] =
    b"\0\0\0\0\0\0\0\0\0\x07\0\x02\x05\0\0\0\0\0\0\0\x01\x06\0\0\0\0\0\0\0\0";

// It sends `hi` to `/queue/q` in a transaction, and refuses delivery 1.
const SEND_AND_NACK: &[u8] =
    b"\0\0\0\0\0\0\0\0\0\x07\0\x02\x02\0\0\0\x08/queue/q\0\0\0\0\0\x02hi\x06\0\0\0\0\0\0\0\x01";

// A client `c1` listens to `/topic/t` under the durable name `n` and as `p`, and to `/queue/q` as `q`. A message to each is delivered.
const THREE_DELIVERIES: [&[u8]; 6] = [
    b"\0\0\0\0\0\0\0\0\0\x01\x01\0\0\0\x02c1",
    b"\0\0\0\0\0\0\0\0\0\x03\0\0\0\x01d\0\0\0\x08/topic/t\x01\x01\0\0\0\x01n",
    b"\0\0\0\0\0\0\0\0\0\x03\0\0\0\x01p\0\0\0\x08/topic/t\x01\0",
    b"\0\0\0\0\0\0\0\0\0\x03\0\0\0\x01q\0\0\0\x08/queue/q\x01\0",
    b"\0\0\0\0\0\0\0\0\0\x02\0\0\0\x08/topic/t\0\0\0\0\0\x02hi",
    SEND,
];

// Sends so many bytes to `/queue/q`.
fn send_sized(alloc: Global, broker: &mut Broker, bytes: usize) -> Result<(), Fail> {
    if broker.count() >= 10_000 || bytes > 65_536 {
        return Err(Fail::from("too many commands or bytes"));
    }
    let destination = Dest::read(alloc, "/queue/q")?;
    let body = Bytes::new(vec![in alloc; b'x'; bytes]?);
    let sending = Sending::new(destination, Headers::new(Vec::new(alloc)), body);
    let _outs = broker.step(alloc, Command::new(0, Op::Send(sending), None))?;
    Ok(())
}

// 256 messages wait in `/queue/q`, with so many bytes less than may be held, and a session listens to it. A message has the
// 8 bytes of its destination, and three more in `/queue/dead`.
fn fill(alloc: Global, broker: &mut Broker, less: usize) -> Result<(), Fail> {
    if less > 63_488 {
        return Err(Fail::from("more than the last message has"));
    }
    execute_all(alloc, broker, &[OPEN])?;
    for _ in 0..255 {
        send_sized(alloc, broker, 65_536)?;
    }
    send_sized(alloc, broker, 63_488 - less)?;
    execute_all(alloc, broker, &[LISTEN_ONE_BY_ONE])?;
    if broker.held().bytes != 16_777_216 - less as u64 {
        return Err(Fail::from("other bytes are held"));
    }
    Ok(())
}

// How many outputs the last of the records has in so full a broker, whether it is refused for want of room, and how many messages are held then.
type Answer = (usize, bool, u64);

fn answer(
    alloc: Global,
    broker: &mut Broker,
    less: usize,
    records: &[&[u8]],
    last: &[u8],
) -> Result<Answer, Fail> {
    fill(alloc, broker, less)?;
    execute_all(alloc, broker, records)?;
    let outs = execute(alloc, broker, last)?;
    let is_full = is_error(outs.as_slice(), "E12 no room for the message");
    let count = outs.len();
    drop(outs);
    Ok((count, is_full, broker.held().messages))
}

fn answer_of(alloc: Global, less: usize, records: &[&[u8]], last: &[u8]) -> Result<Answer, Fail> {
    let mut broker = Broker::new(alloc);
    let answered = answer(alloc, &mut broker, less, records, last);
    drop(broker);
    answered
}

#[test]
fn a_refusal_that_finds_no_room_is_refused(rt: HostRuntime) -> Result<(), Fail> {
    assert_eq!(rt; answer_of(rt.alloc(), 2, &[], NACK)?, (1, true, 256));
    assert_eq!(rt; answer_of(rt.alloc(), 3, &[], NACK)?, (1, false, 256));
    assert_eq!(rt;
        answer_of(rt.alloc(), 3, &[NACK], NACK_OTHER)?,
        (1, true, 256)
    );
    Ok(())
}

#[test]
fn room_in_a_transaction_is_looked_for_in_the_place_of_the_refusal(
    rt: HostRuntime,
) -> Result<(), Fail> {
    assert_eq!(rt;
        answer_of(rt.alloc(), 0, &[], NACK_AND_ACK)?,
        (1, true, 256)
    );
    assert_eq!(rt;
        answer_of(rt.alloc(), 0, &[], ACK_AND_NACK)?,
        (2, false, 255)
    );
    Ok(())
}

#[test]
fn no_more_than_16_mib_are_held(rt: HostRuntime) -> Result<(), Fail> {
    assert_eq!(rt; answer_of(rt.alloc(), 9, &[], SEND)?, (1, true, 256));
    assert_eq!(rt; answer_of(rt.alloc(), 10, &[], SEND)?, (0, false, 257));
    Ok(())
}

// Carries out all by the rule of version 1, and tells how many messages are held.
fn held_by_old_rule(alloc: Global, broker: &mut Broker, records: &[&[u8]]) -> Result<u64, Fail> {
    for record in records {
        if broker.count() >= 10_000 {
            return Err(Fail::from("too many commands"));
        }
        let (command, _) = decode(alloc, record)?;
        let _outs = broker.step_v1(alloc, command)?;
    }
    Ok(broker.held().messages)
}

// How many messages are held after a delivery, after its NACK, and after a NACK in a transaction.
fn held_three_times(alloc: Global, broker: &mut Broker) -> Result<(u64, u64, u64), Fail> {
    let delivered = held_by_old_rule(alloc, broker, &[OPEN, LISTEN, SEND])?;
    let refused = held_by_old_rule(alloc, broker, &[NACK])?;
    let together = held_by_old_rule(alloc, broker, &[SEND, SEND_AND_NACK])?;
    Ok((delivered, refused, together))
}

#[test]
fn by_the_old_rule_a_refusal_drops_the_message(rt: HostRuntime) -> Result<(), Fail> {
    let mut broker = Broker::new(rt.alloc());
    let held = held_three_times(rt.alloc(), &mut broker);
    drop(broker);
    assert_eq!(rt; held?, (1, 0, 1));
    Ok(())
}

// How many sessions, durable names, subscriptions, and messages' lines of names and of queues there are, the next delivery, and how many
// bytes are held.
fn shown(broker: &Broker) -> [u64; 7] {
    [
        broker.sessions().len() as u64,
        broker.durables().len() as u64,
        broker.subscription_count() as u64,
        broker.shared().names().len() as u64,
        broker.shared().queues().len() as u64,
        broker.next_delivery(),
        broker.held().bytes,
    ]
}

// Whether there are three subscriptions, the last of that id.
fn is_third(alloc: Global, broker: &Broker, id: &str) -> Result<bool, Fail> {
    let subscriptions = broker.subscriptions(alloc)?;
    Ok(subscriptions.len() == 3 && subscriptions[2].id.as_str() == id)
}

// What is shown before and after a restart.
fn shown_twice(alloc: Global, broker: &mut Broker) -> Result<([u64; 7], [u64; 7]), Fail> {
    execute_all(alloc, broker, &THREE_DELIVERIES)?;
    let before = shown(broker);
    if !is_third(alloc, broker, "q")? {
        return Err(Fail::from("the third subscription is another"));
    }
    broker.restart(alloc)?;
    if broker.is_broken() {
        return Err(Fail::from("a broken broker"));
    }
    Ok((before, shown(broker)))
}

#[test]
fn what_is_kept_is_shown(rt: HostRuntime) -> Result<(), Fail> {
    let mut broker = Broker::new(rt.alloc());
    let told = shown_twice(rt.alloc(), &mut broker);
    drop(broker);
    assert_eq!(rt; told?, ([1, 1, 3, 0, 0, 3, 30], [0, 1, 0, 1, 1, 3, 20]));
    Ok(())
}

// Session 0 is open, and that many commands were carried out.
fn parts_of(alloc: Global, count: u64) -> Result<Parts, Fail> {
    let mut sessions = BTreeMap::new(alloc);
    sessions.insert(0, None)?;
    Ok(Parts {
        count,
        next_delivery: 3,
        sessions,
        durables: BTreeMap::new(alloc),
        names: BTreeMap::new(alloc),
        queues: BTreeMap::new(alloc),
        subscriptions: Vec::new(alloc),
    })
}

fn greeting(alloc: Global, to: &str) -> Result<Sending, Fail> {
    let destination = Dest::read(alloc, to)?;
    let body = Bytes::new(Vec::from_slice(alloc, b"hi")?);
    Ok(Sending::new(destination, Headers::new(Vec::new(alloc)), body))
}

// A line with one message, which the command of that number sent to `to`.
fn line_of(alloc: Global, command: u64, to: &str) -> Result<Line, Fail> {
    let mut line = Line::new(alloc);
    line.put(Message {
        number: MessageNumber { command, place: 0 },
        sending: greeting(alloc, to)?,
    })?;
    Ok(line)
}

// The same, and in `/queue/q` waits that line.
fn parts_with(alloc: Global, count: u64, line: Line) -> Result<Parts, Fail> {
    let mut parts = parts_of(alloc, count)?;
    parts.queues.insert(Dest::read(alloc, "/queue/q")?, line)?;
    Ok(parts)
}

// How many commands the broker has carried out and how many messages it holds; then whether a subscriber gets that message.
fn go_on(alloc: Global, broker: &mut Broker) -> Result<(u64, u64, bool), Fail> {
    let (count, held) = (broker.count(), broker.held().messages);
    let outs = execute(alloc, broker, LISTEN)?;
    let is_sent = match outs.as_slice() {
        [out] => {
            let written = out.write(alloc)?;
            let text = str::from_utf8(written.bytes.as_slice())?;
            text.contains("\nmessage-id:1.0\n")
        }
        _ => false,
    };
    drop(outs);
    Ok((count, held, is_sent))
}

fn broker_with_a_message(alloc: Global) -> Result<Broker, Fail> {
    let line = line_of(alloc, 1, "/queue/q")?;
    let parts = parts_with(alloc, 2, line)?;
    match Broker::from_parts(alloc, parts)? {
        Some(broker) => Ok(broker),
        None => Err(Fail::from("no broker has these parts")),
    }
}

#[test]
fn a_broker_goes_on_from_its_parts(rt: HostRuntime) -> Result<(), Fail> {
    let mut broker = broker_with_a_message(rt.alloc())?;
    let seen = go_on(rt.alloc(), &mut broker);
    drop(broker);
    assert_eq!(rt; seen?, (2, 1, true));
    Ok(())
}

// Whether no broker has these parts.
fn are_of_none(alloc: Global, parts: Parts) -> Result<bool, Fail> {
    Ok(Broker::from_parts(alloc, parts)?.is_none())
}

#[test]
fn parts_that_no_broker_has_give_none(rt: HostRuntime) -> Result<(), Fail> {
    let alloc = rt.alloc();
    let early = parts_of(alloc, 0)?;
    assert!(rt; are_of_none(alloc, early)?);
    assert!(rt; line_is_of_none(alloc, Line::new(alloc))?);
    let late = line_of(alloc, 2, "/queue/q")?;
    assert!(rt; line_is_of_none(alloc, late)?);
    let elsewhere = line_of(alloc, 1, "/queue/other")?;
    assert!(rt; line_is_of_none(alloc, elsewhere)?);
    Ok(())
}

// Whether no broker that has carried out two commands has this line in `/queue/q`.
fn line_is_of_none(alloc: Global, line: Line) -> Result<bool, Fail> {
    let parts = parts_with(alloc, 2, line)?;
    are_of_none(alloc, parts)
}

fn given_name(alloc: Global, text: &str) -> Result<GivenName, Fail> {
    let text = Text::new(String::from_str(alloc, text)?);
    if !is_header_text(text.as_str()) || text.as_str().is_empty() {
        return Err("no name".into());
    }
    Ok(GivenName::new(HeaderText::new(text)))
}

fn durable_name(alloc: Global, client: &str, name: &str) -> Result<DurableName, Fail> {
    Ok(DurableName::new(given_name(alloc, client)?, given_name(alloc, name)?))
}

// Whether the name tells the client and the name that it was made of.
fn tells(name: &DurableName, client: &str, own: &str) -> bool {
    name.client().as_text().as_str() == client && name.name().as_text().as_str() == own
}

// Whether the client's name comes before that of the other client.
fn stands_before(
    alloc: Global,
    first: &DurableName,
    client: &str,
    name: &str,
) -> Result<bool, Fail> {
    let second = durable_name(alloc, client, name)?;
    let is_before = *first < second && *first != second;
    drop(second);
    Ok(is_before)
}

#[test]
fn durable_names_stand_by_client_and_then_by_name(rt: HostRuntime) -> Result<(), Fail> {
    let first = durable_name(rt.alloc(), "a", "y")?;
    let tells_all = tells(&first, "a", "y");
    let is_before = stands_before(rt.alloc(), &first, "b", "x");
    drop(first);
    let is_before = is_before?;
    assert!(rt; tells_all && is_before);
    Ok(())
}
