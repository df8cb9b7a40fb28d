ghost use Rattle.std.specs.Prelude.{◌<◌};

use crate::journal_steps::{
    FILLS, FailingCalls, JournalImage, SIZE, StoreWork, Told, append, expect, expect_none, open_in,
    push_record, put, snapshot, told_of, told_of_store,
};
use area_core::format;
use broker_core::Broker;
use command_core::{Command, Entry, HeaderText, Op, decode, put_text};
use disk_core::{Disk, MemDisk};
use recover_core::{Store, open};
use std::alloc::{AllocError, Global};
use std::rt::Files;
use std::{fs, mem};

// A session opens, mostly with its client's name.
const OPENS: [&[u8]; 4] = [
    b"\0\0\0\0\0\0\0\0\0\x01\0",
    b"\0\0\0\0\0\0\0\0\0\x01\x01\0\0\0\x02c1",
    b"\0\0\0\0\0\0\0\0\0\x01\x01\0\0\0\x02c1",
    b"\0\0\0\0\0\0\0\0\0\x01\x01\0\0\0\x02c2",
];

// What a session may ask for, after its number.
const ASKED: [&[u8]; 23] = [
    // To send: to two queues and a topic, once with a header, once for a receipt.
    b"\0\x02\0\0\0\x08/queue/q\0\0\0\0\0\x01x",
    b"\0\x02\0\0\0\x08/queue/q\0\x01\0\0\0\x01k\0\0\0\x01v\0\0\0\x01x",
    b"\x01\0\0\0\x01r\x02\0\0\0\x08/queue/r\0\0\0\0\0\x02yz",
    b"\0\x02\0\0\0\x08/queue/r\0\0\0\0\0\0",
    b"\0\x02\0\0\0\x08/topic/t\0\0\0\0\0\x01t",
    b"\0\x02\0\0\0\x08/topic/t\0\0\0\0\0\x01u",
    // To send as a transaction, and to end one with no member.
    b"\0\x07\0\x02\x02\0\0\0\x08/queue/q\0\0\0\0\0\x01m\x02\0\0\0\x08/topic/t\0\0\0\0\0\x01n",
    b"\x01\0\0\0\x01r\x07\0\0",
    // To listen to queues and a topic: at once, acknowledging all before, acknowledging one by one.
    b"\x01\0\0\0\x01r\x03\0\0\0\x01a\0\0\0\x08/queue/q\0\0",
    b"\0\x03\0\0\0\x01b\0\0\0\x08/queue/q\x01\0",
    b"\0\x03\0\0\0\x01c\0\0\0\x08/queue/r\x02\0",
    b"\0\x03\0\0\0\x01d\0\0\0\x08/topic/t\0\0",
    b"\0\x03\0\0\0\x01e\0\0\0\x08/topic/t\x01\0",
    // To listen under two durable names.
    b"\0\x03\0\0\0\x01f\0\0\0\x08/topic/t\x01\x01\0\0\0\x01n",
    b"\0\x03\0\0\0\x01g\0\0\0\x08/topic/t\x02\x01\0\0\0\x01o",
    // To give up the durable names, and to stop listening to what it may not listen to.
    b"\0\x04\0\x01\0\0\0\x01n",
    b"\0\x04\0\x01\0\0\0\x01o",
    b"\0\x04\x01\0\0\0\x01b\0",
    // Nothing, without a receipt and with one.
    b"\0\x08",
    b"\x01\0\0\0\x01r\x08",
    // To end: by itself, with its connection, by a fault.
    b"\x01\0\0\0\x01r\x09\0",
    b"\0\x09\x01",
    b"\0\x09\x02\x03",
];

// What it may say of a delivery, before the delivery's number: to acknowledge it, with a receipt too, to refuse it, and each in a
// transaction.
const SETTLED: [&[u8]; 5] = [
    b"\0\x05",
    b"\x01\0\0\0\x01r\x05",
    b"\0\x06",
    b"\0\x07\0\x02\x02\0\0\0\x08/queue/r\0\0\0\0\0\x01m\x05",
    b"\0\x07\0\x02\x02\0\0\0\x08/queue/q\0\0\0\0\0\x01m\x06",
];

const ONE: Part = (b"\0\0\0\x01", true);

const NONE: Part = (b"\0\0\0\0", true);

const NO_HEADERS: Part = (b"\0\0", true);

const ONE_HEADER: Part = (b"\0\x01", true);

// The snapshot after five commands and one delivery. It has the session 0 of `anna`; `reader` of `anna`, for which a message waits; a
// message in `/queue/q`; and two subscriptions of session 0. One of these has a delivery that is not acknowledged.
const SNAPSHOT: [Part; 53] = [
    (b"\0\0\0\0\0\0\0\x05\0\0\0\0\0\0\0\x01", false),
    ONE,
    (b"\0\0\0\0\0\0\0\0\x01", false),
    (b"\0\0\0\x04", true),
    (b"anna", false),
    ONE,
    (b"\0\0\0\x04", true),
    (b"anna", false),
    (b"\0\0\0\x06", true),
    (b"reader", false),
    (b"\0\0\0\x0b", true),
    (b"/topic/news", false),
    ONE,
    (b"\0\0\0\0\0\0\0\x03\0\0\0\0", false),
    (b"\0\0\0\x0b", true),
    (b"/topic/news", false),
    ONE_HEADER,
    ONE,
    (b"k", false),
    ONE,
    (b"v", false),
    (b"\0\0\0\x02", true),
    (b"hi", false),
    ONE,
    (b"\0\0\0\x08", true),
    (b"/queue/q", false),
    ONE,
    (b"\0\0\0\0\0\0\0\x02\0\0\0\0", false),
    (b"\0\0\0\x08", true),
    (b"/queue/q", false),
    NO_HEADERS,
    ONE,
    (b"x", false),
    (b"\0\0\0\x02", true),
    (b"\0\0\0\0\0\0\0\0", false),
    ONE,
    (b"s", false),
    (b"\0\0\0\x0b", true),
    (b"/queue/jobs\x01\0", false),
    ONE,
    (b"\0\0\0\0\0\0\0\0\0\0\0\0\0\0\0\x01\0\0\0\0", false),
    (b"\0\0\0\x0b", true),
    (b"/queue/jobs", false),
    NO_HEADERS,
    ONE,
    (b"y", false),
    (b"\0\0\0\0\0\0\0\0", false),
    ONE,
    (b"t", false),
    (b"\0\0\0\x08", true),
    (b"/topic/t\0\0", false),
    NONE,
    NONE,
];

// The record of a transaction of session 0 that sends `hi` to `/queue/q`, with a receipt and a header.
const RECORD: [Part; 14] = [
    (b"\0\0\0\0\0\0\0\0\x01", false),
    (b"\0\0\0\x02", true),
    (b"r1\x07", false),
    (b"\0\x01", true),
    (b"\x02", false),
    (b"\0\0\0\x08", true),
    (b"/queue/q", false),
    ONE_HEADER,
    ONE,
    (b"k", false),
    ONE,
    (b"v", false),
    (b"\0\0\0\x02", true),
    (b"hi", false),
];

// A random script: the sessions that it opened since the last stop, the broker in memory that carries it out, and how many commands of each
// kind were not refused.
#[derive(Drop)]
struct Script {
    seed: u64,
    opened: Vec<u64>,
    memory: Broker,
    done: [u32; 9],
}

// The next of some numbers that look random, by the generator `xorshift`.
fn chance(seed: &mut u64) -> u64 {
    *seed ^= *seed << 13;
    *seed ^= *seed >> 7;
    *seed ^= *seed << 17;
    *seed
}

// A session opens; its number is that of this command.
fn push_open(
    record: &mut Vec<u8>,
    opened: &mut Vec<u64>,
    number: u64,
    chosen: u64,
) -> Result<(), AllocError> {
    opened.push(number)?;
    record.extend_from_slice(OPENS[(chosen % 4) as usize])
}

// One of the sessions asks for something.
fn push_request(record: &mut Vec<u8>, opened: &[u64], chosen: u64) -> Result<(), AllocError> {
    let session = match opened.len() {
        0 => 0,
        count => opened[(chosen / 32) as usize % count],
    };
    record.extend_from_slice(&session.to_be_bytes())?;
    record.extend_from_slice(ASKED[(chosen % 23) as usize])
}

// A session and one of its deliveries that wait to be acknowledged. The delivery is of the first subscription in waiting order that has
// one.
fn some_delivery(alloc: Global, memory: &Broker, chosen: u64) -> Result<(u64, u64), AllocError> {
    let subscriptions = memory.subscriptions(alloc)?;
    let mut found = (0, 0);
    for subscription in subscriptions.as_slice() {
        let waiting = subscription.unacknowledged.as_slice();
        if !waiting.is_empty() {
            let (delivery, _) = &waiting[chosen as usize % waiting.len()];
            found = (subscription.session, *delivery);
            break;
        }
    }
    drop(subscriptions);
    Ok(found)
}

// A session settles a delivery.
fn push_acknowledgement(
    alloc: Global,
    record: &mut Vec<u8>,
    memory: &Broker,
    chosen: u64,
) -> Result<(), AllocError> {
    let (session, delivery) = some_delivery(alloc, memory, chosen / 32)?;
    record.extend_from_slice(&session.to_be_bytes())?;
    record.extend_from_slice(SETTLED[(chosen % 5) as usize])?;
    record.extend_from_slice(&delivery.to_be_bytes())
}

// A session stops listening to a subscription, or also gives up this durable name.
fn push_end(
    record: &mut Vec<u8>,
    session: u64,
    id: &HeaderText,
    durable: Option<&HeaderText>,
) -> Result<(), AllocError> {
    record.extend_from_slice(&session.to_be_bytes())?;
    record.extend_from_slice(b"\0\x04\x01")?;
    put_text(record, id)?;
    match durable {
        Some(name) => {
            record.push(1)?;
            put_text(record, name)
        }
        None => Ok(record.push(0)?),
    }
}

// One of the subscriptions ends. If there is none, it is a note of a session that is not open.
fn push_unsubscribe(
    alloc: Global,
    record: &mut Vec<u8>,
    memory: &Broker,
    chosen: u64,
) -> Result<(), AllocError> {
    let subscriptions = memory.subscriptions(alloc)?;
    let count = subscriptions.len() as u64;
    let pushed = if count == 0 {
        record.extend_from_slice(b"\0\0\0\0\0\0\0\0\0\x08")
    } else {
        let subscription = subscriptions[(chosen / 32 % count) as usize];
        let durable = match &subscription.durable {
            Some(name) if chosen % 2 == 0 => Some(name.name().as_text()),
            _ => None,
        };
        push_end(record, subscription.session, &subscription.id, durable)
    };
    drop(subscriptions);
    pushed
}

// A random record.
fn push_some_record(
    alloc: Global,
    record: &mut Vec<u8>,
    script: &mut Script,
) -> Result<(), AllocError> {
    let kind = chance(&mut script.seed) % 16;
    let chosen = chance(&mut script.seed);
    match kind {
        0 | 1 => push_open(record, &mut script.opened, script.memory.count(), chosen),
        2..=4 => push_acknowledgement(alloc, record, &script.memory, chosen),
        5 => push_unsubscribe(alloc, record, &script.memory, chosen),
        _ => push_request(record, script.opened.as_slice(), chosen),
    }
}

// The place of an operation among the nine kinds.
fn kind_of(op: &Op) -> usize
    ensures { result < 9 }
{
    match op {
        Op::Open { client_id: _ } => 0,
        Op::Send(_) => 1,
        Op::Subscribe { .. } => 2,
        Op::Unsubscribe { .. } => 3,
        Op::Ack(_) => 4,
        Op::Nack(_) => 5,
        Op::Commit(_) => 6,
        Op::Note => 7,
        Op::End(_) => 8,
    }
}

// Whether the command opens a session, and whether it ends one.
fn opens_or_ends(op: &Op) -> (bool, bool) {
    match op {
        Op::Open { client_id: _ } => (true, false),
        Op::End(_) => (false, true),
        _ => (false, false),
    }
}

// Executes a command on the broker, and answers whether it could.
fn execute(alloc: Global, memory: &mut Broker, command: Command) -> bool {
    if memory.count() >= 1 << 60 {
        drop(command);
        return false;
    }
    match memory.step(alloc, command) {
        Ok(outs) => {
            drop(outs);
            true
        }
        Err(_) => false,
    }
}

// Executes the command of a record on the broker in memory. It is counted if it was of an open session and not refused; a refusal would have
// ended the session.
fn step(alloc: Global, script: &mut Script, record: &[u8]) -> bool {
    let Ok((command, _)) = decode(alloc, record) else {
        return false;
    };
    let kind = kind_of(command.op());
    let session = command.session();
    let (opens, ends) = opens_or_ends(command.op());
    let was_open = script.memory.sessions().contains_key(&session);
    let is_executed = execute(alloc, &mut script.memory, command);
    let is_open = script.memory.sessions().contains_key(&session);
    if opens || was_open && (ends || is_open) {
        script.done[kind] = script.done[kind].saturating_add(1);
    }
    if !is_open {
        script.opened.retain(|opened| *opened != session);
    }
    is_executed
}

// Adds a random command to a batch. The broker in memory carries it out, unless the batch will be lost.
fn push_some(alloc: Global, batch: &mut Vec<Entry<()>>, script: &mut Script, is_in: bool) -> bool {
    let mut record = Vec::new(alloc);
    let is_pushed = push_some_record(alloc, &mut record, script).is_ok()
        && push_record(alloc, batch, record.as_slice())
        && (!is_in || step(alloc, script, record.as_slice()));
    drop(record);
    is_pushed
}

fn push_twelve(
    alloc: Global,
    batch: &mut Vec<Entry<()>>,
    script: &mut Script,
    is_in: bool,
) -> bool {
    for _ in 0..12_u8 {
        if !push_some(alloc, batch, script, is_in) {
            return false;
        }
    }
    true
}

// The store takes a batch of twelve random commands. The broker in memory carries them out, unless they will be lost.
fn take_some<D: Disk>(
    alloc: Global,
    store: &mut Store<D>,
    script: &mut Script,
    is_in: bool,
) -> Told {
    let mut batch = Vec::new(alloc);
    let mut told = Told::Other;
    if push_twelve(alloc, &mut batch, script, is_in) {
        told = append(alloc, store, batch.as_slice());
    }
    drop(batch);
    told
}

// Whether the store was opened with the state of the broker in memory.
fn is_opened_as(alloc: Global, store: &mut Store<MemDisk>, memory: &Broker) -> bool {
    match snapshot(alloc, memory) {
        Some(wanted) => {
            let told = told_of_store(alloc, store, Some(wanted.as_slice()));
            drop(wanted);
            told == Told::Done
        }
        None => false,
    }
}

// What is opened is the broker in memory; then both take `batches` batches.
fn lives(alloc: Global, store: &mut Store<MemDisk>, script: &mut Script, batches: u64) -> bool {
    if !is_opened_as(alloc, store, &script.memory) {
        return false;
    }
    for _ in 0..batches {
        if take_some(alloc, store, script, true) != Told::Done {
            return false;
        }
    }
    true
}

// After how many batches a life ends, after how many calls of the disk within the next, and what the unsynced bytes are then.
#[derive(Clone, Copy)]
struct Life {
    batches: u64,
    passed: u64,
    fill: Option<u8>,
}

// Each five lives stop with one fill, each life at another call and in another batch. No two of forty are alike.
fn life_of(number: u64) -> Life {
    let (passed, round) = (number % 5, number / 5);
    Life {
        batches: (passed + round % 5) % 5,
        passed,
        fill: FILLS[(round % 4) as usize],
    }
}

// Whether the last batch is in after that stop.
fn is_in(life: Life) -> bool {
    life.passed >= 4 || life.passed >= 2 && life.fill == Some(1)
}

// The journal is opened, takes its batches, and stops within one more. It answers whether all came as it should.
fn lived(alloc: Global, disk: MemDisk, script: &mut Script, life: Life) -> (MemDisk, bool) {
    match open(alloc, disk) {
        Ok(mut store) => {
            let has_lived = lives(alloc, &mut store, script, life.batches);
            let mut store = store.fuse(life.passed);
            let told = take_some(alloc, &mut store, script, is_in(life));
            let ends = if life.passed < 4 {
                Told::Device
            } else {
                Told::Done
            };
            (store.into_disk().into_inner(), has_lived && told == ends)
        }
        Err((disk, fault)) => {
            drop(fault);
            (disk, false)
        }
    }
}

// Stops the opening of the journal at every fourth call, from one of the first four on, until all calls pass. It answers whether they do.
fn stop_openings(alloc: Global, disk: &mut MemDisk, first: u64, fill: Option<u8>) -> bool {
    for turn in 0..16_u64 {
        let failing = FailingCalls::After(first % 4 + 4 * turn);
        let told = open_in(alloc, disk, failing, StoreWork::Nothing);
        disk.crash(fill);
        if told != Told::Device {
            return told == Told::Done;
        }
    }
    false
}

// One life of a journal. Its opening is stopped again and again; then it is opened, takes up to four batches, and stops within the next. The
// broker in memory restarts too.
fn live(alloc: Global, slot: &mut MemDisk, script: &mut Script, number: u64) -> bool {
    let life = life_of(number);
    let is_opened = stop_openings(alloc, slot, number, life.fill);
    let Ok(nothing) = MemDisk::new(alloc, 0) else {
        return false;
    };
    let (mut disk, has_lived) = lived(alloc, mem::replace(slot, nothing), script, life);
    disk.crash(life.fill);
    drop(mem::replace(slot, disk));
    script.opened.clear();
    script.memory.restart(alloc).is_ok() && is_opened && has_lived
}

// The first of forty lives of a journal in which something else comes than should.
fn first_wrong(alloc: Global, disk: &mut MemDisk, script: &mut Script) -> Option<usize> {
    if format(alloc, disk, 1_048_576).is_err() {
        return Some(0);
    }
    for number in 0..40_usize {
        if !live(alloc, disk, script, number as u64) {
            return Some(number);
        }
    }
    None
}

// Whether a thousand commands and more were carried out, some of each kind not refused.
fn are_enough(script: &Script) -> bool {
    for done in script.done {
        if done < 5 {
            return false;
        }
    }
    script.memory.count() >= 1_000
}

// That first life, and whether there were enough commands.
fn forty_lives(alloc: Global) -> (Option<usize>, bool) {
    let Ok(mut disk) = MemDisk::new(alloc, 2_097_184) else {
        return (None, false);
    };
    let mut script = Script {
        seed: 88_172_645_463_325_252,
        opened: Vec::new(alloc),
        memory: Broker::new(alloc),
        done: [0; 9],
    };
    let wrong = first_wrong(alloc, &mut disk, &mut script);
    let are_enough = are_enough(&script);
    drop(script);
    drop(disk);
    (wrong, are_enough)
}

// What is opened is the broker in memory after the same commands and restarts.
#[test]
fn what_is_opened_is_the_broker_that_did_the_same(rt: HostRuntime) {
    let (wrong, are_enough) = forty_lives(rt.alloc());
    expect_none(&rt, wrong);
    expect(&rt, are_enough);
}

// Bytes of a journal, and whether they are a count: of a list, of a text's bytes, of headers or of a transaction's members.
type Part = (&'static [u8], bool);

fn length_of(parts: &[Part]) -> u64 {
    let mut length = 0_u64;
    for (bytes, _) in parts {
        length = length.saturating_add(bytes.len() as u64);
    }
    length
}

// Puts the parts from there on. The damaged one, if it is among them, is as large as it can be. It answers where they end.
fn put_parts(
    image: &mut JournalImage,
    from: usize,
    parts: &[Part],
    damaged: Option<usize>,
) -> usize {
    let mut at = from;
    for (number, (bytes, _)) in parts.iter().enumerate() {
        // A count has two bytes or four.
        let is_short = bytes.len() == 2;
        match (damaged == Some(number), is_short) {
            (true, true) => put(image, at, b"\xff\xff"),
            (true, false) => put(image, at, b"\xff\xff\xff\xff"),
            _ => put(image, at, bytes),
        }
        at = at.saturating_add(bytes.len());
    }
    at
}

// Which part of the journal is damaged.
#[derive(Clone, Copy)]
enum Damage {
    None,
    Snapshot(usize),
    Record(usize),
}

// The journal, whose second area is live and has the snapshot and a block of the record.
fn image_with(damage: Damage) -> JournalImage {
    let (of_snapshot, of_record) = match damage {
        Damage::None => (None, None),
        Damage::Snapshot(number) => (Some(number), None),
        Damage::Record(number) => (None, Some(number)),
    };
    let mut image = [0; SIZE];
    put(&mut image, 0, b"STOMPJ02\0\0\0\0\0\0\x10\0\x01");
    // The area's version stands in the highest byte of the snapshot's length.
    let front = length_of(&SNAPSHOT).saturating_add(2 << 56);
    put(&mut image, 4_128, &front.to_be_bytes());
    let gate = put_parts(&mut image, 4_136, &SNAPSHOT, of_snapshot);
    put(&mut image, gate, b"\x01");
    let length = gate.saturating_add(1);
    put(&mut image, length, &length_of(&RECORD).to_be_bytes());
    put_parts(&mut image, length.saturating_add(8), &RECORD, of_record);
    image
}

fn is_told(alloc: Global, damage: Damage, wanted: Told) -> bool {
    told_of(alloc, &image_with(damage), 0) == wanted
}

// The first count that, once it is as large as it can be, is not reported at the place of the snapshot or the record that has it.
fn first_wrong_count(alloc: Global) -> Option<usize> {
    let record = length_of(&SNAPSHOT).saturating_add(4_145);
    for (number, (_, is_count)) in SNAPSHOT.iter().enumerate() {
        if *is_count && !is_told(alloc, Damage::Snapshot(number), Told::Damaged(4_136)) {
            return Some(number);
        }
    }
    for (number, (_, is_count)) in RECORD.iter().enumerate() {
        if *is_count && !is_told(alloc, Damage::Record(number), Told::Damaged(record)) {
            return Some(number.saturating_add(SNAPSHOT.len()));
        }
    }
    None
}

// The most address space, in kB, that a process has had, as its status says.
fn peak_in(status: &str) -> Option<u64> {
    for line in status.lines() {
        if let Some(rest) = line.strip_prefix("VmPeak:") {
            return rest.trim_end_matches("kB").trim().parse::<u64>().ok();
        }
    }
    None
}

// What this process has had.
fn peak(rt: &(impl Files + AllocGlobal)) -> Option<u64> {
    match fs::read_to_string(rt, "/proc/self/status") {
        Ok(status) => {
            let peak = peak_in(status.as_str());
            drop(status);
            peak
        }
        Err(_) => None,
    }
}

// A list, a text or a body of 2^32 - 1 bytes or more would take 4 GB. Less than a hundredth of that is taken.
fn is_little(before: Option<u64>, after: Option<u64>) -> bool {
    match (before, after) {
        (Some(before), Some(after)) => after.saturating_sub(before) < 40_000,
        _ => false,
    }
}

#[test]
fn a_count_takes_no_more_memory_than_the_bytes_there(rt: HostRuntime) {
    let is_whole = is_told(rt.alloc(), Damage::None, Told::Holds(6, 4));
    let before = peak(&rt);
    let wrong = first_wrong_count(rt.alloc());
    let after = peak(&rt);
    expect(&rt, is_whole);
    expect_none(&rt, wrong);
    expect(&rt, is_little(before, after));
}
