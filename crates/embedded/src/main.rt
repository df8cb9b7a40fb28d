//! Embeds the broker: a reader and a writer over links in memory, a line of chat, and its receipt.

#![tactic(auto)]

ghost use Rattle.std.specs.Prelude.{◌≡◌, ◌<◌, ◌+◌, IsSome, length};
ghost use Rattle.flush_core.specs.Flusher.{Flushed};
ghost use Rattle.engine_core.specs.Hubs.{IsWhole};

use engine_core::{
    BrokerRing, BrokerSeat, Gate, Hub, HubFlusher, MemDisk, MemLink, OutSender, Silent, flush_loop,
    format, worker,
};
use std::alloc::{AllocError, Global};
use std::io::Write;
use std::process::ExitCode;
use std::sync::Wait;
use std::sync::atomic::{AtomicU64, Ordering};
use std::thread::{self, Threads};
use std::time::{Clock, Duration};

type Ring = BrokerRing<OutSender<Silent>>;

type Seat = BrokerSeat<OutSender<Silent>>;

type Flusher = HubFlusher<MemDisk, Silent>;

const AREA: u64 = 65_536;

const TURNS: u64 = 200;

const READER: [&[u8]; 2] = [
    b"CONNECT\naccept-version:1.2\n\n\0",
    b"SUBSCRIBE\nid:a\ndestination:/topic/room\n\n\0",
];

const WRITER: [&[u8]; 2] = [
    b"CONNECT\naccept-version:1.2\n\n\0",
    b"SEND\ndestination:/topic/room\nreceipt:r1\n\nhello\0",
];

/// Each turn takes a millisecond. The writer, which has seat 1, waits until two commands are in the journal: the reader listens then.
#[derive(Drop)]
struct Room<R> {
    rt: R,
    mark: AtomicU64,
}

impl<R: Clock> Gate for Room<R> {
    fn pass(&self, worker: u32, _turn: u64) -> bool {
        thread::sleep(&self.rt, Duration::from_millis(1));
        worker != 1 || self.mark.load(Ordering::SeqCst) >= 2
    }

    fn published(&self, mark: u64) {
        self.mark.store(mark, Ordering::SeqCst);
    }
}

// Serves a client that says these frames, and answers what it was sent: each frame without its NUL.
fn serve<G: Gate>(
    alloc: Global,
    ring: &Ring,
    seat: &mut Seat,
    frames: &[&[u8]],
    gate: &G,
) -> Option<Vec<u8>>
    requires { seat.old.ring ≡ ring.now }
{
    match link_of(alloc, frames) {
        Some(mut link) => {
            let _ended = worker(alloc, ring, seat, &mut link, &Silent, gate, TURNS);
            let heard = heard_by(alloc, &link);
            drop(link);
            heard
        }
        None => None,
    }
}

fn heard_by(alloc: Global, link: &MemLink) -> Option<Vec<u8>> {
    let mut text = Vec::new(alloc);
    match push_heard(&mut text, link) {
        Ok(()) => Some(text),
        Err(_) => None,
    }
}

fn push_heard(text: &mut Vec<u8>, link: &MemLink) -> Result<(), AllocError> {
    for frame in link.sent() {
        if let Some((_, before)) = frame.split_last() {
            text.extend_from_slice(before)?;
        }
        text.push(b'\n')?;
    }
    Ok(())
}

fn flush<G: Gate>(alloc: Global, ring: &Ring, flusher: &mut Flusher, gate: &G) -> bool
    requires { (flusher.old.seat.ring ≡ ring.now) × (flusher.old.executed ≡ flusher.old.stored) }
{
    flush_loop(alloc, ring, flusher, gate, TURNS).is_ok()
}

// Both clients, each in a thread of its own.
fn serve_both<R: Threads + Wait + Clock + Sync>(
    rt: &R,
    alloc: Global,
    ring: &Ring,
    reader: &mut Seat,
    writer: &mut Seat,
    room: &Room<R>,
) -> (Option<Vec<u8>>, Option<Vec<u8>>)
    requires { (reader.old.ring ≡ ring.now) × (writer.old.ring ≡ ring.now) }
{
    thread::join(
        rt,
        || -> Option<Vec<u8>>
            requires { reader.now.ring ≡ ring.now }
        { serve(alloc, ring, reader, &READER, room) },
        || -> Option<Vec<u8>>
            requires { writer.now.ring ≡ ring.now }
        { serve(alloc, ring, writer, &WRITER, room) },
    )
}

// Both clients, and the flusher beside them.
fn chat<R: Threads + Wait + Clock + Sync>(
    rt: &R,
    alloc: Global,
    ring: &Ring,
    reader: &mut Seat,
    writer: &mut Seat,
    flusher: &mut Flusher,
    room: &Room<R>,
) -> ((Option<Vec<u8>>, Option<Vec<u8>>), bool)
    requires seats { (reader.old.ring ≡ ring.now) × (writer.old.ring ≡ ring.now) }
    requires flusher { (flusher.old.seat.ring ≡ ring.now) × (flusher.old.executed ≡ flusher.old.stored) }
{
    thread::join(
        rt,
        || -> (Option<Vec<u8>>, Option<Vec<u8>>)
            requires { (reader.now.ring ≡ ring.now) × (writer.now.ring ≡ ring.now) }
        { serve_both(rt, alloc, ring, reader, writer, room) },
        || -> bool
            requires { (flusher.now.seat.ring ≡ ring.now) × (flusher.now.executed ≡ flusher.now.stored) }
        { flush(alloc, ring, flusher, room) },
    )
}

// The disk of an empty journal in memory.
fn formatted(alloc: Global) -> Option<MemDisk> {
    let mut disk = MemDisk::new(alloc, 32 + 2 * AREA).ok()?;
    match format(alloc, &mut disk, AREA) {
        Ok(()) => Some(disk),
        Err(_) => None,
    }
}

fn link_of(alloc: Global, frames: &[&[u8]]) -> Option<MemLink> {
    let mut messages = Vec::new(alloc);
    match push_all(alloc, &mut messages, frames) {
        Ok(()) => Some(MemLink::new(alloc, messages)),
        Err(_) => None,
    }
}

fn push_all(
    alloc: Global,
    messages: &mut Vec<Vec<u8>>,
    frames: &[&[u8]],
) -> Result<(), AllocError> {
    for frame in frames {
        push(alloc, messages, frame)?;
    }
    Ok(())
}

fn push(alloc: Global, messages: &mut Vec<Vec<u8>>, frame: &[u8]) -> Result<(), AllocError> {
    messages.reserve(1)?;
    messages.push_reserved(Vec::from_slice(alloc, frame)?);
    Ok(())
}

// The next seat.
fn take_seat(hub: &mut Hub<MemDisk, Silent>) -> Seat
    requires { 0 < length hub.old.seats }
    ensures seat { result.ring ≡ hub.new.ring }
    ensures count { length hub.new.seats + 1 ≡ length hub.old.seats }
    ensures same { (hub.new.ring ≡ hub.old.ring) × (hub.new.flusher ≡ hub.old.flusher) }
{
    hub.seat().unwrap()
}

fn take_flusher(hub: &mut Hub<MemDisk, Silent>) -> Flusher
    requires { IsSome hub.old.flusher }
    ensures flusher { (result.seat.ring ≡ hub.new.ring) × (result.executed ≡ result.stored) }
    ensures same { hub.new.ring ≡ hub.old.ring }
{
    hub.flusher().unwrap()
}

// What both clients were sent, once the broker has served them.
fn served<R: Threads + Wait + Clock + Sync>(
    rt: &R,
    alloc: Global,
    hub: Hub<MemDisk, Silent>,
    room: &Room<R>,
) -> (Option<Vec<u8>>, Option<Vec<u8>>)
    requires { (f : Flushed _) × IsWhole hub f }
{
    let mut hub = hub;
    let mut reader = take_seat(&mut hub);
    let mut writer = take_seat(&mut hub);
    let mut flusher = take_flusher(&mut hub);
    let ring = hub.ring();
    let (heard, _flushed) = chat(
        rt,
        alloc,
        ring,
        &mut reader,
        &mut writer,
        &mut flusher,
        room,
    );
    drop(flusher);
    drop(reader);
    drop(writer);
    drop(hub);
    heard
}

// The same over an empty journal.
fn run<R: Threads + Wait + Clock + Sync>(
    rt: &R,
    alloc: Global,
    room: &Room<R>,
) -> (Option<Vec<u8>>, Option<Vec<u8>>) {
    let Some(disk) = formatted(alloc) else {
        return (None, None);
    };
    match Hub::open(alloc, disk) {
        Ok(hub) => served(rt, alloc, hub, room),
        Err(_) => (None, None),
    }
}

// Prints what a client was sent, and answers whether it was served and all is printed.
fn print<W: Write>(out: &mut W, name: &str, heard: &Option<Vec<u8>>) -> bool {
    match heard {
        Some(heard) => writeln!(out, "{name}:").is_ok() && out.write_all(heard).is_ok(),
        None => false,
    }
}

fn main(rt: HostRuntime) -> ExitCode {
    let alloc = rt.alloc();
    let Ok(clone) = rt.clone() else {
        return ExitCode::FAILURE;
    };
    let room = Room {
        rt: clone,
        mark: AtomicU64::new(0),
    };
    let (reader, writer) = run(&rt, alloc, &room);
    drop(room);
    let mut out = rt.stdout().lock();
    let told = print(&mut out, "reader", &reader) && print(&mut out, "writer", &writer);
    drop(reader);
    drop(writer);
    if told {
        ExitCode::SUCCESS
    } else {
        ExitCode::FAILURE
    }
}
