//! A desk at the seat of a hub, on one thread, and what is done there.

ghost use Rattle.std.specs.Prelude.{◌≡◌, ◌≤◌};
ghost use Rattle.hub_tests.specs.Parties.{AreTogether, MayFlush};

use crate::desk::guests::{Client, Guest};
use crate::desk::says::Say;
use crate::hubs::{Free, HubFlusher, HubRing, Party, close, new_party};
use clients::{Desk, Next};
use engine_core::flush_loop;
use outbox_core::Silent;
use std::alloc::Global;

pub type MemDesk = Desk<Silent, Client>;

/// That guest comes in, at that place; whether it sits there now.
pub fn admit(alloc: Global, desk: &mut MemDesk, at: usize, guest: &Guest) -> bool
    ensures { desk.new.seat.ring ≡ desk.old.seat.ring }
{
    match Client::new(alloc, guest) {
        Some(client) => desk.admit(alloc, at, client).is_ok(),
        None => false,
    }
}

// One turn of the client there: m if memory was lacking, g if there may be more to do at once, a point for another turn, ! for none, and
// o if its connection is over.
fn turn(alloc: Global, ring: &HubRing, desk: &mut MemDesk, at: usize) -> u8
    requires { desk.old.seat.ring ≡ ring.now }
    ensures { desk.new.seat.ring ≡ desk.old.seat.ring }
{
    match desk.turn(alloc, ring, at, &Silent) {
        Some(turned) => match turned.next {
            Next::Memory => b'm',
            Next::Go => b'g',
            Next::Over(_) => b'o',
            _ => b'.',
        },
        None => b'!',
    }
}

/// A turn of each client; how many have ended.
pub fn turn_each(alloc: Global, ring: &HubRing, desk: &mut MemDesk) -> u32
    requires { desk.old.seat.ring ≡ ring.now }
    ensures { desk.new.seat.ring ≡ desk.old.seat.ring }
{
    let mut ended = 0u32;
    for at in 0..desk.len() {
        if turn(alloc, ring, desk, at) == b'o' {
            ended = ended.saturating_add(1);
        }
    }
    ended
}

// One turn of the flusher.
fn flush(alloc: Global, ring: &HubRing, flusher: &mut HubFlusher) -> bool
    requires { MayFlush ring.now flusher.old }
    ensures may { MayFlush ring.now flusher.new }
    ensures seats { flusher.new.seat.seats ≡ flusher.old.seat.seats }
{
    flush_loop(alloc, ring, flusher, &Free, 1).is_ok()
}

// So many rounds: a turn of each client, and one of the flusher.
fn go_round(
    alloc: Global,
    ring: &HubRing,
    desk: &mut MemDesk,
    flusher: &mut HubFlusher,
    rounds: u32,
)
    requires { (desk.old.seat.ring ≡ ring.now) × MayFlush ring.now flusher.old }
    ensures may { (desk.new.seat.ring ≡ ring.now) × MayFlush ring.now flusher.new }
    ensures seats { flusher.new.seat.seats ≡ flusher.old.seat.seats }
{
    for _round in 0..rounds {
        turn_each(alloc, ring, desk);
        flush(alloc, ring, flusher);
    }
}

// Whether the client there has heard these.
fn has_heard(desk: &MemDesk, at: usize, wanted: &[Say]) -> bool {
    match desk.link(at) {
        Some(client) => client.heard(wanted),
        None => false,
    }
}

/// The client there goes, if its connection is over: the code with which it was closed, where it has heard these.
pub fn dismiss(desk: &mut MemDesk, at: usize, wanted: &[Say]) -> Option<Option<u16>>
    ensures { desk.new.seat.ring ≡ desk.old.seat.ring }
{
    match desk.dismiss(at) {
        Some(client) => {
            let (code, heard) = (client.code(), client.heard(wanted));
            drop(client);
            if heard { Some(code) } else { None }
        }
        None => None,
    }
}

// Whether the client there may not go yet.
fn stays(desk: &mut MemDesk, at: usize) -> bool
    ensures { desk.new.seat.ring ≡ desk.old.seat.ring }
{
    let gone = desk.dismiss(at);
    let stays = gone.is_none();
    drop(gone);
    stays
}

fn is_done(
    alloc: Global,
    ring: &HubRing,
    desk: &mut MemDesk,
    flusher: &mut HubFlusher,
    cue: Cue,
) -> bool
    requires { (desk.old.seat.ring ≡ ring.now) × MayFlush ring.now flusher.old }
    ensures may { (desk.new.seat.ring ≡ ring.now) × MayFlush ring.now flusher.new }
    ensures seats { flusher.new.seat.seats ≡ flusher.old.seat.seats }
{
    match cue {
        Cue::Comes(at, guest) => admit(alloc, desk, at, &guest),
        Cue::Rounds(rounds) => {
            go_round(alloc, ring, desk, flusher, rounds);
            true
        }
        // The mark that the flusher tells is the desk's own, once that looks.
        Cue::Counts(count) => desk.look(ring) == count && flusher.mark() == count,
        Cue::Hears(at, wanted) => has_heard(desk, at, wanted),
        Cue::IsLost(at) => {
            desk.lose(at);
            true
        }
        Cue::Goes(at, code, wanted) => dismiss(desk, at, wanted) == Some(code),
        Cue::Stays(at) => stays(desk, at),
        Cue::Turns(at, mark) => turn(alloc, ring, desk, at) == mark,
        Cue::Flushes => flush(alloc, ring, flusher),
    }
}

// The first of these that is not so.
fn first_wrong(
    alloc: Global,
    ring: &HubRing,
    desk: &mut MemDesk,
    flusher: &mut HubFlusher,
    cues: &[Cue],
) -> Option<usize>
    requires { (desk.old.seat.ring ≡ ring.now) × MayFlush ring.now flusher.old }
    ensures ring { (desk.new.seat.ring ≡ ring.now) × (flusher.new.seat.ring ≡ ring.now) }
    ensures seats { flusher.new.seat.seats ≡ flusher.old.seat.seats }
{
    for (place, cue) in cues.iter().enumerate() {
        if !is_done(alloc, ring, desk, flusher, *cue) {
            return Some(place);
        }
    }
    None
}

/// What is done in a room, or is to be so.
#[derive(Clone, Copy)]
pub enum Cue<'a> {
    /// That guest comes in, and sits at that place.
    Comes(usize, Guest<'a>),
    /// So many rounds: a turn of each client, and one of the flusher.
    Rounds(u32),
    /// So many commands were carried out.
    Counts(u64),
    /// The client there has heard these.
    Hears(usize, &'a [Say<'a>]),
    /// The client there is lost.
    IsLost(usize),
    /// The client there goes. It was closed with that code, and has heard these.
    Goes(usize, Option<u16>, &'a [Say<'a>]),
    /// The client there may not go yet.
    Stays(usize),
    /// A turn of the client there: m if memory was lacking, g if there may be more to do at once, o if its connection is over, and a point for another turn.
    Turns(usize, u8),
    /// The flusher has a turn.
    Flushes,
}

// The first of these that is not so, at a desk that has the one seat of a party.
fn play_at(alloc: Global, party: &mut Party, cues: &[Cue]) -> Option<usize>
    requires together { AreTogether 1 party.old.hub party.old.seats.items party.old.flusher }
    requires flusher { MayFlush party.old.hub.ring party.old.flusher }
    ensures { AreTogether 1 party.new.hub party.new.seats.items party.new.flusher }
{
    let seat = party.seats.pop().unwrap();
    let mut desk = Desk::new(alloc, seat, 8_192);
    let wrong = first_wrong(alloc, party.hub.ring(), &mut desk, &mut party.flusher, cues);
    party.seats.push_reserved(desk.into_seat());
    wrong
}

/// The place of the first of these that is not so, in the room of an empty journal with areas of so many bytes; `None` if memory is refused.
pub fn play(alloc: Global, area_bytes: u64, cues: &[Cue]) -> Option<Option<usize>>
    requires { (4096 ≤ area_bytes) × (area_bytes ≤ 262144) }
{
    match new_party(alloc, area_bytes, 1) {
        Some(mut party) => {
            let wrong = play_at(alloc, &mut party, cues);
            drop(close(party));
            Some(wrong)
        }
        None => None,
    }
}
