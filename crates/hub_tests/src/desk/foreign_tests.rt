ghost use Rattle.std.specs.Prelude.{◌≡◌};

use crate::desk::guests::Guest;
use crate::desk::rooms::{MemDesk, admit};
use crate::desk::says::Say;
use crate::desk::texts::{CONNECT, CONNECTED};
use crate::hubs::HubRing;
use claim_core::{FlushSeat, Ring};
use clients::Desk;
use command_core::{Out, connected_reply};
use outbox_core::{OutSender, Silent};
use std::alloc::Global;

type RawFlusher = FlushSeat<OutSender<Silent>>;

// Takes the next command, an Open, and answers where the outputs of its session go.
fn take_box(ring: &HubRing, flusher: &mut RawFlusher) -> Option<OutSender<Silent>>
    requires { flusher.old.ring ≡ ring.now }
    ensures { (flusher.new.ring ≡ flusher.old.ring) × (flusher.new.seats ≡ flusher.old.seats) }
{
    match ring.take(flusher) {
        Some(entry) => {
            let (command, sender) = entry.into_parts();
            drop(command);
            sender
        }
        None => None,
    }
}

// Publishes all that was taken.
fn publish(ring: &HubRing, flusher: &mut RawFlusher)
    requires { flusher.old.ring ≡ ring.now }
    ensures { (flusher.new.ring ≡ flusher.old.ring) × (flusher.new.seats ≡ flusher.old.seats) }
{
    let next = flusher.next();
    if flusher.mark() <= next {
        ring.raise(flusher, next);
    }
}

// Gives an outbox the CONNECTED of the second command for its session. Tickets are the numbers of commands, from 0.
fn give(alloc: Global, sender: &mut Option<OutSender<Silent>>) -> bool {
    let Some(sender) = sender else {
        return false;
    };
    let Ok(frame) = connected_reply(alloc, 1) else {
        return false;
    };
    match Out::new(alloc, 1, 1, frame) {
        Ok(out) => sender.give(out).is_ok(),
        Err(_) => false,
    }
}

// One that opens a session.
const OPENER: Guest<'static> = Guest {
    says: &[CONNECT],
    stuck: 0,
    short: 0,
};

fn turn_both(alloc: Global, ring: &HubRing, desk: &mut MemDesk)
    requires { desk.old.seat.ring ≡ ring.now }
    ensures { desk.new.seat.ring ≡ desk.old.seat.ring }
{
    desk.turn(alloc, ring, 0, &Silent);
    desk.turn(alloc, ring, 1, &Silent);
}

// What the client there was closed with, where it heard these.
fn end_of(desk: &MemDesk, at: usize, wanted: &[Say]) -> Option<Option<u16>> {
    let client = desk.link(at)?;
    if client.heard(wanted) {
        Some(client.code())
    } else {
        None
    }
}

// How each of two clients ends: its code, where it heard what it should.
type Ends = (Option<Option<u16>>, Option<Option<u16>>);

// The outboxes of both clients are given an output of the second's session.
fn hear_both(
    alloc: Global,
    ring: &HubRing,
    desk: &mut MemDesk,
    flusher: &mut RawFlusher,
) -> Option<Ends>
    requires desk { desk.old.seat.ring ≡ ring.now }
    requires flusher { flusher.old.ring ≡ ring.now }
    ensures desk { desk.new.seat.ring ≡ desk.old.seat.ring }
    ensures flusher { (flusher.new.ring ≡ flusher.old.ring) × (flusher.new.seats ≡ flusher.old.seats) }
{
    admit(alloc, desk, 0, &OPENER);
    admit(alloc, desk, 1, &OPENER);
    turn_both(alloc, ring, desk);
    let mut first = take_box(ring, flusher);
    let mut second = take_box(ring, flusher);
    let given = give(alloc, &mut first) && give(alloc, &mut second);
    publish(ring, flusher);
    turn_both(alloc, ring, desk);
    turn_both(alloc, ring, desk);
    turn_both(alloc, ring, desk);
    let ends = (end_of(desk, 0, &[]), end_of(desk, 1, &[CONNECTED]));
    drop(first);
    drop(second);
    if given { Some(ends) } else { None }
}

fn run(alloc: Global) -> Option<Ends> {
    let (ring, mut seats, mut flusher) = Ring::new(alloc, 0).ok()?;
    let mut desk = Desk::new(alloc, seats.pop().unwrap(), 1_048_576);
    let ends = hear_both(alloc, &ring, &mut desk, &mut flusher);
    drop(desk.into_seat());
    drop(flusher);
    drop(seats);
    drop(ring);
    ends
}

#[test]
fn an_output_of_another_session_is_never_sent_and_ends_the_connection(rt: HostRuntime) {
    assert_eq!(rt; run(rt.alloc()), Some((Some(Some(1001)), Some(None))));
}
