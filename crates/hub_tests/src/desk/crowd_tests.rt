ghost use Rattle.std.specs.Prelude.{◌≡◌, ◌<◌, length};
ghost use Rattle.hub_tests.specs.Parties.{AreAt, AreTogether, MayFlush};

use crate::desk::guests::Guest;
use crate::desk::rooms::{MemDesk, admit, dismiss, turn_each};
use crate::desk::says::Say;
use crate::desk::texts::{CONNECT, CONNECTED};
use crate::hubs::{Free, HubFlusher, HubRing, HubSeat, Party, close, new_party, numbers};
use clients::Desk;
use engine_core::flush_loop;
use std::alloc::Global;
use std::mem;
use std::process::Abort;
use std::sync::atomic::{AtomicU32, Ordering};
use std::thread::{self, Threads, join_mut};
use std::time::{Clock, Duration};

// How many clients each of four desks has.
const CLIENTS: u32 = 48;

// Each sends one message and goes, with receipts of its own number.
fn admit_all(alloc: Global, desk: &mut MemDesk, first: u32)
    requires { first < 1000 }
    ensures { desk.new.seat.ring ≡ desk.old.seat.ring }
{
    for i in 0..CLIENTS {
        let says = [
            CONNECT,
            Say::Numbered(
                b"SEND\ndestination:/topic/a\nreceipt:s",
                first + i,
                b"\n\n\0",
            ),
            Say::Numbered(b"DISCONNECT\nreceipt:d", first + i, b"\n\n\0"),
        ];
        let guest = Guest {
            says: &says,
            stuck: 0,
            short: 0,
        };
        admit(alloc, desk, i as usize, &guest);
    }
}

// Turns until all have ended.
fn serve<R: Clock>(rt: &R, alloc: Global, ring: &HubRing, desk: &mut MemDesk)
    requires { desk.old.seat.ring ≡ ring.now }
    ensures { desk.new.seat.ring ≡ desk.old.seat.ring }
{
    for _ in 0..20_000u32 {
        if turn_each(alloc, ring, desk) == CLIENTS {
            return;
        }
        thread::sleep(rt, Duration::from_millis(1));
    }
}

// How many heard their own receipts, each once, and nothing else.
fn count_right(desk: &mut MemDesk, first: u32) -> u32
    requires { first < 1000 }
    ensures { desk.new.seat.ring ≡ desk.old.seat.ring }
{
    let mut right = 0u32;
    for i in 0..CLIENTS {
        let heard = [
            CONNECTED,
            Say::Numbered(b"RECEIPT\nreceipt-id:s", first + i, b"\n\n\0"),
            Say::Numbered(b"RECEIPT\nreceipt-id:d", first + i, b"\n\n\0"),
        ];
        if dismiss(desk, i as usize, &heard).is_some() {
            right = right.saturating_add(1);
        }
    }
    right
}

// The number of the next desk's first client, and how many clients heard what they should.
#[derive(Drop)]
struct Counts {
    next: AtomicU32,
    right: AtomicU32,
}

// Serves so many clients at a desk, whose seat comes back. Seats go to other threads, and desks do not.
fn work<R: Clock>(rt: &R, alloc: Global, ring: &HubRing, seat: HubSeat, counts: &Counts) -> HubSeat
    requires { seat.ring ≡ ring.now }
    ensures { result.ring ≡ ring.now }
{
    let first = counts.next.fetch_add(CLIENTS, Ordering::SeqCst) % 1_000;
    let mut desk = Desk::new(alloc, seat, 1_048_576);
    admit_all(alloc, &mut desk, first);
    serve(rt, alloc, ring, &mut desk);
    let right = count_right(&mut desk, first);
    counts.right.fetch_add(right, Ordering::SeqCst);
    desk.into_seat()
}

// The same at each of these seats, in a thread of its own.
fn work_at_each<R: Threads + Clock + Abort + Sync>(
    rt: &R,
    alloc: Global,
    ring: &HubRing,
    seats: &mut Vec<HubSeat>,
    counts: &Counts,
)
    requires { AreAt ring.now seats.old.items }
    ensures { AreAt ring.now seats.new.items × (length seats.new.items ≡ length seats.old.items) }
{
    let own = mem::replace(seats, Vec::new(alloc));
    let back = thread::map_vec(
        rt,
        own,
        &|seat: HubSeat| -> HubSeat
            requires { seat.ring ≡ ring.now }
            ensures { result.ring ≡ ring.entry.now }
        { work(rt, alloc, ring, seat, counts) },
    );
    // A hub whose seats are lost can't be closed.
    drop(mem::replace(seats, back.expect(rt, "no memory")));
}

// Turns until so many commands are published.
fn flush_to<R: Clock>(rt: &R, alloc: Global, ring: &HubRing, flusher: &mut HubFlusher, wanted: u64)
    requires { MayFlush ring.now flusher.old }
    ensures ring { flusher.new.seat.ring ≡ flusher.old.seat.ring }
    ensures seats { flusher.new.seat.seats ≡ flusher.old.seat.seats }
{
    for _ in 0..20_000u32 {
        match flush_loop(alloc, ring, flusher, &Free, 1) {
            Ok(mark) if mark < wanted => thread::sleep(rt, Duration::from_millis(1)),
            _ => return,
        }
    }
}

// All threads, and the flusher.
fn work_and_flush<R: Threads + Clock + Abort + Sync>(
    rt: &R,
    alloc: Global,
    party: &mut Party,
    counts: &Counts,
    wanted: u64,
)
    requires together { AreTogether (length party.old.seats.items) party.old.hub party.old.seats.items party.old.flusher }
    requires flusher { MayFlush party.old.hub.ring party.old.flusher }
    ensures { AreTogether (length party.new.seats.items) party.new.hub party.new.seats.items party.new.flusher }
{
    let ring = party.hub.ring();
    let seats = &mut party.seats;
    let flusher = &mut party.flusher;
    join_mut(
        rt,
        &mut ||
            requires { AreAt ring.now seats.now.items }
        { work_at_each(rt, alloc, ring, seats, counts) },
        &mut || flush_to(rt, alloc, ring, flusher, wanted),
    );
}

// How many clients at four desks heard what they should, and the numbers of the hub at its end.
fn run<R: Threads + Clock + Abort + Sync>(rt: &R, alloc: Global) -> Option<(u32, [u64; 4])> {
    let mut party = new_party(alloc, 262_144, 4)?;
    let counts = Counts {
        next: AtomicU32::new(0),
        right: AtomicU32::new(0),
    };
    work_and_flush(rt, alloc, &mut party, &counts, 576);
    let right = counts.right.load(Ordering::SeqCst);
    drop(counts);
    match close(party) {
        Some(closed) => {
            let ended = numbers(&closed);
            drop(closed);
            Some((right, ended))
        }
        None => None,
    }
}

// The first number, the next, the one after those that were taken, and the mark: three commands for each of 192 clients.
#[test]
fn clients_192_at_desks_in_four_threads_hear_their_own_receipts(rt: HostRuntime) {
    let ended = [0, 576, 576, 576];
    assert_eq!(rt; run(&rt, rt.alloc()), Some((4 * CLIENTS, ended)));
}
