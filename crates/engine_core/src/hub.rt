//! The hub: an opened journal, and the ring before it.

ghost use Rattle.std.specs.Prelude.{◌≡◌, ◌≤◌, ◌^◌, ◌∷◌, [], All, None, Some, IfSome, IsSome, IfOk, IfErr, MatchOption, false, length, ◌+◌, ◌++◌, List, IsOk, ℕ, ◌<◌, ◌*◌};
ghost use Rattle.std.specs.VecDeque.{deque_capacity};
ghost use Rattle.std.specs.List.{sum_by};
ghost use Rattle.claim_core.specs.declared.limits.TheConstants.{SEATS};
ghost use Rattle.claim_core.specs.Seats.{new_session};
ghost use Rattle.flush_core.specs.Flusher.{Flushed};
ghost use Rattle.recover_core.specs.Opened.{HandsBack};
ghost use Rattle.recover_core.specs.Standing.{StandFor};
ghost use Rattle.recover_core.specs.Stores.{disk_of, is_broken, opened_by};
ghost use Rattle.command_core.specs.Commands.{CommandValue};
ghost use Rattle.claim_core.specs.Endings.{Ends};
ghost use Rattle.broker_state.specs.declared.nack_rule.NackRule.{NackRule};
ghost use Rattle.broker_state.specs.Sound.{IsSound};
ghost use Rattle.broker_state.specs.States.{State, is_open};
ghost use Rattle.broker_state.specs.Steps.{state_after_by};
ghost use Rattle.clients.specs.Footprints.{footprint};
ghost use Rattle.snapshot_core.specs.Snapshots.{Spells};
ghost use Rattle.engine_core.specs.Hubs.{AreNew, Begins, IsWhole, IsFirst, IsWant, TakesOver, hub};
ghost use Rattle.engine_core.specs.Closings.{Closes, closed};
ghost use Rattle.engine_core.specs.Desks.{limit_of, operations_of};
ghost use Rattle.engine_core.specs.Rooms.{DesksFit, HasRoom};
ghost use Rattle.engine_core.specs.Sessions.{bytes_of_session, bytes_of_sessions};
ghost use Rattle.engine_core.specs.declared.hub.TheConstants.{HELD_BYTES};

use claim_core::{BrokerRing, BrokerSeat, FlushSeat, Ring, RingEnd, SEATS};
use clients::SESSION_BYTES;
use disk_core::Disk;
use flush_core::{Flusher, Width};
use outbox_core::{Bell, OutSender};
use recover_core::{OpenFault, Store};
use std::alloc::{AllocError, Global};
use std::collections::VecDeque;
use std::marker::Model;
use world_core::shown_worlds_hold;

/// How many bytes an area needs at most beside those of sessions: for the messages that may be held, durable names, and the longest block of
/// one command.
pub const HELD_BYTES: u64 = 25_300_000;

/// An opened journal with a ring before it: the seats of `SEATS` sessions, and the flusher, each to be handed out once.
/// Contracts see which ring it is, its first ticket, and what was not handed out.
#[derive(Drop)]
pub struct Hub<D: Disk, B: Bell> {
    ring: BrokerRing<OutSender<B>>,
    base: u64,
    // With room for all, so that closing needs no memory for them.
    seats: VecDeque<BrokerSeat<OutSender<B>>>,
    flusher: Option<HubFlusher<D, B>>,
}

impl<D: Disk, B: Bell> Model for Hub<D, B> {
    ghost use Rattle.std.specs.Prelude.{◌≤◌};
    ghost use Rattle.std.specs.VecDeque.{deque_capacity};
    ghost use Rattle.claim_core.specs.declared.limits.TheConstants.{SEATS};
    ghost use Rattle.engine_core.specs.Hubs.{HubValue, IsHub, hub};

    ghost Value = { HubValue D };

    ghost view = { λ a. hub a.ring a.base a.seats.items a.flusher };

    ghost invariant = { λ a. IsHub (hub a.ring a.base a.seats.items a.flusher) × (SEATS ≤ deque_capacity a.seats) };
}

impl<D: Disk, B: Bell> Hub<D, B> {
    /// Opens the journal of a disk, and makes a ring whose first ticket is the number of commands that it counts.
    ///
    /// A refusal hands the disk back, and it may be opened again: those of opening a journal, and one if memory is refused for
    /// the ring.
    pub fn open(alloc: Global, disk: D) -> Result<Hub<D, B>, (D, OpenFault)>
        ensures whole { IfOk result (λ hub. (f : Flushed D) × IsWhole hub f) }
        ensures takes_over { IfOk result (λ hub. IfSome hub.flusher (TakesOver D.Disk disk)) }
        ensures hands_back { IfErr result (λ back. HandsBack D.Disk disk back.0 back.1) }
    {
        match recover_core::open(alloc, disk) {
            Ok(store) => Hub::begin(alloc, store),
            Err(back) => Err(back),
        }
    }

    // The hub of a journal that was just opened.
    fn begin(alloc: Global, store: Store<D>) -> Result<Hub<D, B>, (D, OpenFault)>
        requires whole { is_broken store ≡ false }
        requires opened { IsSome (opened_by store) }
        requires small { IfSome (opened_by store) (λ broker. (broker.state.count ≤ 2 ^ 61) × (broker.broken ≡ false)) }
        requires stands { D.honest (disk_of store) → IfSome (opened_by store) (λ broker. StandFor (D.images (disk_of store)) broker.state) }
        ensures ok { IfOk result (λ hub. Begins hub (disk_of store) (opened_by store)) }
        ensures err { IfErr result (λ back. (back.0 ≡ disk_of store) × IsWant back.1) }
    {
        let mut store = store;
        let broker = store.broker().unwrap();
        let base = broker.count();
        match Ring::new(alloc, base) {
            Ok((ring, seats, seat)) => {
                let flusher = Flusher::new(alloc, store, broker, seat);
                Ok(Hub::of(ring, base, seats, flusher))
            }
            Err(refused) => Err((store.into_disk(), OpenFault::from(refused))),
        }
    }

    // The hub of a new ring.
    fn of(
        ring: BrokerRing<OutSender<B>>,
        base: u64,
        seats: Vec<BrokerSeat<OutSender<B>>>,
        flusher: HubFlusher<D, B>,
    ) -> Hub<D, B>
        requires seats { AreNew ring base seats.items }
        requires count { length seats.items ≡ SEATS }
        requires flusher { IsFirst ring base flusher }
        ensures { result ≡ hub ring base seats.items (Some flusher) }
    {
        Hub {
            ring,
            base,
            seats: VecDeque::from_vec(seats),
            flusher: Some(flusher),
        }
    }

    /// The ring, at which sessions and the flusher meet.
    pub fn ring(&self) -> &BrokerRing<OutSender<B>>
        ensures { result.now ≡ self.now.ring }
    {
        &self.ring
    }

    /// The next session's seat, in the order of their numbers. No memory is taken.
    pub fn seat(&mut self) -> Option<BrokerSeat<OutSender<B>>>
        ensures next { MatchOption result ((self.old.seats ≡ []) × (self.new ≡ self.old))
            (λ seat. (self.old.seats ≡ seat ∷ self.new.seats) × (self.new ≡ record self.old { seats = self.new.seats })) }
        ensures new { IfSome result (λ seat. seat ≡ new_session self.old.ring self.old.base seat.number) }
    {
        self.seats.pop_front()
    }

    /// The flusher; the first call hands it out. No memory is taken.
    pub fn flusher(&mut self) -> Option<HubFlusher<D, B>>
        ensures flusher { result ≡ self.old.flusher }
        ensures rest { self.new ≡ record self.old { flusher = None } }
        ensures first { IfSome result (IsFirst self.old.ring self.old.base) }
    {
        self.flusher.take()
    }
}

impl<D: Disk + Drop, B: Bell> Hub<D, B> {
    // The ring, and the seats that were not handed out, with room for all. The flusher is let go, if it was not handed out.
    pub(crate) fn into_seats(self) -> (BrokerRing<OutSender<B>>, VecDeque<BrokerSeat<OutSender<B>>>)
        ensures parts { (result.0 ≡ self.ring) × (result.1.items ≡ self.seats) }
        ensures seated { All (λ seat. seat.ring ≡ self.ring) self.seats }
        ensures room { SEATS ≤ deque_capacity result.1 }
    {
        let Hub {
            ring,
            base: _,
            seats,
            flusher,
        } = self;
        match flusher {
            // Its own crate lets go of all that it has.
            Some(flusher) => drop(flusher.into_disk()),
            None => {}
        }
        (ring, seats)
    }

    /// The ring alone, to be shared by threads, and the room for all seats, by which `again` makes a hub of it once more. The
    /// flusher is let go if it was not handed out.
    pub fn into_ring(self) -> (BrokerRing<OutSender<B>>, SeatRoom<B>)
        ensures ring { result.0 ≡ self.ring }
        ensures room { (result.1.seats.items ≡ self.seats) × (SEATS ≤ deque_capacity result.1.seats) }
    {
        let base = self.base;
        let (ring, seats) = self.into_seats();
        (ring, SeatRoom { base, seats })
    }

    /// The hub of a ring whose seats and flusher were all handed out.
    pub fn again(ring: BrokerRing<OutSender<B>>, room: SeatRoom<B>) -> Hub<D, B>
        requires { room.seats.items ≡ [] }
        ensures { result ≡ hub ring room.base [] None }
    {
        let SeatRoom { base, seats } = room;
        Hub {
            ring,
            base,
            seats,
            flusher: None,
        }
    }

    /// Ends the hub, with its flusher, broken or not, and each seat that was handed out; it has the others itself. What
    /// the flusher did not take is dropped, and so are outputs that wait. If memory is refused, the disk comes back as it
    /// is. No memory is taken for a hub's own seats.
    ///
    /// Contracts then know the world that ring, seats and flusher show: what is promised of the core in all interleavings
    /// holds for it.
    pub fn close(
        self,
        seats: Vec<BrokerSeat<OutSender<B>>>,
        flusher: HubFlusher<D, B>,
    ) -> Result<Closed<D>, (D, AllocError)>
        requires flusher { flusher.seat.ring ≡ self.ring }
        requires seats { All (λ seat. seat.ring ≡ self.ring) seats.items }
        requires all { length seats.items + length self.seats ≡ flusher.seat.seats }
        ensures closes { IfOk result (λ closed. (history : List CommandValue)
            × Closes D.honest D.images (self.seats ++ seats.items) flusher history closed) }
        ensures own { flusher.seat.seats ≤ SEATS → IsOk result }
        ensures refused { IfErr result (λ back. back.0 ≡ flusher.disk) }
    {
        shown_worlds_hold::<D>();
        let (ring, own) = self.into_seats();
        let (disk, seat) = flusher.into_parts();
        match end_ring(ring, own, seats, seat) {
            Ok(end) => Ok(told(end, disk)),
            Err(refused) => Err((disk, refused)),
        }
    }
}

/// The seats of a hub that were not handed out, with room for all, so that closing the hub needs no memory.
#[derive(Drop)]
pub struct SeatRoom<B: Bell> {
    pub(crate) base: u64,
    pub(crate) seats: VecDeque<BrokerSeat<OutSender<B>>>,
    ghost room: { SEATS ≤ deque_capacity seats },
}

// Ends a ring with all its seats: the hub's own, and after them those that came back.
fn end_ring<B: Bell>(
    ring: BrokerRing<OutSender<B>>,
    own: VecDeque<BrokerSeat<OutSender<B>>>,
    given: Vec<BrokerSeat<OutSender<B>>>,
    seat: FlushSeat<OutSender<B>>,
) -> Result<RingEnd, AllocError>
    requires flusher { seat.ring ≡ ring }
    requires own { All (λ seat. seat.ring ≡ ring) own.items }
    requires given { All (λ seat. seat.ring ≡ ring) given.items }
    requires all { length given.items + length own.items ≡ seat.seats }
    ensures ends { IfOk result (λ end. (history : List CommandValue) × Ends (own.items ++ given.items) seat history end) }
    ensures room { seat.seats ≤ deque_capacity own → IsOk result }
{
    match join(own, given) {
        Ok(all) => ring.close(all, seat),
        Err(refused) => Err(refused),
    }
}

// All seats in one list. No memory is taken if there is room for them beside the hub's own.
fn join<S: Drop>(own: VecDeque<S>, given: Vec<S>) -> Result<Vec<S>, AllocError>
    ensures all { IfOk result (λ all. all.items ≡ own.items ++ given.items) }
    ensures room { length own.items + length given.items ≤ deque_capacity own → IsOk result }
{
    let mut all = own;
    let mut given = VecDeque::from_vec(given);
    match all.append(&mut given) {
        Ok(()) => Ok(Vec::from(all)),
        Err(refused) => Err(refused),
    }
}

// What is reported of a ring's end, with the disk.
fn told<D>(end: RingEnd, disk: D) -> Closed<D>
    ensures { result ≡ closed end disk }
{
    Closed {
        base: end.base,
        claimed: end.claimed,
        taken: end.taken,
        mark: end.mark,
        disk,
    }
}

/// What is left of a hub that was closed: the disk of its journal, and numbers of commands.
#[derive(Drop)]
pub struct Closed<D> {
    /// The hub's first number.
    pub base: u64,
    /// The number after the last one that was claimed.
    pub claimed: u64,
    /// The number after the last one that the flusher took.
    pub taken: u64,
    /// The mark: every number under it is published.
    pub mark: u64,
    /// The disk of the journal, as the flusher left it.
    pub disk: D,
}

/// How wide the blocks of a hub's journal are: 256 commands, or 1,048,576 bytes of records.
pub struct HubWidth;

impl Width for HubWidth {
    const COMMANDS: usize = 256;

    const BYTES: u64 = 1_048_576;

    ghost COMMANDS = { 256 };

    ghost BYTES = { 1048576 };
}

/// The flusher of a hub.
pub type HubFlusher<D, B> = Flusher<D, B, HubWidth>;

/// How many bytes of a snapshot the sessions of each desk may have together, if there are `desks` desks, and areas of `area` bytes. All desks
/// share `SESSION_BYTES` for each client, or what an area has over `HELD_BYTES` if that is less. A desk has at least `SESSION_BYTES`.
///
/// Areas with `HELD_BYTES` and `SESSION_BYTES` for each desk always have room for a snapshot, and for the next command after it: with 64 desks
/// those of 25,824,288 bytes or more. In smaller areas this limit is too large, and a server can end with `J4 journal full`.
pub fn desk_bytes(desks: u64, most_clients: u64, area: u64) -> u64
    requires some { 0 < desks }
    ensures value { result ≡ limit_of desks most_clients area }
    ensures within { HELD_BYTES + desks * SESSION_BYTES ≤ area → HELD_BYTES + desks * result ≤ area }
    ensures room { HELD_BYTES + desks * SESSION_BYTES ≤ area → DesksFit desks result area }
{
    let clients = most_clients.saturating_mul(SESSION_BYTES);
    let shared = clients.min(area.saturating_sub(HELD_BYTES));
    (shared / desks).max(SESSION_BYTES)
}

/// A snapshot has at most 24,096,544 bytes beside those of the state's sessions. So an area with `HELD_BYTES` beside these has room for the
/// snapshot, and for a block of any one command after it. The function does nothing.
pub fn snapshots_leave_room()
    ensures length { (s : State) (snapshot : List ℕ) → Spells snapshot s → length snapshot ≤ 24096544 + bytes_of_sessions s }
    ensures room { (s : State) (snapshot : List ℕ) (size : ℕ) → Spells snapshot s → HELD_BYTES + bytes_of_sessions s ≤ size → HasRoom size snapshot }
{}

/// After any commands, a session has no more bytes in a snapshot than its operations add, and a desk counts it by these. A session that is not
/// open has none, so all bytes of sessions are those of open ones. The function does nothing.
pub fn sessions_take_what_they_add()
    ensures most { (rule : NackRule) (s : State) (commands : List CommandValue) (n : ℕ) → IsSound s → s.sessions ≡ [] → bytes_of_session n (state_after_by rule s commands) ≤ footprint (operations_of n s.count commands) }
    ensures closed { (s : State) (n : ℕ) → IsSound s → is_open s n ≡ false → bytes_of_session n s ≡ 0 }
    ensures all { (s : State) → IsSound s → bytes_of_sessions s ≤ sum_by (λ e. bytes_of_session e.0 s) s.sessions }
{}
