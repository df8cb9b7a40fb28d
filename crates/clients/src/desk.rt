//! A desk: one seat, and many connections that speak through it.

ghost use Rattle.std.specs.Prelude.{◌≡◌, IfErr, IfSome, IsNone, OnOk, is_some, length, option_map, ◌+◌, ◌-◌, Some, None, IsSome, true, ◌≢◌, [], slice_get, OnErr, false, ℕ, List};
ghost use Rattle.std.specs.Option.{option_copied};
ghost use Rattle.std.specs.Vec.{vec_capacity};
ghost use Rattle.clients.specs.Desks.{seated_at, Trims, reaching, Admits, DeskValue, SitsAt};
ghost use Rattle.clients.specs.Holdings.{HeldAt};
ghost use Rattle.clients.specs.Connections.{evicted, with_given_up, with_lost};
ghost use Rattle.clients.specs.Continues.{Continues};
ghost use Rattle.clients.specs.Reports.{ReportsAt};
ghost use Rattle.clients.specs.Places.{ChangedAt, KeepsWithin, PingedAt, Recounts, ServedAt, UnservedAt, counted_at, is_over_at, progress_at};
ghost use Rattle.clients.specs.Chains.{AreTaken, Chain, Lived, deeds_at, last_of};
ghost use Rattle.clients.specs.declared.desk.Seated.{Seated};

use crate::client::Client;
use crate::footprint::Cut;
use crate::progress::Stage;
use crate::turned::Turned;
use crate::wakers::Wakers;
use claim_core::{BrokerRing, BrokerSeat};
use outbox_core::{Bell, OutSender};
use std::alloc::{AllocError, Global};
use std::marker::Model;
use std::mem;
use std::snapshot::Snapshot;
use ws_core::Link;

/// One seat at the broker, and the connections that speak through it, each at a place of its own, which is its client's number. Contracts
/// see the seat as it was when the desk was made and as it is, what sits at the places, and the limit: how many bytes all sessions of the
/// desk together may have in a snapshot of the broker.
///
/// After what was the seat's own when the desk was made, what belongs to each session is one conversation, and no two connections have
/// one session. This holds for each desk, whatever was called of it.
#[derive(Drop)]
pub struct Desk<B: Bell, L> {
    seat: BrokerSeat<OutSender<B>>,
    pub(crate) places: Vec<Place<B, L>>,
    // The seat as it was when the desk was made.
    before: Snapshot<BrokerSeat<OutSender<B>>>,
    // How many bytes all sessions may have together in a snapshot of the broker, and how many are counted for them.
    limit: u64,
    counted: u64,
}

impl<B: Bell, L> Model for Desk<B, L> {
    ghost use Rattle.clients.specs.Desks.{DeskValue, IsCounted, IsDesk, desk};

    ghost Value = { DeskValue B L };

    ghost view = { λ a. desk a.limit a.before.value a.seat a.places.items };

    ghost invariant = { λ a. IsDesk a.before.value a.seat a.places.items × IsCounted a.limit a.counted a.places.items };
}

impl<B: Bell, L: Link + Drop> Desk<B, L> {
    ghost use Rattle.std.specs.Prelude.{[], OnErr, IsSome, true, ◌≤◌};
    ghost use Rattle.claim_core.specs.Seats.{with_seen};
    ghost use Rattle.clients.specs.Conversations.{Converse};
    ghost use Rattle.clients.specs.Connections.{evicted, with_given_up, with_lost};
    ghost use Rattle.clients.specs.Desks.{Admits, Changes, IsWhy, Leaves, Others, TalkApart, Turns, Touches, desk, seated_at};
    ghost use Rattle.clients.specs.Reports.{ReportsAt};
    ghost use Rattle.clients.specs.Places.{PingedAt, awaits_room_at, cut_at, is_open_at, is_over_at};

    /// A desk with no connection, whose sessions may have `limit` bytes together in a snapshot of the broker. No memory is taken.
    pub fn new(alloc: Global, seat: BrokerSeat<OutSender<B>>, limit: u64) -> Desk<B, L>
        ensures { result ≡ desk limit seat seat [] }
    {
        Desk {
            before: Snapshot::of(&seat),
            seat,
            places: Vec::new(alloc),
            limit,
            counted: 0,
        }
    }

    /// How many places there are, counting free ones. What holds for each desk is known with that.
    pub fn len(&self) -> usize
        ensures count { result ≡ length self.now.places }
        ensures seat { (self.now.seat.ring ≡ self.now.before.ring) × (self.now.seat.number ≡ self.now.before.number) }
        ensures apart { TalkApart self.now }
    {
        self.places.len()
    }

    /// Takes a client in at that place, if nobody sits there. Places under it that did not exist are added as free ones. If it is
    /// refused, nothing has changed, and its link is let go.
    pub fn admit(&mut self, alloc: Global, at: usize, link: L) -> Result<(), NotAdmitted>
        ensures ok { OnOk result (Admits self.old self.new link at) }
        ensures err { OnErr result (self.new ≡ self.old) }
        ensures why { IfErr result (IsWhy self.old.places at) }
    {
        if self.is_taken(at) {
            drop(link);
            return Err(NotAdmitted::Taken);
        }
        match add_places(&mut self.places, at) {
            Ok(()) => {
                let client = Client::new(alloc, self.limit);
                take_place(&mut self.places[at], Seated { client, link });
                Ok(())
            }
            Err(_) => {
                drop(link);
                Err(NotAdmitted::Memory)
            }
        }
    }

    // Whether somebody sits there.
    fn is_taken(&self, at: usize) -> bool
        ensures { result ≡ is_some (seated_at self.now.places at) }
    {
        matches!(sitter(&self.places, at), Some(_))
    }

    /// Lets the connection at that place go on by one turn, as `Client::turn` says; `None` if there is none. Its session may have what the
    /// others leave of the desk's bytes. All other connections, with their links and what those sent, stay as they are.
    pub fn turn<M: Wakers<B>>(
        &mut self,
        alloc: Global,
        ring: &BrokerRing<OutSender<B>>,
        at: usize,
        wakers: &M,
    ) -> Option<Turned>
        requires { self.old.seat.ring ≡ ring.now }
        ensures before { self.new.before ≡ self.old.before }
        ensures ring { self.new.seat.ring ≡ self.old.seat.ring }
        ensures others { Others self.old.places self.new.places at }
        ensures turns { IfSome result (λ turned. Turns L.sent L.received self.old self.new at turned) }
        ensures reports { IfSome result (λ turned. ReportsAt L.sent L.is_held_up turned self.new.seat (seated_at self.old.places at) (seated_at self.new.places at)) }
        ensures none { IsNone result → self.new ≡ self.old }
        ensures some { IsSome (seated_at self.old.places at) → IsSome result }
        ensures apart { TalkApart self.new }
    {
        if at >= self.places.len() {
            return None;
        }
        let (seat, place) = (&mut self.seat, &mut self.places[at]);
        turn_at(
            alloc,
            ring,
            seat,
            place,
            wakers,
            &mut self.counted,
            self.limit,
        )
    }

    /// Reads the ring's mark, and answers it: every number under it is published. The seat has then seen it, and nothing else has
    /// changed. The mark never falls.
    pub fn look(&mut self, ring: &BrokerRing<OutSender<B>>) -> u64
        requires { self.old.seat.ring ≡ ring.now }
        ensures looks { self.new ≡ desk self.old.limit self.old.before (with_seen self.old.seat result) self.old.places }
        ensures no_less { self.old.seat.seen ≤ result }
        ensures apart { TalkApart self.new }
    {
        ring.look(&mut self.seat)
    }

    /// The connection at that place is over: its link has failed, or took too long. Its next turns append what its client has asked for,
    /// and its loss, and end it.
    pub fn lose(&mut self, at: usize)
        ensures loses { Changes with_lost self.old self.new at }
        ensures touches { Touches L.sent L.received self.old self.new at }
    {
        if at < self.places.len() {
            lose_at(&mut self.places[at]);
        }
    }

    /// The connection at that place is given up, since the server ends: its next turns close its link with 1001.
    pub fn give_up(&mut self, at: usize)
        ensures gives_up { Changes with_given_up self.old self.new at }
        ensures touches { Touches L.sent L.received self.old self.new at }
    {
        if at < self.places.len() {
            give_up_at(&mut self.places[at]);
        }
    }

    /// The connection at that place is evicted, since the server needs its memory: what its client has asked for and still waits is
    /// dropped, but for the entry that found the window full. Its next turns append that, and its loss, and end it.
    pub fn evict(&mut self, alloc: Global, at: usize)
        ensures { Changes evicted self.old self.new at }
    {
        if at < self.places.len() {
            evict_at(alloc, &mut self.places[at]);
        }
    }

    /// Sends a ping to the client at that place (RFC 6455, section 5.5.2), as far as its stream takes it. It does nothing if there is
    /// none, or if memory is refused. A link that is over is found so by the connection's next turn.
    pub fn ping(&mut self, at: usize)
        ensures pinged { PingedAt L.pings L.refuses L.flushes (seated_at self.old.places at) (seated_at self.new.places at) }
        ensures touches { Touches L.sent L.received self.old self.new at }
    {
        if at < self.places.len() {
            ping_at(&mut self.places[at]);
        }
    }

    /// Whether the client at that place has opened its session: its Open was appended. This stays so once the session has ended.
    pub fn is_open(&self, at: usize) -> bool
        ensures { result ≡ is_open_at (seated_at self.now.places at) }
    {
        match sitter(&self.places, at) {
            Some(seated) => seated.client.progress.number().is_some(),
            None => false,
        }
    }

    /// Whether the client at that place asked for a command that waits for room. Until that was appended, nothing is read from the client.
    pub fn awaits_room(&self, at: usize) -> bool
        ensures { result ≡ awaits_room_at (seated_at self.now.places at) }
    {
        match sitter(&self.places, at) {
            Some(seated) => seated.client.waiting.is_some(),
            None => false,
        }
    }

    /// Why acts of the client at that place were cut off, if they were; `Cut::No` if there is none.
    pub fn cut(&self, at: usize) -> Cut
        ensures { result ≡ cut_at (seated_at self.now.places at) }
    {
        match sitter(&self.places, at) {
            Some(seated) => seated.client.footprint.cut(),
            None => Cut::No,
        }
    }

    /// Lets the connection at that place go, if it has ended, and hands its link back. Free places at the end are given back. `None` if
    /// there is none, or if it has not ended, as its turns say by `Next::Over`: then nothing changes.
    pub fn dismiss(&mut self, at: usize) -> Option<L>
        ensures left { IfSome result (Leaves self.old self.new at) }
        ensures none { IsNone result → self.new ≡ self.old }
        ensures some { is_over_at (seated_at self.old.places at) ≡ true → IsSome result }
    {
        if at >= self.places.len() {
            return None;
        }
        let Seated { client, link } = vacate(&mut self.places[at])?;
        self.counted -= client.footprint.counted();
        drop(client);
        trim(&mut self.places);
        Some(link)
    }

    /// The seat, with all that was said. The connections are let go, with their links.
    pub fn into_seat(self) -> BrokerSeat<OutSender<B>>
        ensures same { result ≡ self.seat }
        ensures seat { (result.ring ≡ self.before.ring) × (result.number ≡ self.before.number) }
        ensures converse { Converse self.before.own result.own }
    {
        let Desk {
            seat,
            places,
            before,
            limit: _,
            counted: _,
        } = self;
        drop(places);
        drop(before);
        seat
    }

    /// How many bytes are kept for the connection at that place. These are what waits in its outbox, the members of open transactions,
    /// the frame that its client has not finished, the frames that wait for the ring, and what its link keeps. 0 if there is none, or if
    /// its link is over: then it is being let go. 2^64 - 1 if they are more. Of what waits in the outbox the clause says only that it is
    /// no more than that has room for.
    pub fn held(&self, at: usize) -> u64
        ensures { HeldAt L.keeps (seated_at self.now.places at) result }
    {
        match sitter(&self.places, at) {
            Some(seated) => seated.held(),
            None => 0,
        }
    }

    /// The link of the connection at that place; `None` if there is none.
    pub fn link(&self, at: usize) -> Option<&L>
        ensures { option_copied result ≡ option_map (λ seated. seated.link) (seated_at self.now.places at) }
    {
        match sitter(&self.places, at) {
            Some(seated) => Some(&seated.link),
            None => None,
        }
    }
}

/// A connection at a desk, with its link.
#[derive(Drop)]
pub struct Seated<B: Bell, L> {
    pub(crate) client: Client<B>,
    pub(crate) link: L,
}

/// Why a client is not taken in at a place.
#[derive(Clone, Copy, PartialEq, Eq, Debug)]
pub enum NotAdmitted {
    /// Somebody sits there.
    Taken,
    /// Memory was refused.
    Memory,
}

/// A place at a desk, free or not.
pub(crate) type Place<B, L> = Option<Seated<B, L>>;

impl<B: Bell, L: Link> Seated<B, L> {
    ghost use Rattle.clients.specs.Holdings.{IsHeld};

    // How many bytes are kept for it, and none once its link is over.
    pub(crate) fn held(&self) -> u64
        ensures { IsHeld L.keeps self.now result }
    {
        match self.client.stage {
            Stage::Leaving | Stage::Over(_) => 0,
            _ => self.client.held().saturating_add(self.link.held()),
        }
    }
}

// What sits at that place, if anything.
pub fn sitter<B: Bell, L>(places: &[Place<B, L>], at: usize) -> Option<&Seated<B, L>>
    ensures { option_copied result ≡ seated_at places.now at }
{
    match places.get(at) {
        Some(Some(seated)) => Some(seated),
        _ => None,
    }
}

// A turn of the connection that sits there, if one does. Its session may have what the others of the desk leave: so many bytes are counted
// for all of them, which may have `limit`.
pub fn turn_at<B: Bell, M: Wakers<B>, L: Link>(
    alloc: Global,
    ring: &BrokerRing<OutSender<B>>,
    seat: &mut BrokerSeat<OutSender<B>>,
    place: &mut Place<B, L>,
    wakers: &M,
    counted: &mut u64,
    limit: u64,
) -> Option<Turned>
    requires ring { seat.old.ring ≡ ring.now }
    requires keeps { KeepsWithin limit counted.old place.old }
    ensures continues { Continues (progress_at place.old) seat.old (progress_at place.new) seat.new }
    ensures served { IfSome result (λ turned. ServedAt L.sent L.received (limit - counted.old + counted_at place.old) place.old seat.old place.new seat.new turned) }
    ensures reports { IfSome result (λ turned. ReportsAt L.sent L.is_held_up turned seat.new place.old place.new) }
    ensures counts { Recounts limit counted.old place.old counted.new place.new }
    ensures none { IsNone result → (place.new ≡ place.old) × (seat.new ≡ seat.old) }
    ensures some { IsSome place.old → IsSome result }
{
    match place {
        Some(seated) => {
            let before = seated.client.footprint.counted();
            let others = *counted - before;
            seated.client.footprint.allow(limit - others);
            let turned = seated
                .client
                .turn(alloc, ring, seat, &mut seated.link, wakers);
            *counted = others + seated.client.footprint.counted();
            Some(turned)
        }
        None => None,
    }
}

// The link there is over.
pub fn lose_at<B: Bell, L: Link>(place: &mut Place<B, L>)
    ensures is { ChangedAt with_lost place.old place.new }
    ensures unserved { UnservedAt L.sent L.received place.old place.new }
{
    if let Some(seated) = place {
        seated.client.stage = seated.client.stage.lost();
    }
}

// The connection there is given up.
pub fn give_up_at<B: Bell, L: Link>(place: &mut Place<B, L>)
    ensures is { ChangedAt with_given_up place.old place.new }
    ensures unserved { UnservedAt L.sent L.received place.old place.new }
{
    if let Some(seated) = place {
        seated.client.stage = seated.client.stage.given_up();
    }
}

// The connection there is evicted.
pub fn evict_at<B: Bell, L>(alloc: Global, place: &mut Place<B, L>)
    ensures { ChangedAt evicted place.old place.new }
{
    if let Some(seated) = place {
        seated.client.evict(alloc);
    }
}

// Sends the client there a ping.
pub fn ping_at<B: Bell, L: Link>(place: &mut Place<B, L>)
    ensures pinged { PingedAt L.pings L.refuses L.flushes place.old place.new }
    ensures unserved { UnservedAt L.sent L.received place.old place.new }
{
    if let Some(seated) = place {
        let _ = seated.link.ping();
        let _ = seated.link.flush();
    }
}

// If a connection there has ended, it sits there no more.
pub fn vacate<B: Bell, L>(place: &mut Place<B, L>) -> Place<B, L>
    ensures taken { IsSome result → (result ≡ place.old) × (place.new ≡ None) × (is_over_at place.old ≡ true) }
    ensures left { IsNone result → place.new ≡ place.old }
    ensures over { is_over_at place.old ≡ true → IsSome result }
{
    if is_over(place) {
        mem::take(place)
    } else {
        None
    }
}

// Whether a connection there has ended.
fn is_over<B: Bell, L>(place: &Place<B, L>) -> bool
    ensures { result ≡ is_over_at place.now }
{
    match place {
        Some(seated) => matches!(seated.client.stage, Stage::Over(_)),
        None => false,
    }
}

// From now on that connection sits there.
pub fn take_place<B: Bell, L: Drop>(place: &mut Place<B, L>, seated: Seated<B, L>)
    ensures { place.new ≡ Some seated }
{
    drop(mem::replace(place, Some(seated)));
}

// Takes the free places away that are at the end. The list is made shorter once three quarters of it are empty, so that each place costs
// as much as when it was added.
pub fn trim<B: Bell, L: Drop>(places: &mut Vec<Place<B, L>>)
    ensures trims { Trims places.old.items places.new.items }
    ensures gives_back { places.new.items ≡ [] → vec_capacity places.new ≡ 0 }
{
    drop_free(places);
    if places.len() <= places.capacity() / 4 {
        places.shrink_to(2 * places.len());
    }
}

fn drop_free<B: Bell, L: Drop>(places: &mut Vec<Place<B, L>>)
    ensures { Trims places.old.items places.new.items }
{
    while ends_free(places) {
        drop(places.pop());
    }
}

// Whether the last place is free.
fn ends_free<B: Bell, L>(places: &[Place<B, L>]) -> bool
    ensures yes { result ≡ true → slice_get places.now (length places.now - 1) ≡ Some None }
    ensures no { result ≡ false → slice_get places.now (length places.now - 1) ≢ Some None }
{
    matches!(places.last(), Some(None))
}

// Makes sure that there is that place: what is missing up to it is added, free. If memory is refused, nothing is added.
pub fn add_places<B: Bell, L>(places: &mut Vec<Place<B, L>>, at: usize) -> Result<(), AllocError>
    ensures ok { OnOk result (places.new.items ≡ reaching at places.old.items) }
    ensures err { OnErr result (places.new.items ≡ places.old.items) }
{
    if at < places.len() {
        return Ok(());
    }
    let Some(missing) = (at - places.len()).checked_add(1) else {
        return Err(AllocError);
    };
    places.reserve(missing)?;
    for _place in 0..missing {
        places.push_reserved(None);
    }
    Ok(())
}

/// A client that is let in at a place of a desk, and sits there through all calls for all places, lives one life. What the turns at that
/// place have done, one after another, is what its bytes ask for, from the first on, with none left out that may come next: while it
/// runs, none at all. `Desk::turn` says the same of one turn. Pings, losses and looks at the mark between them drop nothing and add nothing,
/// and neither do the calls for other places. After an eviction nothing more that its bytes ask for is done.
pub fn a_connection_at_a_desk_lives_one_life<B: Bell, L: Link>()
    ensures { (old first : DeskValue B L) (link : L) (place : ℕ) (others : List (DeskValue B L)) (chain : Chain L.sent L.received first others) → Admits old first link place
        → AreTaken place others → (is : Seated B L) → SitsAt (last_of first others).places place is → Lived L.received link is (deeds_at L.sent L.received place first others chain) }
{}
