//! The world, and its events.

ghost use Rattle.std.specs.Prelude.{◌≡◌, ◌≤◌, ◌+◌, ◌*◌, IfOk, IfSome, List, None, OnErr, false, length, ◌≢◌, ◌↔◌, ◌-◌, ◌<◌, IsSomeAnd, IsTrue, MatchOption, OnOk, Some, slice_get, slice_set, true, vec_capacity, ◌++◌, ℕ, Option};
ghost use Rattle.disk_core.specs.Memory.{none_held};
ghost use Rattle.command_core.specs.Commands.{CommandValue};
ghost use Rattle.disk_core.specs.Images.{IsImage};
ghost use Rattle.area_core.specs.Areas.{HasRecord};
ghost use Rattle.broker_core.specs.States.{State};
ghost use Rattle.world_core.specs.Answers.{Answers, IsTold};
ghost use Rattle.world_core.specs.Keeping.{IsKept};
ghost use Rattle.world_core.specs.Parts.{value_of};
ghost use Rattle.world_core.specs.Schedules.{FitsOld, Holds, crashed, first, first_old, old_area, IsFirst, Reaches};
ghost use Rattle.world_core.specs.Worlds.{claimed, WorldValue};
ghost use Rattle.world_core.specs.Events.{CanClaim, IsPending, IsReady, MayClaim, after, last_of, open_of, readied, with_number};
ghost use Rattle.world_core.specs.Limits.{far};
ghost use Rattle.world_core.specs.Readings.{Reading};
ghost use Rattle.world_core.specs.declared.event.Event.{Event};
ghost use Rattle.world_core.specs.Promises.{HoldsOn, IsAfterSome, shown};

use crate::parts::{Parts, are_there, is_clear, is_running, is_set};
use crate::recovering::{broker_in, first_content, old_area, old_content};
use crate::seat::seats;
use crate::{Event, LastCall, Period, Seat};
use broker_core::Broker;
use claim_core::{SEATS, WINDOW};
use command_core::{Command, Entry};
use disk_core::{Disk, is_image, release};
use frame_core::Bytes;
use std::alloc::{AllocError, Global};
use std::marker::Model;
use std::snapshot::Snapshot;

// A seat that saw a mark this high claims nothing more.
const FAR: u64 = 1 << 60;

/// A world: sessions, a flusher and the disk of a journal.
///
/// It is a model to try, and no part of the running broker. A write reads through the whole disk, with the code that reads journals.
#[derive(Drop)]
pub struct World {
    alloc: Global,
    parts: Parts,
}

impl Model for World {
    ghost use Rattle.world_core.specs.Keeping.{IsKept};
    ghost use Rattle.world_core.specs.Parts.{value_of};
    ghost use Rattle.world_core.specs.Worlds.{WorldValue};

    ghost Value = { WorldValue };

    ghost view = { λ a. value_of a.parts };

    ghost invariant = { λ a. IsKept (value_of a.parts) };
}

fn none_held(alloc: Global, count: usize) -> Result<Vec<Option<u8>>, AllocError>
    ensures { IfOk result (λ held. held.items ≡ none_held count) }
{
    let mut held = Vec::new(alloc);
    held.resize(count, None)?;
    Ok(held)
}

// The parts of the first world, with these seats and this disk.
fn first_parts(
    alloc: Global,
    size: u64,
    seats: Vec<Seat>,
    content: Vec<u8>,
    held: Vec<Option<u8>>,
) -> Parts
    ensures { value_of result ≡ record (first size) {
      seats = seats.items;
      disk = record { size = size; content = content.items; held = held.items };
    } }
{
    let broker = Broker::new(alloc);
    let opening = Snapshot::of(&broker);
    drop(broker);
    Parts {
        base: 0,
        opening,
        history: Vec::new(alloc),
        ready: Vec::new(alloc),
        taken: 0,
        stored: 0,
        mark: 0,
        seats,
        stopped: false,
        released: Vec::new(alloc),
        earlier: Vec::new(alloc),
        phase: Period::Running,
        place: LastCall::Rest,
        size,
        content,
        held,
    }
}

// The parts of a world whose last life has crashed, with the state of this broker, these seats and this disk.
fn crashed_parts(
    alloc: Global,
    size: u64,
    broker: &Broker,
    seats: Vec<Seat>,
    content: Vec<u8>,
    held: Vec<Option<u8>>,
) -> Parts
    requires { broker.now.broken ≡ false }
    ensures { value_of result ≡ record (crashed size broker.now.state content.items) {
      seats = seats.items;
      disk = record { size = size; content = content.items; held = held.items };
    } }
{
    let count = broker.count();
    Parts {
        base: count,
        opening: Snapshot::of(broker),
        history: Vec::new(alloc),
        ready: Vec::new(alloc),
        taken: count,
        stored: count,
        mark: count,
        seats,
        stopped: false,
        released: Vec::new(alloc),
        earlier: Vec::new(alloc),
        phase: Period::Crashed,
        place: LastCall::Broken,
        size,
        content,
        held,
    }
}

// The same with all seats, which have seen the broker's count.
fn seated(
    alloc: Global,
    size: u64,
    broker: &Broker,
    content: Vec<u8>,
    held: Vec<Option<u8>>,
) -> Result<Parts, AllocError>
    requires { broker.now.broken ≡ false }
    ensures { IfOk result (λ parts. value_of parts ≡ record (crashed size broker.now.state content.items) {
      disk = record { size = size; content = content.items; held = held.items };
    }) }
{
    match seats(alloc, SEATS, broker.count()) {
        Ok(seats) => Ok(crashed_parts(alloc, size, broker, seats, content, held)),
        Err(refused) => Err(refused),
    }
}

// The world of a journal of the first version, whose first area is this one.
fn old_parts(alloc: Global, size: u64, area: &[u8]) -> Result<Parts, AllocError>
    requires least { 4096 ≤ size }
    requires most { size ≤ 1048576 }
    requires fits { length area.now ≤ size }
    ensures { IfOk result (λ parts. (commands : List CommandValue) → FitsOld size commands → area.now ≡ old_area commands
        → value_of parts ≡ first_old size commands) }
{
    let content = old_content(alloc, size, area)?;
    let held = none_held(alloc, (32 + 2 * size) as usize)?;
    let found = broker_in(alloc, &content)?;
    match found {
        Some(broker) => {
            let made = seated(alloc, size, &broker, content, held);
            drop(broker);
            made
        }
        // So few commands are never too many.
        None => Err(AllocError),
    }
}

impl Parts {
    // Lets an event happen if it is possible, and answers whether it was.
    fn apply(&mut self, alloc: Global, event: Event) -> Result<bool, AllocError>
        requires { IsKept (value_of self.old) }
        ensures ok { IfOk result (λ answer. IsTold (value_of self.old) event answer (value_of self.new)) }
        ensures err { OnErr result (value_of self.new ≡ value_of self.old) }
    {
        match event {
            Event::Look(j) => Ok(self.look(j)),
            Event::Claim(j, command) => self.claim(alloc, j, command),
            Event::Ready(j) => Ok(self.ready(j)),
            Event::Take => Ok(self.take()),
            Event::Device(call) => self.device(alloc, call),
            Event::Raise(n) => Ok(self.raise(n)),
            Event::Release(j, n) => self.release(j, n),
            Event::Stop => Ok(self.stop()),
            Event::Crash(image) => Ok(self.crash(image)),
            Event::Open => self.open(alloc),
        }
    }

    pub(crate) fn look(&mut self, j: usize) -> bool
        ensures { IsTold (value_of self.old) (Event.Look j) result (value_of self.new) }
    {
        if !are_there(self.phase) || j >= self.seats.len() {
            return false;
        }
        self.seats[j].seen = self.mark;
        true
    }

    fn is_last_ready(&self, seat: &Seat) -> bool
        ensures { IsTrue result ↔ IsReady (value_of self.now) (last_of seat.now.own) }
    {
        match seat.own.last() {
            Some(number) => is_set(&self.ready, number.saturating_sub(self.base) as usize),
            None => true,
        }
    }

    fn may_claim(&self, j: usize) -> bool
        requires { j < length self.now.seats.items }
        ensures { IsTrue result ↔ IsSomeAnd (slice_get self.now.seats.items j) (MayClaim (value_of self.now)) }
    {
        let seat = &self.seats[j];
        has_room(seat) && self.is_last_ready(seat)
    }

    fn can_claim(&self, j: usize) -> bool
        ensures { IsTrue result ↔ CanClaim (value_of self.now) j }
    {
        if !is_running(self.phase) || j >= self.seats.len() {
            return false;
        }
        self.may_claim(j)
    }

    // Gives the seat one more number, which is not ready, and makes room for its entry.
    fn note_claim(&mut self, j: usize) -> Result<(), AllocError>
        requires kept { IsKept (value_of self.old) }
        requires seat { j < length self.old.seats.items }
        ensures ok { OnOk result (value_of self.new ≡ with_number (value_of self.old) j) }
        ensures room { OnOk result (length self.new.history.items < vec_capacity self.new.history) }
        ensures err { OnErr result (value_of self.new ≡ value_of self.old) }
    {
        self.history.reserve(1)?;
        self.ready.reserve(1)?;
        let number = self.base + self.history.len() as u64;
        self.seats[j].own.add(number)?;
        self.ready.push_reserved(false);
        Ok(())
    }

    // Makes this entry's command the seat's next.
    fn put_claim(&mut self, j: usize, entry: Entry<()>) -> Result<(), AllocError>
        requires kept { IsKept (value_of self.old) }
        requires seat { j < length self.old.seats.items }
        ensures ok { OnOk result ((r : Reading) → value_of self.new ≡ after (value_of self.old) r (Event.Claim j entry.command)) }
        ensures err { OnErr result (value_of self.new ≡ value_of self.old) }
    {
        match self.note_claim(j) {
            Ok(()) => {
                self.history.push_reserved(entry);
                Ok(())
            }
            Err(fault) => {
                drop(entry);
                Err(fault)
            }
        }
    }

    pub(crate) fn claim(
        &mut self,
        alloc: Global,
        j: usize,
        command: Command,
    ) -> Result<bool, AllocError>
        requires { IsKept (value_of self.old) }
        ensures ok { IfOk result (λ answer. IsTold (value_of self.old) (Event.Claim j command) answer (value_of self.new)) }
        ensures err { OnErr result (value_of self.new ≡ value_of self.old) }
    {
        if !self.can_claim(j) {
            drop(command);
            return Ok(false);
        }
        let entry = entry_of(alloc, command)?;
        self.put_claim(j, entry)?;
        Ok(true)
    }

    // The place that notes whether a command is ready, if it is not.
    fn clear_at(&self, number: u64) -> Option<usize>
        ensures { MatchOption result (slice_get self.now.ready.items (number - self.now.base) ≢ Some false)
            (λ at. (at ≡ number - self.now.base) × (slice_get self.now.ready.items at ≡ Some false)) }
    {
        let at = number.saturating_sub(self.base) as usize;
        if is_clear(&self.ready, at) {
            return Some(at);
        }
        None
    }

    // The place that notes whether a seat's last command is ready, if it is not.
    fn pending(&self, j: usize) -> Option<usize>
        ensures some { IfSome result (λ at. IsSomeAnd (slice_get self.now.seats.items j) (λ seat. IsPending (value_of self.now) (last_of seat.own))) }
        ensures none { result ≡ None → IsSomeAnd (slice_get self.now.seats.items j) (λ seat. IsPending (value_of self.now) (last_of seat.own)) → ⊥ }
        ensures within { IfSome result (λ at. at < length self.now.ready.items) }
        ensures at { IfSome result (λ at. slice_set self.now.ready.items at true ≡ readied (value_of self.now) (slice_get self.now.seats.items j)) }
    {
        if j >= self.seats.len() {
            return None;
        }
        let number = self.seats[j].own.last()?;
        self.clear_at(number)
    }

    pub(crate) fn ready(&mut self, j: usize) -> bool
        ensures { IsTold (value_of self.old) (Event.Ready j) result (value_of self.new) }
    {
        if !is_running(self.phase) {
            return false;
        }
        match self.pending(j) {
            Some(at) => {
                self.ready[at] = true;
                true
            }
            None => false,
        }
    }

    pub(crate) fn take(&mut self) -> bool
        requires { IsKept (value_of self.old) }
        ensures { IsTold (value_of self.old) Event.Take result (value_of self.new) }
    {
        if !is_running(self.phase) {
            return false;
        }
        let at = (self.taken - self.base) as usize;
        if !is_set(&self.ready, at) {
            return false;
        }
        self.taken += 1;
        true
    }

    pub(crate) fn raise(&mut self, n: u64) -> bool
        ensures { IsTold (value_of self.old) (Event.Raise n) result (value_of self.new) }
    {
        if !is_running(self.phase) || n < self.mark || self.stored < n {
            return false;
        }
        self.mark = n;
        true
    }

    // Whether there is a seat of that number that saw a mark over n.
    fn has_seen(&self, j: usize, n: u64) -> bool
        ensures { IsTrue result ↔ IsSomeAnd (slice_get self.now.seats.items j) (λ seat. n < seat.seen) }
    {
        j < self.seats.len() && n < self.seats[j].seen
    }

    pub(crate) fn release(&mut self, j: usize, n: u64) -> Result<bool, AllocError>
        ensures ok { IfOk result (λ answer. IsTold (value_of self.old) (Event.Release j n) answer (value_of self.new)) }
        ensures err { OnErr result (value_of self.new ≡ value_of self.old) }
    {
        if !are_there(self.phase) {
            return Ok(false);
        }
        if !self.has_seen(j, n) {
            return Ok(false);
        }
        self.released.push(n)?;
        Ok(true)
    }

    pub(crate) fn stop(&mut self) -> bool
        ensures { IsTold (value_of self.old) Event.Stop result (value_of self.new) }
    {
        if !is_running(self.phase) {
            return false;
        }
        self.stopped = true;
        true
    }

    // Whether a crash may leave the disk with these bytes.
    fn may_read_as(&self, image: &[u8]) -> bool
        requires { length self.now.held.items ≡ length self.now.content.items }
        ensures { IsTrue result ↔ IsImage self.now.content.items self.now.held.items image.now }
    {
        is_image(&self.content, &self.held, image)
    }

    pub(crate) fn crash(&mut self, image: Bytes) -> bool
        requires { IsKept (value_of self.old) }
        ensures { IsTold (value_of self.old) (Event.Crash image) result (value_of self.new) }
    {
        if !self.may_read_as(image.as_slice()) {
            drop(image);
            return false;
        }
        self.content.copy_from_slice(image.as_slice());
        release(&mut self.held);
        self.phase = Period::Crashed;
        self.place = LastCall::Broken;
        true
    }
}

impl World {
    /// The first world: an empty journal with two areas of `area_bytes` bytes each, formatted and opened. It fails only if memory is
    /// refused.
    pub fn new(alloc: Global, area_bytes: u64) -> Result<World, AllocError>
        requires least { 4096 ≤ area_bytes }
        requires most { area_bytes ≤ 1048576 }
        ensures { IfOk result (λ world. world ≡ first area_bytes) }
    {
        let content = first_content(alloc, area_bytes)?;
        let held = none_held(alloc, (32 + 2 * area_bytes) as usize)?;
        let seats = seats(alloc, SEATS, 0)?;
        Ok(World {
            alloc,
            parts: first_parts(alloc, area_bytes, seats, content, held),
        })
    }

    /// The world of a journal of the first version with two areas of `area_bytes` bytes each, as after a crash. It has the empty state and
    /// these commands in one block, or no block if there are none. `None` if they do not fit. It fails only if memory is refused.
    pub fn new_v1(
        alloc: Global,
        area_bytes: u64,
        commands: &[Command],
    ) -> Result<Option<World>, AllocError>
        requires least { 4096 ≤ area_bytes }
        requires most { area_bytes ≤ 1048576 }
        ensures some { IfOk result (λ found. IfSome found (λ world. FitsOld area_bytes commands.now × (world ≡ first_old area_bytes commands.now))) }
        ensures none { IfOk result (λ found. found ≡ None → FitsOld area_bytes commands.now → ⊥) }
    {
        let area = old_area(alloc, commands)?;
        if area.len() as u64 > area_bytes {
            drop(area);
            return Ok(None);
        }
        let parts = old_parts(alloc, area_bytes, &area);
        drop(area);
        Ok(Some(World {
            alloc,
            parts: parts?,
        }))
    }

    /// Lets an event happen if it is possible, and answers whether it was. An event that is not possible changes nothing. The call fails
    /// only if memory is refused, and that changes nothing either.
    pub fn apply(&mut self, event: Event) -> Result<bool, AllocError>
        ensures ok { IfOk result (λ answer. Answers self.old event answer self.new) }
        ensures err { OnErr result (self.new ≡ self.old) }
        ensures holds { Holds self.new }
    {
        self.parts.apply(self.alloc, event)
    }

    /// The number of this life's first command.
    pub fn base(&self) -> u64
        ensures { result ≡ self.now.base }
    {
        self.parts.base
    }

    /// The number that is claimed next.
    pub fn claimed(&self) -> u64
        ensures { result ≡ claimed self.now }
    {
        self.parts.base + self.parts.history.len() as u64
    }

    /// The first number that the flusher has not taken.
    pub fn taken(&self) -> u64
        ensures { result ≡ self.now.taken }
    {
        self.parts.taken
    }

    /// The first number that is not known to be stored.
    pub fn stored(&self) -> u64
        ensures { result ≡ self.now.stored }
    {
        self.parts.stored
    }

    /// The mark: the first number that sessions are not told of.
    pub fn mark(&self) -> u64
        ensures { result ≡ self.now.mark }
    {
        self.parts.mark
    }

    /// What a read of the disk gives.
    pub fn content(&self) -> &[u8]
        ensures { result.now ≡ self.now.disk.content }
    {
        &self.parts.content
    }
}

// Whether the seat saw no mark this high, and has room for one more command.
fn has_room(seat: &Seat) -> bool
    ensures { IsTrue result ↔ (seat.now.seen < far) × (open_of seat.now < WINDOW) }
{
    seat.seen < FAR && seat.open() < WINDOW
}

// The command with its record, which shows that it has one.
fn entry_of(alloc: Global, command: Command) -> Result<Entry<()>, AllocError>
    ensures command { IfOk result (λ entry. entry.command ≡ command) }
    ensures form { IfOk result (λ _. HasRecord command) }
{
    match Entry::new(alloc, command, None) {
        Ok(entry) => {
            let _record = entry.bytes();
            Ok(entry)
        }
        Err(back) => {
            drop(back);
            Err(AllocError)
        }
    }
}

/// What is promised holds whatever happens, in any order, with any number of crashes, failures and openings. Schedules begin with a new
/// journal, or with one of the first version. Each image of the disk has a prefix of the history, with all that sessions were told of.
pub fn every_schedule()
    ensures { (size : ℕ) (begin : WorldValue) (events : List Event) (w : WorldValue) → 4096 ≤ size → size ≤ 1048576
        → IsFirst size begin → Reaches begin events w → Holds w }
{}

/// What is promised holds of any disk whose images all stand for the state after a prefix of what a flusher took, with all that it
/// published. The ring's history must begin with what was taken, and no session may have read a mark over what was published.
pub fn shown_worlds_hold<D: Disk>()
    ensures { (disk : D) (base : ℕ) (opening : State) (taken rest history : List CommandValue) (published seen : ℕ)
        → history ≡ taken ++ rest → base ≤ published → published ≤ base + length taken → base ≤ seen → seen ≤ published
        → ((image : List ℕ) → D.images disk image → ∥ IsAfterSome base opening taken published image ∥₁)
        → HoldsOn (shown base opening history (base + length taken) published seen) (D.images disk) }
{}

/// Whatever unsynced bytes read as, a stop may leave the same: if the content becomes another of its images, the images stay.
pub fn unsynced_bytes_may_read_as_any()
    ensures { (content other image : List ℕ) (held : List (Option ℕ))
        → IsImage content held other → IsImage content held image → IsImage other held image }
{}
