//! The flusher, and what it keeps.

ghost use Rattle.std.specs.Prelude.{◌≡◌, ◌≤◌, ◌==◌, ◌^◌, [], false, length, IfOk, OnErr, true, vec_capacity, ◌≢◌, ◌<◌, ◌+◌, take, OnOk, ◌++◌, ◌&&◌, ◌∷◌, not, if◌then◌else◌};
ghost use Rattle.disk_core.specs.Fuse.{calls_left, fused};
ghost use Rattle.recover_core.specs.Standing.{StandFor};
ghost use Rattle.recover_core.specs.Stores.{disk_of, is_broken};
ghost use Rattle.claim_core.specs.Endings.{Agree};
ghost use Rattle.claim_core.specs.Seats.{next_ticket, when_stopped};
ghost use Rattle.area_core.specs.Areas.{commands, records};
ghost use Rattle.disk_core.specs.Calls.{Lasts};
ghost use Rattle.broker_state.specs.States.{is_open};
ghost use Rattle.broker_core.specs.Steps.{outs};
ghost use Rattle.outbox_core.specs.Giving.{without, AreGiven};
ghost use Rattle.flush_core.specs.Flusher.{HoldBetween, IsFlusher, IsSame, new_flusher, gathered, HasExecuted, AreUnder};
ghost use Rattle.flush_core.specs.Batches.{IsBatch, block_bytes, state_at};
ghost use Rattle.flush_core.specs.FlusherCalls.{BreaksInMemory, Gathers, GathersNone, TakesMore, EitherThroughout, FlushBreaks, RefusesToStore, RefusesToStoreFirst, StoresFirst, StoresGathered, StoresThroughout, Executes, ExecutesOne, HasRoom, AreReady, ExecutesStored, GivesPortion, RaisesUpTo, HasTurned, RefusesTurn, TurnBreaks, to_store};
ghost use Rattle.flush_core.specs.Room.{IsTooLong};
ghost use Rattle.flush_core.specs.Faults.{IsMemory};
ghost use Rattle.flush_core.specs.FlusherOutcomes.{executing, Gives, GivesAndFalls, publishing, standing};
ghost use Rattle.flush_core.specs.Sessions.{boxes_after, opened};

use crate::FlushFault;
use crate::batch::{Width, append_first, bytes_without, count_fitting};
use crate::compaction::{bytes_of, count_more, steps_of};
use crate::outlet::{Outlet, Tally};
use broker_core::Broker;
use claim_core::{BrokerRing, BrokerSeat, FlushSeat};
use command_core::{Command, Entry, Op, Out};
use disk_core::{Disk, FuseDisk};
use outbox_core::{Bell, Boxes, OutSender};
use recover_core::Store;
use std::alloc::{AllocError, Global};
use std::marker::{Model, PhantomData};
use std::mem::replace;
use std::snapshot::Snapshot;
use std::sync::Arc;
use work_share::{Audiences, Sample};

// However small the journal's areas are, a batch whose records have fewer bytes takes a further command.
const LEAST_BYTES: u64 = 262_144;

// A portion has at least so many commands and outputs. Workers send it while the next one is executed: with less of either they are
// woken too often.
const COMMANDS: usize = 4;

const OUTS: usize = 48;

/// The flusher takes commands from a ring, makes them durable, executes them and publishes them. A block of the journal has at most
/// `W::COMMANDS` of them. Those before its last have records of fewer than `W::BYTES` bytes, and fewer than a quarter of an area, or than
/// 262,144 bytes if that is more.
///
/// Each image of its disk stands for the state after the commands taken up to some number from the mark on, even once a step has failed.
/// Only outputs under the mark are handed out.
#[derive(Drop)]
pub struct Flusher<D: Disk, B: Bell, W: Width> {
    pub(crate) journal: Store<D>,
    pub(crate) broker: Broker,
    pub(crate) seat: FlushSeat<OutSender<B>>,
    // The broker as it was when the flusher was made.
    pub(crate) opening: Snapshot<Broker>,
    // What waits to be stored, and how many bytes its records have.
    pub(crate) batch: Vec<Entry<OutSender<B>>>,
    pub(crate) bytes: u64,
    // What is stored, and waits to be executed.
    pub(crate) done: Vec<Entry<OutSender<B>>>,
    // The first numbers that are not stored, and not executed.
    pub(crate) stored: u64,
    pub(crate) executed: u64,
    // The outboxes of sessions, and the outputs on their way there.
    pub(crate) outlet: Outlet<B>,
    pub(crate) broken: bool,
    // How many bytes the last compaction won, if that was not asked for since.
    pub(crate) won: Option<u64>,
    // The first number that is not in the last snapshot.
    pub(crate) since: u64,
    // The first number from which on what a start would repeat is counted, and what it costs to repeat what is executed since.
    pub(crate) counted_from: u64,
    pub(crate) counted: u64,
    // The first number of the last block.
    pub(crate) block: u64,
    pub(crate) width: PhantomData<W>,
}

impl<D: Disk, B: Bell, W: Width> Model for Flusher<D, B, W> {
    ghost use Rattle.flush_core.specs.Flusher.{Flushed};

    ghost Value = { Flushed D };

    ghost use Rattle.flush_core.specs.FlusherFields.{Keeps, flushed_of};

    ghost view = { flushed_of };

    ghost invariant = { Keeps W.COMMANDS W.BYTES };
}

impl<D: Disk, B: Bell, W: Width> Flusher<D, B, W> {
    /// A flusher, made of a journal, the broker of the state that the journal stands for, and the flusher's seat at a ring whose first
    /// ticket is the broker's count. It takes no memory.
    pub fn new(
        alloc: Global,
        journal: Store<D>,
        broker: Broker,
        seat: FlushSeat<OutSender<B>>,
    ) -> Flusher<D, B, W>
        requires whole { (is_broken journal ≡ false) × (broker.broken ≡ false) }
        requires stands { D.honest (disk_of journal) → StandFor (D.images (disk_of journal)) broker.state }
        requires fresh { (seat.taken ≡ []) × (seat.published ≡ seat.base) }
        requires count { broker.state.count ≡ seat.base }
        ensures { result ≡ new_flusher journal seat broker }
    {
        let next = seat.next();
        let broken = broker.is_broken();
        Flusher {
            opening: Snapshot::of(&broker),
            journal,
            broker,
            seat,
            batch: Vec::new(alloc),
            bytes: 0,
            done: Vec::new(alloc),
            stored: next,
            executed: next,
            outlet: Outlet::new(alloc),
            broken,
            won: None,
            since: next,
            counted_from: next,
            counted: 0,
            block: next,
            width: PhantomData,
        }
    }

    /// Whether a step has failed. Contracts then also know what the flusher keeps.
    pub fn is_broken(&self) -> bool
        ensures value { result ≡ self.now.broken }
        ensures kept { IsFlusher D.honest D.images self.now }
    {
        self.broken
    }

    /// The broker after the commands that are executed.
    pub fn broker(&self) -> &Broker
        ensures { result.now ≡ self.now.broker }
    {
        &self.broker
    }

    /// The disk.
    pub fn disk(&self) -> &D
        ensures { result.now ≡ self.now.disk }
    {
        self.journal.disk()
    }

    /// Whether no session has a box.
    pub fn has_no_box(&self) -> bool
        ensures { result ≡ (length self.now.boxes == 0) }
    {
        self.outlet.boxes.is_empty()
    }

    /// The number of the command that is taken next.
    pub fn next(&self) -> u64
        ensures next { result ≡ next_ticket self.now.seat }
        ensures most { result ≤ 2 ^ 62 }
        ensures kept { IsFlusher D.honest D.images self.now }
    {
        self.seat.next()
    }

    /// Brings a session's seat beside the flusher's, as `Ring::beside` does. Nothing changes, and contracts then know that both speak of
    /// one history.
    pub fn beside(&mut self, ring: &BrokerRing<OutSender<B>>, seat: &mut BrokerSeat<OutSender<B>>)
        requires flush { self.old.seat.ring ≡ ring.now }
        requires seat { seat.old.ring ≡ ring.now }
        ensures same { self.new ≡ self.old }
        ensures seat { seat.new ≡ seat.old }
        ensures agree { Agree seat.old self.old.seat }
    {
        ring.beside(seat, &mut self.seat);
    }

    /// The disk and the seat, as they are. Outputs that wait are let go, and so are the boxes.
    pub fn into_parts(self) -> (D, FlushSeat<OutSender<B>>)
        ensures parts { (result.0 ≡ self.disk) × (result.1 ≡ self.seat) }
        ensures kept { IsFlusher D.honest D.images self }
    {
        let Flusher { journal, seat, .. } = self;
        (journal.into_disk(), seat)
    }

    /// The disk, as it is. The seat, the boxes, and the outputs that wait are let go.
    pub fn into_disk(self) -> D
        ensures disk { result ≡ self.disk }
        ensures held { D.honest result → HoldBetween (D.images result) self.opening self.seat }
    {
        let (disk, _seat) = self.into_parts();
        disk
    }

    /// The same flusher over a disk that passes `calls` more calls on and then fails.
    pub fn fuse(self, calls: u64) -> Flusher<FuseDisk<D>, B, W>
        ensures disk { fused result.disk ≡ self.disk }
        ensures calls { calls_left result.disk ≡ calls }
        ensures same { IsSame self result }
    {
        let Flusher {
            journal,
            broker,
            seat,
            opening,
            batch,
            bytes,
            done,
            stored,
            executed,
            outlet,
            broken,
            won,
            since,
            counted_from,
            counted,
            block,
            width,
        } = self;
        Flusher {
            journal: journal.fuse(calls),
            broker,
            seat,
            opening,
            batch,
            bytes,
            done,
            stored,
            executed,
            outlet,
            broken,
            won,
            since,
            counted_from,
            counted,
            block,
            width,
        }
    }

    // A batch whose records have this many bytes takes no further command. It is a quarter of an area, so that one block doesn't fill a
    // journal that holds little; in small areas it is `LEAST_BYTES`. It is never more than a batch may have.
    fn bytes_wanted(&self) -> u64
        ensures wanted { result ≡ block_bytes self.now.size W.BYTES }
        ensures most { result ≤ 2 ^ 62 }
    {
        let quarter = self.journal.size() / 4;
        quarter.max(LEAST_BYTES).min(W::BYTES)
    }

    // Takes the entries that are ready, one after another, until the batch is full or has `wanted` bytes, and answers how many it took.
    fn take_ready(
        wanted: u64,
        ring: &BrokerRing<OutSender<B>>,
        seat: &mut FlushSeat<OutSender<B>>,
        batch: &mut Vec<Entry<OutSender<B>>>,
        bytes: &mut u64,
    ) -> u64
        requires most { wanted ≤ 2 ^ 62 }
        requires ring { seat.old.ring ≡ ring.now }
        requires room { W.COMMANDS ≤ vec_capacity batch.old }
        requires bytes { bytes.old ≡ length (records (commands batch.old.items)) }
        requires batch { IsBatch W.COMMANDS wanted (commands batch.old.items) }
        ensures taken { TakesMore seat.old seat.new batch.old.items batch.new.items result }
        ensures bytes { bytes.new ≡ length (records (commands batch.new.items)) }
        ensures batch { IsBatch W.COMMANDS wanted (commands batch.new.items) }
    {
        let mut count = 0;
        while batch.len() < W::COMMANDS && *bytes < wanted {
            let Some(entry) = ring.take(seat) else {
                return count;
            };
            *bytes += entry.bytes().len() as u64;
            batch.push_reserved(entry);
            count += 1;
        }
        count
    }

    // Makes room for a whole batch before the first entry is taken, so that none is lost.
    fn fill(
        wanted: u64,
        ring: &BrokerRing<OutSender<B>>,
        seat: &mut FlushSeat<OutSender<B>>,
        batch: &mut Vec<Entry<OutSender<B>>>,
        bytes: &mut u64,
    ) -> Result<u64, AllocError>
        requires most { wanted ≤ 2 ^ 62 }
        requires ring { seat.old.ring ≡ ring.now }
        requires bytes { bytes.old ≡ length (records (commands batch.old.items)) }
        requires batch { IsBatch W.COMMANDS wanted (commands batch.old.items) }
        ensures taken { IfOk result (TakesMore seat.old seat.new batch.old.items batch.new.items) }
        ensures bytes { bytes.new ≡ length (records (commands batch.new.items)) }
        ensures batch { IsBatch W.COMMANDS wanted (commands batch.new.items) }
        ensures refused { OnErr result (seat.new ≡ seat.old) }
    {
        batch.reserve(W::COMMANDS.saturating_sub(batch.len()))?;
        Ok(Self::take_ready(wanted, ring, seat, batch, bytes))
    }

    /// Takes the next commands in order from the ring, for as long as they are ready and the batch has room, and answers how many it took.
    /// The batch has room while fewer than `W::COMMANDS` wait to be stored and their records have fewer than `W::BYTES` bytes. They must
    /// also have fewer bytes than a quarter of an area, or than 262,144 if that is more.
    ///
    /// `Memory` comes before anything is taken.
    pub fn gather(&mut self, ring: &BrokerRing<OutSender<B>>) -> Result<u64, FlushFault>
        requires ring { self.old.seat.ring ≡ ring.now }
        ensures taken { IfOk result (Gathers self.old self.new) }
        ensures batch { IfOk result (λ count. IsBatch W.COMMANDS (block_bytes self.old.size W.BYTES) (gathered self.new)) }
        ensures untouched { OnErr result (GathersNone self.old self.new) }
        ensures breaks { BreaksInMemory self.old self.new result }
    {
        if self.is_broken() {
            return Err(FlushFault::Broken);
        }
        self.take_batch(ring)
    }

    // The same for a flusher that is not broken.
    pub(crate) fn take_batch(&mut self, ring: &BrokerRing<OutSender<B>>) -> Result<u64, FlushFault>
        requires ring { self.old.seat.ring ≡ ring.now }
        requires whole { self.old.broken ≡ false }
        ensures taken { IfOk result (Gathers self.old self.new) }
        ensures batch { IfOk result (λ count. IsBatch W.COMMANDS (block_bytes self.old.size W.BYTES) (gathered self.new)) }
        ensures untouched { OnErr result (GathersNone self.old self.new) }
        ensures breaks { BreaksInMemory self.old self.new result }
    {
        let wanted = self.bytes_wanted();
        match Self::fill(
            wanted,
            ring,
            &mut self.seat,
            &mut self.batch,
            &mut self.bytes,
        ) {
            Ok(count) => Ok(count),
            Err(refused) => {
                self.broken = true;
                ring.stop(&mut self.seat);
                Err(FlushFault::Memory(refused))
            }
        }
    }

    /// Makes what is gathered durable, in one block. The journal is compacted first, but only if the block doesn't fit. If the block still
    /// doesn't fit, as many commands are stored, from the first on, as have a block that fits. The others stay gathered, for the next call.
    /// If nothing is gathered, it calls no disk and changes nothing.
    ///
    /// At each moment of the call an image of the disk stands for the state after what was stored before, or after what is stored at the
    /// end. It stands for none between. After the call it stands for the latter alone. `Full` comes if no snapshot of the state fits into
    /// an area, and then the disk is as it was. `Full` also comes if the block of the first command alone doesn't fit after a snapshot, and
    /// then the disk has that snapshot. `Memory` leaves the disk as it was if the block fits. Otherwise a snapshot may be written, in part
    /// or in full, and the disk stands for the same state as before.
    pub fn store(
        &mut self,
        alloc: Global,
        ring: &BrokerRing<OutSender<B>>,
    ) -> Result<(), FlushFault>
        requires ring { self.old.seat.ring ≡ ring.now }
        requires executed { self.old.broken ≡ false → self.old.executed ≡ self.old.stored }
        ensures any_moment { StoresThroughout D.Disk self.old self.new self.old result }
        ensures stores { OnOk result (StoresGathered D.Disk self.old self.new) }
        ensures refuses { RefusesToStore D.Disk self.old self.new result }
        ensures breaks { FlushBreaks D.Disk self.old self.new result }
        ensures lasts { Lasts D.Disk self.old.disk self.new.disk }
    {
        if self.is_broken() {
            return Err(FlushFault::Broken);
        }
        self.store_gathered(alloc, ring)
    }

    // The same for a flusher that is not broken.
    pub(crate) fn store_gathered(
        &mut self,
        alloc: Global,
        ring: &BrokerRing<OutSender<B>>,
    ) -> Result<(), FlushFault>
        requires ring { self.old.seat.ring ≡ ring.now }
        requires done { HasExecuted self.old }
        ensures any_moment { StoresThroughout D.Disk self.old self.new self.old result }
        ensures stores { OnOk result (StoresGathered D.Disk self.old self.new) }
        ensures refuses { RefusesToStore D.Disk self.old self.new result }
        ensures breaks { FlushBreaks D.Disk self.old self.new result }
        ensures lasts { Lasts D.Disk self.old.disk self.new.disk }
    {
        if self.has_none() {
            return Ok(());
        }
        self.win_room(alloc, ring)?;
        let count = self.fitting();
        self.append(alloc, ring, count)
    }

    // Whether nothing is gathered. Contracts then also know what the flusher keeps.
    fn has_none(&self) -> bool
        requires whole { self.now.broken ≡ false }
        ensures none { result ≡ true → gathered self.now ≡ [] }
        ensures some { result ≡ false → gathered self.now ≢ [] }
        ensures kept { IsFlusher D.honest D.images self.now }
    {
        self.batch.is_empty()
    }

    // How many of the gathered commands, from the first on, have a block that fits; 1 if not even the first has.
    fn fitting(&self) -> usize
        requires whole { self.now.broken ≡ false }
        requires some { gathered self.now ≢ [] }
        ensures within { result ≤ length (gathered self.now) }
        ensures some { 0 < result }
        ensures one { IsTooLong self.now.size self.now.used (take result (gathered self.now)) →
            IsTooLong self.now.size self.now.used (take 1 (gathered self.now)) }
        ensures more { result < length (gathered self.now) →
            IsTooLong self.now.size self.now.used (take (result + 1) (gathered self.now)) }
    {
        count_fitting(self.journal.size(), self.journal.used(), &self.batch)
    }

    // Makes the first `count` gathered commands durable in one block, after what the live area holds. `Full` and `Memory` leave the disk as
    // it was.
    fn append(
        &mut self,
        alloc: Global,
        ring: &BrokerRing<OutSender<B>>,
        count: usize,
    ) -> Result<(), FlushFault>
        requires ring { self.old.seat.ring ≡ ring.now }
        requires done { HasExecuted self.old }
        requires count { (0 < count) × (count ≤ length (gathered self.old)) }
        ensures any_moment { EitherThroughout D.Disk self.old self.new count }
        ensures stores { OnOk result (StoresFirst D.Disk self.old self.new count) }
        ensures refuses { RefusesToStoreFirst D.Disk self.old self.new count result }
        ensures breaks { FlushBreaks D.Disk self.old self.new result }
        ensures lasts { Lasts D.Disk self.old.disk self.new.disk }
    {
        match append_first(alloc, &mut self.journal, &mut self.batch, count) {
            Ok(rest) => {
                let left = rest.len() as u64;
                self.bytes = bytes_without(self.bytes, &self.batch);
                self.done = replace(&mut self.batch, rest);
                self.block = self.stored;
                self.stored = self.seat.next().saturating_sub(left);
                Ok(())
            }
            Err(fault) => {
                self.broken = true;
                ring.stop(&mut self.seat);
                Err(FlushFault::from(fault))
            }
        }
    }

    /// Executes what is stored. The broker's state is then the one after all that is stored. The outputs wait after those that wait
    /// already, in the order of their commands. The call also makes the room that `publish` needs.
    pub fn settle(
        &mut self,
        alloc: Global,
        ring: &BrokerRing<OutSender<B>>,
    ) -> Result<(), FlushFault>
        requires ring { self.old.seat.ring ≡ ring.now }
        ensures executed { OnOk result (self.new ≡ executing self.old) }
        ensures untouched { self.new.disk ≡ self.old.disk }
        ensures breaks { BreaksInMemory self.old self.new result }
    {
        if self.is_broken() {
            return Err(FlushFault::Broken);
        }
        let (steps, bytes) = (steps_of(&self.done), bytes_of(&self.done));
        let waited = self.outlet.waiting.len();
        match self
            .outlet
            .execute_all(alloc, &mut self.broker, &mut self.done)
        {
            Ok(()) => {
                let outs = self.outlet.waiting.len().saturating_sub(waited) as u64;
                self.counted = count_more(self.counted, steps, bytes, outs);
                self.executed = self.stored;
                Ok(())
            }
            Err(fault) => {
                self.broken = true;
                ring.stop(&mut self.seat);
                Err(fault)
            }
        }
    }

    // Executes what is stored, for a flusher that is not broken. As soon as a portion of the outputs waits, it is published, up to the
    // command that is executed next. The rest waits, and the room that publishing it needs is made.
    pub(crate) fn settle_in_portions(
        &mut self,
        alloc: Global,
        ring: &BrokerRing<OutSender<B>>,
    ) -> Result<(), FlushFault>
        requires ring { self.old.seat.ring ≡ ring.now }
        requires whole { self.old.broken ≡ false }
        ensures executed { OnOk result (Gives self.old self.new) }
        ensures untouched { self.new.disk ≡ self.old.disk }
        ensures falls { OnErr result (GivesAndFalls self.old self.new) }
        ensures fault { IsMemory result }
    {
        let (steps, bytes) = (steps_of(&self.done), bytes_of(&self.done));
        match self.outlet.settle_in_portions(
            alloc,
            ring,
            &mut self.seat,
            &mut self.broker,
            &mut self.done,
        ) {
            Ok(outs) => {
                self.counted = count_more(self.counted, steps, bytes, outs);
                self.executed = self.stored;
                Ok(())
            }
            Err(fault) => {
                self.executed = self.executed.max(self.seat.mark());
                self.broken = true;
                ring.stop(&mut self.seat);
                Err(fault)
            }
        }
    }

    /// Raises the mark to all that is stored, which each image of the disk holds. Then it gives each outbox the outputs of its session, in
    /// order, until the box is cut. What goes to a session without a box stays for `take_left`. It takes no memory.
    ///
    /// The box of a session that has ended stays until the next call, which lets it go before anything is given.
    pub fn publish(&mut self, ring: &BrokerRing<OutSender<B>>)
        requires ring { self.old.seat.ring ≡ ring.now }
        requires whole { self.old.broken ≡ false }
        requires executed { self.old.executed ≡ self.old.stored }
        ensures published { self.new ≡ publishing self.old self.new.boxes }
        ensures given { AreGiven self.old.waiting (standing self.old) self.new.boxes }
        ensures held { D.honest self.new.disk → StandFor (D.images self.new.disk) (state_at self.new.opening self.new.seat self.new.seat.published) }
    {
        ring.raise(&mut self.seat, self.stored);
        self.outlet.tally.add(&self.outlet.waiting);
        self.outlet.give(&self.seat);
    }

    /// Whether the flusher had better wait before it goes on: a box that the last outputs went to is over half full, and is being
    /// emptied.
    pub fn awaits_readers(&mut self) -> bool
        ensures { self.new ≡ self.old }
    {
        self.outlet.boxes.are_waited_for()
    }

    /// Has it count from now on how many listen to each topic.
    pub fn count_audiences(&mut self, audiences: Arc<Audiences>)
        ensures { self.new ≡ self.old }
    {
        drop(self.outlet.audiences.replace(audiences));
    }

    /// How many outputs have been published so far.
    pub fn tally(&self) -> Tally {
        self.outlet.tally
    }

    /// Hands out the outputs that are published and went to no box, in the order of their commands. The number of each is under the mark.
    /// It takes no memory.
    pub fn take_left(&mut self) -> Vec<Out>
        ensures outs { result.items ≡ self.old.left }
        ensures under { AreUnder self.old.seat.published result.items }
        ensures taken { self.new ≡ record self.old { left = [] } }
    {
        let alloc = *self.outlet.left.allocator();
        replace(&mut self.outlet.left, Vec::new(alloc))
    }

    /// Stops the ring, for good: an `append` that reads this refuses. What the ring took can still be made durable and published. Nothing
    /// else changes.
    pub fn stop(&mut self, ring: &BrokerRing<OutSender<B>>)
        requires { self.old.seat.ring ≡ ring.now }
        ensures { self.new ≡ record self.old { seat = when_stopped self.old.seat } }
    {
        ring.stop(&mut self.seat);
    }

    /// Notes that the disk failed in a call that is not the flusher's. The flusher is broken from then on, and the ring is stopped. Nothing
    /// else changes.
    pub fn fail(&mut self, ring: &BrokerRing<OutSender<B>>)
        requires { self.old.seat.ring ≡ ring.now }
        ensures { self.new ≡ record self.old { broken = true; seat = when_stopped self.old.seat } }
    {
        self.stop(ring);
        self.broken = true;
    }

    /// The mark: every number under it is published. Contracts then also know what the flusher keeps.
    pub fn mark(&self) -> u64
        ensures mark { result ≡ self.now.seat.published }
        ensures kept { IsFlusher D.honest D.images self.now }
    {
        self.seat.mark()
    }

    /// How many bytes an area of the journal has.
    pub fn size(&self) -> u64
        ensures { result ≡ self.now.size }
    {
        self.journal.size()
    }

    /// Takes what is ready, makes it durable in one block, executes it and publishes it. It answers how many commands it took. The journal
    /// is compacted first, but only if the block of what waits to be stored doesn't fit. If the block still doesn't fit, as many commands
    /// are stored, from the first on, as have a block that fits. The others wait for the next turn.
    ///
    /// At each moment of the call an image of the disk stands for the state after what was stored before, or after what is stored at the
    /// end. It stands for none between. After the call it stands for the latter alone. `Full` comes if no snapshot of the state after what
    /// was stored before fits into an area, or if the block of the next command alone doesn't fit after one. If nothing waits to be stored,
    /// the disk stays as it was.
    pub fn turn(
        &mut self,
        alloc: Global,
        ring: &BrokerRing<OutSender<B>>,
    ) -> Result<u64, FlushFault>
        requires ring { self.old.seat.ring ≡ ring.now }
        requires executed { self.old.broken ≡ false → self.old.executed ≡ self.old.stored }
        ensures any_moment { StoresThroughout D.Disk self.old self.new self.new result }
        ensures turns { IfOk result (HasTurned D.Disk W.COMMANDS W.BYTES self.old self.new) }
        ensures nothing { to_store self.old self.new ≡ [] → self.new.disk ≡ self.old.disk }
        ensures refuses { RefusesTurn D.Disk W.COMMANDS W.BYTES self.old self.new result }
        ensures breaks { TurnBreaks D.Disk self.old self.new result }
        ensures lasts { Lasts D.Disk self.old.disk self.new.disk }
    {
        if self.is_broken() {
            return Err(FlushFault::Broken);
        }
        let count = self.take_batch(ring)?;
        self.store_gathered(alloc, ring)?;
        self.settle_in_portions(alloc, ring)?;
        self.publish(ring);
        Ok(count)
    }
}

// Keeps the box that comes with a command of that number, if the command opens the session of that number.
fn keep_box<B: Bell>(
    boxes: &mut Boxes<B>,
    number: u64,
    command: &Command,
    outbox: Option<OutSender<B>>,
) -> Result<(), AllocError>
    ensures { OnOk result (boxes.new ≡ opened boxes.old number (record { command = command.now; outbox = outbox })) }
{
    let Op::Open { .. } = command.op() else {
        return Ok(());
    };
    match outbox {
        Some(sender) => boxes.keep(number, sender),
        None => Ok(()),
    }
}

// Keeps the boxes that come with commands, the first of which has that number. The commands are what is left of the entries.
pub(crate) fn keep_boxes<B: Bell>(
    alloc: Global,
    boxes: &mut Boxes<B>,
    first: u64,
    entries: &mut Vec<Entry<OutSender<B>>>,
) -> Result<Vec<Command>, AllocError>
    requires count { first + length entries.old.items ≤ 2 ^ 62 }
    ensures boxes { OnOk result (boxes.new ≡ boxes_after first boxes.old entries.old.items) }
    ensures commands { IfOk result (λ cs. cs.items ≡ commands entries.old.items) }
    ensures none { entries.new.items ≡ [] }
{
    let batch = replace(entries, Vec::new(alloc));
    let mut number = first;
    let mut kept = Vec::new(alloc);
    for entry in batch {
        let (command, outbox) = entry.into_parts();
        let boxed = keep_box(boxes, number, &command, outbox);
        kept.push(command)?;
        boxed?;
        number += 1;
    }
    Ok(kept)
}

// Notes a session that was open and no longer is.
fn note_end(
    broker: &Broker,
    was_open: bool,
    session: u64,
    ended: &mut Vec<u64>,
) -> Result<(), AllocError>
    ensures { OnOk result (ended.new.items ≡ ended.old.items ++ (if was_open && not (is_open broker.now.state session) then session ∷ [] else [])) }
{
    if was_open && !broker.sessions().contains_key(&session) {
        ended.push(session)?;
    }
    Ok(())
}

impl<B: Bell> Outlet<B> {
    // Executes one command: its outputs wait after those that wait already, the session that it ends is noted, and its topic's audience is
    // too. It answers how many outputs came of it.
    pub(crate) fn execute(
        &mut self,
        alloc: Global,
        broker: &mut Broker,
        command: Command,
    ) -> Result<u64, FlushFault>
        requires whole { broker.old.broken ≡ false }
        requires count { broker.old.state.count < 2 ^ 62 }
        ensures done { OnOk result (ExecutesOne command broker.old broker.new self.old self.new) }
        ensures many { IfOk result (λ many. many ≡ length (outs broker.old.state command)) }
        ensures same { self.new ≡ record self.old { waiting = self.new.waiting; ended = self.new.ended } }
        ensures fault { IsMemory result }
    {
        let session = command.session();
        let was_open = broker.sessions().contains_key(&session);
        let (sample, waited) = (Sample::of(command.op()), self.waiting.len());
        broker.step_onto(alloc, command, &mut self.waiting)?;
        note_end(broker, was_open, session, &mut self.ended)?;
        let many = self.waiting.len().saturating_sub(waited) as u64;
        if let Some(audiences) = &self.audiences {
            audiences.carried_out(sample, many);
        }
        Ok(many)
    }

    // Keeps the boxes of all that is stored, and executes it. Then it makes the room that publishing needs.
    fn execute_all(
        &mut self,
        alloc: Global,
        broker: &mut Broker,
        done: &mut Vec<Entry<OutSender<B>>>,
    ) -> Result<(), FlushFault>
        requires whole { broker.old.broken ≡ false }
        requires count { broker.old.state.count + length done.old.items ≤ 2 ^ 62 }
        requires none { length self.old.spare.items ≡ 0 }
        ensures done { OnOk result (Executes (commands done.old.items) broker.old broker.new self.old.waiting self.new.waiting self.old.ended self.new.ended) }
        ensures boxes { OnOk result (self.new.boxes ≡ boxes_after broker.old.state.count self.old.boxes done.old.items) }
        ensures same { (done.new.items ≡ []) × (self.new.past ≡ self.old.past) × (self.new.left.items ≡ self.old.left.items) }
        ensures room { OnOk result (HasRoom self.new.waiting self.new.left self.new.spare) }
        ensures fault { IsMemory result }
    {
        let first = broker.count();
        let commands = keep_boxes(alloc, &mut self.boxes, first, done)?;
        for command in commands {
            self.execute(alloc, broker, command)?;
        }
        self.make_room()?;
        Ok(())
    }

    // Publishes what waits, all of which is under that mark, if it is a portion: `since` commands are executed since the last one. It answers
    // how many are then. If memory is refused, nothing is published.
    fn publish_portion(
        &mut self,
        ring: &BrokerRing<OutSender<B>>,
        seat: &mut FlushSeat<OutSender<B>>,
        mark: u64,
        since: usize,
    ) -> Result<usize, AllocError>
        requires ring { seat.old.ring ≡ ring.now }
        requires mark { (seat.old.published ≤ mark) × (mark ≤ next_ticket seat.old) }
        requires under { AreUnder mark self.old.waiting.items }
        requires none { length self.old.spare.items ≡ 0 }
        ensures gives { OnOk result (GivesPortion mark seat.old seat.new self.old self.new) }
        ensures same { (self.new.ended ≡ self.old.ended) × (self.new.past ≡ self.old.past) × (length self.new.spare.items ≡ 0) }
        ensures refused { OnErr result ((seat.new ≡ seat.old) × (self.new.left.items ≡ self.old.left.items)) }
    {
        if since < COMMANDS || self.waiting.len() < OUTS {
            return Ok(since);
        }
        self.make_room()?;
        ring.raise(seat, mark);
        self.tally.add(&self.waiting);
        self.give_portion(seat);
        Ok(0)
    }

    // Keeps the boxes of all that is stored, lets go of those of sessions whose last outputs are given, and executes the commands in turn. As
    // soon as a portion waits, it is published, up to the command that is executed next. In the end it makes the room that publishing the
    // rest needs. It answers how many outputs came of the commands.
    fn settle_in_portions(
        &mut self,
        alloc: Global,
        ring: &BrokerRing<OutSender<B>>,
        seat: &mut FlushSeat<OutSender<B>>,
        broker: &mut Broker,
        done: &mut Vec<Entry<OutSender<B>>>,
    ) -> Result<u64, FlushFault>
        requires ring { seat.old.ring ≡ ring.now }
        requires ready { AreReady (length done.old.items) broker.old seat.old self.old.waiting.items self.old.spare.items }
        ensures done { IfOk result (ExecutesStored done.old.items broker.old broker.new self.old self.new) }
        ensures raised { RaisesUpTo (broker.old.state.count + length done.old.items) seat.old seat.new self.old.left.items self.new.left.items }
        ensures past { OnOk result (self.new.past.items ≡ []) }
        ensures none { done.new.items ≡ [] }
        ensures room { OnOk result (HasRoom self.new.waiting self.new.left self.new.spare) }
        ensures fault { IsMemory result }
    {
        let first = broker.count();
        let commands = keep_boxes(alloc, &mut self.boxes, first, done)?;
        self.let_past_go();
        let mut since: usize = 0;
        let mut many: u64 = 0;
        for command in commands {
            match self.publish_portion(ring, seat, broker.count(), since) {
                Ok(still) => since = still.saturating_add(1),
                Err(refused) => {
                    drop(command);
                    return Err(FlushFault::Memory(refused));
                }
            }
            let made = self.execute(alloc, broker, command)?;
            many = many.saturating_add(made);
        }
        self.make_room()?;
        Ok(many)
    }
}
