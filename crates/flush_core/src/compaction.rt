//! When the journal is compacted, and how much a start would have to repeat.

ghost use Rattle.std.specs.Prelude.{◌≡◌, OnErr, OnOk, None, true, false, ◌≤◌, ◌-◌, ◌+◌, length, min, sum_by};
ghost use Rattle.disk_core.specs.Calls.{Lasts};
ghost use Rattle.recover_core.specs.Compactions.{HasNoRoomFor};
ghost use Rattle.area_core.specs.Areas.{commands, records};
ghost use Rattle.flush_core.specs.FlusherCalls.{FlushBreaks, FlushCompacts, RefusesState, SameThroughout, WinsRoom, CompactsIfDue, MayCompact};
ghost use Rattle.flush_core.specs.Flusher.{HasExecuted, IsFlusher, gathered, state_stored};
ghost use Rattle.flush_core.specs.Room.{Fits, IsTooLong};
ghost use Rattle.flush_core.specs.Backlogs.{IsLight, RepeatsNothing, backlog, most_cost, bulk, cost, most_counted, steps_of, steps_of_op};

use crate::FlushFault;
use crate::batch::Width;
use crate::flusher::Flusher;
use broker_core::Broker;
use claim_core::BrokerRing;
use command_core::{Entry, Op};
use disk_core::Disk;
use outbox_core::{Bell, OutSender};
use std::alloc::Global;

// What a start takes to repeat a step of a command, a byte of its record, and an output, in nanoseconds of a processor at 2.5 GHz.
// bench/README.md has what was measured.
const STEP: u64 = 1_000;

// How many steps a SUBSCRIBE takes, which is put in its place among all.
const SUBSCRIBE_STEPS: u64 = 10;

const BYTE: u64 = 3;

const OUTPUT: u64 = 1_600;

// What may always be repeated. Writing a snapshot of a small state, with its syncs, costs a hundredth of that.
const LEAST: u64 = 64_000_000;

// What may be repeated for each byte of a snapshot. Writing the byte costs a twentieth of what the flusher does meanwhile.
const FOR_A_BYTE: u64 = 25;

// What may be repeated at most, however large the state is.
const GREATEST: u64 = 500_000_000;

// About how many bytes of a snapshot a message or session has beside what is held, and a subscription.
const ITEM: u64 = 64;

const SUBSCRIPTION: u64 = 128;

impl<D: Disk, B: Bell, W: Width> Flusher<D, B, W> {
    /// Writes a snapshot of the state after all that is stored, its sessions included, into the area of the journal that is not live, and
    /// makes that area live. What is gathered waits meanwhile, and sessions go on claiming.
    ///
    /// At each moment of the call an image of the disk stands for that state; after it, an image holds only the snapshot. `Full` means that
    /// no snapshot of the state fits into an area; the disk stays as it was. If memory is refused, pieces of the snapshot may be written
    /// outside the live area.
    pub fn compact(
        &mut self,
        alloc: Global,
        ring: &BrokerRing<OutSender<B>>,
    ) -> Result<(), FlushFault>
        requires ring { self.old.seat.ring ≡ ring.now }
        requires executed { self.old.broken ≡ false → self.old.executed ≡ self.old.stored }
        ensures any_moment { SameThroughout D.Disk self.old self.new }
        ensures compacts { OnOk result (FlushCompacts D.Disk self.old self.new) }
        ensures refuses { RefusesState D.Disk self.old self.new result }
        ensures breaks { FlushBreaks D.Disk self.old self.new result }
        ensures lasts { Lasts D.Disk self.old.disk self.new.disk }
    {
        if self.is_broken() {
            return Err(FlushFault::Broken);
        }
        self.compact_journal(alloc, ring)
    }

    // The same for a flusher that is not broken.
    pub(crate) fn compact_journal(
        &mut self,
        alloc: Global,
        ring: &BrokerRing<OutSender<B>>,
    ) -> Result<(), FlushFault>
        requires ring { self.old.seat.ring ≡ ring.now }
        requires done { HasExecuted self.old }
        ensures any_moment { SameThroughout D.Disk self.old self.new }
        ensures compacts { OnOk result (FlushCompacts D.Disk self.old self.new) }
        ensures refuses { RefusesState D.Disk self.old self.new result }
        ensures breaks { FlushBreaks D.Disk self.old self.new result }
        ensures lasts { Lasts D.Disk self.old.disk self.new.disk }
    {
        let before = self.journal.used();
        match self.journal.compact(alloc, &self.broker) {
            Ok(()) => {
                let won = before.saturating_sub(self.journal.used());
                self.won = Some(won);
                self.since = self.stored;
                self.counted_from = self.stored;
                self.counted = 0;
                Ok(())
            }
            Err(fault) => {
                self.broken = true;
                ring.stop(&mut self.seat);
                Err(FlushFault::from(fault))
            }
        }
    }

    /// How many bytes of the live area are used: those up to its first closed gate, and that gate.
    pub fn used(&self) -> u64
        ensures { result ≡ self.now.used }
    {
        self.journal.used()
    }

    /// How many bytes of the live area the last compaction won, in a turn too: those used before it less those used after it. `None` if
    /// there was no compaction since the last call of this.
    pub fn take_won(&mut self) -> Option<u64>
        ensures won { result ≡ self.old.last.won }
        ensures told { self.new ≡ record self.old { last = record self.old.last { won = None } } }
    {
        self.won.take()
    }

    // Whether the block of what is gathered fits into the live area with the gate after it. Contracts then also know what the flusher keeps.
    fn has_room(&self) -> bool
        requires whole { self.now.broken ≡ false }
        ensures fits { result ≡ true → Fits self.now.size self.now.used (gathered self.now) }
        ensures long { result ≡ false → IsTooLong self.now.size self.now.used (gathered self.now) }
        ensures kept { IsFlusher D.honest D.images self.now }
    {
        self.journal.fits(self.bytes)
    }

    // Compacts the journal if the block of what is gathered doesn't fit, and otherwise does nothing.
    pub(crate) fn win_room(
        &mut self,
        alloc: Global,
        ring: &BrokerRing<OutSender<B>>,
    ) -> Result<(), FlushFault>
        requires ring { self.old.seat.ring ≡ ring.now }
        requires done { HasExecuted self.old }
        ensures any_moment { SameThroughout D.Disk self.old self.new }
        ensures wins { WinsRoom D.Disk self.old self.new result }
        ensures refuses { RefusesState D.Disk self.old self.new result }
        ensures breaks { OnErr result (FlushBreaks D.Disk self.old self.new result) }
        ensures calm { OnOk result (D.failures self.new.disk ≡ D.failures self.old.disk) }
        ensures lasts { Lasts D.Disk self.old.disk self.new.disk }
    {
        if self.has_room() {
            Ok(())
        } else {
            self.compact_journal(alloc, ring)
        }
    }

    /// Compacts the journal if a start would have more to repeat than it may, and otherwise does nothing. If no snapshot of the state fits
    /// into an area, it does nothing either, and what is stored from then on counts.
    ///
    /// At each moment of the call an image of the disk stands for the state after all that is stored. If memory is refused, pieces of the
    /// snapshot may be written outside the live area.
    pub fn compact_if_due(
        &mut self,
        alloc: Global,
        ring: &BrokerRing<OutSender<B>>,
    ) -> Result<(), FlushFault>
        requires ring { self.old.seat.ring ≡ ring.now }
        requires executed { self.old.broken ≡ false → self.old.executed ≡ self.old.stored }
        ensures any_moment { SameThroughout D.Disk self.old self.new }
        ensures compacts { OnOk result (CompactsIfDue D.Disk self.old self.new) }
        ensures refuses { RefusesState D.Disk self.old self.new result }
        ensures breaks { FlushBreaks D.Disk self.old self.new result }
        ensures lasts { Lasts D.Disk self.old.disk self.new.disk }
    {
        if self.is_broken() {
            return Err(FlushFault::Broken);
        }
        if self.is_due() {
            return self.compact_what_fits(alloc, ring);
        }
        Ok(())
    }

    /// Compacts the journal if a start would have anything to repeat, and otherwise does nothing: for the end of a server. A start has
    /// nothing to repeat then, unless no snapshot of the state fits into an area. All else is as `compact_if_due` has it.
    pub fn compact_rest(
        &mut self,
        alloc: Global,
        ring: &BrokerRing<OutSender<B>>,
    ) -> Result<(), FlushFault>
        requires ring { self.old.seat.ring ≡ ring.now }
        requires executed { self.old.broken ≡ false → self.old.executed ≡ self.old.stored }
        ensures any_moment { SameThroughout D.Disk self.old self.new }
        ensures compacts { OnOk result (MayCompact D.Disk self.old self.new) }
        ensures none { OnOk result (RepeatsNothing self.new) }
        ensures refuses { RefusesState D.Disk self.old self.new result }
        ensures breaks { FlushBreaks D.Disk self.old self.new result }
        ensures lasts { Lasts D.Disk self.old.disk self.new.disk }
    {
        if self.is_broken() {
            return Err(FlushFault::Broken);
        }
        if self.repeats_nothing() {
            return Ok(());
        }
        self.compact_what_fits(alloc, ring)
    }

    /// How many commands a start would repeat: those that are stored and not in the last snapshot.
    pub fn to_repeat(&self) -> u64
        ensures { result ≡ self.now.stored - self.now.last.since }
    {
        self.stored.saturating_sub(self.since)
    }

    // Whether a start has to repeat as much as it may, or more.
    fn is_due(&self) -> bool
        requires done { HasExecuted self.now }
        ensures light { result ≡ false → IsLight self.now }
        ensures due { result ≡ true → most_cost (state_stored self.now) ≤ backlog self.now }
    {
        self.counted >= most_cost(&self.broker)
    }

    // Whether a start would have nothing to repeat.
    fn repeats_nothing(&self) -> bool
        ensures { result ≡ true → self.now.last.since ≡ self.now.stored }
    {
        self.since == self.stored
    }

    // Whether a snapshot of the state fits into an area. Contracts then also know what the flusher keeps.
    fn has_room_for_state(&self) -> bool
        requires done { HasExecuted self.now }
        ensures none { result ≡ false → HasNoRoomFor self.now.size (state_stored self.now) }
        ensures kept { IsFlusher D.honest D.images self.now }
    {
        self.journal.fits_state(&self.broker)
    }

    // What is stored from now on counts as what a start would repeat.
    fn count_afresh(&mut self)
        requires done { HasExecuted self.old }
        ensures { self.new ≡ record self.old { last = record self.old.last { counted = self.old.stored } } }
    {
        self.counted_from = self.stored;
        self.counted = 0;
    }

    // Compacts the journal if a snapshot of the state fits into an area. In either case what is stored from then on counts.
    fn compact_what_fits(
        &mut self,
        alloc: Global,
        ring: &BrokerRing<OutSender<B>>,
    ) -> Result<(), FlushFault>
        requires ring { self.old.seat.ring ≡ ring.now }
        requires done { HasExecuted self.old }
        ensures any_moment { SameThroughout D.Disk self.old self.new }
        ensures compacts { OnOk result (MayCompact D.Disk self.old self.new) }
        ensures none { OnOk result (RepeatsNothing self.new) }
        ensures counted { OnOk result (self.new.last.counted ≡ self.new.stored) }
        ensures refuses { RefusesState D.Disk self.old self.new result }
        ensures breaks { FlushBreaks D.Disk self.old self.new result }
        ensures lasts { Lasts D.Disk self.old.disk self.new.disk }
    {
        if self.has_room_for_state() {
            return self.compact_journal(alloc, ring);
        }
        self.count_afresh();
        Ok(())
    }
}

// What it costs to repeat commands of so many steps, whose records have so many bytes, and which have so many outputs.
fn cost(steps: u64, bytes: u64, outs: u64) -> u64
    ensures { result ≡ min (cost steps bytes outs) most_counted }
{
    STEP.saturating_mul(steps)
        .saturating_add(BYTE.saturating_mul(bytes))
        .saturating_add(OUTPUT.saturating_mul(outs))
}

/// What is counted, and what it costs to repeat commands of so many steps more.
pub(crate) fn count_more(counted: u64, steps: u64, bytes: u64, outs: u64) -> u64
    ensures { result ≡ min (counted + cost steps bytes outs) most_counted }
{
    counted.saturating_add(cost(steps, bytes, outs))
}

/// How many steps the commands of these entries take.
pub(crate) fn steps_of<B>(batch: &[Entry<B>]) -> u64
    ensures { result ≡ min (sum_by steps_of (commands batch.now)) most_counted }
{
    let mut steps: u64 = 0;
    for entry in batch {
        steps = steps.saturating_add(steps_of_op(entry.command().op()));
    }
    steps
}

// How many steps an operation takes.
fn steps_of_op(op: &Op) -> u64
    ensures { result ≡ steps_of_op op.now }
{
    match op {
        Op::Subscribe { .. } => SUBSCRIBE_STEPS,
        Op::Commit(members) => 1 + members.as_slice().len() as u64,
        _ => 1,
    }
}

/// How many bytes the records of these entries have.
pub(crate) fn bytes_of<B>(batch: &[Entry<B>]) -> u64
    ensures { result ≡ min (length (records (commands batch.now))) most_counted }
{
    let mut bytes: u64 = 0;
    for entry in batch {
        bytes = bytes.saturating_add(entry.bytes().len() as u64);
    }
    bytes
}

// About how many bytes a snapshot of the broker's state has.
fn bulk(broker: &Broker) -> u64
    ensures { result ≡ min (bulk broker.now.state) most_counted }
{
    let held = broker.held();
    let items = held.messages.saturating_add(broker.sessions().len() as u64);
    held.bytes
        .saturating_add(ITEM.saturating_mul(items))
        .saturating_add(SUBSCRIPTION.saturating_mul(broker.subscription_count() as u64))
}

/// How much a start may have to repeat, with the broker's state in the snapshot.
pub(crate) fn most_cost(broker: &Broker) -> u64
    ensures { result ≡ most_cost broker.now.state }
{
    FOR_A_BYTE
        .saturating_mul(bulk(broker))
        .max(LEAST)
        .min(GREATEST)
}
