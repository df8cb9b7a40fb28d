//! What the flusher's thread does.

ghost use Rattle.std.specs.Prelude.{◌≡◌, [], IfOk, None, OnErr, OnOk, true, false};
ghost use Rattle.flush_core.specs.Backlogs.{IsLight, RepeatsNothing};
ghost use Rattle.flush_core.specs.Faults.{IsFlushCaused};
ghost use Rattle.engine_core.specs.Flushes.{Flushes};

use crate::hub::HubFlusher;
use claim_core::BrokerRing;
use disk_core::Disk;
use flush_core::FlushFault;
use outbox_core::{Bell, OutSender};
use std::alloc::Global;

// How often the flusher waits after a turn until the readers of what it gave have caught up.
const WAITS: u32 = 50;

/// Makes that number of turns of the flusher, counting those that its gate held up, and then answers the mark. Outputs of
/// sessions that have no outbox are dropped. After each turn the journal is compacted if a start would have more to repeat
/// than it may. A fault ends it at once, and the gate is notified that the flusher has stopped. The
/// fault is `Device` exactly if a call of the disk failed.
pub fn flush_loop<D: Disk, B: Bell, G: Gate>(
    alloc: Global,
    ring: &BrokerRing<OutSender<B>>,
    flusher: &mut HubFlusher<D, B>,
    gate: &G,
    turns: u64,
) -> Result<u64, FlushFault>
    requires ring { flusher.old.seat.ring ≡ ring.now }
    requires executed { flusher.old.broken ≡ false → flusher.old.executed ≡ flusher.old.stored }
    ensures mark { IfOk result (λ mark. mark ≡ flusher.new.seat.published) }
    ensures flushes { Flushes flusher.old flusher.new }
    ensures light { IsLight flusher.old → OnOk result (IsLight flusher.new) }
    ensures cause { IsFlushCaused (D.failures flusher.old.disk) (D.failures flusher.new.disk) result }
    ensures stops { OnErr result ((flusher.new.broken ≡ true) × (flusher.new.seat.stopped ≡ true)) }
{
    for turn in 0..turns {
        if gate.pass(u32::MAX, turn) {
            flush(alloc, ring, flusher, gate)?;
        }
    }
    Ok(flusher.mark())
}

/// Compacts the journal if a start would have anything to repeat: once all is published, at the end. A refusal of memory, or
/// a state whose snapshot fits into no area, leaves a journal that stands for the same, so it is no fault; the flusher may be
/// broken then.
pub fn compact_last<D: Disk, B: Bell>(
    alloc: Global,
    ring: &BrokerRing<OutSender<B>>,
    flusher: &mut HubFlusher<D, B>,
) -> Result<(), FlushFault>
    requires ring { flusher.old.seat.ring ≡ ring.now }
    requires executed { flusher.old.broken ≡ false → flusher.old.executed ≡ flusher.old.stored }
    ensures flushes { Flushes flusher.old flusher.new }
    ensures none { IfOk result (λ _. flusher.new.broken ≡ false → RepeatsNothing flusher.new) }
    ensures stops { OnErr result ((flusher.new.broken ≡ true) × (flusher.new.seat.stopped ≡ true)) }
{
    match flusher.compact_rest(alloc, ring) {
        Err(FlushFault::Memory(_) | FlushFault::Full) => Ok(()),
        ended => ended,
    }
}

// One turn, and a compaction if one is due.
fn flush<D: Disk, B: Bell, G: Gate>(
    alloc: Global,
    ring: &BrokerRing<OutSender<B>>,
    flusher: &mut HubFlusher<D, B>,
    gate: &G,
) -> Result<(), FlushFault>
    requires ring { flusher.old.seat.ring ≡ ring.now }
    requires executed { flusher.old.broken ≡ false → flusher.old.executed ≡ flusher.old.stored }
    ensures flushes { Flushes flusher.old flusher.new }
    ensures light { OnOk result (IsLight flusher.new) }
    ensures cause { IsFlushCaused (D.failures flusher.old.disk) (D.failures flusher.new.disk) result }
    ensures stops { OnErr result ((flusher.new.broken ≡ true) × (flusher.new.seat.stopped ≡ true)) }
{
    let before = flusher.mark();
    match flusher.turn(alloc, ring) {
        Ok(_) => {
            drop_left(flusher);
            tell_mark(gate, before, flusher.mark());
            tell_compaction(gate, flusher);
            wait_for_readers(gate, flusher);
            compact_if_due(alloc, ring, flusher, gate)
        }
        Err(fault) => {
            gate.stopped();
            Err(fault)
        }
    }
}

// Compacts the journal if a start would have more to repeat than it may. The gate is notified only if that fails.
fn compact_if_due<D: Disk, B: Bell, G: Gate>(
    alloc: Global,
    ring: &BrokerRing<OutSender<B>>,
    flusher: &mut HubFlusher<D, B>,
    gate: &G,
) -> Result<(), FlushFault>
    requires ring { flusher.old.seat.ring ≡ ring.now }
    requires executed { flusher.old.broken ≡ false → flusher.old.executed ≡ flusher.old.stored }
    ensures flushes { Flushes flusher.old flusher.new }
    ensures light { OnOk result (IsLight flusher.new) }
    ensures cause { IsFlushCaused (D.failures flusher.old.disk) (D.failures flusher.new.disk) result }
    ensures stops { OnErr result ((flusher.new.broken ≡ true) × (flusher.new.seat.stopped ≡ true)) }
{
    match flusher.compact_if_due(alloc, ring) {
        Ok(()) => {
            forget_won(flusher);
            Ok(())
        }
        Err(fault) => {
            gate.stopped();
            Err(fault)
        }
    }
}

// What the compaction won is not reported.
fn forget_won<D: Disk, B: Bell>(flusher: &mut HubFlusher<D, B>)
    ensures { flusher.new ≡ record flusher.old { last = record flusher.old.last { won = None } } }
{
    let _won = flusher.take_won();
}

// Drops the outputs of sessions that have no outbox.
fn drop_left<D: Disk, B: Bell>(flusher: &mut HubFlusher<D, B>)
    ensures { flusher.new ≡ record flusher.old { left = [] } }
{
    drop(flusher.take_left());
}

// Keeps the flusher from filling boxes that are being emptied.
fn wait_for_readers<D: Disk, B: Bell, G: Gate>(gate: &G, flusher: &mut HubFlusher<D, B>)
    ensures { flusher.new ≡ flusher.old }
{
    for _ in 0..WAITS {
        if !flusher.awaits_readers() {
            return;
        }
        gate.wait_for_readers();
    }
}

// Tells the gate if the mark has risen.
fn tell_mark<G: Gate>(gate: &G, before: u64, mark: u64) {
    if before < mark {
        gate.published(mark);
    }
}

// Tells the gate of the compaction that the turn made, if it made one.
fn tell_compaction<D: Disk, B: Bell, G: Gate>(gate: &G, flusher: &mut HubFlusher<D, B>)
    ensures { flusher.new ≡ record flusher.old { last = record flusher.old.last { won = None } } }
{
    if let Some(won) = flusher.take_won() {
        gate.compacted(won);
    }
}

/// What is asked before each turn of a worker and of the flusher, and is notified of what they did. Only the first call need be written; the
/// others are for a gate by which threads wait for each other.
pub trait Gate {
    /// Whether the turn is taken. A turn to which the gate answers false does nothing. A worker goes by the number of its seat, the
    /// flusher by `u32::MAX`. Turns are counted from 0.
    fn pass(&self, worker: u32, turn: u64) -> bool;

    /// The worker has put commands into the ring.
    fn appended(&self, _worker: u32) {}

    /// The worker's next command has no room, or its next output may not leave, until the mark is over this one. It tries again once
    /// this returns, so it may be kept here until then.
    fn wait_for_mark(&self, _worker: u32, _mark: u64) {}

    /// Memory was refused to the worker. It tries again once this returns, so it may be kept here for a while.
    fn wait_for_memory(&self, _worker: u32) {}

    /// The flusher has published every number under this mark.
    fn published(&self, _mark: u64) {}

    /// The flusher's turn has compacted the journal, whose live area had no room for what waited. The area now uses that many
    /// bytes less, not counting what waited. This comes after `published`.
    fn compacted(&self, _won: u64) {}

    /// A reader's box is over half full, and is being emptied. The flusher goes on, or looks again, once this returns, so it may
    /// be kept here for a moment: it looks 50 times at most. This comes after `published`.
    fn wait_for_readers(&self) {}

    /// A step of the flusher has failed: no mark over the last one will be published, and the ring takes nothing more. A worker that is
    /// kept in `wait_for_mark` is to be let go: its next append is refused, and it closes its connection.
    fn stopped(&self) {}
}
