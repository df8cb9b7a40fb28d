//! The snapshot of a state, in pieces.

ghost use Rattle.std.specs.Prelude.{◌≡◌, ◌<◌, ◌^◌, false, length, IfOk, ℕ, List};
ghost use Rattle.broker_core.specs.Operations.{restarted};
ghost use Rattle.snapshot_core.specs.Snapshots.{Spells, snapshot_of};
ghost use Rattle.broker_core.specs.States.{State};
ghost use Rattle.recover_core.specs.Told.{IsTooLong, IsTooLongFor};

use area_core::Pieces;
use broker_core::Broker;
use snapshot_core::{StateWriter, state_len};
use std::alloc::{AllocError, Global};

// The bytes of a snapshot that are still to come, and how many they are.
#[derive(Drop)]
pub(crate) struct Snapshot<'a> {
    writer: StateWriter<'a>,
    left: u64,
    ghost counted: { left ≡ length writer },
}

impl<'a> Snapshot<'a> {
    // The snapshot of a broker whose sessions have ended.
    pub(crate) fn new(alloc: Global, broker: &'a Broker) -> Result<Snapshot<'a>, AllocError>
        requires whole { broker.now.broken ≡ false }
        requires ended { broker.now.state ≡ restarted broker.now.state }
        ensures { IfOk result (λ snapshot. Spells snapshot.writer broker.now.state) }
    {
        let writer = StateWriter::new(alloc, broker)?;
        Ok(Snapshot {
            writer,
            left: state_len(broker),
        })
    }

    // The snapshot of a broker with fewer than 2^32 sessions and subscriptions each, and a snapshot of less than 2^64
    // bytes.
    pub(crate) fn of(alloc: Global, broker: &'a Broker) -> Result<Snapshot<'a>, AllocError>
        requires whole { broker.now.broken ≡ false }
        requires few_sessions { length broker.now.state.sessions < 2 ^ 32 }
        requires few_subscriptions { length broker.now.state.subscriptions < 2 ^ 32 }
        requires counted { length (snapshot_of broker.now.state) < 2 ^ 64 }
        ensures { IfOk result (λ snapshot. Spells snapshot.writer broker.now.state) }
    {
        let writer = StateWriter::new(alloc, broker)?;
        Ok(Snapshot {
            writer,
            left: state_len(broker),
        })
    }
}

impl<'a> Pieces for Snapshot<'a> {
    ghost coming = { λ snapshot. snapshot.writer };

    fn len(&self) -> u64 {
        self.left
    }

    fn next(&mut self, count: usize) -> Result<Vec<u8>, AllocError> {
        let piece = self.writer.next(count)?;
        self.left -= piece.len() as u64;
        Ok(piece)
    }
}

/// What a restart leaves of a state has a snapshot of less than 24,100,000 bytes. So a journal whose areas have 32 MiB
/// (33,554,432 bytes) or more is never refused because that snapshot does not fit. The function does nothing.
pub fn restarts_fit_large_areas()
    ensures bound { (s : State) (snapshot : List ℕ) → Spells snapshot (restarted s) → length snapshot < 24100000 }
    ensures never { (content : List ℕ) → (long : IsTooLong content) → long.size < 33554432 }
    ensures never_by_any { (bytes : ℕ) → (long : IsTooLongFor bytes) → long.size < 33554432 }
{}
