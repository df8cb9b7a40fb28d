//! The taking end of an outbox.

ghost use Rattle.std.specs.Prelude.{◌≡◌, ◌+◌, ◌≤◌, ◌++◌, length, false};
ghost use Rattle.command_core.specs.Outs.{weight_of};
ghost use Rattle.outbox_core.specs.Takes.{Takes};
ghost use Rattle.outbox_core.specs.Weights.{Fits, most_waiting};

use crate::bell::Bell;
use crate::sender::{BoxEnd, Finished, OUTPUT_BYTES, OutSender};
use command_core::Out;
use rtrb::{Consumer, Producer};
use std::marker::Model;
use std::sync::Arc;
use std::sync::atomic::{AtomicU64, Ordering};

// Once it is owed this part of a box's bytes, a taker reports what it took.
const SHARES: u64 = 32;

/// What a taker got.
#[derive(Drop)]
pub enum Taken {
    /// The next output.
    Item(Out),
    /// Nothing waits now; more may come.
    Empty,
    /// Nothing waits, and the sending end is gone: nothing more comes.
    Cut,
}

/// The end of an outbox that takes. It can move to another thread. Contracts see which box it is, its size, what was taken, and what was
/// seen to wait.
#[derive(Drop)]
pub struct OutTaker {
    pub(crate) outputs: Consumer<Out>,
    // Through it the sending end learns how much was taken.
    pub(crate) credits: Producer<u64>,
    // The bytes of what was taken that were not reported to the sending end yet.
    pub(crate) owed: u64,
    // How many bytes the box has room for.
    pub(crate) bytes: u64,
    // How many bytes were given in all, and how many of them were taken.
    pub(crate) given: Arc<AtomicU64>,
    pub(crate) took: u64,
}

impl Model for OutTaker {
    ghost use Rattle.outbox_core.specs.Boxes.{TakerValue};
    ghost use Rattle.outbox_core.specs.Ends.{Owes, taker_value};

    ghost Value = { TakerValue };

    ghost view = { λ a. taker_value a.outputs a.credits a.bytes };

    ghost invariant = { λ a. Owes a.outputs a.credits a.owed };
}

// What is owed once an output was taken.
fn owed_with(owed: u64, out: &Out) -> u64
    ensures { (owed ≤ result) × (result ≤ owed + weight_of out.now) }
{
    match out.weight() {
        Some(weight) => owed.saturating_add(weight),
        None => u64::MAX,
    }
}

impl OutTaker {
    /// The next output, in the order given. What waits comes before `Cut`. It takes no memory.
    ///
    /// `Cut` comes only if the sending end is gone, and `Empty` only if it is not. Tests show this: the call looks whether the end is gone
    /// before it looks for an output, and no clause of the ring below speaks of that first look.
    pub fn next(&mut self) -> Taken
        ensures { Takes self.old result self.new }
    {
        let gone = self.outputs.is_abandoned();
        let Ok(out) = self.outputs.pop() else {
            self.tell_from(1);
            return if gone { Taken::Cut } else { Taken::Empty };
        };
        let before = self.owed;
        self.owed = owed_with(self.owed, &out);
        let kept = (self.owed - before).saturating_add(OUTPUT_BYTES);
        self.took = self.took.saturating_add(kept);
        self.tell_from(self.bytes / SHARES + 1);
        Taken::Item(out)
    }

    /// How many bytes the waiting outputs take: those that the box counts, and 512 more for each. An output that is just being given may
    /// not be counted yet. It is never more than the box has room for. No clause says more, since the sending end counts what it gives in a
    /// thread of its own.
    pub fn waiting(&self) -> u64
        ensures { result ≤ most_waiting self.now.size }
    {
        let counted = self.given.load(Ordering::SeqCst);
        counted.saturating_sub(self.took).min(self.most())
    }

    // How many bytes as many outputs take as the box has room for.
    fn most(&self) -> u64
        ensures { result ≤ most_waiting self.now.size }
    {
        let places = self.outputs.capacity() as u64;
        self.bytes
            .saturating_add(OUTPUT_BYTES.saturating_mul(places))
    }

    // Reports to the sending end what was taken, if that is at least `least` bytes and there is room for the report.
    fn tell_from(&mut self, least: u64)
        ensures { self.new ≡ self.old }
    {
        let owed = self.owed;
        if owed >= least && self.credits.push(owed).is_ok() {
            self.owed = 0;
        }
    }

    /// How many outputs wait, seen beside the sending end of the same box, which is not cut. What was taken, and then what waits, is what
    /// was given. The box has room for what waits. It takes no memory.
    pub fn beside<B: Bell>(&mut self, sender: &mut OutSender<B>) -> usize
        requires one_box { sender.old.box ≡ self.old.box }
        requires whole { sender.old.cut ≡ false }
        ensures all { self.new.taken ++ self.new.seen ≡ sender.new.given }
        ensures waits { result ≡ length self.new.seen }
        ensures fits { Fits sender.old.size self.new.seen }
        ensures same { self.new ≡ record self.old { seen = self.new.seen } }
        ensures sender { sender.new ≡ sender.old }
    {
        match &mut sender.end {
            BoxEnd::Open(open) => {
                open.credits.slots_beside(&mut self.credits);
                self.outputs.slots_beside(&mut open.outputs)
            }
            BoxEnd::Cut(_) | BoxEnd::Gone => unreachable!(),
        }
    }

    /// The same as `beside`, once the sending end of the same box has finished.
    pub fn after(&mut self, finished: Finished) -> usize
        requires one_box { finished.box ≡ self.old.box }
        ensures all { self.new.taken ++ self.new.seen ≡ finished.given }
        ensures waits { result ≡ length self.new.seen }
        ensures fits { Fits finished.size self.new.seen }
        ensures same { self.new ≡ record self.old { seen = self.new.seen } }
    {
        let mut finished = finished;
        finished.credits.slots_beside(&mut self.credits);
        self.outputs.slots_after(&mut finished.outputs)
    }
}
