//! The sending end of an outbox.

ghost use Rattle.std.specs.Prelude.{◌≡◌, ◌⊎◌, ◌++◌, ◌∷◌, [], OnOk, IfErr, IfSome, true, false, ◌+◌, ◌-◌, ◌≤◌, SomeIff, IfOk};
ghost use Rattle.std.specs.List.{sum};
ghost use Rattle.rtrb.specs.Ring.{SameConsumer, received};
ghost use Rattle.command_core.specs.Outs.{weight_of};
ghost use Rattle.outbox_core.specs.Boxes.{CutsOff, with_given};
ghost use Rattle.outbox_core.specs.Senders.{sender_value};
ghost use Rattle.outbox_core.specs.Weights.{Overfill};

use crate::bell::Bell;
use crate::boxes::Crowding;
use crate::taker::OutTaker;
use command_core::Out;
use rtrb::{Consumer, Producer, PushError, RingBuffer};
use std::alloc::{AllocError, Global};
use std::marker::Model;
use std::mem::replace;
use std::sync::Arc;
use std::sync::atomic::{AtomicU64, Ordering};

/// How many credits there is room for.
pub(crate) const CREDITS: usize = 64;

/// How many bytes a waiting output takes beside its own, for its list of headers.
pub(crate) const OUTPUT_BYTES: u64 = 512;

// The open end; once the box is cut, what is left of it, or nothing if the taker was gone by then.
#[derive(Drop)]
pub(crate) enum BoxEnd {
    Open(OpenEnd),
    Cut(Finished),
    Gone,
}

impl BoxEnd {
    // Drops the end, so that the taker learns of it.
    fn cut(self) -> BoxEnd
        ensures { CutsOff (sender_value self) (sender_value result) }
    {
        match self {
            BoxEnd::Open(open) => match open.finish() {
                Some(finished) => BoxEnd::Cut(finished),
                None => BoxEnd::Gone,
            },
            cut => cut,
        }
    }
}

/// The end of an outbox that gives. An output that the box has no room for cuts it, for good: the taker gets what is in it, and then learns
/// of the cut. Contracts see which box it is, its size, what was given, and whether the box is cut.
///
/// It can move to another thread. If it is dropped, it ends the box and rings.
pub struct OutSender<B: Bell> {
    pub(crate) end: BoxEnd,
    pub(crate) bell: B,
    // The round of outputs in which the box was noted last, so that it is rung once a round.
    pub(crate) noted_in: u64,
    // How the box is emptied while it is over half full.
    pub(crate) crowding: Crowding,
}

impl<B: Bell> Model for OutSender<B> {
    ghost use Rattle.outbox_core.specs.Boxes.{SenderValue};
    ghost use Rattle.outbox_core.specs.Senders.{sender_value};

    ghost Value = { SenderValue };

    ghost view = { λ a. sender_value a.end };
}

impl<B: Bell> OutSender<B> {
    /// Puts an output into the box as the last, and rings. If the box has no room for it, the call hands it back, cuts the box for good,
    /// and rings too. A cut box hands back every output. It takes no memory.
    ///
    /// A box that is not cut takes whatever it has room for beside all that was ever given. It has room again once its taker took some;
    /// tests show this, since the taker may be in another thread. The taker may not have reported all that it took: up to a 32nd of the
    /// box's bytes, and nothing once it found the box empty.
    pub fn give(&mut self, out: Out) -> Result<(), Out>
        ensures given { OnOk result ((self.old.cut ≡ false) × (self.new ≡ with_given self.old out)) }
        ensures full { IfErr result (λ _. (self.old.cut ≡ true) ⊎ Overfill self.old.size (self.old.given ++ out ∷ [])) }
        ensures back { IfErr result (λ same. (same ≡ out) × CutsOff self.old self.new) }
    {
        if self.is_cut() {
            return Err(out);
        }
        let put = self.put(out);
        self.bell.ring();
        put
    }

    // Whether the box is cut.
    pub(crate) fn is_cut(&self) -> bool
        ensures { result ≡ self.now.cut }
    {
        match &self.end {
            BoxEnd::Open(_) => false,
            BoxEnd::Cut(_) | BoxEnd::Gone => true,
        }
    }

    // The same without the ring, which must follow.
    pub(crate) fn put(&mut self, out: Out) -> Result<(), Out>
        ensures given { OnOk result ((self.old.cut ≡ false) × (self.new ≡ with_given self.old out)) }
        ensures full { IfErr result (λ _. (self.old.cut ≡ true) ⊎ Overfill self.old.size (self.old.given ++ out ∷ [])) }
        ensures back { IfErr result (λ same. (same ≡ out) × CutsOff self.old self.new) }
    {
        let BoxEnd::Open(open) = &mut self.end else {
            return Err(out);
        };
        let put = open.put(out);
        self.crowding.give();
        if put.is_err() {
            self.end = replace(&mut self.end, BoxEnd::Gone).cut();
        }
        put
    }

    // Whether less than half of the box's room is left. Nobody waits for a box that is cut.
    pub(crate) fn is_over_half(&mut self) -> bool
        ensures { self.new ≡ self.old }
    {
        let BoxEnd::Open(open) = &mut self.end else {
            return false;
        };
        let room = open.room();
        open.is_over_half(room)
    }

    // Whether the box is worth waiting for: it is over half full, and is being emptied.
    pub(crate) fn is_waited_for(&mut self) -> bool
        ensures { self.new ≡ self.old }
    {
        let BoxEnd::Open(open) = &mut self.end else {
            return false;
        };
        let room = open.room();
        let is_over_half = open.is_over_half(room);
        self.crowding.look(room, is_over_half)
    }

    // Says that a ring will follow in this round. It answers whether this is the first time in the round.
    pub(crate) fn note(&mut self, round: u64) -> bool
        ensures { self.new ≡ self.old }
    {
        if self.noted_in == round {
            return false;
        }
        self.noted_in = round;
        self.bell.note();
        true
    }

    // Rings.
    pub(crate) fn ring(&self) {
        self.bell.ring();
    }

    /// Ends the box and rings, and shows what was given. `None` if the box was cut, or its taker is gone. It takes no memory.
    pub fn finish(self) -> Option<Finished>
        ensures { IfSome result (λ all. (self.cut ≡ false) × (all ≡ record { box = self.box; size = self.size; given = self.given })) }
    {
        let OutSender {
            end,
            bell,
            noted_in: _,
            crowding: _,
        } = self;
        let finished = match end {
            BoxEnd::Open(open) => open.finish(),
            BoxEnd::Cut(_) | BoxEnd::Gone => None,
        };
        bell.ring();
        finished
    }
}

impl<B: Bell> Drop for OutSender<B> {
    fn drop(self) {
        let OutSender {
            end,
            bell,
            noted_in: _,
            crowding: _,
        } = self;
        drop(end);
        bell.ring();
    }
}

/// How many bytes are free once all credits that are there are added, at most `bytes`.
fn collect(credits: &mut Consumer<u64>, free: u64, bytes: u64) -> u64
    requires { free ≤ bytes }
    ensures ring { SameConsumer credits.old credits.new }
    ensures free { (free ≤ result) × (result ≤ bytes) }
    ensures counted { result + sum (received credits.old) ≤ free + sum (received credits.new) }
{
    let mut sum = free;
    for _ in 0..CREDITS {
        let Ok(credit) = credits.pop() else {
            return sum;
        };
        sum = sum.saturating_add(credit).min(bytes);
    }
    sum
}

/// What is left of `free` bytes once an output takes its own, or `None` if it counts for more.
fn without(free: u64, out: &Out) -> Option<u64>
    ensures { SomeIff result (weight_of out.now ≤ free) (free - weight_of out.now) }
{
    free.checked_sub(out.weight()?)
}

/// The sending end of a box that is not cut. Contracts see which box it is of, the box's size, and what was given.
#[derive(Drop)]
pub(crate) struct OpenEnd {
    pub(crate) outputs: Producer<Out>,
    // Through it the taker reports how much it took.
    pub(crate) credits: Consumer<u64>,
    pub(crate) size: BoxSize,
    // How many of the box's bytes are free, as far as this end knows.
    pub(crate) free: u64,
    // How many bytes were given; the taker reads this.
    pub(crate) given: Arc<AtomicU64>,
}

impl Model for OpenEnd {
    ghost use Rattle.outbox_core.specs.Boxes.{GivenValue};
    ghost use Rattle.outbox_core.specs.Ends.{HasFree, open_value};

    ghost Value = { GivenValue };

    ghost view = { λ a. open_value a.outputs a.credits a.size };

    ghost invariant = { λ a. HasFree a.outputs a.credits a.size a.free };
}

impl OpenEnd {
    /// Puts an output in as the last, or hands it back if there is no room for it. It takes no memory.
    pub(crate) fn put(&mut self, out: Out) -> Result<(), Out>
        ensures given { OnOk result (self.new ≡ record self.old { given = self.old.given ++ out ∷ [] }) }
        ensures back { IfErr result (λ same. (same ≡ out) × (self.new ≡ self.old)) }
        ensures full { IfErr result (λ _. Overfill self.old.size (self.old.given ++ out ∷ [])) }
    {
        self.free = collect(&mut self.credits, self.free, self.size.bytes);
        let Some(left) = without(self.free, &out) else {
            return Err(out);
        };
        match self.outputs.push(out) {
            Ok(()) => {
                let kept = (self.free - left).saturating_add(OUTPUT_BYTES);
                self.given.fetch_add(kept, Ordering::SeqCst);
                self.free = left;
                Ok(())
            }
            Err(PushError::Full(out)) => Err(out),
        }
    }

    /// For how many outputs there is room now.
    pub(crate) fn room(&mut self) -> usize
        ensures { self.new ≡ self.old }
    {
        self.outputs.slots()
    }

    /// Whether less than half of the box's room is left, in outputs or in bytes, if it has room for so many outputs.
    pub(crate) fn is_over_half(&mut self, room: usize) -> bool
        ensures { self.new ≡ self.old }
    {
        self.free = collect(&mut self.credits, self.free, self.size.bytes);
        room < self.size.outputs / 2 || self.free < self.size.bytes / 2
    }

    /// Ends the box, and shows what was given; `None` if the taker is gone.
    pub(crate) fn finish(self) -> Option<Finished>
        ensures { IfSome result (λ all. all ≡ self) }
    {
        let OpenEnd {
            outputs,
            credits,
            size,
            free: _,
            given,
        } = self;
        drop(given);
        let Some(outputs) = outputs.finish() else {
            return None;
        };
        Some(Finished {
            outputs,
            credits,
            size,
        })
    }
}

/// What is left of a sending end that has finished. It can move to the taker's thread. Contracts see which box it is of, the box's size,
/// and all that was given.
#[derive(Drop)]
pub struct Finished {
    pub(crate) outputs: rtrb::Finished<Out>,
    pub(crate) credits: Consumer<u64>,
    pub(crate) size: BoxSize,
}

impl Model for Finished {
    ghost use Rattle.outbox_core.specs.Boxes.{GivenValue};
    ghost use Rattle.outbox_core.specs.Ends.{HadRoom, finished_value};

    ghost Value = { GivenValue };

    ghost view = { λ a. finished_value a.outputs a.credits a.size };

    ghost invariant = { λ a. HadRoom a.outputs a.credits a.size };
}

/// A new box, open and empty, of that size: the end that gives, which rings that bell, and the end that takes. It takes the memory for all
/// its places at once; no other call of a box takes memory.
pub fn outbox<B: Bell>(
    alloc: Global,
    bell: B,
    size: BoxSize,
) -> Result<(OutSender<B>, OutTaker), AllocError>
    ensures one_box { IfOk result (λ ends. ends.0.box ≡ ends.1.box) }
    ensures size { IfOk result (λ ends. (ends.0.size ≡ size) × (ends.1.size ≡ size)) }
    ensures sender { IfOk result (λ ends. (ends.0.given ≡ []) × (ends.0.cut ≡ false)) }
    ensures taker { IfOk result (λ ends. (ends.1.taken ≡ []) × (ends.1.seen ≡ [])) }
{
    let (outputs, taken) = RingBuffer::new(alloc, size.outputs)?;
    let (told, credits) = RingBuffer::new(alloc, CREDITS)?;
    let given = Arc::new(alloc, AtomicU64::new(0))?;
    let seen: Arc<AtomicU64> = given.clone()?;
    let open = OpenEnd {
        outputs,
        credits,
        size,
        free: size.bytes,
        given,
    };
    let sender = OutSender {
        end: BoxEnd::Open(open),
        bell,
        noted_in: 0,
        crowding: Crowding::none(),
    };
    let taker = OutTaker {
        outputs: taken,
        credits: told,
        owed: 0,
        bytes: size.bytes,
        given: seen,
        took: 0,
    };
    Ok((sender, taker))
}

/// How much may wait in a box.
#[derive(Clone, Copy)]
pub struct BoxSize {
    /// How many outputs.
    pub outputs: usize,
    /// How many bytes of outputs. An output counts for those of its body and of its headers' names and values.
    pub bytes: u64,
}

impl BoxSize {
    /// What a server's box has room for: all that its broker can hold, which is 4,096 messages and 16 MiB, and 512 more outputs and 16 MiB
    /// more.
    pub const SERVER: BoxSize = BoxSize {
        outputs: 4_608,
        bytes: 33_554_432,
    };
}
