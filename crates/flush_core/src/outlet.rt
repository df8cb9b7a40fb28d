//! Where outputs go, and how many were published.

ghost use Rattle.std.specs.Prelude.{◌≡◌, ◌<◌, ◌≤◌, ◌+◌, ◌++◌, [], OnOk, length, vec_capacity};
ghost use Rattle.outbox_core.specs.Giving.{AreGiven, unboxed, without};
ghost use Rattle.flush_core.specs.FlusherCalls.{HasRoom};
ghost use Rattle.flush_core.specs.Flusher.{AreUnder};

use claim_core::FlushSeat;
use command_core::Out;
use outbox_core::{Bell, Boxes, OutSender};
use std::alloc::{AllocError, Global};
use std::mem::{replace, swap};
use std::sync::Arc;
use work_share::Audiences;

/// How many codes ERRORs have, E1 to E20, with 0, which none has.
pub const ERRORS: usize = 21;

/// The boxes of sessions, and the outputs on their way there.
#[derive(Drop)]
pub(crate) struct Outlet<B: Bell> {
    // The outboxes of sessions; the sessions that ended and whose last outputs wait for the mark; and those whose last
    // outputs are given, so that their boxes can go.
    pub(crate) boxes: Boxes<B>,
    pub(crate) ended: Vec<u64>,
    pub(crate) past: Vec<u64>,
    // The outputs that wait for the mark, and those under it that went to no box.
    pub(crate) waiting: Vec<Out>,
    pub(crate) left: Vec<Out>,
    // Room for what goes to no box, for as long as a call of `give` lasts.
    pub(crate) spare: Vec<Out>,
    pub(crate) tally: Tally,
    // What is told of topics, if somebody asked for that.
    pub(crate) audiences: Option<Arc<Audiences>>,
}

impl<B: Bell> Outlet<B> {
    // It takes no memory.
    pub(crate) fn new(alloc: Global) -> Outlet<B>
        ensures boxes { result.boxes ≡ [] }
        ensures ended { (result.ended.items ≡ []) × (result.past.items ≡ []) }
        ensures outs { (result.waiting.items ≡ []) × (result.left.items ≡ []) × (result.spare.items ≡ []) }
    {
        Outlet {
            boxes: Boxes::new(alloc),
            ended: Vec::new(alloc),
            past: Vec::new(alloc),
            waiting: Vec::new(alloc),
            left: Vec::new(alloc),
            spare: Vec::new(alloc),
            tally: Tally::none(),
            audiences: None,
        }
    }

    // Makes the room that `give` needs.
    pub(crate) fn make_room(&mut self) -> Result<(), AllocError>
        requires none { length self.old.spare.items ≡ 0 }
        ensures boxes { self.new.boxes ≡ self.old.boxes }
        ensures ended { (self.new.ended ≡ self.old.ended) × (self.new.past ≡ self.old.past) }
        ensures outs { (self.new.waiting ≡ self.old.waiting) × (self.new.left.items ≡ self.old.left.items) × (self.new.spare.items ≡ self.old.spare.items) }
        ensures left { OnOk result (0 < length self.new.left.items → length self.new.left.items + length self.new.waiting.items ≤ vec_capacity self.new.left) }
        ensures spare { OnOk result (length self.new.waiting.items ≤ vec_capacity self.new.spare) }
    {
        self.spare.reserve(self.waiting.len())?;
        if !self.left.is_empty() {
            self.left.reserve(self.waiting.len())?;
        }
        Ok(())
    }

    // Lets go of the boxes of sessions whose last outputs are given, and gives what waits to the boxes of its sessions. What goes to no box
    // may be handed out, after what could be handed out already.
    pub(crate) fn give(&mut self, seat: &FlushSeat<OutSender<B>>)
        requires under { AreUnder seat.now.published self.old.waiting.items }
        requires room { HasRoom self.old.waiting self.old.left self.old.spare }
        ensures given { AreGiven self.old.waiting.items (without self.old.boxes self.old.past.items) self.new.boxes }
        ensures ended { (self.new.ended.items ≡ []) × (self.new.past.items ≡ self.old.ended.items) }
        ensures left { self.new.left.items ≡ self.old.left.items ++ unboxed (without self.old.boxes self.old.past.items) self.old.waiting.items }
        ensures none { (self.new.waiting.items ≡ []) × (self.new.spare.items ≡ []) }
    {
        self.let_past_go();
        swap(&mut self.past, &mut self.ended);
        self.give_portion(seat);
    }

    // Lets go of the boxes of sessions whose last outputs are given.
    pub(crate) fn let_past_go(&mut self)
        ensures boxes { self.new.boxes ≡ without self.old.boxes self.old.past.items }
        ensures past { self.new.past.items ≡ [] }
        ensures ended { self.new.ended ≡ self.old.ended }
        ensures outs { (self.new.waiting ≡ self.old.waiting) × (self.new.left ≡ self.old.left) × (self.new.spare ≡ self.old.spare) }
    {
        self.boxes.let_go(&self.past);
        self.past.clear();
    }

    // Gives what waits to the boxes of its sessions, as they stand.
    //
    // All that waits is under the mark that the seat has published. A box rings when it is given something, and a taker that then looks
    // finds that its outputs may leave.
    pub(crate) fn give_portion(&mut self, seat: &FlushSeat<OutSender<B>>)
        requires under { AreUnder seat.now.published self.old.waiting.items }
        requires room { HasRoom self.old.waiting self.old.left self.old.spare }
        ensures given { AreGiven self.old.waiting.items self.old.boxes self.new.boxes }
        ensures ended { (self.new.ended ≡ self.old.ended) × (self.new.past ≡ self.old.past) }
        ensures left { self.new.left.items ≡ self.old.left.items ++ unboxed self.old.boxes self.old.waiting.items }
        ensures none { (self.new.waiting.items ≡ []) × (self.new.spare.items ≡ []) }
    {
        give_waiting(&mut self.boxes, &mut self.waiting, &mut self.spare);
        leave(&mut self.left, &mut self.spare);
    }
}

// Gives what waits to the boxes of its sessions. What goes to no box goes into the room that was made for it.
fn give_waiting<B: Bell>(boxes: &mut Boxes<B>, waiting: &mut Vec<Out>, spare: &mut Vec<Out>)
    requires none { length spare.old.items ≡ 0 }
    requires room { length waiting.old.items ≤ vec_capacity spare.old }
    ensures given { AreGiven waiting.old.items boxes.old boxes.new }
    ensures unboxed { spare.new.items ≡ unboxed boxes.old waiting.old.items }
    ensures waiting { waiting.new.items ≡ [] }
{
    let alloc = *waiting.allocator();
    let outs = replace(waiting, Vec::new(alloc));
    boxes.give_all(outs, spare);
}

// What went to no box may be handed out, after what could be handed out already.
fn leave<T>(left: &mut Vec<T>, spare: &mut Vec<T>)
    requires room { 0 < length left.old.items → length left.old.items + length spare.old.items ≤ vec_capacity left.old }
    ensures left { left.new.items ≡ left.old.items ++ spare.old.items }
    ensures none { spare.new.items ≡ [] }
{
    if left.is_empty() {
        swap(left, spare);
    } else {
        let _ = left.append(spare);
    }
}

/// How many outputs were published since the flusher was made, for reports to an operator. No clause speaks of these numbers.
#[derive(Clone, Copy)]
pub struct Tally {
    /// All outputs: each is a frame.
    pub frames: u64,
    /// Those that are ERRORs.
    pub refused: u64,
    /// The ERRORs of each code, at its number.
    pub errors: [u64; ERRORS],
}

impl Tally {
    // Nothing is published yet.
    pub(crate) fn none() -> Tally {
        Tally {
            frames: 0,
            refused: 0,
            errors: [0; ERRORS],
        }
    }

    // Counts these as published.
    pub(crate) fn add(&mut self, outs: &[Out]) {
        for out in outs {
            self.frames = self.frames.saturating_add(1);
            if let Some(message) = out.error() {
                self.refused = self.refused.saturating_add(1);
                self.count(code_of(message));
            }
        }
    }

    fn count(&mut self, code: usize) {
        if code < ERRORS {
            self.errors[code] = self.errors[code].saturating_add(1);
        }
    }
}

/// The number of the code that an ERROR's message begins with, as 12 of `E12 no room`; 0 if it has none.
pub fn code_of(message: &str) -> usize {
    let code = match message.split_once(' ') {
        Some((code, _words)) => code,
        None => message,
    };
    match code.strip_prefix("E") {
        Some(digits) => digits.parse::<usize>().unwrap_or(0),
        None => 0,
    }
}
