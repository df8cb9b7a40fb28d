//! Boxes by session.

ghost use Rattle.std.specs.Prelude.{◌≡◌, ◌==◌, ◌+◌, ◌<◌, ◌≤◌, [], ◌∷◌, ◌++◌, OnOk, OnErr, length, vec_capacity, ◌-◌};
ghost use Rattle.outbox_core.specs.Giving.{AreGiven, IsGiven, unboxed, with_box, without};
ghost use Rattle.outbox_core.specs.Crowdings.{looked};

use crate::bell::Bell;
use crate::sender::OutSender;
use command_core::Out;
use std::alloc::{AllocError, Global};
use std::collections::BTreeMap;
use std::marker::Model;

/// How often a box is waited for at most, from when it is over half full until it is not.
const LOOKS: u32 = 50;

/// How often it is looked at while its taker takes nothing: a thread that wants a processor may have to wait for so many milliseconds.
const PATIENCE: u32 = 20;

// The boxes that were given something and have not rung yet.
#[derive(Drop)]
struct Unrung {
    // Their sessions. There is room for each session that has a box.
    sessions: Vec<u64>,
    // The sessions whose boxes were over half full when they were noted. There is as much room.
    crowded: Vec<u64>,
    // Which list of outputs is given, counted from 1.
    round: u64,
}

/// The sending ends of the outboxes of sessions. Contracts see each with the number of its session, by rising number.
#[derive(Drop)]
pub struct Boxes<B: Bell> {
    all: BTreeMap<u64, OutSender<B>>,
    unrung: Unrung,
}

impl<B: Bell> Model for Boxes<B> {
    ghost use Rattle.outbox_core.specs.Giving.{Kept};

    ghost Value = { Kept };

    ghost view = { λ a. a.all.entries };
}

// Makes room to note as many boxes as there are, and one more.
fn make_room(unrung: &mut Unrung, boxes: usize) -> Result<(), AllocError> {
    unrung.crowded.reserve(boxes.saturating_add(1))?;
    unrung.sessions.reserve(boxes.saturating_add(1))
}

// Notes that a box is over half full, if it is.
fn note_crowded<B: Bell>(sender: &mut OutSender<B>, session: u64, crowded: &mut Vec<u64>)
    ensures { sender.new ≡ sender.old }
{
    if sender.is_over_half() && crowded.len() < crowded.capacity() {
        crowded.push_reserved(session);
    }
}

// Gives an output to the box of a session, and notes that the box is to be rung, unless it was cut before. A box that can't be noted is
// rung at once.
fn give_noting<B: Bell>(sender: &mut OutSender<B>, session: u64, out: Out, unrung: &mut Unrung)
    ensures { IsGiven (out ∷ []) sender.old sender.new }
{
    let was_cut = sender.is_cut();
    let _ = sender.put(out);
    if was_cut {
        return;
    }
    if !sender.note(unrung.round) {
        return;
    }
    note_crowded(sender, session, &mut unrung.crowded);
    if unrung.sessions.len() < unrung.sessions.capacity() {
        unrung.sessions.push_reserved(session);
    } else {
        sender.ring();
    }
}

// Rings the boxes of these sessions.
fn ring_each<B: Bell>(all: &BTreeMap<u64, OutSender<B>>, sessions: &[u64]) {
    for session in sessions {
        if let Some(sender) = all.get(session) {
            sender.ring();
        }
    }
}

// Whether the box of that session is worth waiting for.
fn is_waited_for<B: Bell>(all: &mut BTreeMap<u64, OutSender<B>>, session: u64) -> bool
    ensures { all.new.entries ≡ all.old.entries }
{
    match all.get_mut(&session) {
        Some(sender) => sender.is_waited_for(),
        None => false,
    }
}

// Whether any box of these sessions is. Each of them is looked at.
fn is_any_waited_for<B: Bell>(all: &mut BTreeMap<u64, OutSender<B>>, sessions: &[u64]) -> bool
    ensures { all.new.entries ≡ all.old.entries }
{
    let mut is_any = false;
    for session in sessions {
        let is_one = is_waited_for(all, *session);
        is_any = is_any || is_one;
    }
    is_any
}

impl<B: Bell> Boxes<B> {
    /// No boxes yet. It takes no memory.
    pub fn new(alloc: Global) -> Boxes<B>
        ensures { result ≡ [] }
    {
        Boxes {
            all: BTreeMap::new(alloc),
            unrung: Unrung {
                sessions: Vec::new(alloc),
                crowded: Vec::new(alloc),
                round: 0,
            },
        }
    }

    /// Whether no session has a box.
    pub fn is_empty(&self) -> bool
        ensures { result ≡ (length self.now == 0) }
    {
        self.all.is_empty()
    }

    /// Keeps the box of a session, in place of one that it had. If memory is refused, the new box is let go, and nothing changes.
    pub fn keep(&mut self, session: u64, sender: OutSender<B>) -> Result<(), AllocError>
        ensures kept { OnOk result (self.new ≡ with_box self.old session sender) }
        ensures refused { OnErr result (self.new ≡ self.old) }
    {
        if let Err(refused) = make_room(&mut self.unrung, self.all.len()) {
            drop(sender);
            return Err(refused);
        }
        self.all.insert(session, sender)?;
        Ok(())
    }

    // Gives an output to the box of its session, or leaves it if there is none.
    fn give(&mut self, out: Out, left: &mut Vec<Out>)
        requires room { length left.old.items < vec_capacity left.old }
        ensures given { AreGiven (out ∷ []) self.old self.new }
        ensures left { left.new.items ≡ left.old.items ++ unboxed self.old (out ∷ []) }
        ensures room { vec_capacity left.new ≡ vec_capacity left.old }
    {
        let session = out.session();
        let Some(sender) = self.all.get_mut(&session) else {
            left.push_reserved(out);
            return;
        };
        give_noting(sender, session, out, &mut self.unrung);
    }

    /// Gives each output to the box of its session, in their order. Outputs for a session without a box go to `left`, after what is there.
    /// What a full or cut box hands back is let go. It takes no memory.
    ///
    /// Each box that was given something, or was cut by it, is rung once, after all boxes have their outputs.
    pub fn give_all(&mut self, outs: Vec<Out>, left: &mut Vec<Out>)
        requires room { length left.old.items + length outs.items ≤ vec_capacity left.old }
        ensures given { AreGiven outs.items self.old self.new }
        ensures left { left.new.items ≡ left.old.items ++ unboxed self.old outs.items }
        ensures room { vec_capacity left.new ≡ vec_capacity left.old }
    {
        self.begin_round();
        self.give_each(outs, left);
        self.ring_noted();
    }

    // From here on no box is noted.
    fn begin_round(&mut self)
        ensures { self.new ≡ self.old }
    {
        self.unrung.round = self.unrung.round.wrapping_add(1);
        self.unrung.crowded.clear();
    }

    // Gives each output, and notes the boxes that are to be rung.
    fn give_each(&mut self, outs: Vec<Out>, left: &mut Vec<Out>)
        requires room { length left.old.items + length outs.items ≤ vec_capacity left.old }
        ensures given { AreGiven outs.items self.old self.new }
        ensures left { left.new.items ≡ left.old.items ++ unboxed self.old outs.items }
        ensures room { vec_capacity left.new ≡ vec_capacity left.old }
    {
        for out in outs {
            self.give(out, left);
        }
    }

    // Rings the boxes that are noted.
    fn ring_noted(&mut self)
        ensures { self.new ≡ self.old }
    {
        ring_each(&self.all, &self.unrung.sessions);
        self.unrung.sessions.clear();
    }

    /// Whether a box that was given something by the last call of `give_all` is worth waiting for: it is over half full, and is
    /// being emptied. A box is waited for 50 times at most, until it is less than half full again.
    pub fn are_waited_for(&mut self) -> bool
        ensures { self.new ≡ self.old }
    {
        is_any_waited_for(&mut self.all, self.unrung.crowded.as_slice())
    }

    /// Lets go of the boxes of these sessions, if they have one. It takes no memory.
    pub fn let_go(&mut self, sessions: &[u64])
        ensures { self.new ≡ without self.old sessions.now }
    {
        for session in sessions {
            let _ = self.all.remove(session);
        }
    }
}

/// How a box that is over half full is emptied, as far as its giver has looked.
#[derive(Clone, Copy)]
pub(crate) struct Crowding {
    /// How often it may still be waited for.
    pub looks: u32,
    /// How many more looks may find that nothing was taken.
    pub patience: u32,
    /// For how many outputs it had room at the last look, less those that were given since.
    pub room: usize,
}

impl Crowding {
    /// Of a box that is not over half full.
    pub fn none() -> Crowding
        ensures { result ≡ record { looks = 50; patience = 20; room = 0 } }
    {
        Crowding {
            looks: LOOKS,
            patience: PATIENCE,
            room: 0,
        }
    }

    /// One more output was given.
    pub fn give(&mut self)
        ensures { self.new ≡ record self.old { room = self.old.room - 1 } }
    {
        self.room = self.room.saturating_sub(1);
    }

    /// Looks at the box, which has room for so many outputs, and may be over half full. It answers whether the box is worth
    /// waiting for: its taker took something since the last look, or has not been idle for too many looks.
    pub fn look(&mut self, room: usize, is_over_half: bool) -> bool
        ensures { (result, self.new) ≡ looked self.old room is_over_half }
    {
        if !is_over_half {
            *self = Crowding::none();
            return false;
        }
        if self.looks == 0 {
            return false;
        }
        let is_emptied = self.room < room;
        self.room = room;
        self.patience = if is_emptied {
            PATIENCE
        } else {
            self.patience.saturating_sub(1)
        };
        if self.patience == 0 {
            return false;
        }
        self.looks -= 1;
        true
    }
}
