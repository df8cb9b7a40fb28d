//! Messages that wait.

ghost use Rattle.std.specs.Prelude.{◌≡◌, ◌==◌, ◌≤◌, [], OnOk, OnErr, drop, length, option_map, slice_get, ◌+◌, ◌++◌, ◌∷◌, ◌||◌, List, ℕ, false};
ghost use Rattle.std.specs.List.{insert, sum_by};
ghost use Rattle.std.specs.declared.cmp.Ordering.TheVariants.{Equal};
ghost use Rattle.std.specs.Cmp.{IsTotalOrder};
ghost use Rattle.line_core.specs.declared.message.Message.{Message};
ghost use Rattle.line_core.specs.Lines.{IsRising, first_of, inserted, IsOver, by_number, has_number, is_same};
ghost use Rattle.line_core.specs.declared.message.MessageNumber.{MessageNumber};

use crate::message::{Message, MessageNumber};
use std::alloc::{AllocError, Global};
use std::collections::VecDeque;
use std::marker::Model;

/// The messages that wait in one place, by rising number: a message goes after those of smaller numbers and of its own.
/// Contracts see it as the list of them.
#[derive(Drop)]
pub struct Line {
    messages: VecDeque<Message>,
}

impl Model for Line {
    ghost use Rattle.std.specs.Prelude.{List};
    ghost use Rattle.line_core.specs.declared.message.Message.{Message};

    ghost Value = { List Message };

    ghost use Rattle.line_core.specs.Lines.{IsRising};

    ghost view = { λ a. a.messages.items };

    ghost invariant = { λ a. IsRising a.messages.items };
}

impl Line {
    /// An empty line. No memory is taken.
    pub fn new(alloc: Global) -> Line
        ensures { result ≡ [] }
    {
        Line {
            messages: VecDeque::new(alloc),
        }
    }

    /// A line of these messages, which stand by rising number and move: no memory is taken.
    pub fn of(messages: Vec<Message>) -> Line
        requires { IsRising messages.items }
        ensures { result ≡ messages.items }
    {
        Line {
            messages: VecDeque::from(messages),
        }
    }

    /// How many messages wait.
    pub fn len(&self) -> usize
        ensures count { result ≡ length self.now }
        ensures rising { IsRising self.now }
    {
        self.messages.len()
    }

    /// Whether no message waits.
    pub fn is_empty(&self) -> bool
        ensures empty { result ≡ (length self.now == 0) }
        ensures rising { IsRising self.now }
    {
        self.messages.is_empty()
    }

    /// The message in that place, if there is one; the one that waits longest has the place 0.
    pub fn get(&self, at: usize) -> Option<&Message>
        ensures { option_map (λ m. m.now) result ≡ slice_get self.now at }
    {
        self.messages.get(at)
    }

    /// The message that waits longest, if there is one.
    pub fn first(&self) -> Option<&Message>
        ensures first { option_map (λ m. m.now) result ≡ first_of self.now }
        ensures rising { IsRising self.now }
    {
        self.messages.front()
    }

    /// Takes out the message that waits longest, if there is one. No memory is taken.
    pub fn take(&mut self) -> Option<Message>
        ensures first { result ≡ first_of self.old }
        ensures rest { self.new ≡ drop 1 self.old }
        ensures rising { IsRising self.old }
    {
        self.messages.pop_front()
    }

    /// Where a message of that number goes, looked for from the front.
    fn place_from_front(&self, number: &MessageNumber) -> usize
        ensures bound { result ≤ length self.now }
        ensures place { (m : Message) → m.number ≡ number.now → insert self.now result m ≡ inserted m self.now }
    {
        let count = self.messages.len();
        for place in 0..count {
            if *number < self.messages[place].number {
                return place;
            }
        }
        count
    }

    /// Where a message of that number goes: last if no message of a greater number waits, which is seen at once. Else it is
    /// looked for from the front, where messages were taken out.
    fn place_of(&self, number: &MessageNumber) -> usize
        ensures bound { result ≤ length self.now }
        ensures place { (m : Message) → m.number ≡ number.now → insert self.now result m ≡ inserted m self.now }
    {
        let count = self.messages.len();
        if count > 0 && *number < self.messages[count - 1].number {
            return self.place_from_front(number);
        }
        count
    }

    /// Puts a message in its place, after those of smaller numbers and of its own. A new message, whose number is greater
    /// than the others', goes last at once. One that comes back is looked for from the front, so its place costs as much as
    /// messages before it wait. If memory is refused, the line is as it was, and the message is dropped.
    pub fn put(&mut self, message: Message) -> Result<(), AllocError>
        ensures ok { OnOk result (self.new ≡ inserted message self.old) }
        ensures same { OnErr result (self.new ≡ self.old) }
    {
        let place = self.place_of(&message.number);
        self.messages.insert(place, message)?;
        Ok(())
    }

    /// Puts a message back in its place. The place is looked for from the front, where messages were taken out. If memory is
    /// refused, the line is as it was, and the message is dropped.
    pub fn put_back(&mut self, message: Message) -> Result<(), AllocError>
        ensures ok { OnOk result (self.new ≡ inserted message self.old) }
        ensures same { OnErr result (self.new ≡ self.old) }
    {
        let place = self.place_from_front(&message.number);
        self.messages.insert(place, message)?;
        Ok(())
    }
}

/// Of two numbers one comes first, or they are the same.
pub fn numbers_are_in_order()
    ensures total { IsTotalOrder by_number }
    ensures same { (a b : MessageNumber) → by_number a b ≡ Equal → a ≡ b }
{}

/// A line with one more message still rises, and has one more number. A message of the greatest number goes last.
pub fn inserting_keeps_order()
    ensures rising { (m : Message) (line : List Message)
        → IsRising line → IsRising (inserted m line) }
    ensures numbers { (m : Message) (line : List Message) (number : MessageNumber)
        → has_number number (inserted m line) ≡ (is_same number m.number || has_number number line) }
    ensures last { (m : Message) (line : List Message)
        → IsOver m.number line → inserted m line ≡ line ++ m ∷ [] }
{}

/// The first message of a line, put back among the others, of which none has its number, gives the line again.
pub fn what_was_taken_goes_back()
    ensures { (m : Message) (rest : List Message)
        → IsRising (m ∷ rest) → has_number m.number rest ≡ false → inserted m rest ≡ m ∷ rest }
{}

/// Two messages of different numbers, put back in either order, give the same line.
pub fn order_of_return_does_not_matter()
    ensures { (a b : Message) (line : List Message) → is_same a.number b.number ≡ false
        → inserted a (inserted b line) ≡ inserted b (inserted a line) }
{}

/// A message that is put back counts once, and so does whatever is summed over the messages.
pub fn inserting_adds_one_message()
    ensures count { (m : Message) (line : List Message)
        → length (inserted m line) ≡ length line + 1 }
    ensures sum { (f : Message → ℕ) (m : Message) (line : List Message)
        → sum_by f (inserted m line) ≡ sum_by f line + f m }
{}
