//! The lines that stay when a subscription ends.

ghost use Rattle.std.specs.Prelude.{◌≡◌, ◌+◌, [], IfOk, None, OnErr, OnOk, Some, drop, false, not, ℕ, if◌then◌else◌};
ghost use Rattle.std.specs.BTreeMap.{is_at, insert_entry};
ghost use Rattle.std.specs.List.{sum_by};
ghost use Rattle.std.specs.List.Sorted.{IsStrictlySortedBy};
ghost use Rattle.std.specs.Map.{keys_of, remove_entry, lookup};
ghost use Rattle.line_core.specs.declared.message.Message.{Message};
ghost use Rattle.line_core.specs.Lines.{first_of, inserted};
ghost use Rattle.broker_state.specs.Lists.{is_none};
ghost use Rattle.broker_state.specs.Names.{name_cmp, text_cmp, AreSame};
ghost use Rattle.broker_state.specs.States.{weight_of_subscription};
ghost use Rattle.broker_state.specs.Waiting.{is_own, left_shared, line_at, line_for, returned, weight_of_shared, with_line, with_message, weight_of_lines, with_deliveries};
ghost use Rattle.broker_tables.specs.Returns.{HandFirst, KeepsWeight, LoseFirst, returned_to};

use broker_state::{DurableName, Subscription, has_waiting, stand_in_order};
use command_core::Dest;
use line_core::{Line, Message};
use std::alloc::{AllocError, Global};
use std::collections::BTreeMap;
use std::marker::Model;

/// The lines that stay when a subscription ends: those of durable names, and those of queues. Contracts see both lists of
/// lines by rising key.
#[derive(Drop)]
pub struct SharedLines {
    names: BTreeMap<DurableName, Line>,
    queues: BTreeMap<Dest, Line>,
}

impl Model for SharedLines {
    ghost use Rattle.broker_state.specs.Waiting.{Shared};

    ghost Value = { Shared };

    ghost view = { λ a. record { names = a.names.entries; queues = a.queues.entries } };
}

/// What vanishes with a subscription that ends: what waited in its own line, and what it has not acknowledged of it.
#[derive(Drop)]
pub(crate) struct Gone {
    pub line: Line,
    pub deliveries: Vec<(u64, Message)>,
}

/// Takes the least message out of the line of that queue.
fn take_from_queue(queues: &mut BTreeMap<Dest, Line>, destination: &Dest) -> Option<Message>
    ensures taken { result ≡ first_of (line_at text_cmp destination.now queues.old.entries) }
    ensures rest { queues.new.entries
        ≡ with_line text_cmp destination.now (drop 1 (line_at text_cmp destination.now queues.old.entries)) queues.old.entries }
    ensures weight { LoseFirst queues.old.entries queues.new.entries (line_at text_cmp destination.now queues.old.entries) }
{
    take(queues, destination)
}

impl SharedLines {
    /// No lines. No memory is taken.
    pub(crate) fn new(alloc: Global) -> SharedLines
        ensures { result ≡ record { names = []; queues = [] } }
    {
        SharedLines {
            names: BTreeMap::new(alloc),
            queues: BTreeMap::new(alloc),
        }
    }

    /// These lines of durable names and of queues. No memory is taken.
    pub(crate) fn of(
        names: BTreeMap<DurableName, Line>,
        queues: BTreeMap<Dest, Line>,
    ) -> SharedLines
        ensures { result ≡ record { names = names.entries; queues = queues.entries } }
    {
        SharedLines { names, queues }
    }

    /// The lines of durable names that have messages.
    pub fn names(&self) -> &BTreeMap<DurableName, Line>
        ensures { result.now.entries ≡ self.now.names }
    {
        &self.names
    }

    /// The lines of queues that have messages.
    pub fn queues(&self) -> &BTreeMap<Dest, Line>
        ensures { result.now.entries ≡ self.now.queues }
    {
        &self.queues
    }

    /// The lines stand by rising key, each once. Nothing changes.
    pub(crate) fn stand_in_order(&self)
        ensures names { IsStrictlySortedBy name_cmp (keys_of self.now.names) }
        ensures queues { IsStrictlySortedBy text_cmp (keys_of self.now.queues) }
    {
        stand_in_order(&self.names);
        stand_in_order(&self.queues);
    }

    /// Whether a message waits for a subscription.
    pub(crate) fn has_message(&self, sub: &Subscription) -> bool
        ensures { result ≡ not (is_none (line_for self.now sub.now)) }
    {
        has_waiting(&self.names, &self.queues, sub)
    }

    /// Takes the least message for a subscription with no line of its own out of its line, which has one.
    pub(crate) fn take_for(&mut self, sub: &Subscription) -> Message
        requires shared { is_own sub.now ≡ false }
        requires waits { is_none (line_for self.old sub.now) ≡ false }
        ensures taken { first_of (line_for self.old sub.now) ≡ Some result }
        ensures shared { self.new ≡ left_shared self.old sub.now (drop 1 (line_for self.old sub.now)) }
        ensures weight { HandFirst self.old sub.now self.new sub.now (line_for self.old sub.now) }
    {
        if let Some(name) = &sub.durable {
            let message = take(&mut self.names, name);
            return message.unwrap();
        }
        let message = take_from_queue(&mut self.queues, &sub.destination);
        message.unwrap()
    }

    /// Puts a message into the line of the queue that it was sent to. If memory is refused, that line may be gone, and the
    /// others stand.
    pub(crate) fn put_in_queue(&mut self, alloc: Global, message: Message) -> Result<(), AllocError>
        ensures shared { OnOk result (self.new
            ≡ record self.old { queues = with_message text_cmp message.sending.destination message self.old.queues }) }
        ensures weight { OnOk result ((weight : Message → ℕ) → weight_of_shared weight self.new ≡ weight_of_shared weight self.old + weight message) }
    {
        match message.sending.destination().clone() {
            Ok(queue) => put_at(alloc, &mut self.queues, queue, message, Side::Back),
            Err(refused) => {
                drop(message);
                Err(refused)
            }
        }
    }

    /// Puts a message into the line under that durable name. If memory is refused, that line is gone, and the others stand.
    pub(crate) fn put_under(
        &mut self,
        alloc: Global,
        name: &DurableName,
        message: Message,
    ) -> Result<(), AllocError>
        ensures shared { OnOk result (self.new ≡ record self.old { names = with_message name_cmp name.now message self.old.names }) }
        ensures weight { OnOk result ((weight : Message → ℕ) → weight_of_shared weight self.new ≡ weight_of_shared weight self.old + weight message) }
    {
        put(alloc, &mut self.names, name, message, Side::Back)
    }

    /// A subscription has ended: what it has not acknowledged stands in its line again, unless the line was its own. Gives
    /// what vanishes with it. If memory is refused, its line may be gone, and the others stand.
    pub(crate) fn take_back(&mut self, alloc: Global, sub: Subscription) -> Result<Gone, AllocError>
        ensures shared { OnOk result (self.new ≡ returned self.old sub) }
        ensures weight { IfOk result (λ gone. (weight : Message → ℕ) → weight_of_shared weight self.new + sum_by weight gone.line
            + sum_by (λ delivery. weight delivery.1) gone.deliveries.items
            ≡ weight_of_shared weight self.old + weight_of_subscription weight sub) }
    {
        let Subscription {
            id,
            destination,
            durable,
            line,
            unacknowledged,
            ..
        } = sub;
        drop(id);
        let returned = self.return_deliveries(
            alloc,
            &durable,
            &destination,
            unacknowledged.into_vec(),
        );
        drop(durable);
        drop(destination);
        match returned {
            Ok(deliveries) => Ok(Gone { line, deliveries }),
            Err(refused) => Err(refused),
        }
    }

    /// The messages of deliveries stand in the line of that durable name or else of that queue again. Gives those of a line
    /// of a subscription's own, which stays as it is. If memory is refused, the line may be gone, and the others stand.
    fn return_deliveries(
        &mut self,
        alloc: Global,
        durable: &Option<DurableName>,
        destination: &Dest,
        deliveries: Vec<(u64, Message)>,
    ) -> Result<Vec<(u64, Message)>, AllocError>
        ensures shared { OnOk result (self.new ≡ returned_to self.old durable.now destination.now deliveries.items) }
        ensures weight { IfOk result (λ gone. KeepsWeight self.old deliveries.items self.new gone.items) }
    {
        match durable {
            Some(name) => self.return_to_name(alloc, name, deliveries),
            None => self.return_to_queue(alloc, destination, deliveries),
        }
    }

    /// The messages of deliveries stand in the line of that durable name again, and nothing is given. If memory is refused,
    /// the line may be gone, and the others stand.
    fn return_to_name(
        &mut self,
        alloc: Global,
        name: &DurableName,
        deliveries: Vec<(u64, Message)>,
    ) -> Result<Vec<(u64, Message)>, AllocError>
        ensures shared { OnOk result (self.new ≡ returned_to self.old (Some name.now) [] deliveries.items) }
        ensures weight { IfOk result (λ gone. KeepsWeight self.old deliveries.items self.new gone.items) }
    {
        match put_back(alloc, &mut self.names, name, deliveries) {
            Ok(()) => Ok(Vec::new(alloc)),
            Err(refused) => Err(refused),
        }
    }

    /// The messages of deliveries stand in the line of that queue again. Gives those of a topic, whose lines stay as they
    /// are. If memory is refused, the line may be gone, and the others stand.
    fn return_to_queue(
        &mut self,
        alloc: Global,
        destination: &Dest,
        deliveries: Vec<(u64, Message)>,
    ) -> Result<Vec<(u64, Message)>, AllocError>
        ensures shared { OnOk result (self.new ≡ returned_to self.old None destination.now deliveries.items) }
        ensures weight { IfOk result (λ gone. KeepsWeight self.old deliveries.items self.new gone.items) }
    {
        if !destination.is_queue() {
            return Ok(deliveries);
        }
        match put_back(alloc, &mut self.queues, destination, deliveries) {
            Ok(()) => Ok(Vec::new(alloc)),
            Err(refused) => Err(refused),
        }
    }

    /// Takes out the line under that durable name, if there is one.
    pub(crate) fn forget(&mut self, alloc: Global, name: &DurableName) -> Line
        ensures line { result ≡ line_at name_cmp name.now self.old.names }
        ensures empty { line_at name_cmp name.now self.new.names ≡ [] }
        ensures shared { self.new ≡ record self.old { names = remove_entry (is_at (name_cmp name.now)) self.old.names } }
        ensures weight { (weight : Message → ℕ) → weight_of_shared weight self.new + sum_by weight result ≡ weight_of_shared weight self.old }
    {
        take_line(alloc, &mut self.names, name)
    }
}

/// Takes out the line under that key, an empty one if there is none.
pub fn take_line<K: Ord + Drop>(alloc: Global, lines: &mut BTreeMap<K, Line>, key: &K) -> Line
    ensures line { result ≡ line_at K.cmp key.now lines.old.entries }
    ensures others { lines.new.entries ≡ remove_entry (is_at (K.cmp key.now)) lines.old.entries }
    ensures absent { lookup (is_at (K.cmp key.now)) lines.new.entries ≡ None }
    ensures ordered { IsStrictlySortedBy K.cmp (keys_of lines.new.entries) }
{
    match lines.remove(key) {
        Some(line) => line,
        None => Line::new(alloc),
    }
}

/// From where the place of a message in its line is looked for.
#[derive(Drop)]
pub enum Side {
    /// The last place first, and then from the front: a new message goes last at once.
    Back,
    /// From the front, where messages were taken out.
    Front,
}

/// Puts a message into a line, at its place by number.
pub fn put_into(line: &mut Line, message: Message, from: Side) -> Result<(), AllocError>
    ensures ok { OnOk result (line.new ≡ inserted message line.old) }
    ensures same { OnErr result (line.new ≡ line.old) }
{
    match from {
        Side::Back => line.put(message),
        Side::Front => line.put_back(message),
    }
}

/// Puts a message into the line under that key, at its place by number; an empty line begins there if there is none. If
/// memory is refused, that line may be empty, and the others stand.
pub fn put_at<K: Ord + Drop>(
    alloc: Global,
    lines: &mut BTreeMap<K, Line>,
    key: K,
    message: Message,
    from: Side,
) -> Result<(), AllocError>
    requires same { AreSame K.cmp }
    ensures entries { OnOk result (lines.new.entries ≡ with_message K.cmp key message lines.old.entries) }
    ensures others { remove_entry (is_at (K.cmp key)) lines.new.entries ≡ remove_entry (is_at (K.cmp key)) lines.old.entries }
    ensures weight { OnOk result ((weight : Message → ℕ) → weight_of_lines weight lines.new.entries
        ≡ weight_of_lines weight lines.old.entries + weight message) }
{
    let line = match lines.entry(key) {
        Ok(entry) => entry.or_insert(Line::new(alloc)),
        Err(refused) => {
            drop(message);
            return Err(AllocError::from(refused));
        }
    };
    put_into(line, message, from)
}

/// Puts a message into the line under that key, at its place by number. If memory is refused, that line is gone, and the
/// others stand.
pub fn put<K: Ord + Clone + Drop>(
    alloc: Global,
    lines: &mut BTreeMap<K, Line>,
    key: &K,
    message: Message,
    from: Side,
) -> Result<(), AllocError>
    requires same { AreSame K.cmp }
    requires clone { (old copy : K) → K.is_clone old copy → copy ≡ old }
    ensures entries { OnOk result (lines.new.entries ≡ with_message K.cmp key.now message lines.old.entries) }
    ensures err { OnErr result (lines.new.entries ≡ remove_entry (is_at (K.cmp key.now)) lines.old.entries) }
    ensures weight { OnOk result ((weight : Message → ℕ) → weight_of_lines weight lines.new.entries
        ≡ weight_of_lines weight lines.old.entries + weight message) }
{
    let outcome = match key.clone() {
        Ok(copy) => put_at(alloc, lines, copy, message, from),
        Err(refused) => {
            drop(message);
            Err(refused)
        }
    };
    if outcome.is_err() {
        lines.remove(key);
    }
    outcome
}

/// Takes the least message out of the line under that key. A line that has no more is gone.
pub fn take<K: Ord + Drop>(lines: &mut BTreeMap<K, Line>, key: &K) -> Option<Message>
    requires { AreSame K.cmp }
    ensures taken { result ≡ first_of (line_at K.cmp key.now lines.old.entries) }
    ensures rest { lines.new.entries ≡ with_line K.cmp key.now (drop 1 (line_at K.cmp key.now lines.old.entries)) lines.old.entries }
    ensures weight { LoseFirst lines.old.entries lines.new.entries (line_at K.cmp key.now lines.old.entries) }
{
    let Some(line) = lines.get_mut(key) else {
        return None;
    };
    let message = line.take();
    if line.is_empty() {
        lines.remove(key);
    }
    message
}

/// Puts the messages of deliveries back into the line under that key, each at its place by number, which is looked for
/// from the front. If memory is refused, that line may be gone, and the others stand.
pub fn put_back<K: Ord + Clone + Drop>(
    alloc: Global,
    lines: &mut BTreeMap<K, Line>,
    key: &K,
    deliveries: Vec<(u64, Message)>,
) -> Result<(), AllocError>
    requires same { AreSame K.cmp }
    requires clone { (old copy : K) → K.is_clone old copy → copy ≡ old }
    ensures entries { OnOk result (lines.new.entries ≡ with_deliveries K.cmp key.now deliveries.items lines.old.entries) }
    ensures weight { OnOk result ((weight : Message → ℕ) → weight_of_lines weight lines.new.entries
        ≡ weight_of_lines weight lines.old.entries + sum_by (λ delivery. weight delivery.1) deliveries.items) }
{
    for (_, message) in deliveries {
        put(alloc, lines, key, message, Side::Front)?;
    }
    Ok(())
}
