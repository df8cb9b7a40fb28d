//! What waits, and for whom.

ghost use Rattle.std.specs.Prelude.{◌≡◌, ◌^◌, [], nat_lt, ◌+◌, ◌≤◌, ◌∷◌, IfOk, OnOk, Some, drop, false, if◌then◌else◌, true, ◌<◌, IfSome, ◌==◌};
ghost use Rattle.std.specs.BinaryHeap.{IsHeap, heap_items};
ghost use Rattle.std.specs.Ordering.{as_partial_cmp, on};
ghost use Rattle.std.proofs.Common.{rules};
ghost use Rattle.std.proofs.Props.{props};
ghost use Rattle.line_core.specs.Lines.{first_of};
ghost use Rattle.broker_state.specs.HandOut.{ack_of, delivered, is_auto, message_out, settled as settled_state};
ghost use Rattle.broker_state.specs.Lists.{changed, is_none};
ghost use Rattle.broker_state.specs.States.{bytes, one};
ghost use Rattle.broker_state.specs.Waiting.{left_line, line_for};
ghost use Rattle.broker_state.specs.declared.subscription.Subscription.{Subscription};
ghost use Rattle.waiting_order.specs.Keeping.{kept_by};
ghost use Rattle.line_core.specs.Messages.{size_of};
ghost use Rattle.broker_state.specs.Operations.{sent};
ghost use Rattle.broker_state.specs.Parts.{find_room};
ghost use Rattle.waiting_order.specs.Directories.{IsFirstFrom, is_in, members};
ghost use Rattle.broker_tables.specs.Cursors.{IsReadiness, AreAwaited, IsReady, NoneReady, cursors_in};
ghost use Rattle.broker_tables.specs.Scopes.{StandsWithin};
ghost use Rattle.broker_tables.specs.Answers.{with_outs};
ghost use Rattle.broker_tables.specs.Handing.{IsTold, LeavesLine, LetsGoIfAuto, MayGet, Serves};
ghost use Rattle.broker_tables.specs.Places.{HoldsAtKey, StandsSo, with_changed};
ghost use Rattle.broker_tables.specs.Stocks.{HandsAll, IsStocked};
ghost use Rattle.broker_tables.specs.Alike.{Knows, KnowsAlike, plain_frame};
ghost use Rattle.broker_tables.specs.AtOnce.{AreAuto, AreSwift, GoesToEach, Turns, names_bound};
ghost use Rattle.broker_tables.specs.Sendings.{IsCarriedOut};
ghost use Rattle.broker_tables.specs.CursorOrder.{cursor_cmp};
ghost use Rattle.broker_tables.specs.declared.cursors.Cursor.{Cursor};

use crate::answers::Answers;
use crate::cursors::{Cursor, Cursors};
use crate::due::{Due, Scope, is_idle, next_within, scope_of};
use crate::durable_names::DurableNames;
use crate::messages::{find_room, names_of, share};
use crate::shared_lines::SharedLines;
use crate::tables::Tables;
use broker_state::{Held, LAST_DELIVERY, Subscription};
use command_core::{AckMode, Alike, Fault, HeaderText, Out, Sending};
use line_core::{Message, MessageNumber, size};
use std::alloc::{AllocError, Global};
use std::cmp::Ordering;
use std::collections::BinaryHeap;
use waiting_order::{Key, Order, Place};

/// What may be handed to those of a scope, as far as one of them shows.
#[derive(Drop)]
pub enum Readiness {
    /// It can be served.
    Ready,
    /// It can't, and another one may.
    Held,
    /// Nothing waits for any of them.
    Idle,
}

/// The subscriptions in waiting order, the lines that stay, how much is held, and the number of the next delivery.
#[derive(Drop)]
pub struct Stock {
    pub order: Order,
    pub shared: SharedLines,
    pub held: Held,
    pub next_delivery: u64,
}

impl Stock {
    ghost use Rattle.std.specs.Prelude.{◌≡◌, ◌<◌, ◌^◌, ◌∷◌, IfOk, IfSome, MatchOption, OnOk};
    ghost use Rattle.broker_tables.specs.Cursors.{AreAwaited, IsLeast, IsNearer, IsReady, NoneReady, cursors_in};
    ghost use Rattle.broker_tables.specs.Scopes.{IsPlaceWithin};

    /// Nothing waits, for nobody. No memory is taken.
    pub fn new(alloc: Global) -> Stock
        ensures order { result.order ≡ record { all = []; next = 0 } }
        ensures shared { result.shared ≡ record { names = []; queues = [] } }
        ensures held { result.held ≡ record { messages = 0; bytes = 0 } }
        ensures next { result.next_delivery ≡ 0 }
    {
        Stock {
            order: Order::new(alloc),
            shared: SharedLines::new(alloc),
            held: Held {
                messages: 0,
                bytes: 0,
            },
            next_delivery: 0,
        }
    }

    /// Whether there is a number for one more delivery.
    fn has_number(&self) -> bool
        ensures { result ≡ nat_lt self.now.next_delivery (2 ^ 63) }
    {
        self.next_delivery < LAST_DELIVERY
    }

    /// What may be handed to those of a scope, one of whom stands at that key.
    pub fn readiness(&self, scope: Scope, key: Key) -> Readiness
        requires { StandsWithin scope self.now.order.all key }
        ensures { IsReadiness self.now scope key result }
    {
        let sub = self.order.get(key);
        if !self.shared.has_message(sub) {
            if is_idle(&self.order, scope, key) {
                return Readiness::Idle;
            }
            return Readiness::Held;
        }
        if !self.has_number() {
            return Readiness::Held;
        }
        if !sub.has_room() {
            return Readiness::Held;
        }
        Readiness::Ready
    }

    /// The least message of the line of the subscription at that key, which has one, goes to the subscription, which then waits
    /// last. If memory is refused, part of it may be done.
    fn serve(
        &mut self,
        alloc: Global,
        number: u64,
        key: Key,
        answers: &mut Answers,
    ) -> Result<(), AllocError>
        requires ready { IsReady self.old key }
        requires stocked { IsStocked self.old }
        ensures served { OnOk result (Serves number self.old key self.new answers.old answers.new) }
    {
        let delivery = self.next_delivery;
        let message = take_for(&mut self.order, &mut self.shared, key);
        deliver(
            alloc,
            number,
            &mut self.order,
            key,
            delivery,
            message,
            &mut self.held,
            answers,
        )?;
        self.order.move_last(key);
        self.next_delivery = delivery + 1;
        Ok(())
    }

    /// Hands out what waits, one delivery after another, until nothing can be handed out. The MESSAGEs come in their order, if
    /// the outputs are kept. If memory is refused, part of it may be done.
    pub fn hand_out(
        &mut self,
        alloc: Global,
        number: u64,
        cursors: &mut Cursors,
        answers: &mut Answers,
    ) -> Result<(), AllocError>
        requires awaited { AreAwaited (cursors_in cursors.old) self.old }
        requires stocked { IsStocked self.old }
        ensures settled { OnOk result (HandsAll number self.old answers.old self.new answers.new) }
        ensures stocked { OnOk result (IsStocked self.new) }
        ensures none { OnOk result (NoneReady self.new) }
    {
        while let Some(key) = self.next_ready(cursors)? {
            self.order.stand_in_order();
            self.serve(alloc, number, key, answers)?;
        }
        Ok(())
    }

    /// The first of a group gets a message, and waits last then. If memory is refused, part of it may be done.
    fn turn(
        &mut self,
        alloc: Global,
        number: u64,
        group: usize,
        message: &Message,
        last: &mut Option<Told>,
        answers: &mut Answers,
    ) -> Result<(), AllocError>
        requires some { is_none (members (is_in group) self.old.order.all) ≡ false }
        requires number { self.old.next_delivery < 2 ^ 63 }
        requires stocked { IsStocked self.old }
        requires told { Knows message.now last.old }
        ensures turns { OnOk result (Turns number group message.now self.old answers.old self.new answers.new) }
        ensures told { OnOk result (Knows message.now last.new) }
    {
        let delivery = self.next_delivery;
        let place = first_in(&self.order, group);
        let sub = self.order.get(place.key);
        tell_next(alloc, number, sub, delivery, message, last, answers)?;
        self.order.move_last(place.key);
        self.next_delivery = delivery + 1;
        Ok(())
    }

    /// A message of a topic goes to each of the group of those who listen, which has so many. All are in `auto`, and nothing
    /// waits. If memory is refused, part of it may be done.
    pub fn hand_to_each(
        &mut self,
        alloc: Global,
        number: u64,
        group: usize,
        count: u64,
        message: Message,
        answers: &mut Answers,
    ) -> Result<(), AllocError>
        requires swift { AreSwift self.old message.sending.destination group count }
        requires stocked { IsStocked self.old }
        requires none { NoneReady self.old }
        ensures each { OnOk result (GoesToEach number message self.old answers.old self.new answers.new) }
        ensures stocked { OnOk result (IsStocked self.new) }
        ensures none { OnOk result (NoneReady self.new) }
    {
        let told = for_answers(alloc, message, answers)?;
        let mut last = None;
        let mut left = count;
        while left > 0 {
            self.turn(alloc, number, group, &told, &mut last, answers)?;
            left -= 1;
        }
        Ok(())
    }

    /// The key of the first subscription in waiting order that can be served, if there is one. Cursors move on meanwhile. If memory is
    /// refused, one of them may be gone.
    pub fn next_ready(&self, cursors: &mut Cursors) -> Result<Option<Key>, AllocError>
        requires awaited { AreAwaited (cursors_in cursors.old) self.now }
        requires tickets { self.now.order.next < 2 ^ 64 }
        ensures ready { IfOk result (λ found. MatchOption found (NoneReady self.now) (IsReady self.now)) }
        ensures awaited { OnOk result (AreAwaited (cursors_in cursors.new) self.now) }
    {
        self.order.stand_in_order();
        while let Some(cursor) = cursors.take() {
            if let Some(key) = self.advance(cursors, cursor)? {
                return Ok(Some(key));
            }
        }
        Ok(None)
    }

    /// The cursor with the least ticket moves on to the first subscription of its scope, or is done if there is none. If no other cursor
    /// is before that one, its key is given if it can be served; else the cursor goes by, or is done if nothing waits for its scope.
    fn advance(&self, cursors: &mut Cursors, cursor: Cursor) -> Result<Option<Key>, AllocError>
        requires least { IsLeast cursor cursors.old }
        requires awaited { AreAwaited (cursor ∷ cursors_in cursors.old) self.now }
        requires tickets { self.now.order.next < 2 ^ 64 }
        ensures ready { IfOk result (λ found. IfSome found (IsReady self.now)) }
        ensures awaited { OnOk result (AreAwaited (cursors_in cursors.new) self.now) }
        ensures nearer { IfOk result (λ found. IsNearer found cursor cursors.old cursors.new) }
    {
        self.order.stand_in_order();
        let Some(place) = next_within(&self.order, cursor.scope, cursor.from) else {
            return Ok(None);
        };
        let moved = Cursor {
            from: place.ticket,
            scope: cursor.scope,
        };
        if cursors.are_past(place.ticket) {
            return self.serve_or_pass(cursors, moved, place);
        }
        cursors.put(moved)?;
        Ok(None)
    }

    /// The key of a place that no cursor is before, if the subscription there can be served. Else the cursor goes by, or is done if
    /// nothing waits for its scope.
    fn serve_or_pass(
        &self,
        cursors: &mut Cursors,
        cursor: Cursor,
        place: Place,
    ) -> Result<Option<Key>, AllocError>
        requires here { cursor.from ≡ place.ticket }
        requires there { IsPlaceWithin cursor.scope self.now.order.all place }
        requires least { IsLeast cursor cursors.old }
        requires awaited { AreAwaited (cursor ∷ cursors_in cursors.old) self.now }
        requires tickets { self.now.order.next < 2 ^ 64 }
        ensures ready { IfOk result (λ found. IfSome found (IsReady self.now)) }
        ensures awaited { OnOk result (AreAwaited (cursors_in cursors.new) self.now) }
        ensures nearer { IfOk result (λ found. IsNearer found cursor cursors.old cursors.new) }
    {
        self.order.stand_in_order();
        match self.readiness(cursor.scope, place.key) {
            Readiness::Ready => {
                cursors.put(cursor)?;
                Ok(Some(place.key))
            }
            Readiness::Held => {
                cursors.put(Cursor {
                    from: place.ticket + 1,
                    scope: cursor.scope,
                })?;
                Ok(None)
            }
            Readiness::Idle => Ok(None),
        }
    }
}

/// The number by which a delivery is acknowledged, if it is to be.
fn ack_of(sub: &Subscription, delivery: u64) -> Option<u64>
    ensures { result ≡ ack_of sub.now delivery }
{
    match sub.mode {
        AckMode::Auto => None,
        AckMode::Client | AckMode::ClientIndividual => Some(delivery),
    }
}

/// Whether a subscription's messages count as received once they are sent.
pub fn is_auto(sub: &Subscription) -> bool
    ensures { result ≡ is_auto sub.now.mode }
{
    match sub.mode {
        AckMode::Auto => true,
        AckMode::Client | AckMode::ClientIndividual => false,
    }
}

/// The MESSAGE that the command of that number hands to a subscription is made, if the outputs are kept.
pub fn reply(
    alloc: Global,
    number: u64,
    sub: &Subscription,
    delivery: u64,
    message: Message,
    answers: &mut Answers,
) -> Result<(), AllocError>
    ensures { OnOk result (answers.new ≡ with_outs (message_out number sub.now delivery message ∷ []) answers.old) }
{
    if !answers.are_kept() {
        drop(message);
        return Ok(());
    }
    let ack = ack_of(sub, delivery);
    let Message {
        number: name,
        sending,
    } = message;
    let out = Out::message(
        alloc,
        number,
        sub.session,
        &sub.id,
        name.command,
        name.place,
        ack,
        sending,
    )?;
    answers.add(out)
}

/// Takes the least message for the subscription at that key out of its line, which has one.
fn take_for(order: &mut Order, shared: &mut SharedLines, key: Key) -> Message
    requires { StandsSo order.old.all key (λ sub. is_none (line_for shared.old sub) ≡ false) }
    ensures taken { HoldsAtKey order.old.all key (λ at s. first_of (line_for shared.old s.sub) ≡ Some result) }
    ensures left { HoldsAtKey order.old.all key (λ at s. LeavesLine shared.old s.sub shared.new) }
    ensures order { HoldsAtKey order.old.all key (λ at s.
        order.new ≡ with_changed at (λ sub. left_line sub (drop 1 (line_for shared.old s.sub))) order.old) }
{
    let sub = order.get(key);
    if sub.has_own_line() {
        return order.take(key).unwrap();
    }
    shared.take_for(sub)
}

/// A message goes to the subscription at that key, by that number of its delivery, and is unacknowledged from then on.
fn hand_over(
    alloc: Global,
    number: u64,
    order: &mut Order,
    key: Key,
    delivery: u64,
    message: Message,
    answers: &mut Answers,
) -> Result<(), AllocError>
    requires over { MayGet order.old.all key delivery }
    ensures answers { OnOk result (IsTold number order.old.all key delivery message answers.old answers.new) }
    ensures kept { OnOk result (HoldsAtKey order.old.all key (λ at s. order.new ≡ record order.old { all = changed at (kept_by delivery message) order.old.all })) }
{
    if !answers.are_kept() {
        return order.keep(key, delivery, message);
    }
    let message = share(alloc, message)?;
    let copy = message.clone()?;
    reply(alloc, number, order.get(key), delivery, message, answers)?;
    order.keep(key, delivery, copy)
}

/// A message goes to the subscription at that key, by that number of its delivery. With `auto` the message is held no more.
fn deliver(
    alloc: Global,
    number: u64,
    order: &mut Order,
    key: Key,
    delivery: u64,
    message: Message,
    held: &mut Held,
    answers: &mut Answers,
) -> Result<(), AllocError>
    requires over { MayGet order.old.all key delivery }
    requires held { (1 ≤ held.old.messages) × (bytes message ≤ held.old.bytes) }
    ensures answers { OnOk result (IsTold number order.old.all key delivery message answers.old answers.new) }
    ensures delivered { OnOk result (HoldsAtKey order.old.all key (λ at s. order.new ≡ with_changed at (λ sub. delivered sub delivery message) order.old)) }
    ensures held { OnOk result (HoldsAtKey order.old.all key (λ at s. LetsGoIfAuto s.sub message held.old held.new)) }
{
    let sub = order.get(key);
    if is_auto(sub) {
        held.messages -= 1;
        held.bytes -= size(&message.sending) as u64;
        return reply(alloc, number, sub, delivery, message, answers);
    }
    hand_over(alloc, number, order, key, delivery, message, answers)
}

/// The place of the first one of a group.
fn first_in(order: &Order, group: usize) -> Place
    requires { is_none (members (is_in group) order.now.all) ≡ false }
    ensures { IsFirstFrom (is_in group) order.now.all 0 result }
{
    let Some(place) = order.next_in(group, 0) else {
        unreachable!()
    };
    place
}

/// Whether each one of a group is in `auto`.
fn are_auto(order: &Order, group: usize) -> bool
    requires { order.now.next < 2 ^ 64 }
    ensures { result ≡ true → AreAuto group order.now.all }
{
    order.stand_in_order();
    let mut from = 0;
    while let Some(place) = order.next_in(group, from) {
        if !is_auto(order.get(place.key)) {
            return false;
        }
        from = place.ticket + 1;
    }
    true
}

/// The MESSAGE that the command of that number hands to a subscription is made of a message that others get too, if the
/// outputs are kept.
fn tell(
    alloc: Global,
    number: u64,
    sub: &Subscription,
    delivery: u64,
    message: &Message,
    answers: &mut Answers,
) -> Result<(), AllocError>
    ensures { OnOk result (answers.new ≡ with_outs (message_out number sub.now delivery message.now ∷ []) answers.old) }
{
    if !answers.are_kept() {
        return Ok(());
    }
    let copy = message.clone()?;
    reply(alloc, number, sub, delivery, copy, answers)
}

// The id of the subscription that a message went to last, and the MESSAGE that those of this id get alike, once there are two in a row.
#[derive(Drop)]
pub(crate) struct Told {
    id: HeaderText,
    alike: Option<Alike>,
}

impl Told {
    /// The MESSAGE of that message for a session whose subscription has this id. It is written only once.
    fn out(
        &mut self,
        alloc: Global,
        number: u64,
        session: u64,
        message: &Message,
    ) -> Result<Out, AllocError>
        requires knows { KnowsAlike message.now self.old }
        ensures out { IfOk result (λ out. out ≡ record { number = number; session = session; frame = plain_frame self.old.id message.now }) }
        ensures knows { OnOk result (KnowsAlike message.now self.new) }
    {
        if let Some(alike) = &self.alike {
            return Out::alike(number, session, alike);
        }
        let alike = alike_of(alloc, &self.id, message)?;
        let out = Out::alike(number, session, &alike)?;
        self.alike = Some(alike);
        Ok(out)
    }
}

/// The MESSAGE of that message for all subscriptions of that id that don't acknowledge.
fn alike_of(alloc: Global, id: &HeaderText, message: &Message) -> Result<Alike, AllocError>
    ensures { IfOk result (λ alike. alike ≡ plain_frame id.now message.now) }
{
    let Message {
        number: name,
        sending,
    } = message.clone()?;
    Alike::new(alloc, id, name.command, name.place, sending)
}

/// The same as `tell` for one subscription after another: those of the same id in a row get one MESSAGE alike.
fn tell_next(
    alloc: Global,
    number: u64,
    sub: &Subscription,
    delivery: u64,
    message: &Message,
    last: &mut Option<Told>,
    answers: &mut Answers,
) -> Result<(), AllocError>
    requires knows { Knows message.now last.old }
    ensures told { OnOk result (answers.new ≡ with_outs (message_out number sub.now delivery message.now ∷ []) answers.old) }
    ensures knows { OnOk result (Knows message.now last.new) }
{
    if !answers.are_kept() {
        return Ok(());
    }
    if !is_auto(sub) {
        return tell(alloc, number, sub, delivery, message, answers);
    }
    if let Some(told) = last
        && told.id.as_str() == sub.id.as_str()
    {
        let out = told.out(alloc, number, sub.session, message)?;
        return answers.add(out);
    }
    let id = sub.id.clone()?;
    drop(last.replace(Told { id, alike: None }));
    tell(alloc, number, sub, delivery, message, answers)
}

/// The same message, ready to be cloned if the outputs are kept. If memory is refused, it is gone.
fn for_answers(alloc: Global, message: Message, answers: &Answers) -> Result<Message, AllocError>
    ensures { IfOk result (λ same. same ≡ message) }
{
    if !answers.are_kept() {
        return Ok(message);
    }
    share(alloc, message)
}

/// The group of those who listen to the topic of what is sent, and how many they are, if it can go to each of them at once.
/// None if something is due, if a durable name is bound to the topic, or if one of them has something waiting or
/// acknowledges. None too if room or numbers are short.
pub fn swift_group(
    stock: &Stock,
    durables: &DurableNames,
    due: &[Due],
    sending: &Sending,
) -> Option<(usize, u64)>
    requires stocked { IsStocked stock.now }
    ensures due { IfSome result (λ _. due.now ≡ []) }
    ensures names { IfSome result (λ _. names_bound sending.now.destination durables.now ≡ 0) }
    ensures room { IfSome result (λ g. find_room stock.now.held.messages stock.now.held.bytes g.1 (size_of sending.now) ≡ true) }
    ensures swift { IfSome result (λ g. AreSwift stock.now sending.now.destination g.0 g.1) }
{
    let to = sending.destination();
    if !due.is_empty() {
        return None;
    }
    if to.is_queue() {
        return None;
    }
    if names_of(durables, to) > 0 {
        return None;
    }
    let Some(group) = stock.order.group_at(to) else {
        return None;
    };
    let count = stock.order.count_at(to) as u64;
    if stock.next_delivery + count >= LAST_DELIVERY {
        return None;
    }
    if !find_room(&stock.held, count, size(sending) as u64) {
        return None;
    }
    if stock.order.count_behind(group) > 0 {
        return None;
    }
    if !are_auto(&stock.order, group) {
        return None;
    }
    Some((group, count))
}
