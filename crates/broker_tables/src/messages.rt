//! Messages are sent, acknowledged and refused, and what waits is handed out.

ghost use Rattle.std.specs.Prelude.{◌≡◌, ◌+◌, ◌<◌, ◌≤◌, ◌&&◌, ◌^◌, ℕ, IfOk, IsErr, OnOk, count_by, false, fold, map, true, MatchOption, OnErr, ◌-◌, Some, if◌then◌else◌, length, nat_le, ◌∷◌, [], drop, IfSome};
ghost use Rattle.std.specs.List.{list_any};
ghost use Rattle.std.specs.Str.{bytes_eq};
ghost use Rattle.command_core.specs.Destinations.{is_queue};
ghost use Rattle.broker_state.specs.declared.subscription.Subscription.{Subscription};
ghost use Rattle.broker_state.specs.Names.{name_cmp, text_cmp};
ghost use Rattle.broker_state.specs.Operations.{copied, copied_to_names, sent, uses, acknowledged, awaits, is_of, settled_by};
ghost use Rattle.broker_state.specs.Parts.{copies_to, find_room, leaving, NonePass};
ghost use Rattle.broker_state.specs.Waiting.{is_own, with_message, left_line, line_for};
ghost use Rattle.waiting_order.specs.Directories.{is_plain_at, IsFirstFrom, is_in, members};
ghost use Rattle.waiting_order.specs.Waiting.{subs_of};
ghost use Rattle.line_core.specs.Flights.{has_delivery, settled};
ghost use Rattle.line_core.specs.Messages.{size_of};
ghost use Rattle.broker_state.specs.declared.nack_rule.NackRule.TheVariants.{Keeps};
ghost use Rattle.broker_state.specs.Dead.{dead_queue, is_dropped, nacked, refused};
ghost use Rattle.broker_state.specs.States.{bytes, one};
ghost use Rattle.line_core.specs.Lines.{first_of};
ghost use Rattle.broker_state.specs.HandOut.{ack_of, delivered, is_auto, message_out, settled as settled_state};
ghost use Rattle.broker_state.specs.Lists.{changed, is_none};
ghost use Rattle.waiting_order.specs.Keeping.{kept_by};
ghost use Rattle.broker_tables.specs.Sendings.{IsFannedOut, IsCarriedOut};
ghost use Rattle.broker_tables.specs.Dues.{AllDue, has_name_of, is_due};
ghost use Rattle.broker_tables.specs.Places.{IsFirstAt, HoldsAtKey, StandsSo, with_changed};
ghost use Rattle.broker_tables.specs.Refusals.{ArePart, MovesHeld, all_kept, all_kept_bytes, bytes_of, kept_bytes, kept_one, with_all_refused};
ghost use Rattle.broker_tables.specs.Answers.{with_outs};
ghost use Rattle.broker_tables.specs.Cursors.{AreAwaited, IsReady, NoneReady, cursors_in};
ghost use Rattle.broker_tables.specs.Handing.{IsTold, LeavesLine, LetsGoIfAuto, MayGet, Serves};
ghost use Rattle.broker_tables.specs.Stocks.{HandsAll, IsStocked};
ghost use Rattle.broker_tables.specs.AtOnce.{AreAuto, AreSwift, GoesToEach, Turns, names_bound};

use crate::answers::Answers;
use crate::cursors::Cursors;
use crate::due::{Due, mark, mark_names};
use crate::durable_names::{DurableNames, Names};
use crate::shared_lines::SharedLines;
use crate::stock::{Stock, is_auto, reply, swift_group};
use crate::tables::{Tables, let_deliveries_go};
use broker_state::{Held, LAST_DELIVERY, MOST_BYTES, MOST_MESSAGES, NackRule, Subscription};
use command_core::{AckMode, Dest, DestFault, Fault, Out, Sending};
use line_core::{Message, MessageNumber, settles, size};
use std::alloc::{AllocError, Global};
use waiting_order::{Key, Order, Place, Sought};

/// The queue of the messages that were refused.
const DEAD_QUEUE: &str = "/queue/dead";

/// How many durable names are bound to that topic.
pub fn names_of(durables: &DurableNames, to: &Dest) -> u64
    ensures counted { result ≡ count_by (λ durable. bytes_eq durable.1 to.now) durables.now }
    ensures few { result < 2 ^ 63 }
{
    match durables.of_topic(to) {
        Some(names) => names.all().len() as u64,
        None => 0,
    }
}

/// How many subscriptions of that topic have a line of their own.
fn listeners_of(order: &Order, to: &Dest) -> u64
    requires topic { is_queue to.now ≡ false }
    ensures counted { result ≡ count_by (λ sub. is_own sub && bytes_eq sub.destination to.now) (subs_of order.now.all) }
    ensures few { result < 2 ^ 63 }
{
    order.count_at(to) as u64
}

/// How many copies of a message to that destination are to be kept. A queue's line gets one. Else each durable name of the
/// topic gets one, and so does each of the topic's subscriptions with a line of its own.
pub fn copies_to(tables: &Tables, to: &Dest) -> u64
    ensures { result ≡ copies_to to.now tables.now.state.durables tables.now.state.subscriptions }
{
    if to.is_queue() {
        return 1;
    }
    copies_to_topic(tables, to)
}

/// How many copies of a message to that topic are to be kept.
fn copies_to_topic(tables: &Tables, to: &Dest) -> u64
    requires topic { is_queue to.now ≡ false }
    ensures { result ≡ count_by (λ durable. bytes_eq durable.1 to.now) tables.now.state.durables
        + count_by (λ sub. is_own sub && bytes_eq sub.destination to.now) tables.now.state.subscriptions }
{
    names_of(&tables.durables, to) + listeners_of(&tables.stock.order, to)
}

/// Whether so many copies of so many bytes find room beside what is held.
pub fn find_room(held: &Held, copies: u64, size: u64) -> bool
    requires small { size < 2 ^ 21 }
    requires within { (held.now.messages ≤ 4096) × (held.now.bytes ≤ 16777216) }
    ensures { result ≡ find_room held.now.messages held.now.bytes copies size }
{
    copies <= MOST_MESSAGES - held.messages && copies * size <= MOST_BYTES - held.bytes
}

/// Each subscription of the message's topic with a line of its own gets a copy into it.
fn copy_to_listeners(order: &mut Order, message: &Message) -> Result<(), AllocError>
    requires topic { is_queue message.now.sending.destination ≡ false }
    ensures copied { OnOk result (subs_of order.new.all ≡ map (copied message.now) (subs_of order.old.all)) }
    ensures number { OnOk result (order.new.next ≡ order.old.next) }
{
    order.put_each(message.sending.destination(), message)
}

/// Each of these names gets a copy of the message into its line.
fn copy_to_all(
    alloc: Global,
    names: &Names,
    shared: &mut SharedLines,
    message: &Message,
) -> Result<(), AllocError>
    ensures { OnOk result (shared.new
        ≡ record shared.old { names = fold (λ more name. with_message name_cmp name message.now more) shared.old.names names.now }) }
{
    for name in names.all() {
        shared.put_under(alloc, name, message.clone()?)?;
    }
    Ok(())
}

/// Each durable name of the message's topic gets a copy into its line.
fn copy_to_names(
    alloc: Global,
    durables: &DurableNames,
    shared: &mut SharedLines,
    message: &Message,
) -> Result<(), AllocError>
    ensures { OnOk result (shared.new ≡ record shared.old { names = copied_to_names message.now durables.now shared.old.names }) }
{
    match durables.of_topic(message.sending.destination()) {
        Some(names) => copy_to_all(alloc, names, shared, message),
        None => Ok(()),
    }
}

/// A message goes into the lines of its topic's durable names, and into those of the topic's subscriptions that have a line
/// of their own.
fn copy_to_topic(
    alloc: Global,
    durables: &DurableNames,
    shared: &mut SharedLines,
    order: &mut Order,
    message: &Message,
) -> Result<(), AllocError>
    requires topic { is_queue message.now.sending.destination ≡ false }
    ensures fanned { OnOk result (IsFannedOut message.now durables.now shared.old (subs_of order.old.all) shared.new (subs_of order.new.all)) }
    ensures number { OnOk result (order.new.next ≡ order.old.next) }
{
    copy_to_names(alloc, durables, shared, message)?;
    copy_to_listeners(order, message)
}

/// The same message, whose clones share its bytes from now on. If memory is refused for that, it is gone.
pub fn share(alloc: Global, message: Message) -> Result<Message, AllocError>
    ensures { IfOk result (λ shared. shared ≡ message) }
{
    let Message { number, sending } = message;
    let sending = sending.share(alloc)?;
    Ok(Message { number, sending })
}

/// A message of a topic, ready to be cloned for each name and subscription that gets it.
fn for_copies(
    alloc: Global,
    durables: &DurableNames,
    order: &Order,
    message: Message,
) -> Result<Message, AllocError>
    requires topic { is_queue message.sending.destination ≡ false }
    ensures { IfOk result (λ same. same ≡ message) }
{
    let to = message.sending.destination();
    if names_of(durables, to) + listeners_of(order, to) == 0 {
        return Ok(message);
    }
    share(alloc, message)
}

/// A message goes into the line of its queue, or into those of its topic's durable names and subscriptions.
fn fan_out(
    alloc: Global,
    durables: &DurableNames,
    shared: &mut SharedLines,
    order: &mut Order,
    message: Message,
) -> Result<(), AllocError>
    ensures fanned { OnOk result (IsFannedOut message durables.now shared.old (subs_of order.old.all) shared.new (subs_of order.new.all)) }
    ensures number { OnOk result (order.new.next ≡ order.old.next) }
{
    if message.sending.destination().is_queue() {
        shared.put_in_queue(alloc, message)
    } else {
        let message = for_copies(alloc, durables, order, message)?;
        copy_to_topic(alloc, durables, shared, order, &message)
    }
}

/// The subscriptions are due that may be served once a message has gone to that destination. If memory is refused, some of
/// them may be.
fn mark_destination(
    marked: &mut Vec<Due>,
    durables: &DurableNames,
    to: &Dest,
) -> Result<(), AllocError>
    ensures kept { OnOk result (AllDue (is_due marked.old.items) marked.new.items) }
    ensures plain { OnOk result (AllDue (is_plain_at to.now) marked.new.items) }
    ensures named { OnOk result (AllDue (has_name_of to.now durables.now) marked.new.items) }
{
    let own = to.clone()?;
    mark_names(marked, durables, to)?;
    mark(marked, Due::Destination(own))
}

/// A message goes into its lines, and the subscriptions that may be served from them are due. If memory is refused, part of
/// it may be done.
fn take_in(
    alloc: Global,
    marked: &mut Vec<Due>,
    durables: &DurableNames,
    shared: &mut SharedLines,
    order: &mut Order,
    message: Message,
) -> Result<(), AllocError>
    ensures kept { OnOk result (AllDue (is_due marked.old.items) marked.new.items) }
    ensures plain { OnOk result (AllDue (is_plain_at message.sending.destination) marked.new.items) }
    ensures named { OnOk result (AllDue (has_name_of message.sending.destination durables.now) marked.new.items) }
    ensures fanned { OnOk result (IsFannedOut message durables.now shared.old (subs_of order.old.all) shared.new (subs_of order.new.all)) }
    ensures number { OnOk result (order.new.next ≡ order.old.next) }
{
    match mark_destination(marked, durables, message.sending.destination()) {
        Ok(()) => fan_out(alloc, durables, shared, order, message),
        Err(refused) => Err(refused),
    }
}

impl Tables {
    /// A message is sent by the command that is being carried out, at that place among its members. It is refused if its
    /// copies find no room, and then the tables are as they were. If memory is refused, the tables may be broken.
    pub fn send(
        &mut self,
        alloc: Global,
        place: u32,
        sending: Sending,
    ) -> Result<Result<(), Fault>, AllocError>
        requires whole { self.old.broken ≡ false }
        ensures sent { IfOk result (λ r. sent self.old.state place sending ≡ leaving r self.new.state) }
        ensures same { IfOk result (λ r. IsErr r → self.new ≡ self.old) }
        ensures whole { OnOk result (self.new.broken ≡ false) }
    {
        self.stock.shared.stand_in_order();
        let copies = copies_to(self, sending.destination());
        let bytes = size(&sending) as u64;
        if !find_room(&self.stock.held, copies, bytes) {
            drop(sending);
            return Ok(Err(Fault::NoRoom));
        }
        let message = Message {
            number: MessageNumber {
                command: self.count,
                place,
            },
            sending,
        };
        self.broken = true;
        take_in(
            alloc,
            &mut self.due,
            &self.durables,
            &mut self.stock.shared,
            &mut self.stock.order,
            message,
        )?;
        self.stock.held.messages += copies;
        self.stock.held.bytes += copies * bytes;
        self.broken = false;
        Ok(Ok(()))
    }

    /// A delivery of a session is acknowledged, with the others that the mode of its subscription settles. It is refused if
    /// the session has no such delivery, and then the tables are as they were. If memory is refused, they are broken.
    pub fn acknowledge(
        &mut self,
        session: u64,
        delivery: u64,
    ) -> Result<Result<(), Fault>, AllocError>
        requires whole { self.old.broken ≡ false }
        ensures acknowledged { IfOk result (λ r. acknowledged self.old.state session delivery ≡ leaving r self.new.state) }
        ensures same { IfOk result (λ r. IsErr r → self.new ≡ self.old) }
        ensures whole { OnOk result (self.new.broken ≡ false) }
        ensures broken { OnErr result (self.new.broken ≡ true) }
    {
        let Some(key) = find_awaiting(&self.stock.order, session, delivery) else {
            return Ok(Err(Fault::UnknownAcknowledgement));
        };
        self.broken = true;
        mark(&mut self.due, Due::Session(session))?;
        let settled = self.stock.order.settle(key, delivery)?;
        let_deliveries_go(&mut self.stock.held, settled.as_slice());
        self.broken = false;
        Ok(Ok(()))
    }

    /// A delivery of a session is refused, with the others that the mode of its subscription settles. The NACK has that
    /// place among the members of the command that is being carried out, which is 0 for a plain one. By the rule that keeps,
    /// those that are not dropped go to `/queue/dead`. The NACK is refused if the session has no such delivery, or if what
    /// is kept finds no room, and then the tables are as they were. If memory is refused, they may be broken.
    pub fn nack(
        &mut self,
        alloc: Global,
        rule: NackRule,
        member: u32,
        session: u64,
        delivery: u64,
    ) -> Result<Result<(), Fault>, AllocError>
        requires few { member < 64 }
        requires whole { self.old.broken ≡ false }
        ensures nacked { IfOk result (λ r. nacked rule self.old.state session member delivery ≡ leaving r self.new.state) }
        ensures same { IfOk result (λ r. IsErr r → self.new ≡ self.old) }
        ensures whole { OnOk result (self.new.broken ≡ false) }
    {
        match rule {
            NackRule::Drops => self.acknowledge(session, delivery),
            NackRule::Keeps => self.refuse(alloc, member, session, delivery),
        }
    }

    /// A delivery is refused by the rule that keeps.
    fn refuse(
        &mut self,
        alloc: Global,
        member: u32,
        session: u64,
        delivery: u64,
    ) -> Result<Result<(), Fault>, AllocError>
        requires few { member < 64 }
        requires whole { self.old.broken ≡ false }
        ensures nacked { IfOk result (λ r. nacked Keeps self.old.state session member delivery ≡ leaving r self.new.state) }
        ensures same { IfOk result (λ r. IsErr r → self.new ≡ self.old) }
        ensures whole { OnOk result (self.new.broken ≡ false) }
    {
        self.stock.shared.stand_in_order();
        let Some(key) = find_awaiting(&self.stock.order, session, delivery) else {
            return Ok(Err(Fault::UnknownAcknowledgement));
        };
        if !finds_room(&self.stock.held, self.stock.order.get(key), delivery) {
            return Ok(Err(Fault::NoRoom));
        }
        let own = self.stock.order.get(key).has_own_line();
        let first = MessageNumber {
            command: self.count,
            place: 64 + 16 * member,
        };
        self.broken = true;
        let order = &mut self.stock.order;
        let settled = take_refused(alloc, &mut self.due, order, key, session, delivery)?;
        move_refused(
            alloc,
            &mut self.stock.shared,
            &mut self.stock.held,
            own,
            first,
            settled,
        )?;
        self.broken = false;
        Ok(Ok(()))
    }

    /// Hands out what waits, one delivery after another, until nothing can be handed out. The MESSAGEs come in their order, if
    /// the outputs are kept; else none is made. Nothing is due then. If memory is refused, the tables may be broken.
    pub fn settle(&mut self, alloc: Global, answers: &mut Answers) -> Result<(), AllocError>
        requires whole { self.old.broken ≡ false }
        ensures state { OnOk result (self.new.state ≡ (settled_state self.old.state).state) }
        ensures outs { OnOk result (answers.new ≡ with_outs (settled_state self.old.state).outs answers.old) }
        ensures due { OnOk result (self.new.due ≡ 0) }
        ensures whole { OnOk result (self.new.broken ≡ false) }
    {
        let mut cursors = Cursors::of(alloc, &self.stock.order, self.due.as_slice())?;
        self.broken = true;
        self.stock
            .hand_out(alloc, self.count, &mut cursors, answers)?;
        self.due.clear();
        self.broken = false;
        Ok(())
    }

    /// A message is sent, and what waits is handed out.
    fn send_and_settle(
        &mut self,
        alloc: Global,
        sending: Sending,
        answers: &mut Answers,
    ) -> Result<Result<(), Fault>, AllocError>
        requires whole { self.old.broken ≡ false }
        ensures sent { IfOk result (λ r. IsCarriedOut (sent self.old.state 0 sending) self.old answers.old r self.new answers.new) }
        ensures whole { OnOk result (self.new.broken ≡ false) }
    {
        match self.send(alloc, 0, sending)? {
            Ok(()) => {
                self.settle(alloc, answers)?;
                Ok(Ok(()))
            }
            Err(fault) => Ok(Err(fault)),
        }
    }

    /// A message is sent by the command that is being carried out, and what waits is handed out. The MESSAGEs come in their
    /// order, if the outputs are kept; else none is made. If the copies find no room, it is refused, and the tables are as
    /// they were. If memory is refused, the tables may be broken.
    pub fn send_out(
        &mut self,
        alloc: Global,
        sending: Sending,
        answers: &mut Answers,
    ) -> Result<Result<(), Fault>, AllocError>
        requires whole { self.old.broken ≡ false }
        ensures sent { IfOk result (λ r. IsCarriedOut (sent self.old.state 0 sending) self.old answers.old r self.new answers.new) }
        ensures whole { OnOk result (self.new.broken ≡ false) }
    {
        self.stock.shared.stand_in_order();
        let swift = swift_group(&self.stock, &self.durables, self.due.as_slice(), &sending);
        let Some((group, count)) = swift else {
            return self.send_and_settle(alloc, sending, answers);
        };
        let message = Message {
            number: MessageNumber {
                command: self.count,
                place: 0,
            },
            sending,
        };
        self.broken = true;
        self.stock
            .hand_to_each(alloc, self.count, group, count, message, answers)?;
        self.broken = false;
        Ok(Ok(()))
    }
}

/// The key of the subscription of that session that has not acknowledged the delivery of that number.
pub(crate) fn find_awaiting(order: &Order, session: u64, delivery: u64) -> Option<Key>
    ensures { MatchOption result (NonePass (awaits session delivery) (subs_of order.now.all))
        (IsFirstAt (awaits session delivery) order.now.all) }
{
    let sought = Sought::Delivery(delivery);
    match order.next_of(session, sought, 0) {
        Some(place) => Some(place.key),
        None => None,
    }
}

/// That queue as a destination.
fn dead_queue(alloc: Global) -> Result<Dest, AllocError>
    ensures { IfOk result (λ destination. destination ≡ dead_queue) }
{
    match Dest::read(alloc, DEAD_QUEUE) {
        Ok(destination) => Ok(destination),
        Err(DestFault::Memory(refused)) => Err(refused),
        Err(DestFault::Bad) => unreachable!(),
    }
}

/// Whether a refused message is dropped. It is if its subscription has a line of its own, which `own` says, since that is a
/// plain one of a topic. It also is if it was refused before, so that its destination is `/queue/dead` already.
pub fn is_dropped(own: bool, message: &Message) -> bool
    ensures { result ≡ is_dropped own message.now }
{
    own || message.sending.destination().as_str() == DEAD_QUEUE
}

/// The bytes that what was sent counts for once it was refused and has gone to `/queue/dead`.
pub fn refused_size(sending: &Sending) -> u64
    ensures size { result ≡ size_of (record sending.now { destination = dead_queue }) }
    ensures small { result < 2 ^ 22 }
{
    let others = size(sending) - sending.destination().as_str().len();
    (others + DEAD_QUEUE.len()) as u64
}

/// A refused message as it goes to the queue of refused messages, under that number.
fn refused(alloc: Global, number: MessageNumber, message: Message) -> Result<Message, AllocError>
    ensures { IfOk result (λ kept. kept ≡ refused number.command number.place message) }
{
    let destination = dead_queue(alloc)?;
    let sending = message.sending.redirect(destination)?;
    Ok(Message { number, sending })
}

/// The bytes of those deliveries that the NACK of one of them settles.
fn settled_bytes(mode: AckMode, delivery: u64, deliveries: &[(u64, Message)]) -> u64
    requires { length deliveries.now ≤ 4096 }
    ensures bytes { result ≡ bytes_of (settled mode delivery deliveries.now) }
    ensures small { result < 2 ^ 34 }
{
    let mut bytes = 0;
    for (number, message) in deliveries {
        if settles(mode, delivery, *number) {
            bytes += size(&message.sending) as u64;
        }
    }
    bytes
}

/// The bytes that a refused message counts for in the queue of refused messages: none if it is dropped.
fn kept_bytes(own: bool, message: &Message) -> u64
    ensures bytes { result ≡ kept_bytes own message.now }
    ensures small { result < 2 ^ 22 }
{
    if is_dropped(own, message) {
        return 0;
    }
    refused_size(&message.sending)
}

/// The bytes that some deliveries count for in the queue of refused messages: those that the NACK of one of them settles.
fn bytes_to_keep(own: bool, mode: AckMode, delivery: u64, deliveries: &[(u64, Message)]) -> u64
    requires { length deliveries.now ≤ 4096 }
    ensures bytes { result ≡ all_kept_bytes own (settled mode delivery deliveries.now) }
    ensures small { result < 2 ^ 35 }
{
    let mut bytes = 0;
    for (number, message) in deliveries {
        if settles(mode, delivery, *number) {
            bytes += kept_bytes(own, message);
        }
    }
    bytes
}

/// Whether what the NACK of a delivery keeps finds room, once all that it settles has gone.
fn finds_room(held: &Held, sub: &Subscription, delivery: u64) -> bool
    requires small { held.now.bytes ≤ 16777216 }
    requires few { length sub.now.unacknowledged ≤ 4096 }
    requires part { bytes_of (settled sub.now.mode delivery sub.now.unacknowledged) ≤ held.now.bytes }
    ensures { result ≡ nat_le (held.now.bytes
        - bytes_of (settled sub.now.mode delivery sub.now.unacknowledged)
        + all_kept_bytes (is_own sub.now) (settled sub.now.mode delivery sub.now.unacknowledged)) 16777216 }
{
    let deliveries = sub.unacknowledged.as_slice();
    let gone = settled_bytes(sub.mode, delivery, deliveries);
    let kept = bytes_to_keep(sub.has_own_line(), sub.mode, delivery, deliveries);
    held.bytes - gone + kept <= MOST_BYTES
}

/// A settled message goes to the queue of refused ones, under that number, and is held there, unless it is dropped. If
/// memory is refused, the line of that queue may be gone.
fn keep_one(
    alloc: Global,
    shared: &mut SharedLines,
    held: &mut Held,
    own: bool,
    number: MessageNumber,
    message: Message,
) -> Result<(), AllocError>
    requires few { held.old.messages + kept_one own message ≤ 4096 }
    requires small { held.old.bytes + kept_bytes own message ≤ 16777216 }
    ensures lines { OnOk result (shared.new ≡ record shared.old {
      queues = if is_dropped own message then shared.old.queues
          else with_message text_cmp dead_queue (refused number.command number.place message) shared.old.queues;
    }) }
    ensures messages { OnOk result (held.new.messages ≡ held.old.messages + kept_one own message) }
    ensures bytes { OnOk result (held.new.bytes ≡ held.old.bytes + kept_bytes own message) }
{
    if is_dropped(own, &message) {
        return Ok(());
    }
    held.messages += 1;
    held.bytes += refused_size(&message.sending);
    shared.put_in_queue(alloc, refused(alloc, number, message)?)
}

/// Settled messages that are kept go to the queue of refused ones, and are held there. The first that is settled has that
/// number, and each further one the next place, dropped or not. If memory is refused, part of it may be done.
fn keep(
    alloc: Global,
    shared: &mut SharedLines,
    held: &mut Held,
    own: bool,
    first: MessageNumber,
    settled: Vec<(u64, Message)>,
) -> Result<(), AllocError>
    requires places { first.place + length settled.items < 2 ^ 32 }
    requires few { held.old.messages + length settled.items ≤ 4096 }
    requires small { held.old.bytes + all_kept_bytes own settled.items ≤ 16777216 }
    ensures lines { OnOk result (shared.new ≡ with_all_refused own first settled.items shared.old) }
    ensures messages { OnOk result (held.new.messages ≡ held.old.messages + all_kept own settled.items) }
    ensures bytes { OnOk result (held.new.bytes ≡ held.old.bytes + all_kept_bytes own settled.items) }
{
    let mut number = first;
    for (_, message) in settled {
        keep_one(alloc, shared, held, own, number, message)?;
        number.place += 1;
    }
    Ok(())
}

/// What the refusal of a delivery settles leaves the subscription at that key. Those of the session are due, and those of the
/// queue of refused messages. If memory is refused, some of them may be.
fn take_refused(
    alloc: Global,
    marked: &mut Vec<Due>,
    order: &mut Order,
    key: Key,
    session: u64,
    delivery: u64,
) -> Result<Vec<(u64, Message)>, AllocError>
    requires known { StandsSo order.old.all key (λ x. has_delivery delivery x.unacknowledged ≡ true) }
    ensures kept { OnOk result (AllDue (is_due marked.old.items) marked.new.items) }
    ensures session { OnOk result (AllDue (is_of session) marked.new.items) }
    ensures dead { OnOk result (AllDue (is_plain_at dead_queue) marked.new.items) }
    ensures settled { IfOk result (λ o. HoldsAtKey order.old.all key (λ at s. o.items ≡ settled s.sub.mode delivery s.sub.unacknowledged)) }
    ensures unsettled { OnOk result (HoldsAtKey order.old.all key (λ at s. order.new ≡ with_changed at (settled_by delivery) order.old)) }
{
    mark(marked, Due::Session(session))?;
    let dead = dead_queue(alloc)?;
    mark(marked, Due::Destination(dead))?;
    order.settle(key, delivery)
}

/// Settled messages are held no more where they were, and those that are kept go to the queue of refused ones, from that
/// number on. If memory is refused, part of it may be done.
fn move_refused(
    alloc: Global,
    shared: &mut SharedLines,
    held: &mut Held,
    own: bool,
    first: MessageNumber,
    settled: Vec<(u64, Message)>,
) -> Result<(), AllocError>
    requires within { (held.old.messages ≤ 4096) × (held.old.bytes ≤ 16777216) }
    requires places { first.place + length settled.items < 2 ^ 32 }
    requires part { ArePart settled.items held.old }
    requires small { held.old.bytes - bytes_of settled.items + all_kept_bytes own settled.items ≤ 16777216 }
    ensures lines { OnOk result (shared.new ≡ with_all_refused own first settled.items shared.old) }
    ensures held { OnOk result (MovesHeld own settled.items held.old held.new) }
{
    let_deliveries_go(held, settled.as_slice());
    keep(alloc, shared, held, own, first, settled)
}
