//! Whether the parts of a state are those of one that a broker can have.

ghost use Rattle.std.specs.Prelude.{◌↔◌, IfOk, IsTrue, ◌≡◌, ◌≤◌, None, [], IfSome, false, true, ◌+◌, ◌++◌, Bool, List, MatchOption, ℕ, cond, count_by, IsSome, Some, length, ◌==◌, ◌<◌, ◌^◌};
ghost use Rattle.std.specs.List.{sum_by, AllByRecursion};
ghost use Rattle.std.specs.BTreeMap.{is_at};
ghost use Rattle.std.specs.BTreeSet.{contains};
ghost use Rattle.std.specs.Ordering.{nat_cmp};
ghost use Rattle.command_core.specs.Destinations.{is_queue};
ghost use Rattle.line_core.specs.Lines.{is_same};
ghost use Rattle.line_core.specs.declared.message.MessageNumber.{MessageNumber};
ghost use Rattle.line_core.specs.Flights.{IsOver};
ghost use Rattle.broker_state.specs.PartsOf.{state_of_parts};
ghost use Rattle.broker_state.specs.Sound.{IsSound, HasLimits, AreTo, HasLines, had_by, AreOnce, HasNames, OwnsName, HasNumbers, HasSubscriptions, window_of};
ghost use Rattle.broker_state.specs.HandOut.{can_take, hand_out};
ghost use Rattle.broker_state.specs.Rooms.{IsLeft};
ghost use Rattle.broker_state.specs.States.{held_bytes, held_messages, weight_of, weight_of_subscription, IsInOrder, standing, is_open};
ghost use Rattle.broker_state.specs.Waiting.{weight_of_lines, is_own, line_at};
ghost use Rattle.broker_state.specs.Lists.{is_none};
ghost use Rattle.broker_state.specs.Operations.{topic_of, uses, client_of, is_named, is_of};
ghost use Rattle.broker_state.specs.Kept.{takes_from, unacknowledged_by};
ghost use Rattle.broker_state.specs.Names.{AreSame, Name, name_cmp, text_cmp};
ghost use Rattle.broker_state.specs.Seen.{Tells, count_of, seen_at};
ghost use Rattle.broker_state.specs.declared.subscription.Subscription.{Subscription};

use crate::{
    DurableName, GivenName, Held, LAST_DELIVERY, MOST_BYTES, MOST_MESSAGES, MOST_NAMES,
    MOST_SUBSCRIPTIONS, Parts, Subscription, WINDOW, has_waiting, stand_in_order,
};
use command_core::{AckMode, Dest, HeaderText};
use line_core::{Flight, Line, Message, MessageNumber, size};
use std::alloc::{AllocError, Global};
use std::collections::{BTreeMap, BTreeSet};

/// How much may be held.
const MOST: Held = Held {
    messages: MOST_MESSAGES,
    bytes: MOST_BYTES,
};

/// Whether these are the parts of a state that a broker can have.
pub fn are_sound(alloc: Global, parts: &Parts) -> Result<bool, AllocError>
    ensures { IfOk result (λ yes. IsTrue yes ↔ IsSound (state_of_parts parts.now)) }
{
    if !is_in_order(parts) || !has_limits(parts) {
        return Ok(false);
    }
    if !has_subscriptions(alloc, parts)? || !has_names(alloc, parts)? {
        return Ok(false);
    }
    Ok(has_numbers(alloc, parts)? && has_lines(alloc, parts)?)
}

/// The room that a message leaves, if it fits.
fn room_beside(room: Held, message: &Message) -> Option<Held>
    ensures { IsLeft room (λ weight. weight message.now) result }
{
    let messages = room.messages.checked_sub(1)?;
    let bytes = room.bytes.checked_sub(size(&message.sending) as u64)?;
    Some(Held { messages, bytes })
}

/// The room that the messages of a line leave, if they fit.
fn room_beside_line(room: Held, line: &Line) -> Option<Held>
    ensures { IsLeft room (λ weight. sum_by weight line.now) result }
{
    let mut left = room;
    for at in 0..line.len() {
        left = room_beside(left, line.get(at).unwrap())?;
    }
    Some(left)
}

/// The room that the messages of lines leave, if they fit.
fn room_beside_lines<K: Ord>(room: Held, lines: &BTreeMap<K, Line>) -> Option<Held>
    ensures { IsLeft room (λ weight. weight_of_lines weight lines.now.entries) result }
{
    let mut left = room;
    for (_, line) in lines {
        left = room_beside_line(left, line)?;
    }
    Some(left)
}

/// The room that the messages of deliveries leave, if they fit.
fn room_beside_deliveries(room: Held, deliveries: &[(u64, Message)]) -> Option<Held>
    ensures { IsLeft room (λ weight. sum_by (λ delivery. weight delivery.1) deliveries.now) result }
{
    let mut left = room;
    for (_, message) in deliveries {
        left = room_beside(left, message)?;
    }
    Some(left)
}

/// The room that the messages of a subscription leave, if they fit.
fn room_beside_subscription(room: Held, sub: &Subscription) -> Option<Held>
    ensures { IsLeft room (λ weight. weight_of_subscription weight sub.now) result }
{
    let left = room_beside_line(room, &sub.line)?;
    room_beside_deliveries(left, sub.unacknowledged.as_slice())
}

/// The room that the messages of subscriptions leave, if they fit.
fn room_beside_subscriptions(room: Held, subscriptions: &[Subscription]) -> Option<Held>
    ensures { IsLeft room (λ weight. sum_by (weight_of_subscription weight) subscriptions.now) result }
{
    let mut left = room;
    for sub in subscriptions {
        left = room_beside_subscription(left, sub)?;
    }
    Some(left)
}

/// The room that all messages leave, if they fit.
fn room_beside_all(room: Held, parts: &Parts) -> Option<Held>
    ensures { IsLeft room (λ weight. weight_of weight (state_of_parts parts.now)) result }
{
    let left = room_beside_lines(room, &parts.names)?;
    let left = room_beside_lines(left, &parts.queues)?;
    room_beside_subscriptions(left, parts.subscriptions.as_slice())
}

/// Whether no more messages and bytes are held than may be.
fn are_within(parts: &Parts) -> bool
    ensures { IsTrue result ↔ (held_messages (state_of_parts parts.now) ≤ 4096) × (held_bytes (state_of_parts parts.now) ≤ 16777216) }
{
    room_beside_all(MOST, parts).is_some()
}

/// How much is held, which is no more than may be.
pub fn held_of(parts: &Parts) -> Held
    requires messages { held_messages (state_of_parts parts.now) ≤ 4096 }
    requires bytes { held_bytes (state_of_parts parts.now) ≤ 16777216 }
    ensures messages { result.messages ≡ held_messages (state_of_parts parts.now) }
    ensures bytes { result.bytes ≡ held_bytes (state_of_parts parts.now) }
{
    match room_beside_all(MOST, parts) {
        Some(left) => Held {
            messages: MOST.messages - left.messages,
            bytes: MOST.bytes - left.bytes,
        },
        None => unreachable!(),
    }
}

/// Whether a subscription can be served now.
fn can_take(parts: &Parts, sub: &Subscription) -> bool
    ensures { result ≡ can_take (state_of_parts parts.now) sub.now }
{
    parts.next_delivery < LAST_DELIVERY
        && sub.has_room()
        && has_waiting(&parts.names, &parts.queues, sub)
}

/// Whether nothing can be handed out.
fn are_settled(parts: &Parts) -> bool
    ensures { IsTrue result ↔ (hand_out (state_of_parts parts.now) ≡ None) }
{
    for sub in &parts.subscriptions {
        if can_take(parts, sub) {
            return false;
        }
    }
    true
}

/// Whether at most 4,096 messages and 16,777,216 bytes are held, and nothing waits that could be handed out.
pub fn has_limits(parts: &Parts) -> bool
    ensures { IsTrue result ↔ HasLimits (state_of_parts parts.now) }
{
    are_within(parts) && are_settled(parts)
}

/// Whether a message is to that destination.
fn is_to(message: &Message, to: &Dest) -> bool
    ensures { IsTrue result ↔ (message.now.sending.destination ≡ to.now) }
{
    *message.sending.destination() == *to
}

/// Whether the messages of a line are to that destination.
fn line_is_to(line: &Line, to: &Dest) -> bool
    ensures { IsTrue result ↔ AreTo to.now line.now }
{
    for at in 0..line.len() {
        if !is_to(line.get(at).unwrap(), to) {
            return false;
        }
    }
    true
}

/// Whether the messages of deliveries are to that destination.
fn deliveries_are_to(deliveries: &[(u64, Message)], to: &Dest) -> bool
    ensures { IsTrue result ↔ AllByRecursion (λ d. d.1.sending.destination ≡ to.now) deliveries.now }
{
    deliveries.iter().all(|(_, message)| is_to(message, to))
}

/// Whether a line is of a queue, is not empty and has only messages to the queue.
fn is_of_queue(to: &Dest, line: &Line) -> bool
    ensures { IsTrue result ↔ ((is_queue to.now ≡ true) × (is_none line.now ≡ false) × AreTo to.now line.now) }
{
    to.is_queue() && !line.is_empty() && line_is_to(line, to)
}

/// Whether the lines of queues are not empty and have only messages to their queues.
fn are_of_queues(queues: &BTreeMap<Dest, Line>) -> bool
    ensures { IsTrue result ↔ AllByRecursion (λ line. (is_queue line.0 ≡ true) × (is_none line.1 ≡ false) × AreTo line.0 line.1) queues.now.entries }
{
    queues.iter().all(|(to, line)| is_of_queue(to, line))
}

/// Whether a line of a durable name is not empty and has only messages to the name's topic.
fn is_of_name(durables: &BTreeMap<DurableName, Dest>, name: &DurableName, line: &Line) -> bool
    ensures { IsTrue result
        ↔ ((is_none line.now ≡ false) × IfSome (topic_of name.now durables.now.entries) (λ topic. AreTo topic line.now)) }
{
    match durables.get(name) {
        Some(topic) => !line.is_empty() && line_is_to(line, topic),
        None => !line.is_empty(),
    }
}

/// Whether the lines of durable names are not empty and have only messages to their names' topics.
fn are_of_names(parts: &Parts) -> bool
    ensures { IsTrue result
        ↔ AllByRecursion (λ line. (is_none line.1 ≡ false) × IfSome (topic_of line.0 parts.now.durables.entries) (λ topic. AreTo topic line.1))
        parts.now.names.entries }
{
    let durables = &parts.durables;
    parts
        .names
        .iter()
        .all(|(name, line)| is_of_name(durables, name, line))
}

/// Whether a subscription has only messages to its destination.
fn has_its_own(sub: &Subscription) -> bool
    ensures { IsTrue result ↔ AreTo sub.now.destination (had_by sub.now) }
{
    line_is_to(&sub.line, &sub.destination)
        && deliveries_are_to(sub.unacknowledged.as_slice(), &sub.destination)
}

/// Whether each subscription has only messages to its destination.
fn have_their_own(subscriptions: &[Subscription]) -> bool
    ensures { IsTrue result ↔ AllByRecursion (λ sub. AreTo sub.destination (had_by sub)) subscriptions.now }
{
    subscriptions.iter().all(|sub| has_its_own(sub))
}

/// Whether a subscription has messages in its line only if that is one of its own.
fn waits_in_its_own(sub: &Subscription) -> bool
    ensures { IsTrue result ↔ (is_own sub.now ≡ false → sub.now.line ≡ []) }
{
    sub.has_own_line() || sub.line.is_empty()
}

/// Whether each subscription has messages in its line only if that is one of its own.
fn wait_in_their_own(subscriptions: &[Subscription]) -> bool
    ensures { IsTrue result ↔ AllByRecursion (λ sub. is_own sub ≡ false → sub.line ≡ []) subscriptions.now }
{
    subscriptions.iter().all(|sub| waits_in_its_own(sub))
}

/// Whether no line is empty, messages stand only where they may, in lines of their destination, and none stands twice
/// in a line and what is unacknowledged from it.
pub fn has_lines(alloc: Global, parts: &Parts) -> Result<bool, AllocError>
    ensures { IfOk result (λ yes. IsTrue yes ↔ HasLines (state_of_parts parts.now)) }
{
    let subscriptions = parts.subscriptions.as_slice();
    if !are_of_queues(&parts.queues) || !are_of_names(parts) {
        return Ok(false);
    }
    if !have_their_own(subscriptions) || !wait_in_their_own(subscriptions) {
        return Ok(false);
    }
    if !are_once_in_queues(alloc, parts)? {
        return Ok(false);
    }
    if !are_once_under_names(alloc, parts)? {
        return Ok(false);
    }
    have_once(alloc, subscriptions)
}

/// Whether the messages of a line have numbers that differ and that were not seen under the key. If so, they are seen
/// from then on.
fn line_is_new<'a, K: Ord>(
    seen: &mut BTreeSet<(&'a K, MessageNumber)>,
    key: &'a K,
    line: &Line,
) -> Result<bool, AllocError>
    requires { AreSame K.cmp }
    ensures new { IfOk result (λ yes. IsTrue yes
        ↔ ((number : MessageNumber) → seen_at K.cmp seen.old key.now number + count_of number line.now ≤ 1)) }
    ensures seen { IfOk result (λ yes. IsTrue yes → (at : K) (number : MessageNumber)
        → seen_at K.cmp seen.new at number ≡ seen_at K.cmp seen.old at number + cond (is_at (K.cmp at) key.now) (count_of number line.now) 0) }
{
    for at in 0..line.len() {
        if !seen.insert((key, line.get(at).unwrap().number))? {
            return Ok(false);
        }
    }
    Ok(true)
}

/// Whether the messages of deliveries have numbers that differ and that were not seen under the key. If so, they are seen
/// from then on.
fn deliveries_are_new<'a, K: Ord>(
    seen: &mut BTreeSet<(&'a K, MessageNumber)>,
    key: &'a K,
    deliveries: &[(u64, Message)],
) -> Result<bool, AllocError>
    requires { AreSame K.cmp }
    ensures new { IfOk result (λ yes. IsTrue yes
        ↔ ((number : MessageNumber) → seen_at K.cmp seen.old key.now number
        + count_by (λ d. is_same number d.1.number) deliveries.now ≤ 1)) }
    ensures seen { IfOk result (λ yes. IsTrue yes → (at : K) (number : MessageNumber)
        → seen_at K.cmp seen.new at number ≡ seen_at K.cmp seen.old at number
        + cond (is_at (K.cmp at) key.now) (count_by (λ d. is_same number d.1.number) deliveries.now) 0) }
{
    for (_, message) in deliveries {
        if !seen.insert((key, message.number))? {
            return Ok(false);
        }
    }
    Ok(true)
}

/// Whether the messages of each line have numbers that differ and that were not seen under its key. If so, they are seen
/// from then on.
fn lines_are_new<'a, K: Ord>(
    seen: &mut BTreeSet<(&'a K, MessageNumber)>,
    lines: &'a BTreeMap<K, Line>,
) -> Result<bool, AllocError>
    requires { AreSame K.cmp }
    ensures new { IfOk result (λ yes. IsTrue yes
        ↔ ((at : K) (number : MessageNumber) → seen_at K.cmp seen.old at number + count_of number (line_at K.cmp at lines.now.entries) ≤ 1)) }
    ensures seen { IfOk result (λ yes. IsTrue yes → (at : K) (number : MessageNumber)
        → seen_at K.cmp seen.new at number ≡ seen_at K.cmp seen.old at number + count_of number (line_at K.cmp at lines.now.entries)) }
{
    for (key, line) in lines {
        if !line_is_new(seen, key, line)? {
            return Ok(false);
        }
    }
    Ok(true)
}

/// The queue from which a subscription takes its messages, if it is one of a queue.
fn queue_of(sub: &Subscription) -> Option<&Dest>
    ensures { MatchOption result ((to : List ℕ) → takes_from to sub.now ≡ false)
        (λ queue. (to : List ℕ) → takes_from to sub.now ≡ is_at (text_cmp to) queue.now) }
{
    match &sub.durable {
        None if sub.destination.is_queue() => Some(&sub.destination),
        _ => None,
    }
}

/// The durable name that a subscription uses, if it uses one.
fn name_of(sub: &Subscription) -> Option<&DurableName>
    ensures { MatchOption result ((name : Name) → uses name sub.now ≡ false)
        (λ own. (name : Name) → uses name sub.now ≡ is_at (name_cmp name) own.now) }
{
    match &sub.durable {
        Some(name) => Some(name),
        None => None,
    }
}

/// Whether what the subscriptions of each key have not acknowledged has numbers that differ and that were not seen under
/// the key. `key_of` tells the key of a subscription.
fn unacknowledged_are_new<'a, K: Ord, F: Fn(&'a Subscription) -> Option<&'a K>>(
    seen: &mut BTreeSet<(&'a K, MessageNumber)>,
    subscriptions: &'a [Subscription],
    key_of: F,
) -> Result<bool, AllocError>
    requires same { AreSame K.cmp }
    requires callable { F.IsAlwaysCallable key_of }
    ensures { (takes : K → Subscription → Bool) → Tells K.cmp (F.post key_of) takes
        → IfOk result (λ yes. IsTrue yes
        ↔ ((key : K) (number : MessageNumber) → seen_at K.cmp seen.old key number
        + count_of number (unacknowledged_by (takes key) subscriptions.now) ≤ 1)) }
{
    for sub in subscriptions {
        if let Some(key) = key_of(sub) {
            if !deliveries_are_new(seen, key, sub.unacknowledged.as_slice())? {
                return Ok(false);
            }
        }
    }
    Ok(true)
}

/// Whether for each key no message stands twice in its line and what its subscriptions have not acknowledged. `key_of`
/// tells the key of a subscription.
fn are_once_by<'a, K: Ord, F: Fn(&'a Subscription) -> Option<&'a K>>(
    alloc: Global,
    lines: &'a BTreeMap<K, Line>,
    subscriptions: &'a [Subscription],
    key_of: F,
) -> Result<bool, AllocError>
    requires same { AreSame K.cmp }
    requires callable { F.IsAlwaysCallable key_of }
    ensures { (takes : K → Subscription → Bool) → Tells K.cmp (F.post key_of) takes
        → IfOk result (λ yes. IsTrue yes
        ↔ ((key : K) → AreOnce (line_at K.cmp key lines.now.entries ++ unacknowledged_by (takes key) subscriptions.now))) }
{
    let mut seen = BTreeSet::new(alloc);
    if !lines_are_new(&mut seen, lines)? {
        return Ok(false);
    }
    unacknowledged_are_new(&mut seen, subscriptions, key_of)
}

/// Whether for each queue no message stands twice in its line and what is unacknowledged.
pub fn are_once_in_queues(alloc: Global, parts: &Parts) -> Result<bool, AllocError>
    ensures { IfOk result (λ yes. IsTrue yes
        ↔ ((to : List ℕ) → AreOnce (line_at text_cmp to parts.now.queues.entries ++ unacknowledged_by (takes_from to) parts.now.subscriptions.items))) }
{
    let subscriptions = parts.subscriptions.as_slice();
    are_once_by(alloc, &parts.queues, subscriptions, |sub| queue_of(sub))
}

/// Whether for each durable name no message stands twice in its line and what is unacknowledged.
pub fn are_once_under_names(alloc: Global, parts: &Parts) -> Result<bool, AllocError>
    ensures { IfOk result (λ yes. IsTrue yes
        ↔ ((name : Name) → AreOnce (line_at name_cmp name parts.now.names.entries ++ unacknowledged_by (uses name) parts.now.subscriptions.items))) }
{
    let subscriptions = parts.subscriptions.as_slice();
    are_once_by(alloc, &parts.names, subscriptions, |sub| name_of(sub))
}

/// Whether a subscription has no message twice. They are seen under its id, the only key here.
fn has_once(alloc: Global, sub: &Subscription) -> Result<bool, AllocError>
    ensures { IfOk result (λ yes. IsTrue yes ↔ AreOnce (had_by sub.now)) }
{
    let mut seen: BTreeSet<(&HeaderText, MessageNumber)> = BTreeSet::new(alloc);
    if !line_is_new(&mut seen, &sub.id, &sub.line)? {
        return Ok(false);
    }
    deliveries_are_new(&mut seen, &sub.id, sub.unacknowledged.as_slice())
}

/// Whether no subscription has a message twice.
pub fn have_once(alloc: Global, subscriptions: &[Subscription]) -> Result<bool, AllocError>
    ensures { IfOk result (λ yes. IsTrue yes ↔ AllByRecursion (λ sub. AreOnce (had_by sub)) subscriptions.now) }
{
    for sub in subscriptions {
        if !has_once(alloc, sub)? {
            return Ok(false);
        }
    }
    Ok(true)
}

/// Whether no more durable names are bound than may be.
fn names_are_few(parts: &Parts) -> bool
    ensures { IsTrue result ↔ (length parts.now.durables.entries ≤ 256) }
{
    parts.durables.len() <= MOST_NAMES
}

/// Whether each durable name is bound to a topic.
fn are_of_topics(durables: &BTreeMap<DurableName, Dest>) -> bool
    ensures { IsTrue result ↔ AllByRecursion (λ durable. is_queue durable.1 ≡ false) durables.now.entries }
{
    durables.iter().all(|(_, topic)| !topic.is_queue())
}

/// Whether a session has a client of that name.
fn is_client(parts: &Parts, session: u64, client: &GivenName) -> bool
    ensures { IsTrue result ↔ (client_of (state_of_parts parts.now) session ≡ Some client.now) }
{
    match parts.sessions.get(&session) {
        Some(Some(own)) => *own == *client,
        _ => false,
    }
}

/// Whether a durable name is bound to that topic.
fn is_bound_to(parts: &Parts, name: &DurableName, topic: &Dest) -> bool
    ensures { IsTrue result ↔ (topic_of name.now parts.now.durables.entries ≡ Some topic.now) }
{
    match parts.durables.get(name) {
        Some(bound) => *bound == *topic,
        None => false,
    }
}

/// Whether the durable name of a subscription, if it has one, is of its session's client and bound to its topic.
fn owns_name(parts: &Parts, sub: &Subscription) -> bool
    ensures { IsTrue result ↔ OwnsName (state_of_parts parts.now) sub.now }
{
    match &sub.durable {
        Some(name) => {
            is_client(parts, sub.session, name.client())
                && is_bound_to(parts, name, &sub.destination)
        }
        None => true,
    }
}

/// Whether the durable name of each subscription is of its session's client and bound to its topic.
fn own_names(parts: &Parts) -> bool
    ensures { IsTrue result ↔ AllByRecursion (OwnsName (state_of_parts parts.now)) parts.now.subscriptions.items }
{
    for sub in &parts.subscriptions {
        if !owns_name(parts, sub) {
            return false;
        }
    }
    true
}

/// Whether no two subscriptions have one durable name.
fn have_own_names(alloc: Global, subscriptions: &[Subscription]) -> Result<bool, AllocError>
    ensures { IfOk result (λ yes. IsTrue yes ↔ ((name : Name) → count_by (uses name) subscriptions.now ≤ 1)) }
{
    let mut seen: BTreeSet<&DurableName> = BTreeSet::new(alloc);
    for sub in subscriptions {
        if let Some(name) = &sub.durable {
            if !seen.insert(name)? {
                return Ok(false);
            }
        }
    }
    Ok(true)
}

/// Whether lines stand only under bound names.
fn are_bound(parts: &Parts) -> bool
    ensures { IsTrue result ↔ AllByRecursion (λ line. IsSome (topic_of line.0 parts.now.durables.entries)) parts.now.names.entries }
{
    let durables = &parts.durables;
    parts
        .names
        .iter()
        .all(|(name, _)| durables.contains_key(name))
}

/// Whether at most 256 durable names are bound, each to a topic, and at most one subscription has each, as one of its
/// client and of its topic. Lines may stand only under bound names.
pub fn has_names(alloc: Global, parts: &Parts) -> Result<bool, AllocError>
    ensures { IfOk result (λ yes. IsTrue yes ↔ HasNames (state_of_parts parts.now)) }
{
    if !names_are_few(parts) || !are_of_topics(&parts.durables) {
        return Ok(false);
    }
    if !own_names(parts) || !are_bound(parts) {
        return Ok(false);
    }
    have_own_names(alloc, parts.subscriptions.as_slice())
}

/// Whether a message is of a command that is counted.
fn is_counted(count: u64, message: &Message) -> bool
    ensures { IsTrue result ↔ (message.now.number.command < count) }
{
    message.number.command < count
}

/// Whether the messages of a line are of commands that are counted.
fn line_is_counted(count: u64, line: &Line) -> bool
    ensures { IsTrue result ↔ AllByRecursion (λ m. m.number.command < count) line.now }
{
    for at in 0..line.len() {
        if !is_counted(count, line.get(at).unwrap()) {
            return false;
        }
    }
    true
}

/// Whether the messages of lines are of commands that are counted.
fn lines_are_counted<K: Ord>(count: u64, lines: &BTreeMap<K, Line>) -> bool
    ensures { IsTrue result ↔ AllByRecursion (λ e. AllByRecursion (λ m. m.number.command < count) e.1) lines.now.entries }
{
    lines.iter().all(|(_, line)| line_is_counted(count, line))
}

/// Whether the messages of deliveries are of commands that are counted.
fn deliveries_are_counted(count: u64, deliveries: &[(u64, Message)]) -> bool
    ensures { IsTrue result ↔ AllByRecursion (λ d. d.1.number.command < count) deliveries.now }
{
    deliveries
        .iter()
        .all(|(_, message)| is_counted(count, message))
}

/// Whether the messages that a subscription has are of commands that are counted.
fn has_counted(count: u64, sub: &Subscription) -> bool
    ensures { IsTrue result ↔ AllByRecursion (λ m. m.number.command < count) (had_by sub.now) }
{
    line_is_counted(count, &sub.line)
        && deliveries_are_counted(count, sub.unacknowledged.as_slice())
}

/// Whether the messages that subscriptions have are of commands that are counted.
fn have_counted(count: u64, subscriptions: &[Subscription]) -> bool
    ensures { IsTrue result ↔ AllByRecursion (λ sub. AllByRecursion (λ m. m.number.command < count) (had_by sub)) subscriptions.now }
{
    subscriptions.iter().all(|sub| has_counted(count, sub))
}

/// Whether all messages are of commands that are counted.
fn messages_are_counted(parts: &Parts) -> bool
    ensures { IsTrue result ↔ AllByRecursion (λ m. m.number.command < parts.now.count) (standing (state_of_parts parts.now)) }
{
    if !lines_are_counted(parts.count, &parts.names) {
        return false;
    }
    if !lines_are_counted(parts.count, &parts.queues) {
        return false;
    }
    have_counted(parts.count, parts.subscriptions.as_slice())
}

/// Whether the number is over those of all deliveries.
fn is_over(next_delivery: u64, deliveries: &[(u64, Message)]) -> bool
    ensures { IsTrue result ↔ IsOver next_delivery deliveries.now }
{
    deliveries
        .iter()
        .all(|(delivery, _)| *delivery < next_delivery)
}

/// Whether the number is over those of all deliveries of a subscription.
fn is_over_those_of(next_delivery: u64, sub: &Subscription) -> bool
    ensures { IsTrue result ↔ IsOver next_delivery sub.now.unacknowledged }
{
    is_over(next_delivery, sub.unacknowledged.as_slice())
}

/// Whether the number is over those of all deliveries of the subscriptions.
fn is_over_all(next_delivery: u64, subscriptions: &[Subscription]) -> bool
    ensures { IsTrue result ↔ AllByRecursion (λ sub. IsOver next_delivery sub.unacknowledged) subscriptions.now }
{
    subscriptions
        .iter()
        .all(|sub| is_over_those_of(next_delivery, sub))
}

/// Whether deliveries have numbers that differ and that were not seen. If so, they are seen from then on.
fn are_new(seen: &mut BTreeSet<u64>, deliveries: &[(u64, Message)]) -> Result<bool, AllocError>
    ensures new { IfOk result (λ yes. IsTrue yes
        ↔ ((delivery : ℕ) → cond (contains nat_cmp seen.old delivery) 1 0 + count_by (λ d. d.0 == delivery) deliveries.now ≤ 1)) }
    ensures seen { IfOk result (λ yes. IsTrue yes
        → (delivery : ℕ) → cond (contains nat_cmp seen.new delivery) 1 0
        ≡ cond (contains nat_cmp seen.old delivery) 1 0 + count_by (λ d. d.0 == delivery) deliveries.now) }
{
    for (delivery, _) in deliveries {
        if !seen.insert(*delivery)? {
            return Ok(false);
        }
    }
    Ok(true)
}

/// Whether no delivery is unacknowledged twice.
fn are_once(alloc: Global, subscriptions: &[Subscription]) -> Result<bool, AllocError>
    ensures { IfOk result (λ yes. IsTrue yes
        ↔ ((delivery : ℕ) → sum_by (λ sub. count_by (λ d. d.0 == delivery) sub.unacknowledged) subscriptions.now ≤ 1)) }
{
    let mut seen = BTreeSet::new(alloc);
    for sub in subscriptions {
        if !are_new(&mut seen, sub.unacknowledged.as_slice())? {
            return Ok(false);
        }
    }
    Ok(true)
}

/// Whether messages are of commands that are counted, deliveries are under the next one, which is at most 2^63, and none
/// is unacknowledged twice.
pub fn has_numbers(alloc: Global, parts: &Parts) -> Result<bool, AllocError>
    ensures { IfOk result (λ yes. IsTrue yes ↔ HasNumbers (state_of_parts parts.now)) }
{
    let subscriptions = parts.subscriptions.as_slice();
    if parts.next_delivery > LAST_DELIVERY || !messages_are_counted(parts) {
        return Ok(false);
    }
    if !is_over_all(parts.next_delivery, subscriptions) {
        return Ok(false);
    }
    are_once(alloc, subscriptions)
}

/// Whether sessions were opened by commands that are counted.
fn sessions_are_counted(parts: &Parts) -> bool
    ensures { IsTrue result ↔ AllByRecursion (λ session. session.0 < parts.now.count) parts.now.sessions.entries }
{
    let count = parts.count;
    parts.sessions.iter().all(|(session, _)| *session < count)
}

/// Whether the parts stand in order. Maps do, so it only has to be seen whether sessions were opened by commands that
/// are counted.
pub fn is_in_order(parts: &Parts) -> bool
    ensures { IsTrue result ↔ IsInOrder (state_of_parts parts.now) }
{
    let _sessions = parts.sessions.len();
    let _durables = parts.durables.len();
    stand_in_order(&parts.names);
    stand_in_order(&parts.queues);
    sessions_are_counted(parts)
}

/// How many deliveries of a subscription may be unacknowledged.
fn window_of(mode: AckMode) -> usize
    ensures { result ≡ window_of mode }
{
    match mode {
        AckMode::Auto => 0,
        AckMode::Client | AckMode::ClientIndividual => WINDOW,
    }
}

/// Whether a subscription has no more unacknowledged than it may.
fn keeps_window(sub: &Subscription) -> bool
    ensures { IsTrue result ↔ (length sub.now.unacknowledged ≤ window_of sub.now.mode) }
{
    sub.unacknowledged.len() <= window_of(sub.mode)
}

/// Whether each subscription has no more unacknowledged than it may.
fn keep_windows(subscriptions: &[Subscription]) -> bool
    ensures { IsTrue result ↔ AllByRecursion (λ sub. length sub.unacknowledged ≤ window_of sub.mode) subscriptions.now }
{
    subscriptions.iter().all(|sub| keeps_window(sub))
}

/// Whether a subscription is one of an open session.
fn is_of_open(parts: &Parts, sub: &Subscription) -> bool
    ensures { result ≡ is_open (state_of_parts parts.now) sub.now.session }
{
    parts.sessions.contains_key(&sub.session)
}

/// Whether each subscription is one of an open session.
fn are_of_open(parts: &Parts) -> bool
    ensures { IsTrue result ↔ AllByRecursion (λ sub. is_open (state_of_parts parts.now) sub.session ≡ true) parts.now.subscriptions.items }
{
    for sub in &parts.subscriptions {
        if !is_of_open(parts, sub) {
            return false;
        }
    }
    true
}

/// Whether no session has more subscriptions than it may.
fn are_few(alloc: Global, subscriptions: &[Subscription]) -> Result<bool, AllocError>
    ensures { IfOk result (λ yes. IsTrue yes ↔ ((session : ℕ) → count_by (is_of session) subscriptions.now ≤ 16)) }
{
    let mut counts: BTreeMap<u64, usize> = BTreeMap::new(alloc);
    for sub in subscriptions {
        let count = counts.get(&sub.session).copied().unwrap_or(0);
        if count == MOST_SUBSCRIPTIONS {
            return Ok(false);
        }
        counts.insert(sub.session, count + 1)?;
    }
    Ok(true)
}

/// Whether no session has two subscriptions of one id.
fn have_own_ids(alloc: Global, subscriptions: &[Subscription]) -> Result<bool, AllocError>
    ensures { IfOk result (λ yes. IsTrue yes ↔ ((session : ℕ) (id : List ℕ) → count_by (is_named session id) subscriptions.now ≤ 1)) }
{
    let mut seen: BTreeSet<(u64, &HeaderText)> = BTreeSet::new(alloc);
    for sub in subscriptions {
        if !seen.insert((sub.session, &sub.id))? {
            return Ok(false);
        }
    }
    Ok(true)
}

/// Whether the subscriptions are of open sessions, at most 16 of each, under ids that differ, and few deliveries of each
/// are unacknowledged.
pub fn has_subscriptions(alloc: Global, parts: &Parts) -> Result<bool, AllocError>
    ensures { IfOk result (λ yes. IsTrue yes ↔ HasSubscriptions (state_of_parts parts.now)) }
{
    let subscriptions = parts.subscriptions.as_slice();
    if !are_of_open(parts) || !keep_windows(subscriptions) {
        return Ok(false);
    }
    if !are_few(alloc, subscriptions)? {
        return Ok(false);
    }
    have_own_ids(alloc, subscriptions)
}
