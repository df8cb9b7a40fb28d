//! The parts of a snapshot, read from the front of bytes. Each reader answers what it read and the bytes after it. It
//! answers `NoSpelling` just if no spelling of its part begins the bytes, and `Memory` if memory is refused. No room
//! is taken by a count that was read: it may lie.

ghost use Rattle.std.specs.Prelude.{◌≡◌, false, IfErr, IfOk, ◌||◌, is_some, not, option_map, IsTrue, None, Some, if◌then◌else◌};
ghost use Rattle.std.specs.List.Sorted.{IsStrictlySortedBy};
ghost use Rattle.std.specs.Map.{keys_of};
ghost use Rattle.std.specs.Ordering.{nat_cmp};
ghost use Rattle.command_core.specs.PartReading.{Gives, name_at, listed_at};
ghost use Rattle.broker_core.specs.PartsOf.{state_of_parts};
ghost use Rattle.broker_core.specs.States.{State};
ghost use Rattle.broker_core.specs.Names.{name_cmp, text_cmp};
ghost use Rattle.command_core.specs.Destinations.{is_queue};
ghost use Rattle.broker_core.specs.Operations.{client_in as client_among};
ghost use Rattle.line_core.specs.Lines.{IsRising};
ghost use Rattle.snapshot_core.specs.Reading.{state_at, durable_at, full_name_at, given_at, keyed_at, queue_at, session_at, delivery_at, message_at, waiting_at, durable_name_at, front_at, had_at, named_by, own_line_at, subscription_at, is_rising as stand_rising, rises as keys_rise};
ghost use Rattle.snapshot_core.specs.Snapshots.{Spells};

use crate::writing::tables_of;
use broker_core::Broker;
use broker_state::{DurableName, GivenName, Parts, Subscription};
use command_core::{
    AckMode, DecodeFault, Dest, HeaderText, read_destination, read_list, read_mode, read_name,
    read_sending, read_text, read_u32, read_u64,
};
use line_core::{Flight, Line, Message, MessageNumber};
use std::alloc::{AllocError, Global};
use std::collections::BTreeMap;

/// The parts of a state, and the bytes after them.
#[tactic(auto, unfolding(crate::specs::Reading::state_at))]
pub fn read_parts(alloc: Global, bytes: &[u8]) -> Result<(Parts, &[u8]), DecodeFault>
    ensures { Gives (λ x. (state_of_parts x.0, x.1.now)) result (state_at bytes.now) }
{
    let (count, rest) = read_u64(bytes)?;
    let (next_delivery, rest) = read_u64(rest)?;
    let (sessions, rest) = read_sessions(alloc, rest)?;
    let (names, rest) = read_durables(alloc, rest)?;
    let (queues, rest) = read_queues(alloc, rest)?;
    let (subscriptions, rest) = read_subscriptions(alloc, &sessions, rest)?;
    let tables = tables_of(alloc, names)?;
    let parts = Parts {
        count,
        next_delivery,
        sessions,
        durables: tables.topics,
        names: tables.lines,
        queues,
        subscriptions,
    };
    Ok((parts, rest))
}

/// The broker of the state that the bytes spell, from the first to the last. It is `NoSpelling` if they spell no state that
/// a broker can have, and `Memory` if memory is refused. A text or a body over its limit is refused before memory is taken
/// for it. Lists take room as their items are read, whatever count stands before them.
pub fn decode_state(alloc: Global, bytes: &[u8]) -> Result<Broker, DecodeFault>
    // The bytes are the snapshot of the broker's state.
    ensures spelled { IfOk result (λ broker. Spells bytes.now broker.state) }
    ensures whole { IfOk result (λ broker. broker.broken ≡ false) }
    // If no broker is found, they are the snapshot of no state.
    ensures none { IfErr result (λ e. e ≡ DecodeFault.NoSpelling → (s : State) → Spells bytes.now s → ⊥) }
{
    let (parts, rest) = read_parts(alloc, bytes)?;
    if !rest.is_empty() {
        return Err(DecodeFault::NoSpelling);
    }
    match Broker::from_parts(alloc, parts)? {
        Some(broker) => Ok(broker),
        None => Err(DecodeFault::NoSpelling),
    }
}

/// A name that may be absent, and is not empty if it is there.
pub fn read_optional_name(
    alloc: Global,
    bytes: &[u8],
) -> Result<(Option<GivenName>, &[u8]), DecodeFault>
    ensures { Gives (λ x. (x.0, x.1.now)) result (name_at bytes.now) }
{
    let (name, rest) = read_name(alloc, bytes)?;
    Ok((GivenName::optional(name), rest))
}

/// A name, which is not empty.
#[tactic(auto, unfolding(crate::specs::Reading::given_at))]
fn read_given(alloc: Global, bytes: &[u8]) -> Result<(GivenName, &[u8]), DecodeFault>
    ensures { Gives (λ x. (x.0, x.1.now)) result (given_at bytes.now) }
{
    let (text, rest) = read_text(alloc, bytes)?;
    if text.as_str().is_empty() {
        return Err(DecodeFault::NoSpelling);
    }
    Ok((GivenName::new(text), rest))
}

/// An open session: its number, and the name of its client.
#[tactic(auto, unfolding(crate::specs::Reading::session_at))]
fn read_session(
    alloc: Global,
    bytes: &[u8],
) -> Result<((u64, Option<GivenName>), &[u8]), DecodeFault>
    ensures { Gives (λ x. (x.0, x.1.now)) result (session_at bytes.now) }
{
    let (number, rest) = read_u64(bytes)?;
    let (client, rest) = read_optional_name(alloc, rest)?;
    Ok(((number, client), rest))
}

/// The open sessions: after their count, by rising number.
#[tactic(auto, unfolding(crate::specs::Reading::keyed_at))]
pub fn read_sessions(
    alloc: Global,
    bytes: &[u8],
) -> Result<(BTreeMap<u64, Option<GivenName>>, &[u8]), DecodeFault>
    ensures { Gives (λ x. (x.0.entries, x.1.now)) result (keyed_at nat_cmp session_at bytes.now) }
{
    let (sessions, rest) = read_list(alloc, bytes, |rest| read_session(alloc, rest))?;
    Ok((map_of(alloc, sessions)?, rest))
}

/// A durable name: that of its client, and its own.
#[tactic(auto, unfolding(crate::specs::Reading::full_name_at))]
fn read_full_name(alloc: Global, bytes: &[u8]) -> Result<(DurableName, &[u8]), DecodeFault>
    ensures { Gives (λ x. (x.0, x.1.now)) result (full_name_at bytes.now) }
{
    let (client, rest) = read_given(alloc, bytes)?;
    let (own, rest) = read_given(alloc, rest)?;
    Ok((DurableName::new(client, own), rest))
}

/// A durable name with its topic and its line.
fn read_durable(
    alloc: Global,
    bytes: &[u8],
) -> Result<((DurableName, (Dest, Line)), &[u8]), DecodeFault>
    ensures { Gives (λ x. (x.0, x.1.now)) result (durable_at bytes.now) }
{
    let (name, rest) = read_full_name(alloc, bytes)?;
    let (bound, rest) = read_line_to(alloc, rest)?;
    Ok(((name, bound), rest))
}

/// Durable names with their topics and lines, after their count.
fn read_listed_durables(
    alloc: Global,
    bytes: &[u8],
) -> Result<(Vec<(DurableName, (Dest, Line))>, &[u8]), DecodeFault>
    ensures { Gives (λ x. (x.0.items, x.1.now)) result (listed_at durable_at bytes.now) }
{
    read_list(alloc, bytes, |rest| read_durable(alloc, rest))
}

/// The durable names with their topics and lines: after their count, by rising name.
#[tactic(auto, unfolding(crate::specs::Reading::keyed_at))]
pub fn read_durables(
    alloc: Global,
    bytes: &[u8],
) -> Result<(Vec<(DurableName, (Dest, Line))>, &[u8]), DecodeFault>
    ensures read { Gives (λ x. (x.0.items, x.1.now)) result (keyed_at name_cmp durable_at bytes.now) }
    ensures rising { IfOk result (λ x. IsStrictlySortedBy name_cmp (keys_of x.0.items)) }
{
    let (durables, rest) = read_listed_durables(alloc, bytes)?;
    if !rises(durables.as_slice()) {
        return Err(DecodeFault::NoSpelling);
    }
    Ok((durables, rest))
}

/// A destination with the line of messages to it.
#[tactic(auto, unfolding(crate::specs::Reading::queue_at))]
fn read_line_to(alloc: Global, bytes: &[u8]) -> Result<((Dest, Line), &[u8]), DecodeFault>
    ensures { Gives (λ x. (x.0, x.1.now)) result (queue_at bytes.now) }
{
    let (destination, rest) = read_destination(alloc, bytes)?;
    let (line, rest) = read_line(alloc, rest)?;
    Ok(((destination, line), rest))
}

/// The queues with their lines: after their count, by rising destination.
#[tactic(auto, unfolding(crate::specs::Reading::keyed_at))]
pub fn read_queues(
    alloc: Global,
    bytes: &[u8],
) -> Result<(BTreeMap<Dest, Line>, &[u8]), DecodeFault>
    ensures { Gives (λ x. (x.0.entries, x.1.now)) result (keyed_at text_cmp queue_at bytes.now) }
{
    let (queues, rest) = read_list(alloc, bytes, |rest| read_line_to(alloc, rest))?;
    Ok((map_of(alloc, queues)?, rest))
}

/// A message: the number of its command, its place there, and what is sent.
#[tactic(auto, unfolding(crate::specs::Reading::message_at))]
fn read_message(alloc: Global, bytes: &[u8]) -> Result<(Message, &[u8]), DecodeFault>
    ensures { Gives (λ x. (x.0, x.1.now)) result (message_at bytes.now) }
{
    let (command, rest) = read_u64(bytes)?;
    let (place, rest) = read_u32(rest)?;
    let (sending, rest) = read_sending(alloc, rest)?;
    let number = MessageNumber { command, place };
    Ok((Message { number, sending }, rest))
}

/// Messages after their count.
fn read_messages(alloc: Global, bytes: &[u8]) -> Result<(Vec<Message>, &[u8]), DecodeFault>
    ensures { Gives (λ x. (x.0.items, x.1.now)) result (listed_at message_at bytes.now) }
{
    read_list(alloc, bytes, |rest| read_message(alloc, rest))
}

/// A delivery: its number, and the message.
#[tactic(auto, unfolding(crate::specs::Reading::delivery_at))]
fn read_delivery(alloc: Global, bytes: &[u8]) -> Result<((u64, Message), &[u8]), DecodeFault>
    ensures { Gives (λ x. (x.0, x.1.now)) result (delivery_at bytes.now) }
{
    let (number, rest) = read_u64(bytes)?;
    let (message, rest) = read_message(alloc, rest)?;
    Ok(((number, message), rest))
}

/// Deliveries after their count.
fn read_deliveries(alloc: Global, bytes: &[u8]) -> Result<(Vec<(u64, Message)>, &[u8]), DecodeFault>
    ensures { Gives (λ x. (x.0.items, x.1.now)) result (listed_at delivery_at bytes.now) }
{
    read_list(alloc, bytes, |rest| read_delivery(alloc, rest))
}

/// Messages that wait: after their count, by rising number.
#[tactic(auto, unfolding(crate::specs::Reading::waiting_at))]
pub fn read_line(alloc: Global, bytes: &[u8]) -> Result<(Line, &[u8]), DecodeFault>
    ensures { Gives (λ x. (x.0, x.1.now)) result (waiting_at bytes.now) }
{
    let (messages, rest) = read_messages(alloc, bytes)?;
    if !is_rising(messages.as_slice()) {
        return Err(DecodeFault::NoSpelling);
    }
    Ok((Line::of(messages), rest))
}

/// Deliveries that are not acknowledged: after their count, by rising number.
#[tactic(auto, unfolding(crate::specs::Reading::keyed_at))]
pub fn read_flight(alloc: Global, bytes: &[u8]) -> Result<(Flight<Message>, &[u8]), DecodeFault>
    ensures { Gives (λ x. (x.0, x.1.now)) result (keyed_at nat_cmp delivery_at bytes.now) }
{
    let (deliveries, rest) = read_deliveries(alloc, bytes)?;
    if !rises(deliveries.as_slice()) {
        return Err(DecodeFault::NoSpelling);
    }
    Ok((Flight::of(deliveries), rest))
}

/// The name of a session's client, if the session is open and its client has one.
fn client_in(sessions: &BTreeMap<u64, Option<GivenName>>, session: u64) -> Option<&GivenName>
    ensures { option_map (λ client. client.now) result ≡ client_among sessions.now.entries session }
{
    match sessions.get(&session) {
        Some(Some(client)) => Some(client),
        _ => None,
    }
}

/// The durable name of a subscription, of which its own part was read: the client has to have a name then.
fn durable_of(
    client: Option<&GivenName>,
    own: Option<GivenName>,
) -> Result<Option<DurableName>, DecodeFault>
    ensures { Gives (λ name. name) result (named_by (option_map (λ c. c.now) client.entry) own) }
{
    let Some(own) = own else {
        return Ok(None);
    };
    let Some(client) = client else {
        return Err(DecodeFault::NoSpelling);
    };
    Ok(Some(DurableName::new(client.clone()?, own)))
}

/// The line of a subscription's own. Nothing is read if it has none.
fn read_own_line(alloc: Global, is_own: bool, bytes: &[u8]) -> Result<(Line, &[u8]), DecodeFault>
    ensures { Gives (λ x. (x.0, x.1.now)) result (own_line_at is_own bytes.now) }
{
    if is_own {
        read_line(alloc, bytes)
    } else {
        Ok((Line::new(alloc), bytes))
    }
}

/// What a subscription begins with: its session, id, destination and mode.
#[tactic(auto, unfolding(crate::specs::Reading::front_at))]
fn read_front(
    alloc: Global,
    bytes: &[u8],
) -> Result<((u64, HeaderText, Dest, AckMode), &[u8]), DecodeFault>
    ensures { Gives (λ x. (x.0, x.1.now)) result (front_at bytes.now) }
{
    let (session, rest) = read_u64(bytes)?;
    let (id, rest) = read_text(alloc, rest)?;
    let (destination, rest) = read_destination(alloc, rest)?;
    let (mode, rest) = read_mode(rest)?;
    Ok(((session, id, destination, mode), rest))
}

/// The durable name of a subscription of that session, if it has one.
#[tactic(auto, unfolding(crate::specs::Reading::durable_name_at))]
fn read_durable_name<'a>(
    alloc: Global,
    sessions: &BTreeMap<u64, Option<GivenName>>,
    session: u64,
    bytes: &'a [u8],
) -> Result<(Option<DurableName>, &'a [u8]), DecodeFault>
    ensures { Gives (λ x. (x.0, x.1.now)) result (durable_name_at (client_among sessions.now.entries session) bytes.now) }
{
    let (own, rest) = read_optional_name(alloc, bytes)?;
    let durable = durable_of(client_in(sessions, session), own)?;
    Ok((durable, rest))
}

/// What a subscription has: the line of its own, if it has one, and what it has not acknowledged.
#[tactic(auto, unfolding(crate::specs::Reading::had_at))]
fn read_had(
    alloc: Global,
    is_own: bool,
    bytes: &[u8],
) -> Result<((Line, Flight<Message>), &[u8]), DecodeFault>
    ensures { Gives (λ x. (x.0, x.1.now)) result (had_at is_own bytes.now) }
{
    let (line, rest) = read_own_line(alloc, is_own, bytes)?;
    let (unacknowledged, rest) = read_flight(alloc, rest)?;
    Ok(((line, unacknowledged), rest))
}

/// Whether a subscription to that destination, with that durable name, has a line of its own.
fn has_own_line(durable: &Option<DurableName>, destination: &Dest) -> bool
    ensures { result ≡ not (is_some durable.now || is_queue destination.now) }
{
    !(durable.is_some() || destination.is_queue())
}

/// A subscription of one of these sessions.
fn read_subscription<'a>(
    alloc: Global,
    sessions: &BTreeMap<u64, Option<GivenName>>,
    bytes: &'a [u8],
) -> Result<(Subscription, &'a [u8]), DecodeFault>
    ensures { Gives (λ x. (x.0, x.1.now)) result (subscription_at sessions.now.entries bytes.now) }
{
    let ((session, id, destination, mode), rest) = read_front(alloc, bytes)?;
    let (durable, rest) = read_durable_name(alloc, sessions, session, rest)?;
    let is_own = has_own_line(&durable, &destination);
    let ((line, unacknowledged), rest) = read_had(alloc, is_own, rest)?;
    let subscription = Subscription {
        session,
        id,
        destination,
        mode,
        durable,
        line,
        unacknowledged,
    };
    Ok((subscription, rest))
}

/// The subscriptions of these sessions, in waiting order after their count.
pub fn read_subscriptions<'a>(
    alloc: Global,
    sessions: &BTreeMap<u64, Option<GivenName>>,
    bytes: &'a [u8],
) -> Result<(Vec<Subscription>, &'a [u8]), DecodeFault>
    ensures { Gives (λ x. (x.0.items, x.1.now)) result (listed_at (subscription_at sessions.now.entries) bytes.now) }
{
    read_list(
        alloc,
        bytes,
        |rest| read_subscription(alloc, sessions, rest),
    )
}

/// Whether each key is under those after it. Neighbours tell, since keys are in a total order.
pub fn rises<K: Ord, X>(items: &[(K, X)]) -> bool
    ensures test { result ≡ keys_rise K.cmp (keys_of items.now) }
    ensures rising { IsTrue result → IsStrictlySortedBy K.cmp (keys_of items.now) }
{
    for place in 1..items.len() {
        if !items[place - 1].0.cmp(&items[place].0).is_lt() {
            return false;
        }
    }
    true
}

/// Whether no message has a number under that of one before it. Neighbours tell.
pub fn is_rising(messages: &[Message]) -> bool
    ensures test { result ≡ stand_rising messages.now }
    ensures rising { IsTrue result → IsRising messages.now }
{
    for place in 1..messages.len() {
        if messages[place].number < messages[place - 1].number {
            return false;
        }
    }
    true
}

// The map of items that stand by rising key.
fn filled<K: Ord + Drop, X: Drop>(
    alloc: Global,
    items: Vec<(K, X)>,
) -> Result<BTreeMap<K, X>, AllocError>
    requires { IsStrictlySortedBy K.cmp (keys_of items.items) }
    ensures { IfOk result (λ map. map.entries ≡ items.items) }
{
    let mut map = BTreeMap::new(alloc);
    for (key, value) in items {
        map.insert(key, value)?;
    }
    Ok(map)
}

/// The map of items that are to stand by rising key. `NoSpelling` if they do not.
pub fn map_of<K: Ord + Drop, X: Drop>(
    alloc: Global,
    items: Vec<(K, X)>,
) -> Result<BTreeMap<K, X>, DecodeFault>
    ensures { Gives (λ map. map.entries) result
        (if keys_rise K.cmp (keys_of items.items) then Some items.items else None) }
{
    if !rises(items.as_slice()) {
        return Err(DecodeFault::NoSpelling);
    }
    Ok(filled(alloc, items)?)
}
