//! The parts of a broker's state, apart.

ghost use Rattle.std.specs.Prelude.{◌≡◌, not};
ghost use Rattle.std.specs.List.Sorted.{IsStrictlySortedBy};
ghost use Rattle.std.specs.Map.{keys_of};
ghost use Rattle.broker_state.specs.Lists.{is_none};
ghost use Rattle.broker_state.specs.Waiting.{line_at, line_for};

use crate::durable_name::{DurableName, GivenName};
use crate::subscription::Subscription;
use command_core::Dest;
use line_core::Line;
use std::collections::BTreeMap;

/// The parts of a state, as they are read from a snapshot: nothing is known of how they go together.
#[derive(Drop)]
pub struct Parts {
    /// How many commands were carried out.
    pub count: u64,
    /// The number of the next delivery.
    pub next_delivery: u64,
    /// The open sessions, each with the name of its client if it has one.
    pub sessions: BTreeMap<u64, Option<GivenName>>,
    /// The topic of each durable name.
    pub durables: BTreeMap<DurableName, Dest>,
    /// The lines of durable names that have messages.
    pub names: BTreeMap<DurableName, Line>,
    /// The lines of queues that have messages.
    pub queues: BTreeMap<Dest, Line>,
    /// The subscriptions, in waiting order.
    pub subscriptions: Vec<Subscription>,
}

/// The lines stand by rising key, each once: a map knows that when it is asked. Nothing changes.
pub fn stand_in_order<K: Ord>(lines: &BTreeMap<K, Line>)
    ensures { IsStrictlySortedBy K.cmp (keys_of lines.now.entries) }
{
    let _count = lines.len();
}

/// Whether messages wait in the line under that key.
pub fn has_some<K: Ord>(lines: &BTreeMap<K, Line>, key: &K) -> bool
    ensures { result ≡ not (is_none (line_at K.cmp key.now lines.now.entries)) }
{
    match lines.get(key) {
        Some(line) => !line.is_empty(),
        None => false,
    }
}

/// Whether a message waits for a subscription: in one of these lines of durable names and of queues, or in its own.
pub fn has_waiting(
    names: &BTreeMap<DurableName, Line>,
    queues: &BTreeMap<Dest, Line>,
    sub: &Subscription,
) -> bool
    ensures { result ≡ not (is_none (line_for (record { names = names.now.entries; queues = queues.now.entries }) sub.now)) }
{
    match &sub.durable {
        Some(name) => has_some(names, name),
        None if sub.destination.is_queue() => has_some(queues, &sub.destination),
        None => !sub.line.is_empty(),
    }
}
