//! How many bytes a snapshot has. No memory is taken to know it. A sum that eight bytes can't hold stays at the greatest
//! number that they can.

ghost use Rattle.std.specs.Prelude.{◌≡◌, ◌<◌, ◌^◌, [], false, length, option_map};
ghost use Rattle.command_core.specs.PartSpellings.{counted, optional};
ghost use Rattle.broker_core.specs.Names.{Name, name_cmp};
ghost use Rattle.broker_core.specs.Sound.{IsSound};
ghost use Rattle.broker_core.specs.Waiting.{is_own, line_at};
ghost use Rattle.snapshot_core.specs.Lengths.{counted_in_eight};
ghost use Rattle.snapshot_core.specs.Snapshots.{listed, snapshot_of};
ghost use Rattle.snapshot_core.specs.Snapshots as spelled;

use broker_core::Broker;
use broker_state::{DurableName, GivenName, Subscription};
use broker_tables::SharedLines;
use command_core::{Dest, sending_size, text_size};
use line_core::{Line, Message};
use std::collections::BTreeMap;

#[tactic(auto, using(crate::proofs::Capped::message_counted))]
fn message_len(message: &Message) -> u64
    ensures len { result ≡ length (spelled.message message.now) }
    ensures small { result < 2 ^ 22 }
{
    12 + sending_size(&message.sending)
}

fn given_len(name: &GivenName) -> u64
    ensures len { result ≡ length (counted name.now) }
    ensures small { result < 2 ^ 14 }
{
    text_size(name.as_text())
}

fn destination_len(destination: &Dest) -> u64
    ensures len { result ≡ length (counted destination.now) }
    ensures small { result < 2 ^ 14 }
{
    4 + destination.as_str().len() as u64
}

fn session_len(number: u64, client: &Option<GivenName>) -> u64
    ensures len { result ≡ length (spelled.session (number, client.now)) }
    ensures small { result < 2 ^ 15 }
{
    match client {
        None => 9,
        Some(name) => 9 + given_len(name),
    }
}

fn line_len(line: &Line) -> u64
    ensures { result ≡ counted_in_eight (length (spelled.line line.now)) }
{
    let mut total: u64 = 4;
    for at in 0..line.len() {
        total = total.saturating_add(message_len(line.get(at).unwrap()));
    }
    total
}

#[tactic(auto, using(crate::proofs::Capped::more_counted, crate::proofs::Capped::all_counted))]
fn sessions_len(sessions: &BTreeMap<u64, Option<GivenName>>) -> u64
    ensures { result ≡ counted_in_eight (length (listed spelled.session sessions.now.entries)) }
{
    let mut total: u64 = 4;
    for (number, client) in sessions {
        total = total.saturating_add(session_len(*number, client));
    }
    total
}

fn line_under_len(name: &DurableName, shared: &SharedLines) -> u64
    ensures { result ≡ counted_in_eight (length (spelled.line (line_at name_cmp name.now shared.now.names))) }
{
    match shared.names().get(name) {
        Some(line) => line_len(line),
        None => 4,
    }
}

#[tactic(auto, using(crate::proofs::Capped::durable_counted))]
fn durable_len(name: &DurableName, topic: &Dest, shared: &SharedLines) -> u64
    ensures { result ≡ counted_in_eight (length (spelled.durable shared.now (name.now, topic.now))) }
{
    let names = given_len(name.client()) + given_len(name.name());
    let front = names + destination_len(topic);
    line_under_len(name, shared).saturating_add(front)
}

#[tactic(auto, using(crate::proofs::Capped::both_counted, crate::proofs::Capped::all_counted))]
fn durables_len(durables: &BTreeMap<DurableName, Dest>, shared: &SharedLines) -> u64
    ensures { result ≡ counted_in_eight (length (listed (spelled.durable shared.now) durables.now.entries)) }
{
    let mut total: u64 = 4;
    for (name, topic) in durables {
        total = total.saturating_add(durable_len(name, topic, shared));
    }
    total
}

#[tactic(auto, using(crate::proofs::Capped::queue_counted))]
fn queue_len(queue: &Dest, line: &Line) -> u64
    ensures { result ≡ counted_in_eight (length (spelled.queue (queue.now, line.now))) }
{
    line_len(line).saturating_add(destination_len(queue))
}

#[tactic(auto, using(crate::proofs::Capped::both_counted, crate::proofs::Capped::all_counted))]
fn queues_len(queues: &BTreeMap<Dest, Line>) -> u64
    ensures { result ≡ counted_in_eight (length (listed spelled.queue queues.now.entries)) }
{
    let mut total: u64 = 4;
    for (queue, line) in queues {
        total = total.saturating_add(queue_len(queue, line));
    }
    total
}

#[tactic(auto, using(crate::proofs::Capped::message_counted))]
fn delivery_len(number: u64, message: &Message) -> u64
    ensures len { result ≡ length (spelled.delivery (number, message.now)) }
    ensures small { result < 2 ^ 23 }
{
    8 + message_len(message)
}

fn deliveries_len(deliveries: &[(u64, Message)]) -> u64
    ensures { result ≡ counted_in_eight (length (listed spelled.delivery deliveries.now)) }
{
    let mut total: u64 = 4;
    for (number, message) in deliveries {
        total = total.saturating_add(delivery_len(*number, message));
    }
    total
}

fn own_name_len(durable: &Option<DurableName>) -> u64
    ensures len { result ≡ length (optional (option_map (λ (name : Name). name.1) durable.now)) }
    ensures small { result < 2 ^ 15 }
{
    match durable {
        None => 1,
        Some(name) => 1 + given_len(name.name()),
    }
}

fn own_line_len(sub: &Subscription) -> u64
    requires own { is_own sub.now ≡ false → sub.now.line ≡ [] }
    ensures { result ≡ counted_in_eight (length (spelled.own_line sub.now)) }
{
    if sub.durable.is_some() || sub.destination.is_queue() {
        return 0;
    }
    line_len(&sub.line)
}

#[tactic(auto, using(crate::proofs::Capped::subscription_counted))]
fn subscription_len(sub: &Subscription) -> u64
    requires own { is_own sub.now ≡ false → sub.now.line ≡ [] }
    ensures { result ≡ counted_in_eight (length (spelled.subscription sub.now)) }
{
    let names = text_size(&sub.id) + destination_len(&sub.destination);
    let front = 9 + names + own_name_len(&sub.durable);
    let deliveries = deliveries_len(sub.unacknowledged.as_slice());
    own_line_len(sub)
        .saturating_add(deliveries)
        .saturating_add(front)
}

fn subscriptions_len(broker: &Broker) -> u64
    requires sound { IsSound broker.now.state }
    ensures { result ≡ counted_in_eight (length (listed spelled.subscription broker.now.state.subscriptions)) }
{
    let mut total: u64 = 4;
    let subs = broker.subscriptions_by_key();
    for at in 0..subs.len() {
        let Some((_key, waiter)) = subs.get_index(at) else {
            unreachable!()
        };
        total = total.saturating_add(subscription_len(&waiter.sub));
    }
    total
}

/// How many bytes the snapshot has of the state of a broker that is not broken. No memory is taken. If they are 2^64 or
/// more, which no machine holds, it is 2^64 - 1.
#[tactic(auto, using(crate::proofs::Capped::state_counted))]
pub fn state_len(broker: &Broker) -> u64
    requires whole { broker.now.broken ≡ false }
    ensures { result ≡ counted_in_eight (length (snapshot_of broker.now.state)) }
{
    prove!(!broker.is_broken());
    let shared = broker.shared();
    let sessions = sessions_len(broker.sessions());
    let durables = durables_len(broker.durables(), shared);
    let queues = queues_len(shared.queues());
    let subscriptions = subscriptions_len(broker);
    sessions
        .saturating_add(durables)
        .saturating_add(queues)
        .saturating_add(subscriptions)
        .saturating_add(16)
}
