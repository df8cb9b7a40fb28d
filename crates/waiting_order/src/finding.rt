//! A session finds its own subscriptions by a look at each slot up to its last one.

ghost use Rattle.std.specs.Prelude.{◌≡◌, ◌<◌, ◌≤◌, ℕ, MatchOption, Some, count_by, false, slice_get, true};
ghost use Rattle.std.specs.List.{AllByRecursion};
ghost use Rattle.broker_state.specs.Operations.{is_of};
ghost use Rattle.waiting_order.specs.Directories.{IsNext, IsSlotted};
ghost use Rattle.waiting_order.specs.Keys.{key_eq};
ghost use Rattle.waiting_order.specs.Soughts.{IsSeen, is_sought_of, is_sought, sooner};
ghost use Rattle.waiting_order.specs.Waiting.{IsFree, IsOrdered, subs_of};
ghost use Rattle.waiting_order.specs.declared.waiters.Key.{Key};
ghost use Rattle.waiting_order.specs.declared.waiters.Waiter.{Waiter};

use crate::groups::Place;
use crate::waiters::{Key, SLOTS, Waiters};
use broker_state::Subscription;
use command_core::HeaderText;

/// How many stand at that key: one or none.
fn count_at(waiters: &Waiters, key: Key) -> usize
    ensures count { result ≡ count_by (λ (w : Key × Waiter). key_eq key w.0) waiters.now.all }
    ensures few { result ≤ 1 }
{
    match waiters.get(key) {
        Some(_there) => 1,
        None => 0,
    }
}

/// How many are of that session.
pub fn count_of(waiters: &Waiters, session: u64) -> usize
    requires { AllByRecursion IsSlotted waiters.now.all }
    ensures { result ≡ count_by (is_of session) (subs_of waiters.now.all) }
{
    let mut count = 0;
    let reach = waiters.reach(session);
    for slot in 0..reach {
        let key = Key {
            session,
            slot: slot as u8,
        };
        count += count_at(waiters, key);
    }
    count
}

/// The key of the least slot that is free of a session that has fewer than 16 subscriptions.
pub fn free_key(waiters: &Waiters, session: u64) -> Key
    requires slots { AllByRecursion IsSlotted waiters.now.all }
    requires few { count_by (is_of session) (subs_of waiters.now.all) < 16 }
    ensures free { IsFree waiters.now.all result }
    ensures session { result.session ≡ session }
    ensures slot { result.slot < 16 }
{
    for slot in 0..SLOTS {
        let key = Key { session, slot };
        match waiters.get(key) {
            Some(_taken) => {}
            None => return key,
        }
    }
    unreachable!()
}

/// The place at that key, if it has a ticket from that one on, and its subscription is sought.
fn seen_at(waiters: &Waiters, key: Key, sought: Sought<'_>, from: u64) -> Option<Place>
    ensures seen { IsSeen sought.entry waiters.now.all key from result }
    ensures order { IsOrdered waiters.now }
{
    let Some(waiter) = waiters.get(key) else {
        return None;
    };
    if waiter.ticket < from {
        return None;
    }
    if !is_sought(sought, &waiter.sub) {
        return None;
    }
    Some(Place {
        ticket: waiter.ticket,
        key,
    })
}

/// The place of the first one of that session that is sought, from a ticket on.
pub fn first_of(waiters: &Waiters, session: u64, sought: Sought<'_>, from: u64) -> Option<Place>
    requires { AllByRecursion IsSlotted waiters.now.all }
    ensures { IsNext (λ (s : Waiter). is_sought_of session sought.entry s.sub) waiters.now.all from result }
{
    let mut first = None;
    let reach = waiters.reach(session);
    for slot in 0..reach {
        let key = Key {
            session,
            slot: slot as u8,
        };
        let seen = seen_at(waiters, key, sought, from);
        first = sooner(first, seen);
    }
    first
}

/// Which subscription of a session is sought.
#[derive(Clone, Copy)]
pub enum Sought<'a> {
    /// Any.
    Any,
    /// That of an id.
    Id(&'a HeaderText),
    /// One that has not acknowledged a delivery.
    Delivery(u64),
}

/// Whether a subscription is sought.
pub(crate) fn is_sought(sought: Sought<'_>, sub: &Subscription) -> bool
    ensures { result ≡ is_sought sought.entry sub.now }
{
    match sought {
        Sought::Any => true,
        Sought::Id(id) => *id == sub.id,
        Sought::Delivery(delivery) => sub.unacknowledged.contains(delivery),
    }
}

/// The place with the lesser ticket.
pub(crate) fn sooner(a: Option<Place>, b: Option<Place>) -> Option<Place>
    ensures { result ≡ sooner a b }
{
    match (a, b) {
        (None, b) => b,
        (Some(p), None) => Some(p),
        (Some(p), Some(q)) => Some(if p.ticket <= q.ticket { p } else { q }),
    }
}
