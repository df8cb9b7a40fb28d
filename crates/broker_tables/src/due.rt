//! Which subscriptions may be able to take a message since all was last handed out.

ghost use Rattle.std.specs.Prelude.{◌≡◌, IfOk, OnOk, ℕ, true};
ghost use Rattle.std.specs.List.{list_any};
ghost use Rattle.std.specs.Option.{option_map};
ghost use Rattle.broker_state.specs.declared.subscription.Subscription.{Subscription};
ghost use Rattle.broker_state.specs.Operations.{uses};
ghost use Rattle.broker_state.specs.Lists.{is_none};
ghost use Rattle.broker_state.specs.Waiting.{Shared, line_for};
ghost use Rattle.waiting_order.specs.Directories.{IsNext};
ghost use Rattle.broker_tables.specs.Dues.{AllDue, OthersStand, has_name_of, is_due, is_under, line_due};
ghost use Rattle.broker_tables.specs.declared.due.Scope.TheVariants.{Group};
ghost use Rattle.broker_tables.specs.Places.{HoldsAtKey};
ghost use Rattle.broker_tables.specs.Scopes.{IdleUntil, IsScope, StandsWithin, is_within};

use crate::durable_names::{DurableNames, Names};
use broker_state::{DurableName, Subscription};
use command_core::Dest;
use std::alloc::AllocError;
use waiting_order::{Key, Order, Place, Sought};

/// Subscriptions that have something in common, so that they are looked at when what waits is handed out. They are told by
/// text: a mark may outlive a group of the waiting order, whose handle is then given to another.
#[derive(PartialEq, Eq, PartialOrd, Ord, Drop)]
pub enum Due {
    /// Those of a session.
    Session(u64),
    /// Those of a destination that have no durable name.
    Destination(Dest),
    /// The one that has a durable name.
    Durable(DurableName),
}

/// Some are due, unless they are already. If memory is refused, nothing changes.
pub fn mark(marked: &mut Vec<Due>, due: Due) -> Result<(), AllocError>
    ensures kept { OnOk result (AllDue (is_due marked.old.items) marked.new.items) }
    ensures marked { OnOk result (AllDue (is_under due) marked.new.items) }
{
    // The names of a topic come by rising name.
    if marked.last().is_none_or(|last| *last < due) {
        marked.push(due)?;
        return Ok(());
    }
    match marked.binary_search(&due) {
        Ok(_there) => {
            drop(due);
            Ok(())
        }
        Err(at) => {
            marked.insert(at, due)?;
            Ok(())
        }
    }
}

/// Those that are served from the line of a subscription, or from lines of their own for the same topic.
pub fn line_due(sub: &Subscription) -> Result<Due, AllocError>
    ensures { IfOk result (λ due. due ≡ line_due sub.now) }
{
    match &sub.durable {
        Some(name) => Ok(Due::Durable(name.clone()?)),
        None => Ok(Due::Destination(sub.destination.clone()?)),
    }
}

/// The subscriptions that are served from the line of one that ends are due, unless that line is its own.
pub fn mark_line(marked: &mut Vec<Due>, sub: &Subscription) -> Result<(), AllocError>
    ensures kept { OnOk result (AllDue (is_due marked.old.items) marked.new.items) }
    ensures marked { OnOk result (OthersStand marked.new.items sub.now) }
{
    if !sub.has_own_line() {
        let due = line_due(sub)?;
        return mark(marked, due);
    }
    Ok(())
}

/// Each of these names is due. If memory is refused, some of them may be.
fn mark_all(marked: &mut Vec<Due>, names: &Names) -> Result<(), AllocError>
    ensures kept { OnOk result (AllDue (is_due marked.old.items) marked.new.items) }
    ensures marked { OnOk result (AllDue (λ sub. list_any (λ name. uses name sub) names.now) marked.new.items) }
{
    for name in names.all() {
        let name = name.clone()?;
        mark(marked, Due::Durable(name))?;
    }
    Ok(())
}

/// Each durable name that is bound to that topic is due. If memory is refused, some of them may be.
pub fn mark_names(
    marked: &mut Vec<Due>,
    durables: &DurableNames,
    to: &Dest,
) -> Result<(), AllocError>
    ensures kept { OnOk result (AllDue (is_due marked.old.items) marked.new.items) }
    ensures marked { OnOk result (AllDue (has_name_of to.now durables.now) marked.new.items) }
{
    match durables.of_topic(to) {
        Some(names) => mark_all(marked, names),
        None => Ok(()),
    }
}

/// Subscriptions among whom the next one to be served is looked for. The groups stand while what waits is handed out, so
/// that nobody looks for a text then.
#[derive(Clone, Copy, Drop)]
pub enum Scope {
    /// Those of a session.
    Session(u64),
    /// Those of that group of the waiting order, all of which are served from one line, or each from its own.
    Group(usize),
}

/// The scope of that group, if it is one.
fn of_group(group: Option<usize>) -> Option<Scope>
    ensures { result ≡ option_map Group group }
{
    match group {
        Some(group) => Some(Scope::Group(group)),
        None => None,
    }
}

/// The scope of those that are due; none if nobody is.
pub fn scope_of(order: &Order, due: &Due) -> Option<Scope>
    ensures { IsScope due.now order.now.all result }
{
    match due {
        Due::Session(session) => Some(Scope::Session(*session)),
        Due::Destination(to) => of_group(order.group_at(to)),
        Due::Durable(name) => of_group(order.group_under(name)),
    }
}

/// Whether nothing waits for anybody of a scope, if nothing waits for the subscription at that key, which is of it.
pub fn is_idle(order: &Order, scope: Scope, key: Key) -> bool
    requires { StandsWithin scope order.now.all key }
    ensures { result ≡ true → (shared : Shared) → HoldsAtKey order.now.all key (λ at s. is_none (line_for shared s.sub) ≡ true)
        → (from until : ℕ) → IdleUntil scope shared order.now.all from until }
{
    let Scope::Group(group) = scope else {
        return false;
    };
    order.stand_in_order();
    let sub = order.get(key);
    if sub.has_own_line() {
        return order.count_behind(group) == 0;
    }
    true
}

/// The place of the first subscription of a scope, from a ticket on, if there is one.
pub fn next_within(order: &Order, scope: Scope, from: u64) -> Option<Place>
    ensures { IsNext (is_within scope) order.now.all from result }
{
    match scope {
        Scope::Session(session) => order.next_of(session, Sought::Any, from),
        Scope::Group(group) => order.next_in(group, from),
    }
}
