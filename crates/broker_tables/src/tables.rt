//! What the broker keeps: sessions, durable names, lines and subscriptions, and how much is held.

ghost use Rattle.std.specs.Prelude.{◌≡◌, ◌<◌, ◌^◌, IfOk, OnErr, OnOk, false, true, ◌&&◌, ◌++◌, ◌∷◌, [], IsErr, IsOk, MatchOption, Some, count_by, length, nat_le, not, ◌+◌, ◌≤◌, fold};
ghost use Rattle.std.specs.List.{list_any, sum_by};
ghost use Rattle.std.specs.Str.{bytes_eq};
ghost use Rattle.command_core.specs.Texts.{IsGiven};
ghost use Rattle.broker_state.specs.Operations.{opened, begun, begun_for, client_in, is_named, is_of, name_for, subscribed, uses, with_subscription, ended, forgotten, given_up, given_up_for, restarted, unsubscribed_by, without_named};
ghost use Rattle.broker_state.specs.States.{empty_state, held_bytes, held_messages, one, State, bytes};
ghost use Rattle.broker_state.specs.PartsOf.{state_of_parts};
ghost use Rattle.broker_state.specs.Sound.{IsSound};
ghost use Rattle.waiting_order.specs.Waiting.{subs_of};
ghost use Rattle.command_core.specs.declared.command.AckMode.{AckMode};
ghost use Rattle.broker_state.specs.Parts.{NonePass, leaving};
ghost use Rattle.broker_state.specs.declared.subscription.Subscription.{Subscription};
ghost use Rattle.line_core.specs.declared.message.Message.{Message};
ghost use Rattle.broker_state.specs.Waiting.{returned};
ghost use Rattle.waiting_order.specs.Soughts.{is_sought_of};
ghost use Rattle.broker_tables.specs.Tables.{IsTallied};
ghost use Rattle.broker_tables.specs.Dues.{AllDue, is_due, OthersStand};
ghost use Rattle.broker_tables.specs.Places.{IsFirstAt, place_for, EndsFirst};
ghost use Rattle.broker_tables.specs.Returns.{HoldAll, HoldsBoth, LetsGo};

use crate::due::{Due, mark, mark_line};
use crate::durable_names::DurableNames;
use crate::shared_lines::SharedLines;
use crate::stock::Stock;
use broker_state::{
    DurableName, GivenName, Held, MOST_NAMES, MOST_SUBSCRIPTIONS, Parts, Subscription,
};
use command_core::{AckMode, Dest, Fault, HeaderText};
use line_core::{Flight, Line, Message, size};
use std::alloc::{AllocError, Global};
use std::collections::BTreeMap;
use std::marker::Model;
use std::mem;
use waiting_order::{Key, Order, Sought};

/// How many commands were carried out, the open sessions, the durable names, the lines that stay and the subscriptions.
/// How much is held stands there too, so that nobody needs to count it. Contracts see the state that they show, whether
/// they are broken, and how many marks there are of what is due. They are broken if memory was refused within an operation,
/// which has then done a part of its work. What is counted as held is what the state of whole tables holds.
#[derive(Drop)]
pub struct Tables {
    pub(crate) count: u64,
    pub(crate) sessions: BTreeMap<u64, Option<GivenName>>,
    /// The durable names, each with its topic.
    pub(crate) durables: DurableNames,
    pub(crate) stock: Stock,
    /// A subscription that can be served is due by one of these. They grow with what a command touches.
    pub(crate) due: Vec<Due>,
    // An operation is under way, or was refused memory.
    pub(crate) broken: bool,
}

impl Model for Tables {
    ghost use Rattle.std.specs.Prelude.{◌≡◌, false, length};
    ghost use Rattle.broker_tables.specs.Stocks.{shown};
    ghost use Rattle.broker_tables.specs.Tables.{IsKept, TablesValue};

    ghost Value = { TablesValue };

    ghost view = { λ a. record { state = shown a.count a.sessions.entries a.durables a.stock; broken = a.broken; due = length a.due.items } };

    ghost invariant = { λ a. a.broken ≡ false → IsKept a.stock a.due.items };
}

impl Tables {
    /// Empty tables, once so many commands were carried out. No memory is taken.
    pub fn new(alloc: Global, count: u64) -> Tables
        ensures { result ≡ record { state = record empty_state { count = count }; broken = false; due = 0 } }
    {
        Tables {
            count,
            sessions: BTreeMap::new(alloc),
            durables: DurableNames::new(alloc),
            stock: Stock::new(alloc),
            due: Vec::new(alloc),
            broken: false,
        }
    }

    /// The tables of a state that a broker can have, which holds so much. If memory is refused, the parts are let go.
    pub fn of(alloc: Global, parts: Parts, held: Held) -> Result<Tables, AllocError>
        requires sound { IsSound (state_of_parts parts) }
        requires messages { held.messages ≡ held_messages (state_of_parts parts) }
        requires bytes { held.bytes ≡ held_bytes (state_of_parts parts) }
        ensures { IfOk result (λ tables. tables ≡ record { state = state_of_parts parts; broken = false; due = 0 }) }
    {
        let durables = DurableNames::of(alloc, parts.durables)?;
        let order = Order::of(alloc, parts.subscriptions)?;
        Ok(Tables {
            count: parts.count,
            sessions: parts.sessions,
            durables,
            stock: Stock {
                order,
                shared: SharedLines::of(parts.names, parts.queues),
                held,
                next_delivery: parts.next_delivery,
            },
            due: Vec::new(alloc),
            broken: false,
        })
    }

    /// How many commands were carried out.
    pub fn count(&self) -> u64
        ensures { result ≡ self.now.state.count }
    {
        self.count
    }

    /// The number of the next delivery.
    pub fn next_delivery(&self) -> u64
        ensures { result ≡ self.now.state.next_delivery }
    {
        self.stock.next_delivery
    }

    /// The open sessions, each with the name of its client if it has one.
    pub fn sessions(&self) -> &BTreeMap<u64, Option<GivenName>>
        ensures { result.now.entries ≡ self.now.state.sessions }
    {
        &self.sessions
    }

    /// The topic of each durable name.
    pub fn durables(&self) -> &BTreeMap<DurableName, Dest>
        ensures { result.now.entries ≡ self.now.state.durables }
    {
        self.durables.topics()
    }

    /// The lines that stay when a subscription ends.
    pub fn shared(&self) -> &SharedLines
        ensures { result.now ≡ self.now.state.shared }
    {
        &self.stock.shared
    }

    /// The subscriptions in waiting order.
    pub fn order(&self) -> &Order
        ensures subscriptions { subs_of result.now.all ≡ self.now.state.subscriptions }
        ensures tickets { self.now.broken ≡ false → result.now.next < 2 ^ 64 }
    {
        &self.stock.order
    }

    /// How much whole tables hold.
    pub fn held(&self) -> Held
        ensures tallied { self.now.broken ≡ false → IsTallied self.now.state result }
    {
        self.stock.held
    }

    /// Whether memory was refused within an operation.
    pub fn is_broken(&self) -> bool
        ensures { result ≡ self.now.broken }
    {
        self.broken
    }

    /// Lets all go: the tables are broken then, after so many commands, and hold nothing.
    pub fn let_go(&mut self, alloc: Global, count: u64)
        ensures { self.new ≡ record { state = record empty_state { count = count }; broken = true; due = 0 } }
    {
        drop(mem::replace(self, Tables::new(alloc, count)));
        self.broken = true;
    }

    /// So many commands were carried out. The operations leave that number as it is.
    pub fn set_count(&mut self, count: u64)
        ensures { self.new ≡ record self.old { state = record self.old.state { count = count } } }
    {
        self.count = count;
    }

    /// The session opens whose number is that of the command that is being carried out. If memory is refused, nothing
    /// changes.
    pub fn open(&mut self, client_id: Option<HeaderText>) -> Result<(), AllocError>
        requires { IsGiven client_id }
        ensures ok { OnOk result (self.new ≡ record self.old { state = opened self.old.state client_id }) }
        ensures same { OnErr result (self.new ≡ self.old) }
    {
        self.sessions
            .insert(self.count, GivenName::optional(client_id))?;
        Ok(())
    }

    /// The name of a session's client, if it has one.
    pub(crate) fn client_of(&self, session: u64) -> Result<Option<GivenName>, AllocError>
        ensures { IfOk result (λ client. client ≡ client_in self.now.state.sessions session) }
    {
        match self.sessions.get(&session) {
            Some(Some(client)) => Ok(Some(client.clone()?)),
            _ => Ok(None),
        }
    }

    /// The durable name of a session's subscription, if one is given; none for a queue. It is refused if its client has no
    /// name.
    fn name_for(
        &self,
        session: u64,
        destination: &Dest,
        durable: Option<HeaderText>,
    ) -> Result<Result<Option<DurableName>, Fault>, AllocError>
        requires { IsGiven durable }
        ensures { IfOk result (λ r. r ≡ name_for (client_in self.now.state.sessions session) destination.now durable) }
    {
        match durable {
            Some(name) if !destination.is_queue() => match self.client_of(session)? {
                Some(client) => Ok(Ok(Some(DurableName::new(client, GivenName::new(name))))),
                None => Ok(Err(Fault::NoClientId)),
            },
            _ => Ok(Ok(None)),
        }
    }

    /// The durable name of a session's subscription of that id, which is to begin, if one is given. It is refused if the
    /// session has one of that id, or 16, and with a durable name if the session's client has no name.
    fn find_name(
        &self,
        session: u64,
        id: &HeaderText,
        destination: &Dest,
        durable: Option<HeaderText>,
    ) -> Result<Result<Option<DurableName>, Fault>, AllocError>
        requires form { IsGiven durable }
        ensures begun { IfOk result (λ r. (mode : AckMode) → subscribed self.now.state session id.now destination.now mode durable
            ≡ begun_for self.now.state session id.now destination.now mode r) }
        ensures few { IfOk result (λ r. IsOk r → count_by (is_of session) self.now.state.subscriptions < 16) }
    {
        match find_place(&self.stock.order, session, id) {
            Ok(()) => self.name_for(session, destination, durable),
            Err(fault) => Ok(Err(fault)),
        }
    }

    /// A subscription begins and waits last, under a durable name if one is given. It is refused if the session has one of
    /// that id, or 16. With a durable name, it is refused if the session's client has none itself, or if somebody uses the
    /// name, it is another topic's, or it would be the 257th. The tables are as they were then. If memory is refused, they
    /// may be broken.
    pub fn subscribe(
        &mut self,
        alloc: Global,
        session: u64,
        id: HeaderText,
        destination: Dest,
        mode: AckMode,
        durable: Option<HeaderText>,
    ) -> Result<Result<(), Fault>, AllocError>
        requires form { IsGiven durable }
        requires whole { self.old.broken ≡ false }
        ensures subscribed { IfOk result (λ r. subscribed self.old.state session id destination mode durable ≡ leaving r self.new.state) }
        ensures same { IfOk result (λ r. IsErr r → self.new ≡ self.old) }
        ensures whole { OnOk result (self.new.broken ≡ false) }
    {
        match self.find_name(session, &id, &destination, durable) {
            Ok(Ok(durable)) => self.begin(
                alloc,
                Subscription {
                    session,
                    id,
                    destination,
                    mode,
                    durable,
                    line: Line::new(alloc),
                    unacknowledged: Flight::new(alloc),
                },
            ),
            Ok(Err(fault)) => {
                drop(id);
                drop(destination);
                Ok(Err(fault))
            }
            Err(refused) => Err(refused),
        }
    }

    /// A subscription begins and waits last. It is refused if it has a durable name that somebody uses, that is another
    /// topic's, or that would be the 257th. The tables are as they were then.
    fn begin(&mut self, alloc: Global, sub: Subscription) -> Result<Result<(), Fault>, AllocError>
        requires fresh { (sub.line ≡ []) × (sub.unacknowledged ≡ []) }
        requires few { count_by (is_of sub.session) self.old.state.subscriptions < 16 }
        requires whole { self.old.broken ≡ false }
        ensures begun { IfOk result (λ r. begun self.old.state sub ≡ leaving r self.new.state) }
        ensures same { IfOk result (λ r. IsErr r → self.new ≡ self.old) }
        ensures whole { OnOk result (self.new.broken ≡ false) }
    {
        if let Err(fault) = self.bind(alloc, &sub)? {
            return Ok(Err(fault));
        }
        self.broken = true;
        enter(alloc, &mut self.due, &mut self.stock.order, sub)?;
        self.broken = false;
        Ok(Ok(()))
    }

    /// The durable name of a subscription that is to begin is bound to its topic, unless it has none or the name is bound so
    /// already. It is refused if somebody uses the name, if it is another topic's, or if it would be the 257th. Nothing
    /// changes then.
    fn bind(&mut self, alloc: Global, sub: &Subscription) -> Result<Result<(), Fault>, AllocError>
        ensures begun { IfOk result (λ r. begun self.old.state sub.now ≡ leaving r (with_subscription self.new.state sub.now)) }
        ensures same { IfOk result (λ r. IsErr r → self.new ≡ self.old) }
        ensures flag { self.new.broken ≡ self.old.broken }
        ensures subscriptions { self.new.state.subscriptions ≡ self.old.state.subscriptions }
    {
        let Some(name) = &sub.durable else {
            return Ok(Ok(()));
        };
        match self.durables.topics().get(name) {
            Some(topic) => {
                if !may_be_used(&self.stock.order, name, topic, &sub.destination) {
                    return Ok(Err(Fault::DurableSubscription));
                }
                Ok(Ok(()))
            }
            None => {
                if are_full(self.durables.topics()) {
                    return Ok(Err(Fault::TooManyEntries));
                }
                self.durables.bind(alloc, name, &sub.destination)?;
                Ok(Ok(()))
            }
        }
    }

    /// The subscription of that id ends, or a durable name of the session's client is given up, with its line. If both are
    /// given, a subscription of that id ends first, if there is one. It is refused if no name is given and the session has no
    /// subscription of that id. With a name, it is refused if the client has none itself, if the durable name is unknown, or
    /// if somebody uses it. The tables are as they were then. If memory is refused, they may be broken.
    pub fn unsubscribe(
        &mut self,
        alloc: Global,
        session: u64,
        id: Option<HeaderText>,
        durable: Option<HeaderText>,
    ) -> Result<Result<(), Fault>, AllocError>
        requires form { IsGiven durable }
        requires whole { self.old.broken ≡ false }
        ensures executed { IfOk result (λ r. unsubscribed_by self.old.state session id durable ≡ leaving r self.new.state) }
        ensures same { IfOk result (λ r. IsErr r → self.new ≡ self.old) }
        ensures whole { OnOk result (self.new.broken ≡ false) }
    {
        if let Some(name) = durable {
            return self.give_up(alloc, session, &id, GivenName::new(name));
        }
        let Some(id) = id else {
            return Ok(Err(Fault::UnknownSubscription));
        };
        if self.end_sought(alloc, session, Sought::Id(&id))? {
            return Ok(Ok(()));
        }
        Ok(Err(Fault::UnknownSubscription))
    }

    /// The subscription of that id ends, if one is given, and then a durable name of the session's client is given up, with
    /// its line. It is refused if the client has no name itself, if the durable name is unknown, or if another subscription
    /// uses it. The tables are as they were then.
    fn give_up(
        &mut self,
        alloc: Global,
        session: u64,
        id: &Option<HeaderText>,
        name: GivenName,
    ) -> Result<Result<(), Fault>, AllocError>
        requires whole { self.old.broken ≡ false }
        ensures given_up { IfOk result (λ r. given_up_for (without_named self.old.state session id.now) (client_in self.old.state.sessions session) name ≡ leaving r self.new.state) }
        ensures same { IfOk result (λ r. IsErr r → self.new ≡ self.old) }
        ensures whole { OnOk result (self.new.broken ≡ false) }
    {
        match self.client_of(session) {
            Ok(Some(client)) => {
                let name = DurableName::new(client, name);
                self.give_up_name(alloc, session, id, &name)
            }
            Ok(None) => {
                drop(name);
                Ok(Err(Fault::NoClientId))
            }
            Err(refused) => Err(refused),
        }
    }

    /// The subscription of that id ends, if one is given, and then a durable name is given up, with its line. It is refused if
    /// the name is unknown or another subscription uses it. The tables are as they were then.
    fn give_up_name(
        &mut self,
        alloc: Global,
        session: u64,
        id: &Option<HeaderText>,
        name: &DurableName,
    ) -> Result<Result<(), Fault>, AllocError>
        requires whole { self.old.broken ≡ false }
        ensures given_up { IfOk result (λ r. given_up (without_named self.old.state session id.now) name.now ≡ leaving r self.new.state) }
        ensures same { IfOk result (λ r. IsErr r → self.new ≡ self.old) }
        ensures whole { OnOk result (self.new.broken ≡ false) }
    {
        if !self.durables.topics().contains_key(name) {
            return Ok(Err(Fault::DurableSubscription));
        }
        if is_used_by_others(&self.stock.order, name, session, id) {
            return Ok(Err(Fault::DurableSubscription));
        }
        self.end_given(alloc, session, id)?;
        self.forget(alloc, name);
        Ok(Ok(()))
    }

    /// The subscription of that id ends, if one is given and there is one.
    fn end_given(
        &mut self,
        alloc: Global,
        session: u64,
        id: &Option<HeaderText>,
    ) -> Result<(), AllocError>
        requires whole { self.old.broken ≡ false }
        ensures ended { OnOk result (self.new.state ≡ without_named self.old.state session id.now) }
        ensures whole { OnOk result (self.new.broken ≡ false) }
    {
        match id {
            Some(id) => {
                self.end_sought(alloc, session, Sought::Id(id))?;
                Ok(())
            }
            None => Ok(()),
        }
    }

    /// A durable name is known no more, and what waits in its line is held no more.
    fn forget(&mut self, alloc: Global, name: &DurableName)
        requires whole { self.old.broken ≡ false }
        ensures { self.new ≡ record self.old { state = forgotten self.old.state name.now } }
    {
        self.durables.forget(name);
        let line = self.stock.shared.forget(alloc, name);
        let_line_go(&mut self.stock.held, line);
    }

    /// The first subscription of that session that is sought ends, if there is one, which is answered: what it has not
    /// acknowledged stands in its line again, unless the line was its own. What vanishes with it is held no more.
    fn end_sought(
        &mut self,
        alloc: Global,
        session: u64,
        sought: Sought<'_>,
    ) -> Result<bool, AllocError>
        requires whole { self.old.broken ≡ false }
        ensures ended { IfOk result (EndsFirst (is_sought_of session sought.entry) self.old.state self.new.state) }
        ensures same { IfOk result (λ one. one ≡ false → self.new ≡ self.old) }
        ensures whole { OnOk result (self.new.broken ≡ false) }
    {
        let Some(place) = self.stock.order.next_of(session, sought, 0) else {
            return Ok(false);
        };
        self.broken = true;
        let sub = self.stock.order.remove(place.key);
        let_go(
            alloc,
            &mut self.due,
            &mut self.stock.shared,
            &mut self.stock.held,
            sub,
        )?;
        self.broken = false;
        Ok(true)
    }

    /// The session ends, with all its subscriptions. If memory is refused, the tables may be broken.
    pub fn end(&mut self, alloc: Global, session: u64) -> Result<(), AllocError>
        requires whole { self.old.broken ≡ false }
        ensures ended { OnOk result (self.new.state ≡ ended self.old.state session) }
        ensures whole { OnOk result (self.new.broken ≡ false) }
    {
        while self.end_sought(alloc, session, Sought::Any)? {}
        self.sessions.remove(&session);
        Ok(())
    }

    /// Every session ends, with all subscriptions. Nothing is due then. If memory is refused, the tables may be broken.
    pub fn restart(&mut self, alloc: Global) -> Result<(), AllocError>
        requires whole { self.old.broken ≡ false }
        ensures restarted { OnOk result (self.new.state ≡ restarted self.old.state) }
        ensures due { OnOk result (self.new.due ≡ 0) }
        ensures whole { OnOk result (self.new.broken ≡ false) }
    {
        self.broken = true;
        let subs = self.stock.order.take_all(alloc)?;
        let_all_go(
            alloc,
            &mut self.due,
            &mut self.stock.shared,
            &mut self.stock.held,
            subs,
        )?;
        drop(mem::replace(&mut self.sessions, BTreeMap::new(alloc)));
        self.due.clear();
        self.broken = false;
        Ok(())
    }
}

/// The key of the subscription of that session and id.
pub(crate) fn find_named(order: &Order, session: u64, id: &HeaderText) -> Option<Key>
    ensures { MatchOption result (NonePass (is_named session id.now) (subs_of order.now.all))
        (IsFirstAt (is_named session id.now) order.now.all) }
{
    let sought = Sought::Id(id);
    match order.next_of(session, sought, 0) {
        Some(place) => Some(place.key),
        None => None,
    }
}

/// Whether a session may have one more subscription, of that id. It is refused if it has one of that id, or 16.
fn find_place(order: &Order, session: u64, id: &HeaderText) -> Result<(), Fault>
    ensures { result ≡ place_for (subs_of order.now.all) session id.now }
{
    if let Some(_taken) = find_named(order, session, id) {
        return Err(Fault::SubscriptionIdInUse);
    }
    if order.count_of(session) >= MOST_SUBSCRIPTIONS {
        return Err(Fault::TooManyEntries);
    }
    Ok(())
}

/// Whether a subscription has the durable name.
pub(crate) fn is_used(order: &Order, name: &DurableName) -> bool
    ensures { result ≡ list_any (uses name.now) (subs_of order.now.all) }
{
    order.count_under(name) > 0
}

/// Whether a durable name that is bound to that topic may be used for a subscription of that destination. It has to be the
/// same topic, and nobody else may use the name.
fn may_be_used(order: &Order, name: &DurableName, topic: &Dest, destination: &Dest) -> bool
    ensures { result ≡ (bytes_eq topic.now destination.now && not (list_any (uses name.now) (subs_of order.now.all))) }
{
    *topic == *destination && !is_used(order, name)
}

/// Whether as many durable names are bound as there may be.
fn are_full(durables: &BTreeMap<DurableName, Dest>) -> bool
    ensures { result ≡ nat_le 256 (length durables.now.entries) }
{
    durables.len() >= MOST_NAMES
}

/// The same subscription, whose id is shared by all messages that it gets. If memory is refused for that, it is gone.
fn with_shared_id(alloc: Global, sub: Subscription) -> Result<Subscription, AllocError>
    ensures { IfOk result (λ same. same ≡ sub) }
{
    let Subscription {
        session,
        id,
        destination,
        mode,
        durable,
        line,
        unacknowledged,
    } = sub;
    match id.share(alloc) {
        Ok(id) => Ok(Subscription {
            session,
            id,
            destination,
            mode,
            durable,
            line,
            unacknowledged,
        }),
        Err(refused) => Err(refused),
    }
}

/// A subscription that begins waits last, and those of its session are due. If memory is refused, they may be.
fn enter(
    alloc: Global,
    marked: &mut Vec<Due>,
    order: &mut Order,
    sub: Subscription,
) -> Result<(), AllocError>
    requires { count_by (is_of sub.session) (subs_of order.old.all) < 16 }
    ensures kept { OnOk result (AllDue (is_due marked.old.items) marked.new.items) }
    ensures marked { OnOk result (AllDue (is_of sub.session) marked.new.items) }
    ensures waits { OnOk result (subs_of order.new.all ≡ subs_of order.old.all ++ sub ∷ []) }
    ensures number { OnOk result (order.new.next < 2 ^ 63) }
{
    mark(marked, Due::Session(sub.session))?;
    let sub = with_shared_id(alloc, sub)?;
    order.add(alloc, sub)
}

/// Whether that is the durable name of a subscription.
fn is_user(sub: &Subscription, name: &DurableName) -> bool
    ensures { result ≡ uses name.now sub.now }
{
    match &sub.durable {
        Some(other) => *name == *other,
        None => false,
    }
}

/// Whether a subscription has the durable name, other than the session's one of that id.
fn is_used_beside(order: &Order, name: &DurableName, session: u64, id: &HeaderText) -> bool
    ensures { (s : State) → s.subscriptions ≡ subs_of order.now.all
        → result ≡ list_any (uses name.now) (without_named s session (Some id.now)).subscriptions }
{
    let Some(key) = find_named(order, session, id) else {
        return is_used(order, name);
    };
    let users = order.count_under(name);
    if is_user(order.get(key), name) {
        return users > 1;
    }
    users > 0
}

/// Whether a subscription has the durable name, other than the session's one of that id if an id is given.
fn is_used_by_others(
    order: &Order,
    name: &DurableName,
    session: u64,
    id: &Option<HeaderText>,
) -> bool
    ensures { (s : State) → s.subscriptions ≡ subs_of order.now.all
        → result ≡ list_any (uses name.now) (without_named s session id.now).subscriptions }
{
    match id {
        Some(id) => is_used_beside(order, name, session, id),
        None => is_used(order, name),
    }
}

/// The messages of a line are held no more.
fn let_line_go(held: &mut Held, line: Line)
    requires messages { sum_by one line ≤ held.old.messages }
    requires bytes { sum_by bytes line ≤ held.old.bytes }
    ensures messages { held.new.messages + sum_by one line ≡ held.old.messages }
    ensures bytes { held.new.bytes + sum_by bytes line ≡ held.old.bytes }
{
    let mut line = line;
    while let Some(message) = line.take() {
        held.messages -= 1;
        held.bytes -= size(&message.sending) as u64;
    }
}

/// The bytes of deliveries, which are held.
fn bytes_of_deliveries(deliveries: &[(u64, Message)]) -> u64
    requires { sum_by (λ delivery. bytes delivery.1) deliveries.now ≤ 16777216 }
    ensures { result ≡ sum_by (λ delivery. bytes delivery.1) deliveries.now }
{
    let mut bytes = 0;
    for (_, message) in deliveries {
        bytes += size(&message.sending) as u64;
    }
    bytes
}

/// Deliveries are held no more.
pub fn let_deliveries_go(held: &mut Held, deliveries: &[(u64, Message)])
    requires within { held.old.bytes ≤ 16777216 }
    requires messages { sum_by (λ delivery. one delivery.1) deliveries.now ≤ held.old.messages }
    requires bytes { sum_by (λ delivery. bytes delivery.1) deliveries.now ≤ held.old.bytes }
    ensures messages { held.new.messages + sum_by (λ delivery. one delivery.1) deliveries.now ≡ held.old.messages }
    ensures bytes { held.new.bytes + sum_by (λ delivery. bytes delivery.1) deliveries.now ≡ held.old.bytes }
{
    held.messages -= deliveries.len() as u64;
    held.bytes -= bytes_of_deliveries(deliveries);
}

/// What an ended subscription has not acknowledged stands in its line again, and the subscriptions that are served from it
/// are due, unless the line was its own. What vanishes with it is held no more. If memory is refused, part of it may be done.
fn let_go(
    alloc: Global,
    marked: &mut Vec<Due>,
    shared: &mut SharedLines,
    held: &mut Held,
    sub: Subscription,
) -> Result<(), AllocError>
    requires held { HoldsBoth held.old shared.old sub }
    ensures kept { OnOk result (AllDue (is_due marked.old.items) marked.new.items) }
    ensures marked { OnOk result (OthersStand marked.new.items sub) }
    ensures lines { OnOk result (shared.new ≡ returned shared.old sub) }
    ensures left { OnOk result (LetsGo held.old held.new shared.old shared.new sub) }
{
    mark_line(marked, &sub)?;
    let gone = shared.take_back(alloc, sub)?;
    let_line_go(held, gone.line);
    let_deliveries_go(held, gone.deliveries.as_slice());
    Ok(())
}

/// Subscriptions have ended, one after another.
fn let_all_go(
    alloc: Global,
    marked: &mut Vec<Due>,
    shared: &mut SharedLines,
    held: &mut Held,
    subs: Vec<Subscription>,
) -> Result<(), AllocError>
    requires held { HoldAll held.old shared.old subs.items }
    ensures lines { OnOk result (shared.new ≡ fold returned shared.old subs.items) }
    ensures left { OnOk result (HoldAll held.new shared.new []) }
{
    for sub in subs {
        let_go(alloc, marked, shared, held, sub)?;
    }
    Ok(())
}
