//! The order in which subscriptions wait for messages.

ghost use Rattle.std.specs.Prelude.{◌≡◌, ◌+◌, ◌++◌, ◌∷◌, ◌<◌, ◌≤◌, ◌^◌, [], ℕ, IfOk, None, OnErr, OnOk, Some, count_by, length, map, remove, slice_get, true};
ghost use Rattle.std.specs.List.{sum_by};
ghost use Rattle.broker_state.specs.declared.subscription.Subscription.{Subscription};
ghost use Rattle.waiting_order.specs.declared.waiters.Key.{Key};
ghost use Rattle.line_core.specs.Flights.{IsOver, has_delivery, settled};
ghost use Rattle.line_core.specs.Lines.{first_of};
ghost use Rattle.broker_state.specs.Lists.{changed};
ghost use Rattle.broker_state.specs.Operations.{is_of, uses};
ghost use Rattle.waiting_order.specs.Directories.{AreFound, GroupsAreAlike, IsGroup, IsNext, behind_in, is_in, is_plain_at, members};
ghost use Rattle.waiting_order.specs.Keeping.{kept_by, put_where, settled_at, taken_from};
ghost use Rattle.waiting_order.specs.Soughts.{is_sought_of};
ghost use Rattle.waiting_order.specs.Waiting.{IsOrdered, Stands, subs_of};
ghost use Rattle.waiting_order.specs.declared.waiters.Waiter.{Waiter};

use crate::finding::{Sought, count_of, first_of, free_key};
use crate::groups::{Directory, Place, catch_up, count_in, next_in, put_all};
use crate::waiters::{Key, Waiter, Waiters};
use broker_state::{DurableName, Subscription};
use command_core::Dest;
use indexmap::map::Slice;
use line_core::Message;
use std::alloc::{AllocError, Global};
use std::marker::Model;

/// The subscriptions in waiting order: the first one that can be served is served next, and then waits last. Contracts see
/// the list of them, each at its key and with its ticket, and the next ticket.
#[derive(Drop)]
pub struct Order {
    waiters: Waiters,
    directory: Directory,
}

impl Model for Order {
    ghost use Rattle.waiting_order.specs.Directories.{AreFound};
    ghost use Rattle.waiting_order.specs.Waiting.{Waiting};

    ghost Value = { Waiting };

    ghost view = { λ a. a.waiters };

    ghost invariant = { λ a. AreFound a.directory a.waiters.all };
}

/// A subscription gets a key, and waits last. If memory is refused, part of it may be done.
fn enter(
    alloc: Global,
    waiters: &mut Waiters,
    directory: &mut Directory,
    sub: Subscription,
) -> Result<(), AllocError>
    requires found { AreFound directory.old waiters.old.all }
    requires few { count_by (is_of sub.session) (subs_of waiters.old.all) < 16 }
    requires number { waiters.old.next + 1 < 2 ^ 64 }
    ensures added { OnOk result (subs_of waiters.new.all ≡ subs_of waiters.old.all ++ sub ∷ []) }
    ensures number { OnOk result (waiters.new.next ≡ waiters.old.next + 1) }
    ensures found { OnOk result (AreFound directory.new waiters.new.all) }
{
    let key = free_key(waiters, sub.session);
    let ticket = waiters.next();
    let group = directory.join(alloc, &sub, Place { ticket, key })?;
    waiters.insert(key, group, sub)
}

/// From this ticket on all get new ones before one more subscription is added. So a served one always finds a ticket.
const TICKETS: u64 = (1 << 63) - 1;

impl Order {
    /// No subscriptions. No memory is taken.
    pub fn new(alloc: Global) -> Order
        ensures { result ≡ record { all = []; next = 0 } }
    {
        Order {
            waiters: Waiters::new(alloc),
            directory: Directory::new(alloc),
        }
    }

    /// These subscriptions in their order.
    pub fn of(alloc: Global, subscriptions: Vec<Subscription>) -> Result<Order, AllocError>
        requires { (session : ℕ) → count_by (is_of session) subscriptions.items ≤ 16 }
        ensures subs { IfOk result (λ order. subs_of order.all ≡ subscriptions.items) }
        ensures number { IfOk result (λ order. order.next ≡ length order.all) }
        ensures small { IfOk result (λ order. order.next < 2 ^ 63) }
    {
        let mut waiters = Waiters::new(alloc);
        let mut directory = Directory::new(alloc);
        for sub in subscriptions {
            enter(alloc, &mut waiters, &mut directory, sub)?;
        }
        Ok(Order { waiters, directory })
    }

    /// No session has more than 16. Nothing changes.
    fn have_few(&self)
        ensures { (session : ℕ) → count_by (is_of session) (subs_of self.now.all) ≤ 16 }
    {
        let _next = self.waiters.next();
    }

    /// Takes all out in their order. If memory is refused, some may be gone.
    pub fn take_all(&mut self, alloc: Global) -> Result<Vec<Subscription>, AllocError>
        ensures subs { IfOk result (λ subs. subs.items ≡ subs_of self.old.all) }
        ensures none { OnOk result (self.new ≡ record self.old { all = [] }) }
    {
        let keys = self.waiters.in_order(alloc)?;
        let mut subs = Vec::new(alloc);
        for key in keys {
            let sub = self.remove(key);
            subs.push(sub)?;
        }
        Ok(subs)
    }

    /// An order of the same subscriptions, with new keys and tickets. If memory is refused, some of them may be gone.
    fn numbered_anew(&mut self, alloc: Global) -> Result<Order, AllocError>
        ensures subs { IfOk result (λ order. subs_of order.all ≡ subs_of self.old.all) }
        ensures number { IfOk result (λ order. order.next ≡ length order.all) }
        ensures small { IfOk result (λ order. order.next < 2 ^ 63) }
    {
        self.have_few();
        let subs = self.take_all(alloc)?;
        Order::of(alloc, subs)
    }

    /// All get new keys and tickets. If memory is refused, none is left.
    fn number_anew(&mut self, alloc: Global) -> Result<(), AllocError>
        ensures subs { OnOk result (subs_of self.new.all ≡ subs_of self.old.all) }
        ensures number { OnOk result (self.new.next ≡ length self.new.all) }
        ensures small { OnOk result (self.new.next < 2 ^ 63) }
        ensures err { OnErr result (self.new.all ≡ []) }
    {
        match self.numbered_anew(alloc) {
            Ok(order) => {
                *self = order;
                Ok(())
            }
            Err(refused) => {
                *self = Order::new(alloc);
                Err(refused)
            }
        }
    }

    /// One more, which waits last. If memory is refused, none is left.
    fn enter(&mut self, alloc: Global, sub: Subscription) -> Result<(), AllocError>
        requires few { count_by (is_of sub.session) (subs_of self.old.all) < 16 }
        requires number { self.old.next < 2 ^ 63 }
        ensures ok { OnOk result (subs_of self.new.all ≡ subs_of self.old.all ++ sub ∷ []) }
        ensures number { OnOk result (self.new.next ≡ self.old.next + 1) }
        ensures small { OnOk result (length self.new.all < 2 ^ 63) }
        ensures err { OnErr result (self.new.all ≡ []) }
    {
        match enter(alloc, &mut self.waiters, &mut self.directory, sub) {
            Ok(()) => {
                let _count = self.waiters.len();
                Ok(())
            }
            Err(refused) => {
                *self = Order::new(alloc);
                Err(refused)
            }
        }
    }

    /// One more of a session that has fewer than 16, which waits last. If memory is refused, none is left.
    pub fn add(&mut self, alloc: Global, sub: Subscription) -> Result<(), AllocError>
        requires { count_by (is_of sub.session) (subs_of self.old.all) < 16 }
        ensures ok { OnOk result (subs_of self.new.all ≡ subs_of self.old.all ++ sub ∷ []) }
        ensures number { OnOk result (self.new.next < 2 ^ 63) }
        ensures err { OnErr result (self.new.all ≡ []) }
    {
        if self.waiters.next() < TICKETS {
            return self.enter(alloc, sub);
        }
        match self.number_anew(alloc) {
            Ok(()) => self.enter(alloc, sub),
            Err(refused) => {
                drop(sub);
                Err(refused)
            }
        }
    }

    /// All of them, in waiting order.
    pub fn in_order(&self, alloc: Global) -> Result<Vec<&Subscription>, AllocError>
        ensures { IfOk result (λ subs. map (λ sub. sub.now) subs.items ≡ subs_of self.now.all) }
    {
        let keys = self.waiters.in_order(alloc)?;
        let mut subs = Vec::new(alloc);
        for key in keys {
            subs.push(self.get(key))?;
        }
        Ok(subs)
    }

    /// All of them, in any order.
    pub fn as_slice(&self) -> Slice<'_, Key, Waiter>
        ensures { (f : Subscription → ℕ) → sum_by f (subs_of result) ≡ sum_by f (subs_of self.now.all) }
    {
        self.waiters.as_slice()
    }

    /// How many there are.
    pub fn len(&self) -> usize
        ensures len { result ≡ length self.now.all }
        ensures small { result < 2 ^ 63 }
    {
        self.waiters.len()
    }

    /// They stand by rising ticket, each once, and those of a group are alike. Nothing changes.
    pub fn stand_in_order(&self)
        ensures order { IsOrdered self.now }
        ensures groups { GroupsAreAlike self.now.all }
    {
        let _next = self.waiters.next();
    }

    /// The one at that key.
    pub fn get(&self, key: Key) -> &Subscription
        requires { Stands self.now.all key }
        ensures sub { (at : ℕ) (s : Waiter) → slice_get self.now.all at ≡ Some (key, s) → result.now ≡ s.sub }
        ensures order { IsOrdered self.now }
    {
        let Some(waiter) = self.waiters.get(key) else {
            unreachable!()
        };
        &waiter.sub
    }

    /// Takes out the one at that key. No memory is taken.
    pub fn remove(&mut self, key: Key) -> Subscription
        requires { Stands self.old.all key }
        ensures { (at : ℕ) (s : Waiter) → slice_get self.old.all at ≡ Some (key, s)
            → (result ≡ s.sub) × (self.new ≡ record self.old { all = remove self.old.all at }) }
    {
        let Waiter { ticket, group, sub } = self.waiters.remove(key);
        self.directory.leave(&sub, group, ticket);
        sub
    }

    /// The one at that key waits last. No memory is taken.
    pub fn move_last(&mut self, key: Key)
        requires there { Stands self.old.all key }
        requires number { self.old.next + 1 < 2 ^ 64 }
        ensures { (at : ℕ) (s : Waiter) → slice_get self.old.all at ≡ Some (key, s)
            → self.new ≡ record { all = remove self.old.all at ++ (key, record s { ticket = self.old.next }) ∷ []; next = self.old.next + 1 } }
    {
        let next = self.waiters.next();
        let (group, ticket) = self.waiters.move_last(key);
        self.directory
            .move_last(group, ticket, Place { ticket: next, key });
    }

    /// The own line of each one of that destination without a durable name gets a copy of a message. If memory is refused,
    /// some of them may have it.
    pub fn put_each(&mut self, destination: &Dest, message: &Message) -> Result<(), AllocError>
        ensures { OnOk result (self.new ≡ record self.old { all = map (put_where (is_plain_at destination.now) message.now) self.old.all }) }
    {
        let Some(handle) = self.directory.destinations.get(destination) else {
            return Ok(());
        };
        put_all(
            &mut self.waiters,
            &mut self.directory.groups,
            *handle,
            message,
        )
    }

    /// Takes the least message out of the own line of the one at that key.
    pub fn take(&mut self, key: Key) -> Option<Message>
        requires { Stands self.old.all key }
        ensures { (at : ℕ) (s : Waiter) → slice_get self.old.all at ≡ Some (key, s)
            → (result ≡ first_of s.sub.line) × (self.new ≡ record self.old { all = changed at taken_from self.old.all }) }
    {
        let (message, caught_up) = self.waiters.take(key);
        let Some(group) = caught_up else {
            return message;
        };
        catch_up(&mut self.directory.groups, group);
        message
    }

    /// A message becomes unacknowledged at that key, by that number of its delivery. If memory is refused, nothing changes.
    pub fn keep(&mut self, key: Key, delivery: u64, message: Message) -> Result<(), AllocError>
        requires { (at : ℕ) × (s : Waiter) × (slice_get self.old.all at ≡ Some (key, s)) × IsOver delivery s.sub.unacknowledged }
        ensures ok { OnOk result ((at : ℕ) (s : Waiter) → slice_get self.old.all at ≡ Some (key, s)
            → self.new ≡ record self.old { all = changed at (kept_by delivery message) self.old.all }) }
        ensures same { OnErr result (self.new ≡ self.old) }
    {
        self.waiters.keep(key, delivery, message)
    }

    /// The one at that key has a delivery acknowledged, with the others that its mode settles. It gives what is settled. If
    /// memory is refused, nothing changes.
    pub fn settle(&mut self, key: Key, delivery: u64) -> Result<Vec<(u64, Message)>, AllocError>
        requires { (at : ℕ) × (s : Waiter) × (slice_get self.old.all at ≡ Some (key, s)) × (has_delivery delivery s.sub.unacknowledged ≡ true) }
        ensures settled { IfOk result (λ out. (at : ℕ) (s : Waiter) → slice_get self.old.all at ≡ Some (key, s)
            → out.items ≡ settled s.sub.mode delivery s.sub.unacknowledged) }
        ensures unsettled { OnOk result ((at : ℕ) (s : Waiter) → slice_get self.old.all at ≡ Some (key, s)
            → self.new ≡ record self.old { all = changed at (settled_at delivery) self.old.all }) }
        ensures same { OnErr result (self.new ≡ self.old) }
    {
        self.waiters.settle(key, delivery)
    }

    /// How many are of that session.
    pub fn count_of(&self, session: u64) -> usize
        ensures { result ≡ count_by (is_of session) (subs_of self.now.all) }
    {
        count_of(&self.waiters, session)
    }

    /// The handle of the group of that destination's subscriptions without a durable name, if there are any.
    pub fn group_at(&self, destination: &Dest) -> Option<usize>
        ensures { IsGroup (is_plain_at destination.now) self.now.all result }
    {
        self.directory.destinations.get(destination).copied()
    }

    /// The handle of the group of those that have the durable name, if there are any.
    pub fn group_under(&self, name: &DurableName) -> Option<usize>
        ensures { IsGroup (uses name.now) self.now.all result }
    {
        self.directory.names.get(name).copied()
    }

    /// How many are in the group of that handle, none if there is no such group.
    fn count_in(&self, handle: Option<usize>) -> usize
        ensures some { (group : ℕ) → handle ≡ Some group → result ≡ length (members (is_in group) self.now.all) }
        ensures none { handle ≡ None → result ≡ 0 }
        ensures small { result < 2 ^ 63 }
    {
        match handle {
            Some(handle) => count_in(self.directory.groups.get(handle)),
            None => 0,
        }
    }

    /// How many of that destination have no durable name.
    pub fn count_at(&self, destination: &Dest) -> usize
        ensures count { result ≡ count_by (is_plain_at destination.now) (subs_of self.now.all) }
        ensures small { result < 2 ^ 63 }
    {
        self.count_in(self.group_at(destination))
    }

    /// How many have the durable name.
    pub fn count_under(&self, name: &DurableName) -> usize
        ensures { result ≡ count_by (uses name.now) (subs_of self.now.all) }
    {
        self.count_in(self.group_under(name))
    }

    /// How many of a group have something in their own line.
    pub fn count_behind(&self, group: usize) -> usize
        ensures { result ≡ behind_in group self.now.all }
    {
        match self.directory.groups.get(group) {
            Some(group) => group.behind,
            None => 0,
        }
    }

    /// The place of the first one of that session that is sought, from a ticket on.
    pub fn next_of(&self, session: u64, sought: Sought<'_>, from: u64) -> Option<Place>
        ensures next { IsNext (λ (s : Waiter). is_sought_of session sought.entry s.sub) self.now.all from result }
        ensures order { IsOrdered self.now }
    {
        let _next = self.waiters.next();
        first_of(&self.waiters, session, sought, from)
    }

    /// The place of the first one of a group, from a ticket on.
    pub fn next_in(&self, group: usize, from: u64) -> Option<Place>
        ensures { IsNext (is_in group) self.now.all from result }
    {
        let _next = self.waiters.next();
        next_in(self.directory.groups.get(group), from)
    }
}
