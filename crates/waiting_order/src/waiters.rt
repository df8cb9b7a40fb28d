//! What stands at each key.

ghost use Rattle.std.specs.Prelude.{◌≡◌, ◌==◌, ◌+◌, ◌++◌, ◌∷◌, ◌<◌, ◌≤◌, ◌^◌, [], ℕ, IfNone, IfOk, IfSome, MatchOption, None, OnErr, OnOk, Some, drop, false, length, map, remove, slice_get, true, if◌then◌else◌, ◌≢◌, List};
ghost use Rattle.std.specs.List.{IsDistinct, sum_by};
ghost use Rattle.std.specs.Map.{keys_of, lookup};
ghost use Rattle.broker_state.specs.declared.subscription.Subscription.{Subscription};
ghost use Rattle.line_core.specs.Flights.{IsOver, has_delivery, settled};
ghost use Rattle.line_core.specs.Lines.{first_of, inserted};
ghost use Rattle.broker_state.specs.Lists.{changed, is_none};
ghost use Rattle.broker_state.specs.Operations.{settled_by};
ghost use Rattle.waiting_order.specs.declared.waiters.Key.{Key};
ghost use Rattle.waiting_order.specs.Keeping.{kept_by, put_into, settled_at, taken_from};
ghost use Rattle.waiting_order.specs.Keys.{key_eq};
ghost use Rattle.waiting_order.specs.LastSlots.{IsReach, AreLasts, AreLastsBut, HasLast, IsLastUnder, is_taken, last_of, over};
ghost use Rattle.waiting_order.specs.Waiting.{IsFree, IsOrdered, Stands, subs_of};
ghost use Rattle.waiting_order.specs.declared.waiters.Waiter.{Waiter};

use broker_state::Subscription;
use indexmap::IndexMap;
use indexmap::map::Slice;
use line_core::{Message, SettleFault};
use std::alloc::{AllocError, Global};
use std::collections::BTreeMap;
use std::marker::Model;

/// How many subscriptions a session may have.
pub const SLOTS: u8 = 16;

/// A waiter stands at that key. If memory is refused, nothing changes.
fn put_at(all: &mut IndexMap<Key, Waiter>, key: Key, waiter: Waiter) -> Result<(), AllocError>
    ensures there { OnOk result (lookup (key_eq key) all.new.entries ≡ Some waiter) }
    ensures others { OnOk result ((q : Key) → key_eq key q ≡ false → lookup (key_eq q) all.new.entries ≡ lookup (key_eq q) all.old.entries) }
    ensures unique { IsDistinct key_eq (keys_of all.new.entries) }
    ensures same { OnErr result (all.new.entries ≡ all.old.entries) }
{
    all.insert(key, waiter)?;
    Ok(())
}

/// The subscriptions by their keys, with their tickets. Contracts see them by rising ticket, and the next ticket.
#[derive(Drop)]
pub struct Waiters {
    all: IndexMap<Key, Waiter>,
    next: u64,
    // So that a search ends with a session's last slot.
    lasts: LastSlots,
}

impl Model for Waiters {
    ghost use Rattle.waiting_order.specs.LastSlots.{AreSeated};
    ghost use Rattle.waiting_order.specs.Waiting.{Waiting, by_ticket};

    ghost Value = { Waiting };

    ghost view = { λ a. record { all = by_ticket a.next a.all.entries; next = a.next } };

    ghost invariant = { λ a. AreSeated a.next a.lasts a.all.entries };
}

impl Waiters {
    /// Nobody. No memory is taken.
    pub fn new(alloc: Global) -> Waiters
        ensures { result ≡ record { all = []; next = 0 } }
    {
        Waiters {
            all: IndexMap::new(alloc),
            next: 0,
            lasts: LastSlots::new(alloc),
        }
    }

    /// How many there are.
    pub fn len(&self) -> usize
        ensures len { result ≡ length self.now.all }
        ensures small { result < 2 ^ 63 }
    {
        self.all.len()
    }

    /// The next ticket.
    pub fn next(&self) -> u64
        ensures next { result ≡ self.now.next }
        ensures order { IsOrdered self.now }
    {
        self.next
    }

    /// What stands at that key, if anything does.
    pub fn get(&self, key: Key) -> Option<&Waiter>
        ensures some { IfSome result (λ s. (at : ℕ) × (slice_get self.now.all at ≡ Some (key, s.now))) }
        ensures none { IfNone result (IsFree self.now.all key) }
        ensures order { IsOrdered self.now }
    {
        self.all.get(&key)
    }

    /// One more than the greatest slot that a session has; 0 if it has none.
    pub fn reach(&self, session: u64) -> u16
        ensures reach { IsReach self.now.all session result }
        ensures small { result ≤ 256 }
        ensures order { IsOrdered self.now }
    {
        self.lasts.reach(session)
    }

    /// The keys by ticket.
    fn by_ticket(&self, alloc: Global) -> Result<BTreeMap<u64, Key>, AllocError>
        ensures { IfOk result (λ keys. keys.entries ≡ map (λ (w : Key × Waiter). (w.1.ticket, w.0)) self.now.all) }
    {
        let mut keys = BTreeMap::new(alloc);
        let mut left = self.all.len();
        while left > 0 {
            left -= 1;
            let Some((key, waiter)) = self.all.get_index(left) else {
                unreachable!()
            };
            keys.insert(waiter.ticket, *key)?;
        }
        Ok(keys)
    }

    /// The keys in waiting order.
    pub fn in_order(&self, alloc: Global) -> Result<Vec<Key>, AllocError>
        ensures { IfOk result (λ keys. keys.items ≡ map (λ (w : Key × Waiter). w.0) self.now.all) }
    {
        let mut by_ticket = self.by_ticket(alloc)?;
        let mut keys = Vec::new(alloc);
        while let Some((_ticket, key)) = by_ticket.pop_first() {
            keys.push(key)?;
        }
        Ok(keys)
    }

    /// All of them, in any order.
    pub fn as_slice(&self) -> Slice<'_, Key, Waiter>
        ensures { (f : Subscription → ℕ) → sum_by f (subs_of result) ≡ sum_by f (subs_of self.now.all) }
    {
        self.all.as_slice()
    }

    /// A subscription at a free key, which waits last. If memory is refused, nothing changes.
    pub fn insert(&mut self, key: Key, group: usize, sub: Subscription) -> Result<(), AllocError>
        requires free { IsFree self.old.all key }
        requires number { self.old.next + 1 < 2 ^ 64 }
        ensures ok { OnOk result (self.new ≡ record { all = self.old.all ++ (key, record { ticket = self.old.next; group = group; sub = sub }) ∷ []; next = self.old.next + 1 }) }
        ensures same { OnErr result (self.new ≡ self.old) }
    {
        let ticket = self.next;
        self.lasts.raise(key)?;
        if let Err(refused) = put_at(&mut self.all, key, Waiter { ticket, group, sub }) {
            self.lasts.lower(&self.all, key);
            return Err(refused);
        }
        self.next = ticket + 1;
        Ok(())
    }

    /// Takes out what stands at that key. No memory is taken.
    pub fn remove(&mut self, key: Key) -> Waiter
        requires { Stands self.old.all key }
        ensures order { IsOrdered self.old }
        ensures removed { (at : ℕ) (s : Waiter) → slice_get self.old.all at ≡ Some (key, s)
            → (result ≡ s) × (self.new ≡ record self.old { all = remove self.old.all at }) }
    {
        let waiter = self.all.swap_remove(&key).unwrap();
        self.lasts.lower(&self.all, key);
        waiter
    }

    /// What stands at that key waits last. Its group and the ticket that it had are given. No memory is taken.
    pub fn move_last(&mut self, key: Key) -> (usize, u64)
        requires there { Stands self.old.all key }
        requires number { self.old.next + 1 < 2 ^ 64 }
        ensures { (at : ℕ) (s : Waiter) → slice_get self.old.all at ≡ Some (key, s)
            → (result ≡ (s.group, s.ticket)) × (self.new ≡ record { all = remove self.old.all at ++ (key, record s { ticket = self.old.next }) ∷ []; next = self.old.next + 1 }) }
    {
        let ticket = self.next;
        let waiter = self.all.get_mut(&key).unwrap();
        let place = (waiter.group, waiter.ticket);
        waiter.ticket = ticket;
        self.next = ticket + 1;
        place
    }

    /// The own line of the one at that key gets a message. It answers whether that had none. If memory is refused, nothing
    /// changes.
    pub fn put(&mut self, key: Key, message: Message) -> Result<bool, AllocError>
        requires { Stands self.old.all key }
        ensures first { IfOk result (λ first. (at : ℕ) (s : Waiter) → slice_get self.old.all at ≡ Some (key, s) → first ≡ is_none s.sub.line) }
        ensures ok { OnOk result ((at : ℕ) (s : Waiter) → slice_get self.old.all at ≡ Some (key, s)
            → self.new ≡ record self.old { all = changed at (put_into message) self.old.all }) }
        ensures same { OnErr result (self.new ≡ self.old) }
    {
        let waiter = self.all.get_mut(&key).unwrap();
        waiter.put(message)
    }

    /// Takes the least message out of the own line of the one at that key. If it was the last one, the group of that one is
    /// given too.
    pub fn take(&mut self, key: Key) -> (Option<Message>, Option<usize>)
        requires { Stands self.old.all key }
        ensures { (at : ℕ) (s : Waiter) → slice_get self.old.all at ≡ Some (key, s)
            → (result.0 ≡ first_of s.sub.line) × (result.1 ≡ (if length s.sub.line == 1 then Some s.group else None))
            × (self.new ≡ record self.old { all = changed at taken_from self.old.all }) }
    {
        let waiter = self.all.get_mut(&key).unwrap();
        waiter.take()
    }

    /// A message becomes unacknowledged at that key, by that number of its delivery. If memory is refused, nothing changes.
    pub fn keep(&mut self, key: Key, delivery: u64, message: Message) -> Result<(), AllocError>
        requires { (at : ℕ) × (s : Waiter) × (slice_get self.old.all at ≡ Some (key, s)) × IsOver delivery s.sub.unacknowledged }
        ensures ok { OnOk result ((at : ℕ) (s : Waiter) → slice_get self.old.all at ≡ Some (key, s)
            → self.new ≡ record self.old { all = changed at (kept_by delivery message) self.old.all }) }
        ensures same { OnErr result (self.new ≡ self.old) }
    {
        let waiter = self.all.get_mut(&key).unwrap();
        waiter.keep(delivery, message)
    }

    /// The one at that key has a delivery acknowledged, with the others that its mode settles, and gives what is settled. If
    /// memory is refused, nothing changes.
    pub fn settle(&mut self, key: Key, delivery: u64) -> Result<Vec<(u64, Message)>, AllocError>
        requires { (at : ℕ) × (s : Waiter) × (slice_get self.old.all at ≡ Some (key, s)) × (has_delivery delivery s.sub.unacknowledged ≡ true) }
        ensures settled { IfOk result (λ out. (at : ℕ) (s : Waiter) → slice_get self.old.all at ≡ Some (key, s)
            → out.items ≡ settled s.sub.mode delivery s.sub.unacknowledged) }
        ensures unsettled { OnOk result ((at : ℕ) (s : Waiter) → slice_get self.old.all at ≡ Some (key, s)
            → self.new ≡ record self.old { all = changed at (settled_at delivery) self.old.all }) }
        ensures same { OnErr result (self.new ≡ self.old) }
    {
        let waiter = self.all.get_mut(&key).unwrap();
        waiter.settle(delivery)
    }
}

/// A subscription with its ticket, and the handle of its group. Those with lesser tickets are served before it.
#[derive(Drop)]
pub struct Waiter {
    pub ticket: u64,
    pub group: usize,
    pub sub: Subscription,
}

impl Waiter {
    /// Its own line gets a message. It answers whether that had none. If memory is refused, nothing changes.
    pub fn put(&mut self, message: Message) -> Result<bool, AllocError>
        ensures first { IfOk result (λ first. first ≡ is_none self.old.sub.line) }
        ensures ok { OnOk result (self.new ≡ record self.old { sub = record self.old.sub { line = inserted message self.old.sub.line } }) }
        ensures same { OnErr result (self.new ≡ self.old) }
        ensures ticket { self.new.ticket ≡ self.old.ticket }
    {
        let first = self.sub.line.is_empty();
        self.sub.line.put(message)?;
        Ok(first)
    }

    /// Takes the least message out of its own line. If it was the last one, its group is given too.
    pub fn take(&mut self) -> (Option<Message>, Option<usize>)
        ensures taken { result.0 ≡ first_of self.old.sub.line }
        ensures caught_up { result.1 ≡ (if length self.old.sub.line == 1 then Some self.old.group else None) }
        ensures rest { self.new ≡ record self.old { sub = record self.old.sub { line = drop 1 self.old.sub.line } } }
        ensures ticket { self.new.ticket ≡ self.old.ticket }
    {
        let caught_up = if self.sub.line.len() == 1 {
            Some(self.group)
        } else {
            None
        };
        (self.sub.line.take(), caught_up)
    }

    /// A message becomes unacknowledged, by that number of its delivery. If memory is refused, nothing changes.
    pub fn keep(&mut self, delivery: u64, message: Message) -> Result<(), AllocError>
        requires { IsOver delivery self.old.sub.unacknowledged }
        ensures ok { OnOk result (self.new ≡ record self.old { sub = record self.old.sub { unacknowledged = self.old.sub.unacknowledged ++ (delivery, message) ∷ [] } }) }
        ensures same { OnErr result (self.new ≡ self.old) }
        ensures ticket { self.new.ticket ≡ self.old.ticket }
    {
        self.sub.unacknowledged.add(delivery, message)
    }

    /// It has a delivery acknowledged, with the others that its mode settles, and gives what is settled. If memory is
    /// refused, nothing changes.
    pub fn settle(&mut self, delivery: u64) -> Result<Vec<(u64, Message)>, AllocError>
        requires { has_delivery delivery self.old.sub.unacknowledged ≡ true }
        ensures settled { IfOk result (λ out. out.items ≡ settled self.old.sub.mode delivery self.old.sub.unacknowledged) }
        ensures unsettled { OnOk result (self.new ≡ record self.old { sub = settled_by delivery self.old.sub }) }
        ensures same { OnErr result (self.new ≡ self.old) }
        ensures ticket { self.new.ticket ≡ self.old.ticket }
    {
        let sub = &mut self.sub;
        match sub.unacknowledged.settle(sub.mode, delivery) {
            Ok(settled) => Ok(settled),
            Err(SettleFault::Memory(refused)) => Err(refused),
            Err(SettleFault::Unknown) => unreachable!(),
        }
    }
}

/// The key of a subscription: the number of its session, and a slot, which no other one of that session has.
#[derive(Clone, Copy, PartialEq, Eq, Hash, Drop)]
pub struct Key {
    pub session: u64,
    pub slot: u8,
}

/// The greatest slot under a key's that is taken of its session, if one is.
fn last_under(all: &IndexMap<Key, Waiter>, key: Key) -> Option<u8>
    ensures { IsLastUnder all.now.entries key result }
{
    let mut left = key.slot;
    while left > 0 {
        left -= 1;
        let under = Key {
            session: key.session,
            slot: left,
        };
        if all.contains_key(&under) {
            return Some(left);
        }
    }
    None
}

/// The greatest slot that is taken, by session. Contracts see them by rising session.
#[derive(Drop)]
pub struct LastSlots {
    by_session: BTreeMap<u64, u8>,
}

impl Model for LastSlots {
    ghost use Rattle.std.specs.Prelude.{List, ℕ};

    ghost Value = { List (ℕ × ℕ) };

    ghost view = { λ a. a.by_session.entries };
}

impl LastSlots {
    /// None. No memory is taken.
    pub fn new(alloc: Global) -> LastSlots
        ensures { result ≡ [] }
    {
        LastSlots {
            by_session: BTreeMap::new(alloc),
        }
    }

    /// A number over the last slot of a session; 0 if none is taken.
    pub fn reach(&self, session: u64) -> u16
        ensures reach { result ≡ over (last_of session self.now) }
        ensures small { result ≤ 256 }
    {
        match self.by_session.get(&session) {
            Some(slot) => u16::from(*slot) + 1,
            None => 0,
        }
    }

    /// A session that has a last slot gets that one instead. No memory is taken.
    fn replace(&mut self, session: u64, slot: u8)
        requires { last_of session self.old ≢ None }
        ensures { HasLast session (Some slot) self.old self.new }
    {
        match self.by_session.insert(session, slot) {
            Ok(_old) => {}
            Err(_absent) => unreachable!(),
        }
    }

    /// A session has no slot any more.
    fn forget(&mut self, session: u64)
        ensures { HasLast session None self.old self.new }
    {
        self.by_session.remove(&session);
    }

    /// A free key's slot is about to be taken. If memory is refused, nothing changes.
    pub fn raise(&mut self, key: Key) -> Result<(), AllocError>
        ensures ok { OnOk result ((ws : List (Key × Waiter)) → AreLasts self.old ws → is_taken ws key ≡ false → AreLastsBut key self.new ws) }
        ensures over { OnOk result (key.slot < over (last_of key.session self.new)) }
        ensures same { OnErr result (self.new ≡ self.old) }
    {
        if u16::from(key.slot) < self.reach(key.session) {
            return Ok(());
        }
        self.by_session.insert(key.session, key.slot)?;
        Ok(())
    }

    /// A key's slot is free again, or was never taken. No memory is taken.
    pub fn lower(&mut self, all: &IndexMap<Key, Waiter>, key: Key)
        requires { AreLastsBut key self.old all.now.entries }
        ensures { AreLasts self.new all.now.entries }
    {
        if self.reach(key.session) != u16::from(key.slot) + 1 {
            return;
        }
        match last_under(all, key) {
            Some(slot) => self.replace(key.session, slot),
            None => self.forget(key.session),
        }
    }
}
