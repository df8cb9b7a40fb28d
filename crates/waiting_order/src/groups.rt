//! Groups under their handles, and the handles under what the groups are looked for by.

ghost use Rattle.std.specs.Prelude.{◌≡◌, ◌≢◌, ◌+◌, ◌-◌, ◌++◌, ◌∷◌, ◌<◌, ◌≤◌, ◌^◌, [], Bool, List, ℕ, IfOk, None, OnOk, Some, false, length, map, true, unwrap_or, OnErr, remove, slice_get};
ghost use Rattle.std.specs.Option.{option_copied};
ghost use Rattle.std.specs.BTreeMap.{is_at};
ghost use Rattle.std.specs.List.{AllByRecursion};
ghost use Rattle.std.specs.Map.{lookup};
ghost use Rattle.slab.specs.Slab.{get};
ghost use Rattle.broker_state.specs.Lists.{is_none};
ghost use Rattle.broker_state.specs.Names.{AreSame};
ghost use Rattle.waiting_order.specs.Directories.{IsNext, KeepsPlaces, group_at, grouped, members, IsDirectory};
ghost use Rattle.waiting_order.specs.Groups.{AreBefore, HasNone, Joins, OthersStay, one, shrunk};
ghost use Rattle.waiting_order.specs.Keeping.{put_in};
ghost use Rattle.waiting_order.specs.Tickets.{HasTicket, IsRising, without, IsIndexOf};
ghost use Rattle.waiting_order.specs.declared.groups.Group.{Group};
ghost use Rattle.waiting_order.specs.declared.waiters.Key.{Key};
ghost use Rattle.waiting_order.specs.declared.groups.Place.{Place};
ghost use Rattle.waiting_order.specs.declared.waiters.Waiter.{Waiter};

use crate::waiters::{Key, Waiters};
use broker_state::{DurableName, Subscription};
use command_core::Dest;
use line_core::Message;
use slab::Slab;
use std::alloc::{AllocError, Global};
use std::collections::{BTreeMap, VecDeque};
use std::marker::Model;

/// No handle is under that key any more.
pub fn forget<K: Ord + Drop>(handles: &mut BTreeMap<K, usize>, key: &K)
    requires { AreSame K.cmp }
    ensures { HasNone K.cmp key.now handles.old.entries handles.new.entries }
{
    handles.remove(key);
}

/// A place begins the group under that key, which has none. If memory is refused, part of it may be done.
fn begin<K: Ord + Clone + Drop>(
    alloc: Global,
    groups: &mut Slab<Group>,
    handles: &mut BTreeMap<K, usize>,
    key: &K,
    place: Place,
    is_behind: bool,
) -> Result<usize, AllocError>
    requires clone { (old copy : K) → K.is_clone old copy → copy ≡ old }
    requires same { AreSame K.cmp }
    requires none { lookup (is_at (K.cmp key.now)) handles.old.entries ≡ None }
    ensures { IfOk result (λ group. Joins K.cmp key.now place is_behind groups.old handles.old.entries groups.new handles.new.entries group) }
{
    let mut group = Group::new(alloc);
    group.add(place, is_behind)?;
    let Ok(handle) = groups.insert(group) else {
        return Err(AllocError);
    };
    handles.insert(key.clone()?, handle)?;
    Ok(handle)
}

/// A place joins the group under that key, as its last, and the group's handle is given. If memory is refused, part of it may
/// be done.
pub fn join<K: Ord + Clone + Drop>(
    alloc: Global,
    groups: &mut Slab<Group>,
    handles: &mut BTreeMap<K, usize>,
    key: &K,
    place: Place,
    is_behind: bool,
) -> Result<usize, AllocError>
    requires clone { (old copy : K) → K.is_clone old copy → copy ≡ old }
    requires same { AreSame K.cmp }
    requires some { (g : ℕ) → lookup (is_at (K.cmp key.now)) handles.old.entries ≡ Some g → is_none (group_at groups.old g).places ≡ false }
    requires last { (g : ℕ) → lookup (is_at (K.cmp key.now)) handles.old.entries ≡ Some g → AreBefore place (group_at groups.old g).places }
    requires count { (g : ℕ) → (group_at groups.old g).behind + 1 < 2 ^ 64 }
    ensures { IfOk result (λ group. Joins K.cmp key.now place is_behind groups.old handles.old.entries groups.new handles.new.entries group) }
{
    let Some(handle) = handles.get(key) else {
        return begin(alloc, groups, handles, key, place, is_behind);
    };
    let handle = *handle;
    let Some(group) = groups.get_mut(handle) else {
        unreachable!()
    };
    group.add(place, is_behind)?;
    Ok(handle)
}

/// The one of that ticket leaves its group. It answers whether nobody is in it then.
fn take_from(groups: &mut Slab<Group>, handle: usize, ticket: u64, is_behind: bool) -> bool
    requires some { is_none (group_at groups.old handle).places ≡ false }
    requires behind { one is_behind ≤ (group_at groups.old handle).behind }
    ensures left { group_at groups.new handle ≡ shrunk ticket is_behind (group_at groups.old handle) }
    ensures others { OthersStay groups.old groups.new handle }
    ensures none { result ≡ is_none (without ticket (group_at groups.old handle).places) }
{
    let Some(group) = groups.get_mut(handle) else {
        unreachable!()
    };
    group.take_out(ticket, is_behind);
    group.places.len() == 0
}

/// The one of that ticket leaves its group, which is let go if nobody is in it then. It answers whether it is.
pub fn leave(groups: &mut Slab<Group>, handle: usize, ticket: u64, is_behind: bool) -> bool
    requires some { is_none (group_at groups.old handle).places ≡ false }
    requires behind { one is_behind ≤ (group_at groups.old handle).behind }
    ensures left { result ≡ false → group_at groups.new handle ≡ shrunk ticket is_behind (group_at groups.old handle) }
    ensures gone { result ≡ true → get groups.new handle ≡ None }
    ensures others { OthersStay groups.old groups.new handle }
    ensures none { result ≡ is_none (without ticket (group_at groups.old handle).places) }
{
    let is_gone = take_from(groups, handle, ticket, is_behind);
    if is_gone {
        drop(groups.try_remove(handle));
    }
    is_gone
}

/// The place of a ticket goes from its group, and another one comes after all others. No memory is taken.
pub fn move_last(groups: &mut Slab<Group>, handle: usize, ticket: u64, place: Place)
    requires there { HasTicket ticket (group_at groups.old handle).places }
    requires last { AreBefore place (group_at groups.old handle).places }
    ensures moved { group_at groups.new handle ≡ record (group_at groups.old handle) { places = without ticket (group_at groups.old handle).places ++ place ∷ [] } }
    ensures others { OthersStay groups.old groups.new handle }
{
    let Some(group) = groups.get_mut(handle) else {
        unreachable!()
    };
    group.places.move_last(ticket, place);
}

/// One of a group is behind no more.
pub fn catch_up(groups: &mut Slab<Group>, handle: usize)
    requires { 1 ≤ (group_at groups.old handle).behind }
    ensures caught { group_at groups.new handle ≡ record (group_at groups.old handle) { behind = (group_at groups.old handle).behind - 1 } }
    ensures others { OthersStay groups.old groups.new handle }
{
    let Some(group) = groups.get_mut(handle) else {
        unreachable!()
    };
    group.behind -= 1;
}

/// How many are in a group, if there is one.
pub fn count_in(group: Option<&Group>) -> usize
    ensures len { result ≡ length (unwrap_or (option_copied group.entry) (record { places = []; behind = 0 })).places }
    ensures small { result < 2 ^ 63 }
{
    match group {
        Some(group) => group.places.len(),
        None => 0,
    }
}

/// The first place of a group from a ticket on, if there is one.
pub fn next_in(group: Option<&Group>, from: u64) -> Option<Place>
    ensures { (passes : Waiter → Bool) (ws : List (Key × Waiter)) → IsRising (λ (w : Key × Waiter). w.1.ticket) ws
        → (unwrap_or (option_copied group.entry) (record { places = []; behind = 0 })).places ≡ members passes ws → IsNext passes ws from result }
{
    match group {
        Some(group) => group.places.get(group.places.index_of(from)),
        None => None,
    }
}

/// Each one of a group gets a copy of a message into its own line. If memory is refused, some of them may have it.
fn put_among(waiters: &mut Waiters, group: &mut Group, message: &Message) -> Result<(), AllocError>
    requires { (g : ℕ) × (group.old ≡ grouped g waiters.old.all) }
    ensures put { OnOk result ((g : ℕ) → group.old ≡ grouped g waiters.old.all
        → waiters.new ≡ record waiters.old { all = map (put_in g message.now) waiters.old.all }) }
    ensures group { (g : ℕ) → group.old ≡ grouped g waiters.old.all → group.new ≡ grouped g waiters.new.all }
    ensures others { (g other : ℕ) → group.old ≡ grouped g waiters.old.all → other ≢ g → grouped other waiters.new.all ≡ grouped other waiters.old.all }
    ensures places { KeepsPlaces waiters.old.all waiters.new.all }
{
    for at in 0..group.places.len() {
        let Some(place) = group.places.get(at) else {
            unreachable!()
        };
        let first = waiters.put(place.key, message.clone()?)?;
        group.count(first);
    }
    Ok(())
}

/// Each one of the group of that handle gets a copy of a message into its own line. If memory is refused, some of them may
/// have it.
pub fn put_all(
    waiters: &mut Waiters,
    groups: &mut Slab<Group>,
    handle: usize,
    message: &Message,
) -> Result<(), AllocError>
    requires some { is_none (group_at groups.old handle).places ≡ false }
    requires group { group_at groups.old handle ≡ grouped handle waiters.old.all }
    ensures put { OnOk result (waiters.new ≡ record waiters.old { all = map (put_in handle message.now) waiters.old.all }) }
    ensures group { group_at groups.new handle ≡ grouped handle waiters.new.all }
    ensures groups { OthersStay groups.old groups.new handle }
    ensures others { (other : ℕ) → other ≢ handle → grouped other waiters.new.all ≡ grouped other waiters.old.all }
    ensures places { KeepsPlaces waiters.old.all waiters.new.all }
{
    let Some(group) = groups.get_mut(handle) else {
        unreachable!()
    };
    put_among(waiters, group, message)
}

/// The subscriptions of a destination without a durable name, or the one of a durable name.
#[derive(Drop)]
pub struct Group {
    /// Where they wait.
    pub places: Places,
    /// How many of them have something in their own line.
    pub behind: usize,
}

impl Group {
    /// A group of nobody. No memory is taken.
    pub fn new(alloc: Global) -> Group
        ensures { result ≡ record { places = []; behind = 0 } }
    {
        Group {
            places: Places::new(alloc),
            behind: 0,
        }
    }

    /// One more, which waits last, and may be behind. If memory is refused, nothing changes.
    pub fn add(&mut self, place: Place, is_behind: bool) -> Result<(), AllocError>
        requires last { AllByRecursion (λ (p : Place). p.ticket < place.ticket) self.old.places }
        requires count { self.old.behind + 1 < 2 ^ 64 }
        ensures ok { OnOk result (self.new ≡ record { places = self.old.places ++ place ∷ []; behind = self.old.behind + one is_behind }) }
        ensures same { OnErr result (self.new ≡ self.old) }
    {
        self.places.add(place)?;
        self.count(is_behind);
        Ok(())
    }

    /// One more of them may be behind.
    pub fn count(&mut self, is_behind: bool)
        requires { self.old.behind + 1 < 2 ^ 64 }
        ensures { self.new ≡ record self.old { behind = self.old.behind + one is_behind } }
    {
        if is_behind {
            self.behind += 1;
        }
    }

    /// The one of that ticket leaves, which may be behind.
    pub fn take_out(&mut self, ticket: u64, is_behind: bool)
        requires { one is_behind ≤ self.old.behind }
        ensures { self.new ≡ record { places = without ticket self.old.places; behind = self.old.behind - one is_behind } }
    {
        self.places.take_out(ticket);
        if is_behind {
            self.behind -= 1;
        }
    }
}

/// The subscriptions in groups, by what these are looked for. A group's handle is given again once nobody is in it.
#[derive(Drop)]
pub struct Directory {
    /// By destination, the group of those without a durable name.
    pub destinations: BTreeMap<Dest, usize>,
    /// By durable name.
    pub names: BTreeMap<DurableName, usize>,
    /// By handle.
    pub groups: Slab<Group>,
}

impl Directory {
    /// A directory of no subscriptions. No memory is taken.
    pub fn new(alloc: Global) -> Directory
        ensures { IsDirectory result [] }
    {
        Directory {
            destinations: BTreeMap::new(alloc),
            names: BTreeMap::new(alloc),
            groups: Slab::new(alloc),
        }
    }

    /// A subscription joins its group, at a place after all others, and the group's handle is given. If memory is refused, part
    /// of it may be done.
    pub fn join(
        &mut self,
        alloc: Global,
        sub: &Subscription,
        place: Place,
    ) -> Result<usize, AllocError>
        requires { (ws : List (Key × Waiter)) × IsDirectory self.old ws × AllByRecursion (λ (w : Key × Waiter). w.1.ticket < place.ticket) ws
            × (length ws + 1 < 2 ^ 64) }
        ensures { IfOk result (λ group. (ws : List (Key × Waiter)) → IsDirectory self.old ws
            → IsDirectory self.new (ws ++ (place.key, record { ticket = place.ticket; group = group; sub = sub.now }) ∷ [])) }
    {
        let is_behind = !sub.line.is_empty();
        match &sub.durable {
            Some(name) => join(
                alloc,
                &mut self.groups,
                &mut self.names,
                name,
                place,
                is_behind,
            ),
            None => join(
                alloc,
                &mut self.groups,
                &mut self.destinations,
                &sub.destination,
                place,
                is_behind,
            ),
        }
    }

    /// The subscription of that group and ticket leaves.
    pub fn leave(&mut self, sub: &Subscription, group: usize, ticket: u64)
        requires { (ws : List (Key × Waiter)) × (at : ℕ) × (key : Key) × (slice_get ws at ≡ Some (key, record { ticket = ticket; group = group; sub = sub.now }))
            × IsDirectory self.old ws }
        ensures { (ws : List (Key × Waiter)) (at : ℕ) (key : Key) → IsRising (λ (w : Key × Waiter). w.1.ticket) ws
            → slice_get ws at ≡ Some (key, record { ticket = ticket; group = group; sub = sub.now })
            → IsDirectory self.old ws → IsDirectory self.new (remove ws at) }
    {
        if !leave(&mut self.groups, group, ticket, !sub.line.is_empty()) {
            return;
        }
        match &sub.durable {
            Some(name) => forget(&mut self.names, name),
            None => forget(&mut self.destinations, &sub.destination),
        }
    }

    /// The subscription of that group and ticket moves to a place after all others. No memory is taken.
    pub fn move_last(&mut self, group: usize, ticket: u64, place: Place)
        requires { (ws : List (Key × Waiter)) × (at : ℕ) × (w : Key × Waiter) × (slice_get ws at ≡ Some w) × (w.1.ticket ≡ ticket) × (w.1.group ≡ group)
            × IsDirectory self.old ws × AllByRecursion (λ (w : Key × Waiter). w.1.ticket < place.ticket) ws }
        ensures { (ws : List (Key × Waiter)) (at : ℕ) (w : Key × Waiter) → IsRising (λ (w : Key × Waiter). w.1.ticket) ws
            → slice_get ws at ≡ Some w → w.1.ticket ≡ ticket → w.1.group ≡ group
            → IsDirectory self.old ws → IsDirectory self.new (remove ws at ++ (place.key, record w.1 { ticket = place.ticket }) ∷ []) }
    {
        move_last(&mut self.groups, group, ticket, place);
    }
}

/// Where a subscription waits: its ticket, and its key.
#[derive(Clone, Copy, Drop)]
pub struct Place {
    pub ticket: u64,
    pub key: Key,
}

/// Some places by rising ticket. Contracts see the list of them.
#[derive(Drop)]
pub struct Places {
    all: VecDeque<Place>,
}

impl Model for Places {
    ghost use Rattle.std.specs.Prelude.{List, ℕ};
    ghost use Rattle.waiting_order.specs.Tickets.{IsRising};
    ghost use Rattle.waiting_order.specs.declared.groups.Place.{Place};

    ghost Value = { List Place };

    ghost view = { λ a. a.all.items };

    ghost invariant = { λ a. IsRising (λ (p : Place). p.ticket) a.all.items };
}

impl Places {
    /// No places. No memory is taken.
    pub fn new(alloc: Global) -> Places
        ensures { result ≡ [] }
    {
        Places {
            all: VecDeque::new(alloc),
        }
    }

    /// How many there are.
    pub fn len(&self) -> usize
        ensures len { result ≡ length self.now }
        ensures small { result < 2 ^ 63 }
        ensures rising { IsRising (λ (p : Place). p.ticket) self.now }
    {
        self.all.len()
    }

    /// The place at that index, if there is one.
    pub fn get(&self, at: usize) -> Option<Place>
        ensures { result ≡ slice_get self.now at }
    {
        self.all.get(at).copied()
    }

    /// How many have lesser tickets. If there are none, that is seen without a search.
    pub fn index_of(&self, ticket: u64) -> usize
        ensures index { IsIndexOf self.now ticket result }
        ensures rising { IsRising (λ (p : Place). p.ticket) self.now }
    {
        match self.all.front() {
            Some(first) if first.ticket < ticket => self.search(ticket),
            _ => 0,
        }
    }

    /// How many have lesser tickets, by halves.
    fn search(&self, ticket: u64) -> usize
        ensures { IsIndexOf self.now ticket result }
    {
        let mut low = 0;
        let mut high = self.all.len();
        while low < high {
            let middle = low + (high - low) / 2;
            if self.all[middle].ticket < ticket {
                low = middle + 1;
                continue;
            }
            high = middle;
        }
        low
    }

    /// One more, whose ticket is over all others. If memory is refused, nothing changes.
    pub fn add(&mut self, place: Place) -> Result<(), AllocError>
        requires { AllByRecursion (λ (p : Place). p.ticket < place.ticket) self.old }
        ensures ok { OnOk result (self.new ≡ self.old ++ place ∷ []) }
        ensures same { OnErr result (self.new ≡ self.old) }
    {
        self.all.push_back(place)?;
        Ok(())
    }

    /// Takes out the place of that ticket, if it is there.
    pub fn take_out(&mut self, ticket: u64)
        ensures { self.new ≡ without ticket self.old }
    {
        let at = self.index_of(ticket);
        let Some(place) = self.get(at) else {
            return;
        };
        if place.ticket != ticket {
            return;
        }
        self.all.remove(at).unwrap();
    }

    /// The place of that ticket goes, and another one comes after all others. No memory is taken.
    pub fn move_last(&mut self, ticket: u64, place: Place)
        requires there { HasTicket ticket self.old }
        requires last { AllByRecursion (λ (p : Place). p.ticket < place.ticket) self.old }
        ensures { self.new ≡ without ticket self.old ++ place ∷ [] }
    {
        let at = self.index_of(ticket);
        self.all.remove(at).unwrap();
        self.all.push_back_reserved(place);
    }
}
