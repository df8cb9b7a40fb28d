//! The durable names. Those of a topic are found without a look at the others.

ghost use Rattle.std.specs.Prelude.{◌≡◌, [], ℕ, List, IfOk, None, OnErr, OnOk, length, true, unwrap_or, if◌then◌else◌};
ghost use Rattle.std.specs.BTreeMap.{insert_entry, is_at};
ghost use Rattle.std.specs.BTreeSet.{insert_key};
ghost use Rattle.std.specs.List.Sorted.{IsStrictlySortedBy};
ghost use Rattle.std.specs.Map.{keys_of, remove_entry};
ghost use Rattle.std.specs.Option.{option_copied};
ghost use Rattle.std.specs.Set.{remove_key};
ghost use Rattle.broker_state.specs.Names.{AreSame, name_cmp};
ghost use Rattle.broker_state.specs.Operations.{topic_of};
ghost use Rattle.broker_tables.specs.Topics.{AreGrouped, names_at, names_of};

use broker_state::DurableName;
use command_core::Dest;
use std::alloc::{AllocError, Global};
use std::collections::{BTreeMap, BTreeSet};
use std::marker::Model;

/// Some durable names by rising name. Contracts see the list of them.
#[derive(Drop)]
pub struct Names {
    all: BTreeSet<DurableName>,
}

impl Model for Names {
    ghost use Rattle.std.specs.Prelude.{List};
    ghost use Rattle.broker_state.specs.Names.{Name};

    ghost Value = { List Name };

    ghost view = { λ a. a.all.keys };
}

impl Names {
    /// No names. No memory is taken.
    fn new(alloc: Global) -> Names
        ensures { result ≡ [] }
    {
        Names {
            all: BTreeSet::new(alloc),
        }
    }

    /// The names, to be gone through.
    pub fn all(&self) -> &BTreeSet<DurableName>
        ensures { result.now.keys ≡ self.now }
    {
        &self.all
    }

    /// One more, at its place. If memory is refused, nothing changes.
    fn add(&mut self, name: DurableName) -> Result<(), AllocError>
        ensures ok { OnOk result (self.new ≡ insert_key name_cmp self.old name) }
        ensures same { OnErr result (self.new ≡ self.old) }
    {
        self.all.insert(name)?;
        Ok(())
    }

    /// Takes out a name, if it is there.
    fn take_out(&mut self, name: &DurableName)
        ensures { self.new ≡ remove_key (is_at (name_cmp name.now)) self.old }
    {
        self.all.remove(name);
    }
}

/// This name begins those under that key, which has none. If memory is refused, nothing changes.
fn begin<K: Ord + Clone + Drop>(
    alloc: Global,
    groups: &mut BTreeMap<K, Names>,
    key: &K,
    name: DurableName,
) -> Result<(), AllocError>
    requires clone { (old copy : K) → K.is_clone old copy → copy ≡ old }
    requires same { AreSame K.cmp }
    requires none { names_at K.cmp groups.old.entries key.now ≡ [] }
    ensures joined { OnOk result ((q : K) → names_at K.cmp groups.new.entries q
        ≡ (if is_at (K.cmp key.now) q then insert_key name_cmp (names_at K.cmp groups.old.entries q) name else names_at K.cmp groups.old.entries q)) }
    ensures same { OnErr result (groups.new.entries ≡ groups.old.entries) }
{
    let key = key.clone()?;
    let mut names = Names::new(alloc);
    names.add(name)?;
    groups.insert(key, names)?;
    Ok(())
}

/// A name joins those under that key, at its place. If memory is refused, nothing changes.
fn join<K: Ord + Clone + Drop>(
    alloc: Global,
    groups: &mut BTreeMap<K, Names>,
    key: &K,
    name: DurableName,
) -> Result<(), AllocError>
    requires clone { (old copy : K) → K.is_clone old copy → copy ≡ old }
    requires same { AreSame K.cmp }
    ensures joined { OnOk result ((q : K) → names_at K.cmp groups.new.entries q
        ≡ (if is_at (K.cmp key.now) q then insert_key name_cmp (names_at K.cmp groups.old.entries q) name else names_at K.cmp groups.old.entries q)) }
    ensures same { OnErr result ((q : K) → names_at K.cmp groups.new.entries q ≡ names_at K.cmp groups.old.entries q) }
{
    if let Some(names) = groups.get_mut(key) {
        return names.add(name);
    }
    begin(alloc, groups, key, name)
}

/// Takes a name out of those under that key, and answers whether none is left.
fn take_from<K: Ord + Drop>(groups: &mut BTreeMap<K, Names>, key: &K, name: &DurableName) -> bool
    ensures left { (q : K) → names_at K.cmp groups.new.entries q
        ≡ (if is_at (K.cmp key.now) q then remove_key (is_at (name_cmp name.now)) (names_at K.cmp groups.old.entries q) else names_at K.cmp groups.old.entries q) }
    ensures empty { result ≡ true → names_at K.cmp groups.new.entries key.now ≡ [] }
{
    match groups.get_mut(key) {
        Some(names) => {
            names.take_out(name);
            names.all().is_empty()
        }
        None => false,
    }
}

/// A name leaves those under that key. A key without names is let go.
fn leave<K: Ord + Drop>(groups: &mut BTreeMap<K, Names>, key: &K, name: &DurableName)
    requires { AreSame K.cmp }
    ensures { (q : K) → names_at K.cmp groups.new.entries q
        ≡ (if is_at (K.cmp key.now) q then remove_key (is_at (name_cmp name.now)) (names_at K.cmp groups.old.entries q) else names_at K.cmp groups.old.entries q) }
{
    if take_from(groups, key, name) {
        groups.remove(key);
    }
}

/// The names stand in order, each once. Nothing changes.
fn stand_in_order(topics: &BTreeMap<DurableName, Dest>)
    ensures { IsStrictlySortedBy name_cmp (keys_of topics.now.entries) }
{
    let _count = topics.len();
}

/// The names under each topic.
fn group(
    alloc: Global,
    topics: &BTreeMap<DurableName, Dest>,
) -> Result<BTreeMap<Dest, Names>, AllocError>
    ensures { IfOk result (λ groups. AreGrouped topics.now.entries groups.entries) }
{
    stand_in_order(topics);
    let mut groups = BTreeMap::new(alloc);
    for (name, topic) in topics {
        let name = name.clone()?;
        join(alloc, &mut groups, topic, name)?;
    }
    Ok(groups)
}

/// The durable names, each bound to a topic. Contracts see the list of them with their topics by rising name. Those of a
/// topic are found without a look at the others.
#[derive(Drop)]
pub struct DurableNames {
    /// The topic of each.
    topics: BTreeMap<DurableName, Dest>,
    /// Those of each topic.
    groups: BTreeMap<Dest, Names>,
}

impl Model for DurableNames {
    ghost use Rattle.std.specs.Prelude.{List, ℕ};
    ghost use Rattle.broker_state.specs.Names.{Name};
    ghost use Rattle.broker_tables.specs.Topics.{AreGrouped};

    ghost Value = { List (Name × List ℕ) };

    ghost view = { λ a. a.topics.entries };

    ghost invariant = { λ a. AreGrouped a.topics.entries a.groups.entries };
}

impl DurableNames {
    /// No names. No memory is taken.
    pub fn new(alloc: Global) -> DurableNames
        ensures { result ≡ [] }
    {
        DurableNames {
            topics: BTreeMap::new(alloc),
            groups: BTreeMap::new(alloc),
        }
    }

    /// These names, each with its topic.
    pub fn of(
        alloc: Global,
        topics: BTreeMap<DurableName, Dest>,
    ) -> Result<DurableNames, AllocError>
        ensures { IfOk result (λ names. names ≡ topics.entries) }
    {
        let groups = group(alloc, &topics)?;
        Ok(DurableNames { topics, groups })
    }

    /// The topic of each.
    pub fn topics(&self) -> &BTreeMap<DurableName, Dest>
        ensures { result.now.entries ≡ self.now }
    {
        &self.topics
    }

    /// The names that are bound to a topic, if there are some.
    pub fn of_topic(&self, to: &Dest) -> Option<&Names>
        ensures { unwrap_or (option_copied result) [] ≡ names_of to.now self.now }
    {
        self.groups.get(to)
    }

    /// A name that is not bound is bound to a topic. If memory is refused, nothing changes.
    pub fn bind(
        &mut self,
        alloc: Global,
        name: &DurableName,
        topic: &Dest,
    ) -> Result<(), AllocError>
        requires { topic_of name.now self.old ≡ None }
        ensures ok { OnOk result (self.new ≡ insert_entry name_cmp self.old name.now topic.now) }
        ensures same { OnErr result (self.new ≡ self.old) }
    {
        stand_in_order(&self.topics);
        let copy = name.clone()?;
        bind_to(&mut self.topics, name, topic)?;
        match join(alloc, &mut self.groups, topic, copy) {
            Ok(()) => Ok(()),
            Err(refused) => {
                self.topics.remove(name);
                Err(refused)
            }
        }
    }

    /// A name is bound no more.
    pub fn forget(&mut self, name: &DurableName)
        ensures { self.new ≡ remove_entry (is_at (name_cmp name.now)) self.old }
    {
        if let Some(topic) = self.topics.remove(name) {
            leave(&mut self.groups, &topic, name);
        }
    }
}

/// A name is bound to a topic. If memory is refused, nothing changes.
fn bind_to(
    topics: &mut BTreeMap<DurableName, Dest>,
    name: &DurableName,
    topic: &Dest,
) -> Result<(), AllocError>
    ensures ok { OnOk result (topics.new.entries ≡ insert_entry name_cmp topics.old.entries name.now topic.now) }
    ensures same { OnErr result (topics.new.entries ≡ topics.old.entries) }
{
    let topic = topic.clone()?;
    topics.insert(name.clone()?, topic)?;
    Ok(())
}
