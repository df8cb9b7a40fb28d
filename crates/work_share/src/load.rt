//! What a desk has under way, and where it stands in line, as values.

ghost use Rattle.std.specs.Prelude.{◌≡◌, ◌<◌, ◌↔◌, IsTrue, ℕ, ◌≤◌, IfOk};
ghost use Rattle.work_share.specs.Loads.{appended, asked, left_at, number_of, with_number, without};
ghost use Rattle.work_share.specs.declared.load.Load.{Load};

use crate::costs::{SHARE, WIDEST, place_after, under_way};
use std::alloc::{AllocError, Global};
use std::marker::Model;
use std::sync::atomic::{AtomicU64, Ordering};

// A command that costs so little counts for nothing: all that desks may have under way of these keep to their shares.
const CHEAP: u64 = SHARE / WIDEST as u64;

/// What a desk has under way, and where it stands in line, at one moment.
#[derive(Clone, Copy)]
pub struct Load {
    /// What the command costs that it asked about last, or 0 if that counts for nothing.
    pub asked: u64,
    /// The last ticket that it got.
    pub last: u64,
    /// What its commands under way cost.
    pub sum: u64,
    /// The client for whose command it got its number in line.
    pub holder: u64,
    /// Its number in line, if it waits with a command that is dear, or 0.
    pub line: u64,
}

impl Load {
    ghost use Rattle.work_share.specs.Loads.{none};

    /// Nothing is under way, and nobody stands in line.
    pub(crate) fn none() -> Load
        ensures { result ≡ none }
    {
        Load {
            asked: 0,
            last: 0,
            sum: 0,
            holder: 0,
            line: 0,
        }
    }

    /// Once it has asked about a command that costs so much.
    pub(crate) fn asks(self, cost: u64) -> Load
        ensures { result ≡ asked cost self }
    {
        Load {
            asked: if cost > CHEAP { cost } else { 0 },
            ..self
        }
    }

    /// Whether the command that it asked about last counts for something.
    pub(crate) fn is_counted(self) -> bool
        ensures { IsTrue result ↔ (0 < self.asked) }
    {
        self.asked > 0
    }

    /// Once its commands under way cost this.
    pub(crate) fn counts(self, sum: u64) -> Load
        ensures { result ≡ record self { sum = sum } }
    {
        Load { sum, ..self }
    }

    /// Once a command of that client has that number in line.
    pub(crate) fn stands(self, client: u64, number: u64) -> Load
        ensures { result ≡ with_number client number self }
    {
        Load {
            holder: client,
            line: number,
            ..self
        }
    }

    /// Once that client's command was appended or given up: a neighbour's number stays.
    pub(crate) fn without(self, client: u64) -> Load
        ensures { result ≡ without client self }
    {
        let line = if client == self.holder { 0 } else { self.line };
        Load { line, ..self }
    }

    /// Once the command of that client that it asked about last has that ticket. With it, those under way cost `sum`.
    pub(crate) fn appends(self, client: u64, ticket: u64, sum: u64) -> Load
        ensures { result ≡ appended client ticket sum self }
    {
        let left = self.without(client);
        if self.is_counted() {
            Load {
                last: ticket,
                sum,
                ..left
            }
        } else {
            left
        }
    }

    /// The number in line that a command of that client has, or 0.
    pub(crate) fn number_of(self, client: u64) -> u64
        ensures { result ≡ number_of client self }
    {
        if client == self.holder { self.line } else { 0 }
    }

    /// What its commands cost that are under way at a mark: nothing once the last one is under that.
    pub(crate) fn left_at(self, mark: u64) -> u64
        ensures { result ≡ left_at mark self }
    {
        if self.last < mark { 0 } else { self.sum }
    }
}

/// What a desk has under way. It alone writes this, and others read it: no contract sees what it holds. Each step reads a load, makes the next one
/// of it, and notes that.
#[derive(Drop)]
pub(crate) struct DeskLoad {
    // The tickets of its last commands, what each of them cost, and how many it has had.
    tickets: Words,
    costs: Words,
    count: AtomicU64,
    asked: AtomicU64,
    last: AtomicU64,
    sum: AtomicU64,
    holder: AtomicU64,
    line: AtomicU64,
}

/// A load that its desk has noted. Nothing else makes one, so who has it made that step. Contracts see the load.
#[derive(Drop)]
pub struct Noted {
    load: Load,
}

impl Model for Noted {
    ghost use Rattle.work_share.specs.declared.load.Load.{Load};

    ghost Value = { Load };

    ghost view = { λ a. a.load };
}

impl Noted {
    /// The load.
    pub(crate) fn load(&self) -> Load
        ensures { result ≡ self.now }
    {
        self.load
    }
}

impl DeskLoad {
    /// It has nothing under way.
    pub(crate) fn new(alloc: Global) -> Result<DeskLoad, AllocError> {
        Ok(DeskLoad {
            tickets: Words::new(alloc, WIDEST)?,
            costs: Words::new(alloc, WIDEST)?,
            count: AtomicU64::new(0),
            asked: AtomicU64::new(0),
            last: AtomicU64::new(0),
            sum: AtomicU64::new(0),
            holder: AtomicU64::new(0),
            line: AtomicU64::new(0),
        })
    }

    /// The load as it is noted.
    pub(crate) fn load(&self) -> Load {
        Load {
            asked: get(&self.asked),
            last: get(&self.last),
            sum: get(&self.sum),
            holder: get(&self.holder),
            line: get(&self.line),
        }
    }

    // Notes a load where it differs from the one before. The number comes last, once its holder is noted.
    fn note(&self, before: Load, load: Load) -> Noted
        ensures { result ≡ load }
    {
        change(&self.asked, before.asked, load.asked);
        change(&self.last, before.last, load.last);
        change(&self.sum, before.sum, load.sum);
        change(&self.holder, before.holder, load.holder);
        change(&self.line, before.line, load.line);
        Noted { load }
    }

    /// It asks about a command that costs so much.
    pub(crate) fn asks(&self, cost: u64) -> Noted
        ensures { (before : Load) × (result ≡ asked cost before) }
    {
        let before = self.load();
        self.note(before, before.asks(cost))
    }

    /// Counts anew what its commands cost that are under way at this mark.
    pub(crate) fn recount(&self, mark: u64) -> Noted
        ensures { (before : Load) × (sum : ℕ) × (result ≡ record before { sum = sum }) }
    {
        let before = self.load();
        self.note(before, before.counts(self.under_way(mark)))
    }

    /// A command of that client has that number in line.
    pub(crate) fn stands(&self, client: u64, number: u64) -> Noted
        ensures { (before : Load) × (result ≡ with_number client number before) }
    {
        let before = self.load();
        self.note(before, before.stands(client, number))
    }

    /// The command of that client that it asked about last has that ticket: the client stands in line no more.
    pub(crate) fn appends(&self, client: u64, ticket: u64, mark: u64) -> Noted
        ensures { (before : Load) × (sum : ℕ) × (result ≡ appended client ticket sum before) }
    {
        let before = self.load();
        if before.is_counted() {
            self.add(ticket, before.asked);
            let sum = self.under_way(mark);
            return self.note(before, before.appends(client, ticket, sum));
        }
        self.note(before, before.appends(client, ticket, before.sum))
    }

    /// That client has left, or gives its command up: it stands in line no more.
    pub(crate) fn leaves(&self, client: u64) -> Noted
        ensures { (before : Load) × (result ≡ without client before) }
    {
        let before = self.load();
        self.note(before, before.without(client))
    }

    // Its next command has that ticket, and costs so much. It takes the place of the oldest.
    fn add(&self, ticket: u64, cost: u64) {
        let place = place_after(self.count.fetch_add(1, Ordering::SeqCst));
        self.tickets.set(place, ticket);
        self.costs.set(place, cost);
    }

    // What its last commands cost that are under way at this mark.
    fn under_way(&self, mark: u64) -> u64 {
        let mut commands = [(0, 0); WIDEST];
        for (place, command) in commands.iter_mut().enumerate() {
            *command = (self.tickets.get(place), self.costs.get(place));
        }
        under_way(&commands, mark)
    }
}

// Writes a number if it differs from the one before.
fn change(word: &AtomicU64, before: u64, value: u64) {
    if value != before {
        set(word, value);
    }
}

/// A step by which a desk's load changes. A desk makes one after another.
#[derive(Clone, Copy)]
pub enum LineStep {
    /// It asks about a command that costs so much.
    Asks(u64),
    /// It counts anew what its commands under way cost.
    Counts(u64),
    /// A command of that client gets that number in line.
    Stands(u64, u64),
    /// The command of that client that it asked about last got that ticket. With it, those under way cost this.
    Appends(u64, u64, u64),
    /// That client has left.
    Leaves(u64),
}

/// Reads a number that another thread may write.
pub(crate) fn get(word: &AtomicU64) -> u64 {
    word.load(Ordering::SeqCst)
}

/// Writes a number that another thread may read.
pub(crate) fn set(word: &AtomicU64, value: u64) {
    word.store(value, Ordering::SeqCst);
}

/// Such numbers by their places. A place that there isn't has 0. Contracts see how many there are. What they are, no contract sees, since
/// other threads write them.
#[derive(Drop)]
pub(crate) struct Words {
    all: Vec<AtomicU64>,
}

impl Model for Words {
    ghost use Rattle.std.specs.Prelude.{ℕ, length};

    ghost Value = { ℕ };

    ghost view = { λ a. length a.all.items };
}

impl Words {
    /// That many zeros.
    pub(crate) fn new(alloc: Global, count: usize) -> Result<Words, AllocError>
        ensures { IfOk result (λ words. words ≡ count) }
    {
        let mut all = Vec::with_capacity(alloc, count)?;
        for _place in 0..count {
            all.push(AtomicU64::new(0))?;
        }
        Ok(Words { all })
    }

    pub(crate) fn get(&self, place: usize) -> u64
        ensures { self.now ≤ place → result ≡ 0 }
    {
        match self.all.get(place) {
            Some(word) => get(word),
            None => 0,
        }
    }

    pub(crate) fn set(&self, place: usize, value: u64) {
        if let Some(word) = self.all.get(place) {
            set(word, value);
        }
    }
}
