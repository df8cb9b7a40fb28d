//! How much memory each client holds, and all together, and who is evicted.

ghost use Rattle.std.specs.Prelude.{◌≡◌, List, length, ◌+◌, ◌-◌, ◌^◌, [], ℕ, max, min, IfSome, IsNone, IsTrue, ◌↔◌, ◌≤◌, ◌<◌, true, ◌%◌, sum};
ghost use Rattle.claim_core.specs.declared.limits.TheConstants.{SEATS};
ghost use Rattle.wakeups.specs.Budgets.{IsKnownBy, HasFairShare, IsGivenUp, IsMost, IsMostElsewhere, count_clients, counts_for};
ghost use Rattle.wakeups.specs.declared.memory.DeskHolds.{DeskHolds};
ghost use Rattle.wakeups.specs.Sums.{Applies, changed, is_more};
ghost use Rattle.wakeups.specs.declared.memory.Change.TheVariants.{Same};

use crate::mailbox::Mailbox;
use claim_core::SEATS;
use clients::CLIENTS;
use std::marker::Model;
use std::mem;
use std::sync::Arc;
use std::sync::atomic::{AtomicU64, Ordering};

/// How many bytes all clients may hold together, and what they hold. Each desk counts what its own clients hold. It reports to the total by how
/// much that changes, and to its mailbox the most that one of them holds. Contracts see how many they may hold.
#[derive(Drop)]
pub struct Memory {
    total: Total,
    // The mailboxes of all desks.
    mailboxes: Vec<Arc<Mailbox>>,
}

impl Model for Memory {
    ghost use Rattle.std.specs.Prelude.{ℕ};

    ghost Value = { ℕ };

    ghost view = { λ a. a.total };
}

impl Memory {
    /// The memory of clients at desks with these mailboxes, which hold nothing yet.
    pub fn new(budget: u64, mailboxes: Vec<Arc<Mailbox>>) -> Memory
        ensures { result ≡ budget }
    {
        Memory {
            total: Total::new(budget),
            mailboxes,
        }
    }

    /// What all clients hold together.
    pub fn total(&self) -> &Total
        ensures { result.now ≡ self.now }
    {
        &self.total
    }

    /// How many bytes all clients may hold together.
    pub fn budget(&self) -> u64
        ensures { result ≡ self.now }
    {
        self.total.budget()
    }

    /// Whether they hold more.
    pub fn is_over(&self) -> bool {
        is_over(self.budget(), self.total.bytes())
    }

    /// What is known of all clients by the desk of that number, as it follows from what all desks report at this moment.
    pub fn holdings(&self, desk: usize) -> Holdings
        ensures budget { result.budget ≡ self.now }
        ensures known { (desks : List DeskHolds) × (length desks ≡ SEATS) × IsKnownBy desk result desks }
    {
        let mut desks = [DeskHolds {
            clients: 0,
            most: 0,
        }; SEATS];
        for (mailbox, holds) in self.mailboxes.iter().zip(desks.iter_mut()) {
            *holds = mailbox.holds();
        }
        // The total is read last: a desk that evicts a client lowers it before it reports a lower most.
        Holdings::known_at(desk, self.budget(), self.total.bytes(), &desks)
    }
}

/// How many bytes each client of a desk holds, by their places, and what the desk has reported of that: their sum, which goes round at 2^64, to the
/// total, and the most that one of them holds to its mailbox. So the total is the sum of what the clients of all desks hold. Contracts see what each
/// holds.
#[derive(Drop)]
pub struct Account {
    held: ClientBytes,
    reported: u64,
    reported_most: u64,
}

impl Model for Account {
    ghost use Rattle.std.specs.Prelude.{◌≡◌, ◌%◌, ◌^◌, List, ℕ, length, sum};
    ghost use Rattle.std.specs.List.{slice_index_or};
    ghost use Rattle.clients.specs.declared.wakers.TheConstants.{CLIENTS};

    ghost Value = { List ℕ };

    ghost view = { λ a. a.held.bytes };

    ghost invariant = { λ a. (a.reported ≡ sum a.held.bytes % 2 ^ 64) × (a.reported_most ≡ slice_index_or a.held.bytes a.held.most 0) × (length a.held.bytes ≡ CLIENTS) };
}

impl Account {
    ghost use Rattle.std.specs.Prelude.{◌≡◌, ◌<◌, ◌≤◌, true, false};
    ghost use Rattle.std.specs.List.{All, slice_index_or};
    ghost use Rattle.wakeups.specs.Sums.{counted};

    /// Nobody holds anything, and nothing was reported.
    pub fn new() -> Account
        ensures nothing { All (λ bytes. bytes ≡ 0) result }
    {
        Account {
            held: ClientBytes::new(),
            reported: 0,
            reported_most: 0,
        }
    }

    /// The client at that place holds `holds` bytes from now on. The change is reported to the total, and the most that one holds to the mailbox.
    /// Answers whether by this all clients hold more than they may, and did not before. Nothing changes if there is no such
    /// place.
    pub fn count(&mut self, total: &Total, mailbox: &Mailbox, at: usize, holds: u64) -> bool
        ensures holds { self.new ≡ counted at holds self.old }
        ensures its { at < CLIENTS → slice_index_or self.new at 0 ≡ holds }
        ensures more { result ≡ true → slice_index_or self.old at 0 < holds }
        ensures none { CLIENTS ≤ at → result ≡ false }
    {
        if at >= CLIENTS {
            return false;
        }
        let change = self.held.set(at, holds);
        // Others read the total last: so one that is given up is never taken for one that still holds most.
        let has_passed = total.report_change(&mut self.reported, change);
        mailbox.report_most(&mut self.reported_most, self.held.most());
        has_passed
    }

    /// How many bytes each holds.
    pub fn bytes(&self) -> &[u64]
        ensures { result.now ≡ self.now }
    {
        self.held.bytes()
    }
}

/// What a desk reports of its clients.
#[derive(Clone, Copy)]
pub struct DeskHolds {
    /// How many clients it has.
    pub clients: u64,
    /// The most bytes that one of them holds.
    pub most: u64,
}

/// What is known of all clients of a server. Bytes are those that a server counts for its clients.
#[derive(Clone, Copy)]
pub struct Holdings {
    /// How many bytes all clients may hold together.
    pub budget: u64,
    /// How many bytes they hold.
    pub total: u64,
    /// How many clients there are.
    pub clients: u64,
    /// Of the clients for which somebody else decides, the most bytes that one holds.
    pub elsewhere: u64,
}

impl Holdings {
    /// Which of these clients is evicted, by how many bytes each holds; `None` if none of them is. The place of one is answered only
    /// if all clients hold more than the budget. It holds no less than any other client, here or elsewhere. It also holds no less than a
    /// fair share, which is the budget divided by the number of clients. `None` comes only if there is no such client here.
    pub fn given_up(&self, here: &[u64]) -> Option<usize>
        ensures some { IfSome result (IsGivenUp self.now here.now) }
        ensures none { IsNone result → (at : ℕ) → IsGivenUp self.now here.now at → ⊥ }
    {
        if self.total <= self.budget {
            return None;
        }
        let at = most(here)?;
        let held = here[at];
        if held >= self.elsewhere && self.is_fair(held) {
            Some(at)
        } else {
            None
        }
    }

    /// What the desk of that number knows of all clients, which hold `total` bytes, by what each desk reports. Of clients that hold the same,
    /// one at a desk of a lower number counts for a byte more. So one of them is given up, and not one of each desk.
    pub fn known_at(desk: usize, budget: u64, total: u64, desks: &[DeskHolds]) -> Holdings
        ensures bytes { (result.budget ≡ budget) × (result.total ≡ total) }
        ensures clients { result.clients ≡ min (count_clients desks.now) (2 ^ 64 - 1) }
        ensures elsewhere { IsMostElsewhere desk desks.now result.elsewhere }
    {
        let mut holdings = Holdings {
            budget,
            total,
            clients: 0,
            elsewhere: 0,
        };
        for (at, holds) in desks.iter().enumerate() {
            holdings = holdings.with(holds.clients, counts_for(desk, at, *holds));
        }
        holdings
    }

    // The same with another desk, at which `clients` sit. Another worker decides for these, of which one holds `most` bytes and none more.
    fn with(self, clients: u64, most: u64) -> Holdings
        ensures { result ≡ record self { clients = min (self.clients + clients) (2 ^ 64 - 1); elsewhere = max self.elsewhere most } }
    {
        Holdings {
            clients: self.clients.saturating_add(clients),
            elsewhere: self.elsewhere.max(most),
            ..self
        }
    }

    // Whether that many bytes are no less than a fair share.
    fn is_fair(&self, held: u64) -> bool
        ensures { IsTrue result ↔ HasFairShare self.now held }
    {
        u128::from(held) * u128::from(self.clients) >= u128::from(self.budget)
    }
}

// For how many bytes the client counts that holds most at the desk of a number, if that other desk decides.
fn counts_for(decides: usize, at: usize, holds: DeskHolds) -> u64
    ensures { result ≡ counts_for decides at holds }
{
    if at == decides {
        0
    } else if at < decides {
        holds.most.saturating_add(1)
    } else {
        holds.most
    }
}

// The place of the greatest of these numbers, the first of several; `None` if there are none.
pub(crate) fn most(here: &[u64]) -> Option<usize>
    ensures most { IfSome result (IsMost here.now) }
    ensures none { IsNone result → here.now ≡ [] }
{
    let mut greatest = *here.first()?;
    let mut at = 0;
    for (place, held) in here.iter().enumerate() {
        if *held > greatest {
            greatest = *held;
            at = place;
        }
    }
    Some(at)
}

/// How many bytes each of some clients holds, by their places, and the place of one that holds most. Contracts see the two.
#[derive(Drop)]
pub struct ClientBytes {
    bytes: [u64; CLIENTS],
    most: usize,
}

impl Model for ClientBytes {
    ghost use Rattle.wakeups.specs.Budgets.{ClientBytesValue, IsMost};

    ghost Value = { ClientBytesValue };

    ghost view = { λ a. record { bytes = a.bytes; most = a.most } };

    ghost invariant = { λ a. IsMost a.bytes a.most };
}

impl ClientBytes {
    ghost use Rattle.std.specs.Prelude.{◌≡◌, ◌<◌, ◌≤◌, ◌+◌, ◌↔◌, ℕ, length, slice_set, sum, true};
    ghost use Rattle.std.specs.List.{All, slice_index_or};
    ghost use Rattle.clients.specs.declared.wakers.TheConstants.{CLIENTS};
    ghost use Rattle.wakeups.specs.Sums.{Applies, changed, is_more};
    ghost use Rattle.wakeups.specs.declared.memory.Change.TheVariants.{Same};

    /// Nobody holds anything.
    pub fn new() -> ClientBytes
        ensures nothing { All (λ bytes. bytes ≡ 0) result.bytes }
        ensures places { length result.bytes ≡ CLIENTS }
        ensures first { result.most ≡ 0 }
    {
        let mut bytes = [0; CLIENTS];
        bytes.fill(0);
        ClientBytes { bytes, most: 0 }
    }

    /// The client at that place holds `holds` bytes from now on. Answers how the sum changes of what all hold.
    pub fn set(&mut self, at: usize, holds: u64) -> Change
        requires { at < CLIENTS }
        ensures holds { self.new.bytes ≡ slice_set self.old.bytes at holds }
        ensures change { changed result (sum self.old.bytes) ≡ sum self.new.bytes }
        ensures applies { Applies result (sum self.old.bytes) }
        ensures more { is_more result ≡ true ↔ (slice_index_or self.old.bytes at 0 < holds) }
        ensures same { (result ≡ Same) ↔ (slice_index_or self.old.bytes at 0 ≡ holds) }
    {
        let greatest = self.bytes[self.most];
        let held = mem::replace(&mut self.bytes[at], holds);
        if holds >= greatest {
            self.most = at;
        } else if at == self.most {
            self.most = most(&self.bytes).unwrap_or(0);
        }
        Change::of(held, holds)
    }

    /// The most bytes that one of them holds.
    pub fn most(&self) -> u64
        ensures most { All (λ bytes. bytes ≤ result) self.now.bytes }
        ensures reached { (self.now.most < length self.now.bytes) × (result ≡ slice_index_or self.now.bytes self.now.most 0) }
    {
        self.bytes[self.most]
    }

    /// How many bytes each holds.
    pub fn bytes(&self) -> &[u64]
        ensures { result.now ≡ self.now.bytes }
    {
        &self.bytes
    }
}

/// How the sum changes of what all clients hold.
#[derive(Clone, Copy)]
pub enum Change {
    /// It stays.
    Same,
    /// It grows by that many bytes.
    More(u64),
    /// It shrinks by that many bytes.
    Less(u64),
}

impl Change {
    /// How a client that held `held` bytes, and now holds `holds`, changes the sum.
    pub fn of(held: u64, holds: u64) -> Change
        ensures change { (total : ℕ) → held ≤ total → (changed result total + held ≡ total + holds) × Applies result total }
        ensures more { is_more result ≡ true ↔ (held < holds) }
        ensures same { (result ≡ Same) ↔ (held ≡ holds) }
    {
        if holds < held {
            Change::Less(held - holds)
        } else if held < holds {
            Change::More(holds - held)
        } else {
            Change::Same
        }
    }
}

/// Whether that sum is over the budget.
pub fn is_over(budget: u64, sum: u64) -> bool
    ensures { IsTrue result ↔ (budget < sum) }
{
    sum > budget
}

/// Whether a sum passes the budget if it grows by `more`, and did not before.
pub fn passes(budget: u64, before: u64, more: u64) -> bool
    ensures { IsTrue result ↔ ((before ≤ budget) × (budget < before + more)) }
{
    before <= budget && more > budget - before
}

/// How many bytes all clients may hold together, and how many they hold. Each desk reports by how much what its own clients hold changes.
/// Contracts see how many they may hold. How many they do, no contract knows, since the threads of other desks change it at any time.
#[derive(Drop)]
pub struct Total {
    budget: u64,
    bytes: AtomicU64,
}

impl Model for Total {
    ghost use Rattle.std.specs.Prelude.{ℕ};

    ghost Value = { ℕ };

    ghost view = { λ a. a.budget };
}

impl Total {
    /// All clients may hold `budget` bytes together, and hold nothing yet.
    pub fn new(budget: u64) -> Total
        ensures { result ≡ budget }
    {
        Total {
            budget,
            bytes: AtomicU64::new(0),
        }
    }

    /// How many bytes all clients may hold together.
    pub fn budget(&self) -> u64
        ensures { result ≡ self.now }
    {
        self.budget
    }

    /// How many bytes they hold at this moment: any number may be read here.
    pub fn bytes(&self) -> u64 {
        self.bytes.load(Ordering::SeqCst)
    }

    // Reports a change. `reported` is what a desk has reported by its changes so far. Answers whether by this all clients hold more than they may,
    // and did not before. Both numbers go round at 2^64.
    pub(crate) fn report_change(&self, reported: &mut u64, change: Change) -> bool
        ensures reported { (sum : ℕ) → Applies change sum → reported.old ≡ sum % 2 ^ 64 → reported.new ≡ changed change sum % 2 ^ 64 }
        ensures more { result ≡ true → is_more change ≡ true }
    {
        match change {
            Change::Same => false,
            Change::Less(bytes) => {
                *reported = reported.wrapping_sub(bytes);
                self.bytes.fetch_sub(bytes, Ordering::SeqCst);
                false
            }
            Change::More(bytes) => {
                *reported = reported.wrapping_add(bytes);
                let before = self.bytes.fetch_add(bytes, Ordering::SeqCst);
                passes(self.budget, before, bytes)
            }
        }
    }
}
