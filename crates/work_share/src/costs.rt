//! What commands cost, and how many of a desk may be under way.

ghost use Rattle.std.specs.Prelude.{◌≡◌, ◌≤◌, ◌<◌, IfOk, IfSome, IsSome, false, min, ◌%◌, ◌↔◌, IsTrue, ◌≢◌, ◌+◌, ℕ, List, length};
ghost use Rattle.std.specs.Arc.{arc_value};
ghost use Rattle.std.specs.List.{AllByRecursion};
ghost use Rattle.work_share.specs.Loads.{number_of, all_under_way};
ghost use Rattle.work_share.specs.declared.audiences.TheConstants.{PLACES};
ghost use Rattle.work_share.specs.declared.costs.TheConstants.{WIDEST, DESKS, GREEDY, SHARE};
ghost use Rattle.work_share.specs.Counts.{most, cost_from};
ghost use Rattle.work_share.specs.Windows.{IsWindow, IsWindowAmong, TakesNumber, MayGo};
ghost use Rattle.work_share.specs.Lines.{is_before, standing};
ghost use Rattle.work_share.specs.Grants.{AreOf, Grant, KeepShares, granted};
ghost use Rattle.work_share.specs.LineSteps.{TakeTurns, Waits, load_after};
ghost use Rattle.work_share.specs.declared.load.LineStep.{LineStep};
ghost use Rattle.work_share.specs.declared.load.TheConstants.{CHEAP};
ghost use Rattle.work_share.specs.declared.costs.Standing.TheVariants.{Behind, First};

use crate::audiences::Audiences;
use crate::load::{DeskLoad, Load, Noted};
use command_core::Op;
use std::alloc::{AllocError, Global};
use std::marker::Model;
use std::sync::Arc;
use std::sync::atomic::{AtomicU64, Ordering};

/// What all commands under way may cost to carry out together, in nanoseconds of a processor, if one of them was first in line.
pub const BUDGET: u64 = 100_000_000;

/// Up to this all desks may have what they want while none of them stands in line. No command is taken to cost more.
pub const GREEDY: u64 = 50_000_000;

/// What the commands of a desk may cost, whatever others have under way: a 64th of what all may want.
pub const SHARE: u64 = 781_250;

/// How many commands of a desk may be under way, however little they cost.
pub const WIDEST: usize = 16;

/// How many desks there may be.
pub const DESKS: usize = 64;

/// What commands of desks cost, what is under way of them, and which desks wait with a dear one. Contracts see how many desks there are, and the
/// audiences that the flusher counts. What is under way, no contract sees, since other threads change it.
#[derive(Drop)]
pub struct Costs {
    audiences: Arc<Audiences>,
    desks: Vec<DeskLoad>,
    // The number in line that was given last.
    line: AtomicU64,
}

impl Model for Costs {
    ghost use Rattle.std.specs.Prelude.{◌≤◌, length};
    ghost use Rattle.std.specs.Arc.{arc_value};
    ghost use Rattle.work_share.specs.Costs.{CostsValue};
    ghost use Rattle.work_share.specs.declared.costs.TheConstants.{DESKS};

    ghost Value = { CostsValue };

    ghost view = { λ a. record { desks = length a.desks.items; places = arc_value a.audiences } };

    ghost invariant = { λ a. length a.desks.items ≤ DESKS };
}

impl Costs {
    /// Of that many desks, 64 at most, that have nothing under way, while nobody listens to a topic.
    pub fn new(alloc: Global, desks: usize) -> Result<Costs, AllocError>
        ensures { IfOk result (λ costs. costs ≡ record { desks = min desks DESKS; places = PLACES }) }
    {
        let desks = desks.min(DESKS);
        let mut loads = Vec::with_capacity(alloc, desks)?;
        for _desk in 0..desks {
            loads.push(DeskLoad::new(alloc)?)?;
        }
        Ok(Costs {
            audiences: Arc::new(alloc, Audiences::new(alloc)?)?,
            desks: loads,
            line: AtomicU64::new(0),
        })
    }

    /// What the flusher counts.
    pub fn audiences(&self) -> Result<Arc<Audiences>, AllocError>
        ensures { IfOk result (λ audiences. arc_value audiences ≡ self.now.places) }
    {
        self.audiences.clone()
    }

    /// How many commands that desk may have under way, with one of this client and operation that comes next, at this mark. A dear command that
    /// has to wait stands in line from then on.
    pub fn window(&self, desk: usize, client: u64, op: &Op, mark: u64) -> usize
        ensures most { result ≤ WIDEST }
        ensures none { self.now.desks ≤ desk → result ≡ WIDEST }
    {
        let Some(own) = self.desks.get(desk) else {
            return WIDEST;
        };
        let asked = own.asks(self.audiences.cost(op)).load();
        if !asked.is_counted() {
            return WIDEST;
        }
        let counted = own.recount(mark).load();
        let window = window_among(desk, client, asked.asked, mark, self.loads());
        if takes_number(window, asked.asked, counted.line) {
            let number = self.line.fetch_add(1, Ordering::SeqCst).saturating_add(1);
            drop(own.stands(client, number));
        }
        window
    }

    /// The command of this client of the desk that was asked about last has that ticket. The client stands in line no more.
    pub fn appended(&self, desk: usize, client: u64, ticket: u64, mark: u64) -> Option<Noted>
        ensures there { desk < self.now.desks → IsSome result }
        ensures left { IfSome result (λ load. number_of client load ≡ 0) }
    {
        let own = self.desks.get(desk)?;
        Some(own.appends(client, ticket, mark))
    }

    /// That client of the desk has left, whether or not its command was appended. It stands in line no more, and others don't wait for it.
    pub fn leave(&self, desk: usize, client: u64) -> Option<Noted>
        ensures there { desk < self.now.desks → IsSome result }
        ensures left { IfSome result (λ load. number_of client load ≡ 0) }
    {
        let own = self.desks.get(desk)?;
        Some(own.leaves(client))
    }

    /// Whether that desk waits with a command that is dear.
    pub fn waits(&self, desk: usize) -> bool
        ensures { self.now.desks ≤ desk → result ≡ false }
    {
        match self.desks.get(desk) {
            Some(own) => own.load().line > 0,
            None => false,
        }
    }

    // The loads of all desks at this moment.
    fn loads(&self) -> [Load; DESKS] {
        let mut loads = [Load::none(); DESKS];
        for (desk, load) in self.desks.iter().zip(loads.iter_mut()) {
            *load = desk.load();
        }
        loads
    }
}

/// What those of these commands cost that are under way at this mark. Each has its ticket, and what it costs.
pub(crate) fn under_way(commands: &[(u64, u64)], mark: u64) -> u64
    ensures { result ≡ min most (cost_from mark commands.now) }
{
    let mut sum: u64 = 0;
    for (ticket, cost) in commands {
        if *ticket >= mark {
            sum = sum.saturating_add(*cost);
        }
    }
    sum
}

/// What the commands of all these desks cost that are under way at this mark.
pub(crate) fn all_under_way(loads: &[Load], mark: u64) -> u64
    ensures { result ≡ all_under_way mark loads.now }
{
    let mut sum: u64 = 0;
    for load in loads {
        sum = sum.saturating_add(load.left_at(mark));
    }
    sum
}

/// The place among a desk's last commands of the one that comes after so many: that of the oldest.
pub(crate) fn place_after(count: u64) -> usize
    ensures { result ≡ count % WIDEST }
{
    (count % WIDEST as u64) as usize
}

/// How many commands of a desk may be under way, with one that comes next and costs `cost`: none while it has to wait. Those of this desk that are
/// under way cost `own`, and those of all desks `all`.
pub fn window(cost: u64, own: u64, all: u64, standing: Standing) -> usize
    ensures { IsWindow cost own all standing result }
{
    let sum = all.saturating_add(cost);
    let is_dear = cost > SHARE;
    let has_room = match standing {
        Standing::Alone => sum <= GREEDY || is_dear && sum <= BUDGET,
        Standing::First => is_dear && sum <= BUDGET,
        Standing::Behind => false,
    };
    if has_room || own.saturating_add(cost) <= SHARE {
        WIDEST
    } else {
        0
    }
}

/// How many commands of a desk may be under way, with one of this client that comes next and costs `cost`. The desks have these loads at this mark.
pub fn window_among(desk: usize, client: u64, cost: u64, mark: u64, loads: [Load; DESKS]) -> usize
    requires { desk < DESKS }
    ensures { IsWindowAmong desk client cost mark loads result }
{
    let own = loads[desk];
    let mut others = loads;
    others[desk] = own.without(client);
    let standing = standing_among(own.number_of(client), &others);
    window(cost, own.sum, all_under_way(&others, mark), standing)
}

/// Whether a desk gets a number in line with a command that costs so much, for which it has that window, while it has that number.
pub(crate) fn takes_number(window: usize, cost: u64, line: u64) -> bool
    ensures { IsTrue result ↔ TakesNumber window cost line }
{
    window == 0 && cost > SHARE && line == 0
}

/// Where a command stands among the desks that wait in line, each with a dear command.
#[derive(Clone, Copy)]
pub enum Standing {
    /// No other waits.
    Alone,
    /// Others wait, none of them before it.
    First,
    /// Another waits before it.
    Behind,
}

/// Where a command with the number `own` stands among these desks. One with 0 has no number yet.
pub(crate) fn standing_among(own: u64, others: &[Load]) -> Standing
    ensures { result ≡ standing own others.now }
{
    let (mut does_one_wait, mut is_one_before) = (false, false);
    for other in others {
        does_one_wait |= other.line > 0;
        is_one_before |= is_before(other.line, own);
    }
    if is_one_before {
        Standing::Behind
    } else if does_one_wait {
        Standing::First
    } else {
        Standing::Alone
    }
}

// Whether a desk that has the number `line` waits, and stands before a command with the number `own`. One with 0 stands behind all.
fn is_before(line: u64, own: u64) -> bool
    ensures { result ≡ is_before own line }
{
    line > 0 && (own == 0 || line < own)
}

/// While a command stands first in line, what others are granted keeps to their shares: all of it fits into `GREEDY`, and is no more
/// than 1,024 commands that count for something.
pub fn others_keep_to_shares()
    ensures share { (cost own all : ℕ) → MayGo cost own all Behind → own + cost ≤ SHARE }
    ensures all { (grants : List Grant) → KeepShares grants → AreOf DESKS grants → granted grants ≤ GREEDY }
    ensures count { (grants : List Grant) → KeepShares grants → AreOf DESKS grants → AllByRecursion (λ (grant : Grant). CHEAP < grant.cost) grants → length grants ≤ 1024 }
{}

/// So the first in line may go at its next ask, once all that was under way when it came to stand there is done: then only commands are under
/// way that were granted since. A command that came to cost less than a share goes by that, once its desk has nothing else under way.
pub fn first_in_line_goes()
    ensures dear { (grants : List Grant) (cost own : ℕ) → KeepShares grants → AreOf DESKS grants → SHARE < cost → cost ≤ GREEDY → MayGo cost own (granted grants) First }
    ensures cheaper { (cost all : ℕ) → cost ≤ SHARE → MayGo cost 0 all First }
{}

/// After any steps of a desk, a client has a number in line exactly if its command waits: it got one, and has neither appended its command nor left
/// since then.
pub fn whoever_stands_in_line_waits()
    ensures stands { (client : ℕ) (steps : List LineStep) → number_of client (load_after steps) ≢ 0 → Waits client steps }
    ensures keeps { (client : ℕ) (steps : List LineStep) → TakeTurns steps → Waits client steps → number_of client (load_after steps) ≢ 0 }
{}
