//! How many listen to each topic, as far as is counted.

ghost use Rattle.std.specs.Prelude.{◌≡◌, ◌≤◌, ◌*◌, ◌+◌, IfOk, length, min};
ghost use Rattle.work_share.specs.Costs.{least_cost};
ghost use Rattle.work_share.specs.Counts.{place_for, IsSampleOf, Shows, audience_after, place_sent, place_shown};
ghost use Rattle.work_share.specs.declared.audiences.TheConstants.{DELIVERY, MOST_COPIES, OPERATION, PLACES};
ghost use Rattle.work_share.specs.declared.costs.TheConstants.{GREEDY};

use crate::costs::GREEDY;
use crate::load::Words;
use command_core::{Dest, Member, Op};
use std::alloc::{AllocError, Global};
use std::marker::Model;

/// In how many places topics are counted.
const PLACES: usize = 4_096;

/// What it costs to carry out an operation, in nanoseconds of a processor, beside workers that have the others.
pub const OPERATION: u64 = 3_000;

// What a delivery costs.
const DELIVERY: u64 = 4_000;

/// To how many a message may be copied: no more messages are held.
pub(crate) const MOST_COPIES: u64 = 4_096;

// A count that is too large falls by this part of itself with each message to the topic.
const FALL: u64 = 16;

/// How many listen to each topic, as far as is counted. Topics share places, so that a count may be too large. The flusher counts, and others look.
/// Contracts see in how many places topics are counted. What the counts are, no contract sees, since another thread writes them.
#[derive(Drop)]
pub struct Audiences {
    counts: Words,
}

impl Model for Audiences {
    ghost use Rattle.std.specs.Prelude.{ℕ};

    ghost Value = { ℕ };

    ghost view = { λ a. a.counts };
}

impl Audiences {
    /// Nobody listens yet.
    pub fn new(alloc: Global) -> Result<Audiences, AllocError>
        ensures { IfOk result (λ audiences. audiences ≡ PLACES) }
    {
        Ok(Audiences {
            counts: Words::new(alloc, PLACES)?,
        })
    }

    /// A command was carried out that shows this, and had `outs` outputs.
    pub fn carried_out(&self, sample: Sample, outs: u64) {
        if let Some(place) = sample.place() {
            let known = self.counts.get(place);
            self.counts.set(place, sample.audience(known, outs));
        }
    }

    // What it costs to send a message there.
    fn cost_to(&self, destination: &Dest) -> u64
        ensures { (OPERATION ≤ result) × (result ≤ GREEDY) }
    {
        let audience = match place_of(destination) {
            Some(place) => self.counts.get(place),
            None => 1,
        };
        price(audience)
    }

    /// What this operation is taken to cost, in nanoseconds of a processor.
    pub fn cost(&self, op: &Op) -> u64
        ensures least { least_cost op.now ≤ result }
        ensures most { result ≤ GREEDY }
    {
        match op {
            Op::Send(sending) => self.cost_to(sending.destination()),
            Op::Commit(members) => self.cost_of(members.as_slice()),
            _ => OPERATION,
        }
    }

    // What it costs to carry out all members of a transaction.
    fn cost_of(&self, members: &[Member]) -> u64
        requires { length members.now ≤ 64 }
        ensures least { OPERATION * (1 + length members.now) ≤ result }
        ensures most { result ≤ GREEDY }
    {
        let mut cost = OPERATION;
        for member in members {
            cost = together(cost, self.cost_of_one(member));
        }
        cost
    }

    fn cost_of_one(&self, member: &Member) -> u64
        ensures { OPERATION ≤ result }
    {
        match member {
            Member::Send(sending) => self.cost_to(sending.destination()),
            Member::Ack(_) | Member::Nack(_) => OPERATION,
        }
    }
}

// What it costs to send a message to an audience.
fn price(audience: u64) -> u64
    ensures { result ≡ OPERATION + DELIVERY * min audience MOST_COPIES }
{
    OPERATION + DELIVERY * audience.min(MOST_COPIES)
}

// What two parts of a command are taken to cost together.
fn together(cost: u64, more: u64) -> u64
    ensures { result ≡ min (cost + more) GREEDY }
{
    cost.saturating_add(more).min(GREEDY)
}

/// The place of a topic; `None` for a queue.
pub(crate) fn place_of(destination: &Dest) -> Option<usize>
    ensures { result ≡ place_for destination.now }
{
    if destination.is_queue() {
        return None;
    }
    let mut hash: u64 = 0xcbf2_9ce4_8422_2325;
    for byte in destination.as_str().as_bytes() {
        hash = (hash ^ u64::from(*byte)).wrapping_mul(0x0100_0000_01b3);
    }
    Some((hash >> 32) as usize % PLACES)
}

/// What a command shows of a topic's audience once it is carried out.
#[derive(Clone, Copy)]
pub enum Sample {
    /// Nothing.
    Nothing,
    /// One more listens to the topic at that place.
    Joins(usize),
    /// That many messages went to the topic at that place.
    Sent(usize, u64),
}

impl Sample {
    /// What this operation may show.
    pub fn of(op: &Op) -> Sample
        ensures { Shows op.now result }
    {
        match op {
            Op::Subscribe { destination, .. } => match place_of(destination) {
                Some(place) => Sample::Joins(place),
                None => Sample::Nothing,
            },
            Op::Send(sending) => match place_of(sending.destination()) {
                Some(place) => Sample::Sent(place, 1),
                None => Sample::Nothing,
            },
            Op::Commit(members) => of_members(members.as_slice()),
            _ => Sample::Nothing,
        }
    }

    /// The place of the topic of which it shows something.
    pub fn place(self) -> Option<usize>
        ensures { result ≡ place_shown self }
    {
        match self {
            Sample::Nothing => None,
            Sample::Joins(place) | Sample::Sent(place, _) => Some(place),
        }
    }

    /// The audience that its topic is taken for from now on: it was taken for `known`, and the command had `outs` outputs.
    pub fn audience(self, known: u64, outs: u64) -> u64
        ensures { result ≡ audience_after self known outs }
    {
        match self {
            Sample::Nothing => known,
            Sample::Joins(_) => known.saturating_add(1).min(MOST_COPIES),
            Sample::Sent(_, count) => (outs / count.max(1)).max(known - known / FALL),
        }
    }
}

// What a transaction may show: nothing unless all its messages go to topics of one place.
fn of_members(members: &[Member]) -> Sample
    ensures { IsSampleOf members.now result }
{
    let mut all = None;
    for member in members {
        let Some(place) = place_sent(member) else {
            return Sample::Nothing;
        };
        match all {
            Some(other) if other != place => return Sample::Nothing,
            _ => all = Some(place),
        }
    }
    match all {
        Some(place) => Sample::Sent(place, members.len() as u64),
        None => Sample::Nothing,
    }
}

// The place of the topic to which a member sends, if it sends to one.
fn place_sent(member: &Member) -> Option<usize>
    ensures { result ≡ place_sent member.now }
{
    match member {
        Member::Send(sending) => place_of(sending.destination()),
        Member::Ack(_) | Member::Nack(_) => None,
    }
}
