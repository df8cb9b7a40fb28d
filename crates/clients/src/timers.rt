//! When a desk's clients are to be looked at.

ghost use Rattle.std.specs.Prelude.{◌≡◌, IfOk, IfSome, IsNone, replicate};
ghost use Rattle.std.specs.List.{slice_set};
ghost use Rattle.clients.specs.declared.timers.TheConstants.{NEVER};
ghost use Rattle.clients.specs.Timers.{IsDue, IsNotDue, Earliest, first_of, looked_through, with_earlier, with_moment};

use std::alloc::{AllocError, Global};
use std::marker::Model;

/// A moment that does not come.
pub const NEVER: u64 = u64::MAX;

/// The moments at which clients are to be looked at, in milliseconds, one for each client, by their numbers. There is also a moment
/// before which none of them is.
///
/// A worker has some hundreds of clients at most, and none of them is to be looked at more often than once in ten seconds or so. What
/// comes from a client does not touch its moment, which is set anew once it comes too early. So they need no order.
#[derive(Drop)]
pub struct Timers {
    all: Vec<u64>,
    // None of them is before this.
    earliest: u64,
}

impl Model for Timers {
    ghost use Rattle.clients.specs.Timers.{Earliest, TimersValue};

    ghost Value = { TimersValue };

    ghost view = { λ a. record { all = a.all.items; earliest = a.earliest } };

    ghost invariant = { λ a. Earliest a.earliest a.all.items };
}

impl Timers {
    /// The moments of that number of clients, none of which is to be looked at.
    pub fn new(alloc: Global, clients: usize) -> Result<Timers, AllocError>
        ensures { IfOk result (λ timers. timers ≡ record { all = replicate clients NEVER; earliest = NEVER }) }
    {
        let all = Vec::from_elem(alloc, NEVER, clients)?;
        Ok(Timers {
            all,
            earliest: NEVER,
        })
    }

    /// Sets a client's moment.
    pub fn set(&mut self, client: usize, at: u64)
        ensures { self.new ≡ with_moment client at self.old }
    {
        if client < self.all.len() {
            self.all[client] = at;
            self.earliest = self.earliest.min(at);
        }
    }

    /// Sets a client's moment, unless it comes before that.
    pub fn set_earlier(&mut self, client: usize, at: u64)
        ensures { self.new ≡ with_earlier client at self.old }
    {
        if client < self.all.len() {
            let sooner = at.min(self.all[client]);
            self.set(client, sooner);
        }
    }

    /// A moment that none of them is before.
    pub fn earliest(&self) -> u64
        ensures moment { result ≡ self.now.earliest }
        ensures first { Earliest result self.now.all }
    {
        self.earliest
    }

    /// A client whose moment has come. It has none then.
    pub fn take_due(&mut self, now: u64) -> Option<usize>
        ensures due { IfSome result (λ client. IsDue now client self.old.all × (self.new ≡ record self.old { all = slice_set self.old.all client NEVER })) }
        ensures none { IsNone result → IsNotDue now self.old.all × (self.new ≡ looked_through now self.old) }
    {
        if now < self.earliest {
            return None;
        }
        let due = first_due(&self.all, now);
        match due {
            Some(client) => self.all[client] = NEVER,
            None => self.earliest = first_of(&self.all),
        }
        due
    }
}

// The first client whose moment has come.
fn first_due(all: &[u64], now: u64) -> Option<usize>
    ensures due { IfSome result (λ client. IsDue now client all.now) }
    ensures none { IsNone result → IsNotDue now all.now }
{
    for (client, at) in all.iter().enumerate() {
        if *at <= now {
            return Some(client);
        }
    }
    None
}

// The first of moments.
fn first_of(all: &[u64]) -> u64
    ensures first { result ≡ first_of all.now }
    ensures earliest { Earliest result all.now }
{
    let mut first = NEVER;
    for at in all {
        first = first.min(*at);
    }
    first
}
