//! From which tickets on subscriptions may be served, while what waits is handed out.

ghost use Rattle.std.specs.Prelude.{◌==◌};
ghost use Rattle.std.specs.BinaryHeap.{IsHeap, heap_items};
ghost use Rattle.std.specs.Ordering.{as_partial_cmp, on};
ghost use Rattle.std.proofs.Common.{rules};
ghost use Rattle.std.proofs.Props.{props};
ghost use Rattle.broker_tables.specs.CursorOrder.{cursor_cmp};
ghost use Rattle.broker_tables.specs.declared.cursors.Cursor.{Cursor};

use crate::due::{Due, Scope, next_within, scope_of};
use crate::stock::{Readiness, Stock};
use std::alloc::{AllocError, Global};
use std::cmp::Ordering;
use std::collections::BinaryHeap;
use waiting_order::{Key, Order, Place};

/// Nobody of a scope with a lesser ticket can be served. The one with the least ticket is the greatest, since a heap has that first.
#[derive(Clone, Copy, Drop)]
pub struct Cursor {
    pub from: u64,
    pub scope: Scope,
}

impl PartialEq for Cursor {
    ghost use Rattle.std.specs.Cmp.Rules.{comparing};

    ghost eq = { on (λ (cursor : Cursor). cursor.from) ◌==◌ };

    ghost laws = { Prim.search (comparing, rules) };

    fn eq(&self, other: &Cursor) -> bool {
        self.from == other.from
    }
}

impl Eq for Cursor {
    ghost use Rattle.std.specs.Cmp.Rules.{comparing};

    ghost laws = { Prim.search (comparing, rules) };
}

impl PartialOrd for Cursor {
    ghost use Rattle.std.specs.Cmp.{partial_order_from_own_ties};
    ghost use Rattle.std.specs.Cmp.Rules.{comparing};

    ghost partial_cmp = { as_partial_cmp cursor_cmp };

    ghost laws = { partial_order_from_own_ties (Prim.search (comparing, rules)) (Prim.search (comparing, rules)) };

    fn partial_cmp(&self, other: &Cursor) -> Option<Ordering> {
        Some(self.cmp(other))
    }
}

impl Ord for Cursor {
    ghost use Rattle.std.specs.Cmp.Rules.{comparing};

    ghost cmp = { cursor_cmp };

    ghost total = { Prim.search (comparing, rules) };

    ghost matches_partial_cmp = { Prim.search (comparing, rules) };

    ghost matches_eq = { Prim.search (comparing, rules) };

    fn cmp(&self, other: &Cursor) -> Ordering {
        other.from.cmp(&self.from)
    }
}

/// Cursors, of which the one with the least ticket is found at once. Contracts see them in no particular order.
#[derive(Drop)]
pub struct Cursors {
    heap: BinaryHeap<Cursor>,
    ghost ordered: { IsHeap cursor_cmp (heap_items heap) } by { Prim.hlevel props },
}

impl Cursors {
    ghost use Rattle.std.specs.Prelude.{◌↔◌, ◌≡◌, ◌≤◌, ◌∷◌, [], IfNone, IfOk, IfSome, IsPermutation, IsTrue, OnOk};
    ghost use Rattle.std.specs.List.{AllByRecursion};
    ghost use Rattle.broker_tables.specs.Cursors.{AwaitAllDue, IsLeast, cursors_in};

    /// None. No memory is taken.
    fn new(alloc: Global) -> Cursors
        ensures { cursors_in result ≡ [] }
    {
        Cursors {
            heap: BinaryHeap::new(alloc),
        }
    }

    /// One more. If memory is refused, nothing changes.
    pub fn put(&mut self, cursor: Cursor) -> Result<(), AllocError>
        ensures { OnOk result (IsPermutation (cursor ∷ cursors_in self.old) (cursors_in self.new)) }
    {
        self.heap.push(cursor)?;
        Ok(())
    }

    /// Takes out one with the least ticket; none if there are none.
    pub fn take(&mut self) -> Option<Cursor>
        ensures taken { IfSome result (λ cursor. IsPermutation (cursors_in self.old) (cursor ∷ cursors_in self.new)) }
        ensures least { IfSome result (λ cursor. IsLeast cursor self.new) }
        ensures none { IfNone result ((cursors_in self.old ≡ []) × (cursors_in self.new ≡ [])) }
    {
        self.heap.pop()
    }

    /// Whether none is before that ticket.
    pub fn are_past(&self, ticket: u64) -> bool
        ensures { IsTrue result ↔ AllByRecursion (λ (d : Cursor). ticket ≤ d.from) (cursors_in self.now) }
    {
        match self.heap.peek() {
            Some(least) => ticket <= least.from,
            None => true,
        }
    }

    /// A cursor for those of each mark, at the first ticket. No memory is taken if nobody is marked.
    pub fn of(alloc: Global, order: &Order, marked: &[Due]) -> Result<Cursors, AllocError>
        ensures { IfOk result (λ cursors. AwaitAllDue (cursors_in cursors) marked.now order.now.all) }
    {
        let mut cursors = Cursors::new(alloc);
        for due in marked {
            if let Some(scope) = scope_of(order, due) {
                cursors.put(Cursor { from: 0, scope })?;
            }
        }
        Ok(cursors)
    }
}
