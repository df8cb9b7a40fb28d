//! A law of the snapshots of states.

ghost use Rattle.std.specs.Prelude.{◌≡◌, ◌++◌, List, ℕ, ◌∷◌, codes, replicate};
ghost use Rattle.broker_core.specs.States.{State, empty_state};
ghost use Rattle.snapshot_core.specs.Snapshots.{Spells, snapshot_of};
ghost use Rattle.snapshot_core.specs.Worked.{eight, four, with_message};

/// No snapshot of a state begins another one, and a snapshot is of one state alone. So what was encoded is decoded again.
/// It does nothing.
pub fn snapshots_begin_no_other()
    ensures { (a b : State) (p q x y : List ℕ) → Spells p a → Spells q b → p ++ x ≡ q ++ y → (a ≡ b) × (p ≡ q) }
{}

/// The first state is spelled by 32 zero bytes. After a session was opened and sent `hi` to `/queue/q`, the snapshot counts
/// two commands and no delivery. It has one session, no durable names, one queue with one message, and no subscriptions.
/// Nothing is run.
pub fn states_are_spelled()
    ensures first { Spells (replicate 32 0) empty_state }
    ensures message { snapshot_of with_message
        ≡ eight 2 ++ eight 0 ++ four 1 ++ eight 0 ++ 0 ∷ four 0
        ++ four 1 ++ four 8 ++ codes "/queue/q" ++ four 1
        ++ eight 1 ++ four 0 ++ four 8 ++ codes "/queue/q" ++ 0 ∷ 0 ∷ four 2 ++ codes "hi"
        ++ four 0 }
{}
