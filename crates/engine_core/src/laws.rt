//! Laws of scripts.

ghost use Rattle.std.specs.Prelude.{◌≡◌, List, ℕ, ◌++◌, ◌∷◌, [], codes};
ghost use Rattle.std.specs.List.{AllByRecursion};
ghost use Rattle.disk_core.specs.Memory.{Memory};
ghost use Rattle.broker_core.specs.States.{State};
ghost use Rattle.script_text.specs.ScriptLines.{IsNoCrash};
ghost use Rattle.engine_core.specs.declared.script.Script.{Script};
ghost use Rattle.engine_core.specs.declared.script.Script.TheVariants.{Running};
ghost use Rattle.engine_core.specs.Running.{beginning};
ghost use Rattle.engine_core.specs.Scripts.{HasFailed, IsScript, Prints, PrintsAll, RunsTooFar, disk_of};
ghost use Rattle.engine_core.specs.Queues.{flush_text, flushed};
ghost use Rattle.engine_core.specs.Worked.{waiting_open, waiting_send, opened_queue};

/// A script without `crash` lines prints one text. From the same state the same lines print the same bytes, whatever runs
/// them, and whatever the disks are. So does the same input, since it is lines in only one way.
pub fn a_script_has_one_text()
    ensures lines { (start : State) (one other : Memory) (lines : List (List ℕ)) (p q : List ℕ) (t u : Script) → AllByRecursion IsNoCrash lines
        → PrintsAll (Running (beginning start one)) lines p t → PrintsAll (Running (beginning start other)) lines q u → p ≡ q }
    ensures input { (start : State) (one other : Memory) (input p q : List ℕ) (script : IsScript start one input p) → AllByRecursion IsNoCrash script.lines
        → IsScript start other input q → p ≡ q }
{}

/// While lines print, no step of a script fails, and except for its `crash` lines no call of its disk fails.
pub fn a_script_that_prints_has_not_failed()
    ensures durable { (start : State) (first : Memory) (lines : List (List ℕ)) (printed : List ℕ) (end : Script)
        → PrintsAll (Running (beginning start first)) lines printed end → HasFailed end → ⊥ }
    ensures calm { (start : State) (first : Memory) (lines : List (List ℕ)) (printed : List ℕ) (end : Script) → AllByRecursion IsNoCrash lines
        → PrintsAll (Running (beginning start first)) lines printed end → (disk_of end).failures ≡ first.failures }
{}

/// A line that asks for a command once 2^60 have been carried out prints nothing.
pub fn a_line_too_far_prints_nothing()
    ensures { (s t : Script) (line printed : List ℕ) → RunsTooFar s line → Prints s line printed t → ⊥ }
{}

/// What flushes print: CONNECTED at the first one, and RECEIPT at the next.
pub fn flushes_print_what_is_answered()
    ensures connected { flush_text waiting_open ≡ codes "0 CONNECTED%0Aversion:1.2%0Asession:0%0Aheart-beat:0,0%0A%0A%00" ++ 10 ∷ [] }
    ensures opened { flushed waiting_open ≡ opened_queue }
    ensures receipt { flush_text waiting_send ≡ codes "0 RECEIPT%0Areceipt-id:r1%0A%0A%00" ++ 10 ∷ [] }
{}
