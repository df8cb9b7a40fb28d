//! Laws of sessions.

ghost use Rattle.std.specs.Prelude.{◌≡◌, ◌<◌, ◌^◌, ◌++◌, [], List, ℕ, Some, ◌↔◌, ◌∷◌, None, codes};
ghost use Rattle.std.specs.Fmt.{decimal};
ghost use Rattle.frame_core.specs.declared.frame.Verb.TheVariants as verbs;
ghost use Rattle.command_core.specs.declared.command.Op.TheVariants as ops;
ghost use Rattle.command_core.specs.declared.fault.Fault.TheVariants as faults;
ghost use Rattle.command_core.specs.declared.command.Member.TheVariants as members;
ghost use Rattle.session_core.specs.Numbers.{decimal_value};
ghost use Rattle.session_core.specs.Pieces.{HearsTo};
ghost use Rattle.session_core.specs.Sessions.{Hearing, Hears, IsOver, told, next};
ghost use Rattle.session_core.specs.declared.session.Act.TheVariants as acts;
ghost use Rattle.session_core.specs.declared.session.Act.{Act};
ghost use Rattle.session_core.specs.Worked.{ack, asks, connect, denied, disconnect, dropped, left, open_t, opened, receipt, send, sent, two, with_transaction};
ghost use Rattle.session_core.specs.declared.session.Phase.TheVariants as phases;

/// What a session hears in pieces it hears as one, and in one way. The acts of any pieces are those of the bytes joined,
/// and so is where it stands, even if it ends before the last piece. While it goes on, it keeps the same bytes too. What it
/// hears once it is over gives nothing.
pub fn pieces_are_heard_as_one()
    ensures joined { (s t u : Hearing) (a b : List ℕ) (acts more : List Act)
        → Hears s a acts t → Hears t b more u → HearsTo s (a ++ b) (acts ++ more) u.phase }
    ensures one { (s t u : Hearing) (a : List ℕ) (acts more : List Act)
        → Hears s a acts t → Hears s a more u → (acts ≡ more) × (t.phase ≡ u.phase) }
    ensures kept { (s t u : Hearing) (a b : List ℕ) (acts more : List Act)
        → (IsOver t.phase → ⊥) → Hears s a acts t → Hears t b more u → Hears s (a ++ b) (acts ++ more) u }
    ensures over { (s t : Hearing) (a : List ℕ) (acts : List Act)
        → IsOver s.phase → Hears s a acts t → (acts ≡ []) × (t ≡ s) }
{}

/// The number of an `id` is the one below 2^64 whose decimal it is.
pub fn ids_are_decimals()
    ensures { (text : List ℕ) (n : ℕ) → (decimal_value text ≡ Some n) ↔ ((n < 2 ^ 64) × (text ≡ decimal n)) }
{}

/// What sessions do for a frame. A CONNECT that offers 1.2 opens a session, and one that offers only 1.1 is refused. A
/// SEND before it is refused with its receipt told, and a SEND to what names no destination ends an open session. A
/// DISCONNECT ends one with its receipt.
pub fn frames_are_answered()
    ensures opens { told phases.New (connect (codes "1.2,1.1,1.0")) ≡ acts.Do (ops.Open None) None ∷ [] }
    ensures wrong_version { told phases.New (connect (codes "1.1")) ≡ denied faults.UnsupportedVersion None }
    ensures early { told phases.New (send (codes "/queue/a")) ≡ denied faults.UnexpectedFrame receipt }
    ensures nowhere { told opened (send (codes "/queue/")) ≡ dropped faults.BadDestination }
    ensures sends { told opened (send (codes "/queue/a")) ≡ asks (sent (codes "/queue/a")) }
    ensures leaves { told (open_t two) disconnect ≡ left }
    ensures ended { next (open_t two) disconnect ≡ phases.Ended }
{}

/// What sessions do for transactions. A BEGIN opens one and an ACK joins it, each with nothing but its receipt. A COMMIT
/// asks for both members at once, in their order. An ABORT of one that isn't open ends the session.
pub fn transactions_are_answered()
    ensures begins { told opened (with_transaction verbs.Begin) ≡ asks ops.Note }
    ensures begun { next opened (with_transaction verbs.Begin) ≡ open_t [] }
    ensures joins { told (open_t []) ack ≡ asks ops.Note }
    ensures joined { next (open_t []) ack ≡ open_t (members.Ack 7 ∷ []) }
    ensures commits { told (open_t two) (with_transaction verbs.Commit) ≡ asks (ops.Commit two) }
    ensures committed { next (open_t two) (with_transaction verbs.Commit) ≡ opened }
    ensures aborts { told opened (with_transaction verbs.Abort) ≡ dropped faults.TransactionNotBegun }
{}
