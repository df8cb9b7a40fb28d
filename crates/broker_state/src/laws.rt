//! What follows from the definitions of the broker's states and outputs. Nothing is run.

ghost use Rattle.std.specs.Prelude.{◌≡◌, ◌<◌, ◌≤◌, ◌+◌, ◌&&◌, ◌∷◌, ◌++◌, List, [], ℕ, Err, None, Option, Some, count_by, false, fold, true, if◌then◌else◌, length, Ok, codes};
ghost use Rattle.std.specs.List.{AllByRecursion, sum_by};
ghost use Rattle.std.specs.Map.{keys_of};
ghost use Rattle.command_core.specs.Commands.{CommandValue};
ghost use Rattle.command_core.specs.Destinations.{is_queue};
ghost use Rattle.command_core.specs.Sendings.{SendingValue};
ghost use Rattle.command_core.specs.declared.command.Op.{Op};
ghost use Rattle.command_core.specs.declared.fault.Fault.{Fault};
ghost use Rattle.line_core.specs.Lines.{is_same};
ghost use Rattle.line_core.specs.declared.message.Message.{Message};
ghost use Rattle.line_core.specs.declared.message.MessageNumber.{MessageNumber};
ghost use Rattle.broker_state.specs.declared.nack_rule.NackRule.{NackRule};
ghost use Rattle.broker_state.specs.declared.subscription.Subscription.{Subscription};
ghost use Rattle.broker_state.specs.Executing.{executed, HasFewMembers};
ghost use Rattle.broker_state.specs.HandOut.{can_take, hand_out, handed, is_auto, settled};
ghost use Rattle.broker_state.specs.Kept.{kept_in_queue, kept_under};
ghost use Rattle.broker_state.specs.Lists.{picked};
ghost use Rattle.broker_state.specs.Names.{Name};
ghost use Rattle.broker_state.specs.Operations.{ended, message_of, restarted, fanned_out};
ghost use Rattle.broker_state.specs.Sound.{IsSound, HasLines, HasNames, HasNumbers, HasSubscriptions, HasLimits};
ghost use Rattle.broker_state.specs.States.{State, IsInOrder, bytes, empty_state, held_bytes, held_messages, is_open, standing, weight_of};
ghost use Rattle.broker_state.specs.Waiting.{line_for};
ghost use Rattle.broker_state.specs.Copies.{AddsNothing, AreSingle, LeavesNewOut};
ghost use Rattle.broker_state.specs.Steps.{Event, MayBefall, done, is_opening, outs_by, outs_of_by, state_after_all, state_after_by, step_by, state_after, state_after_v1};
ghost use Rattle.broker_state.specs.declared.nack_rule.NackRule.TheVariants.{Keeps};
ghost use Rattle.broker_state.specs.Dead.{nacked};
ghost use Rattle.broker_state.specs.Refusals.{LosesOnlyDropped};
ghost use Rattle.broker_state.specs.Worked.{dead, refuses_both, refuses_each, two_sent};

/// Commands and then others do what the others do after the first, and give the outputs of both in turn.
pub fn commands_follow_one_another()
    ensures state { (rule : NackRule) (s : State) (a b : List CommandValue)
        → state_after_by rule s (a ++ b) ≡ state_after_by rule (state_after_by rule s a) b }
    ensures outputs { (rule : NackRule) (s : State) (a b : List CommandValue)
        → outs_of_by rule s (a ++ b) ≡ outs_of_by rule s a ++ outs_of_by rule (state_after_by rule s a) b }
{}

/// The first state is in order, and each command and each restart keeps it so.
pub fn states_stay_in_order()
    ensures first { IsInOrder empty_state }
    ensures step { (rule : NackRule) (s : State) (c : CommandValue) → IsInOrder s → IsInOrder (step_by rule s c) }
    ensures restart { (s : State) → IsInOrder s → IsInOrder (restarted s) }
{}

/// A command of a session that is not open is counted and changes nothing else, and nothing is answered.
pub fn closed_sessions_change_nothing()
    ensures state { (rule : NackRule) (s : State) (c : CommandValue) → is_opening c.op ≡ false
        → is_open s c.session ≡ false → step_by rule s c ≡ record s { count = s.count + 1 } }
    ensures outputs { (rule : NackRule) (s : State) (c : CommandValue) → is_opening c.op ≡ false
        → is_open s c.session ≡ false → outs_by rule s c ≡ [] }
{}

/// Each output has the number of the command that gives it.
pub fn outputs_have_the_number_of_their_command()
    ensures { (rule : NackRule) (s : State) (c : CommandValue) → IsInOrder s
        → AllByRecursion (λ out. out.number ≡ s.count) (outs_by rule s c) }
{}

/// A refused operation, a transaction too, ends its session and does nothing else.
pub fn refused_operations_end_their_session()
    ensures { (rule : NackRule) (s : State) (session : ℕ) (op : Op) (fault : Fault) → is_opening op ≡ false → is_open s session ≡ true
        → executed rule s session op ≡ Err fault → done rule s session op ≡ ended s session }
{}

/// Once all is handed out, nothing is left to be handed out.
pub fn handing_out_ends()
    ensures { (s : State) → IsInOrder s → hand_out (settled s).state ≡ None }
{}

/// A delivery takes its message out of the state if the mode is `auto`. With the other modes it leaves the message there
/// as it was. This holds whatever a message may weigh.
pub fn deliveries_in_auto_leave_the_state()
    ensures { (weight : Message → ℕ) (s : State) (sub : Subscription) (others : List Subscription) (m : Message) (rest : List Message)
        → IsInOrder s → picked (can_take s) s.subscriptions ≡ Some (sub, others) → line_for s.shared sub ≡ m ∷ rest
        → (hand_out s ≡ Some (handed s sub others m rest))
        × (weight_of weight (handed s sub others m rest).state + (if is_auto sub.mode then weight m else 0) ≡ weight_of weight s) }
{}

/// What the broker holds is what stands in its lines and unacknowledged.
pub fn held_counts_what_stands()
    ensures messages { (s : State) → held_messages s ≡ length (standing s) }
    ensures bytes { (s : State) → held_bytes s ≡ sum_by bytes (standing s) }
{}

/// Each message that stands has the number of a command that is counted, after any commands and restarts.
pub fn messages_have_numbers_of_commands()
    ensures step { (rule : NackRule) (s : State) (c : CommandValue) → IsInOrder s
        → AllByRecursion (λ m. m.number.command < s.count) (standing s)
        → AllByRecursion (λ m. m.number.command < (step_by rule s c).count) (standing (step_by rule s c)) }
    ensures restart { (s : State) → IsInOrder s
        → AllByRecursion (λ m. m.number.command < s.count) (standing s)
        → AllByRecursion (λ m. m.number.command < s.count) (standing (restarted s)) }
    ensures reached { (events : List Event)
        → AllByRecursion (λ m. m.number.command < (state_after_all empty_state events).count) (standing (state_after_all empty_state events)) }
{}

/// A message to a queue is put into one place, and later commands make no more of it, whatever a message may weigh.
/// Transactions have at most 64 members. So after any commands and restarts at most one message to a queue has each
/// number, of all that stand in lines and unacknowledged.
pub fn messages_of_queues_are_in_one_place()
    ensures once { (weight : Message → ℕ) (s : State) (m : Message) → IsInOrder s → is_queue m.sending.destination ≡ true
        → weight_of weight (fanned_out s m) ≡ weight_of weight s + weight m }
    ensures later { (weight : Message → ℕ) (rule : NackRule) (s : State) (c : CommandValue) → IsInOrder s
        → LeavesNewOut weight s → AddsNothing weight s (step_by rule s c) }
    ensures restart { (weight : Message → ℕ) (s : State) → IsInOrder s → AddsNothing weight s (restarted s) }
    ensures reached { (events : List Event) → AllByRecursion MayBefall events → AreSingle (state_after_all empty_state events) }
{}

/// A restart after a restart changes nothing more. A restart leaves the count, the number of the next delivery, the
/// durable names with their topics, and what each queue and each durable name keeps.
pub fn restarts_keep_what_is_kept()
    ensures again { (s : State) → restarted (restarted s) ≡ restarted s }
    ensures numbers { (s : State) → ((restarted s).count ≡ s.count) × ((restarted s).next_delivery ≡ s.next_delivery) }
    ensures names { (s : State) → (restarted s).durables ≡ s.durables }
    ensures queues { (s : State) (to : List ℕ) → kept_in_queue to (restarted s) ≡ kept_in_queue to s }
    ensures under { (s : State) (name : Name) → kept_under name (restarted s) ≡ kept_under name s }
{}

/// A restart is the end of each session in turn.
pub fn restarts_end_each_session_in_turn()
    ensures { (s : State) → IsSound s → restarted s ≡ fold ended s (keys_of s.sessions) }
{}

/// A NACK that is carried out loses nothing but what its rule drops. Of what its subscription had not acknowledged, what it
/// does not settle stays so. Each other message is dropped or stands in `/queue/dead` with its headers and body. What
/// waited there still does, and all else stays: other deliveries, and the lines of durable names and of other queues. So
/// whatever a message may weigh by its headers and body, the state is lighter only by what is dropped.
pub fn refusals_lose_nothing_else()
    ensures { (s t : State) (session member delivery : ℕ) → nacked Keeps s session member delivery ≡ Ok t
        → LosesOnlyDropped s t session delivery }
{}

/// No line that stays is empty. Messages stand only in lines of their destination, and are unacknowledged there. In a line
/// and what is unacknowledged from it none stands twice. Nothing stands at first. Each restart keeps this, and so does each
/// command whose transaction has at most 64 members, as all have.
pub fn lines_keep_their_messages()
    ensures first { HasLines empty_state }
    ensures step { (rule : NackRule) (s : State) (c : CommandValue) → HasFewMembers c.op
        → IsInOrder s → HasSubscriptions s → HasNames s → HasNumbers s → HasLines s → HasLines (step_by rule s c) }
    ensures restart { (s : State) → IsInOrder s → HasNames s → HasLines s → HasLines (restarted s) }
{}

/// Messages have numbers of commands that are counted. Deliveries are under the next one, and none is unacknowledged
/// twice. So it is in the first state, and each command and each restart keeps it so.
pub fn numbers_stay_under_the_next()
    ensures first { HasNumbers empty_state }
    ensures step { (rule : NackRule) (s : State) (c : CommandValue) → IsInOrder s → HasNumbers s → HasNumbers (step_by rule s c) }
    ensures restart { (s : State) → IsInOrder s → HasNumbers s → HasNumbers (restarted s) }
{}

/// Subscriptions are of open sessions, at most 16 of each, under ids that differ. At most 16 deliveries of each are
/// unacknowledged, and none with `auto`. The first state has no subscription, and each command and each restart keeps this.
pub fn subscriptions_stay_within_their_limits()
    ensures first { HasSubscriptions empty_state }
    ensures step { (rule : NackRule) (s : State) (c : CommandValue) → IsInOrder s → HasSubscriptions s → HasSubscriptions (step_by rule s c) }
    ensures restart { (s : State) → IsInOrder s → HasSubscriptions s → HasSubscriptions (restarted s) }
{}

/// At most 256 durable names are bound, each to a topic. The subscription that uses one is of the name's client and of its
/// topic, and there is at most one. Lines stand only under bound names. No name is bound at first, and each command and
/// each restart keeps this.
pub fn durable_names_stay_bound()
    ensures first { HasNames empty_state }
    ensures step { (rule : NackRule) (s : State) (c : CommandValue) → IsInOrder s → HasNames s → HasNames (step_by rule s c) }
    ensures restart { (s : State) → IsInOrder s → HasNames s → HasNames (restarted s) }
{}

/// At most 4,096 messages and 16,777,216 bytes are held, and nothing that could be handed out waits. Nothing is held at
/// first, and each command and each restart keeps this.
pub fn limits_are_kept()
    ensures first { HasLimits empty_state }
    ensures step { (rule : NackRule) (s : State) (c : CommandValue) → IsInOrder s → HasLimits s → HasLimits (step_by rule s c) }
    ensures restart { (s : State) → IsInOrder s → HasLimits s → HasLimits (restarted s) }
{}

/// The first state is one that a broker can have. Each restart leads from such a state to another, and so does each step
/// whose command's transaction has at most 64 members, as all have.
pub fn states_stay_sound()
    ensures first { IsSound empty_state }
    ensures step { (rule : NackRule) (s : State) (c : CommandValue) → HasFewMembers c.op → IsSound s → IsSound (step_by rule s c) }
    ensures restart { (s : State) → IsSound s → IsSound (restarted s) }
{}

/// Command 4 refuses two messages of a queue. By one NACK they have the places 64 and 65, and as members of a
/// transaction 64 and 80. By the rule of version 1 nothing is left of them.
pub fn refused_messages_are_numbered()
    ensures one { (state_after empty_state (two_sent ++ refuses_both ∷ [])).shared.queues
        ≡ (codes "/queue/dead", dead 64 ∷ dead 65 ∷ []) ∷ [] }
    ensures each { (state_after empty_state (two_sent ++ refuses_each ∷ [])).shared.queues
        ≡ (codes "/queue/dead", dead 64 ∷ dead 80 ∷ []) ∷ [] }
    ensures old { (state_after_v1 empty_state (two_sent ++ refuses_both ∷ [])).shared.queues ≡ [] }
    ensures none { held_messages (state_after_v1 empty_state (two_sent ++ refuses_each ∷ [])) ≡ 0 }
{}
