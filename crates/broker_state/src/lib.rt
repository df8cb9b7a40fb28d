//! What a broker knows: names, subscriptions, what is held; the definitions of what each command does to them, what follows from those, and whether
//! the parts of a state, as they are read from a snapshot, make up one that a broker can have.

#![tactic(auto)]

mod durable_name;
mod laws;
mod limits;
mod nack_rule;
mod part_checks;
mod parts;
mod subscription;

pub use durable_name::{DurableName, GivenName};
pub use laws::{
    closed_sessions_change_nothing, commands_follow_one_another,
    deliveries_in_auto_leave_the_state, durable_names_stay_bound, handing_out_ends,
    held_counts_what_stands, limits_are_kept, lines_keep_their_messages,
    messages_have_numbers_of_commands, messages_of_queues_are_in_one_place,
    numbers_stay_under_the_next, outputs_have_the_number_of_their_command,
    refusals_lose_nothing_else, refused_messages_are_numbered,
    refused_operations_end_their_session, restarts_end_each_session_in_turn,
    restarts_keep_what_is_kept, states_stay_in_order, states_stay_sound,
    subscriptions_stay_within_their_limits,
};
pub use limits::{
    Held, LAST_DELIVERY, MOST_BYTES, MOST_MESSAGES, MOST_NAMES, MOST_SUBSCRIPTIONS, WINDOW,
};
pub use nack_rule::NackRule;
pub use part_checks::{are_sound, held_of};
pub use parts::{Parts, has_some, has_waiting, stand_in_order};
pub use subscription::Subscription;
