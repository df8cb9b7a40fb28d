//! The lines in which messages wait, and the deliveries that wait for their acknowledgement.

#![tactic(auto)]

mod flight;
mod line;
mod message;

pub use flight::{
    Flight, SettleFault, acknowledgements_keep_order, other_items_settle_alike,
    settled_and_unsettled_are_the_flight, settles,
};
pub use line::{
    Line, inserting_adds_one_message, inserting_keeps_order, numbers_are_in_order,
    order_of_return_does_not_matter, what_was_taken_goes_back,
};
pub use message::{Message, MessageNumber, size};
