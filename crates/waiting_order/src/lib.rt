//! The order in which subscriptions wait for messages, and what finds some of them in it without a look at each.

#![tactic(auto)]

mod finding;
mod groups;
mod order;
mod waiters;

pub use finding::Sought;
pub use groups::Place;
pub use order::Order;
pub use waiters::{Key, Waiter};
