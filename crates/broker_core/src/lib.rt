//! The broker: what each command does to sessions, subscriptions and lines of messages, and what it answers.

#![tactic(auto)]

mod broker;
mod precheck;

pub use broker::{Broker, BrokerFault};
