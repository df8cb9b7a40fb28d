//! What operations do to sessions, subscriptions and lines of messages, and what is handed out.

#![tactic(auto)]

mod answers;
mod cursors;
mod due;
mod durable_names;
mod messages;
mod shared_lines;
mod stock;
mod tables;

pub use answers::Answers;
pub use messages::{copies_to, find_room, is_dropped, refused_size};
pub use shared_lines::SharedLines;
pub use tables::Tables;
