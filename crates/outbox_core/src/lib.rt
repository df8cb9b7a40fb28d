//! Outboxes: what the flusher gives to a session goes through a box of a fixed size, in order, and no call waits. A box's size is how many
//! outputs may wait in it, and how many bytes of them. All boxes of a flusher are kept by session: each is given the outputs of its
//! session, and no others.

#![tactic(auto)]

mod bell;
mod boxes;
mod sender;
mod taker;

pub use bell::{Bell, Silent};
pub use boxes::Boxes;
pub use sender::{BoxSize, Finished, OutSender, outbox};
pub use taker::{OutTaker, Taken};
