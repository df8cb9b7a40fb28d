//! A server: its workers and its flusher, and what their threads wait on.

#![tactic(auto)]

mod acceptor;
mod descriptors;
mod entrance;
mod event_loop;
mod fittings;
mod last_rounds;
mod looks;
mod reporter;
mod service;
mod serving;
mod sweep;
mod worker;

pub use disk_core::FileAt;
pub use entrance::Reception;
pub use event_log::{ServeFault, Unopened};
pub use serving::{Ender, MOST_CLIENTS, MOST_MEMORY, ServeEnd, Server};
