//! The clients of a seat at the ring: their connections, which stand in line for a turn, what each waits for, and for how long.

#![tactic(auto)]

mod acts;
mod client;
mod clients;
mod deadlines;
mod desk;
mod footprint;
mod lines;
mod progress;
mod read_budget;
mod relaying;
mod timers;
mod turned;
mod turning;
mod wakers;

pub use client::Client;
pub use clients::{ClientState, Clients, Outlook, Retried, Scheduled};
pub use deadlines::{Due, Opening, Watch};
pub use desk::{Desk, NotAdmitted, Seated, a_connection_at_a_desk_lives_one_life};
pub use footprint::{Cut, SESSION_BYTES};
pub use lines::Lines;
pub use read_budget::{Flow, Framed, ReadBudget, Reported, reported_by};
pub use relaying::{Kept, Relayed, relay};
pub use turned::{Ended, Next, Turned};
pub use wakers::{CLIENTS, Wakers};
