//! The client over a WebSocket: conversations of `client_core` with a server at an address.

#![tactic(auto)]

mod calls;
mod lines;
mod listening;
mod moving;
mod web_peer;

pub use calls::{forget, ping, send};
pub use lines::{BODY_BYTES, InputFault, Sent, Way, body_of, send_lines};
pub use listening::{Ear, listen};
pub use moving::{Haul, Moved, move_messages};
