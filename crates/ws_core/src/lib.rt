//! The server's side of a WebSocket (RFC 6455) that carries one STOMP stream, over any stream of bytes. No call waits.

#![tactic(auto)]

mod handshake;
mod link;
mod mem_link;
mod refusal;
mod ws_link;

pub use handshake::{Answer, Greeted, Greeting, Vacancy, answer_to};
pub use link::{CloseReason, Link, LinkFault, LinkPhase, Outgoing, Received};
pub use mem_link::MemLink;
pub use refusal::{Farewell, Refusal};
pub use ws_link::{Ending, WsLink};
