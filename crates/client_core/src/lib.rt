//! A small STOMP client: what it sends, reads and shows, over any peer.

#![tactic(auto)]

mod fault;
mod lines;
mod listening;
mod moving;
mod peer;
mod plan;
mod probe;
mod requests;
mod sending;

pub use fault::{Cause, ClientFault, Doubt, Step, doubt_of};
pub use lines::{Input, Turn, Window, hear_receipts, send_line};
pub use listening::{Deed, deed_of, leave_after, listen, subscribe};
pub use moving::{Mover, Route, Saying, Stage, session_of};
pub use peer::{Address, Listener, Peer};
pub use plan::{Course, Errand, Outgoing, Plan, Printed};
pub use probe::{Probe, hear};
pub use sending::{converse, forget_once, leave, open, send, send_once};
