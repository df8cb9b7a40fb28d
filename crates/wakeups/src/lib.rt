//! What wakes the threads of a server, and what they leave for one another: calls, clients, lines for the operator, and how much memory clients
//! hold.

#![tactic(auto)]

mod doorbell;
mod log_thread;
mod mailbox;
mod memory;
mod wakeups;

pub use doorbell::{AtBell, BellStep, Caller, Doorbell, Ringing, Sleeper};
pub use log_thread::LogThread;
pub use mailbox::{Arrival, BITS, Called, ClientWaker, ClientWakers, Counted, Mailbox, WORDS};
pub use memory::{
    Account, Change, ClientBytes, DeskHolds, Holdings, Memory, Total, is_over, passes,
};
pub use wakeups::{
    Awaiting, Ending, MarkStep, Raised, Waiter, Wakeups, Watching, every_call_is_heard,
    no_mark_is_missed, what_was_called_for_is_taken,
};
