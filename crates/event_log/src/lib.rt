//! What is reported of a server: what happens while it runs, a line each, and why it does not serve.

#![tactic(auto)]

mod event;
mod fault;
mod notice;
mod object;
mod rhythm;

pub use event::{Crowd, Event, Figures, KINDS, Kind, Start};
pub use fault::{Reopening, ServeFault, Unopened, is_too_full};
pub use notice::{Notice, write_notice};
pub use object::{Form, write_line};
pub use rhythm::{Crowding, Rhythm, tenths_of};
