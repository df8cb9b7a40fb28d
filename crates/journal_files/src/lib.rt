//! Journals in files.

#![tactic(auto)]

mod copying;
mod held;
mod journal_files;
mod sessions;

pub use copying::{CopyFault, copy};
pub use held::{Lot, lots_of, show_held, show_held_object};
pub use journal_files::{ShowFault, area_in, show, show_object};
pub use sessions::{show_sessions, show_sessions_object};
