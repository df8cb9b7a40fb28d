//! The snapshot of a broker's state: its bytes in the journal.

#![tactic(auto)]

mod laws;
mod lengths;
mod reading;
mod writing;

pub use laws::{snapshots_begin_no_other, states_are_spelled};
pub use lengths::state_len;
pub use reading::decode_state;
pub use writing::{StateWriter, encode_state};
