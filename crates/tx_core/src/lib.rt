//! The open transactions of a session: what is put together, to be carried out at once or not at all.

#![tactic(auto)]

mod open_tx;

pub use open_tx::{OpenTx, TxFault, members_keep_their_order};
