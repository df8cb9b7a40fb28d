//! Sessions: what the frames of one connection ask of the broker.

#![tactic(auto)]

mod laws;
mod requests;
mod session;

pub use laws::{
    frames_are_answered, ids_are_decimals, pieces_are_heard_as_one, transactions_are_answered,
};
pub use session::{Act, CloseCode, Notice, Phase, Session, SessionFault};
