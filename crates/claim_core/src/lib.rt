//! The claim buffer: sessions claim places in one order of all commands without waiting, and one flusher takes the
//! commands.

#![tactic(auto)]

mod limits;
mod plays;
mod refusals;
mod released;
mod ring;
mod seats;
mod steps;
#[cfg(test)]
mod tests;
mod views;

pub use limits::{BrokerRing, BrokerSeat, PLACES, SEATS, WINDOW};
pub use refusals::{NotYet, Refused};
pub use released::Released;
pub use ring::{Ring, RingEnd};
pub use seats::{FlushSeat, SessionSeat};
