//! The core of all interleavings: sessions, flusher, device calls and crashes as events of one world.

#![tactic(auto)]

mod event;
mod parts;
mod recovering;
mod seat;
mod world;

pub use event::{Call, CallKind, CallList, Event};
pub use parts::{LastCall, Period};
pub use seat::{Seat, Tickets};
pub use world::{World, every_schedule, shown_worlds_hold, unsynced_bytes_may_read_as_any};
