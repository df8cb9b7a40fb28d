//! Tests of the codec and of the broker by the public faces of their crates: escapes, frames, records of commands, snapshots, calls that no script
//! reaches or that are refused memory. What streams of clients come to is tried by `tests/scripts.py`. They are a crate of their own, since a crate
//! that has tests is proved twice: once without them and once with them.

#![tactic(auto)]

#[cfg(test)]
mod frame_tests;
#[cfg(test)]
mod record_tests;
#[cfg(test)]
mod refusal_tests;
#[cfg(test)]
mod snapshot_tests;
#[cfg(test)]
mod value_tests;
