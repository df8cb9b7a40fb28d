//! Tests of the ring and of outboxes by their public faces. They are in a crate of their own, since a crate with tests is proved twice.

#![tactic(auto)]

#[cfg(test)]
mod box_tests;
#[cfg(test)]
mod ring_tests;
