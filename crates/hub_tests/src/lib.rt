//! Tests of hubs, desks, links and scripts by their public faces: workers over links in memory, and one flusher, in threads; desks with many
//! clients; scripts over streams that fail, disks that hold something, and refused memory. They are a crate of their own, since a crate that
//! has tests is proved twice.

#![tactic(auto)]

#[cfg(test)]
mod desk;
#[cfg(test)]
mod hubs;
#[cfg(test)]
mod script_tests;
#[cfg(test)]
mod stream_tests;
#[cfg(test)]
mod thread_tests;
