//! Tests of the flusher and of the model of interleavings and crashes, by their public faces, on one thread.

#![tactic(auto)]

#[cfg(test)]
mod compacting_tests;
#[cfg(test)]
mod random_tests;
#[cfg(test)]
mod schedule_tests;
#[cfg(test)]
mod slow_world;
#[cfg(test)]
mod step_tests;
#[cfg(test)]
mod stop_tests;
#[cfg(test)]
mod trials;
