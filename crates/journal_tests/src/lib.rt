//! Tests of disks, areas and recovery by their public faces. They are in a crate of their own, since a crate with tests is proved twice:
//! without them and with them.

#![tactic(auto)]

#[cfg(test)]
mod area_tests;
#[cfg(test)]
mod damage_tests;
#[cfg(test)]
mod disk_tests;
#[cfg(test)]
mod journal_steps;
#[cfg(test)]
mod opening_tests;
#[cfg(test)]
mod script_tests;
