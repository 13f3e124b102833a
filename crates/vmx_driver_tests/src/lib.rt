//! The tests of a driver beside the device of its guest, each a table of steps. Nothing stands on this crate.
#![tactic(auto)]

#[cfg(test)]
mod scripts;
#[cfg(test)]
mod steps;
