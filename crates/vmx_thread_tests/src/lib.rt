//! The test of two guests whose drivers and devices run on four threads, over queue ends in memory. Nothing stands on this crate.
#![tactic(auto)]

#[cfg(test)]
mod fates;
#[cfg(test)]
mod threads;
