//! The tests of the atomic receive queue. No other crate stands on this one.
#![tactic(auto)]

#[cfg(test)]
mod tests;
