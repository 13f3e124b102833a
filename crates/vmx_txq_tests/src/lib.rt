//! The tests of the atomic transmit queue. No other crate stands on this one.
#![tactic(auto)]

#[cfg(test)]
mod tests;
