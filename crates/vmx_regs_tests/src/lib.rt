//! The tests of commands over the registers. No other crate stands on this one.
#![tactic(auto)]

#[cfg(test)]
mod tests;
