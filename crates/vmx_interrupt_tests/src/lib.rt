//! The tests of the masks, lines, doorbells and events of the registers. No other crate stands on this one.
#![tactic(auto)]

#[cfg(test)]
mod tests;
