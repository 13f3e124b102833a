//! The generator's guests beside those that a configuration asks for.
//!
//! Nothing stands on this crate but its test.
#![tactic(auto)]

#[cfg(test)]
mod tests;
