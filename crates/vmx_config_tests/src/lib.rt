//! Configurations by their texts: what `read` answers in words, and the tests of it.
//!
//! Nothing stands on this crate but its tests.
#![tactic(auto)]

mod answers;
mod texts;

pub use answers::answer;
pub use texts::{guest, repeated, script};

#[cfg(test)]
mod tests;
