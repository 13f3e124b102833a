//! The summary of a replay: one line of what was captured, one of what became of it, out of the table of copies.
#![tactic(auto)]

mod kinds;
mod lines;
mod totals;

pub use kinds::{Kind, count_from, count_to};
pub use lines::summary;

#[cfg(test)]
mod tests;
