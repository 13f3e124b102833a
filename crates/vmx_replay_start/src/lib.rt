//! The guests of a plan as a replay begins with them, over the ends of any fabric: registers for each, and a link from each to each
//! other. Nobody has made a step.
#![tactic(auto)]

mod guests;
mod links;
mod switch;

pub use guests::{INTERRUPTS, new_guests};

#[cfg(test)]
mod tests;
