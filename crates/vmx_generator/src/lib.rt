//! The generator: a plan of eight guests, each with a capture of 2,000 frames, that a number below 2^64 decides (own to this project).
//!
//! A linear congruential generator gives three draws for each frame (`draws.rt`), a frame is made of its draws (`frames.rt`), and the guests
//! are as a configuration has them by default, but for a few settings (`setups.rt`).
#![tactic(auto)]

mod all_draws;
mod draws;
mod frames;
mod plan;
mod setups;

pub use plan::generated_plan;

/// The guests of the plan.
const GUESTS: u8 = 8;

/// The frames of each guest's capture.
const FRAMES: u16 = 2_000;

/// The frames of all guests.
const ALL_FRAMES: usize = GUESTS as usize * FRAMES as usize;

#[cfg(test)]
mod tests;
