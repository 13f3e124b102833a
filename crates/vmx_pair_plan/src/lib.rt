//! The fixed plan of `pair`: guest `a` sends a capture, and guest `b` is a sniffer. `pair_plan` makes it.
//!
//! What the plan says of each frame goes by the frame's length (`laws`).
#![tactic(auto)]

pub mod laws;
mod plan;

pub use plan::{MAC_A, MAC_B, PIECE, pair_plan};

#[cfg(test)]
mod tests;
