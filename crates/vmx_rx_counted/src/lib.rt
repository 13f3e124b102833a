//! A receive queue of words that counts visible completions in one word.
//!
//! Words, rule, walks, a delivery and a receipt are those of the atomic queue (`vmx_rx_ring`, `vmx_rx_walk`, `vmx_rx_ends`);
//! here stand the two ends, their notes and the facts. No call but `make` takes memory, and none waits.
#![tactic(auto)]

mod device;
mod driver;
mod facts;
mod life;
mod notes;

pub use device::RingRxDevice;
pub use driver::RingRxDriver;
pub use facts::RingRxFacts;
pub use life::{make, meet};
pub use notes::RingRxNote;

#[cfg(test)]
mod tests;
