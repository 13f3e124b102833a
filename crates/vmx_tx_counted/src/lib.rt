//! A transmit queue of words that counts completed frames in one word.
//!
//! Descriptors, buffers and their walks are `vmx_tx_ring`'s, as in the atomic queue; here stand the counting word, the two
//! ends, their notes and the facts. No call but `make` takes memory, and none waits.
#![tactic(auto)]

mod completing;
mod counting;
mod ends;
mod life;
mod reaping;
mod steps;

pub use counting::InCount;
pub use ends::{RingTxDevice, RingTxDriver, RingTxFacts, RingTxNote};
pub use life::{make, meet};

#[cfg(test)]
mod tests;
