//! The fabric of rings of words for one thread: descriptors are words with a generation bit, and completions are counted.
//!
//! The two queues are `vmx_tx_counted`'s and `vmx_rx_counted`'s. Whoever is generic in a fabric runs over this one as over
//! the lists and the atomic queues.
#![tactic(auto)]

mod fabric;

pub use fabric::RingFabric;

#[cfg(test)]
mod tests;
