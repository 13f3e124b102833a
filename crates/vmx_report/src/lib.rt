//! The fabric that the program runs on: the atomic queues of words, for two threads or for one.
//!
//! The two queues are `vmx_txq`'s and `vmx_rxq`'s. Whoever is generic in a fabric runs over this one.
#![tactic(auto)]

mod fabric;

pub use fabric::QueueFabric;

#[cfg(test)]
mod tests;
