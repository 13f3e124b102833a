//! Queues over lists: frames go from hand to hand through slots, with two counting words a queue. There are no
//! descriptors, no rings and no generations; the rule of a queue is its core alone. A failed look gives the word whose
//! generation bit is not its position's and whose other bits are 0.
#![tactic(auto)]

mod bytes;
mod fabric;
mod rx;
mod tx;

pub use fabric::ListFabric;
pub use rx::{ListRxDevice, ListRxDriver, ListRxFacts, ListRxNote};
pub use tx::{ListTxDevice, ListTxDriver, ListTxFacts, ListTxNote};

#[cfg(test)]
mod tests;
