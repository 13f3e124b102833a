//! The cores of a transmit queue and of a receive queue as plain, slow programs over lists: no ring, no index, no
//! generation, no slot and no step. No program stands on them. The tests run them beside the queues over lists, and every
//! answer must be the same.
#![tactic(auto)]

mod rx;
mod tx;

pub use rx::{Buffer, Delivered, PlainRx, Received, RxFrame, Supply};
pub use tx::{PlainTx, Reaped, Taken, TxFrame};

#[cfg(test)]
mod tests;
