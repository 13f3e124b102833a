//! Receive side scaling: the Toeplitz hash of a flow, and the queue that it chooses.
//!
//! The hash and the kinds of flow are Microsoft's (the Windows driver documentation, "RSS Hashing Functions" and
//! "RSS Hashing Types"); that a flow of no kind goes to queue 0, and how a transmit queue is chosen, is own to this project.
//! No call takes memory.
#![tactic(auto)]

mod answer;
mod hash;
mod input;
mod queues;

pub use answer::{Choice, KIND_IPV4, KIND_IPV6, KIND_TCP_IPV4, KIND_TCP_IPV6, NO_KIND};
pub use hash::{MAX_INPUT_LEN, toeplitz};
pub use queues::{ALL_TYPES, TYPE_IPV4, TYPE_IPV6, TYPE_TCP_IPV4, TYPE_TCP_IPV6, choose, tx_queue};

#[cfg(test)]
mod tests;
