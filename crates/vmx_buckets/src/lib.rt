//! A device's journal, sorted: what it gave to the switch by activation and transmit queue, and the fates of what it took by the port
//! that sent it, each list in the order of the journal.
//!
//! A journal is gone over once for each kind. A list stands in an array at its key, so that no entry is searched for.
#![tactic(auto)]

mod arrivals;
mod keys;
mod sends;

pub use arrivals::by_port;
pub use keys::{QUEUES, key_of};
pub use sends::{Switched, Toward, by_queue};

#[cfg(test)]
mod tests;
