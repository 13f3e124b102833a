//! The fates that a serial run gives to the copies of its plan, read from the journals and transmit queues that it leaves.
#![tactic(auto)]

mod copies;

pub use copies::fates;
