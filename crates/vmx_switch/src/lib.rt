//! The switch between the guests: which ports a frame goes to.
//!
//! The switch learns nothing and forgets nothing: a port owns one address and may be a sniffer, and both are given
//! when the table is made (own to this project). The targets of a frame are a set of ports, listed in port order.
//! No call takes memory.
#![tactic(auto)]

mod answer;
mod forwarding;
mod table;

pub use answer::{MAX_PORTS, Targets};
pub use forwarding::targets;
pub use table::Table;

#[cfg(test)]
mod tests;
