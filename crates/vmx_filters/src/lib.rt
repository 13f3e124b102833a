//! The receive filter: which frames a device lets in for its driver, and the rule that refuses the others.
//!
//! The receive modes and the two tables are those of Linux's `vmxnet3_defs.h` (`Vmxnet3_RxFilterConf`); that untagged
//! frames and VLAN 0 pass the VLAN table, and that PROMISC passes it too, is own to this project. No call takes memory.
#![tactic(auto)]

mod answer;
mod filtering;

pub use answer::{Rule, Verdict};
pub use filtering::admits;

#[cfg(test)]
mod tests;
