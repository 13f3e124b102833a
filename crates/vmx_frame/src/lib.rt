//! What an Ethernet frame is: the class of its destination, its VLAN tag, and the flow that it belongs to.
//!
//! A frame is read as it stands, from the destination address on, and never past its end. No call takes memory.
//! `class` and `tag` read the Ethernet header (`ethernet`); `flow` looks through one tag and reads the IP and TCP
//! headers behind it (`internet`). Each answer is a function of the bytes, by cases that stand in `specs/`.
#![tactic(auto)]

mod bytes;
mod ethernet;
mod internet;
mod kinds;
mod tagging;

pub use ethernet::{
    ADDRESS_LEN, HEADER_LEN, TAG_TYPE, TAGGED_HEADER_LEN, TAGGED_TYPE_AT, TCI_AT, TYPE_AT,
    VLAN_COUNT, class, is_tagged, tag,
};
pub use internet::flow;
pub use kinds::{Class, Flow, Ports};
pub use tagging::{TAG_LEN, put, strip};

#[cfg(test)]
mod tests;
