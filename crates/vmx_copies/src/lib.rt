//! The copies of a plan and their fates, joined out of the journals of a record: one row a copy, in the order of sender, captured number
//! and target.
//!
//! Each journal is gone over twice, and each captured frame once: no frame's entries are searched for. An entry of a queue that is not
//! read yet stands at the queue's cursor, and a packet's arrival at its place.
#![tactic(auto)]

mod copy;
mod join;
mod sender;

pub use copy::FrameCopy;
pub use join::copies;
