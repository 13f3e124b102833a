//! What the steps of a guest's driver have to do with the serial order of a replay: the frame of a number is sent exactly where it is
//! due, and so the order asks no verdict of the plan.
#![tactic(auto)]

mod laws;

pub use laws::{due_tells, gone_goes_on, unsent_stays};
