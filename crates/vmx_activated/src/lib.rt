//! What a device holds while it is active, its setup and its queue ends, and the commands that change it: activation, quiesce or
//! reset, and the updates of the setup.
//!
//! Contracts see it as plain data (`specs/Held.antt`): a machine is idle exactly while it holds nothing. The answers are
//! vmx_device_state's, by the state, the image and the numbers of ends in the bag. No call takes memory.
#![tactic(auto)]

mod activated;

pub use activated::{Activated, activate, quiesce, update};
