//! Turns of a device with a driver behind the words of all its ends: none of its queues is ever stopped, so each look is made.
#![tactic(auto)]

mod laws;

pub use laws::{trusted_devices_look_at_each_queue, trusted_devices_stay_trusted};
