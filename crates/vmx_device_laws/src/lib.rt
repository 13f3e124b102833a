//! What holds of a device of a guest at all times, what each of its looks and turns does, and what it leaves: definitions over plain
//! data, and the laws on them, for the crate that runs the device.
#![tactic(auto)]

mod laws;
mod side;
mod turn;

pub use laws::{ended_device_leaves, quiesced_device_is_quiet, turns_keep, turns_pair_ends};
pub use side::LinkSide;
pub use turn::Turn;
