//! The serial order of a replay: a run of guests is driven number by number and guest by guest, as the model's serial run goes over its
//! world. Its contract says that it leaves the model's world.
#![tactic(auto)]

mod order;

pub use order::serial;
