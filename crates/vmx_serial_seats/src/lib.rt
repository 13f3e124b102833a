//! A guest of the serial run: each call does what one definition of the model says of its driver and device.
#![tactic(auto)]

mod seat;

pub use seat::Seat;
