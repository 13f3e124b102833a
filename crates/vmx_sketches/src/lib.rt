//! Small plans by their sketches, and serial runs of them.
//!
//! A sketch says of a guest only what a case is about; all else is as a configuration has it by default. `gives` runs the serial
//! reference program over such a plan and compares the fates of its copies with those that follow from the rules by hand. The
//! cases are the tests of vmx_sketches_sending and vmx_sketches_receiving; nothing else stands on this crate.
#![tactic(auto)]

mod fitting;
mod frames;
mod guests;
mod runs;
mod sketch;
mod wanted;

pub use frames::Frames;
pub use guests::{BROADCAST, MAC_A, MAC_B, NOBODY, QUIET, large, sends};
pub use runs::{gives, world_of};
pub use sketch::{Script, Sketch, mac_of, plan_of};
pub use wanted::{filtered, missed, up, up_on};
