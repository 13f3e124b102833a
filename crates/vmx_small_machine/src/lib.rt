//! A device and a driver as small as they can be, over the registers. The machine shows that the contracts of the two sides are enough
//! for both; only the tests of the registers depend on it.
#![tactic(auto)]

mod machine;

pub use machine::{Counted, SmallMachine, serve, take_back, update_with};
