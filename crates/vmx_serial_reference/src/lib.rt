//! The serial run of a plan as a plain, slow program over lists: no ring, no register, no note and no link that fills up. Each
//! function does what one definition of the model says. No program stands on it: what other programs do is compared with it.
#![tactic(auto)]

mod run;
mod world;

pub use run::serial_run;
pub use world::{Carried, Wire, World, targets_of};
