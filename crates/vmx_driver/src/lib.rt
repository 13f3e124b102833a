//! A guest's driver: it follows its guest's plan over the ends of any fabric, and speaks of no schedule.
//!
//! `act` makes the next step of the script or posts the next sent frame, `poll` hands up what was received, `turn` is one of
//! each. What the calls do stands in `vmx_driver_steps`, over plain data; what always holds of a driver is the invariant of its
//! type, and `into_parts` gives its part of what a guest leaves. Own to this project.
#![tactic(auto)]

mod driver;

pub use driver::{Act, Driver, DriverParts, Turn};
