//! Where a guest's driver is in its plan, what always holds of it, and how each of its steps keeps that.
//!
//! A driver is seen as plain data (`specs/Driver.antt`): its progress, what its side of the registers knows, its ends, those of
//! the device where it holds them, the facts of queues whose ends have met, and what it handed up. `Keeps` is what always holds.
//! The files of `specs/` show step by step that it is kept, and that a driver which has ended says its part of what a guest leaves.
//! Nothing here speaks of a schedule. Own to this project.
#![tactic(auto)]

mod next;
mod progress;

pub use next::{due, mark_of, settle};
pub use progress::{Due, Progress, Stage, Then};
