//! The walks of a receive queue in words.
//!
//! The device looks for the buffers of a frame by loads of second words alone (`walk_on`), fills them and stages their
//! completions (`stage_frame`), and publishes these by one store (`publish`). The driver reads the pieces of a frame, and
//! posts each descriptor back with one store, behind those of ring 1 that were passed over before it (`read_frame`).
#![tactic(auto)]

mod looking;
mod reading;
mod staging;
mod walking;

pub use looking::{Seen, look};
pub use reading::{Back, read_frame};
pub use staging::{publish, stage_frame};
pub use walking::{HeadEnd, More, Plan, walk_on};
