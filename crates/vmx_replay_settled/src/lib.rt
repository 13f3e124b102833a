//! The steps of a serial replay's guests with the notes behind each: a driver's act or poll, or a device's turn, after which both sides
//! of the registers are told of all that the other did, both ends of each queue where no command is outstanding, and over links both
//! devices. Generic in the fabric.
#![tactic(auto)]

mod keeping;
mod links;
mod settling;
mod steps;

pub use keeping::keep;
pub use links::{pass_link_on, pass_links_to};
pub use settling::settle;
pub use steps::{act, poll, post, turn};
