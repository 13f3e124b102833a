//! Two guests of a plan, with their drivers and devices joined by two links, over queue ends in memory: what the tests and the
//! small program that run a guest share.
#![tactic(auto)]

mod driven;
mod far;
mod guests;
mod plans;
mod served;

pub use driven::{Driven, driver_of};
pub use far::{Far, MAX_PACKETS, links_of, packet_of};
pub use guests::{Guest, INTERRUPTS, LINK_PACKETS, first_of, guests_of};
pub use plans::{MACS, frame_to, plan_of};
pub use served::{MAX_TURNS, Served, device_of};
