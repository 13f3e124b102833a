//! The serial replay of a plan: its frames cross driver, queue, device, switch, link, device, queue and driver, guest by guest in one
//! fixed order.
#![tactic(auto)]

mod replay;

pub use replay::serial;
