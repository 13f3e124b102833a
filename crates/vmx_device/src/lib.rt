//! The device actor of a guest: it answers its driver's commands, gives the frames of its transmit queues to the switch, and
//! delivers to its receive queues what the links from other guests bring.
//!
//! A turn makes each of its looks once, and handles what each finds: one command, one frame of each transmit queue, one packet of
//! each link. All that it does stands in its journal. Memory comes first: a turn that gets none changes nothing.
#![tactic(auto)]

mod counting;
mod device;
mod growing;
mod inner;
mod linking;
mod looking;
mod notes;

pub use device::{Device, Parts};
pub use growing::TURN_ENTRIES;
pub use vmx_device_laws::{LinkSide, Turn};
