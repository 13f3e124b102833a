//! A receive queue over rings of words, for two threads and no lock, and no call but `make` takes memory or waits.
//!
//! Words, rule and steps are `vmx_rx_ring`'s, the walks of both ends `vmx_rx_walk`'s, a delivery and a receipt as a whole
//! `vmx_rx_ends`'; here stand the two ends, their notes and the facts. That every step of any schedule keeps the rule of the
//! table is proved with each call; `vmx_rx_laws` tells what the rule says between any two steps.
#![tactic(auto)]

mod device;
mod driver;
mod facts;
mod life;
mod notes;
mod shown;

pub use device::RxDeviceEnd;
pub use driver::RxDriverEnd;
pub use facts::RxQueueFacts;
pub use life::{make, meet};
pub use notes::RxNoteEnd;
pub use shown::{MAX_SLOT_SIZE, word, write_down};
