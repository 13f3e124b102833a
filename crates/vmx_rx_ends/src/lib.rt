//! The two ends of a receive queue of words, whichever way its visible completions are told.
//!
//! Words, rule and steps are `vmx_rx_ring`'s, the walks of both ends `vmx_rx_walk`'s. Here stand a delivery and a receipt as
//! a whole, notes, and how the ends are made and meet. The queues themselves, each with its own types, stand above.
#![tactic(auto)]

mod filler;
mod life;
mod reader;
mod shown;

pub use filler::RxFiller;
pub use life::{RxMeeting, make_ends, meet_ends};
pub use reader::RxReader;
pub use shown::word_of;
