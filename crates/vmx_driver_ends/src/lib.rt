//! What a guest's driver does with its queue ends and its side of the registers, over lists of queues.
//!
//! Completions are reaped, the next frame is posted and its doorbell rung, notes pass between the two ends of each queue, interrupts
//! are unmasked, frames are handed up, and an activation gets its image and queues. Own to this project.
#![tactic(auto)]

mod ends;
mod fresh;

pub use ends::{
    Found, MAX_RECEIVED, look, make_room, pass_all_rx, pass_all_tx, poll_all, post_next, reap_all,
    unmask_all, unmask_if, wait,
};
pub use fresh::{Fresh, image_for, prepare, provide};
