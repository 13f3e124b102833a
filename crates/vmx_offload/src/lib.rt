//! What the program vmxoffload does for its words: `fill IN OUT` sends the frames of a capture through a transmit queue as
//! a driver does that leaves checksums to its device, and writes them with their checksums filled in.
//!
//! `run_offload` reads the words, loads and reads the capture IN, fills it, saves it as OUT and writes one line, over any
//! shelf and console. Its contract says what each status means (`specs/Ends.antt`), when each must come, and that a run in
//! which nothing fails ends with `Ok`, but for want of memory.
#![tactic(auto)]

mod filled;
mod lines;
mod load;
mod status;
mod top;
mod words;

pub use filled::{PIECE, QUEUE_SIZE};
pub use load::MAX_BYTES;
pub use status::{OffloadOutcome, OffloadStatus};
pub use top::run_offload;
