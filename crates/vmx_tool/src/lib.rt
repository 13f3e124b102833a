//! What the program does for its words: `pair IN OUT` replays one capture from a guest to another.
//!
//! `run` reads the words, loads and reads the capture IN, replays it, saves what guest `b` received as OUT and
//! writes the summary, over any shelf and console. Its contract says what each status means (`specs/Ends.antt`),
//! when each must come, and that a run in which nothing fails ends with `Ok`, but for want of memory.
#![tactic(auto)]

mod gate;
mod lines;
mod load;
mod status;
mod top;
mod words;

pub use gate::{Gate, NoGate};
pub use status::{Outcome, Status};
pub use top::{run, run_serial};
pub use vmx_pair::Record;
pub use words::wants_threads;
