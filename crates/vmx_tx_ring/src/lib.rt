//! A ring of transmit descriptors in words, with their buffers, between a driver's end and a device's: what the queue for
//! one thread and the atomic queue share.
//!
//! The rule of the table (`specs/Rule.antt`) is generic in how the words behind the descriptors tell which frames are
//! completed (`TellsCompletions`). `TxWriter` stages the pieces of a frame and publishes them at once, `TxReader` looks for
//! the next frame and reads its pieces; a queue adds how frames are completed and reaped.
#![tactic(auto)]

mod known;
mod life;
mod reader;
mod steps;
mod words;
mod writer;

pub use known::{
    MarkNumbers, TellsCompletions, TxBuffer, TxDeviceAt, TxDeviceKnows, TxDriverAt, TxDriverKnows,
    TxKnown, TxNews, TxPiece, TxRule,
};
pub use life::{TxMeeting, make_ring, meet_ring};
pub use reader::{Look, TxReader};
pub use writer::{Shelf, TxWriter};
