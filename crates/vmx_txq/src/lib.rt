//! A transmit queue of words with generation bits, over one table of atomic words: no lock, and no call but `make` takes
//! memory or waits.
//!
//! Descriptors, buffers and their walks are `vmx_tx_ring`'s; here stand the ring of completions, the two ends, their notes
//! and the facts. That every step of any schedule keeps the rule of the table is proved with each call; `vmx_tx_laws` and
//! `laws` tell what the rule says between any two steps.
#![tactic(auto)]

mod completing;
mod ends;
pub mod laws;
mod life;
mod reaping;
mod rows;
mod shown;
mod steps;
mod words;

pub use ends::{TxDeviceEnd, TxDriverEnd, TxFacts, TxQueueNote};
pub use life::{make, meet};
pub use rows::InRows;
pub use shown::{SLOT_SIZE, word, write_down};
