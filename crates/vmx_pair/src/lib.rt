//! The replay of `pair`: the capture of guest `a` goes to guest `b` by the plan of vmx_pair_plan, without files and without a console.
//!
//! `replay` makes the record, the saved capture and the summary. Its contract says what these are, by the verdicts of the plan
//! (`specs/Replays.antt`).
#![tactic(auto)]

mod record;
mod summary;
mod transfer;

pub use record::Record;
pub use transfer::{Replayed, replay};
