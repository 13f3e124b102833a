//! The record of a replay: what every actor left, with the facts of all queues, links and registers whose ends have met.
//!
//! Contracts see a record as vmx_model's views of it, so that the accounts, the fates and the summary of the model speak of it.
#![tactic(auto)]

mod guest;
mod whole;

pub use guest::GuestRecordOf;
pub use whole::RecordOf;
