//! Laws on the table of copies and the summary of a run by the plan of `pair`.
#![tactic(auto)]

pub mod laws;
