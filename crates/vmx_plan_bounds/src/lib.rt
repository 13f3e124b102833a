//! The bounds of a plan, as its types keep them: the last number of a plan and of a guest, how many guests it has, how many targets a frame,
//! and the order of its scripts. Crates above import the lemmas; the laws state them.
#![tactic(auto)]

mod last;
mod laws;

pub use last::{last_number, last_of};
pub use laws::{nothing_is_behind_the_last, plans_are_small, scripts_are_in_order};
