//! What a replay accounts for: the plan, the verdict on each captured frame, journals and fates, and the laws on them.
//!
//! A guest or a plan whose numbers are known at run time alone is made by `GuestPlan::of` or `Plan::of`, which test its ranges.
#![tactic(auto)]

mod changes;
mod deeds;
mod guest;
mod guest_checks;
mod guest_parts;
mod journal;
mod laws;
mod limits;
mod makers;
mod plan;
mod plan_checks;
mod sending;
mod steps;
mod verdicts;

pub use changes::changed;
pub use deeds::{Action, Deed};
pub use guest::GuestPlan;
pub use guest_parts::GuestParts;
pub use journal::{Entry, Fate, Journal, Received, Way};
pub use laws::{
    bags_tell, frames_have_stamps, law_of_parts, links_tell, nothing_is_left,
    only_a_reset_discards, runs_in_order,
};
pub use limits::{
    ABOVE_MTU, LINK_CAPACITY, MAX_ACTIONS, MAX_ALL_DESCRIPTORS, MAX_BYTES, MAX_COPIES, MAX_NAME,
    MAX_NUMBER, MAX_PREFIX, MAX_RECORDS, MAX_VLAN, RECORD_HEADER,
};
pub use plan::Plan;
pub use sending::Sending;
pub use steps::{
    entries_add, frames_add, journal_grows, run_goes_on, spread_in_turns, stays_ready,
};
pub use verdicts::verdict;

#[cfg(test)]
mod tests;
