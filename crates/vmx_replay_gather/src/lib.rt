//! The end of a replay: guests that have ended are taken apart, both sides of each guest's registers and both ends of each link meet, and
//! what is left is the record of the replay. Its contract says that the record accounts for the plan. Own to this project.
#![tactic(auto)]

mod ended;
mod gathering;
mod meeting;
mod parting;

pub use ended::Ended;
pub use gathering::gather;
