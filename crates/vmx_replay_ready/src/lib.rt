//! What holds of the guests of a plan before the first step of any: laws, each the contract of a function that does nothing. Own to this
//! project.
#![tactic(auto)]

mod laws;

pub use laws::new_guests_rest;
