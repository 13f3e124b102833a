//! Laws on the serial run of the plan of `pair`: what guest `b` is handed is what guest `a` sends.
#![tactic(auto)]

pub mod laws;
