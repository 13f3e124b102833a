//! A run of a replay in its serial order, as contracts see it: what each call of the actors does to it, how far its guests have come, and
//! how long its journals are.
#![tactic(auto)]

mod laws;

pub use laws::a_count_is_of_one_port;
