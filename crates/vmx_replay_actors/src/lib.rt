//! The guests of a serial replay, with how far each has come, and the calls by which a serial order drives them: each is a step of the
//! model's serial run.
#![tactic(auto)]

mod begin;
mod counts;
mod run;

pub use run::Run;
