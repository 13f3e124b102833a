//! A link carries packets from one port of the switch to another: a queue of at most 64 packets between one sender and
//! one receiver, which may be threads of their own, with no lock.
//!
//! Contracts see an end as a record of plain data (`specs/Views.antt`), and each call by what it does to that record
//! (`specs/Ends.antt`). That what was pulled is a prefix of what was pushed, between any two steps of any schedule, is the
//! rule of the table, `specs/Rule.antt`; `meet` hands it out.
#![tactic(auto)]

mod ends;
mod known;
mod steps;

pub use ends::{LinkFacts, LinkIn, LinkNote, LinkOut, Pull, Push, meet, pair};
pub use known::{Entries, Known};

#[cfg(test)]
mod tests;
