//! What notes that went both ways tell the two ends of a queue or of a link, or the two sides of registers, of each other, and what an
//! end that was told all does next.
#![tactic(auto)]

pub mod laws;
