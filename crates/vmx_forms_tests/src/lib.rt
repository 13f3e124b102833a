//! The rings for one thread and the atomic queues beside plain queues. No other crate stands on this one.
#![tactic(auto)]

#[cfg(test)]
mod tests;
