//! The laws of queues of words at each form that stands. No other crate stands on this one.
#![tactic(auto)]

#[cfg(test)]
mod tests;
