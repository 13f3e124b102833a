//! Small plans whose cases are about receiving: rings that fill up, polls, bodies, several queues and filters.
//!
//! The tests alone stand here, over the plans of vmx_sketches; nothing stands on this crate.
#![tactic(auto)]

#[cfg(test)]
mod tests;
