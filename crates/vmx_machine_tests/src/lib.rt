//! The test that a command machine may go to another thread, generic in the fabric and run over the queue ends of vmx_lists. No other
//! crate stands on this one.
#![tactic(auto)]

#[cfg(test)]
mod tests;
