//! The tests of what the command machine counts and keeps, generic in the fabric and run over the queue ends of vmx_lists. No
//! other crate stands on this one.
#![tactic(auto)]

#[cfg(test)]
mod tests;
