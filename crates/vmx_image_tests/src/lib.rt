//! The test of images that a device refuses, generic in the fabric and run over the queue ends of vmx_lists. No other crate stands on
//! this one.
#![tactic(auto)]

#[cfg(test)]
mod tests;
