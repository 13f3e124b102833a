//! Small plans whose cases are about sending: which frames are sent, which copies each has, and the tags that they carry.
//!
//! The tests alone stand here, over the plans of vmx_sketches; nothing stands on this crate.
#![tactic(auto)]

#[cfg(test)]
mod tests;
