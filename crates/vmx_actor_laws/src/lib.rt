//! What a device and its driver have in common, whatever the schedule: laws over what each of them keeps at all times.
#![tactic(auto)]

pub mod laws;
