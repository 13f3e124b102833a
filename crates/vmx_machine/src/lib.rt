//! The command machine of a device, and its statistics. It answers each command by one table, keeps the setup and the queue ends
//! between an activation and the next quiesce or reset, counts frames by queue, and keeps the errors of stopped queues until a reset.
//!
//! Contracts see a machine as a record of plain data (`Views` of vmx_machine_state, whose specs this crate passes on). What it answers
//! is a function of its state, the command and the bag (vmx_device_state's `Answers`); what becomes of the ends and of the image
//! stands in `Ends` and `Images`, and what is counted in `Statistics`. No call takes memory.
#![tactic(auto)]

mod machine;

pub use machine::Machine;
