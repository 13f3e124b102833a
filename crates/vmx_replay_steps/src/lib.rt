//! Laws that say what each step of a guest's actors is in the serial run, where notes went both ways before it and after it. Nothing
//! here runs.
#![tactic(auto)]

mod laws;

pub use laws::{
    a_command_is_answered, a_device_is_active_as_its_driver, a_driver_polls,
    a_told_driver_waits_for_nothing, a_turn_finds_what_was_there, all_ends_meet,
    notes_leave_what_stands, notes_pass_all_queues,
};
