//! What the calls of the actors of a replay come to in the serial run: laws over the guests of a run, by the chains of steps that
//! these calls make. Nothing here runs.
#![tactic(auto)]

mod laws;

pub use laws::{
    a_command_is_done, a_deed_is_done, a_device_stays_itself, a_frame_is_sent_out,
    a_guest_is_activated, a_guest_is_closed, a_link_is_looked_at, a_poll_hands_up,
    a_run_has_its_links, the_ends_meet,
};
