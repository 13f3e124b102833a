//! The world of the serial run that the actors of all guests stand for, as a function of what contracts see of them; and laws that say
//! what a step of one guest does to it. Nothing here runs.
#![tactic(auto)]

mod laws;

pub use laws::{
    a_frame_goes_out, a_guest_has_its_links, a_guest_moves, a_packet_comes_in, guests_start,
    notes_move_nothing,
};
