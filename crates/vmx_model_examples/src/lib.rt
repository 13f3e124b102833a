//! Replays and records written out by hand: what vmx_model's definitions say of them, and which records they refuse.
//!
//! Nothing stands on this crate. Its functions do nothing; each contract is a statement that a reader can check by hand against the words
//! of the definitions: small plans with the fate of every copy, a record that accounts for its plan (so the accounts can be met), and
//! records that would account for it but for one fault. Own to this project.
#![tactic(auto)]

mod buffers;
mod kinds;
mod right_record;
mod small_replays;
mod tags;
mod wrong_records;

pub use buffers::{
    bodies_are_passed_over, buffers_run_out, large_frames_take_pieces, polls_make_room,
};
pub use kinds::{a_flow_moves_with_its_table, kinds_are_counted};
pub use right_record::the_right_record_accounts;
pub use small_replays::{
    a_broadcast_is_filtered, a_guest_pauses, a_guest_resets, a_stray_frame_has_no_port,
    lengths_are_bounded, three_guests_replay,
};
pub use tags::{
    a_stopped_queue_stays_stopped, tags_are_put_in, tags_are_taken_out, tags_count_in_the_length,
};
pub use wrong_records::{lost_tags_are_refused, wrong_counts_are_refused, wrong_fates_are_refused};
