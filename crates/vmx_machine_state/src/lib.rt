//! The parts of a device's command machine that hold no queue ends: the state by name, what is counted of a queue, the numbers of the
//! errors that stop one, the answers to commands that ask for a value, and what is written into an image.
//!
//! Its specs have what contracts see of the whole machine, a record of plain data (`specs/Views.antt`): what becomes of ends and of an
//! image stands in `specs/Ends.antt` and `specs/Images.antt`, what is counted in `specs/Statistics.antt`, and stopped queues in
//! `specs/Stopped.antt`. No call takes memory.
#![tactic(auto)]

mod errors;
mod gets;
mod images;
mod state;
mod statistics;

pub use errors::{
    ADDRESS_ERROR, CHAIN_ERROR, FIELD_ERROR, OFFLOAD_ERROR, SIZE_ERROR, error_number,
};
pub use gets::value_of;
pub use images::{write_all_stats, write_all_status};
pub use state::State;
pub use statistics::{
    BROADCAST_FRAMES, Count, MULTICAST_FRAMES, QUEUES, RX_ERRORS, RX_NO_BUFFERS, TX_DISCARDS,
    TX_ERRORS, UNICAST_FRAMES, count_in, nothing_counted,
};
