//! The command machine of a device behind its registers: one look at the command register, and the answer to the command that it finds.
//! The machine itself (vmx_machine) and its parts (vmx_machine_state) are passed on under this crate's name, their specs too.
//!
//! What a look does is a relation between what the registers knew and the machine before and after (`specs/Serving.antt`). No call
//! takes memory.
#![tactic(auto)]

mod serving;

pub use serving::{Answered, answer_next};
pub use vmx_machine::Machine;
pub use vmx_machine_state::{
    ADDRESS_ERROR, BROADCAST_FRAMES, CHAIN_ERROR, Count, FIELD_ERROR, MULTICAST_FRAMES,
    OFFLOAD_ERROR, RX_ERRORS, RX_NO_BUFFERS, SIZE_ERROR, State, TX_DISCARDS, TX_ERRORS,
    UNICAST_FRAMES,
};
