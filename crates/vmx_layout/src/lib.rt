//! The layouts of vmxnet3, device revision 1, as Linux's `vmxnet3_defs.h` has them: descriptors and
//! completions as two words of 64 bits, the numbers of the commands and the offsets of the registers; and the guest
//! physical addresses of rings, data rings and buffers, which are this project's own.
//!
//! A word is a stack of fields, each a width in bits and a value, from the lowest bit up. This stack is the
//! published table. Bits without a name must be 0, which is this project's own rule.
#![tactic(auto)]

mod addresses;
mod bits;
mod command;
mod fault;
mod register;
mod rx_comp;
mod rx_desc;
mod tx_comp;
mod tx_desc;

pub use addresses::{
    BUFFER_STRIDE, DATA_ENTRY_SIZE, IMAGE, MAX_RING_SIZE, MULTICAST_TABLE, QUEUE_DESCRIPTORS,
    RINGS_OF_QUEUE, RSS_CONFIGURATION, RX_BUFFERS, RX_BUFFERS_OF_QUEUE, RX_BUFFERS_OF_RING,
    RX_COMPLETION_RING_OFFSET, RX_DATA_RING_OFFSET, RX_RING2_OFFSET, RX_RINGS, TX_BUFFERS,
    TX_BUFFERS_OF_QUEUE, TX_COMPLETION_RING_OFFSET, TX_DATA_RING_OFFSET, TX_RINGS,
    rx_buffer_address, rx_completion_ring_address, rx_data_entry_address, rx_data_ring_address,
    rx_ring1_address, rx_ring2_address, tx_buffer_address, tx_completion_ring_address,
    tx_data_entry_address, tx_data_ring_address, tx_ring_address,
};
pub use command::Command;
pub use fault::FieldFault;
pub use register::{
    DEVICE_BAR, DOORBELL_BAR, InterruptIndex, MAX_INTERRUPTS, MAX_QUEUES, QueueIndex, Register,
};
pub use rx_comp::RxComp;
pub use rx_desc::{BufferType, RxDesc};
pub use tx_comp::TxComp;
pub use tx_desc::TxDesc;

/// The generation's bit in the second word of a transmit descriptor.
pub const TX_DESC_GENERATION_BIT: u32 = tx_desc::GENERATION;

/// The generation's bit in the second word of a receive descriptor.
pub const RX_DESC_GENERATION_BIT: u32 = rx_desc::GENERATION;

/// The generation's bit in the second word of a completion, transmit or receive.
pub const COMPLETION_GENERATION_BIT: u32 = rx_comp::GENERATION;

#[cfg(test)]
mod tests;
