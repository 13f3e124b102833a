//! The queues of the serial run as plain, slow programs over lists, and what a guest's setup makes of a frame: no ring, no register
//! and no note. Each function does what one definition of the model or of vmx_ends' cores says.
#![tactic(auto)]

mod forms;
mod queues;
mod rx;
mod setups;
mod tx;
mod walk;

pub use forms::{Arrival, delivered_as, mark_of, wire_form};
pub use queues::{deliver, fate_on, hand_up, make_rx, make_tx, pending, receive_each, transmit};
pub use rx::{Delivered, RxQueue};
pub use setups::{admitted, rx_queue};
pub use tx::{Posted, TxQueue};
pub use walk::{Outcome, Stand};
