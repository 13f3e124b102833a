//! What a device does in one look: at a transmit queue, at a link, at the doorbells; and what it makes of a frame that came.
//!
//! Each function changes the parts that it is lent, and its contract says of plain data what became of them: nothing of a fabric is
//! left in it. No call takes memory.
#![tactic(auto)]

mod arrivals;
mod bells;
mod commands;
mod ends;
mod events;
mod interrupts;
mod links;
mod notes;
mod sending;
mod tagging;

pub use arrivals::{Terms, handle};
pub use bells::read_bells;
pub use commands::{counted_on, show_setup};
pub use ends::{Found, deliver_as, take_from};
pub use events::{RX_ERROR_EVENT, TX_ERROR_EVENT};
pub use interrupts::{alarm, auto_mask, event_interrupt, signal};
pub use links::{Pulled, other_port, pull_from, push_on};
pub use notes::{hear_rx_at, hear_tx_at, note_rx_of, note_tx_of};
pub use sending::{link_to, send_to, spread};
pub use tagging::tag_in;
