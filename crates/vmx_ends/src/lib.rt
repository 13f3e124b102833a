//! The ends of transmit and receive queues as traits: what each call answers, when, and what it does to what contracts
//! see. Whoever moves frames through these calls can be proved over lists, over rings of words and over lock-free rings
//! alike.
//!
//! A queue has a driver's end and a device's. What an end did is a list in its view; a look that failed is an entry of
//! its list of looks. No call of an end takes memory, and none waits.
#![tactic(auto)]

mod answers;
mod carrying;
mod fabric;
mod frames;
mod limits;
mod made;
mod meta;
mod needs;
mod packet;
mod queues;
mod rx;
mod rx_queues;
mod tx;
pub mod walk;

pub use answers::{Deliver, EndFault, Post, Reap, Receive, Take};
pub use carrying::{carry, carry_rx, pass, pass_rx};
pub use fabric::{Ends, Fabric};
pub use frames::{Delivery, Sent, Taken};
pub use limits::{
    BODY_SIZE, HEAD_SIZE, MAX_BODIES, MAX_DESCRIPTORS, MAX_PIECE, MAX_TAGLESS_FRAME, MIN_PIECE,
    MIN_PIECE_WITH_DATA, RING_STEP, ZERO_LENGTH,
};
pub use made::{Bodies, RxMade, RxShape, TxMade};
pub use meta::{RxMeta, TxMark};
pub use needs::need_of;
pub use packet::{Packet, QueueName, Tag};
pub use queues::{TxQueues, make_queues, meet_queues};
pub use rx::{RxDevice, RxDriver, RxFacts, RxNote};
pub use rx_queues::{RxQueues, make_rx_queues, meet_rx_queues};
pub use tx::{TxDevice, TxDriver, TxFacts, TxNote};
pub use vmx_io::{MAX_FRAME, MIN_FRAME};

#[cfg(test)]
mod tests;
