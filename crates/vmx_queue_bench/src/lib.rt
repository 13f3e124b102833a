//! Frames through the two queues of words, timed: what `vmx_bench` calls for `bench/queue.sh`. And the single steps of the
//! queues' ends, of which benches and samples are made.
#![tactic(auto)]

mod frames;
pub mod rx_queue;
pub mod rx_steps;
pub mod tx_queue;
pub mod tx_steps;

pub use frames::roomy;
use vmx_ends::QueueName;

/// A queue is looked at no more often than this.
const TRIES: u64 = 1 << 40;

/// The name of each queue.
const NAME: QueueName = QueueName {
    guest: 0,
    activation: 0,
    queue: 0,
};
