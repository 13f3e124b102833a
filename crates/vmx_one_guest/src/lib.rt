//! A guest's device with its driver and the other guest played by hand, over queue ends in memory, and tables of steps by which tests
//! play them.
#![tactic(auto)]

mod bench;
mod commands;
mod entries;
mod queues;
mod samples;
mod settings;
mod steps;

pub use bench::Bench;
pub use commands::{Answered, Commands, MAX_COMMANDS};
pub use entries::{answered, came, lost, refused, sent, up};
pub use queues::{MAX_CALLS, Queues, Up, queues_of};
pub use samples::{Sample, TCI, bytes_of};
pub use settings::{Settings, setup_of};
pub use steps::Step;
