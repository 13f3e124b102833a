//! The state of a device after a list of commands, and what it answers to a command that sets something.
//!
//! Both are functions of what a driver told: a list of turns, each a command with its answer (`Turn`). The definitions stand
//! in `specs/DeviceState.antt`; [`PlainDevice`] is the plain program that computes them, one command at a time. A device that
//! holds queue ends answers as this one does, which holds none.
#![tactic(auto)]

mod answers;
mod order;
mod plain;
mod turn;
mod updates;

pub use answers::{
    ALREADY_ACTIVE, DEVICE_HIGH, DEVICE_LOW, FILTER_CHECK, LINK_UP, MSI_X, OTHER_ENDS, RSS_CHECK,
    UNKNOWN_COMMAND,
};
pub use order::{Order, Part};
pub use plain::PlainDevice;
pub use turn::{AnswerView, CommandView, EndCounts, Turn};
pub use updates::{check_of, update_of};

#[cfg(test)]
mod tests;
