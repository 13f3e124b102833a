//! The calls that a serial replay makes on its guests, step by step: a frame goes out, a packet comes in, a command is sent and answered
//! with all that follows, a poll, a close. Each is a chain of acts, polls and turns with notes behind each, and its contract says which.
#![tactic(auto)]

mod closing;
mod commands;
mod frames;
mod guests;
mod targets;

pub use closing::{close, close_where_open};
pub use commands::{follow, renew};
pub use frames::{look_on, put_on};
pub use guests::poll_on;
