//! A guest's two actors in one pair of hands: its driver and its device, over the ends of any fabric, and notes both ways between them
//! and between the devices of two guests. No call here takes memory.
#![tactic(auto)]

mod guest;
mod laws;
mod links;
mod queues;
mod registers;

pub use guest::Guest;
pub use laws::{passed_ends_stay_even, receive_ends_go_on};
pub use links::pass_link;
pub use queues::pass_queues;
pub use registers::pass_regs;
