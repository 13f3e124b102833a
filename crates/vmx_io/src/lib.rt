//! What every crate above stands on: lists that contracts see as values, and the outside world as two traits.
//!
//! `Shelf` is files by name and `Console` is a text that grows. Both come in memory, where contracts tell what they
//! hold, in memory with calls that fail by their numbers, and over the system, where nothing is told of contents.
#![tactic(auto)]

mod buffer;
mod bytes;
mod faulty;
mod file;
mod handed;
mod list;
mod outside;
mod roomy;
mod steady;
mod system;
#[cfg(test)]
mod tests;
mod text;

pub use buffer::{Buffer, MAX_FRAME, MIN_FRAME};
pub use bytes::Bytes;
pub use faulty::{FaultyConsole, FaultyShelf};
pub use file::File;
pub use handed::{Handed, HandedView};
pub use list::List;
pub use outside::{Console, Load, Save, Shelf};
pub use roomy::Roomy;
pub use steady::{SteadyConsole, SteadyShelf};
pub use system::{FolderShelf, TerminalConsole};
pub use text::Text;
