//! The outside world: files by name, and a text that is written.
//!
//! What a file or the text holds may be left untold; then its clauses say nothing of contents. The counts of faults
//! are always told. They never fall, and a call that does not fail raises none, so that a caller who answers 'fault'
//! without one is found out. A count stands still at 2^64 - 1; everywhere 'rose' means that it grew or stands there.
ghost use Rattle.std.specs.Prelude.{◌≡◌, ℕ, List, Option};
ghost use Rattle.vmx_io.specs.Outside.{Files};
ghost use Rattle.vmx_io.specs.Answers.{Loads, LoadCounts, Saves, SaveCounts, Writes};

use crate::bytes::Bytes;
use std::alloc::Global;

/// What a load answers.
#[derive(Debug, Drop)]
pub enum Load {
    /// The whole content of the file, at most as many bytes as the limit.
    Bytes { bytes: Bytes },
    /// The outside failed: the count of read faults rose.
    Failed,
    /// The file has more bytes than the limit.
    TooLong,
    /// There was no memory for the bytes.
    NoMemory,
}

/// What a save or a write answers.
#[derive(Clone, Copy, Debug, PartialEq, Eq)]
pub enum Save {
    /// All bytes are there.
    Done,
    /// The outside failed: the count of write faults, or of the console's faults, rose.
    Failed,
    /// There was no memory.
    NoMemory,
}

/// Files by name.
pub trait Shelf {
    /// The files, where they are told.
    ghost files: { Self → Option Files };

    /// How often reading failed.
    ghost read_faults: { Self → ℕ };

    /// How often writing failed.
    ghost write_faults: { Self → ℕ };

    /// The whole content of the file of this name, where it has at most `limit` bytes.
    fn load(&mut self, alloc: Global, name: &str, limit: u64) -> Load
        ensures content { Loads result (files self.old) name.now limit }
        ensures same { files self.new ≡ files self.old }
        ensures read_faults { LoadCounts result (read_faults self.old) (read_faults self.new) }
        ensures write_faults { write_faults self.new ≡ write_faults self.old };

    /// Puts the bytes under the name, in place of what stood there. After any other answer than `Done` nothing is
    /// said of this one name.
    fn save(&mut self, alloc: Global, name: &str, bytes: &[u8]) -> Save
        ensures content { Saves result (files self.old) (files self.new) name.now bytes.now }
        ensures write_faults { SaveCounts result (write_faults self.old) (write_faults self.new) }
        ensures read_faults { read_faults self.new ≡ read_faults self.old };
}

/// A text that grows at its end.
pub trait Console {
    /// The text, where it is told.
    ghost text: { Self → Option (List ℕ) };

    /// How often writing failed.
    ghost faults: { Self → ℕ };

    /// Appends the bytes. After `Failed` a front of them may have been appended.
    fn write(&mut self, bytes: &[u8]) -> Save
        ensures content { Writes result (text self.old) (text self.new) bytes.now }
        ensures faults { SaveCounts result (faults self.old) (faults self.new) };
}
