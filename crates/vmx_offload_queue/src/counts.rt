//! How many records had which fate.

/// The most records of a capture (own to this project).
pub const MAX_RECORDS: usize = 262_144;

/// How many records had which fate. Each record has one.
#[derive(Clone, Copy, Debug, PartialEq, Eq)]
pub struct Counts {
    /// Frames with a TCP segment, whose checksums were filled in.
    pub filled: u32,

    /// Other frames that are written, as they were captured.
    pub left: u32,

    /// Frames above 9,022 bytes, which are not written.
    pub long: u32,
}
