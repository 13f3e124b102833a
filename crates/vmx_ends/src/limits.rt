//! The limits of frames, pieces and rings.

/// The most bytes of a posted frame into which a tag is put: with the four bytes of its tag it is a frame of the most
/// bytes. Own to this project.
pub const MAX_TAGLESS_FRAME: usize = 9_018;

/// The most descriptors of one frame (Linux `VMXNET3_MAX_TXD_PER_PKT`).
pub const MAX_DESCRIPTORS: u32 = 16;

/// The bytes of a HEAD descriptor's buffer. Own to this project.
pub const HEAD_SIZE: u32 = 2_048;

/// The bytes of a BODY descriptor's buffer. Own to this project.
pub const BODY_SIZE: u32 = 4_096;

/// The bytes that a length of 0 in a descriptor stands for (Linux `VMXNET3_MAX_TX_BUF_SIZE`).
pub const ZERO_LENGTH: u32 = 16_384;

/// The fewest descriptors of a ring, and the step of its sizes (Linux `VMXNET3_RING_SIZE_ALIGN`).
pub const RING_STEP: u32 = 32;

/// The least bytes of a piece without a data ring: a frame of the most bytes has 16 of them. Own to this project.
pub const MIN_PIECE: u32 = 576;

/// The least bytes of a piece with a data ring. Own to this project.
pub const MIN_PIECE_WITH_DATA: u32 = 640;

/// The most bytes of a piece: the room of a transmit buffer. Own to this project.
pub const MAX_PIECE: u32 = 4_096;

/// The most BODY descriptors behind each HEAD of ring 1. Own to this project.
pub const MAX_BODIES: u32 = 2;
