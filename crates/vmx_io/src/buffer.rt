//! Bytes with room for a whole frame, so that filling them takes no memory.
ghost use Rattle.std.specs.Prelude.{◌≡◌, [], ◌≤◌, length, vec_capacity, IfOk};

use std::alloc::{AllocError, Global};
use std::marker::Model;

/// The fewest bytes of a frame: an Ethernet header, two addresses of 6 bytes and the type (IEEE 802.3).
pub const MIN_FRAME: usize = 14;

/// The most bytes of a frame: an Ethernet header of 14, two VLAN tags of 4 (IEEE 802.1Q), and 9,000 of the largest MTU.
pub const MAX_FRAME: usize = 9_022;

/// The bytes of at most one frame. Room for `MAX_FRAME` is kept whatever they are.
#[derive(Debug, Drop)]
pub struct Buffer {
    bytes: Vec<u8>,
}

impl Model for Buffer {
    ghost use Rattle.std.specs.Prelude.{List, ℕ, ◌≤◌, vec_capacity};
    ghost use Rattle.vmx_io.specs.declared.buffer.TheConstants.{MAX_FRAME};

    ghost Value = { List ℕ };

    ghost view = { λ buffer. buffer.bytes.items };

    ghost invariant = { λ buffer. MAX_FRAME ≤ vec_capacity buffer.bytes };
}

impl Buffer {
    /// No bytes, and room for a frame.
    pub fn new(alloc: Global) -> Result<Buffer, AllocError>
        ensures empty { IfOk result (λ buffer. buffer ≡ []) }
    {
        let bytes = Vec::with_capacity(alloc, MAX_FRAME)?;
        Ok(Buffer { bytes })
    }

    /// The bytes of a vector that has the room. It takes no memory.
    pub fn of(bytes: Vec<u8>) -> Buffer
        requires room { MAX_FRAME ≤ vec_capacity bytes }
        ensures bytes { result ≡ bytes.items }
    {
        Buffer { bytes }
    }

    /// Holds this frame and nothing else. It takes no memory.
    pub fn copy_of(&mut self, frame: &[u8])
        requires fits { length frame.now ≤ MAX_FRAME }
        ensures bytes { self.new ≡ frame.now }
    {
        self.bytes.clear();
        match self.bytes.extend_from_slice(frame) {
            Ok(()) => {}
            Err(_) => unreachable!(),
        }
    }

    /// Holds nothing. It takes no memory.
    pub fn clear(&mut self)
        ensures empty { self.new ≡ [] }
    {
        self.bytes.clear();
    }

    pub fn as_slice(&self) -> &[u8]
        ensures bytes { result.now ≡ self.now }
    {
        self.bytes.as_slice()
    }

    pub fn len(&self) -> usize
        ensures len { result ≡ length self.now }
    {
        self.bytes.len()
    }

    /// The bytes with their room.
    pub fn into_room(self) -> Vec<u8>
        ensures bytes { result.items ≡ self }
        ensures room { MAX_FRAME ≤ vec_capacity result }
    {
        let Buffer { bytes } = self;
        bytes
    }

    /// The bytes, with the room that they do not need given back where the allocator can.
    pub fn into_vec(self) -> Vec<u8>
        ensures bytes { result.items ≡ self }
    {
        let Buffer { mut bytes } = self;
        bytes.shrink_to_fit();
        bytes
    }
}
