//! The bytes that driver and device share. There are always 8,192 of them, and anybody may write any byte: what they say is checked
//! each time they are read.

ghost use Rattle.std.specs.Prelude.{◌≡◌, ℕ, List, length, replicate, IfOk};

use crate::offsets::IMAGE_SIZE;
use std::alloc::{AllocError, Global};
use std::marker::Model;

/// An image of 8,192 bytes.
#[derive(Drop)]
pub struct Image {
    bytes: Vec<u8>,
}

impl Model for Image {
    ghost use Rattle.std.specs.Prelude.{◌≡◌, ℕ, List, length};
    ghost use Rattle.vmx_shared_area.specs.declared.offsets.TheConstants.{IMAGE_SIZE};

    ghost Value = { List ℕ };

    ghost view = { λ i. i.bytes.items };

    ghost invariant = { λ i. length i.bytes.items ≡ IMAGE_SIZE };
}

impl Image {
    ghost use Rattle.std.specs.Borrow.{Lends, sem, Array, u8 as byte};
    ghost use Rattle.vmx_shared_area.specs.Image.{with_bytes};
    ghost use Rattle.vmx_shared_area.specs.contracts.image.Image.{the_row};

    /// An image of zeros; `AllocError` only for want of memory.
    pub fn new(alloc: Global) -> Result<Image, AllocError>
        ensures zeros { IfOk result (λ i. i ≡ replicate IMAGE_SIZE 0) }
    {
        Ok(Image {
            bytes: vec![in alloc; 0; IMAGE_SIZE]?,
        })
    }

    /// The bytes, to read.
    pub fn bytes(&self) -> &[u8]
        ensures value { result.now ≡ self.now }
        ensures len { length result.now ≡ IMAGE_SIZE }
    {
        self.bytes.as_slice()
    }

    /// The bytes, to write.
    pub fn bytes_mut(&mut self) -> &mut [u8]
        ensures* writes_back { sem 𝓛 (Lends the_row (Array byte 0) self.entry result (with_bytes self.old)) }
        ensures value { result.now ≡ self.old }
        ensures len { length result.now ≡ IMAGE_SIZE }
    {
        self.bytes.as_mut_slice()
    }
}
