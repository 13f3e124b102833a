//! Frames for the queues: 60 to 9,014 bytes, cut from one text.
ghost use Rattle.std.specs.Prelude.{◌≡◌, ◌≤◌, length, vec_len, vec_capacity, IfOk};
ghost use Rattle.vmx_io.specs.declared.buffer.TheConstants.{MAX_FRAME};
ghost use Rattle.vmx_ends.specs.Frames.{IsFrame};

use std::alloc::{AllocError, Global};
use vmx_ends::MAX_FRAME;

/// The least bytes of a frame.
const LEAST: usize = 60;

/// How many lengths there are: 60 to 9,014 bytes.
const LENGTHS: u64 = 8_955;

/// How many places of the text a frame begins at; the text's bytes go round with as many values.
const STARTS: u64 = 251;

/// The bytes of the text: the last start, and a frame of 9,014 bytes from there.
const TEXT: usize = 9_264;

/// The bytes that frames are cut from.
pub fn text(alloc: Global) -> Result<Vec<u8>, AllocError>
    ensures text { IfOk result (λ v. length v.items ≡ TEXT) }
{
    let mut text = Vec::from_elem(alloc, 0u8, TEXT)?;
    for place in 0..TEXT {
        text[place] = (place as u64 % STARTS) as u8;
    }
    Ok(text)
}

/// The frame with this number.
pub fn frame_of(text: &[u8], number: u64) -> &[u8]
    requires text { length text.now ≡ TEXT }
    ensures frame { IsFrame result.now }
{
    let start = (number % STARTS) as usize;
    let length = LEAST + (number % LENGTHS) as usize;
    &text[start..start + length]
}

/// An empty buffer with room for a frame.
pub fn roomy(alloc: Global) -> Result<Vec<u8>, AllocError>
    ensures empty { IfOk result (λ v. vec_len v ≡ 0) }
    ensures room { IfOk result (λ v. MAX_FRAME ≤ vec_capacity v) }
{
    let mut into = Vec::new(alloc);
    into.reserve(MAX_FRAME)?;
    Ok(into)
}
