//! How a queue's words and buffers lie in the bytes.
ghost use Rattle.std.specs.Prelude.{◌≡◌, ◌+◌, ◌*◌, ◌++◌, length, vec_len, OnOk};
ghost use mathlib.Core.List.{IsPrefix};
ghost use Rattle.vmx_ring_samples.specs.Sections.{section};

use std::alloc::AllocError;

/// Puts a section behind the bytes that are there: eight numbers of 32 bits; how many words and how many bytes follow, and the
/// words, of 64 bits each; and the buffers. The lowest byte of a number comes first.
///
/// # Errors
///
/// Want of memory: the front of a section may stand behind the bytes then.
pub(crate) fn put(
    head: &[u32; 8],
    words: &[u64],
    buffers: &[u8],
    into: &mut Vec<u8>,
) -> Result<(), AllocError>
    ensures behind { IsPrefix into.old.items into.new.items }
    ensures prints { OnOk result (into.new.items ≡ into.old.items ++ section head.now words.now buffers.now) }
    ensures size { OnOk result (vec_len into.new ≡ vec_len into.old + 48 + 8 * length words.now + length buffers.now) }
{
    for number in head {
        into.extend_from_slice(&number.to_le_bytes())?;
    }
    into.extend_from_slice(&(words.len() as u64).to_le_bytes())?;
    into.extend_from_slice(&(buffers.len() as u64).to_le_bytes())?;
    for word in words {
        into.extend_from_slice(&word.to_le_bytes())?;
    }
    into.extend_from_slice(buffers)
}
