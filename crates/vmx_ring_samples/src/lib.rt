//! The words and buffers of both queues after a fixed list of calls, as bytes: for programs of the outside, which hold them
//! against the header's layouts or hand them to a device. How they lie is told in `docs/FORMATS.md`.
#![tactic(auto)]

mod frames;
mod rx;
mod section;
mod tx;

ghost use Rattle.std.specs.Prelude.{IfOk};
ghost use mathlib.Core.List.{IsPrefix};
ghost use Rattle.vmx_ring_samples.specs.Rings.{AddsRings};

use std::alloc::{AllocError, Global};

/// Puts four sections behind the bytes that are there: the transmit queue with a data ring and without, and so the receive
/// queue. It tells whether each call of the list found what it looks for, which it does.
///
/// # Errors
///
/// Want of memory: some sections and the front of one more may stand behind the bytes then.
pub fn put_rings(alloc: Global, into: &mut Vec<u8>) -> Result<bool, AllocError>
    ensures behind { IsPrefix into.old.items into.new.items }
    ensures prints { IfOk result (λ done. AddsRings done into.old.items into.new.items) }
{
    let with_data = tx::put(alloc, true, into)?;
    let without = tx::put(alloc, false, into)?;
    let received_with_data = rx::put(alloc, true, into)?;
    let received_without = rx::put(alloc, false, into)?;
    Ok(with_data && without && received_with_data && received_without)
}

#[cfg(test)]
mod tests;
