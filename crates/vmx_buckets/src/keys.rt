//! Lists by key.
ghost use Rattle.std.specs.Prelude.{◌≡◌, ◌<◌, ◌++◌, ◌∷◌, ℕ, [], length, slice_set, IfOk, OnOk};
ghost use Rattle.vmx_layout.specs.declared.register.TheConstants.{MAX_QUEUES};
ghost use Rattle.vmx_buckets.specs.Buckets.{key, at_key};

use std::alloc::{AllocError, Global};
use vmx_io::List;
use vmx_layout::MAX_QUEUES;

/// The keys of one activation: one for each transmit queue that a guest can have.
pub const QUEUES: usize = MAX_QUEUES as usize;

/// The key of a queue, below 8, of an activation.
pub fn key_of(activation: u32, queue: u32) -> usize
    requires queue { queue < MAX_QUEUES }
    ensures key { result ≡ key activation queue }
{
    activation as usize * QUEUES + queue as usize
}

/// So many lists without an item.
#[tactic(auto, using(crate::proofs::Adding::all_empty))]
pub(crate) fn empty_lists<T: Drop>(alloc: Global, count: usize) -> Result<List<List<T>>, AllocError>
    ensures long { IfOk result (λ lists. length lists ≡ count) }
    ensures empty { IfOk result (λ lists. (k : ℕ) → at_key lists k ≡ []) }
{
    let mut lists = List::new(alloc);
    for _ in 0..count {
        lists.push(List::new(alloc))?;
    }
    Ok(lists)
}

/// Puts an item behind the others of a key's list.
pub(crate) fn push_at<T: Drop>(
    lists: &mut List<List<T>>,
    key: usize,
    item: T,
) -> Result<(), AllocError>
    requires within { key < length lists.old }
    ensures pushed { OnOk result (lists.new ≡ slice_set lists.old key (at_key lists.old key ++ item ∷ [])) }
{
    lists.at_mut(key).push(item)?;
    Ok(())
}
