//! The words of completions.
ghost use Rattle.std.specs.Prelude.{◌≡◌, ℕ, ◌+◌, ◌-◌, ◌%◌, ◌^◌, ◌<◌, ◌≤◌, ◌∷◌, []};
ghost use Rattle.vmx_layout.specs.Bits.{bit};
ghost use Rattle.vmx_layout.specs.TxComp.{first_word};
ghost use Rattle.vmx_layout.specs.declared.addresses.TheConstants.{MAX_RING_SIZE};
ghost use Rattle.vmx_txq.specs.Completions.{completed_word};

use vmx_layout::TxComp;

/// The words of a completion, by the index of its frame's last descriptor.
pub(crate) fn completion_words(index: u16, generation: bool) -> [u64; 2]
    requires index { index < MAX_RING_SIZE }
    ensures words { result ≡ first_word index ∷ completed_word (bit generation) ∷ [] }
{
    let completion = TxComp {
        txd_idx: index,
        kind: 0,
        generation,
    };
    completion.to_words()
}

/// How many descriptors lie from the position that is given back up to the one with this index, which is less than a
/// lap on.
pub(crate) fn count_to(returned: u64, last: u64, size: u32) -> u32
    requires size { (0 < size) × (size ≤ MAX_RING_SIZE) }
    requires last { last < size }
    requires small { returned < 2 ^ 63 }
    ensures count { (k : ℕ) → 1 ≤ k → k ≤ size → last ≡ (returned + k - 1) % size → result ≡ k }
    ensures few { result ≤ size }
{
    let size = size as u64;
    ((last + (size - returned % size)) % size) as u32 + 1
}
