//! The statistics of a queue, as they stand in its descriptor.

ghost use Rattle.std.specs.Prelude.{◌≡◌, ◌<◌, ◌^◌, ℕ, length, slice_index};
ghost use Rattle.vmx_shared_area.specs.declared.offsets.TheConstants.{STATISTICS_COUNT};

use crate::offsets::STATISTICS_COUNT;

/// The side of a queue.
#[derive(Clone, Copy, Debug, PartialEq, Eq)]
pub enum Side {
    /// The transmit side.
    Tx,
    /// The receive side.
    Rx,
}

/// Ten counts of a queue, in the order of its descriptor.
///
/// | Position | Transmit | Receive |
/// |---|---|---|
/// | 0, 1 | TSO packets, TSO bytes | LRO packets, LRO bytes |
/// | 2, 3 | unicast packets, unicast bytes | the same |
/// | 4, 5 | multicast packets, multicast bytes | the same |
/// | 6, 7 | broadcast packets, broadcast bytes | the same |
/// | 8 | errors | frames for which no buffer was there |
/// | 9 | discards | errors |
#[derive(Clone, Copy, Debug, PartialEq, Eq)]
pub struct Stats {
    /// The counts.
    pub counts: [u64; STATISTICS_COUNT],
    ghost counts_length: { length counts ≡ STATISTICS_COUNT },
    ghost counts_fit: { (i : ℕ) → slice_index counts i < 2 ^ 64 },
}
