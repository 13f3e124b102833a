//! Completed frames in one word.
ghost use Rattle.std.specs.Prelude.{◌≡◌, ◌<◌, ◌≤◌, ◌+◌, ◌*◌};

use vmx_tx_ring::TellsCompletions;

/// The one word behind the descriptors is the number of completed frames.
pub struct InCount;

impl TellsCompletions for InCount {
    ghost use Rattle.vmx_tx_counted.specs.Counting.{Counted, count_words};

    ghost told = { Counted };

    ghost count = { count_words };

    fn words(size: u32) -> usize {
        let _size = size;
        1
    }

    ghost use Rattle.vmx_tx_counted.specs.CountingLaws.{counted_stable, counted_begins};

    ghost stable = { counted_stable };

    ghost begins = { counted_begins };
}
