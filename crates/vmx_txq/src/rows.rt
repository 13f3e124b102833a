//! Completions in a ring of their own.
ghost use Rattle.std.specs.Prelude.{◌≡◌, ◌<◌, ◌≤◌, ◌+◌, ◌*◌};

use vmx_tx_ring::TellsCompletions;

/// Completed frames are told by words with generation bits: a ring of as many completions as descriptors.
pub struct InRows;

impl TellsCompletions for InRows {
    ghost use Rattle.vmx_txq.specs.Completions.{Rows, row_words};

    ghost told = { Rows };

    ghost count = { row_words };

    fn words(size: u32) -> usize {
        size as usize * 2
    }

    ghost use Rattle.vmx_txq.specs.CompletionLaws.{rows_stable, rows_begin};

    ghost stable = { rows_stable };

    ghost begins = { rows_begin };
}
