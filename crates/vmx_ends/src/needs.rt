//! How many descriptors a frame needs.
ghost use Rattle.std.specs.Prelude.{◌≡◌, ◌+◌, ◌-◌, ◌/◌, ◌≤◌};
ghost use Rattle.vmx_ends.specs.Transmit.{need};
ghost use Rattle.vmx_ends.specs.Queues.{least_piece};
ghost use Rattle.vmx_io.specs.declared.buffer.TheConstants.{MAX_FRAME};
ghost use Rattle.vmx_ends.specs.declared.limits.TheConstants.{MIN_PIECE, MAX_PIECE, MAX_DESCRIPTORS};

use crate::made::TxMade;
use vmx_layout::DATA_ENTRY_SIZE;

/// How many descriptors a frame of so many bytes, at most 9,022, needs: one for each piece, at most 16.
#[tactic(auto, using(crate::specs::TransmitCounts::need_few))]
pub fn need_of(made: &TxMade, bytes: usize) -> u32
    requires piece { (least_piece made.now.with_data ≤ made.now.piece) × (made.now.piece ≤ MAX_PIECE) }
    requires bytes { bytes ≤ MAX_FRAME }
    ensures need { result ≡ need made.now bytes }
    ensures few { result ≤ MAX_DESCRIPTORS }
{
    let made = *made;
    if made.with_data {
        1 + begun_in(bytes.saturating_sub(DATA_ENTRY_SIZE as usize), made.piece)
    } else {
        begun_in(bytes, made.piece)
    }
}

/// How many pieces of this size so many bytes have.
fn begun_in(bytes: usize, piece: u32) -> u32
    requires piece { (MIN_PIECE ≤ piece) × (piece ≤ MAX_PIECE) }
    requires bytes { bytes ≤ MAX_FRAME }
    ensures begun { result ≡ (bytes + (piece - 1)) / piece }
    ensures few { result ≤ MAX_DESCRIPTORS }
{
    (bytes as u32 + (piece - 1)) / piece
}
