//! What one end tells the other.
ghost use Rattle.std.specs.Prelude.{◌≡◌, [], not};

use atomic_table::Seat;
use vmx_ends::RxNote;
use vmx_rx_ring::{Buffer, Known};

/// A note of either end. It takes no memory, and is heard once.
#[derive(Drop)]
pub struct RingRxNote {
    pub(crate) seat: Seat<Buffer, Known>,
    ghost bare: { seat.me.1 ≡ [] },
    ghost side: { seat.me.0.of_device ≡ not seat.me.0.of_driver },
}

impl RxNote for RingRxNote {
    ghost use Rattle.vmx_rx_counted.specs.NoteView.{note_view};

    ghost view = { note_view };
}
