//! The device's end.
ghost use Rattle.std.specs.Prelude.{◌≡◌, ◌^◌, ◌<◌, length, true, false};
ghost use Rattle.vmx_ends.specs.Frames.{IsFrame};
ghost use Rattle.vmx_ends.specs.Receive.{consumed1, consumed2};
ghost use Rattle.vmx_ends.specs.ReceiveClauses.{Delivers, GrowsDelivered, NotesDevice, DeviceHears};
ghost use Rattle.vmx_rx_ends.specs.Views.{HasWords};

use crate::notes::RingRxNote;
use vmx_ends::{Deliver, RxDevice, RxMeta};
use vmx_rx_ends::RxFiller;
use vmx_rx_ring::ByCount;

/// The end that delivers frames.
#[derive(Drop)]
pub struct RingRxDevice {
    pub(crate) filler: RxFiller<ByCount>,
    ghost words: { HasWords true filler.seat.table_id filler.shape },
}

impl RxDevice for RingRxDevice {
    ghost use Rattle.vmx_rx_counted.specs.Ends.{device_view};

    type Note = RingRxNote;

    ghost view = { device_view };

    fn deliver(&mut self, frame: &[u8], meta: &RxMeta) -> Deliver {
        self.filler.deliver(frame, meta)
    }

    fn note(&mut self) -> RingRxNote {
        RingRxNote {
            seat: self.filler.note(),
        }
    }

    fn hear(&mut self, note: RingRxNote) {
        let RingRxNote { seat } = note;
        self.filler.hear(seat);
    }
}
