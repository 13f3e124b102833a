//! The rule of a receive queue's table, what its seats know, and what its slots hold.
ghost use Rattle.std.specs.Prelude.{◌≡◌, ◌≤◌, ◌+◌, vec_len};
ghost use Rattle.vmx_ends.specs.declared.limits.TheConstants.{MAX_DESCRIPTORS};
ghost use Rattle.vmx_io.specs.declared.buffer.TheConstants.{MAX_FRAME};

use atomic_table::TableRule;
use std::alloc::Global;
use std::collections::LinkedList;
use vmx_ends::{Delivery, MAX_FRAME, RxMade, RxMeta, RxShape};

/// A frame on its way with its meta, in a buffer for the longest frame that is never given back.
#[derive(Drop)]
pub struct RxParcel {
    pub bytes: Vec<u8, Global>,
    pub len: usize,
    pub meta: RxMeta,
    /// Bodies that were passed over before the frame's head, and its pieces.
    pub passed: u64,
    pub pieces: u64,
    ghost room: { vec_len bytes ≡ MAX_FRAME },
    ghost within: { len ≤ MAX_FRAME },
    ghost few: { passed + pieces ≤ MAX_DESCRIPTORS },
}

/// What a seat knows. No value of it is made.
pub struct RxLog {
    /// The seat of the device's end, or of the driver's; both, where they are not apart.
    pub delivers: bool,
    pub receives: bool,
    /// A slot is out with the seat.
    pub busy: bool,
    pub made: RxMade,
    pub delivered: LinkedList<Delivery>,
    pub received: LinkedList<Delivery>,
    /// Looks: those that refused a frame (ring, position, word), the device's at ring 1 for further pieces, the driver's.
    pub refused: LinkedList<(u32, u64, u64)>,
    pub looks: LinkedList<(u64, u64)>,
    pub missed: LinkedList<(u64, u64)>,
    /// How many frames the device's loads found received.
    pub seen: u64,
    /// What was heard of the other end. In a note, what it tells.
    pub heard_delivered: LinkedList<Delivery>,
    pub heard_received: LinkedList<Delivery>,
    /// How many positions of each supply the device knows as posted, in its note and where that was heard last.
    pub told1: u64,
    pub told2: u64,
    /// The frames that the last note told, and what its end was made with.
    pub latest: LinkedList<Delivery>,
    pub latest_made: RxMade,
    /// A note of the device's end or of the driver's, which was not heard yet.
    pub tells_delivered: bool,
    pub tells_received: bool,
    /// How many notes the two ends gave and heard.
    pub device_given: u64,
    pub device_heard: u64,
    pub driver_given: u64,
    pub driver_heard: u64,
}

/// The rule: a state of the receive core.
pub struct RxFrames;

impl TableRule<RxParcel, RxLog, RxShape> for RxFrames {
    ghost use Rattle.vmx_lists.specs.RxRing.{Queue, newcomer};

    ghost holds = { λ _. Queue };

    ghost first = { newcomer };
}
