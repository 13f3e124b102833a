//! The rule of a transmit queue's table, what its seats know, and what its slots hold.
ghost use Rattle.std.specs.Prelude.{◌≡◌, ◌≤◌, vec_len};
ghost use Rattle.vmx_io.specs.declared.buffer.TheConstants.{MAX_FRAME};

use atomic_table::TableRule;
use std::alloc::Global;
use std::collections::LinkedList;
use vmx_ends::{MAX_FRAME, Sent, Taken, TxMade, TxMark};

/// A frame on its way with its mark, in a buffer for the longest frame that is never given back.
#[derive(Drop)]
pub struct TxParcel {
    pub bytes: Vec<u8, Global>,
    pub len: usize,
    pub mark: TxMark,
    ghost room: { vec_len bytes ≡ MAX_FRAME },
    ghost within: { len ≤ MAX_FRAME },
}

/// What a seat knows. No value of it is made.
pub struct TxLog {
    /// The seat of the driver's end, or of the device's; both, where they are not apart.
    pub sends: bool,
    pub takes: bool,
    /// A slot is out with the driver, to be filled, or with the device, to be emptied.
    pub filling: bool,
    pub emptying: bool,
    pub made: TxMade,
    pub sent: LinkedList<Sent>,
    pub reaped: u64,
    pub taken: LinkedList<Taken>,
    pub completed: u64,
    /// Looks, by position and word: the driver's for completions, the device's for descriptors.
    pub reap_looks: LinkedList<(u64, u64)>,
    pub take_looks: LinkedList<(u64, u64)>,
    /// What notes told of the other end.
    pub heard_sent: LinkedList<Sent>,
    pub heard_completed: u64,
    /// What the last note told. In a note, what it tells.
    pub latest: LinkedList<Sent>,
    pub latest_done: u64,
    pub latest_made: TxMade,
    /// A note of the driver's end or of the device's, which was not heard yet.
    pub tells_sent: bool,
    pub tells_taken: bool,
    /// How many notes the two ends gave and heard.
    pub driver_given: u64,
    pub driver_heard: u64,
    pub device_given: u64,
    pub device_heard: u64,
}

/// The rule: a state of the transmit core.
pub struct TxFrames;

impl TableRule<TxParcel, TxLog, TxMade> for TxFrames {
    ghost use Rattle.vmx_lists.specs.TxRing.{Queue, newcomer};

    ghost holds = { λ _. Queue };

    ghost first = { newcomer };
}
