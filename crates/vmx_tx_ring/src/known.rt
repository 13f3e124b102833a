//! What the two ends of a transmit ring know, what its slots hold, and the rule of its table.
ghost use Rattle.std.specs.Prelude.{◌≡◌, vec_len};
ghost use Rattle.vmx_ends.specs.declared.limits.TheConstants.{MAX_PIECE};
ghost use Rattle.vmx_layout.specs.declared.addresses.TheConstants.{DATA_ENTRY_SIZE};

use atomic_table::TableRule;
use std::alloc::Global;
use std::collections::LinkedList;
use std::marker::PhantomData;
use vmx_ends::{Sent, Taken, TxMade};

/// A buffer of 4,096 bytes with its data entry of 128 bytes. Neither is ever given back.
#[derive(Drop)]
pub struct TxBuffer {
    pub bytes: Vec<u8, Global>,
    pub entry: Vec<u8, Global>,
    pub ghost room: { vec_len bytes ≡ MAX_PIECE },
    pub ghost entry_room: { vec_len entry ≡ DATA_ENTRY_SIZE },
}

/// The numbers of a frame's mark, as the second word of its first descriptor has them. No value of it is made.
pub struct MarkNumbers {
    pub tci: Option<u16>,
    pub om: u32,
    pub hlen: u32,
    pub msscof: u32,
}

/// A piece of a frame, which one descriptor tells of. No value of it is made.
pub struct TxPiece {
    pub bytes: LinkedList<u8>,
    /// It ends its frame.
    pub last: bool,
    /// It lies in the data ring, and its buffer stays unused.
    pub in_data: bool,
    /// Those of the frame's mark in its first piece, else none.
    pub numbers: MarkNumbers,
}

/// Where the driver's end stands in the ring. No value of it is made.
pub struct TxDriverAt {
    /// The frames that are published, and the pieces of the next one that are staged.
    pub sent: LinkedList<Sent>,
    pub staged: LinkedList<TxPiece>,
    /// The first word of the next descriptor is stored, and its buffer is out with the driver.
    pub opened: bool,
    /// Frames that are reaped; and whether one more was found to be completed.
    pub reaped: u64,
    pub checking: bool,
}

/// Where the device's end stands in the ring. No value of it is made.
pub struct TxDeviceAt {
    /// The frames whose first descriptor was found; pieces read; those of the last frame still ahead.
    pub taken: LinkedList<Taken>,
    pub read: u64,
    pub ahead: LinkedList<TxPiece>,
    /// The buffer of the piece behind those read is out with the device, and that piece.
    pub emptying: bool,
    pub at_hand: TxPiece,
    /// Frames that are completed; and whether the completion of one more is begun.
    pub completed: u64,
    pub closing: bool,
}

/// What the driver's end knows. No value of it is made.
pub struct TxDriverKnows {
    pub at: TxDriverAt,
    /// Looks for completions that found none, by position and word.
    pub looks: LinkedList<(u64, u64)>,
    /// How many frames notes told as completed.
    pub heard: u64,
    pub notes_given: u64,
    pub notes_heard: u64,
}

/// What the device's end knows. No value of it is made.
pub struct TxDeviceKnows {
    pub at: TxDeviceAt,
    /// Looks for descriptors that found none, by position and word.
    pub looks: LinkedList<(u64, u64)>,
    /// The frames that notes told as sent.
    pub heard: LinkedList<Sent>,
    pub notes_given: u64,
    pub notes_heard: u64,
}

/// What a note tells: the queue, frames of its end, and how many are done with. No value of it is made.
pub struct TxNews {
    pub made: TxMade,
    pub frames: LinkedList<Sent>,
    pub done: u64,
}

/// What a seat knows: that of the driver's end, of the device's, of both where they are not apart, or of a note. No value
/// of it is made.
pub struct TxKnown {
    /// It is the seat of the driver's end, and of the device's.
    pub drives: bool,
    pub serves: bool,
    pub made: TxMade,
    pub driver: TxDriverKnows,
    pub device: TxDeviceKnows,
    /// What the last note told; in a note, what it tells.
    pub news: TxNews,
    /// It is a note of the driver's end, or of the device's, which was not heard yet.
    pub of_driver: bool,
    pub of_device: bool,
}

/// How the words behind the descriptors tell which frames are completed.
pub trait TellsCompletions {
    ghost use Rattle.std.specs.Prelude.{ℕ, ◌<◌, ◌≤◌, ◌+◌, ◌*◌};
    ghost use Rattle.vmx_layout.specs.declared.addresses.TheConstants.{MAX_RING_SIZE};
    ghost use Rattle.vmx_tx_ring.specs.Rule.{Telling, IsStable, Begins};

    ghost told: { Telling };

    // how many words these are, by the ring's size
    ghost count: { ℕ → ℕ };

    /// How many words these are, by the ring's size, at most 4,096.
    fn words(size: u32) -> usize
        requires size { (0 < size) × (size ≤ MAX_RING_SIZE) }
        ensures count { result ≡ count size }
        ensures some { 1 ≤ result }
        ensures few { result ≤ 2 * size + 1 };

    ghost stable: { IsStable told };

    ghost begins: { Begins told count };
}

/// The rule of a transmit ring's table: its words and slots stand for what the two ends know.
pub struct TxRule<C> {
    marker: PhantomData<C>,
}

impl<C: TellsCompletions> TableRule<TxBuffer, TxKnown, TxMade> for TxRule<C> {
    ghost use Rattle.vmx_tx_ring.specs.Rule.{Queue};
    ghost use Rattle.vmx_tx_ring.specs.Seats.{newcomer};

    ghost holds = { λ _. Queue C.told };

    ghost first = { newcomer };
}
