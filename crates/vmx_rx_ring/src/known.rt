//! What a seat of a receive queue's table knows, and the rule of the table.
ghost use Rattle.std.specs.Prelude.{◌≡◌, ◌≤◌, vec_len};
ghost use Rattle.vmx_layout.specs.declared.addresses.TheConstants.{DATA_ENTRY_SIZE};
ghost use Rattle.vmx_ends.specs.declared.limits.TheConstants.{BODY_SIZE};

use crate::words::shown_generation;
use atomic_table::{Shared, Table, TableRule};
use std::alloc::Global;
use std::collections::LinkedList;
use std::marker::PhantomData;
use vmx_ends::{Delivery, RxMade, RxShape};

/// The buffer of a descriptor, 2,048 bytes of a HEAD and 4,096 of a BODY, and the descriptor's entry in the data ring. They
/// are never given away.
#[derive(Drop)]
pub struct Buffer {
    pub bytes: Vec<u8, Global>,
    pub entry: Vec<u8, Global>,
    pub ghost room: { vec_len bytes ≤ BODY_SIZE },
    pub ghost entry_room: { vec_len entry ≡ DATA_ENTRY_SIZE },
}

/// The ring, 1 or 2, and the position of a descriptor.
#[derive(Clone, Copy, Debug, PartialEq, Eq)]
pub struct Spot {
    pub ring: u32,
    pub position: u64,
}

/// A completion, and the bytes of its piece. No value of it is made.
pub struct Entry {
    /// The ring of its descriptor, 1 or 2, and the position there.
    pub ring: u32,
    pub position: u64,
    /// Its first word, and its second word without the generation.
    pub first: u64,
    pub body: u64,
    /// Its piece lies in the data ring.
    pub in_data: bool,
    pub bytes: LinkedList<u8>,
}

/// What the device's end knows. No value of it is made.
pub struct DeviceKnows {
    pub delivered: LinkedList<Delivery>,
    /// The completions of the frame that is being delivered.
    pub staged: LinkedList<Entry>,
    /// The first word of the next completion, where it is stored.
    pub opened: LinkedList<u64>,
    /// The ring and position of the descriptor whose buffer is out.
    pub filling: Option<(u32, u64)>,
    /// Its data entry is filled, not its buffer.
    pub in_data: bool,
    /// How many buffers left each supply, those of staged completions included.
    pub gone1: u64,
    pub gone2: u64,
    /// Up to where the walk has looked, and how many positions any walk has found posted.
    pub next1: u64,
    pub next2: u64,
    pub seen1: u64,
    pub seen2: u64,
    /// The position of ring 1 that the search for a head found last.
    pub head: u64,
    pub refused: LinkedList<(u32, u64, u64)>,
    pub looks: LinkedList<(u64, u64)>,
    /// The longest list of received frames that a note told; notes given and heard.
    pub heard: LinkedList<Delivery>,
    pub notes_given: u64,
    pub notes_heard: u64,
    /// The frames that the last note told, and what its end was made with.
    pub latest: LinkedList<Delivery>,
    pub latest_made: RxMade,
}

/// What the driver's end knows. No value of it is made.
pub struct DriverKnows {
    /// The frames whose first completion was found.
    pub received: LinkedList<Delivery>,
    /// How many completions are read, their descriptors being posted back.
    pub read: u64,
    /// How many descriptors of each ring are posted back.
    pub back1: u64,
    pub back2: u64,
    /// The buffer of the completion at the position `read` is out.
    pub reading: bool,
    pub looks: LinkedList<(u64, u64)>,
    /// The longest list of delivered frames that a note told; notes given and heard.
    pub heard: LinkedList<Delivery>,
    pub notes_given: u64,
    pub notes_heard: u64,
    /// The frames that the last note told, what its end was made with, and the positions that it knew as posted.
    pub latest: LinkedList<Delivery>,
    pub latest_made: RxMade,
    pub latest1: u64,
    pub latest2: u64,
}

/// What a seat knows. No value of it is made.
pub struct Known {
    /// The seat of the device's end, or of the driver's; both, where they are not apart.
    pub delivers: bool,
    pub receives: bool,
    pub made: RxMade,
    pub device: DeviceKnows,
    pub driver: DriverKnows,
    /// A note of the device's end or of the driver's that was not heard yet, and what it tells.
    pub of_device: bool,
    pub of_driver: bool,
    pub frames: LinkedList<Delivery>,
    pub told1: u64,
    pub told2: u64,
}

/// How a queue tells which completions are visible: each by its generation bit, or all by one word that counts them.
pub trait TellsVisible {
    ghost use Rattle.std.specs.Prelude.{◌≡◌, ◌*◌, ◌<◌, ◌≤◌, Bool};
    ghost use Rattle.vmx_layout.specs.declared.addresses.TheConstants.{MAX_RING_SIZE};
    ghost use Rattle.vmx_rx_ring.specs.Words.{shown_in};

    ghost counted: { Bool };

    /// Whether one word counts the visible completions.
    fn is_counted() -> bool
        ensures counted { result ≡ counted };

    /// The bit that the completion at a position shows while it is staged, in a ring of so many, of which those before
    /// `published` are visible.
    fn shown(size: u64, published: u64, position: u64) -> bool
        requires size { (0 < size) × (size ≤ 2 * MAX_RING_SIZE) }
        ensures shown { result ≡ shown_in counted size published position };
}

/// Each completion's generation bit tells whether it is visible: the form for two threads without a counting word.
pub struct ByGeneration;

impl TellsVisible for ByGeneration {
    ghost use Rattle.std.specs.Prelude.{false};

    ghost counted = { false };

    fn is_counted() -> bool {
        false
    }

    fn shown(size: u64, published: u64, position: u64) -> bool {
        shown_generation(size, published, position)
    }
}

/// The one word behind the rings counts the visible completions, and their generation bits are 0.
pub struct ByCount;

impl TellsVisible for ByCount {
    ghost use Rattle.std.specs.Prelude.{true};

    ghost counted = { true };

    fn is_counted() -> bool {
        true
    }

    fn shown(size: u64, published: u64, position: u64) -> bool {
        let (_size, _published, _position) = (size, published, position);
        false
    }
}

/// The rule: the words stand for what both ends did, and each buffer is at home or with its owner.
pub struct RxWords<C> {
    marker: PhantomData<C>,
}

/// The words and slots of a queue, as both ends step over them.
pub type SharedWords<C> = Shared<Buffer, Known, RxShape, RxWords<C>>;

/// The table of a queue.
pub type Shelf<C> = Table<Buffer, Known, RxShape, RxWords<C>, Global>;

impl<C: TellsVisible> TableRule<Buffer, Known, RxShape> for RxWords<C> {
    ghost use Rattle.vmx_rx_ring.specs.Rule.{Queue};
    ghost use Rattle.vmx_rx_ring.specs.Seats.{newcomer};

    ghost holds = { λ _. Queue C.counted };

    ghost first = { newcomer };
}
