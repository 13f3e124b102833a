//! What the calls of queue ends answer. Each answer but the first of its call has its cause in the call's contract.
use crate::{RxMeta, TxMark};
use vmx_layout::FieldFault;

/// A driver posts a frame.
#[derive(Clone, Copy, Debug, PartialEq, Eq)]
pub enum Post {
    /// It is the frame of this place of the queue, counted from 0.
    Done { place: u64 },
    /// `used` descriptors are not reaped, and the frame needs `need` more: together above the ring's size.
    Full { used: u32, need: u32 },
}

/// A driver takes back what a completed frame used.
#[derive(Clone, Copy, Debug, PartialEq, Eq)]
pub enum Reap {
    /// The frame of this place gave back so many descriptors.
    Done { place: u64, descriptors: u32 },
    /// The next completion is not there: a load of this call found this second word.
    NotYet { word: u64 },
}

/// A device takes the next frame that was posted.
#[derive(Clone, Copy, Debug, PartialEq, Eq)]
pub enum Take {
    Frame { place: u64, mark: TxMark },
    /// No further frame is there: a load of this call found this second word.
    Empty { word: u64 },
    /// The given words of a descriptor show a fault. Only ends over given words answer so.
    Bad { words: [u64; 2], fault: EndFault },
}

/// A device delivers a frame.
#[derive(Clone, Copy, Debug, PartialEq, Eq)]
pub enum Deliver {
    /// It is the frame of this place of the queue, counted from 0.
    Done {
        place: u64,
    },
    /// The descriptor that the frame needed is the driver's: a load of this call found this second word there. It is
    /// the refused look of this number, counted from 0.
    NoBuffer {
        ring: u32,
        position: u64,
        word: u64,
        look: u64,
    },
    /// The given words of a descriptor show a fault. Only ends over given words answer so.
    Bad {
        words: [u64; 2],
        fault: EndFault,
    },
}

/// A driver receives the next frame.
#[derive(Clone, Copy, Debug, PartialEq, Eq)]
pub enum Receive {
    /// The frame of this place; so many descriptors are posted back, those passed over included.
    Frame {
        place: u64,
        meta: RxMeta,
        descriptors: u32,
    },
    /// No further frame is there: a load of this call found this second word.
    NotYet {
        word: u64,
    },
}

/// Why given words are no frame or no buffer. The order within a descriptor is Field, Address, Offload; Chain and Size
/// are found after all.
#[derive(Clone, Copy, Debug, PartialEq, Eq)]
pub enum EndFault {
    /// A bit without a name is set.
    Field { fault: FieldFault },
    /// The offload mode 1, which no descriptor may have.
    Offload { om: u32 },
    /// A sixteenth descriptor without end of packet.
    Chain { descriptors: u32 },
    /// Transmit: the lengths of a frame's pieces are together below 14 or above 9,022 bytes, or above 9,018 where a tag is
    /// to be put in. Receive: the length of a HEAD's buffer is not 2,048, or of a BODY's not 4,096.
    Size { bytes: u32 },
    /// An address other than its buffer's, which `vmx_layout` tells.
    Address { found: u64 },
}
