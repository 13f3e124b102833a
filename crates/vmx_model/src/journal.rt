//! What a device did, in its order, and what became of each copy of a frame. Own to this project.

use vmx_ends::Tag;
use vmx_filters::Rule;
use vmx_io::{Bytes, Roomy};
use vmx_shared_area::Setup;

/// What became of a copy.
#[derive(Clone, Copy, Debug, PartialEq, Eq)]
pub enum Fate {
    /// The target's device delivered it, and the driver handed it up: in this activation and from this receive queue, as its frame of
    /// this place. All three are counted from 0.
    Up {
        activation: u32,
        queue: u32,
        place: u64,
    },
    /// The link to the target was full: the look of this number at the link found it so.
    LinkFull {
        look: u64,
    },
    /// The target's device was idle.
    Inactive,
    /// The target's filter refused it.
    Filtered {
        rule: Rule,
    },
    /// A descriptor that the delivery needed was the driver's: in this ring, 1 or 2, at this position. The look of this number at the
    /// queue found it so.
    NoBuffer {
        activation: u32,
        queue: u32,
        ring: u32,
        position: u64,
        look: u64,
    },
    /// The queue of its flow was stopped.
    Stopped {
        activation: u32,
        queue: u32,
    },
    /// The frame was posted and not taken, since a scripted reset ended its activation.
    Discarded,
    /// The frame has no target.
    NoPort,
    /// Not sent: the guest was quiesced.
    Down,
    /// Not sent: the frame has fewer than 14 bytes.
    Short,
    /// Not sent: the frame has more than 18 bytes above the MTU.
    TooLong,
}

/// The way of a frame to one of its targets.
#[derive(Clone, Copy, Debug, PartialEq, Eq)]
pub enum Way {
    /// It is the link's packet of this place.
    Link { place: u64 },
    /// The link was full, as its look of this number found.
    Full { look: u64 },
}

/// What a device did.
#[derive(Clone, Copy, Debug, PartialEq, Eq)]
pub enum Entry {
    /// It answered a command. Where it is then active, the setup in force stands at the index `setup` of the journal's setups.
    Setting {
        number: u32,
        answer: u32,
        setup: Option<u32>,
    },
    /// It gave a frame that it took to a target.
    Out {
        tag: Tag,
        target: u32,
        way: Way,
    },
    /// It took a frame that has no target.
    Lost {
        tag: Tag,
    },
    /// It handled the packet of this place of the link from the port `from`.
    In {
        from: u32,
        place: u64,
        fate: Fate,
    },
}

/// All that a device did, in order, and the setups that its commands put in force.
#[derive(Drop)]
pub struct Journal {
    pub entries: Roomy<Entry>,
    pub setups: Roomy<Setup>,
}

/// A frame that a driver handed up, and where it came up.
#[derive(Drop)]
pub struct Received {
    /// The activation of the receiving guest, counted from 0.
    pub activation: u32,
    /// The receive queue.
    pub queue: u32,
    /// The number of frames that this queue handed up before in this activation.
    pub place: u64,
    pub frame: Bytes,
    /// The two bytes of the tag that was taken out.
    pub tci: Option<u16>,
}
