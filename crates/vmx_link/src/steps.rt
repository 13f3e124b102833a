//! What each step of a link tells, and how seats part and meet. These types stand in proofs alone: none has a value.
use crate::known::Known;
use atomic_table::{Join, Play, Split};
use vmx_ends::Packet;

/// The sender's seat and the receiver's come apart.
pub(crate) struct Apart;

impl Split<Known> for Apart {
    ghost use Rattle.vmx_link.specs.Seats.{sender_part, receiver_part};

    ghost left = { sender_part };

    ghost right = { receiver_part };
}

/// They come together.
pub(crate) struct Together;

impl Join<Known> for Together {
    ghost use Rattle.vmx_link.specs.Seats.{together, nobody};

    ghost both = { together };

    ghost spent = { nobody };
}

/// The sender gives a note.
pub(crate) struct SenderNote;

impl Split<Known> for SenderNote {
    ghost use Rattle.vmx_link.specs.Seats.{sender_told, sender_note};

    ghost left = { sender_told };

    ghost right = { sender_note };
}

/// The receiver gives a note.
pub(crate) struct ReceiverNote;

impl Split<Known> for ReceiverNote {
    ghost use Rattle.vmx_link.specs.Seats.{receiver_told, receiver_note};

    ghost left = { receiver_told };

    ghost right = { receiver_note };
}

/// The receiver hears a note of the sender.
pub(crate) struct HearsSender;

impl Join<Known> for HearsSender {
    ghost use Rattle.vmx_link.specs.Seats.{hears_sender, nobody};

    ghost both = { hears_sender };

    ghost spent = { nobody };
}

/// The sender hears a note of the receiver.
pub(crate) struct HearsReceiver;

impl Join<Known> for HearsReceiver {
    ghost use Rattle.vmx_link.specs.Seats.{hears_receiver, nobody};

    ghost both = { hears_receiver };

    ghost spent = { nobody };
}

/// The sender looks at the word of its next position.
pub(crate) struct OutLoad;

impl Play<Option<Packet>, Known> for OutLoad {
    ghost use Rattle.vmx_link.specs.Tells.{out_loaded};

    ghost then = { out_loaded };
}

/// The sender says that the packet is in.
pub(crate) struct OutStore;

impl Play<Option<Packet>, Known> for OutStore {
    ghost use Rattle.vmx_link.specs.Tells.{out_stored};

    ghost then = { out_stored };
}

/// The receiver looks at the word of its next position.
pub(crate) struct InLoad;

impl Play<Option<Packet>, Known> for InLoad {
    ghost use Rattle.vmx_link.specs.Tells.{in_loaded};

    ghost then = { in_loaded };
}

/// The receiver says that the entry is free.
pub(crate) struct InStore;

impl Play<Option<Packet>, Known> for InStore {
    ghost use Rattle.vmx_link.specs.Tells.{in_stored};

    ghost then = { in_stored };
}

/// A seat with both ends' parts learns what stands between their lists.
pub(crate) struct Met;

impl Play<Option<Packet>, Known> for Met {
    ghost use Rattle.vmx_link.specs.Tells.{met};

    ghost then = { met };
}

/// The sender learns what stands between its list and the lists that it heard of.
pub(crate) struct OutHeard;

impl Play<Option<Packet>, Known> for OutHeard {
    ghost use Rattle.vmx_link.specs.Tells.{out_heard};

    ghost then = { out_heard };
}

/// The receiver learns the same.
pub(crate) struct InHeard;

impl Play<Option<Packet>, Known> for InHeard {
    ghost use Rattle.vmx_link.specs.Tells.{in_heard};

    ghost then = { in_heard };
}
