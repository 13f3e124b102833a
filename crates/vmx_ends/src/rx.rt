//! The two ends of a receive queue.
//!
//! A device delivers frames into the buffers of two supplies. The first piece of a frame lies in a HEAD descriptor of
//! ring 1, BODY descriptors before it being passed over. Each further piece lies in ring 1's next where that is BODY and
//! the device's, else in ring 2's next. A driver receives the frames in that order and posts their buffers back.
ghost use Rattle.std.specs.Prelude.{◌≡◌, ◌≤◌, ◌<◌, ◌^◌, ℕ, suc, length, true, false, vec_len, vec_capacity};
ghost use Rattle.vmx_io.specs.declared.buffer.TheConstants.{MAX_FRAME};
ghost use Rattle.vmx_ends.specs.Frames.{IsFrame};
ghost use Rattle.vmx_ends.specs.Receive.{RxDeviceView, RxDriverView, RxNoteView, RxView, used, pieces_of, consumed1, consumed2};
ghost use Rattle.vmx_ends.specs.ReceiveClauses.{Delivers, Receives, GrowsDelivered, GrowsReceived, NotesDevice, driver_note, DeviceHears, DriverHears};

use crate::{Deliver, QueueName, Receive, RxMeta};

/// What one end of a receive queue tells the other.
pub trait RxNote: Drop + Send {
    ghost view: { Self → RxNoteView };
}

/// The device's end.
pub trait RxDevice: Drop + Send {
    type Note: RxNote;

    ghost view: { Self → RxDeviceView };

    /// Delivers a frame of 14 to 9,022 bytes behind those delivered before. Where a descriptor is missing the frame is
    /// dropped whole, and nothing is consumed.
    fn deliver(&mut self, frame: &[u8], meta: &RxMeta) -> Deliver
        requires frame { IsFrame frame.now }
        requires small { (length (view self.old).delivered < 2 ^ 62) × (length (view self.old).refused < 2 ^ 62) }
        requires positions { (consumed1 (view self.old) < 2 ^ 62) × (consumed2 (view self.old) < 2 ^ 62) }
        ensures delivers { Delivers (view self.old) frame.now meta.now result (view self.new) }
        ensures grows { GrowsDelivered (view self.old) (view self.new) };

    /// A copy of what this end did, for the other end to hear. An end over given words tells nothing.
    fn note(&mut self) -> Self::Note
        ensures notes { NotesDevice (view self.old) (Self.Note.view result) (view self.new) };

    /// Hears a note that fits: of this queue, and of the driver.
    fn hear(&mut self, note: Self::Note)
        requires key { (Self.Note.view note).key ≡ (view self.old).key }
        requires side { (Self.Note.view note).of_driver ≡ true }
        ensures hears { DeviceHears (view self.old) (Self.Note.view note) (view self.new) };
}

/// The driver's end.
pub trait RxDriver: Drop + Send {
    type Note: RxNote;

    ghost view: { Self → RxDriverView };

    /// Receives the next frame into an empty buffer with room for 9,022 bytes, and posts its descriptors back with those
    /// passed over before it.
    fn receive(&mut self, into: &mut Vec<u8>) -> Receive
        requires empty { vec_len into.old ≡ 0 }
        requires room { MAX_FRAME ≤ vec_capacity into.old }
        requires small { (length (view self.old).received < 2 ^ 62) × (used pieces_of (view self.old).received < 2 ^ 62) }
        ensures receives { Receives (view self.old) into.new.items result (view self.new) }
        ensures room { vec_capacity into.old ≤ vec_capacity into.new }
        ensures grows { GrowsReceived (view self.old) (view self.new) };

    /// A copy of what this end did, for the other end to hear.
    fn note(&mut self) -> Self::Note
        ensures same { view self.new ≡ record (view self.old) { notes_given = suc (view self.old).notes_given } }
        ensures tells { Self.Note.view result ≡ driver_note (view self.old) };

    /// Hears a note that fits: of this queue, and of the device.
    fn hear(&mut self, note: Self::Note)
        requires key { (Self.Note.view note).key ≡ (view self.old).key }
        requires side { (Self.Note.view note).of_driver ≡ false }
        ensures hears { DriverHears (view self.old) (Self.Note.view note) (view self.new) };
}

/// What is known of a receive queue whose two ends have met. Only a meeting makes it.
pub trait RxFacts: Drop + Send {
    ghost view: { Self → RxView };

    fn name(&self) -> QueueName
        ensures name { result ≡ (view self.now).made.name };

    /// How many frames were delivered.
    fn delivered(&self) -> u64
        ensures delivered { result ≡ length (view self.now).delivered };

    /// How many of them the driver received.
    fn received(&self) -> u64
        ensures received { result ≡ length (view self.now).received };

    /// How many frames were refused for want of a descriptor.
    fn refused(&self) -> u64
        ensures refused { result ≡ length (view self.now).refused };
}
