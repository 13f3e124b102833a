//! The two ends of a transmit queue.
//!
//! A driver posts frames, and a device takes them in that order and completes each before it takes the next. A frame's
//! descriptors are the driver's again when it is completed, and can be used again when the driver has reaped it.
ghost use Rattle.std.specs.Prelude.{◌≡◌, ◌≤◌, ◌<◌, ◌^◌, ℕ, suc, length, true, false, vec_len, vec_capacity};
ghost use Rattle.vmx_io.specs.declared.buffer.TheConstants.{MAX_FRAME};
ghost use Rattle.vmx_ends.specs.Frames.{IsMarked};
ghost use Rattle.vmx_ends.specs.Transmit.{TxDriverView, TxDeviceView, TxNoteView, TxView, posted, found_in};
ghost use Rattle.vmx_ends.specs.TransmitClauses.{Posts, Reaps, Takes, Completes, GrowsPosted, GrowsReaped, GrowsTaken, driver_note, NotesDevice, DriverHears, DeviceHears, IsIdle};

use crate::{Post, QueueName, Reap, Take, TxMark};

/// What one end of a transmit queue tells the other.
pub trait TxNote: Drop + Send {
    ghost view: { Self → TxNoteView };
}

/// The driver's end: it posts frames and reaps what was completed.
pub trait TxDriver: Drop + Send {
    type Note: TxNote;

    ghost view: { Self → TxDriverView };

    /// Posts a frame of 14 to 9,022 bytes, 9,018 where a tag is to be put in, behind those posted before.
    fn post(&mut self, frame: &[u8], mark: &TxMark) -> Post
        requires frame { IsMarked frame.now mark.now }
        requires small { (length (view self.old).sent < 2 ^ 62) × (posted (view self.old) < 2 ^ 62) }
        ensures posts { Posts (view self.old) frame.now mark.now result (view self.new) }
        ensures grows { GrowsPosted (view self.old) (view self.new) };

    /// Takes back the descriptors of the next frame that was completed.
    fn reap(&mut self) -> Reap
        requires small { (view self.old).reaped < 2 ^ 62 }
        ensures reaps { Reaps (view self.old) result (view self.new) }
        ensures grows { GrowsReaped (view self.old) (view self.new) };

    /// A copy of what this end did, for the other end to hear.
    fn note(&mut self) -> Self::Note
        ensures same { view self.new ≡ record (view self.old) { notes_given = suc (view self.old).notes_given } }
        ensures tells { Self.Note.view result ≡ driver_note (view self.old) };

    /// Hears a note that fits: of this queue, and of the device.
    fn hear(&mut self, note: Self::Note)
        requires key { (Self.Note.view note).key ≡ (view self.old).key }
        requires side { (Self.Note.view note).of_driver ≡ false }
        ensures hears { DriverHears (view self.old) (Self.Note.view note) (view self.new) };
}

/// The device's end: it takes frames and completes them, one at a time.
pub trait TxDevice: Drop + Send {
    type Note: TxNote;

    ghost view: { Self → TxDeviceView };

    /// Takes the next frame that was posted into an empty buffer with room for 9,022 bytes. No frame may be taken and
    /// not completed.
    fn take(&mut self, into: &mut Vec<u8>) -> Take
        requires empty { vec_len into.old ≡ 0 }
        requires room { MAX_FRAME ≤ vec_capacity into.old }
        requires idle { IsIdle (view self.old) }
        requires small { (length (view self.old).taken < 2 ^ 62) × (found_in (view self.old).taken < 2 ^ 62) }
        ensures takes { Takes (view self.old) into.new.items result (view self.new) }
        ensures room { vec_capacity into.old ≤ vec_capacity into.new }
        ensures grows { GrowsTaken (view self.old) (view self.new) };

    /// Completes the frame that is taken.
    fn complete(&mut self)
        requires taken { (view self.old).completed < length (view self.old).taken }
        requires small { length (view self.old).taken < 2 ^ 62 }
        ensures completes { Completes (view self.old) (view self.new) };

    /// A copy of what this end did, for the other end to hear. An end over given words tells nothing.
    fn note(&mut self) -> Self::Note
        ensures notes { NotesDevice (view self.old) (Self.Note.view result) (view self.new) };

    /// Hears a note that fits: of this queue, and of the driver.
    fn hear(&mut self, note: Self::Note)
        requires key { (Self.Note.view note).key ≡ (view self.old).key }
        requires side { (Self.Note.view note).of_driver ≡ true }
        ensures hears { DeviceHears (view self.old) (Self.Note.view note) (view self.new) };
}

/// What is known of a transmit queue whose two ends have met. Only a meeting makes it.
pub trait TxFacts: Drop + Send {
    ghost view: { Self → TxView };

    fn name(&self) -> QueueName
        ensures name { result ≡ (view self.now).made.name };

    /// How many frames were posted.
    fn sent(&self) -> u64
        ensures sent { result ≡ length (view self.now).sent };

    /// How many of them the device took.
    fn taken(&self) -> u64
        ensures taken { result ≡ length (view self.now).taken };

    fn completed(&self) -> u64
        ensures completed { result ≡ (view self.now).completed };

    fn reaped(&self) -> u64
        ensures reaped { result ≡ (view self.now).reaped };
}
