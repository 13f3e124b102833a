//! Calls on notes: each is `note` or `hear` of the named end. None takes memory.
ghost use Rattle.std.specs.Prelude.{◌≡◌, ◌<◌, ◌≢◌, ℕ, true, false, length, Some, slice_get, slice_set, suc};
ghost use Rattle.vmx_regs.specs.Ends.{note_view, note_key, note_masks, IsOfDriver};
ghost use Rattle.vmx_regs.specs.Rule.{told_device, device_note, hears_driver, DeviceKnows};
ghost use Rattle.vmx_regs.specs.Masks.{hears_masks};
ghost use Rattle.vmx_device_looks.specs.Looks.{TxAt, RxAt};
ghost use Rattle.vmx_device_looks.specs.Notes.{NotesTx, HearsTx, FitsTx, NotesRx, HearsRx, FitsRx};
ghost use Rattle.vmx_link.specs.Ends.{note_view as link_note};
ghost use Rattle.vmx_device_looks.specs.Ports.{IsOther};
ghost use Rattle.vmx_device_laws.specs.LinkNotes.{NotesLink, FitsLink, HearsLink};

use crate::device::Device;
use crate::linking::{hear_in, hear_out, note_in, note_out};
use vmx_device_laws::LinkSide;
use vmx_device_looks::{hear_rx_at, hear_tx_at, link_to, note_rx_of, note_tx_of};
use vmx_ends::Fabric;
use vmx_link::LinkNote;
use vmx_regs::RegsNote;

impl<F: Fabric> Device<F> {
    /// A note of the commands taken and of those answered.
    pub fn note_regs(&mut self) -> RegsNote
        ensures note { self.new ≡ record self.old { calls = told_device self.old.calls } }
        ensures key { note_key result ≡ self.old.key }
        ensures told { note_view result ≡ device_note self.old.calls }
    {
        self.inner.regs.note()
    }

    /// Hears a note of the driver of the same registers.
    pub fn hear_regs(&mut self, note: RegsNote)
        requires pair { note_key note ≡ self.old.key }
        requires driver { IsOfDriver note }
        ensures heard { self.new ≡ record self.old { calls = hears_driver self.old.calls (note_view note); masks = hears_masks self.old.masks (note_masks note) } }
        // The device has answered all that the driver took, and of the commands sent and those seen one list is a prefix of the
        // other, by at most one command.
        ensures knows { DeviceKnows self.new.calls }
    {
        self.inner.regs.hear(note);
    }

    /// A note of a transmit queue's end that the device holds.
    pub fn note_tx(&mut self, queue: u32) -> F::TxNote
        requires here { TxAt self.old.machine queue }
        ensures notes { NotesTx queue (F.TxNote.view result) self.old.machine self.new.machine }
        ensures kept { self.new ≡ record self.old { machine = self.new.machine } }
    {
        note_tx_of(&mut self.inner.machine, queue)
    }

    /// A transmit queue's end hears a note of its driver.
    pub fn hear_tx(&mut self, queue: u32, note: F::TxNote)
        requires fits { FitsTx self.old.machine queue (F.TxNote.view note) }
        ensures hears { HearsTx queue (F.TxNote.view note) self.old.machine self.new.machine }
        ensures kept { self.new ≡ record self.old { machine = self.new.machine } }
    {
        hear_tx_at(&mut self.inner.machine, queue, note);
    }

    /// A note of a receive queue's end that the device holds.
    pub fn note_rx(&mut self, queue: u32) -> F::RxNote
        requires here { RxAt self.old.machine queue }
        ensures notes { NotesRx queue (F.RxNote.view result) self.old.machine self.new.machine }
        ensures kept { self.new ≡ record self.old { machine = self.new.machine } }
    {
        note_rx_of(&mut self.inner.machine, queue)
    }

    /// A receive queue's end hears a note of its driver.
    pub fn hear_rx(&mut self, queue: u32, note: F::RxNote)
        requires fits { FitsRx self.old.machine queue (F.RxNote.view note) }
        ensures hears { HearsRx queue (F.RxNote.view note) self.old.machine self.new.machine }
        ensures kept { self.new ≡ record self.old { machine = self.new.machine } }
    {
        hear_rx_at(&mut self.inner.machine, queue, note);
    }

    /// A note of the link to or from another port.
    pub fn note_link(&mut self, side: LinkSide, port: u32) -> LinkNote
        requires other { IsOther self.old.port (length self.old.out) port }
        ensures notes { NotesLink side port (link_note result) self.old self.new }
    {
        let index = link_to(self.inner.port, port);
        match side {
            LinkSide::Out => note_out(&mut self.inner.out, index),
            LinkSide::In => note_in(&mut self.inner.input, index),
        }
    }

    /// The link to or from another port hears a note that fits.
    pub fn hear_link(&mut self, side: LinkSide, port: u32, note: LinkNote)
        requires other { IsOther self.old.port (length self.old.out) port }
        requires fits { FitsLink side port (link_note note) self.old }
        ensures hears { HearsLink side port (link_note note) self.old self.new }
    {
        let index = link_to(self.inner.port, port);
        match side {
            LinkSide::Out => hear_out(&mut self.inner.out, index, note),
            LinkSide::In => hear_in(&mut self.inner.input, index, note),
        }
    }
}
