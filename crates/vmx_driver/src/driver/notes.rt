//! Notes of a driver's ends. No call here takes memory.
ghost use Rattle.std.specs.Prelude.{◌≡◌, ◌<◌, length};
ghost use Rattle.vmx_regs.specs.Rule.{told_driver, driver_note, hears_device, DriverKnows};
ghost use Rattle.vmx_regs.specs.Masks.{masks_note};
ghost use Rattle.vmx_regs.specs.Ends.{note_key, note_view, note_masks, IsOfDevice};
ghost use Rattle.vmx_driver.specs.Stocked.{SameRoom};
ghost use Rattle.vmx_driver.specs.Notes.{NotesTx, HearsTx, FitsTx, NotesRx, HearsRx, FitsRx};

use super::Driver;
use vmx_ends::{Fabric, RxDriver, TxDriver};
use vmx_regs::RegsNote;

impl<'a, F: Fabric> Driver<'a, F> {
    /// A note of the registers' driver side.
    pub fn note_regs(&mut self) -> RegsNote
        ensures key { note_key result ≡ self.old.driver.key }
        ensures told { note_view result ≡ driver_note self.old.driver.calls }
        ensures told_masks { note_masks result ≡ masks_note self.old.driver.masks }
        ensures notes { self.new.driver ≡ record self.old.driver { calls = told_driver self.old.driver.calls } }
        ensures room { SameRoom self.old self.new }
    {
        self.regs.note()
    }

    /// Hears a note of the device's side of the same registers.
    pub fn hear_regs(&mut self, note: RegsNote)
        requires pair { note_key note ≡ self.old.driver.key }
        requires device { IsOfDevice note }
        ensures hears { self.new.driver ≡ record self.old.driver { calls = hears_device self.old.driver.calls (note_view note) } }
        ensures knows { DriverKnows self.new.driver.calls }
        ensures room { SameRoom self.old self.new }
    {
        self.regs.hear(note);
    }

    /// A note of the end of a transmit queue in hand.
    pub fn note_tx(&mut self, queue: u32) -> F::TxNote
        requires queue { queue < length self.old.driver.tx }
        ensures notes { NotesTx queue self.old.driver (F.TxNote.view result) self.new.driver }
        ensures room { SameRoom self.old self.new }
    {
        self.tx.at_mut(queue as usize).note()
    }

    /// Hears a note of the device's end of a transmit queue in hand.
    pub fn hear_tx(&mut self, queue: u32, note: F::TxNote)
        requires queue { queue < length self.old.driver.tx }
        requires fits { FitsTx queue self.old.driver.tx (F.TxNote.view note) }
        ensures hears { HearsTx queue self.old.driver (F.TxNote.view note) self.new.driver }
        ensures room { SameRoom self.old self.new }
    {
        self.tx.at_mut(queue as usize).hear(note);
    }

    /// A note of the end of a receive queue in hand.
    pub fn note_rx(&mut self, queue: u32) -> F::RxNote
        requires queue { queue < length self.old.driver.rx }
        ensures notes { NotesRx queue self.old.driver (F.RxNote.view result) self.new.driver }
        ensures room { SameRoom self.old self.new }
    {
        self.rx.at_mut(queue as usize).note()
    }

    /// Hears a note of the device's end of a receive queue in hand.
    pub fn hear_rx(&mut self, queue: u32, note: F::RxNote)
        requires queue { queue < length self.old.driver.rx }
        requires fits { FitsRx queue self.old.driver.rx (F.RxNote.view note) }
        ensures hears { HearsRx queue self.old.driver (F.RxNote.view note) self.new.driver }
        ensures room { SameRoom self.old self.new }
    {
        self.rx.at_mut(queue as usize).hear(note);
    }
}
