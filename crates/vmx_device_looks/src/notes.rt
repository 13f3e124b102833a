//! Notes of the ends that an active machine holds.
ghost use Rattle.vmx_device_looks.specs.Looks.{TxAt, RxAt};
ghost use Rattle.vmx_device_looks.specs.Notes.{NotesTx, HearsTx, FitsTx, NotesRx, HearsRx, FitsRx};

use vmx_commands::Machine;
use vmx_ends::{Fabric, RxDevice, TxDevice};

/// A note of a transmit queue's end.
pub fn note_tx_of<F: Fabric>(machine: &mut Machine<F>, queue: u32) -> F::TxNote
    requires here { TxAt machine.old queue }
    ensures notes { NotesTx queue (F.TxNote.view result) machine.old machine.new }
{
    let Some(ends) = machine.ends_mut() else {
        unreachable!()
    };
    let end = ends.tx.at_mut(queue as usize);
    end.note()
}

/// A transmit queue's end hears a note that fits.
pub fn hear_tx_at<F: Fabric>(machine: &mut Machine<F>, queue: u32, note: F::TxNote)
    requires fits { FitsTx machine.old queue (F.TxNote.view note) }
    ensures hears { HearsTx queue (F.TxNote.view note) machine.old machine.new }
{
    let Some(ends) = machine.ends_mut() else {
        unreachable!()
    };
    let end = ends.tx.at_mut(queue as usize);
    end.hear(note);
}

/// A note of a receive queue's end.
pub fn note_rx_of<F: Fabric>(machine: &mut Machine<F>, queue: u32) -> F::RxNote
    requires here { RxAt machine.old queue }
    ensures notes { NotesRx queue (F.RxNote.view result) machine.old machine.new }
{
    let Some(ends) = machine.ends_mut() else {
        unreachable!()
    };
    let end = ends.rx.at_mut(queue as usize);
    end.note()
}

/// A receive queue's end hears a note that fits.
pub fn hear_rx_at<F: Fabric>(machine: &mut Machine<F>, queue: u32, note: F::RxNote)
    requires fits { FitsRx machine.old queue (F.RxNote.view note) }
    ensures hears { HearsRx queue (F.RxNote.view note) machine.old machine.new }
{
    let Some(ends) = machine.ends_mut() else {
        unreachable!()
    };
    let end = ends.rx.at_mut(queue as usize);
    end.hear(note);
}
