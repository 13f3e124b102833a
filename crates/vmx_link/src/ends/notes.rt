//! Notes, by which one end tells the other what it has done. A note fits an end that has its key and is the other side.
use super::{LinkIn, LinkNote, LinkOut};
use crate::steps::{HearsReceiver, HearsSender, InHeard, OutHeard, ReceiverNote, SenderNote};

impl LinkOut {
    ghost use Rattle.std.specs.Prelude.{◌≡◌, suc, ◌≤◌, false, length};
    ghost use mathlib.Core.List.{IsPrefix};
    ghost use Rattle.vmx_link.specs.Ends.{out_view, note_view, sender's_note, out_after};

    /// A copy of what this end has pushed, and of what it heard was pulled.
    pub fn note(&mut self) -> LinkNote
        ensures same { out_view self.new ≡ record (out_view self.old) { notes_given = suc (out_view self.old).notes_given } }
        ensures note { note_view result ≡ sender's_note (out_view self.old) }
    {
        let shared = &self.table.shared;
        LinkNote {
            seat: shared.split_seat::<SenderNote>(&mut self.seat),
        }
    }

    /// Hears what the receiver has pulled: from then on no push finds the entry of such a packet full.
    pub fn hear(&mut self, note: LinkNote)
        requires key { (note_view note).key ≡ (out_view self.old).key }
        requires side { (note_view note).of_sender ≡ false }
        ensures same { out_view self.new ≡ out_after (out_view self.old) (note_view note) }

        // What the receiver had pulled is a prefix of what this end has pushed, and so is what it had heard of.
        ensures pulled { IsPrefix (note_view note).pulled (out_view self.old).pushed }
        ensures pushed { IsPrefix (note_view note).pushed (out_view self.old).pushed }
        ensures freed { IsPrefix (out_view self.new).freed (out_view self.new).pushed }
        ensures as_long { length (note_view note).pulled ≤ length (out_view self.new).freed }
        ensures no_shorter { length (out_view self.old).freed ≤ length (out_view self.new).freed }
    {
        let LinkNote { seat } = note;
        let shared = &self.table.shared;
        shared.join_seat::<HearsReceiver>(&mut self.seat, seat);
        shared.load::<OutHeard>(&mut self.seat, 0);
    }
}

impl LinkIn {
    ghost use Rattle.std.specs.Prelude.{◌≡◌, suc, ◌+◌, ◌≤◌, true, length};
    ghost use mathlib.Core.List.{IsPrefix};
    ghost use Rattle.vmx_ring_laws.specs.Lists.{AreComparable};
    ghost use Rattle.vmx_link.specs.Ends.{in_view, note_view, receiver's_note, in_after};

    /// A copy of what this end has pulled, and of what it heard was pushed.
    pub fn note(&mut self) -> LinkNote
        ensures same { in_view self.new ≡ record (in_view self.old) { notes_given = suc (in_view self.old).notes_given } }
        ensures note { note_view result ≡ receiver's_note (in_view self.old) }
    {
        let shared = &self.table.shared;
        LinkNote {
            seat: shared.split_seat::<ReceiverNote>(&mut self.seat),
        }
    }

    /// Hears what the sender has pushed: from then on no pull finds the entry of such a packet empty.
    pub fn hear(&mut self, note: LinkNote)
        requires key { (note_view note).key ≡ (in_view self.old).key }
        requires side { (note_view note).of_sender ≡ true }
        ensures same { in_view self.new ≡ in_after (in_view self.old) (note_view note) }

        // Of what the sender had pushed and what this end has pulled, one is a prefix of the other.
        ensures pushed { AreComparable (note_view note).pushed (in_view self.old).pulled }
        // What the sender had heard was pulled is a prefix of what this end has pulled.
        ensures pulled { IsPrefix (note_view note).pulled (in_view self.old).pulled }
        ensures filled { AreComparable (in_view self.new).filled (in_view self.new).pulled }
        ensures as_long { length (note_view note).pushed ≤ length (in_view self.new).filled }
        ensures no_shorter { length (in_view self.old).filled ≤ length (in_view self.new).filled }
        // The sender had pushed no more than this end has pulled and the link has entries.
        ensures room { length (in_view self.new).filled ≤ length (in_view self.new).pulled + (in_view self.new).capacity }
    {
        let LinkNote { seat } = note;
        let shared = &self.table.shared;
        shared.join_seat::<HearsSender>(&mut self.seat, seat);
        shared.load::<InHeard>(&mut self.seat, 0);
    }
}
