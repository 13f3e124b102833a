//! Notes of links in a list.
ghost use Rattle.std.specs.Prelude.{◌<◌, length, map};
ghost use Rattle.vmx_link.specs.Ends.{out_view, in_view, note_view};
ghost use Rattle.vmx_device_laws.specs.LinkNotes.{NotesOut, NotesIn, FitsOut, FitsIn, HearsOut, HearsIn};

use vmx_io::List;
use vmx_link::{LinkIn, LinkNote, LinkOut};

/// A note of a link to another port.
pub(crate) fn note_out(out: &mut List<LinkOut>, index: u32) -> LinkNote
    requires index { index < length out.old }
    ensures notes { NotesOut index (note_view result) (map out_view out.old) (map out_view out.new) }
{
    out.at_mut(index as usize).note()
}

/// A note of a link from another port.
pub(crate) fn note_in(input: &mut List<LinkIn>, index: u32) -> LinkNote
    requires index { index < length input.old }
    ensures notes { NotesIn index (note_view result) (map in_view input.old) (map in_view input.new) }
{
    input.at_mut(index as usize).note()
}

/// A link to another port hears a note that fits.
pub(crate) fn hear_out(out: &mut List<LinkOut>, index: u32, note: LinkNote)
    requires fits { FitsOut index (note_view note) (map out_view out.old) }
    ensures hears { HearsOut index (note_view note) (map out_view out.old) (map out_view out.new) }
{
    out.at_mut(index as usize).hear(note);
}

/// A link from another port hears a note that fits.
pub(crate) fn hear_in(input: &mut List<LinkIn>, index: u32, note: LinkNote)
    requires fits { FitsIn index (note_view note) (map in_view input.old) }
    ensures hears { HearsIn index (note_view note) (map in_view input.old) (map in_view input.new) }
{
    input.at_mut(index as usize).hear(note);
}
