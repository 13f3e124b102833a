//! A frame to each of its targets, and the entries that tell of it.
ghost use Rattle.std.specs.Prelude.{◌≡◌, ◌≤◌, ◌<◌, ◌^◌, ◌+◌, ◌-◌, ◌++◌, ◌∷◌, [], ℕ, List, Some, suc, length, map, take, not, ◌==◌, slice_get};
ghost use Rattle.vmx_switch.specs.declared.answer.TheConstants.{MAX_PORTS};
ghost use Rattle.vmx_switch.specs.Ports.{target_ports};
ghost use Rattle.vmx_ends.specs.Frames.{IsFrame};
ghost use Rattle.vmx_link.specs.Ends.{out_view};
ghost use Rattle.vmx_link.specs.Views.{LinkOutView as LinkOutValue};
ghost use Rattle.vmx_model.specs.declared.journal.Entry.{Entry as EntryValue};
ghost use Rattle.vmx_model.specs.declared.journal.Way.{Way as WayValue};
ghost use Rattle.vmx_model.specs.declared.journal.Entry.TheVariants as entry;
ghost use Rattle.vmx_device_looks.specs.Ports.{other, IsOther};
ghost use Rattle.vmx_device_looks.specs.Links.{SendsTo, PutsFrame, AreFew};

use crate::links::push_on;
use vmx_ends::{Packet, Tag};
use vmx_io::{Buffer, Bytes, List, Roomy};
use vmx_link::LinkOut;
use vmx_model::Entry;
use vmx_switch::{Table, targets};

/// The number of the link to or from another port.
pub fn link_to(port: u32, to: u32) -> u32
    requires port { IsOther port 15 to }
    ensures index { to ≡ other port result }
    ensures below { (n : ℕ) → IsOther port n to → result < n }
{
    if to < port { to } else { to - 1 }
}

/// A copy of a frame in room that was made before.
fn copy_of(spare: &mut List<Buffer>, tag: Tag, frame: &[u8]) -> Packet
    requires frame { IsFrame frame.now }
    requires spare { 0 < length spare.old }
    ensures tag { result.tag ≡ tag }
    ensures frame { result.frame ≡ frame.now }
    ensures spare { length spare.old ≡ length spare.new + 1 }
{
    match spare.pop() {
        None => unreachable!(),
        Some(copy) => {
            let mut copy = copy;
            copy.copy_of(frame);
            Packet {
                tag,
                frame: Bytes::of(copy.into_vec()),
            }
        }
    }
}

/// Gives a copy of a frame to another port, and writes it down.
pub fn send_to(
    port: u32,
    out: &mut List<LinkOut>,
    spare: &mut List<Buffer>,
    entries: &mut Roomy<Entry>,
    tag: Tag,
    to: u32,
    frame: &[u8],
)
    requires frame { IsFrame frame.now }
    requires links { length out.old ≤ 15 }
    requires target { IsOther port (length out.old) to }
    requires room { 0 < entries.old.1 }
    requires spare { 0 < length spare.old }
    requires few { AreFew (2 ^ 62) (map out_view out.old) }
    ensures links { length out.new ≡ length out.old }
    ensures sends { (w : WayValue) × SendsTo port tag frame.now to w (map out_view out.old) (map out_view out.new) × (entries.new.0 ≡ entries.old.0 ++ entry.Out tag to w ∷ []) }
    ensures room { entries.new.1 ≡ entries.old.1 - 1 }
    ensures spare { length spare.old ≡ length spare.new + 1 }
{
    let index = link_to(port, to);
    let packet = copy_of(spare, tag, frame);
    let way = push_on(out.at_mut(index as usize), packet);
    entries.push(Entry::Out {
        tag,
        target: to,
        way,
    });
}

/// Gives a copy of a frame to each of its targets, and writes that down, or that it has none. Says whether it has some.
pub fn spread(
    port: u32,
    table: &Table,
    out: &mut List<LinkOut>,
    spare: &mut List<Buffer>,
    entries: &mut Roomy<Entry>,
    tag: Tag,
    frame: &[u8],
) -> bool
    requires frame { IsFrame frame.now }
    requires port { port < length table.now.macs }
    requires links { suc (length out.old) ≡ length table.now.macs }
    requires ports { length table.now.macs ≤ MAX_PORTS }
    requires room { MAX_PORTS ≤ entries.old.1 }
    requires spare { MAX_PORTS ≤ length spare.old }
    requires few { AreFew (2 ^ 61) (map out_view out.old) }
    ensures links { length out.new ≡ length out.old }
    ensures puts { (more : List EntryValue) × PutsFrame port tag frame.now (target_ports table.now port frame.now) more (map out_view out.old) (map out_view out.new) × (entries.new.0 ≡ entries.old.0 ++ more) }
    ensures room { entries.old.1 ≤ entries.new.1 + MAX_PORTS }
    ensures most { length entries.new.0 ≤ length entries.old.0 + MAX_PORTS }
    ensures spare { length spare.old ≤ length spare.new + MAX_PORTS }
    ensures some { result ≡ not (length (target_ports table.now port frame.now) == 0) }
{
    let found = targets(table, port, frame);
    if found.count == 0 {
        entries.push(Entry::Lost { tag });
        return false;
    }
    for i in 0..found.count {
        send_to(
            port,
            out,
            spare,
            entries,
            tag,
            found.ports[i as usize],
            frame,
        );
    }
    true
}
