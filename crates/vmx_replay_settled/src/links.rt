//! Notes of the links between the devices of all guests.
ghost use Rattle.std.specs.Prelude.{◌≡◌, ◌≢◌, ◌≤◌, length, map};
ghost use Rattle.vmx_switch.specs.declared.answer.TheConstants.{MAX_PORTS};
ghost use Rattle.vmx_link.specs.Ends.{note_view};
ghost use Rattle.vmx_replay_settled.specs.Linked.{HasLinkAt, NotesAt, FitsAt, HearsAt, IsLinkOn, LinkPassedOn, HasLinksIn, PassedIfOther, LinksPassedTo};

use crate::keeping::keep;
use vmx_device::LinkSide;
use vmx_ends::Fabric;
use vmx_io::List;
use vmx_link::LinkNote;
use vmx_replay_guests::Guest;

/// A note of the link to or from another port, of the device at a port.
fn note_at<F: Fabric>(
    guests: &mut List<Guest<F>>,
    port: u32,
    side: LinkSide,
    other: u32,
) -> LinkNote
    requires link { HasLinkAt port other (map (λ g. g.device) guests.old) }
    ensures notes { NotesAt port side other (note_view result) (map (λ g. g.device) guests.old) (map (λ g. g.device) guests.new) }
    ensures drivers { map (λ g. g.driver) guests.new ≡ map (λ g. g.driver) guests.old }
{
    let guest = guests.at_mut(port as usize);
    let note = guest.device.note_link(side, other);
    keep(guest);
    note
}

/// The link to or from another port, of the device at a port, hears a note that fits.
fn hear_at<F: Fabric>(
    guests: &mut List<Guest<F>>,
    port: u32,
    side: LinkSide,
    other: u32,
    note: LinkNote,
)
    requires fits { FitsAt port side other (note_view note) (map (λ g. g.device) guests.old) }
    ensures hears { HearsAt port side other (note_view note) (map (λ g. g.device) guests.old) (map (λ g. g.device) guests.new) }
    ensures drivers { map (λ g. g.driver) guests.new ≡ map (λ g. g.driver) guests.old }
{
    let guest = guests.at_mut(port as usize);
    guest.device.hear_link(side, other, note);
    keep(guest);
}

/// Passes notes both ways over the link from the device at one port to the one at another.
pub fn pass_link_on<F: Fabric>(guests: &mut List<Guest<F>>, from: u32, to: u32)
    requires link { IsLinkOn from to (map (λ g. g.device) guests.old) }
    ensures passed { LinkPassedOn from to (map (λ g. g.device) guests.old) (map (λ g. g.device) guests.new) }
    ensures drivers { map (λ g. g.driver) guests.new ≡ map (λ g. g.driver) guests.old }
{
    let pushed = note_at(guests, from, LinkSide::Out, to);
    hear_at(guests, to, LinkSide::In, from, pushed);
    let pulled = note_at(guests, to, LinkSide::In, from);
    hear_at(guests, from, LinkSide::Out, to, pulled);
}

/// The same where the two ports differ.
fn pass_if_other<F: Fabric>(guests: &mut List<Guest<F>>, from: u32, to: u32)
    requires link { from ≢ to → IsLinkOn from to (map (λ g. g.device) guests.old) }
    ensures passed { PassedIfOther from to (map (λ g. g.device) guests.old) (map (λ g. g.device) guests.new) }
    ensures drivers { map (λ g. g.driver) guests.new ≡ map (λ g. g.driver) guests.old }
{
    if from != to {
        pass_link_on(guests, from, to);
    }
}

/// The same over each link to the device at a port.
pub fn pass_links_to<F: Fabric>(guests: &mut List<Guest<F>>, to: u32)
    requires links { HasLinksIn to (map (λ g. g.device) guests.old) }
    requires few { length guests.old ≤ MAX_PORTS }
    ensures passed { LinksPassedTo to (map (λ g. g.device) guests.old) (map (λ g. g.device) guests.new) }
    ensures drivers { map (λ g. g.driver) guests.new ≡ map (λ g. g.driver) guests.old }
{
    let count = guests.len() as u32;
    for from in 0..count {
        pass_if_other(guests, from, to);
    }
}
