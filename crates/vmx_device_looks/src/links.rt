//! One look at a link.
ghost use Rattle.std.specs.Prelude.{◌≡◌, ◌<◌, ◌^◌, ℕ, length, map, MatchOption, slice_get, Some};
ghost use Rattle.vmx_link.specs.Ends.{out_view, in_view};
ghost use Rattle.vmx_link.specs.Views.{LinkInView as LinkInValue};
ghost use Rattle.vmx_device_looks.specs.Ports.{other};
ghost use Rattle.vmx_device_looks.specs.Links.{Pushed, PullsOne, PullsNone};

use vmx_ends::Packet;
use vmx_io::List;
use vmx_link::{LinkIn, LinkOut, Pull, Push};
use vmx_model::Way;

/// Pushes a packet, and says what became of it.
pub fn push_on(link: &mut LinkOut, packet: Packet) -> Way
    requires packets { length (out_view link.old).pushed < 2 ^ 62 }
    requires looks { length (out_view link.old).full < 2 ^ 62 }
    ensures pushed { Pushed (out_view link.old) packet result (out_view link.new) }
{
    match link.push(packet) {
        Push::Done { place } => Way::Link { place },
        Push::Full {
            packet: _,
            word: _,
            look,
        } => Way::Full { look },
    }
}

/// A packet, and its place on its link.
#[derive(Drop)]
pub struct Pulled {
    pub place: u64,
    pub packet: Packet,
}

/// Takes the next packet of a link, if one is there.
pub fn pull_from(input: &mut List<LinkIn>, index: u32) -> Option<Pulled>
    requires index { index < length input.old }
    requires few { (k : ℕ) (i : LinkInValue) → slice_get (map in_view input.old) k ≡ Some i → length i.pulled < 2 ^ 62 }
    ensures links { length input.new ≡ length input.old }
    ensures pulled { MatchOption result (PullsNone (map in_view input.old) index (map in_view input.new)) (λ x. PullsOne (map in_view input.old) index x.place x.packet (map in_view input.new)) }
{
    match input.at_mut(index as usize).pull() {
        Pull::Empty { word: _ } => None,
        Pull::Packet { place, packet } => Some(Pulled { place, packet }),
    }
}

/// The number of the port at the other end of a link.
pub fn other_port(port: u32, index: u32) -> u32
    requires small { index < 2 ^ 31 }
    ensures port { result ≡ other port index }
{
    if index < port { index } else { index + 1 }
}
