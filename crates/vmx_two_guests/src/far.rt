//! The other guest of a guest at port 0, by the ends of its links alone.

ghost use Rattle.std.specs.Prelude.{◌≡◌, ◌≤◌, ◌∷◌, [], ◌++◌, length, IfOk, IfSome, IsTrue};
ghost use Rattle.vmx_ends.specs.Frames.{IsFrame};
ghost use Rattle.vmx_link.specs.Ends.{out_view, in_view};
ghost use Rattle.vmx_device_laws.specs.New.{IsNewOut, IsNewIn};
ghost use Rattle.vmx_two_guests.specs.declared.far.TheConstants.{MAX_PACKETS};

use crate::guests::LINK_PACKETS;
use std::alloc::{AllocError, Global};
use vmx_ends::{Packet, Tag};
use vmx_link::{LinkIn, LinkOut, Pull, Push, pair};

/// The most packets that the other guest sends, and the most that it gets.
pub const MAX_PACKETS: u64 = 1_000;

/// The other guest's ends of the link to the guest at port 0 and of the one back. They are let go here alone, too.
pub struct Far {
    pub there: LinkOut,
    pub back: LinkIn,
    sends: u64,
    gets: u64,
    ghost few: { (sends ≤ MAX_PACKETS) × (gets ≤ MAX_PACKETS) },
    ghost sent: { (length (out_view there).pushed ≤ sends) × (length (out_view there).full ≤ sends) },
    ghost got: { length (in_view back).pulled ≤ gets },
}

impl Drop for Far {
    fn drop(self) {
        let Far {
            there: _,
            back: _,
            sends: _,
            gets: _,
        } = self;
    }
}

impl Far {
    /// Sends a packet. Says whether it is on the link: no where that is full, and after `MAX_PACKETS`.
    pub fn send(&mut self, packet: Packet) -> bool
        ensures sent { IsTrue result → (out_view self.new.there).pushed ≡ (out_view self.old.there).pushed ++ packet ∷ [] }
    {
        if self.sends >= MAX_PACKETS {
            return false;
        }
        self.sends += 1;
        matches!(self.there.push(packet), Push::Done { place: _ })
    }

    /// The next packet that the guest at port 0 sent; none where there is none, and after `MAX_PACKETS`.
    pub fn get(&mut self) -> Option<Packet>
        ensures got { IfSome result (λ p. (in_view self.new.back).pulled ≡ (in_view self.old.back).pulled ++ p ∷ []) }
    {
        if self.gets >= MAX_PACKETS {
            return None;
        }
        self.gets += 1;
        match self.back.pull() {
            Pull::Packet { place: _, packet } => Some(packet),
            Pull::Empty { word: _ } => None,
        }
    }
}

/// The other guest, and the ends of the guest at port 0: of the link to the other one, and of the link from there.
pub fn links_of(alloc: Global) -> Result<(Far, LinkOut, LinkIn), AllocError>
    ensures links { IfOk result (λ p. IsNewOut 0 0 (out_view p.1) × IsNewIn 0 0 (in_view p.2)) }
{
    let (out, back) = pair(alloc, 0, 1, LINK_PACKETS)?;
    let (there, input) = pair(alloc, 1, 0, LINK_PACKETS)?;
    let far = Far {
        there,
        back,
        sends: 0,
        gets: 0,
    };
    Ok((far, out, input))
}

/// A packet of the other guest with a frame of 14 to 9,022 bytes: of its first activation, queue 0 and place 0.
pub fn packet_of(alloc: Global, frame: &[u8]) -> Result<Packet, AllocError>
    requires frame { IsFrame frame.now }
    ensures frame { IfOk result (λ p. p.frame ≡ frame.now) }
    ensures guest { IfOk result (λ p. p.tag.guest ≡ 1) }
{
    let tag = Tag {
        guest: 1,
        activation: 0,
        queue: 0,
        place: 0,
    };
    Packet::copy_of(alloc, tag, frame)
}
