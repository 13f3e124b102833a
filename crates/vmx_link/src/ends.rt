//! The two ends of a link, their notes, and the facts that are left when the ends meet.
//! The entry of position p has the word and the slot p % capacity. The word says who owns the slot, and is stored last:
//! 2 * (p / capacity) while the sender may fill it, one more while the receiver may empty it.
//! One thread pushes and one pulls. Own to this project.
ghost use Rattle.std.specs.Prelude.{◌≡◌, ◌+◌, ◌<◌, ◌≤◌, [], length, take, true, false, not, All};
ghost use Rattle.std.specs.Arc.{arc_value};
ghost use Rattle.vmx_link.specs.Seats.{known};
ghost use Rattle.vmx_link.specs.Views.{IsFullLook};

use crate::known::{Entries, Known};
use atomic_table::{Badge, Seat, Table};
use std::alloc::Global;
use std::sync::Arc;
use vmx_ends::Packet;

mod making;
mod meeting;
mod notes;
mod pulling;
mod pushing;

pub use making::pair;
pub use meeting::meet;

pub(crate) type Shelf = Table<Option<Packet>, Known, (), Entries, Global>;

/// The end that pushes packets.
#[derive(Drop)]
pub struct LinkOut {
    table: Arc<Shelf, Global>,
    seat: Seat<Option<Packet>, Known>,
    from: u32,
    to: u32,
    capacity: u64,
    // How many packets were pushed, and how many looks found no room.
    place: u64,
    looks: u64,
    ghost seated: { seat.table_id ≡ (arc_value table).shared.table_id },
    ghost sized: { (capacity ≡ seat.table_id.slots) × (capacity ≡ seat.table_id.words) × (0 < capacity) × (capacity ≤ 64) },
    ghost rests: { (seat.me.0.sends ≡ true) × (seat.me.0.receives ≡ false) × (seat.me.0.busy ≡ false) × (seat.me.1 ≡ []) },
    ghost counts: { (place ≡ length seat.me.0.pushed) × (looks ≡ length seat.me.0.full) },
    ghost looked: { All (IsFullLook capacity) seat.me.0.full },
}

/// The end that pulls packets.
#[derive(Drop)]
pub struct LinkIn {
    table: Arc<Shelf, Global>,
    seat: Seat<Option<Packet>, Known>,
    from: u32,
    to: u32,
    capacity: u64,
    // How many packets were pulled.
    place: u64,
    ghost seated: { seat.table_id ≡ (arc_value table).shared.table_id },
    ghost sized: { (capacity ≡ seat.table_id.slots) × (capacity ≡ seat.table_id.words) × (0 < capacity) × (capacity ≤ 64) },
    ghost rests: { (seat.me.0.sends ≡ false) × (seat.me.0.receives ≡ true) × (seat.me.0.busy ≡ false) × (seat.me.1 ≡ []) },
    ghost counts: { place ≡ length seat.me.0.pulled },
    ghost tells: { (seat.me.0.tells_pushed ≡ false) × (seat.me.0.tells_pulled ≡ false) },
}

impl LinkOut {
    ghost use Rattle.vmx_link.specs.Ends.{out_view};

    /// The port that pushes.
    pub fn from(&self) -> u32
        ensures from { result ≡ (out_view self.now).from }
    {
        self.from
    }

    /// The port that pulls.
    pub fn to(&self) -> u32
        ensures to { result ≡ (out_view self.now).to }
    {
        self.to
    }
}

impl LinkIn {
    ghost use Rattle.vmx_link.specs.Ends.{in_view};

    /// The port that pushes.
    pub fn from(&self) -> u32
        ensures from { result ≡ (in_view self.now).from }
    {
        self.from
    }

    /// The port that pulls.
    pub fn to(&self) -> u32
        ensures to { result ≡ (in_view self.now).to }
    {
        self.to
    }
}

/// What one end tells the other of what it has done. It takes no memory, and is heard once.
#[derive(Drop)]
pub struct LinkNote {
    seat: Seat<Option<Packet>, Known>,
    ghost bare: { seat.me.1 ≡ [] },
    ghost sided: { seat.me.0.tells_pulled ≡ not seat.me.0.tells_pushed },
}

/// What is known of a link whose two ends have met. Only `meet` makes it.
#[derive(Drop)]
pub struct LinkFacts {
    badge: Badge<Known>,
    from: u32,
    to: u32,
    pushed: u64,
    pulled: u64,
    full: u64,
    ghost met: { (known badge.views).pulled ≡ take pulled (known badge.views).pushed },
    ghost within: { pushed ≤ pulled + badge.table_id.slots },
    ghost counts: { (pushed ≡ length (known badge.views).pushed) × (pulled ≡ length (known badge.views).pulled) × (full ≡ length (known badge.views).full) },
}

/// What a push came to.
#[derive(Debug, Drop)]
pub enum Push {
    /// The packet is the one with this number, counted from 0.
    Done {
        place: u64,
    },
    /// The entry of its position was not freed yet. The packet comes back, with the word found and the number of full looks before this one.
    Full {
        packet: Packet,
        word: u64,
        look: u64,
    },
}

/// What a pull came to.
#[derive(Debug, Drop)]
pub enum Pull {
    /// The packet with this number, counted from 0.
    Packet { place: u64, packet: Packet },
    /// The entry of its position was not filled yet; the word found.
    Empty { word: u64 },
}
