//! The two ends of a receive queue over lists, their notes, and the facts that are left when they meet.
//!
//! The device walks over the supplies by numbers: one load tells how many frames the driver has received, and with them
//! how many positions of each supply are posted. The frame then goes into the slot of its place.
ghost use Rattle.std.specs.Prelude.{◌≡◌, ℕ, ◌+◌, ◌<◌, ◌≤◌, [], ◌∷◌, length, take, true, false, not, vec_len};
ghost use Rattle.vmx_lists.specs.RxSums.{AreSums};
ghost use Rattle.std.specs.Arc.{arc_value};
ghost use Rattle.vmx_ends.specs.Receive.{used, took1, took2, pieces_of, posted1, posted2};
ghost use Rattle.vmx_ends.specs.ReceiveClauses.{made_of};
ghost use Rattle.vmx_ends.specs.declared.limits.TheConstants.{MAX_BODIES};
ghost use Rattle.vmx_layout.specs.declared.addresses.TheConstants.{MAX_RING_SIZE};
ghost use Rattle.vmx_lists.specs.RxRing.{known};

use atomic_table::{Badge, Seat, Table};
use log::{RxFrames, RxLog, RxParcel};
use std::alloc::Global;
use std::sync::Arc;
use vmx_ends::RxShape;

mod device;
mod driver;
mod life;
pub mod log;
mod plays;

pub use life::{make, meet};

pub(crate) type Shelf = Table<RxParcel, RxLog, RxShape, RxFrames, Global>;

/// The driver's end.
#[derive(Drop)]
pub struct ListRxDriver {
    table: Arc<Shelf, Global>,
    seat: Seat<RxParcel, RxLog>,
    shape: RxShape,
    place: u64,
    /// Completions that were read.
    position: u64,
    ghost seated: { seat.table_id ≡ (arc_value table).shared.table_id },
    ghost sized: { (seat.table_id.slots ≡ shape.size1) × (seat.table_id.words ≡ 2) × (0 < shape.size1) },
    ghost rests: { (seat.me.0.receives ≡ true) × (seat.me.0.delivers ≡ false) × (seat.me.0.busy ≡ false) × (seat.me.1 ≡ []) },
    ghost made_is: { seat.me.0.made ≡ made_of shape },
    ghost counts: { (place ≡ length seat.me.0.received) × (position ≡ used pieces_of seat.me.0.received) },
}

/// The device's end.
#[derive(Drop)]
pub struct ListRxDevice {
    table: Arc<Shelf, Global>,
    seat: Seat<RxParcel, RxLog>,
    shape: RxShape,
    place: u64,
    refusals: u64,
    next1: u64,
    next2: u64,
    ones: Vec<u64, Global>,
    twos: Vec<u64, Global>,
    ghost seated: { seat.table_id ≡ (arc_value table).shared.table_id },
    ghost sized: { (seat.table_id.slots ≡ shape.size1) × (seat.table_id.words ≡ 2) × (0 < shape.size1) },
    ghost rests: { (seat.me.0.delivers ≡ true) × (seat.me.0.receives ≡ false) × (seat.me.0.busy ≡ false) × (seat.me.1 ≡ []) },
    ghost made_is: { seat.me.0.made ≡ made_of shape },
    ghost counts: { (place ≡ length seat.me.0.delivered) × (refusals ≡ length seat.me.0.refused) },
    ghost kept: { (vec_len ones ≡ shape.size1 + 1) × (vec_len twos ≡ shape.size1 + 1) × (shape.size1 ≤ MAX_RING_SIZE) × (0 < shape.size2) × (shape.size2 ≤ MAX_RING_SIZE) × (shape.bodies ≤ MAX_BODIES) },
    ghost sums: { AreSums shape.size1 seat.me.0.delivered ones.items twos.items },
    ghost nexts: { (next1 ≡ used took1 seat.me.0.delivered) × (next2 ≡ used took2 seat.me.0.delivered) },
    ghost tells: { (seat.me.0.tells_delivered ≡ false) × (seat.me.0.tells_received ≡ false) },
}

/// What one end tells the other: the seat in the table that knows it.
#[derive(Drop)]
pub struct RxSlip {
    seat: Seat<RxParcel, RxLog>,
    ghost bare: { seat.me.1 ≡ [] },
    ghost side: { seat.me.0.tells_delivered ≡ not seat.me.0.tells_received },
}

/// A note of one end, for the other to hear.
#[derive(Drop)]
pub enum ListRxNote {
    /// It tells what its end did.
    Told { slip: RxSlip },
    /// It names no table and tells nothing, so that it fits no end over lists.
    Nothing,
}

/// What is known of a queue whose ends have met.
#[derive(Drop)]
pub struct ListRxFacts {
    badge: Badge<RxLog>,
    pub(crate) shape: RxShape,
    pub(crate) delivered: u64,
    pub(crate) received: u64,
    pub(crate) refused: u64,
    ghost made_is: { (known badge.views).made ≡ made_of shape },
    ghost counts: { (delivered ≡ length (known badge.views).delivered) × (received ≡ length (known badge.views).received) × (refused ≡ length (known badge.views).refused) },
}
