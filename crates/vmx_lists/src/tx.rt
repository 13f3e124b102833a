//! The two ends of a transmit queue over lists, their notes, and the facts that are left when they meet.
//!
//! The driver fills the slot of the next place and then counts the frame as posted; the device copies the frame out, and
//! counts it as completed when it is told to. The driver gives a slot back to itself when it reaps.
ghost use Rattle.std.specs.Prelude.{◌≡◌, ℕ, ◌<◌, ◌≤◌, [], length, drop, true, false, not, vec_len};
ghost use Rattle.std.specs.Arc.{arc_value};
ghost use Rattle.vmx_ends.specs.Transmit.{descriptors, found_in};
ghost use Rattle.vmx_ends.specs.Queues.{least_piece};
ghost use Rattle.vmx_ends.specs.declared.limits.TheConstants.{MAX_PIECE};
ghost use Rattle.vmx_layout.specs.declared.addresses.TheConstants.{MAX_RING_SIZE};
ghost use Rattle.vmx_lists.specs.TxRing.{known};
ghost use Rattle.vmx_lists.specs.TxNeeds.{AreNeeds};

use atomic_table::{Badge, Seat, Table};
use log::{TxFrames, TxLog, TxParcel};
use std::alloc::Global;
use std::sync::Arc;
use vmx_ends::TxMade;

mod device;
mod driver;
mod life;
pub mod log;
mod plays;

pub use life::{make, meet};

pub(crate) type Shelf = Table<TxParcel, TxLog, TxMade, TxFrames, Global>;

/// The driver's end.
#[derive(Drop)]
pub struct ListTxDriver {
    table: Arc<Shelf, Global>,
    seat: Seat<TxParcel, TxLog>,
    made: TxMade,
    /// Frames posted and frames reaped.
    place: u64,
    reaped: u64,
    /// Descriptors in use, and those of each frame that is not reaped, by its place modulo the size.
    used: u32,
    needs: Vec<u32, Global>,
    ghost seated: { seat.table_id ≡ (arc_value table).shared.table_id },
    ghost sized: { (seat.table_id.slots ≡ made.size) × (seat.table_id.words ≡ 2) × (0 < made.size) × (made.size ≤ MAX_RING_SIZE) × (least_piece made.with_data ≤ made.piece) × (made.piece ≤ MAX_PIECE) },
    ghost rests: { (seat.me.0.sends ≡ true) × (seat.me.0.takes ≡ false) × (seat.me.0.filling ≡ false) × (seat.me.1 ≡ []) },
    ghost made_is: { seat.me.0.made ≡ made },
    ghost counts: { (place ≡ length seat.me.0.sent) × (reaped ≡ seat.me.0.reaped) × (used ≡ descriptors made (drop seat.me.0.reaped seat.me.0.sent)) },
    ghost within: { (used ≤ made.size) × (vec_len needs ≡ made.size) × (reaped ≤ place) },
    ghost kept: { AreNeeds made seat.me.0.sent seat.me.0.reaped needs.items },
    ghost tells: { (seat.me.0.tells_sent ≡ false) × (seat.me.0.tells_taken ≡ false) },
}

/// The device's end.
#[derive(Drop)]
pub struct ListTxDevice {
    table: Arc<Shelf, Global>,
    seat: Seat<TxParcel, TxLog>,
    made: TxMade,
    /// Frames taken and frames completed, and descriptors of the frames taken.
    place: u64,
    completed: u64,
    position: u64,
    ghost seated: { seat.table_id ≡ (arc_value table).shared.table_id },
    ghost sized: { (seat.table_id.slots ≡ made.size) × (seat.table_id.words ≡ 2) × (0 < made.size) × (made.size ≤ MAX_RING_SIZE) × (least_piece made.with_data ≤ made.piece) × (made.piece ≤ MAX_PIECE) },
    ghost rests: { (seat.me.0.takes ≡ true) × (seat.me.0.sends ≡ false) × (seat.me.0.emptying ≡ false) × (seat.me.1 ≡ []) },
    ghost made_is: { seat.me.0.made ≡ made },
    ghost full: { made.full ≡ true },
    ghost counts: { (place ≡ length seat.me.0.taken) × (completed ≡ seat.me.0.completed) × (position ≡ found_in seat.me.0.taken) },
    ghost tells: { (seat.me.0.tells_sent ≡ false) × (seat.me.0.tells_taken ≡ false) },
}

/// What one end tells the other: the seat in the table that knows it.
#[derive(Drop)]
pub struct TxSlip {
    seat: Seat<TxParcel, TxLog>,
    ghost bare: { seat.me.1 ≡ [] },
    ghost side: { seat.me.0.tells_taken ≡ not seat.me.0.tells_sent },
}

/// A note of one end, for the other to hear.
#[derive(Drop)]
pub enum ListTxNote {
    /// It tells what its end did.
    Told { slip: TxSlip },
    /// It names no table and tells nothing, so that it fits no end over lists.
    Nothing,
}

/// What is known of a queue whose ends have met.
#[derive(Drop)]
pub struct ListTxFacts {
    badge: Badge<TxLog>,
    pub(crate) made: TxMade,
    pub(crate) sent: u64,
    pub(crate) taken: u64,
    pub(crate) completed: u64,
    pub(crate) reaped: u64,
    ghost made_is: { (known badge.views).made ≡ made },
    ghost lists: { (sent ≡ length (known badge.views).sent) × (taken ≡ length (known badge.views).taken) },
    ghost numbers: { (completed ≡ (known badge.views).completed) × (reaped ≡ (known badge.views).reaped) },
}
