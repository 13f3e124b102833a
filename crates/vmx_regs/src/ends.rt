//! The two sides of a set of registers, their notes, and the facts that are left when the sides meet.
//! The driver writes a command word and the device an answer word: the number or value in the low 32 bits, and bit 32 says
//! whether their count is odd. The bag lies in the one slot, which is out with the driver at rest and with the device while it
//! serves. The other words are the line, masks, doorbells and events (`places.rt`). Own to this project.

ghost use Rattle.std.specs.Prelude.{◌≡◌, ◌+◌, ◌≤◌, [], ◌∷◌, length, true, false, is_some};
ghost use Rattle.std.specs.Arc.{arc_value};
ghost use Rattle.vmx_layout.specs.declared.register.TheConstants.{MAX_INTERRUPTS};
ghost use Rattle.vmx_regs.specs.Masks.{words_of};
ghost use Rattle.vmx_regs.specs.Whole.{known, the_view};
ghost use Rattle.vmx_regs.specs.Slots.{driver_slots, device_slots};

use crate::bag::Bag;
use crate::known::{Known, Regs};
use atomic_table::{Badge, Seat, Table};
use std::alloc::Global;
use std::sync::Arc;
use vmx_io::Handed;

mod bells;
mod device;
mod driver;
mod life;
mod masks;
mod notes;

pub use bells::Bell;
pub use life::{make, meet};
pub use masks::Raised;

pub(crate) type Shelf<E> = Table<Option<Bag<E>>, Known, u64, Regs<E>, Global>;

/// The driver's side.
#[derive(Drop)]
pub struct DriverRegs<E: Handed> {
    table: Arc<Shelf<E>, Global>,
    seat: Seat<Option<Bag<E>>, Known>,
    interrupts: u32,
    // How many commands were answered, at most 2^62, and whether one more was sent.
    turns: u64,
    asked: bool,
    ghost seated: { (seat.table_id ≡ (arc_value table).shared.table_id) × ((arc_value table).shared.key ≡ interrupts) },
    ghost sized: { (seat.table_id.words ≡ words_of interrupts) × (seat.table_id.slots ≡ 1) },
    ghost numbered: { (seat.me.0.calls.interrupts ≡ interrupts) × (interrupts ≤ MAX_INTERRUPTS) },
    ghost role: { (seat.me.0.calls.drives ≡ true) × (seat.me.0.calls.serves ≡ false) × (seat.me.0.calls.begun ≡ true) × (seat.me.0.calls.tells_commands ≡ false) × (seat.me.0.calls.tells_served ≡ false) },
    ghost mask_role: { (seat.me.0.masks.drives ≡ true) × (seat.me.0.masks.serves ≡ false) },
    ghost counts: { (turns ≡ length seat.me.0.calls.turns) × (asked ≡ is_some seat.me.0.calls.asked) },
    ghost carries: { seat.me.1 ≡ driver_slots seat.me.0.calls.asked },
}

/// The device's side.
#[derive(Drop)]
pub struct DeviceRegs<E: Handed> {
    table: Arc<Shelf<E>, Global>,
    seat: Seat<Option<Bag<E>>, Known>,
    interrupts: u32,
    // How many commands were answered, at most 2^62.
    turns: u64,
    ghost seated: { (seat.table_id ≡ (arc_value table).shared.table_id) × ((arc_value table).shared.key ≡ interrupts) },
    ghost sized: { (seat.table_id.words ≡ words_of interrupts) × (seat.table_id.slots ≡ 1) },
    ghost numbered: { (seat.me.0.calls.interrupts ≡ interrupts) × (interrupts ≤ MAX_INTERRUPTS) },
    ghost role: { (seat.me.0.calls.drives ≡ false) × (seat.me.0.calls.serves ≡ true) × (seat.me.0.calls.tells_commands ≡ false) × (seat.me.0.calls.tells_served ≡ false) },
    ghost mask_role: { (seat.me.0.masks.drives ≡ false) × (seat.me.0.masks.serves ≡ true) },
    ghost counts: { turns ≡ length seat.me.0.calls.served },
    ghost carries: { seat.me.1 ≡ device_slots seat.me.0.calls.serving },
}

/// What one side tells the other of what it has done. It takes no memory, and is heard once.
#[derive(Drop)]
pub struct RegsNote {
    badge: Badge<Known>,
    ghost one: { badge.views ≡ the_view badge.views ∷ [] },
}

/// What is known of registers whose two sides have met. Only `meet` makes it.
#[derive(Drop)]
pub struct RegsFacts {
    badge: Badge<Known>,
    commands: u64,
    answers: u64,
    ghost counts: { (commands ≡ length (known badge.views).turns) × (answers ≡ length (known badge.views).turns) },
}

/// What the driver finds of an outstanding command.
#[derive(Drop)]
pub enum Answer<E> {
    /// The device's reply: its value, below 2^32, and the bag that came back with it.
    Done { value: u32, bag: Bag<E> },
    /// A look found the reply not given: the word that it found is that of the answer before.
    Pending { word: u64 },
}

/// What the device finds of the next command.
#[derive(Drop)]
pub enum Poll<E> {
    /// A command: its number, below 2^32, and the bag that came with it.
    Command { number: u32, bag: Bag<E> },
    /// A look found no new command: the word that it found is that of the command before.
    Quiet { word: u64 },
}
