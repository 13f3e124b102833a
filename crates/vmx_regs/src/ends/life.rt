//! How the two sides are made, and how they meet.

ghost use Rattle.std.specs.Prelude.{◌≡◌, ◌≤◌, None, IfOk, length};
ghost use Rattle.vmx_layout.specs.declared.register.TheConstants.{MAX_INTERRUPTS};
ghost use Rattle.vmx_regs.specs.Turns.{AreTurns};
ghost use Rattle.vmx_regs.specs.Masks.{AreFirst};
ghost use Rattle.vmx_regs.specs.Ends.{driver_key, device_key, driver_view, device_view, driver_masks, device_masks, new_driver, new_device, new_driver_masks, new_device_masks, facts_key, facts_turns};

use super::{DeviceRegs, DriverRegs, RegsFacts, Shelf};
use crate::places::{BELLS, COMMAND_WORD, FIRST_MASK};
use crate::plays::{Apart, Closes, Met, Opens, Together};
use std::alloc::{AllocError, Global};
use std::sync::Arc;
use vmx_io::Handed;

/// The words of new registers: 1 in each mask, and 0 in all others.
#[tactic(auto, using(crate::proofs::FirstWords::first_none, crate::proofs::FirstWords::first_more))]
fn first_words(alloc: Global, interrupts: u32) -> Result<Vec<u64>, AllocError>
    requires high { interrupts ≤ MAX_INTERRUPTS }
    ensures first { IfOk result (λ v. AreFirst interrupts interrupts v.items) }
{
    let count = interrupts as usize;
    let mut words = Vec::from_elem(alloc, 0u64, count + FIRST_MASK + BELLS + 1)?;
    for i in 0..count {
        words[FIRST_MASK + i] = 1;
    }
    Ok(words)
}

/// New registers with 1 to 25 interrupts, each masked. No event stands, and each doorbell has the index 0. `AllocError` comes
/// only for want of memory.
pub fn make<E: Handed>(
    alloc: Global,
    interrupts: u32,
) -> Result<(DriverRegs<E>, DeviceRegs<E>), AllocError>
    requires low { 1 ≤ interrupts }
    requires high { interrupts ≤ MAX_INTERRUPTS }
    ensures pair { IfOk result (λ p. driver_key p.0 ≡ device_key p.1) }
    ensures driver { IfOk result (λ p. driver_view p.0 ≡ new_driver interrupts) }
    ensures device { IfOk result (λ p. device_view p.1 ≡ new_device interrupts) }
    ensures driver_masks { IfOk result (λ p. driver_masks p.0 ≡ new_driver_masks) }
    ensures device_masks { IfOk result (λ p. device_masks p.1 ≡ new_device_masks) }
{
    let words = first_words(alloc, interrupts)?;
    let about = interrupts as u64;
    let (table, mut seat) = Shelf::<E>::vacant(alloc, words.as_slice(), 1, &about)?;
    let other = table.shared.split_seat::<Apart>(&mut seat);
    table.shared.load::<Opens>(&mut seat, COMMAND_WORD);
    let table = Arc::new(alloc, table)?;
    let twin = Arc::try_clone(&table)?;
    let driver = DriverRegs {
        table,
        seat,
        interrupts,
        turns: 0,
        asked: false,
    };
    let device = DeviceRegs {
        table: twin,
        seat: other,
        interrupts,
        turns: 0,
    };
    Ok((driver, device))
}

/// The facts of the two sides of one set of registers, with no command outstanding.
pub fn meet<E: Handed>(driver: DriverRegs<E>, device: DeviceRegs<E>) -> RegsFacts
    requires pair { driver_key driver ≡ device_key device }
    requires none { (driver_view driver).asked ≡ None }
    ensures key { facts_key result ≡ driver_key driver }
    // Both sides know the same turns, each lawful, and the device holds no command.
    ensures turns { facts_turns result ≡ (driver_view driver).turns }
    ensures served { facts_turns result ≡ (device_view device).served }
    ensures lawful { AreTurns (facts_turns result) }
    ensures idle { (device_view device).serving ≡ None }
    // No side heard more notes than the other gave.
    ensures driver_notes { (driver_view driver).driver_notes_heard ≤ (device_view device).device_notes_given }
    ensures device_notes { (device_view device).device_notes_heard ≤ (driver_view driver).driver_notes_given }
{
    let DriverRegs {
        table,
        seat: mut first,
        interrupts: _,
        turns: commands,
        asked: _,
    } = driver;
    let DeviceRegs {
        table: _,
        seat: mut second,
        interrupts: _,
        turns: answers,
    } = device;
    table.shared.load::<Closes>(&mut first, COMMAND_WORD);
    table.shared.join_seat::<Together>(&mut second, first);
    table.shared.load::<Met>(&mut second, COMMAND_WORD);
    RegsFacts {
        badge: second.into_badge(),
        commands,
        answers,
    }
}

impl RegsFacts {
    ghost use Rattle.std.specs.Prelude.{◌≡◌, length};

    /// How many commands the driver sent.
    pub fn commands(&self) -> u64
        ensures count { result ≡ length (facts_turns self.now) }
    {
        self.commands
    }

    /// How many of them the device answered: each.
    pub fn answers(&self) -> u64
        ensures count { result ≡ length (facts_turns self.now) }
    {
        self.answers
    }
}
