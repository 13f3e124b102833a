//! What a seat of the registers' table knows, and the rule of the table. No value of a view is made: views stand in proofs and
//! contracts alone. The table has the words of `places.rt`, and one slot for the bag. Two rules stand beside each other, one of
//! commands and answers, and one of masks, line, doorbells and events. Own to this project.

use crate::bag::Bag;
use atomic_table::TableRule;
use std::collections::LinkedList;
use std::marker::PhantomData;
use vmx_device_state::{CommandView, Turn};
use vmx_io::Handed;

/// What a seat knows of commands and answers.
pub struct Calls {
    /// The number of interrupts, 1 to 25.
    pub interrupts: u64,
    /// This is the seat of the driver, or of the device; of both where they are not apart.
    pub drives: bool,
    pub serves: bool,
    /// The driver has the slot out, or had it: it may command.
    pub begun: bool,
    /// The commands that the driver was answered, with their answers, and the command that it waits for.
    pub turns: LinkedList<Turn>,
    pub asked: Option<CommandView>,
    /// The commands that the device answered, with their answers, and the command that it holds.
    pub served: LinkedList<Turn>,
    pub serving: Option<CommandView>,
    /// This side's looks that found nothing new, each with the number of turns or of answers before it, and the word found.
    pub looks: LinkedList<(u64, u64)>,
    /// The longest lists of which notes told: the driver's commands and its turns, and the device's. In a note, those of which
    /// it tells.
    pub heard_commands: LinkedList<CommandView>,
    pub heard_turns: LinkedList<Turn>,
    pub heard_served: LinkedList<Turn>,
    /// The lists of which the last note told.
    pub last_commands: LinkedList<CommandView>,
    pub last_turns: LinkedList<Turn>,
    pub last_served: LinkedList<Turn>,
    /// This is the seat of a note of the driver's, or of the device's, that was not heard yet.
    pub tells_commands: bool,
    pub tells_served: bool,
    /// How many notes the driver, and the device, gave and heard.
    pub driver_notes_given: u64,
    pub driver_notes_heard: u64,
    pub device_notes_given: u64,
    pub device_notes_heard: u64,
}

/// A write of the driver's to a mask.
pub struct MaskWrite {
    /// The mask's word in the table.
    pub word: u64,
    /// Whether it masked.
    pub masked: bool,
}

/// The device set a mask, as it raised the interrupt.
pub struct MaskSet {
    /// The mask's word in the table.
    pub word: u64,
    /// The number of the driver's writes that the word had, up to 2^63 - 1.
    pub writes: u64,
    /// How many deeds at line, doorbells and events the device had done before.
    pub hints: u64,
}

/// A look of the device's at a mask.
pub struct MaskLook {
    /// The mask's word in the table.
    pub word: u64,
    /// What it held.
    pub found: u64,
}

/// What was done to the line, a doorbell or the events: one atomic step on its word.
pub enum Deed {
    Load,
    Store,
    Swap,
    Or,
    And,
}

/// A deed at the line, a doorbell or the events.
pub struct Hint {
    /// The word in the table.
    pub word: u64,
    pub deed: Deed,
    /// What was stored, or the bits; 0 for a load.
    pub operand: u64,
    /// What the word held; for a store, what it stored.
    pub found: u64,
}

/// What a seat knows of masks, the line, doorbells and events.
pub struct Masks {
    /// This is the seat of the driver, or of the device; of both where they are not apart.
    pub drives: bool,
    pub serves: bool,
    /// The driver's writes to masks, in order.
    pub writes: LinkedList<MaskWrite>,
    /// The device's settings of masks, and its looks at them, in order.
    pub sets: LinkedList<MaskSet>,
    pub saw: LinkedList<MaskLook>,
    /// The longest list of the driver's writes of which a note told. In a note, that of which it tells.
    pub heard: LinkedList<MaskWrite>,
    /// This side's deeds at the line, the doorbells and the events, in order.
    pub hints: LinkedList<Hint>,
}

/// What a seat knows, for the one rule and for the other.
pub struct Known {
    pub calls: Calls,
    pub masks: Masks,
}

/// The rule of the registers' table, whose key is the number of interrupts.
pub struct Regs<E> {
    marker: PhantomData<E>,
}

impl<E: Handed> TableRule<Option<Bag<E>>, Known, u64> for Regs<E> {
    ghost use Rattle.vmx_regs.specs.Whole.{Keeps, newest};

    ghost holds = { Keeps E.handed };

    ghost first = { newest };
}
