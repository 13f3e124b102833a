//! What each kind of step tells. These types stand in proofs alone.

ghost use Rattle.vmx_regs.specs.Masks.{mask_looked, mask_stored, raise_looked, auto_set, hinted, hint_looked};
ghost use Rattle.vmx_regs.specs.declared.known.Deed.TheVariants.{Load, Store, Swap, Or, And};
ghost use Rattle.vmx_regs.specs.Plays.{of_calls, of_masks, opened, command_stored, command_looked, answer_stored, answer_looked, closed, met, driver_knows, device_knows};

use crate::bag::Bag;
use crate::known::Known;
use atomic_table::{Join, Play, Split};
use vmx_io::Handed;

pub(crate) struct Apart;

impl Split<Known> for Apart {
    ghost use Rattle.vmx_regs.specs.Rule.{driver_part, device_part};
    ghost use Rattle.vmx_regs.specs.Masks.{driver_masks_part, device_masks_part};
    ghost use Rattle.vmx_regs.specs.Whole.{knowing};

    ghost left = { λ v. knowing (driver_part v.calls) (driver_masks_part v.masks) };

    ghost right = { λ v. knowing (device_part v.calls) (device_masks_part v.masks) };
}

pub(crate) struct Together;

impl Join<Known> for Together {
    ghost use Rattle.vmx_regs.specs.Rule.{together};
    ghost use Rattle.vmx_regs.specs.Masks.{masks_together};
    ghost use Rattle.vmx_regs.specs.Whole.{knowing, nothing};

    ghost both = { λ v w. knowing (together v.calls w.calls) (masks_together v.masks w.masks) };

    ghost spent = { nothing };
}

pub(crate) struct Opens;

impl<E: Handed> Play<Option<Bag<E>>, Known> for Opens {
    ghost then = { of_calls opened };
}

pub(crate) struct CommandStore;

impl<E: Handed> Play<Option<Bag<E>>, Known> for CommandStore {
    ghost then = { of_calls (command_stored E.handed) };
}

pub(crate) struct CommandLook;

impl<E: Handed> Play<Option<Bag<E>>, Known> for CommandLook {
    ghost then = { of_calls (command_looked E.handed) };
}

pub(crate) struct AnswerStore;

impl<E: Handed> Play<Option<Bag<E>>, Known> for AnswerStore {
    ghost then = { of_calls (answer_stored E.handed) };
}

pub(crate) struct AnswerLook;

impl<E: Handed> Play<Option<Bag<E>>, Known> for AnswerLook {
    ghost then = { of_calls (answer_looked E.handed) };
}

pub(crate) struct Closes;

impl<E: Handed> Play<Option<Bag<E>>, Known> for Closes {
    ghost then = { of_calls closed };
}

pub(crate) struct Met;

impl<E: Handed> Play<Option<Bag<E>>, Known> for Met {
    ghost then = { of_calls met };
}

pub(crate) struct DriverHeard;

impl<E: Handed> Play<Option<Bag<E>>, Known> for DriverHeard {
    ghost then = { of_calls driver_knows };
}

pub(crate) struct DeviceHeard;

impl<E: Handed> Play<Option<Bag<E>>, Known> for DeviceHeard {
    ghost then = { of_calls device_knows };
}

pub(crate) struct DriverNote;

impl Split<Known> for DriverNote {
    ghost use Rattle.vmx_regs.specs.Rule.{told_driver, driver_note};
    ghost use Rattle.vmx_regs.specs.Masks.{masks_note};
    ghost use Rattle.vmx_regs.specs.Whole.{knowing};

    ghost left = { λ v. knowing (told_driver v.calls) v.masks };

    ghost right = { λ v. knowing (driver_note v.calls) (masks_note v.masks) };
}

pub(crate) struct DeviceNote;

impl Split<Known> for DeviceNote {
    ghost use Rattle.vmx_regs.specs.Rule.{told_device, device_note};
    ghost use Rattle.vmx_regs.specs.Masks.{no_masks};
    ghost use Rattle.vmx_regs.specs.Whole.{knowing};

    ghost left = { λ v. knowing (told_device v.calls) v.masks };

    ghost right = { λ v. knowing (device_note v.calls) no_masks };
}

pub(crate) struct HearDriver;

impl Join<Known> for HearDriver {
    ghost use Rattle.vmx_regs.specs.Rule.{hears_driver};
    ghost use Rattle.vmx_regs.specs.Masks.{hears_masks};
    ghost use Rattle.vmx_regs.specs.Whole.{knowing, nothing};

    ghost both = { λ v w. knowing (hears_driver v.calls w.calls) (hears_masks v.masks w.masks) };

    ghost spent = { nothing };
}

pub(crate) struct HearDevice;

impl Join<Known> for HearDevice {
    ghost use Rattle.vmx_regs.specs.Rule.{hears_device};
    ghost use Rattle.vmx_regs.specs.Whole.{knowing, nothing};

    ghost both = { λ v w. knowing (hears_device v.calls w.calls) v.masks };

    ghost spent = { nothing };
}

pub(crate) struct LooksForMask;

impl<E: Handed> Play<Option<Bag<E>>, Known> for LooksForMask {
    ghost then = { of_masks mask_looked };
}

pub(crate) struct MaskStore;

impl<E: Handed> Play<Option<Bag<E>>, Known> for MaskStore {
    ghost then = { of_masks mask_stored };
}

pub(crate) struct RaiseLook;

impl<E: Handed> Play<Option<Bag<E>>, Known> for RaiseLook {
    ghost then = { of_masks raise_looked };
}

pub(crate) struct AutoSet;

impl<E: Handed> Play<Option<Bag<E>>, Known> for AutoSet {
    ghost then = { of_masks auto_set };
}

pub(crate) struct LineOr;

impl<E: Handed> Play<Option<Bag<E>>, Known> for LineOr {
    ghost then = { of_masks (hinted Or) };
}

pub(crate) struct LineSwap;

impl<E: Handed> Play<Option<Bag<E>>, Known> for LineSwap {
    ghost then = { of_masks (hinted Swap) };
}

pub(crate) struct BellStore;

impl<E: Handed> Play<Option<Bag<E>>, Known> for BellStore {
    ghost then = { of_masks (hinted Store) };
}

pub(crate) struct HintLook;

impl<E: Handed> Play<Option<Bag<E>>, Known> for HintLook {
    ghost then = { of_masks (hint_looked Load) };
}

pub(crate) struct EventOr;

impl<E: Handed> Play<Option<Bag<E>>, Known> for EventOr {
    ghost then = { of_masks (hinted Or) };
}

pub(crate) struct EventAnd;

impl<E: Handed> Play<Option<Bag<E>>, Known> for EventAnd {
    ghost then = { of_masks (hinted And) };
}
