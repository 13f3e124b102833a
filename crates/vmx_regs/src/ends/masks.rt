//! Masks of interrupts, and the line. A mask word is 2w + m: w counts the driver's writes to it and stands still at 2^63 - 1,
//! and m is 1 while the interrupt is masked. The line has a bit for each interrupt. Both are own to this project; that an
//! interrupt may mask itself when it is raised is Linux's automask (`vmxnet3_defs.h`).

ghost use Rattle.std.specs.Prelude.{◌≡◌, ◌+◌, ◌*◌, ◌/◌, ◌<◌, min, true, false};
ghost use Rattle.vmx_regs.specs.declared.known.Deed.TheVariants.{Swap};
ghost use Rattle.vmx_regs.specs.Masks.{line_word, mask_word, writing, hinting};
ghost use Rattle.vmx_regs.specs.Ends.{driver_key, device_key, driver_view, device_view, driver_masks, device_masks, driver_interrupts, device_interrupts, Raises};

use super::{DeviceRegs, DriverRegs};
use crate::places::{FIRST_MASK, LAST_COUNT, LINE_WORD};
use crate::plays::{AutoSet, LineOr, LineSwap, LooksForMask, MaskStore, RaiseLook};
use vmx_io::Handed;

/// What `raise` found.
#[derive(Drop)]
pub enum Raised {
    /// The interrupt was raised: its bit of the line is set.
    Yes,
    /// It is masked, and was not raised: the word of its mask that was found is odd.
    Masked { word: u64 },
}

/// Twice the count of writes after one more.
fn next(word: u64) -> u64
    ensures next { result ≡ 2 * min (word / 2 + 1) LAST_COUNT }
{
    if word / 2 < LAST_COUNT {
        return 2 * (word / 2 + 1);
    }
    2 * LAST_COUNT
}

impl<E: Handed> DriverRegs<E> {
    /// Masks an interrupt, of a number below that of interrupts.
    pub fn mask(&mut self, i: u32)
        requires low { i < driver_interrupts self.old }
        ensures key { driver_key self.new ≡ driver_key self.old }
        ensures calls { driver_view self.new ≡ driver_view self.old }
        ensures view { driver_masks self.new ≡ writing (driver_masks self.old) (mask_word i) true }
    {
        let at = FIRST_MASK + i as usize;
        let shared = &self.table.shared;
        let word = shared.load::<LooksForMask>(&mut self.seat, at);
        shared.store::<MaskStore>(&mut self.seat, at, next(word) + 1);
    }

    /// Unmasks an interrupt, of a number below that of interrupts.
    pub fn unmask(&mut self, i: u32)
        requires low { i < driver_interrupts self.old }
        ensures key { driver_key self.new ≡ driver_key self.old }
        ensures calls { driver_view self.new ≡ driver_view self.old }
        ensures view { driver_masks self.new ≡ writing (driver_masks self.old) (mask_word i) false }
    {
        let at = FIRST_MASK + i as usize;
        let shared = &self.table.shared;
        let word = shared.load::<LooksForMask>(&mut self.seat, at);
        shared.store::<MaskStore>(&mut self.seat, at, next(word));
    }

    /// The interrupts that were raised since the last call, as bits, which it clears.
    pub fn line(&mut self) -> u64
        ensures key { driver_key self.new ≡ driver_key self.old }
        ensures calls { driver_view self.new ≡ driver_view self.old }
        ensures view { driver_masks self.new ≡ hinting (driver_masks self.old) line_word Swap 0 result }
    {
        self.table
            .shared
            .swap::<LineSwap>(&mut self.seat, LINE_WORD, 0)
    }
}

impl<E: Handed> DeviceRegs<E> {
    /// Raises an interrupt, of a number below that of interrupts, unless it is masked; with `auto` it is masked then.
    pub fn raise(&mut self, i: u32, auto: bool) -> Raised
        requires low { i < device_interrupts self.old }
        ensures key { device_key self.new ≡ device_key self.old }
        ensures calls { device_view self.new ≡ device_view self.old }
        ensures answer { Raises (device_masks self.old) i auto result (device_masks self.new) }
    {
        let at = FIRST_MASK + i as usize;
        let shared = &self.table.shared;
        let word = shared.load::<RaiseLook>(&mut self.seat, at);
        if word % 2 == 1 {
            return Raised::Masked { word };
        }
        shared.fetch_or::<LineOr>(&mut self.seat, LINE_WORD, 1 << i);
        if auto {
            shared.fetch_or::<AutoSet>(&mut self.seat, at, 1);
        }
        Raised::Yes
    }
}
