//! Doorbells and events, which are hints: no fate of a frame rests on them. A doorbell has the last index that the driver wrote,
//! modulo 2^32, as Linux's registers TXPROD, RXPROD and RXPROD2 have. Events are 32 bits that the device sets and the driver
//! clears, as in the field `ecr` of Linux's `vmxnet3_defs.h`; that they lie in a word of their own is own to this project.

ghost use Rattle.std.specs.Prelude.{◌≡◌, ◌+◌, ◌*◌, ◌-◌, ◌<◌};
ghost use Rattle.vmx_regs.specs.declared.known.Deed.TheVariants.{Load, Store};
ghost use Rattle.vmx_regs.specs.Masks.{bell_word, event_word, hinting};
ghost use Rattle.vmx_regs.specs.Bells.{bell_number, IsBell};
ghost use Rattle.vmx_regs.specs.Ends.{driver_key, device_key, driver_view, device_view, driver_masks, device_masks, driver_interrupts, device_interrupts, Acks, Marks};

use super::{DeviceRegs, DriverRegs};
use crate::places::{BELLS, FIRST_MASK, TX_BELLS};
use crate::plays::{BellStore, EventAnd, EventOr, HintLook};
use vmx_io::Handed;

/// A doorbell.
#[derive(Clone, Copy, Drop)]
pub enum Bell {
    /// That of a transmit queue, 0 to 7.
    Tx { queue: u32 },
    /// That of ring 1 or 2 of a receive queue, 0 to 7.
    Rx { queue: u32, ring: u32 },
}

impl Bell {
    /// Its place among the doorbells, from 0.
    fn number(self) -> usize
        requires bell { IsBell self }
        ensures number { result ≡ bell_number self }
        ensures low { result < BELLS }
    {
        match self {
            Bell::Tx { queue } => queue as usize,
            Bell::Rx { queue, ring } => TX_BELLS + 2 * queue as usize + (ring as usize - 1),
        }
    }
}

impl<E: Handed> DriverRegs<E> {
    /// Writes an index into a doorbell, in the place of the one that was there.
    pub fn ring(&mut self, bell: Bell, index: u32)
        requires bell { IsBell bell }
        ensures key { driver_key self.new ≡ driver_key self.old }
        ensures calls { driver_view self.new ≡ driver_view self.old }
        ensures view { driver_masks self.new ≡ hinting (driver_masks self.old) (bell_word (driver_interrupts self.old) (bell_number bell)) Store index index }
    {
        let rung = self.interrupts as usize + FIRST_MASK + bell.number();
        self.table
            .shared
            .store::<BellStore>(&mut self.seat, rung, index as u64);
    }

    /// The bits of the events that were set and not cleared since.
    pub fn events(&mut self) -> u32
        ensures key { driver_key self.new ≡ driver_key self.old }
        ensures calls { driver_view self.new ≡ driver_view self.old }
        ensures view { driver_masks self.new ≡ hinting (driver_masks self.old) (event_word (driver_interrupts self.old)) Load 0 result }
    {
        let at = self.interrupts as usize + FIRST_MASK + BELLS;
        self.table.shared.load::<HintLook>(&mut self.seat, at) as u32
    }

    /// Clears the events of these bits, and no other.
    pub fn ack(&mut self, bits: u32)
        ensures key { driver_key self.new ≡ driver_key self.old }
        ensures calls { driver_view self.new ≡ driver_view self.old }
        ensures view { Acks (driver_masks self.old) (event_word (driver_interrupts self.old)) bits (driver_masks self.new) }
    {
        let at = self.interrupts as usize + FIRST_MASK + BELLS;
        self.table
            .shared
            .fetch_and::<EventAnd>(&mut self.seat, at, !(bits as u64));
    }
}

impl<E: Handed> DeviceRegs<E> {
    /// The index that a doorbell has: the last that was written, or 0 where none was.
    pub fn doorbell(&mut self, bell: Bell) -> u32
        requires bell { IsBell bell }
        ensures key { device_key self.new ≡ device_key self.old }
        ensures calls { device_view self.new ≡ device_view self.old }
        ensures view { device_masks self.new ≡ hinting (device_masks self.old) (bell_word (device_interrupts self.old) (bell_number bell)) Load 0 result }
    {
        let asked = self.interrupts as usize + FIRST_MASK + bell.number();
        self.table.shared.load::<HintLook>(&mut self.seat, asked) as u32
    }

    /// Sets the events of these bits, and clears none.
    pub fn event(&mut self, bits: u32)
        ensures key { device_key self.new ≡ device_key self.old }
        ensures calls { device_view self.new ≡ device_view self.old }
        ensures view { Marks (device_masks self.old) (event_word (device_interrupts self.old)) bits (device_masks self.new) }
    {
        let at = self.interrupts as usize + FIRST_MASK + BELLS;
        self.table
            .shared
            .fetch_or::<EventOr>(&mut self.seat, at, bits as u64);
    }
}
