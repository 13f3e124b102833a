//! A device that makes turns, and how many it made.

ghost use Rattle.std.proofs.Props.{props};
ghost use Rattle.std.specs.Prelude.{◌≡◌, ◌≤◌, ◌<◌, ◌+◌, [], None, IfOk, IfSome, OnErr, slice_index_or};
ghost use Rattle.vmx_layout.specs.declared.register.TheConstants.{MAX_QUEUES};
ghost use Rattle.vmx_link.specs.Ends.{out_view, in_view};
ghost use Rattle.vmx_regs.specs.Ends.{device_key, device_view, device_interrupts};
ghost use Rattle.vmx_device_laws.specs.New.{IsNewOut, IsNewIn};
ghost use Rattle.vmx_device_laws.specs.Steps.{TurnsOnce, worked};
ghost use Rattle.vmx_two_guests.specs.Ready.{IsReady};
ghost use Rattle.vmx_two_guests.specs.declared.served.TheConstants.{MAX_TURNS};

use crate::plans::MACS;
use std::alloc::{AllocError, Global};
use vmx_device::{Device, Turn};
use vmx_ends::Ends;
use vmx_io::List;
use vmx_link::{LinkIn, LinkOut};
use vmx_lists::ListFabric;
use vmx_regs::DeviceRegs;
use vmx_shared_area::{Side, Stats};
use vmx_switch::Table;

/// The most turns of a device.
pub const MAX_TURNS: u64 = 20_000_000;

/// A device whose ends are whole, and which made so many turns. What is let go of it is let go here, so that no crate above has to
/// prove that of each of its parts again.
pub struct Served {
    pub device: Device<ListFabric>,
    pub turns: u64,
    pub ghost few: { turns ≤ MAX_TURNS },
    pub ghost ready: { IsReady turns device } by { Prim.hlevel props },
}

impl Drop for Served {
    fn drop(self) {
        let Served {
            device: _,
            turns: _,
        } = self;
    }
}

impl Served {
    /// A turn of the device; none after `MAX_TURNS`. For want of memory all is as before.
    pub fn turn(&mut self) -> Result<Option<Turn>, AllocError>
        ensures err { OnErr result ((self.new.device ≡ self.old.device) × (self.new.turns ≡ self.old.turns)) }
        ensures once { IfOk result (λ o. IfSome o (λ t. TurnsOnce (worked t) self.old.device self.new.device)) }
        ensures none { IfOk result (λ o. o ≡ None → MAX_TURNS ≤ self.old.turns) }
    {
        if self.turns >= MAX_TURNS {
            return Ok(None);
        }
        let turn = self.device.turn()?;
        self.turns += 1;
        Ok(Some(turn))
    }

    /// The statistics of a transmit queue, 0 to 7, at the end of a device.
    pub fn sent_stats(self, queue: u32) -> Stats
        requires queue { queue < MAX_QUEUES }
        ensures counts { result.counts ≡ slice_index_or self.device.machine.tx_stats queue [] }
    {
        let Served { device, turns: _ } = self;
        device.into_parts().machine.stats(Side::Tx, queue)
    }
}

/// A new device at one of two ports, with new registers and the links to and from the other port.
pub fn device_of(
    alloc: Global,
    port: u32,
    regs: DeviceRegs<Ends<ListFabric>>,
    to: LinkOut,
    from: LinkIn,
) -> Result<Served, AllocError>
    requires port { port < 2 }
    requires regs { ((device_view regs).served ≡ []) × ((device_view regs).serving ≡ None) × (17 ≤ device_interrupts regs) }
    requires links { IsNewOut port 0 (out_view to) × IsNewIn port 0 (in_view from) }
    ensures port { IfOk result (λ s. s.device.port ≡ port) }
    ensures key { IfOk result (λ s. s.device.key ≡ device_key regs) }
    ensures entries { IfOk result (λ s. (s.device.entries ≡ []) × (s.turns ≡ 0)) }
{
    let mut out = List::new(alloc);
    out.push(to)?;
    let mut input = List::new(alloc);
    input.push(from)?;
    let table = Table::new(&MACS, &[false, false]);
    let mac = MACS[port as usize];
    let device = Device::<ListFabric>::new(alloc, port, mac, table, regs, out, input)?;
    Ok(Served { device, turns: 0 })
}
