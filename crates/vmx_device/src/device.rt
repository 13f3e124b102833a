//! A device, its turns, and what it leaves.
ghost use Rattle.std.specs.Prelude.{⊤, true, ◌≡◌, ◌≤◌, ◌<◌, ◌^◌, ◌+◌, ◌++◌, ℕ, [], List, None, Some, length, map, suc, option_map, OnErr, IfOk, MatchResult};
ghost use Rattle.std.specs.List.{AllByRecursion};
ghost use Rattle.vmx_switch.specs.declared.answer.TheConstants.{MAX_PORTS};
ghost use Rattle.vmx_link.specs.Ends.{out_view, in_view};
ghost use Rattle.vmx_regs.specs.Ends.{device_key, device_view, device_masks, device_interrupts};
ghost use Rattle.vmx_machine_state.specs.Views.{ends_view, ends_of};
ghost use Rattle.vmx_model.specs.declared.journal.Entry.{Entry as EntryValue};
ghost use Rattle.vmx_model.specs.Journal.{Beside};
ghost use Rattle.vmx_model.specs.Views.{GuestView};
ghost use Rattle.vmx_model.specs.Bags.{EachQueue, DeviceLeaves};
ghost use Rattle.vmx_device_laws.specs.Views.{DeviceView, AreWhole, tx_held, rx_held};
ghost use Rattle.vmx_device_laws.specs.Keeps.{Keeps};
ghost use Rattle.vmx_device_laws.specs.New.{IsNewOut, IsNewIn, new_device};
ghost use Rattle.vmx_device_laws.specs.Steps.{TurnsOnce, FindsNothing, worked};
ghost use Rattle.vmx_device_laws.specs.Quiet.{GrowsQuietly};
ghost use Rattle.vmx_device_laws.specs.declared.turn.Turn.TheVariants as TurnValue;
ghost use Rattle.vmx_device.specs.Rest.{is_at_rest};
ghost use Rattle.vmx_device.specs.declared.growing.TheConstants.{TURN_ENTRIES};
ghost use Rattle.vmx_device_laws.specs.Leaves.{HasEnded, IsOfDevice, LinksSay};

use crate::counting::{rx_queues, tx_queues};
use crate::growing::grow;
use crate::inner::Inner;
use crate::looking::look_at_all;
use std::alloc::{AllocError, Global};
use std::marker::Model;
use vmx_commands::Machine;
use vmx_device_laws::Turn;
use vmx_ends::{Ends, Fabric};
use vmx_io::{List, MAX_FRAME, Roomy};
use vmx_link::{LinkIn, LinkOut};
use vmx_model::Journal;
use vmx_regs::DeviceRegs;
use vmx_switch::Table;

/// The device actor of a guest.
#[derive(Drop)]
pub struct Device<F: Fabric> {
    pub(crate) inner: Inner<F>,
}

impl<F: Fabric> Model for Device<F> {
    ghost use Rattle.vmx_device_laws.specs.Views.{DeviceView};

    ghost Value = { DeviceView };

    ghost use Rattle.vmx_device.specs.Holds.{inner_view, Holds};

    ghost view = { λ d. inner_view d.inner };

    ghost invariant = { λ d. Holds d.inner };
}

impl<F: Fabric> Device<F> {
    /// An idle device at a port of the switch, with new registers of at least 17 interrupts, and with new links of 64 packets to and
    /// from all other ports, in port order.
    pub fn new(
        alloc: Global,
        port: u32,
        mac: [u8; 6],
        table: Table,
        regs: DeviceRegs<Ends<F>>,
        out: List<LinkOut>,
        input: List<LinkIn>,
    ) -> Result<Device<F>, AllocError>
        requires port { port < length table.macs }
        requires links { (suc (length out) ≡ length table.macs) × (length input ≡ length out) }
        requires ports { length table.macs ≤ MAX_PORTS }
        requires out { EachQueue (IsNewOut port) 0 (map out_view out) }
        requires input { EachQueue (IsNewIn port) 0 (map in_view input) }
        requires interrupts { 17 ≤ device_interrupts regs }
        requires regs { ((device_view regs).served ≡ []) × ((device_view regs).serving ≡ None) }
        ensures new { IfOk result (λ d. d ≡ new_device port mac table (device_key regs) (device_view regs) (device_masks regs) (map out_view out) (map in_view input)) }
    {
        let bytes = Vec::with_capacity(alloc, MAX_FRAME)?;
        let spare = Vec::with_capacity(alloc, MAX_FRAME)?;
        let journal = Journal {
            entries: Roomy::new(alloc),
            setups: Roomy::new(alloc),
        };
        let inner = Inner {
            port,
            table,
            machine: Machine::new(mac),
            regs,
            out,
            input,
            journal,
            begun: 0,
            copies: List::new(alloc),
            bytes,
            spare,
            alloc,
        };
        Ok(Device { inner })
    }

    /// Looks once at the command register, then, when active, at each transmit queue that is not stopped, in order, then at each link
    /// from another port in port order, and handles what each look finds: one command, one frame, one packet. A frame that is taken
    /// is completed in the same turn. A packet that comes to an idle device is `Inactive`. `Idle` comes exactly where no look found
    /// anything; a turn in which an end's given words show a fault is `Worked`. For want of memory all is as before.
    ///
    /// Conditions: each queue end that is held has heard as many notes as it gave; fewer than 2^55 entries and 2^31 commands lie
    /// behind.
    pub fn turn(&mut self) -> Result<Turn, AllocError>
        requires even { AreWhole self.old }
        requires few { (length self.old.entries < 2 ^ 55) × (length self.old.calls.served < 2 ^ 31) }
        ensures err { OnErr result (self.new ≡ self.old) }
        ensures once { IfOk result (λ t. TurnsOnce (worked t) self.old self.new) }
        ensures even { AreWhole self.new }
        ensures most { (length self.new.entries ≤ length self.old.entries + TURN_ENTRIES) × (length self.new.calls.served ≤ length self.old.calls.served + 1) }
        ensures idle { IfOk result (λ t. t ≡ TurnValue.Idle → FindsNothing self.old self.new) }
        // A device that is idle after its turn has no queue end: its journal grew by commands, and by packets that it did not take.
        ensures quiet { self.new.machine.active ≡ None → GrowsQuietly self.old.entries self.new.entries }
        // From a quiesce or a reset that was answered 0 until the next activation that is answered 0 it is idle.
        ensures rest { is_at_rest self.new.entries ≡ true → self.new.machine.active ≡ None }
    {
        grow(
            self.inner.alloc,
            &mut self.inner.journal,
            &mut self.inner.copies,
        )?;
        Ok(turn_of(look_at_all(&mut self.inner)))
    }

    /// Its port at the switch.
    pub fn port(&self) -> u32
        ensures port { result ≡ self.now.port }
    {
        self.inner.port
    }

    /// How many transmit queue ends it holds.
    pub fn tx_queues(&self) -> u32
        ensures count { result ≡ tx_held self.now.machine.active }
    {
        tx_queues(&self.inner.machine)
    }

    /// How many receive queue ends it holds.
    pub fn rx_queues(&self) -> u32
        ensures count { result ≡ rx_held self.now.machine.active }
    {
        rx_queues(&self.inner.machine)
    }

    /// All that the device did, in order.
    pub fn journal(&self) -> &Journal
        ensures entries { result.now.entries.0 ≡ self.now.entries }
        ensures setups { result.now.setups.0 ≡ self.now.setups }
        ensures keeps { Keeps self.now }
    {
        &self.inner.journal
    }

    /// The queue ends that it holds, or None exactly while it is idle: from a quiesce or a reset that was answered 0 until the next
    /// activation that is answered 0, and before the first one.
    pub fn ends(&self) -> Option<&Ends<F>>
        ensures rest { is_at_rest self.now.entries ≡ true → result ≡ None }
        ensures ends { option_map (λ e. ends_view F.TxDevice.view F.RxDevice.view e.now) result ≡ ends_of self.now.machine }
    {
        self.inner.machine.ends()
    }

    /// The parts of the device. One that has ended, with a driver behind the words of all ends that it handed back, leaves its part
    /// of the premises of a replay's accounts, beside whatever longer lists; its links say what its journal says.
    pub fn into_parts(self) -> Parts<F>
        ensures journal { (result.journal.entries.0 ≡ self.entries) × (result.journal.setups.0 ≡ self.setups) }
        ensures machine { result.machine ≡ self.machine }
        ensures regs { (device_view result.regs ≡ self.calls) × (device_key result.regs ≡ self.key) × (device_masks result.regs ≡ self.masks) }
        ensures links { (map out_view result.out ≡ self.out) × (map in_view result.input ≡ self.input) }
        ensures keeps { Keeps self }
        ensures leaves { (b : Beside) (v : GuestView) → HasEnded self b → IsOfDevice self v → DeviceLeaves self.table b v }
        ensures say { LinksSay self }
    {
        let Device { inner } = self;
        let Inner {
            port: _,
            table: _,
            machine,
            regs,
            out,
            input,
            journal,
            begun: _,
            copies: _,
            bytes: _,
            spare: _,
            alloc: _,
        } = inner;
        Parts {
            journal,
            machine,
            regs,
            out,
            input,
        }
    }
}

/// What a device leaves.
#[derive(Drop)]
pub struct Parts<F: Fabric> {
    pub journal: Journal,
    pub machine: Machine<F>,
    pub regs: DeviceRegs<Ends<F>>,
    pub out: List<LinkOut>,
    pub input: List<LinkIn>,
}

fn turn_of(found: bool) -> Turn
    ensures turn { worked result ≡ found }
{
    if found { Turn::Worked } else { Turn::Idle }
}
