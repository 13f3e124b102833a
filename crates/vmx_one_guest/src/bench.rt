//! The device of a guest at port 0 of two, with its driver and the other guest played by hand.

ghost use Rattle.std.specs.Prelude.{◌≡◌, ◌∷◌, [], ◌++◌, true, None, IfOk, IfSome, IsTrue, is_some, option_map, slice_index_or};
ghost use Rattle.vmx_ends.specs.declared.packet.Packet.{Packet as PacketValue};
ghost use Rattle.vmx_layout.specs.Command.{number_of};
ghost use Rattle.vmx_layout.specs.declared.command.TheConstants.{ACTIVATE_DEV};
ghost use Rattle.vmx_shared_area.specs.Layout.{image_of};
ghost use Rattle.vmx_device_state.specs.Deals.{IsWhole};
ghost use Rattle.vmx_device_state.specs.declared.turn.Turn.{Turn as DoneTurn};
ghost use Rattle.vmx_link.specs.Ends.{out_view};
ghost use Rattle.vmx_regs.specs.Ends.{driver_view};
ghost use Rattle.vmx_machine_state.specs.Views.{ends_view, handed_of, ends_of};
ghost use Rattle.vmx_device_laws.specs.Steps.{TurnsOnce, worked};
ghost use Rattle.vmx_lists.specs.TxEnds.{device_view as tx_device};
ghost use Rattle.vmx_lists.specs.RxEnds.{device_view as rx_device};
ghost use Rattle.vmx_one_guest.specs.Samples.{sample_bytes};
ghost use Rattle.vmx_one_guest.specs.Asks.{Asks};

use crate::commands::{Answered, Commands};
use crate::queues::{Queues, queues_of};
use crate::samples::{Sample, bytes_of};
use std::alloc::{AllocError, Global};
use vmx_device::Turn;
use vmx_ends::{Ends, TxMark};
use vmx_layout::Command;
use vmx_lists::ListFabric;
use vmx_model::Entry;
use vmx_regs::{Bag, make};
use vmx_shared_area::{Image, Setup, Stats, write};
use vmx_two_guests::{Far, INTERRUPTS, Served, device_of, links_of, packet_of};

/// A device, its driver's registers and queues, and the other guest. Each part keeps by its type what its calls ask for.
#[derive(Drop)]
pub struct Bench {
    pub device: Served,
    pub driver: Commands,
    /// The driver's ends of the last activation.
    pub queues: Option<Queues>,
    pub far: Far,
    pub alloc: Global,
    /// How many times ACTIVATE_DEV was given.
    pub activations: u32,
}

impl Bench {
    /// A new device, and nothing done with it.
    pub fn new(alloc: Global) -> Result<Bench, AllocError>
        ensures port { IfOk result (λ b. b.device.device.port ≡ 0) }
        ensures entries { IfOk result (λ b. b.device.device.entries ≡ []) }
        ensures none { IfOk result (λ b. (b.queues ≡ None) × (b.activations ≡ 0)) }
    {
        let (regs, other) = make::<Ends<ListFabric>>(alloc, INTERRUPTS)?;
        let (far, to, from) = links_of(alloc)?;
        Ok(Bench {
            device: device_of(alloc, 0, other, to, from)?,
            driver: Commands { regs, answers: 0 },
            queues: None,
            far,
            alloc,
            activations: 0,
        })
    }

    /// A turn of the device; none where it made too many.
    pub fn turn(&mut self) -> Result<Option<Turn>, AllocError>
        ensures once { IfOk result (λ o. IfSome o (λ t. TurnsOnce (worked t) self.old.device.device self.new.device.device)) }
    {
        self.device.turn()
    }

    /// What the device wrote down.
    pub fn entries(&self) -> &[Entry]
        ensures entries { result.now ≡ self.now.device.device.entries }
    {
        self.device.device.journal().entries.as_slice()
    }

    /// Gives a command with an image of a setup, and with these ends. Says whether it was given.
    fn give(
        &mut self,
        command: Command,
        setup: &Setup,
        ends: Option<Ends<ListFabric>>,
    ) -> Result<bool, AllocError>
        requires whole { IsWhole (option_map (λ e. handed_of (ends_view tx_device rx_device e)) ends) }
        requires fresh { IfSome ends (λ e. (handed_of (ends_view tx_device rx_device e)).fresh ≡ true) }
        ensures device { self.new.device ≡ self.old.device }
        ensures asks { IfOk result (λ given. IsTrue given → Asks (driver_view self.new.driver.regs) (number_of command) (image_of setup.now)) }
    {
        let mut image = Image::new(self.alloc)?;
        write(setup, &mut image);
        Ok(self.driver.give(command.number(), Bag { image, ends }))
    }

    /// Gives ACTIVATE_DEV with an image of a setup and with new queues. Says whether it was given: no where a command is outstanding.
    pub fn activate(&mut self, setup: &Setup) -> Result<bool, AllocError>
        ensures device { self.new.device ≡ self.old.device }
        ensures asks { IfOk result (λ given. IsTrue given → Asks (driver_view self.new.driver.regs) ACTIVATE_DEV (image_of setup.now)) }
    {
        let (queues, ends) = queues_of(self.alloc, setup, self.activations)?;
        let given = self.give(Command::ActivateDev, setup, Some(ends))?;
        if given {
            self.queues = Some(queues);
            self.activations = self.activations.saturating_add(1);
        }
        Ok(given)
    }

    /// Gives a command with an image of a setup and without queue ends. Says whether it was given: no where one is outstanding.
    pub fn command(&mut self, command: Command, setup: &Setup) -> Result<bool, AllocError>
        ensures device { self.new.device ≡ self.old.device }
        ensures asks { IfOk result (λ given. IsTrue given → Asks (driver_view self.new.driver.regs) (number_of command) (image_of setup.now)) }
    {
        self.give(command, setup, None)
    }

    /// The answer to the command that is outstanding, where it is there.
    pub fn answer(&mut self) -> Option<Answered>
        ensures device { self.new.device ≡ self.old.device }
        ensures taken { IfSome result (λ a. (t : DoneTurn) × ((driver_view self.new.driver.regs).turns ≡ (driver_view self.old.driver.regs).turns ++ t ∷ []) × (t.answer.value ≡ a.value)) }
    {
        self.driver.answer()
    }

    /// The driver posts a frame, with a tag to be put in where there is one. Says whether there was room: no before an activation.
    pub fn post(&mut self, sample: Sample, tci: Option<u16>) -> Result<bool, AllocError>
        ensures device { self.new.device ≡ self.old.device }
    {
        let bytes = bytes_of(self.alloc, sample)?;
        let mut mark = TxMark::plain();
        mark.tci = tci;
        Ok(match &mut self.queues {
            Some(queues) => queues.post(bytes.as_slice(), &mark),
            None => false,
        })
    }

    /// The other guest sends a frame. Says whether there was room on the link.
    pub fn send(&mut self, sample: Sample) -> Result<bool, AllocError>
        ensures device { self.new.device ≡ self.old.device }
        ensures sent { IfOk result (λ there. IsTrue there → (p : PacketValue) × ((out_view self.new.far.there).pushed ≡ (out_view self.old.far.there).pushed ++ p ∷ []) × (p.frame ≡ sample_bytes sample)) }
    {
        let bytes = bytes_of(self.alloc, sample)?;
        let packet = packet_of(self.alloc, bytes.as_slice())?;
        Ok(self.far.send(packet))
    }

    /// Whether the other guest gets this frame next.
    pub fn gets(&mut self, sample: Sample) -> Result<bool, AllocError>
        ensures device { self.new.device ≡ self.old.device }
    {
        let bytes = bytes_of(self.alloc, sample)?;
        Ok(match self.far.get() {
            Some(packet) => packet.frame.as_slice() == bytes.as_slice(),
            None => false,
        })
    }

    /// Whether this frame comes up next, with this tag taken out of it.
    pub fn receives(&mut self, sample: Sample, tci: Option<u16>) -> Result<bool, AllocError>
        ensures device { self.new.device ≡ self.old.device }
    {
        let bytes = bytes_of(self.alloc, sample)?;
        let up = match &mut self.queues {
            Some(queues) => queues.receive(self.alloc)?,
            None => None,
        };
        Ok(match up {
            Some(up) => up.tci == tci && up.bytes.as_slice() == bytes.as_slice(),
            None => false,
        })
    }

    /// Whether the device holds queue ends.
    pub fn holds_ends(&self) -> bool
        ensures holds { result ≡ is_some (ends_of self.now.device.device.machine) }
    {
        self.device.device.ends().is_some()
    }

    /// The device's statistics of transmit queue 0, at the end of a test.
    pub fn sent_stats(self) -> Stats
        ensures counts { result.counts ≡ slice_index_or self.device.device.machine.tx_stats 0 [] }
    {
        let Bench {
            device,
            driver: _,
            queues: _,
            far: _,
            alloc: _,
            activations: _,
        } = self;
        device.sent_stats(0)
    }
}
