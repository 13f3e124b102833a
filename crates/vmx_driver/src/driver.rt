//! A guest's driver.
ghost use Rattle.std.specs.Prelude.{◌≡◌, ◌<◌, ◌+◌, ◌&&◌, not, ℕ, [], length, map, None, Some, true, is_some, slice_get, IfOk};
ghost use Rattle.vmx_layout.specs.declared.register.TheConstants.{MAX_QUEUES};
ghost use Rattle.vmx_regs.specs.Ends.{driver_key, driver_view, driver_masks, driver_interrupts};
ghost use Rattle.vmx_model.specs.declared.guest.GuestPlan.{GuestPlan as GuestValue};
ghost use Rattle.vmx_model.specs.Bags.{DriverLeaves};
ghost use Rattle.vmx_model.specs.Views.{GuestView};
ghost use Rattle.vmx_driver_steps.specs.Progress.{due_of, is_over};
ghost use Rattle.vmx_driver_steps.specs.Driver.{Keeps, IsSettled};
ghost use Rattle.vmx_driver_steps.specs.Driving.{new_driver};
ghost use Rattle.vmx_driver.specs.Stocked.{IsClosable, closed_as};

use std::alloc::{AllocError, Global};
use std::marker::Model;
use vmx_driver_steps::{Due, Progress, Stage};
use vmx_ends::{Ends, Fabric};
use vmx_io::{Buffer, List, Roomy};
use vmx_model::{GuestPlan, Plan, Received};
use vmx_regs::DriverRegs;
use vmx_shared_area::Setup;

mod acts;
mod notes;
mod polls;
mod steps;

/// What an act did.
#[derive(Clone, Copy, Debug, PartialEq, Eq)]
pub enum Act {
    /// It sent a command, took an answer, handed up frames, let ends meet or posted a frame.
    Worked,
    /// A look found a ring too full, a completion or an answer not there.
    Waiting,
    /// Nothing is due, and every frame that was posted on a queue that the driver still has is reaped.
    Done,
}

/// What a turn did.
#[derive(Clone, Copy, Debug, PartialEq, Eq)]
pub enum Turn {
    Worked,
    /// The act was `Waiting`, and the poll gave no frame.
    Idle,
    /// The act was `Done`, the poll gave no frame, and the driver is not closed.
    Drained,
    /// The driver was closed, is quiet and has met all its ends.
    Ended,
}

/// What is left of a driver.
#[derive(Drop)]
pub struct DriverParts<F: Fabric> {
    pub received: List<Received>,
    pub tx: List<F::TxFacts>,
    pub rx: List<F::RxFacts>,
    pub regs: DriverRegs<Ends<F>>,
}

/// A driver. Contracts see it as a record of plain data, beside how many frames it can hand up with no memory.
#[derive(Drop)]
pub struct Driver<'a, F: Fabric> {
    alloc: Global,
    guest: u32,
    plan: &'a GuestPlan,
    at: Progress,
    setup: Setup,
    regs: DriverRegs<Ends<F>>,
    // Whether the command that is outstanding is an activation.
    opening: bool,
    tx: List<F::TxDriver>,
    rx: List<F::RxDriver>,
    // The device's ends, between the answer to a stop and the meeting.
    held: Ends<F>,
    // How many frames were posted on the queues in hand and not reaped.
    unreaped: u64,
    tx_facts: Roomy<F::TxFacts>,
    rx_facts: Roomy<F::RxFacts>,
    received: Roomy<Received>,
    // Buffers for frames that are still to come.
    pool: List<Buffer>,
}

impl<'a, F: Fabric> Model for Driver<'a, F> {
    ghost use Rattle.std.specs.Prelude.{length, map};
    ghost use Rattle.vmx_regs.specs.Ends.{driver_key, driver_view, driver_masks};
    ghost use Rattle.vmx_device_state.specs.SetupView.{setup_view};
    ghost use Rattle.vmx_driver_steps.specs.Driver.{DriverView, Runs};
    ghost use Rattle.vmx_driver.specs.Stocked.{Stocked, Holds};

    ghost Value = { Stocked };

    ghost view = { λ d. record { driver = record { guest = d.guest; plan = d.plan.now; at = d.at; key = driver_key d.regs; calls = driver_view d.regs; masks = driver_masks d.regs; tx = map F.TxDriver.view d.tx; rx = map F.RxDriver.view d.rx; tx_held = map F.TxDevice.view d.held.tx; rx_held = map F.RxDevice.view d.held.rx; tx_facts = map F.TxFacts.view d.tx_facts.0; rx_facts = map F.RxFacts.view d.rx_facts.0; received = d.received.0 }; room = d.received.1; buffers = length d.pool } };

    ghost invariant = { λ d. Holds (record { guest = d.guest; plan = d.plan.now; at = d.at; key = driver_key d.regs; calls = driver_view d.regs; masks = driver_masks d.regs; tx = map F.TxDriver.view d.tx; rx = map F.RxDriver.view d.rx; tx_held = map F.TxDevice.view d.held.tx; rx_held = map F.RxDevice.view d.held.rx; tx_facts = map F.TxFacts.view d.tx_facts.0; rx_facts = map F.RxFacts.view d.rx_facts.0; received = d.received.0 }) (setup_view d.setup) d.opening d.unreaped d.tx_facts.1 d.rx_facts.1 };
}

impl<'a, F: Fabric> Driver<'a, F> {
    /// The driver of a guest of the plan, before its first act, with its side of registers of at least 17 interrupts on which no
    /// call was made. It takes no memory yet.
    pub fn new(
        alloc: Global,
        guest: u32,
        plan: &'a Plan,
        regs: DriverRegs<Ends<F>>,
    ) -> Result<Driver<'a, F>, AllocError>
        requires guest { guest < length plan.now.guests }
        requires regs { ((driver_view regs).turns ≡ []) × ((driver_view regs).asked ≡ None) }
        requires interrupts { MAX_QUEUES + MAX_QUEUES < driver_interrupts regs }
        ensures new { IfOk result (λ d. (p : GuestValue) → slice_get plan.now.guests guest ≡ Some p → d.driver ≡ new_driver guest p (driver_key regs) (driver_view regs) (driver_masks regs)) }
    {
        let plan = plan.guests.at(guest as usize);
        Ok(Driver {
            alloc,
            guest,
            plan,
            at: Progress {
                stage: Stage::Fresh,
                done: 0,
                next: 0,
                ended: 0,
                closed: false,
            },
            setup: plan.setup,
            regs,
            opening: false,
            tx: List::new(alloc),
            rx: List::new(alloc),
            held: Ends {
                tx: List::new(alloc),
                rx: List::new(alloc),
            },
            unreaped: 0,
            tx_facts: Roomy::new(alloc),
            rx_facts: Roomy::new(alloc),
            received: Roomy::new(alloc),
            pool: List::new(alloc),
        })
    }

    /// What the next act is to do.
    pub fn due(&self) -> Due
        ensures due { result ≡ due_of self.now.driver.plan self.now.driver.at (is_some self.now.driver.calls.asked) }
    {
        vmx_driver_steps::due(self.plan, &self.at, self.regs.outstanding())
    }

    /// Whether a command was sent whose answer was not taken yet.
    pub fn outstanding(&self) -> bool
        ensures outstanding { result ≡ is_some self.now.driver.calls.asked }
    {
        self.regs.outstanding()
    }

    /// The frames handed up, in order.
    pub fn received(&self) -> &[Received]
        ensures received { result.now ≡ self.now.driver.received }
        // What always holds of a driver; and it stands at an action, at a frame that is sent, or at the end of its plan.
        ensures keeps { Keeps self.now.driver }
        ensures settled { IsSettled self.now.driver }
    {
        self.received.as_slice()
    }

    /// Tells a driver with which nothing is due that nothing more comes: its turns then quiesce an active device.
    pub fn close(&mut self)
        requires done { IsClosable self.old.driver }
        ensures closes { self.new.driver ≡ closed_as self.old.driver }
        ensures stock { (self.new.room ≡ self.old.room) × (self.new.buffers ≡ self.old.buffers) }
    {
        self.at.closed = true;
    }

    /// Whether the driver was closed, is quiet and has met all its ends.
    pub fn is_over(&self) -> bool
        ensures over { result ≡ (is_over self.now.driver.at && not (is_some self.now.driver.calls.asked)) }
    {
        let over = match self.at.stage {
            Stage::Quiet | Stage::Ended => true,
            Stage::Fresh | Stage::Active | Stage::Stopping { .. } | Stage::Held { .. } => false,
        };
        self.at.closed && over && !self.regs.outstanding()
    }

    /// What is left of a driver that has ended: its part of what a guest leaves.
    pub fn into_parts(self) -> DriverParts<F>
        requires over { is_over self.driver.at ≡ true }
        requires none { self.driver.calls.asked ≡ None }
        ensures leaves { (r : GuestView) → r.tx ≡ map F.TxFacts.view result.tx → r.rx ≡ map F.RxFacts.view result.rx → r.received ≡ result.received → r.told ≡ (driver_view result.regs).turns → DriverLeaves self.entry.driver.guest self.entry.driver.plan r }
        ensures facts { (map F.TxFacts.view result.tx ≡ self.entry.driver.tx_facts) × (map F.RxFacts.view result.rx ≡ self.entry.driver.rx_facts) × (result.received ≡ self.entry.driver.received) }
        ensures regs { (driver_key result.regs ≡ self.entry.driver.key) × (driver_view result.regs ≡ self.entry.driver.calls) × (driver_masks result.regs ≡ self.entry.driver.masks) }
    {
        let Driver {
            alloc: _,
            guest: _,
            plan: _,
            at: _,
            setup: _,
            regs,
            opening: _,
            tx: _,
            rx: _,
            held: _,
            unreaped: _,
            tx_facts,
            rx_facts,
            received,
            pool: _,
        } = self;
        DriverParts {
            received: List::of(received.into_vec()),
            tx: List::of(tx_facts.into_vec()),
            rx: List::of(rx_facts.into_vec()),
            regs,
        }
    }
}
