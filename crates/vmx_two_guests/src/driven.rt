//! A driver whose ends are even between any two calls.

ghost use Rattle.std.proofs.Props.{props};
ghost use Rattle.std.specs.Prelude.{◌≡◌, ◌≤◌, ◌<◌, [], length, None, IfOk, OnErr, IsTrue, false};
ghost use Rattle.vmx_regs.specs.Ends.{driver_view, driver_interrupts};
ghost use Rattle.vmx_driver_steps.specs.Driving.{PollsAll};
ghost use Rattle.vmx_driver.specs.Acts.{Acts, Turns};
ghost use Rattle.vmx_driver.specs.Stocked.{AreEven, IsClosable, closed_as};

use std::alloc::{AllocError, Global};
use vmx_driver::{Act, Driver, Turn};
use vmx_driver_steps::Due;
use vmx_ends::Ends;
use vmx_lists::ListFabric;
use vmx_model::Plan;
use vmx_regs::DriverRegs;

/// A driver whose ends have heard as many notes as they gave. What is let go of it is let go here, so that no crate above has to
/// prove that of each of its parts again.
pub struct Driven<'a> {
    pub driver: Driver<'a, ListFabric>,
    pub ghost even: { AreEven driver.driver } by { Prim.hlevel props },
}

impl Drop for Driven<'_> {
    fn drop(self) {
        let Driven { driver: _ } = self;
    }
}

impl<'a> Driven<'a> {
    /// The next step. For want of memory all is as before.
    pub fn act(&mut self) -> Result<Act, AllocError>
        ensures err { OnErr result (self.new.driver.driver ≡ self.old.driver.driver) }
        ensures acts { IfOk result (λ a. Acts self.old.driver.driver a self.new.driver.driver) }
    {
        self.driver.act()
    }

    /// One look at each receive queue. For want of memory all is as before.
    pub fn poll(&mut self) -> Result<u32, AllocError>
        ensures err { OnErr result (self.new.driver.driver ≡ self.old.driver.driver) }
        ensures polls { IfOk result (λ n. PollsAll self.old.driver.driver n self.new.driver.driver) }
    {
        self.driver.poll()
    }

    /// An act and a poll. For want of memory all is as before.
    pub fn turn(&mut self) -> Result<Turn, AllocError>
        ensures err { OnErr result (self.new.driver.driver ≡ self.old.driver.driver) }
        ensures turns { IfOk result (λ t. Turns self.old.driver.driver t self.new.driver.driver) }
    {
        self.driver.turn()
    }

    /// Closes the driver where nothing is due with it, and says whether it did.
    pub fn close(&mut self) -> bool
        ensures closes { IsTrue result → (self.new.driver.driver ≡ closed_as self.old.driver.driver) × IsClosable self.old.driver.driver }
        ensures none { result ≡ false → self.new.driver.driver ≡ self.old.driver.driver }
    {
        let nothing = self.driver.due() == Due::Nothing;
        if nothing {
            self.driver.close();
        }
        nothing
    }
}

/// A new driver of the plan's guest at a port.
pub fn driver_of<'a>(
    alloc: Global,
    port: u32,
    plan: &'a Plan,
    regs: DriverRegs<Ends<ListFabric>>,
) -> Result<Driven<'a>, AllocError>
    requires guest { port < length plan.now.guests }
    requires regs { ((driver_view regs).turns ≡ []) × ((driver_view regs).asked ≡ None) × (17 ≤ driver_interrupts regs) }
    ensures guest { IfOk result (λ d. d.driver.driver.guest ≡ port) }
{
    let driver = Driver::<ListFabric>::new(alloc, port, plan, regs)?;
    Ok(Driven { driver })
}
