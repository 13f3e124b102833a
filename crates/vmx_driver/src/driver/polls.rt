//! Frames are handed up.
ghost use Rattle.std.specs.Prelude.{◌≡◌, ◌≤◌, ◌<◌, ◌^◌, ◌*◌, length, IfOk, OnErr, OnOk};
ghost use Rattle.vmx_driver_steps.specs.Driving.{PollsAll};
ghost use Rattle.vmx_driver.specs.Stocked.{AreEven, UsesRoom, HasRoom};
ghost use Rattle.vmx_driver_ends.specs.declared.ends.TheConstants.{MAX_RECEIVED};

use super::Driver;
use std::alloc::AllocError;
use vmx_driver_ends::{look, make_room, poll_all};
use vmx_ends::Fabric;

impl<'a, F: Fabric> Driver<'a, F> {
    /// Looks once at each receive queue in hand, in order, and hands up what it finds; it answers how many frames. The line and the
    /// events are read once, and the events that stood are acknowledged. `AllocError` leaves all as before.
    pub fn poll(&mut self) -> Result<u32, AllocError>
        ensures err { OnErr result (self.new.driver ≡ self.old.driver) }
        ensures polls { IfOk result (λ n. PollsAll self.old.driver n self.new.driver) }
        ensures even { AreEven self.old.driver → AreEven self.new.driver }
    {
        self.make_room(1)?;
        Ok(self.poll_now())
    }

    /// Room for the frames of so many polls.
    pub(super) fn make_room(&mut self, polls: usize) -> Result<(), AllocError>
        requires few { polls ≤ 2 }
        ensures same { self.new.driver ≡ self.old.driver }
        ensures room { OnOk result (HasRoom (polls * self.old.driver.plan.setup.rx_queues) self.new) }
        ensures kept { (self.old.room ≤ self.new.room) × (self.old.buffers ≤ self.new.buffers) }
        ensures few { OnOk result (length self.new.driver.received ≤ MAX_RECEIVED) }
    {
        let count = polls * usize::from(self.plan.setup.rx_queues);
        make_room(self.alloc, &mut self.received, &mut self.pool, count)
    }

    /// A poll, for whose frames there is room.
    pub(super) fn poll_now(&mut self) -> u32
        requires room { HasRoom self.old.driver.plan.setup.rx_queues self.old }
        requires few { length self.old.driver.received < 2 ^ 58 }
        ensures polls { PollsAll self.old.driver result self.new.driver }
        ensures room { UsesRoom self.old self.new }
    {
        look(&mut self.regs);
        poll_all::<F>(
            &mut self.regs,
            &mut self.rx,
            &mut self.received,
            &mut self.pool,
            self.at.ended,
            u32::from(self.plan.setup.tx_queues),
        )
    }
}
