//! The guests of a run, with how far each has come.
ghost use Rattle.std.specs.Prelude.{◌≡◌, ◌≢◌, ◌<◌, ◌≤◌, ◌+◌, ℕ, true, length, take, IfOk};
ghost use Rattle.std.specs.List.{AllByRecursion};
ghost use Rattle.vmx_model.specs.Serial.{start};
ghost use Rattle.vmx_model.specs.Turns.{IsReady};
ghost use Rattle.vmx_driver_steps.specs.Progress.{is_over};
ghost use Rattle.vmx_replay_runs.specs.Runs.{ComesFrom, acts, changes, closes, found, goes_to, is_next, is_polled, live_poll, looks, puts, up_at};
ghost use Rattle.vmx_replay_runs.specs.Short.{AreShort, MOST_ENTRIES};
ghost use Rattle.vmx_replay_runs.specs.Standing.{HasBegun, IsOver};
ghost use Rattle.vmx_replay_due.specs.Standing.{is_action as is_action_of};
ghost use Rattle.vmx_replay_worlds.specs.Guests.{GuestView};
ghost use Rattle.vmx_replay_worlds.specs.Worlds.{world_of};
ghost use Rattle.vmx_replay_chains.specs.Views.{guest_views};
ghost use Rattle.vmx_replay_actors.specs.Runs.{AreSettled, run_view};

use crate::begin::activated_guests;
use crate::counts::{count_if, put_number, zeros};
use std::alloc::{AllocError, Global};
use std::marker::Model;
use vmx_driver_steps::Due;
use vmx_ends::Fabric;
use vmx_io::List;
use vmx_model::Plan;
use vmx_replay_chains::{close, follow, look_on, poll_on, put_on};
use vmx_replay_guests::Guest;
use vmx_switch::Targets;

/// The guests of a run of a plan, with how far each has come. Contracts see it as a `RunView`.
#[derive(Drop)]
pub struct Run<'a, F: Fabric> {
    plan: &'a Plan,
    guests: List<Guest<'a, F>>,
    // By port, the captured number to which the guest has come.
    passed: List<u64>,
    // By port, how many copies reached the guest.
    arrived: List<u64>,
    // How many guests were closed, in port order.
    closings: u32,
}

impl<'a, F: Fabric> Model for Run<'a, F> {
    ghost use Rattle.vmx_replay_chains.specs.Views.{guest_views};
    ghost use Rattle.vmx_replay_actors.specs.Runs.{IsRun, RunParts};

    ghost Value = { RunParts };

    ghost view = { λ r. record { plan = r.plan.now; guests = guest_views r.guests; passed = r.passed; closings = r.closings } };

    ghost invariant = { λ r. IsRun r.plan.now (guest_views r.guests) r.passed r.arrived r.closings };
}

impl<'a, F: Fabric> Run<'a, F> {
    /// The guests of a plan, each of which was activated, one after the other in port order. None has begun an action of its script or
    /// come past a captured number. `AllocError` is for want of memory alone.
    pub fn begin(alloc: Global, plan: &'a Plan) -> Result<Run<'a, F>, AllocError>
        ensures own_plan { IfOk result (λ r. r.plan ≡ plan.now) }
        ensures at_start { IfOk result (λ r. world_of r.guests ≡ start plan.now) }
        ensures none_reached { IfOk result (λ r. (h : ℕ) → (run_view r).reached h ≡ 0) }
        ensures none_passed { IfOk result (λ r. (h : ℕ) → (run_view r).passed h ≡ 0) }
        ensures none_closed { IfOk result (λ r. r.closings ≡ 0) }
    {
        let guests = activated_guests::<F>(alloc, plan)?;
        let passed = zeros(alloc, plan.guests.len())?;
        let arrived = zeros(alloc, plan.guests.len())?;
        Ok(Run {
            plan,
            guests,
            passed,
            arrived,
            closings: 0,
        })
    }

    /// Whether the next action of a guest's script is of this number, to which the guest has come.
    pub fn is_acting(&self, port: u32, number: u32) -> bool
        requires port { port < length self.now.plan.guests }
        requires passed { (run_view self.now).passed port ≡ number }
        ensures acting { result ≡ is_next port number (run_view self.now) }
    {
        is_action(self.guests.at(port as usize).driver.due(), number)
    }

    /// The next action of a guest, which is of the number to which the guest has come: its commands are sent and answered, and where
    /// they stop the device, the ends of its queues meet. `AllocError` is for want of memory alone, and the run is then gone.
    pub fn act(self, port: u32, number: u32) -> Result<Run<'a, F>, AllocError>
        requires port { port < length self.plan.guests }
        requires passed { (run_view self).passed port ≡ number }
        requires acting { is_next port number (run_view self) ≡ true }
        requires ready { IsReady self.plan (run_view self).world }
        requires short { AreShort MOST_ENTRIES (run_view self).world }
        ensures acts { IfOk result (λ new. run_view new ≡ acts port (run_view self.entry)) }
    {
        let _ = number;
        let Run {
            plan,
            mut guests,
            passed,
            arrived,
            closings,
        } = self;
        follow(&mut guests, port)?;
        Ok(Run {
            plan,
            guests,
            passed,
            arrived,
            closings,
        })
    }

    /// The frame of the number to which a guest has come, behind its actions. Where it is there and is sent, it is posted, taken,
    /// completed and put out on the link to each target, or lost where it has none; else nothing is done. Answers the ports on whose
    /// links it was put, 16 at most. `AllocError` is for want of memory alone, and the run is then gone.
    pub fn put(self, port: u32, number: u32) -> Result<(Targets, Run<'a, F>), AllocError>
        requires port { port < length self.plan.guests }
        requires passed { (run_view self).passed port ≡ number }
        requires begun { HasBegun port (number + 1) (run_view self) }
        requires ready { IsReady self.plan (run_view self).world }
        requires short { AreShort MOST_ENTRIES (run_view self).world }
        ensures puts { IfOk result (λ new. run_view new.1 ≡ puts port number (run_view self.entry)) }
        ensures targets { IfOk result (λ new. take new.0.count new.0.ports ≡ goes_to port number self.entry.plan) }
        ensures room { IfOk result (λ new. new.0.count ≤ length new.0.ports) }
    {
        let Run {
            plan,
            mut guests,
            mut passed,
            arrived,
            closings,
        } = self;
        let targets = put_on(&mut guests, port, number)?;
        put_number(&mut passed, port, u64::from(number) + 1);
        Ok((
            targets,
            Run {
                plan,
                guests,
                passed,
                arrived,
                closings,
            },
        ))
    }

    /// The device of one port looks at the link from another and handles the packet that comes next, if there is one. Answers whether
    /// there was. Nothing waits on links from other ports. `AllocError` is for want of memory alone, and the run is then gone.
    pub fn look(self, from: u32, to: u32) -> Result<(bool, Run<'a, F>), AllocError>
        requires ports { (from < length self.plan.guests) × (to < length self.plan.guests) × (to ≢ from) }
        requires alone { ComesFrom from (run_view self).world }
        requires short { AreShort MOST_ENTRIES (run_view self).world }
        ensures looks { IfOk result (λ new. run_view new.1 ≡ looks from to (run_view self.entry)) }
        ensures found { IfOk result (λ new. new.0 ≡ found from to (run_view self.entry)) }
    {
        let Run {
            plan,
            mut guests,
            passed,
            mut arrived,
            closings,
        } = self;
        let is_found = look_on(&mut guests, from, to)?;
        count_if(is_found, &mut arrived, to);
        Ok((
            is_found,
            Run {
                plan,
                guests,
                passed,
                arrived,
                closings,
            },
        ))
    }

    /// Whether a guest's driver is to poll: so many copies reached the guest as are a multiple of the plan's `poll_every`.
    pub fn is_polled(&self, port: u32) -> bool
        requires port { port < length self.now.plan.guests }
        ensures polled { result ≡ is_polled port (run_view self.now) }
    {
        *self.arrived.at(port as usize) % u64::from(self.plan.poll_every) == 0
    }

    /// A guest's driver polls each receive queue in hand once. Answers how many frames it handed up. `AllocError` is for want of memory
    /// alone, and the run is then gone.
    pub fn poll(self, port: u32) -> Result<(u32, Run<'a, F>), AllocError>
        requires port { port < length self.plan.guests }
        ensures polls { IfOk result (λ new. run_view new.1 ≡ changes port live_poll (run_view self.entry)) }
        ensures count { IfOk result (λ new. new.0 ≡ up_at port (run_view self.entry)) }
    {
        let Run {
            plan,
            mut guests,
            passed,
            arrived,
            closings,
        } = self;
        let count = poll_on(&mut guests, port)?;
        Ok((
            count,
            Run {
                plan,
                guests,
                passed,
                arrived,
                closings,
            },
        ))
    }

    /// The driver of the next guest in port order, which has done its script and gone through its capture, is closed: it quiesces an
    /// active device, and the ends of its queues meet. `AllocError` is for want of memory alone, and the run is then gone.
    pub fn close(self, port: u32) -> Result<Run<'a, F>, AllocError>
        requires port { port < length self.plan.guests }
        requires next { self.closings ≡ port }
        requires over { IsOver port (run_view self) }
        requires ready { IsReady self.plan (run_view self).world }
        requires short { AreShort MOST_ENTRIES (run_view self).world }
        ensures closes { IfOk result (λ new. run_view new ≡ closes port (run_view self.entry)) }
    {
        let Run {
            plan,
            mut guests,
            passed,
            arrived,
            closings,
        } = self;
        close(&mut guests, port)?;
        Ok(Run {
            plan,
            guests,
            passed,
            arrived,
            closings: closings + 1,
        })
    }

    /// The guests by port, with all that is kept from call to call; once all of them were closed, each driver is over.
    pub fn guests(self) -> List<Guest<'a, F>>
        ensures guests { guest_views result ≡ self.entry.guests }
        ensures settled { AreSettled self.entry.plan self.entry.guests }
        ensures over { self.entry.closings ≡ length self.entry.plan.guests → AllByRecursion (λ (r : GuestView). is_over r.driver.at ≡ true) self.entry.guests }
    {
        let Run {
            plan: _,
            guests,
            passed: _,
            arrived: _,
            closings: _,
        } = self;
        guests
    }
}

/// Whether an action of a number is due.
fn is_action(due: Due, number: u32) -> bool
    ensures action { result ≡ is_action_of number due }
{
    match due {
        Due::Action { at } => at == number,
        Due::Nothing
        | Due::Activate
        | Due::Answer
        | Due::Meet
        | Due::Frame { index: _ }
        | Due::Close => false,
    }
}
