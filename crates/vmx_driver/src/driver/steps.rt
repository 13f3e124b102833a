//! The single steps of a driver: each is made whole, or, where it wants memory and finds none, not at all.
ghost use Rattle.std.specs.Prelude.{◌≡◌, ◌≢◌, ◌+◌, true, false, IsSome, OnErr, OnOk, IfOk, None};
ghost use Rattle.vmx_layout.specs.Command.{number_of};
ghost use Rattle.vmx_driver_steps.specs.declared.progress.Stage.TheVariants.{Held as HeldStage};
ghost use Rattle.vmx_driver_steps.specs.Dues.{FrameDue};
ghost use Rattle.vmx_driver_steps.specs.Ending.{IsDrained};
ghost use Rattle.vmx_driver_steps.specs.Parting.{after};
ghost use Rattle.vmx_shared_area.specs.Layout.{image_of};
ghost use Rattle.vmx_device_state.specs.SetupView.{setup_view};
ghost use Rattle.vmx_device_state.specs.ImageSetup.{image_setup};
ghost use Rattle.vmx_model.specs.Plan.{changed as changed_by};
ghost use Rattle.vmx_driver_steps.specs.Progress.{setup_now};
ghost use Rattle.vmx_driver_steps.specs.Activating.{BeginDue};
ghost use Rattle.vmx_driver_steps.specs.Acting.{ActionDue, StopDue};
ghost use Rattle.vmx_driver_steps.specs.Updating.{is_update, update_number};
ghost use Rattle.vmx_driver_steps.specs.Asking.{Waits};
ghost use Rattle.vmx_driver_steps.specs.Driving.{ReapsAll, PostsNext, FindsFull, LooksOnce, TakesAnswer, StopsBy, UpdatesBy, ActivatesWith, MeetsAll, unreaped};
ghost use Rattle.vmx_driver.specs.Stocked.{SameRoom, AllReaped};

use super::Driver;
use std::alloc::AllocError;
use vmx_driver_ends::{
    image_for, pass_all_rx, pass_all_tx, post_next, provide, reap_all, unmask_if, wait,
};
use vmx_driver_steps::{Stage, Then, settle};
use vmx_ends::{Fabric, meet_queues, meet_rx_queues};
use vmx_layout::Command;
use vmx_model::{Action, changed};
use vmx_regs::{Answer, Bag};
use vmx_shared_area::{Image, Setup};

impl<'a, F: Fabric> Driver<'a, F> {
    /// Takes back what completed frames used, on every queue.
    pub(super) fn reap(&mut self)
        ensures reaps { ReapsAll self.old.driver self.new.driver }
        ensures room { SameRoom self.old self.new }
    {
        let count = reap_all::<F>(&mut self.tx);
        self.unreaped -= count;
    }

    /// Whether all frames that were posted on the queues in hand are reaped.
    pub(super) fn is_reaped(&self) -> bool
        ensures all { result ≡ true → AllReaped self.now.driver }
        ensures some { result ≡ false → unreaped self.now.driver.tx ≢ 0 }
    {
        self.unreaped == 0
    }

    /// Posts the next frame, which is due. False: its ring has not the room.
    pub(super) fn post(&mut self) -> bool
        requires due { FrameDue self.old.driver.plan self.old.driver.at }
        ensures posts { result ≡ true → PostsNext self.old.driver self.new.driver }
        ensures full { result ≡ false → FindsFull self.old.driver self.new.driver }
        ensures room { SameRoom self.old self.new }
    {
        if !post_next::<F>(self.plan, &mut self.at, &mut self.tx, &mut self.regs) {
            return false;
        }
        self.unreaped += 1;
        true
    }

    /// Asks for the answer to the outstanding command. False: it is not there yet. After that to an activation all interrupts are
    /// unmasked. The ends that it brings are told of by notes, both ways.
    pub(super) fn take_answer(&mut self) -> bool
        requires asked { IsSome self.old.driver.calls.asked }
        ensures waits { result ≡ false → LooksOnce self.old.driver self.new.driver }
        ensures takes { result ≡ true → TakesAnswer self.old.driver self.new.driver }
        ensures room { SameRoom self.old self.new }
    {
        match self.at.stage {
            Stage::Stopping { then } => match self.regs.answer() {
                Answer::Pending { word: _ } => false,
                Answer::Done { value: _, bag } => {
                    let Bag { image: _, ends } = bag;
                    match ends {
                        None => unreachable!(),
                        Some(ends) => {
                            self.held = ends;
                            pass_all_tx::<F>(&mut self.tx, &mut self.held.tx);
                            pass_all_rx::<F>(&mut self.rx, &mut self.held.rx);
                            self.opening = false;
                            self.at.stage = Stage::Held { then };
                            true
                        }
                    }
                }
            },
            Stage::Active | Stage::Quiet => self.take_plain(),
            Stage::Fresh | Stage::Held { .. } | Stage::Ended => unreachable!(),
        }
    }

    /// The same of a command that gives no ends back.
    fn take_plain(&mut self) -> bool
        requires asked { IsSome self.old.driver.calls.asked }
        requires waits { Waits self.old.driver.at.stage }
        ensures waits { result ≡ false → LooksOnce self.old.driver self.new.driver }
        ensures takes { result ≡ true → TakesAnswer self.old.driver self.new.driver }
        ensures room { SameRoom self.old self.new }
    {
        if !wait(&mut self.regs) {
            return false;
        }
        let setup = &self.plan.setup;
        let count = u32::from(setup.tx_queues) + u32::from(setup.rx_queues) + 1;
        unmask_if(&mut self.regs, self.opening, count);
        self.opening = false;
        true
    }

    /// Lets the two ends of each queue meet, where nothing is left to be reaped or received. It takes no memory.
    pub(super) fn meet(&mut self, then: Then)
        requires held { self.old.driver.at.stage ≡ HeldStage then }
        requires drained { IsDrained self.old.driver }
        ensures met { MeetsAll then self.old.driver self.new.driver }
        ensures room { SameRoom self.old self.new }
    {
        meet_queues::<F>(&mut self.tx, &mut self.held.tx, &mut self.tx_facts);
        meet_rx_queues::<F>(&mut self.rx, &mut self.held.rx, &mut self.rx_facts);
        self.unreaped = 0;
        self.at.stage = stage_after(then);
        self.at.ended += 1;
        settle(self.plan, &mut self.at);
    }

    /// Asks the device to give its ends back, with a quiesce or a reset that is due, and the image of the setup in force.
    pub(super) fn stop(&mut self, image: Image, command: Command, then: Then, done: usize)
        requires due { StopDue self.old.driver (number_of command) then done }
        requires image { image_setup image ≡ setup_now self.old.driver.plan self.old.driver.at }
        ensures stops { StopsBy (number_of command) then done self.old.driver self.new.driver }
        ensures room { SameRoom self.old self.new }
    {
        let bag = Bag { image, ends: None };
        self.regs.command(command.number(), bag);
        self.opening = false;
        self.at.stage = Stage::Stopping { then };
        self.at.done = done;
    }

    /// Makes the queues of the next activation and asks the device to take its ends of them. `AllocError` leaves all as before.
    pub(super) fn activate(&mut self, done: usize) -> Result<(), AllocError>
        requires due { BeginDue self.old.driver done }
        ensures err { OnErr result (self.new ≡ self.old) }
        ensures activates { OnOk result (ActivatesWith done self.old.driver self.new.driver) }
        ensures room { SameRoom self.old self.new }
    {
        let fresh = provide::<F>(
            self.alloc,
            self.guest,
            self.at.ended,
            self.plan,
            &self.setup,
            &mut self.tx_facts,
            &mut self.rx_facts,
        )?;
        let bag = Bag {
            image: fresh.image,
            ends: Some(fresh.ends),
        };
        self.regs.command(Command::ActivateDev.number(), bag);
        self.opening = true;
        self.tx = fresh.tx;
        self.rx = fresh.rx;
        self.unreaped = 0;
        self.at.stage = Stage::Active;
        self.at.done = done;
        settle(self.plan, &mut self.at);
        Ok(())
    }

    /// Tells the device what a deed changes: the setup after it, in its image.
    pub(super) fn update(&mut self, action: &Action, setup: Setup, image: Image, command: Command)
        requires due { ActionDue self.old.driver.plan self.old.driver.at action.now }
        requires deed { is_update action.now.deed ≡ true }
        requires number { number_of command ≡ update_number action.now.deed }
        requires waits { Waits self.old.driver.at.stage }
        requires none { self.old.driver.calls.asked ≡ None }
        requires setup { setup_view setup ≡ changed_by (setup_now self.old.driver.plan self.old.driver.at) action.now.deed }
        requires image { image ≡ image_of setup }
        ensures updates { UpdatesBy (number_of command) (self.old.driver.at.done + 1) self.old.driver self.new.driver }
        ensures room { SameRoom self.old self.new }
    {
        let bag = Bag { image, ends: None };
        self.regs.command(command.number(), bag);
        self.opening = false;
        self.setup = setup;
        self.at.done += 1;
        settle(self.plan, &mut self.at);
    }

    /// The image of the setup in force.
    pub(super) fn image(&self) -> Result<Image, AllocError>
        ensures image { IfOk result (λ i. image_setup i ≡ setup_now self.now.driver.plan self.now.driver.at) }
    {
        image_for(self.alloc, &self.setup)
    }

    /// The setup after the deed that is due, and its image.
    pub(super) fn changed_by(&self, action: &Action) -> Result<(Setup, Image), AllocError>
        requires due { ActionDue self.now.driver.plan self.now.driver.at action.now }
        ensures setup { IfOk result (λ p. setup_view p.0 ≡ changed_by (setup_now self.now.driver.plan self.now.driver.at) action.now.deed) }
        ensures image { IfOk result (λ p. p.1 ≡ image_of p.0) }
    {
        let setup = changed(&self.setup, &action.deed);
        let image = image_for(self.alloc, &setup)?;
        Ok((setup, image))
    }
}

/// Where a driver is when all ends have met.
fn stage_after(then: Then) -> Stage
    ensures after { result ≡ after then }
{
    match then {
        Then::Rest => Stage::Quiet,
        Then::Renew => Stage::Fresh,
        Then::End => Stage::Ended,
    }
}
