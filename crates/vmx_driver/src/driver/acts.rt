//! An act makes the next step, and a turn is an act and a poll.
ghost use Rattle.std.specs.Prelude.{◌≡◌, true, false, None, IfOk, OnErr, OnOk};
ghost use Rattle.vmx_driver_steps.specs.declared.progress.Stage.TheVariants.{Active as ActiveStage, Held as HeldStage};
ghost use Rattle.vmx_driver_steps.specs.Dues.{FrameDue};
ghost use Rattle.vmx_driver_steps.specs.Acting.{ActionDue};
ghost use Rattle.vmx_driver_steps.specs.Asking.{Waits};
ghost use Rattle.vmx_layout.specs.Command.{number_of};
ghost use Rattle.vmx_model.specs.declared.deeds.Action.{Action as ActionValue};
ghost use Rattle.vmx_driver_steps.specs.Updating.{is_update, update_number};
ghost use Rattle.vmx_driver.specs.Stocked.{AreEven, UsesRoom, SameRoom};
ghost use Rattle.vmx_driver.specs.Acts.{Acts, ActsAtFrame, ActsAtRest, ActsAtMeeting, ActsAtQuiesce, ActsAtReset, ActsAtScript, ActsAtDeed, ActsAtUpdate, QuiesceDue, ResetDue, Turns, turn_by};

use super::{Act, Driver, Turn};
use std::alloc::AllocError;
use vmx_driver_steps::{Due, Stage, Then, due};
use vmx_ends::Fabric;
use vmx_layout::Command;
use vmx_model::{Action, Deed};

impl<'a, F: Fabric> Driver<'a, F> {
    /// Makes the next step: where a command is outstanding it asks for the answer, else it reaps until a look finds nothing more,
    /// and then makes the next step of the script or posts the next sent frame. `AllocError` leaves all as before.
    pub fn act(&mut self) -> Result<Act, AllocError>
        requires even { AreEven self.old.driver }
        ensures err { OnErr result (self.new.driver ≡ self.old.driver) }
        ensures acts { IfOk result (λ a. Acts self.old.driver a self.new.driver) }
        ensures even { AreEven self.new.driver }
        ensures room { OnOk result (UsesRoom self.old self.new) }
    {
        if self.regs.outstanding() {
            return Ok(if self.take_answer() {
                Act::Worked
            } else {
                Act::Waiting
            });
        }
        match self.at.stage {
            Stage::Held { then } => self.empty(then),
            Stage::Fresh => {
                let done = self.at.done;
                self.activate(done)?;
                Ok(Act::Worked)
            }
            Stage::Stopping { .. } | Stage::Ended => Ok(self.rest()),
            Stage::Active if self.at.closed => {
                let done = self.at.done;
                self.quiesce(Then::End, done)
            }
            Stage::Active | Stage::Quiet => self.act_next(),
        }
    }

    /// An act where an action or a frame is next, or nothing.
    fn act_next(&mut self) -> Result<Act, AllocError>
        requires waits { Waits self.old.driver.at.stage }
        requires unclosed { self.old.driver.at.stage ≡ ActiveStage → self.old.driver.at.closed ≡ false }
        requires none { self.old.driver.calls.asked ≡ None }
        ensures err { OnErr result (self.new.driver ≡ self.old.driver) }
        ensures acts { IfOk result (λ a. Acts self.old.driver a self.new.driver) }
        ensures room { SameRoom self.old self.new }
    {
        match due(self.plan, &self.at, false) {
            Due::Action { at: _ } => self.act_action(),
            Due::Frame { index: _ } => Ok(self.act_frame()),
            Due::Nothing => Ok(self.rest()),
            Due::Activate | Due::Answer | Due::Meet | Due::Close => unreachable!(),
        }
    }

    /// An act where a frame is next: it reaps, and posts the frame where its ring has room.
    fn act_frame(&mut self) -> Act
        requires due { FrameDue self.old.driver.plan self.old.driver.at }
        ensures acts { ActsAtFrame self.old.driver result self.new.driver }
        ensures room { SameRoom self.old self.new }
    {
        self.reap();
        if self.post() {
            Act::Worked
        } else {
            Act::Waiting
        }
    }

    /// An act where nothing is due: it reaps.
    fn rest(&mut self) -> Act
        ensures acts { ActsAtRest self.old.driver result self.new.driver }
        ensures room { SameRoom self.old self.new }
    {
        self.reap();
        if self.is_reaped() {
            Act::Done
        } else {
            Act::Waiting
        }
    }

    /// An act where a quiesce is due: it reaps, and sends the command where all is reaped. `AllocError` leaves all as before.
    fn quiesce(&mut self, then: Then, done: usize) -> Result<Act, AllocError>
        requires due { QuiesceDue self.old.driver then done }
        ensures err { OnErr result (self.new.driver ≡ self.old.driver) }
        ensures acts { IfOk result (λ a. ActsAtQuiesce then done self.old.driver a self.new.driver) }
        ensures room { SameRoom self.old self.new }
    {
        let image = self.image()?;
        self.reap();
        if !self.is_reaped() {
            return Ok(Act::Waiting);
        }
        self.stop(image, Command::QuiesceDev, then, done);
        Ok(Act::Worked)
    }

    /// An act where an action is next. `AllocError` leaves all as before.
    fn act_action(&mut self) -> Result<Act, AllocError>
        requires waits { Waits self.old.driver.at.stage }
        requires none { self.old.driver.calls.asked ≡ None }
        requires due { (a : ActionValue) × ActionDue self.old.driver.plan self.old.driver.at a }
        ensures err { OnErr result (self.new.driver ≡ self.old.driver) }
        ensures acts { IfOk result (λ a. ActsAtScript self.old.driver a self.new.driver) }
        ensures room { SameRoom self.old self.new }
    {
        let action = &self.plan.script.as_slice()[self.at.done];
        self.begin(action)
    }

    /// An act where this action is next. `AllocError` leaves all as before.
    fn begin(&mut self, action: &Action) -> Result<Act, AllocError>
        requires waits { Waits self.old.driver.at.stage }
        requires none { self.old.driver.calls.asked ≡ None }
        requires due { ActionDue self.old.driver.plan self.old.driver.at action.now }
        ensures err { OnErr result (self.new.driver ≡ self.old.driver) }
        ensures acts { IfOk result (λ a. ActsAtDeed action.now.deed self.old.driver a self.new.driver) }
        ensures room { SameRoom self.old self.new }
    {
        let done = self.at.done + 1;
        match &action.deed {
            Deed::Quiesce => self.quiesce(Then::Rest, done),
            Deed::Activate => {
                self.activate(done)?;
                Ok(Act::Worked)
            }
            Deed::Reset => self.reset(done),
            Deed::Mode { .. } => self.tell(action, Command::UpdateRxMode),
            Deed::Multicast { .. } => self.tell(action, Command::UpdateMacFilters),
            Deed::Vlans { .. } => self.tell(action, Command::UpdateVlanFilters),
            Deed::Rss { .. } => self.tell(action, Command::UpdateRssidt),
        }
    }

    /// An act where a reset is due: it reaps, and sends the command. `AllocError` leaves all as before.
    fn reset(&mut self, done: usize) -> Result<Act, AllocError>
        requires due { ResetDue self.old.driver done }
        ensures err { OnErr result (self.new.driver ≡ self.old.driver) }
        ensures acts { IfOk result (λ a. ActsAtReset done self.old.driver a self.new.driver) }
        ensures room { SameRoom self.old self.new }
    {
        let image = self.image()?;
        self.reap();
        self.stop(image, Command::ResetDev, Then::Renew, done);
        Ok(Act::Worked)
    }

    /// An act where the device is to be told what a deed changes. `AllocError` leaves all as before.
    fn tell(&mut self, action: &Action, command: Command) -> Result<Act, AllocError>
        requires waits { Waits self.old.driver.at.stage }
        requires none { self.old.driver.calls.asked ≡ None }
        requires due { ActionDue self.old.driver.plan self.old.driver.at action.now }
        requires deed { is_update action.now.deed ≡ true }
        requires number { number_of command ≡ update_number action.now.deed }
        ensures err { OnErr result (self.new.driver ≡ self.old.driver) }
        ensures acts { IfOk result (λ a. ActsAtUpdate action.now.deed self.old.driver a self.new.driver) }
        ensures room { SameRoom self.old self.new }
    {
        let (setup, image) = self.changed_by(action)?;
        self.reap();
        self.update(action, setup, image, command);
        Ok(Act::Worked)
    }

    /// An act where the driver holds both ends of its queues: it reaps and polls, and where the poll gave nothing it lets the ends
    /// meet. `AllocError` leaves all as before.
    fn empty(&mut self, then: Then) -> Result<Act, AllocError>
        requires held { self.old.driver.at.stage ≡ HeldStage then }
        requires even { AreEven self.old.driver }
        ensures err { OnErr result (self.new.driver ≡ self.old.driver) }
        ensures acts { IfOk result (λ a. ActsAtMeeting then self.old.driver a self.new.driver) }
        ensures room { OnOk result (UsesRoom self.old self.new) }
    {
        self.make_room(1)?;
        self.reap();
        let up = self.poll_now();
        let emptied = up == 0;
        if emptied {
            self.meet(then);
            return Ok(Act::Worked);
        }
        Ok(Act::Worked)
    }

    /// An act and a poll. `AllocError` leaves all as before.
    pub fn turn(&mut self) -> Result<Turn, AllocError>
        requires even { AreEven self.old.driver }
        ensures err { OnErr result (self.new.driver ≡ self.old.driver) }
        ensures turns { IfOk result (λ t. Turns self.old.driver t self.new.driver) }
        ensures even { AreEven self.new.driver }
    {
        self.make_room(2)?;
        let act = self.act()?;
        let up = self.poll_now();
        Ok(turn_of(self.is_over(), self.at.closed, act, up))
    }
}

/// What a turn did: by whether the driver is over and whether it is closed, what its act did, and how many frames the poll gave.
fn turn_of(over: bool, closed: bool, act: Act, polled: u32) -> Turn
    ensures turn { result ≡ turn_by over closed act polled }
{
    if over {
        return Turn::Ended;
    }
    match act {
        Act::Worked => Turn::Worked,
        Act::Waiting => {
            if polled == 0 {
                Turn::Idle
            } else {
                Turn::Worked
            }
        }
        Act::Done => {
            if polled == 0 && !closed {
                Turn::Drained
            } else {
                Turn::Worked
            }
        }
    }
}
