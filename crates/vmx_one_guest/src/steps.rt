//! What happens in a test, step by step: a table of steps is played from the first one on, and each says what is to come of it.

ghost use Rattle.std.specs.Prelude.{◌≡◌, ◌≤◌, length, IfOk, IfSome};

use crate::bench::Bench;
use crate::commands::Answered;
use crate::samples::{Sample, TCI};
use crate::settings::{Settings, setup_of};
use std::alloc::AllocError;
use vmx_device::Turn;
use vmx_layout::Command;

/// A step of a test.
#[derive(Clone, Copy, Debug, PartialEq, Eq)]
pub enum Step {
    /// The driver gives ACTIVATE_DEV, with these settings and new queues.
    Activate(Settings),
    /// The driver gives a command with these settings.
    Command(Command, Settings),
    /// The command was answered by this value, with queue ends in its bag or with none.
    Answer(u32, bool),
    /// The command is not answered yet.
    NoAnswer,
    /// A turn of the device, which finds something.
    Works,
    /// A turn of the device, which finds nothing.
    Idles,
    /// The device holds queue ends, or none.
    Holds(bool),
    /// The driver posts a frame.
    Post(Sample),
    /// The driver posts a frame into which `TCI` is to be put.
    PostWithTag(Sample),
    /// The other guest sends a frame.
    Send(Sample),
    /// The other guest gets this frame.
    Get(Sample),
    /// This frame comes up.
    Receive(Sample),
    /// This frame comes up, and `TCI` was taken out of it.
    ReceiveWithTag(Sample),
}

impl Bench {
    /// Plays one step. Says whether it went as the step says.
    pub fn play(&mut self, step: Step) -> Result<bool, AllocError> {
        match step {
            Step::Activate(settings) => self.activate(&setup_of(settings)),
            Step::Command(command, settings) => self.command(command, &setup_of(settings)),
            Step::Answer(value, ends) => Ok(self.answer() == Some(Answered { value, ends })),
            Step::NoAnswer => Ok(self.answer().is_none()),
            Step::Works => Ok(self.turn()? == Some(Turn::Worked)),
            Step::Idles => Ok(self.turn()? == Some(Turn::Idle)),
            Step::Holds(ends) => Ok(self.holds_ends() == ends),
            Step::Post(sample) => self.post(sample, None),
            Step::PostWithTag(sample) => self.post(sample, Some(TCI)),
            Step::Send(sample) => self.send(sample),
            Step::Get(sample) => self.gets(sample),
            Step::Receive(sample) => self.receives(sample, None),
            Step::ReceiveWithTag(sample) => self.receives(sample, Some(TCI)),
        }
    }

    /// Plays the steps of a table in order. The index of the first that went otherwise; none where all went as they say.
    pub fn plays(&mut self, steps: &[Step]) -> Result<Option<usize>, AllocError>
        ensures at { IfOk result (λ o. IfSome o (λ i. i ≤ length steps.now)) }
    {
        for (i, step) in steps.iter().enumerate() {
            if !self.play(*step)? {
                return Ok(Some(i));
            }
        }
        Ok(None)
    }
}
