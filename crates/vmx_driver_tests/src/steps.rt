//! What a driver does beside the device of its guest, step by step: a table of steps is played from the first one on, and each says
//! what is to come of it.

use std::alloc::{AllocError, Global};
use std::test::Fail;
use vmx_driver::{Act, Turn};
use vmx_driver_steps::Due;
use vmx_model::Received;
use vmx_two_guests::{Far, Guest, frame_to, packet_of};

/// A step of a test.
#[derive(Clone, Copy, Debug, PartialEq, Eq)]
pub(crate) enum Step {
    /// An act of the driver, which was to do this and works.
    Acts(Due),
    /// An act that waits.
    Waits,
    /// An act with nothing to do: all that was posted is reaped.
    IsDone,
    /// A turn of the device, which finds something.
    Serves,
    /// A turn of the driver, which was to do this and works, and one of the device behind it.
    Turns(Due),
    /// A turn of the driver that finds nothing left to be done.
    Drains,
    /// The driver is closed, with which nothing is due.
    Closes,
    /// The last turn of the driver: it meets its ends.
    Ends,
    /// The other guest sends a frame.
    Sends,
    /// A poll of the driver hands up one frame, of this activation, queue and place.
    HandsUp(u32, u32, u64),
    /// A poll of the driver hands up nothing.
    HandsUpNone,
}

/// Whether the last of these frames is the shortest, of this activation, queue and place.
fn is_last(frames: &[Received], activation: u32, queue: u32, place: u64) -> bool {
    match frames.last() {
        Some(last) => {
            last.activation == activation
                && last.queue == queue
                && last.place == place
                && last.frame.len() == 60
        }
        None => false,
    }
}

/// Whether an act that is to do this does so.
fn acts(guest: &mut Guest, due: Due) -> Result<bool, AllocError> {
    Ok(guest.driver.driver.due() == due && guest.driver.act()? == Act::Worked)
}

/// Whether a turn that is to do this does so.
fn turns(guest: &mut Guest, due: Due) -> Result<bool, AllocError> {
    if guest.driver.driver.due() != due || guest.driver.turn()? != Turn::Worked {
        return Ok(false);
    }
    Ok(guest.device.turn()?.is_some())
}

/// Whether a poll hands up one frame, of this activation, queue and place.
fn hands_up(
    guest: &mut Guest,
    activation: u32,
    queue: u32,
    place: u64,
) -> Result<bool, AllocError> {
    if guest.driver.poll()? != 1 {
        return Ok(false);
    }
    Ok(is_last(guest.driver.driver.received(), activation, queue, place))
}

/// Plays one step. Says whether it went as the step says.
fn play(alloc: Global, guest: &mut Guest, far: &mut Far, step: Step) -> Result<bool, AllocError> {
    match step {
        Step::Acts(due) => acts(guest, due),
        Step::Waits => Ok(guest.driver.act()? == Act::Waiting),
        Step::IsDone => Ok(guest.driver.act()? == Act::Done),
        Step::Serves => Ok(guest.device.turn()? == Some(vmx_device::Turn::Worked)),
        Step::Turns(due) => turns(guest, due),
        Step::Drains => Ok(guest.driver.turn()? == Turn::Drained),
        Step::Closes => Ok(guest.driver.close()),
        Step::Ends => Ok(
            guest.driver.driver.due() == Due::Meet && guest.driver.turn()? == Turn::Ended,
        ),
        Step::Sends => Ok(far.send(packet_of(alloc, &frame_to(0))?)),
        Step::HandsUp(activation, queue, place) => hands_up(guest, activation, queue, place),
        Step::HandsUpNone => Ok(guest.driver.poll()? == 0),
    }
}

/// Plays the steps of a table in order. The index of the first that went otherwise; none where all went as they say.
pub(crate) fn plays(
    alloc: Global,
    guest: &mut Guest,
    far: &mut Far,
    steps: &[Step],
) -> Result<Option<usize>, AllocError> {
    for (i, step) in steps.iter().enumerate() {
        if !play(alloc, guest, far, *step)? {
            return Ok(Some(i));
        }
    }
    Ok(None)
}
