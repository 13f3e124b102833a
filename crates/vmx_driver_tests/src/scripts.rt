//! A driver that follows its script beside the device of its guest, to the end of both.

use crate::steps::{Step, plays};
use std::alloc::{AllocError, Global};
use std::test::Fail;
use vmx_driver_steps::Due;
use vmx_io::List;
use vmx_model::{Action, Deed};
use vmx_two_guests::{first_of, plan_of};

/// Two deeds, both before the frame of index 1.
fn script(alloc: Global, first: Deed, second: Deed) -> Result<List<Action>, AllocError> {
    let mut script = List::new(alloc);
    script.push(Action { at: 1, deed: first })?;
    script.push(Action {
        at: 1,
        deed: second,
    })?;
    Ok(script)
}

/// The index of the first step that goes otherwise, of a guest that sends so many frames and follows this script.
fn plays_all(
    alloc: Global,
    frames: u32,
    script: List<Action>,
    steps: &[Step],
) -> Result<Option<usize>, Fail> {
    let plan = plan_of(alloc, frames, script, 0)?.ok_or("no plan")?;
    let (mut guest, mut far) = first_of(alloc, &plan)?.ok_or("no guest")?;
    Ok(plays(alloc, &mut guest, &mut far, steps)?)
}

/// Each act waits for what the device has not done yet: an answer, and then frames to be reaped.
const FRAMES: [Step; 14] = [
    Step::Acts(Due::Activate),
    Step::Waits,
    Step::Serves,
    Step::Acts(Due::Answer),
    Step::Acts(Due::Frame { index: 0 }),
    Step::Acts(Due::Frame { index: 1 }),
    Step::Waits,
    Step::Serves,
    Step::Sends,
    Step::Serves,
    Step::IsDone,
    Step::HandsUp(0, 0, 0),
    Step::HandsUpNone,
    Step::IsDone,
];

#[test]
fn frames_go_out_and_one_comes_up(rt: HostRuntime) -> Result<(), Fail> {
    let alloc = rt.alloc();
    assert_eq!(rt; plays_all(alloc, 2, List::new(alloc), &FRAMES)?, None);
    Ok(())
}

/// A quiesce and an activation after the first frame. What comes then comes up in the second activation.
const QUIESCE: [Step; 16] = [
    Step::Turns(Due::Activate),
    Step::Turns(Due::Answer),
    Step::Turns(Due::Frame { index: 0 }),
    Step::Turns(Due::Action { at: 1 }),
    Step::Turns(Due::Answer),
    Step::Turns(Due::Meet),
    Step::Turns(Due::Action { at: 1 }),
    Step::Turns(Due::Answer),
    Step::Drains,
    Step::Sends,
    Step::Serves,
    Step::HandsUp(1, 0, 0),
    Step::Closes,
    Step::Turns(Due::Close),
    Step::Turns(Due::Answer),
    Step::Ends,
];

#[test]
fn a_quiesced_driver_activates_again(rt: HostRuntime) -> Result<(), Fail> {
    let alloc = rt.alloc();
    let script = script(alloc, Deed::Quiesce, Deed::Activate)?;
    assert_eq!(rt; plays_all(alloc, 1, script, &QUIESCE)?, None);
    Ok(())
}

/// After a reset the driver activates by itself, and then tells the device of another receive mode.
const RESET: [Step; 15] = [
    Step::Turns(Due::Activate),
    Step::Turns(Due::Answer),
    Step::Turns(Due::Frame { index: 0 }),
    Step::Turns(Due::Action { at: 1 }),
    Step::Turns(Due::Answer),
    Step::Turns(Due::Meet),
    Step::Turns(Due::Activate),
    Step::Turns(Due::Answer),
    Step::Turns(Due::Action { at: 1 }),
    Step::Turns(Due::Answer),
    Step::Drains,
    Step::Closes,
    Step::Turns(Due::Close),
    Step::Turns(Due::Answer),
    Step::Ends,
];

#[test]
fn a_reset_makes_new_queues(rt: HostRuntime) -> Result<(), Fail> {
    let alloc = rt.alloc();
    let script = script(alloc, Deed::Reset, Deed::Mode { mode: 31 })?;
    assert_eq!(rt; plays_all(alloc, 1, script, &RESET)?, None);
    Ok(())
}
