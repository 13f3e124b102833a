//! The verdicts of the plan of `pair`. What a run does is tested in vmx_tool_tests.
ghost use Rattle.std.specs.Prelude.{◌≡◌, IfOk, IfSome};
ghost use Rattle.vmx_pair_plan.specs.Plan.{Fits};

use crate::plan::pair_plan;
use std::alloc::{AllocError, Global};
use std::test::Fail;
use vmx_model::{MAX_BYTES, MAX_RECORDS, Plan, Sending, verdict};
use vmx_pcap::Capture;

/// The header of a capture: little-endian, microseconds, version 2.4, snap length 65,535, Ethernet.
const HEADER: [u8; 24] = [
    0xd4, 0xc3, 0xb2, 0xa1, 2, 0, 4, 0, 0, 0, 0, 0, 0, 0, 0, 0, 0xff, 0xff, 0, 0, 1, 0, 0, 0,
];

/// Captured frames: number, length, and the verdict on it.
const FRAMES: [(u32, u32, Sending); 4] = [
    (0, 13, Sending::Short),
    (
        1,
        14,
        Sending::Sent {
            activation: 0,
            queue: 0,
            place: 0,
        },
    ),
    (
        2,
        1518,
        Sending::Sent {
            activation: 0,
            queue: 0,
            place: 1,
        },
    ),
    (3, 1519, Sending::TooLong),
];

/// A capture of these frames, filled with zeros.
fn capture(alloc: Global) -> Result<Vec<u8>, AllocError> {
    let mut out = Vec::from_slice(alloc, &HEADER)?;
    for (_, len, _) in &FRAMES {
        out.extend_from_slice(&0u64.to_le_bytes())?;
        out.extend_from_slice(&len.to_le_bytes())?;
        out.extend_from_slice(&len.to_le_bytes())?;
        for _ in 0..*len {
            out.push(0)?;
        }
    }
    Ok(out)
}

/// The capture that these bytes hold, where a plan can have it.
#[tactic(auto, using(crate::proofs::Sizes::within_bytes))]
fn read(alloc: Global, bytes: &[u8]) -> Option<Capture>
    ensures fits { IfSome result (λ capture. Fits capture) }
{
    if bytes.len() > MAX_BYTES {
        return None;
    }
    vmx_pcap::read(alloc, bytes, MAX_RECORDS as u32).ok()
}

/// The plan of `pair` for that capture.
fn plan(alloc: Global) -> Result<Option<Plan>, AllocError> {
    match read(alloc, capture(alloc)?.as_slice()) {
        Some(capture) => Ok(Some(pair_plan(alloc, capture)?)),
        None => Ok(None),
    }
}

/// Whether this is the verdict on a captured frame of guest `a`.
fn is_told(plan: &Plan, frame: u32, wanted: Sending) -> bool {
    match plan.guests.as_slice() {
        [a, ..] => {
            (frame as usize) < a.capture.records.len() && verdict(plan, 0, frame) == wanted
        }
        [] => false,
    }
}

#[test]
fn the_plan_sends_frames_of_14_to_1518_bytes(rt: HostRuntime) -> Result<(), Fail> {
    let plan = plan(rt.alloc())?.expect(&rt, "a capture");
    for (frame, len, wanted) in &FRAMES {
        assert!(rt; is_told(&plan, *frame, *wanted), "{len}");
    }
    Ok(())
}
