//! Frames from guest `a` to guest `b`, over a private queue, first in first out.
//!
//! A captured frame is moved all the way: from its record into the queue, to the frames that arrived, and into the
//! record of what was handed up. The capture that is saved is written in between, from the arrived frames.
ghost use Rattle.std.specs.Prelude.{◌≡◌, ◌++◌, ◌+◌, ◌<◌, ◌^◌, ◌∷◌, [], if◌then◌else◌, length, filter, map, IfOk, OnOk};
ghost use Rattle.std.specs.String.{string_bytes};
ghost use Rattle.vmx_pair_plan.specs.Plan.{Fits, IsPlain};
ghost use Rattle.vmx_pair_plan.specs.Lengths.{is_sent, sending_of};
ghost use Rattle.vmx_pair_plan.specs.Fates.{fate_by, fates_due, handed_up, sent_records};
ghost use Rattle.vmx_pair.specs.Replays.{IsReplay};

use crate::record::Record;
use crate::summary::summary;
use std::alloc::{AllocError, Global};
use std::collections::VecDeque;
use vmx_frame::HEADER_LEN;
use vmx_io::{Bytes, List};
use vmx_model::{ABOVE_MTU, Fate, GuestPlan, Plan, Received, Sending};
use vmx_pair_plan::pair_plan;
use vmx_pcap::{Capture, Stamped};

/// The record of a replay, the capture that is saved, and the summary.
#[derive(Drop)]
pub struct Replayed {
    pub record: Record,
    pub file: Bytes,
    pub summary: String,
}

/// Replays a capture by the plan of `pair`. The capture that is saved is written into the memory of `room`.
#[tactic(auto, using(crate::proofs::Fates::all_short))]
pub fn replay(alloc: Global, capture: Capture, room: Bytes) -> Result<Replayed, AllocError>
    requires fits { Fits capture }
    ensures replay { IfOk result (λ x. IsReplay capture x.record x.file (string_bytes x.summary)) }
{
    let plan = pair_plan(alloc, capture)?;
    // The sniffer has nothing to do before it is handed the frames.
    let Plan { guests, .. } = plan;
    let sender = guests.into_vec().remove(0);
    let summary = summary(alloc, &sender)?;
    let (fates, queue) = send(alloc, sender)?;
    let arrived = receive(alloc, queue)?;
    let file = vmx_pcap::write_over(room, arrived.as_slice())?;
    let received = hand_up(alloc, arrived)?;
    Ok(Replayed {
        record: Record {
            fates: List::of(fates),
            received: List::of(received),
        },
        file,
        summary,
    })
}

/// The fates of the captured frames, and the queue of those that are sent. A guest without a script and with one transmit queue sends
/// by the lengths alone: one count of the sent frames serves for all verdicts, where `vmx_model::verdict` goes over all earlier frames.
fn send(alloc: Global, sender: GuestPlan) -> Result<(Vec<Fate>, VecDeque<Stamped>), AllocError>
    requires plain { IsPlain sender }
    requires few { length sender.capture.records < 2 ^ 32 }
    ensures fates { IfOk result (λ x. x.0.items ≡ fates_due sender) }
    ensures queue { IfOk result (λ x. x.1.items ≡ sent_records sender) }
{
    let GuestPlan { setup, capture, .. } = sender;
    let mtu = setup.mtu;
    let Capture { records, .. } = capture;
    let captured = records.into_vec();
    let mut fates = Vec::with_capacity(alloc, captured.len())?;
    let mut queue = VecDeque::with_capacity(alloc, captured.len())?;
    let mut place: u64 = 0;
    let mut waiting = VecDeque::from_vec(captured);
    while let Some(stamped) = waiting.pop_front() {
        place = send_one(&mut fates, &mut queue, mtu, place, stamped)?;
    }
    Ok((fates, queue))
}

/// Puts a frame's fate behind the others, and the frame into the queue where it is sent. `place` counts the frames sent
/// before it; the answer counts it too.
fn send_one(
    fates: &mut Vec<Fate>,
    queue: &mut VecDeque<Stamped>,
    mtu: u32,
    place: u64,
    stamped: Stamped,
) -> Result<u64, AllocError>
    requires room { place + 1 < 2 ^ 64 }
    ensures fate { OnOk result (fates.new.items ≡ fates.old.items ++ fate_by (sending_of mtu place (length stamped.frame)) ∷ []) }
    ensures queue { OnOk result (queue.new.items ≡ queue.old.items ++ filter (is_sent mtu) (stamped ∷ [])) }
    ensures place { IfOk result (λ n. n ≡ place + (if is_sent mtu stamped then 1 else 0)) }
{
    match verdict_of(mtu, place, stamped.frame.len()) {
        Sending::Down => {
            fates.push(Fate::Down)?;
            Ok(place)
        }
        Sending::Short => {
            fates.push(Fate::Short)?;
            Ok(place)
        }
        Sending::TooLong => {
            fates.push(Fate::TooLong)?;
            Ok(place)
        }
        Sending::Sent {
            activation,
            queue: number,
            place: at,
        } => {
            queue.push_back(stamped)?;
            fates.push(Fate::Up {
                activation,
                queue: number,
                place: at,
            })?;
            Ok(place + 1)
        }
    }
}

/// The verdict on a frame of `len` bytes, at this MTU, where `earlier` frames were sent before it.
fn verdict_of(mtu: u32, earlier: u64, len: usize) -> Sending
    ensures verdict { result ≡ sending_of mtu earlier len }
{
    if len < HEADER_LEN {
        return Sending::Short;
    }
    if len as u64 > u64::from(mtu) + ABOVE_MTU as u64 {
        return Sending::TooLong;
    }
    Sending::Sent {
        activation: 0,
        queue: 0,
        place: earlier,
    }
}

/// The frames that arrive at guest `b`, in the order of the queue.
fn receive(alloc: Global, mut queue: VecDeque<Stamped>) -> Result<Vec<Stamped>, AllocError>
    ensures arrived { IfOk result (λ arrived. arrived.items ≡ queue.items) }
{
    let mut arrived = Vec::with_capacity(alloc, queue.len())?;
    while let Some(stamped) = queue.pop_front() {
        arrived.push(stamped)?;
    }
    Ok(arrived)
}

/// Hands the arrived frames up; each has as its place the number of those before it.
fn hand_up(alloc: Global, arrived: Vec<Stamped>) -> Result<Vec<Received>, AllocError>
    ensures received { IfOk result (λ received. received.items ≡ handed_up 0 (map (λ r. r.frame) arrived.items)) }
{
    let mut received = Vec::with_capacity(alloc, arrived.len())?;
    let mut place: u64 = 0;
    let mut waiting = VecDeque::from_vec(arrived);
    while let Some(stamped) = waiting.pop_front() {
        let Stamped { frame, .. } = stamped;
        received.push(Received {
            activation: 0,
            queue: 0,
            place,
            frame,
            tci: None,
        })?;
        place += 1;
    }
    Ok(received)
}
