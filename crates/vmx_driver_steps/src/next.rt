//! What a driver does next, by its guest's plan and how far it is. Own to this project.
ghost use Rattle.std.specs.Prelude.{◌≡◌, ◌≤◌, ◌<◌, ◌&&◌, not, ℕ, length, Some, None, false, slice_get, is_some};
ghost use Rattle.vmx_frame.specs.declared.ethernet.TheConstants.{HEADER_LEN};
ghost use Rattle.vmx_frame.specs.Ethernet.{is_tagged as is_tagged_of};
ghost use Rattle.vmx_ends.specs.Frames.{sent_as};
ghost use Rattle.vmx_ends.specs.Marks.{mark_with as mark_with_of};
ghost use Rattle.vmx_model.specs.declared.limits.TheConstants.{MAX_RECORDS};
ghost use Rattle.vmx_model.specs.Wire.{posted_form, wire_form};
ghost use Rattle.vmx_model.specs.QueueSteps.{sent_before};
ghost use Rattle.vmx_driver_steps.specs.Progress.{IsUnderway, is_sendable, is_passed as is_passed_in, is_later as is_later_than, passes as passes_of, due_of, next_of};

use crate::progress::{Due, Progress, Stage};
use vmx_ends::TxMark;
use vmx_frame::{HEADER_LEN, TAG_LEN, is_tagged};
use vmx_model::{ABOVE_MTU, GuestPlan};
use vmx_pcap::Stamped;

/// Whether a frame has a length that is sent.
fn is_fit(plan: &GuestPlan, frame: &Stamped) -> bool
    ensures fit { result ≡ is_sendable plan.now frame.now.frame }
{
    let bytes = frame.frame.as_slice();
    HEADER_LEN <= bytes.len()
        && wire_len(plan, bytes) <= u64::from(plan.setup.mtu) + ABOVE_MTU as u64
}

/// The bytes of a frame as it goes over the wire, with the tag that it is given.
#[tactic(auto, using(vmx_model::specs::Wire::wire_length))]
fn wire_len(plan: &GuestPlan, frame: &[u8]) -> u64
    requires header { HEADER_LEN ≤ length frame.now }
    ensures length { result ≡ length (wire_form (posted_form plan.now frame.now)) }
{
    if gets_tag(plan, frame) {
        (frame.len() + TAG_LEN) as u64
    } else {
        frame.len() as u64
    }
}

/// Whether a frame is given a tag.
fn gets_tag(plan: &GuestPlan, frame: &[u8]) -> bool
    requires header { HEADER_LEN ≤ length frame.now }
    ensures gets { result ≡ (is_some plan.now.vlan && not (is_tagged_of frame.now)) }
{
    plan.vlan.is_some() && !is_tagged(frame)
}

/// The mark with which a guest posts a captured frame: its VLAN as tag where it has one and the frame has no tag.
pub fn mark_of(plan: &GuestPlan, frame: &[u8]) -> TxMark
    requires header { HEADER_LEN ≤ length frame.now }
    ensures mark { sent_as frame.now result ≡ posted_form plan.now frame.now }
{
    if is_tagged(frame) {
        TxMark::plain()
    } else {
        mark_with(plan.vlan)
    }
}

/// A tag's two bytes alone.
fn mark_with(tci: Option<u16>) -> TxMark
    ensures mark { result ≡ mark_with_of tci }
{
    TxMark {
        tci,
        om: 0,
        hlen: 0,
        msscof: 0,
    }
}

/// Whether a frame that comes before the next action is passed over in this stage.
fn is_passed(plan: &GuestPlan, stage: Stage, frame: &Stamped) -> bool
    ensures passed { result ≡ is_passed_in plan.now stage frame.now.frame }
{
    match stage {
        Stage::Active => !is_fit(plan, frame),
        Stage::Quiet => true,
        Stage::Fresh | Stage::Stopping { .. } | Stage::Held { .. } | Stage::Ended => false,
    }
}

/// Whether no action comes before the next frame.
fn is_later(plan: &GuestPlan, at: &Progress) -> bool
    ensures later { result ≡ is_later_than at.now.next (slice_get plan.now.script at.now.done) }
{
    match plan.script.as_slice().get(at.done) {
        None => true,
        Some(action) => at.next < action.at as usize,
    }
}

/// Whether the next frame comes before the next action, and is passed over.
fn passes(plan: &GuestPlan, at: &Progress) -> bool
    ensures passes { result ≡ passes_of plan.now at.now }
{
    match plan.capture.records.as_slice().get(at.next) {
        None => false,
        Some(frame) => is_later(plan, at) && is_passed(plan, at.stage, frame),
    }
}

/// Passes over frames that are not sent, up to the next action or the next frame that is.
#[tactic(auto, using(crate::specs::Steps::passes_on))]
pub fn settle(plan: &GuestPlan, at: &mut Progress)
    requires under { IsUnderway plan.now at.old }
    requires short { length plan.now.capture.records ≤ MAX_RECORDS }
    ensures under { IsUnderway plan.now at.new }
    ensures settled { passes_of plan.now at.new ≡ false }
    ensures kept { at.new ≡ record at.old { next = at.new.next } }
    ensures up { at.old.next ≤ at.new.next }
    ensures frames { (a q : ℕ) → sent_before plan.now a q at.new.next ≡ sent_before plan.now a q at.old.next }
{
    while passes(plan, at) {
        at.next += 1;
    }
}

/// What the next act is to do, where a command is outstanding or none is.
pub fn due(plan: &GuestPlan, at: &Progress, asked: bool) -> Due
    requires short { length plan.now.capture.records ≤ MAX_RECORDS }
    ensures due { result ≡ due_of plan.now at.now asked }
{
    if asked {
        return Due::Answer;
    }
    match at.stage {
        Stage::Held { .. } => Due::Meet,
        Stage::Fresh => Due::Activate,
        Stage::Stopping { .. } | Stage::Ended => Due::Nothing,
        Stage::Active if at.closed => Due::Close,
        Stage::Active | Stage::Quiet => next(plan, at),
    }
}

fn next(plan: &GuestPlan, at: &Progress) -> Due
    requires short { length plan.now.capture.records ≤ MAX_RECORDS }
    ensures next { result ≡ next_of plan.now at.now }
{
    let action = plan.script.as_slice().get(at.done);
    match plan.capture.records.as_slice().get(at.next) {
        None => match action {
            None => Due::Nothing,
            Some(action) => Due::Action { at: action.at },
        },
        Some(_) => match action {
            None => Due::Frame {
                index: at.next as u32,
            },
            Some(action) => {
                if at.next < action.at as usize {
                    Due::Frame {
                        index: at.next as u32,
                    }
                } else {
                    Due::Action { at: action.at }
                }
            }
        },
    }
}
