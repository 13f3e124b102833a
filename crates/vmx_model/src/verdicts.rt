//! The verdict on a captured frame, by the plan alone. A frame is sent where its guest is not quiesced and it has at least 14 bytes, an
//! Ethernet header, and at most 18 more than the MTU, that header and a VLAN tag. No call takes memory.

ghost use Rattle.vmx_frame.specs.declared.ethernet.TheConstants.{HEADER_LEN};
ghost use Rattle.vmx_frame.specs.Ethernet.{is_tagged as is_tagged_of};
ghost use Rattle.vmx_model.specs.Wire.{wire_form, posted_form};
ghost use Rattle.std.specs.Prelude.{◌≡◌, ◌<◌, ◌≤◌, ◌&&◌, not, is_some, ℕ, false, Some, length, slice_get};
ghost use Rattle.vmx_model.specs.Types.{Stamped as StampedValue, GuestPlan as GuestValue};
ghost use Rattle.vmx_model.specs.Deeds.{begins as begins_of, quiet_after as quiet_by, is_quiet};
ghost use Rattle.vmx_model.specs.PlanSteps.{goes_at};
ghost use Rattle.vmx_model.specs.Plan.{past, activation_at as activation_by, is_down as is_down_by, place_of as place_by, captured_as, verdict_on};

use crate::deeds::{Action, Deed};
use crate::guest::GuestPlan;
use crate::limits::ABOVE_MTU;
use crate::plan::Plan;
use crate::sending::Sending;
use vmx_frame::{HEADER_LEN, TAG_LEN, flow, is_tagged};
use vmx_rss::tx_queue;

/// The verdict on captured frame `frame` of guest `guest`, both counted from 0. It goes over all earlier frames.
pub fn verdict(plan: &Plan, guest: u32, frame: u32) -> Sending
    requires guest { guest < length plan.now.guests }
    requires frame { (g : GuestValue) → slice_get plan.now.guests guest ≡ Some g → frame < length g.capture.records }
    ensures verdict { (g : GuestValue) (r : StampedValue) → slice_get plan.now.guests guest ≡ Some g → slice_get g.capture.records frame ≡ Some r
        → result ≡ verdict_on g (captured_as g frame r) }
{
    verdict_in(&plan.guests.as_slice()[guest as usize], frame)
}

/// The bytes of a frame as it goes over the wire, with the tag that it is given.
#[tactic(auto, using(crate::specs::Wire::wire_length))]
fn wire_len(plan: &GuestPlan, frame: &[u8]) -> u64
    requires header { HEADER_LEN ≤ length frame.now }
    ensures length { result ≡ length (wire_form (posted_form plan.now frame.now)) }
{
    if gets_tag(plan, frame) {
        (frame.len() + TAG_LEN) as u64
    } else {
        frame.len() as u64
    }
}

/// Whether a frame is given a tag.
fn gets_tag(plan: &GuestPlan, frame: &[u8]) -> bool
    requires header { HEADER_LEN ≤ length frame.now }
    ensures gets { result ≡ (is_some plan.now.vlan && not (is_tagged_of frame.now)) }
{
    plan.vlan.is_some() && !is_tagged(frame)
}

fn verdict_in(plan: &GuestPlan, frame: u32) -> Sending
    requires there { frame < length plan.now.capture.records }
    ensures verdict { (r : StampedValue) → slice_get plan.now.capture.records frame ≡ Some r
        → result ≡ verdict_on plan.now (captured_as plan.now frame r) }
{
    if is_down(plan, frame) {
        return Sending::Down;
    }
    let bytes = plan.capture.records.as_slice()[frame as usize]
        .frame
        .as_slice();
    if bytes.len() < HEADER_LEN {
        return Sending::Short;
    }
    if wire_len(plan, bytes) > u64::from(plan.setup.mtu) + ABOVE_MTU as u64 {
        return Sending::TooLong;
    }
    let activation = activation_at(plan, frame);
    let queue = tx_queue(&flow(bytes), u32::from(plan.setup.tx_queues));
    Sending::Sent {
        activation,
        queue,
        place: place_of(plan, activation, queue, frame),
    }
}

/// Whether the guest is quiesced at a captured number.
fn is_down(plan: &GuestPlan, number: u32) -> bool
    ensures down { result ≡ is_down_by plan.now number }
{
    is_quiet_at(plan.script.as_slice(), number)
}

#[tactic(auto, using(crate::specs::PlanSteps::quiet_done, crate::specs::PlanSteps::quiet_skipped))]
fn is_quiet_at(script: &[Action], number: u32) -> bool
    ensures quiet { result ≡ is_quiet false (past number script.now) }
{
    let mut quiet = false;
    for action in script {
        if action.at <= number {
            quiet = quiet_after(quiet, &action.deed);
        }
    }
    quiet
}

/// Whether a guest is quiesced after a deed.
pub(crate) fn quiet_after(quiet: bool, deed: &Deed) -> bool
    ensures quiet { result ≡ quiet_by quiet deed.now }
{
    match deed {
        Deed::Quiesce => true,
        Deed::Activate => false,
        Deed::Reset
        | Deed::Mode { .. }
        | Deed::Multicast { .. }
        | Deed::Vlans { .. }
        | Deed::Rss { .. } => quiet,
    }
}

/// The activation of the guest at a captured number, counted from 0.
fn activation_at(plan: &GuestPlan, number: u32) -> u32
    ensures activation { result ≡ activation_by plan.now number }
{
    plan.script
        .as_slice()
        .iter()
        .filter(|action| action.at <= number)
        .filter(|action| begins(&action.deed))
        .count() as u32
}

fn begins(deed: &Deed) -> bool
    ensures begins { result ≡ begins_of deed.now }
{
    matches!(deed, Deed::Activate | Deed::Reset)
}

#[tactic(auto, using(crate::specs::PlanSteps::place_step, crate::specs::PlanSteps::place_low))]
/// How many frames before this number are sent on this queue of this activation.
fn place_of(plan: &GuestPlan, activation: u32, queue: u32, frame: u32) -> u64
    requires there { frame < length plan.now.capture.records }
    ensures place { result ≡ place_by plan.now activation queue frame }
{
    let mut place = 0;
    for number in 0..frame {
        if goes_on(plan, activation, queue, number) {
            place += 1;
        }
    }
    place
}

fn goes_on(plan: &GuestPlan, activation: u32, queue: u32, number: u32) -> bool
    requires there { number < length plan.now.capture.records }
    ensures goes { result ≡ goes_at plan.now activation queue number }
{
    let bytes = plan.capture.records.as_slice()[number as usize]
        .frame
        .as_slice();
    !is_down(plan, number)
        && HEADER_LEN <= bytes.len()
        && wire_len(plan, bytes) <= u64::from(plan.setup.mtu) + ABOVE_MTU as u64
        && activation_at(plan, number) == activation
        && tx_queue(&flow(bytes), u32::from(plan.setup.tx_queues)) == queue
}
