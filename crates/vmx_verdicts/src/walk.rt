//! A walk over a guest's captured frames. It takes no memory, and for each frame the time of its actions and of its tests alone.
ghost use Rattle.std.specs.Prelude.{◌≡◌, ◌≤◌, ◌<◌, ◌+◌, ◌^◌, ◌&&◌, ◌∷◌, [], not, is_some, nat_lt, ℕ, true, false, Some, length, slice_get, slice_index_or};
ghost use Rattle.vmx_frame.specs.declared.ethernet.TheConstants.{HEADER_LEN};
ghost use Rattle.vmx_frame.specs.Ethernet.{is_tagged as is_tagged_of};
ghost use Rattle.vmx_layout.specs.declared.register.TheConstants.{MAX_QUEUES};
ghost use Rattle.vmx_model.specs.declared.limits.TheConstants.{MAX_ACTIONS};
ghost use Rattle.vmx_model.specs.Wire.{wire_form, posted_form};
ghost use Rattle.vmx_model.specs.Types.{Stamped as StampedValue};
ghost use Rattle.vmx_model.specs.Deeds.{begins as begins_of, quiet_after as quiet_by};
ghost use Rattle.vmx_model.specs.Plan.{captured_as, verdict_on};
ghost use Rattle.vmx_verdicts.specs.Ordered.{is_later};
ghost use Rattle.vmx_verdicts.specs.Walks.{IsWalk, NextFound};

use std::marker::Model;
use vmx_frame::{HEADER_LEN, TAG_LEN, flow, is_tagged};
use vmx_layout::MAX_QUEUES;
use vmx_model::{ABOVE_MTU, Deed, GuestPlan, Sending};
use vmx_rss::tx_queue;

/// The most transmit queues of a guest.
const QUEUES: usize = MAX_QUEUES as usize;

/// Where a walk over a guest's frames is. Contracts see the guest and the number of the frame that is next.
#[derive(Drop)]
pub struct Verdicts<'a> {
    guest: &'a GuestPlan,
    next: usize,
    standing: Standing,
}

/// What a walk keeps.
#[derive(Drop)]
struct Standing {
    /// So many actions are at or before the next frame.
    done: usize,
    /// Whether they leave the guest quiet.
    quiet: bool,
    /// The activation in hand.
    activation: u32,
    /// How many frames each of its queues sent so far.
    counts: [u64; QUEUES],
}

impl<'a> Model for Verdicts<'a> {
    ghost use Rattle.vmx_verdicts.specs.Walks.{Walk, IsWalk};

    ghost Value = { Walk };

    ghost view = { λ w. record { guest = w.guest.now; next = w.next } };

    ghost invariant = { λ w. IsWalk w.guest.now w.next w.standing.done w.standing.quiet w.standing.activation w.standing.counts };
}

impl<'a> Verdicts<'a> {
    /// A walk that begins with the first frame.
    pub fn new(guest: &'a GuestPlan) -> Verdicts<'a>
        ensures new { result ≡ record { guest = guest.now; next = 0 } }
    {
        Verdicts {
            guest,
            next: 0,
            standing: Standing {
                done: 0,
                quiet: false,
                activation: 0,
                counts: [0; QUEUES],
            },
        }
    }

    /// Whether there is a further frame.
    pub fn has_next(&self) -> bool
        ensures next { result ≡ nat_lt self.now.next (length self.now.guest.capture.records) }
    {
        self.next < self.guest.capture.records.len()
    }

    /// The verdict on the next frame, which is there: that of `verdict` for its number.
    pub fn next(&mut self) -> Sending
        requires there { self.old.next < length self.old.guest.capture.records }
        ensures verdict { (r : StampedValue) → slice_get self.old.guest.capture.records self.old.next ≡ Some r → result ≡ verdict_on self.old.guest (captured_as self.old.guest self.old.next r) }
        ensures on { self.new ≡ record self.old { next = self.old.next + 1 } }
    {
        pass(self.guest, self.next, &mut self.standing);
        let frame = self.guest.capture.records.as_slice()[self.next]
            .frame
            .as_slice();
        let sending = sends(self.guest, frame, self.next, &mut self.standing);
        self.next += 1;
        sending
    }
}

/// Goes over the actions up to a frame's number.
fn pass(guest: &GuestPlan, next: usize, standing: &mut Standing)
    requires walk { IsWalk guest.now next standing.old.done standing.old.quiet standing.old.activation standing.old.counts }
    ensures walk { IsWalk guest.now next standing.new.done standing.new.quiet standing.new.activation standing.new.counts }
    ensures later { is_later next (slice_get guest.now.script standing.new.done) ≡ true }
{
    while is_due(guest, next, standing.done) {
        pass_one(standing, &guest.script.as_slice()[standing.done].deed);
    }
}

/// Whether an action is there, at or before a frame's number.
fn is_due(guest: &GuestPlan, next: usize, done: usize) -> bool
    ensures due { result ≡ not (is_later next (slice_get guest.now.script done)) }
{
    match guest.script.as_slice().get(done) {
        None => false,
        Some(action) => action.at as usize <= next,
    }
}

/// Goes over one action.
fn pass_one(standing: &mut Standing, deed: &Deed)
    requires few { (standing.old.done < MAX_ACTIONS) × (standing.old.activation < MAX_ACTIONS) }
    ensures done { standing.new.done ≡ standing.old.done + 1 }
    ensures quiet { standing.new.quiet ≡ quiet_by standing.old.quiet deed.now }
    ensures same { begins_of deed.now ≡ false → (standing.new.activation ≡ standing.old.activation) × (standing.new.counts ≡ standing.old.counts) }
    ensures begins { begins_of deed.now ≡ true → (standing.new.activation ≡ standing.old.activation + 1) × (standing.new.counts ≡ 0 ∷ 0 ∷ 0 ∷ 0 ∷ 0 ∷ 0 ∷ 0 ∷ 0 ∷ []) }
{
    standing.done += 1;
    standing.quiet = quiet_after(standing.quiet, deed);
    if begins(deed) {
        standing.activation += 1;
        standing.counts = [0; QUEUES];
    }
}

/// Whether a guest is quiet after a deed.
fn quiet_after(quiet: bool, deed: &Deed) -> bool
    ensures quiet { result ≡ quiet_by quiet deed.now }
{
    match deed {
        Deed::Quiesce => true,
        Deed::Activate => false,
        Deed::Reset
        | Deed::Mode { .. }
        | Deed::Multicast { .. }
        | Deed::Vlans { .. }
        | Deed::Rss { .. } => quiet,
    }
}

fn begins(deed: &Deed) -> bool
    ensures begins { result ≡ begins_of deed.now }
{
    matches!(deed, Deed::Activate | Deed::Reset)
}

/// The verdict on a frame, which is counted on its queue where it is sent.
fn sends(guest: &GuestPlan, frame: &[u8], next: usize, standing: &mut Standing) -> Sending
    requires counts { length standing.old.counts ≡ MAX_QUEUES }
    requires room { next + 1 < 2 ^ 64 }
    requires small { (q : ℕ) → slice_index_or standing.old.counts q 0 ≤ next }
    ensures found { NextFound guest.now frame.now standing.old.quiet standing.old.activation standing.old.counts standing.new.counts result }
    ensures same { (standing.new.done ≡ standing.old.done) × (standing.new.quiet ≡ standing.old.quiet) × (standing.new.activation ≡ standing.old.activation) }
{
    if standing.quiet {
        return Sending::Down;
    }
    if frame.len() < HEADER_LEN {
        return Sending::Short;
    }
    if wire_len(guest, frame) > u64::from(guest.setup.mtu) + ABOVE_MTU as u64 {
        return Sending::TooLong;
    }
    let queue = tx_queue(&flow(frame), u32::from(guest.setup.tx_queues));
    let place = standing.counts[queue as usize];
    standing.counts[queue as usize] = place + 1;
    Sending::Sent {
        activation: standing.activation,
        queue,
        place,
    }
}

/// The bytes of a frame as it goes over the wire, with the tag that it is given.
#[tactic(auto, using(vmx_model::specs::Wire::wire_length))]
fn wire_len(plan: &GuestPlan, frame: &[u8]) -> u64
    requires header { HEADER_LEN ≤ length frame.now }
    ensures length { result ≡ length (wire_form (posted_form plan.now frame.now)) }
{
    if gets_tag(plan, frame) {
        (frame.len() + TAG_LEN) as u64
    } else {
        frame.len() as u64
    }
}

/// Whether a frame is given a tag.
fn gets_tag(plan: &GuestPlan, frame: &[u8]) -> bool
    requires header { HEADER_LEN ≤ length frame.now }
    ensures gets { result ≡ (is_some plan.now.vlan && not (is_tagged_of frame.now)) }
{
    plan.vlan.is_some() && !is_tagged(frame)
}
