//! The fates that a run gives to the copies of its plan.
ghost use Rattle.std.specs.Prelude.{◌≡◌, ◌<◌, ◌++◌, ◌∷◌, [], length, map, find, IfOk, OnOk, Some, slice_get};
ghost use Rattle.vmx_model.specs.Plan.{Captured, captured};
ghost use Rattle.vmx_model.specs.Fates.{way_of, fate_of, arrivals, way_fates, copy_fates as copy_fates_of, tx_named, taken_of, entries_at as entries_by, taken_at as taken_by, sent_fates as sent_fates_of, fates_of, guest_fates as guest_fates_of};
ghost use Rattle.vmx_serial_queues.specs.Queues.{tx_core};
ghost use Rattle.vmx_serial_reference.specs.Worlds.{world_of};
ghost use Rattle.vmx_serial_fates.specs.Fates.{tx_facts, facts_of, fates_in};

use std::alloc::{AllocError, Global};
use vmx_ends::Tag;
use vmx_io::List;
use vmx_model::{Entry, Fate, GuestPlan, Plan, Sending, Way, verdict};
use vmx_serial_queues::{TxQueue, mark_of, wire_form};
use vmx_serial_reference::{World, targets_of};

/// The fates of every copy of a plan in the order of guest, captured number and target, a list for each copy. A captured frame that is
/// not sent, or has no target, counts as one copy.
pub fn fates(alloc: Global, plan: &Plan, world: &World) -> Result<List<List<Fate>>, AllocError>
    ensures fates { IfOk result (λ fs. fs ≡ fates_in plan.now (world_of world.now)) }
{
    let mut fates = List::new(alloc);
    for port in 0..plan.guests.len() {
        let guest = plan.guests.at(port);
        guest_fates(alloc, plan, world, port as u32, guest, &mut fates)?;
    }
    Ok(fates)
}

/// The fates of a guest's frames.
fn guest_fates(
    alloc: Global,
    plan: &Plan,
    world: &World,
    port: u32,
    guest: &GuestPlan,
    fates: &mut List<List<Fate>>,
) -> Result<(), AllocError>
    requires guest { slice_get plan.now.guests port ≡ Some guest.now }
    ensures fates { OnOk result (fates.new ≡ fates.old ++ guest_fates_of plan.now (facts_of (world_of world.now)) port guest.now) }
{
    for number in 0..guest.capture.records.len() as u32 {
        frame_fates(alloc, plan, world, port, guest, number, fates)?;
    }
    Ok(())
}

/// The fates of a captured frame's copies, by its verdict.
fn frame_fates(
    alloc: Global,
    plan: &Plan,
    world: &World,
    port: u32,
    guest: &GuestPlan,
    number: u32,
    fates: &mut List<List<Fate>>,
) -> Result<(), AllocError>
    requires guest { slice_get plan.now.guests port ≡ Some guest.now }
    requires number { number < length guest.now.capture.records }
    ensures fates { (c : Captured) → slice_get (captured guest.now) number ≡ Some c → OnOk result (fates.new ≡ fates.old ++ fates_of plan.now (facts_of (world_of world.now)) port guest.now c) }
{
    match verdict(plan, port, number) {
        Sending::Down => fates.push(one(alloc, Fate::Down)?)?,
        Sending::Short => fates.push(one(alloc, Fate::Short)?)?,
        Sending::TooLong => fates.push(one(alloc, Fate::TooLong)?)?,
        Sending::Sent {
            activation,
            queue,
            place,
        } => {
            let tag = Tag {
                guest: port,
                activation,
                queue,
                place,
            };
            let frame = guest.capture.records.at(number as usize).frame.as_slice();
            let wire = wire_form(alloc, frame, &mark_of(guest, frame))?;
            let found = targets_of(alloc, plan, port, &wire)?;
            let targets = &found.ports[..found.count as usize];
            sent_fates(alloc, world, tag, targets, fates)?;
        }
    }
    Ok(())
}

/// A fate alone.
fn one(alloc: Global, fate: Fate) -> Result<List<Fate>, AllocError>
    ensures one { IfOk result (λ fs. fs ≡ fate ∷ []) }
{
    let mut fates = List::new(alloc);
    fates.push(fate)?;
    Ok(fates)
}

/// The fates of a sent frame's copies, one list a target.
fn sent_fates(
    alloc: Global,
    world: &World,
    tag: Tag,
    targets: &[u32],
    fates: &mut List<List<Fate>>,
) -> Result<(), AllocError>
    ensures fates { OnOk result (fates.new ≡ fates.old ++ sent_fates_of (facts_of (world_of world.now)) tag targets.now) }
{
    if targets.is_empty() {
        fates.push(one(alloc, Fate::NoPort)?)?;
        return Ok(());
    }
    for to in targets {
        let taken = taken_at(world, tag.guest, tag.activation, tag.queue);
        let sent = entries_at(world, tag.guest);
        let came = entries_at(world, *to);
        fates.push(copy_fates(alloc, taken, sent, came, tag, *to)?)?;
    }
    Ok(())
}

/// The fates of a sent frame's copy: `sent` is the sender's journal, `came` the target's.
fn copy_fates(
    alloc: Global,
    taken: u64,
    sent: &[Entry],
    came: &[Entry],
    tag: Tag,
    to: u32,
) -> Result<List<Fate>, AllocError>
    ensures fates { IfOk result (λ fs. fs ≡ copy_fates_of taken sent.now came.now tag to) }
{
    if tag.place >= taken {
        return one(alloc, Fate::Discarded);
    }
    let mut fates = List::new(alloc);
    for entry in sent {
        if let Some(way) = way_to(entry, tag, to) {
            push_way_fates(tag.guest, came, way, &mut fates)?;
        }
    }
    Ok(fates)
}

/// The way that a frame took to a target, where the entry says it.
fn way_to(entry: &Entry, tag: Tag, to: u32) -> Option<Way>
    ensures way { result ≡ way_of tag to entry.now }
{
    match *entry {
        Entry::Out {
            tag: other,
            target,
            way,
        } => {
            if is_same(other, tag) && target == to {
                Some(way)
            } else {
                None
            }
        }
        _ => None,
    }
}

ghost use Rattle.vmx_model.specs.Fates.{same_tag};

/// Whether two tags name one place of one queue.
fn is_same(one: Tag, other: Tag) -> bool
    ensures same { result ≡ same_tag one other }
{
    one.guest == other.guest
        && one.activation == other.activation
        && one.queue == other.queue
        && one.place == other.place
}

/// A full link is a fate of its own, and a packet has that of its arrival.
fn push_way_fates(
    sender: u32,
    came: &[Entry],
    way: Way,
    fates: &mut List<Fate>,
) -> Result<(), AllocError>
    ensures fates { OnOk result (fates.new ≡ fates.old ++ way_fates sender came.now way) }
{
    match way {
        Way::Full { look } => {
            fates.push(Fate::LinkFull { look })?;
            Ok(())
        }
        Way::Link { place } => push_arrivals(sender, place, came, fates),
    }
}

/// The fates that the target's journal shows of a packet.
fn push_arrivals(
    sender: u32,
    place: u64,
    came: &[Entry],
    fates: &mut List<Fate>,
) -> Result<(), AllocError>
    ensures fates { OnOk result (fates.new ≡ fates.old ++ arrivals sender place came.now) }
{
    for entry in came {
        if let Some(fate) = fate_in(entry, sender, place) {
            fates.push(fate)?;
        }
    }
    Ok(())
}

/// The fate of a sender's packet by its place in the link, where the entry says it.
fn fate_in(entry: &Entry, sender: u32, at: u64) -> Option<Fate>
    ensures fate { result ≡ fate_of sender at entry.now }
{
    match *entry {
        Entry::In { from, place, fate } => {
            if from == sender && place == at {
                Some(fate)
            } else {
                None
            }
        }
        _ => None,
    }
}

/// The journal of the guest at a port, none where there is no such guest.
fn entries_at(world: &World, port: u32) -> &[Entry]
    ensures entries { result.now ≡ entries_by (facts_of (world_of world.now)) port }
{
    let port = port as usize;
    if port < world.seats.len() {
        return world.seats.at(port).entries.as_slice();
    }
    &[]
}

/// How many frames the device of the guest at a port took from a queue.
fn taken_at(world: &World, port: u32, activation: u32, queue: u32) -> u64
    ensures taken { result ≡ taken_by (facts_of (world_of world.now)) port activation queue }
{
    let port = port as usize;
    if port < world.seats.len() {
        return taken_in(world.seats.at(port).tx.as_slice(), activation, queue);
    }
    0
}

/// How many frames the device took from the queue of this number in this activation.
fn taken_in(queues: &[TxQueue], activation: u32, queue: u32) -> u64
    ensures taken { result ≡ taken_of (find (tx_named activation queue) (map tx_facts (map tx_core queues.now))) }
{
    for at in queues {
        if at.is(activation, queue) {
            return at.taken as u64;
        }
    }
    0
}
