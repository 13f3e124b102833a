//! Serial runs of plans of sketches: by the reference program, and by drivers, devices, queues and links, over each fabric.

use crate::sketch::{Sketch, plan_of};
use crate::wanted::{are, are_rows};
use std::alloc::{AllocError, Global};
use vmx_copies::copies;
use vmx_ends::Fabric;
use vmx_io::List;
use vmx_lists::ListFabric;
use vmx_model::{Fate, Plan, Received};
use vmx_record::RecordOf;
use vmx_replay::serial;
use vmx_report::QueueFabric;
use vmx_rings::RingFabric;
use vmx_serial_fates::fates;
use vmx_serial_reference::{World, serial_run};

/// Whether the serial run of these guests gives these fates to their copies, by the reference program; and whether the replay over each
/// fabric gives them too, and hands up the same frames.
pub fn gives(
    alloc: Global,
    poll_every: u32,
    guests: &[Sketch],
    wanted: &[(Fate, u64)],
) -> Result<bool, AllocError> {
    let Some(plan) = plan_of(alloc, poll_every, guests)? else {
        return Ok(false);
    };
    let world = serial_run(alloc, &plan)?;
    let found = fates(alloc, &plan, &world)?;
    Ok(are(&found, wanted) && all_replay_so(alloc, &plan, &world, &found)?)
}

/// Whether the replay of a plan comes to these fates and to the frames that this world has handed up, over each fabric.
fn all_replay_so(
    alloc: Global,
    plan: &Plan,
    world: &World,
    found: &List<List<Fate>>,
) -> Result<bool, AllocError> {
    Ok(
        replays_so::<ListFabric>(alloc, plan, world, found)?
            && replays_so::<RingFabric>(alloc, plan, world, found)?
            && replays_so::<QueueFabric>(alloc, plan, world, found)?,
    )
}

/// The same over one fabric.
fn replays_so<F: Fabric>(
    alloc: Global,
    plan: &Plan,
    world: &World,
    found: &List<List<Fate>>,
) -> Result<bool, AllocError> {
    let record = serial::<F>(alloc, plan)?;
    let journals = record.journals(alloc)?;
    let rows = copies(alloc, plan, journals.as_slice())?;
    Ok(are_rows(rows.as_slice(), found) && hands_up(&record, world))
}

/// Whether each guest was handed up the frames that it has in this world.
fn hands_up<F: Fabric>(record: &RecordOf<F>, world: &World) -> bool {
    if record.guests() != world.seats.len() {
        return false;
    }
    for port in 0..record.guests() {
        if !are_same(
            record.guest(port).received(),
            world.seats.at(port).received.as_slice(),
        ) {
            return false;
        }
    }
    true
}

/// Whether these are the same frames, come up at the same places.
fn are_same(ours: &[Received], theirs: &[Received]) -> bool {
    ours.len() == theirs.len()
        && ours
            .iter()
            .zip(theirs)
            .all(|(one, other)| is_same(one, other))
}

fn is_same(one: &Received, other: &Received) -> bool {
    one.activation == other.activation
        && one.queue == other.queue
        && one.place == other.place
        && one.tci == other.tci
        && one.frame.as_slice() == other.frame.as_slice()
}

/// The world after the serial run of these guests.
pub fn world_of(alloc: Global, guests: &[Sketch]) -> Result<Option<World>, AllocError> {
    let Some(plan) = plan_of(alloc, 1, guests)? else {
        return Ok(None);
    };
    Ok(Some(serial_run(alloc, &plan)?))
}
