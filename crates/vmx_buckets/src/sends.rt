//! What a device gave to the switch, by activation and transmit queue.
ghost use Rattle.std.specs.Prelude.{◌≡◌, length, IfOk, OnOk, Option};
ghost use Rattle.vmx_buckets.specs.Buckets.{switched_in, toward_of, HasSwitched, Adds, AddsTo};

use crate::keys::{QUEUES, empty_lists, key_of, push_at};
use std::alloc::{AllocError, Global};
use vmx_ends::Tag;
use vmx_io::List;
use vmx_model::{Entry, Way};

/// The target of a frame's copy, and the way that the copy took there.
#[derive(Clone, Copy, Debug, PartialEq, Eq)]
pub struct Toward {
    pub target: u32,
    pub way: Way,
}

/// What a device did with a frame of a queue: it gave the frame of this place to a target, or to none since there is none.
#[derive(Clone, Copy, Debug, PartialEq, Eq)]
pub struct Switched {
    pub place: u64,
    pub to: Option<Toward>,
}

/// What a journal gave to the switch, in so many lists by key: the list of each queue of an activation whose key is below `count`.
pub fn by_queue(
    alloc: Global,
    entries: &[Entry],
    count: usize,
) -> Result<List<List<Switched>>, AllocError>
    ensures switched { IfOk result (λ lists. HasSwitched entries.now count lists) }
{
    let mut lists = empty_lists(alloc, count)?;
    for entry in entries {
        add_entry(&mut lists, entry)?;
    }
    Ok(lists)
}

/// Puts an entry behind the others of its queue, where it is one that gives a frame to the switch.
fn add_entry(lists: &mut List<List<Switched>>, entry: &Entry) -> Result<(), AllocError>
    ensures adds { OnOk result (Adds entry.now lists.old lists.new) }
{
    match *entry {
        Entry::Out { tag, target, way } => add(lists, tag, Some(Toward { target, way })),
        Entry::Lost { tag } => add(lists, tag, None),
        Entry::Setting { .. } | Entry::In { .. } => Ok(()),
    }
}

/// Puts a frame of this tag behind the others of its queue, where there is a list for that.
#[tactic(auto, using(crate::proofs::Adding::adds_past, crate::proofs::Adding::adds_beyond, crate::proofs::Adding::adds_one))]
fn add(lists: &mut List<List<Switched>>, tag: Tag, to: Option<Toward>) -> Result<(), AllocError>
    ensures adds { OnOk result (AddsTo tag to lists.old lists.new) }
{
    if tag.queue as usize >= QUEUES {
        return Ok(());
    }
    let key = key_of(tag.activation, tag.queue);
    if key >= lists.len() {
        return Ok(());
    }
    push_at(
        lists,
        key,
        Switched {
            place: tag.place,
            to,
        },
    )
}
