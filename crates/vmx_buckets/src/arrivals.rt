//! The fates of what a device took, by the port that sent it.
ghost use Rattle.std.specs.Prelude.{◌≡◌, IfOk, OnOk};
ghost use Rattle.vmx_buckets.specs.Buckets.{HasArrivals, Comes};

use crate::keys::{empty_lists, push_at};
use std::alloc::{AllocError, Global};
use vmx_io::List;
use vmx_model::{Entry, Fate};

/// The fates of the packets that a device took from each port below `ports`, in order.
pub fn by_port(
    alloc: Global,
    entries: &[Entry],
    ports: usize,
) -> Result<List<List<Fate>>, AllocError>
    ensures arrivals { IfOk result (λ lists. HasArrivals entries.now ports lists) }
{
    let mut lists = empty_lists(alloc, ports)?;
    for entry in entries {
        add_arrival(&mut lists, entry)?;
    }
    Ok(lists)
}

/// Puts a fate behind the others of its sender's port, where the entry has one.
#[tactic(auto, using(crate::proofs::Adding::comes_none, crate::proofs::Adding::comes_beyond, crate::proofs::Adding::comes_one))]
fn add_arrival(lists: &mut List<List<Fate>>, entry: &Entry) -> Result<(), AllocError>
    ensures comes { OnOk result (Comes entry.now lists.old lists.new) }
{
    if let Entry::In { from, fate, .. } = *entry {
        if (from as usize) < lists.len() {
            return push_at(lists, from as usize, fate);
        }
    }
    Ok(())
}
