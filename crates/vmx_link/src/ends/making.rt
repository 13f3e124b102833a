//! How the two ends of a link are made.
ghost use Rattle.std.specs.Prelude.{◌<◌, ◌≤◌, IfOk};
ghost use Rattle.vmx_link.specs.Ends.{out_view, in_view, IsNewPair};

use super::{LinkIn, LinkOut, Shelf};
use crate::steps::Apart;
use std::alloc::{AllocError, Global};
use std::sync::Arc;

/// A new link between two ports, with this many entries, 1 to 64. It is the only call of a link that takes memory.
pub fn pair(
    alloc: Global,
    from: u32,
    to: u32,
    capacity: u32,
) -> Result<(LinkOut, LinkIn), AllocError>
    requires least { 0 < capacity }
    requires most { capacity ≤ 64 }
    ensures ends { IfOk result (λ p. IsNewPair from to capacity (out_view p.0) (in_view p.1)) }
{
    let words = Vec::from_elem(alloc, 0u64, capacity as usize)?;
    let (table, mut seat) = Shelf::vacant(alloc, words.as_slice(), capacity as usize, &())?;
    let other = table.shared.split_seat::<Apart>(&mut seat);
    let table = Arc::new(alloc, table)?;
    let twin = Arc::try_clone(&table)?;
    let output = LinkOut {
        table,
        seat,
        from,
        to,
        capacity: capacity as u64,
        place: 0,
        looks: 0,
    };
    let input = LinkIn {
        table: twin,
        seat: other,
        from,
        to,
        capacity: capacity as u64,
        place: 0,
    };
    Ok((output, input))
}
