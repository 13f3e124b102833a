//! A look at a queue's words from outside.
ghost use Rattle.std.specs.Prelude.{◌≡◌, ◌+◌, ◌*◌, ◌<◌};
ghost use Rattle.vmx_rx_ring.specs.Words.{count};
ghost use Rattle.vmx_ring_laws.specs.Keys.{key_of};
ghost use Rattle.vmx_rx_ends.specs.Standing.{IsWord};
ghost use Rattle.vmx_rx_ends.specs.Views.{HasWords, driver_seen};

use crate::reader::RxReader;
use atomic_table::Play;
use std::marker::PhantomData;
use vmx_rx_ring::{Buffer, Known, TellsVisible};

/// A load that changes nothing, and tells what the rule says of the word.
struct Look<C> {
    marker: PhantomData<C>,
}

impl<C: TellsVisible> Play<Buffer, Known> for Look<C> {
    ghost use Rattle.vmx_rx_ends.specs.Standing.{seen_only};

    ghost then = { seen_only C.counted };
}

/// The word of the queue's table with this index, below four times the descriptors of both rings, as it stands between two
/// calls of the two ends.
pub fn word_of<C: TellsVisible>(reader: &mut RxReader<C>, index: u32) -> u64
    requires words { HasWords C.counted reader.old.seat.table_id reader.old.shape }
    requires index { index < 4 * count reader.old.seat.me.0.made }
    ensures same { (reader.new.seat.me ≡ reader.old.seat.me) × (reader.new.seat.table_id ≡ reader.old.seat.table_id) × (reader.new.shape ≡ reader.old.shape) }
    ensures word { IsWord C.counted (driver_seen (key_of reader.old.seat.table_id) reader.old.seat.me.0) index result }
{
    let shared = &reader.table.shared;
    shared.load::<Look<C>>(&mut reader.seat, index as usize)
}
