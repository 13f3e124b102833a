//! Memory for all that a turn can do.
ghost use Rattle.std.specs.Prelude.{◌≡◌, ◌≤◌, length, OnOk};
ghost use Rattle.vmx_device.specs.declared.growing.TheConstants.{TURN_ENTRIES, TURN_COPIES};

use std::alloc::{AllocError, Global};
use vmx_io::{Buffer, List};
use vmx_model::Journal;

/// The most copies of frames that a turn makes: 16 of each of 8 transmit queues.
pub(crate) const TURN_COPIES: usize = 128;

/// The most packets that a turn handles: one of each link from another port.
pub(crate) const TURN_PACKETS: usize = 15;

/// The most entries that a turn adds: a command's, those of the copies, and those of the packets.
pub const TURN_ENTRIES: usize = 144;

/// Makes room for a turn; the journal stays as it was.
pub(crate) fn grow(
    alloc: Global,
    journal: &mut Journal,
    copies: &mut List<Buffer>,
) -> Result<(), AllocError>
    ensures entries { journal.new.entries.0 ≡ journal.old.entries.0 }
    ensures setups { journal.new.setups.0 ≡ journal.old.setups.0 }
    ensures room { OnOk result ((TURN_ENTRIES ≤ journal.new.entries.1) × (1 ≤ journal.new.setups.1) × (TURN_COPIES ≤ length copies.new)) }
{
    journal.entries.reserve(TURN_ENTRIES)?;
    journal.setups.reserve(1)?;
    fill(alloc, copies)
}

/// Fills up the room for copies of frames.
fn fill(alloc: Global, copies: &mut List<Buffer>) -> Result<(), AllocError>
    ensures full { OnOk result (TURN_COPIES ≤ length copies.new) }
{
    for _count in copies.len()..TURN_COPIES {
        copies.push(Buffer::new(alloc)?)?;
    }
    Ok(())
}
