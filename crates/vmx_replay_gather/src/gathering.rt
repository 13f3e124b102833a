//! The record of a replay that has ended.
ghost use Rattle.std.specs.Prelude.{◌≡◌, IfOk};
ghost use Rattle.vmx_model.specs.Account.{Accounts};
ghost use Rattle.vmx_model.specs.Record.{HasLists};
ghost use Rattle.vmx_model.specs.Serial.{serial_run};
ghost use Rattle.vmx_replay_gather.specs.Records.{record_of};

use crate::ended::Ended;
use crate::meeting::meet_all;
use crate::parting::{Parts, part_all};
use std::alloc::{AllocError, Global};
use vmx_ends::Fabric;
use vmx_record::RecordOf;

/// Takes all guests apart. Both sides of each guest's registers meet, and both ends of each link; what is left is the record: of each
/// guest by port its journal and statistics, the frames handed up and the facts of queues and registers, and the facts of all links, by
/// sender and then target. `AllocError` comes for want of memory alone.
pub fn gather<'a, F: Fabric>(alloc: Global, ended: Ended<'a, F>) -> Result<RecordOf<F>, AllocError>
    // The record accounts for the plan,
    ensures accounts { IfOk result (λ r. Accounts ended.entry.plan r) }
    // has the lists of the plan's serial run,
    ensures lists { IfOk result (λ r. HasLists r (serial_run ended.entry.plan)) }
    // and is just what the guests leave.
    ensures left { IfOk result (λ r. r ≡ record_of ended.entry.guests) }
{
    let Parts { guests, ends } = part_all(alloc, ended)?;
    let links = meet_all(alloc, ends)?;
    Ok(RecordOf { guests, links })
}
