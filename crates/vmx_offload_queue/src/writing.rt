//! All records of a capture, one after the other.
ghost use Rattle.std.specs.Prelude.{◌≡◌, ◌≤◌, ◌<◌, ◌+◌, ◌++◌, [], All, length, vec_capacity, IfOk, OnOk};
ghost use Rattle.vmx_pcap.specs.declared.format.TheConstants.{SNAP_LENGTH};
ghost use Rattle.vmx_txq.specs.Ends.{driver_view, device_view};
ghost use Rattle.vmx_offload_queue.specs.Rest.{AreAtRest, HoldsAll};
ghost use Rattle.vmx_offload_queue.specs.Records.{segment_in, written_of, counted, total, Sends, SentFor, FilledFrom};
ghost use Rattle.vmx_offload_queue.specs.declared.counts.TheConstants.{MAX_RECORDS};

use crate::counts::Counts;
use crate::filling::fill_bytes;
use std::alloc::{AllocError, Global};
use std::collections::VecDeque;
use vmx_io::{List, MAX_FRAME};
use vmx_pcap::Stamped;
use vmx_txq::{TxDeviceEnd, TxDriverEnd};

/// The records that are written, in order, and how many had which fate.
#[derive(Drop)]
pub struct WrittenRecords {
    pub records: List<Stamped>,
    pub counts: Counts,
}

/// Sends the frames of these records that have a TCP segment through a new queue, and writes all that stay, each with its
/// stamp and its checksum filled in. What was sent is taken, completed and reaped then.
///
/// Conditions: at most 262,144 records, and a queue whose ring has the descriptors of every frame.
///
/// # Errors
///
/// Want of memory; nothing is said of the queue then.
pub fn fill_all(
    alloc: Global,
    driver: &mut TxDriverEnd,
    device: &mut TxDeviceEnd,
    records: List<Stamped>,
) -> Result<WrittenRecords, AllocError>
    requires few { length records ≤ MAX_RECORDS }
    requires rest { AreAtRest (driver_view driver.old) (device_view device.old) }
    requires new { (driver_view driver.old).sent ≡ [] }
    requires holds { HoldsAll (driver_view driver.old).made }
    ensures filled { IfOk result (λ x. FilledFrom records x.records x.counts) }
    ensures short { IfOk result (λ x. All (λ r. length r.frame ≤ SNAP_LENGTH) x.records) }
    ensures sent { OnOk result (SentFor records (driver_view driver.new).sent) }
    ensures made { OnOk result ((driver_view driver.new).made ≡ (driver_view driver.old).made) }
    ensures rest { OnOk result (AreAtRest (driver_view driver.new) (device_view device.new)) }
{
    let mut room = Vec::with_capacity(alloc, MAX_FRAME)?;
    let mut written = Vec::with_capacity(alloc, records.len())?;
    let mut counts = Counts {
        filled: 0,
        left: 0,
        long: 0,
    };
    let mut waiting = VecDeque::from_vec(records.into_vec());
    while let Some(stamped) = waiting.pop_front() {
        counts = write_one(driver, device, &mut room, stamped, &mut written, counts)?;
    }
    Ok(WrittenRecords {
        records: List::of(written),
        counts,
    })
}

/// Puts a record that stays behind those that are written, and counts it.
fn write_one(
    driver: &mut TxDriverEnd,
    device: &mut TxDeviceEnd,
    room: &mut Vec<u8>,
    stamped: Stamped,
    written: &mut Vec<Stamped>,
    counts: Counts,
) -> Result<Counts, AllocError>
    requires rest { AreAtRest (driver_view driver.old) (device_view device.old) }
    requires few { length (driver_view driver.old).sent < MAX_RECORDS }
    requires counted { total counts < MAX_RECORDS }
    requires holds { HoldsAll (driver_view driver.old).made }
    requires room { MAX_FRAME ≤ vec_capacity room.old }
    ensures counts { IfOk result (λ c. c ≡ counted stamped counts) }
    ensures most { IfOk result (λ c. total c ≤ total counts + 1) }
    ensures written { OnOk result (written.new.items ≡ written.old.items ++ written_of stamped) }
    ensures sent { OnOk result (Sends (segment_in stamped.frame) stamped.frame (driver_view driver.old).sent (driver_view driver.new).sent) }
    ensures grows { length (driver_view driver.new).sent ≤ length (driver_view driver.old).sent + 1 }
    ensures made { (driver_view driver.new).made ≡ (driver_view driver.old).made }
    ensures rest { AreAtRest (driver_view driver.new) (device_view device.new) }
    ensures room { vec_capacity room.old ≤ vec_capacity room.new }
{
    let Stamped {
        seconds,
        micros,
        frame,
    } = stamped;
    if frame.len() > MAX_FRAME {
        return Ok(Counts {
            long: counts.long + 1,
            ..counts
        });
    }
    let (frame, has_segment) = fill_bytes(driver, device, room, frame);
    written.push(Stamped {
        seconds,
        micros,
        frame,
    })?;
    if has_segment {
        Ok(Counts {
            filled: counts.filled + 1,
            ..counts
        })
    } else {
        Ok(Counts {
            left: counts.left + 1,
            ..counts
        })
    }
}
