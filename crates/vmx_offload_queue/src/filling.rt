//! A frame's checksum, filled in by way of the queue.
ghost use Rattle.std.specs.Prelude.{◌≡◌, ◌≤◌, ◌<◌, ◌+◌, ◌∷◌, ◌++◌, [], length, is_some, vec_capacity};
ghost use Rattle.vmx_ends.specs.Frames.{sent_as};
ghost use Rattle.vmx_checksum.specs.Segment.{segment};
ghost use Rattle.vmx_checksum.specs.Checksum.{completed, IsMarkOf};
ghost use Rattle.vmx_txq.specs.Ends.{driver_view, device_view};
ghost use Rattle.vmx_offload_queue.specs.Rest.{AreAtRest, HoldsAll};
ghost use Rattle.vmx_offload_queue.specs.Records.{segment_in, filled_frame, Sends};
ghost use Rattle.vmx_offload_queue.specs.declared.counts.TheConstants.{MAX_RECORDS};

use crate::carrying::carry;
use vmx_checksum::{fill, seed};
use vmx_ends::TxMark;
use vmx_io::{Bytes, MAX_FRAME, MIN_FRAME};
use vmx_txq::{TxDeviceEnd, TxDriverEnd};

/// The frame as it is written, and whether it has a TCP segment, for whose checksum it went through the queue. `room` is the
/// device's.
pub fn fill_bytes(
    driver: &mut TxDriverEnd,
    device: &mut TxDeviceEnd,
    room: &mut Vec<u8>,
    frame: Bytes,
) -> (Bytes, bool)
    requires rest { AreAtRest (driver_view driver.old) (device_view device.old) }
    requires few { length (driver_view driver.old).sent < MAX_RECORDS }
    requires holds { HoldsAll (driver_view driver.old).made }
    requires room { MAX_FRAME ≤ vec_capacity room.old }
    requires short { length frame ≤ MAX_FRAME }
    ensures told { result.1 ≡ is_some (segment_in frame) }
    ensures frame { result.0 ≡ filled_frame frame }
    ensures sent { Sends (segment_in frame) frame (driver_view driver.old).sent (driver_view driver.new).sent }
    ensures made { (driver_view driver.new).made ≡ (driver_view driver.old).made }
    ensures rest { AreAtRest (driver_view driver.new) (device_view device.new) }
    ensures room { vec_capacity room.old ≤ vec_capacity room.new }
{
    let mut bytes = frame.into_vec();
    let has_segment = fill_frame(driver, device, room, &mut bytes);
    (Bytes::of(bytes), has_segment)
}

/// Sends a frame with a TCP segment through the queue, seeded, and puts in its place what the device made of it. The answer
/// says whether there is a segment; where there is none, the frame stays and is not sent.
fn fill_frame(
    driver: &mut TxDriverEnd,
    device: &mut TxDeviceEnd,
    room: &mut Vec<u8>,
    frame: &mut [u8],
) -> bool
    requires rest { AreAtRest (driver_view driver.old) (device_view device.old) }
    requires few { length (driver_view driver.old).sent < MAX_RECORDS }
    requires holds { HoldsAll (driver_view driver.old).made }
    requires room { MAX_FRAME ≤ vec_capacity room.old }
    requires short { length frame.old ≤ MAX_FRAME }
    ensures told { result ≡ is_some (segment_in frame.old) }
    ensures frame { frame.new ≡ filled_frame frame.old }
    ensures sent { Sends (segment_in frame.old) frame.old (driver_view driver.old).sent (driver_view driver.new).sent }
    ensures made { (driver_view driver.new).made ≡ (driver_view driver.old).made }
    ensures rest { AreAtRest (driver_view driver.new) (device_view device.new) }
    ensures room { vec_capacity room.old ≤ vec_capacity room.new }
{
    if frame.len() < MIN_FRAME {
        return false;
    }
    match seed(frame) {
        None => false,
        Some(mark) => {
            complete_frame(driver, device, room, frame, &mark);
            true
        }
    }
}

/// Sends a frame with the mark that asks for its checksum, and puts the frame that the device completed in its place.
fn complete_frame(
    driver: &mut TxDriverEnd,
    device: &mut TxDeviceEnd,
    room: &mut Vec<u8>,
    frame: &mut [u8],
    mark: &TxMark,
)
    requires rest { AreAtRest (driver_view driver.old) (device_view device.old) }
    requires few { length (driver_view driver.old).sent < MAX_RECORDS }
    requires holds { HoldsAll (driver_view driver.old).made }
    requires room { MAX_FRAME ≤ vec_capacity room.old }
    requires header { MIN_FRAME ≤ length frame.old }
    requires short { length frame.old ≤ MAX_FRAME }
    requires mark { IsMarkOf (segment frame.old) mark.now }
    ensures frame { frame.new ≡ completed frame.old }
    ensures sent { (driver_view driver.new).sent ≡ (driver_view driver.old).sent ++ sent_as frame.old mark.now ∷ [] }
    ensures made { (driver_view driver.new).made ≡ (driver_view driver.old).made }
    ensures rest { AreAtRest (driver_view driver.new) (device_view device.new) }
    ensures room { vec_capacity room.old ≤ vec_capacity room.new }
{
    room.clear();
    let asked = carry(driver, device, frame, mark, room);
    fill(room, &asked);
    frame.copy_from_slice(room);
}
