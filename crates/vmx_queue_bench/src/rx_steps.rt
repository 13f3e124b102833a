//! Single steps of the two ends of a receive queue of words. Each tells whether its call did what it is for.
ghost use Rattle.std.specs.Prelude.{◌≡◌, ◌≤◌, ◌<◌, ◌+◌, ◌^◌, true, length, vec_capacity};
ghost use Rattle.vmx_io.specs.declared.buffer.TheConstants.{MAX_FRAME};
ghost use Rattle.vmx_ends.specs.declared.limits.TheConstants.{MAX_DESCRIPTORS};
ghost use Rattle.vmx_ends.specs.Frames.{IsFrame};
ghost use Rattle.vmx_ends.specs.Receive.{used, pieces_of, consumed1, consumed2};
ghost use Rattle.vmx_rxq.specs.Ends.{driver_view, device_view};
ghost use Rattle.vmx_queue_bench.specs.RxSteps.{DeliversOne, ReceivesOne};

use vmx_ends::{Deliver, Receive, RxDevice, RxDriver, RxMeta};
use vmx_rxq::{RxDeviceEnd, RxDriverEnd};

/// Delivers a frame of 14 to 9,022 bytes with its meta. It tells whether all its buffers were there.
pub fn delivers(device: &mut RxDeviceEnd, frame: &[u8], meta: &RxMeta) -> bool
    requires frame { IsFrame frame.now }
    requires small { (length (device_view device.old).delivered < 2 ^ 61) × (length (device_view device.old).refused < 2 ^ 61) }
    requires positions { (consumed1 (device_view device.old) < 2 ^ 61) × (consumed2 (device_view device.old) < 2 ^ 61) }
    ensures delivers { DeliversOne (device_view device.old) frame.now meta.now result (device_view device.new) }
    ensures same { (device_view device.new).key ≡ (device_view device.old).key }
    ensures lists { (length (device_view device.new).delivered ≤ length (device_view device.old).delivered + 1) × (length (device_view device.new).refused ≤ length (device_view device.old).refused + 1) }
    ensures positions { (consumed1 (device_view device.new) ≤ consumed1 (device_view device.old) + MAX_DESCRIPTORS) × (consumed2 (device_view device.new) ≤ consumed2 (device_view device.old) + MAX_DESCRIPTORS) }
{
    match device.deliver(frame, meta) {
        Deliver::Done { place: _ } => true,
        Deliver::NoBuffer {
            ring: _,
            position: _,
            word: _,
            look: _,
        } => false,
        Deliver::Bad { words: _, fault: _ } => false,
    }
}

/// Receives the next frame into an emptied buffer with room for 9,022 bytes, and posts its descriptors back. It tells whether
/// there was one.
pub fn receives(driver: &mut RxDriverEnd, into: &mut Vec<u8>) -> bool
    requires room { MAX_FRAME ≤ vec_capacity into.old }
    requires full { (driver_view driver.old).made.full ≡ true }
    requires small { (length (driver_view driver.old).received < 2 ^ 61) × (used pieces_of (driver_view driver.old).received < 2 ^ 61) }
    ensures receives { ReceivesOne (driver_view driver.old) into.new.items result (driver_view driver.new) }
    ensures same { ((driver_view driver.new).key ≡ (driver_view driver.old).key) × ((driver_view driver.new).made ≡ (driver_view driver.old).made) }
    ensures grows { (length (driver_view driver.new).received ≤ length (driver_view driver.old).received + 1) × (used pieces_of (driver_view driver.new).received ≤ used pieces_of (driver_view driver.old).received + MAX_DESCRIPTORS) }
    ensures room { vec_capacity into.old ≤ vec_capacity into.new }
{
    into.clear();
    match driver.receive(into) {
        Receive::Frame {
            place: _,
            meta: _,
            descriptors: _,
        } => true,
        Receive::NotYet { word: _ } => false,
    }
}
