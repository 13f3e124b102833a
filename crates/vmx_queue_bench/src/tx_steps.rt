//! Single steps of the two ends of a transmit queue of words. Each tells whether its call did what it is for.
ghost use Rattle.std.specs.Prelude.{◌≡◌, ◌≤◌, ◌<◌, ◌+◌, ◌^◌, length, vec_capacity};
ghost use Rattle.vmx_io.specs.declared.buffer.TheConstants.{MAX_FRAME};
ghost use Rattle.vmx_ends.specs.declared.limits.TheConstants.{MAX_DESCRIPTORS};
ghost use Rattle.vmx_ends.specs.Frames.{IsMarked};
ghost use Rattle.vmx_ends.specs.Transmit.{posted, found_in};
ghost use Rattle.vmx_ends.specs.TransmitClauses.{IsIdle};
ghost use Rattle.vmx_txq.specs.Ends.{driver_view, device_view};
ghost use Rattle.vmx_queue_bench.specs.TxSteps.{PostsOne, ReapsOne, TakesOne};

use vmx_ends::{Post, Reap, Take, TxDevice, TxDriver, TxMark};
use vmx_txq::{TxDeviceEnd, TxDriverEnd};

/// Posts a frame of 14 to 9,022 bytes, 9,018 where a tag is to be put in, with its mark. It tells whether there was room for
/// the frame's descriptors.
pub fn posts(driver: &mut TxDriverEnd, frame: &[u8], mark: &TxMark) -> bool
    requires frame { IsMarked frame.now mark.now }
    requires small { (length (driver_view driver.old).sent < 2 ^ 61) × (posted (driver_view driver.old) < 2 ^ 61) }
    ensures posts { PostsOne (driver_view driver.old) frame.now mark.now result (driver_view driver.new) }
    ensures same { ((driver_view driver.new).key ≡ (driver_view driver.old).key) × ((driver_view driver.new).made ≡ (driver_view driver.old).made) }
    ensures grows { (length (driver_view driver.new).sent ≤ length (driver_view driver.old).sent + 1) × (posted (driver_view driver.new) ≤ posted (driver_view driver.old) + MAX_DESCRIPTORS) × ((driver_view driver.new).reaped ≡ (driver_view driver.old).reaped) }
{
    match driver.post(frame, mark) {
        Post::Done { place: _ } => true,
        Post::Full { used: _, need: _ } => false,
    }
}

/// Takes the next frame into an emptied buffer with room for 9,022 bytes, and completes it. It tells whether there was one.
pub fn takes(device: &mut TxDeviceEnd, into: &mut Vec<u8>) -> bool
    requires room { MAX_FRAME ≤ vec_capacity into.old }
    requires idle { IsIdle (device_view device.old) }
    requires small { (length (device_view device.old).taken < 2 ^ 61) × (found_in (device_view device.old).taken < 2 ^ 61) }
    ensures takes { TakesOne (device_view device.old) into.new.items result (device_view device.new) }
    ensures same { (device_view device.new).key ≡ (device_view device.old).key }
    ensures idle { IsIdle (device_view device.new) }
    ensures grows { (length (device_view device.new).taken ≤ length (device_view device.old).taken + 1) × (found_in (device_view device.new).taken ≤ found_in (device_view device.old).taken + MAX_DESCRIPTORS) }
    ensures room { vec_capacity into.old ≤ vec_capacity into.new }
{
    into.clear();
    match device.take(into) {
        Take::Frame { place: _, mark: _ } => {
            device.complete();
            true
        }
        Take::Empty { word: _ } => false,
        Take::Bad { words: _, fault: _ } => false,
    }
}

/// Reaps the next frame that was completed. It tells whether there was one.
pub fn reaps(driver: &mut TxDriverEnd) -> bool
    requires small { (driver_view driver.old).reaped < 2 ^ 61 }
    ensures reaps { ReapsOne (driver_view driver.old) result (driver_view driver.new) }
    ensures same { ((driver_view driver.new).key ≡ (driver_view driver.old).key) × ((driver_view driver.new).made ≡ (driver_view driver.old).made) }
    ensures sent { (length (driver_view driver.new).sent ≡ length (driver_view driver.old).sent) × (posted (driver_view driver.new) ≡ posted (driver_view driver.old)) }
    ensures grows { (driver_view driver.new).reaped ≤ (driver_view driver.old).reaped + 1 }
{
    match driver.reap() {
        Reap::Done {
            place: _,
            descriptors: _,
        } => true,
        Reap::NotYet { word: _ } => false,
    }
}
