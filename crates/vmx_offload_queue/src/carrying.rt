//! One frame through a transmit queue, from post to reap. Where nothing else is under way, no step can fail.
ghost use Rattle.std.specs.Prelude.{◌≡◌, ◌≤◌, ◌<◌, ◌*◌, ◌∷◌, ◌++◌, [], length, false, vec_len, vec_capacity};
ghost use mathlib.Core.List.{IsPrefix};
ghost use Rattle.vmx_io.specs.declared.buffer.TheConstants.{MAX_FRAME};
ghost use Rattle.vmx_ends.specs.declared.limits.TheConstants.{MAX_DESCRIPTORS};
ghost use Rattle.vmx_ends.specs.Frames.{IsMarked, IsComparable, sent_as, sent_of};
ghost use Rattle.vmx_ends.specs.Transmit.{need, posted, found_in};
ghost use Rattle.vmx_ends.specs.TransmitClauses.{AreEven};
ghost use Rattle.vmx_ends.specs.Queues.{driver_passed, device_passed, IsCaughtUp};
ghost use Rattle.vmx_txq.specs.Ends.{driver_view, device_view};
ghost use Rattle.vmx_offload_queue.specs.declared.counts.TheConstants.{MAX_RECORDS};

use vmx_ends::{Post, Reap, Take, TxDevice, TxDriver, TxMark};
use vmx_txq::{TxDeviceEnd, TxDriverEnd};

/// Carries a frame through the queue. `into` then holds it as the device took it; the answer is the mark that it took.
///
/// Conditions: nothing is under way, the ring has the frame's descriptors, and `into` is empty with room for 9,022 bytes.
#[tactic(auto, using(vmx_ends::specs::CaughtUp::none_in_use))]
pub fn carry(
    driver: &mut TxDriverEnd,
    device: &mut TxDeviceEnd,
    frame: &[u8],
    mark: &TxMark,
    into: &mut Vec<u8>,
) -> TxMark
    requires one { (driver_view driver.old).key ≡ (device_view device.old).key }
    requires caught_up { IsCaughtUp (driver_view driver.old) (device_view device.old) }
    requires even { AreEven (driver_view driver.old) (device_view device.old) }
    requires few { length (driver_view driver.old).sent < MAX_RECORDS }
    requires posted_few { posted (driver_view driver.old) ≤ MAX_DESCRIPTORS * length (driver_view driver.old).sent }
    requires found_few { found_in (device_view device.old).taken ≤ MAX_DESCRIPTORS * length (driver_view driver.old).sent }
    requires frame { IsMarked frame.now mark.now }
    requires holds { need (driver_view driver.old).made (length frame.now) ≤ (driver_view driver.old).made.size }
    requires empty { vec_len into.old ≡ 0 }
    requires room { MAX_FRAME ≤ vec_capacity into.old }
    ensures bytes { into.new.items ≡ frame.now }
    ensures mark { result ≡ mark.now }
    ensures sent { (driver_view driver.new).sent ≡ (driver_view driver.old).sent ++ sent_as frame.now mark.now ∷ [] }
    ensures made { (driver_view driver.new).made ≡ (driver_view driver.old).made }
    ensures one { (driver_view driver.new).key ≡ (device_view device.new).key }
    ensures caught_up { IsCaughtUp (driver_view driver.new) (device_view device.new) }
    ensures even { AreEven (driver_view driver.new) (device_view device.new) }
    ensures posted_few { posted (driver_view driver.new) ≤ MAX_DESCRIPTORS * length (driver_view driver.new).sent }
    ensures found_few { found_in (device_view device.new).taken ≤ MAX_DESCRIPTORS * length (driver_view driver.new).sent }
    ensures room { vec_capacity into.old ≤ vec_capacity into.new }
{
    match driver.post(frame, mark) {
        Post::Full { used: _, need: _ } => unreachable!(),
        Post::Done { place: _ } => {
            pass(driver, device);
            match device.take(into) {
                Take::Frame {
                    place: _,
                    mark: taken,
                } => {
                    device.complete();
                    pass(driver, device);
                    match driver.reap() {
                        Reap::Done {
                            place: _,
                            descriptors: _,
                        } => taken,
                        Reap::NotYet { word: _ } => unreachable!(),
                    }
                }
                Take::Empty { word: _ } => unreachable!(),
                Take::Bad { words: _, fault: _ } => unreachable!(),
            }
        }
    }
}

/// Passes a note of the driver to the device, and one back. What each end heard and its counts of notes change, and
/// nothing else.
fn pass(driver: &mut TxDriverEnd, device: &mut TxDeviceEnd)
    requires one { (driver_view driver.old).key ≡ (device_view device.old).key }
    ensures driver { driver_view driver.new ≡ driver_passed (driver_view driver.old) (device_view device.old) }
    ensures device { device_view device.new ≡ device_passed (device_view device.old) (driver_view driver.old) }
    ensures given { (device_view device.old).given ≡ false }
    ensures driver_heard { (device_view device.old).completed ≤ (driver_view driver.new).heard }
    ensures device_heard { length (driver_view driver.old).sent ≤ length (device_view device.new).heard }
    ensures comparable { IsComparable (sent_of (device_view device.new).taken) (device_view device.new).heard }
    ensures within { IsPrefix (sent_of (device_view device.old).taken) (driver_view driver.old).sent }
{
    let sent = driver.note();
    device.hear(sent);
    let taken = device.note();
    driver.hear(taken);
}
