//! Callers that are generic in the fabric: notes both ways over one queue, and one frame through it. They are proved from
//! the contracts of the traits alone, beginning from equal keys and different sides.
ghost use Rattle.std.specs.Prelude.{◌≡◌, ◌≤◌, ◌<◌, ℕ, IsTrue, [], ◌∷◌, ◌++◌, length, true, false, vec_len, vec_capacity};
ghost use mathlib.Core.List.{IsPrefix};
ghost use Rattle.vmx_io.specs.declared.buffer.TheConstants.{MAX_FRAME};
ghost use Rattle.vmx_ends.specs.Frames.{IsFrame, IsMarked, IsComparable, sent_as, sent_of};
ghost use Rattle.vmx_ends.specs.Transmit.{need};
ghost use Rattle.vmx_ends.specs.Receive.{posted1, posted2, consumed1, consumed2};
ghost use Rattle.vmx_ends.specs.declared.made.Bodies.TheVariants.{Every};
ghost use Rattle.vmx_ends.specs.Queues.{driver_passed, device_passed, driver_passed_rx, device_passed_rx, IsCaughtUp, IsSmall, IsCaughtUpRx, IsSmallRx};

use crate::{
    Deliver, Fabric, Post, Reap, Receive, RxDevice, RxDriver, RxMeta, Take, TxDevice, TxDriver,
    TxMark,
};

/// Passes a note of a transmit queue's driver to its device, and one back. What each end heard and its counts of notes
/// change, and nothing else.
pub fn pass<F: Fabric>(driver: &mut F::TxDriver, device: &mut F::TxDevice)
    requires one { (F.TxDriver.view driver.old).key ≡ (F.TxDevice.view device.old).key }
    ensures driver { F.TxDriver.view driver.new ≡ driver_passed (F.TxDriver.view driver.old) (F.TxDevice.view device.old) }
    ensures device { F.TxDevice.view device.new ≡ device_passed (F.TxDevice.view device.old) (F.TxDriver.view driver.old) }
    ensures made { (F.TxDriver.view driver.old).made ≡ (F.TxDevice.view device.old).made }
    ensures given { (F.TxDevice.view device.old).given ≡ false }
    ensures driver_heard { (F.TxDevice.view device.old).completed ≤ (F.TxDriver.view driver.new).heard }
    ensures device_heard { length (F.TxDriver.view driver.old).sent ≤ length (F.TxDevice.view device.new).heard }
    ensures comparable { IsComparable (sent_of (F.TxDevice.view device.new).taken) (F.TxDevice.view device.new).heard }
    ensures within { IsPrefix (sent_of (F.TxDevice.view device.old).taken) (F.TxDriver.view driver.old).sent }
    ensures done { (F.TxDevice.view device.old).completed ≤ length (F.TxDriver.view driver.old).sent }
    ensures ordered { (F.TxDriver.view driver.old).reaped ≤ (F.TxDevice.view device.old).completed }
{
    let sent = driver.note();
    device.hear(sent);
    let taken = device.note();
    driver.hear(taken);
}

/// Carries a frame through a transmit queue from post to reap. False: the ring has fewer descriptors than it needs.
#[tactic(auto, using(crate::specs::CaughtUp::none_in_use))]
pub fn carry<F: Fabric>(
    driver: &mut F::TxDriver,
    device: &mut F::TxDevice,
    frame: &[u8],
    mark: &TxMark,
    into: &mut Vec<u8>,
) -> bool
    requires one { (F.TxDriver.view driver.old).key ≡ (F.TxDevice.view device.old).key }
    requires caught_up { IsCaughtUp (F.TxDriver.view driver.old) (F.TxDevice.view device.old) }
    requires small { IsSmall (F.TxDriver.view driver.old) (F.TxDevice.view device.old) }
    requires frame { IsMarked frame.now mark.now }
    requires empty { vec_len into.old ≡ 0 }
    requires room { MAX_FRAME ≤ vec_capacity into.old }
    ensures bytes { IsTrue result → into.new.items ≡ frame.now }
    ensures sent { IsTrue result → (F.TxDriver.view driver.new).sent ≡ (F.TxDriver.view driver.old).sent ++ sent_as frame.now mark.now ∷ [] }
    ensures one { (F.TxDriver.view driver.new).key ≡ (F.TxDevice.view device.new).key }
    ensures caught_up { IsCaughtUp (F.TxDriver.view driver.new) (F.TxDevice.view device.new) }
    ensures room { need (F.TxDriver.view driver.old).made (length frame.now) ≤ (F.TxDriver.view driver.old).made.size → IsTrue result }
{
    match driver.post(frame, mark) {
        Post::Full { used: _, need: _ } => false,
        Post::Done { place: _ } => {
            pass::<F>(driver, device);
            match device.take(into) {
                Take::Frame { place: _, mark: _ } => {
                    device.complete();
                    pass::<F>(driver, device);
                    match driver.reap() {
                        Reap::Done {
                            place: _,
                            descriptors: _,
                        } => true,
                        Reap::NotYet { word: _ } => unreachable!(),
                    }
                }
                Take::Empty { word: _ } => unreachable!(),
                Take::Bad { words: _, fault: _ } => unreachable!(),
            }
        }
    }
}

/// Passes a note of a receive queue's driver to its device, and one back. What each end heard and its counts of notes
/// change, and nothing else.
pub fn pass_rx<F: Fabric>(driver: &mut F::RxDriver, device: &mut F::RxDevice)
    requires one { (F.RxDriver.view driver.old).key ≡ (F.RxDevice.view device.old).key }
    ensures driver { F.RxDriver.view driver.new ≡ driver_passed_rx (F.RxDriver.view driver.old) (F.RxDevice.view device.old) }
    ensures device { F.RxDevice.view device.new ≡ device_passed_rx (F.RxDevice.view device.old) (F.RxDriver.view driver.old) }
    ensures made { (F.RxDriver.view driver.old).made ≡ (F.RxDevice.view device.old).made }
    ensures given { (F.RxDevice.view device.old).given ≡ false }
    ensures driver_heard { length (F.RxDevice.view device.old).delivered ≤ length (F.RxDriver.view driver.new).heard }
    ensures device_heard { length (F.RxDriver.view driver.old).received ≤ length (F.RxDevice.view device.new).heard }
    ensures comparable { IsComparable (F.RxDriver.view driver.new).heard (F.RxDriver.view driver.new).received }
    ensures within { IsPrefix (F.RxDriver.view driver.old).received (F.RxDevice.view device.old).delivered }
    ensures told { IsPrefix (F.RxDevice.view device.new).heard (F.RxDevice.view device.old).delivered }
    ensures consumed { (consumed1 (F.RxDevice.view device.old) ≤ posted1 (F.RxDriver.view driver.old).made (F.RxDriver.view driver.old).received)
        × (consumed2 (F.RxDevice.view device.old) ≤ posted2 (F.RxDriver.view driver.old).made (F.RxDriver.view driver.old).received) }
    ensures seen { ((F.RxDevice.view device.old).seen1 ≤ posted1 (F.RxDriver.view driver.old).made (F.RxDriver.view driver.old).received)
        × ((F.RxDevice.view device.old).seen2 ≤ posted2 (F.RxDriver.view driver.old).made (F.RxDriver.view driver.old).received) }
{
    let received = driver.note();
    device.hear(received);
    let delivered = device.note();
    driver.hear(delivered);
}

/// Carries a frame through a receive queue from deliver to receive. False: a descriptor was missing, which can't be where the queue
/// was made full.
#[tactic(auto, using(crate::specs::CaughtUp::never_refused))]
pub fn carry_rx<F: Fabric>(
    driver: &mut F::RxDriver,
    device: &mut F::RxDevice,
    frame: &[u8],
    meta: &RxMeta,
    into: &mut Vec<u8>,
) -> bool
    requires one { (F.RxDriver.view driver.old).key ≡ (F.RxDevice.view device.old).key }
    requires caught_up { IsCaughtUpRx (F.RxDriver.view driver.old) (F.RxDevice.view device.old) }
    requires small { IsSmallRx (F.RxDriver.view driver.old) (F.RxDevice.view device.old) }
    requires frame { IsFrame frame.now }
    requires empty { vec_len into.old ≡ 0 }
    requires room { MAX_FRAME ≤ vec_capacity into.old }
    ensures bytes { IsTrue result → into.new.items ≡ frame.now }
    ensures one { (F.RxDriver.view driver.new).key ≡ (F.RxDevice.view device.new).key }
    ensures caught_up { IsCaughtUpRx (F.RxDriver.view driver.new) (F.RxDevice.view device.new) }
    ensures room { (bodies : ℕ) → (F.RxDevice.view device.old).made.full ≡ true → (F.RxDevice.view device.old).made.bodies ≡ Every bodies
        → 0 < (F.RxDevice.view device.old).made.size1 → 2 ≤ (F.RxDevice.view device.old).made.size2 → IsTrue result }
{
    pass_rx::<F>(driver, device);
    match device.deliver(frame, meta) {
        Deliver::NoBuffer {
            ring: _,
            position: _,
            word: _,
            look: _,
        } => false,
        Deliver::Bad { words: _, fault: _ } => unreachable!(),
        Deliver::Done { place: _ } => {
            pass_rx::<F>(driver, device);
            match driver.receive(into) {
                Receive::Frame {
                    place: _,
                    meta: _,
                    descriptors: _,
                } => {
                    pass_rx::<F>(driver, device);
                    true
                }
                Receive::NotYet { word: _ } => unreachable!(),
            }
        }
    }
}
