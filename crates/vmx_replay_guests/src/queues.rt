//! Notes between the two ends of each of a guest's queues.
ghost use Rattle.std.specs.Prelude.{◌≡◌, is_some, IsSome};
ghost use Rattle.vmx_model.specs.Bags.{Pairwise};
ghost use Rattle.vmx_device_laws.specs.Pairs.{tx_of, rx_of};
ghost use Rattle.vmx_driver.specs.Stocked.{SameRoom};
ghost use Rattle.vmx_note_laws.specs.Queues.{AreOneTx, AreOneRx};
ghost use Rattle.vmx_replay_guests.specs.Passing.{AreAtTx, TxPassed, AreAtRx, RxPassed, AllTxPassed, AllRxPassed, HoldsItsQueues, QueuesPassed};

use crate::guest::Guest;
use vmx_device::Device;
use vmx_ends::Fabric;

/// Passes a note of the driver's end of a transmit queue to the device's end, and one back.
fn pass_tx<F: Fabric>(guest: &mut Guest<F>, queue: u32)
    requires there { AreAtTx queue guest.old.driver.driver guest.old.device.machine }
    ensures passed { TxPassed queue guest.old.driver.driver guest.old.device guest.new.driver.driver guest.new.device }
    ensures room { SameRoom guest.old.driver guest.new.driver }
{
    let sent = guest.driver.note_tx(queue);
    guest.device.hear_tx(queue, sent);
    let taken = guest.device.note_tx(queue);
    guest.driver.hear_tx(queue, taken);
}

/// The same of a receive queue.
fn pass_rx<F: Fabric>(guest: &mut Guest<F>, queue: u32)
    requires there { AreAtRx queue guest.old.driver.driver guest.old.device.machine }
    ensures passed { RxPassed queue guest.old.driver.driver guest.old.device guest.new.driver.driver guest.new.device }
    ensures room { SameRoom guest.old.driver guest.new.driver }
{
    let received = guest.driver.note_rx(queue);
    guest.device.hear_rx(queue, received);
    let delivered = guest.device.note_rx(queue);
    guest.driver.hear_rx(queue, delivered);
}

/// The same of each transmit queue.
fn pass_all_tx<F: Fabric>(guest: &mut Guest<F>)
    requires pairs { Pairwise AreOneTx guest.old.driver.driver.tx (tx_of guest.old.device.machine.active) }
    ensures passed { AllTxPassed guest.old.driver.driver guest.old.device guest.new.driver.driver guest.new.device }
    ensures room { SameRoom guest.old.driver guest.new.driver }
{
    let queues = guest.device.tx_queues();
    for queue in 0..queues {
        pass_tx(guest, queue);
    }
}

/// The same of each receive queue.
fn pass_all_rx<F: Fabric>(guest: &mut Guest<F>)
    requires pairs { Pairwise AreOneRx guest.old.driver.driver.rx (rx_of guest.old.device.machine.active) }
    ensures passed { AllRxPassed guest.old.driver.driver guest.old.device guest.new.driver.driver guest.new.device }
    ensures room { SameRoom guest.old.driver guest.new.driver }
{
    let queues = guest.device.rx_queues();
    for queue in 0..queues {
        pass_rx(guest, queue);
    }
}

/// The same of each queue of a device that holds ends.
fn pass_held<F: Fabric>(guest: &mut Guest<F>)
    requires held { IsSome guest.old.device.machine.active }
    requires queues { HoldsItsQueues guest.old.driver.driver guest.old.device.machine.active }
    ensures passed { QueuesPassed guest.old.driver.driver guest.old.device guest.new.driver.driver guest.new.device }
    ensures room { SameRoom guest.old.driver guest.new.driver }
{
    pass_all_tx(guest);
    pass_all_rx(guest);
}

/// Whether a device holds ends.
fn holds_ends<F: Fabric>(device: &Device<F>) -> bool
    ensures held { result ≡ is_some device.now.machine.active }
{
    device.ends().is_some()
}

/// Passes notes both ways between the two ends of each queue of which the device holds an end: then each end was told all that the
/// other did. Where the device holds none, nothing is passed.
pub fn pass_queues<F: Fabric>(guest: &mut Guest<F>)
    requires queues { HoldsItsQueues guest.old.driver.driver guest.old.device.machine.active }
    ensures passed { QueuesPassed guest.old.driver.driver guest.old.device guest.new.driver.driver guest.new.device }
    ensures room { SameRoom guest.old.driver guest.new.driver }
{
    if holds_ends(&guest.device) {
        pass_held(guest);
    }
}
