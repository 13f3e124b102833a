//! What is counted of a frame that was taken, and how many queues an active machine has.
ghost use Rattle.std.specs.Prelude.{◌≡◌, ◌<◌, ◌≤◌, ◌||◌};
ghost use Rattle.vmx_ends.specs.Frames.{IsFrame};
ghost use Rattle.vmx_device_laws.specs.Views.{tx_held, rx_held};
ghost use Rattle.vmx_device_laws.specs.Steps.{counted_taken};

use vmx_commands::{Count, Machine};
use vmx_ends::Fabric;
use vmx_frame::class;
use vmx_shared_area::Side;

/// Counts a frame that was taken from a transmit queue, and that it has no target.
pub(crate) fn count_taken<F: Fabric>(machine: &mut Machine<F>, queue: u32, frame: &[u8], some: bool)
    requires queue { queue < 8 }
    requires frame { IsFrame frame.now }
    ensures counted { machine.new ≡ counted_taken queue frame.now some machine.old }
{
    let bytes = frame.len() as u64;
    let what = Count::Frame {
        class: class(frame),
        bytes,
    };
    machine.count(Side::Tx, queue, what);
    if some {
        return;
    }
    machine.count(Side::Tx, queue, Count::Discard);
}

/// How many transmit ends a machine holds.
pub(crate) fn tx_queues<F: Fabric>(machine: &Machine<F>) -> u32
    requires few { tx_held machine.now.active ≤ 8 }
    ensures count { result ≡ tx_held machine.now.active }
{
    match machine.ends() {
        None => 0,
        Some(ends) => ends.tx.len() as u32,
    }
}

/// How many receive ends a machine holds.
pub(crate) fn rx_queues<F: Fabric>(machine: &Machine<F>) -> u32
    requires few { rx_held machine.now.active ≤ 8 }
    ensures count { result ≡ rx_held machine.now.active }
{
    match machine.ends() {
        None => 0,
        Some(ends) => ends.rx.len() as u32,
    }
}

/// Whether one of two looks found something.
pub(crate) fn either(before: bool, here: bool) -> bool
    ensures either { result ≡ before || here }
{
    before || here
}
