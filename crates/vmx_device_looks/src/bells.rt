//! The doorbells of a device's queues. They are hints: a device looks at its queues whatever it read.
ghost use Rattle.std.specs.Prelude.{◌≡◌, ◌≤◌};
ghost use Rattle.vmx_layout.specs.declared.register.TheConstants.{MAX_QUEUES};
ghost use Rattle.vmx_regs.specs.Ends.{device_key, device_view, device_masks, device_interrupts};
ghost use Rattle.vmx_device_looks.specs.Bells.{ReadsTxBells, ReadsRxBells, ReadsBells};

use vmx_io::Handed;
use vmx_regs::{Bell, DeviceRegs};

/// Reads once the doorbell of each transmit queue, then those of both rings of each receive queue.
pub fn read_bells<E: Handed>(regs: &mut DeviceRegs<E>, tx: u32, rx: u32)
    requires tx { tx ≤ MAX_QUEUES }
    requires rx { rx ≤ MAX_QUEUES }
    ensures key { device_key regs.new ≡ device_key regs.old }
    ensures calls { device_view regs.new ≡ device_view regs.old }
    ensures bells { ReadsBells (device_interrupts regs.old) tx rx (device_masks regs.old) (device_masks regs.new) }
{
    read_tx_bells(regs, tx);
    read_rx_bells(regs, rx);
}

fn read_tx_bells<E: Handed>(regs: &mut DeviceRegs<E>, tx: u32)
    requires tx { tx ≤ MAX_QUEUES }
    ensures key { device_key regs.new ≡ device_key regs.old }
    ensures calls { device_view regs.new ≡ device_view regs.old }
    ensures bells { ReadsTxBells (device_interrupts regs.old) tx (device_masks regs.old) (device_masks regs.new) }
{
    for queue in 0..tx {
        let _ = regs.doorbell(Bell::Tx { queue });
    }
}

fn read_rx_bells<E: Handed>(regs: &mut DeviceRegs<E>, rx: u32)
    requires rx { rx ≤ MAX_QUEUES }
    ensures key { device_key regs.new ≡ device_key regs.old }
    ensures calls { device_view regs.new ≡ device_view regs.old }
    ensures bells { ReadsRxBells (device_interrupts regs.old) rx (device_masks regs.old) (device_masks regs.new) }
{
    for queue in 0..rx {
        let _ = regs.doorbell(Bell::Rx { queue, ring: 1 });
        let _ = regs.doorbell(Bell::Rx { queue, ring: 2 });
    }
}
