//! The interrupts of a device: one for each transmit queue, then one for each receive queue, then that of events.
ghost use Rattle.std.specs.Prelude.{◌≡◌, ◌<◌, ◌+◌, Some, option_map};
ghost use Rattle.vmx_regs.specs.Ends.{device_key, device_view, device_masks, device_interrupts};
ghost use Rattle.vmx_machine_state.specs.Views.{ActiveView};
ghost use Rattle.vmx_device_looks.specs.Interrupts.{masks_itself, Signals, Alarms};

use vmx_commands::Machine;
use vmx_ends::Fabric;
use vmx_io::Handed;
use vmx_regs::DeviceRegs;

/// Whether an active machine's interrupts mask themselves when they are raised.
pub fn auto_mask<F: Fabric>(machine: &Machine<F>) -> bool
    ensures auto { (a : ActiveView) → machine.now.active ≡ Some a → result ≡ masks_itself a.setup }
{
    match machine.setup() {
        None => false,
        Some(setup) => setup.auto_mask,
    }
}

/// The interrupt of events of an active machine.
pub fn event_interrupt<F: Fabric>(machine: &Machine<F>) -> u32
    ensures event { (a : ActiveView) → machine.now.active ≡ Some a → result ≡ a.setup.tx_queues + a.setup.rx_queues }
{
    match machine.setup() {
        None => 0,
        Some(setup) => setup.tx_queues as u32 + setup.rx_queues as u32,
    }
}

/// Raises an interrupt, unless it is masked; with `auto` it is masked then.
pub fn signal<E: Handed>(regs: &mut DeviceRegs<E>, i: u32, auto: bool)
    requires low { i < device_interrupts regs.old }
    ensures key { device_key regs.new ≡ device_key regs.old }
    ensures calls { device_view regs.new ≡ device_view regs.old }
    ensures signals { Signals (device_masks regs.old) i auto (device_masks regs.new) }
{
    let _ = regs.raise(i, auto);
}

/// Sets events, and raises their interrupt.
pub fn alarm<E: Handed>(regs: &mut DeviceRegs<E>, bits: u32, i: u32, auto: bool)
    requires low { i < device_interrupts regs.old }
    ensures key { device_key regs.new ≡ device_key regs.old }
    ensures calls { device_view regs.new ≡ device_view regs.old }
    ensures alarms { Alarms (device_interrupts regs.old) bits i auto (device_masks regs.old) (device_masks regs.new) }
{
    regs.event(bits);
    signal(regs, i, auto);
}
