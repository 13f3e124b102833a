//! A machine behind a device's registers: one look at the command register, and the answer to the command that it finds.

ghost use Rattle.std.specs.Prelude.{◌≡◌, ◌^◌, ◌<◌, length, None, option_map, MatchOption};
ghost use Rattle.vmx_device_state.specs.Deals.{IsWhole};
ghost use Rattle.vmx_regs.specs.Ends.{device_view, device_masks, device_key};
ghost use Rattle.vmx_machine_state.specs.Views.{handed_of, ends_of};
ghost use Rattle.vmx_commands.specs.Replies.{Tracks};
ghost use Rattle.vmx_commands.specs.Serving.{AnswersCommand, FindsNoCommand};

use vmx_ends::{Ends, Fabric};
use vmx_machine::Machine;
use vmx_regs::{DeviceRegs, Poll};

/// A command's number, and the value that it was answered.
#[derive(Clone, Copy, Debug, PartialEq, Eq)]
pub struct Answered {
    pub number: u32,
    pub value: u32,
}

/// Looks once for a command, and answers it, if there is one; None where there is none. The machine must stand where the registers'
/// turns led, and the ends that it holds must be whole.
pub fn answer_next<F: Fabric>(
    machine: &mut Machine<F>,
    regs: &mut DeviceRegs<Ends<F>>,
) -> Option<Answered>
    requires tracks { Tracks machine.old (device_view regs.old).served }
    requires whole { IsWhole (option_map handed_of (ends_of machine.old)) }
    requires none { (device_view regs.old).serving ≡ None }
    requires few { length (device_view regs.old).served < 2 ^ 62 }
    ensures answered { MatchOption result (FindsNoCommand (device_view regs.old) machine.old (device_view regs.new) machine.new) (λ x. AnswersCommand (device_view regs.old) machine.old x.number x.value (device_view regs.new) machine.new) }
    ensures tracks { Tracks machine.new (device_view regs.new).served }
    ensures whole { IsWhole (option_map handed_of (ends_of machine.new)) }
    ensures none { (device_view regs.new).serving ≡ None }
    ensures key { device_key regs.new ≡ device_key regs.old }
    ensures masks { device_masks regs.new ≡ device_masks regs.old }
{
    match regs.poll() {
        Poll::Quiet { word: _ } => None,
        Poll::Command { number, bag } => {
            let (value, bag) = machine.apply(number, bag);
            regs.reply(value, bag);
            Some(Answered { number, value })
        }
    }
}
