//! The switch of a plan.
ghost use Rattle.std.specs.Prelude.{◌≡◌, IfOk};
ghost use Rattle.vmx_model.specs.Totals.{wiring};
ghost use Rattle.vmx_replay_start.specs.Switch.{IsSwitchOf};

use std::alloc::{AllocError, Global};
use vmx_io::List;
use vmx_model::Plan;
use vmx_switch::Table;

/// What the tables of a switch are made of: for each port its address, and whether it is a sniffer.
#[derive(Drop)]
pub(crate) struct Switch {
    macs: List<[u8; 6]>,
    sniffers: List<bool>,
}

/// The switch that the guests of a plan are at.
pub(crate) fn switch_of(alloc: Global, plan: &Plan) -> Result<Switch, AllocError>
    ensures switch { IfOk result (λ s. IsSwitchOf plan.now s) }
{
    let mut macs = List::new(alloc);
    let mut sniffers = List::new(alloc);
    for guest in plan.guests.as_slice() {
        macs.push(guest.mac)?;
        sniffers.push(guest.sniffer)?;
    }
    Ok(Switch { macs, sniffers })
}

/// A table of the switch.
pub(crate) fn table_of(plan: &Plan, switch: &Switch) -> Table
    requires switch { IsSwitchOf plan.now switch.now }
    ensures table { result ≡ wiring plan.now.guests }
{
    Table::new(switch.macs.as_slice(), switch.sniffers.as_slice())
}
