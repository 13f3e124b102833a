//! What a command's number orders. Each number but the nine GETs is a set command; one that no command has is answered
//! 0xFFFFFFFF and changes nothing. The numbers are Linux's (`vmxnet3_defs.h`), but those of GET_DID_LO, GET_DID_HI and
//! GET_DEV_EXTRA_INFO, which are own to this project.

ghost use Rattle.std.specs.Prelude.{◌≡◌};
ghost use Rattle.vmx_layout.specs.Command.{number_of};
ghost use Rattle.vmx_device_state.specs.Orders.{order_of};

use vmx_layout::Command;

/// What a command asks of the device's state.
#[derive(Clone, Copy, Debug, PartialEq, Eq)]
pub enum Order {
    /// ACTIVATE_DEV.
    Activate,
    /// QUIESCE_DEV or RESET_DEV, which differ in the queues' errors alone.
    Stop,
    /// One of the six updates of an active device's setup.
    Update { part: Part },
    /// UPDATE_PMCFG, or a number that no command has.
    Unknown,
    /// One of the nine GETs, which set nothing.
    Get,
}

/// The part of a setup that an update takes anew from the image.
#[derive(Clone, Copy, Debug, PartialEq, Eq)]
pub enum Part {
    /// UPDATE_RX_MODE: the receive mode.
    Mode,
    /// UPDATE_MAC_FILTERS: the multicast table.
    Macs,
    /// UPDATE_VLAN_FILTERS: the VLAN table.
    Vlans,
    /// UPDATE_RSSIDT: size and entries of the indirection table.
    Table,
    /// UPDATE_IML: the moderation levels.
    Levels,
    /// UPDATE_FEATURE: the RSS setting, or none; whether tags are taken out; whether checksums are checked.
    Features,
}

impl Order {
    /// The order of a number.
    #[tactic(auto, using(crate::specs::Numbers::no_order))]
    pub fn of(number: u32) -> Order
        ensures order { result ≡ order_of number }
    {
        match Command::of(number) {
            None => Order::Unknown,
            Some(command) => order_by(command),
        }
    }
}

/// The order of a command.
fn order_by(command: Command) -> Order
    ensures order { result ≡ order_of (number_of command) }
{
    match command {
        Command::ActivateDev => Order::Activate,
        Command::QuiesceDev => Order::Stop,
        Command::ResetDev => Order::Stop,
        Command::UpdateRxMode => Order::Update { part: Part::Mode },
        Command::UpdateMacFilters => Order::Update { part: Part::Macs },
        Command::UpdateVlanFilters => Order::Update { part: Part::Vlans },
        Command::UpdateRssidt => Order::Update { part: Part::Table },
        Command::UpdateIml => Order::Update { part: Part::Levels },
        Command::UpdatePmcfg => Order::Unknown,
        Command::UpdateFeature => Order::Update {
            part: Part::Features,
        },
        Command::GetQueueStatus => Order::Get,
        Command::GetStats => Order::Get,
        Command::GetLink => Order::Get,
        Command::GetPermMacLo => Order::Get,
        Command::GetPermMacHi => Order::Get,
        Command::GetDidLo => Order::Get,
        Command::GetDidHi => Order::Get,
        Command::GetDevExtraInfo => Order::Get,
        Command::GetConfIntr => Order::Get,
    }
}
