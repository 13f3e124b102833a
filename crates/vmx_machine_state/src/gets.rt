//! The answers to commands that ask for a value. The numbers are Linux's (`vmxnet3_defs.h`), but those of GET_DID_LO and
//! GET_DID_HI, which are own to this project. So are the values, but for the forms of GET_LINK, of the permanent address and of
//! GET_CONF_INTR.

ghost use Rattle.std.specs.Prelude.{◌≡◌, ◌+◌, ◌*◌, ◌<◌, ◌^◌, take, drop};
ghost use Rattle.vmx_layout.specs.Command.{number_of};
ghost use Rattle.vmx_device_state.specs.Answers.{low_first, get_answer};

use vmx_device_state::{DEVICE_HIGH, DEVICE_LOW, LINK_UP, MSI_X};
use vmx_layout::Command;

/// The value that a device with this permanent address answers; 0 where no value is asked for.
pub fn value_of(mac: &[u8; 6], number: u32) -> u32
    ensures value { result ≡ get_answer mac.now number }
{
    match Command::of(number) {
        None => 0,
        Some(command) => value_by(mac, command),
    }
}

fn value_by(mac: &[u8; 6], command: Command) -> u32
    ensures value { result ≡ get_answer mac.now (number_of command) }
{
    match command {
        Command::GetLink => LINK_UP,
        Command::GetPermMacLo => low_bytes(mac),
        Command::GetPermMacHi => high_bytes(mac),
        Command::GetDidLo => DEVICE_LOW,
        Command::GetDidHi => DEVICE_HIGH,
        Command::GetConfIntr => MSI_X,
        Command::GetQueueStatus => 0,
        Command::GetStats => 0,
        Command::GetDevExtraInfo => 0,
        Command::ActivateDev => 0,
        Command::QuiesceDev => 0,
        Command::ResetDev => 0,
        Command::UpdateRxMode => 0,
        Command::UpdateMacFilters => 0,
        Command::UpdateVlanFilters => 0,
        Command::UpdateRssidt => 0,
        Command::UpdateIml => 0,
        Command::UpdatePmcfg => 0,
        Command::UpdateFeature => 0,
    }
}

/// The first four bytes, the first one lowest.
fn low_bytes(mac: &[u8; 6]) -> u32
    ensures bytes { result ≡ low_first (take 4 mac.now) }
{
    u32::from(mac[0])
        + 256 * (u32::from(mac[1]) + 256 * (u32::from(mac[2]) + 256 * u32::from(mac[3])))
}

/// The last two bytes, the first one lowest.
fn high_bytes(mac: &[u8; 6]) -> u32
    ensures bytes { result ≡ low_first (drop 4 mac.now) }
{
    u32::from(mac[4]) + 256 * u32::from(mac[5])
}
