//! The check of a receive filter: its mode, then its multicast table.

ghost use Rattle.std.specs.Prelude.{◌≡◌, length};
ghost use Rattle.vmx_shared_area.specs.Checks.{fault_in, mode_fault, multicast_fault};

use crate::ImageFault;
use crate::fault::ensure;
use crate::numbers::{u16_at, u32_at, u64_at};
use crate::offsets::{
    IMAGE_SIZE, MAC_SIZE, MACS_SIZE, MULTICAST_ADDRESS, MULTICAST_LENGTH, RX_MODE, RX_MODE_END,
};
use vmx_layout::MULTICAST_TABLE;

#[tactic(auto, unfolding(crate::specs::Checks::mode_fault))]
pub fn check_mode(bytes: &[u8]) -> Result<(), ImageFault>
    requires size { length bytes.now ≡ IMAGE_SIZE }
    ensures first_fault { fault_in result ≡ mode_fault bytes.now }
{
    let mode = u32_at(bytes, RX_MODE);
    let found = u64::from(mode);
    ensure(mode < RX_MODE_END, ImageFault::Filter { found })
}

#[tactic(auto, unfolding(crate::specs::Checks::multicast_fault))]
pub fn check_multicast(bytes: &[u8]) -> Result<(), ImageFault>
    requires size { length bytes.now ≡ IMAGE_SIZE }
    ensures first_fault { fault_in result ≡ multicast_fault bytes.now }
{
    let length = usize::from(u16_at(bytes, MULTICAST_LENGTH));
    let found = length as u64;
    ensure(
        length % MAC_SIZE == 0 && length <= MACS_SIZE,
        ImageFault::Filter { found },
    )?;
    let found = u64_at(bytes, MULTICAST_ADDRESS);
    ensure(found == MULTICAST_TABLE, ImageFault::Filter { found })
}
