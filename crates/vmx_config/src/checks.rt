//! What guests have together: names, addresses, descriptors.

ghost use Rattle.std.specs.Prelude.{◌≡◌, ◌≤◌, ◌<◌, ◌^◌, [], length};
ghost use Rattle.vmx_switch.specs.declared.answer.TheConstants.{MAX_PORTS};
ghost use Rattle.vmx_config_rows.specs.declared.fault.ConfigFault.TheVariants.{Twice};
ghost use Rattle.vmx_config_rows.specs.Reading.{Gives, IsFault};
ghost use Rattle.vmx_config.specs.Whole.{together as together_of, twice_from, has_name as has_name_of, has_mac as has_mac_of, descriptors_of, total_of};

use crate::parts::{GuestSettings, RingSettings};
use std::alloc::Global;
use vmx_config_rows::ConfigFault;
use vmx_io::Text;
use vmx_model::MAX_ALL_DESCRIPTORS;
use vmx_shared_area::offsets::MAC_SIZE;

/// Answers the first fault of guests beside one another: `Twice`, then `Total`.
#[tactic(auto, unfolding(crate::specs::Whole::together))]
pub fn together(alloc: Global, guests: &[GuestSettings]) -> Result<(), ConfigFault>
    requires few { length guests.now ≤ MAX_PORTS }
    ensures together { Gives (λ _. tt) result (together_of guests.now) }
{
    all_differ(alloc, guests)?;
    let found = total(guests);
    if found > u64::from(MAX_ALL_DESCRIPTORS) {
        return Err(ConfigFault::Total { found });
    }
    Ok(())
}

/// Answers `Twice` for the first guest whose name, or else whose address, an earlier one has.
fn all_differ(alloc: Global, guests: &[GuestSettings]) -> Result<(), ConfigFault>
    requires few { length guests.now ≤ MAX_PORTS }
    ensures differ { Gives (λ _. tt) result (twice_from [] 0 guests.now) }
{
    for (i, guest) in guests.iter().enumerate() {
        let before = &guests[..i];
        if has_name(before, guest.port.name.as_str()) {
            return Err(twice(alloc, i as u32, "name"));
        }
        if has_mac(before, &guest.port.mac) {
            return Err(twice(alloc, i as u32, "mac"));
        }
    }
    Ok(())
}

fn twice(alloc: Global, guest: u32, key: &str) -> ConfigFault
    ensures fault { IsFault result (Twice guest key.now) }
{
    match Text::from_str(alloc, key) {
        Ok(key) => ConfigFault::Twice { guest, key },
        Err(_) => ConfigFault::Memory,
    }
}

fn has_name(guests: &[GuestSettings], name: &str) -> bool
    ensures named { result ≡ has_name_of guests.now name.now }
{
    for guest in guests {
        if guest.port.name.as_str() == name {
            return true;
        }
    }
    false
}

fn has_mac(guests: &[GuestSettings], mac: &[u8; MAC_SIZE]) -> bool
    ensures there { result ≡ has_mac_of guests.now mac.now }
{
    for guest in guests {
        if guest.port.mac == *mac {
            return true;
        }
    }
    false
}

/// The descriptors of all guests' rings.
fn total(guests: &[GuestSettings]) -> u64
    requires few { length guests.now ≤ MAX_PORTS }
    ensures total { result ≡ total_of guests.now }
{
    let mut sum = 0;
    for guest in guests {
        sum += descriptors(&guest.rings);
    }
    sum
}

/// The descriptors of a guest's rings.
fn descriptors(rings: &RingSettings) -> u64
    ensures descriptors { result ≡ descriptors_of rings.now }
    ensures low { result < 2 ^ 42 }
{
    u64::from(rings.tx_queues) * u64::from(rings.tx_ring)
        + u64::from(rings.rx_queues) * (u64::from(rings.rx_ring1) + u64::from(rings.rx_ring2))
}
