//! The check of the features: no other than RXCSUM, RSS and RXVLAN, and where RSS is on, its configuration and its indirection table.

ghost use Rattle.std.specs.Prelude.{◌≡◌, ◌<◌, length};
ghost use Rattle.vmx_shared_area.specs.Checks.{fault_in, rss_fault, rss_check, config_fault, table_fault, entry_fault, first_fault};

use crate::ImageFault;
use crate::fault::ensure;
use crate::numbers::{u16_at, u32_at, u64_at};
use crate::offsets::{
    FEATURE_RSS, FEATURES, FEATURES_END, HASH_FUNCTION, HASH_TYPES, IMAGE_SIZE, KEY_LENGTH,
    KEY_SIZE, MAX_HASH_TYPES, RSS_ADDRESS, RSS_CONFIGURATION_SIZE, RSS_LENGTH, TABLE, TABLE_LENGTH,
    TABLE_SIZE, TOEPLITZ,
};
use vmx_layout::RSS_CONFIGURATION;

/// The check of the features, for so many receive queues.
#[tactic(auto, unfolding(crate::specs::Checks::rss_fault))]
pub fn check_rss(bytes: &[u8], rx_queues: u8) -> Result<(), ImageFault>
    requires size { length bytes.now ≡ IMAGE_SIZE }
    ensures first_fault { fault_in result ≡ rss_fault bytes.now rx_queues }
{
    let found = u64_at(bytes, FEATURES);
    ensure(found < FEATURES_END, ImageFault::Rss { found })?;
    if found / FEATURE_RSS % 2 == 0 {
        return Ok(());
    }
    check_configuration(bytes)?;
    check_table(bytes, rx_queues)
}

#[tactic(auto, unfolding(crate::specs::Checks::config_fault))]
fn check_configuration(bytes: &[u8]) -> Result<(), ImageFault>
    requires size { length bytes.now ≡ IMAGE_SIZE }
    ensures first_fault { fault_in result ≡ config_fault bytes.now }
{
    let length = u64::from(u32_at(bytes, RSS_LENGTH));
    let address = u64_at(bytes, RSS_ADDRESS);
    let types = u64::from(u16_at(bytes, HASH_TYPES));
    let function = u64::from(u16_at(bytes, HASH_FUNCTION));
    let key = u64::from(u16_at(bytes, KEY_LENGTH));
    check(length == u64::from(RSS_CONFIGURATION_SIZE), length)?;
    check(address == RSS_CONFIGURATION, address)?;
    check(types <= u64::from(MAX_HASH_TYPES), types)?;
    check(function == u64::from(TOEPLITZ), function)?;
    check(key == KEY_SIZE as u64, key)
}

/// The fault of this check, unless a test holds of what was found.
fn check(holds: bool, found: u64) -> Result<(), ImageFault>
    ensures first_fault { fault_in result ≡ rss_check found holds }
{
    ensure(holds, ImageFault::Rss { found })
}

/// The check of the indirection table alone.
#[tactic(auto, unfolding(crate::specs::Checks::table_fault))]
pub fn check_table(bytes: &[u8], rx_queues: u8) -> Result<(), ImageFault>
    requires size { length bytes.now ≡ IMAGE_SIZE }
    ensures first_fault { fault_in result ≡ table_fault bytes.now rx_queues }
{
    let size = u64::from(u16_at(bytes, TABLE_LENGTH));
    check(1 <= size && size <= TABLE_SIZE as u64, size)?;
    check_entries(bytes, rx_queues)
}

#[tactic(auto, using(crate::proofs::FirstFault::first_fault_step, crate::proofs::FirstFault::first_fault_done))]
fn check_entries(bytes: &[u8], rx_queues: u8) -> Result<(), ImageFault>
    requires size { length bytes.now ≡ IMAGE_SIZE }
    ensures first_fault { fault_in result ≡ first_fault (entry_fault bytes.now rx_queues) 0 TABLE_SIZE }
{
    for i in 0..TABLE_SIZE {
        check_entry(bytes, rx_queues, i)?;
    }
    Ok(())
}

#[tactic(auto, unfolding(crate::specs::Checks::entry_fault))]
fn check_entry(bytes: &[u8], rx_queues: u8, i: usize) -> Result<(), ImageFault>
    requires size { length bytes.now ≡ IMAGE_SIZE }
    requires entry { i < TABLE_SIZE }
    ensures first_fault { fault_in result ≡ entry_fault bytes.now rx_queues i }
{
    let entry = bytes[TABLE + i];
    let is_good = if i < usize::from(u16_at(bytes, TABLE_LENGTH)) {
        entry < rx_queues
    } else {
        entry == 0
    };
    check(is_good, u64::from(entry))
}
