//! An image read. `read` answers the whole setup or the first failing check; each other reader answers one part, as an update of that
//! part alone needs it, by the same checks.

ghost use Rattle.std.specs.Prelude.{◌≡◌, ◌≤◌, ℕ, IfOk, IfErr, IfSome, Some, None, Ok, Result};
ghost use Rattle.vmx_shared_area.specs.Bytes.{bytes_at, words_at};
ghost use Rattle.vmx_shared_area.specs.Checks.{fault, features};
ghost use Rattle.vmx_shared_area.specs.Tells.{Tells, Reads, TellsRss, EntriesBelow, mode_of, ReadsMulticast, ReadsRss, ReadsTable};
ghost use Rattle.vmx_shared_area.specs.Layout.{image_of};
ghost use Rattle.vmx_shared_area.specs.declared.rss.Rss.{Rss as RssSetting};

use crate::checks::check_image;
use crate::filter_checks::check_multicast;
use crate::numbers::{levels_at, u32_at, u64_at, vlans_at};
use crate::offsets::{FEATURES, LEVEL_COUNT, LEVELS, RX_MODE, RX_MODE_END, VLAN_WORDS, VLANS};
use crate::parts::{multicast_at, rss_at, setup_at, table_at};
use crate::rss_checks::{check_rss, check_table};
use crate::{Image, ImageFault, IndexTable, MacTable, Rss, Setup};
use vmx_layout::MAX_QUEUES;

/// What an image says, or the first of the nine checks that it fails.
pub fn read(image: &Image) -> Result<Setup, ImageFault>
    ensures found { IfOk result (λ s. Tells image.now s) }
    ensures sound { IfOk result (λ _. fault image.now ≡ None) }
    ensures faults { IfErr result (λ e. fault image.now ≡ Some e) }
    ensures unique { (answer : Result Setup ImageFault) → Reads image.now answer → result ≡ answer }
    ensures round_trip { (s : Setup) → image.now ≡ image_of s → result ≡ Ok s }
{
    let bytes = image.bytes();
    check_image(bytes)?;
    Ok(setup_at(bytes))
}

/// The receive mode; None where it has an unknown bit.
pub fn read_mode(image: &Image) -> Option<u32>
    ensures mode { result ≡ mode_of image.now }
{
    let mode = u32_at(image.bytes(), RX_MODE);
    if mode < RX_MODE_END { Some(mode) } else { None }
}

/// The multicast table; None where its length is no multiple of 6 or above 1,536 bytes, or its address is another.
pub fn read_multicast(image: &Image) -> Option<MacTable>
    ensures table { ReadsMulticast image.now result }
{
    let bytes = image.bytes();
    match check_multicast(bytes) {
        Ok(()) => Some(multicast_at(bytes)),
        Err(_) => None,
    }
}

/// The VLAN table.
pub fn read_vlans(image: &Image) -> [u32; VLAN_WORDS]
    ensures vlans { result ≡ words_at VLAN_WORDS VLANS image.now }
{
    vlans_at(image.bytes())
}

/// The moderation levels.
pub fn read_levels(image: &Image) -> [u8; LEVEL_COUNT]
    ensures levels { result ≡ bytes_at LEVEL_COUNT LEVELS image.now }
{
    levels_at(image.bytes())
}

/// The features, as they stand: RXCSUM 1, RSS 2, RXVLAN 4, LRO 8.
pub fn read_features(image: &Image) -> u64
    ensures features { result ≡ features image.now }
{
    u64_at(image.bytes(), FEATURES)
}

/// The RSS setting, or None without the RSS feature. The fault is `Rss`, by the check of the features, with `rx_queues` receive queues,
/// 1 to 8.
pub fn read_rss(image: &Image, rx_queues: u32) -> Result<Option<Rss>, ImageFault>
    requires low { 1 ≤ rx_queues }
    requires high { rx_queues ≤ MAX_QUEUES }
    ensures setting { ReadsRss image.now rx_queues result }
    ensures entries { IfOk result (λ o. (r : RssSetting) → o ≡ Some r → EntriesBelow rx_queues r.size r.table) }
{
    let bytes = image.bytes();
    check_rss(bytes, rx_queues as u8)?;
    Ok(rss_at(bytes, rx_queues as u8))
}

/// The indirection table; None where its size is not 1 to 128, an entry below the size does not name one of `rx_queues` receive queues,
/// 1 to 8, or an entry from the size on is not 0.
pub fn read_table(image: &Image, rx_queues: u32) -> Option<IndexTable>
    requires low { 1 ≤ rx_queues }
    requires high { rx_queues ≤ MAX_QUEUES }
    ensures table { ReadsTable image.now rx_queues result }
    ensures entries { IfSome result (λ t. EntriesBelow rx_queues t.size t.table) }
{
    let bytes = image.bytes();
    match check_table(bytes, rx_queues as u8) {
        Ok(()) => Some(table_at(bytes, rx_queues as u8)),
        Err(_) => None,
    }
}
