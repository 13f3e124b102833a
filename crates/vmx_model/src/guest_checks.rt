//! The ranges of a guest, as tests at run time.
//!
//! Each function answers what the definition of its name says (`specs/Ranges.antt`).

ghost use Rattle.std.specs.Prelude.{◌≡◌, ◌==◌, ◌&&◌, nat_lt};
ghost use Rattle.std.specs.List.{list_all};
ghost use Rattle.vmx_shared_area.specs.declared.offsets.TheConstants.{TABLE_SIZE};
ghost use Rattle.vmx_model.specs.declared.limits.TheConstants.{MAX_NUMBER};
ghost use Rattle.vmx_model.specs.Makers.{guest_fits};
ghost use Rattle.vmx_model.specs.Ranges.{is_within, fits_vlan as fits_vlan_of, fits_piece as fits_piece_of, fits_setup as fits_setup_of, is_group as is_group_of, are_groups as are_groups_of, is_name_byte as is_name_byte_of, is_name as is_name_of, is_prefix_byte as is_prefix_byte_of, is_prefix as is_prefix_of, fits_table as fits_table_of, fits_deed as fits_deed_of, is_in_turn as is_in_turn_of, fits_script as fits_script_of};

use crate::deeds::{Action, Deed};
use crate::guest_parts::GuestParts;
use crate::limits::{MAX_ACTIONS, MAX_NAME, MAX_NUMBER, MAX_PREFIX, MAX_VLAN};
use crate::verdicts::quiet_after;
use vmx_ends::{MAX_BODIES, MAX_PIECE, MIN_PIECE, MIN_PIECE_WITH_DATA};
use vmx_shared_area::offsets::{MAC_SIZE, RX_MODE_END, TABLE_SIZE};
use vmx_shared_area::{MacTable, Setup};

/// Whether all parts of a guest are in their ranges.
pub(crate) fn fits_guest(parts: &GuestParts) -> bool
    ensures fits { result ≡ guest_fits parts.now }
{
    is_name(parts.name.as_str().as_bytes())
        && parts.mac[0] % 2 == 0
        && fits_vlan(parts.vlan)
        && fits_piece(parts.setup.tx_data, parts.piece)
        && parts.bodies <= MAX_BODIES
        && fits_setup(&parts.setup)
        && parts.script.len() <= MAX_ACTIONS
        && fits_script(
            parts.setup.rx_queues,
            parts.setup.rss.is_some(),
            parts.script.as_slice(),
        )
}

/// Whether a VLAN, where there is one, is 1 to 4,094.
fn fits_vlan(vlan: Option<u16>) -> bool
    ensures fits { result ≡ fits_vlan_of vlan }
{
    match vlan {
        None => true,
        Some(id) => 1 <= id && id <= MAX_VLAN,
    }
}

/// Whether a transmit buffer can have so many bytes, with a data ring or without: from the least on with which every frame fits into the
/// descriptors of a packet.
fn fits_piece(with_data: bool, piece: u32) -> bool
    ensures fits { result ≡ fits_piece_of with_data piece }
{
    let least = if with_data {
        MIN_PIECE_WITH_DATA
    } else {
        MIN_PIECE
    };
    least <= piece && piece <= MAX_PIECE
}

/// Whether interrupts mask themselves at moderation level 0, no checksums are checked, and the multicast table has group addresses alone.
fn fits_setup(setup: &Setup) -> bool
    ensures fits { result ≡ fits_setup_of setup.now }
{
    (setup.auto_mask && !setup.csum)
        && (are_zero(&setup.levels) && are_groups(&setup.filter.multicast))
}

/// Whether each address of the table is a group address.
fn are_groups(table: &MacTable) -> bool
    ensures groups { result ≡ are_groups_of table.now }
{
    name_groups(&table.macs[..table.count as usize])
}

fn name_groups(macs: &[[u8; MAC_SIZE]]) -> bool
    ensures groups { result ≡ list_all is_group_of macs.now }
{
    macs.iter().all(|mac| is_group(mac))
}

/// Whether an address is a group's: the lowest bit of its first byte is 1 (IEEE 802.3).
fn is_group(mac: &[u8; MAC_SIZE]) -> bool
    ensures group { result ≡ is_group_of mac.now }
{
    mac[0] % 2 == 1
}

fn is_name(name: &[u8]) -> bool
    ensures name { result ≡ is_name_of name.now }
{
    (!name.is_empty() && name.len() <= MAX_NAME) && are_name_bytes(name)
}

fn are_name_bytes(bytes: &[u8]) -> bool
    ensures bytes { result ≡ list_all is_name_byte_of bytes.now }
{
    bytes.iter().all(|byte| is_name_byte(*byte))
}

fn is_name_byte(byte: u8) -> bool
    ensures byte { result ≡ is_name_byte_of byte }
{
    matches!(byte, b'a'..=b'z' | b'0'..=b'9' | b'_')
}

/// Whether the names of files may begin with this.
pub(crate) fn is_prefix(prefix: &[u8]) -> bool
    ensures prefix { result ≡ is_prefix_of prefix.now }
{
    (!prefix.is_empty() && prefix.len() <= MAX_PREFIX)
        && are_prefix_bytes(prefix)
        && !(prefix[0] == b'.' || prefix[0] == b'/')
}

fn are_prefix_bytes(bytes: &[u8]) -> bool
    ensures bytes { result ≡ list_all is_prefix_byte_of bytes.now }
{
    bytes.iter().all(|byte| is_prefix_byte(*byte))
}

fn is_prefix_byte(byte: u8) -> bool
    ensures byte { result ≡ is_prefix_byte_of byte }
{
    is_name_byte(byte) || matches!(byte, b'A'..=b'Z' | b'.' | b'/')
}

/// Whether each action stands in its turn, at or behind the number of the action before it, with a deed in its range.
fn fits_script(queues: u8, rss: bool, script: &[Action]) -> bool
    ensures fits { result ≡ fits_script_of queues rss script.now }
{
    let mut quiet = false;
    let mut at = 0;
    for action in script {
        if !fits_behind(queues, rss, quiet, at, action) {
            return false;
        }
        quiet = quiet_after(quiet, &action.deed);
        at = action.at;
    }
    true
}

/// Whether the action can stand behind one at the number `at`, where the guest is quiet then or is not.
fn fits_behind(queues: u8, rss: bool, quiet: bool, at: u32, action: &Action) -> bool
    ensures fits { result ≡ (is_within at MAX_NUMBER action.now.at && (fits_deed_of queues rss action.now.deed && is_in_turn_of quiet action.now.deed)) }
{
    (at <= action.at && action.at <= MAX_NUMBER)
        && (fits_deed(queues, rss, &action.deed) && is_in_turn(quiet, &action.deed))
}

/// Whether a guest with so many receive queues, with RSS or without, can do the deed.
fn fits_deed(queues: u8, rss: bool, deed: &Deed) -> bool
    ensures fits { result ≡ fits_deed_of queues rss deed.now }
{
    match deed {
        Deed::Mode { mode } => *mode < RX_MODE_END,
        Deed::Multicast { table } => are_groups(table),
        Deed::Rss { size, table } => rss && fits_table(queues, *size, table),
        Deed::Quiesce | Deed::Activate | Deed::Reset | Deed::Vlans { .. } => true,
    }
}

/// Whether the table has 1 to 128 entries that name so many queues, and zeros behind them.
fn fits_table(queues: u8, size: u16, table: &[u8; 128]) -> bool
    ensures fits { result ≡ (is_within 1 TABLE_SIZE size && fits_table_of queues size table.now) }
{
    let size = usize::from(size);
    (1 <= size && size <= TABLE_SIZE)
        && (are_below(queues, &table[..size]) && are_zero(&table[size..]))
}

fn are_below(queues: u8, entries: &[u8]) -> bool
    ensures below { result ≡ list_all (λ entry. nat_lt entry queues) entries.now }
{
    entries.iter().all(|entry| *entry < queues)
}

fn are_zero(entries: &[u8]) -> bool
    ensures zero { result ≡ list_all (λ entry. entry == 0) entries.now }
{
    entries.iter().all(|entry| *entry == 0)
}

/// Whether a guest that is quiet, or is not, can do the deed: a quiet guest is activated, any other quiesced or reset.
fn is_in_turn(quiet: bool, deed: &Deed) -> bool
    ensures in_turn { result ≡ is_in_turn_of quiet deed.now }
{
    match deed {
        Deed::Activate => quiet,
        Deed::Quiesce | Deed::Reset => !quiet,
        Deed::Mode { .. } | Deed::Multicast { .. } | Deed::Vlans { .. } | Deed::Rss { .. } => true,
    }
}
