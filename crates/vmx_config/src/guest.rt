//! The table of a guest: its unknown keys, and then key by key in the order of the table of keys.

ghost use Rattle.std.specs.Prelude.{◌≡◌, ◌≤◌, Some, IfOk};
ghost use Rattle.toml.specs.View.{table_view};
ghost use Rattle.vmx_layout.specs.declared.register.TheConstants.{MAX_QUEUES};
ghost use Rattle.vmx_config_rows.specs.declared.rows.NumberKey.TheVariants.{Vlan};
ghost use Rattle.vmx_config_rows.specs.Reading.{Gives};
ghost use Rattle.vmx_config_rows.specs.Table.{row, number_row, number_at, optional_at};
ghost use Rattle.vmx_config.specs.Guest.{port_at, rings_at, mode_at, multicast_at, vlans_at, filter_at, types_at, key_at, entries_at, in_turns as in_turns_of, rss_table, rss_at, guest_at};

use crate::parts::{FilterSettings, GuestSettings, PortSettings, RingSettings, RssSettings};
use crate::script::script;
use std::alloc::Global;
use toml::Table;
use vmx_config_lists::{Entries, key, mode, multicast, table_entries, types, vlans};
use vmx_config_rows::{
    ConfigFault, NumberKey, Spot, TruthKey, at, capture_name, known_keys, name, number,
    optional_number, port_address, truth, wrong_kind,
};
use vmx_io::List;
use vmx_rss::ALL_TYPES;
use vmx_shared_area::offsets::{KEY_SIZE, MAC_SIZE, TABLE_SIZE, VLAN_WORDS};
use vmx_shared_area::{MICROSOFT_KEY, RX_MODE_BCAST, RX_MODE_MCAST, RX_MODE_UCAST};

/// The keys of a guest.
const GUEST_KEYS: [&str; 21] = [
    "name",
    "mac",
    "capture",
    "sniffer",
    "vlan",
    "strip",
    "mtu",
    "tx_queues",
    "rx_queues",
    "tx_ring",
    "rx_ring1",
    "rx_ring2",
    "bodies",
    "tx_data",
    "rx_data",
    "piece",
    "mode",
    "multicast",
    "vlans",
    "rss",
    "script",
];

/// The keys of a guest's `rss` table.
const RSS_KEYS: [&str; 3] = ["types", "key", "table"];

/// The settings of a guest's table, or its first fault.
#[tactic(auto, unfolding(crate::specs::Guest::guest_at))]
pub fn guest_settings(
    alloc: Global,
    spot: Spot,
    table: &Table,
) -> Result<GuestSettings, ConfigFault>
    ensures guest { Gives (λ g. g) result (guest_at spot (table_view table.now)) }
{
    known_keys(alloc, spot, "", &GUEST_KEYS, table)?;
    let port = port(alloc, spot, table)?;
    let rings = rings(alloc, spot, table)?;
    let filter = filter(alloc, spot, table)?;
    let rss = rss(alloc, spot, rings.rx_queues, table)?;
    let script = script(alloc, spot, rings.rx_queues, rss.is_some(), table)?;
    Ok(GuestSettings {
        port,
        rings,
        filter,
        rss,
        script,
    })
}

#[tactic(auto, unfolding(crate::specs::Guest::port_at))]
fn port(alloc: Global, spot: Spot, table: &Table) -> Result<PortSettings, ConfigFault>
    ensures port { Gives (λ p. p) result (port_at spot (table_view table.now)) }
{
    let name = name(alloc, spot, table)?;
    let mac = port_address(alloc, spot, table)?;
    let capture = capture_name(alloc, spot, table)?;
    let sniffer = truth(alloc, spot, TruthKey::Sniffer, table)?;
    let vlan = vlan(alloc, spot, table)?;
    let strip = truth(alloc, spot, TruthKey::Strip, table)?;
    let mtu = number(alloc, spot, NumberKey::Mtu, table)?;
    Ok(PortSettings {
        name,
        mac,
        capture,
        sniffer,
        vlan,
        strip,
        mtu,
    })
}

/// The VLAN of a guest's frames, or none.
fn vlan(alloc: Global, spot: Spot, table: &Table) -> Result<Option<u16>, ConfigFault>
    ensures vlan { Gives (λ n. n) result (optional_at spot (number_row Vlan) (table_view table.now)) }
{
    match optional_number(alloc, spot, NumberKey::Vlan, table)? {
        Some(vlan) => Ok(Some(vlan as u16)),
        None => Ok(None),
    }
}

#[tactic(auto, unfolding(crate::specs::Guest::rings_at))]
fn rings(alloc: Global, spot: Spot, table: &Table) -> Result<RingSettings, ConfigFault>
    ensures rings { Gives (λ r. r) result (rings_at spot (table_view table.now)) }
    ensures queues { IfOk result (λ r. (1 ≤ r.rx_queues) × (r.rx_queues ≤ MAX_QUEUES)) }
{
    let tx_queues = queue_count(alloc, spot, NumberKey::TxQueues, table)?;
    let rx_queues = queue_count(alloc, spot, NumberKey::RxQueues, table)?;
    let tx_ring = number(alloc, spot, NumberKey::TxRing, table)?;
    let rx_ring1 = number(alloc, spot, NumberKey::RxRing1, table)?;
    let rx_ring2 = number(alloc, spot, NumberKey::RxRing2, table)?;
    let bodies = number(alloc, spot, NumberKey::Bodies, table)?;
    let tx_data = truth(alloc, spot, TruthKey::TxData, table)?;
    let rx_data = truth(alloc, spot, TruthKey::RxData, table)?;
    let piece = number(alloc, spot, NumberKey::Piece { tx_data }, table)?;
    Ok(RingSettings {
        tx_queues,
        rx_queues,
        tx_ring,
        rx_ring1,
        rx_ring2,
        bodies,
        tx_data,
        rx_data,
        piece,
    })
}

/// The number of queues of a side.
fn queue_count(alloc: Global, spot: Spot, key: NumberKey, table: &Table) -> Result<u8, ConfigFault>
    requires row { number_row key ≡ row (number_row key).key 1 MAX_QUEUES 1 (Some 1) }
    ensures count { Gives (λ n. n) result (number_at spot (number_row key) (table_view table.now)) }
    ensures queues { IfOk result (λ n. (1 ≤ n) × (n ≤ MAX_QUEUES)) }
{
    let count = number(alloc, spot, key, table)?;
    Ok(count as u8)
}

#[tactic(auto, unfolding(crate::specs::Guest::filter_at))]
fn filter(alloc: Global, spot: Spot, table: &Table) -> Result<FilterSettings, ConfigFault>
    ensures filter { Gives (λ f. f) result (filter_at spot (table_view table.now)) }
{
    let mode = mode_or_default(alloc, spot, table)?;
    let multicast = groups_or_none(alloc, spot, table)?;
    let vlans = vlans_or_all(alloc, spot, table)?;
    Ok(FilterSettings {
        mode,
        multicast,
        vlans,
    })
}

/// Where there is no mode: UCAST, MCAST and BCAST.
#[tactic(auto, unfolding(crate::specs::Guest::mode_at))]
fn mode_or_default(alloc: Global, spot: Spot, table: &Table) -> Result<u32, ConfigFault>
    ensures mode { Gives (λ n. n) result (mode_at spot (table_view table.now)) }
{
    match at(table, "mode") {
        Some(value) => mode(alloc, spot, value),
        None => Ok(RX_MODE_UCAST | RX_MODE_MCAST | RX_MODE_BCAST),
    }
}

#[tactic(auto, unfolding(crate::specs::Guest::multicast_at))]
fn groups_or_none(
    alloc: Global,
    spot: Spot,
    table: &Table,
) -> Result<List<[u8; MAC_SIZE]>, ConfigFault>
    ensures groups { Gives (λ g. g) result (multicast_at spot (table_view table.now)) }
{
    let Some(value) = at(table, "multicast") else {
        return Ok(List::new(alloc));
    };
    let groups = multicast(alloc, spot, value)?;
    Ok(List::of(groups))
}

#[tactic(auto, unfolding(crate::specs::Guest::vlans_at))]
fn vlans_or_all(alloc: Global, spot: Spot, table: &Table) -> Result<[u32; VLAN_WORDS], ConfigFault>
    ensures vlans { Gives (λ t. t) result (vlans_at spot (table_view table.now)) }
{
    match at(table, "vlans") {
        Some(value) => vlans(alloc, spot, value),
        None => Ok([u32::MAX; VLAN_WORDS]),
    }
}

#[tactic(auto, unfolding(crate::specs::Guest::rss_at))]
fn rss(
    alloc: Global,
    spot: Spot,
    queues: u8,
    table: &Table,
) -> Result<Option<RssSettings>, ConfigFault>
    requires some { 1 ≤ queues }
    ensures rss { Gives (λ r. r) result (rss_at spot queues (table_view table.now)) }
{
    let Some(value) = at(table, "rss") else {
        return Ok(None);
    };
    let Some(inner) = value.as_table() else {
        return Err(wrong_kind(alloc, spot, "rss"));
    };
    let setting = rss_setting(alloc, spot, queues, inner)?;
    Ok(Some(setting))
}

#[tactic(auto, unfolding(crate::specs::Guest::rss_table))]
fn rss_setting(
    alloc: Global,
    spot: Spot,
    queues: u8,
    table: &Table,
) -> Result<RssSettings, ConfigFault>
    requires some { 1 ≤ queues }
    ensures rss { Gives (λ r. r) result (rss_table spot queues (table_view table.now)) }
{
    known_keys(alloc, spot, "rss.", &RSS_KEYS, table)?;
    let types = types_or_all(alloc, spot, table)?;
    let key = key_or_default(alloc, spot, table)?;
    let entries = entries_or_turns(alloc, spot, queues, table)?;
    Ok(RssSettings {
        types,
        key,
        entries,
    })
}

#[tactic(auto, unfolding(crate::specs::Guest::types_at))]
fn types_or_all(alloc: Global, spot: Spot, table: &Table) -> Result<u16, ConfigFault>
    ensures types { Gives (λ n. n) result (types_at spot (table_view table.now)) }
{
    match at(table, "types") {
        Some(value) => types(alloc, spot, value),
        None => Ok(ALL_TYPES),
    }
}

/// Where there is no key: Microsoft's.
#[tactic(auto, unfolding(crate::specs::Guest::key_at))]
fn key_or_default(alloc: Global, spot: Spot, table: &Table) -> Result<[u8; KEY_SIZE], ConfigFault>
    ensures key { Gives (λ k. k) result (key_at spot (table_view table.now)) }
{
    match at(table, "key") {
        Some(value) => key(alloc, spot, value),
        None => Ok(MICROSOFT_KEY),
    }
}

#[tactic(auto, unfolding(crate::specs::Guest::entries_at))]
fn entries_or_turns(
    alloc: Global,
    spot: Spot,
    queues: u8,
    table: &Table,
) -> Result<Entries, ConfigFault>
    requires some { 1 ≤ queues }
    ensures entries { Gives (λ t. t) result (entries_at spot queues (table_view table.now)) }
{
    match at(table, "table") {
        Some(value) => table_entries(alloc, spot, "rss.table", queues, value),
        None => Ok(in_turns(queues)),
    }
}

/// 128 entries that name the queues in turn.
#[tactic(auto, unfolding(crate::specs::Guest::in_turns))]
fn in_turns(queues: u8) -> Entries
    requires some { 1 ≤ queues }
    ensures turns { result ≡ in_turns_of queues }
{
    let mut table = [0; TABLE_SIZE];
    for i in 0..TABLE_SIZE {
        table[i] = (i % usize::from(queues)) as u8;
    }
    Entries {
        size: TABLE_SIZE as u16,
        table,
    }
}
