//! The setup after a deed of a script.
ghost use Rattle.std.specs.Prelude.{◌≡◌, ◌<◌, Some, true};
ghost use Rattle.vmx_shared_area.specs.Tells.{EntriesBelow};
ghost use Rattle.vmx_device_state.specs.SetupView.{setup_view, rss_view, mac_list};
ghost use Rattle.vmx_model.specs.Ranges.{fits_deed};
ghost use Rattle.vmx_model.specs.Plan.{changed as changed_by};

use crate::Deed;
use vmx_shared_area::offsets::{RX_MODE_END, TABLE_SIZE, VLAN_WORDS};
use vmx_shared_area::{Filter, MacTable, Rss, Setup};

/// The setup after a deed.
pub fn changed(setup: &Setup, deed: &Deed) -> Setup
    requires fits { fits_deed setup.now.rx_queues true deed.now ≡ true }
    ensures changed { setup_view result ≡ changed_by (setup_view setup.now) deed.now }
{
    match deed {
        Deed::Quiesce | Deed::Activate | Deed::Reset => *setup,
        Deed::Mode { mode } => with_filter(
            setup,
            filter_of(*mode, setup.filter.multicast, setup.filter.vlans),
        ),
        Deed::Multicast { table } => with_filter(
            setup,
            filter_of(setup.filter.mode, *table, setup.filter.vlans),
        ),
        Deed::Vlans { table } => with_filter(
            setup,
            filter_of(setup.filter.mode, setup.filter.multicast, *table),
        ),
        Deed::Rss { size, table } => match setup.rss {
            None => *setup,
            Some(rss) => with_rss(
                setup,
                rss_of(u32::from(setup.rx_queues), &rss, *size, *table),
            ),
        },
    }
}

/// The filter of these.
fn filter_of(mode: u32, multicast: MacTable, vlans: [u32; VLAN_WORDS]) -> Filter
    requires mode { mode < RX_MODE_END }
    ensures parts { (result.mode ≡ mode) × (result.multicast ≡ multicast) × (result.vlans ≡ vlans) }
{
    Filter {
        mode,
        multicast,
        vlans,
    }
}

/// The RSS setting with another indirection table.
fn rss_of(queues: u32, rss: &Rss, size: u16, table: [u8; TABLE_SIZE]) -> Rss
    requires fits { fits_deed queues true (Deed.Rss size table) ≡ true }
    ensures parts { (result.types ≡ rss.now.types) × (result.key ≡ rss.now.key) × (result.size ≡ size) × (result.table ≡ table) }
    ensures entries { EntriesBelow queues result.size result.table }
{
    let types = rss.types;
    let key = rss.key;
    Rss {
        types,
        key,
        size,
        table,
    }
}

/// The setup with another filter.
fn with_filter(setup: &Setup, filter: Filter) -> Setup
    ensures setup { setup_view result ≡ record (setup_view setup.now) { mode = filter.mode; macs = mac_list filter.multicast; vlans = filter.vlans } }
    ensures queues { result.rx_queues ≡ setup.now.rx_queues }
{
    let mut changed = *setup;
    changed.filter = filter;
    changed
}

/// The setup with another RSS setting, whose entries name receive queues of the setup.
fn with_rss(setup: &Setup, rss: Rss) -> Setup
    requires entries { EntriesBelow setup.now.rx_queues rss.size rss.table }
    ensures setup { setup_view result ≡ record (setup_view setup.now) { rss = Some (rss_view rss) } }
{
    let mut changed = *setup;
    changed.rss = Some(rss);
    changed
}
