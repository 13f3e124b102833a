//! The plan that settings in their ranges ask for.

ghost use Rattle.std.specs.Prelude.{◌≡◌, ◌≤◌, true, map, option_map, length, IfOk};
ghost use Rattle.std.specs.List.{All, AllZip};
ghost use Rattle.vmx_shared_area.specs.declared.offsets.TheConstants.{MAX_MACS};
ghost use Rattle.vmx_device_state.specs.SetupView.{mac_list, rss_view, setup_view};
ghost use Rattle.vmx_model.specs.Ranges.{fits_setup};
ghost use Rattle.vmx_config.specs.Ranges.{FilterInRange, RssInRange, MaybeRssInRange, GuestInRange, InRange};
ghost use Rattle.vmx_config.specs.Plans.{deed_view, action_view, HasRoom, rss_of as rss_view_of, setup_of as setup_view_of, captures_of as captures_view_of, IsGuest, IsPlan, IsConfig};

use crate::config::Config;
use crate::copies::{address_of, key_of, table_of, vlans_of};
use crate::parts::{
    ActionSettings, DeedSettings, FilterSettings, GuestSettings, RssSettings, Settings,
};
use std::alloc::{AllocError, Global};
use vmx_io::{List, Text};
use vmx_model::{Action, Deed, GuestPlan, Plan};
use vmx_pcap::Capture;
use vmx_shared_area::offsets::{LEVEL_COUNT, MAC_SIZE, MAX_MACS};
use vmx_shared_area::{Filter, MacTable, Rss, Setup};

/// The plan of settings, and the names of its guests' captures.
pub fn config_of(alloc: Global, settings: &Settings) -> Result<Config, AllocError>
    requires range { InRange settings.now }
    ensures config { IfOk result (λ config. IsConfig config settings.now) }
{
    let plan = plan_of(alloc, settings)?;
    let captures = captures_of(alloc, settings.guests.as_slice())?;
    Ok(Config { plan, captures })
}

/// The plan of settings; all captures are empty.
fn plan_of(alloc: Global, settings: &Settings) -> Result<Plan, AllocError>
    requires range { InRange settings.now }
    ensures plan { IfOk result (λ plan. IsPlan plan settings.now) }
{
    let guests = guests_of(alloc, settings.guests.as_slice())?;
    Ok(Plan {
        prefix: copy_of(alloc, &settings.output)?,
        poll_every: settings.poll_every,
        guests,
    })
}

/// The name of each guest's capture.
fn captures_of(alloc: Global, guests: &[GuestSettings]) -> Result<List<Option<Text>>, AllocError>
    ensures captures { IfOk result (λ names. names ≡ captures_view_of guests.now) }
{
    let mut names = Vec::with_capacity(alloc, guests.len())?;
    for guest in guests {
        let name = capture_of(alloc, guest)?;
        names.push(name)?;
    }
    Ok(List::of(names))
}

fn capture_of(alloc: Global, guest: &GuestSettings) -> Result<Option<Text>, AllocError>
    ensures capture { IfOk result (λ name. name ≡ guest.now.port.capture) }
{
    match &guest.port.capture {
        Some(name) => Ok(Some(copy_of(alloc, name)?)),
        None => Ok(None),
    }
}

fn copy_of(alloc: Global, text: &Text) -> Result<Text, AllocError>
    ensures copy { IfOk result (λ copy. copy ≡ text.now) }
{
    Text::from_str(alloc, text.as_str())
}

fn guests_of(alloc: Global, settings: &[GuestSettings]) -> Result<List<GuestPlan>, AllocError>
    requires range { All GuestInRange settings.now }
    ensures guests { IfOk result (λ guests. AllZip IsGuest guests settings.now) }
{
    let mut guests = Vec::with_capacity(alloc, settings.len())?;
    for guest in settings {
        let plan = guest_of(alloc, guest)?;
        guests.push(plan)?;
    }
    Ok(List::of(guests))
}

fn guest_of(alloc: Global, settings: &GuestSettings) -> Result<GuestPlan, AllocError>
    requires range { GuestInRange settings.now }
    ensures guest { IfOk result (λ guest. IsGuest guest settings.now) }
{
    let setup = setup_of(settings);
    let script = script_of(alloc, settings.script.as_slice())?;
    let name = copy_of(alloc, &settings.port.name)?;
    Ok(GuestPlan {
        name,
        mac: settings.port.mac,
        sniffer: settings.port.sniffer,
        vlan: settings.port.vlan,
        piece: settings.rings.piece,
        bodies: settings.rings.bodies,
        setup,
        capture: Capture {
            records: List::new(alloc),
            tail: 0,
        },
        script,
    })
}

/// The setup of a guest's driver: interrupts mask themselves at level 0, and no checksums are checked.
fn setup_of(settings: &GuestSettings) -> Setup
    requires range { GuestInRange settings.now }
    ensures setup { setup_view result ≡ setup_view_of settings.now }
    ensures fits { fits_setup result ≡ true }
{
    Setup {
        tx_queues: settings.rings.tx_queues,
        rx_queues: settings.rings.rx_queues,
        tx_ring: settings.rings.tx_ring,
        rx_ring1: settings.rings.rx_ring1,
        rx_ring2: settings.rings.rx_ring2,
        mtu: settings.port.mtu,
        filter: filter_of(&settings.filter),
        rss: maybe_rss(settings.rings.rx_queues, &settings.rss),
        auto_mask: true,
        levels: [0; LEVEL_COUNT],
        tx_data: settings.rings.tx_data,
        rx_data: settings.rings.rx_data,
        strip: settings.port.strip,
        csum: false,
    }
}

fn filter_of(settings: &FilterSettings) -> Filter
    requires range { FilterInRange settings.now }
    ensures mode { result.mode ≡ settings.now.mode }
    ensures multicast { mac_list result.multicast ≡ settings.now.multicast }
    ensures vlans { result.vlans ≡ settings.now.vlans }
{
    Filter {
        mode: settings.mode,
        multicast: mac_table(settings.multicast.as_slice()),
        vlans: vlans_of(&settings.vlans),
    }
}

/// The RSS setting of a guest with so many receive queues, if it has one.
fn maybe_rss(queues: u8, settings: &Option<RssSettings>) -> Option<Rss>
    requires range { MaybeRssInRange queues settings.now }
    ensures rss { option_map rss_view result ≡ option_map rss_view_of settings.now }
{
    match settings {
        Some(rss) => Some(rss_of(queues, rss)),
        None => None,
    }
}

/// The RSS setting of a guest with so many receive queues, which its table names.
fn rss_of(queues: u8, settings: &RssSettings) -> Rss
    requires range { RssInRange queues settings.now }
    ensures rss { rss_view result ≡ rss_view_of settings.now }
{
    Rss {
        types: settings.types,
        key: key_of(&settings.key),
        size: settings.entries.size,
        table: table_of(&settings.entries.table),
    }
}

fn script_of(alloc: Global, script: &[ActionSettings]) -> Result<List<Action>, AllocError>
    requires room { All (λ a. HasRoom a.deed) script.now }
    ensures script { IfOk result (λ actions. map action_view actions ≡ script.now) }
{
    let mut actions = Vec::with_capacity(alloc, script.len())?;
    for action in script {
        let deed = deed_of(&action.deed);
        actions.push(Action {
            at: action.at,
            deed,
        })?;
    }
    Ok(List::of(actions))
}

fn deed_of(deed: &DeedSettings) -> Deed
    requires room { HasRoom deed.now }
    ensures deed { deed_view result ≡ deed.now }
{
    match deed {
        DeedSettings::Quiesce => Deed::Quiesce,
        DeedSettings::Activate => Deed::Activate,
        DeedSettings::Reset => Deed::Reset,
        DeedSettings::Mode { mode } => Deed::Mode { mode: *mode },
        DeedSettings::Multicast { groups } => Deed::Multicast {
            table: mac_table(groups.as_slice()),
        },
        DeedSettings::Vlans { table } => Deed::Vlans { table: *table },
        DeedSettings::Rss { entries } => Deed::Rss {
            size: entries.size,
            table: entries.table,
        },
    }
}

/// The table of these addresses.
fn mac_table(addresses: &[[u8; MAC_SIZE]]) -> MacTable
    requires few { length addresses.now ≤ MAX_MACS }
    ensures macs { mac_list result ≡ addresses.now }
{
    let mut macs = [[0; MAC_SIZE]; MAX_MACS];
    for (i, address) in addresses.iter().enumerate() {
        macs[i] = address_of(address);
    }
    MacTable {
        count: addresses.len() as u32,
        macs,
    }
}
