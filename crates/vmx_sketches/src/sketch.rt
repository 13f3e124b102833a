//! Small plans by their sketches.
ghost use Rattle.std.specs.Prelude.{◌≡◌, ◌<◌, ◌≤◌, ◌%◌, ◌∷◌, [], true};
ghost use Rattle.vmx_shared_area.specs.Tells.{EntriesBelow};
ghost use Rattle.vmx_model.specs.Ranges.{fits_table as fits_table_by};
ghost use Rattle.std.specs.Option.{ForSome};

use crate::fitting::fits_table;
use crate::frames::{Frames, records_of};
use std::alloc::{AllocError, Global};
use vmx_frame::ADDRESS_LEN;
use vmx_io::{List, Text};
use vmx_layout::MAX_RING_SIZE;
use vmx_model::{Action, Deed, GuestParts, GuestPlan, Plan};
use vmx_pcap::Capture;
use vmx_rss::ALL_TYPES;
use vmx_shared_area::offsets::{
    KEY_SIZE, MAX_MTU, MIN_MTU, MIN_RING, RING_STEP, RX_MODE_END, TABLE_SIZE, VLAN_WORDS,
};
use vmx_shared_area::{MICROSOFT_KEY, Rss, Setup};

/// What a guest is asked to do.
#[derive(Clone, Copy)]
pub enum Script {
    Nothing,
    /// Quiesce at 2 and activate at 5.
    Pause,
    /// Reset at 3.
    Reset,
    /// At 10 the indirection table 1, 0, 1, 0.
    Swap,
}

/// A guest: two receive queues and the indirection table 0, 1, 0, 1 with RSS, one without.
#[derive(Clone, Copy)]
pub struct Sketch {
    /// The receive mode, below 32.
    pub mode: u32,
    pub sniffer: bool,
    /// The VLAN whose tag its frames are given.
    pub vlan: Option<u16>,
    /// The one VLAN below 32 of its VLAN table, or all VLANs.
    pub allowed: Option<u16>,
    /// Whether its device takes tags out.
    pub strip: bool,
    /// Whether its queues have data rings.
    pub data: bool,
    /// The descriptors of each receive ring.
    pub ring: u32,
    pub bodies: u32,
    pub mtu: u32,
    pub rss: bool,
    pub frames: Frames,
    pub script: Script,
}

/// The address of the guest at a port.
pub fn mac_of(port: u8) -> [u8; ADDRESS_LEN]
    ensures value { result ≡ 0x00 ∷ 0x50 ∷ 0x56 ∷ 0x00 ∷ 0x00 ∷ port ∷ [] }
{
    [0x00, 0x50, 0x56, 0x00, 0x00, port]
}

/// The plan of these guests, or None where a configuration would refuse it.
pub fn plan_of(
    alloc: Global,
    poll_every: u32,
    sketches: &[Sketch],
) -> Result<Option<Plan>, AllocError> {
    let mut guests = List::new(alloc);
    let mut port: u8 = 0;
    for sketch in sketches {
        match guest_of(alloc, port, sketch)? {
            Some(guest) => guests.push(guest)?,
            None => return Ok(None),
        }
        port = port.saturating_add(1);
    }
    Ok(Plan::of(Text::from_str(alloc, "out")?, poll_every, guests))
}

fn guest_of(alloc: Global, port: u8, sketch: &Sketch) -> Result<Option<GuestPlan>, AllocError> {
    let Some(setup) = setup_of(sketch) else {
        return Ok(None);
    };
    Ok(GuestPlan::of(GuestParts {
        name: name_of(alloc, port)?,
        mac: mac_of(port),
        sniffer: sketch.sniffer,
        vlan: sketch.vlan,
        piece: 4_096,
        bodies: sketch.bodies,
        setup,
        capture: Capture {
            records: records_of(alloc, sketch.frames)?,
            tail: 0,
        },
        script: script_of(alloc, sketch.script)?,
    }))
}

fn name_of(alloc: Global, port: u8) -> Result<Text, AllocError> {
    match port {
        0 => Text::from_str(alloc, "a"),
        1 => Text::from_str(alloc, "b"),
        2 => Text::from_str(alloc, "c"),
        _ => Text::from_str(alloc, "d"),
    }
}

/// The setup of a sketch, or None where its numbers are in no range.
fn setup_of(sketch: &Sketch) -> Option<Setup> {
    let ring = sketch.ring;
    let mtu = sketch.mtu;
    let mode = sketch.mode;
    if ring < MIN_RING || ring > MAX_RING_SIZE || ring % RING_STEP != 0 {
        return None;
    }
    if mtu < MIN_MTU || mtu > MAX_MTU || mode >= RX_MODE_END {
        return None;
    }
    let mut setup = setup_with(ring, mtu, mode);
    setup.filter.vlans = vlans_of(sketch.allowed);
    setup.tx_data = sketch.data;
    setup.rx_data = sketch.data;
    setup.strip = sketch.strip;
    if !sketch.rss {
        return Some(setup);
    }
    let rss = rss_of(entries_of(0))?;
    Some(with_rss(&setup, rss))
}

/// The default setup with receive rings, MTU and mode of these.
fn setup_with(ring: u32, mtu: u32, mode: u32) -> Setup
    requires ring { (MIN_RING ≤ ring) × (ring ≤ MAX_RING_SIZE) × (ring % RING_STEP ≡ 0) }
    requires mtu { (MIN_MTU ≤ mtu) × (mtu ≤ MAX_MTU) }
    requires mode { mode < RX_MODE_END }
{
    let mut setup = Setup::by_default();
    setup.rx_ring1 = ring;
    setup.rx_ring2 = ring;
    setup.mtu = mtu;
    setup.filter.mode = mode;
    setup
}

/// The table of one VLAN below 32, or of all.
fn vlans_of(allowed: Option<u16>) -> [u32; VLAN_WORDS] {
    match allowed {
        None => [u32::MAX; VLAN_WORDS],
        Some(vlan) => {
            let mut vlans = [0; VLAN_WORDS];
            vlans[0] = 1 << u32::from(vlan % 32);
            vlans
        }
    }
}

/// The setup with two receive queues and this RSS setting.
fn with_rss(setup: &Setup, rss: Rss) -> Setup
    requires entries { EntriesBelow 2 rss.size rss.table }
{
    let mut setup = *setup;
    setup.rss = None;
    setup.rx_queues = 2;
    setup.rss = Some(rss);
    setup
}

/// The entries of an indirection table of four that begins with this one, 0 or 1.
fn entries_of(first: u8) -> [u8; TABLE_SIZE] {
    let mut table = [0; TABLE_SIZE];
    table[0] = first;
    table[1] = 1 - first.min(1);
    table[2] = first;
    table[3] = 1 - first.min(1);
    table
}

/// The RSS setting with an indirection table of four entries for two queues.
fn rss_of(table: [u8; TABLE_SIZE]) -> Option<Rss>
    ensures below { ForSome result (λ r. EntriesBelow 2 r.size r.table) }
{
    if !fits_table(2, 4, table) {
        return None;
    }
    Some(rss_with(MICROSOFT_KEY, table))
}

fn rss_with(key: [u8; KEY_SIZE], table: [u8; TABLE_SIZE]) -> Rss
    requires fits { fits_table_by 2 4 table ≡ true }
    ensures below { EntriesBelow 2 result.size result.table }
{
    let types = ALL_TYPES;
    let size: u16 = 4;
    Rss {
        types,
        key,
        size,
        table,
    }
}

fn script_of(alloc: Global, script: Script) -> Result<List<Action>, AllocError> {
    let mut actions = List::new(alloc);
    match script {
        Script::Nothing => {}
        Script::Pause => {
            actions.push(Action {
                at: 2,
                deed: Deed::Quiesce,
            })?;
            actions.push(Action {
                at: 5,
                deed: Deed::Activate,
            })?;
        }
        Script::Reset => actions.push(Action {
            at: 3,
            deed: Deed::Reset,
        })?,
        Script::Swap => actions.push(Action {
            at: 10,
            deed: Deed::Rss {
                size: 4,
                table: entries_of(1),
            },
        })?,
    }
    Ok(actions)
}
