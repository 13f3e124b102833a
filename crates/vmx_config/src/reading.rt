//! The whole of a configuration.

ghost use Rattle.std.specs.Prelude.{◌≤◌, [], length, IfOk};
ghost use Rattle.vmx_switch.specs.declared.answer.TheConstants.{MAX_PORTS};
ghost use Rattle.toml.specs.View.{view, table_view, items_view};
ghost use Rattle.vmx_config_rows.specs.Reading.{Gives};
ghost use Rattle.vmx_config.specs.Whole.{settings_at, top_at, guests_at, guest_list, guests_from, guest_in};
ghost use Rattle.vmx_config.specs.Ranges.{InRange};
ghost use Rattle.vmx_config.specs.Plans.{Reads};

use crate::checks::together;
use crate::config::Config;
use crate::guest::guest_settings;
use crate::parts::{GuestSettings, Settings};
use crate::plan::config_of;
use crate::script::all_tables;
use std::alloc::Global;
use toml::{Table, Value};
use vmx_config_rows::{
    ConfigFault, NumberKey, Spot, at, known_keys, missing, number, out_of_range, output, wrong_kind,
};
use vmx_io::List;
use vmx_switch::MAX_PORTS;

/// The top table.
const TOP: Spot = Spot {
    guest: None,
    action: None,
};

/// The keys of the top table.
const TOP_KEYS: [&str; 3] = ["output", "poll_every", "guest"];

/// The configuration of a text, or its first fault, in the order that [`settings`] has.
///
/// The plan has the settings' values as they stand; interrupts mask themselves at moderation level 0, no checksums are checked, and every
/// capture is still empty.
pub fn read(alloc: Global, bytes: &[u8]) -> Result<Config, ConfigFault>
    ensures config { Reads result (settings_at bytes.now) }
{
    let settings = settings(alloc, bytes)?;
    let config = config_of(alloc, &settings)?;
    Ok(config)
}

/// The settings of a configuration, or the first fault in this order.
///
/// `Text` exactly where the bytes are no UTF-8 or no TOML; then the top table, each guest in order with its `rss` table and its actions
/// (`Unknown`, `Missing`, `Kind`, `Form`, `Range`, `Script`); `Twice`, the first guest whose name, or else whose address, an earlier one
/// has; `Total`, more than 65,536 descriptors of all rings. `Memory` may come at any point.
#[tactic(auto, unfolding(crate::specs::Whole::settings_at))]
pub fn settings(alloc: Global, bytes: &[u8]) -> Result<Settings, ConfigFault>
    ensures settings { Gives (λ s. s) result (settings_at bytes.now) }
    ensures range { IfOk result (λ s. InRange s) }
{
    match toml::table_from_slice(alloc, bytes) {
        Ok(table) => top_settings(alloc, &table),
        Err(error) => {
            if error.is_memory() {
                Err(ConfigFault::Memory)
            } else {
                Err(ConfigFault::Text)
            }
        }
    }
}

#[tactic(auto, unfolding(crate::specs::Whole::top_at))]
fn top_settings(alloc: Global, table: &Table) -> Result<Settings, ConfigFault>
    ensures top { Gives (λ s. s) result (top_at (table_view table.now)) }
{
    known_keys(alloc, TOP, "", &TOP_KEYS, table)?;
    let output = output(alloc, TOP, table)?;
    let poll_every = number(alloc, TOP, NumberKey::PollEvery, table)?;
    let guests = guests(alloc, table)?;
    together(alloc, guests.as_slice())?;
    Ok(Settings {
        output,
        poll_every,
        guests,
    })
}

#[tactic(auto, unfolding(crate::specs::Whole::guests_at))]
fn guests(alloc: Global, table: &Table) -> Result<List<GuestSettings>, ConfigFault>
    ensures guests { Gives (λ g. g) result (guests_at (table_view table.now)) }
    ensures few { IfOk result (λ g. length g ≤ MAX_PORTS) }
{
    let Some(value) = at(table, "guest") else {
        return Err(missing(alloc, TOP, "guest"));
    };
    let Some(values) = value.as_array() else {
        return Err(wrong_kind(alloc, TOP, "guest"));
    };
    let guests = guests_of(alloc, values.as_slice())?;
    Ok(List::of(guests))
}

#[tactic(auto, using(vmx_config_lists::proofs::Counts::count_of_view))]
fn guests_of(alloc: Global, values: &[Value]) -> Result<Vec<GuestSettings>, ConfigFault>
    ensures guests { Gives (λ v. v.items) result (guest_list (items_view values.now)) }
    ensures few { IfOk result (λ v. length v.items ≤ MAX_PORTS) }
{
    if values.len() < 1 || values.len() > MAX_PORTS {
        return Err(out_of_range(alloc, TOP, "guest", values.len() as i64));
    }
    if !all_tables(values) {
        return Err(wrong_kind(alloc, TOP, "guest"));
    }
    read_guests(alloc, values)
}

fn read_guests(alloc: Global, values: &[Value]) -> Result<Vec<GuestSettings>, ConfigFault>
    requires few { length values.now ≤ MAX_PORTS }
    ensures guests { Gives (λ v. v.items) result (guests_from 0 [] (items_view values.now)) }
    ensures few { IfOk result (λ v. length v.items ≤ MAX_PORTS) }
{
    let mut guests = Vec::new(alloc);
    for (i, value) in values.iter().enumerate() {
        let guest = guest_of(alloc, i as u32, value)?;
        guests.push(guest)?;
    }
    Ok(guests)
}

fn guest_of(alloc: Global, index: u32, value: &Value) -> Result<GuestSettings, ConfigFault>
    ensures guest { Gives (λ g. g) result (guest_in index (view value.now)) }
{
    let Some(table) = value.as_table() else {
        return Err(wrong_kind(alloc, TOP, "guest"));
    };
    let spot = Spot {
        guest: Some(index),
        action: None,
    };
    guest_settings(alloc, spot, table)
}
