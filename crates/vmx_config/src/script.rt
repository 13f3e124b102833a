//! A guest's script: its actions in order, each whole, and after an action's keys whether it is in turn.

ghost use Rattle.std.specs.Prelude.{◌≡◌, ◌≤◌, [], false, length};
ghost use Rattle.vmx_model.specs.declared.limits.TheConstants.{MAX_ACTIONS};
ghost use Rattle.toml.specs.View.{view, table_view, items_view};
ghost use Rattle.vmx_config_rows.specs.Reading.{Gives, known_only};
ghost use Rattle.vmx_config.specs.Script.{kind_of, kind_at, action_keys, needed as needed_of, deed_at, action_at, quiet_after as quiet_after_of, is_in_turn as is_in_turn_of, actions_from, script_list, all_tables as all_tables_of, script_at};

use crate::parts::{ActionSettings, DeedSettings};
use std::alloc::Global;
use toml::{Table, Value};
use vmx_config_lists::{mode, multicast, table_entries, vlans};
use vmx_config_rows::{
    ConfigFault, NumberKey, Spot, at, known_keys, missing, number, out_of_range, wrong_form,
    wrong_kind,
};
use vmx_io::List;
use vmx_model::MAX_ACTIONS;

/// The deeds by name.
#[derive(Clone, Copy, Debug, Drop, PartialEq, Eq)]
pub enum DeedKind {
    Quiesce,
    Activate,
    Reset,
    Mode,
    Multicast,
    Vlans,
    Rss,
}

/// The actions at the key `script` of a guest with so many receive queues, with RSS or without; none where the key is not there.
#[tactic(auto, unfolding(crate::specs::Script::script_at))]
pub fn script(
    alloc: Global,
    spot: Spot,
    queues: u8,
    rss: bool,
    table: &Table,
) -> Result<List<ActionSettings>, ConfigFault>
    ensures script { Gives (λ s. s) result (script_at spot queues rss (table_view table.now)) }
{
    let Some(value) = at(table, "script") else {
        return Ok(List::new(alloc));
    };
    let Some(values) = value.as_array() else {
        return Err(wrong_kind(alloc, spot, "script"));
    };
    let actions = actions_of(alloc, spot, queues, rss, values.as_slice())?;
    Ok(List::of(actions))
}

#[tactic(auto, using(vmx_config_lists::proofs::Counts::count_of_view))]
fn actions_of(
    alloc: Global,
    spot: Spot,
    queues: u8,
    rss: bool,
    values: &[Value],
) -> Result<Vec<ActionSettings>, ConfigFault>
    ensures actions { Gives (λ v. v.items) result (script_list spot queues rss (items_view values.now)) }
{
    if values.len() > MAX_ACTIONS {
        return Err(out_of_range(alloc, spot, "script", values.len() as i64));
    }
    if !all_tables(values) {
        return Err(wrong_kind(alloc, spot, "script"));
    }
    read_actions(alloc, spot, queues, rss, values)
}

/// Whether each element is a table.
pub fn all_tables(values: &[Value]) -> bool
    ensures tables { result ≡ all_tables_of (items_view values.now) }
{
    for value in values {
        if value.as_table().is_none() {
            return false;
        }
    }
    true
}

fn read_actions(
    alloc: Global,
    spot: Spot,
    queues: u8,
    rss: bool,
    values: &[Value],
) -> Result<Vec<ActionSettings>, ConfigFault>
    requires few { length values.now ≤ MAX_ACTIONS }
    ensures actions { Gives (λ v. v.items) result (actions_from spot queues rss false 0 0 [] (items_view values.now)) }
{
    let mut actions = Vec::new(alloc);
    let mut quiet = false;
    let mut from = 0;
    for (i, value) in values.iter().enumerate() {
        let here = Spot {
            guest: spot.guest,
            action: Some(i as u32),
        };
        let action = action_of(alloc, here, queues, from, value)?;
        if !is_in_turn(quiet, rss, &action.deed) {
            return Err(ConfigFault::Script { spot: here });
        }
        quiet = quiet_after(quiet, &action.deed);
        from = action.at;
        actions.push(action)?;
    }
    Ok(actions)
}

/// An action: its deed, its unknown keys, its number, and what the deed needs.
#[tactic(auto, unfolding(crate::specs::Script::action_at))]
fn action_of(
    alloc: Global,
    spot: Spot,
    queues: u8,
    from: u32,
    value: &Value,
) -> Result<ActionSettings, ConfigFault>
    ensures action { Gives (λ a. a) result (action_at spot queues from (view value.now)) }
{
    let Some(table) = value.as_table() else {
        return Err(wrong_kind(alloc, spot, "script"));
    };
    let kind = kind(alloc, spot, table)?;
    known_action(alloc, spot, kind, table)?;
    let at = number(alloc, spot, NumberKey::At { from }, table)?;
    let deed = deed(alloc, spot, queues, kind, table)?;
    Ok(ActionSettings { at, deed })
}

#[tactic(auto, unfolding(crate::specs::Script::kind_at))]
fn kind(alloc: Global, spot: Spot, table: &Table) -> Result<DeedKind, ConfigFault>
    ensures kind { Gives (λ k. k) result (kind_at spot (table_view table.now)) }
{
    let Some(value) = at(table, "do") else {
        return Err(missing(alloc, spot, "do"));
    };
    let Some(word) = value.as_str() else {
        return Err(wrong_kind(alloc, spot, "do"));
    };
    match named(word) {
        Some(kind) => Ok(kind),
        None => Err(wrong_form(alloc, spot, "do")),
    }
}

fn named(word: &str) -> Option<DeedKind>
    ensures kind { result ≡ kind_of word.now }
{
    match word {
        "quiesce" => Some(DeedKind::Quiesce),
        "activate" => Some(DeedKind::Activate),
        "reset" => Some(DeedKind::Reset),
        "mode" => Some(DeedKind::Mode),
        "multicast" => Some(DeedKind::Multicast),
        "vlans" => Some(DeedKind::Vlans),
        "rss" => Some(DeedKind::Rss),
        _ => None,
    }
}

fn known_action(alloc: Global, spot: Spot, kind: DeedKind, table: &Table) -> Result<(), ConfigFault>
    ensures known { Gives (λ _. tt) result (known_only spot [] (action_keys kind) (table_view table.now)) }
{
    match kind {
        DeedKind::Quiesce | DeedKind::Activate | DeedKind::Reset => {
            known_keys(alloc, spot, "", &["at", "do"], table)
        }
        DeedKind::Mode => known_keys(alloc, spot, "", &["at", "do", "mode"], table),
        DeedKind::Multicast => known_keys(alloc, spot, "", &["at", "do", "multicast"], table),
        DeedKind::Vlans => known_keys(alloc, spot, "", &["at", "do", "vlans"], table),
        DeedKind::Rss => known_keys(alloc, spot, "", &["at", "do", "table"], table),
    }
}

fn deed(
    alloc: Global,
    spot: Spot,
    queues: u8,
    kind: DeedKind,
    table: &Table,
) -> Result<DeedSettings, ConfigFault>
    ensures deed { Gives (λ d. d) result (deed_at spot queues kind (table_view table.now)) }
{
    match kind {
        DeedKind::Quiesce => Ok(DeedSettings::Quiesce),
        DeedKind::Activate => Ok(DeedSettings::Activate),
        DeedKind::Reset => Ok(DeedSettings::Reset),
        DeedKind::Mode => {
            let value = needed(alloc, spot, "mode", table)?;
            let mode = mode(alloc, spot, value)?;
            Ok(DeedSettings::Mode { mode })
        }
        DeedKind::Multicast => {
            let value = needed(alloc, spot, "multicast", table)?;
            let groups = multicast(alloc, spot, value)?;
            Ok(DeedSettings::Multicast {
                groups: List::of(groups),
            })
        }
        DeedKind::Vlans => {
            let value = needed(alloc, spot, "vlans", table)?;
            let table = vlans(alloc, spot, value)?;
            Ok(DeedSettings::Vlans { table })
        }
        DeedKind::Rss => {
            let value = needed(alloc, spot, "table", table)?;
            let entries = table_entries(alloc, spot, "table", queues, value)?;
            Ok(DeedSettings::Rss { entries })
        }
    }
}

/// The value at a required key.
fn needed<'a>(
    alloc: Global,
    spot: Spot,
    key: &str,
    table: &'a Table,
) -> Result<&'a Value, ConfigFault>
    ensures value { Gives (λ v. view v.now) result (needed_of spot key.now (table_view table.now)) }
{
    match at(table, key) {
        Some(value) => Ok(value),
        None => Err(missing(alloc, spot, key)),
    }
}

/// Whether a guest that is quiet, or is not, with RSS or without, can do the deed.
fn is_in_turn(quiet: bool, rss: bool, deed: &DeedSettings) -> bool
    ensures in_turn { result ≡ is_in_turn_of quiet rss deed.now }
{
    match deed {
        DeedSettings::Activate => quiet,
        DeedSettings::Quiesce | DeedSettings::Reset => !quiet,
        DeedSettings::Rss { .. } => rss,
        DeedSettings::Mode { .. } | DeedSettings::Multicast { .. } | DeedSettings::Vlans { .. } => {
            true
        }
    }
}

/// Whether the guest is quiet after the deed.
fn quiet_after(quiet: bool, deed: &DeedSettings) -> bool
    ensures quiet { result ≡ quiet_after_of quiet deed.now }
{
    match deed {
        DeedSettings::Quiesce => true,
        DeedSettings::Activate | DeedSettings::Reset => false,
        DeedSettings::Mode { .. }
        | DeedSettings::Multicast { .. }
        | DeedSettings::Vlans { .. }
        | DeedSettings::Rss { .. } => quiet,
    }
}
