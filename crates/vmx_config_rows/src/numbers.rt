//! The rows of numbers, and their reading.

ghost use Rattle.std.specs.Prelude.{◌≡◌, ◌≤◌};
ghost use Rattle.toml.specs.Data.{get_member};
ghost use Rattle.toml.specs.View.{view, table_view};
ghost use Rattle.vmx_config_rows.specs.Reading.{Gives};
ghost use Rattle.vmx_config_rows.specs.Table.{row, number_row, number_at, optional_at, number_in};

use crate::fault::ConfigFault;
use crate::keys::at;
use crate::makers::{missing, out_of_range, wrong_kind};
use crate::rows::NumberKey;
use crate::spot::Spot;
use std::alloc::Global;
use toml::{Table, Value};

/// A key, the least and the greatest number that it can have, the step of its numbers, and the number where it is not there.
#[derive(Clone, Copy, Debug, Drop)]
struct NumberRow {
    key: &'static str,
    least: u32,
    most: u32,
    step: u32,
    default: Option<u32>,
}

/// A row whose numbers need no step.
fn plain(key: &'static str, least: u32, most: u32, default: Option<u32>) -> NumberRow
    ensures row { row result.key.now result.least result.most result.step result.default ≡ row key.entry.now least most 1 default }
    ensures step { 1 ≤ result.step }
{
    NumberRow {
        key,
        least,
        most,
        step: 1,
        default,
    }
}

/// A row of ring sizes, which are multiples of 32.
fn ring(key: &'static str, default: u32) -> NumberRow
    ensures row { row result.key.now result.least result.most result.step result.default ≡ row key.entry.now 32 4096 32 (Some default) }
    ensures step { 1 ≤ result.step }
{
    NumberRow {
        key,
        least: 32,
        most: 4_096,
        step: 32,
        default: Some(default),
    }
}

fn row_of(number: NumberKey) -> NumberRow
    ensures row { row result.key.now result.least result.most result.step result.default ≡ number_row number }
    ensures step { 1 ≤ result.step }
{
    match number {
        NumberKey::PollEvery => plain("poll_every", 1, 4_096, Some(1)),
        NumberKey::Vlan => plain("vlan", 1, 4_094, None),
        NumberKey::Mtu => plain("mtu", 60, 9_000, Some(1_500)),
        NumberKey::TxQueues => plain("tx_queues", 1, 8, Some(1)),
        NumberKey::RxQueues => plain("rx_queues", 1, 8, Some(1)),
        NumberKey::TxRing => ring("tx_ring", 512),
        NumberKey::RxRing1 => ring("rx_ring1", 256),
        NumberKey::RxRing2 => ring("rx_ring2", 256),
        NumberKey::Bodies => plain("bodies", 0, 2, Some(0)),
        NumberKey::Piece { tx_data: false } => plain("piece", 576, 4_096, Some(4_096)),
        NumberKey::Piece { tx_data: true } => plain("piece", 640, 4_096, Some(4_096)),
        NumberKey::At { from } => plain("at", from, 262_144, None),
    }
}

/// The number at a key, or its default. `Missing` where it has none, `Kind` where the value is no integer, `Range` where it is out of
/// its range.
pub fn number(alloc: Global, spot: Spot, key: NumberKey, table: &Table) -> Result<u32, ConfigFault>
    ensures number { Gives (λ n. n) result (number_at spot (number_row key) (table_view table.now)) }
{
    let row = row_of(key);
    match at(table, row.key) {
        Some(value) => ranged(alloc, spot, &row, value),
        None => default_of(alloc, spot, &row),
    }
}

/// The number at a key, or none where it is not there. Faults as those of `number`, without `Missing`.
pub fn optional_number(
    alloc: Global,
    spot: Spot,
    key: NumberKey,
    table: &Table,
) -> Result<Option<u32>, ConfigFault>
    ensures number { Gives (λ n. n) result (optional_at spot (number_row key) (table_view table.now)) }
{
    let row = row_of(key);
    let Some(value) = at(table, row.key) else {
        return Ok(None);
    };
    let found = ranged(alloc, spot, &row, value)?;
    Ok(Some(found))
}

fn default_of(alloc: Global, spot: Spot, wanted: &NumberRow) -> Result<u32, ConfigFault>
    ensures number { Gives (λ n. n) result (number_in spot (row wanted.now.key.now wanted.now.least wanted.now.most wanted.now.step wanted.now.default) None) }
{
    match wanted.default {
        Some(default) => Ok(default),
        None => Err(missing(alloc, spot, wanted.key)),
    }
}

fn ranged(alloc: Global, spot: Spot, wanted: &NumberRow, value: &Value) -> Result<u32, ConfigFault>
    requires step { 1 ≤ wanted.now.step }
    ensures number { Gives (λ n. n) result (number_in spot (row wanted.now.key.now wanted.now.least wanted.now.most wanted.now.step wanted.now.default) (Some (view value.now))) }
{
    let Some(found) = value.as_integer() else {
        return Err(wrong_kind(alloc, spot, wanted.key));
    };
    if found < i64::from(wanted.least) || found > i64::from(wanted.most) {
        return Err(out_of_range(alloc, spot, wanted.key, found));
    }
    let number = found as u32;
    if number % wanted.step != 0 {
        return Err(out_of_range(alloc, spot, wanted.key, found));
    }
    Ok(number)
}
