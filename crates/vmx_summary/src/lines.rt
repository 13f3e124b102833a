//! The two lines of the summary.
ghost use Rattle.std.specs.Prelude.{◌≡◌, length, IfOk};
ghost use Rattle.std.specs.String.{string_bytes};
ghost use Rattle.vmx_model.specs.Views.{RecordView};
ghost use Rattle.vmx_model.specs.Totals.{records_of};
ghost use Rattle.vmx_copies.specs.Table.{IsTable};
ghost use Rattle.vmx_summary.specs.Summary.{captured_line, first_counts, more_counts, last_counts, counts_by, rows_of_kind, tails_of, lines_by, summary as summary_of};

use crate::kinds::{Kind, count};
use crate::totals::{captured, tail};
use std::alloc::{AllocError, Global};
use vmx_copies::FrameCopy;
use vmx_model::Plan;

/// The summary of a plan's replay, out of the table of its copies. It takes time linear in the copies.
pub fn summary(alloc: Global, plan: &Plan, rows: &[FrameCopy]) -> Result<String, AllocError>
    ensures summary { (r : RecordView) → IsTable plan.now r rows.now → IfOk result (λ s. string_bytes s ≡ summary_of plan.now r) }
{
    let mut lines = first(
        alloc,
        plan.guests.len(),
        captured(plan),
        rows.len(),
        tail(plan),
    )?;
    lines.push_str(counts(alloc, rows)?.as_str())?;
    Ok(lines)
}

#[tactic(auto, unfolding(crate::specs::Summary::captured_line))]
fn first(
    alloc: Global,
    guests: usize,
    captured: u64,
    copies: usize,
    tail: u64,
) -> Result<String, AllocError>
    ensures line { IfOk result (λ s. string_bytes s ≡ captured_line guests captured copies tail) }
{
    format!(in alloc; "guests {guests} captured {captured} copies {copies} tail {tail}\n")
}

/// The line of what became of the copies.
fn counts(alloc: Global, rows: &[FrameCopy]) -> Result<String, AllocError>
    ensures counts { IfOk result (λ s. string_bytes s ≡ counts_by (λ k. rows_of_kind k rows.now)) }
{
    let mut line = came(
        alloc,
        count(rows, Kind::Up),
        count(rows, Kind::LinkFull),
        count(rows, Kind::Inactive),
        count(rows, Kind::Filtered),
    )?;
    line.push_str(lost(
        alloc,
        count(rows, Kind::NoBuffer),
        count(rows, Kind::Discarded),
        count(rows, Kind::NoPort),
    )?
    .as_str())?;
    line.push_str(unsent(
        alloc,
        count(rows, Kind::Down),
        count(rows, Kind::Short),
        count(rows, Kind::TooLong),
    )?
    .as_str())?;
    Ok(line)
}

#[tactic(auto, unfolding(crate::specs::Summary::first_counts))]
fn came(
    alloc: Global,
    up: usize,
    full: usize,
    inactive: usize,
    filtered: usize,
) -> Result<String, AllocError>
    ensures counts { IfOk result (λ s. string_bytes s ≡ first_counts up full inactive filtered) }
{
    format!(in alloc; "up {up} link-full {full} inactive {inactive} filtered {filtered}")
}

#[tactic(auto, unfolding(crate::specs::Summary::more_counts))]
fn lost(
    alloc: Global,
    no_buffer: usize,
    discarded: usize,
    no_port: usize,
) -> Result<String, AllocError>
    ensures counts { IfOk result (λ s. string_bytes s ≡ more_counts no_buffer discarded no_port) }
{
    format!(in alloc; " no-buffer {no_buffer} discarded {discarded} no-port {no_port}")
}

#[tactic(auto, unfolding(crate::specs::Summary::last_counts))]
fn unsent(alloc: Global, down: usize, short: usize, long: usize) -> Result<String, AllocError>
    ensures counts { IfOk result (λ s. string_bytes s ≡ last_counts down short long) }
{
    format!(in alloc; " down {down} short {short} too-long {long}\n")
}
