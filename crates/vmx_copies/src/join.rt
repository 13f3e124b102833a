//! The join of all journals.
ghost use Rattle.std.specs.Prelude.{◌≡◌, ◌<◌, ◌++◌, map, length, slice_get, slice_index_or, [], IfOk, Some};
ghost use Rattle.vmx_model.specs.Views.{GuestView, RecordView};
ghost use Rattle.vmx_model.specs.Account.{Accounts};
ghost use Rattle.vmx_model.specs.Totals.{wiring};
ghost use Rattle.vmx_copies.specs.Table.{IsTable};
ghost use Rattle.vmx_copies.specs.Join.{entries_in, AllInOrder, HaveArrivals, rows_from};

use crate::copy::FrameCopy;
use crate::sender::{Sender, rows_of};
use std::alloc::{AllocError, Global};
use vmx_buckets::by_port;
use vmx_io::List;
use vmx_model::{Entry, Fate, Plan};
use vmx_switch::Table;

/// The copies of a plan, with their fates by the journals of its guests, in port order.
pub fn copies(
    alloc: Global,
    plan: &Plan,
    journals: &[&[Entry]],
) -> Result<List<FrameCopy>, AllocError>
    ensures table { (r : RecordView) → Accounts plan.now r → map (λ (v : GuestView). v.entries) r.guests ≡ map (λ j. j.now) journals.now → IfOk result (λ rows. IsTable plan.now r rows) }
{
    let switch = switch_of(alloc, plan)?;
    let arrivals = all_arrivals(alloc, journals)?;
    all_rows(alloc, plan, journals, &switch, &arrivals)
}

/// The rows of all guests, one guest after the other.
fn all_rows(
    alloc: Global,
    plan: &Plan,
    journals: &[&[Entry]],
    switch: &Table,
    arrivals: &List<List<List<Fate>>>,
) -> Result<List<FrameCopy>, AllocError>
    requires switch { switch.now ≡ wiring plan.now.guests }
    ensures rows { AllInOrder plan.now.guests (map (λ j. j.now) journals.now) → IfOk result (λ rows. rows ≡ rows_from switch.now arrivals.now (map (λ j. j.now) journals.now) 0 plan.now.guests) }
{
    let mut rows = List::new(alloc);
    for port in 0..plan.guests.len() {
        let sender = Sender {
            switch,
            port: port as u32,
            guest: plan.guests.at(port),
            entries: journal_at(journals, port),
            arrivals,
        };
        rows_of(alloc, &sender, &mut rows)?;
    }
    Ok(rows)
}

/// The switch that the guests of a plan are at.
fn switch_of(alloc: Global, plan: &Plan) -> Result<Table, AllocError>
    ensures wiring { IfOk result (λ t. t ≡ wiring plan.now.guests) }
{
    let mut macs = Vec::with_capacity(alloc, plan.guests.len())?;
    let mut sniffers = Vec::with_capacity(alloc, plan.guests.len())?;
    for guest in plan.guests.as_slice() {
        macs.push(guest.mac)?;
        sniffers.push(guest.sniffer)?;
    }
    Ok(Table::new(macs.as_slice(), sniffers.as_slice()))
}

/// The journal of a port, none where there is no such guest.
fn journal_at<'a>(journals: &[&'a [Entry]], port: usize) -> &'a [Entry]
    ensures entries { result.now ≡ entries_in (map (λ j. j.now) journals.now) port }
{
    match journals.get(port) {
        Some(journal) => journal,
        None => &[],
    }
}

/// The fates of the packets that each port took, by the port that sent them.
fn all_arrivals(alloc: Global, journals: &[&[Entry]]) -> Result<List<List<List<Fate>>>, AllocError>
    ensures arrivals { IfOk result (λ came. HaveArrivals (map (λ j. j.now) journals.now) came) }
{
    let mut arrivals = List::new(alloc);
    for journal in journals {
        arrivals.push(by_port(alloc, journal, journals.len())?)?;
    }
    Ok(arrivals)
}
