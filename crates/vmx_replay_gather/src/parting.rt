//! Guests are taken apart.
ghost use Rattle.std.specs.Prelude.{◌≡◌, true, length, map, None, IfOk};
ghost use Rattle.vmx_layout.specs.declared.register.TheConstants.{MAX_QUEUES};
ghost use Rattle.vmx_machine_state.specs.Statistics.{stats_on};
ghost use Rattle.vmx_driver_steps.specs.Progress.{is_over};
ghost use Rattle.vmx_replay_worlds.specs.Worlds.{ins_of};
ghost use Rattle.vmx_replay_chains.specs.Views.{guest_view};
ghost use Rattle.vmx_replay_start.specs.Linking.{outs_view, ins_view};
ghost use Rattle.vmx_replay_gather.specs.Records.{left_by, outs_in_order};
ghost use Rattle.vmx_replay_gather.specs.Ending.{HaveEnded};

use crate::ended::Ended;
use crate::meeting::{LinkEnds, append};
use std::alloc::{AllocError, Global};
use vmx_commands::Machine;
use vmx_device::Parts as DeviceParts;
use vmx_driver::DriverParts;
use vmx_ends::Fabric;
use vmx_io::List;
use vmx_layout::MAX_QUEUES;
use vmx_link::{LinkIn, LinkOut};
use vmx_machine_state::{QUEUES, nothing_counted};
use vmx_record::GuestRecordOf;
use vmx_regs::meet;
use vmx_replay_guests::Guest;
use vmx_shared_area::{Side, Stats};

/// What is left of all guests: their parts of the record, by port, and the ends of all links.
#[derive(Drop)]
pub(crate) struct Parts<F: Fabric> {
    pub(crate) guests: List<GuestRecordOf<F>>,
    pub(crate) ends: LinkEnds,
}

/// What is left of one guest.
#[derive(Drop)]
struct PartOf<F: Fabric> {
    guest: GuestRecordOf<F>,
    out: List<LinkOut>,
    input: List<LinkIn>,
}

/// Takes all guests apart, in port order.
pub(crate) fn part_all<'a, F: Fabric>(
    alloc: Global,
    ended: Ended<'a, F>,
) -> Result<Parts<F>, AllocError>
    ensures ended { HaveEnded ended.entry.plan ended.entry.guests }
    ensures guests { IfOk result (λ p. p.guests ≡ map left_by ended.entry.guests) }
    ensures out { IfOk result (λ p. outs_view p.ends.out ≡ outs_in_order ended.entry.guests) }
    ensures input { IfOk result (λ p. map ins_view p.ends.input ≡ ins_of ended.entry.guests) }
{
    let Ended {
        plan: _,
        guests: mut left,
    } = ended;
    let mut guests = List::new(alloc);
    let mut out = List::new(alloc);
    let mut input = List::new(alloc);
    while let Some(next) = left.pop_first() {
        let PartOf {
            guest,
            out: outs,
            input: inputs,
        } = part(next);
        guests.push(guest)?;
        append(&mut out, outs)?;
        input.push(inputs)?;
    }
    Ok(Parts {
        guests,
        ends: LinkEnds { out, input },
    })
}

/// Takes a guest apart whose driver is over: both sides of its registers meet.
fn part<'a, F: Fabric>(guest: Guest<'a, F>) -> PartOf<F>
    requires over { is_over guest.driver.driver.at ≡ true }
    requires none { guest.driver.driver.calls.asked ≡ None }
    requires key { guest.driver.driver.key ≡ guest.device.key }
    ensures guest { result.guest ≡ left_by (guest_view guest.entry) }
    ensures out { outs_view result.out ≡ guest.entry.device.out }
    ensures input { ins_view result.input ≡ guest.entry.device.input }
{
    let Guest { driver, device } = guest;
    let DriverParts {
        received,
        tx,
        rx,
        regs,
    } = driver.into_parts();
    let DeviceParts {
        journal,
        machine,
        regs: other,
        out,
        input,
    } = device.into_parts();
    let tx_stats = stats_of(&machine, Side::Tx);
    let rx_stats = stats_of(&machine, Side::Rx);
    let guest = GuestRecordOf {
        journal,
        received,
        tx,
        rx,
        regs: meet(regs, other),
        tx_stats,
        rx_stats,
    };
    PartOf { guest, out, input }
}

/// The statistics of the eight queues of a side.
fn stats_of<F: Fabric>(machine: &Machine<F>, side: Side) -> [Stats; QUEUES]
    requires eight { length (stats_on side machine.now) ≡ MAX_QUEUES }
    ensures stats { map (λ s. s.counts) result ≡ stats_on side machine.now }
{
    let mut all = [nothing_counted(); QUEUES];
    for queue in 0..MAX_QUEUES {
        all[queue as usize] = machine.stats(side, queue);
    }
    all
}
