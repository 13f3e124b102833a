//! The summary: one line of what was captured, one of what became of it.
ghost use Rattle.std.specs.Prelude.{◌≡◌, IfOk, count_by};
ghost use Rattle.std.specs.String.{string_bytes};
ghost use Rattle.vmx_pair_plan.specs.Plan.{IsPlain};
ghost use Rattle.vmx_pair_plan.specs.Lengths.{is_sent, is_short, is_too_long};
ghost use Rattle.vmx_pair_plan.specs.Summary.{first_line, second_line, summary};

use std::alloc::{AllocError, Global};
use vmx_frame::HEADER_LEN;
use vmx_model::{ABOVE_MTU, GuestPlan};
use vmx_pcap::Stamped;

/// The counts that stay 0 between two guests and a private queue.
const NO_COUNTS: &str =
    " link-full 0 inactive 0 filtered 0 no-buffer 0 discarded 0 no-port 0 down 0 short ";

/// The two lines for the capture of a guest without a script and with one transmit queue.
pub fn summary(alloc: Global, sender: &GuestPlan) -> Result<String, AllocError>
    requires plain { IsPlain sender.now }
    ensures summary { IfOk result (λ s. string_bytes s ≡ summary sender.now) }
{
    let records = sender.capture.records.as_slice();
    let (up, short, long) = counts(sender.setup.mtu, records);
    let mut lines = first(alloc, records.len(), sender.capture.tail)?;
    lines.push_str(second(alloc, up, short, long)?.as_str())?;
    Ok(lines)
}

/// How many frames are sent, too short and too long.
fn counts(mtu: u32, records: &[Stamped]) -> (usize, usize, usize)
    ensures up { result.0 ≡ count_by (is_sent mtu) records.now }
    ensures short { result.1 ≡ count_by is_short records.now }
    ensures long { result.2 ≡ count_by (is_too_long mtu) records.now }
{
    let longest = mtu as usize + ABOVE_MTU;
    let up = records
        .iter()
        .filter(|r| HEADER_LEN <= r.frame.len() && r.frame.len() <= longest)
        .count();
    let short = records
        .iter()
        .filter(|r| r.frame.len() < HEADER_LEN)
        .count();
    let long = records.iter().filter(|r| longest < r.frame.len()).count();
    (up, short, long)
}

#[tactic(auto, unfolding(vmx_pair_plan::specs::Summary::first_line))]
fn first(alloc: Global, captured: usize, tail: u32) -> Result<String, AllocError>
    ensures line { IfOk result (λ s. string_bytes s ≡ first_line captured tail) }
{
    format!(in alloc; "guests 2 captured {captured} copies {captured} tail {tail}\n")
}

#[tactic(auto, unfolding(vmx_pair_plan::specs::Summary::second_line, vmx_pair_plan::specs::Summary::no_counts))]
fn second(alloc: Global, up: usize, short: usize, long: usize) -> Result<String, AllocError>
    ensures line { IfOk result (λ s. string_bytes s ≡ second_line up short long) }
{
    format!(in alloc; "up {up}{NO_COUNTS}{short} too-long {long}\n")
}
