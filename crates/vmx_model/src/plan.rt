//! The plan of a replay: the guests at the switch in the order of their ports. The type keeps the ranges of a configuration, that names
//! and addresses differ, and the totals of descriptors and captures; they are own to this project.

ghost use Rattle.std.specs.Prelude.{◌≡◌, ◌≤◌, ℕ, map, true};
ghost use Rattle.vmx_switch.specs.Ports.{are_distinct};
ghost use Rattle.vmx_model.specs.declared.limits.TheConstants.{MAX_COPIES, MAX_ALL_DESCRIPTORS, MAX_RECORDS, MAX_BYTES};
ghost use Rattle.vmx_model.specs.Ranges.{is_prefix};
ghost use Rattle.vmx_model.specs.Totals.{names_of, have_ports, descriptors_of, records_of, bytes_of};

use crate::guest::GuestPlan;
use vmx_io::{List, Text};

/// A replay. Where its numbers are known at run time alone, [`Plan::of`] makes it of its guests.
#[derive(Drop)]
pub struct Plan {
    /// What the names of the files begin with: 1 to 64 bytes of letters, digits, `_`, `.` and `/`, the first of them no `.` and no `/`.
    pub prefix: Text,
    /// After so many copies that reached a guest its driver polls, 1 to 4,096.
    pub poll_every: u32,
    /// 1 to 16 guests, in the order of their ports.
    pub guests: List<GuestPlan>,
    pub ghost prefix_fits: { is_prefix prefix ≡ true },
    pub ghost poll_low: { 1 ≤ poll_every },
    pub ghost poll_high: { poll_every ≤ MAX_COPIES },
    pub ghost names_differ: { are_distinct (names_of guests) ≡ true },
    pub ghost ports: { have_ports guests ≡ true },
    pub ghost descriptors: { descriptors_of guests ≤ MAX_ALL_DESCRIPTORS },
    pub ghost records: { records_of guests ≤ MAX_RECORDS },
    pub ghost bytes: { bytes_of guests ≤ MAX_BYTES },
}
