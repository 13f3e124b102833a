//! The makers of guests and plans for those who know the numbers at run time alone: a reader of configurations, a generator, a test.
//! Each tests all ranges that its type keeps, and hands the parts over unchanged. No call takes memory.

use crate::guest::GuestPlan;
use crate::guest_checks::{fits_guest, is_prefix};
use crate::guest_parts::GuestParts;
use crate::limits::MAX_COPIES;
use crate::plan::Plan;
use crate::plan_checks::{bytes_fit, descriptors_fit, have_ports, names_differ, records_fit};
use vmx_io::{List, Text};

impl GuestPlan {
    ghost use Rattle.std.specs.Prelude.{◌≡◌, is_some, IfSome};
    ghost use Rattle.vmx_model.specs.Makers.{parts_of, guest_fits};

    /// The guest of these parts, where each is in its range: name, address, VLAN (1 to 4,094), piece size (576 or, with transmit data
    /// rings, 640 to 4,096 bytes), BODY descriptors (0 to 2), setup, and a script of at most 256 actions in the order of their numbers, up
    /// to 262,144, each deed in its range and in its turn. `None` where one of them is not.
    pub fn of(parts: GuestParts) -> Option<GuestPlan>
        ensures fits { is_some result ≡ guest_fits parts }
        ensures parts { IfSome result (λ guest. parts_of guest ≡ parts) }
    {
        if !fits_guest(&parts) {
            return None;
        }
        let GuestParts {
            name,
            mac,
            sniffer,
            vlan,
            piece,
            bodies,
            setup,
            capture,
            script,
        } = parts;
        Some(GuestPlan {
            name,
            mac,
            sniffer,
            vlan,
            piece,
            bodies,
            setup,
            capture,
            script,
        })
    }
}

impl Plan {
    ghost use Rattle.std.specs.Prelude.{◌≡◌, is_some, IfSome};
    ghost use Rattle.vmx_model.specs.Makers.{plan_fits};

    /// The plan of these guests in the order of their ports, where it is in its ranges: `prefix` has 1 to 64 bytes, `poll_every` is 1 to
    /// 4,096, the guests are 1 to 16 with different names and addresses, and have together at most 65,536 descriptors, 262,144 records
    /// and 67,108,864 bytes of captures. `None` where it is not.
    pub fn of(prefix: Text, poll_every: u32, guests: List<GuestPlan>) -> Option<Plan>
        ensures fits { is_some result ≡ plan_fits prefix poll_every guests }
        ensures prefix { IfSome result (λ plan. plan.prefix ≡ prefix) }
        ensures poll_every { IfSome result (λ plan. plan.poll_every ≡ poll_every) }
        ensures guests { IfSome result (λ plan. plan.guests ≡ guests) }
    {
        if fits_plan(&prefix, poll_every, guests.as_slice()) {
            Some(Plan {
                prefix,
                poll_every,
                guests,
            })
        } else {
            None
        }
    }
}

ghost use Rattle.std.specs.Prelude.{◌≡◌};
ghost use Rattle.vmx_model.specs.Makers.{plan_fits};

fn fits_plan(prefix: &Text, poll_every: u32, guests: &[GuestPlan]) -> bool
    ensures fits { result ≡ plan_fits prefix.now poll_every guests.now }
{
    is_prefix(prefix.as_str().as_bytes())
        && (1 <= poll_every && poll_every <= MAX_COPIES)
        && names_differ(guests)
        && have_ports(guests)
        && descriptors_fit(guests)
        && records_fit(guests)
        && bytes_fit(guests)
}
