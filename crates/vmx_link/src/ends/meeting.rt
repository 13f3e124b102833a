//! How the two ends of a link meet, and what is known then.
ghost use Rattle.std.specs.Prelude.{◌≡◌, ◌+◌, ◌≤◌, length};
ghost use Rattle.std.specs.List.{AllByRecursion};
ghost use mathlib.Core.List.{IsPrefix};
ghost use Rattle.vmx_link.specs.Ends.{out_view, in_view, facts_view, facts_key, met_view};
ghost use Rattle.vmx_link.specs.Views.{IsFullLook};

use super::{LinkFacts, LinkIn, LinkOut};
use crate::steps::{Met, Together};

/// The facts of a link: what was pulled is a prefix of what was pushed, and each look that found the link full came behind
/// at least as many packets as it has entries. Both ends are even: each has heard as many notes as it gave, so that no note
/// is out.
pub fn meet(output: LinkOut, input: LinkIn) -> LinkFacts
    requires key { (out_view output).key ≡ (in_view input).key }
    requires output_even { (out_view output).notes_given ≡ (out_view output).notes_heard }
    requires input_even { (in_view input).notes_given ≡ (in_view input).notes_heard }
    ensures view { facts_view result ≡ met_view (out_view output) (in_view input) }
    ensures key { facts_key result ≡ (out_view output).key }
    ensures pulled { IsPrefix (in_view input).pulled (out_view output).pushed }
    ensures room { length (out_view output).pushed ≤ length (in_view input).pulled + (out_view output).capacity }
    ensures full { AllByRecursion (IsFullLook (out_view output).capacity) (out_view output).full }
    ensures output_heard { (out_view output).notes_heard ≡ (in_view input).notes_given }
    ensures input_heard { (in_view input).notes_heard ≡ (out_view output).notes_given }
{
    let LinkOut {
        table,
        mut seat,
        from,
        to,
        capacity: _,
        place: pushed,
        looks: full,
    } = output;
    let LinkIn {
        table: _,
        seat: other,
        from: _,
        to: _,
        capacity: _,
        place: pulled,
    } = input;
    table.shared.join_seat::<Together>(&mut seat, other);
    table.shared.load::<Met>(&mut seat, 0);
    LinkFacts {
        badge: seat.into_badge(),
        from,
        to,
        pushed,
        pulled,
        full,
    }
}

impl LinkFacts {
    ghost use Rattle.std.specs.Prelude.{◌≡◌, ◌≤◌, length};
    ghost use mathlib.Core.List.{IsPrefix};
    ghost use Rattle.vmx_link.specs.Ends.{facts_view};

    /// The port that pushed.
    pub fn from(&self) -> u32
        ensures from { result ≡ (facts_view self.now).from }
    {
        self.from
    }

    /// The port that pulled.
    pub fn to(&self) -> u32
        ensures to { result ≡ (facts_view self.now).to }
    {
        self.to
    }

    /// How many packets were pushed.
    pub fn pushed(&self) -> u64
        ensures pushed { result ≡ length (facts_view self.now).pushed }
    {
        self.pushed
    }

    /// How many packets were pulled: the first of those pushed.
    pub fn pulled(&self) -> u64
        ensures pulled { result ≡ length (facts_view self.now).pulled }
        ensures prefix { IsPrefix (facts_view self.now).pulled (facts_view self.now).pushed }
    {
        self.pulled
    }

    /// How many looks of the sender found the link full.
    pub fn full(&self) -> u64
        ensures full { result ≡ length (facts_view self.now).full }
    {
        self.full
    }
}
