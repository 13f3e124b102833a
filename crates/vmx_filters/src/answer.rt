//! What the filter says of a frame.

/// Whether a frame is let in, or the rule that refuses it.
#[derive(Clone, Copy, Debug, PartialEq, Eq)]
pub enum Verdict {
    Yes,
    No { rule: Rule },
}

/// The rule that refuses a frame.
#[derive(Clone, Copy, Debug, PartialEq, Eq)]
pub enum Rule {
    /// A unicast frame to another address, or without the mode UCAST.
    Unicast,

    /// A multicast frame without ALL_MULTI, and without MCAST or an entry of the multicast table.
    Multicast,

    /// A broadcast frame without the mode BCAST.
    Broadcast,

    /// A tag with another VLAN than 0 that is not in the VLAN table.
    Vlan,
}
