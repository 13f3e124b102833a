//! The keys with numbers and truth values, whose rows `numbers` and `truths` have.

/// A key with a number.
#[derive(Clone, Copy, Debug, Drop, PartialEq, Eq)]
pub enum NumberKey {
    /// How many copies reach a guest before its driver polls.
    PollEvery,
    /// The VLAN of a guest's frames.
    Vlan,
    /// The MTU in bytes.
    Mtu,
    TxQueues,
    RxQueues,
    /// The descriptors of a transmit ring.
    TxRing,
    /// The descriptors of ring 1 of a receive queue.
    RxRing1,
    /// The descriptors of ring 2 of a receive queue.
    RxRing2,
    /// The BODY descriptors behind each HEAD of ring 1.
    Bodies,
    /// The bytes of a transmit buffer, with a transmit data ring or without.
    Piece { tx_data: bool },
    /// The captured number of an action, not below that of the action before.
    At { from: u32 },
}

/// A key with a truth value.
#[derive(Clone, Copy, Debug, Drop, PartialEq, Eq)]
pub enum TruthKey {
    Sniffer,
    Strip,
    TxData,
    RxData,
}
