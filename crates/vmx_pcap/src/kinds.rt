//! How a capture writes its numbers and its fractions of a second.

/// The order of the bytes of a number.
#[derive(Clone, Copy, Debug, PartialEq, Eq)]
pub enum Endian {
    /// The lowest byte first.
    Little,
    /// The highest byte first.
    Big,
}

/// What a record's fraction of a second counts.
#[derive(Clone, Copy, Debug, PartialEq, Eq)]
pub enum TimeUnit {
    Micros,
    Nanos,
}

/// The byte order of a capture's numbers, and the unit of its fractions.
#[derive(Clone, Copy, Debug, PartialEq, Eq)]
pub struct Encoding {
    pub endian: Endian,
    pub unit: TimeUnit,
}
