//! Why two words are no descriptor or completion. A bit without a name is found before a wrong type.

use std::fmt;

/// Why two words are no descriptor or completion.
#[derive(Clone, Copy, Debug, PartialEq, Eq)]
pub enum FieldFault {
    /// A bit without a name is set: `part` is the lowest part of 32 bits, 0 to 3, that has one.
    Reserved { part: u32 },
    /// No bit without a name is set, and the type of a completion is `found`, not the struct's own.
    Kind { found: u32 },
}

impl fmt::Display for FieldFault {
    fn fmt<W: fmt::Write>(&self, f: &mut fmt::Formatter<W>) -> fmt::Result {
        match self {
            FieldFault::Reserved { part } => write!(
                f,
                "a bit without a name is set in part {part}"
            ),
            FieldFault::Kind { found } => write!(f, "the type is {found}"),
        }
    }
}
