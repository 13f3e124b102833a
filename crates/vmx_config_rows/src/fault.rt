//! Why bytes are not read as a configuration.

ghost use Rattle.std.specs.Prelude.{◌≡◌};
ghost use Rattle.vmx_config_rows.specs.declared.fault.ConfigFault.TheVariants.{Memory};

use crate::spot::Spot;
use std::alloc::{AllocError, AllocFailed};
use thiserror::Error;
use vmx_io::Text as KeyText;

/// Why bytes are not read as a configuration. The order in which faults are looked for is own to this project: the first one is
/// answered.
#[derive(Debug, Drop, Error)]
pub enum ConfigFault {
    /// The bytes are no UTF-8 or no TOML, as the crate `toml` reads it.
    #[error("no TOML")]
    Text,
    /// A key that the table does not have: the first one in the order of bytes.
    #[error("an unknown key")]
    Unknown {
        spot: Spot,
        key: KeyText,
    },
    /// A required key is not there.
    #[error("a missing key")]
    Missing {
        spot: Spot,
        key: KeyText,
    },
    /// The value, or an element of it, is of another TOML kind.
    #[error("a value of another kind")]
    Kind {
        spot: Spot,
        key: KeyText,
    },
    /// A text, also as an element, is none of the allowed.
    #[error("a text of another form")]
    Form {
        spot: Spot,
        key: KeyText,
    },
    /// A number, an element, or the count of an array is out of its range; `found` is the number.
    #[error("{found} is out of range")]
    Range {
        spot: Spot,
        key: KeyText,
        found: i64,
    },
    /// A deed that is not the guest's turn: quiesce or reset of a quiet guest, activate of an active one, a table for a guest without RSS.
    #[error("an action out of turn")]
    Script {
        spot: Spot,
    },
    /// An earlier guest has the guest's name or address.
    #[error("guest {guest} is there twice")]
    Twice {
        guest: u32,
        key: KeyText,
    },
    /// The rings of all guests have more than 65,536 descriptors; `found` is their number.
    #[error("{found} descriptors")]
    Total {
        found: u64,
    },
    /// No memory was found.
    #[error("no memory")]
    Memory,
}

impl<T: Drop> From<AllocFailed<T>> for ConfigFault {
    ghost from_gives = { λ _ e. e ≡ Memory };

    fn from(_failed: AllocFailed<T>) -> ConfigFault {
        ConfigFault::Memory
    }
}

impl From<AllocError> for ConfigFault {
    ghost from_gives = { λ _ e. e ≡ Memory };

    fn from(_error: AllocError) -> ConfigFault {
        ConfigFault::Memory
    }
}
