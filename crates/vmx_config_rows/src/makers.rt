//! The faults of a key. Each keeps a copy of the key, or is `Memory` where none could be made.

ghost use Rattle.std.specs.Prelude.{◌≡◌, ◌++◌};
ghost use Rattle.vmx_config_rows.specs.declared.fault.ConfigFault.TheVariants.{Unknown, Missing, Kind, Form, Range};
ghost use Rattle.vmx_config_rows.specs.Reading.{IsFault};

use crate::fault::ConfigFault;
use crate::spot::Spot;
use std::alloc::Global;
use vmx_io::Text;

/// A key that the table does not have, behind the name of the table and a point, or behind nothing.
pub fn unknown(alloc: Global, spot: Spot, prefix: &str, key: &str) -> ConfigFault
    ensures fault { IsFault result (Unknown spot (prefix.now ++ key.now)) }
{
    match format!(in alloc; "{prefix}{key}") {
        Ok(whole) => ConfigFault::Unknown {
            spot,
            key: Text::of(whole),
        },
        Err(_) => ConfigFault::Memory,
    }
}

/// A required key that is not there.
pub fn missing(alloc: Global, spot: Spot, key: &str) -> ConfigFault
    ensures fault { IsFault result (Missing spot key.now) }
{
    match Text::from_str(alloc, key) {
        Ok(key) => ConfigFault::Missing { spot, key },
        Err(_) => ConfigFault::Memory,
    }
}

/// A value, or an element, of another TOML kind.
pub fn wrong_kind(alloc: Global, spot: Spot, key: &str) -> ConfigFault
    ensures fault { IsFault result (Kind spot key.now) }
{
    match Text::from_str(alloc, key) {
        Ok(key) => ConfigFault::Kind { spot, key },
        Err(_) => ConfigFault::Memory,
    }
}

/// A text that is none of the allowed.
pub fn wrong_form(alloc: Global, spot: Spot, key: &str) -> ConfigFault
    ensures fault { IsFault result (Form spot key.now) }
{
    match Text::from_str(alloc, key) {
        Ok(key) => ConfigFault::Form { spot, key },
        Err(_) => ConfigFault::Memory,
    }
}

/// A number, or a count, out of its range.
pub fn out_of_range(alloc: Global, spot: Spot, key: &str, found: i64) -> ConfigFault
    ensures fault { IsFault result (Range spot key.now found) }
{
    match Text::from_str(alloc, key) {
        Ok(key) => ConfigFault::Range { spot, key, found },
        Err(_) => ConfigFault::Memory,
    }
}
