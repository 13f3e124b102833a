//! The keys of a table.

ghost use Rattle.std.specs.Prelude.{◌≡◌, option_map, map, find, not, string_bytes};
ghost use Rattle.std.specs.BTreeMap.{keys};
ghost use Rattle.toml.specs.Data.{get_member};
ghost use Rattle.toml.specs.View.{view, table_view};
ghost use Rattle.vmx_config_rows.specs.Reading.{Gives, known_only, is_known as is_known_of};

use crate::fault::ConfigFault;
use crate::makers::unknown;
use crate::spot::Spot;
use std::alloc::Global;
use toml::{Table, Value};

/// The value at a key.
pub fn at<'a>(table: &'a Table, key: &str) -> Option<&'a Value>
    ensures value { option_map (λ v. view v.now) result ≡ get_member key.now (table_view table.now) }
{
    table.get(key)
}

/// Answers `Unknown` for the first key, in the order of bytes, that is none of the known ones. The fault has it behind `prefix`, which is
/// `rss.` for the keys of a guest's `rss` table and empty for all others.
pub fn known_keys(
    alloc: Global,
    spot: Spot,
    prefix: &str,
    known: &[&str],
    table: &Table,
) -> Result<(), ConfigFault>
    ensures known { Gives (λ _. tt) result (known_only spot prefix.now (map (λ k. k.now) known.now) (table_view table.now)) }
{
    match first_unknown(known, table) {
        None => Ok(()),
        Some(key) => Err(unknown(alloc, spot, prefix, key.as_str())),
    }
}

fn first_unknown<'a>(known: &[&str], table: &'a Table) -> Option<&'a String>
    ensures first { option_map (λ k. k.now) result ≡ find (λ k. not (is_known_of (map (λ n. n.now) known.now) (string_bytes k))) (keys table.now) }
{
    table.keys().find(|key| !is_known(known, key.as_str()))
}

fn is_known(known: &[&str], key: &str) -> bool
    ensures known { result ≡ is_known_of (map (λ k. k.now) known.now) key.now }
{
    for name in known {
        if *name == key {
            return true;
        }
    }
    false
}
