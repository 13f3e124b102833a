//! An indirection table.

ghost use Rattle.std.specs.Prelude.{◌≡◌, ◌≤◌, length};
ghost use Rattle.toml.specs.View.{view, items_view};
ghost use Rattle.vmx_shared_area.specs.declared.offsets.TheConstants.{TABLE_SIZE};
ghost use Rattle.vmx_config_rows.specs.Reading.{Gives};
ghost use Rattle.vmx_config_lists.specs.Entries.{entry_in, entries_from, entry_list, entries_in, no_entries};

use std::alloc::Global;
use toml::Value;
use vmx_config_rows::{ConfigFault, Spot, out_of_range, wrong_kind};
use vmx_shared_area::offsets::TABLE_SIZE;

/// The entries of an indirection table: the first `size` are receive queues, all others are 0.
#[derive(Clone, Copy, Debug, Drop, PartialEq, Eq)]
pub struct Entries {
    /// The number of entries, 1 to 128.
    pub size: u16,
    pub table: [u8; TABLE_SIZE],
}

/// 1 to 128 numbers below the number of receive queues. `key` is the name of the key in faults.
pub fn table_entries(
    alloc: Global,
    spot: Spot,
    key: &str,
    queues: u8,
    value: &Value,
) -> Result<Entries, ConfigFault>
    ensures entries { Gives (λ t. t) result (entries_in spot key.now queues (view value.now)) }
{
    let Some(numbers) = value.as_array() else {
        return Err(wrong_kind(alloc, spot, key));
    };
    entries_of(alloc, spot, key, queues, numbers.as_slice())
}

#[tactic(auto, using(crate::proofs::Counts::count_of_view))]
fn entries_of(
    alloc: Global,
    spot: Spot,
    key: &str,
    queues: u8,
    numbers: &[Value],
) -> Result<Entries, ConfigFault>
    ensures entries { Gives (λ t. t) result (entry_list spot key.now queues (items_view numbers.now)) }
{
    if numbers.len() < 1 || numbers.len() > TABLE_SIZE {
        return Err(out_of_range(alloc, spot, key, numbers.len() as i64));
    }
    read_entries(alloc, spot, key, queues, numbers)
}

#[tactic(auto, unfolding(crate::specs::Entries::no_table))]
fn read_entries(
    alloc: Global,
    spot: Spot,
    key: &str,
    queues: u8,
    numbers: &[Value],
) -> Result<Entries, ConfigFault>
    requires few { length numbers.now ≤ TABLE_SIZE }
    ensures entries { Gives (λ t. t) result (entries_from spot key.now queues no_entries (items_view numbers.now)) }
{
    let mut table = [0; TABLE_SIZE];
    for (i, value) in numbers.iter().enumerate() {
        table[i] = entry_of(alloc, spot, key, queues, value)?;
    }
    Ok(Entries {
        size: numbers.len() as u16,
        table,
    })
}

fn entry_of(
    alloc: Global,
    spot: Spot,
    key: &str,
    queues: u8,
    value: &Value,
) -> Result<u8, ConfigFault>
    ensures entry { Gives (λ n. n) result (entry_in spot key.now queues (view value.now)) }
{
    let Some(found) = value.as_integer() else {
        return Err(wrong_kind(alloc, spot, key));
    };
    if found < 0 || found >= i64::from(queues) {
        return Err(out_of_range(alloc, spot, key, found));
    }
    Ok(found as u8)
}
