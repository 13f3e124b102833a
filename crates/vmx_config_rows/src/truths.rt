//! The rows of truth values, and their reading.

ghost use Rattle.std.specs.Prelude.{◌≡◌};
ghost use Rattle.toml.specs.View.{view, table_view};
ghost use Rattle.vmx_config_rows.specs.Reading.{Gives};
ghost use Rattle.vmx_config_rows.specs.Table.{truth_key, truth_at};

use crate::fault::ConfigFault;
use crate::keys::at;
use crate::makers::wrong_kind;
use crate::rows::TruthKey;
use crate::spot::Spot;
use std::alloc::Global;
use toml::Table;

fn key_of(truth: TruthKey) -> &'static str
    ensures key { result.now ≡ truth_key truth }
{
    match truth {
        TruthKey::Sniffer => "sniffer",
        TruthKey::Strip => "strip",
        TruthKey::TxData => "tx_data",
        TruthKey::RxData => "rx_data",
    }
}

/// The truth value at a key, or false where it is not there. `Kind` where the value is no truth value.
pub fn truth(alloc: Global, spot: Spot, truth: TruthKey, table: &Table) -> Result<bool, ConfigFault>
    ensures truth { Gives (λ b. b) result (truth_at spot (truth_key truth) (table_view table.now)) }
{
    let key = key_of(truth);
    let Some(value) = at(table, key) else {
        return Ok(false);
    };
    match value.as_bool() {
        Some(found) => Ok(found),
        None => Err(wrong_kind(alloc, spot, key)),
    }
}
