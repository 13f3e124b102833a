//! The key of the Toeplitz hash.

ghost use Rattle.std.specs.Prelude.{◌≡◌, ◌*◌, length};
ghost use Rattle.toml.specs.View.{view};
ghost use Rattle.vmx_shared_area.specs.declared.offsets.TheConstants.{KEY_SIZE};
ghost use Rattle.vmx_config_rows.specs.Reading.{Gives};
ghost use Rattle.vmx_config_lists.specs.Keys.{key_in, key_from, no_key, key_of};

use std::alloc::Global;
use toml::Value;
use vmx_config_rows::{ConfigFault, Spot, pair, wrong_form, wrong_kind};
use vmx_shared_area::offsets::KEY_SIZE;

/// A hash key of 80 hex digits of either case.
pub fn key(alloc: Global, spot: Spot, value: &Value) -> Result<[u8; KEY_SIZE], ConfigFault>
    ensures key { Gives (λ k. k) result (key_in spot (view value.now)) }
{
    let Some(text) = value.as_str() else {
        return Err(wrong_kind(alloc, spot, "rss.key"));
    };
    match bytes_of(text) {
        Some(key) => Ok(key),
        None => Err(wrong_form(alloc, spot, "rss.key")),
    }
}

fn bytes_of(text: &str) -> Option<[u8; KEY_SIZE]>
    ensures key { result ≡ key_of text.now }
{
    let digits = text.as_bytes();
    if digits.len() != 2 * KEY_SIZE {
        return None;
    }
    read_key(digits)
}

fn read_key(digits: &[u8]) -> Option<[u8; KEY_SIZE]>
    requires length { length digits.now ≡ 2 * KEY_SIZE }
    ensures key { result ≡ key_from digits.now no_key 0 40 }
{
    let mut key = [0; KEY_SIZE];
    for i in 0..KEY_SIZE {
        key[i] = pair(digits[2 * i], digits[2 * i + 1])?;
    }
    Some(key)
}
