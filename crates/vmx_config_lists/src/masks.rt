//! Arrays of words that name bits.

ghost use Rattle.std.specs.Prelude.{◌≡◌};
ghost use Rattle.toml.specs.View.{view, items_view};
ghost use Rattle.vmx_config_rows.specs.Reading.{Gives};
ghost use Rattle.vmx_config_lists.specs.Masks.{mode_bit, mode_words, mode_list, mode_in, type_bit, type_words, type_list, types_in};

use std::alloc::Global;
use toml::Value;
use vmx_config_rows::{ConfigFault, Spot, out_of_range, wrong_form, wrong_kind};
use vmx_rss::{TYPE_IPV4, TYPE_IPV6, TYPE_TCP_IPV4, TYPE_TCP_IPV6};
use vmx_shared_area::offsets::{
    RX_MODE_ALL_MULTI, RX_MODE_BCAST, RX_MODE_MCAST, RX_MODE_PROMISC, RX_MODE_UCAST,
};

/// The words of a receive mode.
const MODES: usize = 5;

/// The words of hash types.
const TYPES: usize = 4;

/// A receive mode: at most 5 of `ucast`, `mcast`, `bcast`, `allmulti`, `promisc`. A repeated one counts once.
pub fn mode(alloc: Global, spot: Spot, value: &Value) -> Result<u32, ConfigFault>
    ensures mode { Gives (λ n. n) result (mode_in spot (view value.now)) }
{
    let Some(words) = value.as_array() else {
        return Err(wrong_kind(alloc, spot, "mode"));
    };
    mode_of(alloc, spot, words.as_slice())
}

#[tactic(auto, using(crate::proofs::Counts::count_of_view))]
fn mode_of(alloc: Global, spot: Spot, words: &[Value]) -> Result<u32, ConfigFault>
    ensures mode { Gives (λ n. n) result (mode_list spot (items_view words.now)) }
{
    if words.len() > MODES {
        return Err(out_of_range(alloc, spot, "mode", words.len() as i64));
    }
    mode_bits(alloc, spot, words)
}

fn mode_bits(alloc: Global, spot: Spot, words: &[Value]) -> Result<u32, ConfigFault>
    ensures mode { Gives (λ n. n) result (mode_words spot 0 (items_view words.now)) }
{
    let mut mode = 0;
    for value in words {
        let Some(word) = value.as_str() else {
            return Err(wrong_kind(alloc, spot, "mode"));
        };
        let Some(bit) = mode_bit_of(word) else {
            return Err(wrong_form(alloc, spot, "mode"));
        };
        mode |= bit;
    }
    Ok(mode)
}

fn mode_bit_of(word: &str) -> Option<u32>
    ensures bit { result ≡ mode_bit word.now }
{
    match word {
        "ucast" => Some(RX_MODE_UCAST),
        "mcast" => Some(RX_MODE_MCAST),
        "bcast" => Some(RX_MODE_BCAST),
        "allmulti" => Some(RX_MODE_ALL_MULTI),
        "promisc" => Some(RX_MODE_PROMISC),
        _ => None,
    }
}

/// The hash types of an RSS setting: at most 4 of `ipv4` 1, `tcp4` 2, `ipv6` 4, `tcp6` 8. A repeated one counts once.
pub fn types(alloc: Global, spot: Spot, value: &Value) -> Result<u16, ConfigFault>
    ensures types { Gives (λ n. n) result (types_in spot (view value.now)) }
{
    let Some(words) = value.as_array() else {
        return Err(wrong_kind(alloc, spot, "rss.types"));
    };
    types_of(alloc, spot, words.as_slice())
}

#[tactic(auto, using(crate::proofs::Counts::count_of_view))]
fn types_of(alloc: Global, spot: Spot, words: &[Value]) -> Result<u16, ConfigFault>
    ensures types { Gives (λ n. n) result (type_list spot (items_view words.now)) }
{
    if words.len() > TYPES {
        return Err(out_of_range(alloc, spot, "rss.types", words.len() as i64));
    }
    type_bits(alloc, spot, words)
}

fn type_bits(alloc: Global, spot: Spot, words: &[Value]) -> Result<u16, ConfigFault>
    ensures types { Gives (λ n. n) result (type_words spot 0 (items_view words.now)) }
{
    let mut types = 0;
    for value in words {
        let Some(word) = value.as_str() else {
            return Err(wrong_kind(alloc, spot, "rss.types"));
        };
        let Some(bit) = type_bit_of(word) else {
            return Err(wrong_form(alloc, spot, "rss.types"));
        };
        types |= bit;
    }
    Ok(types)
}

fn type_bit_of(word: &str) -> Option<u16>
    ensures bit { result ≡ type_bit word.now }
{
    match word {
        "ipv4" => Some(TYPE_IPV4),
        "tcp4" => Some(TYPE_TCP_IPV4),
        "ipv6" => Some(TYPE_IPV6),
        "tcp6" => Some(TYPE_TCP_IPV6),
        _ => None,
    }
}
