//! Multicast addresses.

ghost use Rattle.std.specs.Prelude.{◌≡◌, []};
ghost use Rattle.toml.specs.View.{view, items_view};
ghost use Rattle.vmx_config_rows.specs.Reading.{Gives};
ghost use Rattle.vmx_config_lists.specs.Addresses.{group_in, is_there as is_there_of, groups_from, group_list, multicast_in};

use std::alloc::Global;
use toml::Value;
use vmx_config_rows::{ConfigFault, Spot, mac_of, out_of_range, wrong_form, wrong_kind};
use vmx_shared_area::offsets::{MAC_SIZE, MAX_MACS};

/// At most 256 group addresses, in order; of a repeated one the first is kept.
pub fn multicast(
    alloc: Global,
    spot: Spot,
    value: &Value,
) -> Result<Vec<[u8; MAC_SIZE]>, ConfigFault>
    ensures multicast { Gives (λ v. v.items) result (multicast_in spot (view value.now)) }
{
    let Some(texts) = value.as_array() else {
        return Err(wrong_kind(alloc, spot, "multicast"));
    };
    groups_of(alloc, spot, texts.as_slice())
}

#[tactic(auto, using(crate::proofs::Counts::count_of_view))]
fn groups_of(alloc: Global, spot: Spot, texts: &[Value]) -> Result<Vec<[u8; MAC_SIZE]>, ConfigFault>
    ensures groups { Gives (λ v. v.items) result (group_list spot (items_view texts.now)) }
{
    if texts.len() > MAX_MACS {
        return Err(out_of_range(alloc, spot, "multicast", texts.len() as i64));
    }
    read_groups(alloc, spot, texts)
}

fn read_groups(
    alloc: Global,
    spot: Spot,
    texts: &[Value],
) -> Result<Vec<[u8; MAC_SIZE]>, ConfigFault>
    ensures groups { Gives (λ v. v.items) result (groups_from spot [] (items_view texts.now)) }
{
    let mut groups = Vec::new(alloc);
    for value in texts {
        let group = group_of(alloc, spot, value)?;
        if !is_there(&groups, &group) {
            groups.push(group)?;
        }
    }
    Ok(groups)
}

fn group_of(alloc: Global, spot: Spot, value: &Value) -> Result<[u8; MAC_SIZE], ConfigFault>
    ensures group { Gives (λ m. m) result (group_in spot (view value.now)) }
{
    let Some(text) = value.as_str() else {
        return Err(wrong_kind(alloc, spot, "multicast"));
    };
    let Some(mac) = mac_of(text) else {
        return Err(wrong_form(alloc, spot, "multicast"));
    };
    if mac[0] % 2 == 0 {
        return Err(wrong_form(alloc, spot, "multicast"));
    }
    Ok(mac)
}

fn is_there(groups: &[[u8; MAC_SIZE]], mac: &[u8; MAC_SIZE]) -> bool
    ensures there { result ≡ is_there_of groups.now mac.now }
{
    groups.iter().any(|group| group == mac)
}
