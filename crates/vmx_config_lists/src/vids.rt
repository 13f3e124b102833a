//! VLANs by their numbers (VIDs, IEEE 802.1Q).

ghost use Rattle.std.specs.Prelude.{◌≡◌, ◌<◌, IfOk};
ghost use Rattle.toml.specs.View.{view, items_view};
ghost use Rattle.vmx_config_rows.specs.Reading.{Gives};
ghost use Rattle.vmx_config_lists.specs.Vlans.{vid_in, with_vid, vlans_from, vlan_list, vlans_in, no_vlans};

use std::alloc::Global;
use toml::Value;
use vmx_config_rows::{ConfigFault, Spot, out_of_range, wrong_kind};
use vmx_shared_area::offsets::VLAN_WORDS;

/// The most VIDs of an array: as many as there are.
const VIDS: usize = 4_096;

/// The greatest VID.
const MAX_VID: i64 = 4_095;

/// A table of at most 4,096 VIDs, each 0 to 4,095: VID v is bit v mod 32 of word v div 32. A repeated one counts once.
pub fn vlans(alloc: Global, spot: Spot, value: &Value) -> Result<[u32; VLAN_WORDS], ConfigFault>
    ensures vlans { Gives (λ t. t) result (vlans_in spot (view value.now)) }
{
    let Some(numbers) = value.as_array() else {
        return Err(wrong_kind(alloc, spot, "vlans"));
    };
    vlans_of(alloc, spot, numbers.as_slice())
}

#[tactic(auto, using(crate::proofs::Counts::count_of_view))]
fn vlans_of(alloc: Global, spot: Spot, numbers: &[Value]) -> Result<[u32; VLAN_WORDS], ConfigFault>
    ensures vlans { Gives (λ t. t) result (vlan_list spot (items_view numbers.now)) }
{
    if numbers.len() > VIDS {
        return Err(out_of_range(alloc, spot, "vlans", numbers.len() as i64));
    }
    read_vlans(alloc, spot, numbers)
}

#[tactic(auto, unfolding(crate::specs::Vlans::no_vlans))]
fn read_vlans(
    alloc: Global,
    spot: Spot,
    numbers: &[Value],
) -> Result<[u32; VLAN_WORDS], ConfigFault>
    ensures vlans { Gives (λ t. t) result (vlans_from spot no_vlans (items_view numbers.now)) }
{
    let mut table = [0; VLAN_WORDS];
    for value in numbers {
        let vid = vid_of(alloc, spot, value)?;
        set_vid(&mut table, vid);
    }
    Ok(table)
}

fn set_vid(table: &mut [u32; VLAN_WORDS], vid: u32)
    requires below { vid < 4096 }
    ensures set { table.new ≡ with_vid table.old vid }
{
    let word = (vid / u32::BITS) as usize;
    table[word] |= 1 << (vid % u32::BITS);
}

fn vid_of(alloc: Global, spot: Spot, value: &Value) -> Result<u32, ConfigFault>
    ensures vid { Gives (λ n. n) result (vid_in spot (view value.now)) }
    ensures below { IfOk result (λ n. n < 4096) }
{
    let Some(found) = value.as_integer() else {
        return Err(wrong_kind(alloc, spot, "vlans"));
    };
    if found < 0 || found > MAX_VID {
        return Err(out_of_range(alloc, spot, "vlans", found));
    }
    Ok(found as u32)
}
