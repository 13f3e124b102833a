//! Texts of a given form: names, the prefix of files, Ethernet addresses. Letters and digits are those of ASCII.

ghost use Rattle.std.specs.Prelude.{◌≡◌, ◌<◌, length, IfSome};
ghost use Rattle.std.specs.List.{list_all};
ghost use Rattle.toml.specs.View.{view, table_view};
ghost use Rattle.vmx_config_rows.specs.Reading.{Gives};
ghost use Rattle.vmx_config_rows.specs.Texts.{is_name as is_name_of, is_name_byte as is_name_byte_of, is_prefix as is_prefix_of, is_prefix_byte as is_prefix_byte_of, is_capture as is_capture_of, name_at, output_at, capture_at, mac_at, digit_of, pair_of, mac_from, has_colons as has_colons_of, is_group as is_group_of};

use crate::fault::ConfigFault;
use crate::keys::at;
use crate::makers::{missing, wrong_form, wrong_kind};
use crate::spot::Spot;
use std::alloc::Global;
use toml::Table;
use vmx_io::Text;

/// The name of a guest: required, 1 to 16 bytes of `a` to `z`, `0` to `9` and `_`, else `Form`.
#[tactic(auto, unfolding(crate::specs::Texts::name_at))]
pub fn name(alloc: Global, spot: Spot, table: &Table) -> Result<Text, ConfigFault>
    ensures name { Gives (λ t. t) result (name_at spot (table_view table.now)) }
{
    let Some(value) = at(table, "name") else {
        return Err(missing(alloc, spot, "name"));
    };
    let Some(text) = value.as_str() else {
        return Err(wrong_kind(alloc, spot, "name"));
    };
    if !is_name(text) {
        return Err(wrong_form(alloc, spot, "name"));
    }
    Ok(Text::from_str(alloc, text)?)
}

fn is_name(text: &str) -> bool
    ensures name { result ≡ is_name_of text.now }
{
    text.len() >= 1 && text.len() <= 16 && are_name_bytes(text.as_bytes())
}

fn are_name_bytes(bytes: &[u8]) -> bool
    ensures bytes { result ≡ list_all is_name_byte_of bytes.now }
{
    bytes.iter().all(|byte| is_name_byte(*byte))
}

fn is_name_byte(byte: u8) -> bool
    ensures byte { result ≡ is_name_byte_of byte }
{
    (byte >= b'a' && byte <= b'z') || (byte >= b'0' && byte <= b'9') || byte == b'_'
}

/// The prefix of the files of a replay: 1 to 64 bytes of letters, digits, `_`, `.` and `/`, the first of them no `.` and no `/`, else
/// `Form`; `out` where it is not there.
#[tactic(auto, unfolding(crate::specs::Texts::output_at))]
pub fn output(alloc: Global, spot: Spot, table: &Table) -> Result<Text, ConfigFault>
    ensures output { Gives (λ t. t) result (output_at spot (table_view table.now)) }
{
    let Some(value) = at(table, "output") else {
        return Ok(Text::from_str(alloc, "out")?);
    };
    let Some(text) = value.as_str() else {
        return Err(wrong_kind(alloc, spot, "output"));
    };
    if !is_prefix(text) {
        return Err(wrong_form(alloc, spot, "output"));
    }
    Ok(Text::from_str(alloc, text)?)
}

fn is_prefix(text: &str) -> bool
    ensures prefix { result ≡ is_prefix_of text.now }
{
    let bytes = text.as_bytes();
    if bytes.len() < 1 || bytes.len() > 64 {
        return false;
    }
    are_prefix_bytes(bytes) && !(bytes[0] == b'.' || bytes[0] == b'/')
}

fn are_prefix_bytes(bytes: &[u8]) -> bool
    ensures bytes { result ≡ list_all is_prefix_byte_of bytes.now }
{
    bytes.iter().all(|byte| is_prefix_byte(*byte))
}

fn is_prefix_byte(byte: u8) -> bool
    ensures byte { result ≡ is_prefix_byte_of byte }
{
    is_name_byte(byte) || (byte >= b'A' && byte <= b'Z') || byte == b'.' || byte == b'/'
}

/// The name of a guest's capture: 1 to 255 bytes, else `Form`; none where it is not there.
#[tactic(auto, unfolding(crate::specs::Texts::capture_at))]
pub fn capture_name(alloc: Global, spot: Spot, table: &Table) -> Result<Option<Text>, ConfigFault>
    ensures capture { Gives (λ t. t) result (capture_at spot (table_view table.now)) }
{
    let Some(value) = at(table, "capture") else {
        return Ok(None);
    };
    let Some(text) = value.as_str() else {
        return Err(wrong_kind(alloc, spot, "capture"));
    };
    if !is_capture(text) {
        return Err(wrong_form(alloc, spot, "capture"));
    }
    let copy = Text::from_str(alloc, text)?;
    Ok(Some(copy))
}

fn is_capture(text: &str) -> bool
    ensures capture { result ≡ is_capture_of text.now }
{
    text.len() >= 1 && text.len() <= 255
}

/// The Ethernet address of a guest: required, six pairs of hex digits joined by `:`, and no group address, else `Form`.
#[tactic(auto, unfolding(crate::specs::Texts::mac_at))]
pub fn port_address(alloc: Global, spot: Spot, table: &Table) -> Result<[u8; 6], ConfigFault>
    ensures mac { Gives (λ m. m) result (mac_at spot (table_view table.now)) }
{
    let Some(value) = at(table, "mac") else {
        return Err(missing(alloc, spot, "mac"));
    };
    let Some(text) = value.as_str() else {
        return Err(wrong_kind(alloc, spot, "mac"));
    };
    let Some(mac) = mac_of(text) else {
        return Err(wrong_form(alloc, spot, "mac"));
    };
    if mac[0] % 2 == 1 {
        return Err(wrong_form(alloc, spot, "mac"));
    }
    Ok(mac)
}

/// The six bytes of an address as text, in hex digits of either case, or none.
#[tactic(auto, unfolding(crate::specs::Texts::mac_from, crate::specs::Texts::byte_at))]
pub fn mac_of(text: &str) -> Option<[u8; 6]>
    ensures mac { result ≡ mac_from text.now }
{
    let bytes = text.as_bytes();
    if bytes.len() != 17 {
        return None;
    }
    if !has_colons(bytes) {
        return None;
    }
    let first = pair(bytes[0], bytes[1])?;
    let second = pair(bytes[3], bytes[4])?;
    let third = pair(bytes[6], bytes[7])?;
    let fourth = pair(bytes[9], bytes[10])?;
    let fifth = pair(bytes[12], bytes[13])?;
    let sixth = pair(bytes[15], bytes[16])?;
    Some([first, second, third, fourth, fifth, sixth])
}

#[tactic(auto, unfolding(crate::specs::Texts::has_colons))]
fn has_colons(bytes: &[u8]) -> bool
    requires length { length bytes.now ≡ 17 }
    ensures colons { result ≡ has_colons_of bytes.now }
{
    bytes[2] == b':'
        && bytes[5] == b':'
        && bytes[8] == b':'
        && bytes[11] == b':'
        && bytes[14] == b':'
}

/// The byte of two hex digits, the high one first, or none.
#[tactic(auto, unfolding(crate::specs::Texts::pair_of))]
pub fn pair(high: u8, low: u8) -> Option<u8>
    ensures byte { result ≡ pair_of high low }
{
    let high = digit(high)?;
    let low = digit(low)?;
    Some(high * 16 + low)
}

/// The number of a hex digit of either case, or none.
#[tactic(auto, unfolding(crate::specs::Texts::digit_of))]
pub fn digit(byte: u8) -> Option<u8>
    ensures digit { result ≡ digit_of byte }
    ensures below { IfSome result (λ d. d < 16) }
{
    if byte >= b'0' && byte <= b'9' {
        return Some(byte - b'0');
    }
    if byte >= b'a' && byte <= b'f' {
        return Some(byte - b'a' + 10);
    }
    if byte >= b'A' && byte <= b'F' {
        return Some(byte - b'A' + 10);
    }
    None
}
