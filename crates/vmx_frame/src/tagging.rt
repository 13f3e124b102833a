//! A tag put into a frame, and taken out of it (IEEE 802.1Q). No call takes memory: the vector has room.

ghost use Rattle.std.specs.Prelude.{◌≡◌, ◌+◌, ◌≤◌, ◌++◌, length, take, drop, vec_len, vec_capacity};
ghost use Rattle.vmx_frame.specs.Tags.{tag_bytes as tag_bytes_of, put_of, without_tag, strip_of};

use crate::bytes::u16_at;
use crate::ethernet::{
    HEADER_LEN, TAG_TYPE, TAGGED_HEADER_LEN, TAGGED_TYPE_AT, TCI_AT, TYPE_AT, is_tagged,
};

/// Bytes of a tag: its type, then its control bytes (IEEE 802.1Q).
pub const TAG_LEN: usize = 4;

/// Puts a tag with these two bytes into a frame, behind its addresses: bytes 0 to 11, 81 00, the two bytes, the rest.
///
/// Conditions: the frame has at least 14 bytes, and `into` is empty and has room for 4 more than the frame.
#[tactic(auto, unfolding(crate::specs::Tags::put_of))]
pub fn put(frame: &[u8], tci: u16, into: &mut Vec<u8>)
    requires header { HEADER_LEN ≤ length frame.now }
    requires empty { vec_len into.old ≡ 0 }
    requires room { length frame.now + TAG_LEN ≤ vec_capacity into.old }
    ensures bytes { into.new.items ≡ put_of frame.now tci }
    ensures len { vec_len into.new ≡ length frame.now + TAG_LEN }
    ensures room { vec_capacity into.old ≤ vec_capacity into.new }
{
    append(into, &frame[..TYPE_AT]);
    append(into, &tag_bytes(tci));
    append(into, &frame[TYPE_AT..]);
}

/// The four bytes of a tag, big-endian: its type, then the control bytes.
fn tag_bytes(tci: u16) -> [u8; TAG_LEN]
    ensures bytes { result ≡ tag_bytes_of tci }
{
    let high = (tci / 256) as u8;
    let low = (tci % 256) as u8;
    [(TAG_TYPE / 256) as u8, (TAG_TYPE % 256) as u8, high, low]
}

/// Takes the tag out of a frame: where it has one, the frame without bytes 12 to 15, and their last two; else the frame.
///
/// Conditions: the frame has at least 14 bytes, and `into` is empty and has room for the frame.
#[tactic(auto, using(crate::specs::TagLaws::tagged_least), unfolding(crate::specs::Tags::strip_of))]
pub fn strip(frame: &[u8], into: &mut Vec<u8>) -> Option<u16>
    requires header { HEADER_LEN ≤ length frame.now }
    requires empty { vec_len into.old ≡ 0 }
    requires room { length frame.now ≤ vec_capacity into.old }
    ensures bytes { into.new.items ≡ (strip_of frame.now).frame }
    ensures tci { result ≡ (strip_of frame.now).tci }
    ensures few { vec_len into.new ≤ length frame.now }
    ensures room { vec_capacity into.old ≤ vec_capacity into.new }
{
    if is_tagged(frame) {
        take_out(frame, into);
        Some(u16_at(frame, TCI_AT))
    } else {
        append(into, frame);
        None
    }
}

/// A frame without bytes 12 to 15.
fn take_out(frame: &[u8], into: &mut Vec<u8>)
    requires tag { TAGGED_HEADER_LEN ≤ length frame.now }
    requires empty { vec_len into.old ≡ 0 }
    requires room { length frame.now ≤ vec_capacity into.old }
    ensures bytes { into.new.items ≡ without_tag frame.now }
    ensures len { vec_len into.new + TAG_LEN ≡ length frame.now }
    ensures room { vec_capacity into.old ≤ vec_capacity into.new }
{
    append(into, &frame[..TYPE_AT]);
    append(into, &frame[TAGGED_TYPE_AT..]);
}

fn append(into: &mut Vec<u8>, bytes: &[u8])
    requires room { vec_len into.old + length bytes.now ≤ vec_capacity into.old }
    ensures bytes { into.new.items ≡ into.old.items ++ bytes.now }
    ensures len { vec_len into.new ≡ vec_len into.old + length bytes.now }
    ensures room { vec_capacity into.old ≤ vec_capacity into.new }
{
    match into.extend_from_slice(bytes) {
        Ok(()) => {}
        Err(_) => unreachable!(),
    }
}
