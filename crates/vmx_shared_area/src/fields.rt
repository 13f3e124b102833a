//! Fields put into bytes, from left to right. A part of the image is a list of fields, and `put_all` writes it and nothing else.

ghost use Rattle.std.specs.Prelude.{◌≡◌, ◌+◌, ◌*◌, ◌≤◌, ◌<◌, ◌^◌, ◌++◌, length, take, drop};
ghost use Rattle.std.specs.List.{flat_map};
ghost use Rattle.vmx_shared_area.specs.Bytes.{zero_bytes, le_words};
ghost use Rattle.vmx_shared_area.specs.Fields.{field_bytes, width, total};

use byteorder::{ByteOrder, LittleEndian};

/// A field of an image: a number, zeros, bytes as they stand, or numbers of four bytes.
#[derive(Clone, Copy)]
pub enum Field<'a> {
    U8(u8),
    U16(u16),
    U32(u32),
    U64(u64),
    Zeros(usize),
    Bytes(&'a [u8]),
    Words(&'a [u32]),
}

/// Puts fields, one after another, from `start` to `end`.
pub fn put_all(bytes: &mut [u8], start: usize, end: usize, fields: &[Field])
    requires whole { start + total fields.now ≡ end }
    requires room { end ≤ length bytes.old }
    ensures put { take end bytes.new ≡ take start bytes.old ++ flat_map field_bytes fields.now }
    ensures whole { bytes.new ≡ take start bytes.old ++ (flat_map field_bytes fields.now ++ drop end bytes.old) }
{
    let mut at = start;
    for field in fields {
        at = put(bytes, at, *field);
    }
    prove!(at == end);
}

/// Puts a field at a place, and says where the next one goes.
#[tactic(auto, unfolding(crate::specs::Bytes::le))]
fn put(bytes: &mut [u8], at: usize, field: Field) -> usize
    requires { at + width field ≤ length bytes.old }
    ensures next { result ≡ at + width field.entry }
    ensures put { take (at + width field.entry) bytes.new ≡ take at bytes.old ++ field_bytes field.entry }
    ensures after { drop (at + width field.entry) bytes.new ≡ drop (at + width field.entry) bytes.old }
{
    match field {
        Field::U8(n) => {
            put_bytes(bytes, at, &[n]);
            at + 1
        }
        Field::U16(n) => {
            let mut part = [0; 2];
            LittleEndian::write_u16(&mut part, n);
            put_bytes(bytes, at, &part);
            at + 2
        }
        Field::U32(n) => {
            let mut part = [0; 4];
            LittleEndian::write_u32(&mut part, n);
            put_bytes(bytes, at, &part);
            at + 4
        }
        Field::U64(n) => {
            let mut part = [0; 8];
            LittleEndian::write_u64(&mut part, n);
            put_bytes(bytes, at, &part);
            at + 8
        }
        Field::Zeros(count) => {
            put_zeros(bytes, at, count);
            at + count
        }
        Field::Bytes(part) => {
            put_bytes(bytes, at, part);
            at + part.len()
        }
        Field::Words(words) => {
            put_words(bytes, at, words);
            at + 4 * words.len()
        }
    }
}

/// Puts bytes at a place, and nothing else.
#[tactic(auto, using(std::proofs::lemmas::Slice::overwrites))]
pub fn put_bytes(bytes: &mut [u8], at: usize, part: &[u8])
    requires { at + length part.now ≤ length bytes.old }
    ensures put { take (at + length part.now) bytes.new ≡ take at bytes.old ++ part.now }
    ensures after { drop (at + length part.now) bytes.new ≡ drop (at + length part.now) bytes.old }
{
    bytes[at..at + part.len()].copy_from_slice(part);
}

/// Puts zeros at a place, and nothing else.
#[tactic(auto, unfolding(crate::specs::Bytes::zero_bytes), using(std::proofs::lemmas::Slice::overwrites))]
pub fn put_zeros(bytes: &mut [u8], at: usize, count: usize)
    requires { at + count ≤ length bytes.old }
    ensures put { take (at + count) bytes.new ≡ take at bytes.old ++ zero_bytes count }
    ensures after { drop (at + count) bytes.new ≡ drop (at + count) bytes.old }
{
    bytes[at..at + count].fill(0);
}

/// Puts numbers of four bytes at a place, and nothing else.
#[tactic(auto, unfolding(crate::specs::Bytes::le_words), using(std::proofs::lemmas::Slice::overwrites))]
fn put_words(bytes: &mut [u8], at: usize, words: &[u32])
    requires { at + 4 * length words.now ≤ length bytes.old }
    ensures put { take (at + 4 * length words.now) bytes.new ≡ take at bytes.old ++ le_words words.now }
    ensures after { drop (at + 4 * length words.now) bytes.new ≡ drop (at + 4 * length words.now) bytes.old }
{
    LittleEndian::write_u32_into(words, &mut bytes[at..at + 4 * words.len()]);
}
