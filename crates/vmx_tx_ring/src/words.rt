//! The words of descriptors, and the bytes of buffers.
ghost use Rattle.std.specs.Prelude.{◌≡◌, ◌≢◌, ℕ, ◌-◌, ◌%◌, ◌/◌, ◌∷◌, [], ◌^◌, ◌+◌, ◌*◌, ◌<◌, ◌≤◌, ◌++◌, length, take, drop, true, false, vec_len, vec_capacity};
ghost use Rattle.vmx_io.specs.declared.buffer.TheConstants.{MAX_FRAME};
ghost use Rattle.vmx_layout.specs.Bits.{bit, field};
ghost use Rattle.vmx_layout.specs.TxDesc.{second_word};
ghost use Rattle.vmx_layout.specs.declared.addresses.TheConstants.{MAX_RING_SIZE, DATA_ENTRY_SIZE};
ghost use Rattle.vmx_layout.specs.declared.TheConstants.{TX_DESC_GENERATION_BIT};
ghost use Rattle.vmx_layout.specs.declared.tx_desc.TheConstants.{UNNAMED, OM, OM_WIDTH};
ghost use Rattle.vmx_genring.specs.Rings.{flipped};
ghost use Rattle.vmx_ends.specs.declared.limits.TheConstants.{MAX_DESCRIPTORS, MAX_PIECE};
ghost use Rattle.vmx_ends.specs.declared.meta.TheConstants.{OM_UNLAWFUL};
ghost use Rattle.vmx_ends.specs.Queues.{least_piece};
ghost use Rattle.vmx_ends.specs.Transmit.{need};
ghost use Rattle.vmx_tx_ring.specs.Pieces.{address, told_of, numbers_of, numbers_in, tag_there, tag_bytes, TagFits, lies, first_size};

use crate::known::TxBuffer;
use vmx_ends::{TxMade, TxMark};
use vmx_layout::{
    DATA_ENTRY_SIZE, TX_DESC_GENERATION_BIT, TxDesc, tx_buffer_address, tx_data_entry_address,
};

/// The guest address of the data entry, or of the buffer, of the descriptor with this index.
pub(crate) fn address_of(queue: u32, in_data: bool, index: u32) -> u64
    requires index { index < MAX_RING_SIZE }
    ensures value { result ≡ address queue in_data index }
{
    if in_data {
        tx_data_entry_address(queue, index)
    } else {
        tx_buffer_address(queue, index)
    }
}

/// Whether the next piece lies in the data ring: none is staged before it, and there is one.
pub(crate) fn goes_to_data(made: &TxMade, posted: u64, published: u64) -> bool
    ensures first { posted ≡ published → result ≡ made.now.with_data }
    ensures later { posted ≢ published → result ≡ false }
{
    if posted == published {
        made.with_data
    } else {
        false
    }
}

fn has_tag(tci: Option<u16>) -> bool
    ensures there { bit result ≡ tag_there tci }
{
    match tci {
        Some(_) => true,
        None => false,
    }
}

fn tag_of(tci: Option<u16>) -> u16
    ensures value { result ≡ tag_bytes tci }
    ensures fits { TagFits tci }
{
    match tci {
        Some(bytes) => bytes,
        None => 0,
    }
}

/// The second word of the descriptor of a piece.
pub(crate) fn descriptor_word(piece: &[u8], generation: bool, last: bool, mark: &TxMark) -> u64
    requires short { length piece.now ≤ MAX_PIECE }
    ensures word { result ≡ second_word (told_of (bit generation) (record { bytes = piece.now; last = last; in_data = false; numbers = numbers_of mark.now })) }
    ensures tag { TagFits mark.now.tci }
{
    let mark = *mark;
    let ti = has_tag(mark.tci);
    let tci = tag_of(mark.tci);
    let descriptor = TxDesc {
        addr: 0,
        len: piece.len() as u16,
        generation,
        dtype: false,
        ext1: false,
        msscof: mark.msscof as u16,
        hlen: mark.hlen as u16,
        om: mark.om as u8,
        eop: last,
        cq: last,
        ext2: false,
        ti,
        tci,
    };
    descriptor.to_words()[1]
}

fn tag_in(ti: bool, tci: u16) -> Option<u16>
    ensures there { ti ≡ true → result ≡ Some tci }
    ensures none { ti ≡ false → result ≡ None }
{
    if ti { Some(tci) } else { None }
}

/// The mark that a second word tells. The bit without a name is not set, and the offload mode is one that a frame may
/// have.
pub(crate) fn mark_of(word: u64) -> TxMark
    requires named { field word UNNAMED 1 ≡ 0 }
    requires lawful { field word OM OM_WIDTH ≢ OM_UNLAWFUL }
    ensures numbers { numbers_of result ≡ numbers_in word }
{
    let Ok(told) = TxDesc::of_words([0, word]) else {
        unreachable!()
    };
    let tci = tag_in(told.ti, told.tci);
    TxMark {
        tci,
        om: u32::from(told.om),
        hlen: u32::from(told.hlen),
        msscof: u32::from(told.msscof),
    }
}

/// The word as it is stored: the first one of a packet with the generation inverted.
pub(crate) fn staged_word(word: u64, position: u64, published: u64) -> u64
    ensures first { position ≡ published → result ≡ flipped TX_DESC_GENERATION_BIT word }
    ensures later { position ≢ published → result ≡ word }
{
    if position == published {
        word ^ (1 << TX_DESC_GENERATION_BIT)
    } else {
        word
    }
}

/// The first staged word, once this one is staged too.
pub(crate) fn first_staged(first: u64, word: u64, position: u64, published: u64) -> u64
    ensures first { position ≡ published → result ≡ word }
    ensures later { position ≢ published → result ≡ first }
{
    if position == published { word } else { first }
}

/// The most bytes of a frame's first piece.
pub(crate) fn first_size_of(made: &TxMade) -> usize
    requires piece { made.now.piece ≤ MAX_PIECE }
    ensures value { result ≡ first_size made.now }
    ensures short { result ≤ MAX_PIECE }
    ensures entry { made.now.with_data ≡ true → result ≡ DATA_ENTRY_SIZE }
{
    let made = *made;
    if made.with_data {
        DATA_ENTRY_SIZE as usize
    } else {
        made.piece as usize
    }
}

/// Fills the front of a buffer.
fn fill(buffer: &mut Vec<u8>, piece: &[u8])
    requires short { length piece.now ≤ length buffer.old.items }
    ensures items { buffer.new.items ≡ piece.now ++ drop (length piece.now) buffer.old.items }
    ensures len { vec_len buffer.new ≡ vec_len buffer.old }
{
    let (front, _back) = buffer.as_mut_slice().split_at_mut(piece.len());
    front.copy_from_slice(piece);
}

/// Puts a piece into the data entry of a buffer, or into the buffer.
pub(crate) fn pack(buffer: &mut TxBuffer, in_data: bool, piece: &[u8])
    requires short { length piece.now ≤ MAX_PIECE }
    requires entry { in_data ≡ true → length piece.now ≤ DATA_ENTRY_SIZE }
    ensures shows { take (length piece.now) (lies in_data buffer.new) ≡ piece.now }
{
    if in_data {
        fill(&mut buffer.entry, piece);
    } else {
        fill(&mut buffer.bytes, piece);
    }
}

/// Puts bytes behind those that are there, where there is room.
fn append(bytes: &[u8], into: &mut Vec<u8>)
    requires room { vec_len into.old + length bytes.now ≤ vec_capacity into.old }
    ensures items { into.new.items ≡ into.old.items ++ bytes.now }
    ensures room { vec_capacity into.old ≤ vec_capacity into.new }
{
    match into.extend_from_slice(bytes) {
        Ok(()) => {}
        Err(_) => unreachable!(),
    }
}

/// The bytes of a buffer's data entry, or of the buffer.
fn bytes_of(buffer: &TxBuffer, in_data: bool) -> &[u8]
    ensures value { result.now ≡ lies in_data buffer.now }
{
    if in_data {
        buffer.entry.as_slice()
    } else {
        buffer.bytes.as_slice()
    }
}

/// Puts the front of a buffer's data entry, or of the buffer, behind the bytes that are there.
pub(crate) fn unpack(buffer: &TxBuffer, in_data: bool, len: usize, into: &mut Vec<u8>)
    requires short { len ≤ length (lies in_data buffer.now) }
    requires room { vec_len into.old + len ≤ vec_capacity into.old }
    ensures items { into.new.items ≡ into.old.items ++ take len (lies in_data buffer.now) }
    ensures room { vec_capacity into.old ≤ vec_capacity into.new }
{
    append(&bytes_of(buffer, in_data)[..len], into);
}

/// The first bytes, at most so many.
pub(crate) fn head_of(bytes: &[u8], size: usize) -> &[u8]
    ensures value { result.now ≡ take size bytes.now }
    ensures short { length result.now ≤ size }
{
    if bytes.len() <= size {
        bytes
    } else {
        &bytes[..size]
    }
}

/// The bytes behind these.
pub(crate) fn rest_of(bytes: &[u8], size: usize) -> &[u8]
    ensures value { result.now ≡ drop size bytes.now }
{
    if bytes.len() <= size {
        &bytes[bytes.len()..]
    } else {
        &bytes[size..]
    }
}

/// The piece at this place.
pub(crate) fn piece_at(bytes: &[u8], place: usize, size: usize) -> &[u8]
    requires begins { place * size ≤ length bytes.now }
    ensures value { result.now ≡ take size (drop (place * size) bytes.now) }
    ensures short { length result.now ≤ size }
{
    head_of(&bytes[place * size..], size)
}

/// Whether the piece is the last of so many.
pub(crate) fn ends(place: u32, count: u32) -> bool
    requires within { place < count }
    ensures last { count ≡ place + 1 → result ≡ true }
    ensures further { place + 1 < count → result ≡ false }
{
    place + 1 == count
}
