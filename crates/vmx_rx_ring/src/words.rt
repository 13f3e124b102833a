//! The words of descriptors and completions, and where their buffers are.
ghost use Rattle.std.specs.Prelude.{Some, None, ◌≡◌, ◌≢◌, ℕ, ◌+◌, ◌-◌, ◌*◌, ◌/◌, ◌%◌, ◌^◌, ◌<◌, ◌≤◌, ◌⊎◌, ◌∷◌, [], true, false, not};
ghost use Rattle.vmx_layout.specs.Bits.{bit as flag, field};
ghost use Rattle.vmx_layout.specs.BufferType.{btype_bit};
ghost use Rattle.vmx_layout.specs.declared.addresses.TheConstants.{DATA_ENTRY_SIZE, MAX_RING_SIZE};
ghost use Rattle.vmx_genring.specs.Rings.{generation};
ghost use Rattle.vmx_ends.specs.Words.{bit as bit_of, IsMissed};
ghost use Rattle.vmx_ends.specs.Receive.{is_body};
ghost use Rattle.vmx_ends.specs.ReceiveClauses.{made_of};
ghost use Rattle.vmx_ends.specs.declared.limits.TheConstants.{BODY_SIZE};
ghost use Rattle.vmx_rx_ring.specs.Shapes.{IsShape};
ghost use Rattle.vmx_rx_ring.specs.Words.{count, slot, spot_of, buffer_size, second1, second2, posted_word, address, with_bit, shown_bit, first_word, index_in as index_at, ring_id as id_of, hash_in as hash_of, kind_in as kind_of, in_data as lies_in_data, tag_in as tag_for, tag_there, tag_bytes, TagFits, told_tag, body_word};
ghost use Rattle.vmx_layout.specs.declared.register.TheConstants.{MAX_QUEUES};
ghost use Rattle.vmx_layout.specs.declared.TheConstants.{COMPLETION_GENERATION_BIT};
ghost use Rattle.vmx_layout.specs.declared.rx_comp.TheConstants.{RX_COMPLETION_TYPE, RXD_IDX_WIDTH, UNNAMED, UNNAMED_WIDTH, RQ_ID, RQ_ID_WIDTH, RSS_TYPE, RSS_TYPE_WIDTH, UNNAMED_LAST, RSS_HASH, LEN_WIDTH, TS, TCI, TCI_WIDTH, KIND, KIND_WIDTH};

use crate::known::Spot;
use vmx_ends::{BODY_SIZE, HEAD_SIZE, RxMeta, RxShape};
use vmx_genring::Ring;
use vmx_layout::{
    BufferType, COMPLETION_GENERATION_BIT, DATA_ENTRY_SIZE, RxComp, RxDesc, rx_buffer_address,
};

/// The type of a receive completion (Linux `VMXNET3_CDTYPE_RXCOMP`).
const RX_COMPLETION_TYPE: u8 = 3;

/// The number of descriptors of both rings, which is that of completions.
pub fn count_of(shape: &RxShape) -> u64
    ensures count { result ≡ count (made_of shape.now) }
{
    let shape = *shape;
    shape.size1 as u64 + shape.size2 as u64
}

/// The slot of a descriptor.
pub fn slot_at(shape: &RxShape, spot: Spot) -> u64
    requires shape { IsShape shape.now }
    ensures slot { result ≡ slot (made_of shape.now) spot.ring spot.position }
{
    let shape = *shape;
    if spot.ring == 1 {
        spot.position % u64::from(shape.size1)
    } else {
        u64::from(shape.size1) + spot.position % u64::from(shape.size2)
    }
}

/// The guest address of the buffer in a slot.
pub fn address_of(shape: &RxShape, slot: u64) -> u64
    requires shape { IsShape shape.now }
    requires slot { slot < count (made_of shape.now) }
    ensures address { result ≡ address (made_of shape.now) slot }
{
    let shape = *shape;
    if slot < u64::from(shape.size1) {
        rx_buffer_address(shape.name.queue, 1, slot as u32)
    } else {
        rx_buffer_address(shape.name.queue, 2, (slot - u64::from(shape.size1)) as u32)
    }
}

/// Whether ring 1 has a BODY descriptor at a position.
pub fn stands_body(shape: &RxShape, position: u64) -> bool
    requires shape { (0 < shape.now.size1) × (shape.now.bodies ≤ 2) }
    ensures body { result ≡ is_body (made_of shape.now) position }
{
    let shape = *shape;
    position % u64::from(shape.size1) % (u64::from(shape.bodies) + 1) != 0
}

/// The bytes of a BODY buffer, or of a HEAD buffer.
pub fn size_of(body: bool) -> u32
    ensures size { result ≡ buffer_size body }
    ensures low { (0 < result) × (result ≤ BODY_SIZE) }
{
    if body { BODY_SIZE } else { HEAD_SIZE }
}

/// The second word of a descriptor.
fn descriptor_word(body: bool, generation: bool) -> u64
    ensures word { result ≡ posted_word body generation }
{
    let descriptor = RxDesc {
        addr: 0,
        len: size_of(body) as u16,
        btype: kind_of_buffer(body),
        dtype: false,
        generation,
    };
    descriptor.to_words()[1]
}

fn kind_of_buffer(body: bool) -> BufferType
    ensures kind { btype_bit result ≡ flag body }
{
    if body {
        BufferType::Body
    } else {
        BufferType::Head
    }
}

/// The second word of a descriptor of ring 1.
pub fn descriptor1(shape: &RxShape, position: u64) -> u64
    requires shape { IsShape shape.now }
    ensures word { result ≡ second1 (made_of shape.now) position }
{
    let generation = generation_at(u64::from(shape.size1), position);
    descriptor_word(stands_body(shape, position), generation)
}

/// The second word of a descriptor of ring 2.
pub fn descriptor2(shape: &RxShape, position: u64) -> u64
    requires shape { IsShape shape.now }
    ensures word { result ≡ second2 (made_of shape.now) position }
{
    let generation = generation_at(u64::from(shape.size2), position);
    descriptor_word(true, generation)
}

/// Whether the bit of a second word is the position's generation, in a ring of so many descriptors or completions.
pub fn has_generation(size: u64, word: u64, bit: u32, position: u64) -> bool
    requires size { (0 < size) × (size ≤ 2 * MAX_RING_SIZE) }
    requires bit { bit < 64 }
    ensures posted { result ≡ true → bit_of bit word ≡ generation size position }
    ensures missed { result ≡ false → IsMissed bit size position word }
{
    let ring = Ring::new(size as u32);
    ring.owned(word, bit, position)
}

/// The generation of a position, in a ring of so many descriptors or completions.
pub fn generation_at(size: u64, position: u64) -> bool
    requires size { (0 < size) × (size ≤ 2 * MAX_RING_SIZE) }
    ensures value { result ≡ generation size position }
{
    let ring = Ring::new(size as u32);
    ring.generation(position)
}

/// The generation that a completion shows, in a ring of so many: the first staged one has it inverted.
pub fn shown_generation(size: u64, published: u64, position: u64) -> bool
    requires size { (0 < size) × (size ≤ 2 * MAX_RING_SIZE) }
    ensures shown { result ≡ shown_bit size published position }
{
    let generation = generation_at(size, position);
    if position == published {
        !generation
    } else {
        generation
    }
}

/// The generation's part of a completion's second word.
pub fn generation_part(generation: bool) -> u64
    ensures part { result ≡ with_bit COMPLETION_GENERATION_BIT 0 generation }
{
    if generation {
        1 << COMPLETION_GENERATION_BIT
    } else {
        0
    }
}

/// Whether a piece lies in the data ring: it is a whole frame, short enough, and there is one.
pub fn is_short(shape: &RxShape, sop: bool, eop: bool, len: usize) -> bool
    ensures in_entry { result ≡ lies_in_data (made_of shape.now) sop eop len }
    ensures whole { result ≡ true → sop ≡ true }
    ensures entry { result ≡ true → len ≤ DATA_ENTRY_SIZE }
{
    let shape = *shape;
    if sop {
        if eop {
            return shape.with_data && len as u64 <= DATA_ENTRY_SIZE;
        }
    }
    false
}

fn index_of(shape: &RxShape, spot: Spot) -> u16
    requires shape { IsShape shape.now }
    ensures index { result ≡ index_at (made_of shape.now) (spot_of spot) }
    ensures low { result < MAX_RING_SIZE }
{
    let shape = *shape;
    if spot.ring == 1 {
        (spot.position % u64::from(shape.size1)) as u16
    } else {
        (spot.position % u64::from(shape.size2)) as u16
    }
}

/// Which ring of which queue: of n queues, q is ring 1 of queue q, n + q its ring 2, and 2 n + q its data ring.
fn ring_id(shape: &RxShape, in_entry: bool, ring: u32) -> u16
    requires shape { IsShape shape.now }
    ensures id { result ≡ id_of (made_of shape.now) in_entry ring }
    ensures low { result < 3 * MAX_QUEUES }
{
    let shape = *shape;
    if in_entry {
        return (2 * shape.queues + shape.name.queue) as u16;
    }
    if ring == 1 {
        shape.name.queue as u16
    } else {
        (shape.queues + shape.name.queue) as u16
    }
}

fn hash_in(sop: bool, meta: &RxMeta) -> u32
    ensures hash { result ≡ hash_of sop meta.now }
{
    if sop { meta.hash } else { 0 }
}

fn kind_in(sop: bool, meta: &RxMeta) -> u8
    ensures kind { result ≡ kind_of sop meta.now }
    ensures low { result ≤ 4 }
{
    let meta = *meta;
    if sop { meta.kind as u8 } else { 0 }
}

fn tag_in(eop: bool, meta: &RxMeta) -> Option<u16>
    ensures tag { result ≡ tag_for eop meta.now }
{
    if eop { meta.tci } else { None }
}

fn has_tag(tci: Option<u16>) -> bool
    ensures there { flag result ≡ tag_there tci }
{
    match tci {
        Some(_) => true,
        None => false,
    }
}

fn tag_of(tci: Option<u16>) -> u16
    ensures value { result ≡ tag_bytes tci }
    ensures fits { TagFits tci }
{
    match tci {
        Some(bytes) => bytes,
        None => 0,
    }
}

/// The first word of a completion: the descriptor's index, the ring, the ends of the frame, and in the first one the hash.
pub fn first_word_for(
    shape: &RxShape,
    sop: bool,
    eop: bool,
    in_entry: bool,
    meta: &RxMeta,
    spot: Spot,
    len: usize,
) -> u64
    requires shape { IsShape shape.now }
    requires in_entry { in_entry ≡ lies_in_data (made_of shape.now) sop eop len }
    ensures word { result ≡ first_word (made_of shape.now) sop eop meta.now (spot_of spot) len }
{
    let _len = len;
    let completion = RxComp {
        rxd_idx: index_of(shape, spot),
        eop,
        sop,
        rq_id: ring_id(shape, in_entry, spot.ring),
        rss_type: kind_in(sop, meta),
        cnc: false,
        rss_hash: hash_in(sop, meta),
        len: 0,
        err: false,
        ts: false,
        tci: 0,
        csum: 0,
        tuc: false,
        udp: false,
        tcp: false,
        ipc: false,
        v6: false,
        v4: false,
        frg: false,
        fcs: false,
        kind: RX_COMPLETION_TYPE,
        generation: false,
    };
    completion.to_words()[0]
}

/// The second word of a completion with generation 0: the piece's length, and in the last one the tag.
#[tactic(auto, using(crate::proofs::Layouts::body_low))]
pub fn body_for(eop: bool, meta: &RxMeta, len: usize) -> u64
    requires short { len ≤ BODY_SIZE }
    ensures body { result ≡ body_word (tag_for eop meta.now) len }
    ensures low { result < 2 ^ COMPLETION_GENERATION_BIT }
    ensures fits { TagFits meta.now.tci }
{
    tag_of(meta.tci);
    let tci = tag_in(eop, meta);
    let completion = RxComp {
        rxd_idx: 0,
        eop: false,
        sop: false,
        rq_id: 0,
        rss_type: 0,
        cnc: false,
        rss_hash: 0,
        len: len as u16,
        err: false,
        ts: has_tag(tci),
        tci: tag_of(tci),
        csum: 0,
        tuc: false,
        udp: false,
        tcp: false,
        ipc: false,
        v6: false,
        v4: false,
        frg: false,
        fcs: false,
        kind: RX_COMPLETION_TYPE,
        generation: false,
    };
    completion.to_words()[1]
}

/// What the two words of a completion tell. The bits without a name are 0, and the type is that of receive completions.
pub fn told(first: u64, second: u64) -> RxComp
    requires named { (field first UNNAMED UNNAMED_WIDTH ≡ 0) × (field first UNNAMED_LAST 1 ≡ 0) }
    requires kind { field second KIND KIND_WIDTH ≡ RX_COMPLETION_TYPE }
    ensures index { result.rxd_idx ≡ first % 2 ^ RXD_IDX_WIDTH }
    ensures id { result.rq_id ≡ first / 2 ^ RQ_ID % 2 ^ RQ_ID_WIDTH }
    ensures hash { (result.rss_type ≡ first / 2 ^ RSS_TYPE % 2 ^ RSS_TYPE_WIDTH) × (result.rss_hash ≡ first / 2 ^ RSS_HASH) }
    ensures len { result.len ≡ second % 2 ^ LEN_WIDTH }
    ensures tag { (flag result.ts ≡ field second TS 1) × (result.tci ≡ field second TCI TCI_WIDTH) }
{
    let Ok(completion) = RxComp::of_words([first, second]) else {
        unreachable!()
    };
    completion
}

fn tag_told(there: bool, tci: u16) -> Option<u16>
    ensures there { there ≡ true → result ≡ Some tci }
    ensures none { there ≡ false → result ≡ None }
{
    if there { Some(tci) } else { None }
}

/// What the first word of a frame's first completion and the second word of its last one tell of it.
pub fn meta_of(first: u64, last: u64) -> RxMeta
    requires named { (field first UNNAMED UNNAMED_WIDTH ≡ 0) × (field first UNNAMED_LAST 1 ≡ 0) }
    requires kind { field last KIND KIND_WIDTH ≡ RX_COMPLETION_TYPE }
    requires hash { first / 2 ^ RSS_TYPE % 2 ^ RSS_TYPE_WIDTH ≤ 4 }
    ensures meta { (result.hash ≡ first / 2 ^ RSS_HASH) × (result.kind ≡ first / 2 ^ RSS_TYPE % 2 ^ RSS_TYPE_WIDTH) × (result.tci ≡ told_tag last) }
{
    let told = told(first, last);
    let tci = tag_told(told.ts, told.tci);
    RxMeta {
        hash: told.rss_hash,
        kind: u32::from(told.rss_type),
        tci,
    }
}

/// Whether a completion's ring is a data ring.
pub fn is_in_data(shape: &RxShape, id: u64) -> bool
    requires shape { IsShape shape.now }
    ensures inside { result ≡ true → shape.now.queues + shape.now.queues ≤ id }
    ensures outside { result ≡ false → id < shape.now.queues + shape.now.queues }
{
    let shape = *shape;
    2 * u64::from(shape.queues) <= id
}

/// Whether a completion's descriptor is of ring 1.
pub fn is_in_ring1(shape: &RxShape, id: u64) -> bool
    requires shape { IsShape shape.now }
    ensures one { result ≡ true → (id < shape.now.queues) ⊎ (shape.now.queues + shape.now.queues ≤ id) }
    ensures two { result ≡ false → (shape.now.queues ≤ id) × (id < shape.now.queues + shape.now.queues) }
{
    if is_in_data(shape, id) {
        return true;
    }
    let shape = *shape;
    id < u64::from(shape.queues)
}
