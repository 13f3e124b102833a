//! The device's stores: each piece into its buffer and its completion, and all completions published by one store.
ghost use Rattle.std.specs.Prelude.{◌≡◌, ◌≢◌, ℕ, ◌+◌, ◌-◌, ◌*◌, ◌/◌, ◌%◌, ◌^◌, ◌<◌, ◌≤◌, [], ◌∷◌, ◌++◌, length, take, drop, true, false, not, None, vec_len};
ghost use Rattle.vmx_genring.specs.Rings.{generation};
ghost use Rattle.vmx_layout.specs.declared.TheConstants.{COMPLETION_GENERATION_BIT};
ghost use Rattle.vmx_ends.specs.ReceiveClauses.{made_of};
ghost use Rattle.vmx_ends.specs.Walk.{further_pieces};
ghost use Rattle.vmx_rx_ring.specs.Words.{count, slot, room_at, with_bit, shown_bit, in_data as is_in_data, lies, entry, flat};
ghost use Rattle.vmx_layout.specs.declared.addresses.TheConstants.{DATA_ENTRY_SIZE};
ghost use Rattle.vmx_ends.specs.declared.limits.TheConstants.{HEAD_SIZE, BODY_SIZE};
ghost use Rattle.vmx_rx_ring.specs.Rule.{Between};
ghost use Rattle.vmx_rx_ring.specs.Tells.{took, with_device};
ghost use Rattle.vmx_rx_ring.specs.Shapes.{IsShape, IsTable};
ghost use Rattle.vmx_rx_ring.specs.Words.{spot_of};
ghost use Rattle.vmx_rx_walk.specs.Walking.{IsDevice};
ghost use Rattle.vmx_rx_walk.specs.Staging.{IsFor, log_of, IsStill, adds, AreFor, AreFitting, has_staged, WillDeliver, HasDelivered};

use atomic_table::Seat;
use vmx_ends::{BODY_SIZE, HEAD_SIZE, RxMeta, RxShape};
use vmx_rx_ring::steps::{DataTake, HeadTake, OneTake, Open, Publish, Stage, TwoTake};
use vmx_rx_ring::{
    Buffer, Known, SharedWords, Spot, TellsVisible, body_for, count_of, first_word_for,
    generation_at, generation_part, is_short, slot_at,
};

/// The load of a first word, which takes the buffer out.
fn take_buffer<C: TellsVisible>(
    shared: &SharedWords<C>,
    seat: &mut Seat<Buffer, Known>,
    shape: &RxShape,
    sop: bool,
    in_entry: bool,
    spot: Spot,
    index: u64,
)
    requires table { IsTable C.counted seat.old.table_id shared.now.table_id shape.now }
    requires device { IsDevice seat.old.me shape.now }
    requires idle { seat.old.me.0.device.filling ≡ None }
    requires reach { IsFor seat.old.me.0.device sop spot }
    requires index { index < count (made_of shape.now) }
    requires whole { in_entry ≡ true → sop ≡ true }
    ensures same { (seat.new.table_id ≡ seat.old.table_id) × (seat.new.id ≡ seat.old.id) }
    ensures took { took spot.ring spot.position in_entry seat.old.me seat.new.me }
{
    let word = (count_of(shape) + index) as usize;
    if spot.ring != 1 {
        shared.load::<TwoTake>(seat, word);
        return;
    }
    if in_entry {
        shared.load::<DataTake>(seat, word);
        return;
    }
    if sop {
        shared.load::<HeadTake>(seat, word);
        return;
    }
    shared.load::<OneTake>(seat, word);
}

/// A piece into its buffer, or into its data entry.
fn pour(buffer: &mut Buffer, in_entry: bool, bytes: &[u8])
    requires short { length bytes.now ≤ vec_len buffer.old.bytes }
    requires entry { in_entry ≡ true → length bytes.now ≤ DATA_ENTRY_SIZE }
    ensures bytes { take (length bytes.now) (lies in_entry buffer.new) ≡ bytes.now }
    ensures room { vec_len buffer.new.bytes ≡ vec_len buffer.old.bytes }
{
    if in_entry {
        fill(&mut buffer.entry, bytes);
        return;
    }
    fill(&mut buffer.bytes, bytes);
}

/// Fills the front of a buffer.
fn fill(buffer: &mut Vec<u8>, bytes: &[u8])
    requires short { length bytes.now ≤ length buffer.old.items }
    ensures items { buffer.new.items ≡ bytes.now ++ drop (length bytes.now) buffer.old.items }
    ensures len { vec_len buffer.new ≡ vec_len buffer.old }
{
    let (front, _back) = buffer.as_mut_slice().split_at_mut(bytes.len());
    front.copy_from_slice(bytes);
}

/// One piece into the buffer of its spot, with its completion behind those that are staged. The position of the
/// completion is `at`, and those before `published` are published.
fn stage_piece<C: TellsVisible>(
    shared: &SharedWords<C>,
    seat: &mut Seat<Buffer, Known>,
    shape: &RxShape,
    published: u64,
    at: u64,
    sop: bool,
    eop: bool,
    meta: &RxMeta,
    spot: Spot,
    bytes: &[u8],
)
    requires table { IsTable C.counted seat.old.table_id shared.now.table_id shape.now }
    requires device { IsDevice seat.old.me shape.now }
    requires still { IsStill seat.old.me.0.device }
    requires reach { IsFor seat.old.me.0.device sop spot }
    requires at { (at ≡ length (log_of seat.old.me.0)) × (published ≡ length (flat seat.old.me.0.made seat.old.me.0.device.delivered)) }
    requires short { length bytes.now ≤ room_at (made_of shape.now) (slot (made_of shape.now) spot.ring spot.position) }
    ensures same { (seat.new.table_id ≡ seat.old.table_id) × (seat.new.id ≡ seat.old.id) }
    ensures staged { seat.new.me ≡ (with_device seat.old.me.0 (adds seat.old.me.0.device (entry (made_of shape.now) sop eop meta.now (spot_of spot) bytes.now)), []) }
{
    let n = count_of(shape);
    let slot = slot_at(shape, spot);
    let in_entry = is_short(shape, sop, eop, bytes.len());
    take_buffer(shared, seat, shape, sop, in_entry, spot, slot);
    pour(seat.slot_mut(shared, slot as usize), in_entry, bytes);
    let index = at % n;
    let first = first_word_for(shape, sop, eop, in_entry, meta, spot, bytes.len());
    shared.store::<Open>(seat, (3 * n + index) as usize, first);
    let body = body_for(eop, meta, bytes.len());
    let generation = C::shown(n, published, at);
    let second = body + generation_part(generation);
    shared.store::<Stage>(seat, (2 * n + index) as usize, second);
}

/// The bytes before and from an index on.
fn cut(bytes: &[u8], at: usize) -> (&[u8], &[u8])
    requires within { at ≤ length bytes.now }
    ensures front { result.0.now ≡ take at bytes.now }
    ensures back { result.1.now ≡ drop at bytes.now }
    ensures lengths { (length result.0.now ≡ at) × (length result.1.now + at ≡ length bytes.now) }
{
    bytes.split_at(at)
}

/// All pieces of a frame of n + 1 pieces.
pub fn stage_frame<C: TellsVisible>(
    shared: &SharedWords<C>,
    seat: &mut Seat<Buffer, Known>,
    shape: &RxShape,
    published: u64,
    n: u32,
    meta: &RxMeta,
    first: Spot,
    second: Spot,
    third: Spot,
    frame: &[u8],
)
    requires table { IsTable C.counted seat.old.table_id shared.now.table_id shape.now }
    requires device { IsDevice seat.old.me shape.now }
    requires still { IsStill seat.old.me.0.device }
    requires none { seat.old.me.0.device.staged ≡ [] }
    requires reach { AreFor seat.old.me.0.device n first second third }
    requires rooms { AreFitting (made_of shape.now) n first second third }
    requires at { published ≡ length (flat seat.old.me.0.made seat.old.me.0.device.delivered) }
    requires small { published < 2 ^ 63 }
    requires pieces { (n ≡ further_pieces (length frame.now)) × (n ≤ 2) }
    ensures same { (seat.new.table_id ≡ seat.old.table_id) × (seat.new.id ≡ seat.old.id) }
    ensures staged { seat.new.me ≡ (with_device seat.old.me.0 (has_staged (made_of shape.now) seat.old.me.0.device n meta.now first second third frame.now), []) }
{
    if n == 0 {
        stage_piece(
            shared, seat, shape, published, published, true, true, meta, first, frame,
        );
        return;
    }
    let (front, rest) = cut(frame, HEAD_SIZE as usize);
    stage_piece(
        shared, seat, shape, published, published, true, false, meta, first, front,
    );
    if n == 1 {
        stage_piece(
            shared,
            seat,
            shape,
            published,
            published + 1,
            false,
            true,
            meta,
            second,
            rest,
        );
        return;
    }
    let (body, tail) = cut(rest, BODY_SIZE as usize);
    stage_piece(
        shared,
        seat,
        shape,
        published,
        published + 1,
        false,
        false,
        meta,
        second,
        body,
    );
    stage_piece(
        shared,
        seat,
        shape,
        published,
        published + 2,
        false,
        true,
        meta,
        third,
        tail,
    );
}

/// The store that makes the staged completions visible, of which there are so many: that of the first one's second word,
/// which is `body` without its generation, or that of the word that counts visible completions.
pub fn publish<C: TellsVisible>(
    shared: &SharedWords<C>,
    seat: &mut Seat<Buffer, Known>,
    shape: &RxShape,
    published: u64,
    pieces: u64,
    body: u64,
)
    requires table { IsTable C.counted seat.old.table_id shared.now.table_id shape.now }
    requires device { IsDevice seat.old.me shape.now }
    requires still { IsStill seat.old.me.0.device }
    requires at { published ≡ length (flat seat.old.me.0.made seat.old.me.0.device.delivered) }
    requires pieces { pieces ≡ length seat.old.me.0.device.staged }
    requires small { published + pieces < 2 ^ 64 }
    requires low { body < 2 ^ COMPLETION_GENERATION_BIT }
    requires frame { WillDeliver seat.old.me body }
    ensures same { (seat.new.table_id ≡ seat.old.table_id) × (seat.new.id ≡ seat.old.id) }
    ensures published { HasDelivered seat.old.me seat.new.me }
{
    let n = count_of(shape);
    if C::is_counted() {
        shared.store::<Publish>(seat, (4 * n) as usize, published + pieces);
        return;
    }
    let index = published % n;
    let generation = generation_at(n, published);
    let second = body + generation_part(generation);
    shared.store::<Publish>(seat, (2 * n + index) as usize, second);
}
