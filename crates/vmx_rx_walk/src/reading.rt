//! The driver's reading: the pieces of a frame out of their buffers, and their descriptors posted back.
ghost use Rattle.std.specs.Prelude.{◌≡◌, ◌≢◌, ℕ, suc, ◌+◌, ◌-◌, ◌*◌, ◌/◌, ◌%◌, ◌^◌, ◌<◌, ◌≤◌, ◌⊎◌, ◌∷◌, [], ◌++◌, length, take, true, false, not, vec_len, vec_capacity};
ghost use Rattle.vmx_io.specs.declared.buffer.TheConstants.{MAX_FRAME};
ghost use Rattle.vmx_ends.specs.ReceiveClauses.{made_of};
ghost use Rattle.vmx_rx_ring.specs.declared.known.Entry.{Entry};
ghost use Rattle.vmx_rx_ring.specs.Shapes.{IsTable};
ghost use Rattle.vmx_rx_ring.specs.Words.{lies};
ghost use Rattle.vmx_rx_ring.specs.Tells.{with_driver, IsNext};
ghost use Rattle.vmx_rx_walk.specs.Reading.{IsDriver, IsHolding, has_read, CanRead, CanSkip, Holds, ReadsNext, Reads, FrameRead, TagRead};

use atomic_table::Seat;
use vmx_ends::RxShape;
use vmx_layout::RxComp;
use vmx_rx_ring::steps::{Grab, ReturnOne, ReturnTwo, SecondLoad, Skip};
use vmx_rx_ring::{
    Buffer, Known, SharedWords, TellsVisible, count_of, descriptor1, descriptor2, is_in_data,
    is_in_ring1, told,
};

/// Posts back the descriptors of ring 1 that were passed over before the one at this index.
fn skip_to<C: TellsVisible>(
    shared: &SharedWords<C>,
    seat: &mut Seat<Buffer, Known>,
    shape: &RxShape,
    fuel: u32,
    back1: u64,
    index: u64,
) -> u64
    requires table { IsTable C.counted seat.old.table_id shared.now.table_id shape.now }
    requires holding { IsHolding seat.old.me shape.now }
    requires at { back1 ≡ seat.old.me.0.driver.back1 }
    requires small { back1 + fuel < 2 ^ 64 - 2 ^ 14 }
    requires can { CanSkip shape.now seat.old.me fuel index }
    ensures same { (seat.new.table_id ≡ seat.old.table_id) × (seat.new.id ≡ seat.old.id) }
    ensures skipped { seat.new.me ≡ (with_driver seat.old.me.0 (record seat.old.me.0.driver { back1 = result }), seat.old.me.1) }
    ensures reached { (x : Entry) → IsNext seat.old.me.0 x → result ≡ x.position }
{
    if back1 % shape.size1 as u64 == index {
        return back1;
    }
    let at = shape.size1 as u64 + back1;
    shared.store::<Skip>(
        seat,
        (at % shape.size1 as u64) as usize,
        descriptor1(shape, at),
    );
    skip_to(shared, seat, shape, fuel - 1, back1 + 1, index)
}

/// Puts the front of a buffer behind what was read.
fn copy_out(buffer: &Buffer, in_entry: bool, len: usize, into: &mut Vec<u8>)
    requires within { len ≤ length (lies in_entry buffer.now) }
    requires fits { length into.old.items + len ≤ MAX_FRAME }
    requires room { MAX_FRAME ≤ vec_capacity into.old }
    ensures bytes { into.new.items ≡ into.old.items ++ take len (lies in_entry buffer.now) }
    ensures room { vec_capacity into.old ≤ vec_capacity into.new }
{
    if in_entry {
        append(&buffer.entry, len, into);
        return;
    }
    append(&buffer.bytes, len, into);
}

/// Puts the front of a vector behind what was read.
fn append(bytes: &Vec<u8>, len: usize, into: &mut Vec<u8>)
    requires within { len ≤ length bytes.now.items }
    requires fits { length into.old.items + len ≤ MAX_FRAME }
    requires room { MAX_FRAME ≤ vec_capacity into.old }
    ensures bytes { into.new.items ≡ into.old.items ++ take len bytes.now.items }
    ensures room { vec_capacity into.old ≤ vec_capacity into.new }
{
    match into.extend_from_slice(&bytes.as_slice()[..len]) {
        Ok(()) => {}
        Err(_) => unreachable!(),
    }
}

/// Reads the piece that is out, of ring 1, and posts its descriptor back behind those that were passed over before it.
fn read_one<C: TellsVisible>(
    shared: &SharedWords<C>,
    seat: &mut Seat<Buffer, Known>,
    shape: &RxShape,
    into: &mut Vec<u8>,
    at: u64,
    len: usize,
    in_entry: bool,
    back1: u64,
) -> u64
    requires table { IsTable C.counted seat.old.table_id shared.now.table_id shape.now }
    requires holding { IsHolding seat.old.me shape.now }
    requires at { back1 ≡ seat.old.me.0.driver.back1 }
    requires small { back1 < 3 * 2 ^ 62 + 64 }
    requires holds { Holds shape.now seat.old.me 1 at len (length into.old.items) in_entry }
    requires room { MAX_FRAME ≤ vec_capacity into.old }
    ensures same { (seat.new.table_id ≡ seat.old.table_id) × (seat.new.id ≡ seat.old.id) }
    ensures reads { ReadsNext seat.old.me into.old.items seat.new.me into.new.items }
    ensures back { result ≡ seat.new.me.0.driver.back1 }
    ensures room { vec_capacity into.old ≤ vec_capacity into.new }
{
    copy_out(seat.slot_mut(shared, at as usize), in_entry, len, into);
    let back1 = skip_to(shared, seat, shape, shape.size1, back1, at);
    let post = shape.size1 as u64 + back1;
    shared.store::<ReturnOne>(
        seat,
        (post % shape.size1 as u64) as usize,
        descriptor1(shape, post),
    );
    back1 + 1
}

/// Reads the piece that is out, of ring 2, and posts its descriptor back.
fn read_two<C: TellsVisible>(
    shared: &SharedWords<C>,
    seat: &mut Seat<Buffer, Known>,
    shape: &RxShape,
    into: &mut Vec<u8>,
    at: u64,
    len: usize,
    back2: u64,
) -> u64
    requires table { IsTable C.counted seat.old.table_id shared.now.table_id shape.now }
    requires holding { IsHolding seat.old.me shape.now }
    requires at { back2 ≡ seat.old.me.0.driver.back2 }
    requires small { back2 < 3 * 2 ^ 62 + 64 }
    requires holds { Holds shape.now seat.old.me 2 at len (length into.old.items) false }
    requires room { MAX_FRAME ≤ vec_capacity into.old }
    ensures same { (seat.new.table_id ≡ seat.old.table_id) × (seat.new.id ≡ seat.old.id) }
    ensures reads { ReadsNext seat.old.me into.old.items seat.new.me into.new.items }
    ensures back { result ≡ seat.new.me.0.driver.back2 }
    ensures room { vec_capacity into.old ≤ vec_capacity into.new }
{
    let slot = shape.size1 as u64 + at;
    copy_out(seat.slot_mut(shared, slot as usize), false, len, into);
    let post = shape.size2 as u64 + back2;
    let index = shape.size1 as u64 + post % shape.size2 as u64;
    shared.store::<ReturnTwo>(seat, index as usize, descriptor2(shape, post));
    back2 + 1
}

/// What reading a frame came to: the first piece's first word, the last one's second word, and the driver's numbers.
#[derive(Clone, Copy)]
pub struct Back {
    pub first: u64,
    pub last: u64,
    pub read: u64,
    pub back1: u64,
    pub back2: u64,
}

/// Reads the next piece, whose second word is told.
fn read_piece<C: TellsVisible>(
    shared: &SharedWords<C>,
    seat: &mut Seat<Buffer, Known>,
    shape: &RxShape,
    into: &mut Vec<u8>,
    at: Back,
    second: u64,
) -> Back
    requires table { IsTable C.counted seat.old.table_id shared.now.table_id shape.now }
    requires driver { IsDriver seat.old.me shape.now }
    requires idle { seat.old.me.0.driver.reading ≡ false }
    requires at { (at.read ≡ seat.old.me.0.driver.read) × (at.back1 ≡ seat.old.me.0.driver.back1) × (at.back2 ≡ seat.old.me.0.driver.back2) }
    requires small { (at.read < 2 ^ 63) × (at.back1 < 3 * 2 ^ 62 + 64) × (at.back2 < 3 * 2 ^ 62 + 64) }
    requires can { CanRead shape.now seat.old.me second (length into.old.items) }
    requires room { MAX_FRAME ≤ vec_capacity into.old }
    ensures same { (seat.new.table_id ≡ seat.old.table_id) × (seat.new.id ≡ seat.old.id) }
    ensures reads { ReadsNext seat.old.me into.old.items seat.new.me into.new.items }
    ensures first { (x : Entry) → IsNext seat.old.me.0 x → result.first ≡ x.first }
    ensures tag { result.last ≡ second }
    ensures back { (result.read ≡ seat.new.me.0.driver.read) × (result.back1 ≡ seat.new.me.0.driver.back1) × (result.back2 ≡ seat.new.me.0.driver.back2) }
    ensures room { vec_capacity into.old ≤ vec_capacity into.new }
{
    let n = count_of(shape);
    let index = at.read % n;
    let first = shared.load::<Grab>(seat, (3 * n + index) as usize);
    let completion = told(first, second);
    let spot = completion.rxd_idx as u64;
    let len = completion.len as usize;
    let id = completion.rq_id as u64;
    let in_entry = is_in_data(shape, id);
    if is_in_ring1(shape, id) {
        let back1 = read_one(shared, seat, shape, into, spot, len, in_entry, at.back1);
        return Back {
            first,
            last: second,
            read: at.read + 1,
            back1,
            back2: at.back2,
        };
    }
    let back2 = read_two(shared, seat, shape, into, spot, len, at.back2);
    Back {
        first,
        last: second,
        read: at.read + 1,
        back1: at.back1,
        back2,
    }
}

/// Reads a frame, or the rest of one, whose next second word is told.
pub fn read_frame<C: TellsVisible>(
    shared: &SharedWords<C>,
    seat: &mut Seat<Buffer, Known>,
    shape: &RxShape,
    into: &mut Vec<u8>,
    fuel: u32,
    at: Back,
    second: u64,
) -> Back
    requires table { IsTable C.counted seat.old.table_id shared.now.table_id shape.now }
    requires driver { IsDriver seat.old.me shape.now }
    requires idle { seat.old.me.0.driver.reading ≡ false }
    requires at { (at.read ≡ seat.old.me.0.driver.read) × (at.back1 ≡ seat.old.me.0.driver.back1) × (at.back2 ≡ seat.old.me.0.driver.back2) }
    requires can { Reads shape.now seat.old.me fuel second (length into.old.items) }
    requires room { MAX_FRAME ≤ vec_capacity into.old }
    ensures same { (seat.new.table_id ≡ seat.old.table_id) × (seat.new.id ≡ seat.old.id) }
    ensures read { FrameRead shape.now seat.old.me fuel second into.old.items seat.new.me into.new.items }
    ensures first { (x : Entry) → IsNext seat.old.me.0 x → result.first ≡ x.first }
    ensures tag { TagRead shape.now seat.old.me fuel second into.old.items result.last }
    ensures back { (result.read ≡ seat.new.me.0.driver.read) × (result.back1 ≡ seat.new.me.0.driver.back1) × (result.back2 ≡ seat.new.me.0.driver.back2) }
    ensures room { vec_capacity into.old ≤ vec_capacity into.new }
{
    let piece = read_piece(shared, seat, shape, into, at, second);
    if RxComp::ends_packet(piece.first) {
        return piece;
    }
    let n = count_of(shape);
    let index = piece.read % n;
    let second = shared.load::<SecondLoad>(seat, (2 * n + index) as usize);
    let rest = read_frame(shared, seat, shape, into, fuel - 1, piece, second);
    Back {
        first: piece.first,
        last: rest.last,
        read: rest.read,
        back1: rest.back1,
        back2: rest.back2,
    }
}
