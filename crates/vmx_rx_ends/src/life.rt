//! How the two ends are made, and how they meet.
ghost use Rattle.std.specs.Prelude.{◌≡◌, ◌+◌, ◌<◌, ◌≤◌, IfOk, length, vec_len};
ghost use Rattle.vmx_layout.specs.declared.addresses.TheConstants.{DATA_ENTRY_SIZE};
ghost use Rattle.vmx_ring_laws.specs.Keys.{key_of};
ghost use Rattle.vmx_ends.specs.declared.limits.TheConstants.{BODY_SIZE};
ghost use Rattle.vmx_ends.specs.ReceiveClauses.{AreEven, AreNew, made_of, facts_of, IsOrdered};
ghost use Rattle.vmx_rx_ring.specs.Seats.{known};
ghost use Rattle.vmx_rx_ring.specs.Shapes.{IsShape};
ghost use Rattle.vmx_rx_ring.specs.Words.{count, more_words, room_at, second1, second2, address};
ghost use Rattle.vmx_rx_ends.specs.Views.{HasWords, device_seen, driver_seen, facts_seen};
ghost use Rattle.vmx_rx_ends.specs.Opening.{row, opening_words, HaveRoom};

use crate::filler::RxFiller;
use crate::reader::RxReader;
use atomic_table::Badge;
use std::alloc::{AllocError, Global};
use std::sync::Arc;
use vmx_ends::{BODY_SIZE, RxShape};
use vmx_layout::DATA_ENTRY_SIZE;
use vmx_rx_ring::steps::{Apart, Met, Together};
use vmx_rx_ring::{
    Buffer, Known, Shelf, TellsVisible, address_of, count_of, descriptor1, descriptor2, size_of,
    stands_body,
};

/// The bytes of the buffer in a slot.
fn room_of(shape: &RxShape, slot: u64) -> u32
    requires shape { IsShape shape.now }
    ensures room { result ≡ room_at (made_of shape.now) slot }
    ensures low { result ≤ BODY_SIZE }
{
    let shape = *shape;
    if slot < u64::from(shape.size1) {
        size_of(stands_body(&shape, slot))
    } else {
        BODY_SIZE
    }
}

/// The buffers of both rings, each with its data entry.
fn buffers(alloc: Global, shape: &RxShape) -> Result<Vec<Buffer>, AllocError>
    requires shape { IsShape shape.now }
    ensures count { IfOk result (λ v. vec_len v ≡ count (made_of shape.now)) }
    ensures rooms { IfOk result (λ v. HaveRoom (made_of shape.now) v.items) }
{
    let mut buffers = Vec::new(alloc);
    for slot in 0..count_of(shape) {
        let size = room_of(shape, slot);
        buffers.push(Buffer {
            bytes: Vec::from_elem(alloc, 0u8, size as usize)?,
            entry: Vec::from_elem(alloc, 0u8, DATA_ENTRY_SIZE as usize)?,
        })?;
    }
    Ok(buffers)
}

/// The second words of ring 1, made full.
#[tactic(auto, using(crate::proofs::Begins::row_next))]
fn ring1_words(alloc: Global, shape: &RxShape) -> Result<Vec<u64>, AllocError>
    requires shape { IsShape shape.now }
    ensures words { IfOk result (λ v. v.items ≡ row (second1 (made_of shape.now)) shape.now.size1) }
{
    let mut words = Vec::new(alloc);
    for position in 0..u64::from(shape.size1) {
        words.push(descriptor1(shape, position))?;
    }
    Ok(words)
}

/// The second words of ring 2, made full.
#[tactic(auto, using(crate::proofs::Begins::row_next))]
fn ring2_words(alloc: Global, shape: &RxShape) -> Result<Vec<u64>, AllocError>
    requires shape { IsShape shape.now }
    ensures words { IfOk result (λ v. v.items ≡ row (second2 (made_of shape.now)) shape.now.size2) }
{
    let mut words = Vec::new(alloc);
    for position in 0..u64::from(shape.size2) {
        words.push(descriptor2(shape, position))?;
    }
    Ok(words)
}

/// The first words of both rings.
#[tactic(auto, using(crate::proofs::Begins::row_next))]
fn address_words(alloc: Global, shape: &RxShape) -> Result<Vec<u64>, AllocError>
    requires shape { IsShape shape.now }
    ensures words { IfOk result (λ v. v.items ≡ row (address (made_of shape.now)) (count (made_of shape.now))) }
{
    let mut words = Vec::new(alloc);
    for slot in 0..count_of(shape) {
        words.push(address_of(shape, slot))?;
    }
    Ok(words)
}

/// How many words stand behind the rings: one, where completions are counted.
fn words_behind<C: TellsVisible>() -> u64
    ensures words { result ≡ more_words C.counted }
    ensures few { result ≤ 1 }
{
    if C::is_counted() { 1 } else { 0 }
}

/// All words of a queue at the start.
fn words<C: TellsVisible>(alloc: Global, shape: &RxShape) -> Result<Vec<u64>, AllocError>
    requires shape { IsShape shape.now }
    ensures words { IfOk result (λ v. v.items ≡ opening_words C.counted (made_of shape.now)) }
    ensures wide { IfOk result (λ v. vec_len v ≡ count (made_of shape.now) + count (made_of shape.now) + count (made_of shape.now) + count (made_of shape.now) + more_words C.counted) }
{
    let mut words = ring1_words(alloc, shape)?;
    let seconds = ring2_words(alloc, shape)?;
    let firsts = address_words(alloc, shape)?;
    let n = count_of(shape);
    let more = words_behind::<C>();
    let completions = Vec::from_elem(alloc, 0u64, (n + n + more) as usize)?;
    words.extend_from_slice(seconds.as_slice())?;
    words.extend_from_slice(firsts.as_slice())?;
    words.extend_from_slice(completions.as_slice())?;
    Ok(words)
}

/// The two ends of a queue of this shape, both rings made full.
///
/// # Errors
///
/// Want of memory.
pub fn make_ends<C: TellsVisible>(
    alloc: Global,
    shape: RxShape,
) -> Result<(RxReader<C>, RxFiller<C>), AllocError>
    requires shape { IsShape shape }
    ensures words { IfOk result (λ p. HasWords C.counted p.0.seat.table_id p.0.shape × HasWords C.counted p.1.seat.table_id p.1.shape) }
    ensures made { IfOk result (λ p. AreNew (made_of shape) (driver_seen (key_of p.0.seat.table_id) p.0.seat.me.0) (device_seen (key_of p.1.seat.table_id) p.1.seat.me.0)) }
{
    let words = words::<C>(alloc, &shape)?;
    let buffers = buffers(alloc, &shape)?;
    let Ok((table, mut seat)) = Shelf::<C>::new(alloc, words.as_slice(), buffers, &shape) else {
        return Err(AllocError);
    };
    let other = table.shared.split_seat::<Apart>(&mut seat);
    let table = Arc::new(alloc, table)?;
    let twin = Arc::try_clone(&table)?;
    let reader = RxReader {
        table,
        seat,
        shape,
        place: 0,
        read: 0,
        back1: 0,
        back2: 0,
    };
    let filler = RxFiller {
        table: twin,
        seat: other,
        shape,
        place: 0,
        published: 0,
        refusals: 0,
        next1: 0,
        next2: 0,
    };
    Ok((reader, filler))
}

/// What is left when the two ends have met.
#[derive(Drop)]
pub struct RxMeeting {
    pub badge: Badge<Known>,
    pub shape: RxShape,
    pub delivered: u64,
    pub received: u64,
    pub refused: u64,
    pub ghost made_is: { (known badge.views).made ≡ made_of shape },
    pub ghost counts: { (delivered ≡ length (known badge.views).device.delivered) × (received ≡ length (known badge.views).driver.received) × (refused ≡ length (known badge.views).device.refused) },
}

/// Lets the two ends of one queue meet: every note was heard.
pub fn meet_ends<C: TellsVisible>(reader: RxReader<C>, filler: RxFiller<C>) -> RxMeeting
    requires words { HasWords C.counted reader.seat.table_id reader.shape }
    requires keys { key_of reader.seat.table_id ≡ key_of filler.seat.table_id }
    requires even { AreEven (driver_seen (key_of reader.seat.table_id) reader.seat.me.0) (device_seen (key_of filler.seat.table_id) filler.seat.me.0) }
    ensures made { reader.seat.me.0.made ≡ filler.seat.me.0.made }
    ensures facts { facts_seen (key_of result.badge.table_id) (known result.badge.views) ≡ facts_of (driver_seen (key_of reader.seat.table_id) reader.seat.me.0) (device_seen (key_of filler.seat.table_id) filler.seat.me.0) }
    ensures ordered { IsOrdered (facts_seen (key_of result.badge.table_id) (known result.badge.views)) }
{
    let RxReader {
        table,
        mut seat,
        shape,
        place: received,
        read: _,
        back1: _,
        back2: _,
    } = reader;
    let RxFiller {
        table: _,
        seat: other,
        shape: _,
        place: delivered,
        published: _,
        refusals: refused,
        next1: _,
        next2: _,
    } = filler;
    table.shared.join_seat::<Together>(&mut seat, other);
    table.shared.load::<Met>(&mut seat, 0);
    RxMeeting {
        badge: seat.into_badge(),
        shape,
        delivered,
        received,
        refused,
    }
}
