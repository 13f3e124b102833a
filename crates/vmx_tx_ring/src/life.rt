//! How the two ends of a transmit ring are made, and how they meet.
ghost use Rattle.std.specs.Prelude.{◌≡◌, ◌<◌, ◌≤◌, ◌+◌, ◌*◌, true, false, IfOk, length, take, vec_len, []};
ghost use Rattle.vmx_layout.specs.declared.addresses.TheConstants.{MAX_RING_SIZE};
ghost use Rattle.vmx_ends.specs.declared.limits.TheConstants.{MAX_PIECE};
ghost use Rattle.vmx_ends.specs.Frames.{sent_of};
ghost use Rattle.vmx_ends.specs.Queues.{least_piece};
ghost use Rattle.vmx_ends.specs.Transmit.{descriptors};
ghost use Rattle.vmx_tx_ring.specs.Seats.{newcomer, driver_part, device_part, known, together};
ghost use mathlib.Core.List.{IsPrefix};

use crate::known::{TellsCompletions, TxBuffer, TxKnown};
use crate::reader::TxReader;
use crate::steps::{Apart, Met, Together};
use crate::writer::{Shelf, TxWriter};
use atomic_table::Badge;
use std::alloc::{AllocError, Global};
use std::sync::Arc;
use vmx_ends::{MAX_PIECE, TxMade};
use vmx_layout::DATA_ENTRY_SIZE;

/// As many buffers as there are descriptors, each with its data entry.
fn buffers(alloc: Global, count: u32) -> Result<Vec<TxBuffer>, AllocError>
    ensures count { IfOk result (λ v. vec_len v ≡ count) }
{
    let mut buffers = Vec::new(alloc);
    for _ in 0..count {
        buffers.push(TxBuffer {
            bytes: Vec::from_elem(alloc, 0u8, MAX_PIECE as usize)?,
            entry: Vec::from_elem(alloc, 0u8, DATA_ENTRY_SIZE as usize)?,
        })?;
    }
    Ok(buffers)
}

/// The two ends of a transmit ring. All descriptors are free. It takes 4,240 bytes a descriptor, and those of the words
/// that tell completions.
pub fn make_ring<C: TellsCompletions>(
    alloc: Global,
    made: TxMade,
) -> Result<(TxWriter<C>, TxReader<C>), AllocError>
    requires size { (0 < made.size) × (made.size ≤ MAX_RING_SIZE) }
    requires piece { (least_piece made.with_data ≤ made.piece) × (made.piece ≤ MAX_PIECE) }
    requires full { made.full ≡ true }
    ensures driver { IfOk result (λ p. p.0.seat.me.0 ≡ driver_part (newcomer made)) }
    ensures device { IfOk result (λ p. p.1.seat.me.0 ≡ device_part (newcomer made)) }
    ensures one { IfOk result (λ p. (p.1.seat.table_id ≡ p.0.seat.table_id) × (p.0.seat.table_id.words ≡ made.size + (made.size + C.count made.size)) × (p.0.made ≡ made) × (p.1.made ≡ made)) }
{
    let buffers = buffers(alloc, made.size)?;
    let words = Vec::from_elem(alloc, 0u64, made.size as usize * 2 + C::words(made.size))?;
    let Ok((table, mut seat)) = Shelf::<C>::new(alloc, words.as_slice(), buffers, &made) else {
        return Err(AllocError);
    };
    let other = table.shared.split_seat::<Apart>(&mut seat);
    let table = Arc::new(alloc, table)?;
    let twin = Arc::try_clone(&table)?;
    let writer = TxWriter {
        table,
        seat,
        made,
        posted: 0,
        published: 0,
        returned: 0,
        place: 0,
        reaped: 0,
        first: 0,
    };
    let reader = TxReader {
        table: twin,
        seat: other,
        made,
        read: 0,
        place: 0,
        completed: 0,
    };
    Ok((writer, reader))
}

/// What is left when the two ends have met.
#[derive(Drop)]
pub struct TxMeeting {
    pub badge: Badge<TxKnown>,
    pub made: TxMade,
    pub sent: u64,
    pub taken: u64,
    pub completed: u64,
    pub reaped: u64,
    pub ghost made_is: { (known badge.views).made ≡ made },
    pub ghost lists: { (sent ≡ length (known badge.views).driver.at.sent) × (taken ≡ length (known badge.views).device.at.taken) },
    pub ghost numbers: { (completed ≡ (known badge.views).device.at.completed) × (reaped ≡ (known badge.views).driver.at.reaped) },
}

/// Lets the two ends of one ring meet.
pub fn meet_ring<C: TellsCompletions>(writer: TxWriter<C>, reader: TxReader<C>) -> TxMeeting
    requires one { reader.seat.table_id ≡ writer.seat.table_id }
    ensures key { result.badge.table_id ≡ writer.seat.table_id }
    ensures made { writer.seat.me.0.made ≡ reader.seat.me.0.made }
    ensures both { known result.badge.views ≡ together writer.seat.me.0 reader.seat.me.0 }
    ensures taken { IsPrefix (sent_of reader.seat.me.0.device.at.taken) writer.seat.me.0.driver.at.sent }
    ensures numbers { (writer.seat.me.0.driver.at.reaped ≤ reader.seat.me.0.device.at.completed) × (reader.seat.me.0.device.at.completed ≤ length reader.seat.me.0.device.at.taken) }
    ensures within { let v = writer.seat.me.0 in descriptors v.made v.driver.at.sent ≤ descriptors v.made (take v.driver.at.reaped v.driver.at.sent) + v.made.size }
{
    let TxWriter {
        table,
        mut seat,
        made,
        posted: _,
        published: _,
        returned: _,
        place: sent,
        reaped,
        first: _,
    } = writer;
    let TxReader {
        table: _,
        seat: other,
        made: _,
        read: _,
        place: taken,
        completed,
    } = reader;
    table.shared.join_seat::<Together>(&mut seat, other);
    table.shared.load::<Met>(&mut seat, 0);
    TxMeeting {
        badge: seat.into_badge(),
        made,
        sent,
        taken,
        completed,
        reaped,
    }
}
