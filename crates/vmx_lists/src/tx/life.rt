//! How the two ends of a transmit queue are made, and how they meet.
ghost use Rattle.std.specs.Prelude.{◌≡◌, ◌<◌, ◌≤◌, true, IfOk, length, vec_len};
ghost use Rattle.vmx_ends.specs.TransmitClauses.{AreNew, IsIdle, AreEven, facts_of, IsOrdered};
ghost use Rattle.vmx_ends.specs.Queues.{least_piece};
ghost use Rattle.vmx_ends.specs.declared.limits.TheConstants.{MAX_PIECE};
ghost use Rattle.vmx_layout.specs.declared.addresses.TheConstants.{MAX_RING_SIZE};
ghost use Rattle.vmx_lists.specs.TxEnds.{driver_view, device_view, facts_view};

use super::log::TxParcel;
use super::plays::{Apart, Met, Together};
use super::{ListTxDevice, ListTxDriver, ListTxFacts, Shelf};
use std::alloc::{AllocError, Global};
use std::sync::Arc;
use vmx_ends::{MAX_FRAME, TxMade, TxMark};

/// Buffers for as many frames as there are descriptors.
fn parcels(alloc: Global, count: u32) -> Result<Vec<TxParcel>, AllocError>
    ensures count { IfOk result (λ v. vec_len v ≡ count) }
{
    let mut parcels = Vec::new(alloc);
    for _ in 0..count {
        parcels.push(TxParcel {
            bytes: Vec::from_elem(alloc, 0u8, MAX_FRAME)?,
            len: 0,
            mark: TxMark::plain(),
        })?;
    }
    Ok(parcels)
}

/// The two ends of a transmit queue. All descriptors are free. It takes the bytes of the longest frame for each
/// descriptor.
pub fn make(alloc: Global, made: TxMade) -> Result<(ListTxDriver, ListTxDevice), AllocError>
    requires size { (0 < made.size) × (made.size ≤ MAX_RING_SIZE) }
    requires piece { (least_piece made.with_data ≤ made.piece) × (made.piece ≤ MAX_PIECE) }
    requires full { made.full ≡ true }
    ensures made { IfOk result (λ p. AreNew made (driver_view p.0) (device_view p.1)) }
{
    let parcels = parcels(alloc, made.size)?;
    let Ok((table, mut seat)) = Shelf::new(alloc, &[0, 0], parcels, &made) else {
        return Err(AllocError);
    };
    let other = table.shared.split_seat::<Apart>(&mut seat);
    let table = Arc::new(alloc, table)?;
    let twin = Arc::try_clone(&table)?;
    let needs = Vec::from_elem(alloc, 0u32, made.size as usize)?;
    let driver = ListTxDriver {
        table,
        seat,
        made,
        place: 0,
        reaped: 0,
        used: 0,
        needs,
    };
    let device = ListTxDevice {
        table: twin,
        seat: other,
        made,
        place: 0,
        completed: 0,
        position: 0,
    };
    Ok((driver, device))
}

/// Lets the two ends of one queue meet: no frame is taken and not completed, and every note was heard.
pub fn meet(driver: ListTxDriver, device: ListTxDevice) -> ListTxFacts
    requires keys { (driver_view driver).key ≡ (device_view device).key }
    requires idle { IsIdle (device_view device) }
    requires even { AreEven (driver_view driver) (device_view device) }
    ensures made { (driver_view driver).made ≡ (device_view device).made }
    ensures facts { facts_view result ≡ facts_of (driver_view driver) (device_view device) }
    ensures ordered { IsOrdered (facts_view result) }
{
    let ListTxDriver {
        table,
        mut seat,
        made,
        place: sent,
        reaped,
        used: _,
        needs: _,
    } = driver;
    let ListTxDevice {
        table: _,
        seat: other,
        made: _,
        place: taken,
        completed,
        position: _,
    } = device;
    table.shared.join_seat::<Together>(&mut seat, other);
    table.shared.load::<Met>(&mut seat, 0);
    ListTxFacts {
        badge: seat.into_badge(),
        made,
        sent,
        taken,
        completed,
        reaped,
    }
}
