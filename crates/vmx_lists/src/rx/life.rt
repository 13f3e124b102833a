//! How the two ends of a receive queue are made, and how they meet.
ghost use Rattle.std.specs.Prelude.{◌≡◌, ◌<◌, ◌≤◌, IfOk, vec_len};
ghost use Rattle.vmx_ends.specs.ReceiveClauses.{AreNew, AreEven, made_of, facts_of, IsOrdered};
ghost use Rattle.vmx_ends.specs.declared.limits.TheConstants.{MAX_BODIES};
ghost use Rattle.vmx_layout.specs.declared.addresses.TheConstants.{MAX_RING_SIZE};
ghost use Rattle.vmx_lists.specs.RxEnds.{driver_view, device_view, facts_view};

use super::log::RxParcel;
use super::plays::{Apart, Met, Together};
use super::{ListRxDevice, ListRxDriver, ListRxFacts, Shelf};
use std::alloc::{AllocError, Global};
use std::sync::Arc;
use vmx_ends::{MAX_FRAME, RxMeta, RxShape};

/// Buffers for as many frames as ring 1 has descriptors.
fn parcels(alloc: Global, count: u32) -> Result<Vec<RxParcel>, AllocError>
    ensures count { IfOk result (λ v. vec_len v ≡ count) }
{
    let mut parcels = Vec::new(alloc);
    for _ in 0..count {
        parcels.push(RxParcel {
            bytes: Vec::from_elem(alloc, 0u8, MAX_FRAME)?,
            len: 0,
            meta: RxMeta {
                hash: 0,
                kind: 0,
                tci: None,
            },
            passed: 0,
            pieces: 0,
        })?;
    }
    Ok(parcels)
}

/// The two ends of a receive queue. Both rings are full. It takes the bytes of the longest frame for each
/// descriptor of ring 1.
pub fn make(alloc: Global, shape: RxShape) -> Result<(ListRxDriver, ListRxDevice), AllocError>
    requires sizes { (0 < shape.size1) × (shape.size1 ≤ MAX_RING_SIZE) × (0 < shape.size2) × (shape.size2 ≤ MAX_RING_SIZE) }
    requires bodies { shape.bodies ≤ MAX_BODIES }
    ensures made { IfOk result (λ p. AreNew (made_of shape) (driver_view p.0) (device_view p.1)) }
{
    let parcels = parcels(alloc, shape.size1)?;
    let Ok((table, mut seat)) = Shelf::new(alloc, &[0, 0], parcels, &shape) else {
        return Err(AllocError);
    };
    let other = table.shared.split_seat::<Apart>(&mut seat);
    let table = Arc::new(alloc, table)?;
    let twin = Arc::try_clone(&table)?;
    let ones = Vec::from_elem(alloc, 0u64, shape.size1 as usize + 1)?;
    let twos = Vec::from_elem(alloc, 0u64, shape.size1 as usize + 1)?;
    let driver = ListRxDriver {
        table,
        seat,
        shape,
        place: 0,
        position: 0,
    };
    let device = ListRxDevice {
        table: twin,
        seat: other,
        shape,
        place: 0,
        refusals: 0,
        next1: 0,
        next2: 0,
        ones,
        twos,
    };
    Ok((driver, device))
}

/// Lets the two ends of one queue meet: every note was heard.
pub fn meet(driver: ListRxDriver, device: ListRxDevice) -> ListRxFacts
    requires keys { (driver_view driver).key ≡ (device_view device).key }
    requires even { AreEven (driver_view driver) (device_view device) }
    ensures made { (driver_view driver).made ≡ (device_view device).made }
    ensures facts { facts_view result ≡ facts_of (driver_view driver) (device_view device) }
    ensures ordered { IsOrdered (facts_view result) }
{
    let ListRxDriver {
        table,
        mut seat,
        shape,
        place: received,
        position: _,
    } = driver;
    let ListRxDevice {
        table: _,
        seat: other,
        shape: _,
        place: delivered,
        refusals: refused,
        next1: _,
        next2: _,
        ones: _,
        twos: _,
    } = device;
    table.shared.join_seat::<Together>(&mut seat, other);
    table.shared.load::<Met>(&mut seat, 0);
    ListRxFacts {
        badge: seat.into_badge(),
        shape,
        delivered,
        received,
        refused,
    }
}
