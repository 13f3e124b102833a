//! The queues over lists beside the plain ones, event by event, and the readers of their facts after all.
ghost use Rattle.std.specs.Prelude.{◌≡◌, ◌≤◌, ◌<◌, ◌+◌, ◌*◌, ◌%◌, ◌^◌, length, true, false, vec_len, vec_capacity};
ghost use Rattle.vmx_ends.specs.Frames.{IsSome};
ghost use Rattle.vmx_ends.specs.Queues.{least_piece};
ghost use Rattle.vmx_io.specs.declared.buffer.TheConstants.{MAX_FRAME};
ghost use Rattle.vmx_ends.specs.Transmit.{posted, found_in};
ghost use Rattle.vmx_ends.specs.TransmitClauses.{IsIdle, AreEven};
ghost use Rattle.vmx_ends.specs.Receive.{used, pieces_of, consumed1, consumed2};
ghost use Rattle.vmx_ends.specs.ReceiveClauses.{AreEven as AreEvenRx};
ghost use Rattle.vmx_lists.specs.TxEnds.{driver_view, device_view};
ghost use Rattle.vmx_lists.specs.RxEnds.{driver_view as rx_driver, device_view as rx_device};

use crate::{Delivered, PlainRx, PlainTx, Reaped, Received, Taken};
use std::alloc::{AllocError, Global};
use vmx_ends::{
    Deliver, Fabric, MAX_FRAME, QueueName, Reap, Receive, RxDevice, RxDriver, RxFacts, RxMeta,
    RxShape, Take, TxDevice, TxDriver, TxFacts, TxMade, TxMark,
};
use vmx_genring::Ring;
use vmx_layout::RX_DESC_GENERATION_BIT;
use vmx_lists::{ListFabric, ListRxDevice, ListRxDriver, ListTxDevice, ListTxDriver};

/// What happens, in order: 0 reaps, 1 takes and completes, and each other number posts a frame of so many bytes.
const EVENTS: [usize; 64] = [
    0, 1, 9014, 9022, 14, 60, 1, 0, 4096, 4097, 1, 1, 0, 9000, 9000, 9000, 9000, 9000, 9000, 9000,
    9000, 9000, 1, 0, 0, 0, 8193, 60, 60, 60, 1, 1, 1, 1, 1, 1, 1, 1, 1, 1, 0, 0, 0, 0, 0, 0, 0,
    60, 8192, 60, 9022, 9022, 9022, 9022, 9022, 9022, 9022, 1, 0, 9022, 1, 1, 0, 0,
];

/// Takes and completes the next frame of the queue over lists, and tells its place and mark.
fn serves(device: &mut ListTxDevice, into: &mut Vec<u8>) -> Option<Taken>
    requires idle { IsIdle (device_view device.old) }
    requires small { (length (device_view device.old).taken < 2 ^ 60) × (found_in (device_view device.old).taken < 2 ^ 60) }
    requires full { (device_view device.old).made.full ≡ true }
    requires room { MAX_FRAME ≤ vec_capacity into.old }
    ensures idle { IsIdle (device_view device.new) }
    ensures full { (device_view device.new).made.full ≡ true }
    ensures key { (device_view device.new).key ≡ (device_view device.old).key }
    ensures notes { ((device_view device.new).notes_given ≡ (device_view device.old).notes_given) × ((device_view device.new).notes_heard ≡ (device_view device.old).notes_heard) }
    ensures grows { (length (device_view device.new).taken ≤ length (device_view device.old).taken + 1) × (found_in (device_view device.new).taken ≤ found_in (device_view device.old).taken + 16) }
    ensures room { MAX_FRAME ≤ vec_capacity into.new }
{
    into.clear();
    match device.take(into) {
        Take::Frame { place, mark } => {
            device.complete();
            Some(Taken { place, mark })
        }
        Take::Empty { word: _ } => None,
        Take::Bad { words: _, fault: _ } => None,
    }
}

/// The mark of the frame that is posted at this event: a tag where there is room for one, and an offload by turns.
fn mark_of(at: u16, bytes: usize) -> TxMark
    ensures room { IsSome result.tci → bytes ≤ 9018 }
{
    let tci = if at % 3 == 0 || bytes > 9018 {
        None
    } else {
        Some(at)
    };
    let om = if at % 2 == 0 { 0 } else { 3 };
    TxMark {
        tci,
        om,
        hlen: at as u32 % 100,
        msscof: 1460,
    }
}

/// One event at both: whether all answers and all bytes were the same.
fn step(
    alloc: Global,
    at: u64,
    event: usize,
    driver: &mut ListTxDriver,
    device: &mut ListTxDevice,
    plain: &mut PlainTx,
    listed: &mut Vec<u8>,
    plainly: &mut Vec<u8>,
) -> Result<bool, AllocError>
    requires event { event ≤ MAX_FRAME }
    requires at { at ≤ 1000 }
    requires driver { (length (driver_view driver.old).sent ≤ at) × (posted (driver_view driver.old) ≤ 16 * at) × ((driver_view driver.old).reaped ≤ at) }
    requires device { (length (device_view device.old).taken ≤ at) × (found_in (device_view device.old).taken ≤ 16 * at) }
    requires one { (driver_view driver.old).key ≡ (device_view device.old).key }
    requires even { AreEven (driver_view driver.old) (device_view device.old) }
    requires idle { IsIdle (device_view device.old) }
    requires full { (device_view device.old).made.full ≡ true }
    requires room { (MAX_FRAME ≤ vec_capacity listed.old) × (MAX_FRAME ≤ vec_capacity plainly.old) }
    ensures one { (driver_view driver.new).key ≡ (device_view device.new).key }
    ensures even { AreEven (driver_view driver.new) (device_view device.new) }
    ensures driver { (length (driver_view driver.new).sent ≤ at + 1) × (posted (driver_view driver.new) ≤ 16 * (at + 1)) × ((driver_view driver.new).reaped ≤ at + 1) }
    ensures device { (length (device_view device.new).taken ≤ at + 1) × (found_in (device_view device.new).taken ≤ 16 * (at + 1)) }
    ensures idle { IsIdle (device_view device.new) }
    ensures full { (device_view device.new).made.full ≡ true }
    ensures room { (MAX_FRAME ≤ vec_capacity listed.new) × (MAX_FRAME ≤ vec_capacity plainly.new) }
{
    if event == 0 {
        let reaped = driver.reap();
        return Ok(match plain.reap() {
            Some(Reaped { place, descriptors }) => reaped == (Reap::Done { place, descriptors }),
            None => matches!(reaped, Reap::NotYet { word: _ }),
        });
    }
    if event < 14 {
        let taken = serves(device, listed);
        plainly.clear();
        let other = plain.take(plainly);
        if plain.completed < plain.taken {
            plain.complete();
        }
        return Ok(taken == other && listed.as_slice() == plainly.as_slice());
    }
    let frame = Vec::from_elem(alloc, (at % 251) as u8, event)?;
    let mark = mark_of(at as u16, event);
    let post = driver.post(frame.as_slice(), &mark);
    Ok(post == plain.post(alloc, frame.as_slice(), &mark)?)
}

const NAME: QueueName = QueueName {
    guest: 0,
    activation: 0,
    queue: 0,
};

/// The bytes of a piece, and whether there is a data ring.
const PIECES: [(u32, bool); 4] = [(4096, false), (576, false), (4096, true), (640, true)];

/// Whether all events over a queue that is made so, and then the readers of its facts, are the plain program's.
fn post_alike(alloc: Global, piece: u32, with_data: bool) -> Result<bool, AllocError>
    requires piece { (least_piece with_data ≤ piece) × (piece ≤ 4096) }
{
    let made = TxMade {
        name: NAME,
        size: 32,
        piece,
        with_data,
        full: true,
    };
    let (mut driver, mut device) = ListFabric::make_tx(alloc, NAME, 32, piece, with_data)?;
    let mut plain = PlainTx::new(alloc, made);
    let mut listed = Vec::new(alloc);
    listed.reserve(MAX_FRAME)?;
    let mut plainly = Vec::new(alloc);
    plainly.reserve(MAX_FRAME)?;
    for at in 0..64u64 {
        let event = EVENTS[at as usize];
        if event > MAX_FRAME {
            return Ok(false);
        }
        let same = step(
            alloc,
            at,
            event,
            &mut driver,
            &mut device,
            &mut plain,
            &mut listed,
            &mut plainly,
        )?;
        if !same {
            return Ok(false);
        }
    }
    let facts = ListFabric::meet_tx(driver, device);
    Ok(
        facts.name() == NAME
            && facts.sent() == plain.sent.len() as u64
            && facts.taken() == plain.taken as u64
            && facts.completed() == plain.completed as u64
            && facts.reaped() == plain.reaped as u64,
    )
}

#[test]
fn the_queue_over_lists_answers_as_the_plain_one(rt: HostRuntime) -> Result<(), AllocError> {
    let alloc = rt.alloc();
    for (piece, with_data) in PIECES {
        assert!(rt; 576 <= piece && piece <= 4096 && (!with_data || 640 <= piece));
        let same = post_alike(alloc, piece, with_data)?;
        assert!(rt; same, "{piece} {with_data}");
    }
    Ok(())
}

/// What happens to a receive queue, in order: 0 receives, and each other number delivers a frame of so many bytes.
const ARRIVALS: [usize; 96] = [
    2048, 1514, 1514, 1514, 0, 0, 0, 0, 0, 0, 0, 0, 0, 0, 9022, 9014, 60, 2048, 60, 1514, 2048,
    1514, 9022, 9014, 9022, 4096, 6144, 9000, 14, 0, 0, 60, 0, 2048, 9014, 6144, 9022, 0, 60, 60,
    0, 0, 9014, 6145, 9000, 4096, 6144, 9000, 6145, 6144, 2049, 9000, 6144, 6145, 0, 0, 9000, 9014,
    1514, 60, 0, 0, 6144, 0, 9000, 60, 14, 6144, 0, 4096, 60, 9014, 2049, 60, 60, 9022, 2048, 0,
    9022, 0, 0, 9000, 0, 0, 9014, 0, 2049, 14, 14, 14, 9022, 6144, 14, 6145, 0, 0,
];

/// Descriptors of ring 1 and of ring 2, BODY descriptors behind each HEAD, and whether there is a data ring. The events above find every one of these
/// somewhere: too few heads, too few bodies of ring 2, bodies that are passed over, both laps of both rings.
const SHAPES: [(u32, u32, u32, bool); 5] = [
    (32, 32, 0, false),
    (32, 32, 1, true),
    (64, 32, 1, false),
    (32, 64, 2, false),
    (96, 32, 0, false),
];

/// The word that a refused look of a queue over lists shows: bit 31 is not the position's generation, and no other is set.
fn missed(shape: &RxShape, ring: u32, position: u64) -> u64
    requires sizes { (0 < shape.now.size1) × (shape.now.size1 ≤ 4096) × (0 < shape.now.size2) × (shape.now.size2 ≤ 4096) }
{
    let shape = *shape;
    let size = if ring == 1 { shape.size1 } else { shape.size2 };
    if Ring::new(size).generation(position) {
        0
    } else {
        1 << RX_DESC_GENERATION_BIT
    }
}

/// One event at both: whether all answers and all bytes were the same.
fn arrives(
    alloc: Global,
    at: u64,
    event: usize,
    driver: &mut ListRxDriver,
    device: &mut ListRxDevice,
    plain: &mut PlainRx,
    listed: &mut Vec<u8>,
    plainly: &mut Vec<u8>,
) -> Result<bool, AllocError>
    requires event { event ≤ MAX_FRAME }
    requires at { at ≤ 1000 }
    requires one { (rx_driver driver.old).key ≡ (rx_device device.old).key }
    requires even { AreEvenRx (rx_driver driver.old) (rx_device device.old) }
    requires driver { (length (rx_driver driver.old).received ≤ at) × (used pieces_of (rx_driver driver.old).received ≤ 16 * at) }
    requires device { (length (rx_device device.old).delivered ≤ at) × (length (rx_device device.old).refused ≤ at) }
    requires positions { (consumed1 (rx_device device.old) ≤ 16 * at) × (consumed2 (rx_device device.old) ≤ 16 * at) }
    requires plain { (plain.old.one.left ≤ 16 * at) × (plain.old.two.left ≤ 16 * at) }
    requires full { ((rx_driver driver.old).made.full ≡ true) × ((rx_device device.old).made.full ≡ true) }
    requires room { (MAX_FRAME ≤ vec_capacity listed.old) × (MAX_FRAME ≤ vec_capacity plainly.old) }
    ensures one { (rx_driver driver.new).key ≡ (rx_device device.new).key }
    ensures even { AreEvenRx (rx_driver driver.new) (rx_device device.new) }
    ensures driver { (length (rx_driver driver.new).received ≤ at + 1) × (used pieces_of (rx_driver driver.new).received ≤ 16 * (at + 1)) }
    ensures device { (length (rx_device device.new).delivered ≤ at + 1) × (length (rx_device device.new).refused ≤ at + 1) }
    ensures positions { (consumed1 (rx_device device.new) ≤ 16 * (at + 1)) × (consumed2 (rx_device device.new) ≤ 16 * (at + 1)) }
    ensures plain { (plain.new.one.left ≤ 16 * (at + 1)) × (plain.new.two.left ≤ 16 * (at + 1)) }
    ensures full { ((rx_driver driver.new).made.full ≡ true) × ((rx_device device.new).made.full ≡ true) }
    ensures room { (MAX_FRAME ≤ vec_capacity listed.new) × (MAX_FRAME ≤ vec_capacity plainly.new) }
{
    if event < 14 {
        listed.clear();
        plainly.clear();
        let got = driver.receive(listed);
        let same = match plain.receive(alloc, plainly)? {
            Some(
                Received {
                    place,
                    meta,
                    descriptors,
                },
            ) => {
                got == (Receive::Frame {
                    place,
                    meta,
                    descriptors,
                })
            }
            None => matches!(got, Receive::NotYet { word: _ }),
        };
        return Ok(same && listed.as_slice() == plainly.as_slice());
    }
    let frame = Vec::from_elem(alloc, (at % 251) as u8, event)?;
    let meta = RxMeta {
        hash: at as u32,
        kind: (at % 5) as u32,
        tci: if at % 3 == 0 { None } else { Some(at as u16) },
    };
    let got = device.deliver(frame.as_slice(), &meta);
    Ok(match plain.deliver(alloc, frame.as_slice(), &meta)? {
        Delivered::Done { place } => got == (Deliver::Done { place }),
        Delivered::NoBuffer {
            ring,
            position,
            look,
        } => {
            got == (Deliver::NoBuffer {
                ring,
                position,
                word: missed(&plain.shape, ring, position),
                look,
            })
        }
    })
}

/// Whether all events over a queue of this shape, and then the readers of its facts, are the plain program's.
fn arrive_alike(alloc: Global, shape: RxShape) -> Result<bool, AllocError>
    requires sizes { (32 ≤ shape.size1) × (shape.size1 ≤ 4096) × (shape.size1 % 32 ≡ 0) × (32 ≤ shape.size2) × (shape.size2 ≤ 4096) × (shape.size2 % 32 ≡ 0) }
    requires bodies { shape.bodies ≤ 2 }
    requires queues { (shape.queues ≡ 1) × (shape.name.queue ≡ 0) }
{
    let (mut driver, mut device) = ListFabric::make_rx(
        alloc,
        shape.name,
        shape.size1,
        shape.size2,
        shape.bodies,
        shape.queues,
        shape.with_data,
    )?;
    let mut plain = PlainRx::new(alloc, shape)?;
    let mut listed = Vec::new(alloc);
    listed.reserve(MAX_FRAME)?;
    let mut plainly = Vec::new(alloc);
    plainly.reserve(MAX_FRAME)?;
    for at in 0..96u64 {
        let event = ARRIVALS[at as usize];
        if event > MAX_FRAME {
            return Ok(false);
        }
        let same = arrives(
            alloc,
            at,
            event,
            &mut driver,
            &mut device,
            &mut plain,
            &mut listed,
            &mut plainly,
        )?;
        if !same {
            return Ok(false);
        }
    }
    let facts = ListFabric::meet_rx(driver, device);
    Ok(
        facts.name() == shape.name
            && facts.delivered() == plain.delivered.len() as u64
            && facts.received() == plain.received as u64
            && facts.refused() == plain.refused.len() as u64,
    )
}

#[test]
fn the_receive_queue_over_lists_answers_as_the_plain_one(
    rt: HostRuntime,
) -> Result<(), AllocError> {
    let alloc = rt.alloc();
    for (size1, size2, bodies, with_data) in SHAPES {
        assert!(rt; 32 <= size1 && size1 <= 4096 && size1 % 32 == 0);
        assert!(rt; 32 <= size2 && size2 <= 4096 && size2 % 32 == 0);
        assert!(rt; bodies <= 2);
        let shape = RxShape {
            name: NAME,
            queues: 1,
            size1,
            size2,
            bodies,
            with_data,
        };
        let same = arrive_alike(alloc, shape)?;
        assert!(rt; same, "{size1} {size2} {bodies}");
    }
    Ok(())
}

#[test]
fn a_first_long_frame_takes_two_of_ring_1_and_one_of_ring_2(
    rt: HostRuntime,
) -> Result<(), AllocError> {
    let alloc = rt.alloc();
    let shape = RxShape {
        name: NAME,
        queues: 1,
        size1: 32,
        size2: 32,
        bodies: 1,
        with_data: false,
    };
    let mut plain = PlainRx::new(alloc, shape)?;
    let frame = Vec::from_elem(alloc, 5u8, 9014)?;
    let meta = RxMeta {
        hash: 3,
        kind: 1,
        tci: None,
    };
    let first = plain.deliver(alloc, frame.as_slice(), &meta)?;
    assert!(rt; first == Delivered::Done { place: 0 });
    assert!(rt; plain.delivered.len() == 1);
    let first = plain.delivered.at(0);
    assert!(rt; first.passed == 0);
    assert!(rt; first.chain.as_slice() == [(1u32, 0u64), (1, 1), (2, 0)].as_slice());
    Ok(())
}
