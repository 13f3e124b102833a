//! The queues of each fabric of words beside the plain ones, event by event, and the readers of their facts after all.
ghost use Rattle.std.specs.Prelude.{◌≡◌, ◌≤◌, ◌<◌, ◌+◌, ◌*◌, ◌%◌, ◌^◌, length, true, false, vec_len, vec_capacity};
ghost use Rattle.vmx_ends.specs.Frames.{IsSome};
ghost use Rattle.vmx_ends.specs.Queues.{least_piece};
ghost use Rattle.vmx_io.specs.declared.buffer.TheConstants.{MAX_FRAME};
ghost use Rattle.vmx_ends.specs.Transmit.{posted, found_in};
ghost use Rattle.vmx_ends.specs.TransmitClauses.{IsIdle, AreEven};
ghost use Rattle.vmx_ends.specs.Receive.{used, pieces_of, consumed1, consumed2};
ghost use Rattle.vmx_ends.specs.ReceiveClauses.{AreEven as AreEvenRx};

use std::alloc::{AllocError, Global};
use vmx_ends::{
    Deliver, Fabric, MAX_FRAME, QueueName, Reap, Receive, RxDevice, RxDriver, RxFacts, RxMeta,
    RxShape, Take, TxDevice, TxDriver, TxFacts, TxMade, TxMark,
};
use vmx_queue_reference::{Delivered, PlainRx, PlainTx, Reaped, Received, Taken};
use vmx_report::QueueFabric;
use vmx_rings::RingFabric;

/// What happens, in order: 0 reaps, 1 takes and completes, and each other number posts a frame of so many bytes.
const EVENTS: [usize; 64] = [
    0, 1, 9014, 9022, 14, 60, 1, 0, 4096, 4097, 1, 1, 0, 9000, 9000, 9000, 9000, 9000, 9000, 9000,
    9000, 9000, 1, 0, 0, 0, 8193, 60, 60, 60, 1, 1, 1, 1, 1, 1, 1, 1, 1, 1, 0, 0, 0, 0, 0, 0, 0,
    60, 8192, 60, 9022, 9022, 9022, 9022, 9022, 9022, 9022, 1, 0, 9022, 1, 1, 0, 0,
];

/// Takes and completes the next frame, and tells its place and mark.
fn serves<F: Fabric>(device: &mut F::TxDevice, into: &mut Vec<u8>) -> Option<Taken>
    requires idle { IsIdle (F.TxDevice.view device.old) }
    requires small { (length (F.TxDevice.view device.old).taken < 2 ^ 60) × (found_in (F.TxDevice.view device.old).taken < 2 ^ 60) }
    requires full { (F.TxDevice.view device.old).made.full ≡ true }
    requires room { MAX_FRAME ≤ vec_capacity into.old }
    ensures idle { IsIdle (F.TxDevice.view device.new) }
    ensures full { (F.TxDevice.view device.new).made.full ≡ true }
    ensures key { (F.TxDevice.view device.new).key ≡ (F.TxDevice.view device.old).key }
    ensures notes { ((F.TxDevice.view device.new).notes_given ≡ (F.TxDevice.view device.old).notes_given) × ((F.TxDevice.view device.new).notes_heard ≡ (F.TxDevice.view device.old).notes_heard) }
    ensures grows { (length (F.TxDevice.view device.new).taken ≤ length (F.TxDevice.view device.old).taken + 1) × (found_in (F.TxDevice.view device.new).taken ≤ found_in (F.TxDevice.view device.old).taken + 16) }
    ensures room { MAX_FRAME ≤ vec_capacity into.new }
{
    into.clear();
    match device.take(into) {
        Take::Frame { place, mark } => {
            device.complete();
            Some(Taken { place, mark })
        }
        Take::Empty { word: _ } => None,
        Take::Bad { words: _, fault: _ } => None,
    }
}

/// The mark of the frame that is posted at this event: a tag where there is room for one, and an offload by turns.
fn mark_of(at: u16, bytes: usize) -> TxMark
    ensures room { IsSome result.tci → bytes ≤ 9018 }
{
    let tci = if at % 3 == 0 || bytes > 9018 {
        None
    } else {
        Some(at)
    };
    let om = if at % 2 == 0 { 0 } else { 3 };
    TxMark {
        tci,
        om,
        hlen: at as u32 % 100,
        msscof: 1460,
    }
}

/// One event at both: whether all answers and all bytes were the same.
fn step<F: Fabric>(
    alloc: Global,
    at: u64,
    event: usize,
    driver: &mut F::TxDriver,
    device: &mut F::TxDevice,
    plain: &mut PlainTx,
    listed: &mut Vec<u8>,
    plainly: &mut Vec<u8>,
) -> Result<bool, AllocError>
    requires event { event ≤ MAX_FRAME }
    requires at { at ≤ 1000 }
    requires driver { (length (F.TxDriver.view driver.old).sent ≤ at) × (posted (F.TxDriver.view driver.old) ≤ 16 * at) × ((F.TxDriver.view driver.old).reaped ≤ at) }
    requires device { (length (F.TxDevice.view device.old).taken ≤ at) × (found_in (F.TxDevice.view device.old).taken ≤ 16 * at) }
    requires one { (F.TxDriver.view driver.old).key ≡ (F.TxDevice.view device.old).key }
    requires even { AreEven (F.TxDriver.view driver.old) (F.TxDevice.view device.old) }
    requires idle { IsIdle (F.TxDevice.view device.old) }
    requires full { (F.TxDevice.view device.old).made.full ≡ true }
    requires room { (MAX_FRAME ≤ vec_capacity listed.old) × (MAX_FRAME ≤ vec_capacity plainly.old) }
    ensures one { (F.TxDriver.view driver.new).key ≡ (F.TxDevice.view device.new).key }
    ensures even { AreEven (F.TxDriver.view driver.new) (F.TxDevice.view device.new) }
    ensures driver { (length (F.TxDriver.view driver.new).sent ≤ at + 1) × (posted (F.TxDriver.view driver.new) ≤ 16 * (at + 1)) × ((F.TxDriver.view driver.new).reaped ≤ at + 1) }
    ensures device { (length (F.TxDevice.view device.new).taken ≤ at + 1) × (found_in (F.TxDevice.view device.new).taken ≤ 16 * (at + 1)) }
    ensures idle { IsIdle (F.TxDevice.view device.new) }
    ensures full { (F.TxDevice.view device.new).made.full ≡ true }
    ensures room { (MAX_FRAME ≤ vec_capacity listed.new) × (MAX_FRAME ≤ vec_capacity plainly.new) }
{
    if event == 0 {
        let reaped = driver.reap();
        return Ok(match plain.reap() {
            Some(Reaped { place, descriptors }) => reaped == (Reap::Done { place, descriptors }),
            None => matches!(reaped, Reap::NotYet { word: _ }),
        });
    }
    if event < 14 {
        let taken = serves::<F>(device, listed);
        plainly.clear();
        let other = plain.take(plainly);
        if plain.completed < plain.taken {
            plain.complete();
        }
        return Ok(taken == other && listed.as_slice() == plainly.as_slice());
    }
    let frame = Vec::from_elem(alloc, (at % 251) as u8, event)?;
    let mark = mark_of(at as u16, event);
    let post = driver.post(frame.as_slice(), &mark);
    Ok(post == plain.post(alloc, frame.as_slice(), &mark)?)
}

const NAME: QueueName = QueueName {
    guest: 0,
    activation: 0,
    queue: 0,
};

/// The bytes of a piece, and whether there is a data ring.
const PIECES: [(u32, bool); 4] = [(4096, false), (576, false), (4096, true), (640, true)];

/// Whether all events over a queue that is made so, and then the readers of its facts, are the plain program's.
fn post_alike<F: Fabric>(alloc: Global, piece: u32, with_data: bool) -> Result<bool, AllocError>
    requires piece { (least_piece with_data ≤ piece) × (piece ≤ 4096) }
{
    let made = TxMade {
        name: NAME,
        size: 32,
        piece,
        with_data,
        full: true,
    };
    let (mut driver, mut device) = F::make_tx(alloc, NAME, 32, piece, with_data)?;
    let mut plain = PlainTx::new(alloc, made);
    let mut listed = Vec::new(alloc);
    listed.reserve(MAX_FRAME)?;
    let mut plainly = Vec::new(alloc);
    plainly.reserve(MAX_FRAME)?;
    for at in 0..64u64 {
        let event = EVENTS[at as usize];
        if event > MAX_FRAME {
            return Ok(false);
        }
        let same = step::<F>(
            alloc,
            at,
            event,
            &mut driver,
            &mut device,
            &mut plain,
            &mut listed,
            &mut plainly,
        )?;
        if !same {
            return Ok(false);
        }
    }
    let facts = F::meet_tx(driver, device);
    Ok(
        facts.name() == NAME
            && facts.sent() == plain.sent.len() as u64
            && facts.taken() == plain.taken as u64
            && facts.completed() == plain.completed as u64
            && facts.reaped() == plain.reaped as u64,
    )
}

/// Whether all events over the transmit queues of a fabric are the plain program's.
fn posts_alike<F: Fabric>(alloc: Global) -> Result<bool, AllocError> {
    for (piece, with_data) in PIECES {
        let lawful = 576 <= piece && piece <= 4096 && (!with_data || 640 <= piece);
        if !lawful || !post_alike::<F>(alloc, piece, with_data)? {
            return Ok(false);
        }
    }
    Ok(true)
}

#[test]
fn transmit_rings_answer_as_the_plain_queue(rt: HostRuntime) -> Result<(), AllocError> {
    let same = posts_alike::<RingFabric>(rt.alloc())?;
    assert!(rt; same);
    Ok(())
}

#[test]
fn atomic_transmit_queues_answer_as_the_plain_queue(rt: HostRuntime) -> Result<(), AllocError> {
    let same = posts_alike::<QueueFabric>(rt.alloc())?;
    assert!(rt; same);
    Ok(())
}

/// What happens to a receive queue, in order: 0 receives, and each other number delivers a frame of so many bytes.
const ARRIVALS: [usize; 96] = [
    2048, 1514, 1514, 1514, 0, 0, 0, 0, 0, 0, 0, 0, 0, 0, 9022, 9014, 60, 2048, 60, 1514, 2048,
    1514, 9022, 9014, 9022, 4096, 6144, 9000, 14, 0, 0, 60, 0, 2048, 9014, 6144, 9022, 0, 60, 60,
    0, 0, 9014, 6145, 9000, 4096, 6144, 9000, 6145, 6144, 2049, 9000, 6144, 6145, 0, 0, 9000, 9014,
    1514, 60, 0, 0, 6144, 0, 9000, 60, 14, 6144, 0, 4096, 60, 9014, 2049, 60, 60, 9022, 2048, 0,
    9022, 0, 0, 9000, 0, 0, 9014, 0, 2049, 14, 14, 14, 9022, 6144, 14, 6145, 0, 0,
];

/// Descriptors of ring 1 and of ring 2, BODY descriptors behind each HEAD, and whether there is a data ring. The events above find every one of these
/// somewhere: too few heads, too few bodies of ring 2, bodies that are passed over, both laps of both rings.
const SHAPES: [(u32, u32, u32, bool); 5] = [
    (32, 32, 0, false),
    (32, 32, 1, true),
    (64, 32, 1, false),
    (32, 64, 2, false),
    (96, 32, 0, false),
];

/// One event at both: whether all answers and all bytes were the same.
fn arrives<F: Fabric>(
    alloc: Global,
    at: u64,
    event: usize,
    driver: &mut F::RxDriver,
    device: &mut F::RxDevice,
    plain: &mut PlainRx,
    listed: &mut Vec<u8>,
    plainly: &mut Vec<u8>,
) -> Result<bool, AllocError>
    requires event { event ≤ MAX_FRAME }
    requires at { at ≤ 1000 }
    requires one { (F.RxDriver.view driver.old).key ≡ (F.RxDevice.view device.old).key }
    requires even { AreEvenRx (F.RxDriver.view driver.old) (F.RxDevice.view device.old) }
    requires driver { (length (F.RxDriver.view driver.old).received ≤ at) × (used pieces_of (F.RxDriver.view driver.old).received ≤ 16 * at) }
    requires device { (length (F.RxDevice.view device.old).delivered ≤ at) × (length (F.RxDevice.view device.old).refused ≤ at) }
    requires positions { (consumed1 (F.RxDevice.view device.old) ≤ 16 * at) × (consumed2 (F.RxDevice.view device.old) ≤ 16 * at) }
    requires given { (F.RxDevice.view device.old).given ≡ false }
    requires plain { (plain.old.one.left ≤ 16 * at) × (plain.old.two.left ≤ 16 * at) }
    requires full { ((F.RxDriver.view driver.old).made.full ≡ true) × ((F.RxDevice.view device.old).made.full ≡ true) }
    requires room { (MAX_FRAME ≤ vec_capacity listed.old) × (MAX_FRAME ≤ vec_capacity plainly.old) }
    ensures one { (F.RxDriver.view driver.new).key ≡ (F.RxDevice.view device.new).key }
    ensures even { AreEvenRx (F.RxDriver.view driver.new) (F.RxDevice.view device.new) }
    ensures driver { (length (F.RxDriver.view driver.new).received ≤ at + 1) × (used pieces_of (F.RxDriver.view driver.new).received ≤ 16 * (at + 1)) }
    ensures device { (length (F.RxDevice.view device.new).delivered ≤ at + 1) × (length (F.RxDevice.view device.new).refused ≤ at + 1) }
    ensures positions { (consumed1 (F.RxDevice.view device.new) ≤ 16 * (at + 1)) × (consumed2 (F.RxDevice.view device.new) ≤ 16 * (at + 1)) }
    ensures given { (F.RxDevice.view device.new).given ≡ false }
    ensures plain { (plain.new.one.left ≤ 16 * (at + 1)) × (plain.new.two.left ≤ 16 * (at + 1)) }
    ensures full { ((F.RxDriver.view driver.new).made.full ≡ true) × ((F.RxDevice.view device.new).made.full ≡ true) }
    ensures room { (MAX_FRAME ≤ vec_capacity listed.new) × (MAX_FRAME ≤ vec_capacity plainly.new) }
{
    if event < 14 {
        listed.clear();
        plainly.clear();
        let got = driver.receive(listed);
        let same = match plain.receive(alloc, plainly)? {
            Some(
                Received {
                    place,
                    meta,
                    descriptors,
                },
            ) => {
                got == (Receive::Frame {
                    place,
                    meta,
                    descriptors,
                })
            }
            None => matches!(got, Receive::NotYet { word: _ }),
        };
        return Ok(same && listed.as_slice() == plainly.as_slice());
    }
    let frame = Vec::from_elem(alloc, (at % 251) as u8, event)?;
    let meta = RxMeta {
        hash: at as u32,
        kind: (at % 5) as u32,
        tci: if at % 3 == 0 { None } else { Some(at as u16) },
    };
    let got = device.deliver(frame.as_slice(), &meta);
    Ok(match plain.deliver(alloc, frame.as_slice(), &meta)? {
        Delivered::Done { place } => got == (Deliver::Done { place }),
        Delivered::NoBuffer {
            ring,
            position,
            look,
        } => is_refused(&got, ring, position, look),
    })
}

/// Whether a delivery was refused there, whatever word its look found: that is each form's own.
fn is_refused(got: &Deliver, ring: u32, position: u64, look: u64) -> bool {
    match got {
        Deliver::NoBuffer {
            ring: in_ring,
            position: at,
            word: _,
            look: number,
        } => *in_ring == ring && *at == position && *number == look,
        Deliver::Done { place: _ } => false,
        Deliver::Bad { words: _, fault: _ } => false,
    }
}

/// Whether all events over a queue of this shape, and then the readers of its facts, are the plain program's.
fn arrive_alike<F: Fabric>(alloc: Global, shape: RxShape) -> Result<bool, AllocError>
    requires sizes { (32 ≤ shape.size1) × (shape.size1 ≤ 4096) × (shape.size1 % 32 ≡ 0) × (32 ≤ shape.size2) × (shape.size2 ≤ 4096) × (shape.size2 % 32 ≡ 0) }
    requires bodies { shape.bodies ≤ 2 }
    requires queues { (shape.queues ≡ 1) × (shape.name.queue ≡ 0) }
{
    let (mut driver, mut device) = F::make_rx(
        alloc,
        shape.name,
        shape.size1,
        shape.size2,
        shape.bodies,
        shape.queues,
        shape.with_data,
    )?;
    let mut plain = PlainRx::new(alloc, shape)?;
    let mut listed = Vec::new(alloc);
    listed.reserve(MAX_FRAME)?;
    let mut plainly = Vec::new(alloc);
    plainly.reserve(MAX_FRAME)?;
    for at in 0..96u64 {
        let event = ARRIVALS[at as usize];
        if event > MAX_FRAME {
            return Ok(false);
        }
        let same = arrives::<F>(
            alloc,
            at,
            event,
            &mut driver,
            &mut device,
            &mut plain,
            &mut listed,
            &mut plainly,
        )?;
        if !same {
            return Ok(false);
        }
    }
    let facts = F::meet_rx(driver, device);
    Ok(
        facts.name() == shape.name
            && facts.delivered() == plain.delivered.len() as u64
            && facts.received() == plain.received as u64
            && facts.refused() == plain.refused.len() as u64,
    )
}

/// Whether a ring may have this size.
fn is_size(size: u32) -> bool
    ensures lawful { result ≡ true → (32 ≤ size) × (size ≤ 4096) × (size % 32 ≡ 0) }
{
    32 <= size && size <= 4096 && size % 32 == 0
}

/// Whether all events over the receive queues of a fabric are the plain program's.
fn arrivals_alike<F: Fabric>(alloc: Global) -> Result<bool, AllocError> {
    for (size1, size2, bodies, with_data) in SHAPES {
        let lawful = is_size(size1) && is_size(size2) && bodies <= 2;
        if !lawful {
            return Ok(false);
        }
        let shape = RxShape {
            name: NAME,
            queues: 1,
            size1,
            size2,
            bodies,
            with_data,
        };
        if !arrive_alike::<F>(alloc, shape)? {
            return Ok(false);
        }
    }
    Ok(true)
}

#[test]
fn receive_rings_answer_as_the_plain_queue(rt: HostRuntime) -> Result<(), AllocError> {
    let same = arrivals_alike::<RingFabric>(rt.alloc())?;
    assert!(rt; same);
    Ok(())
}

#[test]
fn atomic_receive_queues_answer_as_the_plain_queue(rt: HostRuntime) -> Result<(), AllocError> {
    let same = arrivals_alike::<QueueFabric>(rt.alloc())?;
    assert!(rt; same);
    Ok(())
}
