//! What stands at numbers, through the calls of the fabric.
ghost use Rattle.std.specs.Prelude.{◌≡◌, ◌≤◌, ◌<◌, ◌+◌, ◌*◌, ◌^◌, length, true, vec_len, vec_capacity};
ghost use Rattle.vmx_ends.specs.Frames.{IsFrame, IsMarked};
ghost use Rattle.vmx_ends.specs.Queues.{least_piece};
ghost use Rattle.vmx_io.specs.declared.buffer.TheConstants.{MAX_FRAME};
ghost use Rattle.vmx_ends.specs.Transmit.{posted};
ghost use Rattle.vmx_ends.specs.Receive.{used, pieces_of, consumed1, consumed2};
ghost use Rattle.vmx_lists.specs.TxEnds.{driver_view as tx_driver};
ghost use Rattle.vmx_lists.specs.RxEnds.{driver_view as rx_driver, device_view as rx_device};

use crate::{ListFabric, ListRxDevice, ListRxDriver, ListTxDriver};
use std::alloc::{AllocError, Global};
use vmx_ends::{
    Deliver, Fabric, MAX_FRAME, Post, QueueName, Reap, Receive, RxDevice, RxDriver, RxFacts,
    RxMeta, Take, TxDevice, TxDriver, TxFacts, TxMark,
};

const NAME: QueueName = QueueName {
    guest: 2,
    activation: 1,
    queue: 0,
};

/// A tag's two bytes, and an offload.
fn marked() -> TxMark {
    TxMark {
        tci: Some(0x2064),
        om: 3,
        hlen: 54,
        msscof: 1460,
    }
}

/// Posts the frame so many times, and tells whether it got the places from 0 on.
fn posts_all(driver: &mut ListTxDriver, frame: &[u8], mark: &TxMark, count: u64) -> bool
    requires frame { IsMarked frame.now mark.now }
    requires small { (count ≤ 1000) × (length (tx_driver driver.old).sent ≤ 1000) × (posted (tx_driver driver.old) ≤ 1000) }
    ensures sent { length (tx_driver driver.new).sent ≤ 1000 + count }
    ensures posted { posted (tx_driver driver.new) ≤ 1000 + 16 * count }
{
    for place in 0..count {
        if driver.post(frame, mark) != (Post::Done { place }) {
            return false;
        }
    }
    true
}

/// The answer to a post behind so many long frames in a fresh ring of 32, or none where one of them got another place.
fn post_behind(alloc: Global, with_data: bool, count: u64) -> Result<Option<Post>, AllocError>
    requires small { count ≤ 1000 }
{
    let (mut driver, _device) = ListFabric::make_tx(alloc, NAME, 32, 4096, with_data)?;
    let frame = Vec::from_elem(alloc, 7u8, 9014)?;
    let mark = TxMark::plain();
    if !posts_all(&mut driver, frame.as_slice(), &mark, count) {
        return Ok(None);
    }
    Ok(Some(driver.post(frame.as_slice(), &mark)))
}

/// A frame through a fresh ring of 32, from post to reap: how many descriptors it had, or none where frame or mark came
/// out otherwise.
fn descriptors_of(
    alloc: Global,
    piece: u32,
    with_data: bool,
    bytes: usize,
    mark: &TxMark,
) -> Result<Option<u32>, AllocError>
    requires piece { (least_piece with_data ≤ piece) × (piece ≤ 4096) }
    requires bytes { (14 ≤ bytes) × (bytes ≤ 9018) }
{
    let (mut driver, mut device) = ListFabric::make_tx(alloc, NAME, 32, piece, with_data)?;
    let frame = Vec::from_elem(alloc, 7u8, bytes)?;
    let mut into = Vec::new(alloc);
    into.reserve(MAX_FRAME)?;
    if driver.post(frame.as_slice(), mark) != (Post::Done { place: 0 }) {
        return Ok(None);
    }
    match device.take(&mut into) {
        Take::Frame { place, mark: got } => {
            if place != 0 || got != *mark || into.as_slice() != frame.as_slice() {
                return Ok(None);
            }
            device.complete();
            match driver.reap() {
                Reap::Done {
                    place: _,
                    descriptors,
                } => Ok(Some(descriptors)),
                Reap::NotYet { word: _ } => Ok(None),
            }
        }
        Take::Empty { word: _ } => Ok(None),
        Take::Bad { words: _, fault: _ } => Ok(None),
    }
}

/// A hash of kind 2, and the two bytes of a tag.
fn meta_with(tci: Option<u16>) -> RxMeta {
    RxMeta {
        hash: 7,
        kind: 2,
        tci,
    }
}

/// Delivers the frame so many times, and tells whether it got the places from 0 on.
fn delivers_all(device: &mut ListRxDevice, frame: &[u8], meta: &RxMeta, count: u64) -> bool
    requires frame { IsFrame frame.now }
    requires full { (rx_device device.old).made.full ≡ true }
    requires small { (count ≤ 1000) × (length (rx_device device.old).delivered ≤ 1000) × (length (rx_device device.old).refused ≤ 1000) }
    requires positions { (consumed1 (rx_device device.old) ≤ 1000) × (consumed2 (rx_device device.old) ≤ 1000) }
    ensures full { (rx_device device.new).made.full ≡ true }
    ensures lists { (length (rx_device device.new).delivered ≤ 1000 + count) × (length (rx_device device.new).refused ≤ 1000 + count) }
    ensures positions { (consumed1 (rx_device device.new) ≤ 1000 + 16 * count) × (consumed2 (rx_device device.new) ≤ 1000 + 16 * count) }
{
    for place in 0..count {
        if device.deliver(frame, meta) != (Deliver::Done { place }) {
            return false;
        }
    }
    true
}

#[test]
fn fresh_queues_have_nothing(rt: HostRuntime) -> Result<(), AllocError> {
    let alloc = rt.alloc();
    let (mut driver, mut device) = ListFabric::make_tx(alloc, NAME, 32, 4096, false)?;
    let (mut receiver, _deliverer) = ListFabric::make_rx(alloc, NAME, 32, 32, 0, 1, false)?;
    let mut into = Vec::new(alloc);
    into.reserve(MAX_FRAME)?;
    let nothing = device.take(&mut into);
    assert!(rt; nothing == Take::Empty { word: 0 });
    let early = driver.reap();
    assert!(rt; early == Reap::NotYet { word: 0 });
    into.clear();
    let nothing = receiver.receive(&mut into);
    assert!(rt; nothing == Receive::NotYet { word: 0 });
    Ok(())
}

#[test]
fn a_full_ring_tells_what_is_used_and_what_is_needed(rt: HostRuntime) -> Result<(), AllocError> {
    let alloc = rt.alloc();
    let eleventh = post_behind(alloc, false, 10)?;
    let ninth = post_behind(alloc, true, 8)?;
    assert!(rt; eleventh == Some(Post::Full { used: 30, need: 3 }));
    assert!(rt; ninth == Some(Post::Full { used: 32, need: 4 }));
    Ok(())
}

/// Without a data ring each piece has `piece` bytes; with one the first has 128.
#[test]
fn a_frame_comes_out_with_its_mark_and_its_descriptors(rt: HostRuntime) -> Result<(), AllocError> {
    let alloc = rt.alloc();
    let mark = marked();
    let plain = TxMark::plain();
    let without = (
        descriptors_of(alloc, 4096, false, 4096, &plain)?,
        descriptors_of(alloc, 4096, false, 4097, &mark)?,
        descriptors_of(alloc, 576, false, 9018, &mark)?,
    );
    assert!(rt; without == (Some(1), Some(2), Some(16)));
    let with = (
        descriptors_of(alloc, 4096, true, 128, &mark)?,
        descriptors_of(alloc, 4096, true, 129, &plain)?,
        descriptors_of(alloc, 640, true, 9018, &mark)?,
    );
    assert!(rt; with == (Some(1), Some(2), Some(15)));
    Ok(())
}

#[test]
fn facts_tell_what_both_ends_did(rt: HostRuntime) -> Result<(), AllocError> {
    let alloc = rt.alloc();
    let (driver, device) = ListFabric::make_tx(alloc, NAME, 32, 4096, false)?;
    let facts = ListFabric::meet_tx(driver, device);
    assert!(rt; facts.name() == NAME);
    assert!(rt;
        (
            facts.sent(),
            facts.taken(),
            facts.completed(),
            facts.reaped()
        ) == (0, 0, 0, 0)
    );
    let (driver, mut device) = ListFabric::make_rx(alloc, NAME, 32, 32, 0, 1, false)?;
    let frame = Vec::from_elem(alloc, 7u8, 60)?;
    let meta = meta_with(None);
    match device.deliver(frame.as_slice(), &meta) {
        Deliver::Done { place } => {
            assert!(rt; place == 0);
            let facts = ListFabric::meet_rx(driver, device);
            assert!(rt; facts.name() == NAME);
            assert!(rt; (facts.delivered(), facts.received(), facts.refused()) == (1, 0, 0));
        }
        Deliver::NoBuffer {
            ring: _,
            position: _,
            word: _,
            look: _,
        } => panic!(rt; "no buffer"),
        Deliver::Bad { words: _, fault: _ } => panic!(rt; "a fault"),
    }
    Ok(())
}

#[test]
fn the_thirty_third_short_frame_finds_no_head(rt: HostRuntime) -> Result<(), AllocError> {
    let alloc = rt.alloc();
    let (mut driver, mut device) = ListFabric::make_rx(alloc, NAME, 32, 32, 0, 1, false)?;
    let meta = meta_with(Some(0x2064));
    let frame = Vec::from_elem(alloc, 9u8, 60)?;
    let mut into = Vec::new(alloc);
    into.reserve(MAX_FRAME)?;
    let all = delivers_all(&mut device, frame.as_slice(), &meta, 32);
    assert!(rt; all);
    let refused = device.deliver(frame.as_slice(), &meta);
    assert!(rt;
        refused
            == Deliver::NoBuffer {
                ring: 1,
                position: 32,
                word: 0x80000000,
                look: 0
            }
    );
    let got = driver.receive(&mut into);
    assert!(rt;
        got == Receive::Frame {
            place: 0,
            meta,
            descriptors: 1
        }
    );
    assert!(rt; into.as_slice() == frame.as_slice());
    let back = device.deliver(frame.as_slice(), &meta);
    assert!(rt; back == Deliver::Done { place: 32 });
    let again = device.deliver(frame.as_slice(), &meta);
    assert!(rt;
        again
            == Deliver::NoBuffer {
                ring: 1,
                position: 33,
                word: 0x80000000,
                look: 1
            }
    );
    Ok(())
}

#[test]
fn the_seventeenth_long_frame_finds_no_body(rt: HostRuntime) -> Result<(), AllocError> {
    let alloc = rt.alloc();
    let (_driver, mut device) = ListFabric::make_rx(alloc, NAME, 32, 32, 0, 1, false)?;
    let meta = meta_with(None);
    let frame = Vec::from_elem(alloc, 9u8, 9014)?;
    let all = delivers_all(&mut device, frame.as_slice(), &meta, 16);
    assert!(rt; all);
    let refused = device.deliver(frame.as_slice(), &meta);
    assert!(rt;
        refused
            == Deliver::NoBuffer {
                ring: 2,
                position: 32,
                word: 0x80000000,
                look: 0
            }
    );
    Ok(())
}

/// Delivers and receives the frame so many times, and gives the descriptors that the last frame had, or none where one
/// answer was another.
fn carries_all(
    driver: &mut ListRxDriver,
    device: &mut ListRxDevice,
    frame: &[u8],
    into: &mut Vec<u8>,
    from: u64,
    to: u64,
) -> Option<u32>
    requires frame { IsFrame frame.now }
    requires room { MAX_FRAME ≤ vec_capacity into.old }
    requires full { ((rx_device device.old).made.full ≡ true) × ((rx_driver driver.old).made.full ≡ true) }
    requires small { (from ≤ to) × (to ≤ 1000) × (length (rx_device device.old).delivered ≤ 1000) × (length (rx_device device.old).refused ≤ 1000) }
    requires positions { (consumed1 (rx_device device.old) ≤ 1000) × (consumed2 (rx_device device.old) ≤ 1000) }
    requires received { (length (rx_driver driver.old).received ≤ 1000) × (used pieces_of (rx_driver driver.old).received ≤ 20000) }
{
    let meta = meta_with(None);
    let mut last = 0;
    for place in from..to {
        if device.deliver(frame, &meta) != (Deliver::Done { place }) {
            return None;
        }
        into.clear();
        match driver.receive(into) {
            Receive::NotYet { word: _ } => return None,
            Receive::Frame {
                place: got,
                meta: told,
                descriptors,
            } => {
                if got != place || told != meta || into.as_slice() != frame {
                    return None;
                }
                last = descriptors;
            }
        }
    }
    Some(last)
}

#[test]
fn long_frames_take_three_descriptors_across_the_wrap(rt: HostRuntime) -> Result<(), AllocError> {
    let alloc = rt.alloc();
    let (mut driver, mut device) = ListFabric::make_rx(alloc, NAME, 32, 32, 0, 1, false)?;
    let frame = Vec::from_elem(alloc, 5u8, 9014)?;
    let mut into = Vec::new(alloc);
    into.reserve(MAX_FRAME)?;
    let last = carries_all(&mut driver, &mut device, frame.as_slice(), &mut into, 0, 65);
    assert!(rt; last == Some(3));
    Ok(())
}

#[test]
fn short_frames_pass_a_body_over(rt: HostRuntime) -> Result<(), AllocError> {
    let alloc = rt.alloc();
    let (mut driver, mut device) = ListFabric::make_rx(alloc, NAME, 32, 32, 1, 1, false)?;
    let frame = Vec::from_elem(alloc, 5u8, 60)?;
    let mut into = Vec::new(alloc);
    into.reserve(MAX_FRAME)?;
    let first = carries_all(&mut driver, &mut device, frame.as_slice(), &mut into, 0, 1);
    assert!(rt; first == Some(1));
    Ok(())
}

/// The long frame has the positions 0 and 1 of ring 1 and 0 of ring 2. So ring 1's next is the HEAD at 2: the frame behind
/// passes nothing over, and the third passes the BODY at 3.
#[test]
fn a_first_long_frame_takes_two_of_ring_1_and_one_of_ring_2(
    rt: HostRuntime,
) -> Result<(), AllocError> {
    let alloc = rt.alloc();
    let (mut driver, mut device) = ListFabric::make_rx(alloc, NAME, 32, 32, 1, 1, false)?;
    let meta = meta_with(None);
    let long = Vec::from_elem(alloc, 5u8, 9014)?;
    let short = Vec::from_elem(alloc, 6u8, 60)?;
    let mut into = Vec::new(alloc);
    into.reserve(MAX_FRAME)?;
    let first = device.deliver(long.as_slice(), &meta);
    assert!(rt; first == Deliver::Done { place: 0 });
    let all = (
        device.deliver(short.as_slice(), &meta),
        device.deliver(short.as_slice(), &meta),
    );
    assert!(rt; all == (Deliver::Done { place: 1 }, Deliver::Done { place: 2 }));
    let got = driver.receive(&mut into);
    assert!(rt;
        got == Receive::Frame {
            place: 0,
            meta,
            descriptors: 3
        }
    );
    into.clear();
    let got = driver.receive(&mut into);
    assert!(rt;
        got == Receive::Frame {
            place: 1,
            meta,
            descriptors: 1
        }
    );
    into.clear();
    let got = driver.receive(&mut into);
    assert!(rt;
        got == Receive::Frame {
            place: 2,
            meta,
            descriptors: 2
        }
    );
    Ok(())
}

#[test]
fn later_short_frames_post_a_passed_body_back(rt: HostRuntime) -> Result<(), AllocError> {
    let alloc = rt.alloc();
    let (mut driver, mut device) = ListFabric::make_rx(alloc, NAME, 32, 32, 1, 1, false)?;
    let frame = Vec::from_elem(alloc, 5u8, 60)?;
    let mut into = Vec::new(alloc);
    into.reserve(MAX_FRAME)?;
    let last = carries_all(&mut driver, &mut device, frame.as_slice(), &mut into, 0, 20);
    assert!(rt; last == Some(2));
    Ok(())
}
