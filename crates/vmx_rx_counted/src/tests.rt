//! What no clause says: that memory can be had, and what looks find at numbers that are worked out by hand.
ghost use Rattle.std.specs.Prelude.{◌≡◌, ◌≤◌, ◌<◌, ◌+◌, ◌*◌, ◌^◌, [], length, true, vec_len, vec_capacity, IfOk};
ghost use Rattle.vmx_io.specs.declared.buffer.TheConstants.{MAX_FRAME};
ghost use Rattle.vmx_layout.specs.declared.register.TheConstants.{MAX_QUEUES};
ghost use Rattle.vmx_ends.specs.Frames.{IsFrame};
ghost use Rattle.vmx_ends.specs.Receive.{used, pieces_of, consumed1, consumed2};
ghost use Rattle.vmx_rx_counted.specs.Ends.{device_view, driver_view};

use crate::{RingRxDevice, RingRxDriver, make, meet};
use std::alloc::{AllocError, Global};
use std::test::Fail;
use vmx_ends::{Deliver, MAX_FRAME, QueueName, Receive, RxDevice, RxDriver, RxFacts, RxMeta};

fn name(queue: u32) -> QueueName
    ensures queue { result.queue ≡ queue }
{
    QueueName {
        guest: 2,
        activation: 1,
        queue,
    }
}

/// A hash of no kind, and the two bytes of a tag.
fn meta_with(tci: Option<u16>) -> RxMeta {
    RxMeta {
        hash: 0,
        kind: 0,
        tci,
    }
}

/// Delivers the frame so many times, and tells whether it got the places from 0 on.
fn delivers_all(device: &mut RingRxDevice, frame: &[u8], meta: &RxMeta, count: u64) -> bool
    requires frame { IsFrame frame.now }
    requires small { (count ≤ 1000) × (length (device_view device.old).delivered ≤ 1000) × (length (device_view device.old).refused ≤ 1000) }
    requires positions { (consumed1 (device_view device.old) ≤ 1000) × (consumed2 (device_view device.old) ≤ 1000) }
    ensures key { (device_view device.new).key ≡ (device_view device.old).key }
    ensures lists { (length (device_view device.new).delivered ≤ 1000 + count) × (length (device_view device.new).refused ≤ 1000 + count) }
    ensures positions { (consumed1 (device_view device.new) ≤ 1000 + 16 * count) × (consumed2 (device_view device.new) ≤ 1000 + 16 * count) }
{
    for place in 0..count {
        if device.deliver(frame, meta) != (Deliver::Done { place }) {
            return false;
        }
    }
    true
}

#[test]
fn the_thirty_third_short_frame_finds_no_head(rt: HostRuntime) -> Result<(), Fail> {
    let alloc = rt.alloc();
    let (mut driver, mut device) = make(alloc, name(0), 32, 32, 0, 1, false)?;
    let meta = RxMeta {
        hash: 0x8765_4321,
        kind: 2,
        tci: Some(0x2064),
    };
    let frame = Vec::from_elem(alloc, 9u8, 60)?;
    let mut into = Vec::new(alloc);
    into.reserve(MAX_FRAME)?;
    let all = delivers_all(&mut device, frame.as_slice(), &meta, 32);
    assert!(rt; all);
    let refused = device.deliver(frame.as_slice(), &meta);
    assert!(rt;
        refused
            == Deliver::NoBuffer {
                ring: 1,
                position: 32,
                word: 0x8000_0800,
                look: 0
            }
    );
    let got = driver.receive(&mut into);
    assert!(rt;
        got == Receive::Frame {
            place: 0,
            meta,
            descriptors: 1
        }
    );
    assert!(rt; into.as_slice() == frame.as_slice());
    let back = device.deliver(frame.as_slice(), &meta);
    assert!(rt; back == Deliver::Done { place: 32 });
    Ok(())
}

#[test]
fn the_seventeenth_long_frame_finds_no_body(rt: HostRuntime) -> Result<(), Fail> {
    let alloc = rt.alloc();
    let (_driver, mut device) = make(alloc, name(0), 32, 32, 0, 1, false)?;
    let frame = Vec::from_elem(alloc, 9u8, 9014)?;
    let meta = meta_with(None);
    let all = delivers_all(&mut device, frame.as_slice(), &meta, 16);
    assert!(rt; all);
    let refused = device.deliver(frame.as_slice(), &meta);
    assert!(rt;
        refused
            == Deliver::NoBuffer {
                ring: 2,
                position: 32,
                word: 0x8000_5000,
                look: 0
            }
    );
    Ok(())
}

/// Delivers and receives the frame so many times, and gives the descriptors that the last frame had, or none where one
/// answer was another.
fn carries_all(
    driver: &mut RingRxDriver,
    device: &mut RingRxDevice,
    frame: &[u8],
    meta: &RxMeta,
    into: &mut Vec<u8>,
    to: u64,
) -> Option<u32>
    requires frame { IsFrame frame.now }
    requires room { MAX_FRAME ≤ vec_capacity into.old }
    requires full { (driver_view driver.old).made.full ≡ true }
    requires small { (to ≤ 1000) × (length (device_view device.old).delivered ≤ 1000) × (length (device_view device.old).refused ≤ 1000) }
    requires positions { (consumed1 (device_view device.old) ≤ 1000) × (consumed2 (device_view device.old) ≤ 1000) }
    requires received { (length (driver_view driver.old).received ≤ 1000) × (used pieces_of (driver_view driver.old).received ≤ 20000) }
{
    let mut last = 0;
    for place in 0..to {
        if device.deliver(frame, meta) != (Deliver::Done { place }) {
            return None;
        }
        into.clear();
        match driver.receive(into) {
            Receive::NotYet { word: _ } => return None,
            Receive::Frame {
                place: got,
                meta: told,
                descriptors,
            } => {
                if got != place || told != *meta || into.as_slice() != frame {
                    return None;
                }
                last = descriptors;
            }
        }
    }
    Some(last)
}

/// What `carries_all` gives over a fresh queue.
fn carried(
    alloc: Global,
    bodies: u32,
    with_data: bool,
    bytes: usize,
    tci: Option<u16>,
    count: u64,
) -> Result<Option<u32>, AllocError>
    requires bodies { bodies ≤ 2 }
    requires bytes { (14 ≤ bytes) × (bytes ≤ 9022) }
    requires count { count ≤ 1000 }
{
    let (mut driver, mut device) = make(alloc, name(0), 32, 32, bodies, 1, with_data)?;
    let frame = Vec::from_elem(alloc, 5u8, bytes)?;
    let mut into = Vec::new(alloc);
    into.reserve(MAX_FRAME)?;
    let meta = meta_with(tci);
    Ok(carries_all(
        &mut driver,
        &mut device,
        frame.as_slice(),
        &meta,
        &mut into,
        count,
    ))
}

#[test]
fn frames_come_out_with_their_tags_across_the_wrap(rt: HostRuntime) -> Result<(), Fail> {
    let alloc = rt.alloc();
    let tag = Some(0xFFFF);
    let long = carried(alloc, 0, false, 9014, None, 65)?;
    let passing = carried(alloc, 1, false, 60, tag, 100)?;
    assert!(rt; (long, passing) == (Some(3), Some(2)));
    let two = carried(alloc, 2, true, 2049, tag, 101)?;
    let in_data = carried(alloc, 1, true, 128, tag, 100)?;
    assert!(rt; (two, in_data) == (Some(3), Some(2)));
    Ok(())
}

#[test]
fn new_queues_have_nothing_and_their_notes_are_heard(rt: HostRuntime) -> Result<(), Fail> {
    let alloc = rt.alloc();
    let (mut driver, mut device) = make(alloc, name(0), 32, 32, 1, 1, true)?;
    let mut into = Vec::new(alloc);
    into.reserve(MAX_FRAME)?;
    let none = driver.receive(&mut into);
    assert!(rt; none == Receive::NotYet { word: 0 });
    let note = driver.note();
    device.hear(note);
    let note = device.note();
    driver.hear(note);
    let facts = meet(driver, device);
    assert!(rt;
        facts.name() == name(0)
            && facts.delivered() == 0
            && facts.received() == 0
            && facts.refused() == 0
    );
    Ok(())
}
