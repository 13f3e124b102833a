//! What no clause says: what stands in the words, and that two threads carry frames to the end.
ghost use Rattle.std.specs.Prelude.{◌≡◌, ◌≤◌, ◌<◌, ◌+◌, ◌*◌, ◌^◌, [], length, true, vec_len, vec_capacity, IfOk};
ghost use Rattle.vmx_io.specs.declared.buffer.TheConstants.{MAX_FRAME};
ghost use Rattle.vmx_layout.specs.declared.register.TheConstants.{MAX_QUEUES};
ghost use Rattle.vmx_ends.specs.Frames.{IsFrame};
ghost use Rattle.vmx_ends.specs.Receive.{used, pieces_of, consumed1, consumed2};
ghost use Rattle.vmx_rxq.specs.Ends.{device_view};
ghost use Rattle.vmx_rxq.specs.Ends.{driver_view};

use std::alloc::{AllocError, Global};
use std::test::Fail;
use std::thread;
use vmx_ends::{Deliver, MAX_FRAME, QueueName, Receive, RxDevice, RxDriver, RxFacts, RxMeta};
use vmx_rxq::{RxDeviceEnd, RxDriverEnd, make, meet, word};

const FRAMES: u64 = 1000;

const TRIES: u64 = 100_000_000;

fn name(queue: u32) -> QueueName
    ensures queue { result.queue ≡ queue }
{
    QueueName {
        guest: 2,
        activation: 1,
        queue,
    }
}

/// A hash of no kind, and the two bytes of a tag.
fn meta_with(tci: Option<u16>) -> RxMeta {
    RxMeta {
        hash: 0,
        kind: 0,
        tci,
    }
}

/// Delivers the frame so many times, and tells whether it got the places from 0 on.
fn delivers_all(device: &mut RxDeviceEnd, frame: &[u8], meta: &RxMeta, count: u64) -> bool
    requires frame { IsFrame frame.now }
    requires small { (count ≤ 1000) × (length (device_view device.old).delivered ≤ 1000) × (length (device_view device.old).refused ≤ 1000) }
    requires positions { (consumed1 (device_view device.old) ≤ 1000) × (consumed2 (device_view device.old) ≤ 1000) }
    ensures key { (device_view device.new).key ≡ (device_view device.old).key }
    ensures lists { (length (device_view device.new).delivered ≤ 1000 + count) × (length (device_view device.new).refused ≤ 1000 + count) }
    ensures positions { (consumed1 (device_view device.new) ≤ 1000 + 16 * count) × (consumed2 (device_view device.new) ≤ 1000 + 16 * count) }
{
    for place in 0..count {
        if device.deliver(frame, meta) != (Deliver::Done { place }) {
            return false;
        }
    }
    true
}

#[test]
fn the_thirty_third_short_frame_finds_no_head(rt: HostRuntime) -> Result<(), Fail> {
    let alloc = rt.alloc();
    let (mut driver, mut device) = make(alloc, name(0), 32, 32, 0, 1, false)?;
    let meta = RxMeta {
        hash: 0x8765_4321,
        kind: 2,
        tci: Some(0x2064),
    };
    let frame = Vec::from_elem(alloc, 9u8, 60)?;
    let mut into = Vec::new(alloc);
    into.reserve(MAX_FRAME)?;
    let all = delivers_all(&mut device, frame.as_slice(), &meta, 32);
    assert!(rt; all);
    let refused = device.deliver(frame.as_slice(), &meta);
    assert!(rt;
        refused
            == Deliver::NoBuffer {
                ring: 1,
                position: 32,
                word: 0x8000_0800,
                look: 0
            }
    );
    let got = driver.receive(&mut into);
    assert!(rt;
        got == Receive::Frame {
            place: 0,
            meta,
            descriptors: 1
        }
    );
    assert!(rt; into.as_slice() == frame.as_slice());
    let back = device.deliver(frame.as_slice(), &meta);
    assert!(rt; back == Deliver::Done { place: 32 });
    Ok(())
}

#[test]
fn the_seventeenth_long_frame_finds_no_body(rt: HostRuntime) -> Result<(), Fail> {
    let alloc = rt.alloc();
    let (_driver, mut device) = make(alloc, name(0), 32, 32, 0, 1, false)?;
    let frame = Vec::from_elem(alloc, 9u8, 9014)?;
    let meta = meta_with(None);
    let all = delivers_all(&mut device, frame.as_slice(), &meta, 16);
    assert!(rt; all);
    let refused = device.deliver(frame.as_slice(), &meta);
    assert!(rt;
        refused
            == Deliver::NoBuffer {
                ring: 2,
                position: 32,
                word: 0x8000_5000,
                look: 0
            }
    );
    Ok(())
}

/// The first word's lower half of a completion of a queue with 32 descriptors in each ring.
fn part_0(driver: &mut RxDriverEnd, device: &RxDeviceEnd, index: u32) -> u64
    requires keys { (driver_view driver.old).key ≡ (device_view device.now).key }
    requires index { index < 64 }
    requires sizes { ((driver_view driver.old).made.size1 ≡ 32) × ((driver_view driver.old).made.size2 ≡ 32) }
    ensures same { driver_view driver.new ≡ driver_view driver.old }
{
    word(driver, device, 192 + index) % 4_294_967_296
}

#[test]
fn a_first_long_frame_takes_a_head_and_two_bodies(rt: HostRuntime) -> Result<(), Fail> {
    let alloc = rt.alloc();
    let (mut driver, mut device) = make(alloc, name(0), 32, 32, 1, 1, false)?;
    let frame = Vec::from_elem(alloc, 5u8, 9014)?;
    let done = device.deliver(frame.as_slice(), &meta_with(Some(0x2064)));
    assert!(rt; done == Deliver::Done { place: 0 });
    let parts = (
        part_0(&mut driver, &device, 0),
        part_0(&mut driver, &device, 1),
        part_0(&mut driver, &device, 2),
    );
    assert!(rt; parts == (0x0000_8000, 0x0000_0001, 0x0001_4000));
    Ok(())
}

/// Part 0 of the completion at index 3, with a data ring, of queue 1 of 4, behind three short frames.
fn fourth_part_0(alloc: Global, bytes: usize) -> Result<Option<u64>, AllocError>
    requires bytes { (14 ≤ bytes) × (bytes ≤ 9022) }
{
    let (mut driver, mut device) = make(alloc, name(1), 32, 32, 0, 4, true)?;
    let short = Vec::from_elem(alloc, 3u8, 60)?;
    let frame = Vec::from_elem(alloc, 4u8, bytes)?;
    let meta = meta_with(None);
    if !delivers_all(&mut device, short.as_slice(), &meta, 3) {
        return Ok(None);
    }
    if device.deliver(frame.as_slice(), &meta) != (Deliver::Done { place: 3 }) {
        return Ok(None);
    }
    Ok(Some(part_0(&mut driver, &device, 3)))
}

#[test]
fn a_frame_of_128_bytes_lies_in_the_data_ring(rt: HostRuntime) -> Result<(), Fail> {
    let alloc = rt.alloc();
    let parts = (fourth_part_0(alloc, 128)?, fourth_part_0(alloc, 129)?);
    assert!(rt; parts == (Some(0x0009_C003), Some(0x0001_C003)));
    Ok(())
}

/// Delivers and receives the frame so many times, and gives the descriptors that the last frame had, or none where one
/// answer was another.
fn carries_all(
    driver: &mut RxDriverEnd,
    device: &mut RxDeviceEnd,
    frame: &[u8],
    meta: &RxMeta,
    into: &mut Vec<u8>,
    to: u64,
) -> Option<u32>
    requires frame { IsFrame frame.now }
    requires room { MAX_FRAME ≤ vec_capacity into.old }
    requires full { (driver_view driver.old).made.full ≡ true }
    requires small { (to ≤ 1000) × (length (device_view device.old).delivered ≤ 1000) × (length (device_view device.old).refused ≤ 1000) }
    requires positions { (consumed1 (device_view device.old) ≤ 1000) × (consumed2 (device_view device.old) ≤ 1000) }
    requires received { (length (driver_view driver.old).received ≤ 1000) × (used pieces_of (driver_view driver.old).received ≤ 20000) }
{
    let mut last = 0;
    for place in 0..to {
        if device.deliver(frame, meta) != (Deliver::Done { place }) {
            return None;
        }
        into.clear();
        match driver.receive(into) {
            Receive::NotYet { word: _ } => return None,
            Receive::Frame {
                place: got,
                meta: told,
                descriptors,
            } => {
                if got != place || told != *meta || into.as_slice() != frame {
                    return None;
                }
                last = descriptors;
            }
        }
    }
    Some(last)
}

/// What `carries_all` gives over a fresh queue.
fn carried(
    alloc: Global,
    bodies: u32,
    with_data: bool,
    bytes: usize,
    tci: Option<u16>,
    count: u64,
) -> Result<Option<u32>, AllocError>
    requires bodies { bodies ≤ 2 }
    requires bytes { (14 ≤ bytes) × (bytes ≤ 9022) }
    requires count { count ≤ 1000 }
{
    let (mut driver, mut device) = make(alloc, name(0), 32, 32, bodies, 1, with_data)?;
    let frame = Vec::from_elem(alloc, 5u8, bytes)?;
    let mut into = Vec::new(alloc);
    into.reserve(MAX_FRAME)?;
    let meta = meta_with(tci);
    Ok(carries_all(
        &mut driver,
        &mut device,
        frame.as_slice(),
        &meta,
        &mut into,
        count,
    ))
}

#[test]
fn frames_come_out_with_their_tags_across_the_wrap(rt: HostRuntime) -> Result<(), Fail> {
    let alloc = rt.alloc();
    let tag = Some(0xFFFF);
    let long = carried(alloc, 0, false, 9014, None, 65)?;
    let passing = carried(alloc, 1, false, 60, tag, 100)?;
    assert!(rt; (long, passing) == (Some(3), Some(2)));
    let two = carried(alloc, 2, true, 2049, tag, 101)?;
    let in_data = carried(alloc, 1, true, 128, tag, 100)?;
    assert!(rt; (two, in_data) == (Some(3), Some(2)));
    Ok(())
}

/// The bytes that frames are cut from.
fn text(alloc: Global) -> Result<Vec<u8>, AllocError>
    ensures text { IfOk result (λ v. length v.items ≡ 9265) }
{
    let mut text = Vec::from_elem(alloc, 0u8, 9265)?;
    for i in 0..9265 {
        text[i] = (i % 251) as u8;
    }
    Ok(text)
}

/// The frame with this number: 60 to 9,014 bytes from one of 251 places on.
fn frame_of(text: &[u8], number: u64) -> &[u8]
    requires text { length text.now ≡ 9265 }
    ensures frame { IsFrame result.now }
{
    let start = (number % 251) as usize;
    let length = 60 + (number % 8955) as usize;
    &text[start..start + length]
}

/// Delivers all frames, each until it finds its buffers.
fn send(device: RxDeviceEnd, text: &[u8]) -> (RxDeviceEnd, u64)
    requires text { length text.now ≡ 9265 }
    requires fresh { ((device_view device).delivered ≡ []) × ((device_view device).refused ≡ []) }
    ensures key { (device_view result.0).key ≡ (device_view device).key }
    ensures even { ((device_view result.0).notes_given ≡ (device_view device).notes_given) × ((device_view result.0).notes_heard ≡ (device_view device).notes_heard) }
{
    let mut device = device;
    let mut number = 0;
    let meta = meta_with(None);
    for tries in 0..TRIES {
        if number == FRAMES {
            break;
        }
        match device.deliver(frame_of(text, number), &meta) {
            Deliver::Done { place: _ } => number += 1,
            Deliver::NoBuffer {
                ring: _,
                position: _,
                word: _,
                look: _,
            } => thread::yield_now(),
            Deliver::Bad { words: _, fault: _ } => {}
        }
    }
    (device, number)
}

/// Receives all frames, and counts those that are the frame of their number.
fn receive(driver: RxDriverEnd, into: Vec<u8>, text: &[u8]) -> (RxDriverEnd, u64)
    requires text { length text.now ≡ 9265 }
    requires room { MAX_FRAME ≤ vec_capacity into }
    requires fresh { ((driver_view driver).received ≡ []) × ((driver_view driver).made.full ≡ true) }
    ensures key { (driver_view result.0).key ≡ (driver_view driver).key }
    ensures even { ((driver_view result.0).notes_given ≡ (driver_view driver).notes_given) × ((driver_view result.0).notes_heard ≡ (driver_view driver).notes_heard) }
{
    let mut driver = driver;
    let mut into = into;
    let mut same = 0;
    let mut number = 0;
    for tries in 0..TRIES {
        if number == FRAMES {
            break;
        }
        into.clear();
        match driver.receive(&mut into) {
            Receive::Frame {
                place,
                meta: _,
                descriptors: _,
            } => {
                if place == number && into.as_slice() == frame_of(text, number) {
                    same += 1;
                }
                number += 1;
            }
            Receive::NotYet { word: _ } => thread::yield_now(),
        }
    }
    (driver, same)
}

#[test]
fn two_threads_carry_all_frames_in_order(rt: HostRuntime) -> Result<(), Fail> {
    let alloc = rt.alloc();
    let text = text(alloc)?;
    let text = text.as_slice();
    let (driver, device) = make(alloc, name(0), 32, 32, 1, 1, true)?;
    let mut into = Vec::new(alloc);
    into.reserve(MAX_FRAME)?;
    let ((device, sent), (driver, same)) = thread::join(
        &rt,
        move ||
            requires { (length text.now ≡ 9265) × ((device_view device).delivered ≡ []) × ((device_view device).refused ≡ []) }
            ensures { ((device_view result.0).key ≡ (device_view device).key) × ((device_view result.0).notes_given ≡ (device_view device).notes_given) × ((device_view result.0).notes_heard ≡ (device_view device).notes_heard) }
        { send(device, text) },
        move ||
            requires { (length text.now ≡ 9265) × (MAX_FRAME ≤ vec_capacity into) × ((driver_view driver).received ≡ []) × ((driver_view driver).made.full ≡ true) }
            ensures { ((driver_view result.0).key ≡ (driver_view driver).key) × ((driver_view result.0).notes_given ≡ (driver_view driver).notes_given) × ((driver_view result.0).notes_heard ≡ (driver_view driver).notes_heard) }
        { receive(driver, into, text) },
    );
    assert!(rt; sent == FRAMES && same == FRAMES);
    let facts = meet(driver, device);
    assert!(rt; facts.delivered() == FRAMES && facts.received() == FRAMES);
    Ok(())
}
