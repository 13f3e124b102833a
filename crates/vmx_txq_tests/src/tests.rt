//! What no clause says: what stands in the words, and that two threads carry frames to the end. The words and answers are
//! worked out by hand from the layout of descriptors.
ghost use Rattle.std.specs.Prelude.{◌≡◌, ◌≤◌, ◌<◌, ◌+◌, ◌*◌, ◌^◌, [], length, vec_len, vec_capacity, IfOk, Some};
ghost use Rattle.vmx_io.specs.declared.buffer.TheConstants.{MAX_FRAME};
ghost use Rattle.vmx_ends.specs.Frames.{IsFrame, IsMarked};
ghost use Rattle.vmx_ends.specs.Transmit.{posted, found_in};
ghost use Rattle.vmx_ends.specs.TransmitClauses.{IsIdle};
ghost use Rattle.vmx_txq.specs.Ends.{driver_view, device_view};
ghost use Rattle.vmx_txq_tests.specs.Same.{SameDriver, SameDevice};

use std::alloc::{AllocError, Global};
use std::test::Fail;
use std::thread;
use vmx_ends::{MAX_FRAME, Post, QueueName, Reap, Take, TxDevice, TxDriver, TxFacts, TxMark};
use vmx_txq::{TxDeviceEnd, TxDriverEnd, make, meet, word};

const FRAMES: u64 = 1_000;

const TRIES: u64 = 100_000_000;

/// A transmit queue of activation 1 of guest 2.
fn name(queue: u32) -> QueueName {
    QueueName {
        guest: 2,
        activation: 1,
        queue,
    }
}

/// An empty buffer with room for a frame.
fn roomy(alloc: Global) -> Result<Vec<u8>, AllocError>
    ensures { IfOk result (λ v. (vec_len v ≡ 0) × (MAX_FRAME ≤ vec_capacity v)) }
{
    let mut into = Vec::new(alloc);
    into.reserve(MAX_FRAME)?;
    Ok(into)
}

/// Posts a frame with a mark.
fn posts(driver: &mut TxDriverEnd, frame: &[u8], mark: &TxMark) -> Post
    requires frame { IsMarked frame.now mark.now }
    requires small { (length (driver_view driver.old).sent < 2 ^ 61) × (posted (driver_view driver.old) < 2 ^ 61) }
    ensures same { SameDriver (driver_view driver.old) (driver_view driver.new) }
    ensures grows { (length (driver_view driver.new).sent ≤ length (driver_view driver.old).sent + 1) × (posted (driver_view driver.new) ≤ posted (driver_view driver.old) + 16) × ((driver_view driver.new).reaped ≡ (driver_view driver.old).reaped) }
{
    match driver.post(frame, mark) {
        Post::Done { place } => Post::Done { place },
        Post::Full { used, need } => Post::Full { used, need },
    }
}

/// Posts a frame with the plain mark.
fn post_plain(driver: &mut TxDriverEnd, frame: &[u8]) -> Post
    requires frame { IsFrame frame.now }
    requires small { (length (driver_view driver.old).sent < 2 ^ 61) × (posted (driver_view driver.old) < 2 ^ 61) }
    ensures same { SameDriver (driver_view driver.old) (driver_view driver.new) }
    ensures grows { (length (driver_view driver.new).sent ≤ length (driver_view driver.old).sent + 1) × (posted (driver_view driver.new) ≤ posted (driver_view driver.old) + 16) × ((driver_view driver.new).reaped ≡ (driver_view driver.old).reaped) }
{
    posts(driver, frame, &TxMark::plain())
}

/// Reaps a frame.
fn reaps(driver: &mut TxDriverEnd) -> Reap
    requires small { (driver_view driver.old).reaped < 2 ^ 61 }
    ensures same { SameDriver (driver_view driver.old) (driver_view driver.new) }
    ensures sent { (length (driver_view driver.new).sent ≡ length (driver_view driver.old).sent) × (posted (driver_view driver.new) ≡ posted (driver_view driver.old)) }
    ensures grows { (driver_view driver.new).reaped ≤ (driver_view driver.old).reaped + 1 }
{
    match driver.reap() {
        Reap::Done { place, descriptors } => Reap::Done { place, descriptors },
        Reap::NotYet { word } => Reap::NotYet { word },
    }
}

/// Takes a frame and completes it. It tells its place.
fn takes(device: &mut TxDeviceEnd, into: &mut Vec<u8>) -> Option<u64>
    requires room { MAX_FRAME ≤ vec_capacity into.old }
    requires idle { IsIdle (device_view device.old) }
    requires small { (length (device_view device.old).taken < 2 ^ 61) × (found_in (device_view device.old).taken < 2 ^ 61) }
    ensures same { SameDevice (device_view device.old) (device_view device.new) }
    ensures idle { IsIdle (device_view device.new) }
    ensures grows { (length (device_view device.new).taken ≤ length (device_view device.old).taken + 1) × (found_in (device_view device.new).taken ≤ found_in (device_view device.old).taken + 16) }
    ensures room { vec_capacity into.old ≤ vec_capacity into.new }
{
    into.clear();
    match device.take(into) {
        Take::Frame { place, mark: _ } => {
            device.complete();
            Some(place)
        }
        Take::Empty { word: _ } => None,
        Take::Bad { words: _, fault: _ } => None,
    }
}

/// Takes what there is.
fn looks(device: &mut TxDeviceEnd, into: &mut Vec<u8>) -> Take
    requires empty { vec_len into.old ≡ 0 }
    requires room { MAX_FRAME ≤ vec_capacity into.old }
    requires idle { IsIdle (device_view device.old) }
    requires small { (length (device_view device.old).taken < 2 ^ 61) × (found_in (device_view device.old).taken < 2 ^ 61) }
    ensures same { SameDevice (device_view device.old) (device_view device.new) }
{
    match device.take(into) {
        Take::Frame { place, mark } => Take::Frame { place, mark },
        Take::Empty { word } => Take::Empty { word },
        Take::Bad { words, fault } => Take::Bad { words, fault },
    }
}

/// Posts the frame so many times, and tells whether it got the places from 0 on.
fn posts_all(driver: &mut TxDriverEnd, frame: &[u8], count: u64) -> bool
    requires frame { IsFrame frame.now }
    requires small { (count ≤ 1000) × (length (driver_view driver.old).sent ≤ 1000) × (posted (driver_view driver.old) ≤ 1000) }
    ensures sent { length (driver_view driver.new).sent ≤ 1000 + count }
    ensures posted { posted (driver_view driver.new) ≤ 1000 + 16 * count }
    ensures reaped { (driver_view driver.new).reaped ≡ (driver_view driver.old).reaped }
{
    for place in 0..count {
        if post_plain(driver, frame) != (Post::Done { place }) {
            return false;
        }
    }
    true
}

#[test]
fn the_eleventh_long_frame_finds_the_ring_full(rt: HostRuntime) -> Result<(), Fail> {
    let alloc = rt.alloc();
    let (mut driver, mut device) = make(alloc, name(0), 32, 4096, false)?;
    let frame = Vec::from_elem(alloc, 7u8, 9014)?;
    let mut into = roomy(alloc)?;
    let all = posts_all(&mut driver, frame.as_slice(), 10);
    assert!(rt; all);
    let full = post_plain(&mut driver, frame.as_slice());
    assert!(rt; full == Post::Full { used: 30, need: 3 });
    let early = reaps(&mut driver);
    assert!(rt; early == Reap::NotYet { word: 0 });
    let taken = takes(&mut device, &mut into);
    assert!(rt; taken == Some(0) && into.as_slice() == frame.as_slice());
    let reaped = reaps(&mut driver);
    assert!(rt;
        reaped
            == Reap::Done {
                place: 0,
                descriptors: 3
            }
    );
    Ok(())
}

#[test]
fn a_new_queue_has_no_frame(rt: HostRuntime) -> Result<(), Fail> {
    let alloc = rt.alloc();
    let (_driver, mut device) = make(alloc, name(0), 32, 4096, false)?;
    let mut into = roomy(alloc)?;
    let none = looks(&mut device, &mut into);
    assert!(rt; none == Take::Empty { word: 0 });
    Ok(())
}

#[test]
fn with_data_the_ninth_long_frame_finds_the_ring_full(rt: HostRuntime) -> Result<(), Fail> {
    let alloc = rt.alloc();
    let (mut driver, mut device) = make(alloc, name(0), 32, 4096, true)?;
    let frame = Vec::from_elem(alloc, 7u8, 9014)?;
    let mut into = roomy(alloc)?;
    let all = posts_all(&mut driver, frame.as_slice(), 8);
    assert!(rt; all);
    let full = post_plain(&mut driver, frame.as_slice());
    assert!(rt; full == Post::Full { used: 32, need: 4 });
    let taken = takes(&mut device, &mut into);
    assert!(rt; taken == Some(0) && into.as_slice() == frame.as_slice());
    Ok(())
}

/// Posts a frame of so many bytes on a new queue with a data ring, takes it, completes it and reaps it. It tells how many
/// descriptors came back.
fn descriptors_with_data(alloc: Global, bytes: usize) -> Result<u32, AllocError>
    requires { (14 ≤ bytes) × (bytes ≤ MAX_FRAME) }
{
    let (mut driver, mut device) = make(alloc, name(0), 32, 4096, true)?;
    let frame = Vec::from_elem(alloc, 7u8, bytes)?;
    let mut into = roomy(alloc)?;
    post_plain(&mut driver, frame.as_slice());
    takes(&mut device, &mut into);
    match reaps(&mut driver) {
        Reap::Done {
            place: _,
            descriptors,
        } => Ok(descriptors),
        Reap::NotYet { word: _ } => Ok(0),
    }
}

#[test]
fn a_data_entry_has_128_bytes(rt: HostRuntime) -> Result<(), Fail> {
    let alloc = rt.alloc();
    let short = descriptors_with_data(alloc, 128)?;
    let longer = descriptors_with_data(alloc, 129)?;
    assert!(rt; short == 1 && longer == 2);
    Ok(())
}

/// A word of a queue of 32 descriptors.
fn word_at(driver: &mut TxDriverEnd, device: &TxDeviceEnd, index: u32) -> u64
    requires one { (driver_view driver.old).key ≡ (device_view device.now).key }
    requires size { (driver_view driver.old).made.size ≡ 32 }
    requires index { index < 128 }
    ensures same { driver_view driver.new ≡ driver_view driver.old }
{
    word(driver, device, index)
}

#[test]
fn the_first_descriptor_names_the_data_entry(rt: HostRuntime) -> Result<(), Fail> {
    let alloc = rt.alloc();
    let (mut driver, device) = make(alloc, name(0), 32, 4096, true)?;
    let frame = Vec::from_elem(alloc, 7u8, 60)?;
    let posted = post_plain(&mut driver, frame.as_slice());
    assert!(rt; posted == Post::Done { place: 0 });
    let first = word_at(&mut driver, &device, 32);
    let second = word_at(&mut driver, &device, 0);
    assert!(rt; first == 0x0000_0000_1002_0000 && second == 0x0000_3000_0000_403C);
    Ok(())
}

/// A tag, and TSO with 54 bytes of headers and segments of 1,448 bytes.
fn marked() -> TxMark
    ensures tag { result.tci ≡ Some 8292 }
{
    TxMark {
        tci: Some(0x2064),
        om: 3,
        hlen: 54,
        msscof: 1448,
    }
}

#[test]
fn a_mark_stands_in_the_first_descriptor_and_comes_out_as_posted(
    rt: HostRuntime,
) -> Result<(), Fail> {
    let alloc = rt.alloc();
    let (mut driver, mut device) = make(alloc, name(3), 32, 4096, false)?;
    let frame = Vec::from_elem(alloc, 7u8, 9014)?;
    let mut into = roomy(alloc)?;
    let mark = marked();
    let posted = posts(&mut driver, frame.as_slice(), &mark);
    assert!(rt; posted == Post::Done { place: 0 });
    let first = word_at(&mut driver, &device, 0);
    let middle = word_at(&mut driver, &device, 1);
    let last = word_at(&mut driver, &device, 2);
    assert!(rt;
        first == 0x2064_8C36_16A0_5000
            && middle == 0x0000_0000_0000_5000
            && last == 0x0000_3000_0000_4336
    );
    let taken = looks(&mut device, &mut into);
    assert!(rt; taken == Take::Frame { place: 0, mark } && into.as_slice() == frame.as_slice());
    Ok(())
}

/// A frame goes from post to reap. It tells whether it got this place and one descriptor.
fn goes_through(
    driver: &mut TxDriverEnd,
    device: &mut TxDeviceEnd,
    frame: &[u8],
    into: &mut Vec<u8>,
    place: u64,
) -> bool
    requires frame { IsFrame frame.now }
    requires room { MAX_FRAME ≤ vec_capacity into.old }
    requires idle { IsIdle (device_view device.old) }
    requires small { (length (driver_view driver.old).sent ≤ 2000) × (posted (driver_view driver.old) ≤ 2000) × ((driver_view driver.old).reaped ≤ 2000) }
    requires few { (length (device_view device.old).taken ≤ 2000) × (found_in (device_view device.old).taken ≤ 2000) }
    ensures one { ((driver_view driver.new).key ≡ (driver_view driver.old).key) × ((driver_view driver.new).made ≡ (driver_view driver.old).made) × ((device_view device.new).key ≡ (device_view device.old).key) }
    ensures idle { IsIdle (device_view device.new) }
    ensures small { (length (driver_view driver.new).sent ≤ length (driver_view driver.old).sent + 1) × (posted (driver_view driver.new) ≤ posted (driver_view driver.old) + 16) × ((driver_view driver.new).reaped ≤ (driver_view driver.old).reaped + 1) }
    ensures few { (length (device_view device.new).taken ≤ length (device_view device.old).taken + 1) × (found_in (device_view device.new).taken ≤ found_in (device_view device.old).taken + 16) }
    ensures room { vec_capacity into.old ≤ vec_capacity into.new }
{
    let posted = post_plain(driver, frame);
    let taken = takes(device, into);
    let reaped = reaps(driver);
    posted == (Post::Done { place })
        && taken == Some(place)
        && into.as_slice() == frame
        && reaped
            == (Reap::Done {
                place,
                descriptors: 1,
            })
}

/// Frames of 60 bytes go round, each posted, taken, completed and reaped in turn. It tells whether they got the places
/// from 0 to 31 and one descriptor each.
fn goes_round(
    driver: &mut TxDriverEnd,
    device: &mut TxDeviceEnd,
    frame: &[u8],
    into: &mut Vec<u8>,
) -> bool
    requires frame { IsFrame frame.now }
    requires room { MAX_FRAME ≤ vec_capacity into.old }
    requires idle { IsIdle (device_view device.old) }
    requires small { (length (driver_view driver.old).sent ≡ 0) × (posted (driver_view driver.old) ≡ 0) × ((driver_view driver.old).reaped ≡ 0) }
    requires few { (length (device_view device.old).taken ≡ 0) × (found_in (device_view device.old).taken ≡ 0) }
    ensures one { ((driver_view driver.new).key ≡ (driver_view driver.old).key) × ((driver_view driver.new).made ≡ (driver_view driver.old).made) × ((device_view device.new).key ≡ (device_view device.old).key) }
    ensures idle { IsIdle (device_view device.new) }
    ensures small { (length (driver_view driver.new).sent ≤ 2000) × (posted (driver_view driver.new) ≤ 2000) × ((driver_view driver.new).reaped ≤ 2000) }
    ensures few { (length (device_view device.new).taken ≤ 2000) × (found_in (device_view device.new).taken ≤ 2000) }
    ensures room { vec_capacity into.old ≤ vec_capacity into.new }
{
    for place in 0..32u64 {
        if !goes_through(driver, device, frame, into, place) {
            return false;
        }
    }
    true
}

#[test]
fn generations_flip_at_the_wrap(rt: HostRuntime) -> Result<(), Fail> {
    let alloc = rt.alloc();
    let (mut driver, mut device) = make(alloc, name(0), 32, 4096, false)?;
    let frame = Vec::from_elem(alloc, 7u8, 60)?;
    let mut into = roomy(alloc)?;
    let all = goes_round(&mut driver, &mut device, frame.as_slice(), &mut into);
    assert!(rt; all);
    into.clear();
    let none = looks(&mut device, &mut into);
    assert!(rt;
        none == Take::Empty {
            word: 0x0000_3000_0000_403C
        }
    );
    let none = reaps(&mut driver);
    assert!(rt; none == Reap::NotYet { word: 1 << 63 });
    let posted = post_plain(&mut driver, frame.as_slice());
    assert!(rt; posted == Post::Done { place: 32 });
    let second = word_at(&mut driver, &device, 0);
    assert!(rt; second == 0x0000_3000_0000_003C);
    Ok(())
}

#[test]
fn notes_are_heard_on_the_other_side(rt: HostRuntime) -> Result<(), Fail> {
    let alloc = rt.alloc();
    let (mut driver, mut device) = make(alloc, name(3), 32, 4096, false)?;
    let note = driver.note();
    device.hear(note);
    let note = device.note();
    driver.hear(note);
    let facts = meet(driver, device);
    assert!(rt; facts.name() == name(3) && facts.sent() == 0 && facts.reaped() == 0);
    Ok(())
}

/// The bytes that frames are cut from.
fn text(alloc: Global) -> Result<Vec<u8>, AllocError>
    ensures { IfOk result (λ v. length v.items ≡ 9265) }
{
    let mut text = Vec::from_elem(alloc, 0u8, 9265)?;
    for i in 0..9265 {
        text[i] = (i % 251) as u8;
    }
    Ok(text)
}

/// The frame with this number, from 60 bytes for the first to 9,014 for the last, from one of 251 places on.
fn frame_of(text: &[u8], number: u64) -> &[u8]
    requires { length text.now ≡ 9265 }
    ensures { IsFrame result.now }
{
    let place = number % FRAMES;
    let start = (place % 251) as usize;
    let length = 60 + (place * 8954 / (FRAMES - 1)) as usize;
    &text[start..start + length]
}

/// Posts a frame, or reaps one where the ring is full. It tells whether the frame was posted.
fn posts_or_reaps(driver: &mut TxDriverEnd, frame: &[u8]) -> bool
    requires frame { IsFrame frame.now }
    requires small { (length (driver_view driver.old).sent < 2 ^ 61) × (posted (driver_view driver.old) < 2 ^ 61) × ((driver_view driver.old).reaped < 2 ^ 61) }
    ensures same { SameDriver (driver_view driver.old) (driver_view driver.new) }
    ensures grows { (length (driver_view driver.new).sent ≤ length (driver_view driver.old).sent + 1) × (posted (driver_view driver.new) ≤ posted (driver_view driver.old) + 16) × ((driver_view driver.new).reaped ≤ (driver_view driver.old).reaped + 1) }
{
    match post_plain(driver, frame) {
        Post::Done { place: _ } => true,
        Post::Full { used: _, need: _ } => {
            match reaps(driver) {
                Reap::Done {
                    place: _,
                    descriptors: _,
                } => {}
                Reap::NotYet { word: _ } => thread::yield_now(),
            }
            false
        }
    }
}

/// Posts all frames, and reaps what is completed.
fn send(driver: TxDriverEnd, text: &[u8]) -> (TxDriverEnd, u64)
    requires text { length text.now ≡ 9265 }
    requires fresh { ((driver_view driver).sent ≡ []) × ((driver_view driver).reaped ≡ 0) }
    ensures same { SameDriver (driver_view driver) (driver_view result.0) }
{
    let mut driver = driver;
    let mut number = 0;
    for tries in 0..TRIES {
        if number == FRAMES {
            break;
        }
        if posts_or_reaps(&mut driver, frame_of(text, number)) {
            number += 1;
        }
    }
    (driver, number)
}

/// Takes the frame with this number and completes it. It tells whether one was taken, and whether it was that frame.
fn takes_frame(
    device: &mut TxDeviceEnd,
    into: &mut Vec<u8>,
    text: &[u8],
    number: u64,
) -> (bool, bool)
    requires text { length text.now ≡ 9265 }
    requires room { MAX_FRAME ≤ vec_capacity into.old }
    requires idle { IsIdle (device_view device.old) }
    requires small { (length (device_view device.old).taken < 2 ^ 61) × (found_in (device_view device.old).taken < 2 ^ 61) }
    ensures same { SameDevice (device_view device.old) (device_view device.new) }
    ensures idle { IsIdle (device_view device.new) }
    ensures grows { (length (device_view device.new).taken ≤ length (device_view device.old).taken + 1) × (found_in (device_view device.new).taken ≤ found_in (device_view device.old).taken + 16) }
    ensures room { vec_capacity into.old ≤ vec_capacity into.new }
{
    match takes(device, into) {
        Some(place) => (
            true,
            place == number && into.as_slice() == frame_of(text, number),
        ),
        None => {
            thread::yield_now();
            (false, false)
        }
    }
}

/// Takes all frames and completes them, and counts those that are the frame of their number.
fn receive(device: TxDeviceEnd, into: Vec<u8>, text: &[u8]) -> (TxDeviceEnd, u64)
    requires text { length text.now ≡ 9265 }
    requires room { MAX_FRAME ≤ vec_capacity into }
    requires fresh { ((device_view device).taken ≡ []) × ((device_view device).completed ≡ 0) }
    ensures same { SameDevice (device_view device) (device_view result.0) }
    ensures idle { IsIdle (device_view result.0) }
{
    let mut device = device;
    let mut into = into;
    let mut same = 0;
    let mut number = 0;
    for tries in 0..TRIES {
        if number == FRAMES {
            break;
        }
        let (taken, right) = takes_frame(&mut device, &mut into, text, number);
        if taken {
            number += 1;
        }
        if right {
            same += 1;
        }
    }
    (device, same)
}

#[test]
fn two_threads_carry_all_frames_in_order(rt: HostRuntime) -> Result<(), Fail> {
    let alloc = rt.alloc();
    let text = text(alloc)?;
    let text = text.as_slice();
    let (driver, device) = make(alloc, name(0), 32, 640, true)?;
    let into = roomy(alloc)?;
    let ((driver, sent), (device, same)) = thread::join(
        &rt,
        move ||
            requires { (length text.now ≡ 9265) × ((driver_view driver).sent ≡ []) × ((driver_view driver).reaped ≡ 0) }
            ensures { SameDriver (driver_view driver) (driver_view result.0) }
        { send(driver, text) },
        move ||
            requires { (length text.now ≡ 9265) × (MAX_FRAME ≤ vec_capacity into) × ((device_view device).taken ≡ []) × ((device_view device).completed ≡ 0) }
            ensures { SameDevice (device_view device) (device_view result.0) × IsIdle (device_view result.0) }
        { receive(device, into, text) },
    );
    assert!(rt; sent == FRAMES && same == FRAMES);
    let facts = meet(driver, device);
    assert!(rt;
        facts.sent() == FRAMES
            && facts.taken() == FRAMES
            && facts.completed() == FRAMES
            && facts.reaped() <= FRAMES
    );
    Ok(())
}
