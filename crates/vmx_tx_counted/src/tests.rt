//! What no clause says: that memory can be had, and what stands at numbers that are worked out by hand.
ghost use Rattle.std.specs.Prelude.{◌≡◌, ◌≤◌, vec_len, vec_capacity, IfOk};
ghost use Rattle.vmx_io.specs.declared.buffer.TheConstants.{MAX_FRAME};
ghost use Rattle.vmx_ends.specs.Queues.{least_piece};

use crate::{make, meet};
use std::alloc::{AllocError, Global};
use std::test::Fail;
use vmx_ends::{MAX_FRAME, Post, QueueName, Reap, Take, TxDevice, TxDriver, TxFacts, TxMark};

const NAME: QueueName = QueueName {
    guest: 2,
    activation: 1,
    queue: 0,
};

/// An empty buffer with room for a frame.
fn roomy(alloc: Global) -> Result<Vec<u8>, AllocError>
    ensures { IfOk result (λ v. (vec_len v ≡ 0) × (MAX_FRAME ≤ vec_capacity v)) }
{
    let mut into = Vec::new(alloc);
    into.reserve(MAX_FRAME)?;
    Ok(into)
}

/// A tag, and TSO with 54 bytes of headers and segments of 1,448 bytes.
fn marked() -> TxMark {
    TxMark {
        tci: Some(0x2064),
        om: 3,
        hlen: 54,
        msscof: 1448,
    }
}

/// A frame through a new ring of 32, from post to reap: how many descriptors came back, or none where frame or mark came
/// out otherwise.
fn descriptors_of(
    alloc: Global,
    piece: u32,
    with_data: bool,
    bytes: usize,
) -> Result<Option<u32>, AllocError>
    requires piece { (least_piece with_data ≤ piece) × (piece ≤ 4096) }
    requires bytes { (14 ≤ bytes) × (bytes ≤ 9018) }
{
    let (mut driver, mut device) = make(alloc, NAME, 32, piece, with_data)?;
    let frame = Vec::from_elem(alloc, 7u8, bytes)?;
    let mark = marked();
    let mut into = roomy(alloc)?;
    if driver.post(frame.as_slice(), &mark) != (Post::Done { place: 0 }) {
        return Ok(None);
    }
    match device.take(&mut into) {
        Take::Frame { place, mark: got } => {
            if place != 0 || got != mark || into.as_slice() != frame.as_slice() {
                return Ok(None);
            }
            device.complete();
            match driver.reap() {
                Reap::Done {
                    place: _,
                    descriptors,
                } => Ok(Some(descriptors)),
                Reap::NotYet { word: _ } => Ok(None),
            }
        }
        Take::Empty { word: _ } => Ok(None),
        Take::Bad { words: _, fault: _ } => Ok(None),
    }
}

#[test]
fn frames_give_their_descriptors_back(rt: HostRuntime) -> Result<(), Fail> {
    let alloc = rt.alloc();
    let one = descriptors_of(alloc, 4096, false, 60)?;
    let two = descriptors_of(alloc, 4096, false, 4097)?;
    let sixteen = descriptors_of(alloc, 576, false, 9014)?;
    assert!(rt; one == Some(1) && two == Some(2) && sixteen == Some(16));
    Ok(())
}

#[test]
fn with_data_the_first_128_bytes_have_a_descriptor(rt: HostRuntime) -> Result<(), Fail> {
    let alloc = rt.alloc();
    let one = descriptors_of(alloc, 4096, true, 128)?;
    let two = descriptors_of(alloc, 4096, true, 129)?;
    let fifteen = descriptors_of(alloc, 640, true, 9014)?;
    assert!(rt; one == Some(1) && two == Some(2) && fifteen == Some(15));
    Ok(())
}

#[test]
fn new_queues_have_nothing_and_their_notes_are_heard(rt: HostRuntime) -> Result<(), Fail> {
    let alloc = rt.alloc();
    let (mut driver, mut device) = make(alloc, NAME, 32, 4096, false)?;
    let mut into = roomy(alloc)?;
    let none = device.take(&mut into);
    assert!(rt; none == Take::Empty { word: 0 });
    let early = driver.reap();
    assert!(rt; early == Reap::NotYet { word: 0 });
    let note = driver.note();
    device.hear(note);
    let note = device.note();
    driver.hear(note);
    let facts = meet(driver, device);
    assert!(rt;
        facts.name() == NAME
            && facts.sent() == 0
            && facts.taken() == 0
            && facts.completed() == 0
            && facts.reaped() == 0
    );
    Ok(())
}
