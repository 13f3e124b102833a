//! That memory can be had, and that callers which are generic in a fabric carry frames over this one.
use crate::QueueFabric;
use std::test::Fail;
use vmx_ends::{Fabric, MAX_FRAME, QueueName, RxFacts, RxMeta, TxFacts, TxMark, carry, carry_rx};

const NAME: QueueName = QueueName {
    guest: 2,
    activation: 1,
    queue: 0,
};

#[test]
fn frames_are_carried_through_a_transmit_queue(rt: HostRuntime) -> Result<(), Fail> {
    let alloc = rt.alloc();
    let (mut driver, mut device) = QueueFabric::make_tx(alloc, NAME, 32, 4096, true)?;
    let frame = Vec::from_elem(alloc, 7u8, 9014)?;
    let mark = TxMark {
        tci: Some(0x2064),
        om: 3,
        hlen: 54,
        msscof: 1448,
    };
    let mut into = Vec::new(alloc);
    into.reserve(MAX_FRAME)?;
    let done = carry::<QueueFabric>(&mut driver, &mut device, frame.as_slice(), &mark, &mut into);
    assert!(rt; done && into.as_slice() == frame.as_slice());
    Ok(())
}

#[test]
fn frames_are_carried_through_a_receive_queue(rt: HostRuntime) -> Result<(), Fail> {
    let alloc = rt.alloc();
    let (mut driver, mut device) = QueueFabric::make_rx(alloc, NAME, 32, 32, 1, 1, true)?;
    let frame = Vec::from_elem(alloc, 7u8, 9014)?;
    let meta = RxMeta {
        hash: 0,
        kind: 0,
        tci: Some(0x2064),
    };
    let mut into = Vec::new(alloc);
    into.reserve(MAX_FRAME)?;
    let done = carry_rx::<QueueFabric>(
        &mut driver,
        &mut device,
        frame.as_slice(),
        &meta,
        &mut into,
    );
    assert!(rt; done && into.as_slice() == frame.as_slice());
    Ok(())
}

#[test]
fn new_queues_meet_with_nothing_done(rt: HostRuntime) -> Result<(), Fail> {
    let alloc = rt.alloc();
    let (driver, device) = QueueFabric::make_tx(alloc, NAME, 32, 4096, false)?;
    let sent = QueueFabric::meet_tx(driver, device);
    assert!(rt; sent.name() == NAME && sent.sent() == 0 && sent.reaped() == 0);
    let (driver, device) = QueueFabric::make_rx(alloc, NAME, 32, 32, 0, 1, false)?;
    let received = QueueFabric::meet_rx(driver, device);
    assert!(rt; received.name() == NAME && received.delivered() == 0 && received.received() == 0);
    Ok(())
}
