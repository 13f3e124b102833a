//! The queues of a guest, of all its activations.
ghost use Rattle.std.specs.Prelude.{◌≡◌, ◌≤◌, ◌-◌, ◌++◌, length, map, filter_map, find, IfOk, OnOk, All, if◌then◌else◌};
ghost use Rattle.vmx_model.specs.Lists.{upto};
ghost use Rattle.vmx_model.specs.Serial.{where_it, tx_is, rx_is, is_of, through, tried, received_next, up_next, pending as pending_of, fate_on as fate_on_of, fate_with, new_tx, new_rx};
ghost use Rattle.vmx_ends.specs.ReceiveCore.{comes_to};
ghost use Rattle.vmx_serial_queues.specs.Queues.{tx_core, rx_core, marked};
ghost use Rattle.vmx_serial_queues.specs.Forms.{arrival_of};
ghost use Rattle.vmx_serial_queues.specs.Small.{IsShort};

use crate::forms::Arrival;
use crate::rx::RxQueue;
use crate::tx::TxQueue;
use crate::walk::Outcome;
use std::alloc::{AllocError, Global};
use vmx_ends::{MAX_FRAME, QueueName, RxShape, TxMade, TxMark};
use vmx_io::List;
use vmx_model::{Fate, GuestPlan, Received};

/// A frame goes through the transmit queue of this number in this activation.
pub fn transmit(
    alloc: Global,
    queues: &mut List<TxQueue>,
    activation: u32,
    queue: u32,
    frame: &[u8],
    mark: &TxMark,
) -> Result<(), AllocError>
    ensures through { OnOk result (map tx_core queues.new ≡ where_it (tx_is activation queue) (through (marked frame.now mark.now)) (map tx_core queues.old)) }
{
    for i in 0..queues.len() {
        through_if(alloc, queues.at_mut(i), activation, queue, frame, mark)?;
    }
    Ok(())
}

fn through_if(
    alloc: Global,
    at: &mut TxQueue,
    activation: u32,
    queue: u32,
    frame: &[u8],
    mark: &TxMark,
) -> Result<(), AllocError>
    ensures through { OnOk result (tx_core at.new ≡ (if tx_is activation queue (tx_core at.old) then through (marked frame.now mark.now) (tx_core at.old) else tx_core at.old)) }
{
    if at.is(activation, queue) {
        at.through(alloc, frame, mark)?;
    }
    Ok(())
}

/// A delivery is tried at the receive queue of this number in this activation.
pub fn deliver(
    alloc: Global,
    queues: &mut List<RxQueue>,
    activation: u32,
    queue: u32,
    arrival: &Arrival,
) -> Result<(), AllocError>
    requires bytes { length arrival.now.frame ≤ MAX_FRAME }
    requires short { All IsShort (map rx_core queues.old) }
    ensures tried { OnOk result (map rx_core queues.new ≡ where_it (rx_is activation queue) (tried (arrival_of arrival.now)) (map rx_core queues.old)) }
{
    for i in 0..queues.len() {
        deliver_if(alloc, queues.at_mut(i), activation, queue, arrival)?;
    }
    Ok(())
}

#[tactic(auto, unfolding(vmx_model::specs::Serial::tried))]
fn deliver_if(
    alloc: Global,
    at: &mut RxQueue,
    activation: u32,
    queue: u32,
    arrival: &Arrival,
) -> Result<(), AllocError>
    requires bytes { length arrival.now.frame ≤ MAX_FRAME }
    requires short { IsShort (rx_core at.old) }
    ensures tried { OnOk result (rx_core at.new ≡ (if rx_is activation queue (rx_core at.old) then tried (arrival_of arrival.now) (rx_core at.old) else rx_core at.old)) }
{
    if at.is(activation, queue) {
        at.deliver(alloc, arrival.frame.as_slice(), &arrival.meta)?;
    }
    Ok(())
}

/// The next frame of each receive queue of the activation is received.
pub fn receive_each(queues: &mut List<RxQueue>, activation: u32)
    ensures received { map rx_core queues.new ≡ where_it (is_of activation) received_next (map rx_core queues.old) }
{
    for i in 0..queues.len() {
        receive_if(queues.at_mut(i), activation);
    }
}

fn receive_if(at: &mut RxQueue, activation: u32)
    ensures received { rx_core at.new ≡ (if is_of activation (rx_core at.old) then received_next (rx_core at.old) else rx_core at.old) }
{
    if at.is_of(activation) {
        at.receive_next();
    }
}

/// Hands up the next frame of each receive queue of the activation, in order.
pub fn hand_up(
    alloc: Global,
    queues: &[RxQueue],
    activation: u32,
    received: &mut List<Received>,
) -> Result<(), AllocError>
    ensures handed { OnOk result (received.new ≡ received.old ++ filter_map (up_next activation) (map rx_core queues.now)) }
{
    for queue in queues {
        if let Some(frame) = queue.up_next(alloc, activation)? {
            received.push(frame)?;
        }
    }
    Ok(())
}

/// How many delivered frames are not received.
pub fn pending(queues: &[RxQueue]) -> u128
    ensures pending { result ≡ pending_of (map rx_core queues.now) }
{
    let mut pending: u128 = 0;
    for queue in queues {
        pending += queue.pending() as u128;
    }
    pending
}

/// What a delivery to the queue of this number comes to.
pub fn fate_on(
    alloc: Global,
    queues: &[RxQueue],
    activation: u32,
    queue: u32,
    arrival: &Arrival,
) -> Result<Fate, AllocError>
    requires bytes { length arrival.now.frame ≤ MAX_FRAME }
    requires short { All IsShort (map rx_core queues.now) }
    ensures fate { IfOk result (λ f. f ≡ fate_on_of activation queue (arrival_of arrival.now) (find (rx_is activation queue) (map rx_core queues.now))) }
{
    for at in queues {
        if at.is(activation, queue) {
            return fate_at(alloc, at, activation, queue, arrival.frame.as_slice().len());
        }
    }
    Ok(Fate::Inactive)
}

/// What a delivery of a frame of so many bytes to a queue comes to.
fn fate_at(
    alloc: Global,
    at: &RxQueue,
    activation: u32,
    queue: u32,
    bytes: usize,
) -> Result<Fate, AllocError>
    requires bytes { bytes ≤ MAX_FRAME }
    requires short { IsShort (rx_core at.now) }
    ensures fate { IfOk result (λ f. f ≡ fate_with activation queue (rx_core at.now) (comes_to (rx_core at.now) bytes)) }
{
    match at.comes_to(alloc, bytes)? {
        Outcome::Takes { passed: _, end: _ } => Ok(Fate::Up {
            activation,
            queue,
            place: at.delivered.len() as u64,
        }),
        Outcome::Misses {
            ring,
            position,
            looks: _,
        } => Ok(Fate::NoBuffer {
            activation,
            queue,
            ring,
            position,
            look: at.refused.len() as u64,
        }),
    }
}

/// Makes the transmit queues of an activation.
pub fn make_tx(
    alloc: Global,
    queues: &mut List<TxQueue>,
    port: u32,
    plan: &GuestPlan,
    activation: u32,
) -> Result<(), AllocError>
    ensures made { OnOk result (map tx_core queues.new ≡ map tx_core queues.old ++ map (new_tx port plan.now activation) (upto 0 plan.now.setup.tx_queues)) }
{
    for queue in 0..u32::from(plan.setup.tx_queues) {
        queues.push(tx_of(alloc, port, plan, activation, queue))?;
    }
    Ok(())
}

fn tx_of(alloc: Global, port: u32, plan: &GuestPlan, activation: u32, queue: u32) -> TxQueue
    ensures made { tx_core result ≡ new_tx port plan.now activation queue }
{
    TxQueue::new(
        alloc,
        TxMade {
            name: QueueName {
                guest: port,
                activation,
                queue,
            },
            size: plan.setup.tx_ring,
            piece: plan.piece,
            with_data: plan.setup.tx_data,
            full: true,
        },
    )
}

/// Makes the receive queues of an activation.
pub fn make_rx(
    alloc: Global,
    queues: &mut List<RxQueue>,
    port: u32,
    plan: &GuestPlan,
    activation: u32,
) -> Result<(), AllocError>
    ensures made { OnOk result (map rx_core queues.new ≡ map rx_core queues.old ++ map (new_rx port plan.now activation) (upto 0 plan.now.setup.rx_queues)) }
{
    for queue in 0..u32::from(plan.setup.rx_queues) {
        queues.push(rx_of(alloc, port, plan, activation, queue))?;
    }
    Ok(())
}

fn rx_of(alloc: Global, port: u32, plan: &GuestPlan, activation: u32, queue: u32) -> RxQueue
    ensures made { rx_core result ≡ new_rx port plan.now activation queue }
{
    RxQueue::new(
        alloc,
        RxShape {
            name: QueueName {
                guest: port,
                activation,
                queue,
            },
            queues: u32::from(plan.setup.rx_queues),
            size1: plan.setup.rx_ring1,
            size2: plan.setup.rx_ring2,
            bodies: plan.bodies,
            with_data: plan.setup.rx_data,
        },
    )
}
