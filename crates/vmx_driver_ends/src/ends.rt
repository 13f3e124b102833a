//! What a driver does with its ends of all queues, and with its side of the registers. No call here takes memory but `make_room`.
ghost use Rattle.std.specs.Prelude.{◌≡◌, ◌≤◌, ◌<◌, ◌+◌, ◌^◌, ℕ, suc, length, map, All, true, false, [], IsSome, OnOk, if◌then◌else◌};
ghost use Rattle.vmx_layout.specs.declared.register.TheConstants.{MAX_QUEUES};
ghost use Rattle.vmx_ends.specs.Receive.{RxDriverView, used, pieces_of};
ghost use Rattle.vmx_regs.specs.Ends.{driver_key, driver_view, driver_masks, driver_interrupts};
ghost use Rattle.vmx_model.specs.declared.limits.TheConstants.{MAX_RECORDS};
ghost use Rattle.vmx_model.specs.Bags.{Pairwise};
ghost use Rattle.vmx_driver_steps.specs.Driver.{AreOneTx, AreOneRx, DriverView, Keeps};
ghost use Rattle.vmx_driver_steps.specs.Progress.{IsUnderway, in_hand};
ghost use Rattle.vmx_driver_steps.specs.Dues.{FrameDue};
ghost use Rattle.vmx_driver_steps.specs.Finds.{FindsNone, FindsOne};
ghost use Rattle.vmx_driver_steps.specs.Hints.{unmasked, Looked};
ghost use Rattle.vmx_driver_steps.specs.Queues.{IsFine, IsReaped, IsSmallTx, PostsThere, FullThere, PassedAllTx, PassedAllRx};
ghost use Rattle.vmx_driver_steps.specs.Driving.{Polls, HandsNext, FindsNoFrame, unreaped};

use std::alloc::{AllocError, Global};
use vmx_driver_steps::{Progress, mark_of, settle};
use vmx_ends::{Ends, Fabric, Post, Reap, Receive, RxDriver, TxDriver, pass, pass_rx};
use vmx_frame::flow;
use vmx_io::{Buffer, Bytes, Handed, List, Roomy};
use vmx_model::{GuestPlan, Received};
use vmx_regs::{Answer, Bell, DriverRegs};
use vmx_rss::tx_queue;

/// A driver hands up at most so many frames: for more there is no memory anywhere.
pub const MAX_RECEIVED: usize = 0x0200_0000_0000_0000;

/// An index as a doorbell has it: modulo 2^32.
fn index_of(count: u64) -> u32
    ensures index { result ≡ index_as count }
{
    (count % 0x1_0000_0000) as u32
}

ghost use Rattle.vmx_driver_steps.specs.Hints.{index_of as index_as};

/// Takes back what completed frames used, until a look finds no further completion. It answers how many frames that were.
fn reap_one<F: Fabric>(end: &mut F::TxDriver) -> u64
    requires fine { IsFine (F.TxDriver.view end.old) }
    ensures reaped { IsReaped (F.TxDriver.view end.old) (F.TxDriver.view end.new) }
    ensures count { (F.TxDriver.view end.old).reaped + result ≡ (F.TxDriver.view end.new).reaped }
{
    let mut count = 0;
    loop {
        match end.reap() {
            Reap::Done {
                place: _,
                descriptors: _,
            } => count += 1,
            Reap::NotYet { word: _ } => return count,
        }
    }
}

/// The same of each queue.
pub fn reap_all<F: Fabric>(tx: &mut List<F::TxDriver>) -> u64
    requires fine { All IsFine (map F.TxDriver.view tx.old) }
    requires few { length tx.old ≤ MAX_QUEUES }
    ensures reaped { Pairwise IsReaped (map F.TxDriver.view tx.old) (map F.TxDriver.view tx.new) }
    ensures count { unreaped (map F.TxDriver.view tx.new) + result ≡ unreaped (map F.TxDriver.view tx.old) }
{
    let mut count = 0;
    for queue in 0..tx.len() {
        count += reap_one::<F>(tx.at_mut(queue));
    }
    count
}

/// Posts the next frame, which is due, and rings the doorbell of its queue; then passes over those behind it that are not sent.
/// False: its ring has not the room, and nothing is changed.
#[tactic(auto, using(vmx_driver_steps::specs::Steps::under_next))]
pub fn post_next<F: Fabric>(
    plan: &GuestPlan,
    at: &mut Progress,
    tx: &mut List<F::TxDriver>,
    regs: &mut DriverRegs<Ends<F>>,
) -> bool
    requires due { FrameDue plan.now at.old }
    requires under { IsUnderway plan.now at.old }
    requires short { length plan.now.capture.records ≤ MAX_RECORDS }
    requires queues { length tx.old ≡ plan.now.setup.tx_queues }
    requires small { All IsSmallTx (map F.TxDriver.view tx.old) }
    ensures posts { result ≡ true → PostsThere plan.now (driver_interrupts regs.old) at.old (driver_masks regs.old) (map F.TxDriver.view tx.old) at.new (driver_masks regs.new) (map F.TxDriver.view tx.new) }
    ensures full { result ≡ false → FullThere plan.now at.old (map F.TxDriver.view tx.old) }
    ensures same { result ≡ false → (at.new ≡ at.old) × (map F.TxDriver.view tx.new ≡ map F.TxDriver.view tx.old) × (driver_masks regs.new ≡ driver_masks regs.old) }
    ensures regs { (driver_key regs.new ≡ driver_key regs.old) × (driver_view regs.new ≡ driver_view regs.old) }
    ensures count { length tx.new ≡ length tx.old }
{
    let frame = plan.capture.records.as_slice()[at.next].frame.as_slice();
    let mark = mark_of(plan, frame);
    let queue = tx_queue(&flow(frame), u32::from(plan.setup.tx_queues));
    match tx.at_mut(queue as usize).post(frame, &mark) {
        Post::Full { used: _, need: _ } => false,
        Post::Done { place } => {
            regs.ring(Bell::Tx { queue }, index_of(place + 1));
            at.next += 1;
            settle(plan, at);
            true
        }
    }
}

/// Passes notes both ways between the two ends of each transmit queue.
pub fn pass_all_tx<F: Fabric>(tx: &mut List<F::TxDriver>, held: &mut List<F::TxDevice>)
    requires pairs { Pairwise AreOneTx (map F.TxDriver.view tx.old) (map F.TxDevice.view held.old) }
    ensures passed { PassedAllTx (map F.TxDriver.view tx.old) (map F.TxDevice.view held.old) (map F.TxDriver.view tx.new) (map F.TxDevice.view held.new) }
{
    for q in 0..tx.len() {
        pass::<F>(tx.at_mut(q), held.at_mut(q));
    }
}

/// Passes notes both ways between the two ends of each receive queue.
pub fn pass_all_rx<F: Fabric>(rx: &mut List<F::RxDriver>, held: &mut List<F::RxDevice>)
    requires pairs { Pairwise AreOneRx (map F.RxDriver.view rx.old) (map F.RxDevice.view held.old) }
    ensures passed { PassedAllRx (map F.RxDriver.view rx.old) (map F.RxDevice.view held.old) (map F.RxDriver.view rx.new) (map F.RxDevice.view held.new) }
{
    for q in 0..rx.len() {
        pass_rx::<F>(rx.at_mut(q), held.at_mut(q));
    }
}

/// Asks for the answer to a command that brings nothing but an image. False: it is not there yet.
pub fn wait<E: Handed>(regs: &mut DriverRegs<E>) -> bool
    requires asked { IsSome (driver_view regs.old).asked }
    requires few { length (driver_view regs.old).turns < 2 ^ 62 }
    ensures key { driver_key regs.new ≡ driver_key regs.old }
    ensures masks { driver_masks regs.new ≡ driver_masks regs.old }
    ensures none { result ≡ false → FindsNone E.handed (driver_view regs.old) (driver_view regs.new) }
    ensures one { result ≡ true → FindsOne E.handed (driver_view regs.old) (driver_view regs.new) }
{
    match regs.answer() {
        Answer::Pending { word: _ } => false,
        Answer::Done { value: _, bag: _ } => true,
    }
}

/// Unmasks the first so many interrupts, in order.
pub fn unmask_all<E: Handed>(regs: &mut DriverRegs<E>, count: u32)
    requires low { count ≤ driver_interrupts regs.old }
    ensures key { driver_key regs.new ≡ driver_key regs.old }
    ensures calls { driver_view regs.new ≡ driver_view regs.old }
    ensures masks { driver_masks regs.new ≡ unmasked count (driver_masks regs.old) }
{
    for i in 0..count {
        regs.unmask(i);
    }
}

/// The same where an activation was answered.
pub fn unmask_if<E: Handed>(regs: &mut DriverRegs<E>, opening: bool, count: u32)
    requires low { count ≤ driver_interrupts regs.old }
    ensures key { driver_key regs.new ≡ driver_key regs.old }
    ensures calls { driver_view regs.new ≡ driver_view regs.old }
    ensures masks { driver_masks regs.new ≡ (if opening then unmasked count (driver_masks regs.old) else driver_masks regs.old) }
{
    if opening {
        unmask_all(regs, count);
    }
}

/// Reads the line and the events once, and acknowledges the events that stood.
pub fn look<E: Handed>(regs: &mut DriverRegs<E>)
    ensures key { driver_key regs.new ≡ driver_key regs.old }
    ensures calls { driver_view regs.new ≡ driver_view regs.old }
    ensures looked { Looked (driver_interrupts regs.old) (driver_masks regs.old) (driver_masks regs.new) }
{
    let _line = regs.line();
    let bits = regs.events();
    regs.ack(bits);
}

/// Room for so many frames more, and as many buffers.
pub fn make_room(
    alloc: Global,
    received: &mut Roomy<Received>,
    pool: &mut List<Buffer>,
    count: usize,
) -> Result<(), AllocError>
    ensures same { received.new.0 ≡ received.old.0 }
    ensures few { OnOk result (length received.old.0 ≤ MAX_RECEIVED) }
    ensures room { OnOk result ((count ≤ received.new.1) × (count ≤ length pool.new)) }
    ensures kept { (received.old.1 ≤ received.new.1) × (length pool.old ≤ length pool.new) }
{
    if received.len() > MAX_RECEIVED {
        return Err(AllocError);
    }
    received.reserve(count)?;
    while pool.len() < count {
        let buffer = Buffer::new(alloc)?;
        pool.push(buffer)?;
    }
    Ok(())
}

/// What a look at a receive queue came to.
#[derive(Drop)]
pub enum Found {
    Frame { received: Received },
    /// There was none: the buffer comes back.
    Nothing { buffer: Buffer },
}

/// Receives the next frame of a queue. What its buffer has room for beyond the frame is given back.
fn receive_one<F: Fabric>(
    end: &mut F::RxDriver,
    activation: u32,
    queue: u32,
    buffer: Buffer,
) -> Found
    requires full { (F.RxDriver.view end.old).made.full ≡ true }
    requires small { (length (F.RxDriver.view end.old).received < 2 ^ 58) × (used pieces_of (F.RxDriver.view end.old).received < 2 ^ 62) }
    ensures found { FoundBy activation queue (F.RxDriver.view end.old) (F.RxDriver.view end.new) result }
{
    let mut buffer = buffer;
    buffer.clear();
    let mut bytes = buffer.into_room();
    match end.receive(&mut bytes) {
        Receive::Frame {
            place,
            meta,
            descriptors: _,
        } => Found::Frame {
            received: Received {
                activation,
                queue,
                place,
                frame: Bytes::of(Buffer::of(bytes).into_vec()),
                tci: meta.tci,
            },
        },
        Receive::NotYet { word: _ } => Found::Nothing {
            buffer: Buffer::of(bytes),
        },
    }
}

ghost use Rattle.vmx_driver_ends.specs.Founds.{FoundBy, PollsSo, KeepsOn, IsRoomy};

/// Looks once at a receive queue: a frame is handed up and both doorbells are rung; where there is none, the queue's interrupt is
/// unmasked, which is that of its number behind the first one. It answers the number of frames.
fn poll_one<F: Fabric>(
    regs: &mut DriverRegs<Ends<F>>,
    end: &mut F::RxDriver,
    received: &mut Roomy<Received>,
    pool: &mut List<Buffer>,
    activation: u32,
    queue: u32,
    first: u32,
) -> u32
    requires full { (F.RxDriver.view end.old).made.full ≡ true }
    requires small { (length (F.RxDriver.view end.old).received < 2 ^ 58) × (used pieces_of (F.RxDriver.view end.old).received < 2 ^ 62) }
    requires queue { queue < MAX_QUEUES }
    requires interrupt { first + queue < driver_interrupts regs.old }
    requires low { first ≤ MAX_QUEUES }
    requires room { (1 ≤ received.old.1) × (1 ≤ length pool.old) }
    ensures polled { PollsSo (driver_interrupts regs.old) first activation queue (F.RxDriver.view end.old) (F.RxDriver.view end.new) received.old.0 received.new.0 (driver_masks regs.old) (driver_masks regs.new) result }
    ensures regs { (driver_key regs.new ≡ driver_key regs.old) × (driver_view regs.new ≡ driver_view regs.old) }
    ensures room { (received.old.1 ≤ received.new.1 + 1) × (length pool.old ≤ length pool.new + 1) }
{
    match pool.pop() {
        None => unreachable!(),
        Some(buffer) => match receive_one::<F>(end, activation, queue, buffer) {
            Found::Frame { received: frame } => {
                let index = index_of(frame.place + 1);
                regs.ring(Bell::Rx { queue, ring: 1 }, index);
                regs.ring(Bell::Rx { queue, ring: 2 }, index);
                received.push(frame);
                1
            }
            Found::Nothing { buffer } => {
                regs.unmask(first + queue);
                let _kept = pool.push(buffer);
                0
            }
        },
    }
}

/// Looks once at each receive queue, in order.
pub fn poll_all<F: Fabric>(
    regs: &mut DriverRegs<Ends<F>>,
    rx: &mut List<F::RxDriver>,
    received: &mut Roomy<Received>,
    pool: &mut List<Buffer>,
    activation: u32,
    first: u32,
) -> u32
    requires full { All (λ (d : RxDriverView). d.made.full ≡ true) (map F.RxDriver.view rx.old) }
    requires small { All (λ (d : RxDriverView). (length d.received < 2 ^ 58) × (used pieces_of d.received < 2 ^ 62)) (map F.RxDriver.view rx.old) }
    requires queues { length rx.old ≤ MAX_QUEUES }
    requires first { first + MAX_QUEUES < driver_interrupts regs.old }
    requires low { first ≤ MAX_QUEUES }
    requires room { IsRoomy (length rx.old) received.old.1 (length pool.old) }
    ensures polls { PollsUp (driver_interrupts regs.old) first activation (map F.RxDriver.view rx.old) (map F.RxDriver.view rx.new) received.old.0 received.new.0 (driver_masks regs.old) (driver_masks regs.new) result }
    ensures keeps { KeepsOn activation (map F.RxDriver.view rx.old) (map F.RxDriver.view rx.new) received.old.0 received.new.0 }
    ensures regs { (driver_key regs.new ≡ driver_key regs.old) × (driver_view regs.new ≡ driver_view regs.old) }
    ensures room { (received.old.1 ≤ received.new.1 + length rx.old) × (length pool.old ≤ length pool.new + length rx.old) }
    ensures count { length rx.new ≡ length rx.old }
{
    let mut up = 0;
    for q in 0..rx.len() {
        up += poll_one::<F>(
            regs,
            rx.at_mut(q),
            received,
            pool,
            activation,
            q as u32,
            first,
        );
    }
    up
}

ghost use Rattle.vmx_driver_ends.specs.Founds.{PollsUp};
