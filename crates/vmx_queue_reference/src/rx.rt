//! The core of a receive queue over two lists of buffers. A supply is the list of the buffers that are the device's, in
//! order; a buffer that is in no supply is the driver's. A position is how many buffers left their supply before.
ghost use Rattle.std.specs.Prelude.{◌≡◌, ◌≤◌, ◌<◌, ◌+◌, ◌^◌, ◌&&◌, ℕ, List, length, take, drop, ◌++◌, true, false, nat_lt, IfOk, OnErr, vec_len, vec_capacity, slice_index_or};
ghost use Rattle.vmx_ends.specs.Frames.{IsFrame};
ghost use Rattle.vmx_ends.specs.Receive.{is_body, used, took1, took2, posted1, posted2};
ghost use Rattle.vmx_ends.specs.ReceiveClauses.{made_of};
ghost use Rattle.vmx_ends.specs.declared.limits.TheConstants.{MAX_BODIES, MAX_DESCRIPTORS};
ghost use Rattle.vmx_layout.specs.declared.addresses.TheConstants.{MAX_RING_SIZE};
ghost use Rattle.vmx_io.specs.declared.buffer.TheConstants.{MAX_FRAME};
ghost use Rattle.vmx_queue_reference.specs.PlainSupplies.{buffer1, buffer2, run_of, deliveries, AreKept};

use std::alloc::{AllocError, Global};
use vmx_ends::{BODY_SIZE, HEAD_SIZE, RxMeta, RxShape};
use vmx_io::{Bytes, List};

/// A buffer, by its number in its supply, counted from 0.
#[derive(Clone, Copy, Debug, PartialEq, Eq)]
pub struct Buffer {
    pub number: u32,
    /// BODY, else HEAD.
    pub body: bool,
}

/// A supply: the buffers that are the device's, in order, and how many left it so far. That is its next one's position.
#[derive(Drop)]
pub struct Supply {
    pub buffers: List<Buffer>,
    pub left: u64,
}

/// A frame that was delivered, and the buffers that left the two supplies with it.
#[derive(Drop)]
pub struct RxFrame {
    pub frame: Bytes,
    pub meta: RxMeta,
    /// BODY buffers of supply 1 that were passed over before the head.
    pub passed: u64,
    /// The supply, 1 or 2, and the position of each piece.
    pub chain: List<(u32, u64)>,
    /// Those that left supply 1, in order: the ones passed over, and then those of its pieces.
    pub one: List<Buffer>,
    /// Those that left supply 2, in order.
    pub two: List<Buffer>,
}

/// A receive queue: its supplies, the frames that were delivered, and how many of them were received.
#[derive(Drop)]
pub struct PlainRx {
    pub shape: RxShape,
    pub one: Supply,
    pub two: Supply,
    pub delivered: List<RxFrame>,
    pub received: usize,
    /// The supply and the position that each refused frame missed.
    pub refused: List<(u32, u64)>,
    ghost sizes: { (0 < shape.size1) × (shape.size1 ≤ MAX_RING_SIZE) × (0 < shape.size2) × (shape.size2 ≤ MAX_RING_SIZE) × (shape.bodies ≤ MAX_BODIES) },
    ghost order: { received ≤ length delivered },
    ghost supply1: { one.buffers ≡ run_of (buffer1 (made_of shape)) one.left (length one.buffers) },
    ghost supply2: { two.buffers ≡ run_of (buffer2 (made_of shape)) two.left (length two.buffers) },
    ghost left1: { one.left ≡ used took1 (deliveries delivered) },
    ghost left2: { two.left ≡ used took2 (deliveries delivered) },
    ghost ends1: { one.left + length one.buffers ≡ posted1 (made_of shape) (take received (deliveries delivered)) },
    ghost ends2: { two.left + length two.buffers ≡ posted2 (made_of shape) (take received (deliveries delivered)) },
    ghost kept: { AreKept (made_of shape) delivered },
}

/// What a delivery answers.
#[derive(Clone, Copy, Debug, PartialEq, Eq)]
pub enum Delivered {
    /// It is the frame of this place.
    Done { place: u64 },
    /// The walk needed this position of this supply, and no buffer was there. So many frames were refused before.
    NoBuffer { ring: u32, position: u64, look: u64 },
}

/// The frame of a place was received, and so many buffers went back to the ends of their supplies.
#[derive(Clone, Copy, Debug, PartialEq, Eq)]
pub struct Received {
    pub place: u64,
    pub meta: RxMeta,
    pub descriptors: u32,
}

/// How far a walk has come: how many buffers it passed over, how many of each supply it needs so far, and its pieces.
#[derive(Drop)]
struct Way {
    passed: usize,
    ones: usize,
    twos: usize,
    chain: List<(u32, u64)>,
}

/// What a walk comes to.
#[derive(Drop)]
enum Walked {
    /// Every piece has its buffer.
    Takes { way: Way },
    /// No buffer is at this position of this supply.
    Misses { ring: u32, position: u64 },
}

impl PlainRx {
    ghost use Rattle.vmx_ends.specs.Core.{goes, ended};
    ghost use Rattle.vmx_ends.specs.ReceiveCore.{new_core, delivers, comes_to, after};
    ghost use Rattle.vmx_queue_reference.specs.PlainReceive.{rx_core, LaysFrame, Delivers, Receives};
    ghost use Rattle.vmx_queue_reference.specs.PlainWalk.{stand, EndsAs};
    ghost use Rattle.vmx_queue_reference.specs.declared.rx.Walked.TheVariants.{Takes};

    /// A queue with all its buffers in the supplies.
    pub fn new(alloc: Global, shape: RxShape) -> Result<PlainRx, AllocError>
        requires sizes { (0 < shape.size1) × (shape.size1 ≤ MAX_RING_SIZE) × (0 < shape.size2) × (shape.size2 ≤ MAX_RING_SIZE) × (shape.bodies ≤ MAX_BODIES) }
        ensures new { IfOk result (λ q. rx_core q ≡ new_core (made_of shape)) }
        ensures left { IfOk result (λ q. (q.one.left ≡ 0) × (q.two.left ≡ 0)) }
    {
        Ok(PlainRx {
            shape,
            one: Supply {
                buffers: heads_and_bodies(alloc, &shape)?,
                left: 0,
            },
            two: Supply {
                buffers: bodies(alloc, &shape)?,
                left: 0,
            },
            delivered: List::new(alloc),
            received: 0,
            refused: List::new(alloc),
        })
    }

    /// Delivers a frame where the walk finds a buffer for each piece. Else it is refused, and no buffer leaves.
    pub fn deliver(
        &mut self,
        alloc: Global,
        frame: &[u8],
        meta: &RxMeta,
    ) -> Result<Delivered, AllocError>
        requires frame { IsFrame frame.now }
        requires small { (self.old.one.left < 2 ^ 62) × (self.old.two.left < 2 ^ 62) }
        ensures delivers { IfOk result (λ a. Delivers self.old frame.now meta.now a self.new) }
        ensures same { OnErr result (rx_core self.new ≡ rx_core self.old) }
        ensures grows { (self.new.one.left ≤ self.old.one.left + MAX_DESCRIPTORS) × (self.new.two.left ≤ self.old.two.left + MAX_DESCRIPTORS) }
    {
        match self.walk(alloc, frame.len())? {
            Walked::Misses { ring, position } => {
                let look = self.refused.len() as u64;
                self.refused.push((ring, position))?;
                Ok(Delivered::NoBuffer {
                    ring,
                    position,
                    look,
                })
            }
            Walked::Takes { way } => {
                let place = self.delivered.len() as u64;
                self.lay(alloc, frame, meta, way)?;
                Ok(Delivered::Done { place })
            }
        }
    }

    /// Receives the next frame into an empty buffer. All its buffers go back, each to the end of its supply.
    pub fn receive(
        &mut self,
        alloc: Global,
        into: &mut Vec<u8>,
    ) -> Result<Option<Received>, AllocError>
        requires empty { vec_len into.old ≡ 0 }
        requires room { MAX_FRAME ≤ vec_capacity into.old }
        ensures receives { IfOk result (λ a. Receives self.old into.new.items a self.new) }
        ensures same { OnErr result (rx_core self.new ≡ rx_core self.old) }
        ensures room { vec_capacity into.old ≤ vec_capacity into.new }
        ensures left { (self.new.one.left ≡ self.old.one.left) × (self.new.two.left ≡ self.old.two.left) }
    {
        if self.received >= self.delivered.len() {
            return Ok(None);
        }
        let place = self.received;
        let frame = self.delivered.at(place);
        let one = reposted(alloc, &self.one.buffers, &frame.one)?;
        let two = reposted(alloc, &self.two.buffers, &frame.two)?;
        put(&frame.frame, into);
        let meta = frame.meta;
        let descriptors = (frame.passed + frame.chain.len() as u64) as u32;
        self.one.buffers = one;
        self.two.buffers = two;
        self.received += 1;
        Ok(Some(Received {
            place: place as u64,
            meta,
            descriptors,
        }))
    }

    /// The walk of a frame of so many bytes: 2,048 of them lie in the head, and 4,096 in each further piece.
    fn walk(&self, alloc: Global, bytes: usize) -> Result<Walked, AllocError>
        requires bytes { bytes ≤ MAX_FRAME }
        requires small { (self.now.one.left < 2 ^ 62) × (self.now.two.left < 2 ^ 62) }
        ensures walk { IfOk result (λ e. EndsAs self.now (comes_to (rx_core self.now) bytes) e) }
    {
        let passed = bodies_first(self.one.buffers.as_slice());
        if passed >= self.one.buffers.len() {
            return Ok(Walked::Misses {
                ring: 1,
                position: self.one.left + passed as u64,
            });
        }
        let mut chain = List::new(alloc);
        chain.push((1, self.one.left + passed as u64))?;
        let way = Way {
            passed,
            ones: passed + 1,
            twos: 0,
            chain,
        };
        let further = (bytes as u32 + (BODY_SIZE - HEAD_SIZE - 1)) / BODY_SIZE;
        self.goes_on(way, further as usize)
    }

    /// The walk's further pieces: each takes the next buffer of supply 1 where that is there and BODY, else the next of
    /// supply 2.
    fn goes_on(&self, way: Way, further: usize) -> Result<Walked, AllocError>
        requires few { further ≤ 2 }
        requires small { (self.now.one.left < 2 ^ 62) × (self.now.two.left < 2 ^ 62) }
        requires within { (way.ones ≤ length self.now.one.buffers) × (way.twos ≤ length self.now.two.buffers) }
        ensures walk { IfOk result (λ e. (looks : List (ℕ × ℕ)) → EndsAs self.now (ended way.passed (self.now.two.left + length self.now.two.buffers) (goes (made_of self.now.shape) (self.now.one.left + length self.now.one.buffers) (self.now.two.left + length self.now.two.buffers) further (stand self.now way looks))) e) }
    {
        let mut way = way;
        if further == 0 {
            return Ok(Walked::Takes { way });
        }
        if self.has_body(way.ones) {
            way.chain.push((1, self.one.left + way.ones as u64))?;
            way.ones += 1;
            return self.goes_on(way, further - 1);
        }
        if way.twos < self.two.buffers.len() {
            way.chain.push((2, self.two.left + way.twos as u64))?;
            way.twos += 1;
            return self.goes_on(way, further - 1);
        }
        Ok(Walked::Misses {
            ring: 2,
            position: self.two.left + way.twos as u64,
        })
    }

    /// Whether supply 1 has a buffer behind so many, and it is BODY.
    fn has_body(&self, behind: usize) -> bool
        ensures body { result ≡ (nat_lt (self.now.one.left + behind) (self.now.one.left + length self.now.one.buffers) && is_body (made_of self.now.shape) (self.now.one.left + behind)) }
    {
        if behind >= self.one.buffers.len() {
            return false;
        }
        self.one.buffers.at(behind).body
    }

    /// Lays a frame where the walk went: the buffers leave the fronts of their supplies.
    fn lay(
        &mut self,
        alloc: Global,
        frame: &[u8],
        meta: &RxMeta,
        way: Way,
    ) -> Result<(), AllocError>
        requires frame { IsFrame frame.now }
        requires small { (self.old.one.left < 2 ^ 62) × (self.old.two.left < 2 ^ 62) }
        requires walked { EndsAs self.old (comes_to (rx_core self.old) (length frame.now)) (Takes way) }
        ensures laid { IfOk result (λ _. LaysFrame self.old self.new) }
        ensures core { IfOk result (λ _. rx_core self.new ≡ after (rx_core self.old) (delivers frame.now meta.now)) }
        ensures same { OnErr result (rx_core self.new ≡ rx_core self.old) }
        ensures grows { (self.new.one.left ≤ self.old.one.left + MAX_DESCRIPTORS) × (self.new.two.left ≤ self.old.two.left + MAX_DESCRIPTORS) }
    {
        let one = rest(alloc, &self.one.buffers, way.ones)?;
        let two = rest(alloc, &self.two.buffers, way.twos)?;
        self.delivered.push(RxFrame {
            frame: Bytes::from_slice(alloc, frame)?,
            meta: *meta,
            passed: way.passed as u64,
            chain: way.chain,
            one: first(alloc, &self.one.buffers, way.ones)?,
            two: first(alloc, &self.two.buffers, way.twos)?,
        })?;
        self.one.buffers = one;
        self.two.buffers = two;
        self.one.left += way.ones as u64;
        self.two.left += way.twos as u64;
        Ok(())
    }
}

/// Supply 1 at the start: so many BODY buffers stand behind each HEAD.
fn heads_and_bodies(alloc: Global, shape: &RxShape) -> Result<List<Buffer>, AllocError>
    requires bodies { shape.now.bodies ≤ MAX_BODIES }
    ensures all { IfOk result (λ l. l ≡ run_of (buffer1 (made_of shape.now)) 0 shape.now.size1) }
{
    let shape = *shape;
    let mut buffers = List::new(alloc);
    for number in 0..shape.size1 {
        let body = number % (shape.bodies + 1) != 0;
        buffers.push(Buffer { number, body })?;
    }
    Ok(buffers)
}

/// Supply 2 at the start.
fn bodies(alloc: Global, shape: &RxShape) -> Result<List<Buffer>, AllocError>
    ensures all { IfOk result (λ l. l ≡ run_of (buffer2 (made_of shape.now)) 0 shape.now.size2) }
{
    let shape = *shape;
    let mut buffers = List::new(alloc);
    for number in 0..shape.size2 {
        buffers.push(Buffer { number, body: true })?;
    }
    Ok(buffers)
}

/// How many BODY buffers stand before the first HEAD: all of them where there is none.
fn bodies_first(buffers: &[Buffer]) -> usize
    ensures within { result ≤ length buffers.now }
    ensures bodies { (k : ℕ) (d : Buffer) → k < result → (slice_index_or buffers.now k d).body ≡ true }
    ensures head { (d : Buffer) → result < length buffers.now → (slice_index_or buffers.now result d).body ≡ false }
{
    for (i, buffer) in buffers.iter().enumerate() {
        if !buffer.body {
            return i;
        }
    }
    buffers.len()
}

/// The first buffers, so many.
fn first(alloc: Global, buffers: &List<Buffer>, count: usize) -> Result<List<Buffer>, AllocError>
    requires within { count ≤ length buffers.now }
    ensures first { IfOk result (λ l. l ≡ take count buffers.now) }
{
    Ok(List::of(Vec::from_slice(alloc, &buffers.as_slice()[..count])?))
}

/// The buffers behind so many.
fn rest(alloc: Global, buffers: &List<Buffer>, count: usize) -> Result<List<Buffer>, AllocError>
    requires within { count ≤ length buffers.now }
    ensures rest { IfOk result (λ l. l ≡ drop count buffers.now) }
{
    Ok(List::of(Vec::from_slice(alloc, &buffers.as_slice()[count..])?))
}

/// A supply with the buffers of a received frame behind its own, in the order in which they left it.
fn reposted(
    alloc: Global,
    supply: &List<Buffer>,
    back: &List<Buffer>,
) -> Result<List<Buffer>, AllocError>
    ensures all { IfOk result (λ l. l ≡ supply.now ++ back.now) }
{
    let mut buffers = Vec::from_slice(alloc, supply.as_slice())?;
    buffers.extend_from_slice(back.as_slice())?;
    Ok(List::of(buffers))
}

/// Puts a frame into an empty buffer that has room for it.
pub(crate) fn put(frame: &Bytes, into: &mut Vec<u8>)
    requires empty { vec_len into.old ≡ 0 }
    requires room { length frame.now ≤ vec_capacity into.old }
    ensures frame { into.new.items ≡ frame.now }
    ensures room { vec_capacity into.old ≤ vec_capacity into.new }
{
    match into.extend_from_slice(frame.as_slice()) {
        Ok(()) => {}
        Err(_) => unreachable!(),
    }
}
