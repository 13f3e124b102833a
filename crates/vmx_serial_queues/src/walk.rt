//! The walk of one delivery over the two supplies of a receive queue, of which it is known how many positions are posted.
ghost use Rattle.std.specs.Prelude.{◌≡◌, ◌≤◌, ◌<◌, ◌+◌, ◌^◌, IfOk};
ghost use Rattle.vmx_ends.specs.Words.{missed_word as missed_word_of};
ghost use Rattle.vmx_ends.specs.Receive.{is_body as is_body_at};
ghost use Rattle.vmx_ends.specs.ReceiveClauses.{made_of};
ghost use Rattle.vmx_ends.specs.Walk.{at_head as begins_at, further as goes_further};
ghost use Rattle.vmx_ends.specs.Core.{head_from as head_by, goes as goes_by, finding, outcome as outcome_by};
ghost use Rattle.vmx_serial_queues.specs.Walks.{IsShape, stand_of, outcome_of};

use std::alloc::{AllocError, Global};
use vmx_ends::RxShape;
use vmx_io::List;

/// Where a walk stands.
#[derive(Drop)]
pub struct Stand {
    /// The next position of ring 1.
    pub next1: u64,
    /// The next position of ring 2.
    pub next2: u64,
    /// The ring, 1 or 2, and the position of each piece so far.
    pub chain: List<(u32, u64)>,
    /// The position and the word of each look at ring 1 that found no further piece there.
    pub looks: List<(u64, u64)>,
}

/// What a delivery comes to.
#[derive(Drop)]
pub enum Outcome {
    /// So many bodies are passed over, and the walk ends so.
    Takes {
        passed: u64,
        end: Stand,
    },
    /// This descriptor, of ring 1 or 2, is needed and not posted; with the walk's looks at ring 1.
    Misses {
        ring: u32,
        position: u64,
        looks: List<(u64, u64)>,
    },
}

/// What a frame of `n` + 1 pieces comes to, from the positions `used1` and `used2` of supplies of which so many positions are posted.
pub fn walked(
    alloc: Global,
    shape: &RxShape,
    used1: u64,
    used2: u64,
    posted1: u64,
    posted2: u64,
    n: u32,
) -> Result<Outcome, AllocError>
    requires shape { IsShape shape.now }
    requires pieces { n ≤ 2 }
    requires small { (used1 < 2 ^ 62) × (used2 < 2 ^ 62) }
    ensures outcome { IfOk result (λ x. outcome_of x ≡ outcome_by (made_of shape.now) used1 used2 posted1 posted2 n) }
{
    let head = head_from(shape, shape.size1, used1);
    if head >= posted1 {
        return Ok(Outcome::Misses {
            ring: 1,
            position: posted1,
            looks: List::new(alloc),
        });
    }
    let end = goes(shape, posted1, posted2, n, at_head(alloc, head, used2)?)?;
    if posted2 < end.next2 {
        return Ok(Outcome::Misses {
            ring: 2,
            position: posted2,
            looks: end.looks,
        });
    }
    Ok(Outcome::Takes {
        passed: head - used1,
        end,
    })
}

/// The first HEAD from a position on, looked for as many positions as `fuel`.
fn head_from(shape: &RxShape, fuel: u32, position: u64) -> u64
    requires shape { IsShape shape.now }
    requires small { position + fuel < 2 ^ 63 }
    ensures head { result ≡ head_by (made_of shape.now) fuel position }
{
    if fuel == 0 {
        return position;
    }
    if !is_body(shape, position) {
        return position;
    }
    head_from(shape, fuel - 1, position + 1)
}

/// The head is found.
fn at_head(alloc: Global, head: u64, next2: u64) -> Result<Stand, AllocError>
    requires small { head < 2 ^ 63 }
    ensures stand { IfOk result (λ s. stand_of s ≡ begins_at head next2) }
{
    let mut chain = List::new(alloc);
    chain.push((1, head))?;
    Ok(Stand {
        next1: head + 1,
        next2,
        chain,
        looks: List::new(alloc),
    })
}

/// `n` further pieces, up to the first that is not posted in ring 2.
fn goes(
    shape: &RxShape,
    posted1: u64,
    posted2: u64,
    n: u32,
    stand: Stand,
) -> Result<Stand, AllocError>
    requires shape { IsShape shape.now }
    requires small { (stand.next1 + n < 2 ^ 63) × (stand.next2 + n < 2 ^ 63) }
    ensures goes { IfOk result (λ s. stand_of s ≡ goes_by (made_of shape.now) posted1 posted2 n (stand_of stand)) }
{
    if n == 0 {
        return Ok(stand);
    }
    let then = further(shape, posted1, stand)?;
    if posted2 < then.next2 {
        return Ok(then);
    }
    goes(shape, posted1, posted2, n - 1, then)
}

/// One further piece: in ring 1 where its next descriptor is BODY and posted, else in ring 2.
fn further(shape: &RxShape, posted1: u64, stand: Stand) -> Result<Stand, AllocError>
    requires shape { IsShape shape.now }
    requires small { (stand.next1 < 2 ^ 63) × (stand.next2 < 2 ^ 63) }
    ensures further { IfOk result (λ s. stand_of s ≡ goes_further (made_of shape.now) (stand_of stand) (finding (made_of shape.now) posted1 (stand_of stand))) }
    ensures near { IfOk result (λ s. (s.next1 ≤ stand.next1 + 1) × (s.next2 ≤ stand.next2 + 1)) }
{
    let mut stand = stand;
    if is_body(shape, stand.next1) {
        if stand.next1 < posted1 {
            stand.chain.push((1, stand.next1))?;
            stand.next1 += 1;
            return Ok(stand);
        }
        let word = missed_word(shape.size1, stand.next1);
        stand.looks.push((stand.next1, word))?;
    }
    stand.chain.push((2, stand.next2))?;
    stand.next2 += 1;
    Ok(stand)
}

/// Whether ring 1 has a BODY descriptor at a position.
fn is_body(shape: &RxShape, position: u64) -> bool
    requires shape { IsShape shape.now }
    ensures body { result ≡ is_body_at (made_of shape.now) position }
{
    position % u64::from(shape.size1) % (u64::from(shape.bodies) + 1) != 0
}

/// The second word of a descriptor at a position that is not posted: bit 31 is not the position's generation, and all others are 0.
pub fn missed_word(size: u32, position: u64) -> u64
    requires size { 0 < size }
    ensures word { result ≡ missed_word_of 31 size position }
{
    if position / u64::from(size) % 2 == 0 {
        0
    } else {
        1 << 31
    }
}
