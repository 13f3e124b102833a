//! The walk of one delivery, by numbers: where its head lies, and where its further pieces go. Every form of a receive
//! queue that knows how many positions are posted computes it so.
ghost use Rattle.std.specs.Prelude.{◌≡◌, ℕ, ◌+◌, ◌^◌, ◌<◌, ◌≤◌};
ghost use Rattle.vmx_layout.specs.declared.addresses.TheConstants.{MAX_RING_SIZE};
ghost use Rattle.vmx_ends.specs.declared.limits.TheConstants.{MAX_BODIES};
ghost use Rattle.vmx_ends.specs.Receive.{is_body};
ghost use Rattle.vmx_ends.specs.ReceiveClauses.{made_of};
ghost use Rattle.vmx_ends.specs.Core.{head_from, outcome};
ghost use Rattle.vmx_ends.specs.WalkNumbers.{next_of, ways, IsPlan};

use crate::RxShape;

/// What a delivery comes to.
#[derive(Clone, Copy, Debug, PartialEq, Eq)]
pub enum WalkEnd {
    /// So many bodies are passed over, and these are the next positions of the two supplies.
    Takes { passed: u64, next1: u64, next2: u64 },
    /// This descriptor, 1 or 2 and its position, is needed and not posted.
    Misses { ring: u32, position: u64 },
}

/// The next positions of the two supplies.
#[derive(Clone, Copy, Debug, PartialEq, Eq)]
pub struct Next {
    pub one: u64,
    pub two: u64,
}

/// The walk of a frame of `n` + 1 pieces, from `at` on, where so many positions of each supply are posted.
pub fn walk_by(shape: &RxShape, at: Next, posted1: u64, posted2: u64, n: u32) -> WalkEnd
    requires shape { (0 < shape.now.size1) × (shape.now.size1 ≤ MAX_RING_SIZE) × (shape.now.bodies ≤ MAX_BODIES) }
    requires pieces { n ≤ 2 }
    requires small { (at.one < 2 ^ 62) × (at.two < 2 ^ 62) }
    ensures walk { IsPlan (outcome (made_of shape.now) at.one at.two posted1 posted2 n) result }
{
    let head = head_of(shape, shape.size1, at.one);
    if posted1 <= head {
        return WalkEnd::Misses {
            ring: 1,
            position: posted1,
        };
    }
    let first = Next {
        one: head + 1,
        two: at.two,
    };
    let end = way(shape, posted1, posted2, n, first);
    if posted2 < end.two {
        return WalkEnd::Misses {
            ring: 2,
            position: posted2,
        };
    }
    WalkEnd::Takes {
        passed: head - at.one,
        next1: end.one,
        next2: end.two,
    }
}

/// The first HEAD from a position on, looked for `fuel` times.
fn head_of(shape: &RxShape, fuel: u32, from: u64) -> u64
    requires shape { (0 < shape.now.size1) × (shape.now.bodies ≤ MAX_BODIES) }
    requires small { from + fuel < 2 ^ 63 }
    ensures head { result ≡ head_from (made_of shape.now) fuel from }
{
    if fuel == 0 {
        return from;
    }
    if !stands_body(shape, from) {
        return from;
    }
    head_of(shape, fuel - 1, from + 1)
}

/// Where `n` further pieces go, up to the first that is not posted in ring 2.
fn way(shape: &RxShape, posted1: u64, posted2: u64, n: u32, at: Next) -> Next
    requires shape { (0 < shape.now.size1) × (shape.now.bodies ≤ MAX_BODIES) }
    requires small { (at.one + n < 2 ^ 63) × (at.two + n < 2 ^ 63) }
    ensures way { (result.one, result.two) ≡ ways (made_of shape.now) posted1 posted2 n at.one at.two }
{
    if n == 0 {
        return at;
    }
    let then = step_on(shape, posted1, at);
    if posted2 < then.two {
        return then;
    }
    way(shape, posted1, posted2, n - 1, then)
}

/// Where a further piece goes.
fn step_on(shape: &RxShape, posted1: u64, at: Next) -> Next
    requires shape { (0 < shape.now.size1) × (shape.now.bodies ≤ MAX_BODIES) }
    requires small { (at.one < 2 ^ 63) × (at.two < 2 ^ 63) }
    ensures step { (result.one, result.two) ≡ next_of (made_of shape.now) posted1 at.one at.two }
{
    if stands_body(shape, at.one) {
        if at.one < posted1 {
            return Next {
                one: at.one + 1,
                two: at.two,
            };
        }
    }
    Next {
        one: at.one,
        two: at.two + 1,
    }
}

/// Whether ring 1 has a BODY descriptor at a position.
fn stands_body(shape: &RxShape, position: u64) -> bool
    requires shape { (0 < shape.now.size1) × (shape.now.bodies ≤ MAX_BODIES) }
    ensures body { result ≡ is_body (made_of shape.now) position }
{
    let shape = *shape;
    position % shape.size1 as u64 % (shape.bodies as u64 + 1) != 0
}
