//! The device's walk: loads of second words only.
ghost use Rattle.std.specs.Prelude.{◌≡◌, ◌≢◌, ℕ, ◌+◌, ◌-◌, ◌^◌, ◌<◌, ◌≤◌, [], ◌∷◌, true, false, not};
ghost use Rattle.vmx_genring.specs.Rings.{generation};
ghost use Rattle.vmx_ends.specs.Words.{bit, IsMissed};
ghost use Rattle.vmx_ends.specs.Receive.{is_body};
ghost use Rattle.vmx_ends.specs.ReceiveClauses.{made_of};
ghost use Rattle.vmx_ends.specs.Core.{head_from};
ghost use Rattle.vmx_rx_ring.specs.Shapes.{IsTable};
ghost use Rattle.vmx_rx_ring.specs.Words.{spot_of};
ghost use Rattle.vmx_rx_walk.specs.Walking.{IsDevice, HeadSearched, LooksAtOne, LooksOn, WalksOn, chain_of, FirstsAre, FirstIs, IsInBody, IsFoundInBody, AreInBodies, IsResting, Planned};
ghost use Rattle.vmx_layout.specs.declared.TheConstants.{RX_DESC_GENERATION_BIT};
ghost use Rattle.vmx_layout.specs.declared.addresses.TheConstants.{MAX_RING_SIZE};

use atomic_table::Seat;
use vmx_ends::RxShape;
use vmx_layout::RX_DESC_GENERATION_BIT;
use vmx_rx_ring::steps::{HeadLook, OneLook, TwoLook};
use vmx_rx_ring::{Buffer, Known, SharedWords, Spot, TellsVisible, has_generation, stands_body};

/// Whether a word of a descriptor ring shows a position as posted.
fn is_posted(size: u32, word: u64, position: u64) -> bool
    requires size { (0 < size) × (size ≤ MAX_RING_SIZE) }
    ensures posted { result ≡ true → bit RX_DESC_GENERATION_BIT word ≡ generation size position }
    ensures missed { result ≡ false → IsMissed RX_DESC_GENERATION_BIT size position word }
{
    has_generation(size as u64, word, RX_DESC_GENERATION_BIT, position)
}

/// What the search for a head came to.
pub enum HeadEnd {
    Found { position: u64 },
    Missing { position: u64, word: u64 },
}

/// What the walk came to: the pieces' spots, as many as the frame has, and the next positions; or the position missed.
pub enum Plan {
    Goes {
        first: Spot,
        second: Spot,
        third: Spot,
        next1: u64,
        next2: u64,
    },
    Missing {
        ring: u32,
        position: u64,
        word: u64,
    },
}

/// Where a further piece goes.
pub enum More {
    Ring { ring: u32, position: u64 },
    Missing { position: u64, word: u64 },
}

/// The search for a head, from a position on.
fn find_head<C: TellsVisible>(
    shared: &SharedWords<C>,
    seat: &mut Seat<Buffer, Known>,
    shape: &RxShape,
    fuel: u32,
    position: u64,
) -> HeadEnd
    requires table { IsTable C.counted seat.old.table_id shared.now.table_id shape.now }
    requires device { IsDevice seat.old.me shape.now }
    requires at { (position ≡ seat.old.me.0.device.next1) × (seat.old.me.0.device.gone1 ≤ position) × (position ≤ seat.old.me.0.device.seen1) × (position + fuel < 2 ^ 63) }
    requires near { head_from (made_of shape.now) fuel position < position + fuel }
    ensures same { (seat.new.table_id ≡ seat.old.table_id) × (seat.new.id ≡ seat.old.id) }
    ensures searched { HeadSearched seat.old.me result seat.new.me }
{
    let index = (position % shape.size1 as u64) as usize;
    let word = shared.load::<HeadLook>(seat, index);
    if !is_posted(shape.size1, word, position) {
        return HeadEnd::Missing { position, word };
    }
    if !stands_body(shape, position) {
        return HeadEnd::Found { position };
    }
    find_head(shared, seat, shape, fuel - 1, position + 1)
}

/// A look at ring 1 for a further piece: whether its next is BODY and the device's.
fn is_in_one<C: TellsVisible>(
    shared: &SharedWords<C>,
    seat: &mut Seat<Buffer, Known>,
    shape: &RxShape,
    position: u64,
) -> bool
    requires table { IsTable C.counted seat.old.table_id shared.now.table_id shape.now }
    requires device { IsDevice seat.old.me shape.now }
    requires at { (position ≡ seat.old.me.0.device.next1) × (seat.old.me.0.device.gone1 ≤ position) × (position ≤ seat.old.me.0.device.seen1) }
    ensures same { (seat.new.table_id ≡ seat.old.table_id) × (seat.new.id ≡ seat.old.id) }
    ensures looked { LooksAtOne seat.old.me result seat.new.me }
    ensures body { result ≡ true → is_body (made_of shape.now) position ≡ true }
{
    if !stands_body(shape, position) {
        return false;
    }
    let index = (position % shape.size1 as u64) as usize;
    let word = shared.load::<OneLook>(seat, index);
    is_posted(shape.size1, word, position)
}

/// The look for a further piece.
fn find_more<C: TellsVisible>(
    shared: &SharedWords<C>,
    seat: &mut Seat<Buffer, Known>,
    shape: &RxShape,
    one: u64,
    two: u64,
) -> More
    requires table { IsTable C.counted seat.old.table_id shared.now.table_id shape.now }
    requires device { IsDevice seat.old.me shape.now }
    requires at1 { (one ≡ seat.old.me.0.device.next1) × (seat.old.me.0.device.gone1 ≤ one) × (one ≤ seat.old.me.0.device.seen1) }
    requires at2 { (two ≡ seat.old.me.0.device.next2) × (seat.old.me.0.device.gone2 ≤ two) × (two ≤ seat.old.me.0.device.seen2) }
    ensures same { (seat.new.table_id ≡ seat.old.table_id) × (seat.new.id ≡ seat.old.id) }
    ensures looks { LooksOn seat.old.me result seat.new.me }
    ensures body { IsFoundInBody (made_of shape.now) result }
{
    if is_in_one(shared, seat, shape, one) {
        return More::Ring {
            ring: 1,
            position: one,
        };
    }
    let index = shape.size1 as u64 + two % shape.size2 as u64;
    let word = shared.load::<TwoLook>(seat, index as usize);
    if !is_posted(shape.size2, word, two) {
        return More::Missing {
            position: two,
            word,
        };
    }
    More::Ring {
        ring: 2,
        position: two,
    }
}

/// The next position of a ring, where a piece went into `found`.
fn next_of(found: u32, ring: u32, position: u64) -> u64
    requires small { position < 2 ^ 63 }
    ensures here { found ≡ ring → result ≡ position + 1 }
    ensures other { found ≢ ring → result ≡ position }
{
    if found == ring {
        position + 1
    } else {
        position
    }
}

/// The second further piece, where there is one.
fn last_way<C: TellsVisible>(
    shared: &SharedWords<C>,
    seat: &mut Seat<Buffer, Known>,
    shape: &RxShape,
    n: u32,
    first: Spot,
    second: Spot,
    one: u64,
    two: u64,
) -> Plan
    requires table { IsTable C.counted seat.old.table_id shared.now.table_id shape.now }
    requires device { IsDevice seat.old.me shape.now }
    requires at1 { (one ≡ seat.old.me.0.device.next1) × (seat.old.me.0.device.gone1 ≤ one) × (one ≤ seat.old.me.0.device.seen1) }
    requires at2 { (two ≡ seat.old.me.0.device.next2) × (seat.old.me.0.device.gone2 ≤ two) × (two ≤ seat.old.me.0.device.seen2) }
    requires pieces { (1 ≤ n) × (n ≤ 2) }
    requires body { IsInBody (made_of shape.now) second }
    requires small { (one < 2 ^ 63) × (two < 2 ^ 63) }
    ensures same { (seat.new.table_id ≡ seat.old.table_id) × (seat.new.id ≡ seat.old.id) }
    ensures walks { WalksOn seat.old.me (n - 1) (spot_of first ∷ spot_of second ∷ []) (λ _ third. chain_of n first second third) result seat.new.me }
    ensures firsts { FirstsAre first second result }
    ensures bodies { AreInBodies (made_of shape.now) n result }
{
    if n == 1 {
        return Plan::Goes {
            first,
            second,
            third: second,
            next1: one,
            next2: two,
        };
    }
    match find_more(shared, seat, shape, one, two) {
        More::Missing { position, word } => Plan::Missing {
            ring: 2,
            position,
            word,
        },
        More::Ring { ring, position } => Plan::Goes {
            first,
            second,
            third: Spot { ring, position },
            next1: next_of(ring, 1, one),
            next2: next_of(ring, 2, two),
        },
    }
}

/// The further pieces, at most two.
fn ways<C: TellsVisible>(
    shared: &SharedWords<C>,
    seat: &mut Seat<Buffer, Known>,
    shape: &RxShape,
    n: u32,
    first: Spot,
    one: u64,
    two: u64,
) -> Plan
    requires table { IsTable C.counted seat.old.table_id shared.now.table_id shape.now }
    requires device { IsDevice seat.old.me shape.now }
    requires at1 { (one ≡ seat.old.me.0.device.next1) × (seat.old.me.0.device.gone1 ≤ one) × (one ≤ seat.old.me.0.device.seen1) }
    requires at2 { (two ≡ seat.old.me.0.device.next2) × (seat.old.me.0.device.gone2 ≤ two) × (two ≤ seat.old.me.0.device.seen2) }
    requires pieces { n ≤ 2 }
    requires small { (one < 2 ^ 62 + 8) × (two < 2 ^ 62 + 8) }
    ensures same { (seat.new.table_id ≡ seat.old.table_id) × (seat.new.id ≡ seat.old.id) }
    ensures walks { WalksOn seat.old.me n (spot_of first ∷ []) (λ second third. chain_of n first second third) result seat.new.me }
    ensures first { FirstIs first result }
    ensures bodies { AreInBodies (made_of shape.now) n result }
{
    if n == 0 {
        return Plan::Goes {
            first,
            second: first,
            third: first,
            next1: one,
            next2: two,
        };
    }
    match find_more(shared, seat, shape, one, two) {
        More::Missing { position, word } => Plan::Missing {
            ring: 2,
            position,
            word,
        },
        More::Ring { ring, position } => {
            let second = Spot { ring, position };
            let one = next_of(ring, 1, one);
            let two = next_of(ring, 2, two);
            last_way(shared, seat, shape, n, first, second, one, two)
        }
    }
}

/// The walk of a frame of n + 1 pieces, from where nothing is taken.
pub fn walk_on<C: TellsVisible>(
    shared: &SharedWords<C>,
    seat: &mut Seat<Buffer, Known>,
    shape: &RxShape,
    n: u32,
    one: u64,
    two: u64,
) -> Plan
    requires table { IsTable C.counted seat.old.table_id shared.now.table_id shape.now }
    requires device { IsDevice seat.old.me shape.now }
    requires rests { (one ≡ seat.old.me.0.device.gone1) × (two ≡ seat.old.me.0.device.gone2) × IsResting seat.old.me.0.device }
    requires pieces { n ≤ 2 }
    requires small { (one < 2 ^ 62) × (two < 2 ^ 62) }
    ensures same { (seat.new.table_id ≡ seat.old.table_id) × (seat.new.id ≡ seat.old.id) }
    ensures planned { Planned seat.old.me n result seat.new.me }
    ensures bodies { AreInBodies (made_of shape.now) n result }
{
    match find_head(shared, seat, shape, shape.size1, one) {
        HeadEnd::Missing { position, word } => Plan::Missing {
            ring: 1,
            position,
            word,
        },
        HeadEnd::Found { position } => {
            let first = Spot { ring: 1, position };
            ways(shared, seat, shape, n, first, position + 1, two)
        }
    }
}
