//! The driver's look for the next frame.
ghost use Rattle.std.specs.Prelude.{◌≡◌, ◌+◌, ◌*◌, ◌<◌, ◌≤◌, ◌^◌, true, false};
ghost use Rattle.vmx_layout.specs.declared.TheConstants.{COMPLETION_GENERATION_BIT};
ghost use Rattle.vmx_layout.specs.declared.addresses.TheConstants.{MAX_RING_SIZE};
ghost use Rattle.vmx_ends.specs.Words.{missed_word};
ghost use Rattle.vmx_ends.specs.Receive.{used, pieces_of};
ghost use Rattle.vmx_rx_ring.specs.Shapes.{IsTable};
ghost use Rattle.vmx_rx_walk.specs.Reading.{IsDriver};
ghost use Rattle.vmx_rx_walk.specs.Looking.{Looked};

use atomic_table::Seat;
use vmx_ends::RxShape;
use vmx_layout::COMPLETION_GENERATION_BIT;
use vmx_rx_ring::steps::{CompletionLook, CountLook, SecondLoad};
use vmx_rx_ring::{
    Buffer, Known, SharedWords, TellsVisible, count_of, generation_at, generation_part,
    has_generation,
};

/// What the look for the next frame came to.
#[derive(Drop)]
pub enum Seen {
    /// Its first completion is visible, and has this second word.
    Visible { second: u64 },
    /// It is not: the look's word.
    Missing { word: u64 },
}

/// The look for the next frame, where all completions before this position are read.
pub fn look<C: TellsVisible>(
    shared: &SharedWords<C>,
    seat: &mut Seat<Buffer, Known>,
    shape: &RxShape,
    read: u64,
) -> Seen
    requires table { IsTable C.counted seat.old.table_id shared.now.table_id shape.now }
    requires driver { IsDriver seat.old.me shape.now }
    requires at { (read ≡ seat.old.me.0.driver.read) × (seat.old.me.0.driver.read ≡ used pieces_of seat.old.me.0.driver.received) }
    ensures same { (seat.new.table_id ≡ seat.old.table_id) × (seat.new.id ≡ seat.old.id) }
    ensures looked { Looked seat.old.me result seat.new.me }
{
    if C::is_counted() {
        return look_at_count(shared, seat, shape, read);
    }
    look_at_generation(shared, seat, shape, read)
}

/// The look at the completion's generation bit.
fn look_at_generation<C: TellsVisible>(
    shared: &SharedWords<C>,
    seat: &mut Seat<Buffer, Known>,
    shape: &RxShape,
    read: u64,
) -> Seen
    requires form { C.counted ≡ false }
    requires table { IsTable C.counted seat.old.table_id shared.now.table_id shape.now }
    requires driver { IsDriver seat.old.me shape.now }
    requires at { (read ≡ seat.old.me.0.driver.read) × (seat.old.me.0.driver.read ≡ used pieces_of seat.old.me.0.driver.received) }
    ensures same { (seat.new.table_id ≡ seat.old.table_id) × (seat.new.id ≡ seat.old.id) }
    ensures looked { Looked seat.old.me result seat.new.me }
{
    let n = count_of(shape);
    let index = read % n;
    let word = shared.load::<CompletionLook>(seat, (2 * n + index) as usize);
    if has_generation(n, word, COMPLETION_GENERATION_BIT, read) {
        return Seen::Visible { second: word };
    }
    Seen::Missing { word }
}

/// The look's word where the completion of a position is not counted: the bit of the other generation alone.
fn missed_completion(size: u64, position: u64) -> u64
    requires size { (0 < size) × (size ≤ 2 * MAX_RING_SIZE) }
    ensures word { result ≡ missed_word COMPLETION_GENERATION_BIT size position }
{
    generation_part(!generation_at(size, position))
}

/// The look at the word that counts visible completions, and then at the completion's second word.
fn look_at_count<C: TellsVisible>(
    shared: &SharedWords<C>,
    seat: &mut Seat<Buffer, Known>,
    shape: &RxShape,
    read: u64,
) -> Seen
    requires form { C.counted ≡ true }
    requires table { IsTable C.counted seat.old.table_id shared.now.table_id shape.now }
    requires driver { IsDriver seat.old.me shape.now }
    requires at { (read ≡ seat.old.me.0.driver.read) × (seat.old.me.0.driver.read ≡ used pieces_of seat.old.me.0.driver.received) }
    ensures same { (seat.new.table_id ≡ seat.old.table_id) × (seat.new.id ≡ seat.old.id) }
    ensures looked { Looked seat.old.me result seat.new.me }
{
    let n = count_of(shape);
    let visible = shared.load::<CountLook>(seat, (4 * n) as usize);
    if visible <= read {
        return Seen::Missing {
            word: missed_completion(n, read),
        };
    }
    let index = read % n;
    let second = shared.load::<SecondLoad>(seat, (2 * n + index) as usize);
    Seen::Visible { second }
}
