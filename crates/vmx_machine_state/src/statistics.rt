//! What a device counts of a queue.

ghost use Rattle.std.specs.Prelude.{◌≡◌, ◌<◌, ◌≤◌, ◌+◌, replicate};
ghost use Rattle.vmx_machine_state.specs.Statistics.{frames_at, raised, counted, IsCounted};

use vmx_frame::Class;
use vmx_layout::MAX_QUEUES;
use vmx_shared_area::offsets::STATISTICS_COUNT;
use vmx_shared_area::{Side, Stats};

/// The queues of a side, whether a setup has them or not.
pub const QUEUES: usize = MAX_QUEUES as usize;

/// What is counted.
#[derive(Clone, Copy, Debug, PartialEq, Eq)]
pub enum Count {
    /// A frame of this class and of so many bytes: a transmitted one where it was taken, a received one where it was delivered.
    Frame { class: Class, bytes: u64 },
    /// A received frame for which no buffer was there.
    NoBuffer,
    /// A queue whose descriptors are not lawful.
    Error,
    /// A transmitted frame without a target.
    Discard,
}

/// The place of unicast frames among the counts of a queue, on either side; the count of their bytes is the next one. The places are
/// those of Linux's `UPT1_TxStats` and `UPT1_RxStats`.
pub const UNICAST_FRAMES: usize = 2;

/// The place of multicast frames; their bytes are next.
pub const MULTICAST_FRAMES: usize = 4;

/// The place of broadcast frames; their bytes are next.
pub const BROADCAST_FRAMES: usize = 6;

/// The place of a transmit queue's errors.
pub const TX_ERRORS: usize = 8;

/// The place of a transmit queue's discards.
pub const TX_DISCARDS: usize = 9;

/// The place of a receive queue's frames without a buffer.
pub const RX_NO_BUFFERS: usize = 8;

/// The place of a receive queue's errors.
pub const RX_ERRORS: usize = 9;

/// Statistics that counted nothing.
pub fn nothing_counted() -> Stats
    ensures zeros { result.counts ≡ replicate STATISTICS_COUNT 0 }
{
    Stats {
        counts: [0; STATISTICS_COUNT],
    }
}

/// Counts one thing more.
pub fn count_in(stats: &mut Stats, side: Side, what: Count)
    requires what { IsCounted side what }
    ensures counted { stats.new.counts ≡ counted side what stats.old.counts }
{
    match what {
        Count::Frame { class, bytes } => {
            let place = place_of(class);
            raise(stats, place, 1);
            raise(stats, place + 1, bytes);
        }
        Count::NoBuffer => raise(stats, RX_NO_BUFFERS, 1),
        Count::Error => match side {
            Side::Tx => raise(stats, TX_ERRORS, 1),
            Side::Rx => raise(stats, RX_ERRORS, 1),
        },
        Count::Discard => raise(stats, TX_DISCARDS, 1),
    }
}

/// Where the frames of a class are counted; their bytes stand behind them.
fn place_of(class: Class) -> usize
    ensures place { result ≡ frames_at class }
    ensures below { result < 8 }
{
    match class {
        Class::Unicast => UNICAST_FRAMES,
        Class::Multicast => MULTICAST_FRAMES,
        Class::Broadcast => BROADCAST_FRAMES,
    }
}

/// The count at a place, below 10, goes up; it stands still at its last value.
fn raise(stats: &mut Stats, place: usize, more: u64)
    requires place { place < STATISTICS_COUNT }
    ensures raised { stats.new.counts ≡ raised place more stats.old.counts }
{
    stats.counts[place] = stats.counts[place].saturating_add(more);
}
