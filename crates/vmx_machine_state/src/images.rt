//! What a device writes into the image: statistics and status of its queues.

ghost use Rattle.std.specs.Prelude.{◌≡◌, ◌≤◌, map};
ghost use Rattle.vmx_machine_state.specs.Images.{with_stats, with_status};

use crate::statistics::QUEUES;
use vmx_layout::MAX_QUEUES;
use vmx_shared_area::{Image, Side, Stats, write_stats, write_status};

/// Writes the statistics of the first `count` queues of a side, at most 8. The receive descriptors stand behind `behind`
/// transmit ones, 1 to 8.
pub fn write_all_stats(
    image: &mut Image,
    behind: u32,
    side: Side,
    stats: &[Stats; QUEUES],
    count: u32,
)
    requires low { 1 ≤ behind }
    requires high { behind ≤ MAX_QUEUES }
    requires count { count ≤ MAX_QUEUES }
    requires tx_count { side ≡ Side.Tx → count ≤ behind }
    ensures written { image.new ≡ with_stats behind side (map (λ s. s.counts) stats.now) count image.old }
{
    for queue in 0..count {
        write_stats(image, behind, side, queue, &stats[queue as usize]);
    }
}

/// Writes the status of the first `count` queues of a side, at most 8: stopped with the number of its error, or not stopped.
pub fn write_all_status(
    image: &mut Image,
    behind: u32,
    side: Side,
    errors: &[Option<u32>; QUEUES],
    count: u32,
)
    requires low { 1 ≤ behind }
    requires high { behind ≤ MAX_QUEUES }
    requires count { count ≤ MAX_QUEUES }
    requires tx_count { side ≡ Side.Tx → count ≤ behind }
    ensures written { image.new ≡ with_status behind side errors.now count image.old }
{
    for queue in 0..count {
        write_status(image, behind, side, queue, errors[queue as usize]);
    }
}
