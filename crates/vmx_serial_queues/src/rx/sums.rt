//! How many buffers frames took.
ghost use Rattle.std.specs.Prelude.{◌≡◌, ◌≤◌, ◌*◌, ◌^◌, length, map};
ghost use Rattle.vmx_ends.specs.Receive.{used, took1, took2};
ghost use Rattle.vmx_serial_queues.specs.Queues.{delivery_of};

use super::Delivered;

/// How many buffers of ring 1 these frames took.
#[tactic(auto, using(crate::proofs::Sums::used_next))]
pub fn used1(frames: &[Delivered]) -> u64
    requires small { length frames.now ≤ 2 ^ 40 }
    ensures sum { result ≡ used took1 (map delivery_of frames.now) }
    ensures few { result ≤ 4099 * length frames.now }
{
    let mut sum = 0;
    for frame in frames {
        sum += frame.took1();
    }
    sum
}

/// How many buffers of ring 2 these frames took.
#[tactic(auto, using(crate::proofs::Sums::used_next))]
pub fn used2(frames: &[Delivered]) -> u64
    requires small { length frames.now ≤ 2 ^ 40 }
    ensures sum { result ≡ used took2 (map delivery_of frames.now) }
    ensures few { result ≤ 4099 * length frames.now }
{
    let mut sum = 0;
    for frame in frames {
        sum += frame.took2();
    }
    sum
}
