//! The setups of the tests.

ghost use Rattle.std.specs.Prelude.{◌≡◌, ◌≤◌, ◌<◌, ℕ, slice_index, true};

use vmx_shared_area::{MICROSOFT_KEY, RX_MODE_BCAST, RX_MODE_PROMISC, Rss, Setup};

/// A setup that differs from the one by default in one thing.
#[derive(Clone, Copy, Debug, PartialEq, Eq)]
pub enum Settings {
    /// One queue each way, all frames to the guest's address, to groups and to all let in, tags left in.
    Default,
    /// Of the receive modes BCAST alone: frames to all are let in, and no other.
    Broadcasts,
    /// The receive mode PROMISC: all frames are let in.
    Everything,
    /// Tags are taken out of what comes up.
    Strip,
    /// Two receive queues, and RSS whose flows all go to queue 0.
    FlowsToQueue0,
    /// Two receive queues, and RSS whose flows all go to queue 1.
    FlowsToQueue1,
}

/// The RSS setting of all types of flows, all of whose 128 entries name this queue.
fn rss_to(queue: u8) -> Rss
    requires queue { queue < 2 }
    ensures entries { (i : ℕ) → slice_index result.table i ≤ queue }
{
    Rss {
        types: 15,
        key: MICROSOFT_KEY,
        size: 128,
        table: [queue; 128],
    }
}

/// A setup of two receive queues, whose flows go to this one.
fn flows_to(queue: u8) -> Setup
    requires queue { queue < 2 }
    ensures queues { (result.rx_queues ≡ 2) × (result.tx_queues ≡ 1) }
{
    let mut setup = Setup::by_default();
    setup.rx_queues = 2;
    setup.rss = Some(rss_to(queue));
    setup
}

/// The setup by default, but for its receive mode.
fn of_mode(mode: u32) -> Setup
    requires mode { mode < 32 }
    ensures mode { result.filter.mode ≡ mode }
    ensures queues { (result.rx_queues ≡ 1) × (result.tx_queues ≡ 1) }
{
    let mut setup = Setup::by_default();
    setup.filter.mode = mode;
    setup
}

/// The setup by default, but that tags are taken out.
fn stripping() -> Setup
    ensures strip { result.strip ≡ true }
    ensures queues { (result.rx_queues ≡ 1) × (result.tx_queues ≡ 1) }
{
    let mut setup = Setup::by_default();
    setup.strip = true;
    setup
}

/// The setup of a test.
pub fn setup_of(settings: Settings) -> Setup
    ensures queues { (result.tx_queues ≡ 1) × (1 ≤ result.rx_queues) × (result.rx_queues ≤ 2) }
{
    match settings {
        Settings::Default => Setup::by_default(),
        Settings::Broadcasts => of_mode(RX_MODE_BCAST),
        Settings::Everything => of_mode(RX_MODE_PROMISC),
        Settings::Strip => stripping(),
        Settings::FlowsToQueue0 => flows_to(0),
        Settings::FlowsToQueue1 => flows_to(1),
    }
}
