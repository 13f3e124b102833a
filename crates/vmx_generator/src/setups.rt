//! The setups of the guests' drivers: as a configuration has them by default, but with two transmit and four receive queues and RSS; the
//! sniffer lets in every frame.

ghost use Rattle.std.specs.Prelude.{◌≡◌, ◌<◌, ℕ, true, slice_index};
ghost use Rattle.vmx_shared_area.specs.declared.offsets.TheConstants.{RX_MODE_END};
ghost use Rattle.vmx_device_state.specs.SetupView.{rss_view, setup_view};
ghost use Rattle.vmx_model.specs.Ranges.{fits_setup};
ghost use Rattle.vmx_generator.specs.Setups.{mode_of, default_rss, setup_of};

use crate::plan::SNIFFER;
use vmx_rss::ALL_TYPES;
use vmx_shared_area::offsets::TABLE_SIZE;
use vmx_shared_area::{
    MICROSOFT_KEY, RX_MODE_BCAST, RX_MODE_MCAST, RX_MODE_PROMISC, RX_MODE_UCAST, Rss, Setup,
};

const TX_QUEUES: u8 = 2;

const RX_QUEUES: u8 = 4;

/// The setup of a guest.
pub fn setup(guest: u8) -> Setup
    ensures setup { setup_view result ≡ setup_of guest }
    ensures fits { fits_setup result ≡ true }
{
    let mut setup = Setup::by_default();
    setup.tx_queues = TX_QUEUES;
    setup.rx_queues = RX_QUEUES;
    setup.filter.mode = mode(guest);
    setup.rss = Some(rss());
    setup
}

/// The receive mode of a guest.
fn mode(guest: u8) -> u32
    ensures mode { result ≡ mode_of guest }
    ensures range { result < RX_MODE_END }
{
    if guest == SNIFFER {
        RX_MODE_PROMISC
    } else {
        RX_MODE_UCAST | RX_MODE_MCAST | RX_MODE_BCAST
    }
}

/// The RSS setting that a configuration has by default: all kinds of flow, Microsoft's key, and 128 entries that name the queues in turn.
fn rss() -> Rss
    ensures rss { rss_view result ≡ default_rss }
    ensures queues { (i : ℕ) → slice_index result.table i < 4 }
{
    let mut table = [0; TABLE_SIZE];
    for i in 0..TABLE_SIZE {
        table[i] = (i % RX_QUEUES as usize) as u8;
    }
    Rss {
        types: ALL_TYPES,
        key: MICROSOFT_KEY,
        size: TABLE_SIZE as u16,
        table,
    }
}
