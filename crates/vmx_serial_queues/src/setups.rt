//! What a guest's setup makes of a frame.
ghost use Rattle.std.specs.Prelude.{◌≡◌, ◌≤◌, length};
ghost use Rattle.vmx_device_state.specs.SetupView.{setup_view};
ghost use Rattle.vmx_model.specs.Setups.{admits as admits_of};
ghost use Rattle.vmx_model.specs.Wire.{rx_queue as rx_queue_of};
ghost use Rattle.vmx_model.specs.Meta.{meta_of as meta_by};

use vmx_ends::RxMeta;
use vmx_filters::{Verdict, admits};
use vmx_frame::{ADDRESS_LEN, HEADER_LEN, flow};
use vmx_rss::choose;
use vmx_shared_area::Setup;

/// Whether the filter lets a frame in at a guest with this address, or the rule that refuses it.
pub fn admitted(setup: &Setup, mac: &[u8; ADDRESS_LEN], frame: &[u8]) -> Verdict
    requires header { HEADER_LEN ≤ length frame.now }
    ensures verdict { result ≡ admits_of (setup_view setup.now) mac.now frame.now }
{
    admits(&setup.filter, mac, frame)
}

/// The receive queue of a frame.
pub fn rx_queue(setup: &Setup, frame: &[u8]) -> u32
    requires header { HEADER_LEN ≤ length frame.now }
    ensures queue { result ≡ rx_queue_of (setup_view setup.now).rss frame.now }
{
    choose(setup.rss.as_ref(), &flow(frame)).queue
}

/// What a device tells of a frame beside its bytes: hash and kind of the frame as it came, and the tag that is taken out.
pub fn meta_of(setup: &Setup, tci: Option<u16>, frame: &[u8]) -> RxMeta
    requires header { HEADER_LEN ≤ length frame.now }
    ensures meta { result ≡ meta_by (setup_view setup.now).rss tci frame.now }
{
    let choice = choose(setup.rss.as_ref(), &flow(frame));
    RxMeta {
        hash: choice.hash,
        kind: choice.kind,
        tci,
    }
}
