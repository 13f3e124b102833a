//! What an update takes from an image. Each reads by the reader of its part alone, with the active setup's number of receive
//! queues in the place of the image's.

ghost use Rattle.std.specs.Prelude.{◌≡◌, option_map, Some};
ghost use Rattle.vmx_shared_area.specs.Tells.{EntriesBelow};
ghost use Rattle.vmx_shared_area.specs.declared.rss.Rss.{Rss as RssSetting};
ghost use Rattle.vmx_device_state.specs.SetupView.{setup_view, rss_view, mac_list};
ghost use Rattle.vmx_device_state.specs.DeviceState.{updated, check_of as number_of_check};
ghost use Rattle.vmx_device_state.specs.ImageSetup.{image_strip, image_csum};
ghost use Rattle.vmx_device_state.specs.declared.order.Part.TheVariants.{Mode, Macs, Vlans, Table, Levels, Features};

use crate::answers::{FILTER_CHECK, RSS_CHECK};
use crate::order::Part;
use vmx_shared_area::{
    FEATURE_RXCSUM, FEATURE_RXVLAN, Filter, Image, Rss, Setup, read_features, read_levels,
    read_mode, read_multicast, read_rss, read_table, read_vlans,
};

/// The setup after an update, or None where the image fails the update's check.
pub fn update_of(part: Part, setup: &Setup, image: &Image) -> Option<Setup>
    ensures setup { option_map setup_view result ≡ updated part (setup_view setup.now) image.now }
{
    match part {
        Part::Mode => with_mode(setup, image),
        Part::Macs => with_macs(setup, image),
        Part::Vlans => Some(with_vlans(setup, image)),
        Part::Table => with_table(setup, image),
        Part::Levels => Some(with_levels(setup, image)),
        Part::Features => with_features(setup, image),
    }
}

/// The number of the check that an update makes, by which it is answered where the image fails it; the VLAN table and the levels have
/// none.
pub fn check_of(part: Part) -> u32
    ensures number { result ≡ number_of_check part }
{
    match part {
        Part::Mode => FILTER_CHECK,
        Part::Macs => FILTER_CHECK,
        Part::Vlans => 0,
        Part::Table => RSS_CHECK,
        Part::Levels => 0,
        Part::Features => RSS_CHECK,
    }
}

fn with_mode(setup: &Setup, image: &Image) -> Option<Setup>
    ensures setup { option_map setup_view result ≡ updated Mode (setup_view setup.now) image.now }
{
    match read_mode(image) {
        None => None,
        Some(mode) => Some(with_filter(
            setup,
            Filter {
                mode,
                multicast: setup.filter.multicast,
                vlans: setup.filter.vlans,
            },
        )),
    }
}

fn with_macs(setup: &Setup, image: &Image) -> Option<Setup>
    ensures setup { option_map setup_view result ≡ updated Macs (setup_view setup.now) image.now }
{
    match read_multicast(image) {
        None => None,
        Some(multicast) => Some(with_filter(
            setup,
            Filter {
                mode: setup.filter.mode,
                multicast,
                vlans: setup.filter.vlans,
            },
        )),
    }
}

fn with_vlans(setup: &Setup, image: &Image) -> Setup
    ensures setup { Some (setup_view result) ≡ updated Vlans (setup_view setup.now) image.now }
{
    with_filter(
        setup,
        Filter {
            mode: setup.filter.mode,
            multicast: setup.filter.multicast,
            vlans: read_vlans(image),
        },
    )
}

fn with_table(setup: &Setup, image: &Image) -> Option<Setup>
    ensures setup { option_map setup_view result ≡ updated Table (setup_view setup.now) image.now }
{
    match setup.rss {
        None => None,
        Some(rss) => match read_table(image, u32::from(setup.rx_queues)) {
            None => None,
            Some(index) => {
                let types = rss.types;
                let key = rss.key;
                let size = index.size;
                let table = index.table;
                let rss = Rss {
                    types,
                    key,
                    size,
                    table,
                };
                Some(with_rss(setup, Some(rss)))
            }
        },
    }
}

fn with_levels(setup: &Setup, image: &Image) -> Setup
    ensures setup { Some (setup_view result) ≡ updated Levels (setup_view setup.now) image.now }
{
    let mut new = *setup;
    new.levels = read_levels(image);
    new
}

fn with_features(setup: &Setup, image: &Image) -> Option<Setup>
    ensures setup { option_map setup_view result ≡ updated Features (setup_view setup.now) image.now }
{
    match read_rss(image, u32::from(setup.rx_queues)) {
        Err(_) => None,
        Ok(rss) => Some(with_bits(&with_rss(setup, rss), image)),
    }
}

/// The setup with the image's two other features.
fn with_bits(setup: &Setup, image: &Image) -> Setup
    ensures setup { setup_view result ≡ record (setup_view setup.now) { strip = image_strip image.now; csum = image_csum image.now } }
{
    let features = read_features(image);
    let mut new = *setup;
    new.strip = features / FEATURE_RXVLAN % 2 == 1;
    new.csum = features / FEATURE_RXCSUM % 2 == 1;
    new
}

/// The setup with another filter.
fn with_filter(setup: &Setup, filter: Filter) -> Setup
    ensures setup { setup_view result ≡ record (setup_view setup.now) { mode = filter.mode; macs = mac_list filter.multicast; vlans = filter.vlans } }
{
    let mut new = *setup;
    new.filter = filter;
    new
}

/// The setup with another RSS setting, whose entries name receive queues of the setup.
fn with_rss(setup: &Setup, rss: Option<Rss>) -> Setup
    requires entries { (r : RssSetting) → rss ≡ Some r → EntriesBelow setup.now.rx_queues r.size r.table }
    ensures setup { setup_view result ≡ record (setup_view setup.now) { rss = option_map rss_view rss } }
{
    let mut new = *setup;
    new.rss = rss;
    new
}
