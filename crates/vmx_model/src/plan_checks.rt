//! What a plan's guests have together, as tests at run time (`specs/Totals.antt`). A total is not summed up: each guest takes its share
//! of what may be left.

ghost use Rattle.std.specs.Prelude.{◌≡◌, ◌+◌, ◌-◌, ◌*◌, ◌≤◌, nat_le, bytes_eq, SomeIff};
ghost use Rattle.std.specs.List.{list_any};
ghost use Rattle.vmx_switch.specs.Ports.{are_distinct};
ghost use Rattle.vmx_model.specs.declared.limits.TheConstants.{MAX_ALL_DESCRIPTORS, MAX_RECORDS, MAX_BYTES};
ghost use Rattle.vmx_model.specs.Totals.{names_of, have_ports as have_ports_of, descriptors_of, records_of, bytes_of, frame_bytes};

use crate::guest::GuestPlan;
use crate::limits::{MAX_ALL_DESCRIPTORS, MAX_BYTES, MAX_RECORDS, RECORD_HEADER};
use vmx_pcap::Capture;
use vmx_shared_area::Setup;
use vmx_switch::{MAX_PORTS, Table};

/// Whether no name stands twice.
pub(crate) fn names_differ(guests: &[GuestPlan]) -> bool
    ensures differ { result ≡ are_distinct (names_of guests.now) }
{
    for (i, guest) in guests.iter().enumerate() {
        if is_named(guest.name.as_str().as_bytes(), &guests[i + 1..]) {
            return false;
        }
    }
    true
}

/// Whether one of the guests has this name.
fn is_named(name: &[u8], guests: &[GuestPlan]) -> bool
    ensures named { result ≡ list_any (bytes_eq name.now) (names_of guests.now) }
{
    for guest in guests {
        if name == guest.name.as_str().as_bytes() {
            return true;
        }
    }
    false
}

/// Whether the switch can be made of the guests' addresses: 1 to 16 of them, all different.
pub(crate) fn have_ports(guests: &[GuestPlan]) -> bool
    ensures ports { result ≡ have_ports_of guests.now }
{
    if guests.len() > MAX_PORTS {
        return false;
    }
    let mut macs = [[0; 6]; MAX_PORTS];
    let mut sniffers = [false; MAX_PORTS];
    for (i, guest) in guests.iter().enumerate() {
        macs[i] = guest.mac;
        sniffers[i] = guest.sniffer;
    }
    Table::fits(&macs[..guests.len()], &sniffers[..guests.len()])
}

/// Whether the rings of all guests have at most 65,536 descriptors.
pub(crate) fn descriptors_fit(guests: &[GuestPlan]) -> bool
    ensures fit { result ≡ nat_le (descriptors_of guests.now) MAX_ALL_DESCRIPTORS }
{
    let mut left = MAX_ALL_DESCRIPTORS;
    for guest in guests {
        match left.checked_sub(descriptors(&guest.setup)) {
            Some(rest) => left = rest,
            None => return false,
        }
    }
    true
}

/// The descriptors of all rings of a guest.
fn descriptors(setup: &Setup) -> u32
    ensures sum { result ≡ setup.now.tx_queues * setup.now.tx_ring + setup.now.rx_queues * (setup.now.rx_ring1 + setup.now.rx_ring2) }
{
    u32::from(setup.tx_queues) * setup.tx_ring
        + u32::from(setup.rx_queues) * (setup.rx_ring1 + setup.rx_ring2)
}

/// Whether the captures of all guests have at most 262,144 records.
pub(crate) fn records_fit(guests: &[GuestPlan]) -> bool
    ensures fit { result ≡ nat_le (records_of guests.now) MAX_RECORDS }
{
    let mut left = MAX_RECORDS;
    for guest in guests {
        match left.checked_sub(guest.capture.records.len()) {
            Some(rest) => left = rest,
            None => return false,
        }
    }
    true
}

/// Whether the captures of all guests have at most 67,108,864 bytes.
pub(crate) fn bytes_fit(guests: &[GuestPlan]) -> bool
    ensures fit { result ≡ nat_le (bytes_of guests.now) MAX_BYTES }
{
    let mut left = MAX_BYTES;
    for guest in guests {
        match bytes_left(left, &guest.capture) {
            Some(rest) => left = rest,
            None => return false,
        }
    }
    true
}

/// What is left of so many bytes behind the capture, or `None` where it has more.
fn bytes_left(bytes: usize, capture: &Capture) -> Option<usize>
    ensures left { SomeIff result (frame_bytes capture.now.records + capture.now.tail ≤ bytes) (bytes - (frame_bytes capture.now.records + capture.now.tail)) }
{
    let mut left = bytes.checked_sub(capture.tail as usize)?;
    for record in capture.records.as_slice() {
        left = left
            .checked_sub(RECORD_HEADER)?
            .checked_sub(record.frame.len())?;
    }
    Some(left)
}
