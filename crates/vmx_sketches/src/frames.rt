//! What guests of sketches send.

use crate::sketch::mac_of;
use std::alloc::{AllocError, Global};
use vmx_frame::ADDRESS_LEN;
use vmx_io::{Bytes, List};
use vmx_pcap::Stamped;

/// The frames of a guest.
#[derive(Clone, Copy)]
pub enum Frames {
    /// So many frames of so many bytes to an address, at least 14 bytes each.
    Same {
        count: u32,
        to: [u8; ADDRESS_LEN],
        bytes: u32,
    },
    /// A frame of 13, 14, 1,518 and 1,519 bytes, each of zeros.
    Lengths,
    /// To port 1 a frame of 1,514 bytes and one of 1,515, and one of 1,518 bytes with VLAN tag 9.
    TagLengths,
    /// 32 broadcasts of 60 bytes, and then 33 frames of 60 bytes to port 1.
    BroadcastsFirst,
    /// So many frames of the TCP flow from 66.9.149.187, port 2794, to 161.142.100.80, port 1766, in the published hashes of RSS.
    Flow {
        count: u32,
        to: [u8; ADDRESS_LEN],
    },
    /// An ARP broadcast of 42 bytes, an IPv4 TCP frame of 74 bytes to port 1, an IPv6 TCP frame of 94 bytes to port 2, a frame of 64
    /// bytes with VLAN tag 5 to port 3, and a record of 20,000 bytes to port 1.
    Mixed,
}

/// The address of all stations (IEEE 802.3).
const BROADCAST: [u8; ADDRESS_LEN] = [0xff; ADDRESS_LEN];

/// IPv4 and TCP from the type on: 40 bytes of IPv4 without options, the addresses, and the ports.
const FLOW: [u8; 26] = [
    0x08, 0x00, 0x45, 0, 0, 40, 0, 0, 0, 0, 64, 6, 0, 0, 66, 9, 149, 187, 161, 142, 100, 80, 0x0a,
    0xea, 0x06, 0xe6,
];

/// IPv6 with TCP from the type on, up to the hop limit.
const SIX: [u8; 10] = [0x86, 0xdd, 0x60, 0, 0, 0, 0, 40, 6, 64];

/// The type of ARP.
const ARP: [u8; 2] = [0x08, 0x06];

/// The records of a capture with these frames.
pub fn records_of(alloc: Global, frames: Frames) -> Result<List<Stamped>, AllocError> {
    let mut records = List::new(alloc);
    match frames {
        Frames::Same { count, to, bytes } => {
            for _ in 0..count {
                add(alloc, &mut records, to, &[], bytes)?;
            }
        }
        Frames::Lengths => {
            for bytes in [13, 14, 1518, 1519] {
                add(alloc, &mut records, [0; ADDRESS_LEN], &[], bytes)?;
            }
        }
        Frames::TagLengths => {
            add(alloc, &mut records, mac_of(1), &[], 1_514)?;
            add(alloc, &mut records, mac_of(1), &[], 1_515)?;
            add(
                alloc,
                &mut records,
                mac_of(1),
                &[0x81, 0x00, 0x00, 0x09],
                1_518,
            )?;
        }
        Frames::BroadcastsFirst => {
            for _ in 0..32u32 {
                add(alloc, &mut records, BROADCAST, &[], 60)?;
            }
            for _ in 0..33u32 {
                add(alloc, &mut records, mac_of(1), &[], 60)?;
            }
        }
        Frames::Flow { count, to } => {
            for _ in 0..count {
                add(alloc, &mut records, to, &FLOW, 60)?;
            }
        }
        Frames::Mixed => {
            add(alloc, &mut records, BROADCAST, &ARP, 42)?;
            add(alloc, &mut records, mac_of(1), &FLOW, 74)?;
            add(alloc, &mut records, mac_of(2), &SIX, 94)?;
            add(
                alloc,
                &mut records,
                mac_of(3),
                &[0x81, 0x00, 0x00, 0x05],
                64,
            )?;
            add(alloc, &mut records, mac_of(1), &FLOW, 20_000)?;
        }
    }
    Ok(records)
}

/// Adds a frame of so many bytes: the destination, the source of port 0, these bytes from the type on, and zeros.
fn add(
    alloc: Global,
    records: &mut List<Stamped>,
    to: [u8; ADDRESS_LEN],
    rest: &[u8],
    bytes: u32,
) -> Result<(), AllocError> {
    let mut frame = Vec::new(alloc);
    frame.extend_from_slice(&to)?;
    frame.extend_from_slice(&mac_of(0))?;
    frame.extend_from_slice(rest)?;
    frame.truncate(bytes as usize);
    let short = (bytes as usize).saturating_sub(frame.len());
    for _ in 0..short {
        frame.push(0)?;
    }
    records.push(Stamped {
        seconds: 0,
        micros: 0,
        frame: Bytes::of(frame),
    })?;
    Ok(())
}
