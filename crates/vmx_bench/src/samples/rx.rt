//! Samples of receive descriptors and completions.

use super::{put_fault, put_line};
use crate::place::{Place, each_value};
use std::alloc::{AllocError, Global};
use vmx_layout::{BufferType, RxComp, RxDesc};

/// The fields of a receive descriptor, as the published table has them.
const DESC: [Place; 5] = [
    Place(0, 0, 64),
    Place(2, 0, 14),
    Place(2, 14, 1),
    Place(2, 15, 1),
    Place(2, 31, 1),
];

/// The fields of a receive completion but its type.
const COMP: [Place; 21] = [
    Place(0, 0, 12),
    Place(0, 14, 1),
    Place(0, 15, 1),
    Place(0, 16, 10),
    Place(0, 26, 4),
    Place(0, 30, 1),
    Place(1, 0, 32),
    Place(2, 0, 14),
    Place(2, 14, 1),
    Place(2, 15, 1),
    Place(2, 16, 16),
    Place(3, 0, 16),
    Place(3, 16, 1),
    Place(3, 17, 1),
    Place(3, 18, 1),
    Place(3, 19, 1),
    Place(3, 20, 1),
    Place(3, 21, 1),
    Place(3, 22, 1),
    Place(3, 23, 1),
    Place(3, 31, 1),
];

/// A line for each sample of a receive descriptor.
pub fn put_descs(alloc: Global, text: &mut String) -> Result<(), AllocError> {
    for (first, second) in each_value(alloc, (0, 0), &DESC)? {
        match RxDesc::of_words([first, second]) {
            Ok(d) => put_line(text, "RxDesc", d.to_words(), &desc_fields(&d))?,
            Err(_) => put_fault(text, "RxDesc", [first, second])?,
        }
    }
    Ok(())
}

fn desc_fields(d: &RxDesc) -> [u64; 5] {
    [
        d.addr,
        u64::from(d.len),
        u64::from(d.btype == BufferType::Body),
        u64::from(d.dtype),
        u64::from(d.generation),
    ]
}

/// A line for each sample of a receive completion, which has the type 3.
pub fn put_comps(alloc: Global, text: &mut String) -> Result<(), AllocError> {
    for (first, second) in each_value(alloc, (0, 3 << 56), &COMP)? {
        match RxComp::of_words([first, second]) {
            Ok(d) => put_line(text, "RxComp", d.to_words(), &comp_fields(&d))?,
            Err(_) => put_fault(text, "RxComp", [first, second])?,
        }
    }
    Ok(())
}

fn comp_fields(d: &RxComp) -> [u64; 22] {
    [
        u64::from(d.rxd_idx),
        u64::from(d.eop),
        u64::from(d.sop),
        u64::from(d.rq_id),
        u64::from(d.rss_type),
        u64::from(d.cnc),
        u64::from(d.rss_hash),
        u64::from(d.len),
        u64::from(d.err),
        u64::from(d.ts),
        u64::from(d.tci),
        u64::from(d.csum),
        u64::from(d.tuc),
        u64::from(d.udp),
        u64::from(d.tcp),
        u64::from(d.ipc),
        u64::from(d.v6),
        u64::from(d.v4),
        u64::from(d.frg),
        u64::from(d.fcs),
        u64::from(d.kind),
        u64::from(d.generation),
    ]
}
