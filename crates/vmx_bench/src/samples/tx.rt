//! Samples of transmit descriptors and completions.

use super::{put_fault, put_line};
use crate::place::{Place, each_value};
use std::alloc::{AllocError, Global};
use vmx_layout::{TxComp, TxDesc};

/// The fields of a transmit descriptor, as the published table has them.
const DESC: [Place; 13] = [
    Place(0, 0, 64),
    Place(2, 0, 14),
    Place(2, 14, 1),
    Place(2, 16, 1),
    Place(2, 17, 1),
    Place(2, 18, 14),
    Place(3, 0, 10),
    Place(3, 10, 2),
    Place(3, 12, 1),
    Place(3, 13, 1),
    Place(3, 14, 1),
    Place(3, 15, 1),
    Place(3, 16, 16),
];

/// The fields of a transmit completion but its type.
const COMP: [Place; 2] = [Place(0, 0, 12), Place(3, 31, 1)];

/// A line for each sample of a transmit descriptor.
pub fn put_descs(alloc: Global, text: &mut String) -> Result<(), AllocError> {
    for (first, second) in each_value(alloc, (0, 0), &DESC)? {
        match TxDesc::of_words([first, second]) {
            Ok(d) => put_line(text, "TxDesc", d.to_words(), &desc_fields(&d))?,
            Err(_) => put_fault(text, "TxDesc", [first, second])?,
        }
    }
    Ok(())
}

fn desc_fields(d: &TxDesc) -> [u64; 13] {
    [
        d.addr,
        u64::from(d.len),
        u64::from(d.generation),
        u64::from(d.dtype),
        u64::from(d.ext1),
        u64::from(d.msscof),
        u64::from(d.hlen),
        u64::from(d.om),
        u64::from(d.eop),
        u64::from(d.cq),
        u64::from(d.ext2),
        u64::from(d.ti),
        u64::from(d.tci),
    ]
}

/// A line for each sample of a transmit completion.
pub fn put_comps(alloc: Global, text: &mut String) -> Result<(), AllocError> {
    for (first, second) in each_value(alloc, (0, 0), &COMP)? {
        match TxComp::of_words([first, second]) {
            Ok(d) => put_line(text, "TxComp", d.to_words(), &comp_fields(&d))?,
            Err(_) => put_fault(text, "TxComp", [first, second])?,
        }
    }
    Ok(())
}

fn comp_fields(d: &TxComp) -> [u64; 3] {
    [
        u64::from(d.txd_idx),
        u64::from(d.kind),
        u64::from(d.generation),
    ]
}
