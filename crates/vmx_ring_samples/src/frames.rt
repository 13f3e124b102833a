//! The frames of the list, and what goes with them.
ghost use Rattle.std.specs.Prelude.{◌≤◌, vec_len, IfOk};

use std::alloc::{AllocError, Global};
use vmx_ends::{MAX_PIECE, RxMeta, TxMark};
use vmx_layout::DATA_ENTRY_SIZE;

/// How many frames go through each queue.
pub(crate) const FRAMES: u64 = 48;

/// The bytes of a frame that fills a data entry, and of one that fills a data entry and a buffer of 4,096 bytes.
const IN_ENTRY: usize = DATA_ENTRY_SIZE as usize;

const IN_BOTH: usize = DATA_ENTRY_SIZE as usize + MAX_PIECE as usize;

/// A frame's bytes go round with so many values, and begin with so much more in each further frame.
const VALUES: u64 = 251;

const STEP: u64 = 7;

/// The bytes of the frame with this number.
pub(crate) fn length_of(number: u64) -> usize
    ensures least { 60 ≤ result }
    ensures most { result ≤ 9014 }
{
    match number % 5 {
        0 => 60,
        1 => 9_014,
        2 => 1_514,
        3 => IN_ENTRY,
        _ => IN_BOTH,
    }
}

/// The frame with this number: its byte k is k + 7 times the number, modulo 251.
pub(crate) fn frame_of(alloc: Global, number: u64) -> Result<Vec<u8>, AllocError>
    requires number { number ≤ 1000 }
    ensures least { IfOk result (λ v. 60 ≤ vec_len v) }
    ensures most { IfOk result (λ v. vec_len v ≤ 9014) }
{
    let count = length_of(number);
    let mut frame = Vec::from_elem(alloc, 0u8, count)?;
    for place in 0..count {
        frame[place] = ((place as u64 + STEP * number) % VALUES) as u8;
    }
    Ok(frame)
}

/// The mark of the frame with this number: none, a tag, a checksum, or a tag and TSO.
pub(crate) fn mark_of(number: u64) -> TxMark {
    match number % 4 {
        0 => TxMark::plain(),
        1 => TxMark {
            tci: Some(0x2064),
            om: 0,
            hlen: 0,
            msscof: 0,
        },
        2 => TxMark {
            tci: None,
            om: 2,
            hlen: 34,
            msscof: 50,
        },
        _ => TxMark {
            tci: Some(0xE00A),
            om: 3,
            hlen: 54,
            msscof: 1_448,
        },
    }
}

/// The hash, its kind and the tag of the frame with this number.
pub(crate) fn meta_of(number: u64) -> RxMeta {
    match number % 4 {
        0 => RxMeta {
            hash: 0,
            kind: 0,
            tci: None,
        },
        1 => RxMeta {
            hash: 0x51CC_C178,
            kind: 2,
            tci: Some(0x2064),
        },
        2 => RxMeta {
            hash: 0xC626_B0EA,
            kind: 1,
            tci: None,
        },
        _ => RxMeta {
            hash: 0x4020_7D3D,
            kind: 4,
            tci: Some(0xE00A),
        },
    }
}
