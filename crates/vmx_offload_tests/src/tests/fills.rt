//! What comes out of `fill`: OUT byte for byte, the line, how many frames went through the queue.

use crate::captures::{capture, front};
use crate::frames::{ARP, BARE, BARE_FILLED, LONG, LONGEST, SHORT};
use crate::runs::fill;
use std::alloc::{AllocError, Global};
use std::test::Fail;

/// Captured frames, the bytes that are cut off behind them, the console's text, and how many frames are sent.
type Run = (&'static [&'static [u8]], usize, &'static str, u64);

/// A run and the frames that come out.
type Row = (Run, &'static [&'static [u8]]);

const ROWS: [Row; 5] = [
    (
        (&[&BARE], 0, "filled 1 left 0 long 0 tail 0\n", 1),
        &[&BARE_FILLED],
    ),
    (
        (
            &[&ARP, &SHORT, &LONG],
            0,
            "filled 0 left 2 long 1 tail 0\n",
            0,
        ),
        &[&ARP, &SHORT],
    ),
    ((&[], 0, "filled 0 left 0 long 0 tail 0\n", 0), &[]),
    (
        (
            &[&BARE_FILLED, &LONGEST, &BARE],
            0,
            "filled 2 left 1 long 0 tail 0\n",
            2,
        ),
        &[&BARE_FILLED, &LONGEST, &BARE_FILLED],
    ),
    (
        (&[&BARE, &ARP], 1, "filled 1 left 0 long 0 tail 57\n", 1),
        &[&BARE_FILLED],
    ),
];

/// A capture of these frames without its last bytes.
fn cut_capture(alloc: Global, frames: &[&[u8]], cut: usize) -> Result<Vec<u8>, AllocError> {
    let whole = capture(alloc, frames)?;
    front(alloc, whole.as_slice(), whole.len().saturating_sub(cut))
}

/// Whether OUT is there and holds these bytes.
fn holds(out: &Option<Vec<u8>>, bytes: &[u8]) -> bool {
    match out {
        Some(out) => out.as_slice() == bytes,
        None => false,
    }
}

/// Whether a run ends with 0 and leaves what its row says.
fn comes_out(alloc: Global, row: &Row) -> Result<bool, AllocError> {
    let ((captured, cut, text, sent), written) = row;
    let ended = fill(alloc, cut_capture(alloc, captured, *cut)?)?;
    let written_bytes = capture(alloc, written)?;
    Ok(
        ended.number == 0
            && ended.text.as_slice() == text.as_bytes()
            && holds(&ended.out, written_bytes.as_slice())
            && ended.through == Some([*sent; 4]),
    )
}

#[test]
fn frames_come_out_with_their_checksums(rt: HostRuntime) -> Result<(), Fail> {
    for row in &ROWS {
        assert!(rt; comes_out(rt.alloc(), row)?, "{}", row.0.2);
    }
    Ok(())
}

/// Whether 100 equal frames, more than the ring has descriptors, all go through.
fn all_go_through(alloc: Global, frame: &'static [u8], sent: u64) -> Result<bool, AllocError> {
    let ended = fill(alloc, capture(alloc, &[frame; 100])?)?;
    Ok(ended.number == 0 && ended.through == Some([sent; 4]))
}

#[test]
fn a_ring_is_gone_round_more_than_once(rt: HostRuntime) -> Result<(), Fail> {
    assert!(rt; all_go_through(rt.alloc(), &BARE, 100)?);
    assert!(rt; all_go_through(rt.alloc(), &ARP, 0)?);
    Ok(())
}
