//! Each front of a capture, and bytes that are none.

use super::THREE;
use crate::captures::{capture, front};
use crate::runs::{pair, serial};
use std::alloc::{AllocError, Global};
use std::test::Fail;

/// The first line for a front of the three frames' capture. The whole records end at 24, 100, 1,630 and 1,706 bytes.
fn first_line(alloc: Global, len: usize) -> Result<String, AllocError> {
    if len < 24 {
        return format!(in alloc; "capture in: header {len}\n");
    }
    let (count, tail) = if len < 100 {
        (0, len - 24)
    } else if len < 1630 {
        (1, len - 100)
    } else if len < 1706 {
        (2, len - 1630)
    } else {
        (3, len - 1706)
    };
    format!(in alloc; "guests 2 captured {count} copies {count} tail {tail}\n")
}

/// Whether a run over the first `len` of these bytes ends with its number and line.
fn has_its_line(alloc: Global, whole: &[u8], len: usize) -> Result<bool, AllocError> {
    let number = if len < 24 { 4 } else { 0 };
    let line = first_line(alloc, len)?;
    serial(alloc, front(alloc, whole, len)?, number, line.as_str())
}

#[test]
fn each_front_of_a_capture_has_its_line(rt: HostRuntime) -> Result<(), Fail> {
    let whole = capture(rt.alloc(), &THREE)?;
    assert!(rt; whole.len() == 1706);
    for len in 0..=1706 {
        assert!(rt; has_its_line(rt.alloc(), whole.as_slice(), len)?, "{len}");
    }
    Ok(())
}

/// A byte of the three frames' capture, what stands there instead, and the line: magic number, version (major, minor), link type, a
/// captured length above 262,144.
const CHANGES: [(usize, u8, &str); 6] = [
    (0, 0xd5, "capture in: magic 0xd5c3b2a1\n"),
    (0, 0x04, "capture in: magic 0x04c3b2a1\n"),
    (4, 3, "capture in: version 3 4\n"),
    (6, 3, "capture in: version 2 3\n"),
    (20, 113, "capture in: link 113\n"),
    (34, 5, "capture in: record 0 length 327740\n"),
];

/// Whether the capture with this byte changed is refused with this line, with no record and without OUT.
fn is_refused(alloc: Global, index: usize, byte: u8, line: &str) -> Result<bool, AllocError> {
    let mut bytes = capture(alloc, &THREE)?;
    if let Some(place) = bytes.get_mut(index) {
        *place = byte;
    }
    let ended = pair(alloc, bytes)?;
    Ok(
        ended.number == 4
            && ended.text.as_slice() == line.as_bytes()
            && ended.out.is_none()
            && ended.account.is_none(),
    )
}

#[test]
fn what_is_no_capture_is_refused(rt: HostRuntime) -> Result<(), Fail> {
    for (index, byte, line) in &CHANGES {
        assert!(rt; is_refused(rt.alloc(), *index, *byte, line)?, "{index}");
    }
    Ok(())
}
