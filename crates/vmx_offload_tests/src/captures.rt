//! Captures that are built byte by byte, and the words and files of a run.

use std::alloc::{AllocError, Global};
use vmx_io::{Bytes, File, List, Text};

/// The header of a capture: little-endian, microseconds, version 2.4, snap length 65,535, Ethernet.
const HEADER: [u8; 24] = [
    0xd4, 0xc3, 0xb2, 0xa1, 2, 0, 4, 0, 0, 0, 0, 0, 0, 0, 0, 0, 0xff, 0xff, 0, 0, 1, 0, 0, 0,
];

/// A capture with no record yet.
pub(crate) fn no_records(alloc: Global) -> Result<Vec<u8>, AllocError> {
    Vec::from_slice(alloc, &HEADER)
}

/// Puts a record of fewer than 65,536 bytes behind, captured 7 microseconds after this second.
pub(crate) fn push_record(out: &mut Vec<u8>, second: u32, frame: &[u8]) -> Result<(), AllocError> {
    let len = (frame.len() % 65_536) as u32;
    out.extend_from_slice(&second.to_le_bytes())?;
    out.extend_from_slice(&7u32.to_le_bytes())?;
    out.extend_from_slice(&len.to_le_bytes())?;
    out.extend_from_slice(&len.to_le_bytes())?;
    out.extend_from_slice(frame)
}

/// A capture of these frames, captured in the seconds 100, 101 and so on.
pub(crate) fn capture(alloc: Global, frames: &[&[u8]]) -> Result<Vec<u8>, AllocError> {
    let mut out = no_records(alloc)?;
    let mut second = 100u32;
    for frame in frames {
        push_record(&mut out, second, frame)?;
        second = second.wrapping_add(1);
    }
    Ok(out)
}

/// The first `len` of these bytes.
pub(crate) fn front(alloc: Global, bytes: &[u8], len: usize) -> Result<Vec<u8>, AllocError> {
    let mut out = Vec::from_slice(alloc, bytes)?;
    out.truncate(len);
    Ok(out)
}

/// The words of a line, each of which ends at a space.
pub(crate) fn words_of(alloc: Global, line: &str) -> Result<Vec<String>, AllocError> {
    let mut words = Vec::new(alloc);
    if !line.is_empty() {
        for word in line.split(' ') {
            words.push(String::from_str(alloc, word)?)?;
        }
    }
    Ok(words)
}

/// The one file `in`.
pub(crate) fn files_of(alloc: Global, bytes: Vec<u8>) -> Result<List<File>, AllocError> {
    let mut files = Vec::new(alloc);
    files.push(File {
        name: Text::from_str(alloc, "in")?,
        bytes: Bytes::of(bytes),
    })?;
    Ok(List::of(files))
}
