//! Captures that are built byte by byte, and the words and files of a run.

use std::alloc::{AllocError, Global};
use vmx_io::{Bytes, File, List, Text};

/// The header of a capture: little-endian, microseconds, version 2.4, snap length 65,535, Ethernet.
const HEADER: [u8; 24] = [
    0xd4, 0xc3, 0xb2, 0xa1, 2, 0, 4, 0, 0, 0, 0, 0, 0, 0, 0, 0, 0xff, 0xff, 0, 0, 1, 0, 0, 0,
];

/// A captured frame: its second, the byte that fills it, its length.
pub(crate) type Filled = (u32, u8, u32);

/// A capture of these frames, each 7 microseconds after its second.
pub(crate) fn capture(alloc: Global, frames: &[Filled]) -> Result<Vec<u8>, AllocError> {
    let mut out = Vec::from_slice(alloc, &HEADER)?;
    for (second, fill, len) in frames {
        out.extend_from_slice(&second.to_le_bytes())?;
        out.extend_from_slice(&7u32.to_le_bytes())?;
        out.extend_from_slice(&len.to_le_bytes())?;
        out.extend_from_slice(&len.to_le_bytes())?;
        for _ in 0..*len {
            out.push(*fill)?;
        }
    }
    Ok(out)
}

/// The first `len` of these bytes.
pub(crate) fn front(alloc: Global, bytes: &[u8], len: usize) -> Result<Vec<u8>, AllocError> {
    let mut out = Vec::from_slice(alloc, bytes)?;
    out.truncate(len);
    Ok(out)
}

/// The words of a line, each of which ends at a space.
pub(crate) fn words_of(alloc: Global, line: &str) -> Result<Vec<String>, AllocError> {
    let mut words = Vec::new(alloc);
    if !line.is_empty() {
        for word in line.split(' ') {
            words.push(String::from_str(alloc, word)?)?;
        }
    }
    Ok(words)
}

/// The one file `in`.
pub(crate) fn files_of(alloc: Global, bytes: Vec<u8>) -> Result<List<File>, AllocError> {
    let mut files = Vec::new(alloc);
    files.push(File {
        name: Text::from_str(alloc, "in")?,
        bytes: Bytes::of(bytes),
    })?;
    Ok(List::of(files))
}
