//! `samples FILE`: two images, and words of descriptors and completions with their fields.
//!
//! Each line is the name of a struct, its two words, and its fields in the struct's order, all in hexadecimal;
//! the line of an image has its 8,192 bytes. `bench/samples.c` reads the words with bit fields in C.

mod image;
mod rx;
mod tx;

use std::alloc::AllocError;
use std::rt::Files;
use std::{fs, io};

/// Writes the samples into the file.
pub fn write(rt: &(impl Files + AllocGlobal), path: &str) -> io::Result<()> {
    let mut text = String::new(rt.alloc());
    image::put(rt.alloc(), &mut text)?;
    tx::put_descs(rt.alloc(), &mut text)?;
    tx::put_comps(rt.alloc(), &mut text)?;
    rx::put_descs(rt.alloc(), &mut text)?;
    rx::put_comps(rt.alloc(), &mut text)?;
    fs::write(rt, path, text.as_str())
}

/// One line: the name, the words and the fields.
fn put_line(
    text: &mut String,
    name: &str,
    words: [u64; 2],
    fields: &[u64],
) -> Result<(), AllocError> {
    let [first, second] = words;
    write!(text, "{name} {first:016x} {second:016x}")?;
    for field in fields {
        write!(text, " {field:x}")?;
    }
    text.push_str("\n")
}

/// A line for words that were refused, which no sample is.
fn put_fault(text: &mut String, name: &str, words: [u64; 2]) -> Result<(), AllocError> {
    let [first, second] = words;
    writeln!(text, "{name} {first:016x} {second:016x} refused")
}
