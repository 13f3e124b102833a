//! Texts of configurations that differ from a lawful one in a few lines.

use std::alloc::{AllocError, Global};

/// A guest with a name and an address, and these lines.
pub fn guest(alloc: Global, lines: &str) -> Result<String, AllocError> {
    format!(in alloc; "[[guest]]\nname = \"a\"\nmac = \"00:50:56:00:00:01\"\n{lines}\n")
}

/// A guest whose script has one action of these lines.
pub fn script(alloc: Global, lines: &str) -> Result<String, AllocError> {
    format!(in alloc;
        "[[guest]]\nname = \"a\"\nmac = \"00:50:56:00:00:01\"\n[[guest.script]]\n{lines}\n"
    )
}

/// A text with a piece of it so many times in its middle.
pub fn repeated(
    alloc: Global,
    before: &str,
    piece: &str,
    count: usize,
    after: &str,
) -> Result<String, AllocError> {
    let mut text = String::from_str(alloc, before)?;
    for _ in 0..count {
        text.push_str(piece)?;
    }
    text.push_str(after)?;
    Ok(text)
}
