//! `rings FILE`: the words and buffers of both queues after a fixed list of calls, for `bench/rings.py`.

use anyhow::{Result, bail};
use std::fs;
use std::rt::Files;
use vmx_ring_samples::put_rings;

/// Writes them into the file.
pub fn write(rt: &(impl Files + AllocGlobal), path: &str) -> Result<()> {
    let mut bytes = Vec::new(rt.alloc());
    if !put_rings(rt.alloc(), &mut bytes)? {
        bail!("a queue lost a frame");
    }
    fs::write(rt, path, bytes.as_slice())?;
    Ok(())
}
