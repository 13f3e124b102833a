//! Work for the scripts of `bench/`, which time what the crates do, or check what they give from outside. The first
//! word names the work and has a file of its own here, the second says how much of it, or where to write it.
//!
//! Without words the program does nothing and prints nothing.
#![tactic(auto)]

mod hash;
mod link;
mod place;
mod rings;
mod samples;

use anyhow::{Result, bail};
use std::env;
use vmx_queue_bench::{rx_queue, tx_queue};

const USAGE: &str = "usage: vmx_bench [samples FILE | rings FILE | hash N | link N | tx N | rx N]";

fn main(rt: HostRuntime) -> Result<()> {
    let mut words = env::args(&rt)?.skip(1);
    let Some(word) = words.next() else {
        return Ok(());
    };
    let Some(what) = words.next() else {
        bail!("{USAGE}");
    };
    match (word.as_str(), what.as_str().parse::<u32>()) {
        ("samples", _) => samples::write(&rt, what.as_str())?,
        ("rings", _) => rings::write(&rt, what.as_str())?,
        ("hash", Ok(count)) => {
            let all = hash::all_hashes(count);
            println!(rt; "{all}")?;
        }
        ("link", Ok(count)) => link::measure(&rt, rt.alloc(), count)?,
        ("tx", Ok(count)) => tx_queue::measure(&rt, rt.alloc(), count)?,
        ("rx", Ok(count)) => rx_queue::measure(&rt, rt.alloc(), count)?,
        _ => bail!("{USAGE}"),
    }
    Ok(())
}
