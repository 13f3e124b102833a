//! The line of what was filled, and those of faults; each ends with a line feed. Own to this project.
ghost use Rattle.std.specs.Prelude.{◌≡◌, IfOk};
ghost use Rattle.std.specs.String.{string_bytes};
ghost use Rattle.vmx_offload.specs.Lines.{header_line, magic_line, version_line, link_line, long_line, many_line, capture_line, too_long_line, read_line, write_line, usage_lines, memory_line, line_of, filled_line};

use crate::load::Stop;
use std::alloc::{AllocError, Global};
use vmx_offload_queue::Counts;
use vmx_pcap::CaptureFault;

/// The line of a capture that is not there.
pub fn stop_line(alloc: Global, stop: Stop, name: &str) -> Result<String, AllocError>
    ensures line { IfOk result (λ s. string_bytes s ≡ line_of stop name.now) }
{
    match stop {
        Stop::Failed => read_fault(alloc, name),
        Stop::TooLong => too_long(alloc, name),
        Stop::Capture { fault } => capture_fault(alloc, name, fault),
        Stop::NoMemory => no_memory(alloc),
    }
}

/// The line of bytes that are no capture.
fn capture_fault(alloc: Global, name: &str, fault: CaptureFault) -> Result<String, AllocError>
    ensures line { IfOk result (λ s. string_bytes s ≡ capture_line fault name.now) }
{
    match fault {
        CaptureFault::Header { len } => header(alloc, name, len),
        CaptureFault::Magic { found } => magic(alloc, name, found),
        CaptureFault::Version { major, minor } => version(alloc, name, major, minor),
        CaptureFault::Link { found } => link(alloc, name, found),
        CaptureFault::Long { index, found } => long(alloc, name, index, found),
        CaptureFault::Many { index } => many(alloc, name, index),
        CaptureFault::Memory => no_memory(alloc),
    }
}

/// What has a meaning, of which `fill` is there.
#[tactic(auto, unfolding(crate::specs::Lines::usage_lines))]
pub fn usage(alloc: Global) -> Result<String, AllocError>
    ensures line { IfOk result (λ s. string_bytes s ≡ usage_lines) }
{
    String::from_str(
        alloc,
        "usage: vmxoffload fill IN OUT\n       vmxoffload segment IN OUT MSS\n",
    )
}

/// How many records had which fate, and the bytes of a cut last record.
#[tactic(auto, unfolding(crate::specs::Lines::filled_line))]
pub fn filled(alloc: Global, counts: Counts, tail: u32) -> Result<String, AllocError>
    ensures line { IfOk result (λ s. string_bytes s ≡ filled_line counts tail) }
{
    let Counts { filled, left, long } = counts;
    format!(in alloc; "filled {filled} left {left} long {long} tail {tail}\n")
}

/// The line of a file, or of the console, that could not be written.
#[tactic(auto, unfolding(crate::specs::Lines::write_line))]
pub fn write_fault(alloc: Global, name: &str) -> Result<String, AllocError>
    ensures line { IfOk result (λ s. string_bytes s ≡ write_line name.now) }
{
    format!(in alloc; "write fault: {name}\n")
}

#[tactic(auto, unfolding(crate::specs::Lines::read_line))]
fn read_fault(alloc: Global, name: &str) -> Result<String, AllocError>
    ensures line { IfOk result (λ s. string_bytes s ≡ read_line name.now) }
{
    format!(in alloc; "read fault: {name}\n")
}

#[tactic(auto, unfolding(crate::specs::Lines::too_long_line))]
fn too_long(alloc: Global, name: &str) -> Result<String, AllocError>
    ensures line { IfOk result (λ s. string_bytes s ≡ too_long_line name.now) }
{
    format!(in alloc; "too long: {name}\n")
}

#[tactic(auto, unfolding(crate::specs::Lines::header_line))]
fn header(alloc: Global, name: &str, len: u32) -> Result<String, AllocError>
    ensures line { IfOk result (λ s. string_bytes s ≡ header_line len name.now) }
{
    format!(in alloc; "capture {name}: header {len}\n")
}

#[tactic(auto, unfolding(crate::specs::Lines::magic_line))]
fn magic(alloc: Global, name: &str, found: u32) -> Result<String, AllocError>
    ensures line { IfOk result (λ s. string_bytes s ≡ magic_line found name.now) }
{
    format!(in alloc; "capture {name}: magic 0x{found:08x}\n")
}

#[tactic(auto, unfolding(crate::specs::Lines::version_line))]
fn version(alloc: Global, name: &str, major: u16, minor: u16) -> Result<String, AllocError>
    ensures line { IfOk result (λ s. string_bytes s ≡ version_line major minor name.now) }
{
    format!(in alloc; "capture {name}: version {major} {minor}\n")
}

#[tactic(auto, unfolding(crate::specs::Lines::link_line))]
fn link(alloc: Global, name: &str, found: u32) -> Result<String, AllocError>
    ensures line { IfOk result (λ s. string_bytes s ≡ link_line found name.now) }
{
    format!(in alloc; "capture {name}: link {found}\n")
}

#[tactic(auto, unfolding(crate::specs::Lines::long_line))]
fn long(alloc: Global, name: &str, index: u32, found: u32) -> Result<String, AllocError>
    ensures line { IfOk result (λ s. string_bytes s ≡ long_line index found name.now) }
{
    format!(in alloc; "capture {name}: record {index} length {found}\n")
}

#[tactic(auto, unfolding(crate::specs::Lines::many_line))]
fn many(alloc: Global, name: &str, index: u32) -> Result<String, AllocError>
    ensures line { IfOk result (λ s. string_bytes s ≡ many_line index name.now) }
{
    format!(in alloc; "capture {name}: record {index} too many\n")
}

#[tactic(auto, unfolding(crate::specs::Lines::memory_line))]
fn no_memory(alloc: Global) -> Result<String, AllocError>
    ensures line { IfOk result (λ s. string_bytes s ≡ memory_line) }
{
    String::from_str(alloc, "no memory\n")
}
