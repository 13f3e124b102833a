//! The capture that a run reads: at most 67,108,864 bytes, and at most 262,144 records.
//!
//! Once the records are read, nobody reads the file's bytes any more: their memory is handed on as room.
ghost use Rattle.std.specs.Prelude.{◌≡◌, IfOk};
ghost use Rattle.vmx_pair_plan.specs.Plan.{Fits};
ghost use Rattle.vmx_tool.specs.Ends.{Loaded, LoadedCounts};

use std::alloc::Global;
use vmx_io::{Bytes, Load, Shelf};
use vmx_model::{MAX_BYTES, MAX_RECORDS};
use vmx_pcap::{Capture, CaptureFault};

/// A capture, and the memory that held its file.
#[derive(Drop)]
pub struct ReadCapture {
    pub capture: Capture,
    pub room: Bytes,
}

/// Why there is no capture.
#[derive(Clone, Copy, Debug, PartialEq, Eq)]
pub enum Stop {
    /// The shelf failed to read.
    Failed,
    /// The file is longer than the limit.
    TooLong,
    /// The file is no capture that is read, by the first check that fails. It is never want of memory.
    Capture { fault: CaptureFault },
    /// No memory was found.
    NoMemory,
}

/// Loads a file and reads the capture that it holds.
#[tactic(auto, using(vmx_pair_plan::proofs::Sizes::within_bytes, vmx_pcap::specs::Unique::shown_fault))]
pub fn load_capture<S: Shelf>(alloc: Global, from: &str, shelf: &mut S) -> Result<ReadCapture, Stop>
    ensures fits { IfOk result (λ read. Fits read.capture) }
    ensures content { Loaded result from.now (S.files shelf.old) }
    ensures reads { LoadedCounts result (S.read_faults shelf.old) (S.read_faults shelf.new) }
    ensures files { S.files shelf.new ≡ S.files shelf.old }
    ensures writes { S.write_faults shelf.new ≡ S.write_faults shelf.old }
{
    let bytes = match shelf.load(alloc, from, MAX_BYTES as u64) {
        Load::Bytes { bytes } => bytes,
        Load::Failed => return Err(Stop::Failed),
        Load::TooLong => return Err(Stop::TooLong),
        Load::NoMemory => return Err(Stop::NoMemory),
    };
    match vmx_pcap::read(alloc, bytes.as_slice(), MAX_RECORDS as u32) {
        Ok(capture) => Ok(ReadCapture {
            capture,
            room: bytes,
        }),
        Err(CaptureFault::Memory) => Err(Stop::NoMemory),
        Err(fault) => Err(Stop::Capture { fault }),
    }
}
