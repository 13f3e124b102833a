//! A capture through one transmit queue of 32 descriptors: the capture that is saved, the line, and the queue's facts.
ghost use Rattle.std.specs.Prelude.{◌≤◌, length, IfOk};
ghost use Rattle.std.specs.String.{string_bytes};
ghost use Rattle.vmx_txq.specs.Ends.{facts_view};
ghost use Rattle.vmx_offload.specs.Filling.{Fills};

use crate::lines;
use std::alloc::{AllocError, Global};
use vmx_ends::QueueName;
use vmx_io::Bytes;
use vmx_offload_queue::{MAX_RECORDS, fill_all};
use vmx_pcap::Capture;
use vmx_txq::{TxFacts, make, meet};

/// The descriptors of the queue (own to this project).
pub const QUEUE_SIZE: u32 = 32;

/// The bytes of a piece (own to this project).
pub const PIECE: u32 = 4_096;

/// The capture that is saved, the line that is written, and what is known of the queue.
#[derive(Drop)]
pub struct FilledCapture {
    pub file: Bytes,
    pub line: String,
    pub facts: TxFacts,
}

/// Sends the frames of a capture with a TCP segment through the queue, and fills in their checksums. What is saved is written
/// into the memory of `room`.
pub fn fill_capture(
    alloc: Global,
    capture: Capture,
    room: Bytes,
) -> Result<FilledCapture, AllocError>
    requires few { length capture.records ≤ MAX_RECORDS }
    ensures fills { IfOk result (λ x. Fills capture x.file (string_bytes x.line) (facts_view x.facts)) }
{
    let name = QueueName {
        guest: 0,
        activation: 0,
        queue: 0,
    };
    let (mut driver, mut device) = make(alloc, name, QUEUE_SIZE, PIECE, false)?;
    let Capture { records, tail } = capture;
    let filled = fill_all(alloc, &mut driver, &mut device, records)?;
    let line = lines::filled(alloc, filled.counts, tail)?;
    let file = vmx_pcap::write_over(room, filled.records.as_slice())?;
    let facts = meet(driver, device);
    Ok(FilledCapture { file, line, facts })
}
