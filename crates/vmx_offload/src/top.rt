//! The top call: words, load and reading of the capture, the queue, save, line, in this order.
//!
//! The first fault decides the status. Every fault's line, and the line of what was filled, is one write to the console; a
//! failure of a fault's line changes no status, and want of memory for a line makes it `NoMemory`.
ghost use Rattle.std.specs.Prelude.{◌≡◌, ◌≤◌, map, length, List, ◌<◌, ℕ, Some, None};
ghost use Rattle.std.specs.String.{string_bytes};
ghost use Rattle.std.specs.Option.{option_map};
ghost use Rattle.vmx_io.specs.Outside.{Files, content, Rose};
ghost use Rattle.vmx_pcap.specs.Faults.{fault_at};
ghost use Rattle.vmx_txq.specs.Ends.{facts_view};
ghost use Rattle.vmx_offload.specs.Words.{fill_of};
ghost use Rattle.vmx_offload.specs.Ends.{Ends, EndsAt, EndsAtOneOf, HoldsCapture, Finishes, Refuses, SaysNoMemory, status_of, world};

use crate::filled::{FilledCapture, fill_capture};
use crate::lines;
use crate::load::{MAX_BYTES, Stop, load_capture};
use crate::status::{OffloadOutcome, OffloadStatus};
use crate::words::fill_names;
use std::alloc::{AllocError, Global};
use vmx_io::{Console, Save, Shelf};
use vmx_offload_queue::MAX_RECORDS;
use vmx_pcap::{CaptureFault, Stamped};

/// Does what the words ask for. It returns.
#[tactic(auto, using(crate::proofs::Only::usage_only, crate::proofs::Only::too_long_only, crate::proofs::Only::capture_only))]
pub fn run_offload<S: Shelf, C: Console>(
    alloc: Global,
    words: &[String],
    shelf: &mut S,
    console: &mut C,
) -> OffloadOutcome
    // What each status says, and what stands then.
    ensures ends { Ends result.status (option_map facts_view result.facts) (map string_bytes words.now)
        (world S.files S.read_faults S.write_faults C.text C.faults shelf.old console.old)
        (world S.files S.read_faults S.write_faults C.text C.faults shelf.new console.new) }

    // When each refusal comes, where the files are told. Want of memory is free.
    ensures usage { fill_of (map string_bytes words.now) ≡ None → EndsAt result.status OffloadStatus.Usage }
    ensures too_long { (from to : List ℕ) (files : Files) → fill_of (map string_bytes words.now) ≡ Some (from, to) → S.files shelf.old ≡ Some files
        → MAX_BYTES < length (content files from) → EndsAtOneOf result.status OffloadStatus.TooLong OffloadStatus.ReadFault }
    ensures capture { (from to : List ℕ) (files : Files) (e : CaptureFault) → fill_of (map string_bytes words.now) ≡ Some (from, to) → S.files shelf.old ≡ Some files
        → length (content files from) ≤ MAX_BYTES → fault_at (content files from) MAX_RECORDS ≡ Some e → EndsAtOneOf result.status OffloadStatus.Capture OffloadStatus.ReadFault }

    // A run without a fault is `Ok`, but for want of memory.
    ensures complete { (from to : List ℕ) (files : Files) (records : List Stamped) (tail : ℕ) → fill_of (map string_bytes words.now) ≡ Some (from, to) → S.files shelf.old ≡ Some files
        → HoldsCapture (content files from) records tail → length records ≤ MAX_RECORDS
        → (Rose (S.read_faults shelf.old) (S.read_faults shelf.new) → ⊥) → (Rose (S.write_faults shelf.old) (S.write_faults shelf.new) → ⊥) → (Rose (C.faults console.old) (C.faults console.new) → ⊥)
        → EndsAt result.status OffloadStatus.Ok }
{
    run_fill(alloc, words, shelf, console)
}

/// Does what the words ask for; the clauses on when each status comes follow from this one.
fn run_fill<S: Shelf, C: Console>(
    alloc: Global,
    words: &[String],
    shelf: &mut S,
    console: &mut C,
) -> OffloadOutcome
    ensures ends { Ends result.status (option_map facts_view result.facts) (map string_bytes words.now)
        (world S.files S.read_faults S.write_faults C.text C.faults shelf.old console.old)
        (world S.files S.read_faults S.write_faults C.text C.faults shelf.new console.new) }
{
    let Some((from, to)) = fill_names(words) else {
        return refuse(console, OffloadStatus::Usage, lines::usage(alloc));
    };
    let read = match load_capture(alloc, from, shelf) {
        Ok(read) => read,
        Err(stop) => {
            return refuse(
                console,
                stop_status(stop),
                lines::stop_line(alloc, stop, from),
            );
        }
    };
    match fill_capture(alloc, read.capture, read.room) {
        Ok(filled) => finish(alloc, to, filled, shelf, console),
        Err(_) => out_of_memory(console),
    }
}

/// Saves the file and writes the line.
fn finish<S: Shelf, C: Console>(
    alloc: Global,
    to: &str,
    filled: FilledCapture,
    shelf: &mut S,
    console: &mut C,
) -> OffloadOutcome
    ensures ends { Finishes result.status to.now filled.file (string_bytes filled.line) (facts_view filled.facts) (option_map facts_view result.facts)
        (world S.files S.read_faults S.write_faults C.text C.faults shelf.old console.old)
        (world S.files S.read_faults S.write_faults C.text C.faults shelf.new console.new) }
    ensures reads { S.read_faults shelf.new ≡ S.read_faults shelf.old }
{
    let FilledCapture { file, line, facts } = filled;
    match shelf.save(alloc, to, file.as_slice()) {
        Save::Done => {}
        Save::Failed => {
            return refuse(
                console,
                OffloadStatus::WriteFault,
                lines::write_fault(alloc, to),
            );
        }
        Save::NoMemory => return out_of_memory(console),
    }
    match console.write(line.as_bytes()) {
        Save::Done => OffloadOutcome {
            status: OffloadStatus::Ok,
            facts: Some(facts),
        },
        Save::Failed => refuse(
            console,
            OffloadStatus::WriteFault,
            lines::write_fault(alloc, "console"),
        ),
        Save::NoMemory => out_of_memory(console),
    }
}

/// The status of a capture that is not there.
fn stop_status(stop: Stop) -> OffloadStatus
    ensures status { result ≡ status_of stop }
{
    match stop {
        Stop::Failed => OffloadStatus::ReadFault,
        Stop::TooLong => OffloadStatus::TooLong,
        Stop::Capture { .. } => OffloadStatus::Capture,
        Stop::NoMemory => OffloadStatus::NoMemory,
    }
}

/// Writes a fault's line, or that no memory was found for it.
fn refuse<C: Console>(
    console: &mut C,
    status: OffloadStatus,
    line: Result<String, AllocError>,
) -> OffloadOutcome
    ensures line { Refuses string_bytes line status result.status (C.text console.old) (C.text console.new) (C.faults console.old) (C.faults console.new) }
    ensures facts { option_map facts_view result.facts ≡ None }
{
    let Ok(line) = line else {
        return out_of_memory(console);
    };
    match console.write(line.as_bytes()) {
        Save::Done | Save::Failed => OffloadOutcome {
            status,
            facts: None,
        },
        Save::NoMemory => out_of_memory(console),
    }
}

/// Writes that no memory was found, for which it takes none.
#[tactic(auto, using(crate::proofs::Said::part_of_write, crate::proofs::Said::never_falls), unfolding(crate::specs::Lines::memory_line))]
fn out_of_memory<C: Console>(console: &mut C) -> OffloadOutcome
    ensures status { result.status ≡ OffloadStatus.NoMemory }
    ensures line { SaysNoMemory (C.text console.old) (C.text console.new) (C.faults console.old) (C.faults console.new) }
    ensures facts { option_map facts_view result.facts ≡ None }
{
    let _ = console.write(b"no memory\n");
    OffloadOutcome {
        status: OffloadStatus::NoMemory,
        facts: None,
    }
}
