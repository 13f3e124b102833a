//! The top call: words, load and reading of the capture, replay, save, summary, in this order.
//!
//! The first fault decides the status. Every fault's line, and the summary, is one write to the console; a failure of
//! a line's write changes no status, and want of memory for a line makes it `NoMemory`.
ghost use Rattle.std.specs.Prelude.{◌≡◌, ◌≤◌, map, length, List, ◌<◌, ℕ, Option, Some, None, false};
ghost use Rattle.std.specs.String.{string_bytes};
ghost use Rattle.vmx_io.specs.Outside.{Files, content, Rose};
ghost use Rattle.vmx_pcap.specs.Faults.{fault_at};
ghost use Rattle.vmx_tool.specs.Words.{pair_of, asks_threads};
ghost use Rattle.vmx_tool.specs.Ends.{Ends, EndsAt, EndsAtOneOf, HoldsCapture, Finishes, Refuses, SaysNoMemory, status_of, world};

use crate::gate::Gate;
use crate::lines;
use crate::load::{Stop, load_capture};
use crate::status::{Outcome, Status};
use crate::words::pair_names;
use std::alloc::{AllocError, Global};
use vmx_io::{Console, Save, Shelf};
use vmx_model::{MAX_BYTES, MAX_RECORDS};
use vmx_pair::{Record, Replayed, replay};
use vmx_pcap::{CaptureFault, Stamped};

/// Does what the words ask for. It returns, and calls no gate yet.
#[tactic(auto, using(crate::proofs::Threads::no_threads))]
pub fn run<S: Shelf, C: Console, G: Gate + Sync>(
    alloc: Global,
    words: &[String],
    shelf: &mut S,
    console: &mut C,
    _gate: &G,
) -> Outcome
    // What each status says, and what stands then.
    ensures ends { Ends result.status result.account (map string_bytes words.now)
        (world S.files S.read_faults S.write_faults C.text C.faults shelf.old console.old)
        (world S.files S.read_faults S.write_faults C.text C.faults shelf.new console.new) }

    // When each refusal comes, where the files are told. Want of memory is free.
    ensures usage { pair_of (map string_bytes words.now) ≡ None → EndsAt result.status Status.Usage }
    ensures too_long { (from to : List ℕ) (files : Files) → pair_of (map string_bytes words.now) ≡ Some (from, to) → S.files shelf.old ≡ Some files
        → MAX_BYTES < length (content files from) → EndsAtOneOf result.status Status.TooLong Status.ReadFault }
    ensures capture { (from to : List ℕ) (files : Files) (e : CaptureFault) → pair_of (map string_bytes words.now) ≡ Some (from, to) → S.files shelf.old ≡ Some files
        → length (content files from) ≤ MAX_BYTES → fault_at (content files from) MAX_RECORDS ≡ Some e → EndsAtOneOf result.status Status.Capture Status.ReadFault }

    // A run without a fault is `Ok`, but for want of memory.
    ensures complete { (from to : List ℕ) (files : Files) (records : List Stamped) (tail : ℕ) → pair_of (map string_bytes words.now) ≡ Some (from, to) → S.files shelf.old ≡ Some files
        → HoldsCapture (content files from) records tail → length records ≤ MAX_RECORDS
        → (Rose (S.read_faults shelf.old) (S.read_faults shelf.new) → ⊥) → (Rose (S.write_faults shelf.old) (S.write_faults shelf.new) → ⊥) → (Rose (C.faults console.old) (C.faults console.new) → ⊥)
        → EndsAt result.status Status.Ok }
{
    run_serial(alloc, words, shelf, console)
}

/// Does what the words ask for, in one thread.
#[tactic(auto, using(crate::proofs::Only::usage_only, crate::proofs::Only::too_long_only, crate::proofs::Only::capture_only))]
pub fn run_serial<S: Shelf, C: Console>(
    alloc: Global,
    words: &[String],
    shelf: &mut S,
    console: &mut C,
) -> Outcome
    // `wants_threads` tells.
    requires threads { asks_threads (map string_bytes words.now) ≡ false }

    // What each status says, and what stands then.
    ensures ends { Ends result.status result.account (map string_bytes words.now)
        (world S.files S.read_faults S.write_faults C.text C.faults shelf.old console.old)
        (world S.files S.read_faults S.write_faults C.text C.faults shelf.new console.new) }

    // When each refusal comes, where the files are told. Want of memory is free.
    ensures usage { pair_of (map string_bytes words.now) ≡ None → EndsAt result.status Status.Usage }
    ensures too_long { (from to : List ℕ) (files : Files) → pair_of (map string_bytes words.now) ≡ Some (from, to) → S.files shelf.old ≡ Some files
        → MAX_BYTES < length (content files from) → EndsAtOneOf result.status Status.TooLong Status.ReadFault }
    ensures capture { (from to : List ℕ) (files : Files) (e : CaptureFault) → pair_of (map string_bytes words.now) ≡ Some (from, to) → S.files shelf.old ≡ Some files
        → length (content files from) ≤ MAX_BYTES → fault_at (content files from) MAX_RECORDS ≡ Some e → EndsAtOneOf result.status Status.Capture Status.ReadFault }

    // A run without a fault is `Ok`, but for want of memory.
    ensures complete { (from to : List ℕ) (files : Files) (records : List Stamped) (tail : ℕ) → pair_of (map string_bytes words.now) ≡ Some (from, to) → S.files shelf.old ≡ Some files
        → HoldsCapture (content files from) records tail → length records ≤ MAX_RECORDS
        → (Rose (S.read_faults shelf.old) (S.read_faults shelf.new) → ⊥) → (Rose (S.write_faults shelf.old) (S.write_faults shelf.new) → ⊥) → (Rose (C.faults console.old) (C.faults console.new) → ⊥)
        → EndsAt result.status Status.Ok }
{
    run_pair(alloc, words, shelf, console)
}

/// Does what the words ask for; the clauses on when each status comes follow from this one.
fn run_pair<S: Shelf, C: Console>(
    alloc: Global,
    words: &[String],
    shelf: &mut S,
    console: &mut C,
) -> Outcome
    ensures ends { Ends result.status result.account (map string_bytes words.now)
        (world S.files S.read_faults S.write_faults C.text C.faults shelf.old console.old)
        (world S.files S.read_faults S.write_faults C.text C.faults shelf.new console.new) }
{
    let Some((from, to)) = pair_names(words) else {
        return refuse(console, Status::Usage, None, lines::usage(alloc));
    };
    let read = match load_capture(alloc, from, shelf) {
        Ok(read) => read,
        Err(stop) => {
            return refuse(
                console,
                stop_status(stop),
                None,
                lines::stop_line(alloc, stop, from),
            );
        }
    };
    match replay(alloc, read.capture, read.room) {
        Ok(replayed) => finish(alloc, to, replayed, shelf, console),
        Err(_) => out_of_memory(console, None),
    }
}

/// Saves the file and writes the summary.
fn finish<S: Shelf, C: Console>(
    alloc: Global,
    to: &str,
    replayed: Replayed,
    shelf: &mut S,
    console: &mut C,
) -> Outcome
    ensures ends { Finishes result.status to.now replayed.file (string_bytes replayed.summary)
        (world S.files S.read_faults S.write_faults C.text C.faults shelf.old console.old)
        (world S.files S.read_faults S.write_faults C.text C.faults shelf.new console.new) }
    ensures reads { S.read_faults shelf.new ≡ S.read_faults shelf.old }
    ensures account { result.account ≡ Some replayed.record }
{
    let Replayed {
        record,
        file,
        summary,
    } = replayed;
    match shelf.save(alloc, to, file.as_slice()) {
        Save::Done => {}
        Save::Failed => {
            return refuse(
                console,
                Status::WriteFault,
                Some(record),
                lines::write_fault(alloc, to),
            );
        }
        Save::NoMemory => return out_of_memory(console, Some(record)),
    }
    match console.write(summary.as_bytes()) {
        Save::Done => Outcome {
            status: Status::Ok,
            account: Some(record),
        },
        Save::Failed => refuse(
            console,
            Status::WriteFault,
            Some(record),
            lines::write_fault(alloc, "console"),
        ),
        Save::NoMemory => out_of_memory(console, Some(record)),
    }
}

/// The status of a capture that is not there.
fn stop_status(stop: Stop) -> Status
    ensures status { result ≡ status_of stop }
{
    match stop {
        Stop::Failed => Status::ReadFault,
        Stop::TooLong => Status::TooLong,
        Stop::Capture { .. } => Status::Capture,
        Stop::NoMemory => Status::NoMemory,
    }
}

/// Writes a fault's line, or that no memory was found for it.
fn refuse<C: Console>(
    console: &mut C,
    status: Status,
    account: Option<Record>,
    line: Result<String, AllocError>,
) -> Outcome
    ensures line { Refuses string_bytes line status result (C.text console.old) (C.text console.new) (C.faults console.old) (C.faults console.new) }
    ensures account { result.account ≡ account }
{
    let Ok(line) = line else {
        return out_of_memory(console, account);
    };
    match console.write(line.as_bytes()) {
        Save::Done | Save::Failed => Outcome { status, account },
        Save::NoMemory => out_of_memory(console, account),
    }
}

/// Writes that no memory was found, for which it takes none.
#[tactic(auto, using(crate::proofs::Said::part_of_write, crate::proofs::Said::never_falls), unfolding(crate::specs::Lines::memory_line))]
fn out_of_memory<C: Console>(console: &mut C, account: Option<Record>) -> Outcome
    ensures status { result.status ≡ Status.NoMemory }
    ensures line { SaysNoMemory (C.text console.old) (C.text console.new) (C.faults console.old) (C.faults console.new) }
    ensures account { result.account ≡ account }
{
    let _ = console.write(b"no memory\n");
    Outcome {
        status: Status::NoMemory,
        account,
    }
}
