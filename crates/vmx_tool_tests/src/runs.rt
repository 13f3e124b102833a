//! Runs over files in memory, of which only what can be seen from outside is kept.

use crate::captures::{files_of, words_of};
use std::alloc::{AllocError, Global};
use vmx_io::{Console, FaultyConsole, FaultyShelf, List, Load, Shelf, SteadyConsole, SteadyShelf};
use vmx_tool::{NoGate, Outcome, Record, run, run_serial, wants_threads};

/// How `pair in out` ended: its number, the console's text, what stands under `out`, the record.
#[derive(Drop)]
pub(crate) struct Ended {
    pub number: u8,
    pub text: Vec<u8>,
    pub out: Option<Vec<u8>>,
    pub account: Option<Record>,
}

/// A run. Nothing is said of it: the tests look at what it left.
pub(crate) fn ran<S: Shelf, C: Console>(
    alloc: Global,
    words: &[String],
    shelf: &mut S,
    console: &mut C,
) -> Outcome {
    run(alloc, words, shelf, console, &NoGate)
}

/// A serial run of words that want no threads.
fn ran_serial<S: Shelf, C: Console>(
    alloc: Global,
    words: &[String],
    shelf: &mut S,
    console: &mut C,
) -> Option<Outcome> {
    if wants_threads(words) {
        return None;
    }
    Some(run_serial(alloc, words, shelf, console))
}

/// What stands under `out`, of at most 1,000,000 bytes.
fn saved(alloc: Global, shelf: &mut SteadyShelf) -> Option<Vec<u8>> {
    if !shelf.has("out") {
        return None;
    }
    match shelf.load(alloc, "out", 1_000_000) {
        Load::Bytes { bytes } => Some(bytes.into_vec()),
        _ => None,
    }
}

/// `pair in out` over these bytes as the file `in`.
pub(crate) fn pair(alloc: Global, bytes: Vec<u8>) -> Result<Ended, AllocError> {
    let words = words_of(alloc, "pair in out")?;
    let mut shelf = SteadyShelf::new(files_of(alloc, bytes)?);
    let mut console = SteadyConsole::new(alloc);
    let Outcome { status, account } = ran(alloc, &words, &mut shelf, &mut console);
    Ok(Ended {
        number: status.number(),
        text: Vec::from_slice(alloc, console.text())?,
        out: saved(alloc, &mut shelf),
        account,
    })
}

/// Whether a serial `pair in out` over these bytes ends with this number, with OUT there at 0 alone, and the console's text begins so.
pub(crate) fn serial(
    alloc: Global,
    bytes: Vec<u8>,
    number: u8,
    line: &str,
) -> Result<bool, AllocError> {
    let words = words_of(alloc, "pair in out")?;
    let mut shelf = SteadyShelf::new(files_of(alloc, bytes)?);
    let mut console = SteadyConsole::new(alloc);
    let Some(outcome) = ran_serial(alloc, &words, &mut shelf, &mut console) else {
        return Ok(false);
    };
    Ok(
        outcome.status.number() == number
            && shelf.has("out") == (number == 0)
            && console.text().starts_with(line.as_bytes()),
    )
}

/// A run of a line's words, where calls of the shelf and writes to the console fail by their numbers: whether it ends with this number and this
/// text on the console, with a record at `Ok` and `WriteFault` alone.
pub(crate) fn ends_so(
    alloc: Global,
    bytes: Vec<u8>,
    line: &str,
    failing: (&[u64], &[u64]),
    number: u8,
    text: &str,
) -> Result<bool, AllocError> {
    let words = words_of(alloc, line)?;
    if wants_threads(&words) {
        return Ok(false);
    }
    let (calls, writes) = failing;
    let calls = List::of(Vec::from_slice(alloc, calls)?);
    let writes = List::of(Vec::from_slice(alloc, writes)?);
    let mut shelf = FaultyShelf::new(files_of(alloc, bytes)?, calls);
    let mut console = FaultyConsole::new(alloc, writes);
    let outcome = ran(alloc, &words, &mut shelf, &mut console);
    Ok(
        outcome.status.number() == number
            && console.text() == text.as_bytes()
            && outcome.account.is_some() == (number == 0 || number == 7),
    )
}
