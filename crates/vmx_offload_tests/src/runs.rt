//! Runs over files in memory, of which only what can be seen from outside is kept.

use crate::captures::{files_of, words_of};
use std::alloc::{AllocError, Global};
use vmx_ends::TxFacts as _;
use vmx_io::{Console, FaultyConsole, FaultyShelf, List, Load, Shelf, SteadyConsole, SteadyShelf};
use vmx_offload::{OffloadOutcome, run_offload};
use vmx_txq::TxFacts;

/// How `fill in out` ended: its number, the console's text, what stands under `out`, and how many frames were sent, taken,
/// completed and reaped.
#[derive(Drop)]
pub(crate) struct Ended {
    pub number: u8,
    pub text: Vec<u8>,
    pub out: Option<Vec<u8>>,
    pub through: Option<[u64; 4]>,
}

/// A run. Nothing is said of it: the tests look at what it left.
pub(crate) fn ran<S: Shelf, C: Console>(
    alloc: Global,
    words: &[String],
    shelf: &mut S,
    console: &mut C,
) -> OffloadOutcome {
    run_offload(alloc, words, shelf, console)
}

/// What stands under `out`, of at most 1,000,000 bytes.
fn saved(alloc: Global, shelf: &mut SteadyShelf) -> Option<Vec<u8>> {
    if !shelf.has("out") {
        return None;
    }
    match shelf.load(alloc, "out", 1_000_000) {
        Load::Bytes { bytes } => Some(bytes.into_vec()),
        _ => None,
    }
}

/// The numbers of a queue's facts.
fn numbers(facts: &Option<TxFacts>) -> Option<[u64; 4]> {
    match facts {
        Some(facts) => Some([
            facts.sent(),
            facts.taken(),
            facts.completed(),
            facts.reaped(),
        ]),
        None => None,
    }
}

/// `fill in out` over these bytes as the file `in`.
pub(crate) fn fill(alloc: Global, bytes: Vec<u8>) -> Result<Ended, AllocError> {
    let words = words_of(alloc, "fill in out")?;
    let mut shelf = SteadyShelf::new(files_of(alloc, bytes)?);
    let mut console = SteadyConsole::new(alloc);
    let OffloadOutcome { status, facts } = ran(alloc, &words, &mut shelf, &mut console);
    Ok(Ended {
        number: status.number(),
        text: Vec::from_slice(alloc, console.text())?,
        out: saved(alloc, &mut shelf),
        through: numbers(&facts),
    })
}

/// A run of a line's words, where calls of the shelf and writes to the console fail by their numbers: whether it ends with this
/// number and this text on the console, with facts at `Ok` alone.
pub(crate) fn ends_so(
    alloc: Global,
    bytes: Vec<u8>,
    line: &str,
    failing: (&[u64], &[u64]),
    number: u8,
    text: &str,
) -> Result<bool, AllocError> {
    let words = words_of(alloc, line)?;
    let (calls, writes) = failing;
    let calls = List::of(Vec::from_slice(alloc, calls)?);
    let writes = List::of(Vec::from_slice(alloc, writes)?);
    let mut shelf = FaultyShelf::new(files_of(alloc, bytes)?, calls);
    let mut console = FaultyConsole::new(alloc, writes);
    let outcome = ran(alloc, &words, &mut shelf, &mut console);
    Ok(
        outcome.status.number() == number
            && console.text() == text.as_bytes()
            && outcome.facts.is_some() == (number == 0),
    )
}
