//! Words without a meaning, names, files past the limit, and faults of shelf and console.
ghost use Rattle.std.specs.Prelude.{None};

use crate::captures::{capture, front, words_of};
use crate::frames::{ARP, BARE};
use crate::runs::{ends_so, ran};
use std::alloc::{AllocError, Global};
use std::test::Fail;
use vmx_io::{Load, Save, Shelf, SteadyConsole};

const USAGE: &str = "usage: vmxoffload fill IN OUT\n       vmxoffload segment IN OUT MSS\n";

const LINE: &str = "filled 1 left 1 long 0 tail 0\n";

/// A shelf whose files are longer than any limit.
#[derive(Drop)]
struct LongShelf;

impl Shelf for LongShelf {
    ghost files = { λ _. None };

    ghost read_faults = { λ _. 0 };

    ghost write_faults = { λ _. 0 };

    fn load(&mut self, _alloc: Global, _name: &str, _limit: u64) -> Load {
        Load::TooLong
    }

    fn save(&mut self, _alloc: Global, _name: &str, _bytes: &[u8]) -> Save {
        Save::Done
    }
}

#[test]
fn a_file_past_the_limit_is_refused(rt: HostRuntime) -> Result<(), Fail> {
    let words = words_of(rt.alloc(), "fill in out")?;
    let mut console = SteadyConsole::new(rt.alloc());
    let outcome = ran(rt.alloc(), &words, &mut LongShelf, &mut console);
    assert!(rt; outcome.status.number() == 5);
    assert!(rt; console.text() == b"too long: in\n".as_slice());
    assert!(rt; outcome.facts.is_none());
    Ok(())
}

/// Whether a run over a capture of two frames, with these faults of shelf and console, ends with this number and text.
fn ends(
    alloc: Global,
    line: &str,
    failing: (&[u64], &[u64]),
    number: u8,
    text: &str,
) -> Result<bool, AllocError> {
    let bytes = capture(alloc, &[&BARE, &ARP])?;
    ends_so(alloc, bytes, line, failing, number, text)
}

/// Lines of words that have no meaning.
const MEANINGLESS: [&str; 14] = [
    "",
    "fill",
    "fill a",
    "fill a b c",
    "fill  b",
    "fill - b",
    "fill a --",
    "Fill a b",
    "fills a b",
    "segment a b",
    "segment a b 1000",
    "segment a b 064",
    "pair a b",
    "--help",
];

#[test]
fn words_without_a_meaning_are_told_what_has_one(rt: HostRuntime) -> Result<(), Fail> {
    for line in &MEANINGLESS {
        assert!(rt; ends(rt.alloc(), line, (&[], &[]), 2, USAGE)?, "{line}");
    }
    Ok(())
}

#[test]
fn a_console_that_fails_changes_no_status(rt: HostRuntime) -> Result<(), Fail> {
    for line in &MEANINGLESS {
        assert!(rt; ends(rt.alloc(), line, (&[0, 1], &[0]), 2, "")?, "{line}");
    }
    Ok(())
}

/// Words, the numbers of the shelf's calls and of the console's writes that fail, the status, and the console's text.
type Fault = (
    &'static str,
    &'static [u64],
    &'static [u64],
    u8,
    &'static str,
);

const FAULTS: [Fault; 9] = [
    ("fill in out", &[], &[], 0, LINE),
    ("fill in out", &[2], &[1], 0, LINE),
    ("fill x out", &[], &[], 6, "read fault: x\n"),
    ("fill in out", &[0], &[], 6, "read fault: in\n"),
    ("fill in out", &[0], &[0], 6, ""),
    ("fill in out", &[1], &[], 7, "write fault: out\n"),
    ("fill in out", &[1], &[0], 7, ""),
    ("fill in out", &[], &[0], 7, "write fault: console\n"),
    ("fill in out", &[], &[0, 1], 7, ""),
];

/// Whether a run ends as its row says.
fn ends_as_told(alloc: Global, fault: &Fault) -> Result<bool, AllocError> {
    let (line, calls, writes, number, text) = fault;
    ends(alloc, line, (calls, writes), *number, text)
}

#[test]
fn faults_have_their_status_and_line(rt: HostRuntime) -> Result<(), Fail> {
    for fault in &FAULTS {
        assert!(rt; ends_as_told(rt.alloc(), fault)?, "{}", fault.4);
    }
    Ok(())
}

/// A name of so many bytes.
fn name_of(alloc: Global, len: u32) -> Result<String, AllocError> {
    let mut name = String::new(alloc);
    for _ in 0..len {
        name.push('n')?;
    }
    Ok(name)
}

/// Whether a name IN of so many bytes, under which no file stands, ends with this number.
fn name_ends(alloc: Global, len: u32, number: u8) -> Result<bool, AllocError> {
    let name = name_of(alloc, len)?;
    let text = if number == 2 {
        String::from_str(alloc, USAGE)?
    } else {
        format!(in alloc; "read fault: {name}\n")?
    };
    let line = format!(in alloc; "fill {name} out")?;
    ends(alloc, line.as_str(), (&[], &[]), number, text.as_str())
}

#[test]
fn names_have_at_most_255_bytes(rt: HostRuntime) -> Result<(), Fail> {
    assert!(rt; name_ends(rt.alloc(), 255, 6)?);
    assert!(rt; name_ends(rt.alloc(), 256, 2)?);
    Ok(())
}

/// What is no capture: the place and the value of a changed byte, the length, and the line.
type Refused = (usize, u8, usize, &'static str);

const REFUSED: [Refused; 6] = [
    (0, 0xd4, 0, "capture in: header 0\n"),
    (0, 0xd4, 23, "capture in: header 23\n"),
    (0, 0xd5, 24, "capture in: magic 0xd5c3b2a1\n"),
    (4, 3, 24, "capture in: version 3 4\n"),
    (20, 113, 24, "capture in: link 113\n"),
    (34, 4, 60, "capture in: record 0 length 262204\n"),
];

/// Whether a run over the changed capture ends with 4 and this line.
fn is_refused(alloc: Global, refused: &Refused) -> Result<bool, AllocError> {
    let (place, value, len, text) = refused;
    let whole = capture(alloc, &[&BARE])?;
    let mut bytes = front(alloc, whole.as_slice(), *len)?;
    if let Some(byte) = bytes.get_mut(*place) {
        *byte = *value;
    }
    ends_so(alloc, bytes, "fill in out", (&[], &[]), 4, text)
}

#[test]
fn what_is_no_capture_is_refused(rt: HostRuntime) -> Result<(), Fail> {
    for refused in &REFUSED {
        assert!(rt; is_refused(rt.alloc(), refused)?, "{}", refused.3);
    }
    Ok(())
}
