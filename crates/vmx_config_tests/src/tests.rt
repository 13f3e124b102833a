//! The faults of the table of keys, both ends of its ranges and their neighbours, the first of two faults, and what a plan gets.

mod guests;
mod plans;
mod scripts;
mod top;

use super::*;
use std::alloc::{AllocError, Global};
use std::process::Abort;

/// How a row's text becomes a configuration.
#[derive(Clone, Copy, Debug, Drop, PartialEq, Eq)]
enum Row {
    /// It is one.
    Whole,
    /// It is lines of a guest.
    Guest,
    /// It is lines of an action.
    Action,
}

/// Each row's text is answered so.
fn check(
    rt: &impl Abort,
    alloc: Global,
    row: Row,
    rows: &[(&str, &str)],
) -> Result<(), AllocError> {
    for (lines, want) in rows {
        let text = match row {
            Row::Whole => String::from_str(alloc, lines)?,
            Row::Guest => guest(alloc, lines)?,
            Row::Action => script(alloc, lines)?,
        };
        let got = answer(alloc, text.as_str())?;
        assert_eq!(rt; got.as_str(), *want, "{lines}");
    }
    Ok(())
}

/// A text with a piece so many times in its middle: before, piece, count, after, and what it is answered.
type Repeated = (
    &'static str,
    &'static str,
    usize,
    &'static str,
    &'static str,
);

/// Each text with a repeated piece is answered so.
fn check_repeated(rt: &impl Abort, alloc: Global, rows: &[Repeated]) -> Result<(), AllocError> {
    for (before, piece, count, after, want) in rows {
        let text = repeated(alloc, before, piece, *count, after)?;
        let got = answer(alloc, text.as_str())?;
        assert_eq!(rt; got.as_str(), *want, "{count} of {piece}");
    }
    Ok(())
}
