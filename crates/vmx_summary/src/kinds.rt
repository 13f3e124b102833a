//! The kinds of fates that a summary counts.
ghost use Rattle.std.specs.Prelude.{◌≡◌};
ghost use Rattle.std.specs.Prelude.{Option};
ghost use Rattle.vmx_summary.specs.Summary.{has_kind, rows_of_kind, rows_from, rows_to};

use vmx_copies::FrameCopy;
use vmx_model::Fate;

/// A kind of fate, by what is told beside it left out. A copy in a record that accounts for a plan is never stopped.
#[derive(Clone, Copy, Debug, PartialEq, Eq)]
pub enum Kind {
    Up,
    LinkFull,
    Inactive,
    Filtered,
    NoBuffer,
    Discarded,
    NoPort,
    Down,
    Short,
    TooLong,
}

/// Whether a fate is of this kind.
fn is_of(kind: Kind, fate: &Fate) -> bool
    ensures kind { result ≡ has_kind kind fate.now }
{
    match kind {
        Kind::Up => matches!(fate, Fate::Up { .. }),
        Kind::LinkFull => matches!(fate, Fate::LinkFull { .. }),
        Kind::Inactive => matches!(fate, Fate::Inactive),
        Kind::Filtered => matches!(fate, Fate::Filtered { .. }),
        Kind::NoBuffer => matches!(fate, Fate::NoBuffer { .. }),
        Kind::Discarded => matches!(fate, Fate::Discarded),
        Kind::NoPort => matches!(fate, Fate::NoPort),
        Kind::Down => matches!(fate, Fate::Down),
        Kind::Short => matches!(fate, Fate::Short),
        Kind::TooLong => matches!(fate, Fate::TooLong),
    }
}

/// How many copies have a fate of this kind.
pub(crate) fn count(rows: &[FrameCopy], kind: Kind) -> usize
    ensures count { result ≡ rows_of_kind kind rows.now }
{
    rows.iter().filter(|row| is_of(kind, &row.fate)).count()
}

/// How many copies of a sender's frames have a fate of this kind.
pub fn count_from(rows: &[FrameCopy], sender: u32, kind: Kind) -> usize
    ensures count { result ≡ rows_from sender kind rows.now }
{
    rows.iter()
        .filter(|row| row.sender == sender && is_of(kind, &row.fate))
        .count()
}

/// How many copies for a target have a fate of this kind.
pub fn count_to(rows: &[FrameCopy], target: u32, kind: Kind) -> usize
    ensures count { result ≡ rows_to target kind rows.now }
{
    rows.iter()
        .filter(|row| is_to(row.target, target) && is_of(kind, &row.fate))
        .count()
}

ghost use Rattle.vmx_summary.specs.Summary.{is_target};

fn is_to(target: Option<u32>, port: u32) -> bool
    ensures to { result ≡ is_target port target }
{
    match target {
        Some(target) => target == port,
        None => false,
    }
}
