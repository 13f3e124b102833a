//! The main laws, each the contract of a function that does nothing. Own to this project.
ghost use Rattle.vmx_ring_laws.specs.Laws.{PositionsApart, KeysTell, PrefixesCompare, RowsCut, RingsApart, EntryGoesIn, FirstLeaves, ManyLeave, CellsSame};

/// What the cells of a ring show. `W` is what one cell shows, `E` an entry.
pub trait Cells<W, E> {
    ghost use Rattle.std.specs.Prelude.{ℕ};

    // The cell of this position has this entry.
    ghost shows: { ℕ → E → W → Type 0 };
    // The cell is free for the entry of this position.
    ghost waits: { ℕ → W → Type 0 };
}

/// Two positions less than one lap apart have different cells.
pub fn positions_apart()
    ensures law { PositionsApart }
{}

/// Tables with one key are one table.
pub fn keys_tell()
    ensures law { KeysTell }
{}

/// Of two prefixes of one list, one is a prefix of the other.
pub fn prefixes_compare<A>()
    ensures law { PrefixesCompare A }
{}

/// A word behind the first part of a row is a word of its second part.
pub fn rows_cut()
    ensures law { RowsCut }
{}

/// Two rings of slots in one row do not touch each other.
pub fn rings_apart<S>()
    ensures law { RingsApart S }
{}

/// An entry put into its free cell stands behind the others.
pub fn entry_goes_in<W, E, C: Cells<W, E>>()
    ensures law { EntryGoesIn C.shows C.waits }
{}

/// The first entry leaves when its cell is made free for the position one lap on.
pub fn first_leaves<W, E, C: Cells<W, E>>()
    ensures law { FirstLeaves C.shows C.waits }
{}

/// Many entries leave at once where each of their cells is free already.
pub fn many_leave<W, E, C: Cells<W, E>>()
    ensures law { ManyLeave C.shows C.waits }
{}

/// A ring whose cells are the same holds the same.
pub fn cells_same<W, E, C: Cells<W, E>>()
    ensures law { CellsSame C.shows C.waits }
{}
