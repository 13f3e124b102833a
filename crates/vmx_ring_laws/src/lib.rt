//! Laws of rings in an `atomic_table`, for every queue that is built on one.
//!
//! A ring is said by positions and never by indexes: n cells hold the entries of a log from some position on, and the
//! entry of position p has the cell p % n (`specs/Lap.antt`). The moves of a ring (an entry goes in, the first leaves, many
//! leave, one cell is touched) are proved once (`specs/Moves.antt`), with what a rule says of all seats (`Views`), the steps
//! that every rule allows (`Steps`), lists and their prefixes (`Lists`), rows of words cut into parts (`Rows`), two rings in
//! one row (`Windows`) and the key of a table (`Keys`).
#![tactic(auto)]

mod laws;

pub use laws::{
    Cells, cells_same, entry_goes_in, first_leaves, keys_tell, many_leave, positions_apart,
    prefixes_compare, rings_apart, rows_cut,
};
