//! Single values of a configuration: the fault of a key and where it is, the first unknown key of a table, the table of numbers and
//! truth values with their ranges and defaults, and texts of a given form.
//!
//! Each reader answers what its definition gives for the table (`specs/`), or want of memory.
#![tactic(auto)]

mod fault;
mod keys;
mod makers;
mod numbers;
mod rows;
mod spot;
mod texts;
mod truths;

pub use fault::ConfigFault;
pub use keys::{at, known_keys};
pub use makers::{missing, out_of_range, unknown, wrong_form, wrong_kind};
pub use numbers::{number, optional_number};
pub use rows::{NumberKey, TruthKey};
pub use spot::Spot;
pub use texts::{capture_name, digit, mac_of, name, output, pair, port_address};
pub use truths::truth;

#[cfg(test)]
mod tests;
