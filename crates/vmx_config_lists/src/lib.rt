//! The arrays of a configuration: receive modes, hash types, multicast addresses, VLANs, the indirection table; and the hash key.
//!
//! Of an array the count comes first, then element by element. Each reader answers what its definition gives (`specs/`), or want of
//! memory. A key that is required, or not, is its caller's matter: each reader takes the value that stands at the key.
#![tactic(auto)]

mod addresses;
mod entries;
mod hash_key;
mod masks;
mod vids;

pub use addresses::multicast;
pub use entries::{Entries, table_entries};
pub use hash_key::key;
pub use masks::{mode, types};
pub use vids::vlans;

#[cfg(test)]
mod tests;
