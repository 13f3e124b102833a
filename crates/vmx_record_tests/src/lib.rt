//! A record of a guest whose actors did nothing, over plain lists, and what its readers tell. Nothing stands on this crate.
#![tactic(auto)]

#[cfg(test)]
mod tests;
