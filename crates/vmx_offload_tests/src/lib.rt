//! Runs of `fill IN OUT` over files in memory, and the tests of the top call.
//!
//! Captures are built record by record; a run is told by its number, by what the console holds, by what stands under `out` and by the facts
//! of the queue. Nothing stands on this crate but its tests.
#![tactic(auto)]

#[cfg(test)]
mod captures;
#[cfg(test)]
mod frames;
#[cfg(test)]
mod runs;
#[cfg(test)]
mod tests;
