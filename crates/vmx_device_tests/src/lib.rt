//! The tests of a guest's device, each a table of steps and the journal that is to come of it. Nothing stands on this crate.
#![tactic(auto)]

#[cfg(test)]
mod filters;
#[cfg(test)]
mod frames;
#[cfg(test)]
mod queues;
#[cfg(test)]
mod stops;
#[cfg(test)]
mod tags;
