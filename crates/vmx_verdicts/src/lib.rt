//! The verdicts on a guest's captured frames, one after the other: what vmx_model's `verdict` finds for one frame by going over all
//! earlier ones, a walk finds for each in turn by counts that it keeps.
#![tactic(auto)]

mod walk;

pub use walk::Verdicts;

#[cfg(test)]
mod tests;
