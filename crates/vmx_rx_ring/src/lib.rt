//! A receive queue in words: descriptors of two rings, completions and buffers in one table of atomic words.
//!
//! The driver owns a buffer while the generation bit of its descriptor is that of the lap before. The device looks at the
//! bits, takes the buffers of a frame out of the rings, fills each with its piece, and tells each piece by a completion.
//! The first completion's generation is stored last, so that a frame is visible whole or not at all. The driver reads the
//! completions in order, and posts each descriptor back, those that were passed over before it first.
//!
//! Here stand what the ends know, the rule of the table (`specs/Rule.antt`), what each step of either end tells (`steps`)
//! and the words of descriptors and completions. That each step keeps the rule is proved in `proofs/`, for the walks over it.
#![tactic(auto)]

mod known;
pub mod steps;
mod words;

pub use known::{
    Buffer, ByCount, ByGeneration, DeviceKnows, DriverKnows, Entry, Known, RxWords, SharedWords,
    Shelf, Spot, TellsVisible,
};
pub use words::{
    address_of, body_for, count_of, descriptor1, descriptor2, first_word_for, generation_at,
    generation_part, has_generation, is_in_data, is_in_ring1, is_short, meta_of, shown_generation,
    size_of, slot_at, stands_body, told,
};
