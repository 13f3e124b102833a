//! The ring of descriptors or completions that a generation bit shares between a writer and a reader, as in
//! Linux's vmxnet3 driver: both begin with generation 1 over zeroed memory and flip it at each wrap.
//!
//! The writer publishes an entry by storing its second word with the generation of the entry's position. The
//! reader owns an entry exactly where its generation bit is that of the position. So neither needs a count of
//! the other's. A *position* counts the entries of one ring from 0; its *index* is the position modulo the size.
#![tactic(auto)]

mod laws;
mod ring;

pub use laws::{
    begins, first_is_staged, first_word_is_stored, first_word_shows, first_word_stands,
    generation_is_bit, generation_tells, later_is_staged, one_is_published, one_is_reposted,
    published_are_consumed, staged_are_published,
};
pub use ring::Ring;

#[cfg(test)]
mod tests;
