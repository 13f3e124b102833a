//! The steps of a ring as laws: each function does nothing, and its contract is the law.
//! The writer stores the first word of the next entry, then its second; the reader stores nothing.

ghost use Rattle.vmx_genring.specs.Steps.{Begins, StoresFirst, StagesFirst, Stages, Publishes, PublishesOne, FirstStands, Reposts, Consumes, FirstShows, GenerationIsBit, GenerationTells};

/// Zeroed memory stands for a ring with nothing published.
pub fn begins()
    ensures law { Begins }
{}

/// Where fewer than `size` entries are unconsumed, the first word of the next one may be stored.
pub fn first_word_is_stored()
    ensures law { StoresFirst }
{}

/// The first staged entry's second word is stored with the generation inverted, so that it is not published.
pub fn first_is_staged()
    ensures law { StagesFirst }
{}

/// Each later staged entry's second word is stored as it is: no reader looks past the first.
pub fn later_is_staged()
    ensures law { Stages }
{}

/// The first staged entry's second word, stored as it is, publishes all that is staged at once.
pub fn staged_are_published()
    ensures law { Publishes }
{}

/// Where nothing is staged, an entry's second word publishes it at once.
pub fn one_is_published()
    ensures law { PublishesOne }
{}

/// Where fewer than `size` entries are unconsumed and the next one's first word stands at its index already, it need not be
/// stored again.
pub fn first_word_stands()
    ensures law { FirstStands }
{}

/// Such an entry is published by the store of its second word alone: a repost.
pub fn one_is_reposted()
    ensures law { Reposts }
{}

/// Published entries are consumed without a store.
pub fn published_are_consumed()
    ensures law { Consumes }
{}

/// The first word of each unconsumed entry, published or staged, shows as it is.
pub fn first_word_shows()
    ensures law { FirstShows }
{}

/// The generation of a position as a bit is 1 exactly where it is true.
pub fn generation_is_bit()
    ensures law { GenerationIsBit }
{}

/// A word's bit is the position's generation as a bit exactly where it is so as a truth value.
pub fn generation_tells()
    ensures law { GenerationTells }
{}
