//! A ring by its size. The generation of a position is 1 in the first lap, 0 in the second, and so on.

ghost use Rattle.std.specs.Prelude.{◌≡◌, ℕ, ◌<◌, ◌≤◌, ◌↔◌, IsTrue, List, slice_index};
ghost use Rattle.std.specs.Int.{bit_at};
ghost use Rattle.vmx_genring.specs.Rings.{index_of, generation, generation_bit, Contents, StandFor};

/// A ring of `size` entries, 1 to 8,192.
#[derive(Clone, Copy, Debug, PartialEq, Eq)]
pub struct Ring {
    pub size: u32,
    ghost some: { 0 < size },
    ghost most: { size ≤ 8192 },
}

impl Ring {
    pub fn new(size: u32) -> Ring
        requires some { 0 < size }
        requires most { size ≤ 8192 }
        ensures size { result.size ≡ size }
    {
        Ring { size }
    }

    /// The index of the position's entry.
    pub fn index(&self, position: u64) -> u32
        ensures value { result ≡ index_of self.now.size position }
        ensures below { result < self.now.size }
    {
        (position % u64::from(self.size)) as u32
    }

    /// The generation of the position: true in the first lap of the ring, false in the second, and so on.
    pub fn generation(&self, position: u64) -> bool
        ensures value { result ≡ generation self.now.size position }
    {
        position / u64::from(self.size) % 2 == 0
    }

    /// Whether the bit of the word, 0 to 63, is the position's generation: of words that stand for what was
    /// published and consumed, whether the position is published, from the first unconsumed one up to the first
    /// that is not published.
    pub fn owned(&self, word: u64, bit: u32, position: u64) -> bool
        requires bit { bit < 64 }
        ensures owner { IsTrue result ↔ (bit_at word bit ≡ generation_bit self.now.size position) }
        ensures published { (firsts seconds : List ℕ) (c : Contents) → StandFor self.now.size bit firsts seconds c
            → word ≡ slice_index seconds (index_of self.now.size position) → c.consumed ≤ position → position ≤ c.published
            → IsTrue result ↔ (position < c.published) }
    {
        self.has_generation(word, bit, position)
    }

    fn has_generation(&self, word: u64, bit: u32, position: u64) -> bool
        requires bit { bit < 64 }
        ensures owner { IsTrue result ↔ (bit_at word bit ≡ generation_bit self.now.size position) }
        ensures some { 0 < self.now.size }
    {
        (word >> bit & 1 == 1) == self.generation(position)
    }
}
