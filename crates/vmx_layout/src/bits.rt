//! Fields of bits, cut out of a word by the lowest bit and the width.

ghost use Rattle.std.specs.Prelude.{◌≡◌, ◌+◌, ◌<◌, ◌≤◌, ◌^◌};
ghost use Rattle.vmx_layout.specs.Bits.{bit, field as field_of};

/// The field of `width` bits from bit `low` of the word up.
pub(crate) fn field(word: u64, low: u32, width: u32) -> u64
    requires inside { low + width ≤ 64 }
    requires short { width < 64 }
    requires begins { low < 64 }
    ensures value { result ≡ field_of word low width }
    ensures fits { result < 2 ^ width }
{
    word >> low & ((1 << width) - 1)
}

/// Whether the bit `low` of the word is set.
pub(crate) fn flag(word: u64, low: u32) -> bool
    requires begins { low < 64 }
    ensures value { bit result ≡ field_of word low 1 }
{
    word >> low & 1 == 1
}
