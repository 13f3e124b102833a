//! Sums of words of 16 bits in ones' complement (RFC 1071), and such words in a frame.

ghost use Rattle.std.specs.Prelude.{◌≡◌, ◌+◌, ◌*◌, ◌<◌, ◌≤◌, length};
ghost use Rattle.vmx_frame.specs.Bytes.{u16_at as number_at};
ghost use Rattle.vmx_checksum.specs.Words.{word_sum as word_sum_of, ones as ones_of, put_word as put_word_of};

use vmx_io::MAX_FRAME;

/// The greatest word, all of whose bits are 1: the sum of a part with its checksum (RFC 1071, 1 (3)).
pub const ALL_ONES: u16 = 65_535;

/// Numbers of a word of 16 bits; what is carried out of it counts in these.
const WORD_NUMBERS: u32 = 65_536;

/// The sum of the words of 16 bits, big-endian. An odd last byte is the high half of a word (RFC 1071, 1).
///
/// Condition: at most 9,022 bytes, as a frame has.
#[tactic(auto, using(crate::specs::WordLaws::word_sum_more, crate::specs::WordLaws::word_sum_last, crate::specs::WordLaws::word_sum_none))]
pub fn word_sum(bytes: &[u8]) -> u32
    requires few { length bytes.now ≤ MAX_FRAME }
    ensures sum { result ≡ word_sum_of bytes.now }
    ensures most { result ≤ 32768 * (length bytes.now + 1) }
{
    let words = bytes.len() / 2;
    let mut sum = 0;
    for i in 0..words {
        sum += u32::from(u16_at(bytes, 2 * i));
    }
    if bytes.len() % 2 == 1 {
        sum += u32::from(bytes[2 * words]) * 256;
    }
    sum
}

/// The ones' complement sum of words whose sum this is: what is carried out of 16 bits is added back (RFC 1071, 1,
/// "end around carry").
pub fn ones(sum: u32) -> u16
    ensures ones { result ≡ ones_of sum }
{
    let once = sum / WORD_NUMBERS + sum % WORD_NUMBERS;
    let twice = once / WORD_NUMBERS + once % WORD_NUMBERS;
    twice as u16
}

/// The word at a place, big-endian.
pub fn u16_at(bytes: &[u8], at: usize) -> u16
    requires within { at + 2 ≤ length bytes.now }
    ensures number { result ≡ number_at bytes.now at }
{
    u16::from(bytes[at]) * 256 + u16::from(bytes[at + 1])
}

/// Stores a word at a place, big-endian.
pub fn put_word(bytes: &mut [u8], at: usize, word: u16)
    requires within { at + 2 ≤ length bytes.old }
    ensures bytes { bytes.new ≡ put_word_of bytes.old at word }
{
    bytes[at] = (word / 256) as u8;
    bytes[at + 1] = (word % 256) as u8;
}
