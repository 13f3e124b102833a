//! The Toeplitz hash: the exclusive or, over each input bit that is 1, of the 32 key bits from its place on.
//!
//! A window of 32 key bits moves along the key, one bit to each bit of the input. Bits are counted from the left.

ghost use Rattle.std.specs.Prelude.{◌≡◌, ◌+◌, ◌*◌, ◌%◌, ◌^◌, ◌<◌, ◌≤◌, length};
ghost use Rattle.vmx_rss.specs.Toeplitz.{IsHashOf, hash_of};

use vmx_shared_area::offsets::KEY_SIZE;

/// The most bytes of an input: two IPv6 addresses and two ports (Microsoft, "RSS Hashing Types").
pub const MAX_INPUT_LEN: usize = 36;

/// The hash of the input under the key.
///
/// Condition: the input has at most 36 bytes, two IPv6 addresses and two ports; the window then stays in the key.
pub fn toeplitz(key: &[u8; KEY_SIZE], input: &[u8]) -> u32
    requires room { length input.now ≤ MAX_INPUT_LEN }
    ensures hash { result ≡ hash_of key.now input.now }
{
    over_windows(key, input)
}

/// The hash by a window of 32 key bits, which moves along the key.
fn over_windows(key: &[u8; KEY_SIZE], input: &[u8]) -> u32
    requires room { length input.now ≤ MAX_INPUT_LEN }
    ensures parities { IsHashOf key.now input.now (8 * length input.now) result }
{
    let mut window = u32::from_be_bytes([key[0], key[1], key[2], key[3]]);
    let mut hash = 0;
    for (i, byte) in input.iter().enumerate() {
        let next = key[i + 4];
        for k in 0..8u32 {
            if *byte >> (7 - k) & 1 == 1 {
                hash ^= window;
            }
            window = shifted(window, next >> (7 - k) & 1);
        }
    }
    hash
}

/// The window one bit on.
fn shifted(window: u32, bit: u8) -> u32
    requires one_bit { bit < 2 }
    ensures window { result ≡ window * 2 % 2 ^ 32 + bit }
{
    (window << 1) + u32::from(bit)
}
