//! Toeplitz hashes of a TCP flow over IPv4, 12 bytes of input each.

use vmx_rss::toeplitz;
use vmx_shared_area::MICROSOFT_KEY;

/// How many values a byte has.
const BYTE_VALUES: u32 = 256;

/// Hashes a flow under `count` source ports, and gives the exclusive or of the hashes.
pub fn all_hashes(count: u32) -> u32 {
    let mut input = [66, 9, 149, 187, 161, 142, 100, 80, 0, 0, 6, 230];
    let mut all = 0;
    for n in 0..count {
        input[8] = (n / BYTE_VALUES % BYTE_VALUES) as u8;
        input[9] = (n % BYTE_VALUES) as u8;
        all ^= toeplitz(&MICROSOFT_KEY, &input);
    }
    all
}
