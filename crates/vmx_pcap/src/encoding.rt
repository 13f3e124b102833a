//! How a capture writes its numbers and its fractions of a second. Its magic number says both.

ghost use Rattle.std.specs.Prelude.{◌≡◌};
ghost use Rattle.vmx_pcap.specs.Encodings.{encoding_of as encoding_with};

use crate::format::{MAGIC_BIG_MICROS, MAGIC_BIG_NANOS, MAGIC_LITTLE_MICROS, MAGIC_LITTLE_NANOS};
use crate::kinds::{Encoding, Endian, TimeUnit};

/// The encoding that a magic number says.
pub fn encoding_of(magic: u32) -> Option<Encoding>
    ensures encoding { result ≡ encoding_with magic }
{
    match magic {
        MAGIC_LITTLE_MICROS => Some(Encoding {
            endian: Endian::Little,
            unit: TimeUnit::Micros,
        }),
        MAGIC_BIG_MICROS => Some(Encoding {
            endian: Endian::Big,
            unit: TimeUnit::Micros,
        }),
        MAGIC_LITTLE_NANOS => Some(Encoding {
            endian: Endian::Little,
            unit: TimeUnit::Nanos,
        }),
        MAGIC_BIG_NANOS => Some(Encoding {
            endian: Endian::Big,
            unit: TimeUnit::Nanos,
        }),
        _ => None,
    }
}
