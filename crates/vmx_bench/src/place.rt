//! Where a field stands in the four parts of two words, and words with fields at chosen values.

ghost use Rattle.std.specs.Prelude.{◌≡◌, ◌+◌, ◌*◌, OnOk, IfOk, length, vec_len};

use std::alloc::{AllocError, Global};

/// A field's part of 32 bits, 0 to 3, its lowest bit there, and its width in bits.
#[derive(Clone, Copy)]
pub struct Place(pub u32, pub u32, pub u32);

impl Place {
    /// The least value of the field, one in the middle, with every second bit set, and the greatest.
    pub fn values(self) -> [u64; 3] {
        let greatest = self.greatest();
        [0, greatest & 0x5555_5555_5555_5555, greatest]
    }

    /// The words with the field at this value, and all else as it was.
    pub fn put(self, first: u64, second: u64, value: u64) -> (u64, u64) {
        let low = if self.0 % 2 == 0 {
            self.1
        } else {
            self.1.wrapping_add(32)
        };
        let mask = self.greatest().wrapping_shl(low);
        let bits = value.wrapping_shl(low) & mask;
        if self.0 < 2 {
            (first & !mask | bits, second)
        } else {
            (first, second & !mask | bits)
        }
    }

    fn greatest(self) -> u64 {
        u64::MAX.wrapping_shr(64u32.wrapping_sub(self.2))
    }
}

/// Words for samples: each place in turn at three values, with all other places at their least, and then at
/// their greatest. All else is as in `base`.
pub fn each_value(
    alloc: Global,
    base: (u64, u64),
    places: &[Place],
) -> Result<Vec<(u64, u64)>, AllocError>
    ensures count { IfOk result (λ samples. vec_len samples ≡ 6 * length places.now) }
{
    let mut full = base;
    for place in places {
        full = place.put(full.0, full.1, u64::MAX);
    }
    let mut samples = Vec::new(alloc);
    put_each(&mut samples, base, places)?;
    put_each(&mut samples, full, places)?;
    Ok(samples)
}

/// Each place in turn at three values, with all others as in `base`.
fn put_each(
    samples: &mut Vec<(u64, u64)>,
    base: (u64, u64),
    places: &[Place],
) -> Result<(), AllocError>
    ensures count { OnOk result (vec_len samples.new ≡ vec_len samples.old + 3 * length places.now) }
{
    for place in places {
        for value in place.values() {
            let words = place.put(base.0, base.1, value);
            samples.push(words)?;
        }
    }
    Ok(())
}
