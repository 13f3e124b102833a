//! Positions across the first wraps of small, usual and largest rings, and words that a reader owns or not.

use super::*;

#[test]
fn generations_flip_at_each_wrap(rt: HostRuntime) {
    for (size, position, index, generation) in [
        (32, 0, 0, true),
        (32, 31, 31, true),
        (32, 32, 0, false),
        (32, 63, 31, false),
        (32, 64, 0, true),
        (1, 0, 0, true),
        (1, 1, 0, false),
        (1, 2, 0, true),
        (3, 2, 2, true),
        (3, 5, 2, false),
        (3, 6, 0, true),
        (8192, 8191, 8191, true),
        (8192, 8192, 0, false),
        (8192, u64::MAX, 8191, false),
    ] {
        assert!(rt; 0 < size && size <= 8192);
        let ring = Ring::new(size);
        assert_eq!(rt; ring.index(position), index, "at {position} of {size}");
        assert_eq!(rt;
            ring.generation(position),
            generation,
            "at {position} of {size}"
        );
    }
}

#[test]
fn entries_are_owned_by_the_generation_bit(rt: HostRuntime) {
    for (size, word, bit, position, owned) in [
        (32, 0, 14, 0, false),
        (32, 0x4000, 14, 0, true),
        (32, 0x4000, 14, 31, true),
        (32, 0x4000, 14, 32, false),
        (32, 0, 14, 32, true),
        (32, u64::MAX - 0x4000, 14, 64, false),
        (32, 0x8000_0800, 31, 0, true),
        (32, 0x8000_0800, 31, 33, false),
        (8192, 1 << 63, 63, 8191, true),
        (8192, 1 << 63, 63, 8192, false),
        (8192, 1, 0, 16384, true),
    ] {
        assert!(rt; 0 < size && size <= 8192 && bit < 64);
        assert_eq!(rt;
            Ring::new(size).owned(word, bit, position),
            owned,
            "{word:x} at {position} of {size}"
        );
    }
}
