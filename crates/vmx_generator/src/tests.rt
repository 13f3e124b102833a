//! What no clause says: that a plan is made where there is memory; and numbers from outside, as `bench/generator.py` prints them.

use crate::draws::{Draws, draw};
use crate::frames::frame;
use crate::generated_plan;
use std::alloc::{AllocError, Global};
use std::test::Fail;
use vmx_io::Bytes;

/// What `generator.py row` prints: a number, a guest, a frame's number; its length, and the sum of its bytes, each times its place.
const ROWS: [(u64, u8, u16, usize, u64); 4] = [
    (0, 0, 0, 984, 59_287_609),
    (0, 7, 1_999, 330, 7_481_629),
    (1, 1, 0, 354, 7_699_229),
    (4_294_967_295, 3, 17, 842, 46_036_085),
];

/// What `generator.py head` prints of the first frame of the number 0: it goes from `g0` to `g4`.
const HEADERS: [u8; 54] = [
    0x00, 0x50, 0x56, 0x00, 0x01, 0x04, 0x00, 0x50, 0x56, 0x00, 0x01, 0x00, 0x08, 0x00, 0x45, 0x00,
    0x03, 0xca, 0x00, 0x00, 0x40, 0x00, 0x40, 0x06, 0x00, 0x00, 0x0a, 0x00, 0x00, 0x00, 0x0a, 0x00,
    0x01, 0x01, 0x04, 0x11, 0x00, 0x50, 0x00, 0x00, 0x00, 0x00, 0x00, 0x00, 0x00, 0x00, 0x50, 0x10,
    0x00, 0x00, 0x00, 0x00, 0x00, 0x00,
];

/// What `generator.py sums` prints of the number 0: the bytes of all frames, and the sum of their values.
const SUMS: (u64, u64) = (12_647_525, 1_524_536_294);

/// A frame of a guest, as a number draws it.
fn drawn(alloc: Global, number: u64, guest: u8, index: u16) -> Result<Bytes, AllocError> {
    let mut state = number;
    let before = 8 * usize::from(index) + usize::from(guest);
    for _ in 0..3 * before {
        let _ = draw(&mut state);
    }
    let draws = Draws {
        destination: draw(&mut state),
        size: draw(&mut state),
        flow: draw(&mut state),
    };
    frame(alloc, guest, index, draws)
}

/// The sum of the bytes, each times its place from 1 on.
fn weight(bytes: &[u8]) -> u64 {
    let mut sum: u64 = 0;
    let mut place: u64 = 0;
    for byte in bytes {
        place = place.wrapping_add(1);
        sum = sum.wrapping_add(place.wrapping_mul(u64::from(*byte)));
    }
    sum
}

#[test]
fn the_first_draw_of_zero(rt: HostRuntime) {
    let mut state = 0;
    assert_eq!(rt; draw(&mut state), 167_951_807);
}

#[test]
fn the_first_frame_of_zero_goes_from_g0_to_g4(rt: HostRuntime) -> Result<(), Fail> {
    let frame = drawn(rt.alloc(), 0, 0, 0)?;
    assert!(rt; frame.as_slice().starts_with(&HEADERS));
    Ok(())
}

#[test]
fn frames_are_those_of_the_script(rt: HostRuntime) -> Result<(), Fail> {
    for (number, guest, index, length, sum) in ROWS {
        let frame = drawn(rt.alloc(), number, guest, index)?;
        assert_eq!(rt; (frame.len(), weight(frame.as_slice())), (length, sum));
    }
    Ok(())
}

#[test]
fn the_plan_of_zero_has_the_bytes_of_the_script(rt: HostRuntime) -> Result<(), Fail> {
    let plan = generated_plan(rt.alloc(), 0)?;
    let mut count: u64 = 0;
    let mut sum: u64 = 0;
    for guest in plan.guests.as_slice() {
        for stamped in guest.capture.records.as_slice() {
            for byte in stamped.frame.as_slice() {
                count = count.wrapping_add(1);
                sum = sum.wrapping_add(u64::from(*byte));
            }
        }
    }
    assert_eq!(rt; (count, sum), SUMS);
    Ok(())
}
