//! What no clause says: the limits as numbers, that memory for a packet can be had, and walks that were made by hand.
use crate::walk::{Next, WalkEnd, walk_by};
use crate::*;
use std::test::Fail;

#[test]
fn limits_have_their_numbers(rt: HostRuntime) {
    assert_eq!(rt;
        [MIN_FRAME, MAX_TAGLESS_FRAME, MAX_FRAME],
        [14, 9_018, 9_022]
    );
    assert_eq!(rt; [HEAD_SIZE, BODY_SIZE, ZERO_LENGTH], [2_048, 4_096, 16_384]);
    assert_eq!(rt;
        [MIN_PIECE, MIN_PIECE_WITH_DATA, MAX_PIECE],
        [576, 640, 4_096]
    );
    assert_eq!(rt; [RING_STEP, MAX_DESCRIPTORS, MAX_BODIES], [32, 16, 2]);
}

#[test]
fn a_packet_has_its_frame_and_its_queue(rt: HostRuntime) -> Result<(), Fail> {
    let tag = Tag {
        guest: 2,
        activation: 1,
        queue: 3,
        place: 7,
    };
    let frame = [7u8; 14];
    let packet = Packet::copy_of(rt.alloc(), tag, &frame)?;
    assert!(rt; packet.tag == tag && packet.frame.as_slice() == frame.as_slice());
    let name = QueueName {
        guest: 2,
        activation: 1,
        queue: 3,
    };
    assert!(rt; packet.tag.queue_name() == name);
    Ok(())
}

#[test]
fn a_plain_mark_asks_for_nothing(rt: HostRuntime) {
    let mark = TxMark::plain();
    assert!(rt; mark.tci.is_none() && mark.om == 0 && mark.hlen == 0 && mark.msscof == 0);
}

/// Rings of 32 with two BODY descriptors behind each HEAD: the indices 0, 3, .. 30 are HEAD.
#[test]
fn walks_pass_over_bodies_and_miss(rt: HostRuntime) {
    let shape = RxShape {
        name: QueueName {
            guest: 0,
            activation: 0,
            queue: 0,
        },
        queues: 1,
        size1: 32,
        size2: 32,
        bodies: 2,
        with_data: false,
    };
    for (one, two, posted1, posted2, more, end) in [
        (
            0u64,
            0u64,
            32u64,
            32u64,
            2u32,
            WalkEnd::Takes {
                passed: 0,
                next1: 3,
                next2: 0,
            },
        ),
        (
            28,
            0,
            32,
            32,
            0,
            WalkEnd::Takes {
                passed: 2,
                next1: 31,
                next2: 0,
            },
        ),
        (
            30,
            5,
            32,
            32,
            2,
            WalkEnd::Takes {
                passed: 0,
                next1: 32,
                next2: 6,
            },
        ),
        (
            31,
            0,
            32,
            32,
            0,
            WalkEnd::Misses {
                ring: 1,
                position: 32,
            },
        ),
        (
            30,
            32,
            31,
            32,
            1,
            WalkEnd::Misses {
                ring: 2,
                position: 32,
            },
        ),
    ] {
        let at = Next { one, two };
        assert_eq!(rt;
            walk_by(&shape, at, posted1, posted2, more),
            end,
            "at {one}"
        );
    }
}
