//! A journal by hand, sorted.
use crate::{Switched, Toward, by_port, by_queue};
use std::test::Fail;
use vmx_ends::Tag;
use vmx_model::{Entry, Fate, Way};

fn tag(activation: u32, queue: u32, place: u64) -> Tag {
    Tag {
        guest: 0,
        activation,
        queue,
        place,
    }
}

/// Two frames of queue 0 and one of queue 1 in activation 0, one of queue 0 in activation 1, and packets from the ports 1 and 2.
fn journal() -> [Entry; 8] {
    [
        Entry::Setting {
            number: 0xCAFE_0000,
            answer: 0,
            setup: Some(0),
        },
        Entry::Out {
            tag: tag(0, 0, 0),
            target: 1,
            way: Way::Link { place: 0 },
        },
        Entry::Lost { tag: tag(0, 1, 0) },
        Entry::In {
            from: 2,
            place: 0,
            fate: Fate::Inactive,
        },
        Entry::Out {
            tag: tag(0, 0, 1),
            target: 2,
            way: Way::Full { look: 0 },
        },
        Entry::In {
            from: 1,
            place: 0,
            fate: Fate::Up {
                activation: 0,
                queue: 0,
                place: 0,
            },
        },
        Entry::In {
            from: 2,
            place: 1,
            fate: Fate::Up {
                activation: 0,
                queue: 0,
                place: 1,
            },
        },
        Entry::Lost { tag: tag(1, 0, 0) },
    ]
}

fn toward(target: u32, way: Way) -> Option<Toward> {
    Some(Toward { target, way })
}

#[test]
fn frames_stand_by_queue_and_packets_by_port(rt: HostRuntime) -> Result<(), Fail> {
    let alloc = rt.alloc();
    let lists = by_queue(alloc, &journal(), 16)?;
    assert_eq!(rt; lists.len(), 16);
    for (key, place, to) in [
        (0, 0, toward(1, Way::Link { place: 0 })),
        (0, 1, toward(2, Way::Full { look: 0 })),
        (1, 0, None),
        (8, 0, None),
    ] {
        let list = lists.as_slice().get(key).expect(&rt, "a list").as_slice();
        assert!(rt; list.contains(&Switched { place, to }), "{key} {place}");
    }
    let came = by_port(alloc, &journal(), 3)?;
    for (port, count) in [(0, 0), (1, 1), (2, 2)] {
        let list = came.as_slice().get(port).expect(&rt, "a list");
        assert_eq!(rt; list.len(), count, "{port}");
    }
    Ok(())
}
