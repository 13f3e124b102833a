//! What receive queues and filters do with copies, by the fates that follow from the rules by hand.

use std::alloc::AllocError;
use vmx_filters::Rule;
use vmx_serial_reference::World;
use vmx_sketches::{
    Frames, MAC_A, MAC_B, QUIET, Script, Sketch, filtered, gives, large, missed, sends, up, up_on,
    world_of,
};

#[test]
fn ring_1_fills_up(rt: HostRuntime) -> Result<(), AllocError> {
    let sender = sends(40, MAC_B, 60);
    let small = Sketch { ring: 32, ..QUIET };
    let guests = [sender, small];
    let wanted = [(up(0), 32), (missed(1, 32, 0), 8)];
    assert!(rt; gives(rt.alloc(), 40, &guests, &wanted)?);
    Ok(())
}

#[test]
fn ring_2_fills_up(rt: HostRuntime) -> Result<(), AllocError> {
    let sender = large(sends(20, MAC_B, 9014));
    let target = large(QUIET);
    let guests = [sender, target];
    let wanted = [(up(0), 16), (missed(2, 32, 0), 4)];
    assert!(rt; gives(rt.alloc(), 40, &guests, &wanted)?);
    Ok(())
}

#[test]
fn large_frames_come_up(rt: HostRuntime) -> Result<(), AllocError> {
    let sender = large(sends(65, MAC_B, 9014));
    let target = large(QUIET);
    let guests = [sender, target];
    let wanted = [(up(0), 65)];
    assert!(rt; gives(rt.alloc(), 1, &guests, &wanted)?);
    Ok(())
}

#[test]
fn large_frames_come_up_over_data_rings(rt: HostRuntime) -> Result<(), AllocError> {
    let sender = Sketch {
        data: true,
        ..large(sends(65, MAC_B, 9014))
    };
    let target = Sketch {
        data: true,
        ..large(QUIET)
    };
    let guests = [sender, target];
    let wanted = [(up(0), 65)];
    assert!(rt; gives(rt.alloc(), 1, &guests, &wanted)?);
    Ok(())
}

#[test]
fn bodies_are_passed_over(rt: HostRuntime) -> Result<(), AllocError> {
    let sender = large(sends(20, MAC_B, 60));
    let target = Sketch {
        bodies: 1,
        ..large(QUIET)
    };
    let guests = [sender, target];
    let wanted = [(up(0), 20)];
    assert!(rt; gives(rt.alloc(), 1, &guests, &wanted)?);
    Ok(())
}

#[test]
fn a_flow_moves_with_its_table(rt: HostRuntime) -> Result<(), AllocError> {
    let swap = Sketch {
        rss: true,
        script: Script::Swap,
        ..QUIET
    };
    let flow = Sketch {
        frames: Frames::Flow {
            count: 20,
            to: MAC_A,
        },
        ..QUIET
    };
    let guests = [swap, flow];
    let wanted = [(up(0), 10), (up_on(0, 1), 10)];
    assert!(rt; gives(rt.alloc(), 1, &guests, &wanted)?);
    Ok(())
}

#[test]
fn a_foreign_tag_is_filtered(rt: HostRuntime) -> Result<(), AllocError> {
    let tags = Sketch {
        vlan: Some(5),
        ..sends(1, MAC_B, 60)
    };
    let foreign = Sketch {
        allowed: Some(7),
        ..QUIET
    };
    let guests = [tags, foreign];
    let wanted = [(filtered(Rule::Vlan), 1)];
    assert!(rt; gives(rt.alloc(), 1, &guests, &wanted)?);
    Ok(())
}

#[test]
fn polls_make_room(rt: HostRuntime) -> Result<(), AllocError> {
    let sender = sends(80, MAC_B, 60);
    let small = Sketch { ring: 32, ..QUIET };
    let guests = [sender, small];
    let wanted = [
        (up(0), 32),
        (missed(1, 32, 0), 8),
        (up(32), 32),
        (missed(1, 64, 8), 8),
    ];
    assert!(rt; gives(rt.alloc(), 40, &guests, &wanted)?);
    Ok(())
}

#[test]
fn filtered_copies_count_for_polls(rt: HostRuntime) -> Result<(), AllocError> {
    let sender = Sketch {
        frames: Frames::BroadcastsFirst,
        ..QUIET
    };
    let ucast = Sketch {
        mode: 1,
        ring: 32,
        ..QUIET
    };
    let guests = [sender, ucast];
    let wanted = [(filtered(Rule::Broadcast), 32), (up(0), 33)];
    assert!(rt; gives(rt.alloc(), 64, &guests, &wanted)?);
    Ok(())
}

/// Whether frame `k` of the guest's first receive queue passed over so many bodies, and lies at these rings and positions.
fn lies_at(world: &World, port: usize, k: usize, passed: u64, chain: &[(u32, u64)]) -> bool {
    if port >= world.seats.len() {
        return false;
    }
    let queues = &world.seats.at(port).rx;
    if queues.is_empty() || k >= queues.at(0).delivered.len() {
        return false;
    }
    let frame = queues.at(0).delivered.at(k);
    frame.passed == passed && frame.chain.as_slice() == chain
}

#[test]
fn short_frames_pass_a_body_over(rt: HostRuntime) -> Result<(), AllocError> {
    let bodies = Sketch {
        bodies: 1,
        ..large(QUIET)
    };
    let Some(world) = world_of(rt.alloc(), &[large(sends(20, MAC_B, 60)), bodies])? else {
        panic!(rt; "no plan");
    };
    assert!(rt; lies_at(&world, 1, 0, 0, &[(1, 0)]));
    for k in 1..20u64 {
        assert!(rt; lies_at(&world, 1, k as usize, 1, &[(1, 2 * k)]));
    }
    Ok(())
}

#[test]
fn a_large_frame_lies_in_both_rings(rt: HostRuntime) -> Result<(), AllocError> {
    let bodies = Sketch {
        bodies: 1,
        ..large(QUIET)
    };
    let Some(world) = world_of(rt.alloc(), &[large(sends(1, MAC_B, 9014)), bodies])? else {
        panic!(rt; "no plan");
    };
    assert!(rt; lies_at(&world, 1, 0, 0, &[(1, 0), (1, 1), (2, 0)]));
    Ok(())
}
