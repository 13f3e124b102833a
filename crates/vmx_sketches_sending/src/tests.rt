//! Which copies a frame has, and which frames are sent, by the fates that follow from the rules by hand.

use std::alloc::{AllocError, Global};
use vmx_filters::Rule;
use vmx_model::{Entry, Fate};
use vmx_serial_reference::World;
use vmx_sketches::{
    BROADCAST, Frames, MAC_A, MAC_B, NOBODY, QUIET, Script, Sketch, filtered, gives, sends, up,
    up_on, world_of,
};

#[test]
fn lengths_are_bounded(rt: HostRuntime) -> Result<(), AllocError> {
    let lengths = Sketch {
        frames: Frames::Lengths,
        ..QUIET
    };
    let promisc = Sketch {
        mode: 16,
        sniffer: true,
        ..QUIET
    };
    let guests = [lengths, promisc];
    let wanted = [(Fate::Short, 1), (up(0), 2), (Fate::TooLong, 1)];
    assert!(rt; gives(rt.alloc(), 1, &guests, &wanted)?);
    Ok(())
}

#[test]
fn a_broadcast_goes_to_all(rt: HostRuntime) -> Result<(), AllocError> {
    let to_all = sends(1, BROADCAST, 60);
    let ucast = Sketch { mode: 1, ..QUIET };
    let guests = [to_all, QUIET, QUIET, ucast];
    let wanted = [(up(0), 1), (up(0), 1), (filtered(Rule::Broadcast), 1)];
    assert!(rt; gives(rt.alloc(), 1, &guests, &wanted)?);
    Ok(())
}

#[test]
fn nobody_is_no_port(rt: HostRuntime) -> Result<(), AllocError> {
    let to_nobody = sends(1, NOBODY, 60);
    let guests = [to_nobody, QUIET, QUIET];
    let wanted = [(Fate::NoPort, 1)];
    assert!(rt; gives(rt.alloc(), 1, &guests, &wanted)?);
    Ok(())
}

#[test]
fn a_sniffer_in_promisc_is_given_all(rt: HostRuntime) -> Result<(), AllocError> {
    let to_nobody = sends(1, NOBODY, 60);
    let promisc = Sketch {
        mode: 16,
        sniffer: true,
        ..QUIET
    };
    let guests = [to_nobody, QUIET, promisc];
    let wanted = [(up(0), 1)];
    assert!(rt; gives(rt.alloc(), 1, &guests, &wanted)?);
    Ok(())
}

#[test]
fn a_sniffer_filters(rt: HostRuntime) -> Result<(), AllocError> {
    let to_nobody = sends(1, NOBODY, 60);
    let sniffer = Sketch {
        sniffer: true,
        ..QUIET
    };
    let guests = [to_nobody, QUIET, sniffer];
    let wanted = [(filtered(Rule::Unicast), 1)];
    assert!(rt; gives(rt.alloc(), 1, &guests, &wanted)?);
    Ok(())
}

#[test]
fn a_guest_pauses(rt: HostRuntime) -> Result<(), AllocError> {
    let pause = Sketch {
        script: Script::Pause,
        ..sends(6, MAC_B, 60)
    };
    let other = sends(6, MAC_A, 60);
    let guests = [pause, other];
    let wanted = [
        (up(0), 2),
        (Fate::Down, 3),
        (up(2), 1),
        (up(0), 2),
        (Fate::Inactive, 3),
        (up_on(1, 0), 1),
    ];
    assert!(rt; gives(rt.alloc(), 1, &guests, &wanted)?);
    Ok(())
}

#[test]
fn four_guests_replay(rt: HostRuntime) -> Result<(), AllocError> {
    let mixed = Sketch {
        frames: Frames::Mixed,
        ..QUIET
    };
    let guests = [mixed, QUIET, QUIET, QUIET];
    let wanted = [
        (up(0), 1),
        (up(0), 1),
        (up(0), 1),
        (up(1), 1),
        (up(1), 1),
        (up(1), 1),
        (Fate::TooLong, 1),
    ];
    assert!(rt; gives(rt.alloc(), 1, &guests, &wanted)?);
    Ok(())
}

#[test]
fn four_guests_replay_over_data_rings(rt: HostRuntime) -> Result<(), AllocError> {
    let mixed = Sketch {
        data: true,
        frames: Frames::Mixed,
        ..QUIET
    };
    let quiet = Sketch {
        data: true,
        ..QUIET
    };
    let guests = [mixed, quiet, quiet, quiet];
    let wanted = [
        (up(0), 1),
        (up(0), 1),
        (up(0), 1),
        (up(1), 1),
        (up(1), 1),
        (up(1), 1),
        (Fate::TooLong, 1),
    ];
    assert!(rt; gives(rt.alloc(), 1, &guests, &wanted)?);
    Ok(())
}

#[test]
fn a_reset_loses_nothing(rt: HostRuntime) -> Result<(), AllocError> {
    let reset = Sketch {
        script: Script::Reset,
        ..sends(5, MAC_B, 60)
    };
    let guests = [reset, QUIET];
    let wanted = [(up(0), 5)];
    assert!(rt; gives(rt.alloc(), 1, &guests, &wanted)?);
    Ok(())
}

#[test]
fn a_tag_counts_in_the_length(rt: HostRuntime) -> Result<(), AllocError> {
    let tags = Sketch {
        vlan: Some(5),
        frames: Frames::TagLengths,
        ..QUIET
    };
    let guests = [tags, QUIET];
    let wanted = [(up(0), 1), (Fate::TooLong, 1), (up(1), 1)];
    assert!(rt; gives(rt.alloc(), 1, &guests, &wanted)?);
    Ok(())
}

/// Whether the guest was handed up, as frame `k`, so many bytes with these from byte 12 on and this tag taken out.
fn was_handed(
    world: &World,
    port: usize,
    k: usize,
    bytes: usize,
    from_type: &[u8],
    tci: Option<u16>,
) -> bool {
    if port >= world.seats.len() || k >= world.seats.at(port).received.len() {
        return false;
    }
    let received = world.seats.at(port).received.at(k);
    let frame = received.frame.as_slice();
    let end = 12 + from_type.len().min(64);
    frame.len() == bytes
        && end <= frame.len()
        && &frame[12..end] == from_type
        && received.tci == tci
}

/// Whether the first guest's frame `k`, by a run of these two guests, came to the second so.
fn comes_so(
    alloc: Global,
    guests: &[Sketch],
    k: usize,
    bytes: usize,
    from_type: &[u8],
    tci: Option<u16>,
) -> Result<bool, AllocError> {
    let Some(world) = world_of(alloc, guests)? else {
        return Ok(false);
    };
    Ok(was_handed(&world, 1, k, bytes, from_type, tci))
}

#[test]
fn a_tag_is_put_in(rt: HostRuntime) -> Result<(), AllocError> {
    let tags = Sketch {
        vlan: Some(5),
        ..sends(1, MAC_B, 60)
    };
    assert!(rt;
        comes_so(
            rt.alloc(),
            &[tags, QUIET],
            0,
            64,
            &[0x81, 0x00, 0x00, 0x05],
            None
        )?
    );
    Ok(())
}

#[test]
fn a_tag_is_taken_out(rt: HostRuntime) -> Result<(), AllocError> {
    let tags = Sketch {
        vlan: Some(5),
        ..sends(1, MAC_B, 60)
    };
    let strips = Sketch {
        strip: true,
        ..QUIET
    };
    assert!(rt; comes_so(rt.alloc(), &[tags, strips], 0, 60, &[0x00, 0x00], Some(5))?);
    Ok(())
}

#[test]
fn a_captured_tag_stays(rt: HostRuntime) -> Result<(), AllocError> {
    let tags = Sketch {
        vlan: Some(5),
        frames: Frames::TagLengths,
        ..QUIET
    };
    assert!(rt;
        comes_so(
            rt.alloc(),
            &[tags, QUIET],
            1,
            1_518,
            &[0x81, 0x00, 0x00, 0x09],
            None
        )?
    );
    Ok(())
}

/// Whether the guest gave the frame of this activation and place to its target.
fn has_sent(world: &World, port: usize, activation: u32, place: u64) -> bool {
    if port >= world.seats.len() {
        return false;
    }
    for entry in world.seats.at(port).entries.as_slice() {
        if let Entry::Out { tag, .. } = entry {
            if tag.activation == activation && tag.place == place {
                return true;
            }
        }
    }
    false
}

#[test]
fn a_reset_counts_places_anew(rt: HostRuntime) -> Result<(), AllocError> {
    let reset = Sketch {
        script: Script::Reset,
        ..sends(5, MAC_B, 60)
    };
    let Some(world) = world_of(rt.alloc(), &[reset, QUIET])? else {
        panic!(rt; "no plan");
    };
    for place in 0..3u64 {
        assert!(rt; has_sent(&world, 0, 0, place));
    }
    assert!(rt; has_sent(&world, 0, 1, 0) && has_sent(&world, 0, 1, 1));
    assert!(rt; !has_sent(&world, 0, 0, 3) && !has_sent(&world, 0, 1, 2));
    Ok(())
}
