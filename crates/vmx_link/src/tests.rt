//! What no clause says: that memory for a link can be had, and that two threads carry packets to the end.
ghost use Rattle.std.specs.Prelude.{◌≡◌, ◌≤◌, [], length, IfOk};
ghost use Rattle.vmx_link.specs.Ends.{out_view, in_view};

use crate::{LinkIn, LinkOut, Pull, Push, meet, pair};
use std::alloc::{AllocError, Global};
use std::test::Fail;
use std::thread;
use vmx_ends::{Packet, Tag};

const PACKETS: u64 = 20_000;

/// A link is looked at no more often than this: far more often than any run needs.
const TRIES: u64 = 1 << 40;

/// How many bytes frames are cut from.
const TEXT: usize = 9_265;

/// The bytes that frames are cut from.
fn text(alloc: Global) -> Result<Vec<u8>, AllocError>
    ensures len { IfOk result (λ v. length v.items ≡ TEXT) }
{
    let mut text = Vec::from_elem(alloc, 0u8, TEXT)?;
    for i in 0..TEXT {
        text[i] = (i % 251) as u8;
    }
    Ok(text)
}

/// The frame with this number: 60 to 9,014 bytes from one of 251 places on.
fn frame_of(text: &[u8], number: u64) -> &[u8]
    requires text { length text.now ≡ TEXT }
    ensures least { 60 ≤ length result.now }
    ensures most { length result.now ≤ 9014 }
{
    let start = (number % 251) as usize;
    let length = 60 + (number % 8955) as usize;
    &text[start..start + length]
}

fn tag_of(number: u64) -> Tag {
    Tag {
        guest: 2,
        activation: 1,
        queue: 3,
        place: number,
    }
}

fn packet_of(alloc: Global, text: &[u8], number: u64) -> Result<Packet, AllocError>
    requires text { length text.now ≡ TEXT }
{
    Packet::copy_of(alloc, tag_of(number), frame_of(text, number))
}

fn is_packet(packet: &Packet, text: &[u8], number: u64) -> bool
    requires text { length text.now ≡ TEXT }
{
    packet.tag == tag_of(number) && packet.frame.as_slice() == frame_of(text, number)
}

/// Pushes all packets, as often as it takes.
fn send(output: LinkOut, alloc: Global, text: &[u8]) -> Result<LinkOut, AllocError>
    requires text { length text.now ≡ TEXT }
    requires fresh { (out_view output).pushed ≡ [] }
    requires none_full { (out_view output).full ≡ [] }
    ensures key { IfOk result (λ o. (out_view o).key ≡ (out_view output).key) }
    ensures given { IfOk result (λ o. (out_view o).notes_given ≡ (out_view output).notes_given) }
    ensures heard { IfOk result (λ o. (out_view o).notes_heard ≡ (out_view output).notes_heard) }
{
    let mut output = output;
    let mut number = 0;
    let mut waiting = packet_of(alloc, text, 0)?;
    for tries in 0..TRIES {
        match output.push(waiting) {
            Push::Done { place: _ } => {
                number += 1;
                if number == PACKETS {
                    return Ok(output);
                }
                waiting = packet_of(alloc, text, number)?;
            }
            Push::Full {
                packet,
                word: _,
                look: _,
            } => {
                waiting = packet;
                thread::yield_now();
            }
        }
    }
    Ok(output)
}

/// Pulls all packets, and counts those that are the packet of their number.
fn receive(input: LinkIn, text: &[u8]) -> (LinkIn, u64)
    requires text { length text.now ≡ TEXT }
    requires fresh { (in_view input).pulled ≡ [] }
    ensures key { (in_view result.0).key ≡ (in_view input).key }
    ensures given { (in_view result.0).notes_given ≡ (in_view input).notes_given }
    ensures heard { (in_view result.0).notes_heard ≡ (in_view input).notes_heard }
{
    let mut input = input;
    let mut same = 0;
    let mut number = 0;
    for tries in 0..TRIES {
        if number == PACKETS {
            break;
        }
        match input.pull() {
            Pull::Packet { place, packet } => {
                if place == number && is_packet(&packet, text, number) {
                    same += 1;
                }
                number += 1;
            }
            Pull::Empty { word: _ } => thread::yield_now(),
        }
    }
    (input, same)
}

#[test]
fn two_threads_carry_all_packets_in_order(rt: HostRuntime) -> Result<(), Fail> {
    let alloc = rt.alloc();
    let text = text(alloc)?;
    let text = text.as_slice();
    let (output, input) = pair(alloc, 0, 1, 64)?;
    let (sent, (input, same)) = thread::join(
        &rt,
        move ||
            requires begins { (length text.now ≡ TEXT) × ((out_view output).pushed ≡ []) × ((out_view output).full ≡ []) }
            ensures ends { IfOk result (λ o. ((out_view o).key ≡ (out_view output).key) × ((out_view o).notes_given ≡ (out_view output).notes_given) × ((out_view o).notes_heard ≡ (out_view output).notes_heard)) }
        { send(output, alloc, text) },
        move ||
            requires begins { (length text.now ≡ TEXT) × ((in_view input).pulled ≡ []) }
            ensures ends { ((in_view result.0).key ≡ (in_view input).key) × ((in_view result.0).notes_given ≡ (in_view input).notes_given) × ((in_view result.0).notes_heard ≡ (in_view input).notes_heard) }
        { receive(input, text) },
    );
    let facts = meet(sent?, input);
    assert!(rt; same == PACKETS && facts.pushed() == PACKETS && facts.pulled() == PACKETS);
    Ok(())
}

#[test]
fn a_full_link_hands_the_packet_back(rt: HostRuntime) -> Result<(), Fail> {
    let text = text(rt.alloc())?;
    let text = text.as_slice();
    let (mut output, mut input) = pair(rt.alloc(), 0, 1, 64)?;
    for number in 0u64..64 {
        let Push::Done { place } = output.push(packet_of(rt.alloc(), text, number)?) else {
            panic!(rt; "full at {number}")
        };
        assert!(rt; place == number);
    }
    let Push::Full { packet, word, look } = output.push(packet_of(rt.alloc(), text, 64)?) else {
        panic!(rt; "not full")
    };
    assert!(rt; is_packet(&packet, text, 64) && word == 1 && look == 0);
    let Pull::Packet { place, packet } = input.pull() else {
        panic!(rt; "empty")
    };
    assert!(rt; place == 0 && is_packet(&packet, text, 0));
    let Push::Done { place } = output.push(packet_of(rt.alloc(), text, 65)?) else {
        panic!(rt; "full")
    };
    assert!(rt; place == 64);
    let facts = meet(output, input);
    assert!(rt; facts.from() == 0 && facts.to() == 1);
    assert!(rt; facts.pushed() == 65 && facts.pulled() == 1 && facts.full() == 1);
    Ok(())
}

#[test]
fn notes_go_both_ways(rt: HostRuntime) -> Result<(), Fail> {
    let text = text(rt.alloc())?;
    let text = text.as_slice();
    let (mut output, mut input) = pair(rt.alloc(), 3, 4, 1)?;
    let Pull::Empty { word: 0 } = input.pull() else {
        panic!(rt; "not empty")
    };
    let Push::Done { place: 0 } = output.push(packet_of(rt.alloc(), text, 0)?) else {
        panic!(rt; "full")
    };
    input.hear(output.note());
    let Pull::Packet {
        place: 0,
        packet: _,
    } = input.pull()
    else {
        panic!(rt; "empty")
    };
    output.hear(input.note());
    let Push::Done { place: 1 } = output.push(packet_of(rt.alloc(), text, 1)?) else {
        panic!(rt; "full")
    };
    let facts = meet(output, input);
    assert!(rt; facts.pushed() == 2 && facts.pulled() == 1 && facts.full() == 0);
    Ok(())
}
