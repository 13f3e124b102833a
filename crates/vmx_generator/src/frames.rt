//! The frames: an Ethernet header of 14 bytes, an IPv4 header of 20, a TCP header of 20, and bytes that count up. No checksum is made.
//! Numbers are big-endian.

ghost use Rattle.std.specs.Prelude.{◌≡◌, ◌++◌, ◌<◌, ◌≤◌, ◌^◌, IfOk, OnOk};
ghost use Rattle.vmx_generator.specs.declared.draws.Draws.{Draws as ThreeDraws};
ghost use Rattle.vmx_generator.specs.Frames.{address_of, destination_of, length_of as length_by, ipv4_header as ipv4_header_of, tcp_header as tcp_header_of, body as body_of, frame_of, first_frames};

use crate::all_draws::AllDraws;
use crate::draws::Draws;
use crate::{FRAMES, GUESTS};
use std::alloc::{AllocError, Global};
use vmx_frame::{ADDRESS_LEN, HEADER_LEN};
use vmx_io::{Bytes, List};
use vmx_pcap::{Capture, Stamped};

/// The address of all stations (IEEE 802.3).
const BROADCAST: [u8; ADDRESS_LEN] = [0xff; ADDRESS_LEN];

/// An address that no guest has.
const NOBODY: [u8; ADDRESS_LEN] = [0x00, 0x50, 0x56, 0x00, 0x02, 0x00];

/// Of so many draws one goes to all stations, and one to none.
const KINDS: u32 = 10;

/// The type of IPv4 (RFC 894).
const IPV4_TYPE: [u8; 2] = [0x08, 0x00];

/// The bytes of all three headers.
const HEADERS: u16 = 54;

/// The bytes of the shortest frame.
const SHORTEST: u16 = 60;

/// The lengths that frames can have: 60 to 1,514 bytes.
const LENGTHS: u32 = 1_455;

/// The IPv4 addresses that frames are sent to.
const HOSTS: u32 = 16;

/// The lowest source port, and how many there are.
const FIRST_PORT: u16 = 1_024;

const PORTS: u32 = 64;

/// The destination port: that of HTTP.
const HTTP: u16 = 80;

/// The capture of a guest.
pub fn capture(alloc: Global, guest: u8, draws: &AllDraws) -> Result<Capture, AllocError>
    requires guest { guest < 8 }
    ensures records { IfOk result (λ c. c.records ≡ first_frames draws.now.number guest 2000) }
    ensures tail { IfOk result (λ c. c.tail ≡ 0) }
{
    let mut records = Vec::with_capacity(alloc, FRAMES as usize)?;
    for number in 0..FRAMES {
        let frame = frame(alloc, guest, number, draws.at(guest, number))?;
        records.push(Stamped {
            seconds: u32::from(number),
            micros: u32::from(guest),
            frame,
        })?;
    }
    Ok(Capture {
        records: List::of(records),
        tail: 0,
    })
}

/// A frame of a guest, by its number and its draws.
pub fn frame(alloc: Global, guest: u8, number: u16, draws: Draws) -> Result<Bytes, AllocError>
    ensures frame { IfOk result (λ f. f ≡ frame_of guest number draws) }
{
    let length = length(draws.size);
    let mut frame = Vec::with_capacity(alloc, usize::from(length))?;
    frame.extend_from_slice(&destination(draws.destination))?;
    frame.extend_from_slice(&address(guest))?;
    frame.extend_from_slice(&IPV4_TYPE)?;
    frame.extend_from_slice(&ipv4_header(guest, number, length, draws.flow))?;
    frame.extend_from_slice(&tcp_header(number, draws.flow))?;
    fill(&mut frame, number, length - HEADERS)?;
    Ok(Bytes::of(frame))
}

/// The address of a guest.
pub fn address(guest: u8) -> [u8; ADDRESS_LEN]
    ensures address { result ≡ address_of guest }
{
    [0x00, 0x50, 0x56, 0x00, 0x01, guest]
}

#[tactic(auto, unfolding(crate::specs::Frames::destination_of))]
fn destination(draw: u32) -> [u8; ADDRESS_LEN]
    ensures destination { result ≡ destination_of draw }
{
    match draw % KINDS {
        0 => BROADCAST,
        1 => NOBODY,
        _ => address((draw / KINDS % GUESTS as u32) as u8),
    }
}

/// The bytes of a frame, 60 to 1,514.
fn length(draw: u32) -> u16
    ensures length { result ≡ length_by draw }
{
    SHORTEST + (draw % LENGTHS) as u16
}

/// Version 4 and a header of five words; no service; length and identification; in one piece; 64 hops, TCP; no checksum; addresses.
#[tactic(auto, unfolding(crate::specs::Frames::ipv4_header))]
fn ipv4_header(guest: u8, number: u16, length: u16, draw: u32) -> [u8; 20]
    requires header { 14 ≤ length }
    ensures header { result ≡ ipv4_header_of guest number length draw }
{
    let [length_high, length_low] = (length - HEADER_LEN as u16).to_be_bytes();
    let [number_high, number_low] = number.to_be_bytes();
    let host = (draw % HOSTS) as u8;
    [
        0x45,
        0x00,
        length_high,
        length_low,
        number_high,
        number_low,
        0x40,
        0x00,
        0x40,
        0x06,
        0x00,
        0x00,
        10,
        0,
        0,
        guest,
        10,
        0,
        1,
        host,
    ]
}

/// Ports; sequence number; no number acknowledged; a header of five words, ACK; no window, no checksum, nothing urgent.
#[tactic(auto, unfolding(crate::specs::Frames::tcp_header))]
fn tcp_header(number: u16, draw: u32) -> [u8; 20]
    ensures header { result ≡ tcp_header_of number draw }
{
    let [from_high, from_low] = (FIRST_PORT + (draw % PORTS) as u16).to_be_bytes();
    let [to_high, to_low] = HTTP.to_be_bytes();
    let [first, second, third, fourth] = u32::from(number).to_be_bytes();
    [
        from_high, from_low, to_high, to_low, first, second, third, fourth, 0x00, 0x00, 0x00, 0x00,
        0x50, 0x10, 0x00, 0x00, 0x00, 0x00, 0x00, 0x00,
    ]
}

/// Appends so many bytes, that count up from the frame's number.
fn fill(frame: &mut Vec<u8>, number: u16, count: u16) -> Result<(), AllocError>
    ensures filled { OnOk result (frame.new.items ≡ frame.old.items ++ body_of number count) }
{
    for place in 0..count {
        frame.push(((u32::from(number) + u32::from(place)) % 256) as u8)?;
    }
    Ok(())
}
