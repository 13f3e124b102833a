//! Packets a second through links, on one thread and on two. A packet is moved and never copied.
ghost use Rattle.std.specs.Prelude.{◌+◌, ◌≤◌, length};
ghost use Rattle.vmx_link.specs.Ends.{out_view, in_view};

use std::alloc::{AllocError, Global};
use std::rt::Clock;
use std::thread;
use std::thread::Threads;
use std::time::Instant;
use vmx_ends::{Packet, Tag};
use vmx_link::{LinkIn, LinkOut, Pull, Push, pair};

/// How many packets go round between the two threads.
const AFLOAT: u32 = 32;

/// A link is looked at no more often than this.
const TRIES: u64 = 1 << 40;

fn packet_of(alloc: Global) -> Result<Packet, AllocError> {
    let tag = Tag {
        guest: 0,
        activation: 0,
        queue: 0,
        place: 0,
    };
    Ok(Packet::holding(tag, Vec::from_elem(alloc, 7u8, 1500)?))
}

/// Pushes a packet and pulls it again, this many times.
fn push_and_pull(output: &mut LinkOut, input: &mut LinkIn, packet: Packet, count: u32) -> u32
    requires pushed { length (out_view output.old).pushed ≤ 64 }
    requires full { length (out_view output.old).full ≤ 64 }
    requires pulled { length (in_view input.old).pulled ≤ 64 }
{
    let mut packet = packet;
    for done in 0..count {
        match output.push(packet) {
            Push::Done { place: _ } => {}
            Push::Full {
                packet: _,
                word: _,
                look: _,
            } => return done,
        }
        match input.pull() {
            Pull::Packet {
                place: _,
                packet: back,
            } => packet = back,
            Pull::Empty { word: _ } => return done,
        }
    }
    count
}

/// Pulls packets from one link and pushes them into the other, this many.
fn forward(input: LinkIn, output: LinkOut, count: u32) -> u32
    requires pushed { length (out_view output).pushed ≤ 64 }
    requires full { length (out_view output).full ≤ 64 }
    requires pulled { length (in_view input).pulled ≤ 64 }
{
    let mut input = input;
    let mut output = output;
    let mut moved = 0;
    let mut waiting: Option<Packet> = None;
    for tries in 0..TRIES {
        if moved == count {
            break;
        }
        waiting = match waiting {
            Some(packet) => match output.push(packet) {
                Push::Done { place: _ } => {
                    moved += 1;
                    None
                }
                Push::Full {
                    packet,
                    word: _,
                    look: _,
                } => {
                    thread::yield_now();
                    Some(packet)
                }
            },
            None => match input.pull() {
                Pull::Packet { place: _, packet } => Some(packet),
                Pull::Empty { word: _ } => {
                    thread::yield_now();
                    None
                }
            },
        };
    }
    moved
}

/// Puts the packets that go round into a new link.
fn fill(output: &mut LinkOut, alloc: Global) -> Result<(), AllocError>
    requires pushed { length (out_view output.old).pushed ≤ 0 }
    requires full { length (out_view output.old).full ≤ 0 }
    ensures pushed { length (out_view output.new).pushed ≤ 64 }
    ensures full { length (out_view output.new).full ≤ 64 }
{
    for filled in 0..AFLOAT {
        output.push(packet_of(alloc)?);
    }
    Ok(())
}

/// Prints how many packets went through a link and the nanoseconds that it took, on one thread and on two. On two, each
/// packet goes there through one link and back through another.
pub fn measure<R: Print + Clock + Threads + Sync>(
    rt: &R,
    alloc: Global,
    count: u32,
) -> anyhow::Result<()> {
    let (mut output, mut input) = pair(alloc, 0, 1, 64)?;
    let packet = packet_of(alloc)?;
    let start = Instant::now(rt)?;
    let done = push_and_pull(&mut output, &mut input, packet, count);
    let took = start.elapsed(rt)?.as_nanos();
    println!(rt; "one-thread {done} {took}")?;

    let (there_out, there_in) = pair(alloc, 0, 1, 64)?;
    let (mut back_out, back_in) = pair(alloc, 1, 0, 64)?;
    fill(&mut back_out, alloc)?;
    let start = Instant::now(rt)?;
    let (there, back) = thread::join(
        rt,
        move ||
            requires room { (length (out_view there_out).pushed ≤ 64) × (length (out_view there_out).full ≤ 64) × (length (in_view back_in).pulled ≤ 64) }
        { forward(back_in, there_out, count) },
        move ||
            requires room { (length (out_view back_out).pushed ≤ 64) × (length (out_view back_out).full ≤ 64) × (length (in_view there_in).pulled ≤ 64) }
        { forward(there_in, back_out, count) },
    );
    let took = start.elapsed(rt)?.as_nanos();
    println!(rt; "two-threads {there} {back} {took}")?;
    Ok(())
}
