//! All guests of the serial run and the links between them.
ghost use Rattle.std.specs.Prelude.{◌≡◌, ◌≤◌, ◌<◌, ◌+◌, ◌^◌, length, map, take, All, OnOk, IfOk, Some, slice_get, slice_index_or, if◌then◌else◌};
ghost use Rattle.vmx_model.specs.Totals.{wiring};
ghost use Rattle.vmx_model.specs.Wire.{targets as targets_by, wire_form as wire_form_of};
ghost use Rattle.vmx_model.specs.Plan.{captured};
ghost use Rattle.vmx_model.specs.Serial.{Seat as SeatValue, at_number, noted, arrived, transmitted, acted, where_it, is_wire, carried, pushed_on as pushed_on_of, reaches, spread as spread_of, sends, turn as turn_of};
ghost use Rattle.vmx_serial_queues.specs.Queues.{marked};
ghost use Rattle.vmx_serial_seats.specs.Seats.{seat_of};
ghost use Rattle.vmx_serial_seats.specs.Small.{IsSmall, MOST};
ghost use Rattle.vmx_model.specs.Turns.{send_from};
ghost use Rattle.vmx_serial_reference.specs.Worlds.{wire_of, world_of, IsOnTheWay};

use std::alloc::{AllocError, Global};
use vmx_ends::{MAX_FRAME, Tag, TxMark};
use vmx_frame::{ADDRESS_LEN, HEADER_LEN};
use vmx_io::{Bytes, List};
use vmx_model::{Entry, GuestPlan, Plan, Sending, Way, verdict};
use vmx_serial_queues::{mark_of, wire_form};
use vmx_serial_seats::Seat;
use vmx_switch::{MAX_PORTS, Table, Targets, targets};

/// A packet.
#[derive(Drop)]
pub struct Carried {
    pub tag: Tag,
    pub frame: Bytes,
}

/// A link from one port to another: what was pushed and what was pulled.
#[derive(Drop)]
pub struct Wire {
    pub from: u32,
    pub to: u32,
    pub pushed: List<Carried>,
    pub pulled: List<Carried>,
}

/// All guests in the order of their ports, and the links between them.
#[derive(Drop)]
pub struct World {
    pub seats: List<Seat>,
    pub wires: List<Wire>,
}

impl World {
    /// One copy crosses its link and is handled at once.
    fn reach(
        &mut self,
        alloc: Global,
        plan: &Plan,
        tag: Tag,
        frame: &[u8],
        to: u32,
    ) -> Result<(), AllocError>
        requires port { to < length plan.now.guests }
        requires frame { (HEADER_LEN ≤ length frame.now) × (length frame.now ≤ MAX_FRAME) }
        requires small { All (IsSmall MOST) (map seat_of self.old.seats) }
        ensures reaches { OnOk result (world_of self.new ≡ reaches plan.now tag frame.now (world_of self.old) to) }
    {
        let place = pushed_on(self.wires.as_slice(), tag.guest, to);
        let out = Entry::Out {
            tag,
            target: to,
            way: Way::Link { place },
        };
        note_at(&mut self.seats, tag.guest, out)?;
        let mac = &plan.guests.at(to as usize).mac;
        arrive_at(
            alloc,
            &mut self.seats,
            to,
            plan.poll_every,
            mac,
            tag.guest,
            place,
            frame,
        )?;
        carry(alloc, &mut self.wires, to, tag, frame)
    }

    /// A frame goes to each target in port order, or to nobody.
    fn spread(
        &mut self,
        alloc: Global,
        plan: &Plan,
        tag: Tag,
        frame: &[u8],
        targets: &[u32],
    ) -> Result<(), AllocError>
        requires ports { All (λ to. to < length plan.now.guests) targets.now }
        requires few { length targets.now ≤ MAX_PORTS }
        requires frame { (HEADER_LEN ≤ length frame.now) × (length frame.now ≤ MAX_FRAME) }
        requires small { All (IsSmall (2 ^ 31 + 2 ^ 9)) (map seat_of self.old.seats) }
        ensures spread { OnOk result (world_of self.new ≡ spread_of plan.now tag frame.now targets.now (world_of self.old)) }
    {
        if targets.is_empty() {
            return note_at(&mut self.seats, tag.guest, Entry::Lost { tag });
        }
        for to in targets {
            self.reach(alloc, plan, tag, frame, *to)?;
        }
        Ok(())
    }

    /// A frame is sent: as it is posted it goes through its queue, and its wire form to its targets.
    fn send_on(
        &mut self,
        alloc: Global,
        plan: &Plan,
        tag: Tag,
        frame: &[u8],
        mark: &TxMark,
    ) -> Result<(), AllocError>
        requires port { tag.guest < length plan.now.guests }
        requires header { HEADER_LEN ≤ length frame.now }
        requires wire { (HEADER_LEN ≤ length (wire_form_of (marked frame.now mark.now))) × (length (wire_form_of (marked frame.now mark.now)) ≤ MAX_FRAME) }
        requires small { All (IsSmall (2 ^ 31 + 2 ^ 8)) (map seat_of self.old.seats) }
        ensures sent { OnOk result (world_of self.new ≡ send_from plan.now tag (marked frame.now mark.now) (world_of self.old)) }
    {
        transmit_at(
            alloc,
            &mut self.seats,
            tag.guest,
            tag.activation,
            tag.queue,
            frame,
            mark,
        )?;
        let wire = wire_form(alloc, frame, mark)?;
        let found = targets_of(alloc, plan, tag.guest, &wire)?;
        self.spread(
            alloc,
            plan,
            tag,
            &wire,
            &found.ports[..found.count as usize],
        )
    }

    /// The frame of a number, if there is one: only one that is sent moves.
    fn send(
        &mut self,
        alloc: Global,
        plan: &Plan,
        port: u32,
        guest: &GuestPlan,
        number: u32,
    ) -> Result<(), AllocError>
        requires guest { slice_get plan.now.guests port ≡ Some guest.now }
        requires small { All (IsSmall (2 ^ 31 + 2 ^ 8)) (map seat_of self.old.seats) }
        ensures sends { OnOk result (world_of self.new ≡ sends plan.now port guest.now (slice_get (captured guest.now) number) (world_of self.old)) }
    {
        let records = guest.capture.records.as_slice();
        if number as usize >= records.len() {
            return Ok(());
        }
        match verdict(plan, port, number) {
            Sending::Sent {
                activation,
                queue,
                place,
            } => {
                let tag = Tag {
                    guest: port,
                    activation,
                    queue,
                    place,
                };
                let frame = records[number as usize].frame.as_slice();
                self.send_on(alloc, plan, tag, frame, &mark_of(guest, frame))
            }
            Sending::Down => Ok(()),
            Sending::Short => Ok(()),
            Sending::TooLong => Ok(()),
        }
    }

    /// A guest at a number: its actions, then its frame.
    pub fn turn(
        &mut self,
        alloc: Global,
        plan: &Plan,
        number: u32,
        port: u32,
    ) -> Result<(), AllocError>
        requires way { IsOnTheWay plan.now (2 ^ 31) (world_of self.old) }
        ensures turn { OnOk result (world_of self.new ≡ turn_of plan.now number port (world_of self.old)) }
    {
        if port as usize >= plan.guests.len() {
            return Ok(());
        }
        let guest = plan.guests.at(port as usize);
        act_at(alloc, &mut self.seats, port, guest, number)?;
        self.send(alloc, plan, port, guest, number)
    }
}

/// An entry goes last in the journal of the guest at a port.
fn note_at(seats: &mut List<Seat>, port: u32, entry: Entry) -> Result<(), AllocError>
    ensures noted { OnOk result (map seat_of seats.new ≡ at_number port (noted entry) (map seat_of seats.old)) }
{
    let port = port as usize;
    if port < seats.len() {
        seats.at_mut(port).note(entry)?;
    }
    Ok(())
}

/// A copy reaches the guest at a port.
fn arrive_at(
    alloc: Global,
    seats: &mut List<Seat>,
    port: u32,
    poll_every: u32,
    mac: &[u8; ADDRESS_LEN],
    from: u32,
    place: u64,
    frame: &[u8],
) -> Result<(), AllocError>
    requires polls { 1 ≤ poll_every }
    requires frame { (HEADER_LEN ≤ length frame.now) × (length frame.now ≤ MAX_FRAME) }
    requires small { All (IsSmall MOST) (map seat_of seats.old) }
    ensures arrived { OnOk result (map seat_of seats.new ≡ at_number port (arrived poll_every mac.now from place frame.now) (map seat_of seats.old)) }
{
    let port = port as usize;
    if port < seats.len() {
        seats
            .at_mut(port)
            .arrive(alloc, poll_every, mac, from, place, frame)?;
    }
    Ok(())
}

/// A frame goes through its queue at the guest at a port.
fn transmit_at(
    alloc: Global,
    seats: &mut List<Seat>,
    port: u32,
    activation: u32,
    queue: u32,
    frame: &[u8],
    mark: &TxMark,
) -> Result<(), AllocError>
    ensures transmitted { OnOk result (map seat_of seats.new ≡ at_number port (transmitted activation queue (marked frame.now mark.now)) (map seat_of seats.old)) }
{
    let port = port as usize;
    if port < seats.len() {
        seats
            .at_mut(port)
            .transmit(alloc, activation, queue, frame, mark)?;
    }
    Ok(())
}

/// The actions of a number at the guest at a port.
fn act_at(
    alloc: Global,
    seats: &mut List<Seat>,
    port: u32,
    plan: &GuestPlan,
    number: u32,
) -> Result<(), AllocError>
    requires queues { (d : SeatValue) → port < length seats.old → (slice_index_or (map seat_of seats.old) port d).setup.rx_queues ≡ plan.now.setup.rx_queues }
    requires small { All (IsSmall (2 ^ 31)) (map seat_of seats.old) }
    ensures acted { OnOk result (map seat_of seats.new ≡ at_number port (acted port plan.now number) (map seat_of seats.old)) }
{
    let index = port as usize;
    if index < seats.len() {
        seats.at_mut(index).act(alloc, port, plan, number)?;
    }
    Ok(())
}

/// How many packets were pushed on the link between two ports.
fn pushed_on(wires: &[Wire], from: u32, to: u32) -> u64
    ensures pushed { result ≡ pushed_on_of (map wire_of wires.now) from to }
{
    for wire in wires {
        if wire.from == from && wire.to == to {
            return wire.pushed.len() as u64;
        }
    }
    0
}

/// A packet is pushed on the link to a port, and pulled at once.
fn carry(
    alloc: Global,
    wires: &mut List<Wire>,
    to: u32,
    tag: Tag,
    frame: &[u8],
) -> Result<(), AllocError>
    ensures carried { OnOk result (map wire_of wires.new ≡ where_it (is_wire tag.guest to) (carried (record { tag = tag; frame = frame.now })) (map wire_of wires.old)) }
{
    for i in 0..wires.len() {
        carry_if(alloc, wires.at_mut(i), to, tag, frame)?;
    }
    Ok(())
}

/// The packet goes last in a link, where it is its link.
fn carry_if(
    alloc: Global,
    wire: &mut Wire,
    to: u32,
    tag: Tag,
    frame: &[u8],
) -> Result<(), AllocError>
    ensures carried { OnOk result (wire_of wire.new ≡ (if is_wire tag.guest to (wire_of wire.old) then carried (record { tag = tag; frame = frame.now }) (wire_of wire.old) else wire_of wire.old)) }
{
    if wire.from == tag.guest && wire.to == to {
        wire.pushed.push(Carried {
            tag,
            frame: Bytes::from_slice(alloc, frame)?,
        })?;
        wire.pulled.push(Carried {
            tag,
            frame: Bytes::from_slice(alloc, frame)?,
        })?;
    }
    Ok(())
}

/// The ports to which the switch gives a frame.
pub fn targets_of(
    alloc: Global,
    plan: &Plan,
    from: u32,
    frame: &[u8],
) -> Result<Targets, AllocError>
    requires port { from < length plan.now.guests }
    requires header { HEADER_LEN ≤ length frame.now }
    ensures targets { IfOk result (λ t. take t.count t.ports ≡ targets_by (wiring plan.now.guests) from frame.now) }
    ensures long { IfOk result (λ t. t.count ≤ length t.ports) }
{
    let mut macs = Vec::new(alloc);
    let mut sniffers = Vec::new(alloc);
    for guest in plan.guests.as_slice() {
        macs.push(guest.mac)?;
        sniffers.push(guest.sniffer)?;
    }
    let table = Table::new(macs.as_slice(), sniffers.as_slice());
    Ok(targets(&table, from, frame))
}
