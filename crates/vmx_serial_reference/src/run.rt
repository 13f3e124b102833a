//! The serial run of a plan: number by number, guest by guest.
ghost use Rattle.std.specs.Prelude.{◌≡◌, ◌≤◌, ◌<◌, ◌+◌, ◌++◌, [], ◌∷◌, nat_eq, if◌then◌else◌, length, map, OnOk, IfOk};
ghost use Rattle.vmx_model.specs.Serial.{turns, seats_from, start, wires_from, closed, serial_run as serial_run_of};
ghost use Rattle.vmx_serial_seats.specs.Seats.{seat_of};
ghost use Rattle.vmx_serial_reference.specs.Worlds.{wire_of, world_of, IsOnTheWay, MOST_OF_ROUND, empty_wire};

use crate::world::{Wire, World};
use std::alloc::{AllocError, Global};
use vmx_io::List;
use vmx_model::{GuestPlan, Plan};
use vmx_plan_bounds::last_number;
use vmx_serial_seats::Seat;
use vmx_switch::MAX_PORTS;

/// The serial run of a plan. It takes time that grows with the square of the plan, and worse: plans for it are small.
#[tactic(auto, unfolding(vmx_model::specs::Serial::serial_run))]
pub fn serial_run(alloc: Global, plan: &Plan) -> Result<World, AllocError>
    ensures run { IfOk result (λ w. world_of w ≡ serial_run_of plan.now) }
{
    let mut world = begin(alloc, plan)?;
    let last = last_number(plan);
    for number in 0..last {
        round(alloc, plan, number, &mut world)?;
    }
    close_all(alloc, &mut world.seats)?;
    Ok(world)
}

/// A number: the turn of each guest in port order.
fn round(alloc: Global, plan: &Plan, number: u32, world: &mut World) -> Result<(), AllocError>
    requires way { IsOnTheWay plan.now MOST_OF_ROUND (world_of world.old) }
    ensures turns { OnOk result (world_of world.new ≡ turns plan.now number (length plan.now.guests) (world_of world.old)) }
{
    let guests = plan.guests.len() as u32;
    for port in 0..guests {
        world.turn(alloc, plan, number, port)?;
    }
    Ok(())
}

/// The world before the first number.
fn begin(alloc: Global, plan: &Plan) -> Result<World, AllocError>
    ensures start { IfOk result (λ w. world_of w ≡ start plan.now) }
{
    let seats = first_seats(alloc, plan.guests.as_slice())?;
    let guests = plan.guests.len() as u32;
    let mut wires = List::new(alloc);
    for from in 0..guests {
        wire_to_others(alloc, guests, from, &mut wires)?;
    }
    Ok(World { seats, wires })
}

/// Every guest, activated.
fn first_seats(alloc: Global, guests: &[GuestPlan]) -> Result<List<Seat>, AllocError>
    requires few { length guests.now ≤ MAX_PORTS }
    ensures seats { IfOk result (λ ss. map seat_of ss ≡ seats_from 0 guests.now) }
{
    let mut seats = List::new(alloc);
    for (port, guest) in guests.iter().enumerate() {
        let mut seat = Seat::fresh(alloc, guest);
        seat.activate(alloc, port as u32, guest)?;
        seats.push(seat)?;
    }
    Ok(seats)
}

/// Makes the links from a port to all others.
fn wire_to_others(
    alloc: Global,
    guests: u32,
    from: u32,
    wires: &mut List<Wire>,
) -> Result<(), AllocError>
    ensures wires { OnOk result (map wire_of wires.new ≡ map wire_of wires.old ++ wires_from guests from) }
{
    for to in 0..guests {
        wire_if_other(alloc, from, to, wires)?;
    }
    Ok(())
}

/// Makes the link from a port to another.
fn wire_if_other(
    alloc: Global,
    from: u32,
    to: u32,
    wires: &mut List<Wire>,
) -> Result<(), AllocError>
    ensures wire { OnOk result (map wire_of wires.new ≡ (if nat_eq from to then map wire_of wires.old else map wire_of wires.old ++ empty_wire from to ∷ [])) }
{
    if from != to {
        wires.push(Wire {
            from,
            to,
            pushed: List::new(alloc),
            pulled: List::new(alloc),
        })?;
    }
    Ok(())
}

/// Every driver polls, and active guests are quiesced.
fn close_all(alloc: Global, seats: &mut List<Seat>) -> Result<(), AllocError>
    ensures closed { OnOk result (map seat_of seats.new ≡ map closed (map seat_of seats.old)) }
{
    for i in 0..seats.len() {
        seats.at_mut(i).close(alloc)?;
    }
    Ok(())
}
