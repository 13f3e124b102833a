//! The serial order: number by number, and in port order each guest's actions of that number, then its frame to its targets one by
//! one; at the end each driver is closed.
ghost use Rattle.std.specs.Prelude.{◌≡◌, ◌≢◌, ℕ, ◌<◌, ◌≤◌, ◌+◌, All, length, fold, slice_get, IfOk};
ghost use Rattle.vmx_model.specs.Serial.{drained, turn as turn_of, turns, start, serial_run};
ghost use Rattle.vmx_model.specs.Turns.{IsReady};
ghost use Rattle.vmx_replay_runs.specs.Runs.{changes, ComesFrom};
ghost use Rattle.vmx_replay_actors.specs.Runs.{run_view};
ghost use Rattle.vmx_replay_order.specs.Orders.{polled_due, arrives, acted_by, sends_at, closes_all};
ghost use Rattle.vmx_switch.specs.declared.answer.TheConstants.{MAX_PORTS};
ghost use Rattle.vmx_replay_runs.specs.Short.{AreShort, ENTRIES_AT_ROUND, ENTRIES_AT_TURN, ENTRIES_AT_FRAME, ENTRIES_AT_ARRIVALS, ENTRIES_AT_CLOSE, MOST_ENTRIES};
ghost use Rattle.vmx_replay_runs.specs.Standing.{HasBegun, Stands, StandAll, OthersStand, OthersBegun, AreOver};

use std::alloc::AllocError;
use vmx_ends::Fabric;
use vmx_model::Plan;
use vmx_plan_bounds::last_number;
use vmx_replay_actors::Run;

/// The serial order of a plan, from guests that are activated on, to guests that are all closed: it leaves the world of the model's
/// serial run. `AllocError` comes from the run alone, which is then gone.
pub fn serial<'a, F: Fabric>(plan: &Plan, run: Run<'a, F>) -> Result<Run<'a, F>, AllocError>
    requires plan { (run_view run).plan ≡ plan.now }
    requires start { (run_view run).world ≡ start plan.now }
    requires fresh { (h : ℕ) → h < length plan.now.guests → ((run_view run).reached h ≡ 0) × ((run_view run).passed h ≡ 0) }
    requires unclosed { (run_view run).closings ≡ 0 }
    ensures run { IfOk result (λ new. (run_view new).world ≡ serial_run plan.now) }
    ensures plan { IfOk result (λ new. (run_view new).plan ≡ plan.now) }
    ensures closed { IfOk result (λ new. (run_view new).closings ≡ length plan.now.guests) }
{
    let guests = plan.guests.len() as u32;
    let last = last_number(plan);
    let mut run = run;
    for number in 0..last {
        run = round(run, guests, number)?;
    }
    close_all(run, guests)
}

/// A number: the turn of each guest in port order.
fn round<'a, F: Fabric>(run: Run<'a, F>, guests: u32, number: u32) -> Result<Run<'a, F>, AllocError>
    requires guests { guests ≡ length (run_view run).plan.guests }
    requires stand { StandAll number (run_view run) }
    requires ready { IsReady (run_view run).plan (run_view run).world }
    requires short { AreShort ENTRIES_AT_ROUND (run_view run).world }
    ensures turns { IfOk result (λ new. (run_view new).world ≡ turns (run_view run.entry).plan number guests (run_view run.entry).world) }
    ensures plan { IfOk result (λ new. (run_view new).plan ≡ (run_view run.entry).plan) }
    ensures stand { IfOk result (λ new. StandAll (number + 1) (run_view new)) }
    ensures closings { IfOk result (λ new. (run_view new).closings ≡ (run_view run.entry).closings) }
{
    let mut run = run;
    for port in 0..guests {
        run = turn(run, port, number)?;
    }
    Ok(run)
}

/// A guest at a number: its actions, then its frame.
fn turn<'a, F: Fabric>(run: Run<'a, F>, port: u32, number: u32) -> Result<Run<'a, F>, AllocError>
    requires port { port < length (run_view run).plan.guests }
    requires stands { Stands number port (run_view run) }
    requires ready { IsReady (run_view run).plan (run_view run).world }
    requires short { AreShort ENTRIES_AT_TURN (run_view run).world }
    ensures turn { IfOk result (λ new. (run_view new).world ≡ turn_of (run_view run.entry).plan number port (run_view run.entry).world) }
    ensures stands { IfOk result (λ new. Stands (number + 1) port (run_view new)) }
    ensures others { IfOk result (λ new. OthersStand port (run_view run.entry) (run_view new)) }
{
    let run = act_all(run, port, number)?;
    send(run, port, number)
}

/// The actions of a number, in order.
fn act_all<'a, F: Fabric>(run: Run<'a, F>, port: u32, number: u32) -> Result<Run<'a, F>, AllocError>
    requires port { port < length (run_view run).plan.guests }
    requires stands { Stands number port (run_view run) }
    requires ready { IsReady (run_view run).plan (run_view run).world }
    requires short { AreShort ENTRIES_AT_TURN (run_view run).world }
    ensures acted { IfOk result (λ new. (run_view new).world ≡ acted_by port number (slice_get (run_view run.entry).plan.guests port) (run_view run.entry).world) }
    ensures begun { IfOk result (λ new. HasBegun port (number + 1) (run_view new)) }
    ensures others { IfOk result (λ new. OthersBegun port (run_view run.entry) (run_view new)) }
{
    let mut run = run;
    while run.is_acting(port, number) {
        run = run.act(port, number)?;
    }
    Ok(run)
}

/// The frame of a number, where it is sent: it goes out, and its targets take it one by one.
fn send<'a, F: Fabric>(run: Run<'a, F>, port: u32, number: u32) -> Result<Run<'a, F>, AllocError>
    requires port { port < length (run_view run).plan.guests }
    requires passed { (run_view run).passed port ≡ number }
    requires begun { HasBegun port (number + 1) (run_view run) }
    requires ready { IsReady (run_view run).plan (run_view run).world }
    requires short { AreShort ENTRIES_AT_FRAME (run_view run).world }
    ensures sends { IfOk result (λ new. run_view new ≡ sends_at port number (run_view run.entry)) }
{
    let (targets, run) = run.put(port, number)?;
    arrive_each(run, port, &targets.ports[..targets.count as usize])
}

/// Each target of a frame takes its copy, in port order.
fn arrive_each<'a, F: Fabric>(
    run: Run<'a, F>,
    from: u32,
    targets: &[u32],
) -> Result<Run<'a, F>, AllocError>
    requires from { from < length (run_view run).plan.guests }
    requires targets { All (λ to. (to < length (run_view run).plan.guests) × (to ≢ from)) targets.now }
    requires alone { ComesFrom from (run_view run).world }
    requires few { length targets.now ≤ MAX_PORTS }
    requires short { AreShort ENTRIES_AT_ARRIVALS (run_view run).world }
    ensures arrive { IfOk result (λ new. run_view new ≡ fold (arrives from) (run_view run.entry) targets.now) }
{
    let mut run = run;
    for to in targets {
        run = arrive(run, from, *to)?;
    }
    Ok(run)
}

/// A copy reaches its target, which handles it at once and then polls where it is due.
fn arrive<'a, F: Fabric>(run: Run<'a, F>, from: u32, to: u32) -> Result<Run<'a, F>, AllocError>
    requires ports { (from < length (run_view run).plan.guests) × (to < length (run_view run).plan.guests) × (to ≢ from) }
    requires alone { ComesFrom from (run_view run).world }
    requires short { AreShort MOST_ENTRIES (run_view run).world }
    ensures arrives { IfOk result (λ new. run_view new ≡ arrives from (run_view run.entry) to) }
{
    let (found, run) = run.look(from, to)?;
    if found {
        return poll_where_due(run, to);
    }
    Ok(run)
}

/// A driver polls until a poll hands up nothing, where its polls are due.
fn poll_where_due<'a, F: Fabric>(run: Run<'a, F>, port: u32) -> Result<Run<'a, F>, AllocError>
    requires port { port < length (run_view run).plan.guests }
    ensures polled { IfOk result (λ new. run_view new ≡ changes port (polled_due (run_view run.entry).plan.poll_every) (run_view run.entry)) }
{
    if run.is_polled(port) {
        return poll_until_empty(run, port);
    }
    Ok(run)
}

/// A driver polls until a poll hands up nothing.
fn poll_until_empty<'a, F: Fabric>(run: Run<'a, F>, port: u32) -> Result<Run<'a, F>, AllocError>
    requires port { port < length (run_view run).plan.guests }
    ensures drained { IfOk result (λ new. run_view new ≡ changes port drained (run_view run.entry)) }
{
    let mut run = run;
    loop {
        let (count, polled) = run.poll(port)?;
        run = polled;
        if count == 0 {
            return Ok(run);
        }
    }
}

/// Every driver is closed, in port order.
fn close_all<'a, F: Fabric>(run: Run<'a, F>, guests: u32) -> Result<Run<'a, F>, AllocError>
    requires guests { guests ≡ length (run_view run).plan.guests }
    requires unclosed { (run_view run).closings ≡ 0 }
    requires over { AreOver (run_view run) }
    requires ready { IsReady (run_view run).plan (run_view run).world }
    requires short { AreShort ENTRIES_AT_CLOSE (run_view run).world }
    ensures closed { IfOk result (λ new. run_view new ≡ closes_all (run_view run.entry)) }
{
    let mut run = run;
    for port in 0..guests {
        run = run.close(port)?;
    }
    Ok(run)
}
