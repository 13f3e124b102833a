//! The looks of a turn.
ghost use Rattle.std.specs.Prelude.{◌≡◌, ◌<◌, ◌≤◌, ◌^◌, length};
ghost use Rattle.vmx_device_laws.specs.Views.{tx_held, AreWhole};
ghost use Rattle.vmx_device_laws.specs.Steps.{CommandStep, BellStep, TxStep, TxSteps, InStep, InSteps, TurnsOnce};
ghost use Rattle.vmx_switch.specs.declared.answer.TheConstants.{MAX_PORTS};
ghost use Rattle.vmx_device.specs.declared.growing.TheConstants.{TURN_COPIES, TURN_PACKETS, TURN_ENTRIES};
ghost use Rattle.vmx_device.specs.Holds.{inner_view, Holds, LeavesRoom};

use crate::counting::{count_taken, either, rx_queues, tx_queues};
use crate::inner::Inner;
use vmx_commands::{Count, answer_next};
use vmx_device_looks::{
    Found, TX_ERROR_EVENT, alarm, auto_mask, counted_on, event_interrupt, handle, other_port,
    pull_from, read_bells, show_setup, signal, spread, tag_in, take_from,
};
use vmx_ends::{Fabric, Tag};
use vmx_model::Entry;
use vmx_shared_area::Side;

/// Looks once at the command register, and answers the command that it finds.
pub(crate) fn look_command<F: Fabric>(inner: &mut Inner<F>) -> bool
    requires holds { Holds inner.old }
    requires whole { AreWhole (inner_view inner.old) }
    requires few { length (inner_view inner.old).calls.served < 2 ^ 31 }
    requires room { (1 ≤ inner.old.journal.entries.1) × (1 ≤ inner.old.journal.setups.1) }
    ensures step { CommandStep result (inner_view inner.old) (inner_view inner.new) }
    ensures holds { Holds inner.new }
    ensures whole { AreWhole (inner_view inner.new) }
    ensures room { LeavesRoom 1 1 0 inner.old inner.new }
{
    match answer_next(&mut inner.machine, &mut inner.regs) {
        None => false,
        Some(answered) => {
            let setup = show_setup(&inner.machine, &mut inner.journal.setups);
            inner.journal.entries.push(Entry::Setting {
                number: answered.number,
                answer: answered.value,
                setup,
            });
            inner.begun = counted_on(inner.begun, answered.number, answered.value);
            true
        }
    }
}

/// Reads each doorbell of an active device's queues once.
pub(crate) fn look_at_bells<F: Fabric>(inner: &mut Inner<F>)
    requires holds { Holds inner.old }
    ensures step { BellStep (inner_view inner.old) (inner_view inner.new) }
    ensures holds { Holds inner.new }
    ensures room { LeavesRoom 0 0 0 inner.old inner.new }
{
    let tx = tx_queues(&inner.machine);
    let rx = rx_queues(&inner.machine);
    read_bells(&mut inner.regs, tx, rx);
}

/// Looks once at a transmit queue that is not stopped. A frame that it finds is completed, and given to its targets.
pub(crate) fn look_tx<F: Fabric>(inner: &mut Inner<F>, queue: u32) -> bool
    requires holds { Holds inner.old }
    requires queue { queue < tx_held inner.old.machine.active }
    requires few { length inner.old.journal.entries.0 < 2 ^ 57 }
    requires room { (MAX_PORTS ≤ inner.old.journal.entries.1) × (MAX_PORTS ≤ length inner.old.copies) }
    ensures step { TxStep queue result (inner_view inner.old) (inner_view inner.new) }
    ensures holds { Holds inner.new }
    ensures room { LeavesRoom MAX_PORTS 0 MAX_PORTS inner.old inner.new }
{
    if inner.machine.stopped(Side::Tx, queue).is_some() {
        return false;
    }
    let auto = auto_mask(&inner.machine);
    let event = event_interrupt(&inner.machine);
    inner.bytes.clear();
    match take_from(&mut inner.machine, queue, &mut inner.bytes) {
        Found::Nothing => false,
        Found::Bad { fault } => {
            inner.machine.count(Side::Tx, queue, Count::Error);
            inner.machine.stop(Side::Tx, queue, &fault);
            alarm(&mut inner.regs, TX_ERROR_EVENT, event, auto);
            true
        }
        Found::Frame { place, mark } => {
            signal(&mut inner.regs, queue, auto);
            tag_in(&mut inner.bytes, &mut inner.spare, mark.tci);
            let tag = Tag {
                guest: inner.port,
                activation: inner.begun - 1,
                queue,
                place,
            };
            let some = spread(
                inner.port,
                &inner.table,
                &mut inner.out,
                &mut inner.copies,
                &mut inner.journal.entries,
                tag,
                inner.bytes.as_slice(),
            );
            count_taken(&mut inner.machine, queue, inner.bytes.as_slice(), some);
            true
        }
    }
}

/// Looks once at each transmit queue, in order.
pub(crate) fn look_at_queues<F: Fabric>(inner: &mut Inner<F>) -> bool
    requires holds { Holds inner.old }
    requires few { length inner.old.journal.entries.0 < 2 ^ 56 }
    requires room { (TURN_COPIES ≤ inner.old.journal.entries.1) × (TURN_COPIES ≤ length inner.old.copies) }
    ensures steps { TxSteps (tx_held inner.old.machine.active) result (inner_view inner.old) (inner_view inner.new) }
    ensures holds { Holds inner.new }
    ensures room { LeavesRoom TURN_COPIES 0 TURN_COPIES inner.old inner.new }
{
    let mut found = false;
    let queues = tx_queues(&inner.machine);
    for queue in 0..queues {
        let here = look_tx(inner, queue);
        found = either(found, here);
    }
    found
}

/// Looks once at a link from another port. A packet that it finds is delivered, or its fate says why not.
pub(crate) fn look_in<F: Fabric>(inner: &mut Inner<F>, index: u32) -> bool
    requires holds { Holds inner.old }
    requires index { index < length inner.old.input }
    requires few { length inner.old.journal.entries.0 < 2 ^ 57 }
    requires room { 1 ≤ inner.old.journal.entries.1 }
    ensures step { InStep index result (inner_view inner.old) (inner_view inner.new) }
    ensures holds { Holds inner.new }
    ensures room { LeavesRoom 1 0 0 inner.old inner.new }
    ensures links { length inner.new.input ≡ length inner.old.input }
{
    match pull_from(&mut inner.input, index) {
        None => false,
        Some(pulled) => {
            let fate = handle(
                &mut inner.machine,
                &mut inner.regs,
                &mut inner.spare,
                inner.begun,
                pulled.packet.frame.as_slice(),
            );
            inner.journal.entries.push(Entry::In {
                from: other_port(inner.port, index),
                place: pulled.place,
                fate,
            });
            true
        }
    }
}

/// Looks once at each link from another port, in port order.
pub(crate) fn look_at_links<F: Fabric>(inner: &mut Inner<F>) -> bool
    requires holds { Holds inner.old }
    requires few { length inner.old.journal.entries.0 < 2 ^ 56 }
    requires room { TURN_PACKETS ≤ inner.old.journal.entries.1 }
    ensures steps { InSteps (length inner.old.input) result (inner_view inner.old) (inner_view inner.new) }
    ensures holds { Holds inner.new }
    ensures room { LeavesRoom TURN_PACKETS 0 0 inner.old inner.new }
{
    let mut found = false;
    let links = in_links(inner);
    for index in 0..links {
        let here = look_in(inner, index);
        found = either(found, here);
    }
    found
}

fn in_links<F: Fabric>(inner: &Inner<F>) -> u32
    requires holds { Holds inner.now }
    ensures count { result ≡ length inner.now.input }
    ensures few { result ≤ TURN_PACKETS }
{
    inner.input.len() as u32
}

/// All looks of a turn, in their order; says whether one found something.
pub(crate) fn look_at_all<F: Fabric>(inner: &mut Inner<F>) -> bool
    requires holds { Holds inner.old }
    requires whole { AreWhole (inner_view inner.old) }
    requires few { (length inner.old.journal.entries.0 < 2 ^ 55) × (length (inner_view inner.old).calls.served < 2 ^ 31) }
    requires room { (TURN_ENTRIES ≤ inner.old.journal.entries.1) × (1 ≤ inner.old.journal.setups.1) × (TURN_COPIES ≤ length inner.old.copies) }
    ensures once { TurnsOnce result (inner_view inner.old) (inner_view inner.new) }
    ensures holds { Holds inner.new }
    ensures room { LeavesRoom TURN_ENTRIES 1 TURN_COPIES inner.old inner.new }
    ensures whole { AreWhole (inner_view inner.new) }
{
    let answered = look_command(inner);
    look_at_bells(inner);
    let taken = look_at_queues(inner);
    let pulled = look_at_links(inner);
    either(answered, either(taken, pulled))
}
