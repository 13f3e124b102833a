//! The table of commands as numbers for an active machine, and where its ends are.

ghost use Rattle.std.specs.Prelude.{◌≡◌, true, option_map, IfOk};
ghost use Rattle.vmx_device_state.specs.Deals.{IsWhole};
ghost use Rattle.vmx_commands.specs.Views.{ends_in, ends_view, handed_of, ends_of};

use std::alloc::{AllocError, AllocGlobal, Global};
use std::process::Abort;
use std::test::Fail;
use vmx_commands::{Machine, State};
use vmx_ends::{Ends, Fabric};
use vmx_lists::ListFabric;
use vmx_machine_cases::{
    ACTIVATE_DEV, MAC, QUIESCE_DEV, RESET_DEV, Wanted, answers, asks_all, holds_nothing, spoil,
    two_ends, two_queues,
};
use vmx_regs::Bag;
use vmx_shared_area::{Image, write};

/// The answers of an active machine without RSS, whose image has the receive mode 32 and a multicast table of 5 bytes.
const ACTIVE: [(u32, u32); 20] = [
    (0xcafe_0000, 10),
    (0xcafe_0003, 7),
    (0xcafe_0004, 7),
    (0xcafe_0005, 0),
    (0xcafe_0006, 8),
    (0xcafe_0007, 0),
    (0xcafe_0008, 0xffff_ffff),
    (0xcafe_0009, 0),
    (0xcafe_0063, 0xffff_ffff),
    (0, 0xffff_ffff),
    (0xf00d_0000, 0),
    (0xf00d_0001, 0),
    (0xf00d_0002, 0x2710_0001),
    (0xf00d_0003, 0x0156_5000),
    (0xf00d_0004, 0x0000_0302),
    (0xf00d_0005, 0x07b0),
    (0xf00d_0006, 1),
    (0xf00d_0007, 0),
    (0xf00d_0008, 3),
    (0xf00d_0009, 0xffff_ffff),
];

/// Whether a machine has a setup of two transmit queues and of a receive mode.
fn has_mode<F: Fabric>(machine: &Machine<F>, mode: u32) -> bool {
    let Some(setup) = machine.setup() else {
        return false;
    };
    setup.tx_queues == 2 && setup.filter.mode == mode
}

/// Whether a bag has ends of two queues each way.
fn has_two_ends<F: Fabric>(bag: &Bag<Ends<F>>) -> bool {
    let Some(ends) = &bag.ends else {
        return false;
    };
    ends.tx.len() == 2 && ends.rx.len() == 2
}

/// Gives an active machine all commands of the table, with an image whose filters it refuses, and then an update of the receive mode.
/// Says whether all was answered so.
fn stays_active<F: Fabric>(machine: &mut Machine<F>, mut image: Image) -> (bool, Bag<Ends<F>>)
    requires held { IsWhole (option_map handed_of (ends_of machine.old)) }
    ensures held { IsWhole (option_map handed_of (ends_of machine.new)) }
    ensures back { IsWhole (option_map handed_of (ends_in F.TxDevice.view F.RxDevice.view result.1)) }
{
    spoil(&mut image, 120, 32);
    spoil(&mut image, 124, 5);
    let (other, bag) = asks_all(machine, Bag { image, ends: None }, &ACTIVE);
    let before = other.is_none() && bag.ends.is_none() && has_mode(machine, 7);
    let Bag { mut image, ends: _ } = bag;
    spoil(&mut image, 120, 31);
    spoil(&mut image, 124, 0);
    let wanted = Wanted {
        value: 0,
        ends: false,
        state: State::Active,
    };
    let (so, bag) = answers(machine, 0xcafe_0003, Bag { image, ends: None }, &wanted);
    (before && so && has_mode(machine, 31), bag)
}

/// An active machine refuses a quiesce with ends in the bag, and gives its own ends back at a reset. Says whether all was answered so.
fn gives_ends_back<F: Fabric>(machine: &mut Machine<F>, image: Image, ends: Ends<F>) -> bool
    requires held { IsWhole (option_map handed_of (ends_of machine.old)) }
    requires given { (handed_of (ends_view F.TxDevice.view F.RxDevice.view ends)).whole ≡ true }
{
    let refused = Wanted {
        value: 11,
        ends: true,
        state: State::Active,
    };
    let ends = Some(ends);
    let (so, bag) = answers(machine, QUIESCE_DEV, Bag { image, ends }, &refused);
    let Bag { image, ends: _ } = bag;
    so && is_reset(machine, image)
}

/// Resets an active machine, and says whether its ends come back and it holds nothing.
fn is_reset<F: Fabric>(machine: &mut Machine<F>, image: Image) -> bool
    requires held { IsWhole (option_map handed_of (ends_of machine.old)) }
{
    let wanted = Wanted {
        value: 0,
        ends: true,
        state: State::Idle,
    };
    let (so, bag) = answers(machine, RESET_DEV, Bag { image, ends: None }, &wanted);
    so && has_two_ends(&bag) && holds_nothing(machine)
}

/// Activates a new machine. Says whether it was answered so, and gives the machine and the image.
fn activated<F: Fabric>(alloc: Global) -> Result<(bool, Machine<F>, Image), AllocError>
    ensures held { IfOk result (λ r. IsWhole (option_map handed_of (ends_of r.1))) }
{
    let mut machine = Machine::<F>::new(MAC);
    let mut image = Image::new(alloc)?;
    write(&two_queues(), &mut image);
    let ends = Some(two_ends::<F>(alloc)?);
    let wanted = Wanted {
        value: 0,
        ends: false,
        state: State::Active,
    };
    let (so, bag) = answers(&mut machine, ACTIVATE_DEV, Bag { image, ends }, &wanted);
    Ok((so, machine, bag.image))
}

/// An activated machine answers all commands by the table, active, and then a quiesce and a reset.
fn answers_active<F: Fabric, R: Abort + AllocGlobal>(rt: &R) -> Result<(), AllocError> {
    let (so, mut machine, image) = activated::<F>(rt.alloc())?;
    assert!(rt; so);
    let (so, bag) = stays_active(&mut machine, image);
    assert!(rt; so);
    let ends = two_ends::<F>(rt.alloc())?;
    assert!(rt; gives_ends_back(&mut machine, bag.image, ends));
    Ok(())
}

#[test]
fn an_active_machine_answers_by_the_table(rt: HostRuntime) -> Result<(), Fail> {
    answers_active::<ListFabric, HostRuntime>(&rt)?;
    Ok(())
}
