//! The table of commands as numbers for an idle machine, and its first activations.

ghost use Rattle.std.specs.Prelude.{◌≡◌, option_map};
ghost use Rattle.vmx_device_state.specs.Deals.{IsWhole};
ghost use Rattle.vmx_commands.specs.Views.{ends_in, handed_of, setup_of, ends_of};

use std::alloc::{AllocError, AllocGlobal};
use std::process::Abort;
use std::test::Fail;
use vmx_commands::{Machine, State};
use vmx_ends::{Ends, Fabric, TxDevice};
use vmx_lists::ListFabric;
use vmx_machine_cases::{
    ACTIVATE_DEV, MAC, Wanted, answers, asks_all, holds_nothing, spoil, two_ends, two_queues,
};
use vmx_regs::Bag;
use vmx_shared_area::{Image, write};

/// The answers of an idle machine to all commands but ACTIVATE_DEV, and to three numbers that no command has.
const IDLE: [(u32, u32); 21] = [
    (0xcafe_0001, 0),
    (0xcafe_0002, 0),
    (0xcafe_0003, 0),
    (0xcafe_0004, 0),
    (0xcafe_0005, 0),
    (0xcafe_0006, 0),
    (0xcafe_0007, 0),
    (0xcafe_0008, 0xffff_ffff),
    (0xcafe_0009, 0),
    (0xcafe_0063, 0xffff_ffff),
    (0, 0xffff_ffff),
    (0xf00d_0000, 0),
    (0xf00d_0001, 0),
    (0xf00d_0002, 0x2710_0001),
    (0xf00d_0003, 0x0156_5000),
    (0xf00d_0004, 0x0000_0302),
    (0xf00d_0005, 0x07b0),
    (0xf00d_0006, 1),
    (0xf00d_0007, 0),
    (0xf00d_0008, 3),
    (0xf00d_0009, 0xffff_ffff),
];

/// Gives a note of the first transmit end, and forgets it. Says whether there is such an end.
fn note_first<F: Fabric>(machine: &mut Machine<F>) -> bool
    ensures setup { setup_of machine.new ≡ setup_of machine.old }
    ensures counted { machine.new.tx_stats ≡ machine.old.tx_stats }
{
    let Some(ends) = machine.ends_mut() else {
        return false;
    };
    if ends.tx.is_empty() {
        return false;
    }
    let end = ends.tx.at_mut(0);
    let _note = end.note();
    true
}

/// Activates an idle machine with images that it refuses, and gives it all commands of the table. Says whether all was answered so.
fn stays_idle<F: Fabric>(machine: &mut Machine<F>, bag: Bag<Ends<F>>) -> (bool, Bag<Ends<F>>)
    requires held { IsWhole (option_map handed_of (ends_of machine.old)) }
    requires given { IsWhole (option_map handed_of (ends_in F.TxDevice.view F.RxDevice.view bag)) }
    ensures held { IsWhole (option_map handed_of (ends_of machine.new)) }
    ensures back { IsWhole (option_map handed_of (ends_in F.TxDevice.view F.RxDevice.view result.1)) }
{
    // The first transmit ring has 33 descriptors in place of 512.
    let Bag { mut image, ends } = bag;
    spoil(&mut image, 1080, 33);
    spoil(&mut image, 1081, 0);
    let wanted = Wanted {
        value: 3,
        ends: true,
        state: State::Idle,
    };
    let (size, bag) = answers(machine, ACTIVATE_DEV, Bag { image, ends }, &wanted);
    let Bag { mut image, ends } = bag;
    spoil(&mut image, 0, 0);
    let wanted = Wanted {
        value: 1,
        ends: true,
        state: State::Idle,
    };
    let (magic, bag) = answers(machine, ACTIVATE_DEV, Bag { image, ends }, &wanted);
    let (other, bag) = asks_all(machine, bag, &IDLE);
    (size && magic && other.is_none(), bag)
}

/// A new machine answers all commands by the table, idle, and its first two activations.
fn answers_idle<F: Fabric, R: Abort + AllocGlobal>(rt: &R) -> Result<(), AllocError> {
    let alloc = rt.alloc();
    let mut machine = Machine::<F>::new(MAC);
    let mut image = Image::new(alloc)?;
    write(&two_queues(), &mut image);
    let ends = Some(two_ends::<F>(alloc)?);
    let (so, bag) = stays_idle(&mut machine, Bag { image, ends });
    assert!(rt; so && bag.ends.is_some());
    assert!(rt; holds_nothing(&mut machine));
    let Bag { mut image, ends } = bag;
    write(&two_queues(), &mut image);
    let wanted = Wanted {
        value: 11,
        ends: false,
        state: State::Idle,
    };
    let (so, bag) = answers(
        &mut machine,
        ACTIVATE_DEV,
        Bag { image, ends: None },
        &wanted,
    );
    assert!(rt; so);
    let Bag { image, ends: _ } = bag;
    let wanted = Wanted {
        value: 0,
        ends: false,
        state: State::Active,
    };
    let (so, _bag) = answers(&mut machine, ACTIVATE_DEV, Bag { image, ends }, &wanted);
    assert!(rt; so && note_first(&mut machine));
    Ok(())
}

#[test]
fn an_idle_machine_answers_by_the_table(rt: HostRuntime) -> Result<(), Fail> {
    answers_idle::<ListFabric, HostRuntime>(&rt)?;
    Ok(())
}
