//! Images that are answered by the check that they fail.

ghost use Rattle.std.specs.Prelude.{option_map};
ghost use Rattle.vmx_device_state.specs.Deals.{IsWhole};
ghost use Rattle.vmx_commands.specs.Views.{ends_in, handed_of, ends_of};

use std::alloc::{AllocError, AllocGlobal};
use std::process::Abort;
use std::test::Fail;
use vmx_commands::{Machine, State};
use vmx_ends::{Ends, Fabric};
use vmx_lists::ListFabric;
use vmx_machine_cases::{ACTIVATE_DEV, MAC, ask, spoil, two_ends, two_queues};
use vmx_regs::Bag;
use vmx_shared_area::{Image, write};

/// Nine images, each of which fails one check: the bytes that differ from the image of two queues each way, and the check's number.
/// They spoil the magic; the number of transmit queues, 9; the size of the first transmit ring, 33; the size of its completion ring; its
/// address; the MTU, 59; the receive mode, 32; the features, 8; and the number of interrupts.
const BAD_IMAGES: [([(usize, u8); 2], u32); 9] = [
    ([(0, 0xe0), (1, 0xfe)], 1),
    ([(62, 9), (63, 2)], 2),
    ([(1080, 33), (1081, 0)], 3),
    ([(1088, 32), (1089, 0)], 4),
    ([(1040, 1), (1041, 0)], 5),
    ([(56, 59), (57, 0)], 6),
    ([(120, 32), (121, 0)], 7),
    ([(24, 8), (25, 0)], 8),
    ([(81, 4), (82, 4)], 9),
];

/// Gives an idle machine images, each with two bytes changed, for an activation: the first check of a table that is not answered, and the
/// bag.
fn refuses_all<F: Fabric>(
    machine: &mut Machine<F>,
    bag: Bag<Ends<F>>,
    table: &[([(usize, u8); 2], u32)],
) -> (Option<u32>, Bag<Ends<F>>)
    requires held { IsWhole (option_map handed_of (ends_of machine.old)) }
    requires given { IsWhole (option_map handed_of (ends_in F.TxDevice.view F.RxDevice.view bag)) }
    ensures held { IsWhole (option_map handed_of (ends_of machine.new)) }
    ensures back { IsWhole (option_map handed_of (ends_in F.TxDevice.view F.RxDevice.view result.1)) }
{
    let mut bag = bag;
    for (changes, check) in table {
        let Bag { mut image, ends } = bag;
        write(&two_queues(), &mut image);
        spoil(&mut image, changes[0].0, changes[0].1);
        spoil(&mut image, changes[1].0, changes[1].1);
        let (value, back) = ask(machine, ACTIVATE_DEV, Bag { image, ends });
        bag = back;
        if value != *check || bag.ends.is_none() || machine.state() == State::Active {
            return (Some(*check), bag);
        }
    }
    (None, bag)
}

/// A new machine refuses each bad image.
fn refuses_bad_images<F: Fabric, R: Abort + AllocGlobal>(rt: &R) -> Result<(), AllocError> {
    let alloc = rt.alloc();
    let mut machine = Machine::<F>::new(MAC);
    let image = Image::new(alloc)?;
    let ends = Some(two_ends::<F>(alloc)?);
    let (other, _bag) = refuses_all(&mut machine, Bag { image, ends }, &BAD_IMAGES);
    assert!(rt; other.is_none());
    Ok(())
}

#[test]
fn a_bad_image_is_answered_by_its_check(rt: HostRuntime) -> Result<(), Fail> {
    refuses_bad_images::<ListFabric, HostRuntime>(&rt)?;
    Ok(())
}
