//! Errors of stopped queues, from a stop to a reset.

ghost use Rattle.std.specs.Prelude.{◌≡◌, option_map};
ghost use Rattle.vmx_device_state.specs.Deals.{IsWhole};
ghost use Rattle.vmx_commands.specs.Views.{ends_in, handed_of, ends_of};

use std::alloc::{AllocError, AllocGlobal};
use std::process::Abort;
use std::test::Fail;
use vmx_commands::Machine;
use vmx_ends::{EndFault, Ends, Fabric};
use vmx_layout::FieldFault;
use vmx_lists::ListFabric;
use vmx_machine_cases::{ACTIVATE_DEV, MAC, QUIESCE_DEV, RESET_DEV, ask, two_ends, two_queues};
use vmx_regs::Bag;
use vmx_shared_area::{Image, Side, write};

const GET_QUEUE_STATUS: u32 = 0xf00d_0000;

/// What is done to a machine.
#[derive(Clone, Copy)]
enum Step {
    Ask { command: u32 },
    StopTx { fault: EndFault },
    StopRx { fault: EndFault },
}

const ACTIVATE: Step = Step::Ask {
    command: ACTIVATE_DEV,
};

const QUIESCE: Step = Step::Ask {
    command: QUIESCE_DEV,
};

const RESET: Step = Step::Ask { command: RESET_DEV };

const STATUS: Step = Step::Ask {
    command: GET_QUEUE_STATUS,
};

const FIELD: EndFault = EndFault::Field {
    fault: FieldFault::Reserved { part: 0 },
};

const OFFLOAD: EndFault = EndFault::Offload { om: 1 };

const CHAIN: EndFault = EndFault::Chain { descriptors: 16 };

const SIZE: EndFault = EndFault::Size { bytes: 13 };

const ADDRESS: EndFault = EndFault::Address { found: 7 };

/// A queue is stopped by the number of a fault, 1 to 5; the newer one stands, over GET_QUEUE_STATUS, quiesce and activation, until a reset.
/// Of each step: the errors of transmit queue 1 and receive queue 0 after it, in the machine, and as the image has them.
const STEPS: [(Step, Option<u32>, Option<u32>, [u8; 4]); 13] = [
    (ACTIVATE, None, None, [0, 0, 0, 0]),
    (Step::StopTx { fault: FIELD }, Some(1), None, [0, 0, 0, 0]),
    (STATUS, Some(1), None, [1, 1, 0, 0]),
    (Step::StopTx { fault: OFFLOAD }, Some(2), None, [1, 1, 0, 0]),
    (
        Step::StopRx { fault: CHAIN },
        Some(2),
        Some(3),
        [1, 1, 0, 0],
    ),
    (Step::StopRx { fault: SIZE }, Some(2), Some(4), [1, 1, 0, 0]),
    (
        Step::StopRx { fault: ADDRESS },
        Some(2),
        Some(5),
        [1, 1, 0, 0],
    ),
    (STATUS, Some(2), Some(5), [1, 2, 1, 5]),
    (QUIESCE, Some(2), Some(5), [1, 2, 1, 5]),
    (ACTIVATE, Some(2), Some(5), [1, 2, 1, 5]),
    (RESET, None, None, [1, 2, 1, 5]),
    (ACTIVATE, None, None, [1, 2, 1, 5]),
    (STATUS, None, None, [0, 0, 0, 0]),
];

/// Does a step, where it can be done, and says whether the answer was 0.
fn does<F: Fabric>(machine: &mut Machine<F>, step: &Step, bag: Bag<Ends<F>>) -> (bool, Bag<Ends<F>>)
    requires held { IsWhole (option_map handed_of (ends_of machine.old)) }
    requires given { IsWhole (option_map handed_of (ends_in F.TxDevice.view F.RxDevice.view bag)) }
    ensures held { IsWhole (option_map handed_of (ends_of machine.new)) }
    ensures back { IsWhole (option_map handed_of (ends_in F.TxDevice.view F.RxDevice.view result.1)) }
{
    match step {
        Step::Ask { command } => {
            let (value, bag) = ask(machine, *command, bag);
            (value == 0, bag)
        }
        Step::StopTx { fault } => (stops(machine, Side::Tx, 1, fault), bag),
        Step::StopRx { fault } => (stops(machine, Side::Rx, 0, fault), bag),
    }
}

/// Stops a queue, where the machine is active and its setup has it.
fn stops<F: Fabric>(machine: &mut Machine<F>, side: Side, queue: u32, fault: &EndFault) -> bool
    ensures ends { ends_of machine.new ≡ ends_of machine.old }
{
    let Some(setup) = machine.setup() else {
        return false;
    };
    let count = match side {
        Side::Tx => setup.tx_queues,
        Side::Rx => setup.rx_queues,
    };
    if queue >= u32::from(count) {
        return false;
    }
    machine.stop(side, queue, fault);
    true
}

/// Does the steps of a table, up to the first one after which something else is so: that step, and the bag.
fn does_all<F: Fabric>(
    machine: &mut Machine<F>,
    bag: Bag<Ends<F>>,
    table: &[(Step, Option<u32>, Option<u32>, [u8; 4])],
) -> (Option<Step>, Bag<Ends<F>>)
    requires held { IsWhole (option_map handed_of (ends_of machine.old)) }
    requires given { IsWhole (option_map handed_of (ends_in F.TxDevice.view F.RxDevice.view bag)) }
    ensures held { IsWhole (option_map handed_of (ends_of machine.new)) }
    ensures back { IsWhole (option_map handed_of (ends_in F.TxDevice.view F.RxDevice.view result.1)) }
{
    let mut bag = bag;
    for (step, tx, rx, written) in table {
        let (done, back) = does(machine, step, bag);
        bag = back;
        if !done || !has_errors(machine, &bag.image, *tx, *rx, *written) {
            return (Some(*step), bag);
        }
    }
    (None, bag)
}

/// Whether the machine and the image have these errors of two queues, and the machine none of two others.
fn has_errors<F: Fabric>(
    machine: &Machine<F>,
    image: &Image,
    tx: Option<u32>,
    rx: Option<u32>,
    written: [u8; 4],
) -> bool {
    let bytes = image.bytes();
    machine.stopped(Side::Tx, 1) == tx
        && machine.stopped(Side::Rx, 0) == rx
        && machine.stopped(Side::Tx, 0).is_none()
        && machine.stopped(Side::Rx, 7).is_none()
        && [bytes[1360], bytes[1364], bytes[1616], bytes[1620]] == written
}

/// A machine does all steps of the table.
fn keeps_errors<F: Fabric, R: Abort + AllocGlobal>(rt: &R) -> Result<(), AllocError> {
    let alloc = rt.alloc();
    let mut machine = Machine::<F>::new(MAC);
    let mut image = Image::new(alloc)?;
    write(&two_queues(), &mut image);
    let ends = Some(two_ends::<F>(alloc)?);
    let (other, _bag) = does_all(&mut machine, Bag { image, ends }, &STEPS);
    assert!(rt; other.is_none());
    Ok(())
}

#[test]
fn errors_stay_until_a_reset(rt: HostRuntime) -> Result<(), Fail> {
    keeps_errors::<ListFabric, HostRuntime>(&rt)?;
    Ok(())
}
