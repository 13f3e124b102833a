//! What the tests of the command machine share: a setup of two queues each way, whole ends for it over any fabric, and calls of the
//! machine whose contracts keep ends whole.
#![tactic(auto)]

ghost use Rattle.std.specs.Prelude.{◌≡◌, ◌<◌, ◌≤◌, true, false, option_map, set, None, IfOk};
ghost use Rattle.vmx_ends.specs.HandedEnds.{is_whole_tx, is_whole_rx};
ghost use Rattle.vmx_device_state.specs.Deals.{IsWhole};
ghost use Rattle.vmx_shared_area.specs.declared.offsets.TheConstants.{IMAGE_SIZE};
ghost use Rattle.vmx_shared_area.specs.declared.setup.TheConstants.{DEFAULT_TX_RING, DEFAULT_RX_RING, DEFAULT_MTU};
ghost use Rattle.vmx_device_state.specs.DeviceState.{after_answer};
ghost use Rattle.vmx_device_state.specs.Answers.{answer_to};
ghost use Rattle.vmx_machine_state.specs.Views.{ends_view, ends_in, counts_in, handed_of, state_of, ends_of};
ghost use Rattle.vmx_machine_state.specs.States.{state_name};

use std::alloc::{AllocError, Global};
use vmx_commands::{Machine, State};
use vmx_ends::{Ends, Fabric, QueueName};
use vmx_io::List;
use vmx_regs::Bag;
use vmx_shared_area::{Image, Setup};

/// The permanent address of the machines under test.
pub const MAC: [u8; 6] = [0x00, 0x50, 0x56, 0x01, 0x02, 0x03];

/// Linux's VMXNET3_CMD_ACTIVATE_DEV, as a number of its own.
pub const ACTIVATE_DEV: u32 = 0xcafe_0000;

/// Linux's VMXNET3_CMD_QUIESCE_DEV.
pub const QUIESCE_DEV: u32 = 0xcafe_0001;

/// Linux's VMXNET3_CMD_RESET_DEV.
pub const RESET_DEV: u32 = 0xcafe_0002;

/// Two queues each way, and the defaults of a configuration.
pub fn two_queues() -> Setup
    ensures queues { (result.tx_queues ≡ 2) × (result.rx_queues ≡ 2) }
    ensures rings { (result.tx_ring ≡ DEFAULT_TX_RING) × (result.rx_ring1 ≡ DEFAULT_RX_RING) × (result.rx_ring2 ≡ DEFAULT_RX_RING) }
    ensures plain { (result.mtu ≡ DEFAULT_MTU) × (result.rss ≡ None) × (result.tx_data ≡ false) × (result.rx_data ≡ false) × (result.strip ≡ false) }
{
    let mut setup = Setup::by_default();
    setup.tx_queues = 2;
    setup.rx_queues = 2;
    setup
}

/// The device's end of a new transmit queue.
fn tx_end<F: Fabric>(alloc: Global, queue: u32) -> Result<F::TxDevice, AllocError>
    ensures whole { IfOk result (λ e. is_whole_tx (F.TxDevice.view e) ≡ true) }
{
    let name = QueueName {
        guest: 0,
        activation: 0,
        queue,
    };
    let (_driver, device) = F::make_tx(alloc, name, 512, 4096, false)?;
    Ok(device)
}

/// The device's end of a new receive queue, of two.
fn rx_end<F: Fabric>(alloc: Global, queue: u32) -> Result<F::RxDevice, AllocError>
    requires queue { queue < 2 }
    ensures whole { IfOk result (λ e. is_whole_rx (F.RxDevice.view e) ≡ true) }
{
    let name = QueueName {
        guest: 0,
        activation: 0,
        queue,
    };
    let (_driver, device) = F::make_rx(alloc, name, 256, 256, 0, 2, false)?;
    Ok(device)
}

/// Ends of two new queues each way.
pub fn two_ends<F: Fabric>(alloc: Global) -> Result<Ends<F>, AllocError>
    ensures whole { IfOk result (λ e. (handed_of (ends_view F.TxDevice.view F.RxDevice.view e)).whole ≡ true) }
{
    let mut tx = List::new(alloc);
    tx.push(tx_end::<F>(alloc, 0)?)?;
    tx.push(tx_end::<F>(alloc, 1)?)?;
    let mut rx = List::new(alloc);
    rx.push(rx_end::<F>(alloc, 0)?)?;
    rx.push(rx_end::<F>(alloc, 1)?)?;
    Ok(Ends { tx, rx })
}

/// Gives a command to a machine that holds whole ends, with whole ends in its bag.
pub fn ask<F: Fabric>(
    machine: &mut Machine<F>,
    number: u32,
    bag: Bag<Ends<F>>,
) -> (u32, Bag<Ends<F>>)
    requires held { IsWhole (option_map handed_of (ends_of machine.old)) }
    requires given { IsWhole (option_map handed_of (ends_in F.TxDevice.view F.RxDevice.view bag)) }
    ensures answer { result.0 ≡ answer_to machine.old.mac (state_of machine.old) number bag.image (counts_in (ends_in F.TxDevice.view F.RxDevice.view bag)) }
    ensures state { state_of machine.new ≡ after_answer (state_of machine.old) number bag.image result.0 }
    ensures held { IsWhole (option_map handed_of (ends_of machine.new)) }
    ensures back { IsWhole (option_map handed_of (ends_in F.TxDevice.view F.RxDevice.view result.1)) }
{
    machine.apply(number, bag)
}

/// What a machine is to answer: a value, whether there are ends in the bag, and the state after it.
#[derive(Clone, Copy)]
pub struct Wanted {
    pub value: u32,
    pub ends: bool,
    pub state: State,
}

/// Gives a command, and says whether it is answered as wanted.
pub fn answers<F: Fabric>(
    machine: &mut Machine<F>,
    number: u32,
    bag: Bag<Ends<F>>,
    wanted: &Wanted,
) -> (bool, Bag<Ends<F>>)
    requires held { IsWhole (option_map handed_of (ends_of machine.old)) }
    requires given { IsWhole (option_map handed_of (ends_in F.TxDevice.view F.RxDevice.view bag)) }
    ensures answer { result.0 ≡ true → answer_to machine.old.mac (state_of machine.old) number bag.image (counts_in (ends_in F.TxDevice.view F.RxDevice.view bag)) ≡ wanted.now.value }
    ensures state { result.0 ≡ true → state_name (state_of machine.new) ≡ wanted.now.state }
    ensures held { IsWhole (option_map handed_of (ends_of machine.new)) }
    ensures back { IsWhole (option_map handed_of (ends_in F.TxDevice.view F.RxDevice.view result.1)) }
{
    let (value, bag) = ask(machine, number, bag);
    let same = is_wanted(value, bag.ends.is_some(), machine.state(), wanted);
    (same, bag)
}

fn is_wanted(value: u32, ends: bool, state: State, wanted: &Wanted) -> bool
    ensures value { result ≡ true → value ≡ wanted.now.value }
    ensures ends { result ≡ true → ends ≡ wanted.now.ends }
    ensures state { result ≡ true → state ≡ wanted.now.state }
{
    value == wanted.value && ends == wanted.ends && state == wanted.state
}

/// Gives all commands of a table, and answers the first of them that has another answer, and the bag.
pub fn asks_all<F: Fabric>(
    machine: &mut Machine<F>,
    bag: Bag<Ends<F>>,
    table: &[(u32, u32)],
) -> (Option<u32>, Bag<Ends<F>>)
    requires held { IsWhole (option_map handed_of (ends_of machine.old)) }
    requires given { IsWhole (option_map handed_of (ends_in F.TxDevice.view F.RxDevice.view bag)) }
    ensures held { IsWhole (option_map handed_of (ends_of machine.new)) }
    ensures back { IsWhole (option_map handed_of (ends_in F.TxDevice.view F.RxDevice.view result.1)) }
{
    let mut bag = bag;
    for (number, answer) in table {
        let (value, back) = ask(machine, *number, bag);
        bag = back;
        if value != *answer {
            return (Some(*number), bag);
        }
    }
    (None, bag)
}

/// Whether a machine is without setup and ends.
pub fn holds_nothing<F: Fabric>(machine: &mut Machine<F>) -> bool
    ensures same { machine.new ≡ machine.old }
    ensures none { result ≡ true → ends_of machine.old ≡ None }
{
    machine.setup().is_none() && machine.ends().is_none() && machine.ends_mut().is_none()
}

/// Changes one byte of an image, where it has it.
pub fn spoil(image: &mut Image, at: usize, byte: u8)
    ensures spoilt { at < IMAGE_SIZE → image.new ≡ set image.old at byte }
    ensures beyond { IMAGE_SIZE ≤ at → image.new ≡ image.old }
{
    let bytes = image.bytes_mut();
    if at < bytes.len() {
        bytes[at] = byte;
    }
}
