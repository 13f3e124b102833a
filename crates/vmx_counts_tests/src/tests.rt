//! What is counted, as it is read back from the image.

ghost use Rattle.std.specs.Prelude.{◌≡◌, ◌<◌, ◌≤◌, option_map};
ghost use Rattle.vmx_device_state.specs.Deals.{IsWhole};
ghost use Rattle.vmx_commands.specs.Views.{ends_in, handed_of, ends_of};

use std::alloc::{AllocError, AllocGlobal};
use std::process::Abort;
use std::test::Fail;
use vmx_commands::{Count, Machine, State};
use vmx_ends::{Ends, Fabric};
use vmx_frame::Class;
use vmx_lists::ListFabric;
use vmx_machine_cases::{
    ACTIVATE_DEV, MAC, QUIESCE_DEV, Wanted, answers, spoil, two_ends, two_queues,
};
use vmx_regs::Bag;
use vmx_shared_area::{Image, Side, read_stats, write};

const GET_QUEUE_STATUS: u32 = 0xf00d_0000;

const GET_STATS: u32 = 0xf00d_0001;

/// Whether all bytes from an offset up to another are 0.
fn are_zeros(image: &Image, from: usize, to: usize) -> bool
    requires order { from ≤ to }
    requires within { to ≤ 8192 }
{
    image.bytes()[from..to].iter().all(|byte| *byte == 0)
}

/// Counts two unicast frames, a broadcast and a discard on transmit queue 0, an error on queue 1; on the receive side a missing
/// buffer on queue 0, two multicast frames of more bytes than a count holds and an error on queue 1, a missing buffer on queue 7.
fn count_some<F: Fabric>(machine: &mut Machine<F>)
    ensures ends { ends_of machine.new ≡ ends_of machine.old }
{
    let (class, bytes) = (Class::Unicast, 60);
    machine.count(Side::Tx, 0, Count::Frame { class, bytes });
    machine.count(Side::Tx, 0, Count::Frame { class, bytes: 1514 });
    let (class, bytes) = (Class::Broadcast, 42);
    machine.count(Side::Tx, 0, Count::Frame { class, bytes });
    machine.count(Side::Tx, 0, Count::Discard);
    machine.count(Side::Tx, 1, Count::Error);
    machine.count(Side::Rx, 0, Count::NoBuffer);
    let (class, bytes) = (Class::Multicast, u64::MAX);
    machine.count(Side::Rx, 1, Count::Frame { class, bytes });
    machine.count(Side::Rx, 1, Count::Frame { class, bytes: 2 });
    machine.count(Side::Rx, 1, Count::Error);
    machine.count(Side::Rx, 7, Count::NoBuffer);
}

/// Whether an image of two queues each way, and the machine, tell these counts of a queue.
fn reads_back<F: Fabric>(
    machine: &Machine<F>,
    image: &Image,
    side: Side,
    queue: u32,
    counts: [u64; 10],
) -> bool
    requires queue { queue < 2 }
{
    read_stats(image, 2, side, queue).counts == counts
        && machine.stats(side, queue).counts == counts
}

/// Changes an image as a driver may: it then tells of one queue each way, and that each queue is stopped.
fn tell_otherwise(image: &mut Image) {
    for at in [62, 63, 1104, 1360, 1616, 1879] {
        spoil(image, at, 1);
    }
}

/// Whether an image, and the machine, tell on the transmit side what `count_some` counted.
fn tx_reads_back<F: Fabric>(machine: &Machine<F>, image: &Image) -> bool {
    let first = [0, 0, 2, 1574, 0, 0, 1, 42, 0, 1];
    let second = [0, 0, 0, 0, 0, 0, 0, 0, 1, 0];
    reads_back(machine, image, Side::Tx, 0, first)
        && reads_back(machine, image, Side::Tx, 1, second)
}

/// Whether an image, and the machine, tell on the receive side what `count_some` counted.
fn rx_reads_back<F: Fabric>(machine: &Machine<F>, image: &Image) -> bool {
    let first = [0, 0, 0, 0, 0, 0, 0, 0, 1, 0];
    let second = [0, 0, 0, 0, 2, u64::MAX, 0, 0, 0, 1];
    reads_back(machine, image, Side::Rx, 0, first)
        && reads_back(machine, image, Side::Rx, 1, second)
}

/// Whether the words of status of two queues each way are 0.
fn tells_no_stop(image: &Image) -> bool {
    are_zeros(image, 1104, 1112)
        && are_zeros(image, 1360, 1368)
        && are_zeros(image, 1616, 1624)
        && are_zeros(image, 1872, 1880)
}

/// Whether the machine tells that receive queue 7 lacked one buffer, and nothing else.
fn lacked_a_buffer<F: Fabric>(machine: &Machine<F>) -> bool {
    machine.stats(Side::Rx, 7).counts == [0, 0, 0, 0, 0, 0, 0, 0, 1, 0]
}

/// Counts, and asks an active machine for its statistics, with an image that tells otherwise. Says whether they are read back.
fn tells_counts<F: Fabric>(machine: &mut Machine<F>, mut image: Image) -> (bool, Bag<Ends<F>>)
    requires held { IsWhole (option_map handed_of (ends_of machine.old)) }
    ensures held { IsWhole (option_map handed_of (ends_of machine.new)) }
    ensures back { IsWhole (option_map handed_of (ends_in F.TxDevice.view F.RxDevice.view result.1)) }
{
    count_some(machine);
    tell_otherwise(&mut image);
    let wanted = Wanted {
        value: 0,
        ends: false,
        state: State::Active,
    };
    let (so, bag) = answers(machine, GET_STATS, Bag { image, ends: None }, &wanted);
    let kept = bag.image.bytes()[1104] == 1;
    let tx = tx_reads_back(machine, &bag.image);
    let rx = rx_reads_back(machine, &bag.image);
    (so && kept && tx && rx, bag)
}

/// What an active machine counted is read from the image, and a quiesce keeps it.
fn reads_counts<F: Fabric, R: Abort + AllocGlobal>(rt: &R) -> Result<(), AllocError> {
    let alloc = rt.alloc();
    let mut machine = Machine::<F>::new(MAC);
    let mut image = Image::new(alloc)?;
    write(&two_queues(), &mut image);
    let ends = Some(two_ends::<F>(alloc)?);
    let wanted = Wanted {
        value: 0,
        ends: false,
        state: State::Active,
    };
    let (so, bag) = answers(&mut machine, ACTIVATE_DEV, Bag { image, ends }, &wanted);
    assert!(rt; so);
    let (so, bag) = tells_counts(&mut machine, bag.image);
    assert!(rt; so);
    let wanted = Wanted {
        value: 0,
        ends: false,
        state: State::Active,
    };
    let (so, bag) = answers(&mut machine, GET_QUEUE_STATUS, bag, &wanted);
    assert!(rt; so && tells_no_stop(&bag.image));
    let wanted = Wanted {
        value: 0,
        ends: true,
        state: State::Idle,
    };
    let (so, bag) = answers(&mut machine, QUIESCE_DEV, bag, &wanted);
    assert!(rt; so && lacked_a_buffer(&machine));
    // Nothing was written behind the descriptors of the active setup's four queues.
    assert!(rt; are_zeros(&bag.image, 2048, 5120));
    Ok(())
}

#[test]
fn what_was_counted_is_read_from_the_image(rt: HostRuntime) -> Result<(), Fail> {
    reads_counts::<ListFabric, HostRuntime>(&rt)?;
    Ok(())
}
