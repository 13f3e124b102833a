//! The nine checks of an image, in order. Each check looks at its fields in order and answers the first bad one; of each queue all fields
//! are looked at before those of the next, transmit queues first. Fields that no check names may hold anything.

ghost use Rattle.std.specs.Prelude.{◌≡◌, ◌+◌, ◌*◌, ◌<◌, ◌≤◌, length, IfOk};
ghost use Rattle.vmx_shared_area.specs.Checks.{tx_count, rx_count, fault_in, fault, magic_fault, number_fault, queues_fault, mtu_fault, each_queue, first_fault, queue_fault, interrupts_fault, auto_mask_fault};

use crate::fault::ensure;
use crate::filter_checks::{check_mode, check_multicast};
use crate::numbers::{u8_at, u32_at, u64_at};
use crate::offsets::{
    AUTO_MASK, DESCRIPTOR_SIZE, EVENT_INTERRUPT, IMAGE_SIZE, INTERRUPTS, MAGIC, MAGIC_NUMBER,
    MAX_MTU, MIN_MTU, MTU, QUEUES_ADDRESS, QUEUES_LENGTH, RX_QUEUES, TX_QUEUES,
};
use crate::queue_checks::{QueueCheck, check_address, check_interrupt, check_queue};
use crate::rss_checks::check_rss;
use crate::{ImageFault, Side};
use vmx_layout::{MAX_QUEUES, QUEUE_DESCRIPTORS};

/// The first failing check of an image.
#[tactic(auto, unfolding(crate::specs::Checks::fault))]
pub fn check_image(bytes: &[u8]) -> Result<(), ImageFault>
    requires size { length bytes.now ≡ IMAGE_SIZE }
    ensures first_fault { fault_in result ≡ fault bytes.now }
{
    check_magic(bytes)?;
    check_queues(bytes)?;
    check_each_queue(bytes, QueueCheck::Sizes)?;
    check_each_queue(bytes, QueueCheck::Completions)?;
    check_address(u64_at(bytes, QUEUES_ADDRESS), QUEUE_DESCRIPTORS)?;
    check_each_queue(bytes, QueueCheck::Addresses)?;
    check_mtu(bytes)?;
    check_mode(bytes)?;
    check_multicast(bytes)?;
    check_rss(bytes, u8_at(bytes, RX_QUEUES))?;
    check_interrupts(bytes)?;
    check_each_queue(bytes, QueueCheck::Interrupts)
}

#[tactic(auto, unfolding(crate::specs::Checks::magic_fault))]
fn check_magic(bytes: &[u8]) -> Result<(), ImageFault>
    requires size { length bytes.now ≡ IMAGE_SIZE }
    ensures first_fault { fault_in result ≡ magic_fault bytes.now }
{
    let magic = u32_at(bytes, MAGIC);
    let found = u64::from(magic);
    ensure(magic == MAGIC_NUMBER, ImageFault::Magic { found })
}

#[tactic(auto, unfolding(crate::specs::Checks::queues_fault))]
fn check_queues(bytes: &[u8]) -> Result<(), ImageFault>
    requires size { length bytes.now ≡ IMAGE_SIZE }
    ensures first_fault { fault_in result ≡ queues_fault bytes.now }
    ensures few { IfOk result (λ _. (tx_count bytes.now ≤ MAX_QUEUES) × (rx_count bytes.now ≤ MAX_QUEUES)) }
{
    let tx = u32::from(u8_at(bytes, TX_QUEUES));
    let rx = u32::from(u8_at(bytes, RX_QUEUES));
    check_number(tx)?;
    check_number(rx)?;
    let length = u32_at(bytes, QUEUES_LENGTH);
    let found = u64::from(length);
    ensure(
        length == DESCRIPTOR_SIZE as u32 * (tx + rx),
        ImageFault::Queues { found },
    )
}

/// The check of a number of queues.
#[tactic(auto, unfolding(crate::specs::Checks::number_fault))]
fn check_number(queues: u32) -> Result<(), ImageFault>
    ensures first_fault { fault_in result ≡ number_fault queues }
    ensures few { IfOk result (λ _. queues ≤ MAX_QUEUES) }
{
    let found = u64::from(queues);
    ensure(
        1 <= queues && queues <= MAX_QUEUES,
        ImageFault::Queues { found },
    )
}

/// A check of each transmit queue, then of each receive queue.
#[tactic(auto, unfolding(crate::specs::Checks::each_queue))]
fn check_each_queue(bytes: &[u8], check: QueueCheck) -> Result<(), ImageFault>
    requires size { length bytes.now ≡ IMAGE_SIZE }
    requires tx { tx_count bytes.now ≤ MAX_QUEUES }
    requires rx { rx_count bytes.now ≤ MAX_QUEUES }
    ensures first_fault { fault_in result ≡ each_queue check bytes.now }
{
    check_side(bytes, check, Side::Tx, u8_at(bytes, TX_QUEUES))?;
    check_side(bytes, check, Side::Rx, u8_at(bytes, RX_QUEUES))
}

#[tactic(auto, using(crate::proofs::FirstFault::first_fault_step, crate::proofs::FirstFault::first_fault_done))]
fn check_side(bytes: &[u8], check: QueueCheck, side: Side, queues: u8) -> Result<(), ImageFault>
    requires size { length bytes.now ≡ IMAGE_SIZE }
    requires tx { tx_count bytes.now ≤ MAX_QUEUES }
    requires queues { queues ≤ MAX_QUEUES }
    ensures first_fault { fault_in result ≡ first_fault (queue_fault check side bytes.now) 0 queues }
{
    for q in 0..queues {
        check_queue(bytes, check, side, q)?;
    }
    Ok(())
}

#[tactic(auto, unfolding(crate::specs::Checks::mtu_fault))]
fn check_mtu(bytes: &[u8]) -> Result<(), ImageFault>
    requires size { length bytes.now ≡ IMAGE_SIZE }
    ensures first_fault { fault_in result ≡ mtu_fault bytes.now }
{
    let mtu = u32_at(bytes, MTU);
    let found = u64::from(mtu);
    ensure(MIN_MTU <= mtu && mtu <= MAX_MTU, ImageFault::Mtu { found })
}

#[tactic(auto, unfolding(crate::specs::Checks::interrupts_fault))]
fn check_interrupts(bytes: &[u8]) -> Result<(), ImageFault>
    requires size { length bytes.now ≡ IMAGE_SIZE }
    ensures first_fault { fault_in result ≡ interrupts_fault bytes.now }
{
    let queues = u32::from(u8_at(bytes, TX_QUEUES)) + u32::from(u8_at(bytes, RX_QUEUES));
    check_interrupt(u8_at(bytes, INTERRUPTS), queues + 1)?;
    check_auto_mask(u8_at(bytes, AUTO_MASK))?;
    check_interrupt(u8_at(bytes, EVENT_INTERRUPT), queues)
}

#[tactic(auto, unfolding(crate::specs::Checks::auto_mask_fault))]
fn check_auto_mask(auto_mask: u8) -> Result<(), ImageFault>
    ensures first_fault { fault_in result ≡ auto_mask_fault auto_mask }
{
    let found = u64::from(auto_mask);
    ensure(auto_mask <= 1, ImageFault::Interrupt { found })
}
