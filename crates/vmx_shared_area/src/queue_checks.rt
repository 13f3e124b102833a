//! The checks of a queue's descriptor: the sizes of its rings, the size of its completion ring, their addresses, and its interrupt.

ghost use Rattle.std.specs.Prelude.{◌≡◌, ◌+◌, ◌*◌, ◌<◌, ◌≤◌, length};
ghost use Rattle.vmx_shared_area.specs.Checks.{tx_count, fault_in, ring_size_fault, data_size_fault, completion_fault, address_fault, data_address, interrupt_fault, queue_fault, tx_size_fault, rx_size_fault, tx_completion_fault, rx_completion_fault, tx_address_fault, rx_address_fault, tx_interrupt_fault, rx_interrupt_fault};

use crate::fault::ensure;
use crate::numbers::{u8_at, u16_at, u32_at, u64_at};
use crate::offsets::{
    COMPLETION_RING, COMPLETION_SIZE, DESCRIPTOR_SIZE, DESCRIPTORS, IMAGE_SIZE, INTERRUPT,
    MIN_RING, RING_STEP, RX_DATA_RING, RX_DATA_SIZE, RX_RING1, RX_RING1_SIZE, RX_RING2,
    RX_RING2_SIZE, TX_DATA_RING, TX_DATA_SIZE, TX_QUEUES, TX_RING, TX_RING_SIZE,
};
use crate::{ImageFault, Side};
use vmx_layout::{
    DATA_ENTRY_SIZE, MAX_QUEUES, MAX_RING_SIZE, rx_completion_ring_address, rx_data_ring_address,
    rx_ring1_address, rx_ring2_address, tx_completion_ring_address, tx_data_ring_address,
    tx_ring_address,
};

/// What is checked of each queue's descriptor.
#[derive(Clone, Copy)]
pub enum QueueCheck {
    Sizes,
    Completions,
    Addresses,
    Interrupts,
}

/// A check of the descriptor of a queue.
pub fn check_queue(bytes: &[u8], check: QueueCheck, side: Side, q: u8) -> Result<(), ImageFault>
    requires size { length bytes.now ≡ IMAGE_SIZE }
    requires tx { tx_count bytes.now ≤ MAX_QUEUES }
    requires queue { q < MAX_QUEUES }
    ensures first_fault { fault_in result ≡ queue_fault check side bytes.now q }
{
    match (check, side) {
        (QueueCheck::Sizes, Side::Tx) => check_tx_sizes(bytes, q),
        (QueueCheck::Sizes, Side::Rx) => check_rx_sizes(bytes, q),
        (QueueCheck::Completions, Side::Tx) => check_tx_completion(bytes, q),
        (QueueCheck::Completions, Side::Rx) => check_rx_completion(bytes, q),
        (QueueCheck::Addresses, Side::Tx) => check_tx_addresses(bytes, q),
        (QueueCheck::Addresses, Side::Rx) => check_rx_addresses(bytes, q),
        (QueueCheck::Interrupts, Side::Tx) => check_tx_interrupt(bytes, q),
        (QueueCheck::Interrupts, Side::Rx) => check_rx_interrupt(bytes, q),
    }
}

/// Where the descriptor of transmit queue `q` stands.
fn tx_start(q: u8) -> usize
    requires queue { q < MAX_QUEUES }
    ensures start { result ≡ DESCRIPTORS + DESCRIPTOR_SIZE * q }
{
    DESCRIPTORS + DESCRIPTOR_SIZE * usize::from(q)
}

/// Where the descriptor of receive queue `q` stands.
fn rx_start(bytes: &[u8], q: u8) -> usize
    requires size { length bytes.now ≡ IMAGE_SIZE }
    requires tx { tx_count bytes.now ≤ MAX_QUEUES }
    requires queue { q < MAX_QUEUES }
    ensures start { result ≡ DESCRIPTORS + DESCRIPTOR_SIZE * (tx_count bytes.now + q) }
{
    DESCRIPTORS + DESCRIPTOR_SIZE * (usize::from(u8_at(bytes, TX_QUEUES)) + usize::from(q))
}

/// The check of a ring's size, in descriptors, against that of the first queue.
#[tactic(auto, unfolding(crate::specs::Checks::ring_size_fault))]
fn check_ring_size(size: u32, first: u32) -> Result<(), ImageFault>
    ensures first_fault { fault_in result ≡ ring_size_fault size first }
{
    let is_ring = MIN_RING <= size && size <= MAX_RING_SIZE && size % RING_STEP == 0;
    let found = u64::from(size);
    ensure(is_ring && size == first, ImageFault::RingSize { found })
}

/// The check of a data ring's size against the size of any that is there, and against that of the first queue.
#[tactic(auto, unfolding(crate::specs::Checks::data_size_fault))]
fn check_data_size(size: u32, whole: u32, first: u32) -> Result<(), ImageFault>
    ensures first_fault { fault_in result ≡ data_size_fault size whole first }
{
    let is_lawful = size == 0 || size == whole;
    let found = u64::from(size);
    ensure(is_lawful && size == first, ImageFault::RingSize { found })
}

#[tactic(auto, unfolding(crate::specs::Checks::tx_size_fault))]
fn check_tx_sizes(bytes: &[u8], q: u8) -> Result<(), ImageFault>
    requires size { length bytes.now ≡ IMAGE_SIZE }
    requires queue { q < MAX_QUEUES }
    ensures first_fault { fault_in result ≡ tx_size_fault bytes.now q }
{
    let start = tx_start(q);
    let first = tx_start(0);
    let ring = u32_at(bytes, start + TX_RING_SIZE);
    check_ring_size(ring, u32_at(bytes, first + TX_RING_SIZE))?;
    let data = u32_at(bytes, start + TX_DATA_SIZE);
    check_data_size(data, ring, u32_at(bytes, first + TX_DATA_SIZE))
}

#[tactic(auto, unfolding(crate::specs::Checks::rx_size_fault))]
fn check_rx_sizes(bytes: &[u8], q: u8) -> Result<(), ImageFault>
    requires size { length bytes.now ≡ IMAGE_SIZE }
    requires tx { tx_count bytes.now ≤ MAX_QUEUES }
    requires queue { q < MAX_QUEUES }
    ensures first_fault { fault_in result ≡ rx_size_fault bytes.now q }
{
    let start = rx_start(bytes, q);
    let first = rx_start(bytes, 0);
    let ring1 = u32_at(bytes, start + RX_RING1_SIZE);
    check_ring_size(ring1, u32_at(bytes, first + RX_RING1_SIZE))?;
    let ring2 = u32_at(bytes, start + RX_RING2_SIZE);
    check_ring_size(ring2, u32_at(bytes, first + RX_RING2_SIZE))?;
    let entry = u32::from(u16_at(bytes, start + RX_DATA_SIZE));
    let first_entry = u32::from(u16_at(bytes, first + RX_DATA_SIZE));
    check_data_size(entry, DATA_ENTRY_SIZE as u32, first_entry)
}

/// The check of a completion ring's size, against the descriptors that it completes.
#[tactic(auto, unfolding(crate::specs::Checks::completion_fault))]
fn check_completion_size(size: u32, descriptors: u64) -> Result<(), ImageFault>
    ensures first_fault { fault_in result ≡ completion_fault size descriptors }
{
    let found = u64::from(size);
    ensure(found == descriptors, ImageFault::CompSize { found })
}

#[tactic(auto, unfolding(crate::specs::Checks::tx_completion_fault))]
fn check_tx_completion(bytes: &[u8], q: u8) -> Result<(), ImageFault>
    requires size { length bytes.now ≡ IMAGE_SIZE }
    requires queue { q < MAX_QUEUES }
    ensures first_fault { fault_in result ≡ tx_completion_fault bytes.now q }
{
    let start = tx_start(q);
    let ring = u64::from(u32_at(bytes, start + TX_RING_SIZE));
    check_completion_size(u32_at(bytes, start + COMPLETION_SIZE), ring)
}

#[tactic(auto, unfolding(crate::specs::Checks::rx_completion_fault))]
fn check_rx_completion(bytes: &[u8], q: u8) -> Result<(), ImageFault>
    requires size { length bytes.now ≡ IMAGE_SIZE }
    requires tx { tx_count bytes.now ≤ MAX_QUEUES }
    requires queue { q < MAX_QUEUES }
    ensures first_fault { fault_in result ≡ rx_completion_fault bytes.now q }
{
    let start = rx_start(bytes, q);
    let ring1 = u64::from(u32_at(bytes, start + RX_RING1_SIZE));
    let ring2 = u64::from(u32_at(bytes, start + RX_RING2_SIZE));
    check_completion_size(u32_at(bytes, start + COMPLETION_SIZE), ring1 + ring2)
}

/// The check of an address against the one that it has to be.
#[tactic(auto, unfolding(crate::specs::Checks::address_fault))]
pub fn check_address(found: u64, address: u64) -> Result<(), ImageFault>
    ensures first_fault { fault_in result ≡ address_fault found address }
{
    ensure(found == address, ImageFault::Address { found })
}

/// The address of a data ring of a size: 0 where there is none.
fn data_ring_address(size: u32, address: u64) -> u64
    ensures value { result ≡ data_address size address }
{
    if size == 0 { 0 } else { address }
}

#[tactic(auto, unfolding(crate::specs::Checks::tx_address_fault))]
fn check_tx_addresses(bytes: &[u8], q: u8) -> Result<(), ImageFault>
    requires size { length bytes.now ≡ IMAGE_SIZE }
    requires queue { q < MAX_QUEUES }
    ensures first_fault { fault_in result ≡ tx_address_fault bytes.now q }
{
    let start = tx_start(q);
    let queue = u32::from(q);
    check_address(u64_at(bytes, start + TX_RING), tx_ring_address(queue))?;
    let completions = u64_at(bytes, start + COMPLETION_RING);
    check_address(completions, tx_completion_ring_address(queue))?;
    let size = u32_at(bytes, start + TX_DATA_SIZE);
    let data = data_ring_address(size, tx_data_ring_address(queue));
    check_address(u64_at(bytes, start + TX_DATA_RING), data)
}

#[tactic(auto, unfolding(crate::specs::Checks::rx_address_fault))]
fn check_rx_addresses(bytes: &[u8], q: u8) -> Result<(), ImageFault>
    requires size { length bytes.now ≡ IMAGE_SIZE }
    requires tx { tx_count bytes.now ≤ MAX_QUEUES }
    requires queue { q < MAX_QUEUES }
    ensures first_fault { fault_in result ≡ rx_address_fault bytes.now q }
{
    let start = rx_start(bytes, q);
    let queue = u32::from(q);
    check_address(u64_at(bytes, start + RX_RING1), rx_ring1_address(queue))?;
    check_address(u64_at(bytes, start + RX_RING2), rx_ring2_address(queue))?;
    let completions = u64_at(bytes, start + COMPLETION_RING);
    check_address(completions, rx_completion_ring_address(queue))?;
    let size = u32::from(u16_at(bytes, start + RX_DATA_SIZE));
    let data = data_ring_address(size, rx_data_ring_address(queue));
    check_address(u64_at(bytes, start + RX_DATA_RING), data)
}

/// The check of a number of interrupts, or of the number of an interrupt, against what it has to be.
#[tactic(auto, unfolding(crate::specs::Checks::interrupt_fault))]
pub fn check_interrupt(interrupt: u8, expected: u32) -> Result<(), ImageFault>
    ensures first_fault { fault_in result ≡ interrupt_fault interrupt expected }
{
    let found = u64::from(interrupt);
    ensure(
        u32::from(interrupt) == expected,
        ImageFault::Interrupt { found },
    )
}

#[tactic(auto, unfolding(crate::specs::Checks::tx_interrupt_fault))]
fn check_tx_interrupt(bytes: &[u8], q: u8) -> Result<(), ImageFault>
    requires size { length bytes.now ≡ IMAGE_SIZE }
    requires queue { q < MAX_QUEUES }
    ensures first_fault { fault_in result ≡ tx_interrupt_fault bytes.now q }
{
    check_interrupt(u8_at(bytes, tx_start(q) + INTERRUPT), u32::from(q))
}

#[tactic(auto, unfolding(crate::specs::Checks::rx_interrupt_fault))]
fn check_rx_interrupt(bytes: &[u8], q: u8) -> Result<(), ImageFault>
    requires size { length bytes.now ≡ IMAGE_SIZE }
    requires tx { tx_count bytes.now ≤ MAX_QUEUES }
    requires queue { q < MAX_QUEUES }
    ensures first_fault { fault_in result ≡ rx_interrupt_fault bytes.now q }
{
    let before = u32::from(u8_at(bytes, TX_QUEUES));
    check_interrupt(
        u8_at(bytes, rx_start(bytes, q) + INTERRUPT),
        before + u32::from(q),
    )
}
