//! Where a guest's memory has its image, its rings, its data rings and its buffers: guest physical addresses, in bytes.
//! All of them are own to this project. Any number of a queue has its addresses, though a device has at most `MAX_QUEUES` a side;
//! an entry or a buffer is below `MAX_RING_SIZE`.

ghost use Rattle.std.specs.Prelude.{◌≡◌, ◌<◌, ◌≤◌};
ghost use Rattle.vmx_layout.specs.Addresses.{tx_ring, tx_completion_ring, tx_data_ring, tx_data_entry, tx_buffer, rx_ring1, rx_ring2, rx_completion_ring, rx_data_ring, rx_data_entry, rx_buffer};

/// The image of the shared area.
pub const IMAGE: u64 = 0x1_0000;

/// The queue descriptors, those of the transmit queues first.
pub const QUEUE_DESCRIPTORS: u64 = 0x1_0400;

/// The RSS configuration.
pub const RSS_CONFIGURATION: u64 = 0x1_1400;

/// The table of the multicast addresses.
pub const MULTICAST_TABLE: u64 = 0x1_1500;

/// The rings of transmit queue 0.
pub const TX_RINGS: u64 = 0x1000_0000;

/// The rings of receive queue 0.
pub const RX_RINGS: u64 = 0x2000_0000;

/// From the rings of a queue to those of the next one of its side.
pub const RINGS_OF_QUEUE: u64 = 0x10_0000;

/// From a transmit queue's ring to its completion ring.
pub const TX_COMPLETION_RING_OFFSET: u64 = 0x1_0000;

/// From a transmit queue's ring to its data ring.
pub const TX_DATA_RING_OFFSET: u64 = 0x2_0000;

/// From a receive queue's ring 1 to its ring 2.
pub const RX_RING2_OFFSET: u64 = 0x1_0000;

/// From a receive queue's ring 1 to its completion ring.
pub const RX_COMPLETION_RING_OFFSET: u64 = 0x2_0000;

/// From a receive queue's ring 1 to its data ring.
pub const RX_DATA_RING_OFFSET: u64 = 0x4_0000;

/// The bytes of an entry of a data ring, transmit or receive.
pub const DATA_ENTRY_SIZE: u64 = 128;

/// The buffers of transmit queue 0.
pub const TX_BUFFERS: u64 = 0x1_0000_0000;

/// The buffers of receive queue 0.
pub const RX_BUFFERS: u64 = 0x2_0000_0000;

/// From the buffers of a transmit queue to those of the next one.
pub const TX_BUFFERS_OF_QUEUE: u64 = 0x200_0000;

/// From the buffers of a receive queue to those of the next one: the buffers of both its rings.
pub const RX_BUFFERS_OF_QUEUE: u64 = 0x400_0000;

/// From the buffers of a receive queue's ring 1 to those of its ring 2.
pub const RX_BUFFERS_OF_RING: u64 = 0x200_0000;

/// From a buffer to the next one of its ring.
pub const BUFFER_STRIDE: u64 = 0x1000;

/// The most entries of a ring.
pub const MAX_RING_SIZE: u32 = 4_096;

/// The descriptor ring of a transmit queue.
pub fn tx_ring_address(queue: u32) -> u64
    ensures value { result ≡ tx_ring queue }
{
    TX_RINGS + u64::from(queue) * RINGS_OF_QUEUE
}

/// The completion ring of a transmit queue.
pub fn tx_completion_ring_address(queue: u32) -> u64
    ensures value { result ≡ tx_completion_ring queue }
{
    tx_ring_address(queue) + TX_COMPLETION_RING_OFFSET
}

/// The data ring of a transmit queue.
pub fn tx_data_ring_address(queue: u32) -> u64
    ensures value { result ≡ tx_data_ring queue }
{
    tx_ring_address(queue) + TX_DATA_RING_OFFSET
}

/// An entry of a transmit queue's data ring.
pub fn tx_data_entry_address(queue: u32, index: u32) -> u64
    requires index { index < MAX_RING_SIZE }
    ensures value { result ≡ tx_data_entry queue index }
{
    tx_data_ring_address(queue) + DATA_ENTRY_SIZE * u64::from(index)
}

/// A buffer of a transmit queue.
pub fn tx_buffer_address(queue: u32, index: u32) -> u64
    requires index { index < MAX_RING_SIZE }
    ensures value { result ≡ tx_buffer queue index }
{
    TX_BUFFERS + u64::from(queue) * TX_BUFFERS_OF_QUEUE + u64::from(index) * BUFFER_STRIDE
}

/// Ring 1 of a receive queue.
pub fn rx_ring1_address(queue: u32) -> u64
    ensures value { result ≡ rx_ring1 queue }
{
    RX_RINGS + u64::from(queue) * RINGS_OF_QUEUE
}

/// Ring 2 of a receive queue.
pub fn rx_ring2_address(queue: u32) -> u64
    ensures value { result ≡ rx_ring2 queue }
{
    rx_ring1_address(queue) + RX_RING2_OFFSET
}

/// The completion ring of a receive queue.
pub fn rx_completion_ring_address(queue: u32) -> u64
    ensures value { result ≡ rx_completion_ring queue }
{
    rx_ring1_address(queue) + RX_COMPLETION_RING_OFFSET
}

/// The data ring of a receive queue.
pub fn rx_data_ring_address(queue: u32) -> u64
    ensures value { result ≡ rx_data_ring queue }
{
    rx_ring1_address(queue) + RX_DATA_RING_OFFSET
}

/// An entry of a receive queue's data ring: that of the head with this index in ring 1.
pub fn rx_data_entry_address(queue: u32, index: u32) -> u64
    requires index { index < MAX_RING_SIZE }
    ensures value { result ≡ rx_data_entry queue index }
{
    rx_data_ring_address(queue) + DATA_ENTRY_SIZE * u64::from(index)
}

/// A buffer of a ring, 1 or 2, of a receive queue.
pub fn rx_buffer_address(queue: u32, ring: u32, index: u32) -> u64
    requires ring { (1 ≤ ring) × (ring ≤ 2) }
    requires index { index < MAX_RING_SIZE }
    ensures value { result ≡ rx_buffer queue ring index }
{
    RX_BUFFERS
        + u64::from(queue) * RX_BUFFERS_OF_QUEUE
        + u64::from(ring - 1) * RX_BUFFERS_OF_RING
        + u64::from(index) * BUFFER_STRIDE
}
