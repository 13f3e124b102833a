//! Where each field of an image stands, how large it may be, and what its bits mean.
//!
//! Fields of the header are those of `Vmxnet3_DriverShared` of Linux's `vmxnet3_defs.h`, fields of a queue descriptor those of
//! `Vmxnet3_TxQueueDesc` and `Vmxnet3_RxQueueDesc`, fields of an RSS configuration those of `UPT1_RSSConf` of `upt1_defs.h`. Where the
//! parts stand, and every limit, is own to this project. Offsets and sizes are in bytes.

/// The bytes of an image (own to this project).
pub const IMAGE_SIZE: usize = 8_192;

// The header, from byte 0 on.

/// The offset of the magic, of 4 bytes.
pub const MAGIC: usize = 0;

/// What the magic is: `VMXNET3_REV1_MAGIC`.
pub const MAGIC_NUMBER: u32 = 0xBABE_FEE1;

/// What a driver puts as its supported revisions, and as its supported UPT versions: the first (own to this project).
pub const FIRST_REVISION: u32 = 1;

/// The offset of the features (`uptFeatures`), of 8 bytes.
pub const FEATURES: usize = 24;

/// The feature of checked sums: `UPT1_F_RXCSUM`.
pub const FEATURE_RXCSUM: u64 = 1;

/// The feature of receive side scaling: `UPT1_F_RSS`.
pub const FEATURE_RSS: u64 = 2;

/// The feature of tags taken out: `UPT1_F_RXVLAN`.
pub const FEATURE_RXVLAN: u64 = 4;

/// The first number that has another feature than these three (own to this project).
pub const FEATURES_END: u64 = 8;

/// The offset of the address of the queue descriptors (`queueDescPA`), of 8 bytes.
pub const QUEUES_ADDRESS: usize = 40;

/// The offset of the length of the queue descriptors (`queueDescLen`), of 4 bytes.
pub const QUEUES_LENGTH: usize = 52;

/// The offset of the MTU, of 4 bytes.
pub const MTU: usize = 56;

/// The lowest MTU (`VMXNET3_MIN_MTU`), in bytes.
pub const MIN_MTU: u32 = 60;

/// The highest MTU (`VMXNET3_MAX_MTU`), in bytes.
pub const MAX_MTU: u32 = 9_000;

/// What a driver puts as the most pieces of a received frame (`maxNumRxSG`; own to this project).
pub const MOST_PIECES: u16 = 16;

/// The offset of the number of transmit queues, of 1 byte.
pub const TX_QUEUES: usize = 62;

/// The offset of the number of receive queues, of 1 byte.
pub const RX_QUEUES: usize = 63;

/// The offset of whether interrupts mask themselves (`autoMask`), of 1 byte: 0 or 1.
pub const AUTO_MASK: usize = 80;

/// The offset of the number of interrupts (`numIntrs`), of 1 byte.
pub const INTERRUPTS: usize = 81;

/// The offset of the interrupt of events (`eventIntrIdx`), of 1 byte.
pub const EVENT_INTERRUPT: usize = 82;

/// The offset of the moderation levels (`modLevels`), of 1 byte for each interrupt that there can be.
pub const LEVELS: usize = 83;

/// The number of moderation levels: `VMXNET3_MAX_INTRS`.
pub const LEVEL_COUNT: usize = 25;

/// The offset of the receive mode (`rxMode`), of 4 bytes.
pub const RX_MODE: usize = 120;

/// The receive mode of frames to the guest's own address: `VMXNET3_RXM_UCAST`.
pub const RX_MODE_UCAST: u32 = 1;

/// The receive mode of frames to a listed group address: `VMXNET3_RXM_MCAST`.
pub const RX_MODE_MCAST: u32 = 2;

/// The receive mode of frames to all: `VMXNET3_RXM_BCAST`.
pub const RX_MODE_BCAST: u32 = 4;

/// The receive mode of frames to any group address: `VMXNET3_RXM_ALL_MULTI`.
pub const RX_MODE_ALL_MULTI: u32 = 8;

/// The receive mode of all frames: `VMXNET3_RXM_PROMISC`.
pub const RX_MODE_PROMISC: u32 = 16;

/// The first number that has another bit than these five (own to this project).
pub const RX_MODE_END: u32 = 32;

/// The offset of the length of the multicast table (`mfTableLen`), of 2 bytes.
pub const MULTICAST_LENGTH: usize = 124;

/// The offset of the address of the multicast table (`mfTablePA`), of 8 bytes.
pub const MULTICAST_ADDRESS: usize = 128;

/// The bytes of a MAC address (`ETH_ALEN`).
pub const MAC_SIZE: usize = 6;

/// The most addresses of a multicast table (own to this project).
pub const MAX_MACS: usize = 256;

/// The offset of the VLAN table (`vfTable`), of numbers of 4 bytes.
pub const VLANS: usize = 136;

/// The numbers of the VLAN table: `VMXNET3_VFT_SIZE`.
pub const VLAN_WORDS: usize = 128;

/// The offset of the version of the RSS configuration (`confVer`), of 4 bytes; after the VLAN table.
pub const RSS_VERSION: usize = 648;

/// The version of an RSS configuration that a driver puts (own to this project).
pub const FIRST_RSS_VERSION: u32 = 1;

/// The offset of the length of the RSS configuration (`confLen`), of 4 bytes.
pub const RSS_LENGTH: usize = 652;

/// The offset of the address of the RSS configuration (`confPA`), of 8 bytes.
pub const RSS_ADDRESS: usize = 656;

/// The end of the header's fields; up to the first queue descriptor the bytes say nothing.
pub const HEADER_END: usize = 720;

// The descriptors of the queues, the transmit ones first.

/// The offset of the first queue descriptor (own to this project).
pub const DESCRIPTORS: usize = 1_024;

/// The bytes of a queue descriptor: the size of `Vmxnet3_TxQueueDesc` and of `Vmxnet3_RxQueueDesc`.
pub const DESCRIPTOR_SIZE: usize = 256;

/// The bytes for queue descriptors: as many as sixteen take (own to this project).
pub const DESCRIPTORS_SIZE: usize = 4_096;

/// The offset in a transmit descriptor of the ring's address (`txRingBasePA`), of 8 bytes.
pub const TX_RING: usize = 16;

/// The offset in a transmit descriptor of the data ring's address (`dataRingBasePA`), of 8 bytes.
pub const TX_DATA_RING: usize = 24;

/// The offset in a receive descriptor of the address of ring 1 (`rxRingBasePA[0]`), of 8 bytes.
pub const RX_RING1: usize = 16;

/// The offset in a receive descriptor of the address of ring 2 (`rxRingBasePA[1]`), of 8 bytes.
pub const RX_RING2: usize = 24;

/// The offset in a descriptor of the completion ring's address (`compRingBasePA`), of 8 bytes.
pub const COMPLETION_RING: usize = 32;

/// The offset in a receive descriptor of the data ring's address (`rxDataRingBasePA`), of 8 bytes.
pub const RX_DATA_RING: usize = 48;

/// The offset in a transmit descriptor of the ring's size (`txRingSize`), of 4 bytes, in descriptors.
pub const TX_RING_SIZE: usize = 56;

/// The offset in a transmit descriptor of the data ring's size (`dataRingSize`), of 4 bytes, in entries.
pub const TX_DATA_SIZE: usize = 60;

/// The offset in a receive descriptor of the size of ring 1 (`rxRingSize[0]`), of 4 bytes, in descriptors.
pub const RX_RING1_SIZE: usize = 56;

/// The offset in a receive descriptor of the size of ring 2 (`rxRingSize[1]`), of 4 bytes, in descriptors.
pub const RX_RING2_SIZE: usize = 60;

/// The offset in a descriptor of the completion ring's size (`compRingSize`), of 4 bytes, in completions.
pub const COMPLETION_SIZE: usize = 64;

/// The offset in a descriptor of its queue's interrupt (`intrIdx`), of 1 byte.
pub const INTERRUPT: usize = 72;

/// The offset in a receive descriptor of the size of a data ring's entry (`rxDataRingDescSize`), of 2 bytes, in bytes.
pub const RX_DATA_SIZE: usize = 74;

/// The offset in a descriptor of the queue's status: whether it is stopped, of 1 byte, 3 bytes, and its error, of 4 bytes.
pub const STATUS: usize = 80;

/// The bytes of a queue's status: the size of `Vmxnet3_QueueStatus`.
pub const STATUS_SIZE: usize = 8;

/// The offset in a descriptor of the queue's statistics, numbers of 8 bytes.
pub const STATISTICS: usize = 88;

/// The numbers of a queue's statistics: those of `UPT1_TxStats` and of `UPT1_RxStats`.
pub const STATISTICS_COUNT: usize = 10;

/// The bytes of a queue's statistics.
pub const STATISTICS_SIZE: usize = 80;

/// The fewest descriptors of a ring (own to this project).
pub const MIN_RING: u32 = 32;

/// The step of a ring's size, in descriptors: `VMXNET3_RING_SIZE_ALIGN`.
pub const RING_STEP: u32 = 32;

// The RSS configuration.

/// The offset of the RSS configuration (own to this project).
pub const RSS_START: usize = 5_120;

/// The bytes of an RSS configuration: the size of `UPT1_RSSConf`.
pub const RSS_CONFIGURATION_SIZE: u32 = 176;

/// The bytes for the RSS configuration (own to this project).
pub const RSS_ROOM: usize = 256;

/// The offset of the kinds of flow that are hashed (`hashType`), of 2 bytes.
pub const HASH_TYPES: usize = 5_120;

/// The greatest number that has no other kind of flow than the four: IPv4 1, TCP over IPv4 2, IPv6 4, TCP over IPv6 8.
pub const MAX_HASH_TYPES: u16 = 15;

/// The offset of the hash function (`hashFunc`), of 2 bytes.
pub const HASH_FUNCTION: usize = 5_122;

/// The Toeplitz hash: `UPT1_RSS_HASH_FUNC_TOEPLITZ`.
pub const TOEPLITZ: u16 = 1;

/// The offset of the length of the key (`hashKeySize`), of 2 bytes.
pub const KEY_LENGTH: usize = 5_124;

/// The bytes of a key: `UPT1_RSS_MAX_KEY_SIZE`.
pub const KEY_SIZE: usize = 40;

/// The offset of the number of entries of the indirection table (`indTableSize`), of 2 bytes.
pub const TABLE_LENGTH: usize = 5_126;

/// The most entries of an indirection table, of 1 byte each: `UPT1_RSS_MAX_IND_TABLE_SIZE`.
pub const TABLE_SIZE: usize = 128;

/// The offset of the key (`hashKey`).
pub const KEY: usize = 5_128;

/// The offset of the indirection table (`indTable`).
pub const TABLE: usize = 5_168;

// The multicast table.

/// The offset of the multicast table, six bytes an address (own to this project).
pub const MACS: usize = 5_376;

/// The bytes of a full multicast table, of 256 addresses.
pub const MACS_SIZE: usize = 1_536;

/// The end of the multicast table; from here on the bytes say nothing.
pub const MACS_END: usize = 6_912;
