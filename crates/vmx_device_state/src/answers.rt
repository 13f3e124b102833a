//! The answers of a device, own to this project but for the forms of GET_LINK, of the permanent address and of GET_CONF_INTR, which
//! are Linux's (`vmxnet3_defs.h`, `vmxnet3_drv.c`).

/// The answer to an activation of an active device.
pub const ALREADY_ACTIVE: u32 = 10;

/// The answer where the bag has not the queue ends that the command wants.
pub const OTHER_ENDS: u32 = 11;

/// The answer to a number that no command has, and to UPDATE_PMCFG.
pub const UNKNOWN_COMMAND: u32 = 0xffff_ffff;

/// The number of the check that an update of the receive mode or of the multicast table makes: that of `ImageFault::Filter`.
pub const FILTER_CHECK: u32 = 7;

/// The number of the check that an update of the features or of the indirection table makes: that of `ImageFault::Rss`.
pub const RSS_CHECK: u32 = 8;

/// The answer to GET_LINK: bit 0 says that the link is up, the upper 16 bits are its speed, 10,000 Mb/s.
pub const LINK_UP: u32 = 0x2710_0001;

/// The answer to GET_DID_LO: the lower half of the device's number, its PCI device.
pub const DEVICE_LOW: u32 = 0x07b0;

/// The answer to GET_DID_HI: the upper half of the device's number.
pub const DEVICE_HIGH: u32 = 1;

/// The answer to GET_CONF_INTR: MSI-X, 3, in bits 0 and 1; the automatic mask mode, 0, in bits 2 and 3.
pub const MSI_X: u32 = 3;
