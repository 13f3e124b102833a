//! The area of 8,192 bytes that a vmxnet3 driver and its device share.
//!
//! A driver writes a [`Setup`] into an [`Image`] and the device reads it back, or names the first check that fails. Fields are those of
//! Linux's `vmxnet3_defs.h` (`Vmxnet3_DriverShared`, `Vmxnet3_TxQueueDesc`, `Vmxnet3_RxQueueDesc`), each with its name in [`offsets`];
//! where the parts stand, the checks and the guest addresses, which `vmx_layout` has, are this project's own. All numbers are
//! little-endian.
#![tactic(auto)]

mod checks;
mod fault;
mod fields;
mod filter;
mod filter_checks;
mod image;
mod numbers;
pub mod offsets;
mod parts;
mod queue_checks;
mod reading;
mod rss;
mod rss_checks;
mod setup;
mod statistics;
mod stats;
#[cfg(test)]
mod tests;
mod writing;

pub use fault::ImageFault;
pub use filter::{Filter, MacTable};
pub use image::Image;
pub use offsets::{
    FEATURE_RSS, FEATURE_RXCSUM, FEATURE_RXVLAN, RX_MODE_ALL_MULTI, RX_MODE_BCAST, RX_MODE_MCAST,
    RX_MODE_PROMISC, RX_MODE_UCAST,
};
pub use reading::{
    read, read_features, read_levels, read_mode, read_multicast, read_rss, read_table, read_vlans,
};
pub use rss::{IndexTable, MICROSOFT_KEY, Rss};
pub use setup::Setup;
pub use statistics::{read_stats, write_stats, write_status};
pub use stats::{Side, Stats};
pub use writing::write;
