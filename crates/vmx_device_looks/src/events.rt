//! The events that a device sets (Linux `vmxnet3_defs.h`, `VMXNET3_ECR_RQERR` and `VMXNET3_ECR_TQERR`).

/// A receive queue has stopped.
pub const RX_ERROR_EVENT: u32 = 1;

/// A transmit queue has stopped.
pub const TX_ERROR_EVENT: u32 = 2;
