//! What each step over the counting word tells its seat. These types are for the proofs alone.
ghost use Rattle.vmx_tx_counted.specs.Tells.{driver_looked, driver_walked, driver_reaped, device_counted};

use atomic_table::Play;
use vmx_tx_ring::{TxBuffer, TxKnown};

pub(crate) struct DriverLooks;

impl Play<TxBuffer, TxKnown> for DriverLooks {
    ghost then = { driver_looked };
}

pub(crate) struct DriverWalks;

impl Play<TxBuffer, TxKnown> for DriverWalks {
    ghost then = { driver_walked };
}

pub(crate) struct DriverReaps;

impl Play<TxBuffer, TxKnown> for DriverReaps {
    ghost then = { driver_reaped };
}

pub(crate) struct DeviceCounts;

impl Play<TxBuffer, TxKnown> for DeviceCounts {
    ghost then = { device_counted };
}
