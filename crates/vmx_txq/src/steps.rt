//! What each step over the ring of completions tells its seat. These types are for the proofs alone.
ghost use Rattle.vmx_txq.specs.Tells.{driver_looked, driver_reaped, device_closed, device_completed, seen_only};

use atomic_table::{Join, Play};
use vmx_tx_ring::{TxBuffer, TxKnown};

pub(crate) struct DriverLooks;

impl Play<TxBuffer, TxKnown> for DriverLooks {
    ghost then = { driver_looked };
}

pub(crate) struct DriverReaps;

impl Play<TxBuffer, TxKnown> for DriverReaps {
    ghost then = { driver_reaped };
}

pub(crate) struct DeviceCloses;

impl Play<TxBuffer, TxKnown> for DeviceCloses {
    ghost then = { device_closed };
}

pub(crate) struct DeviceCompletes;

impl Play<TxBuffer, TxKnown> for DeviceCompletes {
    ghost then = { device_completed };
}

pub(crate) struct Shows;

impl Play<TxBuffer, TxKnown> for Shows {
    ghost then = { seen_only };
}

pub(crate) struct BothEnds;

impl Join<TxKnown> for BothEnds {
    ghost use Rattle.vmx_tx_ring.specs.Seats.{together, nobody};

    ghost both = { together };

    ghost spent = { nobody };
}
