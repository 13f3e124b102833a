//! What each step of a transmit ring tells its seat. These types are for the proofs alone.
ghost use Rattle.vmx_tx_ring.specs.Tells.{opened, staged, published, device_looked, device_went_on, device_returned, met, driver_told, device_told};

use crate::known::{TxBuffer, TxKnown};
use atomic_table::{Join, Play, Split};

pub(crate) struct DriverOpens;

impl Play<TxBuffer, TxKnown> for DriverOpens {
    ghost then = { opened };
}

pub(crate) struct DriverStages;

impl Play<TxBuffer, TxKnown> for DriverStages {
    ghost then = { staged };
}

pub(crate) struct DriverPublishes;

impl Play<TxBuffer, TxKnown> for DriverPublishes {
    ghost then = { published };
}

pub(crate) struct DeviceLooks;

impl Play<TxBuffer, TxKnown> for DeviceLooks {
    ghost then = { device_looked };
}

pub(crate) struct DeviceGoesOn;

impl Play<TxBuffer, TxKnown> for DeviceGoesOn {
    ghost then = { device_went_on };
}

pub(crate) struct DeviceReturns;

impl Play<TxBuffer, TxKnown> for DeviceReturns {
    ghost then = { device_returned };
}

pub(crate) struct Met;

impl Play<TxBuffer, TxKnown> for Met {
    ghost then = { met };
}

pub(crate) struct DriverTold;

impl Play<TxBuffer, TxKnown> for DriverTold {
    ghost then = { driver_told };
}

pub(crate) struct DeviceTold;

impl Play<TxBuffer, TxKnown> for DeviceTold {
    ghost then = { device_told };
}

pub(crate) struct Apart;

impl Split<TxKnown> for Apart {
    ghost use Rattle.vmx_tx_ring.specs.Seats.{driver_part, device_part};

    ghost left = { driver_part };

    ghost right = { device_part };
}

pub(crate) struct DriverNote;

impl Split<TxKnown> for DriverNote {
    ghost use Rattle.vmx_tx_ring.specs.Seats.{gave_driver, driver_slip};

    ghost left = { gave_driver };

    ghost right = { driver_slip };
}

pub(crate) struct DeviceNote;

impl Split<TxKnown> for DeviceNote {
    ghost use Rattle.vmx_tx_ring.specs.Seats.{gave_device, device_slip};

    ghost left = { gave_device };

    ghost right = { device_slip };
}

pub(crate) struct Together;

impl Join<TxKnown> for Together {
    ghost use Rattle.vmx_tx_ring.specs.Seats.{together, nobody};

    ghost both = { together };

    ghost spent = { nobody };
}

pub(crate) struct HearDevice;

impl Join<TxKnown> for HearDevice {
    ghost use Rattle.vmx_tx_ring.specs.Seats.{hears_device, nobody};

    ghost both = { hears_device };

    ghost spent = { nobody };
}

pub(crate) struct HearDriver;

impl Join<TxKnown> for HearDriver {
    ghost use Rattle.vmx_tx_ring.specs.Seats.{hears_driver, nobody};

    ghost both = { hears_driver };

    ghost spent = { nobody };
}
