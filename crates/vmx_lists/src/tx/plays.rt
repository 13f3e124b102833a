//! What each step of a transmit queue tells. These types are for the proofs alone.
ghost use Rattle.vmx_lists.specs.TxPlays.{driver_opened, driver_stored, driver_looked, device_looked, device_returned, device_stored, met, driver_told, device_told};

use super::log::{TxLog, TxParcel};
use atomic_table::{Join, Play, Split};

pub(crate) struct Apart;

impl Split<TxLog> for Apart {
    ghost use Rattle.vmx_lists.specs.TxRing.{device_part, driver_part};

    ghost left = { driver_part };

    ghost right = { device_part };
}

pub(crate) struct Together;

impl Join<TxLog> for Together {
    ghost use Rattle.vmx_lists.specs.TxRing.{together, nobody};

    ghost both = { together };

    ghost spent = { nobody };
}

pub(crate) struct DriverOpens;

impl Play<TxParcel, TxLog> for DriverOpens {
    ghost then = { driver_opened };
}

pub(crate) struct DriverStore;

impl Play<TxParcel, TxLog> for DriverStore {
    ghost then = { driver_stored };
}

pub(crate) struct DriverLook;

impl Play<TxParcel, TxLog> for DriverLook {
    ghost then = { driver_looked };
}

pub(crate) struct DeviceLook;

impl Play<TxParcel, TxLog> for DeviceLook {
    ghost then = { device_looked };
}

pub(crate) struct DeviceReturns;

impl Play<TxParcel, TxLog> for DeviceReturns {
    ghost then = { device_returned };
}

pub(crate) struct DeviceStore;

impl Play<TxParcel, TxLog> for DeviceStore {
    ghost then = { device_stored };
}

pub(crate) struct DriverNote;

impl Split<TxLog> for DriverNote {
    ghost use Rattle.vmx_lists.specs.TxRing.{gave_driver, driver_slip};

    ghost left = { gave_driver };

    ghost right = { driver_slip };
}

pub(crate) struct DeviceNote;

impl Split<TxLog> for DeviceNote {
    ghost use Rattle.vmx_lists.specs.TxRing.{gave_device, device_slip};

    ghost left = { gave_device };

    ghost right = { device_slip };
}

pub(crate) struct HearDevice;

impl Join<TxLog> for HearDevice {
    ghost use Rattle.vmx_lists.specs.TxRing.{hears_device, nobody};

    ghost both = { hears_device };

    ghost spent = { nobody };
}

pub(crate) struct HearDriver;

impl Join<TxLog> for HearDriver {
    ghost use Rattle.vmx_lists.specs.TxRing.{hears_driver, nobody};

    ghost both = { hears_driver };

    ghost spent = { nobody };
}

pub(crate) struct Met;

impl Play<TxParcel, TxLog> for Met {
    ghost then = { met };
}

pub(crate) struct DriverTold;

impl Play<TxParcel, TxLog> for DriverTold {
    ghost then = { driver_told };
}

pub(crate) struct DeviceTold;

impl Play<TxParcel, TxLog> for DeviceTold {
    ghost then = { device_told };
}
