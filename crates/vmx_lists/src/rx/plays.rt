//! What each step of a receive queue tells. These types are for the proofs alone.
ghost use Rattle.vmx_lists.specs.RxPlays.{device_looked, device_stored, driver_looked, driver_stored, met, device_told, driver_told};

use super::log::{RxLog, RxParcel};
use atomic_table::{Join, Play, Split};

pub(crate) struct Apart;

impl Split<RxLog> for Apart {
    ghost use Rattle.vmx_lists.specs.RxRing.{device_part, driver_part};

    ghost left = { driver_part };

    ghost right = { device_part };
}

pub(crate) struct Together;

impl Join<RxLog> for Together {
    ghost use Rattle.vmx_lists.specs.RxRing.{together, nobody};

    ghost both = { together };

    ghost spent = { nobody };
}

/// A load of the received number, for a frame of one piece, of two and of three.
pub(crate) struct LookOne;

impl Play<RxParcel, RxLog> for LookOne {
    ghost then = { device_looked 0 };
}

pub(crate) struct LookTwo;

impl Play<RxParcel, RxLog> for LookTwo {
    ghost then = { device_looked 1 };
}

pub(crate) struct LookThree;

impl Play<RxParcel, RxLog> for LookThree {
    ghost then = { device_looked 2 };
}

pub(crate) struct DeviceStore;

impl Play<RxParcel, RxLog> for DeviceStore {
    ghost then = { device_stored };
}

pub(crate) struct DriverLook;

impl Play<RxParcel, RxLog> for DriverLook {
    ghost then = { driver_looked };
}

pub(crate) struct DriverStore;

impl Play<RxParcel, RxLog> for DriverStore {
    ghost then = { driver_stored };
}

pub(crate) struct DeviceNote;

impl Split<RxLog> for DeviceNote {
    ghost use Rattle.vmx_lists.specs.RxRing.{gave_device, device_slip};

    ghost left = { gave_device };

    ghost right = { device_slip };
}

pub(crate) struct DriverNote;

impl Split<RxLog> for DriverNote {
    ghost use Rattle.vmx_lists.specs.RxRing.{gave_driver, driver_slip};

    ghost left = { gave_driver };

    ghost right = { driver_slip };
}

pub(crate) struct HearDevice;

impl Join<RxLog> for HearDevice {
    ghost use Rattle.vmx_lists.specs.RxRing.{hears_device, nobody};

    ghost both = { hears_device };

    ghost spent = { nobody };
}

pub(crate) struct HearDriver;

impl Join<RxLog> for HearDriver {
    ghost use Rattle.vmx_lists.specs.RxRing.{hears_driver, nobody};

    ghost both = { hears_driver };

    ghost spent = { nobody };
}

pub(crate) struct Met;

impl Play<RxParcel, RxLog> for Met {
    ghost then = { met };
}

pub(crate) struct DeviceTold;

impl Play<RxParcel, RxLog> for DeviceTold {
    ghost then = { device_told };
}

pub(crate) struct DriverTold;

impl Play<RxParcel, RxLog> for DriverTold {
    ghost then = { driver_told };
}
