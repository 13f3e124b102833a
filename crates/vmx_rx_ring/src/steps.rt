//! What each step of a receive queue tells. These types are for the proofs alone.
use crate::known::{Buffer, Known};
use atomic_table::{Join, Play, Split};

/// The walk's loads of second words.
pub struct HeadLook;

impl Play<Buffer, Known> for HeadLook {
    ghost use Rattle.vmx_rx_ring.specs.Tells.{head_looked};

    ghost then = { head_looked };
}

pub struct OneLook;

impl Play<Buffer, Known> for OneLook {
    ghost use Rattle.vmx_rx_ring.specs.Tells.{one_looked};

    ghost then = { one_looked };
}

pub struct TwoLook;

impl Play<Buffer, Known> for TwoLook {
    ghost use Rattle.vmx_rx_ring.specs.Tells.{two_looked};

    ghost then = { two_looked };
}

/// The loads of first words, which take buffers out.
pub struct HeadTake;

impl Play<Buffer, Known> for HeadTake {
    ghost use Rattle.vmx_rx_ring.specs.Tells.{head_taken};

    ghost then = { head_taken };
}

pub struct DataTake;

impl Play<Buffer, Known> for DataTake {
    ghost use Rattle.vmx_rx_ring.specs.Tells.{data_taken};

    ghost then = { data_taken };
}

pub struct OneTake;

impl Play<Buffer, Known> for OneTake {
    ghost use Rattle.vmx_rx_ring.specs.Tells.{one_taken};

    ghost then = { one_taken };
}

pub struct TwoTake;

impl Play<Buffer, Known> for TwoTake {
    ghost use Rattle.vmx_rx_ring.specs.Tells.{two_taken};

    ghost then = { two_taken };
}

/// The device's stores.
pub struct Open;

impl Play<Buffer, Known> for Open {
    ghost use Rattle.vmx_rx_ring.specs.Tells.{opened};

    ghost then = { opened };
}

pub struct Stage;

impl Play<Buffer, Known> for Stage {
    ghost use Rattle.vmx_rx_ring.specs.Tells.{staged};

    ghost then = { staged };
}

pub struct Publish;

impl Play<Buffer, Known> for Publish {
    ghost use Rattle.vmx_rx_ring.specs.Tells.{published};

    ghost then = { published };
}

/// The driver's loads.
pub struct CompletionLook;

impl Play<Buffer, Known> for CompletionLook {
    ghost use Rattle.vmx_rx_ring.specs.Tells.{completion_looked};

    ghost then = { completion_looked };
}

pub struct CountLook;

impl Play<Buffer, Known> for CountLook {
    ghost use Rattle.vmx_rx_ring.specs.Tells.{count_looked};

    ghost then = { count_looked };
}

pub struct SecondLoad;

impl Play<Buffer, Known> for SecondLoad {
    ghost use Rattle.vmx_rx_ring.specs.Tells.{second_loaded};

    ghost then = { second_loaded };
}

pub struct Grab;

impl Play<Buffer, Known> for Grab {
    ghost use Rattle.vmx_rx_ring.specs.Tells.{grabbed};

    ghost then = { grabbed };
}

/// The driver's stores, which post descriptors back.
pub struct Skip;

impl Play<Buffer, Known> for Skip {
    ghost use Rattle.vmx_rx_ring.specs.Tells.{skipped};

    ghost then = { skipped };
}

pub struct ReturnOne;

impl Play<Buffer, Known> for ReturnOne {
    ghost use Rattle.vmx_rx_ring.specs.Tells.{returned1};

    ghost then = { returned1 };
}

pub struct ReturnTwo;

impl Play<Buffer, Known> for ReturnTwo {
    ghost use Rattle.vmx_rx_ring.specs.Tells.{returned2};

    ghost then = { returned2 };
}

/// The ends give notes.
pub struct DeviceNote;

impl Split<Known> for DeviceNote {
    ghost use Rattle.vmx_rx_ring.specs.Seats.{device_told, device_note};

    ghost left = { device_told };

    ghost right = { device_note };
}

pub struct DriverNote;

impl Split<Known> for DriverNote {
    ghost use Rattle.vmx_rx_ring.specs.Seats.{driver_told, driver_note};

    ghost left = { driver_told };

    ghost right = { driver_note };
}

/// They hear notes, and learn what these tell.
pub struct HearsDriver;

impl Join<Known> for HearsDriver {
    ghost use Rattle.vmx_rx_ring.specs.Seats.{hears_driver, nobody};

    ghost both = { hears_driver };

    ghost spent = { nobody };
}

pub struct HearsDevice;

impl Join<Known> for HearsDevice {
    ghost use Rattle.vmx_rx_ring.specs.Seats.{hears_device, nobody};

    ghost both = { hears_device };

    ghost spent = { nobody };
}

pub struct DeviceHeard;

impl Play<Buffer, Known> for DeviceHeard {
    ghost use Rattle.vmx_rx_ring.specs.Tells.{device_heard};

    ghost then = { device_heard };
}

pub struct DriverHeard;

impl Play<Buffer, Known> for DriverHeard {
    ghost use Rattle.vmx_rx_ring.specs.Tells.{driver_heard};

    ghost then = { driver_heard };
}

/// The table's seat is cut in two.
pub struct Apart;

impl Split<Known> for Apart {
    ghost use Rattle.vmx_rx_ring.specs.Seats.{device_part, driver_part};

    ghost left = { driver_part };

    ghost right = { device_part };
}

/// The ends meet in the driver's seat.
pub struct Together;

impl Join<Known> for Together {
    ghost use Rattle.vmx_rx_ring.specs.Seats.{together, nobody};

    ghost both = { together };

    ghost spent = { nobody };
}

pub struct Met;

impl Play<Buffer, Known> for Met {
    ghost use Rattle.vmx_rx_ring.specs.Tells.{met};

    ghost then = { met };
}
