//! A guest.
use vmx_device::Device;
use vmx_driver::Driver;
use vmx_ends::Fabric;

/// A guest's driver and its device.
#[derive(Drop)]
pub struct Guest<'a, F: Fabric> {
    pub driver: Driver<'a, F>,
    pub device: Device<F>,
}
