//! The parts of a device.
use std::alloc::Global;
use vmx_commands::Machine;
use vmx_ends::{Ends, Fabric};
use vmx_io::{Buffer, List};
use vmx_link::{LinkIn, LinkOut};
use vmx_model::Journal;
use vmx_regs::DeviceRegs;
use vmx_switch::Table;

/// All that a device has. Links stand in the order of the other ports.
#[derive(Drop)]
pub struct Inner<F: Fabric> {
    pub port: u32,
    pub table: Table,
    pub machine: Machine<F>,
    pub regs: DeviceRegs<Ends<F>>,
    pub out: List<LinkOut>,
    pub input: List<LinkIn>,
    pub journal: Journal,
    /// How many activations were answered 0.
    pub begun: u32,
    /// Room for the copies of frames that a turn makes.
    pub copies: List<Buffer>,
    /// Room for a frame that is taken, and for one with its tag put in or taken out.
    pub bytes: Vec<u8>,
    pub spare: Vec<u8>,
    pub alloc: Global,
}
