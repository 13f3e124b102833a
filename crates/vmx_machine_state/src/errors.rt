//! The errors of stopped queues. Their numbers are own to this project.

ghost use Rattle.std.specs.Prelude.{◌≡◌};
ghost use Rattle.vmx_machine_state.specs.Stopped.{error_of};

use vmx_ends::EndFault;

/// A bit without a name is set in a descriptor.
pub const FIELD_ERROR: u32 = 1;

/// A descriptor asks for an offload that there is not.
pub const OFFLOAD_ERROR: u32 = 2;

/// A packet has too many descriptors.
pub const CHAIN_ERROR: u32 = 3;

/// A packet or a buffer has a size that none has.
pub const SIZE_ERROR: u32 = 4;

/// A buffer stands at another address.
pub const ADDRESS_ERROR: u32 = 5;

/// The number by which a queue is stopped at a fault, 1 to 5.
pub fn error_number(fault: &EndFault) -> u32
    ensures number { result ≡ error_of fault.now }
{
    match fault {
        EndFault::Field { .. } => FIELD_ERROR,
        EndFault::Offload { .. } => OFFLOAD_ERROR,
        EndFault::Chain { .. } => CHAIN_ERROR,
        EndFault::Size { .. } => SIZE_ERROR,
        EndFault::Address { .. } => ADDRESS_ERROR,
    }
}
