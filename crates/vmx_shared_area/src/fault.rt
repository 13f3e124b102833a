//! What is wrong with an image: the first of nine checks that fails, with the value that was found in the field. The checks are this
//! project's own.

ghost use Rattle.std.specs.Prelude.{◌≡◌};
ghost use Rattle.vmx_shared_area.specs.Checks.{check, fault_in};

/// The first check that an image fails. `found` is the value of the first bad field.
#[derive(Clone, Copy, Debug, PartialEq, Eq)]
pub enum ImageFault {
    /// The magic is not 0xBABEFEE1.
    Magic { found: u64 },
    /// A number of queues is not 1 to 8, or the length of the queue descriptors is not 256 bytes for each.
    Queues { found: u64 },
    /// A ring has not 32 to 4,096 descriptors, in steps of 32, or not as many as the first queue's; or a transmit data ring has neither
    /// no entry nor one for each descriptor, or a receive data ring entries of neither 0 nor 128 bytes, or other than in the first queue.
    RingSize { found: u64 },
    /// A completion ring has not as many entries as its rings have descriptors.
    CompSize { found: u64 },
    /// A ring or the queue descriptors stand at another address, or a data ring that is not there at another than 0.
    Address { found: u64 },
    /// The MTU is not 60 to 9,000 bytes.
    Mtu { found: u64 },
    /// The receive mode has an unknown bit, or the multicast table has a bad length or another address.
    Filter { found: u64 },
    /// There is another feature than RXCSUM, RSS and RXVLAN, or with RSS its configuration is bad.
    Rss { found: u64 },
    /// The interrupts are not one for each queue and one for events.
    Interrupt { found: u64 },
}

impl ImageFault {
    ghost use Rattle.std.specs.Prelude.{◌≡◌};
    ghost use Rattle.vmx_shared_area.specs.FaultNumber.{number_of};

    /// The number of the check, 1 to 9, by which the device answers a command.
    pub fn number(&self) -> u32
        ensures number { result ≡ number_of self.now }
    {
        match self {
            ImageFault::Magic { .. } => 1,
            ImageFault::Queues { .. } => 2,
            ImageFault::RingSize { .. } => 3,
            ImageFault::CompSize { .. } => 4,
            ImageFault::Address { .. } => 5,
            ImageFault::Mtu { .. } => 6,
            ImageFault::Filter { .. } => 7,
            ImageFault::Rss { .. } => 8,
            ImageFault::Interrupt { .. } => 9,
        }
    }
}

/// A fault, unless a test holds.
pub fn ensure(holds: bool, fault: ImageFault) -> Result<(), ImageFault>
    ensures answer { fault_in result ≡ check fault holds }
{
    if holds { Ok(()) } else { Err(fault) }
}
