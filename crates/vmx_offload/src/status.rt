//! How a run ended, and the number that the program ends with.
ghost use Rattle.std.specs.Prelude.{◌≡◌};
ghost use Rattle.vmx_offload.specs.Status.{number_of};

use vmx_txq::TxFacts;

/// How a run ended. The first fault decides, in the order of the work: words, load and reading of the capture, save, line.
#[derive(Clone, Copy, Debug, PartialEq, Eq)]
pub enum OffloadStatus {
    /// OUT was saved and the line was written.
    Ok,
    /// The words have no meaning.
    Usage,
    /// IN is no capture that is read.
    Capture,
    /// IN has more than 67,108,864 bytes.
    TooLong,
    /// The shelf failed to read IN.
    ReadFault,
    /// The shelf failed to save OUT, or the console to write the line.
    WriteFault,
    /// No memory was found.
    NoMemory,
}

impl OffloadStatus {
    /// The number that the program ends with, 0 to 8. Own to this project.
    pub fn number(self) -> u8
        ensures number { result ≡ number_of self }
    {
        match self {
            OffloadStatus::Ok => 0,
            OffloadStatus::Usage => 2,
            OffloadStatus::Capture => 4,
            OffloadStatus::TooLong => 5,
            OffloadStatus::ReadFault => 6,
            OffloadStatus::WriteFault => 7,
            OffloadStatus::NoMemory => 8,
        }
    }
}

/// The status, and at `Ok` what is known of the transmit queue through which the frames went.
#[derive(Drop)]
pub struct OffloadOutcome {
    pub status: OffloadStatus,
    pub facts: Option<TxFacts>,
}
