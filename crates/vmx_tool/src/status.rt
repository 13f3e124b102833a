//! How a run ended, and the number that the program ends with.
ghost use Rattle.std.specs.Prelude.{◌≡◌};
ghost use Rattle.vmx_tool.specs.Status.{number_of};

use vmx_pair::Record;

/// How a run ended. The first fault decides, in the order of the work: words, load and reading of the capture, save,
/// summary.
#[derive(Clone, Copy, Debug, PartialEq, Eq)]
pub enum Status {
    /// OUT was saved and the summary was written.
    Ok,
    /// The words have no meaning.
    Usage,
    /// IN is no capture that is read.
    Capture,
    /// IN has more than 67,108,864 bytes.
    TooLong,
    /// The shelf failed to read IN.
    ReadFault,
    /// The shelf failed to save OUT, or the console to write the summary.
    WriteFault,
    /// No memory was found.
    NoMemory,
}

impl Status {
    /// The number that the program ends with, 0 to 8. Own to this project.
    pub fn number(self) -> u8
        ensures number { result ≡ number_of self }
    {
        match self {
            Status::Ok => 0,
            Status::Usage => 2,
            Status::Capture => 4,
            Status::TooLong => 5,
            Status::ReadFault => 6,
            Status::WriteFault => 7,
            Status::NoMemory => 8,
        }
    }
}

/// The status, and the record of the replay: at `Ok` and `WriteFault`, and at `NoMemory` where the replay was finished.
#[derive(Drop)]
pub struct Outcome {
    pub status: Status,
    pub account: Option<Record>,
}
