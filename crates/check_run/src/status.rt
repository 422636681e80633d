ghost use Rattle.std.specs.Prelude.{◌≡◌};

use std::alloc::AllocError;
use std::io;

/// How a call of the program is over. The numbers are those of the process's exit status.
#[derive(Clone, Copy, Debug, PartialEq, Eq)]
pub enum Status {
    /// Each file is accepted.
    Accepted = 0,
    /// A file is not accepted, or could not be read.
    NotAccepted = 1,
    /// The words are not accepted.
    Usage = 2,
    /// A line could not be written, or not all of it.
    WriteFault = 7,
    /// Memory ran out.
    OutOfMemory = 8,
}

impl From<AllocError> for Status {
    ghost use Rattle.check_run.specs.declared.status.Status.TheVariants.{OutOfMemory};

    ghost from_gives = { λ _ status. status ≡ OutOfMemory };

    fn from(_: AllocError) -> Self {
        Status::OutOfMemory
    }
}

impl From<io::Error> for Status {
    ghost use Rattle.check_run.specs.declared.status.Status.TheVariants.{WriteFault};

    ghost from_gives = { λ _ status. status ≡ WriteFault };

    fn from(_: io::Error) -> Self {
        Status::WriteFault
    }
}
