ghost use Rattle.std.specs.Prelude.{◌≡◌};
ghost use Rattle.job_words.specs.Statuses.{status_number};

/// How a call of the program is over. The numbers are those of the process's exit status.
#[derive(Clone, Copy, Debug, PartialEq, Eq)]
pub enum Status {
    /// The run has died and its first thread returned, or a replay was cut where its schedule is over.
    Done = 0,
    /// The run has died, and its first thread threw what nobody caught.
    Uncaught = 1,
    /// The words are not accepted.
    Usage = 2,
    /// No file has the name.
    Absent = 3,
    /// A class file is not accepted.
    BadClass = 4,
    /// An agent's file is not accepted.
    BadAgent = 5,
    /// A file could not be read.
    ReadFault = 6,
    /// The text could not be written, or not all of it.
    WriteFault = 7,
    /// Memory ran out before anything was written.
    OutOfMemory = 8,
    /// A file is too long, or there are too many.
    TooLarge = 9,
    /// No actor can make a step.
    Stuck = 10,
    /// A limit of the run was met.
    Limit = 11,
    /// A schedule is not accepted.
    BadSchedule = 12,
}

impl Status {
    /// The number of the exit status.
    pub fn number(self) -> u8
        ensures { result ≡ status_number self }
    {
        self as u8
    }
}
