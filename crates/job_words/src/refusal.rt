ghost use Rattle.std.specs.Prelude.{◌≡◌};
ghost use Rattle.job_words.specs.Statuses.{refusal_status};

use crate::agent_fault::AgentFault;
use crate::input_limit::InputLimit;
use crate::status::Status;
use classfile_items::ReadClassFault;

/// Why a call is refused, as one line tells it. A place is that of the file in the order of fetches, or among the class files or the
/// agent files alone. All count from 1.
#[derive(Drop, Debug)]
pub enum Refusal {
    /// The words are not accepted.
    Usage,
    /// No file has the name of the one at this place.
    Absent(u32),
    /// The file at this place could not be read.
    ReadFault(u32),
    /// There is more than the limit allows: at the place of a file, or of files, of which there are so many.
    TooLarge(InputLimit, u32),
    /// The class file at this place has this fault, which is never want of memory.
    BadClass(u32, ReadClassFault),
    /// The agent file at this place has this fault.
    BadAgent(u32, AgentFault),
    /// The text states no schedule.
    BadText,
    /// The actor of an entry can't make its step. So many entries stand before it.
    BadEntry(u32),
}

impl Refusal {
    /// The status that a call ends with which is refused so.
    pub fn status(&self) -> Status
        ensures { result ≡ refusal_status self.now }
    {
        match self {
            Refusal::Usage => Status::Usage,
            Refusal::Absent(_) => Status::Absent,
            Refusal::ReadFault(_) => Status::ReadFault,
            Refusal::TooLarge(_, _) => Status::TooLarge,
            Refusal::BadClass(_, _) => Status::BadClass,
            Refusal::BadAgent(_, _) => Status::BadAgent,
            Refusal::BadText | Refusal::BadEntry(_) => Status::BadSchedule,
        }
    }
}
