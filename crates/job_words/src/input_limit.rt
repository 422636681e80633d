ghost use Rattle.std.specs.Prelude.{◌≡◌, ◌≤◌, length};
ghost use Rattle.job_words.specs.Refusals.{most as most_of, limit_text};

/// A limit of what a call is given.
#[derive(Clone, Copy, Debug, PartialEq, Eq)]
pub enum InputLimit {
    /// How many class files there are.
    Classes,
    /// How many donors there are.
    Donors,
    /// How many agents there are.
    Agents,
    /// How many bytes a class or a donor has.
    ClassBytes,
    /// How many bytes an agent's file has.
    AgentBytes,
    /// How many bytes the file of a schedule has.
    ScheduleBytes,
    /// How many bytes all classes, donors and agents have together.
    TotalBytes,
}

impl InputLimit {
    /// How many there may be.
    pub fn most(self) -> u32
        ensures { result ≡ most_of self }
    {
        match self {
            InputLimit::Classes => 256,
            InputLimit::Donors => 64,
            InputLimit::Agents => 16,
            InputLimit::ClassBytes => 1_048_576,
            InputLimit::AgentBytes => 65_536,
            InputLimit::ScheduleBytes => 134_217_728,
            InputLimit::TotalBytes => 33_554_432,
        }
    }

    /// The name that the line of a refusal has, of lower-case letters and hyphens.
    pub fn name(self) -> &'static str
        ensures text { result.now ≡ limit_text self }
        ensures short { length result.now ≤ 14 }
    {
        match self {
            InputLimit::Classes => "classes",
            InputLimit::Donors => "donors",
            InputLimit::Agents => "agents",
            InputLimit::ClassBytes => "class-bytes",
            InputLimit::AgentBytes => "agent-bytes",
            InputLimit::ScheduleBytes => "schedule-bytes",
            InputLimit::TotalBytes => "total-bytes",
        }
    }
}
