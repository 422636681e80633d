ghost use Rattle.std.specs.Prelude.{◌≡◌};

use crate::{Bytes, Lines};
use std::marker::Model;

/// What an agent wrote: its name as a report's line gives it, and the lines of its log.
#[derive(Drop)]
pub struct AgentLog {
    pub name: Bytes,
    pub lines: Lines,
}

/// The agents' logs, in the order of the agents. Contracts see them as a list.
#[derive(Drop)]
pub struct AgentLogs {
    logs: Vec<AgentLog>,
}

impl Model for AgentLogs {
    ghost use Rattle.std.specs.Prelude.{List};
    ghost use Rattle.report_text.specs.declared.agent_log.AgentLog.{AgentLog};

    ghost Value = { List AgentLog };

    ghost view = { λ whole. whole.logs.items };
}

impl AgentLogs {
    /// From these logs, with no memory taken.
    pub fn new(logs: Vec<AgentLog>) -> AgentLogs
        ensures { result ≡ logs.items }
    {
        AgentLogs { logs }
    }

    pub fn as_slice(&self) -> &[AgentLog]
        ensures { result.now ≡ self.now }
    {
        &self.logs
    }

    /// The logs, with no memory taken.
    pub fn into_vec(self) -> Vec<AgentLog>
        ensures { result.items ≡ self }
    {
        self.logs
    }
}
