use crate::{AgentLogs, Bytes, Runs, ThreadLines};
use jv_names::Units;
use ti_ids::End;

/// What a report prints.
#[derive(Drop)]
pub struct ReportParts {
    /// The main class's name, in internal form (JVM specification 4.2.1).
    pub main: Units,
    /// Who made the steps.
    pub runs: Runs,
    /// How many steps were made.
    pub steps: u32,
    /// Why the run is over; None where it was cut.
    pub end: Option<End>,
    /// How each thread stands.
    pub threads: ThreadLines,
    /// The bytes that the program printed.
    pub output: Bytes,
    pub agents: AgentLogs,
}
