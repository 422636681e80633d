//! The text of a report, and the schedule that a report states. It knows reports as plain values, and no machine.
#![tactic(auto)]

mod agent_log;
mod bytes;
mod parts;
mod run;
mod schedule;
mod text;
mod thread_line;

pub use agent_log::{AgentLog, AgentLogs};
pub use bytes::{Bytes, Lines};
pub use parts::ReportParts;
pub use run::{Run, Runs};
pub use schedule::runs_of;
pub use text::report;
pub use thread_line::{ThreadLine, ThreadLines};
