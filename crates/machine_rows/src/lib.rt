//! Worked rows, computed by the definitions of the machine alone.
#![tactic(auto)]

mod agents;
mod computed;
mod made;
mod programs;
mod refused;
mod statuses;
mod words;

pub use agents::{call_rows, event_rows, refusal_rows};
pub use computed::{agent_rows, chain_rows, java_rows, limit_rows, worked_rows};
pub use made::made_rows;
pub use programs::{java_program_rows, java_thread_rows};
pub use refused::refused_rows;
pub use statuses::{compared_methods, seen_statuses};
pub use words::worked_words;
