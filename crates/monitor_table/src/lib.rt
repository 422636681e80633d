//! Monitors of objects, with their owners, their entries and their wait sets (Java Virtual Machine Specification, SE 8,
//! 2.11.10; Java Language Specification, SE 8, 17.1 and 17.2).
#![tactic(auto)]

mod law;
mod monitor;
mod table;

pub use law::monitor_laws;
pub use monitor::Waiting;
pub use table::{Entry, MonitorFault, Monitors};
