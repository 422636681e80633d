//! The machine: one step of one actor at a time, of a class without agents.
#![tactic(auto)]

mod frame;
mod job;
mod machine;
mod operands;
mod parts;
mod thread;

pub use job::Job;
pub use machine::{CoreFault, Machine};
