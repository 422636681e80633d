//! What each step of the machine is: which actor may make it, and what it does. The crate holds definitions, in `specs/`, and their
//! laws, each the contract of a function that does nothing.
#![tactic(auto)]

mod laws;

pub use laws::{parts_laws, report_laws, schedule_laws, step_laws};
