//! What the machine is at one moment, and what follows from what has happened so far: the job, the core and the trace, and, as
//! functions of the trace, versions, code, masks, logs, tags and places. The crate holds definitions, in `specs/`, and their laws.
#![tactic(auto)]

mod laws;

pub use laws::{call_laws, change_laws, state_laws};
