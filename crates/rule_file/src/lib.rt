//! What an agent's file says, or its first fault. The crate holds definitions, in `specs/`: the keys of each table of such a file, the
//! faults of a table in their order, and the agent that a file without faults says.
#![tactic(auto)]

mod laws;

pub use laws::file_rows;
