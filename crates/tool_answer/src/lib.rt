//! What each tool call answers, and the world of a job. The crate holds definitions, in `specs/`: what arguments name (`Naming`), what refuses
//! a call before anything is done for it (`Refusals`), what it tells (`Values`), whether bytes may take the place of a class's version
//! (`Check`), the two class calls (`Redefining`), code, values and records of each call (`Answers`), and the world of a job (`JobWorld`).
//! Their laws are the contract of `call_laws`; `check_rows` has the refusals of the check computed.
#![tactic(auto)]

mod laws;

pub use laws::{call_laws, check_rows};
