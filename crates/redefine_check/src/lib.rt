//! Two versions of one class (JVM TI, "RedefineClasses"): which methods are the same in both.
//!
//! The crate holds definitions, in `specs/`, and their laws, which are the contract of `equivalence_laws`.
#![tactic(auto)]

mod laws;

pub use laws::equivalence_laws;
