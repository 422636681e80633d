//! The capabilities of one environment (JVM TI, "Capability"): what it holds after each change, and what it may add in a phase.
//!
//! The crate holds definitions, in `specs/`, and their laws, which are the contract of `capability_laws`. A set of capabilities is a
//! list of them in any order.
#![tactic(auto)]

mod laws;

pub use laws::capability_laws;
