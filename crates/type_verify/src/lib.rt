//! The type checker of class files (JVM specification 4.10.1): whether a method and a class pass it, with their type states, and
//! where they fail first.
#![tactic(auto)]

mod again;
mod begin;
mod checker;
mod code;
mod expanding;
mod flow;
mod laws;
mod typed;
mod verify;
mod walk;

pub use expanding::expand;
pub use laws::typed_laws;
pub use typed::{Typed, TypedCode, verify_class, verify_method};
pub use verify::{VerifyFault, check_class, check_method};
