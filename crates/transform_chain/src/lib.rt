//! The transformers that have their turns at a class (`java.lang.instrument`, `ClassFileTransformer`; JVM TI, "ClassFileLoadHook"): which
//! are registered, in what order they stand, and what their turns make of the class's bytes.
//!
//! `Active` is a transformer in its place, `Turn` what the log tells of its turn, `Folded` what several turns come to, and `Registered` a
//! transformer of `java.lang.instrument` that was added. What a transformer does is seen as a function of a class and its bytes.
//!
//! The definitions in `specs/` are in the order of `specs/Lib.antt`: the four groups (`Groups`), turns and folds (`Turns`), and which
//! transformers are registered (`Registrations`). Their laws are the contract of `chain_laws`.
#![tactic(auto)]

mod active;
mod folded;
mod laws;
mod registered;

pub use active::Active;
pub use folded::{Folded, Turn};
pub use laws::chain_laws;
pub use registered::Registered;
