//! Breakpoints and watched fields (JVM TI, "Breakpoint" and "Watched Field"). All environments share them, and they stay when one is
//! disposed.
//!
//! The crate holds definitions, in `specs/`, and their laws, which are the contract of `place_laws`. Each is said of the list of what has
//! changed: the last change that speaks of a place or of a field decides. By what places, classes and fields are told, names or numbers,
//! is left to whoever cites them.
#![tactic(auto)]

mod laws;

pub use laws::place_laws;
