//! What each instruction does, family by family (JVM specification 6.5), what it needs first, and the methods of the base classes.
//! The crate holds definitions alone, in `specs/`.
#![tactic(auto)]
