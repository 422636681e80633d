//! Lists of changes, each of which speaks of some things: what the last change that speaks of a thing says of it. What agents set is
//! said so, of one thing after the other.
//!
//! The crate holds definitions, in `specs/`, and their laws, which are the contract of `change_laws`.
#![tactic(auto)]

mod laws;

pub use laws::change_laws;
