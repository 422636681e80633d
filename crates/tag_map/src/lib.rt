//! The tags that one environment has given to objects (JVM TI, "Heap"), and the objects that are found by them.
//!
//! The crate holds definitions, in `specs/`, and their laws, which are the contract of `tag_laws`. A tag is said of the list of what has
//! changed: the last change that speaks of an object decides.
#![tactic(auto)]

mod laws;

pub use laws::tag_laws;
