//! The base classes: those that stand ready in the machine and are in no file, as trees of class files.
#![tactic(auto)]

mod classes;
mod entries;
mod members;
mod names;
mod table;

pub use classes::base_classes;
pub use names::is_base;
