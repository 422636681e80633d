//! Reads class files (Java Virtual Machine Specification, SE 8, chapter 4) of versions 50 to 52, without floating point.
#![tactic(auto)]

mod attrs;
mod class;
mod laws;
mod members;
mod seen;

pub use class::read_class;
pub use classfile_items::ReadClassFault;
pub use laws::class_file_laws;
