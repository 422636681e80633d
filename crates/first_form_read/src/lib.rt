//! Reads a class file of the one form that is accepted so far (JVM specification, chapter 4).
#![tactic(auto)]

mod base_set;
mod bytes;
mod class_file;
mod listing;
mod read;
mod type_check;

pub use class_file::ClassFile;
pub use read::{ReadClassFault, read_class};
