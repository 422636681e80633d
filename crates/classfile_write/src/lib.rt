//! Writes class files (Java Virtual Machine Specification, SE 8, chapter 4): the bytes that spell a tree.
#![tactic(auto, using(std::proofs::Common::append_assoc))]

mod code;
mod frames;
mod item;
mod members;
mod number;
mod pool;
mod text;
mod write;

pub use write::write_class;
