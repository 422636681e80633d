//! The instructions of a method, found by their offsets in constant time.
//!
//! `Code` is a list of instructions with their offsets, as `class_code` reads it from a method's code, and an index of it. It is made once
//! a method, and is looked at by whoever runs it.
#![tactic(auto)]

mod code;

pub use code::Code;
