//! Reads the content of an attribute `Code` (Java Virtual Machine Specification, SE 8, 4.7.3) and the stack maps in it (4.7.4).
#![tactic(auto)]

mod body;
mod code_attrs;
mod frames;
mod handlers;
mod instrs;
mod laws;

pub use body::code;
pub use laws::code_laws;
