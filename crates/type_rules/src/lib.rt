//! What each instruction asks of the type state before it, and which it leaves (JVM specification 4.10.1.9), without what protected
//! members ask. One function for a family of instructions, which mirrors the definition of its name in `type_frames`.
#![tactic(auto)]

mod arrays;
mod calls;
mod constants;
mod fields;
mod locals;
mod method;
mod names;
mod numbers;
mod objects;
mod returns;
mod rules;
mod stack;

pub use method::Method;
pub use rules::rule;
