//! Reads the constant pool of a class file (Java Virtual Machine Specification, SE 8, 4.4), and looks each of its texts
//! through once.
#![tactic(auto)]

mod entry;
mod laws;
mod pool;
mod references;
mod roles;
mod text;

pub use laws::text_laws;
pub use pool::{Pool, pool_at};
