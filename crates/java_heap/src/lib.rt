//! The objects of a Java program (JVM specification 2.4 and 2.5.3), and how many heap words they take.
//!
//! An object takes 2 heap words and 1 for each field, an array 2 and 1 for each element, a String or a StringBuilder 2 and
//! 1 for each UTF-16 unit, and a Class object 2. Nothing is collected.
#![tactic(auto)]

mod fault;
mod heap;
mod laws;
mod object;
mod text;

pub use fault::HeapFault;
pub use heap::{HEADER_WORDS, Heap};
pub use laws::reference_laws;
pub use object::{CLASS, Content, Object, STRING, STRING_BUILDER};
pub use text::Text;
