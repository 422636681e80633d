//! What every reader of a part of a class file (Java Virtual Machine Specification, SE 8, chapter 4) is made of: numbers,
//! bytes and lists at the front of what is left of a file, and the fault that shows first.
#![tactic(auto)]

mod content;
mod fault;
mod item;
mod number;

pub use content::{of_length, text_index};
pub use fault::ReadClassFault;
pub use item::{ReadItem, counted};
pub use number::{offset, raw, s4, s8, u1, u2, u4, u8};
