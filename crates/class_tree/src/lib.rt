//! The tree of a class file (Java Virtual Machine Specification, SE 8, chapter 4) as plain data, with look-ups, equality
//! and copies.
#![tactic(auto)]

mod access;
mod body;
mod class_file;
mod compare;
mod copies;
mod frames;
mod members;
mod pool;

pub use access::{Flag, Flags};
pub use body::{Code, CodeAttr, Handler};
pub use class_file::ClassFile;
pub use compare::Same;
pub use copies::CloneIn;
pub use frames::{Appended, Chopped, ShortDelta, StackMapFrame, VerificationType};
pub use members::{Attr, Member, MemberKind};
pub use pool::{Const, class_at, entry_at, names_class, text_at};
