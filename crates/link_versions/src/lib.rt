//! The classes of a run with their versions: definition and redefinition, resolution of classes, fields and methods (Java
//! Virtual Machine Specification, SE 8, 5.4.3.1 to 5.4.3.4), the selection of methods and the test of types (6.5).
#![tactic(auto)]

mod arrays;
mod class;
mod entries;
mod entry_table;
mod fault;
mod laws;
mod member_index;
mod method;
mod order;
mod subtype;
mod table;
mod version;
mod versions;

pub use class::Element;
pub use fault::LinkFault;
pub use laws::class_laws;
pub use table::Classes;
