//! What the type checker of class files speaks of (JVM specification 4.10.1): verification types, type states, stack maps, the
//! hierarchy of classes, and the rule of each instruction. `type_verify` checks classes by them.
//!
//! The definitions in `specs/` are in the order of `specs/Lib.antt`: types (`Types`), classes (`Hierarchies`), which type may
//! stand for which (`Assignable`), type states (`States`), stack maps (`StackMaps`), the rules of the instructions by family
//! (`RulesOf..`, joined in `Rules`), what the type check of a method and of a class is (`TypeChecks`), how its answer is computed
//! (`Walking`, `TypeStates`, `Answering`), and which classes class files state to it (`Stated`).
#![tactic(auto)]

mod assigning;
mod fault;
mod finals;
mod frame;
mod hierarchy;
mod known;
mod laws;
mod seen;
mod stated;
mod vtype;

pub use assigning::{assignable, dimensions, stands_for};
pub use fault::MapFault;
pub use finals::{has_final_above, is_final};
pub use frame::MapFrame;
pub use hierarchy::{HierarchyClass, Signature};
pub use known::Hierarchy;
pub use laws::type_laws;
pub use seen::{ClassName, VTypeRef};
pub use stated::stated_class;
pub use vtype::VType;
