//! The types of fields and methods by their descriptors (JVM specification 4.3), for the type check of class files. Class names stay
//! where they stand: in the text of the descriptor, or in the class file.
#![tactic(auto)]

mod field;
mod first;
mod method;
mod unit;

pub use field::{field_ref, field_ref_checked};
pub use first::{first_refs, is_init, parameter_refs, result_ref, this_refs};
pub use method::{MethodRefs, method_refs};
