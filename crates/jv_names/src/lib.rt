//! Texts, names and descriptors of the class-file format (JVM specification 4.2, 4.3 and 4.4.7), the names of the classes that
//! the specification's own rules name, and how names and numbers are printed.
#![tactic(auto)]

mod class_names;
mod descriptor;
mod name;
mod number;
mod print;
mod units;
mod utf8;

pub use class_names::{CLONEABLE, OBJECT, SERIALIZABLE, THROWABLE};
pub use descriptor::{
    Desc, DescFault, DescFlaw, ElementType, FieldType, MethodType, field_desc, field_flaw,
    method_desc, method_flaw,
};
pub use name::is_class_name;
pub use number::decimal;
pub use print::printed;
pub use units::Units;
pub use utf8::{TextFault, front_units, units_of, utf8_of};
