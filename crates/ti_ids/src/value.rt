use crate::number::ObjNo;

/// What a local, an operand, a field or an element holds (JVM specification 2.2). A `Ref` of None is null.
#[derive(Clone, Copy, Debug, PartialEq, Eq)]
pub enum Value {
    Int(i32),
    Long(i64),
    Ref(Option<ObjNo>),
}
