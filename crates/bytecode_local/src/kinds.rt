ghost use Rattle.std.specs.Prelude.{◌≡◌};
ghost use Rattle.bytecode_local.specs.Kinds.{is_kind, is_category_two, kind_at, category_one_at, int_at, long_at, reference_at};

use class_code::Kind;
use thread_frames::Operands;
use ti_ids::{ObjNo, Value};

pub(crate) fn is_kind(kind: Kind, value: Value) -> bool
    ensures { result ≡ is_kind kind value }
{
    match (kind, value) {
        (Kind::Int, Value::Int(_)) => true,
        (Kind::Long, Value::Long(_)) => true,
        (Kind::Reference, Value::Ref(_)) => true,
        (_, _) => false,
    }
}

pub(crate) fn is_category_two(value: Value) -> bool
    ensures { result ≡ is_category_two value }
{
    matches!(value, Value::Long(_))
}

/// The operand that lies so many below the top, if it is of this kind.
pub(crate) fn kind_at(kind: Kind, stack: &Operands, depth: usize) -> Option<Value>
    ensures { result ≡ kind_at kind stack.now depth }
{
    let value = stack.get(depth)?;
    if is_kind(kind, value) {
        Some(value)
    } else {
        None
    }
}

/// The operand that lies so many below the top, if it is of category 1.
pub(crate) fn category_one_at(stack: &Operands, depth: usize) -> Option<Value>
    ensures { result ≡ category_one_at stack.now depth }
{
    let value = stack.get(depth)?;
    if is_category_two(value) {
        None
    } else {
        Some(value)
    }
}

/// The int that lies so many below the top.
pub(crate) fn int_at(stack: &Operands, depth: usize) -> Option<i32>
    ensures { result ≡ int_at stack.now depth }
{
    match stack.get(depth)? {
        Value::Int(number) => Some(number),
        _ => None,
    }
}

/// The long that lies so many below the top.
pub(crate) fn long_at(stack: &Operands, depth: usize) -> Option<i64>
    ensures { result ≡ long_at stack.now depth }
{
    match stack.get(depth)? {
        Value::Long(number) => Some(number),
        _ => None,
    }
}

/// What the reference refers to that lies so many below the top.
pub(crate) fn reference_at(stack: &Operands, depth: usize) -> Option<Option<ObjNo>>
    ensures { result ≡ reference_at stack.now depth }
{
    match stack.get(depth)? {
        Value::Ref(object) => Some(object),
        _ => None,
    }
}
