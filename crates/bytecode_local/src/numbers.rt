ghost use Rattle.std.specs.Prelude.{◌≡◌, IsTrue, IsFalse, OnSome};
ghost use Rattle.jv_number.specs.Values.{has_two, is_shift, is_division};
ghost use Rattle.bytecode_local.specs.Computing.{kind_of, second_kind, computed_of_one, computed_of_two, computed, kind_converted, conversion_made, longs_compared};

use crate::change::Change;
use crate::kinds::{kind_at, long_at};
use class_code::{Arithmetic, Conversion, Kind, Width};
use jv_number::{arith, compare, convert, negate};
use thread_frames::Operands;
use ti_ids::Value;

fn kind_of(width: Width) -> Kind
    ensures { result ≡ kind_of width }
{
    match width {
        Width::Int => Kind::Int,
        Width::Long => Kind::Long,
    }
}

/// The kind of the operand on top: what a value is shifted by is an int.
fn second_kind(op: Arithmetic, width: Width) -> Kind
    ensures { result ≡ second_kind op width }
{
    match op {
        Arithmetic::Shl | Arithmetic::Shr | Arithmetic::Ushr => Kind::Int,
        _ => kind_of(width),
    }
}

pub(crate) fn is_division(op: Arithmetic) -> bool
    ensures { result ≡ is_division op }
{
    matches!(op, Arithmetic::Div | Arithmetic::Rem)
}

fn compute_of_one(width: Width, stack: &Operands) -> Option<Change>
    ensures { result ≡ computed_of_one width stack.now }
{
    let value = kind_at(kind_of(width), stack, 0)?;
    Some(Change::exchange(1, &[negate(value)]))
}

fn compute_of_two(op: Arithmetic, width: Width, stack: &Operands) -> Option<Change>
    requires two { IsTrue (has_two op) }
    requires whole { IsFalse (is_division op) }
    ensures { result ≡ computed_of_two op width stack.now }
{
    let value2 = kind_at(second_kind(op, width), stack, 0)?;
    let value1 = kind_at(kind_of(width), stack, 1)?;
    let Ok(left) = arith(op, value1, value2) else {
        unreachable!();
    };
    Some(Change::exchange(2, &[left]))
}

/// What an instruction changes that computes a number of two, or its negative.
pub(crate) fn compute(op: Arithmetic, width: Width, stack: &Operands) -> Option<Change>
    ensures value { result ≡ computed op width stack.now }
    ensures local { OnSome result (IsFalse (is_division op)) }
{
    match op {
        Arithmetic::Div | Arithmetic::Rem => None,
        Arithmetic::Neg => compute_of_one(width, stack),
        _ => compute_of_two(op, width, stack),
    }
}

fn kind_converted(conversion: Conversion) -> Kind
    ensures { result ≡ kind_converted conversion }
{
    match conversion {
        Conversion::LongToInt => Kind::Long,
        _ => Kind::Int,
    }
}

/// What a conversion changes.
pub(crate) fn make_conversion(conversion: Conversion, stack: &Operands) -> Option<Change>
    ensures { result ≡ conversion_made conversion stack.now }
{
    let value = kind_at(kind_converted(conversion), stack, 0)?;
    Some(Change::exchange(1, &[convert(conversion, value)]))
}

/// What `lcmp` changes.
pub(crate) fn compare_longs(stack: &Operands) -> Option<Change>
    ensures { result ≡ longs_compared stack.now }
{
    let value2 = long_at(stack, 0)?;
    let value1 = long_at(stack, 1)?;
    Some(Change::exchange(2, &[Value::Int(compare(value1, value2))]))
}
