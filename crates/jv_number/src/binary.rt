ghost use Rattle.std.specs.Prelude.{◌≡◌, ◌↔◌, IsTrue, IsErr};
ghost use Rattle.jv_number.specs.Values.{Fits, divides_by_zero, answer};

use crate::{int, long};
use class_code::Arithmetic;
use thiserror::Error;
use ti_ids::Value;

/// A divisor is 0. Where an instruction meets it, it throws an `ArithmeticException` (JVM specification 6.5, `idiv`, `irem`,
/// `ldiv` and `lrem`).
#[derive(Clone, Copy, Debug, Error)]
#[error("a divisor is zero")]
pub struct Zero;

/// What an operation leaves of two operands (JVM specification 2.11.3 and 6.5, `iadd` to `lxor`): two ints or two longs, but
/// a shift goes by an int, whatever it shifts. A negation has one operand, and is `negate`.
pub fn arith(op: Arithmetic, a: Value, b: Value) -> Result<Value, Zero>
    requires { Fits op a b }
    ensures value { result ≡ answer op a b }

    // Nothing but a quotient or a remainder by 0 is refused.
    ensures refused { IsErr result ↔ IsTrue (divides_by_zero op b) }
{
    if divides_by_zero(op, b) {
        return Err(Zero);
    }
    Ok(match (a, b) {
        (Value::Int(a), Value::Int(b)) => Value::Int(int::number(op, a, b)),
        (Value::Long(a), Value::Long(b)) => Value::Long(long::number(op, a, b)),
        (Value::Long(a), Value::Int(b)) => Value::Long(long::number(op, a, i64::from(b))),
        _ => unreachable!(),
    })
}

/// Whether it is a quotient or a remainder by 0.
fn divides_by_zero(op: Arithmetic, b: Value) -> bool
    ensures value { result ≡ divides_by_zero op b }
{
    matches!(op, Arithmetic::Div | Arithmetic::Rem) && matches!(b, Value::Int(0) | Value::Long(0))
}
