ghost use Rattle.std.specs.Prelude.{◌≡◌};
ghost use Rattle.jv_number.specs.Comparisons.{compare, holds};

use class_code::Condition;

/// How a long stands to another (JVM specification 6.5, `lcmp`): -1 where it is less, 0 where both are equal, 1 where it is
/// greater.
pub fn compare(a: i64, b: i64) -> i32
    ensures value { result ≡ compare a b }
{
    if a < b {
        -1
    } else if a == b {
        0
    } else {
        1
    }
}

/// Whether an int stands so to another (JVM specification 6.5, `if_icmp<cond>`; `if<cond>` is the same with 0 for `b`).
pub fn holds(condition: Condition, a: i32, b: i32) -> bool
    ensures value { result ≡ holds condition a b }
{
    match condition {
        Condition::Eq => a == b,
        Condition::Ne => a != b,
        Condition::Lt => a < b,
        Condition::Ge => a >= b,
        Condition::Gt => a > b,
        Condition::Le => a <= b,
    }
}
