ghost use Rattle.std.specs.Prelude.{◌≡◌, ◌≢◌, ◌<◌, pos, IsTrue};
ghost use Rattle.std.specs.Int.{w32};
ghost use Rattle.jv_number.specs.Numbers.{distance, number};
ghost use Rattle.jv_number.specs.Values.{has_two, is_division};

use class_code::Arithmetic;

/// What an operation leaves of two ints.
#[tactic(auto, using(crate::proofs::Wrapping::leavings))]
pub fn number(op: Arithmetic, a: i32, b: i32) -> i32
    requires two { IsTrue (has_two op) }
    requires divisor { IsTrue (is_division op) → b ≢ pos 0 }
    ensures value { result ≡ number w32 op a b }
{
    match op {
        Arithmetic::Add => a.wrapping_add(b),
        Arithmetic::Sub => a.wrapping_sub(b),
        Arithmetic::Mul => a.wrapping_mul(b),
        Arithmetic::Div => a.wrapping_div(b),
        Arithmetic::Rem => a.wrapping_rem(b),
        Arithmetic::Neg => unreachable!(),
        Arithmetic::Shl => a << distance(b),
        Arithmetic::Shr => a >> distance(b),
        Arithmetic::Ushr => (a.cast_unsigned() >> distance(b)).cast_signed(),
        Arithmetic::And => a & b,
        Arithmetic::Or => a | b,
        Arithmetic::Xor => a ^ b,
    }
}

/// How far a shift by `b` goes, in bits.
fn distance(b: i32) -> u32
    ensures value { result ≡ distance w32 b }
    ensures bound { result < 32 }
{
    b.rem_euclid(32) as u32
}
