ghost use Rattle.std.specs.Prelude.{◌≡◌};
ghost use Rattle.std.specs.Int.{w8, w16, w32, int_wrap};
ghost use Rattle.jv_number.specs.Values.{IsNumber, negated, Converts, converted};

use class_code::Conversion;
use ti_ids::Value;

/// The negative of an int or a long (JVM specification 6.5, `ineg` and `lneg`).
#[tactic(auto, using(std::proofs::lemmas::Int::wraps))]
pub fn negate(value: Value) -> Value
    requires { IsNumber value }
    ensures value { result ≡ negated value }
{
    match value {
        Value::Int(number) => Value::Int(number.wrapping_neg()),
        Value::Long(number) => Value::Long(number.wrapping_neg()),
        Value::Ref(_) => unreachable!(),
    }
}

/// A number of another type (JVM specification 2.11.4 and 6.5, `i2l`, `l2i`, `i2b`, `i2c` and `i2s`). A byte, a char and a
/// short are ints.
pub fn convert(conversion: Conversion, value: Value) -> Value
    requires { Converts conversion value }
    ensures value { result ≡ converted conversion value }
{
    match (conversion, value) {
        (Conversion::IntToLong, Value::Int(number)) => Value::Long(i64::from(number)),
        (Conversion::LongToInt, Value::Long(number)) => Value::Int(low_int(number)),
        (Conversion::IntToByte, Value::Int(number)) => Value::Int(low_byte(number)),
        (Conversion::IntToChar, Value::Int(number)) => Value::Int(number.rem_euclid(0x1_0000)),
        (Conversion::IntToShort, Value::Int(number)) => Value::Int(low_short(number)),
        _ => unreachable!(),
    }
}

/// The low 32 bits, with a sign.
fn low_int(number: i64) -> i32
    ensures value { result ≡ int_wrap w32 number }
{
    (number.rem_euclid(0x1_0000_0000) as u32).cast_signed()
}

/// The low 8 bits, with a sign.
fn low_byte(number: i32) -> i32
    ensures value { result ≡ int_wrap w8 number }
{
    i32::from((number.rem_euclid(0x100) as u8).cast_signed())
}

/// The low 16 bits, with a sign.
fn low_short(number: i32) -> i32
    ensures value { result ≡ int_wrap w16 number }
{
    i32::from((number.rem_euclid(0x1_0000) as u16).cast_signed())
}
