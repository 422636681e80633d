ghost use Rattle.std.specs.Prelude.{◌≡◌};
ghost use Rattle.bytecode_local.specs.Constants.{int_constant, long_constant};

use class_code::{IntConst, LongConst};

/// What `iconst_m1` to `iconst_5` push.
pub(crate) fn int_constant(constant: IntConst) -> i32
    ensures { result ≡ int_constant constant }
{
    match constant {
        IntConst::MinusOne => -1,
        IntConst::Zero => 0,
        IntConst::One => 1,
        IntConst::Two => 2,
        IntConst::Three => 3,
        IntConst::Four => 4,
        IntConst::Five => 5,
    }
}

/// What `lconst_0` and `lconst_1` push.
pub(crate) fn long_constant(constant: LongConst) -> i64
    ensures { result ≡ long_constant constant }
{
    match constant {
        LongConst::Zero => 0,
        LongConst::One => 1,
    }
}
