ghost use Rattle.std.specs.Prelude.{◌≡◌, ◌+◌, ◌<◌, ◌^◌, FitsSigned, ◌∷◌, ◌++◌, length, IfOk, IfErr};
ghost use Rattle.class_code.specs.Spelling.{u2, s1, s2, s4};
ghost use Rattle.class_code.specs.Faults.{IsCut};
ghost use Rattle.std.specs.Int.{w8, w16, w32, to_be_bytes};

use crate::fault::InstrFault;

/// An unsigned number of one byte, and the bytes after it. The others are alike: `s` has a sign, the number of bytes is last.
pub fn u1_at(bytes: &[u8]) -> Result<(u8, &[u8]), InstrFault>
    ensures found { IfOk result (λ x. bytes.now ≡ x.0 ∷ x.1.now) }
    ensures range { IfOk result (λ x. x.0 < 256) }
    ensures rest { IfOk result (λ x. length x.1.now + 1 ≡ length bytes.now) }
    ensures cut { IfErr result (IsCut 1 bytes.now) }
{
    match bytes {
        [first, rest @ ..] => Ok((*first, rest)),
        [] => Err(InstrFault::Truncated),
    }
}

pub fn s1_at(bytes: &[u8]) -> Result<(i8, &[u8]), InstrFault>
    ensures found { IfOk result (λ x. bytes.now ≡ s1 x.0 ++ x.1.now) }
    ensures range { IfOk result (λ x. FitsSigned w8 x.0) }
    ensures rest { IfOk result (λ x. length x.1.now + 1 ≡ length bytes.now) }
    ensures cut { IfErr result (IsCut 1 bytes.now) }
{
    match bytes {
        [first, rest @ ..] => Ok((first.cast_signed(), rest)),
        [] => Err(InstrFault::Truncated),
    }
}

pub fn u2_at(bytes: &[u8]) -> Result<(u16, &[u8]), InstrFault>
    ensures found { IfOk result (λ x. bytes.now ≡ u2 x.0 ++ x.1.now) }
    ensures range { IfOk result (λ x. x.0 < 2 ^ 16) }
    ensures rest { IfOk result (λ x. length x.1.now + 2 ≡ length bytes.now) }
    ensures cut { IfErr result (IsCut 2 bytes.now) }
{
    match bytes {
        [a, b, rest @ ..] => Ok((u16::from_be_bytes([*a, *b]), rest)),
        _ => Err(InstrFault::Truncated),
    }
}

pub fn s2_at(bytes: &[u8]) -> Result<(i16, &[u8]), InstrFault>
    ensures found { IfOk result (λ x. bytes.now ≡ s2 x.0 ++ x.1.now) }
    ensures range { IfOk result (λ x. FitsSigned w16 x.0) }
    ensures rest { IfOk result (λ x. length x.1.now + 2 ≡ length bytes.now) }
    ensures cut { IfErr result (IsCut 2 bytes.now) }
{
    let (n, rest) = u2_at(bytes)?;
    Ok((n.cast_signed(), rest))
}

pub fn u4_at(bytes: &[u8]) -> Result<(u32, &[u8]), InstrFault>
    ensures found { IfOk result (λ x. bytes.now ≡ to_be_bytes w32 x.0 ++ x.1.now) }
    ensures range { IfOk result (λ x. x.0 < 2 ^ 32) }
    ensures rest { IfOk result (λ x. length x.1.now + 4 ≡ length bytes.now) }
    ensures cut { IfErr result (IsCut 4 bytes.now) }
{
    match bytes {
        [a, b, c, d, rest @ ..] => Ok((u32::from_be_bytes([*a, *b, *c, *d]), rest)),
        _ => Err(InstrFault::Truncated),
    }
}

#[tactic(auto, unfolding(crate::specs::Spelling::s4))]
pub fn s4_at(bytes: &[u8]) -> Result<(i32, &[u8]), InstrFault>
    ensures found { IfOk result (λ x. bytes.now ≡ s4 x.0 ++ x.1.now) }
    ensures range { IfOk result (λ x. FitsSigned w32 x.0) }
    ensures rest { IfOk result (λ x. length x.1.now + 4 ≡ length bytes.now) }
    ensures cut { IfErr result (IsCut 4 bytes.now) }
{
    let (n, rest) = u4_at(bytes)?;
    Ok((n.cast_signed(), rest))
}
