ghost use Rattle.std.specs.Prelude.{◌≡◌};
ghost use Rattle.classfile_items.specs.Reading.{MirrorsAlways, ReadsAlways, offset, u1, u2, u4, s4, u8, s8, raw};

use crate::fault::ReadClassFault;
use byteorder::{BigEndian, ByteOrder};

/// The offset in the file of the first of the bytes that are left of it.
pub fn offset(end: usize, bytes: &[u8]) -> usize
    ensures { result ≡ offset end bytes.now }
{
    end.saturating_sub(bytes.len())
}

/// An unsigned number of one byte at the front, and the bytes behind it. The others are alike: `s` has a sign, and the digit
/// is the number of bytes.
#[tactic(auto, unfolding(crate::specs::Reading::u1))]
pub fn u1(end: usize, bytes: &[u8]) -> Result<(u8, &[u8]), ReadClassFault>
    ensures { ReadsAlways result (u1 end bytes.now) }
{
    match bytes {
        [first, rest @ ..] => Ok((*first, rest)),
        [] => Err(ReadClassFault::Truncated(end)),
    }
}

#[tactic(auto, unfolding(crate::specs::Reading::u2), using(crate::proofs::BigEndian::two))]
pub fn u2(end: usize, bytes: &[u8]) -> Result<(u16, &[u8]), ReadClassFault>
    ensures { ReadsAlways result (u2 end bytes.now) }
{
    match bytes {
        [_, _, rest @ ..] => Ok((BigEndian::read_u16(bytes), rest)),
        _ => Err(ReadClassFault::Truncated(end)),
    }
}

#[tactic(auto, unfolding(crate::specs::Reading::u4), using(crate::proofs::BigEndian::four))]
pub fn u4(end: usize, bytes: &[u8]) -> Result<(u32, &[u8]), ReadClassFault>
    ensures { ReadsAlways result (u4 end bytes.now) }
{
    match bytes {
        [_, _, _, _, rest @ ..] => Ok((BigEndian::read_u32(bytes), rest)),
        _ => Err(ReadClassFault::Truncated(end)),
    }
}

#[tactic(auto, unfolding(crate::specs::Reading::s4))]
pub fn s4(end: usize, bytes: &[u8]) -> Result<(i32, &[u8]), ReadClassFault>
    ensures { ReadsAlways result (s4 end bytes.now) }
{
    let (n, rest) = u4(end, bytes)?;
    Ok((n.cast_signed(), rest))
}

#[tactic(auto, unfolding(crate::specs::Reading::u8), using(crate::proofs::BigEndian::eight))]
pub fn u8(end: usize, bytes: &[u8]) -> Result<(u64, &[u8]), ReadClassFault>
    ensures { ReadsAlways result (u8 end bytes.now) }
{
    match bytes {
        [_, _, _, _, _, _, _, _, rest @ ..] => Ok((BigEndian::read_u64(bytes), rest)),
        _ => Err(ReadClassFault::Truncated(end)),
    }
}

#[tactic(auto, unfolding(crate::specs::Reading::s8))]
pub fn s8(end: usize, bytes: &[u8]) -> Result<(i64, &[u8]), ReadClassFault>
    ensures { ReadsAlways result (s8 end bytes.now) }
{
    let (n, rest) = u8(end, bytes)?;
    Ok((n.cast_signed(), rest))
}

/// So many bytes, as they stand.
#[tactic(auto, unfolding(crate::specs::Reading::raw))]
pub fn raw(end: usize, len: usize, bytes: &[u8]) -> Result<(&[u8], &[u8]), ReadClassFault>
    ensures { MirrorsAlways (λ x. (x.0.now, x.1.now)) result (raw end len bytes.now) }
{
    if bytes.len() < len {
        return Err(ReadClassFault::Truncated(end));
    }
    Ok(bytes.split_at(len))
}
