ghost use Rattle.std.specs.Prelude.{◌≡◌, ◌≤ℤ◌, ◌<ℤ◌, ◌+◌, ◌*◌, ◌<◌, ◌∷◌, ◌++◌, length, IfOk, IfErr, FitsSigned};
ghost use Rattle.std.specs.List.{flat_map, AllByRecursion};
ghost use Rattle.std.specs.Int.{w32};
ghost use Rattle.class_code.specs.Spelling.{s4, padding_bytes, padding_len, pair_bytes, IsAbove, Rises, spelling, Stands};
ghost use Rattle.class_code.specs.Ranges.{PairFits, Fits};
ghost use Rattle.class_code.specs.Faults.{IsCut, IsTableHead, IsCount, TableFault, IsLookupHead, PairFault, PairsFault, LookupFault, IfInstrFault};

use crate::fault::{InstrFault, Unread};
use crate::instr::{Instr, LookupSwitch, Padding, TableSwitch};
use crate::number::s4_at;
use sqlite_items::Items;
use std::alloc::Global;

/// The bytes between the opcode at this offset and the next multiple of four.
fn padding_at(at: usize, bytes: &[u8]) -> Result<(Padding, &[u8]), InstrFault>
    ensures found { IfOk result (λ x. (bytes.now ≡ padding_bytes x.0 ++ x.1.now) × (length (padding_bytes x.0) ≡ padding_len at)) }
    ensures rest { IfOk result (λ x. length x.1.now + padding_len at ≡ length bytes.now) }
    ensures cut { IfErr result (IsCut (padding_len at) bytes.now) }
{
    match (at % 4, bytes) {
        (0, [a, b, c, rest @ ..]) => Ok((Padding::Three(*a, *b, *c), rest)),
        (1, [a, b, rest @ ..]) => Ok((Padding::Two(*a, *b), rest)),
        (2, [a, rest @ ..]) => Ok((Padding::One(*a), rest)),
        (3, rest) => Ok((Padding::None, rest)),
        _ => Err(InstrFault::Truncated),
    }
}

/// The padding, the default, the low and the high bound of a `tableswitch`.
pub fn table_head(at: usize, bytes: &[u8]) -> Result<(Padding, i32, i32, i32, &[u8]), InstrFault>
    ensures found { IfOk result (λ x. IsTableHead at bytes.now x.0 x.1 x.2 x.3 x.4.now) }
    ensures cut { IfErr result (IsCut (padding_len at + 12) bytes.now) }
{
    let (padding, rest) = padding_at(at, bytes)?;
    let (default, rest) = s4_at(rest)?;
    let (low, rest) = s4_at(rest)?;
    let (high, rest) = s4_at(rest)?;
    Ok((padding, default, low, high, rest))
}

/// How many offsets a `tableswitch` of these bounds has.
pub fn entry_count(low: i32, high: i32) -> Result<usize, InstrFault>
    ensures count { IfOk result (λ n. (low ≤ℤ high) × IsCount low high n) }
    ensures bad { IfErr result (λ why. (high <ℤ low) × (why ≡ InstrFault.BadOperand)) }
{
    if high < low {
        return Err(InstrFault::BadOperand);
    }
    Ok((i64::from(high) - i64::from(low) + 1) as usize)
}

/// The padding, the default and the count of a `lookupswitch`.
pub fn lookup_head(at: usize, bytes: &[u8]) -> Result<(Padding, i32, i32, &[u8]), InstrFault>
    ensures found { IfOk result (λ x. IsLookupHead at bytes.now x.0 x.1 x.2 x.3.now) }
    ensures cut { IfErr result (IsCut (padding_len at + 8) bytes.now) }
{
    let (padding, rest) = padding_at(at, bytes)?;
    let (default, rest) = s4_at(rest)?;
    let (count, rest) = s4_at(rest)?;
    Ok((padding, default, count, rest))
}

#[tactic(auto, using(crate::proofs::Loops::parts_more, crate::proofs::Loops::each_more))]
fn offsets_at(alloc: Global, count: usize, bytes: &[u8]) -> Result<(Items<i32>, &[u8]), Unread>
    ensures found { IfOk result (λ x. (bytes.now ≡ flat_map s4 x.0 ++ x.1.now) × (length x.0 ≡ count)) }
    ensures fits { IfOk result (λ x. AllByRecursion (FitsSigned w32) x.0) }
    ensures fault { IfErr result (λ e. IfInstrFault e (IsCut (4 * count) bytes.now)) }
{
    let mut offsets = Vec::new(alloc);
    let mut rest = bytes;
    for _ in 0..count {
        let (offset, after) = s4_at(rest)?;
        offsets.push(offset)?;
        rest = after;
    }
    Ok((Items::from_vec(offsets), rest))
}

/// `tableswitch` behind its opcode, which has this offset.
pub fn table_switch(alloc: Global, at: usize, bytes: &[u8]) -> Result<(Instr, &[u8]), Unread>
    ensures found { IfOk result (λ x. (0xaa ∷ bytes.now ≡ spelling x.0 ++ x.1.now) × Stands at x.0) }
    ensures fits { IfOk result (λ x. Fits x.0) }
    ensures fault { IfErr result (λ e. IfInstrFault e (TableFault at bytes.now)) }
{
    let (padding, default, low, high, rest) = table_head(at, bytes)?;
    let count = entry_count(low, high)?;
    let (offsets, rest) = offsets_at(alloc, count, rest)?;
    let switch = TableSwitch {
        padding,
        default,
        low,
        high,
        offsets,
    };
    Ok((Instr::TableSwitch(switch), rest))
}

/// A key, which is above the one before, and its offset.
pub fn pair_at(last: Option<i32>, bytes: &[u8]) -> Result<(i32, i32, &[u8]), InstrFault>
    ensures found { IfOk result (λ x. (bytes.now ≡ pair_bytes (x.0, x.1) ++ x.2.now) × IsAbove last x.0) }
    ensures fits { IfOk result (λ x. PairFits (x.0, x.1)) }
    ensures fault { IfErr result (PairFault last bytes.now) }
{
    let (key, rest) = s4_at(bytes)?;
    if let Some(last) = last
        && key <= last
    {
        return Err(InstrFault::BadOperand);
    }
    let (offset, rest) = s4_at(rest)?;
    Ok((key, offset, rest))
}

#[tactic(auto, using(crate::proofs::Loops::parts_more, crate::proofs::Loops::rises_more, crate::proofs::Loops::last_key_more))]
fn pairs_at(alloc: Global, count: usize, bytes: &[u8]) -> Result<(Items<(i32, i32)>, &[u8]), Unread>
    ensures found { IfOk result (λ x. (bytes.now ≡ flat_map pair_bytes x.0 ++ x.1.now) × (length x.0 ≡ count) × Rises None x.0) }
    ensures fits { IfOk result (λ x. AllByRecursion PairFits x.0) }
    ensures fault { IfErr result (λ e. IfInstrFault e (PairsFault count bytes.now)) }
{
    let mut pairs: Vec<(i32, i32)> = Vec::new(alloc);
    let mut last = None;
    let mut rest = bytes;
    for _ in 0..count {
        let (key, offset, after) = pair_at(last, rest)?;
        pairs.push((key, offset))?;
        last = Some(key);
        rest = after;
    }
    Ok((Items::from_vec(pairs), rest))
}

/// `lookupswitch` behind its opcode, which has this offset.
pub fn lookup_switch(alloc: Global, at: usize, bytes: &[u8]) -> Result<(Instr, &[u8]), Unread>
    ensures found { IfOk result (λ x. (0xab ∷ bytes.now ≡ spelling x.0 ++ x.1.now) × Stands at x.0) }
    ensures fits { IfOk result (λ x. Fits x.0) }
    ensures fault { IfErr result (λ e. IfInstrFault e (LookupFault at bytes.now)) }
{
    let (padding, default, count, rest) = lookup_head(at, bytes)?;
    if count < 0 {
        return Err(Unread::Fault(InstrFault::BadOperand));
    }
    let (pairs, rest) = pairs_at(alloc, count as usize, rest)?;
    let switch = LookupSwitch {
        padding,
        default,
        pairs,
    };
    Ok((Instr::LookupSwitch(switch), rest))
}
