ghost use Rattle.std.specs.Prelude.{◌+◌, ◌*◌, ◌<◌, ◌≤◌, ◌^◌, ◌∷◌, ℕ, drop, length, IfOk, IfErr, IfSome, IfNone, Option, ℤ};
ghost use Rattle.class_code.specs.Listing.{IsInstrAt};
ghost use Rattle.class_code.specs.Forms.{IsForm};
ghost use Rattle.class_code.specs.Faults.{IsCut, TableFault, PairsFault, LookupFault, OperandsFault, HeadFault};
ghost use Rattle.class_code.specs.Skips.{IsPlain, SkipsWords, SkipsPairs, SkipsTable, SkipsLookup};

use crate::fault::InstrFault;
use crate::form::{Form, form_of};
use crate::number::{s4_at, u1_at};
use crate::operands::operands;
use crate::switch::{entry_count, lookup_head, pair_at, table_head};

/// Skips numbers of four bytes.
fn skip_words(count: usize, bytes: &[u8]) -> Result<&[u8], InstrFault>
    ensures found { IfOk result (λ after. SkipsWords count bytes.now after.now) }
    ensures fault { IfErr result (IsCut (4 * count) bytes.now) }
{
    let mut rest = bytes;
    for _ in 0..count {
        let (_entry, after) = s4_at(rest)?;
        rest = after;
    }
    Ok(rest)
}

/// Skips what follows the opcode of a `tableswitch`.
fn skip_table(at: usize, bytes: &[u8]) -> Result<&[u8], InstrFault>
    ensures found { IfOk result (λ after. SkipsTable at bytes.now after.now) }
    ensures fault { IfErr result (TableFault at bytes.now) }
{
    let (_padding, _default, low, high, rest) = table_head(at, bytes)?;
    let count = entry_count(low, high)?;
    let after = skip_words(count, rest)?;
    Ok(after)
}

/// Skips the pairs of a `lookupswitch`.
fn skip_pairs(count: usize, bytes: &[u8]) -> Result<&[u8], InstrFault>
    ensures found { IfOk result (λ after. (last : Option ℤ) × SkipsPairs count last bytes.now after.now) }
    ensures fault { IfErr result (PairsFault count bytes.now) }
{
    let mut last = None;
    let mut rest = bytes;
    for _ in 0..count {
        let (key, _offset, after) = pair_at(last, rest)?;
        last = Some(key);
        rest = after;
    }
    Ok(rest)
}

/// Skips what follows the opcode of a `lookupswitch`.
fn skip_lookup(at: usize, bytes: &[u8]) -> Result<&[u8], InstrFault>
    ensures found { IfOk result (λ after. SkipsLookup at bytes.now after.now) }
    ensures fault { IfErr result (LookupFault at bytes.now) }
{
    let (_padding, _default, count, rest) = lookup_head(at, bytes)?;
    if count < 0 {
        return Err(InstrFault::BadOperand);
    }
    let after = skip_pairs(count as usize, rest)?;
    Ok(after)
}

/// How long a `tableswitch` is, from what follows its opcode.
fn table_len(at: usize, bytes: &[u8]) -> Result<usize, InstrFault>
    ensures found { IfOk result (IsInstrAt at (0xaa ∷ bytes.now)) }
    ensures within { IfOk result (λ n. n ≤ length bytes.now + 1) }
    ensures fault { IfErr result (TableFault at bytes.now) }
{
    let after = skip_table(at, bytes)?;
    Ok(1 + (bytes.len() - after.len()))
}

/// How long a `lookupswitch` is, from what follows its opcode.
fn lookup_len(at: usize, bytes: &[u8]) -> Result<usize, InstrFault>
    ensures found { IfOk result (IsInstrAt at (0xab ∷ bytes.now)) }
    ensures within { IfOk result (λ n. n ≤ length bytes.now + 1) }
    ensures fault { IfErr result (LookupFault at bytes.now) }
{
    let after = skip_lookup(at, bytes)?;
    Ok(1 + (bytes.len() - after.len()))
}

/// How long the instruction of this opcode is, where that does not depend on where it stands.
fn plain_len(at: usize, opcode: u8, form: Form, bytes: &[u8]) -> Result<usize, InstrFault>
    requires form { IsForm opcode form }
    requires plain { IsPlain form }
    ensures found { IfOk result (IsInstrAt at (opcode ∷ bytes.now)) }
    ensures within { IfOk result (λ n. n ≤ length bytes.now + 1) }
    ensures fault { IfErr result (OperandsFault form bytes.now) }
{
    let (_instr, after) = operands(opcode, form, bytes)?;
    Ok(1 + (bytes.len() - after.len()))
}

/// How long the instruction at the front of these bytes is, whose first has this offset.
fn instr_len(at: usize, bytes: &[u8]) -> Result<usize, InstrFault>
    requires { 0 < length bytes.now }
    ensures found { IfOk result (IsInstrAt at bytes.now) }
    ensures within { IfOk result (λ n. n ≤ length bytes.now) }
    ensures fault { IfErr result (HeadFault at bytes.now) }
{
    let (opcode, rest) = u1_at(bytes)?;
    match form_of(opcode) {
        Form::TableSwitch => table_len(at, rest),
        Form::LookupSwitch => lookup_len(at, rest),
        form => plain_len(at, opcode, form, rest),
    }
}

/// How many bytes the instruction at an offset takes, if a whole one begins there; the offset need not be one of those
/// that `decode` lists. Where a branch leads is not looked at. The time grows with the instruction's length.
pub fn length_at(code: &[u8], at: u16) -> Option<u32>
    requires { length code.now < 2 ^ 16 }
    // It is the length of one that stands there.
    ensures found { IfSome result (IsInstrAt at (drop at code.now)) }

    // Where there is no answer, none stands there.
    ensures none { IfNone result ((n : ℕ) → IsInstrAt at (drop at code.now) n → ⊥) }
{
    let at = at as usize;
    if code.len() <= at {
        return None;
    }
    let (_before, bytes) = code.split_at(at);
    match instr_len(at, bytes) {
        Ok(n) => Some(n as u32),
        Err(_) => None,
    }
}
