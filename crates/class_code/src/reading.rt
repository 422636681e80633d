ghost use Rattle.std.specs.Prelude.{◌≡◌, ◌<◌, ◌++◌, length, Ok, Err, IfOk, IfErr};
ghost use Rattle.class_code.specs.Spelling.{spelling, Stands};
ghost use Rattle.class_code.specs.Ranges.{Fits};
ghost use Rattle.class_code.specs.Faults.{HeadFault, IfInstrFault};
ghost use Rattle.class_code.specs.CodeReading.{instr_at};

use crate::fault::{InstrFault, Unread};
use crate::form::{Form, form_of};
use crate::instr::Instr;
use crate::number::u1_at;
use crate::operands::operands;
use crate::switch::{lookup_switch, table_switch};
use std::alloc::Global;

/// The instruction at the front of the bytes, and the bytes after it. That it is what the bytes read as is `instr_at`'s.
fn first_instr(alloc: Global, at: usize, bytes: &[u8]) -> Result<(Instr, &[u8]), Unread>
    requires { 0 < length bytes.now }
    ensures found { IfOk result (λ x. (bytes.now ≡ spelling x.0 ++ x.1.now) × Stands at x.0) }
    ensures fits { IfOk result (λ x. Fits x.0) }
    ensures shorter { IfOk result (λ x. length x.1.now < length bytes.now) }
    ensures fault { IfErr result (λ e. IfInstrFault e (HeadFault at bytes.now)) }
{
    let (opcode, rest) = u1_at(bytes)?;
    match form_of(opcode) {
        Form::TableSwitch => table_switch(alloc, at, rest),
        Form::LookupSwitch => lookup_switch(alloc, at, rest),
        form => Ok(operands(opcode, form, rest)?),
    }
}

/// The instruction at the front of the bytes, and the bytes after it (JVM specification 6.5). The first byte has this offset
/// in its code, which tells how a switch is padded.
///
/// Where a branch or a switch leads is not looked at: `first_astray` does that for a whole list. `Unread::Memory` is answered
/// only where an allocation failed. The time grows with the instruction's length.
pub fn instr_at(alloc: Global, at: usize, bytes: &[u8]) -> Result<(Instr, &[u8]), Unread>
    requires { 0 < length bytes.now }
    // The bytes begin with the instruction's, which may stand at this offset.
    ensures found { IfOk result (λ x. (bytes.now ≡ spelling x.0 ++ x.1.now) × Stands at x.0) }
    ensures fits { IfOk result (λ x. Fits x.0) }

    // Each takes a byte or more, so that reading one after the other ends.
    ensures shorter { IfOk result (λ x. length x.1.now < length bytes.now) }

    // A fault is the one that stands there.
    ensures fault { IfErr result (λ e. IfInstrFault e (HeadFault at bytes.now)) }

    // It is what the bytes read as, and so is a fault.
    ensures read { IfOk result (λ x. instr_at at bytes.now ≡ Ok (x.0, x.1.now)) }
    ensures refused { IfErr result (λ e. IfInstrFault e (λ why. instr_at at bytes.now ≡ Err why)) }
{
    first_instr(alloc, at, bytes)
}
