ghost use Rattle.std.specs.Prelude.{◌≡◌, ◌<◌, ◌^◌, ℕ, List, length, Some, None, IfOk, IfErr};
ghost use Rattle.class_code.specs.declared.instr.Instr.{Instr};
ghost use Rattle.class_code.specs.declared.fault.CodeFault.{CodeFault};
ghost use Rattle.class_code.specs.Listing.{IsSpelled, IsListing, IsRising};
ghost use Rattle.class_code.specs.FirstFaults.{FirstFault, IfFault, Gives, Refuses, placed};
ghost use Rattle.class_code.specs.CodeReading.{list_of};

use crate::fault::{CodeFault, InstrFault, Unread};
use crate::instr::Instr;
use crate::reading::instr_at;
use crate::targets::first_astray;
use std::alloc::Global;

/// The fault of an instruction at this offset, as the caller of `decode` sees it.
fn fault_at(why: InstrFault, at: u16, end: u16) -> CodeFault
    ensures { result ≡ placed why at end }
{
    match why {
        InstrFault::Floating => CodeFault::Floating(at),
        InstrFault::Unsupported => CodeFault::Unsupported(at),
        InstrFault::Truncated => CodeFault::Truncated(end),
        InstrFault::BadOperand => CodeFault::BadOperand(at),
    }
}

/// The instructions, whose targets nothing has looked at.
fn instrs_of(alloc: Global, code: &[u8]) -> Result<Vec<(u16, Instr)>, CodeFault>
    requires { length code.now < 2 ^ 16 }
    ensures found { IfOk result (λ v. IsSpelled code.now v.items) }
    ensures fault { IfErr result (λ e. IfFault e (FirstFault code.now)) }
{
    let mut list = Vec::new(alloc);
    let mut rest = code;
    while !rest.is_empty() {
        let at = code.len() - rest.len();
        match instr_at(alloc, at, rest) {
            Ok((instr, after)) => {
                list.push((at as u16, instr))?;
                rest = after;
            }
            Err(Unread::Memory) => return Err(CodeFault::Memory),
            Err(Unread::Fault(why)) => return Err(fault_at(why, at as u16, code.len() as u16)),
        }
    }
    Ok(list)
}

/// The instructions, or the first fault. That each code has one of the two alone is `decode`'s.
fn listing_of(alloc: Global, code: &[u8]) -> Result<Vec<(u16, Instr)>, CodeFault>
    requires { length code.now < 2 ^ 16 }
    ensures found { IfOk result (λ v. IsListing code.now v.items) }
    ensures fault { IfErr result (λ e. IfFault e (FirstFault code.now)) }
{
    let list = instrs_of(alloc, code)?;
    match first_astray(&list) {
        Some(at) => Err(CodeFault::BadTarget(at)),
        None => Ok(list),
    }
}

/// The instructions of a method's code, each with its offset in bytes, in the order of the code (JVM specification 4.7.3
/// and 4.9.1).
///
/// Of several faults it answers the first: those of the instructions come in order of their offsets, and of two in one
/// instruction that at the earlier byte; where a branch or a switch leads is looked at once all instructions are whole.
/// `Memory` is answered only where an allocation failed. The time grows as that of sorting.
pub fn decode(alloc: Global, code: &[u8]) -> Result<Vec<(u16, Instr)>, CodeFault>
    requires { length code.now < 2 ^ 16 }
    // What is decoded is the code's list.
    ensures found { IfOk result (λ v. IsListing code.now v.items) }

    // A code that has a list is decoded to it, unless memory runs out.
    ensures only { (ps : List (ℕ × Instr)) → IsListing code.now ps → Gives (λ v. v.items) result ps }

    // A fault is the code's first.
    ensures fault { IfErr result (λ e. IfFault e (FirstFault code.now)) }

    // A code that has a first fault is refused for it, unless memory runs out.
    ensures exact { (f : CodeFault) → FirstFault code.now f → Refuses result f }

    // The offsets of what is decoded rise.
    ensures rising { IfOk result (λ v. IsRising v.items) }

    // What is decoded is what the code reads as, and a code that is refused reads as no list, unless memory ran out.
    ensures listed { IfOk result (λ v. list_of code.now ≡ Some v.items) }
    ensures unlisted { IfErr result (λ e. IfFault e (λ _. list_of code.now ≡ None)) }
{
    listing_of(alloc, code)
}
