ghost use Rattle.std.specs.Prelude.{◌≡◌, [], Some, None, reverse, IfOk, MatchBool};
ghost use Rattle.first_form.specs.Instructions.{kinds_after, fits as fits_on};
ghost use Rattle.first_form_read.specs.Places.{listed_from};

use first_form::{Instr, Kind};
use std::alloc::{AllocError, Global};

/// The entries of the pool that an instruction may name: the field `System.out`, and the method `println` of an int.
const OUT_ENTRY: u16 = 13;

const PRINTLN_ENTRY: u16 = 19;

/// The most entries of the operand stack.
const MAX_STACK: usize = 3;

/// Whether an instruction names what it may and finds its operands, which its result replaces.
fn apply(stack: &mut Vec<Kind>, instr: Instr) -> Result<bool, AllocError>
    ensures { IfOk result (λ found. MatchBool found
        (kinds_after instr (reverse stack.old.items) ≡ Some (reverse stack.new.items))
        (kinds_after instr (reverse stack.old.items) ≡ None)) }
{
    match instr {
        Instr::IntConst(_) => stack.push(Kind::Int)?,
        Instr::IntArith(_) => {
            let right = stack.pop();
            let left = stack.pop();
            if right != Some(Kind::Int) || left != Some(Kind::Int) {
                return Ok(false);
            }
            stack.push(Kind::Int)?;
        }
        Instr::GetStatic(entry) => {
            if entry != OUT_ENTRY {
                return Ok(false);
            }
            stack.push(Kind::Stream)?;
        }
        Instr::InvokeVirtual(entry) => {
            let argument = stack.pop();
            let receiver = stack.pop();
            if argument != Some(Kind::Int) || receiver != Some(Kind::Stream) {
                return Ok(false);
            }
            return Ok(entry == PRINTLN_ENTRY);
        }
        Instr::Return => return Ok(false),
    }
    Ok(true)
}

/// Whether the instructions at these places, one per byte of a code, run on three entries of the operand stack up to a
/// return that stands last and nowhere else.
pub fn fits(alloc: Global, places: &[Option<Instr>]) -> Result<bool, AllocError>
    ensures { IfOk result (λ b. b ≡ fits_on 3 [] (listed_from 0 places.now)) }
{
    let mut stack = Vec::new(alloc);
    let mut returned = false;
    for place in places {
        let Some(instr) = *place else {
            continue;
        };
        if returned {
            return Ok(false);
        }
        if instr == Instr::Return {
            returned = true;
        } else if !apply(&mut stack, instr)? || stack.len() > MAX_STACK {
            return Ok(false);
        }
    }
    Ok(returned)
}
