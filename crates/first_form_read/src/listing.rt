ghost use Rattle.std.specs.Prelude.{◌≡◌, ◌+◌, ◌*◌, [], get_or, slice_index, IfOk};
ghost use Rattle.first_form.specs.Instructions.{first, size as size_of, listing as listing_of, at_pc, fits as fits_on};

use crate::type_check::fits;
use first_form::{Instr, Op};
use std::alloc::{AllocError, Global};
use std::marker::Model;

/// The instructions of a method's code, each with its offset in bytes (JVM specification 4.9.1). Contracts see the list
/// of them in the order of the code.
///
/// It is kept as one place per byte of the code, which holds the instruction that begins there, so that a look-up costs
/// the same whatever the code's length.
#[derive(Drop)]
pub struct Listing {
    places: Vec<Option<Instr>>,
}

impl Model for Listing {
    ghost use Rattle.std.specs.Prelude.{List, ℕ};
    ghost use Rattle.first_form.specs.declared.Instr.{Instr};
    ghost use Rattle.first_form_read.specs.Places.{listed_from};

    ghost Value = { List (ℕ × Instr) };

    ghost view = { λ l. listed_from 0 l.places.items };
}

/// The entry of the pool that an instruction names: two bytes, the high one first.
fn entry_of(operands: &[u8]) -> u16
    ensures { result ≡ get_or operands.now 0 0 * 256 + get_or operands.now 1 0 }
{
    let high = operands.first().copied().unwrap_or(0);
    let low = operands.get(1).copied().unwrap_or(0);
    u16::from(high) * 256 + u16::from(low)
}

/// The instruction that the code begins with, whose operands may be cut off (JVM specification 6.5).
fn first_instruction(code: &[u8]) -> Option<Instr>
    ensures { result ≡ first code.now }
{
    let (opcode, operands) = code.split_first()?;
    match *opcode {
        0x02..=0x08 => Some(Instr::IntConst(*opcode as i8 - 3)),
        0x60 => Some(Instr::IntArith(Op::Add)),
        0x64 => Some(Instr::IntArith(Op::Sub)),
        0x68 => Some(Instr::IntArith(Op::Mul)),
        0xb1 => Some(Instr::Return),
        0xb2 => Some(Instr::GetStatic(entry_of(operands))),
        0xb6 => Some(Instr::InvokeVirtual(entry_of(operands))),
        _ => None,
    }
}

/// How many bytes an instruction takes.
fn size(instr: Instr) -> usize
    ensures { result ≡ size_of instr }
{
    match instr {
        Instr::GetStatic(_) | Instr::InvokeVirtual(_) => 3,
        Instr::IntConst(_) | Instr::IntArith(_) | Instr::Return => 1,
    }
}

impl Listing {
    /// The instructions of a code, or `None` where it is no sequence of whole ones.
    pub fn decode(alloc: Global, code: &[u8]) -> Result<Option<Listing>, AllocError>
        ensures { IfOk result (λ found. found ≡ listing_of code.now) }
    {
        let mut places = Vec::with_capacity(alloc, code.len())?;
        let mut operands = 0;
        for pc in 0..code.len() {
            if operands > 0 {
                operands -= 1;
                places.push(None)?;
                continue;
            }
            let Some(instr) = first_instruction(&code[pc..]) else {
                return Ok(None);
            };
            operands = size(instr) - 1;
            places.push(Some(instr))?;
        }
        if operands > 0 {
            return Ok(None);
        }
        Ok(Some(Listing { places }))
    }

    /// The instruction that begins at an offset.
    pub fn get(&self, pc: u16) -> Option<Instr>
        ensures { result ≡ at_pc pc self.now }
    {
        self.places.get(usize::from(pc)).copied().flatten()
    }

    /// Whether each instruction finds its operands and names what it may, three entries of the operand stack suffice, and
    /// a return stands last and nowhere else (JVM specification 4.10.1).
    pub fn fits(&self, alloc: Global) -> Result<bool, AllocError>
        ensures { IfOk result (λ b. b ≡ fits_on 3 [] self.now) }
    {
        fits(alloc, &self.places)
    }

    /// A copy.
    pub fn clone_in(&self, alloc: Global) -> Result<Listing, AllocError>
        ensures { IfOk result (λ copy. copy ≡ self.now) }
    {
        Ok(Listing {
            places: self.places.as_slice().to_vec(alloc)?,
        })
    }
}
