ghost use Rattle.std.specs.Prelude.{◌≡◌, ℕ, ◌+◌, ◌∷◌, ◌++◌, IfOk, IfErr};
ghost use Rattle.class_code.specs.Codes.{kind_place, primitive_code};
ghost use Rattle.class_code.specs.Spelling.{spelling, Stands};
ghost use Rattle.class_code.specs.Ranges.{Fits};
ghost use Rattle.class_code.specs.Forms.{IsForm};
ghost use Rattle.class_code.specs.Faults.{PrimitiveFault, WideFault, OperandsFault};
ghost use Rattle.class_code.specs.Skips.{IsPlain};

use crate::fault::InstrFault;
use crate::form::{Form, form_of};
use crate::instr::{Instr, Kind, Primitive};
use crate::number::{s1_at, s2_at, s4_at, u1_at, u2_at};

/// A load behind its opcode, that of `iload`, `lload` or `aload`.
fn load(kind: Kind, bytes: &[u8]) -> Result<(Instr, &[u8]), InstrFault>
    ensures found { IfOk result (λ x. (0x15 + kind_place kind) ∷ bytes.now ≡ spelling x.0 ++ x.1.now) }
    ensures fits { IfOk result (λ x. Fits x.0) }
    ensures stands { IfOk result (λ x. (at : ℕ) → Stands at x.0) }
    ensures fault { IfErr result (OperandsFault (Form.Load kind) bytes.now) }
{
    let (local, rest) = u1_at(bytes)?;
    Ok((Instr::Load(kind, local), rest))
}

/// A store behind its opcode, that of `istore`, `lstore` or `astore`.
fn store(kind: Kind, bytes: &[u8]) -> Result<(Instr, &[u8]), InstrFault>
    ensures found { IfOk result (λ x. (0x36 + kind_place kind) ∷ bytes.now ≡ spelling x.0 ++ x.1.now) }
    ensures fits { IfOk result (λ x. Fits x.0) }
    ensures stands { IfOk result (λ x. (at : ℕ) → Stands at x.0) }
    ensures fault { IfErr result (OperandsFault (Form.Store kind) bytes.now) }
{
    let (local, rest) = u1_at(bytes)?;
    Ok((Instr::Store(kind, local), rest))
}

/// `iinc` behind its opcode.
fn increment(bytes: &[u8]) -> Result<(Instr, &[u8]), InstrFault>
    ensures found { IfOk result (λ x. 0x84 ∷ bytes.now ≡ spelling x.0 ++ x.1.now) }
    ensures fits { IfOk result (λ x. Fits x.0) }
    ensures stands { IfOk result (λ x. (at : ℕ) → Stands at x.0) }
    ensures fault { IfErr result (OperandsFault Form.Increment bytes.now) }
{
    let (local, rest) = u1_at(bytes)?;
    let (by, rest) = s1_at(rest)?;
    Ok((Instr::Increment(local, by), rest))
}

/// `multianewarray` behind its opcode.
fn multi_new_array(bytes: &[u8]) -> Result<(Instr, &[u8]), InstrFault>
    ensures found { IfOk result (λ x. 0xc5 ∷ bytes.now ≡ spelling x.0 ++ x.1.now) }
    ensures fits { IfOk result (λ x. Fits x.0) }
    ensures stands { IfOk result (λ x. (at : ℕ) → Stands at x.0) }
    ensures fault { IfErr result (OperandsFault Form.MultiNewArray bytes.now) }
{
    let (index, rest) = u2_at(bytes)?;
    let (dimensions, rest) = u1_at(rest)?;
    Ok((Instr::MultiNewArray(index, dimensions), rest))
}

/// What the elements of a `newarray` of this code are.
fn primitive_of(code: u8) -> Result<Primitive, InstrFault>
    ensures found { IfOk result (λ p. code ≡ primitive_code p) }
    ensures fault { IfErr result (PrimitiveFault code) }
{
    match code {
        4 => Ok(Primitive::Boolean),
        5 => Ok(Primitive::Char),
        6 | 7 => Err(InstrFault::Floating),
        8 => Ok(Primitive::Byte),
        9 => Ok(Primitive::Short),
        10 => Ok(Primitive::Int),
        11 => Ok(Primitive::Long),
        0..=3 | 12..=255 => Err(InstrFault::BadOperand),
    }
}

/// `invokeinterface` behind its opcode.
fn interface_call(bytes: &[u8]) -> Result<(Instr, &[u8]), InstrFault>
    ensures found { IfOk result (λ x. 0xb9 ∷ bytes.now ≡ spelling x.0 ++ x.1.now) }
    ensures fits { IfOk result (λ x. Fits x.0) }
    ensures stands { IfOk result (λ x. (at : ℕ) → Stands at x.0) }
    ensures fault { IfErr result (OperandsFault Form.InvokeInterface bytes.now) }
{
    let (index, rest) = u2_at(bytes)?;
    let (count, rest) = u1_at(rest)?;
    let (fourth, rest) = u1_at(rest)?;
    if fourth != 0 {
        return Err(InstrFault::BadOperand);
    }
    Ok((Instr::InvokeInterface(index, count), rest))
}

/// `newarray` behind its opcode.
fn new_array(bytes: &[u8]) -> Result<(Instr, &[u8]), InstrFault>
    ensures found { IfOk result (λ x. 0xbc ∷ bytes.now ≡ spelling x.0 ++ x.1.now) }
    ensures fits { IfOk result (λ x. Fits x.0) }
    ensures stands { IfOk result (λ x. (at : ℕ) → Stands at x.0) }
    ensures fault { IfErr result (OperandsFault Form.NewArray bytes.now) }
{
    let (code, rest) = u1_at(bytes)?;
    let of = primitive_of(code)?;
    Ok((Instr::NewArray(of), rest))
}

/// What `wide` widens, behind the opcode of `wide`.
fn wide(bytes: &[u8]) -> Result<(Instr, &[u8]), InstrFault>
    ensures found { IfOk result (λ x. 0xc4 ∷ bytes.now ≡ spelling x.0 ++ x.1.now) }
    ensures fits { IfOk result (λ x. Fits x.0) }
    ensures stands { IfOk result (λ x. (at : ℕ) → Stands at x.0) }
    ensures fault { IfErr result (WideFault bytes.now) }
{
    let (opcode, rest) = u1_at(bytes)?;
    match form_of(opcode) {
        Form::Load(kind) => {
            let (local, rest) = u2_at(rest)?;
            Ok((Instr::LoadWide(kind, local), rest))
        }
        Form::Store(kind) => {
            let (local, rest) = u2_at(rest)?;
            Ok((Instr::StoreWide(kind, local), rest))
        }
        Form::Increment => {
            let (local, rest) = u2_at(rest)?;
            let (by, rest) = s2_at(rest)?;
            Ok((Instr::IncrementWide(local, by), rest))
        }
        Form::Floating => Err(InstrFault::Floating),
        Form::Unsupported => Err(if opcode == 0xa9 {
            InstrFault::Unsupported
        } else {
            InstrFault::BadOperand
        }),
        _ => Err(InstrFault::BadOperand),
    }
}

/// The instruction of this opcode and the bytes after it, where its operands do not depend on where it stands.
pub fn operands(opcode: u8, form: Form, bytes: &[u8]) -> Result<(Instr, &[u8]), InstrFault>
    requires form { IsForm opcode form }
    requires plain { IsPlain form }
    ensures found { IfOk result (λ x. opcode ∷ bytes.now ≡ spelling x.0 ++ x.1.now) }
    ensures fits { IfOk result (λ x. Fits x.0) }
    ensures stands { IfOk result (λ x. (at : ℕ) → Stands at x.0) }
    ensures fault { IfErr result (OperandsFault form bytes.now) }
{
    match form {
        Form::Simple(simple) => Ok((Instr::Simple(simple), bytes)),
        Form::PushByte => {
            let (n, rest) = s1_at(bytes)?;
            Ok((Instr::PushByte(n), rest))
        }
        Form::PushShort => {
            let (n, rest) = s2_at(bytes)?;
            Ok((Instr::PushShort(n), rest))
        }
        Form::LoadConst => {
            let (index, rest) = u1_at(bytes)?;
            Ok((Instr::LoadConst(index), rest))
        }
        Form::Load(kind) => load(kind, bytes),
        Form::Store(kind) => store(kind, bytes),
        Form::Increment => increment(bytes),
        Form::Branch(when) => {
            let (by, rest) = s2_at(bytes)?;
            Ok((Instr::Branch(when, by), rest))
        }
        Form::GotoWide => {
            let (by, rest) = s4_at(bytes)?;
            Ok((Instr::GotoWide(by), rest))
        }
        Form::Pool(op) => {
            let (index, rest) = u2_at(bytes)?;
            Ok((Instr::Pool(op, index), rest))
        }
        Form::InvokeInterface => interface_call(bytes),
        Form::NewArray => new_array(bytes),
        Form::MultiNewArray => multi_new_array(bytes),
        Form::Wide => wide(bytes),
        Form::TableSwitch | Form::LookupSwitch => unreachable!(),
        Form::Unsupported => Err(InstrFault::Unsupported),
        Form::Floating => Err(InstrFault::Floating),
    }
}
