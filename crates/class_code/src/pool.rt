ghost use Rattle.std.specs.Prelude.{◌≡◌, ◌++◌, ℕ, List};
ghost use Rattle.class_code.specs.declared.instr.Instr.{Instr};
ghost use Rattle.class_code.specs.Spelling.{spelling};
ghost use Rattle.class_code.specs.Ranges.{Fits};
ghost use Rattle.class_code.specs.OperandReading.{take_u1, take_u2};
ghost use Rattle.class_code.specs.PoolUses.{op_use, pool_use, index_for, form_use, pool_use_at};

use crate::form::{Form, form_of};
use crate::instr::{Instr, PoolOp};
use crate::number::u1_at;

/// What an instruction's index into the constant pool must name (JVM specification 4.9.1 and 6.5).
#[derive(Clone, Copy, Debug, PartialEq, Eq)]
pub enum PoolUse {
    /// What `ldc` and `ldc_w` load: an int, a float, a string, a class, a method type or a method handle.
    Loadable,
    /// What `ldc2_w` loads: a long or a double.
    Long,
    /// A field: `getstatic` to `putfield`.
    Field,
    /// A class's method: `invokevirtual`.
    Method,
    /// A method of a class or of an interface: `invokespecial`, `invokestatic`.
    MethodOrInterfaceMethod,
    /// An interface's method: `invokeinterface`.
    InterfaceMethod,
    /// A class: `new`, `anewarray`, `checkcast`, `instanceof`, `multianewarray`.
    Class,
}

impl PoolOp {
    /// What its index must name.
    pub fn pool_use(self) -> PoolUse
        ensures { result ≡ op_use self }
    {
        match self {
            PoolOp::LoadConstWide => PoolUse::Loadable,
            PoolOp::LoadLongConst => PoolUse::Long,
            PoolOp::GetStatic | PoolOp::PutStatic => PoolUse::Field,
            PoolOp::GetField | PoolOp::PutField => PoolUse::Field,
            PoolOp::InvokeVirtual => PoolUse::Method,
            PoolOp::InvokeSpecial | PoolOp::InvokeStatic => PoolUse::MethodOrInterfaceMethod,
            PoolOp::New | PoolOp::NewReferenceArray => PoolUse::Class,
            PoolOp::CheckCast | PoolOp::InstanceOf => PoolUse::Class,
        }
    }
}

impl Instr {
    /// Its index into the constant pool, if it has one, and what that must name.
    pub fn pool_use(&self) -> Option<(u16, PoolUse)>
        ensures { result ≡ pool_use self.now }
    {
        match self {
            Instr::LoadConst(index) => Some((u16::from(*index), PoolUse::Loadable)),
            Instr::Pool(op, index) => Some((*index, op.pool_use())),
            Instr::InvokeInterface(index, _) => Some((*index, PoolUse::InterfaceMethod)),
            Instr::MultiNewArray(index, _) => Some((*index, PoolUse::Class)),
            _ => None,
        }
    }
}

fn narrow_index(used: PoolUse, bytes: &[u8]) -> Option<(u16, PoolUse)>
    ensures { result ≡ index_for used (take_u1 bytes.now) }
{
    match bytes {
        [index, ..] => Some((u16::from(*index), used)),
        [] => None,
    }
}

fn wide_index(used: PoolUse, bytes: &[u8]) -> Option<(u16, PoolUse)>
    ensures { result ≡ index_for used (take_u2 bytes.now) }
{
    match bytes {
        [a, b, ..] => Some((u16::from_be_bytes([*a, *b]), used)),
        _ => None,
    }
}

/// The index behind an opcode of this form.
fn form_use(form: Form, bytes: &[u8]) -> Option<(u16, PoolUse)>
    ensures { result ≡ form_use form bytes.now }
{
    match form {
        Form::LoadConst => narrow_index(PoolUse::Loadable, bytes),
        Form::Pool(op) => wide_index(op.pool_use(), bytes),
        Form::InvokeInterface => wide_index(PoolUse::InterfaceMethod, bytes),
        Form::MultiNewArray => wide_index(PoolUse::Class, bytes),
        _ => None,
    }
}

/// Of bytes that begin with an opcode, the index into the constant pool behind it, and what that must name. The index is
/// answered once its own bytes are there, even where the rest of the instruction is cut off or not allowed: so a reader that
/// looks at each byte in turn finds a wrong index before what is wrong behind it.
pub fn pool_use_at(bytes: &[u8]) -> Option<(u16, PoolUse)>
    ensures value { result ≡ pool_use_at bytes.now }

    // Of a whole instruction it is the instruction's own.
    ensures whole { (i : Instr) (rest : List ℕ) → Fits i → bytes.now ≡ spelling i ++ rest → result ≡ pool_use i }
{
    match u1_at(bytes) {
        Ok((opcode, rest)) => form_use(form_of(opcode), rest),
        Err(_) => None,
    }
}
