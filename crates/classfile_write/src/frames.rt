ghost use Rattle.std.specs.Prelude.{◌≡◌, ◌++◌, true, OnOk};
ghost use Rattle.class_tree.specs.Spelling.{type_bytes, chop_tag, append_tag, appended_bytes, frame_bytes};
ghost use Rattle.classfile_write.specs.Fits.{always_fits, frame_fits};

use crate::item::{WriteItem, put_counted};
use crate::number::put_tagged;
use class_tree::{Appended, Chopped, StackMapFrame, VerificationType};
use std::alloc::{AllocError, Global};

fn put_type(out: &mut Vec<u8>, kind: VerificationType) -> Result<(), AllocError>
    ensures { OnOk result (out.new.items ≡ out.old.items ++ type_bytes kind) }
{
    match kind {
        VerificationType::Top => out.push(0)?,
        VerificationType::Integer => out.push(1)?,
        VerificationType::Long => out.push(4)?,
        VerificationType::Null => out.push(5)?,
        VerificationType::UninitializedThis => out.push(6)?,
        VerificationType::Object(class) => put_tagged(out, 7, class)?,
        VerificationType::Uninitialized(at) => put_tagged(out, 8, at)?,
    }
    Ok(())
}

impl WriteItem for VerificationType {
    ghost spells = { type_bytes };

    ghost fits = { always_fits };

    fn put(&self, _alloc: Global, out: &mut Vec<u8>) -> Result<(), AllocError> {
        put_type(out, *self)
    }
}

fn chop_tag(count: Chopped) -> u8
    ensures { result ≡ chop_tag count }
{
    match count {
        Chopped::One => 250,
        Chopped::Two => 249,
        Chopped::Three => 248,
    }
}

fn append_tag(locals: Appended) -> u8
    ensures { result ≡ append_tag locals }
{
    match locals {
        Appended::One(..) => 252,
        Appended::Two(..) => 253,
        Appended::Three(..) => 254,
    }
}

fn put_appended(out: &mut Vec<u8>, locals: Appended) -> Result<(), AllocError>
    ensures { OnOk result (out.new.items ≡ out.old.items ++ appended_bytes locals) }
{
    match locals {
        Appended::One(first) => put_type(out, first),
        Appended::Two(first, second) => {
            put_type(out, first)?;
            put_type(out, second)
        }
        Appended::Three(first, second, third) => {
            put_type(out, first)?;
            put_type(out, second)?;
            put_type(out, third)
        }
    }
}

impl WriteItem for StackMapFrame {
    ghost spells = { frame_bytes };

    ghost fits = { frame_fits };

    #[tactic(auto, using(std::proofs::Common::append_assoc, crate::proofs::Lists::any_counted))]
    fn put(&self, alloc: Global, out: &mut Vec<u8>) -> Result<(), AllocError> {
        match self {
            Self::Same { delta } => out.push(delta.value())?,
            Self::SameLocals1StackItem { delta, stack } => {
                out.push(64 + delta.value())?;
                put_type(out, *stack)?;
            }
            Self::SameLocals1StackItemExtended { delta, stack } => {
                put_tagged(out, 247, *delta)?;
                put_type(out, *stack)?;
            }
            Self::Chop { delta, count } => put_tagged(out, chop_tag(*count), *delta)?,
            Self::SameExtended { delta } => put_tagged(out, 251, *delta)?,
            Self::Append { delta, locals } => {
                put_tagged(out, append_tag(*locals), *delta)?;
                put_appended(out, *locals)?;
            }
            Self::Full {
                delta,
                locals,
                stack,
            } => {
                put_tagged(out, 255, *delta)?;
                put_counted(alloc, out, locals.as_slice())?;
                put_counted(alloc, out, stack.as_slice())?;
            }
        }
        Ok(())
    }
}
