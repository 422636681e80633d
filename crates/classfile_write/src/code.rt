ghost use Rattle.std.specs.Prelude.{◌≡◌, ◌++◌, ◌<◌, ◌^◌, true, length, OnOk, IfOk};
ghost use Rattle.class_tree.specs.Spelling.{named_bytes, counted, frame_bytes, handler_bytes, code_attr_bytes, code_bytes};
ghost use Rattle.classfile_write.specs.Fits.{always_fits, code_attr_fits, code_fits};

use crate::item::{WriteItem, put_counted};
use crate::number::{put_u2, put_u4};
use class_tree::{Code, CodeAttr, Handler};
use std::alloc::{AllocError, Global};

/// An attribute: the index of its name, the length of its content, and the content (4.7).
pub fn put_named(out: &mut Vec<u8>, name: u16, content: &[u8]) -> Result<(), AllocError>
    requires { length content.now < 2 ^ 32 }
    ensures { OnOk result (out.new.items ≡ out.old.items ++ named_bytes name content.now) }
{
    put_u2(out, name)?;
    put_u4(out, content.len() as u32)?;
    out.extend_from_slice(content)?;
    Ok(())
}

impl WriteItem for Handler {
    ghost spells = { handler_bytes };

    ghost fits = { always_fits };

    fn put(&self, _alloc: Global, out: &mut Vec<u8>) -> Result<(), AllocError> {
        put_u2(out, self.start)?;
        put_u2(out, self.end)?;
        put_u2(out, self.target)?;
        put_u2(out, self.catch_type)
    }
}

impl WriteItem for CodeAttr {
    ghost spells = { code_attr_bytes };

    ghost fits = { code_attr_fits };

    fn put(&self, alloc: Global, out: &mut Vec<u8>) -> Result<(), AllocError> {
        match self {
            Self::Raw { name, bytes } => put_named(out, *name, bytes.as_slice()),
            Self::Frames { name, entries } => {
                let mut content = Vec::with_capacity(alloc, entries.len().saturating_mul(4))?;
                put_counted(alloc, &mut content, entries.as_slice())?;
                put_named(out, *name, &content)
            }
        }
    }
}

/// What an attribute `Code` holds (4.7.3).
#[tactic(auto, using(std::proofs::Common::append_assoc, crate::proofs::Lists::any_counted))]
pub fn put_code(alloc: Global, out: &mut Vec<u8>, code: &Code) -> Result<(), AllocError>
    requires { code_fits code.now ≡ true }
    ensures { OnOk result (out.new.items ≡ out.old.items ++ code_bytes code.now) }
{
    put_u2(out, code.max_stack)?;
    put_u2(out, code.max_locals)?;
    put_u4(out, code.bytes.len() as u32)?;
    out.extend_from_slice(code.bytes.as_slice())?;
    put_counted(alloc, out, code.handlers.as_slice())?;
    put_counted(alloc, out, code.attrs.as_slice())
}
