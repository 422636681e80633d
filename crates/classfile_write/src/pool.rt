ghost use Rattle.std.specs.Prelude.{◌≡◌, ◌+◌, ◌<◌, ◌∷◌, ◌++◌, ◌^◌, true, length, OnOk};
ghost use Rattle.std.specs.List.{list_all};
ghost use Rattle.class_tree.specs.Spelling.{u2, const_bytes, pool_bytes};
ghost use Rattle.classfile_write.specs.Fits.{const_fits};

use crate::item::{WriteItem, put_all};
use crate::number::{put_tagged, put_u2, put_u4, put_u8};
use crate::text::put_text;
use class_tree::Const;
use std::alloc::{AllocError, Global};

/// A tag, and two numbers of two bytes.
fn put_pair(out: &mut Vec<u8>, tag: u8, first: u16, second: u16) -> Result<(), AllocError>
    ensures { OnOk result (out.new.items ≡ out.old.items ++ tag ∷ (u2 first ++ u2 second)) }
{
    put_tagged(out, tag, first)?;
    put_u2(out, second)
}

impl WriteItem for Const {
    ghost spells = { const_bytes };

    ghost fits = { const_fits };

    fn put(&self, _alloc: Global, out: &mut Vec<u8>) -> Result<(), AllocError> {
        match self {
            Self::Utf8(text) => put_text(out, text)?,
            Self::Integer(value) => {
                out.push(3)?;
                put_u4(out, value.cast_unsigned())?;
            }
            Self::Long(value) => {
                out.push(5)?;
                put_u8(out, value.cast_unsigned())?;
            }
            Self::Class(name) => put_tagged(out, 7, *name)?,
            Self::Text(text) => put_tagged(out, 8, *text)?,
            Self::Field(class, name_type) => put_pair(out, 9, *class, *name_type)?,
            Self::Method(class, name_type) => put_pair(out, 10, *class, *name_type)?,
            Self::InterfaceMethod(class, name_type) => put_pair(out, 11, *class, *name_type)?,
            Self::NameType(name, desc) => put_pair(out, 12, *name, *desc)?,
            Self::Unused => {}
        }
        Ok(())
    }
}

/// The pool, of which the count is one more than its greatest index (4.1).
pub fn put_pool(alloc: Global, out: &mut Vec<u8>, pool: &[Const]) -> Result<(), AllocError>
    requires short { length pool.now + 1 < 2 ^ 16 }
    requires entries { list_all const_fits pool.now ≡ true }
    ensures { OnOk result (out.new.items ≡ out.old.items ++ pool_bytes pool.now) }
{
    put_u2(out, (pool.len() + 1) as u16)?;
    put_all(alloc, out, pool)
}
