ghost use Rattle.std.specs.Prelude.{◌≡◌, ◌++◌, true, OnOk};
ghost use Rattle.class_tree.specs.Spelling.{u2, attr_bytes, member_bytes};
ghost use Rattle.classfile_write.specs.Fits.{attr_fits, member_fits};

use crate::code::{put_code, put_named};
use crate::item::{WriteItem, put_counted};
use crate::number::put_u2;
use class_tree::{Attr, Member};
use std::alloc::{AllocError, Global};

impl WriteItem for Attr {
    ghost spells = { attr_bytes };

    ghost fits = { attr_fits };

    #[tactic(auto, using(std::proofs::Common::append_assoc), unfolding(class_tree::specs::Spelling::u2))]
    fn put(&self, alloc: Global, out: &mut Vec<u8>) -> Result<(), AllocError> {
        match self {
            Self::Raw { name, bytes } => put_named(out, *name, bytes.as_slice()),
            Self::Body { name, code } => {
                let mut content = Vec::with_capacity(alloc, code.bytes.len().saturating_add(256))?;
                put_code(alloc, &mut content, code)?;
                put_named(out, *name, &content)
            }
            Self::Constant { name, value } => put_named(out, *name, &value.to_be_bytes()),
        }
    }
}

impl WriteItem for Member {
    ghost spells = { member_bytes };

    ghost fits = { member_fits };

    fn put(&self, alloc: Global, out: &mut Vec<u8>) -> Result<(), AllocError> {
        put_u2(out, self.flags.bits)?;
        put_u2(out, self.name)?;
        put_u2(out, self.desc)?;
        put_counted(alloc, out, self.attrs.as_slice())
    }
}
