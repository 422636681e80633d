ghost use Rattle.std.specs.Prelude.{◌≡◌, ◌≢◌, ◌++◌, IfOk, OnOk};
ghost use Rattle.class_tree.specs.Spelling.{rest_bytes, class_bytes};

use crate::item::put_counted;
use crate::number::put_u2;
use crate::pool::put_pool;
use class_tree::ClassFile;
use std::alloc::{AllocError, Global};

/// What stands behind the pool (4.1).
fn put_rest(alloc: Global, out: &mut Vec<u8>, tree: &ClassFile) -> Result<(), AllocError>
    ensures { OnOk result (out.new.items ≡ out.old.items ++ rest_bytes tree.now) }
{
    put_u2(out, tree.flags.bits)?;
    put_u2(out, tree.this_class)?;
    put_u2(out, tree.super_class)?;
    put_counted(alloc, out, tree.interfaces.as_slice())?;
    put_counted(alloc, out, tree.fields.as_slice())?;
    put_counted(alloc, out, tree.methods.as_slice())?;
    put_counted(alloc, out, tree.attrs.as_slice())
}

/// The bytes of a class file: the one spelling of the tree, number for number and item for item (4.1). A class without a
/// superclass is `Object`, of which there is no file.
pub fn write_class(alloc: Global, tree: &ClassFile) -> Result<Vec<u8>, AllocError>
    requires { tree.now.super_class ≢ 0 }
    ensures { IfOk result (λ bytes. bytes.items ≡ class_bytes tree.now) }
{
    let mut out = Vec::with_capacity(alloc, tree.pool.len().saturating_mul(32))?;
    out.extend_from_slice(&[0xca, 0xfe, 0xba, 0xbe])?;
    put_u2(&mut out, tree.minor)?;
    put_u2(&mut out, tree.major)?;
    put_pool(alloc, &mut out, tree.pool.as_slice())?;
    put_rest(alloc, &mut out, tree)?;
    Ok(out)
}
