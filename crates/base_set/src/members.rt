ghost use Rattle.std.specs.Prelude.{◌≡◌, ◌+◌, ◌*◌, ◌<◌, ◌++◌, IsTrue, length, map, OnOk, IfOk};
ghost use Rattle.std.specs.List.{list_all};
ghost use Rattle.base_set.specs.BaseCode.{code_of_base};
ghost use Rattle.base_set.specs.BaseTrees.{attrs_of, field_entries, fields_from, method_entries, methods_from};
ghost use Rattle.base_set.specs.Rows.{field_of, method_of, has_locals};

use crate::entries::put_text;
use crate::table::{FieldRow, MethodRow};
use class_tree::{Attr, Code, Const, Flag, Flags, Member};
use sqlite_items::Items;
use std::alloc::{AllocError, Global};

/// The pool's index of the text `Code`.
const CODE_NAME: u16 = 1;

/// `aconst_null` and `athrow`: the code of each base method that has one, which is never run.
const BASE_CODE: [u8; 2] = [0x01, 0xbf];

fn base_code(alloc: Global, row: &MethodRow) -> Result<Code, AllocError>
    requires { IsTrue (has_locals row.now) }
    ensures { IfOk result (λ code. code ≡ code_of_base (method_of row.now)) }
{
    Ok(Code {
        max_stack: 1,
        max_locals: row.locals,
        bytes: Items::from_slice(alloc, &BASE_CODE)?,
        handlers: Items::new(alloc),
        attrs: Items::new(alloc),
    })
}

fn base_attrs(alloc: Global, row: &MethodRow) -> Result<Items<Attr>, AllocError>
    requires { IsTrue (has_locals row.now) }
    ensures { IfOk result (λ attrs. attrs ≡ attrs_of (method_of row.now)) }
{
    let mut attrs = Items::new(alloc);
    let flags = Flags { bits: row.flags };
    if !flags.has(Flag::Abstract) {
        attrs.push(Attr::Body {
            name: CODE_NAME,
            code: base_code(alloc, row)?,
        })?;
    }
    Ok(attrs)
}

/// Puts the texts of fields behind the other entries, and answers the fields.
pub fn put_fields(
    alloc: Global,
    pool: &mut Items<Const>,
    rows: &[FieldRow],
) -> Result<Items<Member>, AllocError>
    requires { length pool.old + 2 * length rows.now < 65535 }
    ensures entries { OnOk result (pool.new ≡ pool.old ++ field_entries (map field_of rows.now)) }
    ensures fields { IfOk result (λ fields. fields ≡ fields_from (length pool.old + 1) (map field_of rows.now)) }
{
    let mut fields = Items::new(alloc);
    for row in rows {
        let name = put_text(alloc, pool, row.name)?;
        let desc = put_text(alloc, pool, row.desc)?;
        fields.push(Member {
            flags: Flags { bits: row.flags },
            name,
            desc,
            attrs: Items::new(alloc),
        })?;
    }
    Ok(fields)
}

/// Puts the texts of methods behind the other entries, and answers the methods.
pub fn put_methods(
    alloc: Global,
    pool: &mut Items<Const>,
    rows: &[MethodRow],
) -> Result<Items<Member>, AllocError>
    requires room { length pool.old + 2 * length rows.now < 65535 }
    requires locals { IsTrue (list_all has_locals rows.now) }
    ensures entries { OnOk result (pool.new ≡ pool.old ++ method_entries (map method_of rows.now)) }
    ensures methods { IfOk result (λ methods. methods ≡ methods_from (length pool.old + 1) (map method_of rows.now)) }
{
    let mut methods = Items::new(alloc);
    for row in rows {
        let name = put_text(alloc, pool, row.name)?;
        let desc = put_text(alloc, pool, row.desc)?;
        methods.push(Member {
            flags: Flags { bits: row.flags },
            name,
            desc,
            attrs: base_attrs(alloc, row)?,
        })?;
    }
    Ok(methods)
}
