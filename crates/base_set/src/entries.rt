ghost use Rattle.std.specs.Prelude.{◌≡◌, ◌+◌, ◌*◌, ◌<◌, [], ◌∷◌, ◌++◌, length, OnOk, IfOk, option_map};
ghost use Rattle.class_tree.specs.declared.pool.Const.TheVariants.{Utf8, Class};
ghost use Rattle.base_set.specs.BaseTrees.{class_entries, class_indices, super_names, super_index};
ghost use Rattle.base_set.specs.Rows.{names_of};

use class_tree::Const;
use jv_names::Units;
use sqlite_items::Items;
use std::alloc::{AllocError, Global};

/// Puts a text behind the other entries, and answers its index.
pub fn put_text(alloc: Global, pool: &mut Items<Const>, text: &[u8]) -> Result<u16, AllocError>
    requires { length pool.old < 65535 }
    ensures entry { OnOk result (pool.new ≡ pool.old ++ Utf8 text.now ∷ []) }
    ensures index { IfOk result (λ index. index ≡ length pool.old + 1) }
{
    let index = pool.len() as u16 + 1;
    pool.push(Const::Utf8(Units::from_ascii(alloc, text)?))?;
    Ok(index)
}

/// Puts a class behind the other entries, and answers its index. Before it stands the text of its name.
pub fn put_class(alloc: Global, pool: &mut Items<Const>, name: &[u8]) -> Result<u16, AllocError>
    requires { length pool.old + 1 < 65535 }
    ensures entries { OnOk result (pool.new ≡ pool.old ++ Utf8 name.now ∷ Class (length pool.old + 1) ∷ []) }
    ensures index { IfOk result (λ index. index ≡ length pool.old + 2) }
{
    let text = put_text(alloc, pool, name)?;
    pool.push(Const::Class(text))?;
    Ok(text + 1)
}

/// Puts classes behind the other entries, and answers their indices.
pub fn put_classes(
    alloc: Global,
    pool: &mut Items<Const>,
    names: &[&[u8]],
) -> Result<Items<u16>, AllocError>
    requires { length pool.old + 2 * length names.now < 65535 }
    ensures entries { OnOk result (pool.new ≡ pool.old ++ class_entries (length pool.old + 1) (names_of names.now)) }
    ensures indices { IfOk result (λ indices. indices ≡ class_indices (length pool.old + 1) (names_of names.now)) }
{
    let mut indices = Items::new(alloc);
    for name in names {
        let index = put_class(alloc, pool, name)?;
        indices.push(index)?;
    }
    Ok(indices)
}

/// Puts the superclass behind the other entries, if there is one, and answers its index, or 0.
pub fn put_super(
    alloc: Global,
    pool: &mut Items<Const>,
    name: Option<&[u8]>,
) -> Result<u16, AllocError>
    requires { length pool.old + 1 < 65535 }
    ensures entries { OnOk result (pool.new ≡ pool.old ++ class_entries (length pool.old + 1) (super_names (option_map (λ n. n.now) name.entry))) }
    ensures index { IfOk result (λ index. index ≡ super_index (length pool.old + 2) (option_map (λ n. n.now) name.entry)) }
{
    match name {
        Some(name) => put_class(alloc, pool, name),
        None => Ok(0),
    }
}
