ghost use Rattle.std.specs.Prelude.{◌≡◌, option_copied};
ghost use Rattle.class_tree.specs.Tree.{entry_at, text_at, class_at, names_class};

use crate::{CloneIn, Same};
use jv_names::Units;
use std::alloc::{AllocError, Global};

/// An entry of the constant pool (4.4). Each index names another entry of the pool, by its number as the file has it:
/// the first entry has the number 1.
#[derive(Drop)]
pub enum Const {
    /// A text: `CONSTANT_Utf8` (4.4.7).
    Utf8(Units),
    /// `CONSTANT_Integer` (4.4.4).
    Integer(i32),
    /// `CONSTANT_Long` (4.4.5), which takes two places of the pool: the next entry is `Unused`.
    Long(i64),
    /// A class: the index of the text of its name in internal form (4.4.1).
    Class(u16),
    /// `CONSTANT_String`: the index of its text (4.4.3).
    Text(u16),
    /// `CONSTANT_Fieldref`: the indices of its `Class` and its `NameType` (4.4.2).
    Field(u16, u16),
    /// `CONSTANT_Methodref`: the indices of its `Class` and its `NameType` (4.4.2).
    Method(u16, u16),
    /// `CONSTANT_InterfaceMethodref`: the indices of its `Class` and its `NameType` (4.4.2).
    InterfaceMethod(u16, u16),
    /// `CONSTANT_NameAndType`: the indices of the texts of a name and a descriptor (4.4.6).
    NameType(u16, u16),
    /// The second place of a `Long`, which no index may name (4.4.5).
    Unused,
}

impl Same for Const {
    fn same(&self, other: &Const) -> bool {
        match (self, other) {
            (Self::Utf8(text), Self::Utf8(with)) => text.same(with),
            (Self::Integer(value), Self::Integer(with)) => value == with,
            (Self::Long(value), Self::Long(with)) => value == with,
            (Self::Class(name), Self::Class(with)) => name == with,
            (Self::Text(text), Self::Text(with)) => text == with,
            (Self::Field(class, name_type), Self::Field(a, b)) => class == a && name_type == b,
            (Self::Method(class, name_type), Self::Method(a, b)) => class == a && name_type == b,
            (Self::InterfaceMethod(class, name_type), Self::InterfaceMethod(a, b)) => {
                class == a && name_type == b
            }
            (Self::NameType(name, desc), Self::NameType(a, b)) => name == a && desc == b,
            (Self::Unused, Self::Unused) => true,
            _ => false,
        }
    }
}

impl CloneIn for Const {
    fn clone_in(&self, alloc: Global) -> Result<Const, AllocError> {
        Ok(match self {
            Self::Utf8(text) => Self::Utf8(text.clone_in(alloc)?),
            Self::Integer(value) => Self::Integer(*value),
            Self::Long(value) => Self::Long(*value),
            Self::Class(name) => Self::Class(*name),
            Self::Text(text) => Self::Text(*text),
            Self::Field(class, name_type) => Self::Field(*class, *name_type),
            Self::Method(class, name_type) => Self::Method(*class, *name_type),
            Self::InterfaceMethod(class, name_type) => Self::InterfaceMethod(*class, *name_type),
            Self::NameType(name, desc) => Self::NameType(*name, *desc),
            Self::Unused => Self::Unused,
        })
    }
}

/// The entry of a pool at an index.
pub fn entry_at(pool: &[Const], index: u16) -> Option<&Const>
    ensures { option_copied result ≡ entry_at pool.now index }
{
    if index == 0 {
        return None;
    }
    pool.get(usize::from(index) - 1)
}

/// The text at an index of a pool, where a `Utf8` is there.
pub fn text_at(pool: &[Const], index: u16) -> Option<&Units>
    ensures { option_copied result ≡ text_at pool.now index }
{
    match entry_at(pool, index)? {
        Const::Utf8(text) => Some(text),
        _ => None,
    }
}

/// What the `Class` at an index of a pool names (4.4.1): a name in internal form, or the descriptor of an array class.
pub fn class_at(pool: &[Const], index: u16) -> Option<&Units>
    ensures { option_copied result ≡ class_at pool.now index }
{
    match entry_at(pool, index)? {
        Const::Class(name) => text_at(pool, *name),
        _ => None,
    }
}

/// Whether a class stands at an index of a pool, be it one of an array (4.4.1).
pub fn names_class(pool: &[Const], index: u16) -> bool
    ensures { result ≡ names_class pool.now index }
{
    matches!(entry_at(pool, index), Some(Const::Class(_)))
}
