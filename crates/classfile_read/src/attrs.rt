ghost use Rattle.std.specs.Prelude.{◌≡◌, option_copied};
ghost use Rattle.class_tree.specs.WellFormed.{is_value};
ghost use Rattle.classfile_items.specs.Reading.{Mirrors, Reads};
ghost use Rattle.classfile_read.specs.ClassReading.{raw_attr, body, value, constant, attr_at};
ghost use Rattle.classfile_read.specs.Owners.{owner_seen};

use class_tree::{Attr, Const};
use classfile_code::code;
use classfile_items::{ReadClassFault, ReadItem, of_length, offset, raw, text_index, u2, u4};
use classfile_pool::Pool;
use jv_names::Units;
use sqlite_items::Items;
use std::alloc::Global;

/// Whose attributes are read, which tells what each of them is (4.7).
#[derive(Clone, Copy)]
pub enum Owner<'p> {
    Class,
    Method,
    Field,
    /// A static field, with its descriptor.
    StaticField(&'p Units),
}

/// Reads the attributes of one owner (4.7): the `Code` of a method, the `ConstantValue` of a static field, and any other
/// as its bytes.
#[derive(Drop)]
pub struct AttrReader<'p> {
    pub major: u16,
    pub pool: &'p Pool,
    pub owner: Owner<'p>,
}

impl ReadItem for AttrReader<'_> {
    type Item = Attr;

    ghost finds = { λ reader end. attr_at reader.major reader.pool.now end (owner_seen reader.owner) };

    fn read<'a>(
        &self,
        alloc: Global,
        end: usize,
        bytes: &'a [u8],
    ) -> Result<(Attr, &'a [u8]), ReadClassFault> {
        let ((name, text), rest) = text_index(self.pool.entries(), end, bytes)?;
        match self.owner {
            Owner::Method if text.is_text(b"Code") => {
                body(alloc, self.major, self.pool, end, name, rest)
            }
            Owner::StaticField(desc) if text.is_text(b"ConstantValue") => {
                constant(self.pool, desc, end, name, rest)
            }
            _ => raw_attr(alloc, end, name, rest),
        }
    }
}

/// An attribute of this name that is kept as its bytes, from its length on.
fn raw_attr<'a>(
    alloc: Global,
    end: usize,
    name: u16,
    bytes: &'a [u8],
) -> Result<(Attr, &'a [u8]), ReadClassFault>
    ensures { Reads result (raw_attr end name bytes.now) }
{
    let (len, rest) = u4(end, bytes)?;
    let (content, rest) = raw(end, len as usize, rest)?;
    let bytes = Items::from_slice(alloc, content)?;
    Ok((Attr::Raw { name, bytes }, rest))
}

/// A `Code` from its length on (4.7.3).
fn body<'a>(
    alloc: Global,
    major: u16,
    pool: &Pool,
    end: usize,
    name: u16,
    bytes: &'a [u8],
) -> Result<(Attr, &'a [u8]), ReadClassFault>
    ensures { Reads result (body major pool.now end name bytes.now) }
{
    let (len, content) = u4(end, bytes)?;
    let found = code(alloc, major, pool.entries(), end, content)?;
    let (code, rest) = of_length(end, len, content, found)?;
    Ok((Attr::Body { name, code }, rest))
}

/// Whether a field of this descriptor may have this constant (4.7.2).
fn is_value(desc: &Units, entry: Option<&Const>) -> bool
    ensures { result ≡ is_value desc.now (option_copied entry.entry) }
{
    match entry {
        Some(Const::Long(_)) => desc.is_text(b"J"),
        Some(Const::Integer(_)) => {
            desc.is_text(b"I")
                || desc.is_text(b"S")
                || desc.is_text(b"C")
                || desc.is_text(b"B")
                || desc.is_text(b"Z")
        }
        Some(Const::Text(_)) => desc.is_text(b"Ljava/lang/String;"),
        _ => false,
    }
}

/// The index of a constant for a field of this descriptor.
fn value<'a>(
    pool: &Pool,
    desc: &Units,
    end: usize,
    bytes: &'a [u8],
) -> Result<(u16, &'a [u8]), ReadClassFault>
    ensures { Reads result (value pool.now desc.now end bytes.now) }
{
    let (index, rest) = u2(end, bytes)?;
    if is_value(desc, pool.entry_at(index)) {
        Ok((index, rest))
    } else {
        Err(ReadClassFault::BadIndex(offset(end, bytes)))
    }
}

/// A `ConstantValue` from its length on (4.7.2).
fn constant<'a>(
    pool: &Pool,
    desc: &Units,
    end: usize,
    name: u16,
    bytes: &'a [u8],
) -> Result<(Attr, &'a [u8]), ReadClassFault>
    ensures { Reads result (constant pool.now desc.now end name bytes.now) }
{
    let (len, content) = u4(end, bytes)?;
    let found = value(pool, desc, end, content)?;
    let (value, rest) = of_length(end, len, content, found)?;
    Ok((Attr::Constant { name, value }, rest))
}
