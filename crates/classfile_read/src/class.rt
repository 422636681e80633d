ghost use Rattle.std.specs.Prelude.{◌≡◌, ℕ, List, IfOk, IfErr};
ghost use Rattle.class_tree.specs.Trees.{Tree};
ghost use Rattle.classfile_items.specs.declared.fault.ReadClassFault.{ReadClassFault};
ghost use Rattle.classfile_read.specs.Lawful.{Spells, Gives, FirstFault, Refuses};
ghost use Rattle.classfile_items.specs.Reading.{Mirrors, Tells, Reads};
ghost use Rattle.classfile_read.specs.ClassReading.{plain_class, magic, version, finished, class_from, class_of};
ghost use Rattle.classfile_read.specs.ClassTree.{tree};

use crate::attrs::{AttrReader, Owner};
use crate::members::{MemberReader, members};
use class_tree::{Attr, ClassFile, Const, Flags, Member, MemberKind};
use classfile_items::{ReadClassFault, ReadItem, counted, offset, u2, u4};
use classfile_pool::{Pool, pool_at};
use sqlite_items::Items;
use std::alloc::Global;

/// What a class file begins with (4.1).
const MAGIC: u32 = 0xcafe_babe;

/// Reads indices of classes that are no arrays (4.1).
#[derive(Drop)]
struct ClassReader<'p> {
    pool: &'p Pool,
}

impl ReadItem for ClassReader<'_> {
    type Item = u16;

    ghost finds = { λ reader end. plain_class end reader.pool.now };

    fn read<'a>(
        &self,
        _alloc: Global,
        end: usize,
        bytes: &'a [u8],
    ) -> Result<(u16, &'a [u8]), ReadClassFault> {
        plain_class(self.pool, end, bytes)
    }
}

/// The index of a class that is no array.
fn plain_class<'a>(
    pool: &Pool,
    end: usize,
    bytes: &'a [u8],
) -> Result<(u16, &'a [u8]), ReadClassFault>
    ensures { Reads result (plain_class end pool.now bytes.now) }
{
    let (index, rest) = u2(end, bytes)?;
    match pool.plain_class(index) {
        Some(true) => Ok((index, rest)),
        Some(false) => Err(ReadClassFault::BadText(offset(end, bytes))),
        None => Err(ReadClassFault::BadIndex(offset(end, bytes))),
    }
}

fn magic(end: usize, bytes: &[u8]) -> Result<(u32, &[u8]), ReadClassFault>
    ensures { Reads result (magic end bytes.now) }
{
    let (number, rest) = u4(end, bytes)?;
    if number == MAGIC {
        Ok((number, rest))
    } else {
        Err(ReadClassFault::Magic(offset(end, bytes)))
    }
}

/// The major number of a version that is supported.
fn version(end: usize, bytes: &[u8]) -> Result<(u16, &[u8]), ReadClassFault>
    ensures { Reads result (version end bytes.now) }
{
    let (major, rest) = u2(end, bytes)?;
    if (50..=52).contains(&major) {
        Ok((major, rest))
    } else {
        Err(ReadClassFault::Version(offset(end, bytes)))
    }
}

/// The parts of a class file that have been read, before it is known that nothing stands behind them.
#[derive(Drop)]
struct Parts {
    minor: u16,
    major: u16,
    pool: Items<Const>,
    flags: Flags,
    this_class: u16,
    super_class: u16,
    interfaces: Items<u16>,
    fields: Items<Member>,
    methods: Items<Member>,
    attrs: Items<Attr>,
}

/// The class, if nothing stands behind it.
fn finished(end: usize, rest: &[u8], parts: Parts) -> Result<Parts, ReadClassFault>
    ensures { Mirrors tree result (finished end rest.now (tree parts)) }
{
    if rest.is_empty() {
        Ok(parts)
    } else {
        Err(ReadClassFault::Trailing(offset(end, rest)))
    }
}

/// The class of a file of `end` bytes, which are these.
fn class_from(alloc: Global, end: usize, bytes: &[u8]) -> Result<Parts, ReadClassFault>
    ensures { Mirrors tree result (class_from end bytes.now) }
{
    let (_, rest) = magic(end, bytes)?;
    let (minor, rest) = u2(end, rest)?;
    let (major, rest) = version(end, rest)?;
    let (pool, rest) = pool_at(alloc, end, rest)?;
    let (bits, rest) = u2(end, rest)?;
    let (this_class, rest) = plain_class(&pool, end, rest)?;
    let (super_class, rest) = plain_class(&pool, end, rest)?;
    let (interfaces, rest) = counted(alloc, &ClassReader { pool: &pool }, end, rest)?;
    let kind = MemberKind::Field;
    let reader = MemberReader {
        major,
        pool: &pool,
        kind,
    };
    let (fields, rest) = members(alloc, &reader, end, rest)?;
    let kind = MemberKind::Method;
    let reader = MemberReader {
        major,
        pool: &pool,
        kind,
    };
    let (methods, rest) = members(alloc, &reader, end, rest)?;
    let owner = Owner::Class;
    let reader = AttrReader {
        major,
        pool: &pool,
        owner,
    };
    let (attrs, rest) = counted(alloc, &reader, end, rest)?;
    let parts = Parts {
        minor,
        major,
        pool: pool.into_entries(),
        flags: Flags { bits },
        this_class,
        super_class,
        interfaces,
        fields,
        methods,
        attrs,
    };
    finished(end, rest, parts)
}

/// The class that the bytes of a class file are (4.1): one of a major version from 50 to 52, whose numbers, indices, names,
/// descriptors, instructions, branches and lengths are in order, and no two of whose fields or methods have one name and
/// descriptor. A method has one `Code`, an abstract one has none and a native one is refused; a static field's
/// `ConstantValue` is of the kind that its descriptor asks. The file may have nothing of floating point, of method handles
/// or of `invokedynamic` in its pool, in the descriptors that it uses, in its code or in its stack maps. Of a stack map the
/// tags and the indices of classes are looked at, not where its entries lie; which access flags go together is not.
///
/// An `Err` is the first fault that shows when the bytes are read in order, or that memory ran out. The time is linear in the
/// bytes, but for look-ups among a class's members, among the texts that name them and among a code's instructions, which take
/// a logarithmic number of comparisons each. A text is looked for by its units once for each index that names a member by it.
/// The memory is linear in the bytes.
pub fn read_class(alloc: Global, bytes: &[u8]) -> Result<ClassFile, ReadClassFault>
    // What is read is spelled so.
    ensures found { IfOk result (λ class. Spells class bytes.now) }

    // What is spelled so is read, unless memory runs out.
    ensures only { (t : Tree) → Spells t bytes.now → Gives (λ class. class) result t }

    // A fault is the first one.
    ensures fault { IfErr result (λ fault. Tells fault (class_of bytes.now)) }

    // Bytes that have a first fault are refused for it, unless memory runs out.
    ensures exact { (fault : ReadClassFault) → FirstFault bytes.now fault → Refuses result fault }
{
    let Parts {
        minor,
        major,
        pool,
        flags,
        this_class,
        super_class,
        interfaces,
        fields,
        methods,
        attrs,
    } = class_from(alloc, bytes.len(), bytes)?;
    Ok(ClassFile {
        minor,
        major,
        pool,
        flags,
        this_class,
        super_class,
        interfaces,
        fields,
        methods,
        attrs,
    })
}
