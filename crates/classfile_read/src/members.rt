ghost use Rattle.std.specs.Prelude.{◌≡◌, [], ◌∷◌, IfOk, length, filter};
ghost use Rattle.class_tree.specs.Flags.{has_flag};
ghost use Rattle.class_tree.specs.Tree.{text_at};
ghost use Rattle.class_tree.specs.WellFormed.{owner_of, is_body, has_its_body};
ghost use Rattle.classfile_items.specs.Reading.{Mirrors, Reads};
ghost use Rattle.classfile_read.specs.ClassReading.{flags_at, name_at, desc_at, member, members_from, members};
ghost use Rattle.classfile_read.specs.Owners.{owner_seen};
ghost use Rattle.classfile_read.specs.Repeats.{Remembers, OfNames, names_of};

use crate::attrs::{AttrReader, Owner};
use crate::seen::SeenNames;
use class_tree::{Attr, Flag, Flags, Member, MemberKind};
use classfile_items::{ReadClassFault, counted, offset, text_index, u2};
use classfile_pool::Pool;
use jv_names::{DescFlaw, Units};
use sqlite_items::Items;
use std::alloc::Global;

/// Reads the fields or the methods of a class (4.5 and 4.6).
#[derive(Drop)]
pub struct MemberReader<'p> {
    pub major: u16,
    pub pool: &'p Pool,
    pub kind: MemberKind,
}

/// The flags of a member, of which those of a method are not native.
fn flags_at(kind: MemberKind, end: usize, bytes: &[u8]) -> Result<(u16, &[u8]), ReadClassFault>
    ensures { Reads result (flags_at end kind bytes.now) }
{
    let (bits, rest) = u2(end, bytes)?;
    match kind {
        MemberKind::Method if (Flags { bits }).has(Flag::Native) => {
            Err(ReadClassFault::Unsupported(offset(end, bytes)))
        }
        _ => Ok((bits, rest)),
    }
}

/// The index of a name of this kind, the name, and the bytes behind the index.
fn name_at<'p, 'a>(
    pool: &'p Pool,
    kind: MemberKind,
    end: usize,
    bytes: &'a [u8],
) -> Result<(u16, &'p Units, &'a [u8]), ReadClassFault>
    ensures read { Mirrors (λ x. ((x.0, x.1.now), x.2.now)) result (name_at end pool.now kind bytes.now) }
    ensures there { IfOk result (λ x. text_at pool.now x.0 ≡ Some x.1.now) }
{
    let ((index, name), rest) = text_index(pool.entries(), end, bytes)?;
    if pool.is_name(kind, index) == Some(true) {
        Ok((index, name, rest))
    } else {
        Err(ReadClassFault::BadText(offset(end, bytes)))
    }
}

/// The index of a descriptor of this kind, the descriptor, and the bytes behind the index.
fn desc_at<'p, 'a>(
    pool: &'p Pool,
    kind: MemberKind,
    end: usize,
    bytes: &'a [u8],
) -> Result<(u16, &'p Units, &'a [u8]), ReadClassFault>
    ensures read { Mirrors (λ x. ((x.0, x.1.now), x.2.now)) result (desc_at end pool.now kind bytes.now) }
    ensures there { IfOk result (λ x. text_at pool.now x.0 ≡ Some x.1.now) }
{
    let ((index, desc), rest) = text_index(pool.entries(), end, bytes)?;
    match pool.desc_flaw(kind, index) {
        Some(Some(DescFlaw::Floating)) => Err(ReadClassFault::Floating(offset(end, bytes))),
        Some(Some(DescFlaw::Bad)) => Err(ReadClassFault::BadText(offset(end, bytes))),
        _ => Ok((index, desc, rest)),
    }
}

fn owner_of(kind: MemberKind, bits: u16, desc: &Units) -> Owner<'_>
    ensures { owner_seen result ≡ owner_of kind bits desc.now }
{
    match kind {
        MemberKind::Method => Owner::Method,
        MemberKind::Field if (Flags { bits }).has(Flag::Static) => Owner::StaticField(desc),
        MemberKind::Field => Owner::Field,
    }
}

fn is_body(attr: &Attr) -> bool
    ensures { result ≡ is_body attr.now }
{
    matches!(attr, Attr::Body { .. })
}

fn body_count(attrs: &[Attr]) -> usize
    ensures { result ≡ length (filter is_body attrs.now) }
{
    attrs.iter().filter(|attr| is_body(attr)).count()
}

/// Whether an abstract method has no code, and any other one.
fn has_its_body(kind: MemberKind, bits: u16, attrs: &[Attr]) -> bool
    ensures { result ≡ has_its_body kind bits attrs.now }
{
    match kind {
        MemberKind::Field => true,
        MemberKind::Method => {
            let is_abstract = (Flags { bits }).has(Flag::Abstract);
            body_count(attrs) == if is_abstract { 0 } else { 1 }
        }
    }
}

/// A field or a method behind others, of which `seen` has the names and descriptors, and the bytes behind it. It is
/// noted there too.
fn member<'p, 'a>(
    alloc: Global,
    reader: &MemberReader<'p>,
    end: usize,
    seen: &mut SeenNames<'p>,
    bytes: &'a [u8],
) -> Result<(Member, &'a [u8]), ReadClassFault>
    // It is what stands behind members of the names that `seen` tells, and `seen` tells its own then too.
    ensures read { let r = reader.now in OfNames r.pool.now seen.old (λ earlier. Mirrors (λ x. ((x.0, names_of r.pool.now x.0), x.1.now)) result (member r.major r.pool.now end r.kind earlier bytes.now)) }
    ensures remembered { let pool = reader.now.pool.now in OfNames pool seen.old (λ earlier. IfOk result (λ x. Remembers pool seen.new (names_of pool x.0 ∷ earlier))) }
{
    let MemberReader { major, pool, kind } = *reader;
    let (bits, rest) = flags_at(kind, end, bytes)?;
    let (name, _, rest) = name_at(pool, kind, end, rest)?;
    let (desc, text, rest) = desc_at(pool, kind, end, rest)?;
    if !seen.insert(pool, name, desc)? {
        return Err(ReadClassFault::Duplicate(offset(end, bytes)));
    }
    let owner = owner_of(kind, bits, text);
    let (attrs, rest) = counted(alloc, &AttrReader { major, pool, owner }, end, rest)?;
    if !has_its_body(kind, bits, attrs.as_slice()) {
        return Err(ReadClassFault::BadMember(offset(end, bytes)));
    }
    let flags = Flags { bits };
    Ok((
        Member {
            flags,
            name,
            desc,
            attrs,
        },
        rest,
    ))
}

/// So many members, one after the other, of which none has the name and the descriptor of another.
fn members_from<'a>(
    alloc: Global,
    reader: &MemberReader<'_>,
    end: usize,
    count: u16,
    bytes: &'a [u8],
) -> Result<(Items<Member>, &'a [u8]), ReadClassFault>
    ensures { let r = reader.now in Mirrors (λ x. (x.0, x.1.now)) result (members_from r.major r.pool.now end r.kind [] count bytes.now) }
{
    let mut seen = SeenNames::new(alloc, reader.pool)?;
    let mut members = Items::new(alloc);
    let mut rest = bytes;
    'members: for _ in 0..count {
        let (member, behind) = member(alloc, reader, end, &mut seen, rest)?;
        members.push(member)?;
        rest = behind;
    }
    Ok((members, rest))
}

/// The members of this kind, with their number in two bytes in front, and the bytes behind them.
pub fn members<'a>(
    alloc: Global,
    reader: &MemberReader<'_>,
    end: usize,
    bytes: &'a [u8],
) -> Result<(Items<Member>, &'a [u8]), ReadClassFault>
    ensures { let r = reader.now in Mirrors (λ x. (x.0, x.1.now)) result (members r.major r.pool.now end r.kind bytes.now) }
{
    let (count, rest) = u2(end, bytes)?;
    members_from(alloc, reader, end, count, rest)
}
