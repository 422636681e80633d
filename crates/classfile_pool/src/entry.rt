ghost use Rattle.std.specs.Prelude.{◌≡◌, false};
ghost use Rattle.classfile_items.specs.Reading.{Reads};
ghost use Rattle.classfile_pool.specs.PoolReading.{long, integer, tagged, entry, is_long, place, places};

use crate::text::text;
use class_tree::Const;
use classfile_items::{ReadClassFault, offset, s4, s8, u1, u2};
use sqlite_items::Items;
use std::alloc::Global;

fn integer(end: usize, bytes: &[u8]) -> Result<(Const, &[u8]), ReadClassFault>
    ensures { Reads result (integer end bytes.now) }
{
    let (n, rest) = s4(end, bytes)?;
    Ok((Const::Integer(n), rest))
}

/// A Long, whose tag stands at the offset `at`. `last` says that the pool has no place left for its second one.
fn long(end: usize, last: bool, at: usize, bytes: &[u8]) -> Result<(Const, &[u8]), ReadClassFault>
    ensures { Reads result (long end last at bytes.now) }
{
    if last {
        return Err(ReadClassFault::BadIndex(at));
    }
    let (n, rest) = s8(end, bytes)?;
    Ok((Const::Long(n), rest))
}

/// What an entry's tag announces. The tag stands at the offset `at`, and the bytes behind it.
fn tagged<'a>(
    alloc: Global,
    end: usize,
    last: bool,
    at: usize,
    tag: u8,
    bytes: &'a [u8],
) -> Result<(Const, &'a [u8]), ReadClassFault>
    ensures { Reads result (tagged end last at tag bytes.now) }
{
    match tag {
        1 => text(alloc, end, bytes),
        3 => integer(end, bytes),
        5 => long(end, last, at, bytes),
        7 => {
            let (name, rest) = u2(end, bytes)?;
            Ok((Const::Class(name), rest))
        }
        8 => {
            let (text, rest) = u2(end, bytes)?;
            Ok((Const::Text(text), rest))
        }
        9 => {
            let (class, rest) = u2(end, bytes)?;
            let (pair, rest) = u2(end, rest)?;
            Ok((Const::Field(class, pair), rest))
        }
        10 => {
            let (class, rest) = u2(end, bytes)?;
            let (pair, rest) = u2(end, rest)?;
            Ok((Const::Method(class, pair), rest))
        }
        11 => {
            let (class, rest) = u2(end, bytes)?;
            let (pair, rest) = u2(end, rest)?;
            Ok((Const::InterfaceMethod(class, pair), rest))
        }
        12 => {
            let (name, rest) = u2(end, bytes)?;
            let (desc, rest) = u2(end, rest)?;
            Ok((Const::NameType(name, desc), rest))
        }
        4 | 6 => Err(ReadClassFault::Floating(at)),
        15 | 16 | 18 => Err(ReadClassFault::Unsupported(at)),
        _ => Err(ReadClassFault::BadTag(at)),
    }
}

/// An entry of the pool (4.4). `last` says that its place is the pool's last one.
fn entry<'a>(
    alloc: Global,
    end: usize,
    last: bool,
    bytes: &'a [u8],
) -> Result<(Const, &'a [u8]), ReadClassFault>
    ensures { Reads result (entry end last bytes.now) }
{
    let (tag, rest) = u1(end, bytes)?;
    tagged(alloc, end, last, offset(end, bytes), tag, rest)
}

fn is_long(entry: &Const) -> bool
    ensures { result ≡ is_long entry.now }
{
    matches!(entry, Const::Long(_))
}

/// What stands at a place of the pool. `second` says that it is the second one of a Long, which has no bytes.
fn place<'a>(
    alloc: Global,
    end: usize,
    second: bool,
    last: bool,
    bytes: &'a [u8],
) -> Result<(Const, &'a [u8]), ReadClassFault>
    ensures { Reads result (place end second last bytes.now) }
{
    if second {
        Ok((Const::Unused, bytes))
    } else {
        entry(alloc, end, last, bytes)
    }
}

/// The entries of a pool of so many places, as they are read: what they name is not looked at (4.4). Room is made for all of
/// them first, but for no more than there are bytes.
pub fn places<'a>(
    alloc: Global,
    end: usize,
    count: u16,
    bytes: &'a [u8],
) -> Result<(Items<Const>, &'a [u8]), ReadClassFault>
    ensures { Reads result (places end false count bytes.now) }
{
    let most = usize::from(count).min(bytes.len());
    let mut entries = Items::from_vec(Vec::with_capacity(alloc, most)?);
    let mut rest = bytes;
    let mut second = false;
    'places: for i in 0..count {
        let left = count - i - 1;
        let (entry, behind) = place(alloc, end, second, left == 0, rest)?;
        second = is_long(&entry);
        entries.push(entry)?;
        rest = behind;
    }
    Ok((entries, rest))
}
