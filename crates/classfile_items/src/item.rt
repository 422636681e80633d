ghost use Rattle.std.specs.Prelude.{ℕ, List};
ghost use Rattle.classfile_items.specs.Reading.{Found, Reads, counted, many};

use crate::fault::ReadClassFault;
use crate::number::u2;
use sqlite_items::Items;
use std::alloc::Global;

/// A reader of the items of a list, with all that it needs to know of the class.
pub trait ReadItem {
    type Item: Drop;

    /// What stands at the front of bytes.
    ghost finds: { Self → ℕ → List ℕ → Found Self.Item };

    /// The item at the front of the bytes that are left of a file of `end` bytes, and the bytes behind it.
    fn read<'a>(
        &self,
        alloc: Global,
        end: usize,
        bytes: &'a [u8],
    ) -> Result<(Self::Item, &'a [u8]), ReadClassFault>
        ensures { Reads result (finds self.now end bytes.now) };
}

/// So many items, one after the other. Room is made for all of them first, but for no more than there are bytes.
fn many<'a, R: ReadItem>(
    alloc: Global,
    reader: &R,
    end: usize,
    count: u16,
    bytes: &'a [u8],
) -> Result<(Items<R::Item>, &'a [u8]), ReadClassFault>
    ensures { Reads result (many (R.finds reader.now end) count bytes.now) }
{
    let most = usize::from(count).min(bytes.len());
    let mut items = Items::from_vec(Vec::with_capacity(alloc, most)?);
    let mut rest = bytes;
    'items: for _ in 0..count {
        let (item, behind) = reader.read(alloc, end, rest)?;
        items.push(item)?;
        rest = behind;
    }
    Ok((items, rest))
}

/// Their number in two bytes, and so many items.
#[tactic(auto, unfolding(crate::specs::Reading::counted))]
pub fn counted<'a, R: ReadItem>(
    alloc: Global,
    reader: &R,
    end: usize,
    bytes: &'a [u8],
) -> Result<(Items<R::Item>, &'a [u8]), ReadClassFault>
    ensures { Reads result (counted end (R.finds reader.now end) bytes.now) }
{
    let (count, rest) = u2(end, bytes)?;
    many(alloc, reader, end, count, rest)
}
