ghost use Rattle.std.specs.Prelude.{◌≡◌};
ghost use Rattle.classfile_items.specs.Reading.{MirrorsAlways};
ghost use Rattle.classfile_items.specs.Contents.{text_index, of_length};

use crate::fault::ReadClassFault;
use crate::number::{offset, u2};
use class_tree::{Const, text_at};
use jv_names::Units;

/// The index of a text of the pool at the front, with the text, and the bytes behind the index.
pub fn text_index<'p, 'a>(
    pool: &'p [Const],
    end: usize,
    bytes: &'a [u8],
) -> Result<((u16, &'p Units), &'a [u8]), ReadClassFault>
    ensures { MirrorsAlways (λ x. ((x.0.0, x.0.1.now), x.1.now)) result (text_index end pool.now bytes.now) }
{
    let (index, rest) = u2(end, bytes)?;
    match text_at(pool, index) {
        Some(text) => Ok(((index, text), rest)),
        None => Err(ReadClassFault::BadIndex(offset(end, bytes))),
    }
}

/// What was found at the front of an attribute's content, with the bytes behind it, if that is where the length says that the
/// content ends. The length stands in the four bytes before the content.
pub fn of_length<'a, T: Drop>(
    end: usize,
    len: u32,
    content: &[u8],
    found: (T, &'a [u8]),
) -> Result<(T, &'a [u8]), ReadClassFault>
    ensures { MirrorsAlways (λ x. (x.0, x.1.now)) result (of_length end len content.now (found.entry.0, found.entry.1.now)) }
{
    if content.len().saturating_sub(found.1.len()) == len as usize {
        Ok(found)
    } else {
        Err(ReadClassFault::BadLength(offset(end, content).saturating_sub(4)))
    }
}
