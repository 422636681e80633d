ghost use Rattle.std.specs.Prelude.{◌≡◌, ◌<◌, take, Err};
ghost use Rattle.jv_names.specs.TextReading.{unit_size};
ghost use Rattle.jv_names.specs.Utf8.{BeginsNoUnit};
ghost use Rattle.classfile_items.specs.Reading.{Reads};
ghost use Rattle.classfile_pool.specs.PoolReading.{next_unit, units_from, text};

use class_tree::Const;
use classfile_items::{ReadClassFault, offset, u2};
use jv_names::{Units, front_units};
use std::alloc::Global;

/// How many bytes spell a unit whose first byte this is (4.4.7).
fn unit_size(first: u8) -> Option<usize>
    ensures { result ≡ unit_size first }
{
    match first {
        0x01..=0x7f => Some(1),
        0xc0 | 0xc2..=0xdf => Some(2),
        0xe0..=0xef => Some(3),
        _ => None,
    }
}

/// Why no unit stands at the front of bytes, of which the text has `left` more.
#[tactic(auto, using(crate::proofs::Texts::unit_missing, crate::proofs::Texts::unit_cut, crate::proofs::Texts::unit_bad))]
fn unit_fault(end: usize, left: usize, bytes: &[u8]) -> ReadClassFault
    requires none { BeginsNoUnit (take left bytes.now) }
    requires more { 0 < left }
    ensures { next_unit end left bytes.now ≡ Err result }
{
    let Some(first) = bytes.first() else {
        return ReadClassFault::Truncated(end);
    };
    match unit_size(*first) {
        Some(size) if size <= left && bytes.len() < size => ReadClassFault::Truncated(end),
        _ => ReadClassFault::BadText(offset(end, bytes)),
    }
}

/// The text that `len` bytes spell, read unit by unit.
fn units(
    alloc: Global,
    end: usize,
    len: usize,
    bytes: &[u8],
) -> Result<(Units, &[u8]), ReadClassFault>
    ensures { Reads result (units_from end len len bytes.now) }
{
    let there = len.min(bytes.len());
    let (own, _) = bytes.split_at(there);
    let (units, unread) = front_units(alloc, own)?;
    let read = there - unread.len();
    let (_, rest) = bytes.split_at(read);
    if read == len {
        Ok((units, rest))
    } else {
        Err(unit_fault(end, len - read, rest))
    }
}

/// A `CONSTANT_Utf8` behind its tag (4.4.7).
pub fn text(alloc: Global, end: usize, bytes: &[u8]) -> Result<(Const, &[u8]), ReadClassFault>
    ensures { Reads result (text end bytes.now) }
{
    let (len, rest) = u2(end, bytes)?;
    let (units, rest) = units(alloc, end, usize::from(len), rest)?;
    Ok((Const::Utf8(units), rest))
}
