ghost use Rattle.std.specs.Prelude.{◌<◌, ◌^◌};
ghost use Rattle.classfile_items.specs.Reading.{Mirrors, Reads};
ghost use Rattle.classfile_code.specs.CodeReading.{listed, code_array, code};

use crate::code_attrs::CodeAttrReader;
use crate::handlers::HandlerReader;
use crate::instrs::{Listing, instrs};
use class_tree::{Code, Const};
use classfile_items::{ReadClassFault, counted, offset, u2, u4};
use sqlite_items::Items;
use std::alloc::Global;

/// The bytes of a code of this length, its instructions, none of which leads astray, and the bytes behind it.
fn listed<'a>(
    alloc: Global,
    major: u16,
    pool: &[Const],
    end: usize,
    len: usize,
    bytes: &'a [u8],
) -> Result<((&'a [u8], Listing), &'a [u8]), ReadClassFault>
    requires { len < 2 ^ 16 }
    ensures { Mirrors (λ x. ((x.0.0.now, x.0.1), x.1.now)) result (listed major pool.now end len bytes.now) }
{
    let listing = instrs(alloc, major, pool, end, len, bytes)?;
    if let Some(pc) = listing.first_astray() {
        return Err(ReadClassFault::BadCode(offset(end, bytes) + usize::from(pc)));
    }
    let (code, rest) = bytes.split_at(len);
    Ok(((code, listing), rest))
}

/// A code with its length in front. No memory is taken where the length is out of range.
fn code_array<'a>(
    alloc: Global,
    major: u16,
    pool: &[Const],
    end: usize,
    bytes: &'a [u8],
) -> Result<((&'a [u8], Listing), &'a [u8]), ReadClassFault>
    ensures { Mirrors (λ x. ((x.0.0.now, x.0.1), x.1.now)) result (code_array major pool.now end bytes.now) }
{
    let (len, rest) = u4(end, bytes)?;
    if len == 0 || len > 65535 {
        return Err(ReadClassFault::BadLength(offset(end, bytes)));
    }
    listed(alloc, major, pool, end, len as usize, rest)
}

/// The content of an attribute `Code` at the front, in a class of this major version, and the bytes behind it (4.7.3).
pub fn code<'a>(
    alloc: Global,
    major: u16,
    pool: &[Const],
    end: usize,
    bytes: &'a [u8],
) -> Result<(Code, &'a [u8]), ReadClassFault>
    ensures { Reads result (code major pool.now end bytes.now) }
{
    let (max_stack, rest) = u2(end, bytes)?;
    let (max_locals, rest) = u2(end, rest)?;
    let ((array, listing), rest) = code_array(alloc, major, pool, end, rest)?;
    let reader = HandlerReader {
        pool,
        listing: &listing,
        len: array.len(),
    };
    let (handlers, rest) = counted(alloc, &reader, end, rest)?;
    let (attrs, rest) = counted(alloc, &CodeAttrReader { pool }, end, rest)?;
    let code = Code {
        max_stack,
        max_locals,
        bytes: Items::from_slice(alloc, array)?,
        handlers,
        attrs,
    };
    Ok((code, rest))
}
